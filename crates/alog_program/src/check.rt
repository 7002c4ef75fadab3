//! `alog check`: whether a file has a configuration.
ghost use Rattle.alog_program.specs.Checks.{Checks, ChecksFile};

use crate::configuration::{read_document, refuse};
use crate::ended::fail_to_write;
use crate::program::write_out;
use alog_config::read;
use std::alloc::Global;
use std::io::Write;
use std::rt::Files;

/// `alog check`: writes `ok` where the file has a configuration, and else says what is wrong with it.
pub(crate) fn check_command<R: AllocGlobal + Files, O: Write, E: Write>(
    rt: &R,
    file: &str,
    output: &mut O,
    errors: &mut E,
) -> u8
    ensures { ChecksFile result (O.contents output.old) (O.contents output.new) }
{
    match read_document(rt, file, errors) {
        Ok(document) => check(rt.alloc(), document.as_slice(), output, errors),
        Err(status) => status,
    }
}

/// Says whether a document is a configuration.
fn check<O: Write, E: Write>(alloc: Global, document: &[u8], output: &mut O, errors: &mut E) -> u8
    ensures { Checks document.now result (O.contents output.old) (O.contents output.new) }
{
    match read(alloc, document) {
        Ok(_) => match write_out(output, b"ok\n") {
            Ok(()) => 0,
            Err(error) => fail_to_write(&error, errors),
        },
        Err(fault) => refuse(alloc, document, fault, errors),
    }
}
