//! What is said of a replay that ended early, and of an output that could not be written.
ghost use Rattle.std.specs.Prelude.{◌≡◌};
ghost use Rattle.alog_program.specs.Status.{status_of};

use crate::script_words::why_refused;
use crate::status::{number_of, status_of};
use crate::traced::{TracedReader, TracedWriter};
use alog_config::Config;
use alog_replay::ReplayError;
use std::alloc::{AllocError, Global};
use std::io::{Error, ErrorKind, Write};

/// Writes the lines of a fault of a replay, its number and what it is, and answers its status. Where there is no memory for the words of
/// a line, that it is refused is said alone.
pub(crate) fn end_replay<I, O, E: Write>(
    alloc: Global,
    fault: ReplayError,
    script: &TracedReader<I>,
    printed: &TracedWriter<O>,
    config: Option<&Config>,
    errors: &mut E,
) -> u8
    ensures { result ≡ status_of fault }
{
    let number = number_of(fault);
    match fault {
        ReplayError::LineRefused { line } => {
            let _ = writeln!(errors, "alog: refused {number} at line {line}");
            say_why(alloc, script.line(alloc, line), config, errors);
        }
        ReplayError::ReadFault => say_fault(fault, script.fault, errors),
        ReplayError::WriteFault => say_fault(fault, printed.fault, errors),
        ReplayError::OutOfMemory => say_fault(fault, None, errors),
    }
    status_of(fault)
}

/// Writes why this line is refused.
fn say_why<E: Write>(
    alloc: Global,
    line: Option<Vec<u8>>,
    config: Option<&Config>,
    errors: &mut E,
) {
    let why = match line {
        Some(line) => why_refused(alloc, line.as_slice(), config),
        None => Err(AllocError),
    };
    let _ = match why {
        Ok(why) => writeln!(errors, "alog: {why}"),
        Err(_) => writeln!(errors, "alog: no command of this form may stand there"),
    };
}

/// Writes the lines of a fault, with the reason that a call had.
fn say_fault<E: Write>(fault: ReplayError, why: Option<ErrorKind>, errors: &mut E) {
    let number = number_of(fault);
    let _ = match why {
        Some(why) => writeln!(errors, "alog: refused {number}\nalog: {fault}: {why}"),
        None => writeln!(errors, "alog: refused {number}\nalog: {fault}"),
    };
}

/// Writes the lines of an output that could not be written, and answers their status.
pub(crate) fn fail_to_write<E: Write>(error: &Error, errors: &mut E) -> u8
    ensures { result ≡ 3 }
{
    say_fault(ReplayError::WriteFault, Some(error.kind()), errors);
    3
}
