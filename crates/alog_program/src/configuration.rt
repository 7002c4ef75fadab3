//! The configuration of a file, for the commands that read one.
ghost use Rattle.std.specs.Prelude.{◌≡◌, ◌≢◌, ◌⊎◌, IfErr};

use crate::program::fail;
use alog_config::{ConfigFault, Place, explain};
use alog_replay::ReplayError;
use std::alloc::Global;
use std::fs;
use std::io::{ErrorKind, Write};
use std::rt::Files;

/// The bytes of a file; or the exit status where it cannot be read, of which a line is written.
pub(crate) fn read_document<R: AllocGlobal + Files, E: Write>(
    rt: &R,
    file: &str,
    errors: &mut E,
) -> Result<Vec<u8>, u8>
    ensures { IfErr result (λ status. (status ≡ 3) ⊎ (status ≡ 4)) }
{
    match fs::read(rt, file) {
        Ok(document) => Ok(document),
        Err(error) if error.kind() == ErrorKind::OutOfMemory => {
            Err(fail(ReplayError::OutOfMemory, errors))
        }
        Err(error) => {
            let _ = writeln!(errors, "alog: {file} cannot be read: {error}");
            Err(3)
        }
    }
}

/// Writes the line of a refused configuration, and below it what is wrong with it, and answers its status.
pub(crate) fn refuse<E: Write>(
    alloc: Global,
    document: &[u8],
    fault: ConfigFault,
    errors: &mut E,
) -> u8
    ensures { ((fault ≡ ConfigFault.OutOfMemory) × (result ≡ 4)) ⊎ ((fault ≢ ConfigFault.OutOfMemory) × (result ≡ 2)) }
{
    let number = fault.number();
    let _ = match fault {
        ConfigFault::OutOfMemory => return fail(ReplayError::OutOfMemory, errors),
        ConfigFault::NotToml => writeln!(errors, "alog: refused {number}"),
        ConfigFault::Broken { place, .. } => match place {
            Place::Top => writeln!(errors, "alog: refused {number} in top"),
            Place::Sink(i) => writeln!(errors, "alog: refused {number} in sink {i}"),
            Place::Logger(i) => writeln!(errors, "alog: refused {number} in logger {i}"),
        },
    };
    say_why(alloc, document, fault, errors);
    2
}

/// Writes the line that says what a person has to mend. Where there is no memory for it, what is refused is said alone,
/// which needs none.
fn say_why<E: Write>(alloc: Global, document: &[u8], fault: ConfigFault, errors: &mut E) {
    let _ = match explain(alloc, document, fault) {
        Ok(text) => writeln!(errors, "alog: {text}"),
        Err(_) => writeln!(errors, "alog: {fault}"),
    };
}
