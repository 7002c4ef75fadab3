//! Exit statuses, and the line on standard error that each fault has.
ghost use Rattle.std.specs.Prelude.{◌≡◌};
ghost use Rattle.alog_program.specs.Status.{load_number_of, load_status_of, number_of, status_of};

use alog_load::LoadError;
use alog_replay::ReplayError;

/// The program's exit status for a fault: 2 for refused input, 3 for a read or write fault, 4 for want of memory.
pub fn status_of(fault: ReplayError) -> u8
    ensures { result ≡ status_of fault }
{
    match fault {
        ReplayError::LineRefused { .. } => 2,
        ReplayError::ReadFault | ReplayError::WriteFault => 3,
        ReplayError::OutOfMemory => 4,
    }
}

/// The number of the refusal, as `docs/FORMATS.md` has them.
pub fn number_of(fault: ReplayError) -> u8
    ensures { result ≡ number_of fault }
{
    match fault {
        ReplayError::OutOfMemory => 1,
        ReplayError::LineRefused { .. } => 33,
        ReplayError::ReadFault => 34,
        ReplayError::WriteFault => 35,
    }
}

/// The program's exit status for a fault of a load: 1 for numbers out of their bounds, 3 for a store that failed, 4 for want
/// of memory.
pub fn load_status_of(fault: LoadError) -> u8
    ensures { result ≡ load_status_of fault }
{
    match fault {
        LoadError::BadValue => 1,
        LoadError::Store { .. } => 3,
        LoadError::OutOfMemory => 4,
    }
}

/// The number of the refusal of a load, as `docs/FORMATS.md` has them.
pub fn load_number_of(fault: LoadError) -> u8
    ensures { result ≡ load_number_of fault }
{
    match fault {
        LoadError::OutOfMemory => 1,
        LoadError::BadValue => 20,
        LoadError::Store { .. } => 22,
    }
}
