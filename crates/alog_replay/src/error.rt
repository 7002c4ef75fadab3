ghost use Rattle.std.specs.Prelude.{◌≡◌};
ghost use Rattle.alog_replay.specs.declared.error.LineError.TheVariants.{Refused, OutOfMemory};
ghost use Rattle.alog_replay.specs.declared.error.ReplayError.TheVariants as fault;
ghost use Rattle.alog_replay.specs.Error.{line_fault_of, line_fault_of_begin, line_fault_of_message};

use crate::lines::ReadFault;
use crate::pushed::Pushed;
use alog_core::{BeginError, Refused, StepError, WorldError};
use alog_msg::MessageError;
use std::alloc::AllocError;
use thiserror::Error;

/// Why a line of a script was not carried out to its end.
#[derive(Clone, Copy, Debug, PartialEq, Eq, Error)]
pub enum LineError {
    /// It is no line that may stand there.
    #[error("the line is refused")]
    Refused,
    /// There was no memory.
    #[error("out of memory")]
    OutOfMemory,
}

impl From<AllocError> for LineError {
    ghost from_gives = { λ _ e. e ≡ OutOfMemory };

    fn from(_error: AllocError) -> LineError {
        LineError::OutOfMemory
    }
}

impl From<WorldError> for LineError {
    ghost from_gives = { λ w e. e ≡ line_fault_of w };

    fn from(fault: WorldError) -> LineError {
        match fault {
            WorldError::BadSize | WorldError::BadFirst => LineError::Refused,
            WorldError::OutOfMemory => LineError::OutOfMemory,
        }
    }
}

impl From<MessageError> for LineError {
    ghost from_gives = { λ m e. e ≡ line_fault_of_message m };

    fn from(fault: MessageError) -> LineError {
        match fault {
            MessageError::TextTooLong | MessageError::FieldTooLong => LineError::Refused,
            MessageError::OutOfMemory => LineError::OutOfMemory,
        }
    }
}

impl From<Refused<Pushed>> for LineError {
    ghost from_gives = { λ _ e. e ≡ Refused };

    fn from(_refused: Refused<Pushed>) -> LineError {
        LineError::Refused
    }
}

impl From<BeginError> for LineError {
    ghost from_gives = { λ _ e. e ≡ Refused };

    fn from(_fault: BeginError) -> LineError {
        LineError::Refused
    }
}

impl From<alog_system::BeginError> for LineError {
    ghost from_gives = { λ b e. e ≡ line_fault_of_begin b };

    fn from(fault: alog_system::BeginError) -> LineError {
        match fault {
            alog_system::BeginError::NoActor
            | alog_system::BeginError::InCall
            | alog_system::BeginError::TextTooLong => LineError::Refused,
            alog_system::BeginError::OutOfMemory => LineError::OutOfMemory,
        }
    }
}

impl From<StepError> for LineError {
    ghost from_gives = { λ _ e. e ≡ Refused };

    fn from(_fault: StepError) -> LineError {
        LineError::Refused
    }
}

/// Why a script was not replayed to its end. What was written before stands. The tests `a_reader_failing` and `want_of_memory` of
/// `test_program` show it.
#[derive(Clone, Copy, Debug, PartialEq, Eq, Error)]
pub enum ReplayError {
    /// This line, counted from 1, is refused: the lines before it and the steps done on it are written.
    #[error("line {line} is refused")]
    LineRefused { line: u64 },
    /// The script could not be read to its end.
    #[error("the script could not be read")]
    ReadFault,
    /// What was to be printed could not be written.
    #[error("the output could not be written")]
    WriteFault,
    /// There was no memory.
    #[error("out of memory")]
    OutOfMemory,
}

impl From<AllocError> for ReplayError {
    ghost from_gives = { λ _ e. e ≡ fault.OutOfMemory };

    fn from(_error: AllocError) -> ReplayError {
        ReplayError::OutOfMemory
    }
}

impl From<ReadFault> for ReplayError {
    ghost from_gives = { λ _ e. e ≡ fault.ReadFault };

    fn from(_fault: ReadFault) -> ReplayError {
        ReplayError::ReadFault
    }
}
