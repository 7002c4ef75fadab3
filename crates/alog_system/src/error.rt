ghost use Rattle.std.specs.Prelude.{◌≡◌};
ghost use Rattle.alog_system.specs.Error.{begin_fault_of, system_fault_of};

use alog_core::WorldError;
use alog_msg::MessageError;
use std::alloc::AllocError;
use thiserror::Error;

/// Why a deed did not begin; the reasons are looked at in this order.
#[derive(Clone, Copy, Debug, PartialEq, Eq, Drop, Error)]
pub enum BeginError {
    /// Actors are 0 to 63.
    #[error("the actor is not from 0 to 63")]
    NoActor,
    /// The actor has a call that has not ended.
    #[error("the actor is in a call")]
    InCall,
    /// The text has more bytes than the text limit.
    #[error("the text is longer than the text limit, which may be 64 to 8,192 bytes")]
    TextTooLong,
    /// There was no memory for what the deed needs.
    #[error("out of memory")]
    OutOfMemory,
}

impl From<AllocError> for BeginError {
    ghost use Rattle.alog_system.specs.declared.error.BeginError.TheVariants.{OutOfMemory};

    ghost from_gives = { λ _ e. e ≡ OutOfMemory };

    fn from(_error: AllocError) -> BeginError {
        BeginError::OutOfMemory
    }
}

impl From<MessageError> for BeginError {
    ghost from_gives = { λ m e. e ≡ begin_fault_of m };

    fn from(error: MessageError) -> BeginError {
        match error {
            MessageError::TextTooLong | MessageError::FieldTooLong => BeginError::TextTooLong,
            MessageError::OutOfMemory => BeginError::OutOfMemory,
        }
    }
}

/// Why there is no system.
#[derive(Clone, Copy, Debug, PartialEq, Eq, Drop, Error)]
pub enum SystemError {
    /// The number of places is no power of two from 2 to 65,536.
    #[error("the number of places is no power of two from 2 to 65,536")]
    BadSize,
    /// There was no memory for the places, the actors, the backtraces and the line buffer.
    #[error("out of memory")]
    OutOfMemory,
}

impl From<AllocError> for SystemError {
    ghost use Rattle.alog_system.specs.declared.error.SystemError.TheVariants.{OutOfMemory};

    ghost from_gives = { λ _ e. e ≡ OutOfMemory };

    fn from(_error: AllocError) -> SystemError {
        SystemError::OutOfMemory
    }
}

impl From<WorldError> for SystemError {
    ghost from_gives = { λ w e. e ≡ system_fault_of w };

    fn from(error: WorldError) -> SystemError {
        match error {
            WorldError::BadSize | WorldError::BadFirst => SystemError::BadSize,
            WorldError::OutOfMemory => SystemError::OutOfMemory,
        }
    }
}
