ghost use Rattle.std.specs.Prelude.{◌≡◌};
ghost use Rattle.alog_core.specs.Error.{begin_number, step_number};

use std::alloc::AllocError;
use thiserror::Error;

/// Why `World::new` made no queue. The test `sizes_and_first_tickets` shows it.
#[derive(Clone, Copy, Debug, PartialEq, Eq, Drop, Error)]
pub enum WorldError {
    /// The number of places is no power of two from 2 to 65,536.
    #[error("the number of places is no power of two from 2 to 65,536")]
    BadSize,
    /// The first ticket is 2^62 or more.
    #[error("the first ticket is not below 2^62")]
    BadFirst,
    /// There was no memory for the cells and the actors.
    #[error("out of memory")]
    OutOfMemory,
}

impl From<AllocError> for WorldError {
    ghost use Rattle.alog_core.specs.declared.error.WorldError.TheVariants.{OutOfMemory};

    ghost from_gives = { λ _ e. e ≡ OutOfMemory };

    fn from(_e: AllocError) -> WorldError {
        WorldError::OutOfMemory
    }
}

/// Why a push or a pop did not begin. The test `refusals` shows it.
#[derive(Clone, Copy, Debug, PartialEq, Eq, Drop, Error)]
pub enum BeginError {
    /// Actors are 0 to 63.
    #[error("the actor is not from 0 to 63")]
    NoActor,
    /// The actor has a call that has not ended.
    #[error("the actor is in a call")]
    InCall,
}

impl BeginError {
    /// The number of the refusal: 6 no such actor, 7 in a call already.
    pub fn number(self) -> u32
        ensures { result ≡ begin_number self }
    {
        match self {
            BeginError::NoActor => 6,
            BeginError::InCall => 7,
        }
    }
}

/// Why a step was not made. The test `refusals` shows it.
#[derive(Clone, Copy, Debug, PartialEq, Eq, Drop, Error)]
pub enum StepError {
    /// Actors are 0 to 63.
    #[error("the actor is not from 0 to 63")]
    NoActor,
    /// The actor is in no call.
    #[error("the actor is in no call")]
    NotInCall,
}

impl StepError {
    /// The number of the refusal: 6 no such actor, 8 not in a call.
    pub fn number(self) -> u32
        ensures { result ≡ step_number self }
    {
        match self {
            StepError::NoActor => 6,
            StepError::NotInCall => 8,
        }
    }
}

/// A push that did not begin, and the item that it brought. The test `refusals` shows it.
#[derive(Debug, PartialEq, Eq, Drop)]
pub struct Refused<T> {
    /// Why.
    pub fault: BeginError,
    /// The item, handed back.
    pub item: T,
}
