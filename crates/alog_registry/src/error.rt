//! Why a logger was not added, and why a backtrace was not dumped.
use crate::logger::Spec;
use std::alloc::AllocError;
use thiserror::Error;

/// Why a logger was not added; the reasons are looked at in this order. The test `refusals_in_order` shows it.
#[derive(Clone, Copy, Debug, PartialEq, Eq, Drop, Error)]
pub enum AddError {
    /// The name has more than 64 bytes.
    #[error("the name has more than 64 bytes")]
    FieldTooLong,
    /// A logger has this name.
    #[error("a logger has this name")]
    NameTaken,
    /// There are 256 loggers.
    #[error("there are 256 loggers")]
    TooMany,
    /// The backtrace is to keep more than 4,096 messages.
    #[error("a backtrace keeps at most 4096 messages")]
    BadLimit,
    /// There was no memory for the logger.
    #[error("out of memory")]
    OutOfMemory,
}

/// A logger that was not added: its spec comes back. The test `refusals_in_order` shows it.
#[derive(Debug, Drop)]
pub struct RefusedSpec {
    /// Why.
    pub fault: AddError,
    /// What it was to be.
    pub spec: Spec,
}

/// Why a shared backtrace was not dumped without waiting. The test `a_dump_that_is_held` shows the second.
#[derive(Clone, Copy, Debug, PartialEq, Eq, Drop, Error)]
pub enum DumpError {
    /// There was no memory for what the dump needs.
    #[error("out of memory")]
    OutOfMemory,
    /// Another thread is at the backtrace.
    #[error("another thread is at the backtrace")]
    Held,
}

impl From<AllocError> for DumpError {
    ghost use Rattle.std.specs.Prelude.{◌≡◌};
    ghost use Rattle.alog_registry.specs.declared.error.DumpError.TheVariants.{OutOfMemory};

    ghost from_gives = { λ _ e. e ≡ OutOfMemory };

    fn from(_error: AllocError) -> DumpError {
        DumpError::OutOfMemory
    }
}
