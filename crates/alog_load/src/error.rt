//! Why a load has no report.
use alog_config::BuildError;
use std::alloc::AllocError;
use std::io;
use thiserror::Error;

/// Why a load has no report. What was written to the stores stands, and a pool that was started was ended.
#[derive(Clone, Copy, Debug, Drop, Error)]
pub enum LoadError {
    /// This is looked at before anything else.
    #[error("the producers are not from 1 to 64, or the messages are over 1,000,000")]
    BadValue,
    /// A store failed when its sink was opened.
    #[error("a store failed")]
    Store {
        /// The sink's number in the configuration, from 0.
        sink: usize,
        /// Why the store's call failed, where the store tells it.
        reason: Option<io::Error>,
    },
    /// There was no memory, or a thread could not be started.
    #[error("out of memory, or a thread could not be started")]
    OutOfMemory,
}

impl From<AllocError> for LoadError {
    ghost use Rattle.std.specs.Prelude.{◌≡◌};
    ghost use Rattle.alog_load.specs.declared.error.LoadError.TheVariants.{OutOfMemory};

    ghost from_gives = { λ _ e. e ≡ OutOfMemory };

    fn from(_error: AllocError) -> LoadError {
        LoadError::OutOfMemory
    }
}

impl From<BuildError> for LoadError {
    ghost use Rattle.alog_load.specs.Load.{IsOfBuild};

    ghost from_gives = { λ b e. IsOfBuild b e };

    fn from(error: BuildError) -> LoadError {
        match error {
            BuildError::OutOfMemory => LoadError::OutOfMemory,
            BuildError::Store { sink, reason } => LoadError::Store { sink, reason },
        }
    }
}
