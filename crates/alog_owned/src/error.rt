//! Why a log was refused, or a dump.
use alog_msg::MessageError;
use alog_registry::DumpError;
use thiserror::Error;

/// Why nothing was logged. Nothing changed.
#[derive(Clone, Copy, Debug, PartialEq, Eq, Drop, Error)]
pub enum LogError {
    /// There is no logger of this number.
    #[error("there is no such logger")]
    NoLogger,
    /// The message was refused.
    #[error("{0}")]
    Refused(MessageError),
}

/// Why nothing was dumped. Nothing changed.
#[derive(Clone, Copy, Debug, PartialEq, Eq, Drop, Error)]
pub enum OwnedDumpError {
    /// There is no logger of this number.
    #[error("there is no such logger")]
    NoLogger,
    /// The dump was refused.
    #[error("{0}")]
    Refused(DumpError),
}
