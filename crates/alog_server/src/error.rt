//! Why a message was not logged, a server not started, and why it did not run.
use alog_config::ConfigFault;
use alog_msg::MessageError;
use std::alloc::AllocError;
use thiserror::Error;

/// Why a client's call was refused. Nothing was done then.
#[derive(Clone, Copy, Debug, PartialEq, Eq, Drop, Error)]
pub enum LogError {
    #[error("there is no logger of this name")]
    NoLogger,
    /// The clock cannot be read, or shows a time after 2262.
    #[error("the clock cannot be read, or shows a time after 2262")]
    NoTime,
    /// The text has more bytes than the configuration allows.
    #[error("the text is longer than the key `text` of the configuration allows, which may be 64 to 8,192 bytes")]
    TextTooLong,
    /// The source's file has more than 256 bytes, or its function more than 128.
    #[error("the file has more than 256 bytes or the function more than 128")]
    FieldTooLong,
    #[error("out of memory")]
    OutOfMemory,
}

impl From<MessageError> for LogError {
    ghost use Rattle.std.specs.Prelude.{◌≡◌};
    ghost use Rattle.alog_server.specs.Reasons.{told};

    ghost from_gives = { λ m e. e ≡ told m };

    fn from(error: MessageError) -> LogError {
        match error {
            MessageError::TextTooLong => LogError::TextTooLong,
            MessageError::FieldTooLong => LogError::FieldTooLong,
            MessageError::OutOfMemory => LogError::OutOfMemory,
        }
    }
}

/// Why no server was started. No worker is left then, and no line was given to a file.
#[derive(Debug, Drop, Error)]
pub enum StartError {
    /// The document is no configuration.
    #[error("{text}")]
    Config {
        fault: ConfigFault,
        /// What `alog check` says of it: the number of the refusal, the place, and what a person has to mend.
        text: String,
    },
    /// The files of the sinks cannot be written to the folder, or another alog holds it.
    #[error("{text}")]
    Unwritable {
        /// Which path it is, and what is wrong with it.
        text: String,
    },
    /// A store failed when its sink was opened.
    #[error("{text}")]
    Store {
        /// Which sink it is, and what the system said of the store's call.
        text: String,
    },
    /// There was no memory, or a thread could not be started.
    #[error("out of memory, or a thread could not be started")]
    OutOfMemory,
}

impl From<AllocError> for StartError {
    ghost use Rattle.std.specs.Prelude.{◌≡◌};
    ghost use Rattle.alog_server.specs.declared.error.StartError.TheVariants.{OutOfMemory};

    ghost from_gives = { λ _ e. e ≡ OutOfMemory };

    fn from(_error: AllocError) -> StartError {
        StartError::OutOfMemory
    }
}

/// Why no work was done. The pool was ended, and the buffers of its files are written.
#[derive(Clone, Copy, Debug, PartialEq, Eq, Drop, Error)]
pub enum RunError {
    #[error("the threads are not from 1 to 4,096")]
    BadThreads,
    #[error("out of memory")]
    OutOfMemory,
}
