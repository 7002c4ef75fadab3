//! Why a worker was not made, and why a pool was not ended.
use crate::host::Host;
use crate::hosted::Hosted;
use crate::producer::HostedProducer;
use crate::worker::HostedWorker;
use alog_sink::Store;
use std::fmt;
use thiserror::Error;

/// Why no worker was made. Nothing changed.
#[derive(Clone, Copy, Debug, PartialEq, Eq, Drop, Error)]
pub enum WorkerError {
    #[error("the pool made as many workers as its setup says")]
    TooMany,
    #[error("out of memory")]
    OutOfMemory,
}

/// Not all producers and workers that the pool made were handed in. All comes back as it was. What is in it may not be let go, so it is no
/// `std::error::Error`, which has to be `Drop`.
pub struct PartsOut<S: Store> {
    pub host: Host<S>,
    pub hosted: Hosted<S>,
    pub producers: Vec<HostedProducer>,
    pub workers: Vec<HostedWorker<S>>,
}

impl<S: Store> fmt::Debug for PartsOut<S> {
    fn fmt<W: fmt::Write>(&self, f: &mut fmt::Formatter<W>) -> fmt::Result {
        f.pad("PartsOut { .. }")
    }
}

impl<S: Store> fmt::Display for PartsOut<S> {
    fn fmt<W: fmt::Write>(&self, f: &mut fmt::Formatter<W>) -> fmt::Result {
        f.pad("not all producers and workers are here")
    }
}
