//! Why a pool, or a producer, was not made, and why a pool was not ended.
use crate::pool::Pool;
use crate::producer::Producer;
use alog_sink::Store;
use std::fmt;
use thiserror::Error;

/// Why no pool was started, in the order in which the reasons are looked at.
#[derive(Clone, Copy, Debug, PartialEq, Eq, Drop, Error)]
pub enum StartError {
    #[error("the number of workers is not from 1 to 64")]
    BadWorkers,
    #[error("the queue's number of places is no power of two from 2 to 65,536")]
    BadSize,
    #[error("the first ticket is not below 2^62")]
    BadFirst,
    /// There was no memory, or a thread could not be started. Workers that were started are told to stop, and end.
    #[error("out of memory, or a thread could not be started")]
    OutOfMemory,
}

/// Why no producer was made. Nothing changed.
#[derive(Clone, Copy, Debug, PartialEq, Eq, Drop, Error)]
pub enum ProducerError {
    #[error("the pool made as many producers as it may, at most 4,096")]
    TooMany,
    #[error("out of memory")]
    OutOfMemory,
}

/// Not all producers that the pool made were handed in. Pool and producers come back as they were, and are no more let go than before:
/// so this is no `std::error::Error`, which has to be `Drop`.
pub struct ProducersOut<S: Store> {
    pub pool: Pool<S>,
    pub producers: Vec<Producer>,
}

impl<S: Store> fmt::Debug for ProducersOut<S> {
    fn fmt<W: fmt::Write>(&self, f: &mut fmt::Formatter<W>) -> fmt::Result {
        f.pad("ProducersOut { .. }")
    }
}

impl<S: Store> fmt::Display for ProducersOut<S> {
    fn fmt<W: fmt::Write>(&self, f: &mut fmt::Formatter<W>) -> fmt::Result {
        f.pad("not all producers are here")
    }
}
