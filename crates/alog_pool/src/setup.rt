//! What a pool is started with.
use alog_registry::Loggers;
use alog_sink::{Sink, Store};
use std::fmt;

/// What a pool is started with. Each sink writes any text of the limit, by condition. A logger names its sinks by their places among
/// these; at a number past the last one nothing is done.
#[derive(Drop)]
pub struct Setup<S: Store> {
    /// The number of places of the queue: a power of two from 2 to 65,536.
    pub queue: usize,
    /// The first ticket, below 2^62.
    pub first: u64,
    /// How many workers, 1 to 64.
    pub workers: usize,
    /// How many tickets of each worker the report tells at most. Each worker has room for so many from its start.
    pub tickets_max: usize,
    /// Whether a pool of one worker tells gaps: in front of a text the worker writes one that says how many texts and flushes are missing
    /// there, since posts overran them: a warning of that text's logger and time. With more workers nothing says so.
    pub tells_gaps: bool,
    /// The most bytes of a text, 64 to 8,192.
    pub text_limit: usize,
    pub loggers: Loggers,
    pub sinks: Vec<Sink<S>>,
}

impl<S: Store> fmt::Debug for Setup<S> {
    fn fmt<W: fmt::Write>(&self, f: &mut fmt::Formatter<W>) -> fmt::Result {
        f.debug_struct("Setup")
            .field("queue", &self.queue)
            .field("first", &self.first)
            .field("workers", &self.workers)
            .field("tickets_max", &self.tickets_max)
            .field("tells_gaps", &self.tells_gaps)
            .field("text_limit", &self.text_limit)
            .finish_non_exhaustive()
    }
}
