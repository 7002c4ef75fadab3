//! What a pool answers at its end.
ghost use Rattle.std.specs.Prelude.{IfOk};
ghost use Rattle.alog_pool.specs.Report.{AreSums};
ghost use Rattle.alog_pool.specs.Room.{HasRoom};

use alog_policy::Counts;
use alog_sink::{Sink, Store};
use std::alloc::{AllocError, Global};
use std::fmt;

/// What became of the texts and flushes that the producers of a pool logged, each number modulo 2^64. What was asked was posted or
/// discarded, and what was posted was overrun or handled. Stops are not counted.
#[derive(Clone, Copy, Debug, PartialEq, Eq, Drop)]
pub struct Totals {
    /// Posted or discarded.
    pub asked: u64,
    /// Put into the queue.
    pub posted: u64,
    /// Given up, as its policy says: the queue was full, 64 rounds went on, or no ticket was left.
    pub discarded: u64,
    /// Taken out of the queue by a post, to make room.
    pub overrun: u64,
    /// Taken out of the queue by a worker, which made the turns that were due. What a pool whose host brings the threads makes of the
    /// queue at its end counts with them.
    pub handled: u64,
}

/// What a pool answers at its end.
#[derive(Drop)]
pub struct Report<S: Store> {
    pub totals: Totals,
    /// The tickets of the first texts and flushes of each worker, rising, at most as many of each as the setup said.
    pub tickets: Vec<Vec<u64>>,
    /// How many turns at each sink were answered by a fault, at most 2^64 - 1.
    pub faults: Vec<u64>,
    /// The sinks, in the order of the setup.
    pub sinks: Vec<Sink<S>>,
}

impl<S: Store> fmt::Debug for Report<S> {
    fn fmt<W: fmt::Write>(&self, f: &mut fmt::Formatter<W>) -> fmt::Result {
        f.debug_struct("Report")
            .field("totals", &self.totals)
            .field("tickets", &self.tickets)
            .field("faults", &self.faults)
            .finish_non_exhaustive()
    }
}

impl Totals {
    /// The totals of so many losses, and so many texts and flushes that were handled.
    pub fn of(lost: Counts, handled: u64) -> Totals
        ensures { AreSums lost handled result }
    {
        let posted = lost.overrun.wrapping_add(handled);
        Totals {
            asked: posted.wrapping_add(lost.discarded),
            posted,
            discarded: lost.discarded,
            overrun: lost.overrun,
            handled,
        }
    }
}

/// The room for a report's lists, which a pool has from its start: its end takes no memory.
#[derive(Drop)]
pub(crate) struct Blank<S: Store> {
    pub(crate) tickets: Vec<Vec<u64>>,
    pub(crate) faults: Vec<u64>,
    pub(crate) sinks: Vec<Sink<S>>,
}

impl<S: Store + Drop> Blank<S> {
    /// Room for so many workers and sinks.
    pub(crate) fn new(alloc: Global, workers: usize, sinks: usize) -> Result<Blank<S>, AllocError>
        ensures { IfOk result (λ b. HasRoom workers sinks b) }
    {
        Ok(Blank {
            tickets: Vec::with_capacity(alloc, workers)?,
            faults: Vec::with_capacity(alloc, sinks)?,
            sinks: Vec::with_capacity(alloc, sinks)?,
        })
    }
}
