//! The room for what a pool needs at its end.
ghost use Rattle.std.specs.Prelude.{IfOk};
ghost use Rattle.alog_hosted.specs.Host.{HasRoom};

use crate::owed::Owed;
use alog_msg::Block;
use alog_sink::{Sink, Store};
use std::alloc::{AllocError, Global};

/// An item that a worker brings back half done.
#[derive(Drop)]
pub(crate) struct Half {
    pub(crate) block: Block,
    pub(crate) owed: Owed,
}

/// The room for a report's lists, and for the items that workers bring back half done. A pool has it from its start: its end takes no memory.
#[derive(Drop)]
pub(crate) struct Blank<S: Store> {
    pub(crate) tickets: Vec<Vec<u64>>,
    pub(crate) halves: Vec<Half>,
    pub(crate) faults: Vec<u64>,
    pub(crate) sinks: Vec<Sink<S>>,
}

impl<S: Store + Drop> Blank<S> {
    /// Room for so many workers and sinks.
    pub(crate) fn new(alloc: Global, workers: usize, sinks: usize) -> Result<Blank<S>, AllocError>
        ensures { IfOk result (λ b. HasRoom workers sinks b) }
    {
        Ok(Blank {
            tickets: Vec::with_capacity(alloc, workers)?,
            halves: Vec::with_capacity(alloc, workers)?,
            faults: Vec::with_capacity(alloc, sinks)?,
            sinks: Vec::with_capacity(alloc, sinks)?,
        })
    }
}
