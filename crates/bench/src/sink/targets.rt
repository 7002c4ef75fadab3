//! What messages are given to.
use crate::lines::PATTERN;
use crate::outputs::{FILE, emptied, face};
use alog_msg::Level;
use alog_sink::{FolderStore, MemStore, Sink, Store};
use anyhow::Result;
use std::alloc::Global;
use std::rt::Files;

/// The names of all files that a run makes.
const FILES: [&str; 5] = [
    "log.txt",
    "log.1.txt",
    "log.2.txt",
    "log.3.txt",
    "log_2023-11-14.txt",
];

/// A kind of sink.
#[derive(Clone, Copy)]
pub enum Kind {
    /// One file.
    Memory,
    /// A file of a mebibyte, and three that were full.
    Rotating,
    /// The files of three days.
    Daily,
}

fn sink<S: Store + Drop>(alloc: Global, kind: Kind, store: S) -> Result<Sink<S>> {
    let face = face(alloc, PATTERN)?;
    let sink = match kind {
        Kind::Memory => Sink::memory(alloc, face, store, FILE),
        Kind::Rotating => Sink::rotating(alloc, face, store, FILE, 1 << 20, 3),
        Kind::Daily => Sink::daily(alloc, face, store, FILE, 0, 0, 3),
    };
    match sink {
        Ok(sink) => Ok(sink),
        Err(refused) => Err(refused.error.into()),
    }
}

/// A sink over files in memory.
pub fn in_memory(alloc: Global, kind: Kind) -> Result<Sink<MemStore>> {
    sink(alloc, kind, MemStore::new(alloc))
}

/// A sink over a folder, from which the files of earlier runs are removed.
pub fn in_folder<R: Files + Clone + Drop>(
    rt: &R,
    alloc: Global,
    kind: Kind,
    path: &str,
) -> Result<Sink<FolderStore<R>>> {
    sink(alloc, kind, emptied(rt, alloc, path, &FILES)?)
}

/// A sink that writes one file and one that rotates.
fn members(alloc: Global) -> Result<Vec<Sink<MemStore>>> {
    let mut members = Vec::with_capacity(alloc, 2)?;
    for kind in [Kind::Memory, Kind::Rotating] {
        members.push(in_memory(alloc, kind)?)?;
    }
    Ok(members)
}

/// A fan of one that writes one file and one that rotates.
pub fn fan(alloc: Global) -> Result<Sink<MemStore>> {
    match Sink::fan(alloc, Level::Trace, members(alloc)?) {
        Ok(sink) => Ok(sink),
        Err(refused) => Err(refused.error.into()),
    }
}
