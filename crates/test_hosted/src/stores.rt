//! A store whose lines have memory, and that may hold a worker.
ghost use Rattle.std.specs.Prelude.{◌≡◌, IfOk};
ghost use Rattle.std.specs.List.{AllByRecursion};
ghost use Rattle.alog_pattern.specs.declared.patterns.TheConstants.{LINE_MAX};
ghost use Rattle.alog_sink.specs.Sinks.{Suits};
ghost use Rattle.test_hosted.specs.declared.sinks.TheConstants.{TEXT_LIMIT};

use crate::flags::{Flags, stay};
use crate::sinks::{face, sink};
use alog_pool::Report;
use alog_sink::{Sink, Store, StoreError};
use std::alloc::{AllocError, Global};
use std::io;
use std::process::Abort;
use std::sync::Arc;

/// More bytes than all lines have.
const ROOM: usize = 4_096;

/// Lines, for which memory was reserved: what has no room there is lost. It counts its appends and flushes, and waits in the append of one number
/// until its flags let it go on. Contracts know nothing of it.
#[derive(Drop)]
pub struct Reserved {
    lines: Vec<u8>,
    appends: u64,
    flushes: u64,
    flags: Option<Arc<Flags>>,
    stays_at: u64,
}

impl Reserved {
    /// One that waits nowhere.
    pub fn new(alloc: Global) -> Result<Reserved, AllocError> {
        Ok(Reserved {
            lines: Vec::with_capacity(alloc, ROOM)?,
            appends: 0,
            flushes: 0,
            flags: None,
            stays_at: u64::MAX,
        })
    }

    /// One that waits in the append of this number.
    pub fn staying(
        alloc: Global,
        flags: &Arc<Flags>,
        stays_at: u64,
    ) -> Result<Reserved, AllocError> {
        let mut store = Reserved::new(alloc)?;
        store.flags = Some(Arc::try_clone(flags)?);
        store.stays_at = stays_at;
        Ok(store)
    }

    /// Waits, if it is to wait in its next append.
    fn wait(&self) {
        if self.appends == self.stays_at {
            if let Some(flags) = &self.flags {
                stay(flags);
            }
        }
    }
}

impl Store for Reserved {
    ghost use Rattle.std.specs.Prelude.{false, None};
    ghost use Rattle.alog_sink.specs.Files.{no_files};

    ghost files = { λ _. no_files };

    ghost tells = { false };

    ghost failures = { λ _. 0 };

    ghost why = { λ _. None };

    fn append(&mut self, _name: &str, bytes: &[u8]) -> Result<(), StoreError> {
        self.wait();
        self.appends = self.appends.saturating_add(1);
        drop(self.lines.extend_from_slice(bytes));
        Ok(())
    }

    fn rename(&mut self, _from: &str, _to: &str) -> Result<(), StoreError> {
        Ok(())
    }

    fn remove(&mut self, _name: &str) -> Result<(), StoreError> {
        Ok(())
    }

    fn size(&mut self, _name: &str) -> Result<Option<u64>, StoreError> {
        Ok(None)
    }

    fn flush(&mut self, _name: &str) -> Result<(), StoreError> {
        self.flushes = self.flushes.saturating_add(1);
        Ok(())
    }

    fn reason(&self) -> Option<io::Error> {
        None
    }
}

/// A sink over the one store, and one over the other.
pub fn two_sinks(
    alloc: Global,
    one: Reserved,
    other: Reserved,
) -> Result<Vec<Sink<Reserved>>, AllocError>
    ensures { IfOk result (λ v. AllByRecursion (Suits TEXT_LIMIT LINE_MAX) v.items) }
{
    let mut sinks = Vec::with_capacity(alloc, 2)?;
    sinks.push_reserved(sink(alloc, face(alloc)?, one)?);
    sinks.push_reserved(sink(alloc, face(alloc)?, other)?);
    Ok(sinks)
}

/// The store of this sink has these lines, and was flushed so often.
pub fn has_lines(
    rt: &impl Abort,
    report: &Report<Reserved>,
    sink: usize,
    lines: &[u8],
    flushes: u64,
) {
    let Some(store) = report.sinks.get(sink).and_then(|sink| sink.store()) else {
        panic!(rt; "no sink")
    };
    assert!(rt; store.lines.as_slice() == lines);
    assert!(rt; store.flushes == flushes, "{}", store.flushes);
}
