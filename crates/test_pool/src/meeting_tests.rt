//! A pool whose sinks wait for each other.
ghost use Rattle.std.specs.Prelude.{IfOk};
ghost use Rattle.std.specs.List.{AllByRecursion};
ghost use Rattle.alog_pattern.specs.declared.patterns.TheConstants.{LINE_MAX};
ghost use Rattle.alog_sink.specs.Sinks.{Suits};
ghost use Rattle.test_pool.specs.declared.sinks.TheConstants.{TEXT_LIMIT};

use crate::sinks::two_sinks;
use crate::trial::{PLAIN, Plan, Trial, setup_over};
use alog_pool::{OpenGate, Report};
use alog_sink::{Sink, Store, StoreError};
use std::alloc::{AllocError, Global};
use std::process::Abort;
use std::sync::atomic::{AtomicBool, Ordering};
use std::sync::{Arc, Wait};
use std::thread::Threads;
use std::time::Clock;
use std::{io, thread};

// How often a store looks whether the other one was called.
const LOOKS: u32 = 1_000_000;

// Takes lines, and counts those that it is to get, flushes, and all other calls. A line of one that waits is taken when the other one was
// called, or after so many looks.
#[derive(Drop)]
struct Meeting {
    called: Arc<AtomicBool>,
    waits: bool,
    line: &'static [u8],
    looks: u32,
    lines: u32,
    flushes: u32,
    others: u32,
}

impl Meeting {
    // Notes a call, whose bytes are those of the line or not.
    fn note(&mut self, bytes: &[u8]) {
        if bytes == self.line {
            self.lines = self.lines.saturating_add(1);
        } else {
            self.others = self.others.saturating_add(1);
        }
    }

    // Waits for the other one, or lets it go on.
    fn meet(&mut self) {
        if self.waits {
            self.looks = looks_until(&self.called);
        } else {
            self.called.store(true, Ordering::SeqCst);
        }
    }
}

impl Store for Meeting {
    ghost use Rattle.std.specs.Prelude.{false, None};
    ghost use Rattle.alog_sink.specs.Files.{no_files};

    ghost files = { λ s. no_files };

    ghost tells = { false };

    ghost failures = { λ s. 0 };

    ghost why = { λ _. None };

    fn append(&mut self, _name: &str, bytes: &[u8]) -> Result<(), StoreError> {
        self.meet();
        self.note(bytes);
        Ok(())
    }

    fn rename(&mut self, _from: &str, _to: &str) -> Result<(), StoreError> {
        self.note(b"");
        Ok(())
    }

    fn remove(&mut self, _name: &str) -> Result<(), StoreError> {
        self.note(b"");
        Ok(())
    }

    fn size(&mut self, _name: &str) -> Result<Option<u64>, StoreError> {
        Ok(None)
    }

    fn flush(&mut self, _name: &str) -> Result<(), StoreError> {
        self.flushes = self.flushes.saturating_add(1);
        Ok(())
    }

    fn reason(&self) -> Option<io::Error> {
        None
    }
}

// How often the flag was looked at until it was up.
fn looks_until(flag: &AtomicBool) -> u32 {
    for look in 0..LOOKS {
        if flag.load(Ordering::SeqCst) {
            return look;
        }
        thread::yield_now();
    }
    LOOKS
}

// A store that is to get this line.
fn store(called: Arc<AtomicBool>, waits: bool, line: &'static [u8]) -> Meeting {
    Meeting {
        called,
        waits,
        line,
        looks: 0,
        lines: 0,
        flushes: 0,
        others: 0,
    }
}

// A sink over a store that waits, and one over a store that it waits for.
fn sinks(alloc: Global) -> Result<Vec<Sink<Meeting>>, AllocError>
    ensures { IfOk result (λ v. AllByRecursion (Suits TEXT_LIMIT LINE_MAX) v.items) }
{
    let called = Arc::new(alloc, AtomicBool::new(false))?;
    let waiting = store(Arc::try_clone(&called)?, true, b"a\n");
    let meeting = store(called, false, b"b\n");
    two_sinks(alloc, waiting, meeting)
}

// Two workers, and two loggers with a sink each.
const BOTH: Plan = Plan {
    workers: 2,
    tickets_max: 0,
    ..PLAIN
};

// A text is logged to each logger, and the pool is ended.
fn reported<R: Abort + Threads + Wait + Clock + Clone + Drop + Send + 'static>(
    rt: &R,
    alloc: Global,
) -> Report<Meeting> {
    let setup = setup_over(alloc, BOTH, &[&[0], &[1]], sinks(alloc));
    let mut trial = Trial::start(rt, alloc, setup, OpenGate, 1);
    trial.log(rt, alloc, 0, 0, "a");
    trial.log(rt, alloc, 0, 1, "b");
    trial.end(rt)
}

// The store of this sink got its line, one flush of the worker that wrote it, and no other call, and did not wait in vain.
fn has_met(rt: &impl Abort, report: &Report<Meeting>, sink: usize) {
    let Some(store) = report.sinks.get(sink).and_then(|sink| sink.store()) else {
        panic!(rt; "no such sink")
    };
    assert!(rt; (store.lines, store.flushes, store.others) == (1, 1, 0));
    assert!(rt; store.looks < LOOKS);
}

// While one worker is in the store of its sink, another writes to another sink: no lock is round both.
#[test]
fn a_store_waits_for_another(rt: HostRuntime) {
    let report = reported(&rt, rt.alloc());
    has_met(&rt, &report, 0);
    has_met(&rt, &report, 1);
}
