//! In which order one worker makes the turns at several sinks: those of one text after those of another, and for each text the
//! lines at the sinks of its logger, in the logger's order, and then the flushes in the same; and that it flushes what it wrote before it
//! rests or ends.
ghost use Rattle.std.specs.Prelude.{IfOk};
ghost use Rattle.std.specs.List.{AllByRecursion};
ghost use Rattle.alog_pattern.specs.declared.patterns.TheConstants.{LINE_MAX};
ghost use Rattle.alog_sink.specs.Sinks.{Suits};
ghost use Rattle.test_pool.specs.declared.sinks.TheConstants.{TEXT_LIMIT};

use crate::gates::{has_begun, holds_until, lowered, open};
use crate::sinks::two_sinks;
use crate::trial::{PLAIN, Trial, setup_over};
use alog_msg::Level;
use alog_pool::{OpenGate, Report};
use alog_sink::{Sink, Store, StoreError};
use std::alloc::{AllocError, Global};
use std::io;
use std::process::Abort;
use std::sync::atomic::{AtomicU64, Ordering};
use std::sync::{Arc, Wait};
use std::thread::{self, Threads};
use std::time::{Clock, Duration};

/// A call of a store.
#[derive(Clone, Copy, PartialEq, Drop)]
enum Call {
    /// The first byte of the line.
    Append(u8),
    Flush,
    /// None that a sink in memory makes.
    Other,
}

/// A call at the sink of this number.
#[derive(Clone, Copy, PartialEq, Drop)]
struct At(usize, Call);

/// Notes its calls, each with the number that it has among the calls of all stores that share the clock.
#[derive(Drop)]
struct Scribe {
    clock: Arc<AtomicU64>,
    calls: Vec<(u64, Call)>,
}

impl Scribe {
    /// Notes a call. Where there is no memory for that, its number is missing.
    fn note(&mut self, call: Call) {
        let number = self.clock.fetch_add(1, Ordering::SeqCst);
        drop(self.calls.push((number, call)));
    }

    /// The call that has this number, if it was one of its own.
    fn call_of(&self, number: u64) -> Option<Call> {
        let (_, call) = self.calls.iter().find(|(own, _)| *own == number)?;
        Some(*call)
    }
}

impl Store for Scribe {
    ghost use Rattle.std.specs.Prelude.{false, None};
    ghost use Rattle.alog_sink.specs.Files.{no_files};

    ghost files = { λ s. no_files };

    ghost tells = { false };

    ghost failures = { λ s. 0 };

    ghost why = { λ _. None };

    fn append(&mut self, _name: &str, bytes: &[u8]) -> Result<(), StoreError> {
        let first = bytes.first().copied().unwrap_or(0);
        self.note(Call::Append(first));
        Ok(())
    }

    fn rename(&mut self, _from: &str, _to: &str) -> Result<(), StoreError> {
        self.note(Call::Other);
        Ok(())
    }

    fn remove(&mut self, _name: &str) -> Result<(), StoreError> {
        self.note(Call::Other);
        Ok(())
    }

    fn size(&mut self, _name: &str) -> Result<Option<u64>, StoreError> {
        self.note(Call::Other);
        Ok(None)
    }

    fn flush(&mut self, _name: &str) -> Result<(), StoreError> {
        self.note(Call::Flush);
        Ok(())
    }

    fn reason(&self) -> Option<io::Error> {
        None
    }
}

/// A clock for stores, at which no call was made.
fn clock(rt: &impl Abort, alloc: Global) -> Arc<AtomicU64> {
    match Arc::new(alloc, AtomicU64::new(0)) {
        Ok(clock) => clock,
        Err(_) => panic!(rt; "no memory"),
    }
}

/// Two sinks over stores with this clock.
fn sinks(alloc: Global, clock: &Arc<AtomicU64>) -> Result<Vec<Sink<Scribe>>, AllocError>
    ensures { IfOk result (λ v. AllByRecursion (Suits TEXT_LIMIT LINE_MAX) v.items) }
{
    let first = Scribe {
        clock: Arc::try_clone(clock)?,
        calls: Vec::new(alloc),
    };
    let second = Scribe {
        clock: Arc::try_clone(clock)?,
        calls: Vec::new(alloc),
    };
    two_sinks(alloc, first, second)
}

/// A text for a logger.
type Given<'a> = (u32, Level, &'a str);

/// What a pool of one worker reports when these texts were logged, while it was held at the first. Two loggers give to both sinks in
/// opposite orders, and flush them at errors.
fn reported<R: Abort + Threads + Wait + Clock + Clone + Drop + Send + 'static>(
    rt: &R,
    alloc: Global,
    texts: &[Given<'_>],
) -> Report<Scribe> {
    let flags = lowered(rt, alloc);
    let gate = holds_until(rt, &flags, u64::MAX);
    let sinks = sinks(alloc, &clock(rt, alloc));
    let setup = setup_over(alloc, PLAIN, &[&[0, 1], &[1, 0]], sinks);
    let mut trial = Trial::start(rt, alloc, setup, gate, 1);
    for (logger, level, text) in texts {
        trial.log_at(rt, alloc, 0, *logger, *level, text);
    }
    has_begun(rt, &flags);
    open(&flags);
    trial.end(rt)
}

/// The call of this number at one of these sinks.
fn call_at(rt: &impl Abort, sinks: &[Sink<Scribe>], number: u64) -> At {
    for (place, sink) in sinks.iter().enumerate() {
        if let Some(call) = sink.store().and_then(|store| store.call_of(number)) {
            return At(place, call);
        }
    }
    panic!(rt; "no call {number}")
}

/// How many calls these sinks made.
fn count_calls(sinks: &[Sink<Scribe>]) -> usize {
    let mut found = 0_usize;
    for sink in sinks {
        if let Some(store) = sink.store() {
            found = found.saturating_add(store.calls.len());
        }
    }
    found
}

/// The calls of these sinks are these, in this order, and no others.
fn are_calls(rt: &impl Abort, sinks: &[Sink<Scribe>], wanted: &[At]) {
    for (number, call) in wanted.iter().enumerate() {
        assert!(rt; call_at(rt, sinks, number as u64) == *call);
    }
    assert!(rt; count_calls(sinks) == wanted.len());
}

/// Texts, and the calls that they make.
type Order<'a> = (&'a [Given<'a>], &'a [At]);

static ORDERS: [Order<'static>; 3] = [
    // All lines come before all flushes.
    (
        &[(0, Level::Error, "a")],
        &[
            At(0, Call::Append(b'a')),
            At(1, Call::Append(b'a')),
            At(0, Call::Flush),
            At(1, Call::Flush),
        ],
    ),
    // Sinks come in the order of their logger.
    (
        &[(1, Level::Error, "a")],
        &[
            At(1, Call::Append(b'a')),
            At(0, Call::Append(b'a')),
            At(1, Call::Flush),
            At(0, Call::Flush),
        ],
    ),
    // A text comes behind the one before it. The worker flushes the last one before it rests or ends, the sinks in their order.
    (
        &[
            (0, Level::Info, "a"),
            (0, Level::Error, "b"),
            (1, Level::Error, "c"),
            (0, Level::Info, "d"),
        ],
        &[
            At(0, Call::Append(b'a')),
            At(1, Call::Append(b'a')),
            At(0, Call::Append(b'b')),
            At(1, Call::Append(b'b')),
            At(0, Call::Flush),
            At(1, Call::Flush),
            At(1, Call::Append(b'c')),
            At(0, Call::Append(b'c')),
            At(1, Call::Flush),
            At(0, Call::Flush),
            At(0, Call::Append(b'd')),
            At(1, Call::Append(b'd')),
            At(0, Call::Flush),
            At(1, Call::Flush),
        ],
    ),
];

fn orders() -> &'static [Order<'static>] {
    &ORDERS
}

#[test]
fn lines_and_flushes_are_in_order(rt: HostRuntime) {
    for (texts, wanted) in orders() {
        let report = reported(&rt, rt.alloc(), texts);
        are_calls(&rt, &report.sinks, wanted);
    }
}

/// So many calls are made soon, and no call more for a while.
fn comes_to(rt: &(impl Abort + Clock), clock: &AtomicU64, calls: u64) {
    for _ in 0..10_000 {
        if clock.load(Ordering::SeqCst) >= calls {
            break;
        }
        thread::sleep(rt, Duration::from_millis(1));
    }
    thread::sleep(rt, Duration::from_millis(20));
    assert!(rt; clock.load(Ordering::SeqCst) == calls);
}

static FLUSHED: [At; 4] = [
    At(0, Call::Append(b'a')),
    At(0, Call::Flush),
    At(1, Call::Append(b'b')),
    At(1, Call::Flush),
];

// Each of two loggers has a sink of its own, and nobody asks for a flush.
#[test]
fn what_was_written_is_flushed_before_a_pool_rests(rt: HostRuntime) {
    let alloc = rt.alloc();
    let clock = clock(&rt, alloc);
    let setup = setup_over(alloc, PLAIN, &[&[0], &[1]], sinks(alloc, &clock));
    let mut trial = Trial::start(&rt, alloc, setup, OpenGate, 1);
    trial.log(&rt, alloc, 0, 0, "a");
    comes_to(&rt, &clock, 2);
    trial.log(&rt, alloc, 0, 1, "b");
    comes_to(&rt, &clock, 4);
    are_calls(&rt, &trial.end(&rt).sinks, &FLUSHED);
}
