//! Want of memory, for runs in which one allocation fails, as `rt try --test --fail-alloc` makes it. Whichever that is, the call
//! that meets it answers that memory is wanting, and the next one of its kind is as ever. The workers of a pool that was refused
//! end. A worker that has no memory for a line counts a fault. The end of a pool takes no memory.
ghost use Rattle.std.specs.Prelude.{IfOk};
ghost use Rattle.alog_pool.specs.Pool.{Fits};

use crate::reports::{count_lines, file_of, has_totals};
use crate::trial::{Files, NEVER, PLAIN, Plan, Trial, setup_of};
use alog_msg::Level;
use alog_pool::{Gate, OpenGate, Pool, Report, Setup, StartError};
use std::alloc::{AllocError, Global};
use std::process::Abort;
use std::sync::{Arc, Wait};
use std::thread::{self, Threads};
use std::time::Clock;

/// What is logged: its copy for the backtrace takes memory of its own.
const TEXT: &str = "a request of more than seventy bytes, which do not lie in a message itself";

/// The lines of a whole run, and how often each stands there: three texts are logged, and two of them dumped between two others.
const LINES: [(&str, usize); 3] = [
    (TEXT, 5),
    ("=== backtrace start ===", 1),
    ("=== backtrace end ===", 1),
];

/// How often a pool's workers are looked for.
const LOOKS: u32 = 10_000_000;

/// A gate that does nothing: the workers of a pool share it, and it is dropped when the last of them has ended.
#[derive(Drop)]
struct Witness(Arc<u8>);

impl Gate for Witness {
    fn before(&self, _worker: u32, _ticket: u64) {}

    fn after(&self, _worker: u32, _ticket: u64) {}
}

/// Whether the other share was dropped, at one of so many looks.
fn is_left_alone(shared: Arc<u8>) -> bool {
    let mut shared = shared;
    for _ in 0..LOOKS {
        match Arc::try_unwrap(shared) {
            Ok(_) => return true,
            Err(again) => shared = again,
        }
        thread::yield_now();
    }
    false
}

/// A setup of three workers, two sinks and a backtrace of two messages, made again where memory was wanting.
fn setup_again(alloc: Global) -> Result<Setup<Files>, AllocError>
    ensures { IfOk result Fits }
{
    let plan = Plan {
        queue: 16,
        workers: 3,
        backtrace: 2,
        ..PLAIN
    };
    let setup = setup_of(alloc, plan, &[&[0, 1]], &[NEVER, NEVER]);
    if setup.is_ok() {
        return setup;
    }
    setup_of(alloc, plan, &[&[0, 1]], &[NEVER, NEVER])
}

/// A share, made again where memory was wanting, and another.
fn shares(rt: &impl Abort, alloc: Global) -> (Arc<u8>, Arc<u8>) {
    let shared = match Arc::new(alloc, 0) {
        Ok(shared) => Ok(shared),
        Err(_) => Arc::new(alloc, 0),
    };
    let Ok(shared) = shared else {
        panic!(rt; "no memory")
    };
    match Arc::try_clone(&shared) {
        Ok(other) => (shared, other),
        Err(_) => panic!(rt; "no memory"),
    }
}

/// A pool, started again where memory was wanting, when all workers of the first have ended.
fn pool_again<R: Abort + Threads + Wait + Clock + Clone + Drop + Send + 'static>(
    rt: &R,
    alloc: Global,
) -> Trial<Files> {
    let (shared, other) = shares(rt, alloc);
    let Ok(setup) = setup_again(alloc) else {
        panic!(rt; "no memory")
    };
    match Pool::start(rt, alloc, setup, Witness(other)) {
        Ok(pool) => Trial::of(rt, alloc, pool, 2),
        Err(error) => {
            assert!(rt; error == StartError::OutOfMemory);
            assert!(rt; is_left_alone(shared));
            Trial::start(rt, alloc, setup_again(alloc), OpenGate, 2)
        }
    }
}

/// Whether a file has all lines and no others, in whichever order: three workers write them.
fn is_whole(file: &[u8]) -> bool {
    let mut bytes = 0_usize;
    for (line, count) in LINES {
        if count_lines(file, line.as_bytes()) != count {
            return false;
        }
        bytes = bytes.saturating_add(count.saturating_mul(line.len().saturating_add(1)));
    }
    file.len() == bytes
}

/// What such a pool reports when its producers have logged, flushed and dumped.
fn reported<R: Abort + Threads + Wait + Clock + Clone + Drop + Send + 'static>(
    rt: &R,
    alloc: Global,
) -> Report<Files> {
    let mut trial = pool_again(rt, alloc);
    trial.say(rt, alloc, 0, TEXT);
    trial.log_now(rt, alloc, 1, Level::Error, TEXT);
    trial.log_at(rt, alloc, 0, 0, Level::Debug, TEXT);
    trial.flush(rt, 1, 2);
    trial.dump(rt, alloc, 0, 4);
    trial.say(rt, alloc, 1, TEXT);
    trial.end(rt)
}

/// The file of each sink is whole, unless a line made a fault.
fn are_told(rt: &impl Abort, report: &Report<Files>) {
    assert!(rt; report.faults.len() == 2 && report.sinks.len() == 2);
    for (sink, faults) in report.faults.iter().enumerate() {
        assert!(rt; is_whole(file_of(rt, report, sink)) == (*faults == 0));
    }
}

#[test]
fn want_of_memory(rt: HostRuntime) {
    let report = reported(&rt, rt.alloc());
    has_totals(&rt, &report, 8, 0, 0);
    are_told(&rt, &report);
}
