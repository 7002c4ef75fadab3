//! Producers and workers on threads of their own, from which they are given back.
use crate::rows::has_totals;
use crate::sinks::file_of;
use crate::trial::{Plan, Talker, Writer, end, open, producer_of, worker_of};
use alog_hosted::{Once, Pause};
use alog_msg::Level;
use alog_owned::{OwnedProducer, OwnedWorker};
use alog_pool::Report;
use alog_sink::{MemStore, Store};
use std::alloc::Global;
use std::mem;
use std::process::Abort;
use std::sync::atomic::{AtomicU64, Ordering};
use std::thread::{self, Threads};

/// How many texts each producer logs.
const TEXTS: u64 = 100;

/// How often a call is made again.
const LOOKS: u32 = 10_000_000;

/// A queue that is far smaller than what is logged, for two producers and a worker.
const PLAN: Plan = Plan {
    queue: 8,
    producers: 2,
    workers: 1,
    backtrace: 0,
};

/// A producer logs this text until it would not block.
fn say(rt: &impl Abort, alloc: Global, producer: &mut Talker, text: &str) {
    for _ in 0..LOOKS {
        match producer.log_once(alloc, 0, Level::Info, 0, text, None) {
            Ok(Once::WouldBlock) => thread::yield_now(),
            Ok(Once::Logged(_)) => return,
            Err(_) => panic!(rt; "not logged"),
        }
    }
    panic!(rt; "no room")
}

/// A producer is given back, as soon as nobody else is at the desk.
fn give_producer(rt: &impl Abort, mut producer: Talker) {
    for _ in 0..LOOKS {
        match producer.give_back() {
            Ok(()) => return,
            Err(back) => producer = back,
        }
        thread::yield_now();
    }
    panic!(rt; "the desk is never free")
}

/// A worker is given back, as soon as nobody else is at the desk.
fn give_worker(rt: &impl Abort, mut worker: Writer) {
    for _ in 0..LOOKS {
        match worker.give_back() {
            Ok(()) => return,
            Err(back) => worker = back,
        }
        thread::yield_now();
    }
    panic!(rt; "the desk is never free")
}

/// A producer logs its texts, of which each is its number among all, and is given back.
fn talk(rt: &impl Abort, alloc: Global, mut producer: Talker, over: &AtomicU64) {
    let first = producer.number().wrapping_mul(TEXTS);
    for number in 0..TEXTS {
        let number = first.wrapping_add(number);
        let Ok(text) = format!(in alloc; "{number}") else {
            panic!(rt; "no memory")
        };
        say(rt, alloc, &mut producer, text.as_str());
    }
    over.fetch_add(1, Ordering::SeqCst);
    give_producer(rt, producer)
}

/// A worker works until both producers logged all of theirs and nothing is there, and is given back.
fn write(rt: &impl Abort, mut worker: Writer, over: &AtomicU64) {
    for _ in 0..LOOKS {
        let is_over = over.load(Ordering::SeqCst) == 2;
        let work = worker.work_some(5);
        if is_over && work.pause == Pause::Idle {
            return give_worker(rt, worker);
        }
        if work.items == 0 {
            thread::yield_now();
        }
    }
    panic!(rt; "no end")
}

/// The lines are the numbers of all texts, and those of each producer are in order.
fn has_all_lines(rt: &impl Abort, report: &Report<MemStore>) {
    let Ok(file) = str::from_utf8(file_of(rt, report)) else {
        panic!(rt; "no text")
    };
    let (mut low, mut high) = (0, TEXTS);
    for line in file.lines() {
        match line.parse::<u64>() {
            Ok(number) if number == high => high = number.saturating_add(1),
            Ok(number) if number == low => low = number.saturating_add(1),
            _ => panic!(rt; "not in order: {line}"),
        }
    }
    assert!(rt; low == TEXTS && high == 200);
}

/// What is reported: all was handled, and all lines are there.
fn has_all(rt: &impl Abort, report: &Report<MemStore>) {
    has_totals(rt, report, 200);
    assert!(rt; report.faults.as_slice() == [0].as_slice());
    has_all_lines(rt, report);
}

/// What a thread has, and does: a closure cannot hold what is no `Drop`, so it is lent to the thread.
enum Part<S: Store> {
    /// A producer that logs, and is given back.
    Talks(OwnedProducer<S>),
    /// A worker that works, and is given back.
    Writes(OwnedWorker<S>),
    Gone,
}

/// A part of a pool over files in memory.
type Own = Part<MemStore>;

/// A part does so.
fn act(rt: &impl Abort, alloc: Global, part: Own, over: &AtomicU64) {
    match part {
        Part::Talks(producer) => talk(rt, alloc, producer, over),
        Part::Writes(worker) => write(rt, worker, over),
        Part::Gone => {}
    }
}

/// Each of them does so, on a thread of its own.
fn act_all<R: Abort + Threads + Sync>(rt: &R, alloc: Global, parts: &mut [Own], over: &AtomicU64) {
    thread::for_each_mut(
        rt,
        parts,
        3,
        &|_number, part: &mut Own| {
            act(rt, alloc, mem::replace(part, Part::Gone), over);
        },
    );
}

/// Nothing is left of this part.
fn is_gone(rt: &impl Abort, part: Own) {
    match part {
        Part::Gone => {}
        _ => panic!(rt; "a part is out"),
    }
}

/// Producers and a worker that were given back from their own threads were all given back when these are joined: the pool ends.
#[test]
fn parts_come_back_from_their_threads(rt: HostRuntime) {
    let alloc = rt.alloc();
    let mut pool = open(&rt, alloc, PLAN);
    let one = Part::Talks(producer_of(&rt, &mut pool));
    let other = Part::Talks(producer_of(&rt, &mut pool));
    let worker = Part::Writes(worker_of(&rt, &mut pool));
    let mut parts = [one, other, worker];
    act_all(&rt, alloc, &mut parts, &AtomicU64::new(0));
    let [one, other, worker] = parts;
    is_gone(&rt, one);
    is_gone(&rt, other);
    is_gone(&rt, worker);
    has_all(&rt, &end(&rt, pool));
}
