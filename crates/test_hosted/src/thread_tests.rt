//! Producers and workers on threads of their own, by a queue that is far smaller than what is logged.
//!
//! What becomes of a text is a matter of chance where the policy may lose some: what the report says is held against what the producers were told,
//! against the tickets, and against the lines.
ghost use Rattle.std.specs.Prelude.{◌≡◌};
ghost use Rattle.std.specs.List.{AllByRecursion};
ghost use Rattle.alog_hosted.specs.Lent.{IsProducerOf};
ghost use Rattle.alog_hosted.specs.Workers.{IsWorkerOf};

use crate::reports::{file_of, has_faults};
use crate::trial::{Files, NEVER, PLAIN, Plan, Trial, log_again, setup_of, work_some};
use alog_hosted::{Hosted, HostedProducer, HostedWorker, Once, Pause};
use alog_msg::Level;
use alog_policy::{Outcome, Policy};
use alog_pool::{Report, Totals};
use alog_registry::LogReply;
use std::alloc::Global;
use std::process::Abort;
use std::sync::atomic::{AtomicU64, Ordering};
use std::thread::{self, Threads};

/// How many producers log.
const TALKERS: usize = 2;

/// How many texts each logs.
const TEXTS: u64 = 200;

/// How many texts are logged in all.
const ALL: u64 = 400;

/// How often a text is logged again, and how often a worker looks for more.
const LOOKS: u32 = 10_000_000;

/// What the producers were told in all, and how many of them came to their end.
#[derive(Drop)]
struct Told {
    posted: AtomicU64,
    discarded: AtomicU64,
    overrun: AtomicU64,
    ended: AtomicU64,
}

/// Nothing yet.
fn untold() -> Told {
    Told {
        posted: AtomicU64::new(0),
        discarded: AtomicU64::new(0),
        overrun: AtomicU64::new(0),
        ended: AtomicU64::new(0),
    }
}

impl Told {
    /// Notes what a post was told.
    fn note(&self, outcome: &Outcome<()>) {
        let overran = match outcome {
            Outcome::Posted { overran, .. } => {
                self.posted.fetch_add(1, Ordering::SeqCst);
                *overran
            }
            Outcome::Discarded { overran, .. } => {
                self.discarded.fetch_add(1, Ordering::SeqCst);
                *overran
            }
        };
        self.overrun.fetch_add(overran, Ordering::SeqCst);
    }

    /// Whether all producers came to their end.
    fn is_over(&self) -> bool {
        self.ended.load(Ordering::SeqCst) == TALKERS as u64
    }

    /// The totals, where all that was posted and not overrun was handled.
    fn totals(&self) -> Totals {
        let posted = self.posted.load(Ordering::SeqCst);
        let overrun = self.overrun.load(Ordering::SeqCst);
        Totals {
            asked: ALL,
            posted,
            discarded: self.discarded.load(Ordering::SeqCst),
            overrun,
            handled: posted.saturating_sub(overrun),
        }
    }
}

/// A producer logs this text until it would not block, and notes what it is told.
fn say(
    rt: &impl Abort,
    alloc: Global,
    producer: &mut HostedProducer,
    hosted: &Hosted<Files>,
    text: &str,
    told: &Told,
)
    requires { IsProducerOf hosted.now producer.old }
    ensures { IsProducerOf hosted.now producer.new }
{
    for _ in 0..LOOKS {
        match log_again(rt, alloc, producer, hosted, 0, Level::Info, text) {
            Ok(Once::WouldBlock) => thread::yield_now(),
            Ok(Once::Logged(LogReply::Logged { outcome, .. })) => return told.note(&outcome),
            _ => panic!(rt; "not logged"),
        }
    }
    panic!(rt; "no room")
}

/// A producer logs all of its texts. Each is its number among all.
fn say_all(
    rt: &impl Abort,
    alloc: Global,
    producer: &mut HostedProducer,
    hosted: &Hosted<Files>,
    told: &Told,
)
    requires { IsProducerOf hosted.now producer.old }
    ensures { IsProducerOf hosted.now producer.new }
{
    let first = producer.number().wrapping_mul(TEXTS);
    for number in 0..TEXTS {
        let number = first.wrapping_add(number);
        let Ok(text) = format!(in alloc; "{number}") else {
            panic!(rt; "no memory")
        };
        say(rt, alloc, producer, hosted, text.as_str(), told);
    }
    told.ended.fetch_add(1, Ordering::SeqCst);
}

/// A worker works until all producers came to their end and nothing is there.
fn write_all(rt: &impl Abort, worker: &mut HostedWorker<Files>, hosted: &Hosted<Files>, told: &Told)
    requires { IsWorkerOf hosted.now worker.old }
    ensures { IsWorkerOf hosted.now worker.new }
{
    for _ in 0..LOOKS {
        let is_over = told.is_over();
        let work = work_some(worker, hosted, 5);
        if is_over && work.pause == Pause::Idle {
            return;
        }
        if work.items == 0 {
            thread::yield_now();
        }
    }
    panic!(rt; "no end")
}

/// Each of these producers logs its texts, on a thread of its own.
fn talk_all<R: Abort + Threads + Sync>(
    rt: &R,
    alloc: Global,
    producers: &mut Vec<HostedProducer>,
    hosted: &Hosted<Files>,
    told: &Told,
)
    requires { AllByRecursion (IsProducerOf hosted.now) producers.old.items }
    ensures { AllByRecursion (IsProducerOf hosted.now) producers.new.items }
{
    thread::for_each_mut(
        rt,
        producers.as_mut_slice(),
        TALKERS,
        &|_number, producer: &mut HostedProducer|
            requires { IsProducerOf hosted.now producer.now }
            ensures { IsProducerOf hosted.entry.now producer.exit.now }
        { say_all(rt, alloc, producer, hosted, told) },
    );
}

/// Each of these workers works, on a thread of its own.
fn work_all<R: Abort + Threads + Sync>(
    rt: &R,
    workers: &mut Vec<HostedWorker<Files>>,
    hosted: &Hosted<Files>,
    told: &Told,
)
    requires { AllByRecursion (IsWorkerOf hosted.now) workers.old.items }
    ensures { AllByRecursion (IsWorkerOf hosted.now) workers.new.items }
{
    thread::for_each_mut(
        rt,
        workers.as_mut_slice(),
        2,
        &|_number, worker: &mut HostedWorker<Files>|
            requires { IsWorkerOf hosted.now worker.now }
            ensures { IsWorkerOf hosted.entry.now worker.exit.now }
        { write_all(rt, worker, hosted, told) },
    );
}

/// All of them do so at once.
fn run_all<R: Abort + Threads + Sync>(
    rt: &R,
    alloc: Global,
    producers: &mut Vec<HostedProducer>,
    workers: &mut Vec<HostedWorker<Files>>,
    hosted: &Hosted<Files>,
    told: &Told,
)
    requires producers { AllByRecursion (IsProducerOf hosted.now) producers.old.items }
    requires workers { AllByRecursion (IsWorkerOf hosted.now) workers.old.items }
    ensures producers { AllByRecursion (IsProducerOf hosted.now) producers.new.items }
    ensures workers { AllByRecursion (IsWorkerOf hosted.now) workers.new.items }
{
    thread::join_mut(
        rt,
        &mut ||
            requires { AllByRecursion (IsProducerOf hosted.now) producers.now.items }
            ensures { AllByRecursion (IsProducerOf hosted.entry.now) producers.exit.now.items }
        { talk_all(rt, alloc, producers, hosted, told) },
        &mut ||
            requires { AllByRecursion (IsWorkerOf hosted.now) workers.now.items }
            ensures { AllByRecursion (IsWorkerOf hosted.entry.now) workers.exit.now.items }
        { work_all(rt, workers, hosted, told) },
    );
}

/// The producers and workers of this pool do so.
fn run<R: Abort + Threads + Sync>(
    rt: &R,
    alloc: Global,
    trial: Trial<Files>,
    told: &Told,
) -> Trial<Files> {
    let Trial {
        host,
        hosted,
        mut producers,
        mut workers,
    } = trial;
    run_all(rt, alloc, &mut producers, &mut workers, &hosted, told);
    Trial {
        host,
        hosted,
        producers,
        workers,
    }
}

/// Whether each number is more than the one before it.
fn rise(numbers: &[u64]) -> bool {
    let mut least = 0;
    for number in numbers {
        if *number < least {
            return false;
        }
        least = number.saturating_add(1);
    }
    true
}

/// The tickets of each worker rise, and no two of all are the same. There is one for each text that was handled.
fn has_each_ticket_once(rt: &impl Abort, alloc: Global, report: &Report<Files>) {
    let mut all = Vec::new(alloc);
    for tickets in &report.tickets {
        assert!(rt; rise(tickets));
        assert!(rt; all.extend_from_slice(tickets).is_ok());
    }
    assert!(rt; all.len() as u64 == report.totals.handled);
    all.sort_unstable();
    assert!(rt; rise(&all));
}

/// The numbers of the lines, in their order.
fn numbers_of(rt: &impl Abort, alloc: Global, report: &Report<Files>) -> Vec<u64> {
    let Ok(file) = str::from_utf8(file_of(rt, report, 0)) else {
        panic!(rt; "no text")
    };
    let mut numbers = Vec::new(alloc);
    for line in file.lines() {
        match line.parse::<u64>() {
            Ok(number) => assert!(rt; numbers.push(number).is_ok()),
            Err(_) => panic!(rt; "no number: {line}"),
        }
    }
    numbers
}

/// The texts of each producer stand in the order in which it logged them.
fn are_in_order(rt: &impl Abort, numbers: &[u64]) {
    for producer in 0..TALKERS as u64 {
        let mut least = 0;
        for number in numbers {
            if *number / TEXTS == producer {
                assert!(rt; *number >= least);
                least = number.saturating_add(1);
            }
        }
    }
}

/// There is a line for each text that was handled, and no two are the same. What one worker alone wrote is in order.
fn has_each_line_once(rt: &impl Abort, alloc: Global, report: &Report<Files>) {
    let mut numbers = numbers_of(rt, alloc, report);
    assert!(rt; numbers.len() as u64 == report.totals.handled);
    if report.tickets.len() == 1 {
        are_in_order(rt, &numbers);
    }
    numbers.sort_unstable();
    assert!(rt; rise(&numbers));
    assert!(rt; numbers.last().is_none_or(|number| *number < ALL));
}

/// What the producers of a pool of this policy and so many workers were told, the pool reports, and no line of it is lost or doubled.
fn holds<R: Abort + Threads + Sync>(rt: &R, alloc: Global, policy: Policy, workers: usize) {
    let plan = Plan {
        workers,
        policy,
        ..PLAIN
    };
    let setup = setup_of(alloc, plan, &[&[0]], &[NEVER]);
    let trial = Trial::open(rt, alloc, setup, TALKERS, workers);
    let told = untold();
    let report = run(rt, alloc, trial, &told).end(rt);
    are_told(rt, report.totals, told.totals(), policy);
    has_faults(rt, &report, &[0]);
    has_each_ticket_once(rt, alloc, &report);
    has_each_line_once(rt, alloc, &report);
}

/// These totals are what the producers were told, and no text was lost in a way that this policy does not have.
fn are_told(rt: &impl Abort, totals: Totals, told: Totals, policy: Policy) {
    assert!(rt; totals == told, "{totals:?}");
    assert!(rt; totals.posted.saturating_add(totals.discarded) == ALL);
    let is = match policy {
        Policy::Block => totals.handled == ALL,
        Policy::OverrunOldest => true,
        Policy::DiscardNew => totals.overrun == 0,
    };
    assert!(rt; is, "{totals:?}");
}

/// Two producers and two workers, on four threads, of each policy; under block the producers log each text until it would not block, and all are
/// handled. With one worker the texts of each producer stay in order.
#[test]
fn two_producers_and_two_workers(rt: HostRuntime) {
    for policy in [Policy::Block, Policy::OverrunOldest, Policy::DiscardNew] {
        for workers in [1, 2] {
            holds(&rt, rt.alloc(), policy, workers);
        }
    }
}
