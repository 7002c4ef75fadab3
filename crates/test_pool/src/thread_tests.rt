//! Pools whose producers log on threads of their own, beside the workers, through a queue that is far smaller than what they log.
//!
//! What becomes of a message is a matter of chance where the policy may lose some: what the report says is held against what the
//! producers were told, against the tickets, and against the lines, each of which is of a text that its producer was told is
//! posted.
ghost use Rattle.std.specs.Prelude.{◌≡◌};
ghost use Rattle.std.specs.List.{AllByRecursion};
ghost use Rattle.alog_pool.specs.declared.shared.Shared.{Shared};

use crate::reports::{file_of, has_faults, tickets_of};
use crate::totals::totals_of;
use crate::trial::{Files, NEVER, PLAIN, Plan, Trial, setup_of};
use alog_msg::Level;
use alog_policy::{Outcome, Policy};
use alog_pool::{OpenGate, Producer, Report, Totals};
use alog_registry::LogReply;
use std::alloc::Global;
use std::process::Abort;
use std::sync::Wait;
use std::sync::atomic::{AtomicBool, AtomicU64, Ordering};
use std::thread::{self, Threads};
use std::time::Clock;

/// How many producers log.
const TALKERS: usize = 8;

/// How many messages each logs.
const MESSAGES: u64 = 10_000;

/// How many messages are logged in all.
const ALL: u64 = 80_000;

/// What all producers were told: which texts were posted, by their numbers, and how many were lost.
#[derive(Drop)]
struct Told {
    posted: Vec<AtomicBool>,
    discarded: AtomicU64,
    overrun: AtomicU64,
}

/// Nothing yet.
fn untold(rt: &impl Abort, alloc: Global) -> Told {
    let mut posted = Vec::new(alloc);
    for _ in 0..ALL {
        assert!(rt; posted.push(AtomicBool::new(false)).is_ok());
    }
    Told {
        posted,
        discarded: AtomicU64::new(0),
        overrun: AtomicU64::new(0),
    }
}

impl Told {
    /// Notes what the post of this text was told.
    fn note(&self, text: u64, outcome: &Outcome<()>) {
        match outcome {
            Outcome::Posted { overran, .. } => {
                if let Some(flag) = self.posted.get(text as usize) {
                    flag.store(true, Ordering::SeqCst);
                }
                self.overrun.fetch_add(*overran, Ordering::SeqCst);
            }
            Outcome::Discarded { overran, .. } => {
                self.discarded.fetch_add(1, Ordering::SeqCst);
                self.overrun.fetch_add(*overran, Ordering::SeqCst);
            }
        }
    }

    /// Whether this text was posted.
    fn is_posted(&self, text: u64) -> bool {
        match self.posted.get(text as usize) {
            Some(flag) => flag.load(Ordering::SeqCst),
            None => false,
        }
    }

    /// How many were.
    fn count_posted(&self) -> usize {
        let is_up = |flag: &&AtomicBool| flag.load(Ordering::SeqCst);
        self.posted.iter().filter(is_up).count()
    }

    /// The totals, where what was posted and not overrun was handled.
    fn totals(&self) -> Totals {
        let discarded = self.discarded.load(Ordering::SeqCst);
        totals_of(ALL, discarded, self.overrun.load(Ordering::SeqCst))
    }
}

/// The number of the producer's message of this number, which no other message has.
fn number_of(producer: u64, number: u64) -> u64 {
    producer.wrapping_mul(MESSAGES).wrapping_add(number)
}

/// Logs the message of this number. Its text is its number among all.
fn say(
    rt: &(impl Abort + Wait + Clock),
    alloc: Global,
    producer: &mut Producer,
    number: u64,
    told: &Told,
)
    ensures { producer.new.shared ≡ producer.old.shared }
{
    assert!(rt; producer.loggers().len() > 0);
    let number = number_of(producer.number(), number);
    let Ok(text) = format!(in alloc; "{number}") else {
        panic!(rt; "no memory")
    };
    match producer.log(rt, alloc, 0, Level::Info, 0, text.as_str(), None) {
        Ok(LogReply::Logged { outcome, .. }) => told.note(number, &outcome),
        _ => panic!(rt; "not logged"),
    }
}

/// Logs all messages of this producer.
fn say_all(rt: &(impl Abort + Wait + Clock), alloc: Global, producer: &mut Producer, told: &Told)
    ensures { producer.new.shared ≡ producer.old.shared }
{
    for number in 0..MESSAGES {
        say(rt, alloc, producer, number, told);
    }
}

/// Lets each of these producers of a pool log on a thread of its own, until all have.
fn talk_all<R: Abort + Threads + Wait + Clock + Sync>(
    rt: &R,
    alloc: Global,
    producers: &mut Vec<Producer>,
    told: &Told,
)
    ensures { (s : Shared) → AllByRecursion (λ p. p.shared ≡ s) producers.old.items
        → AllByRecursion (λ p. p.shared ≡ s) producers.new.items }
{
    thread::for_each_mut(
        rt,
        producers.as_mut_slice(),
        TALKERS,
        &|_number, producer: &mut Producer|
            ensures { producer.exit.now.shared ≡ producer.entry.now.shared }
        { say_all(rt, alloc, producer, told) },
    );
}

/// Lets all producers log.
fn talk<R: Abort + Threads + Wait + Clock + Sync>(
    rt: &R,
    alloc: Global,
    trial: Trial<Files>,
    told: &Told,
) -> Trial<Files> {
    let Trial {
        pool,
        mut producers,
    } = trial;
    talk_all(rt, alloc, &mut producers, told);
    Trial { pool, producers }
}

/// Whether each number is more than the one before it.
fn rise(numbers: &[u64]) -> bool {
    let mut least = 0;
    for number in numbers {
        if *number < least {
            return false;
        }
        least = number.saturating_add(1);
    }
    true
}

/// The tickets of each worker rise, and no two of all are the same. There is one for each message that was handled.
pub(crate) fn has_each_ticket_once(
    rt: &impl Abort,
    alloc: Global,
    report: &Report<Files>,
    workers: usize,
) {
    assert!(rt; report.tickets.len() == workers);
    let mut all = Vec::new(alloc);
    for worker in 0..workers {
        let tickets = tickets_of(rt, report, worker);
        assert!(rt; rise(tickets));
        assert!(rt; all.extend_from_slice(tickets).is_ok());
    }
    assert!(rt; all.len() as u64 == report.totals.handled);
    all.sort_unstable();
    assert!(rt; rise(&all));
}

/// The numbers of the lines of the first sink, in their order.
fn numbers_of(rt: &impl Abort, alloc: Global, report: &Report<Files>) -> Vec<u64> {
    let Ok(file) = str::from_utf8(file_of(rt, report, 0)) else {
        panic!(rt; "no text")
    };
    let mut numbers = Vec::new(alloc);
    for line in file.lines() {
        match line.parse::<u64>() {
            Ok(number) => assert!(rt; numbers.push(number).is_ok()),
            Err(_) => panic!(rt; "no number: {line}"),
        }
    }
    numbers
}

/// The messages of each producer stand in the order in which it logged them.
fn are_in_order(rt: &impl Abort, numbers: &[u64]) {
    for producer in 0..TALKERS as u64 {
        let mut least = 0;
        for number in numbers {
            if *number / MESSAGES == producer {
                assert!(rt; *number >= least);
                least = number.saturating_add(1);
            }
        }
    }
}

/// Each of these texts was posted, and as many as the totals say were posted in all.
fn are_posted(rt: &impl Abort, numbers: &[u64], told: &Told, totals: Totals) {
    assert!(rt; told.count_posted() as u64 == totals.posted);
    for number in numbers {
        assert!(rt; told.is_posted(*number));
    }
}

/// There is a line for each message that was handled: each is one of those that were posted, and no two are the same. So all that
/// were posted have a line where none was overrun. What one worker wrote is in order.
fn has_each_line_once(
    rt: &impl Abort,
    alloc: Global,
    report: &Report<Files>,
    told: &Told,
    workers: usize,
) {
    let mut numbers = numbers_of(rt, alloc, report);
    assert!(rt; numbers.len() as u64 == report.totals.handled);
    are_posted(rt, &numbers, told, report.totals);
    if workers == 1 {
        are_in_order(rt, &numbers);
    }
    numbers.sort_unstable();
    assert!(rt; rise(&numbers));
}

/// What became of the messages that the producers logged under this policy, to so many workers.
fn outcome_of<R>(rt: &R, alloc: Global, policy: Policy, workers: usize) -> Totals
where
    R: Abort + Threads + Wait + Clock + Clone + Drop + Send + Sync + 'static,
{
    let plan = Plan {
        workers,
        policy,
        tickets_max: ALL as usize,
        ..PLAIN
    };
    let setup = setup_of(alloc, plan, &[&[0]], &[NEVER]);
    let trial = Trial::start(rt, alloc, setup, OpenGate, TALKERS);
    let told = untold(rt, alloc);
    let report = talk(rt, alloc, trial, &told).end(rt);
    assert!(rt; report.totals == told.totals());
    has_faults(rt, &report, &[0]);
    has_each_ticket_once(rt, alloc, &report, workers);
    has_each_line_once(rt, alloc, &report, &told, workers);
    report.totals
}

/// What was asked was posted or discarded, and what was posted was overrun or handled.
fn balances(rt: &impl Abort, totals: Totals) {
    assert!(rt; totals.asked == ALL);
    assert!(rt; totals.posted.checked_add(totals.discarded) == Some(ALL));
    assert!(rt; totals.overrun.checked_add(totals.handled) == Some(totals.posted));
}

/// No text was lost in a way that this policy does not have.
fn suits(rt: &impl Abort, totals: Totals, policy: Policy) {
    let is = match policy {
        Policy::Block => totals.discarded == 0 && totals.overrun == 0,
        Policy::OverrunOldest => true,
        Policy::DiscardNew => totals.overrun == 0,
    };
    assert!(rt; is, "{policy:?}");
}

#[test]
fn talkers_of_each_policy(rt: HostRuntime) {
    for policy in [Policy::Block, Policy::OverrunOldest, Policy::DiscardNew] {
        for workers in [1, 2, 8] {
            let totals = outcome_of(&rt, rt.alloc(), policy, workers);
            balances(&rt, totals);
            suits(&rt, totals, policy);
        }
    }
}
