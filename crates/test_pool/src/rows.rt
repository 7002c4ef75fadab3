//! Pools by rows: what the producers of one do, and what it reports at its end.
use crate::reports::{
    filtered, has, has_faults, has_lines, has_tickets, has_totals, is_told, logged, posted,
};
use crate::trial::{Files, NEVER, PLAIN, Plan, Trial, setup_of};
use alog_msg::Level;
use alog_policy::{Outcome, Why};
use alog_pool::{OpenGate, Report};
use alog_registry::{LogReply, Loggers};
use std::alloc::Global;
use std::process::Abort;
use std::sync::Wait;
use std::thread::Threads;
use std::time::Clock;

/// What a producer is told of a text.
#[derive(Clone, Copy)]
pub enum Told {
    /// It was posted under this ticket.
    Posted(u64),
    /// It was posted under this ticket, for which the oldest text was taken out.
    Overran(u64),
    /// It was discarded, since there was no room.
    Full,
    /// It was discarded, since no ticket is left.
    Spent,
    /// It was below this level of the logger, and kept or not.
    Below(Level, bool),
}

/// What the producer of this number does.
#[derive(Clone, Copy)]
pub enum Deed<'a> {
    /// It logs a text of this level to this logger, and is told so.
    Logs(usize, u32, Level, &'a str, Told),
    /// It logs one to the first logger without waiting.
    LogsNow(usize, Level, &'a str, Told),
    /// It dumps the backtrace of the first logger, by so many posts.
    Dumps(usize, usize),
    /// It posts a flush of the first logger, under this ticket.
    Flushes(usize, u64),
    /// It posts so many with waiting, under the tickets from 0 on.
    FlushesWaiting(usize, u64),
    /// It logs `a` to the first logger and `b` to the second, so many times.
    LogsToBoth(usize, usize),
    /// By its loggers, or those that the pool lends, the level of the second is set so, and read so.
    Sets(Option<usize>, Level),
}

/// How a pool is ended.
#[derive(Clone, Copy)]
pub enum End {
    /// With all producers.
    Plain,
    /// When its last producer is back, without which it does not end.
    Late,
    /// After it made no producer more.
    Full,
}

/// A pool, what its producers do, and what it reports.
#[derive(Clone, Copy)]
pub struct Row<'a> {
    pub plan: Plan,
    /// For each logger the numbers of its sinks.
    pub routes: &'a [&'a [u32]],
    /// For each sink the number of the call of its store that fails.
    pub fuses: &'a [u64],
    pub producers: usize,
    pub deeds: &'a [Deed<'a>],
    /// How many texts and flushes were asked, and how many of those were discarded.
    pub totals: (u64, u64),
    /// The tickets of the worker, where there is one alone.
    pub tickets: &'a [u64],
    /// At each sink, how many turns were answered by a fault.
    pub faults: &'a [u64],
    /// The file of each sink, where the order of its lines is known.
    pub files: &'a [&'a [u8]],
    /// How many lines of each sink's file are one, and how many another.
    pub counts: &'a [Counts<'a>],
    pub end: End,
}

/// Two lines, and how often each stands in a file.
pub type Counts<'a> = [(&'a [u8], usize); 2];

/// A pool of one producer and one sink, of which nothing is asked.
pub const ONE: Row<'_> = Row {
    plan: PLAIN,
    routes: &[&[0]],
    fuses: &[NEVER],
    producers: 1,
    deeds: &[],
    totals: (0, 0),
    tickets: &[],
    faults: &[0],
    files: &[b""],
    counts: &[],
    end: End::Plain,
};

/// What a dump of two messages writes.
pub const DUMPED: &[u8] = b"=== backtrace start ===\nm2\nm3\n=== backtrace end ===\n";

/// Discarded for this reason.
fn discarded(why: Why) -> Outcome<()> {
    Outcome::Discarded {
        value: (),
        why,
        overran: 0,
    }
}

/// The answer to a log that tells this.
fn reply_of(told: Told) -> LogReply {
    match told {
        Told::Posted(ticket) => logged(posted(ticket)),
        Told::Overran(ticket) => logged(Outcome::Posted { ticket, overran: 1 }),
        Told::Full => logged(discarded(Why::Full)),
        Told::Spent => logged(discarded(Why::Spent)),
        Told::Below(level, kept) => filtered(level, kept),
    }
}

/// The producer of this number posts so many flushes with waiting, under the tickets from 0 on.
fn flushes_waiting(
    rt: &(impl Abort + Wait + Clock),
    trial: &mut Trial<Files>,
    producer: usize,
    count: u64,
) {
    for ticket in 0..count {
        trial.flush_wait(rt, producer, ticket);
    }
}

/// The producer of this number logs `a` to the first logger and `b` to the second, so many times.
fn logs_to_both(
    rt: &(impl Abort + Wait + Clock),
    alloc: Global,
    trial: &mut Trial<Files>,
    producer: usize,
    times: usize,
) {
    for _ in 0..times {
        trial.log(rt, alloc, producer, 0, "a");
        trial.log(rt, alloc, producer, 1, "b");
    }
}

/// A producer does so.
fn does(rt: &(impl Abort + Wait + Clock), alloc: Global, trial: &mut Trial<Files>, deed: Deed<'_>) {
    match deed {
        Deed::Logs(producer, logger, level, text, told) => {
            let reply = trial.log_at(rt, alloc, producer, logger, level, text);
            is_told(rt, reply, reply_of(told));
        }
        Deed::LogsNow(producer, level, text, told) => {
            let reply = trial.log_now(rt, alloc, producer, level, text);
            is_told(rt, reply, reply_of(told));
        }
        Deed::Dumps(producer, posts) => trial.dump(rt, alloc, producer, posts),
        Deed::Flushes(producer, ticket) => trial.flush(rt, producer, ticket),
        Deed::FlushesWaiting(producer, count) => flushes_waiting(rt, trial, producer, count),
        Deed::LogsToBoth(producer, times) => logs_to_both(rt, alloc, trial, producer, times),
        Deed::Sets(Some(producer), level) => sets(rt, trial.loggers(rt, producer), level),
        Deed::Sets(None, level) => sets(rt, trial.pool.loggers(), level),
    }
}

/// The level of the second logger is set so, and read so.
fn sets(rt: &impl Abort, loggers: &Loggers, level: Level) {
    let Some(number) = loggers.find("1") else {
        panic!(rt; "no logger")
    };
    assert!(rt; loggers.set_level(number, level) && loggers.level(number) == Some(level));
}

/// They do all these, one after another.
pub fn do_all(
    rt: &(impl Abort + Wait + Clock),
    alloc: Global,
    trial: &mut Trial<Files>,
    deeds: &[Deed<'_>],
) {
    for deed in deeds {
        does(rt, alloc, trial, *deed);
    }
}

/// Each worker tells a ticket for each text and flush that it handled, but no more than the plan says. Which handled how many is not
/// told: one of several may have handled all.
fn has_workers(rt: &impl Abort, report: &Report<Files>, plan: Plan) {
    assert!(rt; report.tickets.len() == plan.workers);
    let mut told = 0_u64;
    for tickets in &report.tickets {
        told = told.saturating_add(tickets.len() as u64);
    }
    let (most, handled) = (plan.tickets_max as u64, report.totals.handled);
    let all = most.saturating_mul(plan.workers as u64);
    assert!(rt; handled.min(most) <= told && told <= handled.min(all));
}

/// The report says what the row does.
fn is_reported(rt: &impl Abort, report: &Report<Files>, row: &Row<'_>) {
    let (asked, discarded) = row.totals;
    has_totals(rt, report, asked, discarded, 0);
    has_workers(rt, report, row.plan);
    if row.plan.workers == 1 {
        has_tickets(rt, report, 0, row.tickets);
    }
    has_faults(rt, report, row.faults);
    for (sink, bytes) in row.files.iter().enumerate() {
        has(rt, report, sink, bytes);
    }
    for (sink, [one, other]) in row.counts.iter().enumerate() {
        has_lines(rt, report, sink, one.0, one.1);
        has_lines(rt, report, sink, other.0, other.1);
    }
}

/// A pool of this row does and reports what it says.
pub fn holds<R>(rt: &R, alloc: Global, row: &Row<'_>)
where
    R: Abort + Threads + Wait + Clock + Clone + Drop + Send + 'static,
{
    let setup = setup_of(alloc, row.plan, row.routes, row.fuses);
    let mut trial = Trial::start(rt, alloc, setup, OpenGate, row.producers);
    do_all(rt, alloc, &mut trial, row.deeds);
    let report = match row.end {
        End::Plain => trial.end(rt),
        End::Late => trial.end_late(rt),
        End::Full => trial.end_full(rt),
    };
    is_reported(rt, &report, row);
}
