//! Pools by rows: what the producers and the workers of one do on the thread of the test, and what it reports at its end.
use crate::reports::{has, has_faults, has_tickets, has_totals};
use crate::trial::{Files, NEVER, PLAIN, Plan, Trial, setup_of};
use alog_hosted::{Once, Pause, Work};
use alog_msg::{Level, MessageError};
use alog_policy::{Outcome, Why};
use alog_pool::Report;
use alog_registry::LogReply;
use alog_sink::Store;
use std::alloc::Global;
use std::process::Abort;

/// What a producer is told of a text or a flush.
#[derive(Clone, Copy)]
pub enum Told {
    /// It was posted under this ticket.
    Posted(u64),
    /// It was posted under this ticket, and kept.
    Kept(u64),
    /// It was posted under this ticket, for which the oldest text was taken out.
    Overran(u64),
    /// It would block.
    Blocks,
    /// It was discarded, since there was no room.
    Full,
    /// It was discarded, since no ticket is left.
    Spent,
    /// It was below this level of the logger, and kept or not.
    Below(Level, bool),
    /// It is too long.
    TooLong,
}

/// What a producer or a worker does.
#[derive(Clone, Copy)]
pub enum Deed<'a> {
    /// The producer of this number logs a text of this level to this logger, and is told so.
    Logs(usize, u32, Level, &'a str, Told),
    /// It logs one of level info to the first logger.
    Says(usize, &'a str, Told),
    /// It posts a flush of the first logger, and is told so.
    Flushes(usize, Told),
    /// It dumps the backtrace of this logger, and of each post is told so.
    Dumps(usize, u32, &'a [Told]),
    /// The level of this logger is set.
    Sets(u32, Level),
    /// The worker of this number ends items, at most so many, and says how many it ended and why it stopped.
    Works(usize, usize, usize, Pause),
    /// The worker of this number tells so many faults.
    Fails(usize, u64),
    /// The host makes no worker more.
    HiresNone,
}

/// How a pool is ended.
#[derive(Clone, Copy)]
pub enum End {
    /// With all producers and workers.
    Plain,
    /// When its last producer is back, without which it does not end.
    LateProducer,
    /// When its last worker is back, without which it does not end.
    LateWorker,
}

/// A pool, what is done with it, and what it reports.
#[derive(Clone, Copy)]
pub struct Row<'a> {
    pub plan: Plan,
    /// For each logger the numbers of its sinks.
    pub routes: &'a [&'a [u32]],
    /// For each sink the number of the call of its store that fails.
    pub fuses: &'a [u64],
    pub producers: usize,
    pub workers: usize,
    pub deeds: &'a [Deed<'a>],
    pub end: End,
    /// How many texts and flushes were asked, and how many of those were discarded and overrun.
    pub totals: (u64, u64, u64),
    /// The tickets of each worker.
    pub tickets: &'a [&'a [u64]],
    /// At each sink, how many turns were answered by a fault.
    pub faults: &'a [u64],
    /// The file of each sink.
    pub files: &'a [&'a [u8]],
}

/// A pool of one producer, one worker and one sink, of which nothing is asked.
pub const ONE: Row<'_> = Row {
    plan: PLAIN,
    routes: &[&[0]],
    fuses: &[NEVER],
    producers: 1,
    workers: 1,
    deeds: &[],
    end: End::Plain,
    totals: (0, 0, 0),
    tickets: &[&[]],
    faults: &[0],
    files: &[b""],
};

/// Logged so, and kept or not.
fn logged(outcome: Outcome<()>, kept: bool) -> Result<Once, MessageError> {
    Ok(Once::Logged(LogReply::Logged { outcome, kept }))
}

/// Posted under this ticket.
fn posted(ticket: u64) -> Outcome<()> {
    Outcome::Posted { ticket, overran: 0 }
}

/// Discarded for this reason.
fn discarded(why: Why) -> Outcome<()> {
    Outcome::Discarded {
        value: (),
        why,
        overran: 0,
    }
}

/// The answer to a log that tells this.
fn answer_of(told: Told) -> Result<Once, MessageError> {
    match told {
        Told::Posted(ticket) => logged(posted(ticket), false),
        Told::Kept(ticket) => logged(posted(ticket), true),
        Told::Overran(ticket) => logged(Outcome::Posted { ticket, overran: 1 }, false),
        Told::Blocks => Ok(Once::WouldBlock),
        Told::Full => logged(discarded(Why::Full), false),
        Told::Spent => logged(discarded(Why::Spent), false),
        Told::Below(level, kept) => Ok(Once::Logged(LogReply::Filtered { level, kept })),
        Told::TooLong => Err(MessageError::TextTooLong),
    }
}

/// The producer of this number logs a text of this level to this logger, and is told so.
fn logs<S: Store + Drop>(
    rt: &impl Abort,
    alloc: Global,
    trial: &mut Trial<S>,
    producer: usize,
    logger: u32,
    level: Level,
    text: &str,
    told: Told,
) {
    let answer = trial.log(rt, alloc, producer, logger, level, text);
    assert!(rt; answer == answer_of(told), "{text}: {answer:?}");
}

/// It posts a flush of the first logger, and is told so.
fn flushes<S: Store + Drop>(rt: &impl Abort, trial: &mut Trial<S>, producer: usize, told: Told) {
    let answer = logged(trial.flush(rt, producer), false);
    assert!(rt; answer == answer_of(told), "{answer:?}");
}

/// A post of a dump is told so.
fn is_told(outcome: &Outcome<()>, told: Told) -> bool {
    match told {
        Told::Posted(ticket) => *outcome == posted(ticket),
        Told::Overran(ticket) => *outcome == Outcome::Posted { ticket, overran: 1 },
        Told::Full => *outcome == discarded(Why::Full),
        _ => false,
    }
}

/// It dumps the backtrace of this logger, and of each post is told so.
fn dumps<S: Store + Drop>(
    rt: &impl Abort,
    alloc: Global,
    trial: &mut Trial<S>,
    producer: usize,
    logger: u32,
    told: &[Told],
) {
    let Ok(outcomes) = trial.dump(rt, alloc, producer, logger) else {
        panic!(rt; "nobody else is at the backtrace")
    };
    assert!(rt; outcomes.len() == told.len(), "{outcomes:?}");
    for (outcome, told) in outcomes.iter().zip(told) {
        assert!(rt; is_told(outcome, *told), "{outcome:?}");
    }
}

/// The worker of this number ends items, at most so many, and says this.
fn works<S: Store + Drop>(
    rt: &impl Abort,
    trial: &mut Trial<S>,
    worker: usize,
    most: usize,
    wanted: Work,
) {
    let work = trial.work(rt, worker, most);
    assert!(rt; work == wanted, "{work:?}");
}

/// The worker of this number tells so many faults.
fn fails<S: Store + Drop>(rt: &impl Abort, trial: &Trial<S>, worker: usize, wanted: u64) {
    let faults = trial.faults(rt, worker);
    assert!(rt; faults == wanted, "{faults}");
}

/// One of them does so.
fn does<S: Store + Drop>(rt: &impl Abort, alloc: Global, trial: &mut Trial<S>, deed: Deed<'_>) {
    match deed {
        Deed::Logs(producer, logger, level, text, told) => {
            logs(rt, alloc, trial, producer, logger, level, text, told)
        }
        Deed::Says(producer, text, told) => {
            logs(rt, alloc, trial, producer, 0, Level::Info, text, told)
        }
        Deed::Flushes(producer, told) => flushes(rt, trial, producer, told),
        Deed::Dumps(producer, logger, told) => dumps(rt, alloc, trial, producer, logger, told),
        Deed::Sets(logger, level) => trial.set_level(rt, logger, level),
        Deed::Works(worker, most, items, pause) => {
            works(rt, trial, worker, most, Work { items, pause })
        }
        Deed::Fails(worker, faults) => fails(rt, trial, worker, faults),
        Deed::HiresNone => trial.hires_none(rt),
    }
}

/// They do all these, one after another.
pub fn do_all<S: Store + Drop>(
    rt: &impl Abort,
    alloc: Global,
    trial: &mut Trial<S>,
    deeds: &[Deed<'_>],
) {
    for deed in deeds {
        does(rt, alloc, trial, *deed);
    }
}

/// The report says what the row does.
fn is_reported(rt: &impl Abort, report: &Report<Files>, row: &Row<'_>) {
    has_totals(rt, report, row.totals);
    has_tickets(rt, report, row.tickets);
    has_faults(rt, report, row.faults);
    for (sink, bytes) in row.files.iter().enumerate() {
        has(rt, report, sink, bytes);
    }
}

/// A pool of this row does and reports what it says.
pub fn holds(rt: &impl Abort, alloc: Global, row: &Row<'_>) {
    let setup = setup_of(alloc, row.plan, row.routes, row.fuses);
    let mut trial = Trial::open(rt, alloc, setup, row.producers, row.workers);
    do_all(rt, alloc, &mut trial, row.deeds);
    let trial = match row.end {
        End::Plain => trial,
        End::LateProducer => trial.kept_by_a_producer(rt),
        End::LateWorker => trial.kept_by_a_worker(rt),
    };
    is_reported(rt, &trial.end(rt), row);
}
