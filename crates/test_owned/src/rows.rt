//! Pools by rows: what is done on the thread of the test, and what the pool reports at its end.
use crate::sinks::file_of;
use crate::trial::{Plan, Trial};
use alog_hosted::{Once, Pause, Work};
use alog_msg::{Level, MessageError};
use alog_owned::{LogError, OwnedDumpError};
use alog_policy::Outcome;
use alog_pool::{Report, Totals};
use alog_registry::LogReply;
use alog_sink::MemStore;
use std::alloc::Global;
use std::process::Abort;

/// What a producer is told of a text or a flush.
#[derive(Clone, Copy)]
pub enum Told {
    /// It was posted under this ticket.
    Posted(u64),
    /// It was posted under this ticket, and kept.
    Kept(u64),
    /// It would block.
    Blocks,
    /// It was below this level of the logger.
    Below(Level),
    /// It was below this level of the logger, and kept.
    KeptBelow(Level),
    /// There is no such logger.
    NoLogger,
    /// It is too long.
    TooLong,
}

/// What is done. A producer or a worker is told by its place among those that are out.
#[derive(Clone, Copy)]
pub enum Deed<'a> {
    /// The pool makes a producer of this number.
    MakesProducer(u64),
    /// The pool makes a worker of this number.
    MakesWorker(u32),
    /// The pool makes no producer more.
    NoProducer,
    /// The pool makes no worker more.
    NoWorker,
    /// A producer logs a text of this level to this logger, and is told so.
    Logs(usize, u32, Level, &'a str, Told),
    /// It logs one of level info to the first logger.
    Says(usize, &'a str, Told),
    /// It posts a flush of this logger, and is told so.
    Flushes(usize, u32, Told),
    /// It dumps the backtrace of this logger: each post has one of these tickets.
    Dumps(usize, u32, &'a [u64]),
    /// There is no such logger whose backtrace it could dump.
    DumpsNone(usize, u32),
    /// The level of the first logger is set.
    Sets(Level),
    /// A worker ends items, at most so many, and says how many it ended and why it stopped.
    Works(usize, usize, usize, Pause),
    /// A producer is given back.
    GivesProducer(usize),
    /// A worker is given back.
    GivesWorker(usize),
    /// The pool does not end, since something is out.
    Stays,
}

/// A pool, what is done with it, and what it reports.
#[derive(Clone, Copy)]
pub struct Row<'a> {
    pub plan: Plan,
    pub deeds: &'a [Deed<'a>],
    /// How many texts and flushes were posted. No other was asked, and all were handled.
    pub posted: u64,
    /// The tickets of each worker, in the order in which they were given back.
    pub tickets: &'a [&'a [u64]],
    pub file: &'a [u8],
}

/// A queue of eight places, one producer and one worker, and no backtrace.
pub const ONE: Plan = Plan {
    queue: 8,
    producers: 1,
    workers: 1,
    backtrace: 0,
};

/// Posted under this ticket.
fn posted(ticket: u64) -> Outcome<()> {
    Outcome::Posted { ticket, overran: 0 }
}

/// Posted under this ticket, and kept or not.
fn logged(ticket: u64, kept: bool) -> Result<Once, LogError> {
    let outcome = posted(ticket);
    Ok(Once::Logged(LogReply::Logged { outcome, kept }))
}

/// Below this level, and kept or not.
fn filtered(level: Level, kept: bool) -> Result<Once, LogError> {
    Ok(Once::Logged(LogReply::Filtered { level, kept }))
}

/// The answer to a log that tells this.
fn answer_of(told: Told) -> Result<Once, LogError> {
    match told {
        Told::Posted(ticket) => logged(ticket, false),
        Told::Kept(ticket) => logged(ticket, true),
        Told::Blocks => Ok(Once::WouldBlock),
        Told::Below(level) => filtered(level, false),
        Told::KeptBelow(level) => filtered(level, true),
        Told::NoLogger => Err(LogError::NoLogger),
        Told::TooLong => Err(LogError::Refused(MessageError::TextTooLong)),
    }
}

/// A producer logs a text of this level to this logger, and is told so.
fn logs(
    rt: &impl Abort,
    alloc: Global,
    trial: &mut Trial,
    place: usize,
    logger: u32,
    level: Level,
    text: &str,
    told: Told,
) {
    let answer = trial.log(rt, alloc, place, logger, level, text);
    assert!(rt; answer == answer_of(told), "{text}: {answer:?}");
}

/// It posts a flush of this logger, and is told so.
fn flushes(rt: &impl Abort, trial: &mut Trial, place: usize, logger: u32, told: Told) {
    let answer = trial.flush(rt, place, logger);
    match told {
        Told::Posted(ticket) => assert!(rt; answer == Some(posted(ticket)), "{answer:?}"),
        _ => assert!(rt; answer.is_none(), "{answer:?}"),
    }
}

/// It dumps the backtrace of this logger: each post has one of these tickets.
fn dumps(
    rt: &impl Abort,
    alloc: Global,
    trial: &mut Trial,
    place: usize,
    logger: u32,
    tickets: &[u64],
) {
    let Ok(outcomes) = trial.dump(rt, alloc, place, logger) else {
        panic!(rt; "nobody else is at the backtrace")
    };
    assert!(rt; outcomes.len() == tickets.len(), "{outcomes:?}");
    for (outcome, ticket) in outcomes.iter().zip(tickets) {
        assert!(rt; *outcome == posted(*ticket), "{outcome:?}");
    }
}

/// There is no such logger whose backtrace it could dump.
fn dumps_none(rt: &impl Abort, alloc: Global, trial: &mut Trial, place: usize, logger: u32) {
    let answer = trial.dump(rt, alloc, place, logger);
    assert!(rt; matches!(answer, Err(OwnedDumpError::NoLogger)));
}

/// A worker ends items, at most so many, and says this.
fn works(rt: &impl Abort, trial: &mut Trial, place: usize, most: usize, wanted: Work) {
    let work = trial.work(rt, place, most);
    assert!(rt; work == wanted, "{work:?}");
}

/// One of them does so.
fn does(rt: &impl Abort, alloc: Global, mut trial: Trial, deed: Deed<'_>) -> Trial {
    match deed {
        Deed::MakesProducer(number) => trial.make_producer(rt, number),
        Deed::MakesWorker(number) => trial.make_worker(rt, number),
        Deed::NoProducer => trial.make_no_producer(rt),
        Deed::NoWorker => trial.make_no_worker(rt),
        Deed::Logs(place, logger, level, text, told) => {
            logs(rt, alloc, &mut trial, place, logger, level, text, told)
        }
        Deed::Says(place, text, told) => {
            logs(rt, alloc, &mut trial, place, 0, Level::Info, text, told)
        }
        Deed::Flushes(place, logger, told) => flushes(rt, &mut trial, place, logger, told),
        Deed::Dumps(place, logger, tickets) => {
            dumps(rt, alloc, &mut trial, place, logger, tickets)
        }
        Deed::DumpsNone(place, logger) => dumps_none(rt, alloc, &mut trial, place, logger),
        Deed::Sets(level) => assert!(rt; trial.pool.loggers().set_level(0, level)),
        Deed::Works(place, most, items, pause) => {
            works(rt, &mut trial, place, most, Work { items, pause })
        }
        Deed::GivesProducer(place) => trial.give_producer(rt, place),
        Deed::GivesWorker(place) => trial.give_worker(rt, place),
        Deed::Stays => return trial.stay(rt),
    }
    trial
}

/// All of this is done, one after another, and the pool ends.
pub fn run(rt: &impl Abort, alloc: Global, row: &Row<'_>) -> Report<MemStore> {
    let mut trial = Trial::open(rt, alloc, row.plan);
    for deed in row.deeds {
        trial = does(rt, alloc, trial, *deed);
    }
    trial.end(rt)
}

/// So many texts and flushes were asked, and all were posted and handled.
pub fn has_totals(rt: &impl Abort, report: &Report<MemStore>, posted: u64) {
    let wanted = Totals {
        asked: posted,
        posted,
        discarded: 0,
        overrun: 0,
        handled: posted,
    };
    assert!(rt; report.totals == wanted);
}

/// There is a worker for each of these lists, of which these tickets are told.
pub fn has_tickets(rt: &impl Abort, report: &Report<MemStore>, tickets: &[&[u64]]) {
    assert!(rt; report.tickets.len() == tickets.len());
    for (told, wanted) in report.tickets.iter().zip(tickets) {
        assert!(rt; told.as_slice() == *wanted);
    }
}

/// A pool of this row does and reports what it says.
pub fn holds(rt: &impl Abort, alloc: Global, row: &Row<'_>) {
    let report = run(rt, alloc, row);
    has_totals(rt, &report, row.posted);
    has_tickets(rt, &report, row.tickets);
    assert!(rt; report.faults.as_slice() == [0].as_slice());
    assert!(rt; file_of(rt, &report) == row.file);
}
