//! What the tests of loggers share: a logger, desks and backtraces, what is logged, and what a log, a dump and a flush are to say.
ghost use Rattle.std.specs.Prelude.{◌≡◌, ◌<◌, length};
ghost use Rattle.alog_msg.specs.declared.limits.TheConstants.{TEXT_LIMIT_MAX};
ghost use Rattle.alog_lane.specs.Calls.{IsSeatOf};
ghost use Rattle.alog_lane.specs.Seats.{first_known};
ghost use Rattle.alog_registry.specs.Backtrace.{room_for};
ghost use Rattle.alog_registry.specs.Limit.{AdmitsShort};
ghost use Rattle.test_loggers.specs.declared.trial.TheConstants.{TEXT_LIMIT};

use alog_core::WorldError;
use alog_lane::{Lane, LaneSeat};
use alog_msg::{Item, Level, MessageError, SourceRef};
use alog_policy::{Desk, Outcome, Policy, Why};
use alog_registry::{
    AddError, Backtrace, BacktraceError, ItemOutlet, Keep, LogReply, Loggers, RefusedSpec,
    Registry, Spec,
};
use std::alloc::{AllocError, Global};
use std::process::Abort;

pub(crate) const TEXT_LIMIT: usize = 64;

// The number of a logger that was added, if it was.
pub(crate) fn number_of(rt: &impl Abort, added: Result<u32, RefusedSpec>) -> Option<u32> {
    match added {
        Ok(number) => Some(number),
        Err(
            RefusedSpec {
                fault: AddError::OutOfMemory,
                ..
            },
        ) => panic!(rt; "out of memory"),
        Err(_) => None,
    }
}

// One logger `net`, as level info.
pub(crate) fn one(rt: &impl Abort, alloc: Global, policy: Policy, backtrace: usize) -> Loggers
    ensures { 0 < length result }
{
    let Ok(sinks) = Vec::from_slice(alloc, &[0]) else {
        panic!(rt; "out of memory")
    };
    let spec = Spec {
        level: Level::Info,
        policy,
        flush_on: Level::Off,
        backtrace,
        sinks,
    };
    let mut registry = Registry::new(alloc);
    let added = number_of(rt, registry.add("net", spec)).is_some();
    match registry.freeze(alloc) {
        Ok(loggers) => {
            assert!(rt; added && loggers.spec(0).is_some());
            loggers
        }
        Err(_) => panic!(rt; "out of memory"),
    }
}

// An empty queue.
pub(crate) fn desk_of(rt: &impl Abort, alloc: Global, places: usize) -> Desk<Item> {
    match Desk::new(alloc, places, 0) {
        Ok(desk) => desk,
        Err(WorldError::OutOfMemory) => panic!(rt; "out of memory"),
        Err(_) => panic!(rt; "no desk of {places} places"),
    }
}

// Ends the test where that is not so. A call of it is no way out of the function that makes it.
pub(crate) fn is_so(rt: &impl Abort, is: bool) {
    assert!(rt; is);
}

// A backtrace under a lock that keeps so many, and its first seat.
pub(crate) fn lane_of(
    rt: &impl Abort,
    alloc: Global,
    most: usize,
) -> (Lane<Backtrace>, LaneSeat<Backtrace>)
    ensures seat { IsSeatOf result.0 result.1 }
    ensures known { result.1.known ≡ first_known }
    ensures first { result.0.first ≡ room_for most TEXT_LIMIT_MAX }
{
    match Lane::new(alloc, backtrace_of(rt, alloc, most)) {
        Ok(made) => made,
        Err(_) => panic!(rt; "out of memory"),
    }
}

// A backtrace that keeps so many.
pub(crate) fn backtrace_of(rt: &impl Abort, alloc: Global, most: usize) -> Backtrace
    ensures { result ≡ room_for most TEXT_LIMIT_MAX }
{
    match Backtrace::new(alloc, most) {
        Ok(backtrace) => backtrace,
        Err(BacktraceError::OutOfMemory) => panic!(rt; "out of memory"),
        Err(BacktraceError::BadLimit) => panic!(rt; "no backtrace of {most}"),
    }
}

pub(crate) fn posted(ticket: u64) -> Outcome<()> {
    Outcome::Posted { ticket, overran: 0 }
}

// What is logged.
#[derive(Clone, Copy, Drop)]
pub(crate) struct Words<'a> {
    pub level: Level,
    pub time: i64,
    pub thread: u64,
    pub text: &'a str,
    pub source: Option<SourceRef<'a>>,
}

// A text of this level, at time 0 by thread 1.
pub(crate) fn at_level(level: Level, text: &str) -> Words<'_> {
    Words {
        level,
        time: 0,
        thread: 1,
        text,
        source: None,
    }
}

// A message was posted under this ticket, and kept or not.
pub(crate) fn logged(ticket: u64, kept: bool) -> Result<LogReply, MessageError> {
    let outcome = posted(ticket);
    Ok(LogReply::Logged { outcome, kept })
}

// A message was below level info, and kept or not.
pub(crate) fn filtered(kept: bool) -> Result<LogReply, MessageError> {
    let level = Level::Info;
    Ok(LogReply::Filtered { level, kept })
}

// A log answered this.
pub(crate) fn is_reply(
    rt: &impl Abort,
    reply: Result<LogReply, MessageError>,
    wanted: Result<LogReply, MessageError>,
) {
    assert!(rt; reply != Err(MessageError::OutOfMemory), "out of memory");
    assert!(rt; reply == wanted);
}

// Logs by the first logger, which says that this came of it.
pub(crate) fn tells<O: ItemOutlet, K: Keep>(
    rt: &impl Abort,
    loggers: &Loggers,
    alloc: Global,
    outlet: &mut O,
    keeper: &mut K,
    words: Words<'_>,
    wanted: Result<LogReply, MessageError>,
)
    requires known { 0 < length loggers.now }
    requires outlet { O.is_ready outlet.old × AdmitsShort O.admits TEXT_LIMIT outlet.old }
    requires keeper { K.is_ready keeper.old × AdmitsShort K.admits TEXT_LIMIT keeper.old }
    ensures outlet { O.is_ready outlet.new × AdmitsShort O.admits TEXT_LIMIT outlet.new }
    ensures keeper { K.is_ready keeper.new × AdmitsShort K.admits TEXT_LIMIT keeper.new }
{
    let Words {
        level,
        time,
        thread,
        text,
        source,
    } = words;
    let found = loggers.log_now(
        alloc, outlet, keeper, TEXT_LIMIT, 0, level, time, thread, text, source,
    );
    is_reply(rt, found, wanted);
}

// Three messages are filtered and kept.
pub(crate) fn keep_three<O: ItemOutlet, K: Keep>(
    rt: &impl Abort,
    loggers: &Loggers,
    alloc: Global,
    outlet: &mut O,
    keeper: &mut K,
)
    requires known { 0 < length loggers.now }
    requires outlet { O.is_ready outlet.old × AdmitsShort O.admits TEXT_LIMIT outlet.old }
    requires keeper { K.is_ready keeper.old × AdmitsShort K.admits TEXT_LIMIT keeper.old }
    ensures outlet { O.is_ready outlet.new × AdmitsShort O.admits TEXT_LIMIT outlet.new }
    ensures keeper { K.is_ready keeper.new × AdmitsShort K.admits TEXT_LIMIT keeper.new }
{
    let (m1, m2, m3) = (
        at_level(Level::Debug, "m1"),
        at_level(Level::Debug, "m2"),
        at_level(Level::Debug, "m3"),
    );
    tells(rt, loggers, alloc, outlet, keeper, m1, filtered(true));
    tells(rt, loggers, alloc, outlet, keeper, m2, filtered(true));
    tells(rt, loggers, alloc, outlet, keeper, m3, filtered(true));
}

// The posts of a dump ended so.
pub(crate) fn are_posted(
    rt: &impl Abort,
    outcomes: Result<Vec<Outcome<()>>, AllocError>,
    wanted: &[Outcome<()>],
) {
    match outcomes {
        Ok(outcomes) => assert!(rt; outcomes.as_slice() == wanted),
        Err(_) => panic!(rt; "out of memory"),
    }
}

// The last two are dumped, and then nothing is.
pub(crate) fn dump_twice<O: ItemOutlet>(
    rt: &impl Abort,
    loggers: &Loggers,
    alloc: Global,
    outlet: &mut O,
    backtrace: &mut Backtrace,
)
    requires known { 0 < length loggers.now }
    requires outlet { O.is_ready outlet.old × AdmitsShort O.admits backtrace.old.limit outlet.old }
    ensures ready { O.is_ready outlet.new }
{
    let outcomes = loggers.dump_backtrace(alloc, outlet, backtrace, 0, 5, 7);
    let all = [posted(0), posted(1), posted(2), posted(3)];
    are_posted(rt, outcomes, &all);
    let none = loggers.dump_backtrace(alloc, outlet, backtrace, 0, 5, 7);
    are_posted(rt, none, &[]);
}

// A post ended so.
pub(crate) fn is_outcome(rt: &impl Abort, outcome: &Outcome<()>, wanted: &Outcome<()>) {
    assert!(rt; outcome == wanted);
}

// A log goes so where the queue has two places and is full, and its message is kept.
pub(crate) fn log_to_a_full<O: ItemOutlet>(
    rt: &impl Abort,
    loggers: &Loggers,
    alloc: Global,
    outlet: &mut O,
    outcome: Outcome<()>,
)
    requires known { 0 < length loggers.now }
    requires outlet { O.is_ready outlet.old × AdmitsShort O.admits TEXT_LIMIT outlet.old }
{
    let mut kept = backtrace_of(rt, alloc, 4);
    let flushes = (loggers.flush(outlet, 0), loggers.flush(outlet, 0));
    is_outcome(rt, &flushes.0, &posted(0));
    is_outcome(rt, &flushes.1, &posted(1));
    let bad = at_level(Level::Error, "bad");
    let logged = Ok(LogReply::Logged {
        outcome,
        kept: true,
    });
    tells(rt, loggers, alloc, outlet, &mut kept, bad, logged);
    assert!(rt; kept.len() == 1);
}

// What becomes of a post where the queue is full.
pub(crate) fn discarded() -> Outcome<()> {
    Outcome::Discarded {
        value: (),
        why: Why::Full,
        overran: 0,
    }
}

pub(crate) fn overran() -> Outcome<()> {
    Outcome::Posted {
        ticket: 2,
        overran: 1,
    }
}
