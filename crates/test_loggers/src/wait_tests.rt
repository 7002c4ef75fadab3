ghost use Rattle.std.specs.Prelude.{◌≡◌, ◌≤◌, ◌<◌, length};
ghost use Rattle.alog_msg.specs.declared.limits.TheConstants.{TEXT_LIMIT_MIN};
ghost use Rattle.alog_policy.specs.Port.{IsFit};
ghost use Rattle.alog_registry.specs.LaneKeeper.{IsSeated, HasList};

use crate::port_tests::{new_book, ring_of};
use crate::trial::{
    TEXT_LIMIT, are_posted, backtrace_of, discarded, is_outcome, is_reply, lane_of, one, overran,
    posted,
};
use alog_lane::Lane;
use alog_msg::{Item, Level, MessageError, TEXT_LIMIT_MAX};
use alog_policy::{Outcome, Policy, Port, Why};
use alog_registry::{BacktraceScratch, Dumped, LaneKeeper, LogReply, Loggers};
use std::alloc::{AllocError, Global};
use std::process::Abort;
use std::sync::Wait;
use std::test::Fail;
use std::time::Clock;

// A log with waiting answers so, where the keeper has a list.
fn says<R: Wait + Clock + Abort>(
    rt: &R,
    loggers: &Loggers,
    alloc: Global,
    port: &mut Port<'_, Item>,
    keeper: &mut LaneKeeper<'_>,
    level: Level,
    text: &str,
    wanted: LogReply,
)
    requires known { 0 < length loggers.now }
    requires fit { IsFit port.old }
    requires seated { IsSeated keeper.old × HasList keeper.old }
    requires limit { TEXT_LIMIT_MIN ≤ keeper.old.lane.now.first.limit }
    ensures fit { IsFit port.new }
    ensures seated { IsSeated keeper.new × HasList keeper.new × (keeper.new.lane ≡ keeper.old.lane) }
{
    let found = loggers.log(
        rt, alloc, port, keeper, TEXT_LIMIT, 0, level, 0, 1, text, None,
    );
    is_reply(rt, found, Ok(wanted));
}

// A message was posted first, and kept.
fn logged() -> LogReply {
    LogReply::Logged {
        outcome: posted(0),
        kept: true,
    }
}

// A message was below level info, and kept.
fn kept() -> LogReply {
    LogReply::Filtered {
        level: Level::Info,
        kept: true,
    }
}

// One message is logged, two are kept, and the last two of the three are dumped.
fn log_and_dump<R: Wait + Clock + Abort>(
    rt: &R,
    loggers: &Loggers,
    alloc: Global,
    port: &mut Port<'_, Item>,
    keeper: &mut LaneKeeper<'_>,
)
    requires known { 0 < length loggers.now }
    requires fit { IsFit port.old }
    requires seated { IsSeated keeper.old × HasList keeper.old }
    requires limit { TEXT_LIMIT_MIN ≤ keeper.old.lane.now.first.limit }
    ensures fit { IsFit port.new }
    ensures seated { IsSeated keeper.new × HasList keeper.new × (keeper.new.lane ≡ keeper.old.lane) }
{
    let (info, debug) = (Level::Info, Level::Debug);
    says(rt, loggers, alloc, port, keeper, info, "m1", logged());
    says(rt, loggers, alloc, port, keeper, debug, "m2", kept());
    says(rt, loggers, alloc, port, keeper, debug, "m3", kept());
    let outcomes = loggers.dump_shared(rt, alloc, port, keeper, 0, 5, 7);
    are_posted(rt, outcomes, &[posted(1), posted(2), posted(3), posted(4)]);
}

// Whether the post found no room.
fn is_full(outcome: &Outcome<()>) -> bool {
    matches!(
        outcome,
        Outcome::Discarded {
            why: Why::Full,
            overran: 0,
            ..
        }
    )
}

// A message is logged, whatever becomes of it.
fn logs<R: Wait + Clock + Abort>(
    rt: &R,
    loggers: &Loggers,
    alloc: Global,
    port: &mut Port<'_, Item>,
    keeper: &mut LaneKeeper<'_>,
    text: &str,
)
    requires known { 0 < length loggers.now }
    requires fit { IsFit port.old }
    requires seated { IsSeated keeper.old × HasList keeper.old }
    requires limit { TEXT_LIMIT_MIN ≤ keeper.old.lane.now.first.limit }
    ensures fit { IsFit port.new }
    ensures seated { IsSeated keeper.new × HasList keeper.new × (keeper.new.lane ≡ keeper.old.lane) }
{
    match loggers.log(
        rt,
        alloc,
        port,
        keeper,
        TEXT_LIMIT,
        0,
        Level::Info,
        0,
        1,
        text,
        None,
    ) {
        Ok(_) => {}
        Err(MessageError::OutOfMemory) => panic!(rt; "out of memory"),
        Err(_) => panic!(rt; "no message of {text}"),
    }
}

// None of the four posts of a dump found room.
fn are_full(rt: &impl Abort, outcomes: Result<Vec<Outcome<()>>, AllocError>) {
    match outcomes {
        Ok(outcomes) => assert!(rt; outcomes.len() == 4 && outcomes.iter().all(is_full)),
        Err(_) => panic!(rt; "out of memory"),
    }
}

// Three more messages fill the queue, and the last two are dumped: no post of the dump waits for room, and none finds any.
fn dump_to_a_full_queue<R: Wait + Clock + Abort>(
    rt: &R,
    loggers: &Loggers,
    alloc: Global,
    port: &mut Port<'_, Item>,
    keeper: &mut LaneKeeper<'_>,
)
    requires known { 0 < length loggers.now }
    requires fit { IsFit port.old }
    requires seated { IsSeated keeper.old × HasList keeper.old }
    requires limit { TEXT_LIMIT_MIN ≤ keeper.old.lane.now.first.limit }
{
    logs(rt, loggers, alloc, port, keeper, "m4");
    logs(rt, loggers, alloc, port, keeper, "m5");
    logs(rt, loggers, alloc, port, keeper, "m6");
    let outcomes = loggers.dump_shared(rt, alloc, port, keeper, 0, 5, 7);
    are_full(rt, outcomes);
}

// No dump is made of what was not kept.
fn dumps_nothing<R: Wait + Clock + Abort>(
    rt: &R,
    loggers: &Loggers,
    alloc: Global,
    port: &mut Port<'_, Item>,
    keeper: &mut LaneKeeper<'_>,
)
    requires known { 0 < length loggers.now }
    requires fit { IsFit port.old }
    requires seated { IsSeated keeper.old × HasList keeper.old }
    requires limit { TEXT_LIMIT_MIN ≤ keeper.old.lane.now.first.limit }
    ensures fit { IsFit port.new }
    ensures seated { IsSeated keeper.new × HasList keeper.new × (keeper.new.lane ≡ keeper.old.lane) }
{
    let none = loggers.dump_shared(rt, alloc, port, keeper, 0, 5, 7);
    are_posted(rt, none, &[]);
}

// All three, one after another.
fn log_dump_and_fill<R: Wait + Clock + Abort>(
    rt: &R,
    loggers: &Loggers,
    alloc: Global,
    port: &mut Port<'_, Item>,
    keeper: &mut LaneKeeper<'_>,
)
    requires known { 0 < length loggers.now }
    requires fit { IsFit port.old }
    requires seated { IsSeated keeper.old × HasList keeper.old }
    requires limit { TEXT_LIMIT_MIN ≤ keeper.old.lane.now.first.limit }
{
    dumps_nothing(rt, loggers, alloc, port, keeper);
    log_and_dump(rt, loggers, alloc, port, keeper);
    dump_to_a_full_queue(rt, loggers, alloc, port, keeper);
}

// The same on a new ring.
fn log_dump_and_fill_a_ring<R: Wait + Clock + Abort>(
    rt: &R,
    loggers: &Loggers,
    alloc: Global,
    keeper: &mut LaneKeeper<'_>,
)
    requires known { 0 < length loggers.now }
    requires seated { IsSeated keeper.old × HasList keeper.old }
    requires limit { TEXT_LIMIT_MIN ≤ keeper.old.lane.now.first.limit }
{
    let (ring, mut pass) = ring_of(rt, alloc, 8);
    let (book, mut losses) = new_book(rt, alloc);
    let mut port = Port {
        ring: &ring,
        pass: &mut pass,
        book: &book,
        seat: &mut losses,
    };
    log_dump_and_fill(rt, loggers, alloc, &mut port, keeper);
}

#[test]
fn logs_with_waiting(rt: HostRuntime) -> Result<(), Fail> {
    let alloc = rt.alloc();
    let list = Dumped::new(alloc, 2, TEXT_LIMIT_MAX)?;
    let (lane, mut seat) = lane_of(&rt, alloc, 2);
    let mut scratch = BacktraceScratch {
        message: None,
        list: Some(list),
    };
    let loggers = one(&rt, alloc, Policy::Block, 2);
    let mut keeper = LaneKeeper {
        lane: &lane,
        seat: &mut seat,
        scratch: &mut scratch,
    };
    log_dump_and_fill_a_ring(&rt, &loggers, alloc, &mut keeper);
    Ok(())
}

// Two flushes with waiting fill the ring, and a third one goes so.
fn flush_thrice<R: Wait + Clock + Abort>(
    rt: &R,
    loggers: &Loggers,
    port: &mut Port<'_, Item>,
    third: Outcome<()>,
)
    requires known { 0 < length loggers.now }
    requires fit { IsFit port.old }
{
    let flushes = (
        loggers.flush_wait(rt, port, 0),
        loggers.flush_wait(rt, port, 0),
        loggers.flush_wait(rt, port, 0),
    );
    is_outcome(rt, &flushes.0, &posted(0));
    is_outcome(rt, &flushes.1, &posted(1));
    is_outcome(rt, &flushes.2, &third);
}

// How a flush with waiting goes under this policy, where the ring has two places and is full.
fn flush_to_a_full<R: Wait + Clock + Abort>(
    rt: &R,
    alloc: Global,
    policy: Policy,
    outcome: Outcome<()>,
) {
    let loggers = one(rt, alloc, policy, 0);
    let (ring, mut pass) = ring_of(rt, alloc, 2);
    let (book, mut losses) = new_book(rt, alloc);
    let mut port = Port {
        ring: &ring,
        pass: &mut pass,
        book: &book,
        seat: &mut losses,
    };
    flush_thrice(rt, &loggers, &mut port, outcome);
}

#[test]
fn flushes_with_waiting(rt: HostRuntime) {
    flush_to_a_full(&rt, rt.alloc(), Policy::DiscardNew, discarded());
    flush_to_a_full(&rt, rt.alloc(), Policy::OverrunOldest, overran());
}

// A log with waiting answers so.
fn answers<R: Wait + Clock + Abort>(
    rt: &R,
    loggers: &Loggers,
    alloc: Global,
    port: &mut Port<'_, Item>,
    keeper: &mut LaneKeeper<'_>,
    level: Level,
    text: &str,
    wanted: Result<LogReply, MessageError>,
)
    requires known { 0 < length loggers.now }
    requires fit { IsFit port.old }
    requires seated { IsSeated keeper.old }
    requires limit { TEXT_LIMIT_MIN ≤ keeper.old.lane.now.first.limit }
    ensures fit { IsFit port.new }
    ensures seated { IsSeated keeper.new × (keeper.new.lane ≡ keeper.old.lane) }
{
    let found = loggers.log(
        rt, alloc, port, keeper, TEXT_LIMIT, 0, level, 0, 1, text, None,
    );
    is_reply(rt, found, wanted);
}

/// A text of 65 bytes, where 64 are the most.
const LONG: &str = "0123456789abcdef0123456789abcdef0123456789abcdef0123456789abcdef!";

// A message was below this level, and not kept.
fn below(level: Level) -> Result<LogReply, MessageError> {
    Ok(LogReply::Filtered { level, kept: false })
}

// A logger that keeps nothing does not look at a long text below its level, also where that was set since, and tells the level that it
// read; a long text that is not below it is refused.
fn looks_at_none_below<R: Wait + Clock + Abort>(
    rt: &R,
    bare: &Loggers,
    alloc: Global,
    port: &mut Port<'_, Item>,
    keeper: &mut LaneKeeper<'_>,
    long: &str,
)
    requires known { 0 < length bare.now }
    requires fit { IsFit port.old }
    requires seated { IsSeated keeper.old }
    requires limit { TEXT_LIMIT_MIN ≤ keeper.old.lane.now.first.limit }
{
    let (info, critical) = (below(Level::Info), below(Level::Critical));
    let refused = Err(MessageError::TextTooLong);
    answers(rt, bare, alloc, port, keeper, Level::Debug, long, info);
    answers(rt, bare, alloc, port, keeper, Level::Info, long, refused);
    assert!(rt; bare.set_level(0, Level::Critical));
    answers(rt, bare, alloc, port, keeper, Level::Error, long, critical);
}

// The same on a new ring.
fn below_on_a_ring<R: Wait + Clock + Abort>(
    rt: &R,
    bare: &Loggers,
    alloc: Global,
    keeper: &mut LaneKeeper<'_>,
    long: &str,
)
    requires known { 0 < length bare.now }
    requires seated { IsSeated keeper.old }
    requires limit { TEXT_LIMIT_MIN ≤ keeper.old.lane.now.first.limit }
{
    let (ring, mut pass) = ring_of(rt, alloc, 8);
    let (book, mut losses) = new_book(rt, alloc);
    let mut port = Port {
        ring: &ring,
        pass: &mut pass,
        book: &book,
        seat: &mut losses,
    };
    looks_at_none_below(rt, bare, alloc, &mut port, keeper, long);
}

// And with a new backtrace that keeps nothing.
pub(crate) fn below_on_a_lane<R: Wait + Clock + Abort>(
    rt: &R,
    bare: &Loggers,
    alloc: Global,
    long: &str,
)
    requires { 0 < length bare.now }
{
    let none = backtrace_of(rt, alloc, 0);
    let Ok((lane, mut seat)) = Lane::new(alloc, none) else {
        panic!(rt; "out of memory")
    };
    let mut scratch = BacktraceScratch {
        message: None,
        list: None,
    };
    let mut keeper = LaneKeeper {
        lane: &lane,
        seat: &mut seat,
        scratch: &mut scratch,
    };
    below_on_a_ring(rt, bare, alloc, &mut keeper, long);
}

#[test]
fn long_texts_below_the_level(rt: HostRuntime) {
    let bare = one(&rt, rt.alloc(), Policy::Block, 0);
    below_on_a_lane(&rt, &bare, rt.alloc(), LONG);
}
