//! Logs, flushes and dumps on a lent desk.
ghost use Rattle.std.specs.Prelude.{◌<◌, length};
ghost use Rattle.alog_registry.specs.Limit.{AdmitsShort};
ghost use Rattle.test_loggers.specs.declared.trial.TheConstants.{TEXT_LIMIT};

use crate::trial::{
    TEXT_LIMIT, Words, at_level, backtrace_of, desk_of, discarded, dump_twice, filtered,
    is_outcome, keep_three, lane_of, log_to_a_full, logged, one, overran, posted, tells,
};
use alog_msg::{Item, Level, Message, SourceRef};
use alog_policy::{Desk, Outcome, Policy, Stepped};
use alog_registry::{BacktraceScratch, ItemOutlet, Keep, LaneKeeper, Loggers};
use std::alloc::Global;
use std::process::Abort;

// What the next step of a pop takes, if it takes an item.
fn taken(rt: &impl Abort, desk: &mut Desk<Item>) -> Option<Item> {
    let Ok(Stepped { said, outcome: _ }) = desk.step(9) else {
        panic!(rt; "the actor is in a call")
    };
    if let alog_core::Said::Take(_, item) = said {
        Some(item)
    } else {
        None
    }
}

// What the next pop of a whole desk takes.
fn popped(rt: &impl Abort, desk: &mut Desk<Item>) -> Item {
    assert!(rt; desk.begin_pop(9).is_ok());
    for _ in 0..4 {
        if let Some(item) = taken(rt, desk) {
            return item;
        }
    }
    panic!(rt; "there is an item")
}

// A pop takes a message of this level, time, thread and text.
pub(crate) fn takes(
    rt: &impl Abort,
    desk: &mut Desk<Item>,
    level: Level,
    time: i64,
    thread: u64,
    text: &str,
) {
    let is = match popped(rt, desk) {
        Item::Text(message) => {
            message.text.as_str() == text
                && (message.logger, message.level, message.time, message.thread)
                    == (0, level, time, thread)
        }
        Item::Flush(_) | Item::Stop => false,
    };
    assert!(rt; is, "{text}");
}

// What a dump of the last two posted is taken, and then a flush.
fn take_dumped(rt: &impl Abort, desk: &mut Desk<Item>) {
    takes(rt, desk, Level::Info, 5, 7, "=== backtrace start ===");
    takes(rt, desk, Level::Debug, 0, 1, "m2");
    takes(rt, desk, Level::Debug, 0, 1, "m3");
    takes(rt, desk, Level::Info, 5, 7, "=== backtrace end ===");
    assert!(rt; matches!(popped(rt, desk), Item::Flush(0)));
}

// Three messages are kept, the last two are dumped, and then a flush is posted.
fn keep_dump_and_flush(rt: &impl Abort, loggers: &Loggers, alloc: Global, desk: &mut Desk<Item>)
    requires { 0 < length loggers.now }
{
    let mut backtrace = backtrace_of(rt, alloc, 2);
    let Ok(mut outlet) = desk.outlet(1) else {
        panic!(rt; "the actor is in no call")
    };
    keep_three(rt, loggers, alloc, &mut outlet, &mut backtrace);
    dump_twice(rt, loggers, alloc, &mut outlet, &mut backtrace);
    let flushed = loggers.flush(&mut outlet, 0);
    is_outcome(rt, &flushed, &posted(4));
}

#[test]
fn flushes_and_dumps_at_once(rt: HostRuntime) {
    let alloc = rt.alloc();
    let loggers = one(&rt, alloc, Policy::Block, 2);
    let mut desk = desk_of(&rt, alloc, 8);
    keep_dump_and_flush(&rt, &loggers, alloc, &mut desk);
    take_dumped(&rt, &mut desk);
}

// One message is posted, one is below the level, and one is posted at level off.
fn log_hello_quiet_and_off<O: ItemOutlet, K: Keep>(
    rt: &impl Abort,
    loggers: &Loggers,
    alloc: Global,
    outlet: &mut O,
    none: &mut K,
)
    requires known { 0 < length loggers.now }
    requires outlet { O.is_ready outlet.old × AdmitsShort O.admits TEXT_LIMIT outlet.old }
    requires keeper { K.is_ready none.old × AdmitsShort K.admits TEXT_LIMIT none.old }
{
    let hello = Words {
        level: Level::Info,
        time: -5,
        thread: 3,
        text: "hello",
        source: Some(SourceRef {
            file: "src/net.rt",
            line: 12,
            function: "connect",
        }),
    };
    tells(rt, loggers, alloc, outlet, none, hello, logged(0, false));
    let quiet = at_level(Level::Debug, "quiet");
    tells(rt, loggers, alloc, outlet, none, quiet, filtered(false));
    assert!(rt; loggers.set_level(0, Level::Off));
    let off = at_level(Level::Off, "off");
    tells(rt, loggers, alloc, outlet, none, off, logged(1, false));
}

// Whether an item is the first of the three.
fn is_hello(item: &Item) -> bool {
    match item {
        Item::Text(message) => {
            let source = matches!(&message.source, Some(source) if source.function() == "connect");
            let text = message.text.as_str() == "hello";
            text && message.time == -5 && message.thread == 3 && source
        }
        Item::Flush(_) | Item::Stop => false,
    }
}

// The three are logged by actor 1.
fn log_three(rt: &impl Abort, loggers: &Loggers, alloc: Global, desk: &mut Desk<Item>)
    requires { 0 < length loggers.now }
{
    let mut none = backtrace_of(rt, alloc, 0);
    let Ok(mut outlet) = desk.outlet(1) else {
        panic!(rt; "the actor is in no call")
    };
    log_hello_quiet_and_off(rt, loggers, alloc, &mut outlet, &mut none);
}

// The two that were posted are taken.
fn take_hello_and_off(rt: &impl Abort, desk: &mut Desk<Item>) {
    assert!(rt; is_hello(&popped(rt, desk)));
    takes(rt, desk, Level::Off, 0, 1, "off");
}

#[test]
fn logs_at_once(rt: HostRuntime) {
    let alloc = rt.alloc();
    let loggers = one(&rt, alloc, Policy::Block, 0);
    let mut desk = desk_of(&rt, alloc, 8);
    log_three(&rt, &loggers, alloc, &mut desk);
    take_hello_and_off(&rt, &mut desk);
}

// How a log goes under this policy where the queue is full.
fn when_full(rt: &impl Abort, alloc: Global, policy: Policy, outcome: Outcome<()>) {
    let loggers = one(rt, alloc, policy, 4);
    let mut desk = desk_of(rt, alloc, 2);
    log_to_a_full_desk(rt, &loggers, alloc, &mut desk, outcome);
}

fn log_to_a_full_desk(
    rt: &impl Abort,
    loggers: &Loggers,
    alloc: Global,
    desk: &mut Desk<Item>,
    outcome: Outcome<()>,
)
    requires { 0 < length loggers.now }
{
    match desk.outlet(1) {
        Ok(mut outlet) => log_to_a_full(rt, loggers, alloc, &mut outlet, outcome),
        Err(_) => panic!(rt; "the actor is in no call"),
    }
}

#[test]
fn policies_of_a_full_queue(rt: HostRuntime) {
    when_full(&rt, rt.alloc(), Policy::DiscardNew, discarded());
    when_full(&rt, rt.alloc(), Policy::Block, discarded());
    when_full(&rt, rt.alloc(), Policy::OverrunOldest, overran());
}

// A keeper that keeps nothing.
#[derive(Drop)]
struct Forgetful;

impl Keep for Forgetful {
    ghost use Rattle.std.specs.Prelude.{◌≡◌};

    ghost is_ready = { λ k. Unit {0} };

    ghost admits = { λ k m. Unit {0} };

    ghost keeps = { λ k m l. ⊥ };

    ghost passes = { λ k l. l ≡ k };

    fn keep_now(&mut self, _message: Message) -> bool {
        false
    }
}

// A message that is posted and one below the level are both kept, or neither is.
fn tells_whether_kept<K: Keep>(rt: &impl Abort, alloc: Global, keeper: &mut K, kept: bool)
    requires { K.is_ready keeper.old × AdmitsShort K.admits TEXT_LIMIT keeper.old }
{
    let loggers = one(rt, alloc, Policy::Block, 2);
    let mut desk = desk_of(rt, alloc, 4);
    log_two(rt, &loggers, alloc, &mut desk, keeper, kept);
}

fn log_two<K: Keep>(
    rt: &impl Abort,
    loggers: &Loggers,
    alloc: Global,
    desk: &mut Desk<Item>,
    keeper: &mut K,
    kept: bool,
)
    requires known { 0 < length loggers.now }
    requires keeper { K.is_ready keeper.old × AdmitsShort K.admits TEXT_LIMIT keeper.old }
{
    let Ok(mut outlet) = desk.outlet(1) else {
        panic!(rt; "the actor is in no call")
    };
    let (a, b) = (at_level(Level::Info, "a"), at_level(Level::Debug, "b"));
    tells(rt, loggers, alloc, &mut outlet, keeper, a, logged(0, kept));
    tells(rt, loggers, alloc, &mut outlet, keeper, b, filtered(kept));
}

#[test]
fn keepers_tell_what_they_kept(rt: HostRuntime) {
    let alloc = rt.alloc();
    tells_whether_kept(&rt, alloc, &mut Forgetful, false);
    let (lane, mut seat) = lane_of(&rt, alloc, 2);
    let mut scratch = BacktraceScratch {
        message: None,
        list: None,
    };
    let mut keeper = LaneKeeper {
        lane: &lane,
        seat: &mut seat,
        scratch: &mut scratch,
    };
    tells_whether_kept(&rt, alloc, &mut keeper, true);
}
