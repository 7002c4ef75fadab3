ghost use Rattle.std.specs.Prelude.{◌≡◌, ◌<◌, length, IfSome};
ghost use Rattle.alog_registry.specs.Limit.{IsShort};
ghost use Rattle.alog_policy.specs.BookCalls.{IsSeatOf};
ghost use Rattle.alog_policy.specs.Port.{IsFit};
ghost use Rattle.alog_ring.specs.Known.{IsPassOf, first_known};
ghost use Rattle.test_loggers.specs.declared.trial.TheConstants.{TEXT_LIMIT};

use crate::trial::{
    TEXT_LIMIT, at_level, backtrace_of, discarded, dump_twice, is_outcome, is_reply, keep_three,
    log_to_a_full, number_of, one, overran, posted, tells,
};
use alog_msg::{Item, Level, Message};
use alog_policy::{BookSeat, LossBook, Outcome, Policy, Port};
use alog_registry::{Backtrace, LogReply, Loggers, Registry, Spec, TextLimit};
use alog_ring::{NewError, Pass, Ring};
use std::alloc::Global;
use std::process::Abort;
use std::test::Fail;

// A logger without a backtrace or a sink.
fn plain(alloc: Global, level: Level) -> Spec {
    Spec {
        level,
        policy: Policy::DiscardNew,
        flush_on: Level::Off,
        backtrace: 0,
        sinks: Vec::new(alloc),
    }
}

// Two loggers, `net` as level info and `disk` as level error.
fn two(rt: &impl Abort, alloc: Global) -> Loggers
    ensures { 1 < length result }
{
    let mut registry = Registry::new(alloc);
    let net = number_of(rt, registry.add("net", plain(alloc, Level::Info))).is_some();
    let disk = number_of(rt, registry.add("disk", plain(alloc, Level::Error))).is_some();
    match registry.freeze(alloc) {
        Ok(loggers) => {
            assert!(rt; net && disk && loggers.spec(1).is_some());
            loggers
        }
        Err(_) => panic!(rt; "out of memory"),
    }
}

// An empty ring, and its first pass.
pub(crate) fn ring_of(rt: &impl Abort, alloc: Global, places: usize) -> (Ring<Item>, Pass<Item>)
    ensures ring { IsPassOf result.0 result.1 }
    ensures first { result.1.known ≡ first_known places 0 }
{
    match Ring::new(alloc, places, 0) {
        Ok(made) => made,
        Err(NewError::OutOfMemory) => panic!(rt; "out of memory"),
        Err(_) => panic!(rt; "no ring of {places} places"),
    }
}

// A loss book, and its first seat.
pub(crate) fn new_book(rt: &impl Abort, alloc: Global) -> (LossBook, BookSeat)
    ensures { IsSeatOf result.0 result.1 }
{
    match LossBook::new(alloc) {
        Ok(made) => made,
        Err(_) => panic!(rt; "out of memory"),
    }
}

// A log of this level to the logger of this number answers this.
fn says(
    rt: &impl Abort,
    loggers: &Loggers,
    alloc: Global,
    port: &mut Port<'_, Item>,
    number: u32,
    level: Level,
    wanted: LogReply,
)
    requires known { number < length loggers.now }
    requires fit { IsFit port.old }
    ensures fit { IsFit port.new }
{
    let mut none = backtrace_of(rt, alloc, 0);
    let reply = loggers.log_now(
        alloc, port, &mut none, TEXT_LIMIT, number, level, 0, 1, "", None,
    );
    is_reply(rt, reply, Ok(wanted));
}

fn filtered(level: Level) -> LogReply {
    LogReply::Filtered { level, kept: false }
}

fn logged(ticket: u64) -> LogReply {
    LogReply::Logged {
        outcome: posted(ticket),
        kept: false,
    }
}

// The level of this logger is set.
fn sets(rt: &impl Abort, loggers: &Loggers, number: u32, level: Level) {
    assert!(rt; loggers.set_level(number, level));
}

// Each of two loggers says what its own level is, also where that is set.
fn each_says(rt: &impl Abort, loggers: &Loggers, alloc: Global, port: &mut Port<'_, Item>)
    requires known { 1 < length loggers.now }
    requires fit { IsFit port.old }
{
    let (info, error, off) = (Level::Info, Level::Error, Level::Off);
    let (trace, warning) = (Level::Trace, Level::Warning);
    let (debug, critical) = (Level::Debug, Level::Critical);
    says(rt, loggers, alloc, port, 0, trace, filtered(info));
    says(rt, loggers, alloc, port, 0, warning, logged(0));
    says(rt, loggers, alloc, port, 1, warning, filtered(error));
    says(rt, loggers, alloc, port, 1, error, logged(1));
    sets(rt, loggers, 1, off);
    says(rt, loggers, alloc, port, 1, critical, filtered(off));
    says(rt, loggers, alloc, port, 0, debug, filtered(info));
    says(rt, loggers, alloc, port, 0, critical, logged(2));
}

#[test]
fn each_logger_has_its_level(rt: HostRuntime) {
    let alloc = rt.alloc();
    let loggers = two(&rt, alloc);
    let (ring, mut pass) = ring_of(&rt, alloc, 4);
    let (book, mut losses) = new_book(&rt, alloc);
    let mut port = Port {
        ring: &ring,
        pass: &mut pass,
        book: &book,
        seat: &mut losses,
    };
    each_says(&rt, &loggers, alloc, &mut port);
}

// The next item of the ring is a flush of this logger.
fn takes_flush(rt: &impl Abort, ring: &Ring<Item>, pass: &mut Pass<Item>, number: u32)
    requires { IsPassOf ring.now pass.old }
    ensures { IsPassOf ring.now pass.new }
{
    assert!(rt; matches!(ring.pop_once(pass), Ok((_, Item::Flush(found))) if found == number));
}

// Flushes of two loggers are posted.
fn flush_two(rt: &impl Abort, loggers: &Loggers, port: &mut Port<'_, Item>)
    requires known { 1 < length loggers.now }
    requires fit { IsFit port.old }
{
    let flushes = (loggers.flush(port, 1), loggers.flush(port, 0));
    is_outcome(rt, &flushes.0, &posted(0));
    is_outcome(rt, &flushes.1, &posted(1));
}

// The largest ring but one: each logger's flush names that logger.
#[test]
fn flushes_of_two_loggers(rt: HostRuntime) {
    let alloc = rt.alloc();
    let loggers = two(&rt, alloc);
    let (ring, mut pass) = ring_of(&rt, alloc, 32_768);
    let (book, mut losses) = new_book(&rt, alloc);
    let mut other = ring.split(&mut pass, 1);
    let mut port = Port {
        ring: &ring,
        pass: &mut pass,
        book: &book,
        seat: &mut losses,
    };
    flush_two(&rt, &loggers, &mut port);
    takes_flush(&rt, &ring, &mut other, 1);
    takes_flush(&rt, &ring, &mut other, 0);
}

// The next item of the ring is this text.
fn takes(rt: &impl Abort, ring: &Ring<Item>, pass: &mut Pass<Item>, text: &str)
    requires { IsPassOf ring.now pass.old }
    ensures { IsPassOf ring.now pass.new }
{
    let is = match ring.pop_once(pass) {
        Ok((_, Item::Text(message))) => message.text.as_str() == text,
        Ok((_, Item::Flush(_) | Item::Stop)) | Err(_) => false,
    };
    assert!(rt; is, "{text}");
}

// What a dump of the last two posted is taken, and then a flush.
fn take_dumped(rt: &impl Abort, ring: &Ring<Item>, pass: &mut Pass<Item>)
    requires { IsPassOf ring.now pass.old }
{
    takes(rt, ring, pass, "=== backtrace start ===");
    takes(rt, ring, pass, "m2");
    takes(rt, ring, pass, "m3");
    takes(rt, ring, pass, "=== backtrace end ===");
    assert!(rt; matches!(ring.pop_once(pass), Ok((4, Item::Flush(0)))));
}

// Three messages are kept, the last two are dumped, and then a flush is posted.
fn keep_dump_and_flush(
    rt: &impl Abort,
    loggers: &Loggers,
    alloc: Global,
    ring: &Ring<Item>,
    pass: &mut Pass<Item>,
)
    requires known { 0 < length loggers.now }
    requires ring { IsPassOf ring.now pass.old }
{
    let mut backtrace = backtrace_of(rt, alloc, 2);
    let (book, mut losses) = new_book(rt, alloc);
    let mut port = Port {
        ring,
        pass,
        book: &book,
        seat: &mut losses,
    };
    keep_three(rt, loggers, alloc, &mut port, &mut backtrace);
    dump_twice(rt, loggers, alloc, &mut port, &mut backtrace);
    let flushed = loggers.flush(&mut port, 0);
    is_outcome(rt, &flushed, &posted(4));
}

#[test]
fn a_port_logs_dumps_and_flushes(rt: HostRuntime) {
    let alloc = rt.alloc();
    let loggers = one(&rt, alloc, Policy::Block, 2);
    let (ring, mut pass) = ring_of(&rt, alloc, 8);
    let mut other = ring.split(&mut pass, 1);
    keep_dump_and_flush(&rt, &loggers, alloc, &ring, &mut pass);
    take_dumped(&rt, &ring, &mut other);
}

// How a log goes under this policy where the ring is full.
fn when_full(rt: &impl Abort, alloc: Global, policy: Policy, outcome: Outcome<()>) {
    let loggers = one(rt, alloc, policy, 4);
    let (ring, mut pass) = ring_of(rt, alloc, 2);
    let (book, mut losses) = new_book(rt, alloc);
    let mut port = Port {
        ring: &ring,
        pass: &mut pass,
        book: &book,
        seat: &mut losses,
    };
    log_to_a_full(rt, &loggers, alloc, &mut port, outcome);
}

#[test]
fn policies_of_a_full_ring(rt: HostRuntime) {
    when_full(&rt, rt.alloc(), Policy::DiscardNew, discarded());
    when_full(&rt, rt.alloc(), Policy::Block, discarded());
    when_full(&rt, rt.alloc(), Policy::OverrunOldest, overran());
}

// The next text of a ring, which is as short as the ring says.
fn next_text(ring: &Ring<Item, TextLimit>, pass: &mut Pass<Item>) -> Option<Message>
    requires { IsPassOf ring.now pass.old }
    ensures { IfSome result (λ m. IsShort ring.now.limit.most m) }
{
    match ring.pop_once(pass) {
        Ok((_, Item::Text(message))) => Some(message),
        Ok((_, Item::Flush(_) | Item::Stop)) | Err(_) => None,
    }
}

// The next text of a ring is this one.
fn takes_short(rt: &impl Abort, ring: &Ring<Item, TextLimit>, pass: &mut Pass<Item>, text: &str)
    requires { IsPassOf ring.now pass.old }
{
    match next_text(ring, pass) {
        Some(message) => assert!(rt; message.text.as_str() == text),
        None => panic!(rt; "there is a text"),
    }
}

// A message of a short text is posted to a ring of such, and kept.
fn log_short(
    rt: &impl Abort,
    loggers: &Loggers,
    alloc: Global,
    ring: &Ring<Item, TextLimit>,
    pass: &mut Pass<Item>,
    backtrace: &mut Backtrace,
)
    requires known { 0 < length loggers.now }
    requires ring { IsPassOf ring.now pass.old }
    requires limit { ring.now.limit ≡ record { most = TEXT_LIMIT } }
    requires backtrace { backtrace.old.limit ≡ TEXT_LIMIT }
{
    let (book, mut losses) = new_book(rt, alloc);
    let mut port = Port {
        ring,
        pass,
        book: &book,
        seat: &mut losses,
    };
    let m1 = at_level(Level::Info, "m1");
    let wanted = LogReply::Logged {
        outcome: posted(0),
        kept: true,
    };
    tells(rt, loggers, alloc, &mut port, backtrace, m1, Ok(wanted));
}

#[test]
fn a_ring_of_short_texts(rt: HostRuntime) -> Result<(), Fail> {
    let alloc = rt.alloc();
    let mut backtrace = Backtrace::limited(alloc, 1, TEXT_LIMIT)?;
    let limit = TextLimit { most: TEXT_LIMIT };
    let (ring, mut pass) = Ring::limited(alloc, 4, 0, limit)?;
    let loggers = one(&rt, alloc, Policy::Block, 1);
    let mut other = ring.split(&mut pass, 1);
    log_short(&rt, &loggers, alloc, &ring, &mut pass, &mut backtrace);
    takes_short(&rt, &ring, &mut other, "m1");
    Ok(())
}
