ghost use Rattle.std.specs.Prelude.{◌≡◌, IfOk};
ghost use Rattle.alog_lane.specs.Calls.{IsSeatOf};
ghost use Rattle.alog_registry.specs.Backtrace.{room_for};
ghost use Rattle.alog_registry.specs.Limit.{IsShort};

use crate::trial::{is_so, lane_of};
use alog_lane::{Lane, LaneSeat};
use alog_msg::{Level, Message, MessageError, TEXT_LIMIT_MAX};
use alog_registry::{
    Backtrace, BacktraceError, BacktraceItem, BacktraceReply, BacktraceScratch, Dumped,
};
use std::alloc::Global;
use std::process::Abort;
use std::test::Fail;

pub(crate) fn message(alloc: Global, level: Level, text: &str) -> Result<Message, MessageError>
    ensures { IfOk result (λ m. IsShort 64 m) }
{
    Message::new(alloc, 64, 0, level, 5, 1, text, None)
}

fn debug(alloc: Global, text: &str) -> Result<Message, MessageError>
    ensures { IfOk result (λ m. IsShort 64 m) }
{
    message(alloc, Level::Debug, text)
}

fn is_text(message: Option<Message>, text: &str) -> bool {
    match message {
        Some(message) => message.text.as_str() == text,
        None => false,
    }
}

// Keeps this text, of level debug.
fn keeps(alloc: Global, backtrace: &mut Backtrace, text: &str) -> Result<(), Fail> {
    let message = debug(alloc, text)?;
    let _least = backtrace.text_limit();
    backtrace.keep(message);
    Ok(())
}

// What a backtrace kept, of which it is emptied.
fn dumped(alloc: Global, backtrace: &mut Backtrace) -> Result<Dumped, Fail> {
    let list = Dumped::new(alloc, backtrace.most(), backtrace.text_limit())?;
    Ok(backtrace.dump(list))
}

// Whether a list has just these texts, which are taken.
fn has_just(list: &mut Dumped, texts: &[&str]) -> bool {
    for text in texts {
        if !is_text(list.take_oldest(), text) {
            return false;
        }
    }
    list.is_empty() && list.take_oldest().is_none()
}

// Whether a backtrace that keeps these texts dumps those, and is empty then.
fn dumps(
    alloc: Global,
    backtrace: &mut Backtrace,
    texts: &[&str],
    wanted: &[&str],
) -> Result<bool, Fail> {
    for text in texts {
        keeps(alloc, backtrace, text)?;
    }
    let len = backtrace.len();
    let mut list = dumped(alloc, backtrace)?;
    let are_as_many = len == wanted.len() && list.len() == wanted.len();
    Ok(are_as_many && backtrace.is_empty() && has_just(&mut list, wanted))
}

#[test]
fn dumps_the_last_two(rt: HostRuntime) -> Result<(), Fail> {
    let mut backtrace = Backtrace::new(rt.alloc(), 2)?;
    let rows: [(&[&str], &[&str]); 3] = [
        (&["m1", "m2", "m3"], &["m2", "m3"]),
        (&["m4"], &["m4"]),
        (&[], &[]),
    ];
    for (texts, wanted) in &rows {
        assert!(rt; dumps(rt.alloc(), &mut backtrace, texts, wanted)?);
    }
    Ok(())
}

// The most that a backtrace keeps which is to keep so many, or why it is refused.
fn most_of(alloc: Global, most: usize) -> Result<usize, BacktraceError> {
    Ok(Backtrace::new(alloc, most)?.most())
}

// A backtrace that is to keep so many keeps that many at most, or is refused so.
fn has_most(rt: &impl Abort, alloc: Global, most: usize, wanted: Result<usize, BacktraceError>) {
    let found = most_of(alloc, most);
    assert!(rt; found != Err(BacktraceError::OutOfMemory), "out of memory");
    assert!(rt; found == wanted, "{most}");
}

// Whether a backtrace that is to keep nothing does so.
fn keeps_nothing(alloc: Global) -> Result<bool, Fail> {
    let mut none = Backtrace::new(alloc, 0)?;
    keeps(alloc, &mut none, "m1")?;
    Ok(none.is_empty())
}

#[test]
fn limits_of_a_backtrace(rt: HostRuntime) -> Result<(), Fail> {
    for (most, wanted) in [
        (4_097, Err(BacktraceError::BadLimit)),
        (4_096, Ok(4_096)),
        (2, Ok(2)),
    ] {
        has_most(&rt, rt.alloc(), most, wanted);
    }
    assert!(rt; keeps_nothing(rt.alloc())?);
    Ok(())
}

// Whether a backtrace that is to keep so many gives all of them, oldest first, of one more text than that.
fn dumps_many(alloc: Global, most: usize) -> Result<bool, Fail> {
    let mut backtrace = Backtrace::new(alloc, most)?;
    for number in 0..=most {
        let text = format!(in alloc; "{number}")?;
        keeps(alloc, &mut backtrace, text.as_str())?;
    }
    let mut list = dumped(alloc, &mut backtrace)?;
    are_numbered(alloc, &mut list, most)
}

// Whether a list has the texts 1 to this one, and nothing else.
fn are_numbered(alloc: Global, list: &mut Dumped, most: usize) -> Result<bool, Fail> {
    for number in 1..=most {
        let text = format!(in alloc; "{number}")?;
        if !is_text(list.take_oldest(), text.as_str()) {
            return Ok(false);
        }
    }
    Ok(list.is_empty())
}

#[test]
fn large_dumps(rt: HostRuntime) -> Result<(), Fail> {
    for most in [63, 255, 256, 4_095, 4_096] {
        assert!(rt; dumps_many(rt.alloc(), most)?, "{most}");
    }
    Ok(())
}

// The first turn takes the message out of its scratch, and keeps it.
fn keeps_first(lane: &Lane<Backtrace>, seat: &mut LaneSeat<Backtrace>, message: Message) -> bool
    requires seat { IsSeatOf lane.now seat.old }
    requires short { IsShort lane.now.first.limit message }
    ensures { IsSeatOf lane.now seat.new }
{
    let mut scratch = BacktraceScratch {
        message: Some(message),
        list: None,
    };
    let kept = lane.turn_once(seat, 0, &BacktraceItem::Keep, &mut scratch);
    matches!(kept, Ok((0, BacktraceReply::Kept))) && scratch.message.is_none()
}

// The second turn takes the list out of its scratch, and gives it back with the one text that was kept.
fn dumps_second(
    lane: &Lane<Backtrace>,
    seat: &mut LaneSeat<Backtrace>,
    list: Dumped,
    text: &str,
) -> bool
    requires seat { IsSeatOf lane.now seat.old }
    requires list { list ≡ room_for lane.now.first.most lane.now.first.limit }
    ensures { IsSeatOf lane.now seat.new }
{
    let mut scratch = BacktraceScratch {
        message: None,
        list: Some(list),
    };
    match lane.turn_once(seat, 0, &BacktraceItem::Dump, &mut scratch) {
        Ok((1, BacktraceReply::Dumped(mut list))) => {
            is_text(list.take_oldest(), text) && scratch.list.is_none()
        }
        _ => false,
    }
}

#[test]
fn turns_of_a_backtrace(rt: HostRuntime) -> Result<(), Fail> {
    let alloc = rt.alloc();
    let message = debug(alloc, "m1")?;
    let list = Dumped::new(alloc, 1, TEXT_LIMIT_MAX)?;
    let (lane, mut seat) = lane_of(&rt, alloc, 1);
    is_so(&rt, keeps_first(&lane, &mut seat, message));
    is_so(&rt, dumps_second(&lane, &mut seat, list, "m1"));
    match lane.close(seat) {
        Ok(backtrace) => assert!(rt; backtrace.is_empty()),
        Err(_) => panic!(rt; "no seat is out"),
    }
    Ok(())
}
