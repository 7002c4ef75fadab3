//! A backtrace under a lock, with which two threads keep messages, and one meets the lock while the other has it.
ghost use Rattle.std.specs.Prelude.{◌≡◌, ◌≤◌, ◌↔◌, IfSome, IsTrue};
ghost use Rattle.alog_lane.specs.Calls.{IsSeatOf};
ghost use Rattle.alog_registry.specs.Backtrace.{room_for};
ghost use Rattle.alog_registry.specs.Limit.{IsShort};
ghost use Rattle.test_loggers.specs.declared.trial.TheConstants.{TEXT_LIMIT};

use crate::trial::{TEXT_LIMIT, is_so, lane_of};
use alog_lane::{Lane, LaneSeat};
use alog_msg::{Level, Message, TEXT_LIMIT_MAX};
use alog_registry::{
    Backtrace, BacktraceItem, BacktraceReply, BacktraceScratch, Dumped, Keep, LaneKeeper,
};
use std::alloc::Global;
use std::mem;
use std::sync::atomic::{AtomicBool, Ordering};
use std::test::Fail;
use std::thread::{self, Threads};

/// The messages of each thread.
const MESSAGES: usize = 2_000;

/// The most messages that are kept.
const ROOM: usize = 64;

/// What a thread works with: its seat and its messages, and how many of them it kept.
#[derive(Drop)]
struct Keeping {
    seat: LaneSeat<Backtrace>,
    messages: Vec<Message>,
    kept: usize,
}

impl Keeping {
    fn new(seat: LaneSeat<Backtrace>, messages: Vec<Message>) -> Keeping
        ensures { result.seat ≡ seat }
    {
        Keeping {
            seat,
            messages,
            kept: 0,
        }
    }

    /// Keeps each of its messages, where the lock is free.
    fn keep_all(self, lane: &Lane<Backtrace>) -> Keeping
        requires { IsSeatOf lane.now self.seat × (TEXT_LIMIT ≤ lane.now.first.limit) }
        ensures { IsSeatOf lane.now result.seat }
    {
        let mut own = self;
        let mut scratch = BacktraceScratch {
            message: None,
            list: None,
        };
        while let Some(message) = own.messages.pop() {
            if is_short(&message) && keep_one(lane, &mut own.seat, &mut scratch, message) {
                own.kept = own.kept.saturating_add(1);
            }
        }
        own
    }
}

/// What a thread works with that keeps messages until the lock was met while another thread had it: its seat, how many messages
/// it kept, and whether it met the lock so.
#[derive(Drop)]
struct Meeting {
    alloc: Global,
    seat: LaneSeat<Backtrace>,
    kept: u64,
    met: bool,
}

impl Meeting {
    fn new(alloc: Global, seat: LaneSeat<Backtrace>) -> Meeting
        ensures { result.seat ≡ seat }
    {
        Meeting {
            alloc,
            seat,
            kept: 0,
            met: false,
        }
    }

    /// Keeps messages until one is not kept, here or in the other thread.
    fn keep_until_held(self, lane: &Lane<Backtrace>, is_met: &AtomicBool) -> Meeting
        requires { IsSeatOf lane.now self.seat × (TEXT_LIMIT ≤ lane.now.first.limit) }
        ensures { IsSeatOf lane.now result.seat }
    {
        let mut own = self;
        let mut scratch = BacktraceScratch {
            message: None,
            list: None,
        };
        for time in 0..i64::MAX {
            if is_met.load(Ordering::SeqCst) {
                break;
            }
            let Some(message) = short_message(own.alloc, time, 1) else {
                break;
            };
            if keep_one(lane, &mut own.seat, &mut scratch, message) {
                own.kept = own.kept.saturating_add(1);
            } else {
                own.met = true;
                is_met.store(true, Ordering::SeqCst);
            }
        }
        own
    }
}

/// A message of a thread at this time.
pub(crate) fn short_message(alloc: Global, time: i64, thread: u64) -> Option<Message>
    ensures { IfSome result (IsShort TEXT_LIMIT) }
{
    match Message::new(
        alloc,
        TEXT_LIMIT,
        0,
        Level::Info,
        time,
        thread,
        "text",
        None,
    ) {
        Ok(message) if is_short(&message) => Some(message),
        _ => None,
    }
}

/// Whether a text has at most 64 bytes, as all here have.
fn is_short(message: &Message) -> bool
    ensures { IsTrue result ↔ IsShort TEXT_LIMIT message.now }
{
    message.text.as_str().len() <= TEXT_LIMIT
}

/// Keeps the message, where the lock is free, and answers whether it did.
pub(crate) fn keep_one(
    lane: &Lane<Backtrace>,
    seat: &mut LaneSeat<Backtrace>,
    scratch: &mut BacktraceScratch,
    message: Message,
) -> bool
    requires seat { IsSeatOf lane.now seat.old }
    requires short { IsShort lane.now.first.limit message }
    ensures { IsSeatOf lane.now seat.new }
{
    let mut keeper = LaneKeeper {
        lane,
        seat,
        scratch,
    };
    keeper.keep_now(message)
}

/// The messages of this thread: the first to keep has time 0, and stands last.
fn messages_of(alloc: Global, thread: u64) -> Result<Vec<Message>, Fail> {
    let mut messages = Vec::with_capacity(alloc, MESSAGES)?;
    for place in 0..MESSAGES {
        let time = (MESSAGES - 1 - place) as i64;
        messages.push(Message::new(
            alloc,
            TEXT_LIMIT,
            0,
            Level::Info,
            time,
            thread,
            "text",
            None,
        )?)?;
    }
    Ok(messages)
}

/// Whether there are at most 64 messages, and those of each thread stand in the order in which it kept them.
fn are_in_order(list: &mut Dumped) -> bool {
    let (mut one, mut two) = (-1, -1);
    for _ in 0..ROOM {
        let Some(message) = list.take_oldest() else {
            return true;
        };
        let last = match message.thread {
            1 => mem::replace(&mut one, message.time),
            _ => mem::replace(&mut two, message.time),
        };
        if message.time <= last {
            return false;
        }
    }
    list.is_empty()
}

/// What two threads work with after both kept their messages.
fn kept_by_two(
    rt: &impl Threads,
    lane: &Lane<Backtrace>,
    one: Keeping,
    two: Keeping,
) -> (Keeping, Keeping)
    requires { IsSeatOf lane.now one.seat × IsSeatOf lane.now two.seat × (TEXT_LIMIT ≤ lane.now.first.limit) }
    ensures { IsSeatOf lane.now result.0.seat × IsSeatOf lane.now result.1.seat }
{
    thread::join(
        rt,
        || -> Keeping
            requires { IsSeatOf lane.now one.seat × (TEXT_LIMIT ≤ lane.now.first.limit) }
            ensures { IsSeatOf lane.entry.now result.seat }
        { one.keep_all(lane) },
        || -> Keeping
            requires { IsSeatOf lane.now two.seat × (TEXT_LIMIT ≤ lane.now.first.limit) }
            ensures { IsSeatOf lane.entry.now result.seat }
        { two.keep_all(lane) },
    )
}

/// The same where both seats come back to this one, and how many messages they kept.
fn keep_by_two(
    rt: &impl Threads,
    lane: &Lane<Backtrace>,
    seat: &mut LaneSeat<Backtrace>,
    one: Keeping,
    two: Keeping,
) -> usize
    requires seats { IsSeatOf lane.now one.seat × IsSeatOf lane.now two.seat × IsSeatOf lane.now seat.old }
    requires limit { TEXT_LIMIT ≤ lane.now.first.limit }
    ensures { IsSeatOf lane.now seat.new }
{
    let (one, two) = kept_by_two(rt, lane, one, two);
    let kept = one.kept.saturating_add(two.kept);
    lane.join(seat, one.seat);
    lane.join(seat, two.seat);
    kept
}

/// Whether the turn after so many that kept a message dumps the last of them, those of each thread in order.
fn dumps_in_order(
    lane: &Lane<Backtrace>,
    seat: &mut LaneSeat<Backtrace>,
    list: Dumped,
    kept: usize,
) -> bool
    requires seat { IsSeatOf lane.now seat.old }
    requires list { list ≡ room_for lane.now.first.most lane.now.first.limit }
{
    let mut scratch = BacktraceScratch {
        message: None,
        list: Some(list),
    };
    match lane.turn_once(seat, 0, &BacktraceItem::Dump, &mut scratch) {
        Ok((index, BacktraceReply::Dumped(mut list))) => {
            index == kept as u64 && list.len() == kept.min(ROOM) && are_in_order(&mut list)
        }
        Ok((_, BacktraceReply::Kept)) | Err(_) => false,
    }
}

#[test]
fn two_threads_keep(rt: HostRuntime) -> Result<(), Fail> {
    let alloc = rt.alloc();
    let first = messages_of(alloc, 1)?;
    let second = messages_of(alloc, 2)?;
    let list = Dumped::new(alloc, ROOM, TEXT_LIMIT_MAX)?;
    let (lane, mut seat) = lane_of(&rt, alloc, ROOM);
    let one = Keeping::new(lane.split(&mut seat, 1), first);
    let two = Keeping::new(lane.split(&mut seat, 1), second);
    let kept = keep_by_two(&rt, &lane, &mut seat, one, two);
    is_so(&rt, dumps_in_order(&lane, &mut seat, list, kept));
    Ok(())
}

/// How many messages two threads kept until one of them met the lock while the other had it.
fn kept_until_held(
    rt: &impl Threads,
    lane: &Lane<Backtrace>,
    one: Meeting,
    two: Meeting,
) -> (Meeting, Meeting)
    requires { IsSeatOf lane.now one.seat × IsSeatOf lane.now two.seat × (TEXT_LIMIT ≤ lane.now.first.limit) }
    ensures { IsSeatOf lane.now result.0.seat × IsSeatOf lane.now result.1.seat }
{
    let is_met = &AtomicBool::new(false);
    thread::join(
        rt,
        || -> Meeting
            requires { IsSeatOf lane.now one.seat × (TEXT_LIMIT ≤ lane.now.first.limit) }
            ensures { IsSeatOf lane.entry.now result.seat }
        { one.keep_until_held(lane, is_met) },
        || -> Meeting
            requires { IsSeatOf lane.now two.seat × (TEXT_LIMIT ≤ lane.now.first.limit) }
            ensures { IsSeatOf lane.entry.now result.seat }
        { two.keep_until_held(lane, is_met) },
    )
}

/// Whether the turn after so many that kept a message dumps: what was not kept made no turn.
pub(crate) fn dumps_after(
    lane: &Lane<Backtrace>,
    seat: &mut LaneSeat<Backtrace>,
    list: Dumped,
    kept: u64,
) -> bool
    requires seat { IsSeatOf lane.now seat.old }
    requires list { list ≡ room_for lane.now.first.most lane.now.first.limit }
{
    let mut scratch = BacktraceScratch {
        message: None,
        list: Some(list),
    };
    match lane.turn_once(seat, 0, &BacktraceItem::Dump, &mut scratch) {
        Ok((index, BacktraceReply::Dumped(_))) => index == kept,
        Ok((_, BacktraceReply::Kept)) | Err(_) => false,
    }
}

#[test]
fn a_lock_that_is_held(rt: HostRuntime) -> Result<(), Fail> {
    let alloc = rt.alloc();
    let list = Dumped::new(alloc, ROOM, TEXT_LIMIT_MAX)?;
    let (lane, mut seat) = lane_of(&rt, alloc, ROOM);
    let one = Meeting::new(alloc, lane.split(&mut seat, 1));
    let two = Meeting::new(alloc, lane.split(&mut seat, 1));
    let (one, two) = kept_until_held(&rt, &lane, one, two);
    is_so(&rt, one.met || two.met);
    let kept = one.kept.saturating_add(two.kept);
    lane.join(&mut seat, one.seat);
    lane.join(&mut seat, two.seat);
    is_so(&rt, dumps_after(&lane, &mut seat, list, kept));
    Ok(())
}
