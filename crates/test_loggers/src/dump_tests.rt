//! Dumps of a shared backtrace that never wait, on a lent desk.
ghost use Rattle.std.specs.Prelude.{◌≡◌, ◌≤◌, ◌<◌, length};
ghost use Rattle.alog_lane.specs.Calls.{IsSeatOf};
ghost use Rattle.alog_msg.specs.declared.limits.TheConstants.{TEXT_LIMIT_MIN, TEXT_LIMIT_MAX};
ghost use Rattle.alog_registry.specs.Backtrace.{room_for};
ghost use Rattle.alog_registry.specs.LaneKeeper.{HasList, IsSeated};
ghost use Rattle.test_loggers.specs.declared.trial.TheConstants.{TEXT_LIMIT};

use crate::log_tests::takes;
use crate::thread_tests::{dumps_after, keep_one, short_message};
use crate::trial::{TEXT_LIMIT, desk_of, discarded, is_so, lane_of, one, posted};
use alog_lane::{Lane, LaneSeat};
use alog_msg::{Item, Level, TEXT_LIMIT_MAX};
use alog_policy::{Desk, Outcome, Policy};
use alog_registry::{Backtrace, BacktraceScratch, DumpError, Dumped, LaneKeeper, Loggers};
use std::alloc::Global;
use std::process::Abort;
use std::sync::atomic::{AtomicBool, Ordering};
use std::test::Fail;
use std::thread::{self, Threads};

/// How often a dump is tried at most.
const TRIES: u32 = 10_000_000;

/// How many messages are kept at most.
const ROOM: usize = 64;

/// An actor dumps the backtrace of the first logger, where one try gets the lock.
fn dump(
    rt: &impl Abort,
    loggers: &Loggers,
    alloc: Global,
    desk: &mut Desk<Item>,
    keeper: &mut LaneKeeper<'_>,
) -> Result<Vec<Outcome<()>>, DumpError>
    requires known { 0 < length loggers.now }
    requires seated { IsSeated keeper.old × HasList keeper.old }
    requires limit { TEXT_LIMIT_MIN ≤ keeper.old.lane.now.first.limit }
    ensures { IsSeated keeper.new × HasList keeper.new × (keeper.new.lane ≡ keeper.old.lane) }
{
    let Ok(mut outlet) = desk.outlet(1) else {
        panic!(rt; "the actor is in no call")
    };
    loggers.dump_shared_once(alloc, &mut outlet, keeper, 0, 5, 7)
}

/// Whether memory was wanting.
fn is_wanting(answer: &Result<Vec<Outcome<()>>, DumpError>) -> bool {
    matches!(answer, Err(DumpError::OutOfMemory))
}

/// A dump posted this.
fn are(rt: &impl Abort, answer: &Result<Vec<Outcome<()>>, DumpError>, wanted: &[Outcome<()>]) {
    match answer {
        Ok(outcomes) => assert!(rt; outcomes.as_slice() == wanted),
        Err(DumpError::OutOfMemory) => panic!(rt; "memory was wanting twice"),
        Err(DumpError::Held) => panic!(rt; "nobody else has the lock"),
    }
}

/// A dump posts this. Where memory was wanting nothing changed: it is made again, and posts the same.
fn dumps(
    rt: &impl Abort,
    loggers: &Loggers,
    alloc: Global,
    desk: &mut Desk<Item>,
    keeper: &mut LaneKeeper<'_>,
    wanted: &[Outcome<()>],
)
    requires known { 0 < length loggers.now }
    requires seated { IsSeated keeper.old × HasList keeper.old }
    requires limit { TEXT_LIMIT_MIN ≤ keeper.old.lane.now.first.limit }
    ensures { IsSeated keeper.new × HasList keeper.new × (keeper.new.lane ≡ keeper.old.lane) }
{
    let mut answer = dump(rt, loggers, alloc, desk, keeper);
    if is_wanting(&answer) {
        answer = dump(rt, loggers, alloc, desk, keeper);
    }
    are(rt, &answer, wanted);
}

/// Keeps three messages, of the times 1, 2 and 3.
fn keeps_three(
    rt: &impl Abort,
    alloc: Global,
    lane: &Lane<Backtrace>,
    seat: &mut LaneSeat<Backtrace>,
)
    requires { IsSeatOf lane.now seat.old × (TEXT_LIMIT ≤ lane.now.first.limit) }
    ensures { IsSeatOf lane.now seat.new }
{
    let mut scratch = BacktraceScratch {
        message: None,
        list: None,
    };
    for time in 1..=3_i64 {
        let Some(message) = short_message(alloc, time, 9) else {
            panic!(rt; "out of memory")
        };
        is_so(rt, keep_one(lane, seat, &mut scratch, message));
    }
}

/// Three messages are kept, of which a dump posts the last two so, and another one nothing.
fn keeps_and_dumps(
    rt: &impl Abort,
    alloc: Global,
    list: Dumped,
    desk: &mut Desk<Item>,
    wanted: &[Outcome<()>],
)
    requires { list ≡ room_for 2 TEXT_LIMIT_MAX }
{
    let loggers = one(rt, alloc, Policy::Block, 2);
    let (lane, mut seat) = lane_of(rt, alloc, 2);
    keeps_three(rt, alloc, &lane, &mut seat);
    let mut scratch = BacktraceScratch {
        message: None,
        list: Some(list),
    };
    let mut keeper = LaneKeeper {
        lane: &lane,
        seat: &mut seat,
        scratch: &mut scratch,
    };
    dumps(rt, &loggers, alloc, desk, &mut keeper, wanted);
    dumps(rt, &loggers, alloc, desk, &mut keeper, &[]);
}

/// A dump at once posts the last messages that were kept between two markers, and then nothing is kept. Where memory is wanting, all is as it was.
#[test]
fn dumps_at_once(rt: HostRuntime) -> Result<(), Fail> {
    let alloc = rt.alloc();
    let list = Dumped::new(alloc, 2, TEXT_LIMIT_MAX)?;
    let mut desk = desk_of(&rt, alloc, 4);
    let all = [posted(0), posted(1), posted(2), posted(3)];
    keeps_and_dumps(&rt, alloc, list, &mut desk, &all);
    takes(&rt, &mut desk, Level::Info, 5, 7, "=== backtrace start ===");
    takes(&rt, &mut desk, Level::Info, 2, 9, "text");
    takes(&rt, &mut desk, Level::Info, 3, 9, "text");
    takes(&rt, &mut desk, Level::Info, 5, 7, "=== backtrace end ===");
    Ok(())
}

/// Where the queue is full, what is dumped at once is discarded: no post waits, though the logger blocks, and nothing stays kept.
#[test]
fn dumps_at_once_to_a_full_queue(rt: HostRuntime) -> Result<(), Fail> {
    let alloc = rt.alloc();
    let list = Dumped::new(alloc, 2, TEXT_LIMIT_MAX)?;
    let mut desk = desk_of(&rt, alloc, 2);
    let two = [posted(0), posted(1), discarded(), discarded()];
    keeps_and_dumps(&rt, alloc, list, &mut desk, &two);
    takes(&rt, &mut desk, Level::Info, 5, 7, "=== backtrace start ===");
    takes(&rt, &mut desk, Level::Info, 2, 9, "text");
    Ok(())
}

/// A thread that keeps messages until another one met the lock: its seat, and how many it kept.
#[derive(Drop)]
struct Talker {
    alloc: Global,
    seat: LaneSeat<Backtrace>,
    kept: u64,
}

impl Talker {
    fn new(alloc: Global, seat: LaneSeat<Backtrace>) -> Talker
        ensures { result.seat ≡ seat }
    {
        Talker {
            alloc,
            seat,
            kept: 0,
        }
    }

    /// Keeps messages until the other thread met the lock.
    fn keep_until_met(self, lane: &Lane<Backtrace>, is_met: &AtomicBool) -> Talker
        requires { IsSeatOf lane.now self.seat × (TEXT_LIMIT ≤ lane.now.first.limit) }
    {
        let mut own = self;
        let mut scratch = BacktraceScratch {
            message: None,
            list: None,
        };
        for time in 0..i64::MAX {
            if is_met.load(Ordering::SeqCst) {
                break;
            }
            let Some(message) = short_message(own.alloc, time, 1) else {
                break;
            };
            if keep_one(lane, &mut own.seat, &mut scratch, message) {
                own.kept = own.kept.saturating_add(1);
            }
        }
        own
    }
}

/// What a thread works with that dumps until it met the lock: its seat, room for what is dumped, and a queue of its own.
#[derive(Drop)]
struct Dumper {
    seat: LaneSeat<Backtrace>,
    list: Dumped,
    desk: Desk<Item>,
}

/// How many dumps a thread made, whether it met the lock while another thread had it, and the ticket that is to come next, if all had theirs.
#[derive(Clone, Copy, Drop)]
struct Met {
    dumps: u64,
    is_held: bool,
    next: Option<u64>,
}

/// The ticket behind those of these posts, if they have the ones from this on.
fn next_behind(outcomes: &[Outcome<()>], next: Option<u64>) -> Option<u64> {
    let mut next = next?;
    for outcome in outcomes {
        match outcome {
            Outcome::Posted { ticket, .. } if *ticket == next => next = next.saturating_add(1),
            _ => return None,
        }
    }
    Some(next)
}

/// Counts a dump.
fn with_dump(met: Met, outcomes: &[Outcome<()>]) -> Met {
    Met {
        dumps: met.dumps.saturating_add(1),
        is_held: met.is_held,
        next: next_behind(outcomes, met.next),
    }
}

/// Dumps until the lock was met, and then once more. What was refused posted nothing.
fn dump_until_held(
    rt: &impl Abort,
    loggers: &Loggers,
    alloc: Global,
    desk: &mut Desk<Item>,
    keeper: &mut LaneKeeper<'_>,
    is_met: &AtomicBool,
) -> Met
    requires known { 0 < length loggers.now }
    requires seated { IsSeated keeper.old × HasList keeper.old }
    requires limit { TEXT_LIMIT_MIN ≤ keeper.old.lane.now.first.limit }
{
    let mut met = Met {
        dumps: 0,
        is_held: false,
        next: Some(0),
    };
    for _ in 0..TRIES {
        match dump(rt, loggers, alloc, desk, keeper) {
            Ok(outcomes) => met = with_dump(met, outcomes.as_slice()),
            Err(DumpError::Held) => {
                met.is_held = true;
                is_met.store(true, Ordering::SeqCst);
                continue;
            }
            Err(DumpError::OutOfMemory) => break,
        }
        if met.is_held {
            break;
        }
    }
    is_met.store(true, Ordering::SeqCst);
    met
}

impl Dumper {
    /// Dumps until the lock was met.
    fn dump_all(
        self,
        rt: &impl Abort,
        loggers: &Loggers,
        alloc: Global,
        lane: &Lane<Backtrace>,
        is_met: &AtomicBool,
    ) -> Met
        requires known { 0 < length loggers.now }
        requires seat { IsSeatOf lane.now self.seat }
        requires list { self.list ≡ room_for lane.now.first.most lane.now.first.limit }
        requires limit { TEXT_LIMIT_MIN ≤ lane.now.first.limit }
    {
        let Dumper {
            mut seat,
            list,
            mut desk,
        } = self;
        let mut scratch = BacktraceScratch {
            message: None,
            list: Some(list),
        };
        let mut keeper = LaneKeeper {
            lane,
            seat: &mut seat,
            scratch: &mut scratch,
        };
        dump_until_held(rt, loggers, alloc, &mut desk, &mut keeper, is_met)
    }
}

/// One thread keeps messages, while this one dumps them, until it met the lock while the other had it.
fn dumped_beside<R: Abort + Threads>(
    rt: &R,
    loggers: &Loggers,
    alloc: Global,
    lane: &Lane<Backtrace>,
    one: Talker,
    two: Dumper,
) -> (Talker, Met)
    requires known { 0 < length loggers.now }
    requires seats { IsSeatOf lane.now one.seat × IsSeatOf lane.now two.seat }
    requires list { two.list ≡ room_for lane.now.first.most lane.now.first.limit }
    requires limit { (TEXT_LIMIT_MIN ≤ lane.now.first.limit) × (TEXT_LIMIT ≤ lane.now.first.limit) }
{
    let is_met = &AtomicBool::new(false);
    thread::join(
        rt,
        || -> Talker
            requires { IsSeatOf lane.now one.seat × (TEXT_LIMIT ≤ lane.now.first.limit) }
        { one.keep_until_met(lane, is_met) },
        || -> Met
            requires { (0 < length loggers.now) × IsSeatOf lane.now two.seat
                × (two.list ≡ room_for lane.now.first.most lane.now.first.limit) × (TEXT_LIMIT_MIN ≤ lane.now.first.limit) }
        { two.dump_all(rt, loggers, alloc, lane, is_met) },
    )
}

/// A dump at once that meets the lock while another thread has it says so, and nothing changed: it made no turn and no post, and a later one goes on.
#[test]
fn a_dump_that_is_held(rt: HostRuntime) -> Result<(), Fail> {
    let alloc = rt.alloc();
    let list = Dumped::new(alloc, ROOM, TEXT_LIMIT_MAX)?;
    let last = Dumped::new(alloc, ROOM, TEXT_LIMIT_MAX)?;
    let loggers = one(&rt, alloc, Policy::OverrunOldest, ROOM);
    is_met_once(&rt, &loggers, alloc, ROOM, list, last);
    Ok(())
}

/// Dumps with one list until the lock of a backtrace of so many is met while another thread has it, and then with the other list.
fn is_met_once<R: Abort + Threads>(
    rt: &R,
    loggers: &Loggers,
    alloc: Global,
    most: usize,
    list: Dumped,
    last: Dumped,
)
    requires known { 0 < length loggers.now }
    requires lists { (list ≡ room_for most TEXT_LIMIT_MAX) × (last ≡ room_for most TEXT_LIMIT_MAX) }
{
    let desk = desk_of(rt, alloc, 2);
    let (lane, mut seat) = lane_of(rt, alloc, most);
    let talker = Talker::new(alloc, lane.split(&mut seat, 1));
    let dumper = Dumper {
        seat: lane.split(&mut seat, 1),
        list,
        desk,
    };
    let (talker, met) = dumped_beside(rt, loggers, alloc, &lane, talker, dumper);
    is_so(rt, met.is_held && met.next.is_some());
    let turns = talker.kept.saturating_add(met.dumps);
    is_so(rt, dumps_after(&lane, &mut seat, last, turns));
}
