//! Values behind a lock: turns, alone and of several threads, what is printed, and what is dropped.
ghost use Rattle.alog_lane.specs.Calls.{IsSeatOf};
ghost use Rattle.alog_lane.specs.Seats.{first_known};
ghost use Rattle.std.specs.Prelude.{◌≡◌, ◌+◌, ◌%◌, ◌^◌, IfOk, Some};

use crate::step_tests::{LOOKS, is_raised};
use alog_lane::{ALL_PARTS, Held, Lane, LaneSeat, SeatsOut, Turn};
use std::alloc::{AllocError, Global};
use std::process::Abort;
use std::sync::atomic::{AtomicBool, AtomicU64, Ordering};
use std::sync::{Arc, Wait};
use std::thread::{self, Threads};

// A number to which each turn adds its item. It replies with the sum.
#[derive(PartialEq, Drop)]
struct Sum(u64);

impl Turn for Sum {
    type Item = u64;

    type Reply = u64;

    type Scratch = ();

    ghost turns = { λ v before i r w after. (w.0 ≡ (v.0 + i) % 2 ^ 64) × (r ≡ w.0) };

    ghost may_turn = { λ v i s. Unit {0} };

    fn turn(&mut self, item: &u64, _scratch: &mut ()) -> u64 {
        self.0 = self.0.wrapping_add(*item);
        self.0
    }
}

// A lane over this value, and its first seat.
fn lane_of<T: Turn + Drop>(rt: &impl Abort, alloc: Global, value: T) -> (Lane<T>, LaneSeat<T>)
    ensures seat { IsSeatOf result.0 result.1 }
    ensures known { result.1.known ≡ first_known }
{
    match Lane::new(alloc, value) {
        Ok(made) => made,
        Err(_) => panic!(rt; "out of memory"),
    }
}

// Turns add so much, and have these indexes and sums.
fn add(rt: &impl Abort, lane: &Lane<Sum>, seat: &mut LaneSeat<Sum>, turns: &[(u64, (u64, u64))])
    requires { IsSeatOf lane.now seat.old }
    ensures { IsSeatOf lane.now seat.new }
{
    for (item, wanted) in turns {
        assert!(rt; lane.turn_once(seat, 0, item, &mut ()) == Ok(*wanted));
    }
}

// A seat has so many parts.
pub(crate) fn is_so_many(rt: &impl Abort, parts: u64, wanted: u64) {
    assert!(rt; parts == wanted);
}

// A seat is out, and so the lane is not closed.
fn stays(rt: &impl Abort, lane: Lane<Sum>, seat: LaneSeat<Sum>) -> (Lane<Sum>, LaneSeat<Sum>)
    requires { IsSeatOf lane seat }
    ensures same { result.0 ≡ lane }
    ensures seat { IsSeatOf result.0 result.1 }
{
    match lane.close(seat) {
        Ok(_) => panic!(rt; "a seat is out"),
        Err(SeatsOut { lane, seat }) => (lane, seat),
    }
}

// The lane is closed, and gives this sum back.
fn closes(rt: &impl Abort, lane: Lane<Sum>, seat: LaneSeat<Sum>, wanted: u64)
    requires { IsSeatOf lane seat }
{
    match lane.close(seat) {
        Ok(Sum(sum)) => assert!(rt; sum == wanted),
        Err(_) => panic!(rt; "no seat is out"),
    }
}

const TURNS: [(u64, (u64, u64)); 3] = [(5, (0, 5)), (7, (1, 12)), (3, (2, 15))];

#[test]
fn a_lane_over_a_sum(rt: HostRuntime) {
    let (lane, mut seat) = lane_of(&rt, rt.alloc(), Sum(0));
    is_so_many(&rt, seat.parts(), 4_294_967_296);
    let other = lane.split(&mut seat, 1);
    is_so_many(&rt, seat.parts(), ALL_PARTS - 1);
    is_so_many(&rt, other.parts(), 1);
    add(&rt, &lane, &mut seat, &TURNS);
    let (lane, mut seat) = stays(&rt, lane, seat);
    lane.join(&mut seat, other);
    is_so_many(&rt, seat.parts(), ALL_PARTS);
    closes(&rt, lane, seat, 15);
}

// This is said.
pub(crate) fn says(rt: &impl Abort, shown: Result<String, AllocError>, wanted: &str) {
    match shown {
        Ok(shown) => assert!(rt; shown.as_str() == wanted),
        Err(_) => panic!(rt; "out of memory"),
    }
}

// A lane that is not closed says why.
fn is_told(rt: &impl Abort, alloc: Global, lane: Lane<Sum>, seat: LaneSeat<Sum>)
    requires { IsSeatOf lane seat }
{
    match lane.close(seat) {
        Ok(_) => panic!(rt; "a seat is out"),
        Err(out) => says(rt, format!(in alloc; "{out}"), "not all seats are here"),
    }
}

#[test]
fn tells_the_errors(rt: HostRuntime) {
    let (lane, mut seat) = lane_of(&rt, rt.alloc(), Sum(0));
    let shown = format!(in rt.alloc(); "{lane:?}: {Held}");
    says(&rt, shown, "Lane { .. }: another seat has the lock");
    let other = lane.split(&mut seat, 1);
    is_told(&rt, rt.alloc(), lane, seat);
    drop(other);
}

// A lane that took no turn gives back the value that it was made with: its contracts say so.
fn closed_at_once(alloc: Global, value: Sum) -> Result<Option<Sum>, AllocError>
    ensures { IfOk result (λ v. v ≡ Some value) }
{
    let Ok((lane, seat)) = Lane::new(alloc, value) else {
        return Err(AllocError);
    };
    Ok(lane.close(seat).ok())
}

#[test]
fn gives_back_what_it_was_given(rt: HostRuntime) {
    match closed_at_once(rt.alloc(), Sum(9)) {
        Ok(given) => assert!(rt; given == Some(Sum(9))),
        Err(AllocError) => panic!(rt; "out of memory"),
    }
}

// A value that notes how often it was dropped. A turn puts its item behind the digits in the scratch.
struct Noted<'a>(&'a AtomicU64);

impl<'a> Drop for Noted<'a> {
    fn drop(self) {
        let Self(drops) = self;
        drops.fetch_add(1, Ordering::SeqCst);
    }
}

impl<'a> Turn for Noted<'a> {
    type Item = u64;

    type Reply = u64;

    type Scratch = u64;

    ghost turns = { λ v before i r w after. Unit {0} };

    ghost may_turn = { λ v i s. Unit {0} };

    fn turn(&mut self, item: &u64, scratch: &mut u64) -> u64 {
        *scratch = scratch.wrapping_mul(10).wrapping_add(*item);
        *item
    }
}

// Two turns put their items into the scratch and answer them, the second with waiting.
fn take_two_turns<'a>(
    rt: &(impl Abort + Wait),
    lane: &Lane<Noted<'a>>,
    seat: &mut LaneSeat<Noted<'a>>,
)
    requires { IsSeatOf lane.now seat.old }
    ensures { IsSeatOf lane.now seat.new }
{
    let mut scratch = 0;
    let once = lane.turn_once(seat, 3, &8, &mut scratch);
    let waited = lane.turn(rt, seat, 4, &9, &mut scratch);
    assert!(rt; once == Ok((0, 8)) && waited == (1, 9) && scratch == 89);
}

// A lane drops its value once, or gives it back at its end.
fn drops_once(rt: &(impl Abort + Wait), alloc: Global, is_closed: bool) {
    let drops = AtomicU64::new(0);
    let (lane, mut seat) = lane_of(rt, alloc, Noted(&drops));
    take_two_turns(rt, &lane, &mut seat);
    let before = drops.load(Ordering::SeqCst);
    if is_closed {
        drop(lane.close(seat));
    } else {
        drop(lane);
        drop(seat);
    }
    assert!(rt; (before, drops.load(Ordering::SeqCst)) == (0, 1));
}

#[test]
fn drops_its_value_once(rt: HostRuntime) {
    for is_closed in [false, true] {
        drops_once(&rt, rt.alloc(), is_closed);
    }
}

// A lane, and a seat of it.
#[derive(Drop)]
struct Seated<'a, T: Turn> {
    lane: &'a Lane<T>,
    seat: LaneSeat<T>,
    ghost fits: { IsSeatOf lane.now seat },
}

// Adds 1, as soon as the lock is free at one of so many looks, and answers the index of the turn.
fn add_one(lane: &Lane<Sum>, seat: &mut LaneSeat<Sum>) -> Option<u64>
    requires { IsSeatOf lane.now seat.old }
    ensures { IsSeatOf lane.now seat.new }
{
    for _ in 0..LOOKS {
        match lane.turn_once(seat, 0, &1, &mut ()) {
            Ok((index, _sum)) => return Some(index),
            Err(Held) => thread::yield_now(),
        }
    }
    None
}

// Adds 1 so many times: whether the indexes of the turns rose, and their sum.
fn add_ones(seated: Seated<'_, Sum>, count: u64) -> (bool, u64) {
    let Seated { lane, mut seat } = seated;
    let mut rose = true;
    let mut last = None;
    let mut sum = 0u64;
    for _ in 0..count {
        let index = add_one(lane, &mut seat);
        rose = rose && index > last;
        last = index;
        sum = sum.wrapping_add(index.unwrap_or(0));
    }
    (rose, sum)
}

// The indexes of each thread rose, and those of all are the numbers below 40,000, by their sum.
fn all_rose(rt: &impl Abort, threads: &[(bool, u64)]) {
    let mut sum = 0u64;
    for (rose, part) in threads {
        assert!(rt; *rose);
        sum = sum.wrapping_add(*part);
    }
    assert!(rt; sum == 20_000 * 39_999);
}

// What threads answer that add 1 so many times each.
fn turns_of(
    rt: &(impl Abort + Threads + Sync),
    alloc: Global,
    lane: &Lane<Sum>,
    seat: &mut LaneSeat<Sum>,
    counts: [u64; 4],
) -> Result<Vec<(bool, u64)>, AllocError>
    requires seat { IsSeatOf lane.now seat.old }
    requires known { seat.old.known ≡ first_known }
    ensures { IsSeatOf lane.now seat.new }
{
    let [one, two, three, four] = counts;
    let first = lane.split(seat, 1);
    let second = lane.split(seat, 1);
    let third = lane.split(seat, 1);
    let fourth = lane.split(seat, 1);
    let jobs = vec![in alloc;
        (Seated { lane, seat: first }, one),
        (Seated { lane, seat: second }, two),
        (Seated { lane, seat: third }, three),
        (Seated { lane, seat: fourth }, four),
    ]?;
    thread::map_vec(
        rt,
        jobs,
        &|(seated, count): (Seated<'_, Sum>, u64)| add_ones(seated, count),
    )
}

// Threads take so many turns each, 40,000 in all.
fn take_turns(rt: &(impl Abort + Threads + Sync), alloc: Global, counts: [u64; 4]) {
    let (lane, mut seat) = lane_of(rt, alloc, Sum(0));
    match turns_of(rt, alloc, &lane, &mut seat, counts) {
        Ok(told) => all_rose(rt, &told),
        Err(_) => panic!(rt; "out of memory"),
    }
    add(rt, &lane, &mut seat, &[(0, (40_000, 40_000))]);
}

#[test]
fn two_threads_take_turns(rt: HostRuntime) {
    take_turns(&rt, rt.alloc(), [20_000, 20_000, 0, 0]);
}

#[test]
fn four_threads_take_turns(rt: HostRuntime) {
    take_turns(&rt, rt.alloc(), [10_000; 4]);
}

// Whether a turn has begun, and whether another thread has met it.
#[derive(Drop)]
struct Flags {
    begun: AtomicBool,
    met: AtomicBool,
}

// A value whose turn lasts until another thread has met it, or for so many looks at most.
#[derive(Drop)]
struct Slow(Arc<Flags>);

impl Turn for Slow {
    type Item = ();

    type Reply = bool;

    type Scratch = ();

    ghost turns = { λ v before i r w after. Unit {0} };

    ghost may_turn = { λ v i s. Unit {0} };

    fn turn(&mut self, _item: &(), _scratch: &mut ()) -> bool {
        self.0.begun.store(true, Ordering::SeqCst);
        is_raised(&self.0.met)
    }
}

// Tries while a turn is under way, and then waits for one: whether it saw the turn begin, and both answers are as they are to be.
fn visit(rt: &impl Wait, seated: Seated<'_, Slow>, flags: &Flags) -> bool {
    let Seated { lane, mut seat } = seated;
    let has_begun = is_raised(&flags.begun);
    let was_held = lane.turn_once(&mut seat, 0, &(), &mut ());
    flags.met.store(true, Ordering::SeqCst);
    let waited = lane.turn(rt, &mut seat, 0, &(), &mut ());
    has_begun && was_held == Err(Held) && waited == (1, true)
}

// Takes one turn, if the lock is free: whether that is the first, and was met.
fn enter(seated: Seated<'_, Slow>) -> bool {
    let Seated { lane, mut seat } = seated;
    lane.turn_once(&mut seat, 0, &(), &mut ()) == Ok((0, true))
}

// Flags that are down, shared.
fn lowered(rt: &impl Abort, alloc: Global) -> (Arc<Flags>, Arc<Flags>) {
    let flags = Flags {
        begun: AtomicBool::new(false),
        met: AtomicBool::new(false),
    };
    let Ok(flags) = Arc::new(alloc, flags) else {
        panic!(rt; "out of memory")
    };
    match Arc::try_clone(&flags) {
        Ok(same) => (flags, same),
        Err(_) => panic!(rt; "out of memory"),
    }
}

#[test]
fn a_held_lock_is_told(rt: HostRuntime) {
    let (flags, same) = lowered(&rt, rt.alloc());
    let (lane, mut seat) = lane_of(&rt, rt.alloc(), Slow(same));
    let (lane, flags) = (&lane, &*flags);
    let second = Seated {
        lane,
        seat: lane.split(&mut seat, 1),
    };
    let first = Seated { lane, seat };
    let (was_met, is_told) = thread::join(&rt, || enter(first), || visit(&rt, second, flags));
    assert!(rt; was_met && is_told);
}
