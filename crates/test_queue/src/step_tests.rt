//! What other threads meet while a push, a pop or a pass of a running ring is held, and which steps a gate is told.
ghost use Rattle.std.specs.Prelude.{◌≡◌};
ghost use Rattle.alog_ring.specs.Known.{IsPassOf};

use crate::crossing_tests::Worker;
use crate::port_tests::are_discarded;
use crate::ring_tests::{Deed, goes_on, has_parts, is_told, leaves, ring_of, stays};
use alog_policy::{Policy, Why};
use alog_ring::{ALL_PARTS, Pass, PopError, Ring, StepGate};
use std::alloc::Global;
use std::process::Abort;
use std::sync::Wait;
use std::sync::atomic::{AtomicBool, AtomicU64, Ordering};
use std::thread::{self, Threads};
use std::time::Clock;

/// How often a flag is looked at.
pub(crate) const LOOKS: u32 = 1_000_000;

/// Holds the first thread that comes to one step until it is let go on, and notes each step: the digits of a number.
#[derive(Drop)]
struct Hold {
    step: u32,
    steps: AtomicU64,
    reached: AtomicBool,
    open: AtomicBool,
    in_vain: AtomicBool,
}

impl Hold {
    /// Holds before this step. No step is 0.
    fn before(step: u32) -> Hold {
        Hold {
            step,
            steps: AtomicU64::new(0),
            reached: AtomicBool::new(false),
            open: AtomicBool::new(false),
            in_vain: AtomicBool::new(false),
        }
    }

    /// Waits to be let go on.
    fn stay(&self) {
        self.reached.store(true, Ordering::SeqCst);
        if !is_raised(&self.open) {
            self.in_vain.store(true, Ordering::SeqCst);
        }
    }

    /// Lets the held thread go on.
    fn open(&self) {
        self.open.store(true, Ordering::SeqCst);
    }

    /// The held thread was let go on, and these were its steps.
    fn went_on(&self, rt: &impl Abort, steps: u64) {
        assert!(rt; self.reached.load(Ordering::SeqCst) && !self.in_vain.load(Ordering::SeqCst));
        assert!(rt; self.steps.load(Ordering::SeqCst) == steps);
    }
}

impl StepGate for Hold {
    fn before(&self, step: u32) {
        let steps = self.steps.load(Ordering::SeqCst).wrapping_mul(10);
        self.steps
            .store(steps.wrapping_add(u64::from(step)), Ordering::SeqCst);
        if step == self.step && !self.open.load(Ordering::SeqCst) {
            self.stay();
        }
    }
}

// Whether the flag was up, at one of so many looks, behind each of which other threads go on.
pub(crate) fn is_raised(flag: &AtomicBool) -> bool {
    for _ in 0..LOOKS {
        if flag.load(Ordering::SeqCst) {
            return true;
        }
        thread::yield_now();
    }
    false
}

/// A push or a pop with waiting behind this gate answers so.
fn goes_gated(
    rt: &(impl Abort + Wait),
    ring: &Ring<u64>,
    pass: &mut Pass<u64>,
    hold: &Hold,
    deed: Deed,
)
    requires { IsPassOf ring.now pass.old }
    ensures { IsPassOf ring.now pass.new }
{
    let is = match deed {
        Deed::Push(value, wanted) => {
            is_told(&ring.push_gated(rt, pass, value, hold), value, wanted)
        }
        Deed::Pop(wanted) => ring.pop_gated(rt, pass, hold) == wanted,
    };
    assert!(rt; is, "behind a gate");
}

/// Pushes and pops with waiting, one after another, and the steps of each.
type Told = (Deed, u64);

fn tell_each(rt: &(impl Abort + Wait), ring: &Ring<u64>, pass: &mut Pass<u64>, calls: &[Told])
    requires { IsPassOf ring.now pass.old }
    ensures { IsPassOf ring.now pass.new }
{
    for (deed, steps) in calls {
        let gate = Hold::before(0);
        goes_gated(rt, ring, pass, &gate, *deed);
        assert!(rt; gate.steps.load(Ordering::SeqCst) == *steps);
    }
}

/// The ticket before the last one of all.
const LAST_BUT_ONE: u64 = (1 << 62) - 2;

/// On a ring of two places that has two tickets left.
const TO_THE_END: [Told; 5] = [
    (Deed::Pop(Err(PopError::Idle { next: LAST_BUT_ONE })), 125),
    (Deed::Push(7, Ok(LAST_BUT_ONE)), 1234),
    (Deed::Push(7, Ok(LAST_BUT_ONE + 1)), 1234),
    (Deed::Push(7, Err(None)), 1),
    (Deed::Pop(Ok((LAST_BUT_ONE, 7))), 1234),
];

/// On a new ring of two places.
const TO_A_FULL: [Told; 3] = [
    (Deed::Push(7, Ok(0)), 1234),
    (Deed::Push(7, Ok(1)), 1234),
    (Deed::Push(7, Err(Some(2))), 12),
];

#[test]
fn each_step_is_told(rt: HostRuntime) {
    for (first, calls) in [(LAST_BUT_ONE, &TO_THE_END[..]), (0, &TO_A_FULL[..])] {
        let (ring, mut pass) = ring_of(&rt, rt.alloc(), 2, first);
        tell_each(&rt, &ring, &mut pass, calls);
    }
}

/// A ring that begins at ticket 0, and a push or a pop on it that is held.
#[derive(Clone, Copy)]
struct Held<'a> {
    places: usize,
    /// What is done before.
    before: &'a [Deed],
    /// The push or the pop, the step before which it is held, and all its steps.
    call: Deed,
    step: u32,
    steps: u64,
    /// What another thread meets meanwhile, which of its posts are discarded there, counted by one book, and what it meets then.
    beside: &'a [Deed],
    discarded: &'a [(Policy, Why)],
    after: &'a [Deed],
}

/// The call that is held.
fn is_held(rt: &(impl Abort + Wait), worker: Worker<'_, u64>, hold: &Hold, deed: Deed) {
    let Worker { ring, mut pass } = worker;
    goes_gated(rt, ring, &mut pass, hold, deed);
}

/// What another thread does while it is.
fn goes_beside<'a>(
    rt: &(impl Abort + Wait + Clock),
    alloc: Global,
    worker: Worker<'a, u64>,
    hold: &Hold,
    row: Held<'_>,
) -> Worker<'a, u64> {
    assert!(rt; is_raised(&hold.reached));
    let Worker { ring, mut pass } = worker;
    goes_on(rt, ring, &mut pass, row.beside);
    are_discarded(rt, alloc, ring, &mut pass, row.discarded);
    hold.open();
    Worker { ring, pass }
}

/// A row is so.
fn holds<R: Abort + Threads + Wait + Clock + Sync>(rt: &R, alloc: Global, row: Held<'_>) {
    let (ring, mut pass) = ring_of(rt, alloc, row.places, 0);
    let ring = &ring;
    let other = Worker {
        ring,
        pass: ring.split(&mut pass, 1),
    };
    goes_on(rt, ring, &mut pass, row.before);
    let worker = Worker { ring, pass };
    let hold = Hold::before(row.step);
    let ((), other) = thread::join(
        rt,
        || is_held(rt, worker, &hold, row.call),
        || goes_beside(rt, alloc, other, &hold, row),
    );
    hold.went_on(rt, row.steps);
    let Worker { ring, mut pass } = other;
    goes_on(rt, ring, &mut pass, row.after);
}

/// The next ticket is to be had, and no value.
const HELD_PUSH: Held<'_> = Held {
    places: 4,
    before: &[Deed::Pop(Err(PopError::Idle { next: 0 }))],
    call: Deed::Push(7, Ok(0)),
    step: 4,
    steps: 1234,
    beside: &[
        Deed::Push(8, Ok(1)),
        Deed::Pop(Err(PopError::Empty { next: 0 })),
    ],
    discarded: &[],
    after: &[
        Deed::Pop(Ok((0, 7))),
        Deed::Pop(Ok((1, 8))),
        Deed::Pop(Err(PopError::Idle { next: 2 })),
    ],
};

#[test]
fn a_held_push(rt: HostRuntime) {
    holds(&rt, rt.alloc(), HELD_PUSH);
}

/// The value behind it is to be had, and no room.
const HELD_POP: Held<'_> = Held {
    places: 2,
    before: &[Deed::Push(7, Ok(0)), Deed::Push(8, Ok(1))],
    call: Deed::Pop(Ok((0, 7))),
    step: 4,
    steps: 1234,
    beside: &[Deed::Pop(Ok((1, 8))), Deed::Push(9, Err(Some(2)))],
    discarded: &[],
    after: &[Deed::Push(9, Ok(2))],
};

#[test]
fn a_held_pop(rt: HostRuntime) {
    holds(&rt, rt.alloc(), HELD_POP);
}

/// What posts meet where the ring is full behind a held push; and a push and a pop that another thread beats, and that begin again.
const OTHERS: [Held<'_>; 3] = [
    Held {
        places: 2,
        before: &[],
        call: Deed::Push(7, Ok(0)),
        step: 4,
        steps: 1234,
        beside: &[Deed::Push(8, Ok(1))],
        discarded: &[
            (Policy::OverrunOldest, Why::Stalled),
            (Policy::DiscardNew, Why::Full),
        ],
        after: &[Deed::Pop(Ok((0, 7)))],
    },
    Held {
        places: 4,
        before: &[],
        call: Deed::Push(7, Ok(1)),
        step: 3,
        steps: 1_231_234,
        beside: &[Deed::Push(8, Ok(0))],
        discarded: &[],
        after: &[Deed::Pop(Ok((0, 8))), Deed::Pop(Ok((1, 7)))],
    },
    Held {
        places: 4,
        before: &[Deed::Push(7, Ok(0))],
        call: Deed::Pop(Err(PopError::Idle { next: 1 })),
        step: 3,
        steps: 123_125,
        beside: &[Deed::Pop(Ok((0, 7)))],
        discarded: &[],
        after: &[],
    },
];

#[test]
fn posts_beside_a_held_push_and_beaten_calls(rt: HostRuntime) {
    for row in OTHERS {
        holds(&rt, rt.alloc(), row);
    }
}

/// A thread has a pass until it is let go on.
fn keeps(pass: Pass<u64>, hold: &Hold) -> Pass<u64>
    ensures { result ≡ pass }
{
    hold.stay();
    pass
}

/// While another thread has a pass, the ring is not whole, and not closed.
fn is_kept_open(
    rt: &impl Abort,
    ring: Ring<u64>,
    mut pass: Pass<u64>,
    hold: &Hold,
) -> (Ring<u64>, Pass<u64>)
    requires { IsPassOf ring pass }
    ensures same { result.0 ≡ ring }
    ensures pass { IsPassOf result.0 result.1 }
{
    assert!(rt; is_raised(&hold.reached));
    has_parts(rt, &ring, &mut pass, ALL_PARTS - 1);
    let (ring, pass) = stays(rt, ring, pass);
    hold.open();
    (ring, pass)
}

/// What the ring is given before it: two values, of which one is taken.
const TWO_AND_ONE_TAKEN: [Deed; 4] = [
    Deed::Push(7, Ok(5)),
    Deed::Push(8, Ok(6)),
    Deed::Push(9, Err(Some(7))),
    Deed::Pop(Ok((5, 7))),
];

#[test]
fn a_pass_of_another_thread_keeps_a_ring_open(rt: HostRuntime) {
    let (ring, mut pass) = ring_of(&rt, rt.alloc(), 2, 5);
    let other = ring.split(&mut pass, 1);
    goes_on(&rt, &ring, &mut pass, &TWO_AND_ONE_TAKEN);
    let hold = Hold::before(0);
    let (other, (ring, mut pass)) = thread::join(
        &rt,
        || -> Pass<u64>
            ensures { result ≡ other }
        { keeps(other, &hold) },
        || -> (Ring<u64>, Pass<u64>)
            requires { IsPassOf ring pass }
            ensures same { result.0 ≡ ring }
            ensures pass { IsPassOf result.0 result.1 }
        { is_kept_open(&rt, ring, pass, &hold) },
    );
    hold.went_on(&rt, 0);
    ring.join(&mut pass, other);
    leaves(&rt, ring, pass, &[(6, 8)]);
}
