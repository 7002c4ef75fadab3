//! Posts on a swap ring: what they leave in the hand and for a spare.
ghost use Rattle.alog_ring.specs.Known.{IsPassOf};
ghost use Rattle.alog_policy.specs.BookCalls.{IsSeatOf};

use crate::port_tests::{has_lost, new_book};
use crate::swap_crossing_tests::Worker;
use crate::swap_ring_tests::{Deed, goes_on, leaves, list, swap_ring_of};
use alog_core::TICKET_END;
use alog_policy::{
    BookSeat, LossBook, Outcome, Pace, Policy, SwapPort, Why, post_hand, post_hand_now, post_now,
    post_wait,
};
use alog_ring::{SwapPass, SwapRing};
use std::alloc::Global;
use std::process::Abort;
use std::sync::Wait;
use std::sync::atomic::{AtomicU64, Ordering};
use std::time::{Clock, Duration};
use std::{io, thread};

/// A post: its policy, whether it may wait, its value, and the spare that a pop of it would bring; and how it ends: with a ticket after so
/// many overrun, and with this block in the hand and this spare, or without a ticket.
type Row = (Policy, bool, (u64, u64), Result<(u64, u64, u64, u64), Why>);

/// How a post ends, and the hand and the spare then: what is posted leaves a block in the hand, what is discarded none, and a spare is there
/// either way.
type Left = (Outcome<u64>, Option<u64>, Option<u64>);

/// What a post leaves that is made out of nothing but its parts.
fn post(
    rt: &(impl Wait + Clock),
    ring: &SwapRing<u64>,
    pass: &mut SwapPass<u64>,
    book: &LossBook,
    seat: &mut BookSeat,
    policy: Policy,
    is_waiting: bool,
    brought: (u64, u64),
) -> Left
    requires { IsPassOf ring.now.ring pass.old × IsSeatOf book.now seat.old }
    ensures { IsPassOf ring.now.ring pass.new × IsSeatOf book.now seat.new }
{
    let (value, spare) = brought;
    let (mut hand, mut spare) = (None, Some(spare));
    let mut pace = Pace::new(ring.places());
    let mut port = SwapPort {
        ring,
        pass,
        book,
        seat,
        hand: &mut hand,
        spare: &mut spare,
        pace: &mut pace,
    };
    let outcome = if is_waiting {
        post_wait(rt, &mut port, policy, value)
    } else {
        post_now(&mut port, policy, value)
    };
    (outcome, hand, spare)
}

/// What the post of a row is to leave.
fn wanted((_, _, (value, spare), end): Row) -> Left {
    match end {
        Ok((ticket, overran, hand, spare)) => (
            Outcome::Posted { ticket, overran },
            Some(hand),
            Some(spare),
        ),
        Err(why) => (
            Outcome::Discarded {
                value,
                why,
                overran: 0,
            },
            None,
            Some(spare),
        ),
    }
}

/// Posts end so, one after another.
fn go_on(
    rt: &(impl Abort + Wait + Clock),
    ring: &SwapRing<u64>,
    pass: &mut SwapPass<u64>,
    book: &LossBook,
    seat: &mut BookSeat,
    rows: &[Row],
)
    requires { IsPassOf ring.now.ring pass.old × IsSeatOf book.now seat.old }
    ensures { IsPassOf ring.now.ring pass.new × IsSeatOf book.now seat.new }
{
    for row in rows {
        let (policy, is_waiting, brought, _) = *row;
        let left = post(rt, ring, pass, book, seat, policy, is_waiting, brought);
        assert!(rt; left == wanted(*row));
    }
}

/// Posts on a swap ring of two places from this ticket on end so, lose so much, and leave these cells and spares.
fn posts(
    rt: &(impl Abort + Wait + Clock),
    alloc: Global,
    first: u64,
    rows: &[Row],
    lost: (u64, u64),
    (cells, spares): (&[(u64, u64)], &[u64]),
) {
    let blocks = list(rt, alloc, &[100, 101]);
    let (ring, mut pass) = swap_ring_of(rt, 2, first, blocks, alloc);
    let (book, mut seat) = new_book(rt, alloc);
    go_on(rt, &ring, &mut pass, &book, &mut seat, rows);
    has_lost(rt, &book, &mut seat, lost);
    leaves(rt, ring, pass, cells, spares);
}

const ROWS: [Row; 5] = [
    (Policy::Block, true, (7, 50), Ok((0, 0, 100, 50))),
    (Policy::DiscardNew, true, (8, 50), Ok((1, 0, 101, 50))),
    (Policy::DiscardNew, false, (9, 50), Err(Why::Full)),
    (Policy::OverrunOldest, true, (9, 50), Ok((2, 1, 50, 7))),
    (Policy::OverrunOldest, false, (10, 51), Ok((3, 1, 51, 8))),
];

#[test]
fn a_swap_port_posts(rt: HostRuntime) {
    let left: (&[(u64, u64)], &[u64]) = (&[(2, 9), (3, 10)], &[]);
    posts(&rt, rt.alloc(), 0, &ROWS, (2, 1), left);
}

/// How a post of what lies in the hand ends, and the hand and the spare then: what is discarded lies in the hand still.
type LeftByHand = (Outcome<()>, Option<u64>, Option<u64>);

/// What a post of its hand leaves by a port that is made out of nothing but its parts.
fn post_of_hand(
    rt: &(impl Wait + Clock),
    ring: &SwapRing<u64>,
    pass: &mut SwapPass<u64>,
    book: &LossBook,
    seat: &mut BookSeat,
    policy: Policy,
    is_waiting: bool,
    brought: (u64, u64),
) -> LeftByHand
    requires { IsPassOf ring.now.ring pass.old × IsSeatOf book.now seat.old }
    ensures { IsPassOf ring.now.ring pass.new × IsSeatOf book.now seat.new }
{
    let (mut hand, mut spare) = (Some(brought.0), Some(brought.1));
    let mut pace = Pace::new(ring.places());
    let mut port = SwapPort {
        ring,
        pass,
        book,
        seat,
        hand: &mut hand,
        spare: &mut spare,
        pace: &mut pace,
    };
    let outcome = if is_waiting {
        post_hand(rt, &mut port, policy)
    } else {
        post_hand_now(&mut port, policy)
    };
    (outcome, hand, spare)
}

/// What the post of a row is to leave whose value lies in the hand.
fn wanted_by_hand((_, _, (value, spare), end): Row) -> LeftByHand {
    match end {
        Ok((ticket, overran, hand, spare)) => (
            Outcome::Posted { ticket, overran },
            Some(hand),
            Some(spare),
        ),
        Err(why) => (
            Outcome::Discarded {
                value: (),
                why,
                overran: 0,
            },
            Some(value),
            Some(spare),
        ),
    }
}

/// Posts of what lies in the hand end so, one after another.
fn go_on_by_hand(
    rt: &(impl Abort + Wait + Clock),
    ring: &SwapRing<u64>,
    pass: &mut SwapPass<u64>,
    book: &LossBook,
    seat: &mut BookSeat,
    rows: &[Row],
)
    requires { IsPassOf ring.now.ring pass.old × IsSeatOf book.now seat.old }
    ensures { IsPassOf ring.now.ring pass.new × IsSeatOf book.now seat.new }
{
    for row in rows {
        let (policy, is_waiting, brought, _) = *row;
        let left = post_of_hand(rt, ring, pass, book, seat, policy, is_waiting, brought);
        assert!(rt; left == wanted_by_hand(*row));
    }
}

/// Posts of what lies in the hand, on a swap ring of two places from this ticket on, end so, lose so much, and leave these cells
/// and spares.
fn posts_by_hand(
    rt: &(impl Abort + Wait + Clock),
    alloc: Global,
    first: u64,
    rows: &[Row],
    lost: (u64, u64),
    (cells, spares): (&[(u64, u64)], &[u64]),
) {
    let blocks = list(rt, alloc, &[100, 101]);
    let (ring, mut pass) = swap_ring_of(rt, 2, first, blocks, alloc);
    let (book, mut seat) = new_book(rt, alloc);
    go_on_by_hand(rt, &ring, &mut pass, &book, &mut seat, rows);
    has_lost(rt, &book, &mut seat, lost);
    leaves(rt, ring, pass, cells, spares);
}

#[test]
fn a_port_posts_its_hand(rt: HostRuntime) {
    let left: (&[(u64, u64)], &[u64]) = (&[(2, 9), (3, 10)], &[]);
    posts_by_hand(&rt, rt.alloc(), 0, &ROWS, (2, 1), left);
}

const LAST: u64 = TICKET_END - 1;

/// The posts under this policy that find one ticket left.
fn at_last(policy: Policy) -> [Row; 3] {
    [
        (policy, false, (7, 50), Ok((LAST, 0, 101, 50))),
        (policy, false, (8, 50), Err(Why::Spent)),
        (policy, true, (9, 50), Err(Why::Spent)),
    ]
}

// Under each policy the last ticket is given, and then none is left.
#[test]
fn a_swap_port_without_a_ticket(rt: HostRuntime) {
    let left: (&[(u64, u64)], &[u64]) = (&[(LAST, 7)], &[100]);
    for policy in [Policy::Block, Policy::OverrunOldest, Policy::DiscardNew] {
        posts(&rt, rt.alloc(), LAST, &at_last(policy), (0, 2), left);
    }
}

// And then the hand keeps what it has.
#[test]
fn a_hand_without_a_ticket(rt: HostRuntime) {
    let left: (&[(u64, u64)], &[u64]) = (&[(LAST, 7)], &[100]);
    for policy in [Policy::Block, Policy::OverrunOldest, Policy::DiscardNew] {
        posts_by_hand(&rt, rt.alloc(), LAST, &at_last(policy), (0, 2), left);
    }
}

/// A runtime that counts the sleeps that it is asked for, and sleeps as this one does.
#[derive(Drop)]
struct Napping<'a, R> {
    rt: &'a R,
    naps: &'a AtomicU64,
}

impl<R: Wait> Wait for Napping<'_, R> {}

impl<R: Clock> Clock for Napping<'_, R> {
    fn monotonic(&self) -> io::Result<Duration> {
        self.rt.monotonic()
    }

    fn since_1970(&self) -> io::Result<Duration> {
        self.rt.since_1970()
    }

    fn sleep(&self, duration: Duration) {
        self.naps.fetch_add(1, Ordering::SeqCst);
        self.rt.sleep(duration);
    }
}

/// What a thread posts with on a swap ring.
#[derive(Drop)]
struct Poster<'a> {
    ring: &'a SwapRing<u64>,
    pass: SwapPass<u64>,
    book: &'a LossBook,
    seat: BookSeat,
    ghost fits: { IsPassOf ring.now.ring pass × IsSeatOf book.now seat },
}

/// A post of 9, which lies in the hand, waits for room, and gets ticket 2.
fn waits(rt: &(impl Abort + Wait + Clock), poster: Poster<'_>, naps: &AtomicU64) {
    let Poster {
        ring,
        mut pass,
        book,
        mut seat,
    } = poster;
    let napping = Napping { rt, naps };
    let row = (Policy::Block, true, (9, 50), Ok((2, 0, 60, 50)));
    let (policy, is_waiting, brought, _) = row;
    let left = post_of_hand(
        &napping, ring, &mut pass, book, &mut seat, policy, is_waiting, brought,
    );
    assert!(rt; left == wanted_by_hand(row));
}

/// Takes the first value out once the post has slept three times, for which it waits ten seconds at most.
fn makes_room(rt: &(impl Abort + Clock), worker: Worker<'_>, naps: &AtomicU64) {
    for _ in 0..10_000 {
        if naps.load(Ordering::SeqCst) > 2 {
            break;
        }
        thread::sleep(rt, Duration::from_millis(1));
    }
    let slept = naps.load(Ordering::SeqCst);
    let Worker { ring, mut pass } = worker;
    goes_on(rt, ring, &mut pass, &[Deed::Out(60, Ok((0, 7)))]);
    assert!(rt; slept > 2);
}

// A post that finds no room sleeps, and looks again.
#[test]
fn a_post_of_its_hand_sleeps(rt: HostRuntime) {
    let alloc = rt.alloc();
    let (ring, mut pass) = swap_ring_of(&rt, 2, 0, list(&rt, alloc, &[100, 101]), alloc);
    let (book, seat) = new_book(&rt, alloc);
    let naps = AtomicU64::new(0);
    let (ring, book, naps) = (&ring, &book, &naps);
    let worker = Worker {
        ring,
        pass: ring.split(&mut pass, 1),
    };
    let full = [Deed::In(7, Ok((0, 100))), Deed::In(8, Ok((1, 101)))];
    goes_on(&rt, ring, &mut pass, &full);
    let poster = Poster {
        ring,
        pass,
        book,
        seat,
    };
    thread::join(
        &rt,
        || waits(&rt, poster, naps),
        || makes_room(&rt, worker, naps),
    );
}
