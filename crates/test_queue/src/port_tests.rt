//! Posts on a running ring, with a loss book.
ghost use Rattle.std.specs.Prelude.{◌≡◌};
ghost use Rattle.alog_lane.specs.Seats.{first_known as first_seat_known};
ghost use Rattle.alog_ring.specs.Known.{IsPassOf, first_known};
ghost use Rattle.alog_policy.specs.BookCalls.{IsSeatOf};

use crate::crossing_tests::Worker;
use crate::ring_tests::{Deed, goes_on, leaves, ring_of};
use alog_core::TICKET_END;
use alog_policy::{
    BookSeat, Counts, LossBook, Outcome, Policy, Port, Why, post_from, post_now, post_wait,
};
use alog_ring::{Pass, Ring};
use std::alloc::Global;
use std::process::Abort;
use std::sync::Wait;
use std::thread::{self, Threads};
use std::time::Clock;

/// How a value is posted.
#[derive(Clone, Copy)]
enum Way {
    Now,
    /// With waiting, where the policy has it.
    Waiting,
    /// The same out of a hand.
    FromHand,
}

/// How a post ends: with a ticket after so many overrun, or without one.
type End = Result<(u64, u64), Why>;

/// A post, and how it ends.
type Row = (Way, Policy, u64, End);

/// A loss book, and its first seat.
pub(crate) fn new_book(rt: &impl Abort, alloc: Global) -> (LossBook, BookSeat)
    ensures seat { IsSeatOf result.0 result.1 }
    ensures first { result.1.known ≡ first_seat_known }
{
    match LossBook::new(alloc) {
        Ok(made) => made,
        Err(_) => panic!(rt; "out of memory"),
    }
}

/// What a hand with this value tells of a post: it is empty where the value was posted, and keeps what is discarded.
fn told_of_hand(outcome: Outcome<()>, hand: Option<u64>) -> Option<Outcome<u64>> {
    match (outcome, hand) {
        (Outcome::Posted { ticket, overran }, None) => Some(Outcome::Posted { ticket, overran }),
        (
            Outcome::Discarded {
                value: (),
                why,
                overran,
            },
            Some(value),
        ) => Some(Outcome::Discarded {
            value,
            why,
            overran,
        }),
        _ => None,
    }
}

/// A post on a ring, whose losses a book counts: how it ends.
fn post(
    rt: &(impl Wait + Clock),
    ring: &Ring<u64>,
    pass: &mut Pass<u64>,
    book: &LossBook,
    seat: &mut BookSeat,
    way: Way,
    policy: Policy,
    value: u64,
) -> Option<Outcome<u64>>
    requires { IsPassOf ring.now pass.old × IsSeatOf book.now seat.old }
    ensures { IsPassOf ring.now pass.new × IsSeatOf book.now seat.new }
{
    let mut port = Port {
        ring,
        pass,
        book,
        seat,
    };
    match way {
        Way::Now => Some(post_now(&mut port, policy, value)),
        Way::Waiting => Some(post_wait(rt, &mut port, policy, value)),
        Way::FromHand => {
            let mut hand = Some(value);
            let outcome = post_from(rt, &mut port, policy, &mut hand);
            told_of_hand(outcome, hand)
        }
    }
}

/// The outcome of a post of this value that ends so.
fn outcome_of(value: u64, end: End) -> Outcome<u64> {
    match end {
        Ok((ticket, overran)) => Outcome::Posted { ticket, overran },
        Err(why) => Outcome::Discarded {
            value,
            why,
            overran: 0,
        },
    }
}

/// Posts end so, one after another.
fn go_on(
    rt: &(impl Abort + Wait + Clock),
    ring: &Ring<u64>,
    pass: &mut Pass<u64>,
    book: &LossBook,
    seat: &mut BookSeat,
    rows: &[Row],
)
    requires { IsPassOf ring.now pass.old × IsSeatOf book.now seat.old }
    ensures { IsPassOf ring.now pass.new × IsSeatOf book.now seat.new }
{
    for (way, policy, value, end) in rows {
        let told = post(rt, ring, pass, book, seat, *way, *policy, *value);
        assert!(rt; told == Some(outcome_of(*value, *end)));
    }
}

/// So much was lost.
pub(crate) fn has_lost(rt: &impl Abort, book: &LossBook, seat: &mut BookSeat, lost: (u64, u64))
    requires { IsSeatOf book.now seat.old }
    ensures { IsSeatOf book.now seat.new }
{
    let (overrun, discarded) = lost;
    assert!(rt; book.counts(seat) == Counts { overrun, discarded });
}

/// Posts that never wait are discarded, each under its policy for its reason, and one book counts each.
pub(crate) fn are_discarded(
    rt: &(impl Abort + Wait + Clock),
    alloc: Global,
    ring: &Ring<u64>,
    pass: &mut Pass<u64>,
    posts: &[(Policy, Why)],
)
    requires { IsPassOf ring.now pass.old }
    ensures { IsPassOf ring.now pass.new }
{
    let (book, mut seat) = new_book(rt, alloc);
    let mut discarded = 0_u64;
    for (policy, why) in posts {
        let row = (Way::Now, *policy, 9, Err(*why));
        go_on(rt, ring, pass, &book, &mut seat, &[row]);
        discarded = discarded.wrapping_add(1);
        has_lost(rt, &book, &mut seat, (0, discarded));
    }
}

/// The book is closed with so much lost.
pub(crate) fn closes(rt: &impl Abort, book: LossBook, seat: BookSeat, lost: (u64, u64))
    requires { IsSeatOf book seat }
{
    let (overrun, discarded) = lost;
    assert!(rt; book.close(seat).ok() == Some(Counts { overrun, discarded }));
}

/// Posts on a ring of two places from this ticket on end so, lose so much, and leave this in the ring.
fn posts(
    rt: &(impl Abort + Wait + Clock),
    alloc: Global,
    first: u64,
    rows: &[Row],
    lost: (u64, u64),
    left: &[(u64, u64)],
) {
    let (ring, mut pass) = ring_of(rt, alloc, 2, first);
    let (book, mut seat) = new_book(rt, alloc);
    go_on(rt, &ring, &mut pass, &book, &mut seat, rows);
    closes(rt, book, seat, lost);
    leaves(rt, ring, pass, left);
}

const POSTS: [Row; 5] = [
    (Way::Waiting, Policy::Block, 7, Ok((0, 0))),
    (Way::Waiting, Policy::DiscardNew, 8, Ok((1, 0))),
    (Way::Now, Policy::DiscardNew, 9, Err(Why::Full)),
    (Way::Waiting, Policy::OverrunOldest, 9, Ok((2, 1))),
    (Way::Now, Policy::OverrunOldest, 10, Ok((3, 1))),
];

#[test]
fn a_lone_port_posts(rt: HostRuntime) {
    posts(&rt, rt.alloc(), 0, &POSTS, (2, 1), &[(2, 9), (3, 10)]);
}

const HANDED: [Row; 4] = [
    (Way::FromHand, Policy::Block, 7, Ok((0, 0))),
    (Way::FromHand, Policy::DiscardNew, 8, Ok((1, 0))),
    (Way::FromHand, Policy::DiscardNew, 9, Err(Why::Full)),
    (Way::FromHand, Policy::OverrunOldest, 9, Ok((2, 1))),
];

#[test]
fn a_hand_keeps_what_is_discarded(rt: HostRuntime) {
    posts(&rt, rt.alloc(), 0, &HANDED, (1, 1), &[(1, 8), (2, 9)]);
}

const LAST: u64 = TICKET_END - 1;

// Under each policy the last ticket is given, and then none is left.
#[test]
fn a_port_without_a_ticket(rt: HostRuntime) {
    for policy in [Policy::Block, Policy::OverrunOldest, Policy::DiscardNew] {
        let rows = [
            (Way::Now, policy, 7, Ok((LAST, 0))),
            (Way::Now, policy, 8, Err(Why::Spent)),
            (Way::Waiting, policy, 9, Err(Why::Spent)),
        ];
        posts(&rt, rt.alloc(), LAST, &rows, (0, 2), &[(LAST, 7)]);
    }
}

/// What a thread posts with on a ring.
#[derive(Drop)]
struct Poster<'a> {
    ring: &'a Ring<u64>,
    pass: Pass<u64>,
    book: &'a LossBook,
    seat: BookSeat,
    ghost fits: { IsPassOf ring.now pass × IsSeatOf book.now seat },
}

/// How posts went: how many were posted and discarded, how many values were overrun, and how many popped beside them.
#[derive(Clone, Copy)]
struct Tally {
    posted: u64,
    discarded: u64,
    overran: u64,
    popped: u64,
}

impl Tally {
    /// One more post ended so.
    fn count(&mut self, outcome: &Option<Outcome<u64>>) {
        match outcome {
            Some(Outcome::Posted { overran, .. }) => {
                self.posted = self.posted.wrapping_add(1);
                self.overran = self.overran.wrapping_add(*overran);
            }
            Some(Outcome::Discarded { overran, .. }) => {
                self.discarded = self.discarded.wrapping_add(1);
                self.overran = self.overran.wrapping_add(*overran);
            }
            None => {}
        }
    }
}

/// Posts so many values, each of which overruns the oldest, and pops one after every fourth.
fn post_many<'a>(rt: &(impl Wait + Clock), poster: Poster<'a>, count: u64) -> (Poster<'a>, Tally) {
    let Poster {
        ring,
        mut pass,
        book,
        mut seat,
    } = poster;
    let over = Policy::OverrunOldest;
    let mut tally = Tally {
        posted: 0,
        discarded: 0,
        overran: 0,
        popped: 0,
    };
    for value in 0..count {
        let outcome = post(rt, ring, &mut pass, book, &mut seat, Way::Now, over, value);
        tally.count(&outcome);
        if value % 4 == 3 && ring.pop_once(&mut pass).is_ok() {
            tally.popped = tally.popped.wrapping_add(1);
        }
    }
    let poster = Poster {
        ring,
        pass,
        book,
        seat,
    };
    (poster, tally)
}

/// Each of 20,000 posts was posted or discarded, and what was posted was overrun or popped, or is left. The book has counted it.
fn adds_up(rt: &impl Abort, poster: Poster<'_>, one: Tally, two: Tally) {
    let Poster {
        ring,
        mut pass,
        book,
        mut seat,
    } = poster;
    let posted = one.posted.wrapping_add(two.posted);
    let discarded = one.discarded.wrapping_add(two.discarded);
    let overran = one.overran.wrapping_add(two.overran);
    let mut gone = overran.wrapping_add(one.popped).wrapping_add(two.popped);
    for _ in 0..2 {
        if ring.pop_once(&mut pass).is_ok() {
            gone = gone.wrapping_add(1);
        }
    }
    assert!(rt; posted.wrapping_add(discarded) == 20_000 && posted == gone);
    has_lost(rt, book, &mut seat, (overran, discarded));
}

/// A ring of two places and a loss book, and two threads that post on it, each so many values.
fn overrun_each_other<R: Abort + Threads + Wait + Clock + Sync>(rt: &R, alloc: Global) {
    let (ring, mut pass) = ring_of(rt, alloc, 2, 0);
    let (book, mut seat) = new_book(rt, alloc);
    let (ring, book) = (&ring, &book);
    let second = Poster {
        ring,
        pass: ring.split(&mut pass, 1),
        book,
        seat: book.split(&mut seat, 1),
    };
    let first = Poster {
        ring,
        pass,
        book,
        seat,
    };
    let ((_, one), (poster, two)) = thread::join(
        rt,
        || post_many(rt, first, 10_000),
        || post_many(rt, second, 10_000),
    );
    adds_up(rt, poster, one, two);
}

#[test]
fn two_threads_overrun_each_other(rt: HostRuntime) {
    overrun_each_other(&rt, rt.alloc());
}

/// A post of 9 waits for room, and gets ticket 2.
fn waits(rt: &(impl Abort + Wait + Clock), poster: Poster<'_>) {
    let Poster {
        ring,
        mut pass,
        book,
        mut seat,
    } = poster;
    let row = (Way::Waiting, Policy::Block, 9, Ok((2, 0)));
    go_on(rt, ring, &mut pass, book, &mut seat, &[row]);
}

/// A pop takes the first value.
fn takes(rt: &impl Abort, worker: Worker<'_, u64>) {
    let Worker { ring, mut pass } = worker;
    goes_on(rt, ring, &mut pass, &[Deed::Pop(Ok((0, 7)))]);
}

const TWO_POSTS: [Deed; 2] = [Deed::Push(7, Ok(0)), Deed::Push(8, Ok(1))];

#[test]
fn a_port_waits_for_room(rt: HostRuntime) {
    let (ring, mut pass) = ring_of(&rt, rt.alloc(), 2, 0);
    let (book, seat) = new_book(&rt, rt.alloc());
    let (ring, book) = (&ring, &book);
    let worker = Worker {
        ring,
        pass: ring.split(&mut pass, 1),
    };
    goes_on(&rt, ring, &mut pass, &TWO_POSTS);
    let poster = Poster {
        ring,
        pass,
        book,
        seat,
    };
    thread::join(&rt, || waits(&rt, poster), || takes(&rt, worker));
}
