//! A ring as one thread sees it.
ghost use Rattle.alog_policy.specs.BookCalls.{IsSeatOf};
ghost use Rattle.alog_ring.specs.Calls.{IsPassOf};

use crate::ring_lane::RingLane;
use alog_policy::{BookSeat, LossBook, Outcome, Policy, Port, post_now};
use alog_ring::{Pass, Ring};
use anyhow::{Result, ensure};

/// What a thread brings numbers into the ring with.
pub trait Poster: Sized {
    /// Whether the value went in: not if the queue is full, or others were faster.
    fn post(&mut self, value: u64) -> bool;

    /// The same for one more thread.
    fn another(&mut self) -> Result<Self>;
}

/// A lane pushes.
impl<'a> Poster for RingLane<'a> {
    #[inline(always)]
    fn post(&mut self, value: u64) -> bool {
        self.push_once(value)
    }

    fn another(&mut self) -> Result<RingLane<'a>> {
        self.split()
    }
}

/// The ring and a loss book, with a pass and a seat of its own, by which posts are made under this policy.
#[derive(Drop)]
pub struct PortPoster<'a> {
    ring: &'a Ring<u64>,
    pass: Pass<u64>,
    book: &'a LossBook,
    seat: BookSeat,
    policy: Policy,
    ghost belongs: { IsPassOf ring.now pass × IsSeatOf book.now seat },
}

impl<'a> PortPoster<'a> {
    pub fn new(
        ring: &'a Ring<u64>,
        pass: Pass<u64>,
        book: &'a LossBook,
        seat: BookSeat,
        policy: Policy,
    ) -> PortPoster<'a>
        requires { IsPassOf ring.now pass × IsSeatOf book.now seat }
    {
        PortPoster {
            ring,
            pass,
            book,
            seat,
            policy,
        }
    }
}

/// One post on a port of these.
#[inline(always)]
fn post_on(
    ring: &Ring<u64>,
    pass: &mut Pass<u64>,
    book: &LossBook,
    seat: &mut BookSeat,
    policy: Policy,
    value: u64,
) -> Outcome<u64>
    requires { IsPassOf ring.now pass.old × IsSeatOf book.now seat.old }
    ensures { IsPassOf ring.now pass.new × IsSeatOf book.now seat.new }
{
    let mut port = Port {
        ring,
        pass,
        book,
        seat,
    };
    post_now(&mut port, policy, value)
}

impl<'a> Poster for PortPoster<'a> {
    #[inline(always)]
    fn post(&mut self, value: u64) -> bool {
        let outcome = post_on(
            self.ring,
            &mut self.pass,
            self.book,
            &mut self.seat,
            self.policy,
            value,
        );
        matches!(outcome, Outcome::Posted { .. })
    }

    fn another(&mut self) -> Result<PortPoster<'a>> {
        ensure!(self.pass.parts() >= 2, "no part of a pass is left");
        ensure!(self.seat.parts() >= 2, "no part of a seat is left");
        let pass = self.ring.split(&mut self.pass, 1);
        let seat = self.book.split(&mut self.seat, 1);
        Ok(PortPoster::new(self.ring, pass, self.book, seat, self.policy))
    }
}
