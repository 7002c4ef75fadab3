//! A number behind a lock, as one thread sees it, and the loop that is timed.
ghost use Rattle.alog_lane.specs.Calls.{IsSeatOf};

use crate::threads::Job;
use alog_lane::{Lane, LaneSeat, Turn};
use anyhow::{Result, ensure};
use std::sync::{Mutex, Wait};

/// What a thread adds numbers to.
pub trait Adder: Sized {
    fn add<R: Wait>(&mut self, rt: &R, number: u64);

    /// An adder for one more thread.
    fn another(&mut self) -> Result<Self>;

    /// The number, under the lock.
    fn total<R: Wait>(&mut self, rt: &R) -> u64;
}

/// A number to which each turn adds its item. It replies with the sum.
#[derive(Drop)]
pub struct Total(pub u64);

impl Turn for Total {
    type Item = u64;

    type Reply = u64;

    type Scratch = ();

    ghost turns = { λ v before i r w after. Unit {0} };

    ghost may_turn = { λ v i s. Unit {0} };

    #[inline(always)]
    fn turn(&mut self, item: &u64, _scratch: &mut ()) -> u64 {
        self.0 = self.0.wrapping_add(*item);
        self.0
    }
}

/// The lane, with a seat of its own.
#[derive(Drop)]
pub struct LaneAdder<'a> {
    lane: &'a Lane<Total>,
    seat: LaneSeat<Total>,
    ghost belongs: { IsSeatOf lane.now seat },
}

impl<'a> LaneAdder<'a> {
    pub fn new(lane: &'a Lane<Total>, seat: LaneSeat<Total>) -> LaneAdder<'a>
        requires { IsSeatOf lane.now seat }
    {
        LaneAdder { lane, seat }
    }
}

impl<'a> Adder for LaneAdder<'a> {
    #[inline(always)]
    fn add<R: Wait>(&mut self, rt: &R, number: u64) {
        self.lane.turn(rt, &mut self.seat, 0, &number, &mut ());
    }

    fn another(&mut self) -> Result<LaneAdder<'a>> {
        ensure!(self.seat.parts() >= 2, "no part of a seat is left");
        let seat = self.lane.split(&mut self.seat, 1);
        Ok(LaneAdder::new(self.lane, seat))
    }

    fn total<R: Wait>(&mut self, rt: &R) -> u64 {
        let (_, total) = self.lane.turn(rt, &mut self.seat, 0, &0, &mut ());
        total
    }
}

#[derive(Drop)]
pub struct MutexAdder<'a> {
    mutex: &'a Mutex<u64>,
}

impl<'a> MutexAdder<'a> {
    pub fn new(mutex: &'a Mutex<u64>) -> MutexAdder<'a> {
        MutexAdder { mutex }
    }
}

impl<'a> Adder for MutexAdder<'a> {
    #[inline(always)]
    fn add<R: Wait>(&mut self, rt: &R, number: u64) {
        let mut total = self.mutex.lock(rt);
        *total = total.wrapping_add(number);
    }

    fn another(&mut self) -> Result<MutexAdder<'a>> {
        Ok(MutexAdder::new(self.mutex))
    }

    fn total<R: Wait>(&mut self, rt: &R) -> u64 {
        *self.mutex.lock(rt)
    }
}

/// Adds the numbers below `count`.
pub fn add_all<A: Adder, R: Wait>(rt: &R, adder: &mut A, count: u64) {
    for number in 0..count {
        adder.add(rt, number);
    }
}

/// What one thread does: it adds the numbers below `count`.
#[derive(Drop)]
pub struct Task<A> {
    pub adder: A,
    pub count: u64,
}

impl<A: Adder + Drop> Job for Task<A> {
    fn carry_out<R: Wait>(self, rt: &R) -> u64 {
        let Task { mut adder, count } = self;
        add_all(rt, &mut adder, count);
        0
    }
}
