//! A ring as one thread sees it.
ghost use Rattle.alog_ring.specs.Calls.{IsPassOf};

use alog_ring::{Pass, Ring};
use anyhow::{Result, ensure};
use std::sync::Wait;

/// The ring, with a pass of its own.
#[derive(Drop)]
pub struct RingLane<'a> {
    ring: &'a Ring<u64>,
    pass: Pass<u64>,
    ghost belongs: { IsPassOf ring.now pass },
}

impl<'a> RingLane<'a> {
    pub fn new(ring: &'a Ring<u64>, pass: Pass<u64>) -> RingLane<'a>
        requires { IsPassOf ring.now pass }
    {
        RingLane { ring, pass }
    }

    /// A lane for one more thread.
    pub fn split(&mut self) -> Result<RingLane<'a>> {
        ensure!(self.pass.parts() >= 2, "no part of a pass is left");
        let pass = self.ring.split(&mut self.pass, 1);
        Ok(RingLane::new(self.ring, pass))
    }

    /// Whether the value went in: not if the ring is full. It waits for other threads.
    #[inline(always)]
    pub fn push<R: Wait>(&mut self, rt: &R, value: u64) -> bool {
        self.ring.push(rt, &mut self.pass, value).is_ok()
    }

    /// The oldest value, if there is one. It waits for other threads.
    #[inline(always)]
    pub fn pop<R: Wait>(&mut self, rt: &R) -> Option<u64> {
        match self.ring.pop(rt, &mut self.pass) {
            Ok((_, value)) => Some(value),
            Err(_) => None,
        }
    }

    /// Whether the value went in: not if the ring is full, or others were faster.
    #[inline(always)]
    pub fn push_once(&mut self, value: u64) -> bool {
        self.ring.push_once(&mut self.pass, value).is_ok()
    }

    /// The oldest value, if there is one and no other thread was faster.
    #[inline(always)]
    pub fn pop_once(&mut self) -> Option<u64> {
        match self.ring.pop_once(&mut self.pass) {
            Ok((_, value)) => Some(value),
            Err(_) => None,
        }
    }
}
