//! The loops that are timed, the same for both queues.
use crate::ring::lane::Lane;
use crate::threads::Job;
use crossbeam_utils::Backoff;
use std::sync::Wait;

/// What one thread does with its lane.
#[derive(Drop)]
pub enum Task<L> {
    /// Pushes the numbers below `count`.
    Push { lane: L, count: u64 },
    /// Pops `count` numbers.
    Pop { lane: L, count: u64 },
}

#[inline(always)]
fn push_next<L: Lane, R: Wait>(rt: &R, lane: &mut L, value: u64) {
    let backoff = Backoff::new();
    for _ in rt.forever() {
        if lane.offer(rt, value) {
            return;
        }
        backoff.snooze();
    }
}

#[inline(always)]
fn pop_next<L: Lane, R: Wait>(rt: &R, lane: &mut L) -> u64 {
    let backoff = Backoff::new();
    for _ in rt.forever() {
        if let Some(value) = lane.take(rt) {
            return value;
        }
        backoff.snooze();
    }
    unreachable!()
}

fn push_all<L: Lane, R: Wait>(rt: &R, lane: &mut L, count: u64) {
    for value in 0..count {
        push_next(rt, lane, value);
    }
}

/// Pops so many numbers, and answers their sum.
fn pop_all<L: Lane, R: Wait>(rt: &R, lane: &mut L, count: u64) -> u64 {
    let mut sum = 0u64;
    for _ in 0..count {
        sum = sum.wrapping_add(pop_next(rt, lane));
    }
    sum
}

impl<L: Lane + Drop> Job for Task<L> {
    fn carry_out<R: Wait>(self, rt: &R) -> u64 {
        match self {
            Task::Push { mut lane, count } => {
                push_all(rt, &mut lane, count);
                0
            }
            Task::Pop { mut lane, count } => pop_all(rt, &mut lane, count),
        }
    }
}

/// Pushes each number below `count` and pops it, on this thread, and answers the sum of what was popped.
pub fn alone<L: Lane, R: Wait>(rt: &R, lane: &mut L, count: u64) -> u64 {
    let mut sum = 0u64;
    for value in 0..count {
        push_next(rt, lane, value);
        sum = sum.wrapping_add(pop_next(rt, lane));
    }
    sum
}
