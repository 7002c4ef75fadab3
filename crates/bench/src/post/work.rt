//! The loops that are timed, the same for both.
use crate::post::poster::Poster;
use crate::ring_lane::RingLane;
use crate::threads::{Job, Outcome};
use anyhow::Result;
use crossbeam_utils::Backoff;
use std::rt::Clock;
use std::sync::Wait;
use std::time::{Duration, Instant};

/// How many values are brought in before they are taken out, on one thread.
pub const BATCH: u64 = 512;

/// What one thread does.
#[derive(Drop)]
pub enum Task<'a, P> {
    /// Brings in the numbers below `count`.
    Post { poster: P, count: u64 },
    /// Takes out `count` numbers.
    Take { lane: RingLane<'a>, count: u64 },
}

/// Brings in the numbers below `count`, each again until it went in.
#[inline(always)]
fn post_all<P: Poster, R: Wait>(rt: &R, poster: &mut P, count: u64) {
    for value in 0..count {
        for _ in rt.forever() {
            if poster.post(value) {
                break;
            }
        }
    }
}

/// Takes out `count` numbers, and answers their sum.
fn take_all<R: Wait>(rt: &R, lane: &mut RingLane<'_>, count: u64) -> u64 {
    let backoff = Backoff::new();
    let mut sum = 0u64;
    for _ in 0..count {
        for _ in rt.forever() {
            if let Some(value) = lane.pop_once() {
                sum = sum.wrapping_add(value);
                break;
            }
            backoff.snooze();
        }
    }
    sum
}

impl<P: Poster + Drop> Job for Task<'_, P> {
    fn carry_out<R: Wait>(self, rt: &R) -> u64 {
        match self {
            Task::Post { mut poster, count } => {
                post_all(rt, &mut poster, count);
                0
            }
            Task::Take { mut lane, count } => take_all(rt, &mut lane, count),
        }
    }
}

/// Brings in so many batches of numbers, on this thread, and takes each out again. It answers the time of the posts alone, and
/// the sum of what was taken out.
pub fn alone<P, R>(rt: &R, poster: &mut P, lane: &mut RingLane<'_>, batches: u64) -> Result<Outcome>
where
    P: Poster,
    R: Wait + Clock,
{
    let mut time = Duration::ZERO;
    let mut sum = 0u64;
    for _ in 0..batches {
        let start = Instant::now(rt)?;
        post_all(rt, poster, BATCH);
        time = time.saturating_add(start.elapsed(rt)?);
        sum = sum.wrapping_add(take_all(rt, lane, BATCH));
    }
    Ok(Outcome { time, sum })
}
