//! What threads do together, and each one's share of it.
use anyhow::{Result, ensure};
use std::rt::Clock;
use std::sync::Wait;
use std::thread;
use std::thread::Threads;
use std::time::{Duration, Instant};

/// What one thread does.
pub trait Job {
    /// Does it, and answers the sum of the numbers that it took out.
    fn carry_out<R: Wait>(self, rt: &R) -> u64;
}

/// What a run gave: how long it took, and the sum of the numbers that were taken out.
#[derive(Clone, Copy)]
pub struct Outcome {
    pub time: Duration,
    pub sum: u64,
}

impl Outcome {
    /// The time, if what was brought in has this sum.
    pub fn checked(self, brought_in: u64) -> Result<Duration> {
        ensure!(self.sum == brought_in, "a number was lost");
        Ok(self.time)
    }
}

/// Does each job in a thread of its own.
pub fn together<J, R>(rt: &R, jobs: Vec<J>) -> Result<Outcome>
where
    J: Job + Send + Drop,
    R: Threads + Wait + Clock + Sync,
{
    let start = Instant::now(rt)?;
    let sums = thread::map_vec(rt, jobs, &|job: J| job.carry_out(rt))?;
    let time = start.elapsed(rt)?;
    Ok(Outcome {
        time,
        sum: sum_of(&sums),
    })
}

fn sum_of(numbers: &[u64]) -> u64 {
    let mut sum = 0u64;
    for number in numbers {
        sum = sum.wrapping_add(*number);
    }
    sum
}

/// Each thread's share of so many.
pub fn share(all: u32, threads: u32) -> u64 {
    u64::from(all.checked_div(threads).unwrap_or(0))
}

/// The sum of the numbers below `count`.
pub fn sum_below(count: u64) -> u64 {
    count.wrapping_mul(count.wrapping_sub(1)) / 2
}

/// The sum of all numbers where each thread brings in those below its share.
pub fn sum_of_shares(all: u32, threads: u32) -> u64 {
    sum_below(share(all, threads)).wrapping_mul(u64::from(threads))
}
