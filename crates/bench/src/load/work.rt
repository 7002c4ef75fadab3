//! What a producer does, which is what is timed.
ghost use Rattle.std.specs.Prelude.{◌≡◌, ◌<◌, length};

use crate::load::case::{Figure, Order};
use alog_msg::Level;
use alog_pool::Producer;
use std::alloc::Global;
use std::rt::Clock;
use std::sync::Wait;
use std::thread;
use std::time::Duration;

/// A producer, its order, and the nanoseconds of its logs as far as they are asked for.
pub struct Task {
    pub producer: Producer,
    pub order: Order,
    pub times: Vec<u64>,
    /// How many logs failed.
    pub failed: u64,
}

/// A reading of a clock in nanoseconds, or 0 where the clock cannot be read.
#[inline(always)]
fn nanos<E: Drop>(reading: Result<Duration, E>) -> u64 {
    match reading {
        Ok(time) => time
            .as_secs()
            .wrapping_mul(1_000_000_000)
            .wrapping_add(u64::from(time.subsec_nanos())),
        Err(_) => 0,
    }
}

/// Logs a message with the time that it is, and counts a failure.
#[inline(always)]
fn log_one<R: Wait + Clock>(
    rt: &R,
    alloc: Global,
    producer: &mut Producer,
    text: &str,
    failed: &mut u64,
)
    requires { 0 < length producer.old.shared.loggers }
    ensures { producer.new.shared ≡ producer.old.shared }
{
    let time = i64::try_from(nanos(rt.since_1970())).unwrap_or(i64::MAX);
    if producer
        .log(rt, alloc, 0, Level::Info, time, text, None)
        .is_err()
    {
        *failed = failed.wrapping_add(1);
    }
}

/// Waits until the clock reads so much.
fn wait_until<R: Wait + Clock>(rt: &R, time: u64) {
    for _ in rt.forever() {
        if nanos(rt.monotonic()) >= time {
            return;
        }
        thread::yield_now();
    }
}

/// Logs as many messages as were ordered, one after another.
fn log_all<R: Wait + Clock>(
    rt: &R,
    alloc: Global,
    producer: &mut Producer,
    order: Order,
    text: &str,
    failed: &mut u64,
)
    requires { 0 < length producer.old.shared.loggers }
    ensures { producer.new.shared ≡ producer.old.shared }
{
    for _ in 0..order.count {
        log_one(rt, alloc, producer, text, failed);
    }
}

/// The same, and takes the time of each. Where gaps were ordered, it waits for the next one's beginning.
fn log_timed<R: Wait + Clock>(
    rt: &R,
    alloc: Global,
    producer: &mut Producer,
    order: Order,
    text: &str,
    times: &mut Vec<u64>,
    failed: &mut u64,
)
    requires { 0 < length producer.old.shared.loggers }
    ensures { producer.new.shared ≡ producer.old.shared }
{
    let mut next = nanos(rt.monotonic());
    for _ in 0..order.count {
        if order.gap > 0 {
            wait_until(rt, next);
            next = next.wrapping_add(order.gap);
        }
        let start = nanos(rt.monotonic());
        log_one(rt, alloc, producer, text, failed);
        let end = nanos(rt.monotonic());
        if times.push(end.saturating_sub(start)).is_err() {
            *failed = failed.wrapping_add(1);
        }
    }
}

/// Does what the task says.
pub fn carry_out<R: Wait + Clock>(rt: &R, alloc: Global, text: &str, task: &mut Task)
    requires { 0 < length task.old.producer.shared.loggers }
    ensures { task.new.producer.shared ≡ task.old.producer.shared }
{
    let Task {
        producer,
        order,
        times,
        failed,
    } = task;
    match order.figure {
        Figure::Rate => log_all(rt, alloc, producer, *order, text, failed),
        Figure::Times => log_timed(rt, alloc, producer, *order, text, times, failed),
    }
}
