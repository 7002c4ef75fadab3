//! A pool with nothing to do.
ghost use Rattle.std.specs.Prelude.{[]};

use crate::load::null_store::NullStore;
use crate::load::run::ended;
use crate::load::start::started;
use anyhow::Result;
use std::rt::Clock;
use std::sync::Wait;
use std::thread;
use std::thread::Threads;
use std::time::{CpuClock, Duration};

/// Starts a pool of so many workers, and prints the microseconds of a processor that it takes in a second, over so many seconds
/// in which nothing is logged.
pub fn print_idle<R>(rt: &R, workers: u32, seconds: u32) -> Result<()>
where
    R: Threads + Wait + Clock + CpuClock + Print + AllocGlobal + Clone + Drop + Send + 'static,
{
    let pool = started(rt, rt.alloc(), b"%v", NullStore, workers as usize)?;
    let before = rt.process_cpu_time();
    thread::sleep(rt, Duration::from_secs(u64::from(seconds)));
    let after = rt.process_cpu_time();
    drop(ended(rt, pool, Vec::new(rt.alloc())));
    let taken = after?.saturating_sub(before?);
    let share = taken.as_secs_f64() * 1e6 / f64::from(seconds);
    println!(rt; "{share:.0}")?;
    Ok(())
}
