//! The runs of a case: the best, and the one in the middle.
use anyhow::{Context, Result};
use std::time::Duration;

/// The time of the best run, and that of the run in the middle.
#[derive(Clone, Copy)]
pub struct Summary {
    pub best: Duration,
    pub middle: Duration,
}

/// Sums up runs that took these times, which it sorts.
pub fn sum_up(times: &mut [Duration]) -> Result<Summary> {
    times.sort_unstable();
    let best = times.first().copied().context("no run")?;
    let middle = times.get(times.len() / 2).copied().context("no run")?;
    Ok(Summary { best, middle })
}

/// Nanoseconds for each of so many.
pub fn nanos_each(time: Duration, count: u32) -> f64 {
    time.as_secs_f64() * 1e9 / f64::from(count)
}
