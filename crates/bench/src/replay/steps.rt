//! The runs on the stepped queue, and what is printed of them.
use crate::replay::queue::{Load, queue, work};
use crate::runs::{Summary, sum_up};
use alog_core::World;
use anyhow::{Result, ensure};
use std::rt::Clock;
use std::time::{Duration, Instant};

/// The sizes of the queues.
const SIZES: [usize; 3] = [2, 256, 65_536];

/// The runs of each case.
const RUNS: usize = 7;

/// The steps of a round: four of a push, and four of a pop.
const STEPS: f64 = 8.0;

/// How many rounds a run may have: the first that takes long enough to be measured.
const ROUNDS: [u32; 7] = [16, 128, 1024, 8192, 65_536, 262_144, 1_048_576];

/// The time of one run.
fn run_one<R>(rt: &R, world: &mut World<u64>, load: Load, rounds: u32) -> Result<Duration>
where
    R: Clock,
{
    let start = Instant::now(rt)?;
    let sum = work(world, load, u64::from(rounds))?;
    let time = start.elapsed(rt)?;
    ensure!(sum > 0 || rounds < 2, "nothing was popped");
    Ok(time)
}

/// How many rounds a run has: enough to take a fortieth of a second.
fn rounds_of<R>(rt: &R, world: &mut World<u64>, load: Load) -> Result<u32>
where
    R: Clock,
{
    let mut most = 1;
    for rounds in ROUNDS {
        most = rounds;
        if run_one(rt, world, load, rounds)? > Duration::from_millis(25) {
            break;
        }
    }
    Ok(most)
}

/// The runs on a queue of so many places, and how many rounds each of them has.
fn runs_of<R>(rt: &R, places: usize, load: Load) -> Result<(Summary, u32)>
where
    R: Clock + AllocGlobal,
{
    let mut world = queue(rt.alloc(), places, load)?;
    let rounds = rounds_of(rt, &mut world, load)?;
    let mut times = [Duration::ZERO; RUNS];
    for time in &mut times {
        *time = run_one(rt, &mut world, load, rounds)?;
    }
    Ok((sum_up(&mut times)?, rounds))
}

/// Millions of steps a second.
fn rate(time: Duration, rounds: u32) -> f64 {
    f64::from(rounds) * STEPS / time.as_secs_f64() / 1e6
}

fn measure_case<R>(rt: &R, places: usize, load: Load, name: &str) -> Result<()>
where
    R: Clock + Print + AllocGlobal,
{
    let (runs, rounds) = runs_of(rt, places, load)?;
    let best = rate(runs.best, rounds);
    let middle = rate(runs.middle, rounds);
    println!(rt;
        "places {places:>6}  {name}  best {best:>8.3}  middle {middle:>8.3} million steps a second"
    )?;
    Ok(())
}

/// Prints a line for each size and load: millions of steps a second, by the best run and by the middle one.
pub fn measure<R>(rt: &R) -> Result<()>
where
    R: Clock + Print + AllocGlobal,
{
    for places in SIZES {
        measure_case(rt, places, Load::Empty, "empty")?;
        measure_case(rt, places, Load::Full, "full ")?;
    }
    Ok(())
}
