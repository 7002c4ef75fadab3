//! The runs of whole scripts, and what is printed of them.
use crate::replay::scripts::Scene;
use crate::runs::{Summary, sum_up};
use anyhow::Result;
use std::rt::Clock;
use std::time::{Duration, Instant};

/// The lines of the scripts.
const SIZES: [u32; 3] = [10_000, 100_000, 1_000_000];

/// The runs of each script.
const RUNS: usize = 5;

/// The time of one run.
fn run_one<R>(rt: &R, scene: &Scene, script: &str, lines: u32) -> Result<Duration>
where
    R: Clock + AllocGlobal,
{
    let start = Instant::now(rt)?;
    scene.replay(rt.alloc(), script, lines)?;
    Ok(start.elapsed(rt)?)
}

/// The runs of a script of so many lines.
fn runs_of<R>(rt: &R, scene: &Scene, lines: u32) -> Result<Summary>
where
    R: Clock + AllocGlobal,
{
    let script = scene.script(rt.alloc(), lines)?;
    let mut times = [Duration::ZERO; RUNS];
    for time in &mut times {
        *time = run_one(rt, scene, script.as_str(), lines)?;
    }
    sum_up(&mut times)
}

/// Thousands of lines a second.
fn rate(time: Duration, lines: u32) -> f64 {
    f64::from(lines) / time.as_secs_f64() / 1e3
}

fn measure_script<R>(rt: &R, scene: &Scene, lines: u32) -> Result<()>
where
    R: Clock + Print + AllocGlobal,
{
    let runs = runs_of(rt, scene, lines)?;
    let best = rate(runs.best, lines);
    let middle = rate(runs.middle, lines);
    println!(rt;
        "lines {lines:>8}  {name:<23}  best {best:>8.1}  middle {middle:>8.1} thousand lines a second",
        name = scene.name()
    )?;
    Ok(())
}

/// Prints a line for each size of script, without a configuration and with one: thousands of lines a second, by the best run and
/// by the middle one.
pub fn measure<R>(rt: &R) -> Result<()>
where
    R: Clock + Print + AllocGlobal,
{
    let configured = Scene::configured(rt.alloc())?;
    for lines in SIZES {
        measure_script(rt, &Scene::Plain, lines)?;
        measure_script(rt, &configured, lines)?;
    }
    Ok(())
}
