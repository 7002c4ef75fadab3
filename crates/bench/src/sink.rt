//! Measures sinks of `alog_sink`, over files in memory and over those of a folder, beside the bare formatter.
//!
//! - `memory` prints the nanoseconds that a message takes over files in memory.
//! - `folder PATH` prints those over files in folders that stand there: `memory`, `rotating` and `daily`.
//!
//! Read `targets.rt` (what messages are given to) and `work.rt` (the loop that is timed). `bench/sink.cpp` does the same by
//! spdlog.
mod targets;
mod work;

use crate::lines::Way;
use crate::runs::{Summary, nanos_each, sum_up};
use crate::sink::targets::{Kind, fan, in_folder, in_memory};
use crate::sink::work::{COUNT, time_of};
use anyhow::Result;
use std::path::Path;
use std::rt::{Clock, Files};
use std::time::Duration;

/// The runs of each target.
const RUNS: usize = 7;

/// What is measured.
#[derive(Clone, Copy)]
enum Case {
    Bare,
    Formatter,
    Memory(Kind),
    Fan,
    Folder(Kind),
}

impl Case {
    fn name(self) -> &'static str {
        match self {
            Case::Bare => "bare     ",
            Case::Formatter => "formatter",
            Case::Fan => "fan      ",
            Case::Memory(kind) | Case::Folder(kind) => match kind {
                Kind::Memory => "memory   ",
                Kind::Rotating => "rotating ",
                Kind::Daily => "daily    ",
            },
        }
    }
}

/// The time of one run, on a target of its own.
fn run_one<R>(rt: &R, case: Case, path: &str) -> Result<Duration>
where
    R: Files + Clock + Clone + Drop + AllocGlobal,
{
    let alloc = rt.alloc();
    match case {
        Case::Bare => time_of(rt, alloc, Way::alone(alloc)),
        Case::Formatter => time_of(rt, alloc, Way::remembering(alloc)),
        Case::Fan => time_of(rt, alloc, fan(alloc)),
        Case::Memory(kind) => time_of(rt, alloc, in_memory(alloc, kind)),
        Case::Folder(kind) => time_of(rt, alloc, in_folder(rt, alloc, kind, path)),
    }
}

/// Prints a line for a target: nanoseconds a message in the best run and the middle one.
fn measure_one<R>(rt: &R, case: Case, path: &str) -> Result<()>
where
    R: Files + Clock + Print + Clone + Drop + AllocGlobal,
{
    let mut times = [Duration::ZERO; RUNS];
    for time in &mut times {
        *time = run_one(rt, case, path)?;
    }
    print_line(rt, case.name(), sum_up(&mut times)?)
}

fn print_line<R>(rt: &R, name: &str, runs: Summary) -> Result<()>
where
    R: Print,
{
    let best = nanos_each(runs.best, COUNT);
    let middle = nanos_each(runs.middle, COUNT);
    println!(rt; "alog   {name}  best {best:>6.1} ns  middle {middle:>6.1} ns")?;
    Ok(())
}

const IN_MEMORY: [Case; 6] = [
    Case::Bare,
    Case::Formatter,
    Case::Memory(Kind::Memory),
    Case::Memory(Kind::Rotating),
    Case::Memory(Kind::Daily),
    Case::Fan,
];

/// Measures the bare formatter, one that remembers, and sinks over files in memory.
fn in_memory_all<R>(rt: &R) -> Result<()>
where
    R: Files + Clock + Print + Clone + Drop + AllocGlobal,
{
    for case in &IN_MEMORY {
        measure_one(rt, *case, "")?;
    }
    Ok(())
}

/// Measures a sink over the files of a folder in the one with this path.
fn in_folder_one<R>(rt: &R, kind: Kind, path: &str, folder: &str) -> Result<()>
where
    R: Files + Clock + Print + Clone + Drop + AllocGlobal,
{
    let path = Path::new(path).join(rt.alloc(), folder)?;
    measure_one(rt, Case::Folder(kind), path.as_str())
}

/// Measures sinks over the files of a folder, in which those of the last runs stay.
fn in_folder_all<R>(rt: &R, path: &str) -> Result<()>
where
    R: Files + Clock + Print + Clone + Drop + AllocGlobal,
{
    in_folder_one(rt, Kind::Memory, path, "memory")?;
    in_folder_one(rt, Kind::Rotating, path, "rotating")?;
    in_folder_one(rt, Kind::Daily, path, "daily")
}

/// Measures what these words ask for.
pub fn measure<R>(rt: &R, words: &[String]) -> Result<()>
where
    R: Files + Clock + Print + Clone + Drop + AllocGlobal,
{
    match words {
        [word] if word.as_str() == "memory" => in_memory_all(rt),
        [word, path] if word.as_str() == "folder" => in_folder_all(rt, path.as_str()),
        _ => Ok(()),
    }
}
