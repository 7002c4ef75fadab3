//! Measures a `Formatter` of `alog_format`, and its `format` alone, which write a message out by a pattern.
//!
//! It prints the nanoseconds that a line takes. Read `messages.rt` (what is written) and `work.rt` (the loop that is timed).
//! `bench/format.cpp` does the same by spdlog.
mod messages;
mod work;

use crate::format::messages::{COUNT, Size, messages};
use crate::format::work::{ROUNDS, checksum, write_lines};
use crate::lines::Way;
use crate::runs::{Summary, nanos_each, sum_up};
use alog_format::LineBuf;
use alog_msg::Message;
use anyhow::{Context, Result, ensure};
use std::rt::Clock;
use std::time::{Duration, Instant};

/// The runs of each case.
const RUNS: usize = 7;

/// How long the texts are, and how many nanoseconds lie between two messages.
#[derive(Clone, Copy)]
struct Case {
    name: &'static str,
    size: Size,
    step: i64,
}

const CASES: [Case; 4] = [
    Case {
        name: " 64 bytes 1 us",
        size: Size::Short,
        step: 1_000,
    },
    Case {
        name: "200 bytes 1 us",
        size: Size::Long,
        step: 1_000,
    },
    Case {
        name: " 64 bytes 1 s ",
        size: Size::Short,
        step: 1_000_000_000,
    },
    Case {
        name: "200 bytes 1 s ",
        size: Size::Long,
        step: 1_000_000_000,
    },
];

/// The lines of a run.
const LINES: u32 = COUNT * ROUNDS;

/// Nanoseconds a line, and a million bytes a second.
#[derive(Clone, Copy)]
struct Figures {
    nanos: f64,
    speed: f64,
}

fn figures_of(time: Duration, bytes: u32) -> Figures {
    Figures {
        nanos: nanos_each(time, LINES),
        speed: f64::from(bytes) / time.as_secs_f64() / 1e6,
    }
}

/// What is printed of a case.
#[derive(Clone, Copy)]
struct Outcome {
    best: Figures,
    middle: Figures,
    /// The checksum of the lines.
    sum: u64,
}

/// The time of a run, whose lines have as many bytes as are wanted.
fn run_one<R>(
    rt: &R,
    way: &mut Way,
    messages: &mut [Message],
    line: &mut LineBuf,
    step: i64,
    wanted: u64,
) -> Result<Duration>
where
    R: Clock,
{
    let start = Instant::now(rt)?;
    let bytes = write_lines(way, messages, line, step)?;
    let time = start.elapsed(rt)?;
    ensure!(bytes == wanted, "two runs differ");
    Ok(time)
}

/// The bytes of a run, the same in each, and the times of the best run and of the middle one.
fn run_all<R>(
    rt: &R,
    way: &mut Way,
    messages: &mut [Message],
    line: &mut LineBuf,
    step: i64,
) -> Result<(u32, Summary)>
where
    R: Clock,
{
    let wanted = write_lines(way, messages, line, step)?;
    let found = u32::try_from(wanted).ok().context("too many bytes")?;
    let mut times = [Duration::ZERO; RUNS];
    for time in &mut times {
        *time = run_one(rt, way, messages, line, step, wanted)?;
    }
    Ok((found, sum_up(&mut times)?))
}

fn outcome_of<R>(
    rt: &R,
    way: &mut Way,
    messages: &mut [Message],
    line: &mut LineBuf,
    step: i64,
) -> Result<Outcome>
where
    R: Clock,
{
    let (bytes, runs) = run_all(rt, way, messages, line, step)?;
    Ok(Outcome {
        best: figures_of(runs.best, bytes),
        middle: figures_of(runs.middle, bytes),
        sum: checksum(way, messages, line, step)?,
    })
}

fn print_line<R>(rt: &R, name: &str, case: &str, outcome: Outcome) -> Result<()>
where
    R: Print,
{
    let Outcome { best, middle, sum } = outcome;
    let Figures { nanos, speed } = best;
    let (middle, middle_speed) = (middle.nanos, middle.speed);
    println!(rt;
        "{name}  {case}  best {nanos:>6.1} ns {speed:>5.0} MB/s  middle {middle:>6.1} ns {middle_speed:>5.0} MB/s  sum {sum:>20}"
    )?;
    Ok(())
}

fn measure_case<R>(rt: &R, case: Case, name: &str, way: &mut Way) -> Result<()>
where
    R: Clock + Print + AllocGlobal,
{
    let alloc = rt.alloc();
    let mut line = LineBuf::new(alloc, way.longest())?;
    let mut messages = messages(alloc, case.size)?;
    let outcome = outcome_of(rt, way, &mut messages, &mut line, case.step)?;
    print_line(rt, name, case.name, outcome)
}

/// Prints a line for each case: nanoseconds a line and a million bytes a second in the best run and the middle one,
/// and the checksum of the lines.
pub fn measure<R>(rt: &R) -> Result<()>
where
    R: Clock + Print + AllocGlobal,
{
    let mut remembering = Way::remembering(rt.alloc())?;
    let mut alone = Way::alone(rt.alloc())?;
    measure_all(rt, &mut remembering, &mut alone)
}

fn measure_all<R>(rt: &R, remembering: &mut Way, alone: &mut Way) -> Result<()>
where
    R: Clock + Print + AllocGlobal,
{
    for case in &CASES {
        measure_case(rt, *case, "alog ", remembering)?;
        measure_case(rt, *case, "alone", alone)?;
    }
    Ok(())
}
