//! Measures the lane of `alog_lane` beside `std::sync::Mutex`, in the same run.
//!
//! It prints the nanoseconds that a turn takes in each, and their ratio. Read `adder.rt` (a number behind a lock, as one thread
//! sees it, and the loop, which is the same for both).
mod adder;

use crate::lane::adder::{Adder, LaneAdder, MutexAdder, Task, Total, add_all};
use crate::rivals::{Pair, Rivals};
use crate::threads::{share, sum_of_shares, together};
use alog_lane::Lane;
use anyhow::{Context, Result, ensure};
use std::alloc::Global;
use std::rt::Clock;
use std::sync::{Mutex, Wait};
use std::thread::Threads;
use std::time::{Duration, Instant};

/// The turns of a run, over all its threads.
const TURNS: u32 = 1 << 20;

/// The runs of each lock in a case, in turn.
const RUNS: usize = 11;

const RIVALS: Rivals = Rivals {
    ours: "lane",
    theirs: "Mutex",
    count: TURNS,
};

/// How many threads take turns.
#[derive(Clone, Copy)]
struct Case {
    name: &'static str,
    threads: u32,
}

const CASES: [Case; 3] = [
    Case {
        name: "threads 1",
        threads: 1,
    },
    Case {
        name: "threads 2",
        threads: 2,
    },
    Case {
        name: "threads 4",
        threads: 4,
    },
];

fn one_alone<A, R>(rt: &R, adder: &mut A) -> Result<Duration>
where
    A: Adder,
    R: Wait + Clock,
{
    let start = Instant::now(rt)?;
    add_all(rt, adder, share(TURNS, 1));
    Ok(start.elapsed(rt)?)
}

/// A task for each thread.
fn tasks_of<A>(alloc: Global, adder: &mut A, threads: u32) -> Result<Vec<Task<A>>>
where
    A: Adder + Drop,
{
    let count = share(TURNS, threads);
    let mut tasks = Vec::new(alloc);
    for _ in 0..threads {
        let adder = adder.another()?;
        tasks.push(Task { adder, count })?;
    }
    Ok(tasks)
}

/// The time of a run on the lock of this adder.
fn run<A, R>(rt: &R, alloc: Global, adder: &mut A, threads: u32) -> Result<Duration>
where
    A: Adder + Send + Drop,
    R: Threads + Wait + Clock + Sync,
{
    let time = match threads {
        1 => one_alone(rt, adder)?,
        _ => together(rt, tasks_of(alloc, adder, threads)?)?.time,
    };
    let wanted = sum_of_shares(TURNS, threads);
    ensure!(adder.total(rt) == wanted, "a turn was lost");
    Ok(time)
}

fn lane_run<R>(rt: &R, alloc: Global, threads: u32) -> Result<Duration>
where
    R: Threads + Wait + Clock + Sync,
{
    let (lane, seat) = Lane::new(alloc, Total(0)).ok().context("no memory")?;
    run(rt, alloc, &mut LaneAdder::new(&lane, seat), threads)
}

fn mutex_run<R>(rt: &R, alloc: Global, threads: u32) -> Result<Duration>
where
    R: Threads + Wait + Clock + Sync,
{
    let mutex = Mutex::new(0u64);
    run(rt, alloc, &mut MutexAdder::new(&mutex), threads)
}

/// Makes the runs of a case, ours and theirs in turn.
fn compare<R>(rt: &R, alloc: Global, threads: u32) -> Result<Pair>
where
    R: Threads + Wait + Clock + Sync,
{
    let mut ours = [Duration::ZERO; RUNS];
    let mut theirs = [Duration::ZERO; RUNS];
    for run in 0..RUNS {
        ours[run] = lane_run(rt, alloc, threads)?;
        theirs[run] = mutex_run(rt, alloc, threads)?;
    }
    Pair::of(&mut ours, &mut theirs)
}

/// Prints two lines for each number of threads, of the best run and of the middle one.
pub fn measure<R>(rt: &R) -> Result<()>
where
    R: Threads + Wait + Clock + Print + AllocGlobal + Sync,
{
    for case in &CASES {
        let pair = compare(rt, rt.alloc(), case.threads)?;
        RIVALS.print(rt, case.name, case.name, pair)?;
    }
    Ok(())
}
