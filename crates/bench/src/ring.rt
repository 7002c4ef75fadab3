//! Measures the ring of `alog_ring` beside `crossbeam_queue::ArrayQueue`, in the same run.
//!
//! It prints the nanoseconds that an item takes in each, and their ratio. Read `lane.rt` (a queue as one thread sees it) and
//! `work.rt` (the loops, which are the same for both queues).
mod lane;
mod work;

use crate::ring::lane::{Lane, QueueLane};
use crate::ring::work::{Task, alone};
use crate::ring_lane::RingLane;
use crate::rivals::{Pair, Rivals};
use crate::threads::{Outcome, share, sum_below, sum_of_shares, together};
use alog_ring::Ring;
use anyhow::Result;
use crossbeam_queue::ArrayQueue;
use std::alloc::Global;
use std::rt::Clock;
use std::sync::Wait;
use std::thread::Threads;
use std::time::{Duration, Instant};

const CAPACITY: usize = 1024;

/// The items of a run, over all its threads.
const ITEMS: u32 = 1 << 20;

/// The runs of each queue in a case, in turn.
const RUNS: usize = 11;

const RIVALS: Rivals = Rivals {
    ours: "ring",
    theirs: "ArrayQueue",
    count: ITEMS,
};

/// Who pushes and pops.
#[derive(Clone, Copy)]
enum Case {
    /// One thread, which pushes and pops in turn.
    Alone,
    /// So many threads that push, and as many that pop.
    Pairs(u32),
}

impl Case {
    /// The name, as wide as the widest.
    fn name(self) -> &'static str {
        match self {
            Case::Alone => "one thread           ",
            Case::Pairs(1) => "one pair of threads  ",
            Case::Pairs(2) => "two pairs of threads ",
            Case::Pairs(_) => "four pairs of threads",
        }
    }
}

/// What stands in place of a name that was printed one line above.
const SAME: &str = "                     ";

const CASES: [Case; 4] = [Case::Alone, Case::Pairs(1), Case::Pairs(2), Case::Pairs(4)];

fn one_alone<L, R>(rt: &R, lane: &mut L) -> Result<Outcome>
where
    L: Lane,
    R: Wait + Clock,
{
    let start = Instant::now(rt)?;
    let sum = alone(rt, lane, u64::from(ITEMS));
    let time = start.elapsed(rt)?;
    Ok(Outcome { time, sum })
}

/// Adds a task that pushes and one that pops.
fn push_pair<L>(lane: &mut L, count: u64, tasks: &mut Vec<Task<L>>) -> Result<()>
where
    L: Lane + Drop,
{
    let first = lane.another()?;
    tasks.push(Task::Push { lane: first, count })?;
    let second = lane.another()?;
    tasks.push(Task::Pop {
        lane: second,
        count,
    })?;
    Ok(())
}

/// Two tasks for each pair of threads.
fn tasks_of<L>(alloc: Global, lane: &mut L, pairs: u32) -> Result<Vec<Task<L>>>
where
    L: Lane + Drop,
{
    let count = share(ITEMS, pairs);
    let mut tasks = Vec::new(alloc);
    for _ in 0..pairs {
        push_pair(lane, count, &mut tasks)?;
    }
    Ok(tasks)
}

/// The time of a run on the queue of this lane.
fn run<L, R>(rt: &R, alloc: Global, lane: &mut L, case: Case) -> Result<Duration>
where
    L: Lane + Send + Drop,
    R: Threads + Wait + Clock + Sync,
{
    match case {
        Case::Alone => one_alone(rt, lane)?.checked(sum_below(u64::from(ITEMS))),
        Case::Pairs(pairs) => {
            let outcome = together(rt, tasks_of(alloc, lane, pairs)?)?;
            outcome.checked(sum_of_shares(ITEMS, pairs))
        }
    }
}

fn ring_run<R>(rt: &R, alloc: Global, case: Case) -> Result<Duration>
where
    R: Threads + Wait + Clock + Sync,
{
    let (ring, pass) = Ring::<u64>::new(alloc, CAPACITY, 0)?;
    run(rt, alloc, &mut RingLane::new(&ring, pass), case)
}

fn queue_run<R>(rt: &R, alloc: Global, case: Case) -> Result<Duration>
where
    R: Threads + Wait + Clock + Sync,
{
    let queue = ArrayQueue::<u64>::new(alloc, CAPACITY)?;
    run(rt, alloc, &mut QueueLane::new(&queue), case)
}

/// Makes the runs of a case, ours and theirs in turn.
fn compare<R>(rt: &R, alloc: Global, case: Case) -> Result<Pair>
where
    R: Threads + Wait + Clock + Sync,
{
    let mut ours = [Duration::ZERO; RUNS];
    let mut theirs = [Duration::ZERO; RUNS];
    for run in 0..RUNS {
        ours[run] = ring_run(rt, alloc, case)?;
        theirs[run] = queue_run(rt, alloc, case)?;
    }
    Pair::of(&mut ours, &mut theirs)
}

/// Prints two lines for each case, of the best run and of the middle one.
pub fn measure<R>(rt: &R) -> Result<()>
where
    R: Threads + Wait + Clock + Print + AllocGlobal + Sync,
{
    for case in &CASES {
        let pair = compare(rt, rt.alloc(), *case)?;
        RIVALS.print(rt, case.name(), SAME, pair)?;
    }
    Ok(())
}
