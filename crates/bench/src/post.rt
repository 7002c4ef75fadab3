//! Measures `post_now` of `alog_policy` on a port beside the bare `push_once` of `alog_ring`, in the same run, where nothing is
//! lost.
//!
//! It prints the nanoseconds that a value takes by each, and their ratio. Read `poster.rt` (a ring as one thread sees it) and
//! `work.rt` (the loops, which are the same for both).
mod poster;
mod work;

use crate::post::poster::{PortPoster, Poster};
use crate::post::work::{BATCH, Task, alone};
use crate::ring_lane::RingLane;
use crate::rivals::{Pair, Rivals};
use crate::threads::{share, sum_below, sum_of_shares, together};
use alog_policy::{LossBook, Policy};
use alog_ring::Ring;
use anyhow::Result;
use std::alloc::Global;
use std::rt::Clock;
use std::sync::Wait;
use std::thread::Threads;
use std::time::Duration;

/// As many as a ring can have: more than the values of a run, so that it is never full.
const PLACES: usize = 65_536;

/// The values of a run, over all its threads.
const VALUES: u32 = 61_440;

/// The batches of a run on one thread, of 512 values each.
const BATCHES: u64 = 120;

/// The runs of each in a case, in turn.
const RUNS: usize = 31;

/// How many threads bring values in, and the policy of their posts.
#[derive(Clone, Copy)]
struct Case {
    name: &'static str,
    threads: u32,
    policy: Policy,
}

const CASES: [Case; 9] = [
    Case {
        name: "threads 1  block         ",
        threads: 1,
        policy: Policy::Block,
    },
    Case {
        name: "threads 1  overrun_oldest",
        threads: 1,
        policy: Policy::OverrunOldest,
    },
    Case {
        name: "threads 1  discard_new   ",
        threads: 1,
        policy: Policy::DiscardNew,
    },
    Case {
        name: "threads 2  block         ",
        threads: 2,
        policy: Policy::Block,
    },
    Case {
        name: "threads 2  overrun_oldest",
        threads: 2,
        policy: Policy::OverrunOldest,
    },
    Case {
        name: "threads 2  discard_new   ",
        threads: 2,
        policy: Policy::DiscardNew,
    },
    Case {
        name: "threads 4  block         ",
        threads: 4,
        policy: Policy::Block,
    },
    Case {
        name: "threads 4  overrun_oldest",
        threads: 4,
        policy: Policy::OverrunOldest,
    },
    Case {
        name: "threads 4  discard_new   ",
        threads: 4,
        policy: Policy::DiscardNew,
    },
];

const RIVALS: Rivals = Rivals {
    ours: "post_now",
    theirs: "push_once",
    count: VALUES,
};

/// A task that brings values in, for each thread, and the one that takes them out.
fn tasks_of<'a, P>(
    alloc: Global,
    poster: &mut P,
    taker: RingLane<'a>,
    threads: u32,
) -> Result<Vec<Task<'a, P>>>
where
    P: Poster + Drop,
{
    let count = share(VALUES, threads);
    let mut tasks = Vec::new(alloc);
    for _ in 0..threads {
        let poster = poster.another()?;
        tasks.push(Task::Post { poster, count })?;
    }
    let count = count.wrapping_mul(u64::from(threads));
    tasks.push(Task::Take { lane: taker, count })?;
    Ok(tasks)
}

/// The time of a run by this poster, whose values the taker takes out.
fn run<P, R>(
    rt: &R,
    alloc: Global,
    poster: &mut P,
    mut taker: RingLane<'_>,
    threads: u32,
) -> Result<Duration>
where
    P: Poster + Send + Drop,
    R: Threads + Wait + Clock + Sync,
{
    if threads == 1 {
        let wanted = sum_below(BATCH).wrapping_mul(BATCHES);
        return alone(rt, poster, &mut taker, BATCHES)?.checked(wanted);
    }
    let tasks = tasks_of(alloc, poster, taker, threads)?;
    together(rt, tasks)?.checked(sum_of_shares(VALUES, threads))
}

fn push_run<R>(rt: &R, alloc: Global, threads: u32) -> Result<Duration>
where
    R: Threads + Wait + Clock + Sync,
{
    let (ring, mut pass) = Ring::<u64>::new(alloc, PLACES, 0)?;
    let taker = RingLane::new(&ring, ring.split(&mut pass, 1));
    run(rt, alloc, &mut RingLane::new(&ring, pass), taker, threads)
}

fn post_run<R>(rt: &R, alloc: Global, case: Case) -> Result<Duration>
where
    R: Threads + Wait + Clock + Sync,
{
    let (book, seat) = LossBook::new(alloc)?;
    let (ring, mut pass) = Ring::<u64>::new(alloc, PLACES, 0)?;
    let taker = RingLane::new(&ring, ring.split(&mut pass, 1));
    let mut poster = PortPoster::new(&ring, pass, &book, seat, case.policy);
    run(rt, alloc, &mut poster, taker, case.threads)
}

/// Makes the runs of a case, ours and theirs in turn.
fn compare<R>(rt: &R, alloc: Global, case: Case) -> Result<Pair>
where
    R: Threads + Wait + Clock + Sync,
{
    let mut ours = [Duration::ZERO; RUNS];
    let mut theirs = [Duration::ZERO; RUNS];
    for run in 0..RUNS {
        ours[run] = post_run(rt, alloc, case)?;
        theirs[run] = push_run(rt, alloc, case.threads)?;
    }
    Pair::of(&mut ours, &mut theirs)
}

/// Prints two lines for each number of threads and each policy, of the best run and of the middle one.
pub fn measure<R>(rt: &R) -> Result<()>
where
    R: Threads + Wait + Clock + Print + AllocGlobal + Sync,
{
    for case in &CASES {
        let pair = compare(rt, rt.alloc(), *case)?;
        RIVALS.print(rt, case.name, case.name, pair)?;
    }
    Ok(())
}
