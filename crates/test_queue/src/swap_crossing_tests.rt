//! Values that go from thread to thread through a swap ring, and the spares that are got for them.
ghost use Rattle.alog_ring.specs.Known.{IsPassOf};

use crate::crossing_tests::{Numbers, are_from, gathered};
use crate::swap_ring_tests::swap_ring_of;
use alog_ring::{PushError, SwapPass, SwapPopError, SwapRing};
use std::alloc::{AllocError, Global};
use std::process::Abort;
use std::sync::Wait;
use std::thread::{self, Threads};

// How many values each thread brings, and the spares that are there: those that are brought, and behind them one for each place.
const COUNT: u64 = 1_000;

const BROUGHT: u64 = 10_000;

const FIRSTS: u64 = BROUGHT + 2 * COUNT;

const PLACES: u64 = 8;

// A ring, and a pass of it.
#[derive(Drop)]
pub(crate) struct Worker<'a> {
    pub(crate) ring: &'a SwapRing<u64>,
    pub(crate) pass: SwapPass<u64>,
    ghost fits: { IsPassOf ring.now.ring pass },
}

// Pushes until the ring takes the value, and answers the spare. A refusal hands the value back, and not another.
fn swap_in_until(
    rt: &impl Wait,
    ring: &SwapRing<u64>,
    pass: &mut SwapPass<u64>,
    value: u64,
) -> Option<u64>
    requires { IsPassOf ring.now.ring pass.old }
    ensures { IsPassOf ring.now.ring pass.new }
{
    for _ in rt.forever() {
        let back = match ring.push_swap(pass, value) {
            Ok((_, spare)) => return Some(spare),
            Err(
                PushError::Full { value, .. }
                | PushError::Busy { value, .. }
                | PushError::Spent { value },
            ) => value,
        };
        if back != value {
            return None;
        }
        thread::yield_now();
    }
    unreachable!()
}

// Pops until there is a value. A refusal hands the spare back, and not another.
fn swap_out_until(
    rt: &impl Wait,
    ring: &SwapRing<u64>,
    pass: &mut SwapPass<u64>,
    spare: u64,
) -> Option<u64>
    requires { IsPassOf ring.now.ring pass.old }
    ensures { IsPassOf ring.now.ring pass.new }
{
    for _ in rt.forever() {
        let back = match ring.pop_swap(pass, spare) {
            Ok((_, value)) => return Some(value),
            Err(
                SwapPopError::Empty { spare, .. }
                | SwapPopError::Idle { spare, .. }
                | SwapPopError::Busy { spare, .. },
            ) => spare,
        };
        if back != spare {
            return None;
        }
        thread::yield_now();
    }
    unreachable!()
}

/// A worker, whether it brings values or spares, and the first of these.
#[derive(Drop)]
struct Job<'a> {
    worker: Worker<'a>,
    is_pushing: bool,
    from: u64,
}

/// Does a job.
fn work(rt: &impl Wait, alloc: Global, job: Job<'_>) -> Numbers {
    let Job {
        worker,
        is_pushing,
        from,
    } = job;
    let Worker { ring, mut pass } = worker;
    let mut all = Vec::new(alloc);
    for number in from..from.saturating_add(COUNT) {
        let got = if is_pushing {
            swap_in_until(rt, ring, &mut pass, number)
        } else {
            swap_out_until(rt, ring, &mut pass, number)
        };
        match got {
            Some(got) => all.push(got)?,
            None => break,
        }
    }
    Ok(all)
}

/// The spares that lie in the places at first.
fn first_spares(alloc: Global) -> Numbers {
    let mut spares = Vec::new(alloc);
    for spare in FIRSTS..FIRSTS + PLACES {
        spares.push(spare)?;
    }
    Ok(spares)
}

/// What four threads get: two bring values, and two spares.
fn answers(
    rt: &(impl Abort + Threads + Wait + Sync),
    alloc: Global,
) -> Result<Vec<Numbers>, AllocError> {
    let (ring, mut pass) = swap_ring_of(rt, 8, (1 << 62) - 4000, first_spares(alloc)?, alloc);
    let ring = &ring;
    let second = Worker {
        ring,
        pass: ring.split(&mut pass, 1),
    };
    let third = Worker {
        ring,
        pass: ring.split(&mut pass, 1),
    };
    let fourth = Worker {
        ring,
        pass: ring.split(&mut pass, 1),
    };
    let first = Worker { ring, pass };
    let jobs = vec![in alloc;
        Job {
            worker: first,
            is_pushing: true,
            from: 0
        },
        Job {
            worker: second,
            is_pushing: true,
            from: COUNT
        },
        Job {
            worker: third,
            is_pushing: false,
            from: BROUGHT
        },
        Job {
            worker: fourth,
            is_pushing: false,
            from: BROUGHT + COUNT
        },
    ]?;
    thread::map_vec(rt, jobs, &|job: Job<'_>| work(rt, alloc, job))
}

/// Spares are got once each, of those that were brought, and all that lay in the places at first.
fn are_spares(rt: &impl Abort, got: &[u64]) {
    let mut least = BROUGHT;
    let mut firsts = 0_u64;
    for spare in got {
        assert!(rt; *spare >= least);
        least = spare.wrapping_add(1);
        if *spare >= FIRSTS {
            firsts = firsts.wrapping_add(1);
        }
    }
    assert!(rt; got.len() == 2 * COUNT as usize && (firsts, least) == (PLACES, FIRSTS + PLACES));
}

#[test]
fn two_threads_swap_in_and_two_swap_out(rt: HostRuntime) {
    let alloc = rt.alloc();
    let Ok(answers) = answers(&rt, alloc) else {
        panic!(rt; "out of memory")
    };
    let (spares, values) = answers.split_at(answers.len() / 2);
    are_spares(&rt, &gathered(&rt, alloc, spares));
    are_from(&rt, &gathered(&rt, alloc, values), 0, 2 * COUNT as usize);
}
