//! Want of memory of the stepped queue, and where a swap ring is made.
ghost use Rattle.alog_ring.specs.Known.{IsPassOf};

use crate::queue_tests::{Row, goes_on, world};
use crate::swap_ring_tests::{self, Deed, leaves};
use alog_core::{Call, CellView, Mark, Said, World};
use alog_ring::{NewError, SwapNewError, SwapPass, SwapRing};
use std::alloc::{AllocError, Global};
use std::process::Abort;

// How often a call has had no answer for want of memory: it may be wanting once.
fn is_wanting(rt: &impl Abort, wanting: &mut bool) {
    assert!(rt; !*wanting, "twice");
    *wanting = true;
}

// A new queue, where memory may be wanting once.
fn world_at_last(rt: &impl Abort, alloc: Global, wanting: &mut bool) -> World<u64> {
    if let Ok(made) = World::new(alloc, 4, 5) {
        return made;
    }
    is_wanting(rt, wanting);
    world(rt, alloc, 4, 5)
}

// The queue shows one written cell, where memory may be wanting once.
fn shows_its_cell(rt: &impl Abort, alloc: Global, world: &World<u64>, wanting: &mut bool) {
    let written = CellView {
        ticket: 5,
        mark: Mark::Written,
    };
    match world.cells(alloc) {
        Ok(cells) => assert!(rt; cells.as_slice() == [written].as_slice()),
        Err(AllocError) => is_wanting(rt, wanting),
    }
}

// And these words.
fn shows_its_words(rt: &impl Abort, alloc: Global, world: &World<u64>, wanting: &mut bool) {
    match world.words(alloc) {
        Ok(words) => assert!(rt; words.as_slice() == [6, 5, 8, 6, 6, 7].as_slice()),
        Err(AllocError) => is_wanting(rt, wanting),
    }
}

const PUSH: [Row<'_>; 1] = [(
    Call::Push(1, 10),
    &[Said::Nothing, Said::Nothing, Said::Claim(5), Said::Write(5)],
)];

const POP: [Row<'_>; 1] = [(
    Call::Pop(2),
    &[
        Said::Nothing,
        Said::Nothing,
        Said::Grab(5),
        Said::Take(5, 10),
    ],
)];

// Where memory is wanting once, one of these calls has no answer, and the next finds the queue as it was.
#[test]
fn want_of_memory(rt: HostRuntime) {
    let mut wanting = false;
    let mut world = world_at_last(&rt, rt.alloc(), &mut wanting);
    goes_on(&rt, &mut world, &PUSH);
    for _ in 0..2 {
        shows_its_cell(&rt, rt.alloc(), &world, &mut wanting);
        shows_its_words(&rt, rt.alloc(), &world, &mut wanting);
    }
    goes_on(&rt, &mut world, &POP);
}

// Two spares, where memory may be wanting once.
fn spares_at_last(rt: &impl Abort, alloc: Global, wanting: &mut bool) -> Vec<u64> {
    if let Ok(spares) = vec![in alloc; 100, 101] {
        return spares;
    }
    is_wanting(rt, wanting);
    match vec![in alloc; 100, 101] {
        Ok(spares) => spares,
        Err(_) => panic!(rt; "twice"),
    }
}

// A swap ring of two places with these spares, where memory may be wanting once: the spares come back then.
fn swap_ring_at_last(
    rt: &impl Abort,
    alloc: Global,
    spares: Vec<u64>,
    wanting: &mut bool,
) -> (SwapRing<u64>, SwapPass<u64>)
    ensures { IsPassOf result.0.ring result.1 }
{
    let spares = match SwapRing::<u64>::new(alloc, 2, 5, spares) {
        Ok(made) => return made,
        Err(SwapNewError { why, spares }) => {
            assert!(rt; why == NewError::OutOfMemory && spares.as_slice() == [100, 101].as_slice());
            spares
        }
    };
    is_wanting(rt, wanting);
    match SwapRing::<u64>::new(alloc, 2, 5, spares) {
        Ok(made) => made,
        Err(_) => panic!(rt; "twice"),
    }
}

const SWAPS: [Deed; 2] = [Deed::In(7, Ok((5, 101))), Deed::Out(102, Ok((5, 7)))];

// Where memory is wanting once as a swap ring is made, its spares come back, and it is made of them.
#[test]
fn want_of_memory_for_a_swap_ring(rt: HostRuntime) {
    let mut wanting = false;
    let spares = spares_at_last(&rt, rt.alloc(), &mut wanting);
    let (ring, mut pass) = swap_ring_at_last(&rt, rt.alloc(), spares, &mut wanting);
    swap_ring_tests::goes_on(&rt, &ring, &mut pass, &SWAPS);
    leaves(&rt, ring, pass, &[], &[100, 102]);
}
