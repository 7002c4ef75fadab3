//! What the errors of the queue and of rings say; those of lanes and of loss books are told in their own tests.
ghost use Rattle.alog_ring.specs.Known.{IsPassOf};

use crate::lane_tests::says;
use crate::ring_tests::ring_of;
use crate::swap_ring_tests::swap_ring_of;
use alog_core::{BeginError, StepError, WorldError};
use alog_ring::{
    NewError, Pass, PopError, PushError, Ring, SwapNewError, SwapPass, SwapPopError, SwapRing,
};
use std::alloc::{AllocError, Global};
use std::process::Abort;

const SIZE: &str = "the number of places is no power of two from 2 to 65,536";

const FIRST: &str = "the first ticket is not below 2^62";

const MEMORY: &str = "out of memory";

// A stepped queue that was not made.
fn no_world(rt: &impl Abort, alloc: Global) {
    for (error, wanted) in [
        (WorldError::BadSize, SIZE),
        (WorldError::BadFirst, FIRST),
        (WorldError::OutOfMemory, MEMORY),
    ] {
        says(rt, format!(in alloc; "{error}"), wanted);
    }
}

// A call of it that did not begin, and a step that was not made.
fn no_call(rt: &impl Abort, alloc: Global) {
    for (error, wanted) in [
        (BeginError::NoActor, "the actor is not from 0 to 63"),
        (BeginError::InCall, "the actor is in a call"),
    ] {
        says(rt, format!(in alloc; "{error}"), wanted);
    }
    for (error, wanted) in [
        (StepError::NoActor, "the actor is not from 0 to 63"),
        (StepError::NotInCall, "the actor is in no call"),
    ] {
        says(rt, format!(in alloc; "{error}"), wanted);
    }
}

// A ring that was not made, and a swap ring.
fn no_ring(rt: &impl Abort, alloc: Global) {
    for (why, wanted) in [
        (NewError::BadSize, SIZE),
        (NewError::BadFirst, FIRST),
        (NewError::OutOfMemory, MEMORY),
    ] {
        says(rt, format!(in alloc; "{why}"), wanted);
        let spares = Vec::<u64>::new(alloc);
        let error = SwapNewError { why, spares };
        says(rt, format!(in alloc; "{error}"), wanted);
    }
}

// A push that did not go through.
fn no_push(rt: &impl Abort, alloc: Global) {
    for (error, wanted) in [
        (
            PushError::Full {
                value: 1u64,
                next: 7,
            },
            "full at 7",
        ),
        (
            PushError::Busy {
                value: 1u64,
                seen: 8,
            },
            "busy at 8",
        ),
        (PushError::Spent { value: 1u64 }, "no ticket is left"),
    ] {
        says(rt, format!(in alloc; "{error}"), wanted);
    }
}

// A pop that did not go through.
fn no_pop(rt: &impl Abort, alloc: Global) {
    for (error, wanted) in [
        (PopError::Empty { next: 7 }, "empty at 7"),
        (PopError::Idle { next: 8 }, "idle at 8"),
        (PopError::Busy { seen: 9 }, "busy at 9"),
    ] {
        says(rt, format!(in alloc; "{error}"), wanted);
    }
}

// The same of a swap ring.
fn no_swap_pop(rt: &impl Abort, alloc: Global) {
    for (error, wanted) in [
        (
            SwapPopError::Empty {
                next: 7,
                spare: 1u64,
            },
            "empty at 7",
        ),
        (
            SwapPopError::Idle {
                next: 8,
                spare: 1u64,
            },
            "idle at 8",
        ),
        (
            SwapPopError::Busy {
                seen: 9,
                spare: 1u64,
            },
            "busy at 9",
        ),
    ] {
        says(rt, format!(in alloc; "{error}"), wanted);
    }
}

const OUT: &str = "not all passes are here";

// A ring of which a pass is out.
fn ring_is_open(rt: &impl Abort, alloc: Global, ring: Ring<u64>, pass: Pass<u64>)
    requires { IsPassOf ring pass }
{
    match ring.close(pass) {
        Ok(_) => panic!(rt; "a pass is out"),
        Err(out) => says(rt, format!(in alloc; "{out}"), OUT),
    }
}

// A swap ring of which a pass is out.
fn swap_ring_is_open(rt: &impl Abort, alloc: Global, ring: SwapRing<u64>, pass: SwapPass<u64>)
    requires { IsPassOf ring.ring pass }
{
    match ring.close(pass) {
        Ok(_) => panic!(rt; "a pass is out"),
        Err(out) => says(rt, format!(in alloc; "{out}"), OUT),
    }
}

// The same of both, whose passes are split.
fn no_end(rt: &impl Abort, alloc: Global) {
    let (ring, mut pass) = ring_of::<u64>(rt, alloc, 2, 0);
    let other = ring.split(&mut pass, 1);
    ring_is_open(rt, alloc, ring, pass);
    drop(other);
}

fn no_swap_end(rt: &impl Abort, alloc: Global, spares: Result<Vec<u64>, AllocError>) {
    let Ok(spares) = spares else {
        panic!(rt; "out of memory")
    };
    let (ring, mut pass) = swap_ring_of(rt, 2, 0, spares, alloc);
    let other = ring.split(&mut pass, 1);
    swap_ring_is_open(rt, alloc, ring, pass);
    drop(other);
}

#[test]
fn what_errors_say(rt: HostRuntime) {
    let alloc = rt.alloc();
    no_world(&rt, alloc);
    no_call(&rt, alloc);
    no_ring(&rt, alloc);
    no_push(&rt, alloc);
    no_pop(&rt, alloc);
    no_swap_pop(&rt, alloc);
    no_end(&rt, alloc);
    no_swap_end(&rt, alloc, vec![in alloc; 0u64; 2]);
}
