//! Want of memory, for runs in which one allocation fails, as `rt try --test --fail-alloc` makes it. Whichever that is, the call that meets it
//! answers that memory is wanting and leaves all as it was, and the next one of its kind is as ever: the numbers of producers and workers go on, and
//! the pool does and reports the same; what was kept is dumped whole. Workers and the end of a pool take no memory, nor does a log that keeps nothing.
ghost use Rattle.std.specs.Prelude.{◌≡◌, IfOk};
ghost use Rattle.std.specs.List.{AllByRecursion};
ghost use Rattle.alog_pattern.specs.declared.patterns.TheConstants.{LINE_MAX};
ghost use Rattle.alog_pool.specs.Pool.{Fits};
ghost use Rattle.alog_sink.specs.Sinks.{Suits};
ghost use Rattle.test_hosted.specs.declared.sinks.TheConstants.{TEXT_LIMIT};

use crate::reports::{has_faults, has_tickets, has_totals};
use crate::rows::{Deed, Told, do_all};
use crate::stores::{Reserved, has_lines, two_sinks};
use crate::trial::{PLAIN, Plan, Trial, setup_over};
use alog_hosted::{Host, Pause};
use alog_msg::Level;
use alog_pool::{Report, Setup, StartError};
use alog_sink::Sink;
use std::alloc::{AllocError, Global};
use std::process::Abort;

/// What is kept: its copy takes memory of its own.
const TEXT: &str = "a request of more than seventy bytes, which do not lie in a message itself";

/// The lines of each store.
const LINES: &[u8] =
    b"a request of more than seventy bytes, which do not lie in a message itself\nb\nc\n\
=== backtrace start ===\nb\nc\n=== backtrace end ===\n";

/// Three workers and a backtrace of two messages.
const PLAN: Plan = Plan {
    workers: 3,
    backtrace: 2,
    ..PLAIN
};

/// Two sinks.
fn sinks(alloc: Global) -> Result<Vec<Sink<Reserved>>, AllocError>
    ensures { IfOk result (λ v. AllByRecursion (Suits TEXT_LIMIT LINE_MAX) v.items) }
{
    let one = Reserved::new(alloc)?;
    two_sinks(alloc, one, Reserved::new(alloc)?)
}

/// A setup, made again where memory was wanting.
fn setup_again(rt: &impl Abort, alloc: Global) -> Setup<Reserved>
    ensures { Fits result }
{
    if let Ok(setup) = setup_over(alloc, PLAN, &[&[0, 1]], sinks(alloc)) {
        return setup;
    }
    match setup_over(alloc, PLAN, &[&[0, 1]], sinks(alloc)) {
        Ok(setup) => setup,
        Err(_) => panic!(rt; "no memory"),
    }
}

/// A pool, opened again where memory was wanting, with two producers and three workers.
fn pool_again(rt: &impl Abort, alloc: Global) -> Trial<Reserved> {
    match Host::open(alloc, setup_again(rt, alloc)) {
        Ok((hosted, host)) => Trial::of(rt, alloc, hosted, host, 2, 3),
        Err(error) => {
            assert!(rt; error == StartError::OutOfMemory);
            Trial::open(rt, alloc, Ok(setup_again(rt, alloc)), 2, 3)
        }
    }
}

/// What is done.
static DEEDS: [Deed<'static>; 9] = [
    Deed::HiresNone,
    Deed::Logs(0, 0, Level::Debug, TEXT, Told::Below(Level::Info, true)),
    Deed::Logs(1, 0, Level::Info, TEXT, Told::Kept(0)),
    Deed::Works(2, 1, 1, Pause::Done),
    Deed::Says(0, "b", Told::Kept(1)),
    Deed::Flushes(1, Told::Posted(2)),
    Deed::Works(0, 9, 2, Pause::Idle),
    Deed::Says(1, "c", Told::Kept(3)),
    Deed::Dumps(
        0,
        0,
        &[
            Told::Posted(4),
            Told::Posted(5),
            Told::Posted(6),
            Told::Posted(7),
        ],
    ),
];

/// What such a pool reports.
fn is_reported(rt: &impl Abort, report: &Report<Reserved>) {
    has_totals(rt, report, (8, 0, 0));
    has_tickets(rt, report, &[&[1, 2], &[], &[0]]);
    has_faults(rt, report, &[0, 0]);
    has_lines(rt, report, 0, LINES, 2);
    has_lines(rt, report, 1, LINES, 2);
}

/// It does so, and reports that.
fn holds(rt: &impl Abort, alloc: Global) {
    let mut trial = pool_again(rt, alloc);
    do_all(rt, alloc, &mut trial, &DEEDS);
    is_reported(rt, &trial.end(rt));
}

/// Whichever allocation fails, all calls do and answer the same once they are made again.
#[test]
fn want_of_memory(rt: HostRuntime) {
    holds(&rt, rt.alloc());
}
