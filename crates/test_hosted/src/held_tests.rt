//! A lock that another worker has: the first worker is in the store of the first sink, while the second one works.
ghost use Rattle.std.specs.Prelude.{◌≡◌, IfOk};
ghost use Rattle.std.specs.List.{AllByRecursion};
ghost use Rattle.alog_hosted.specs.Workers.{IsWorkerOf};
ghost use Rattle.alog_pattern.specs.declared.patterns.TheConstants.{LINE_MAX};
ghost use Rattle.alog_sink.specs.Sinks.{Suits};
ghost use Rattle.test_hosted.specs.declared.sinks.TheConstants.{TEXT_LIMIT};

use crate::flags::{Flags, has_begun, lowered, open, was_held};
use crate::reports::{has_faults, has_tickets, has_totals};
use crate::rows::{Deed, Told, do_all};
use crate::stores::{Reserved, has_lines, two_sinks};
use crate::trial::{PLAIN, Plan, Trial, setup_over, work_some};
use alog_hosted::{Hosted, HostedWorker, Pause, Work};
use alog_msg::Level;
use alog_pool::Report;
use alog_sink::Sink;
use std::alloc::{AllocError, Global};
use std::process::Abort;
use std::sync::Arc;
use std::thread::{self, Threads};

/// Two workers.
const PAIR: Plan = Plan {
    workers: 2,
    ..PLAIN
};

/// The first logger has the first sink, and the second logger has the second sink and then the first.
const ROUTES: &[&[u32]] = &[&[0], &[1, 0]];

/// What is done before the first worker is held, and when it was let go on, and what the pool reports.
struct Row<'a> {
    /// The number of the append in which the first worker is held.
    stays_at: u64,
    before: &'a [Deed<'a>],
    after: &'a [Deed<'a>],
    totals: (u64, u64, u64),
    tickets: &'a [&'a [u64]],
    /// The lines of the first store, and of the second.
    first: &'a [u8],
    second: &'a [u8],
    /// How often each was flushed.
    flushes: (u64, u64),
}

/// A sink whose store holds a worker, and another.
fn sinks(
    alloc: Global,
    flags: &Arc<Flags>,
    stays_at: u64,
) -> Result<Vec<Sink<Reserved>>, AllocError>
    ensures { IfOk result (λ v. AllByRecursion (Suits TEXT_LIMIT LINE_MAX) v.items) }
{
    let one = Reserved::staying(alloc, flags, stays_at)?;
    two_sinks(alloc, one, Reserved::new(alloc)?)
}

/// A worker says this.
fn says(rt: &impl Abort, work: Work, items: usize, pause: Pause) {
    assert!(rt; work == Work { items, pause }, "{work:?}");
}

/// The first worker ends an item. The second one begins when the first is in its store, is held at each of two calls, and lets it go on.
fn works_beside(
    rt: &impl Abort,
    hosted: &Hosted<Reserved>,
    number: usize,
    worker: &mut HostedWorker<Reserved>,
    flags: &Flags,
)
    requires { IsWorkerOf hosted.now worker.old }
    ensures { IsWorkerOf hosted.now worker.new }
{
    if number == 0 {
        says(rt, work_some(worker, hosted, 1), 1, Pause::Done);
        return;
    }
    has_begun(rt, flags);
    says(rt, work_some(worker, hosted, 9), 0, Pause::Held);
    says(rt, work_some(worker, hosted, 9), 0, Pause::Held);
    open(flags);
}

/// Both do so, each on a thread of its own.
fn work_all<R: Abort + Threads + Sync>(
    rt: &R,
    hosted: &Hosted<Reserved>,
    workers: &mut Vec<HostedWorker<Reserved>>,
    flags: &Flags,
)
    requires { AllByRecursion (IsWorkerOf hosted.now) workers.old.items }
    ensures { AllByRecursion (IsWorkerOf hosted.now) workers.new.items }
{
    thread::for_each_mut(
        rt,
        workers.as_mut_slice(),
        2,
        &|number, worker: &mut HostedWorker<Reserved>|
            requires { IsWorkerOf hosted.now worker.now }
            ensures { IsWorkerOf hosted.entry.now worker.exit.now }
        { works_beside(rt, hosted, number, worker, flags) },
    );
}

/// The workers of this pool do so.
fn beside<R: Abort + Threads + Sync>(
    rt: &R,
    trial: Trial<Reserved>,
    flags: &Flags,
) -> Trial<Reserved> {
    let Trial {
        host,
        hosted,
        producers,
        mut workers,
    } = trial;
    work_all(rt, &hosted, &mut workers, flags);
    Trial {
        host,
        hosted,
        producers,
        workers,
    }
}

/// The report says what the row does.
fn is_reported(rt: &impl Abort, report: &Report<Reserved>, row: &Row<'_>) {
    has_totals(rt, report, row.totals);
    has_tickets(rt, report, row.tickets);
    has_faults(rt, report, &[0, 0]);
    has_lines(rt, report, 0, row.first, row.flushes.0);
    has_lines(rt, report, 1, row.second, row.flushes.1);
}

/// A pool of this row does and reports what it says.
fn holds<R: Abort + Threads + Sync>(rt: &R, alloc: Global, row: &Row<'_>) {
    let flags = lowered(rt, alloc);
    let setup = setup_over(alloc, PAIR, ROUTES, sinks(alloc, &flags, row.stays_at));
    let mut trial = Trial::open(rt, alloc, setup, 1, 2);
    do_all(rt, alloc, &mut trial, row.before);
    let mut trial = beside(rt, trial, &flags);
    was_held(rt, &flags);
    do_all(rt, alloc, &mut trial, row.after);
    is_reported(rt, &trial.end(rt), row);
}

/// A text to the first sink, and two to both.
const THREE: &[Deed<'_>] = &[
    Deed::Logs(0, 0, Level::Info, "a", Told::Posted(0)),
    Deed::Logs(0, 1, Level::Info, "b", Told::Posted(1)),
    Deed::Logs(0, 1, Level::Info, "c", Told::Posted(2)),
];

static GOES_ON: Row<'static> = Row {
    stays_at: 0,
    before: THREE,
    after: &[Deed::Works(1, 9, 2, Pause::Idle)],
    totals: (3, 0, 0),
    tickets: &[&[0], &[1, 2]],
    first: b"a\nb\nc\n",
    second: b"b\nc\n",
    flushes: (2, 2),
};

/// Where another worker has the lock of a sink, an item stays half done with its worker, which goes on with it when the lock is free: no line is
/// lost, and none is written twice.
#[test]
fn a_worker_goes_on_with_a_half_done_item(rt: HostRuntime) {
    holds(&rt, rt.alloc(), &GOES_ON);
}

static ENDS: Row<'static> = Row {
    stays_at: 0,
    before: THREE,
    after: &[],
    totals: (3, 0, 0),
    tickets: &[&[0], &[1]],
    first: b"a\nb\nc\n",
    second: b"b\nc\n",
    flushes: (1, 1),
};

/// An item that a worker brings back half done is ended by the pool, before what is left in the queue.
#[test]
fn a_half_done_item_is_ended_by_the_pool(rt: HostRuntime) {
    holds(&rt, rt.alloc(), &ENDS);
}

static FLUSHES: Row<'static> = Row {
    stays_at: 1,
    before: &[
        Deed::Says(0, "a", Told::Posted(0)),
        Deed::Works(1, 1, 1, Pause::Done),
        Deed::Says(0, "b", Told::Posted(1)),
    ],
    after: &[
        Deed::Works(1, 9, 0, Pause::Idle),
        Deed::Works(1, 9, 0, Pause::Idle),
    ],
    totals: (2, 0, 0),
    tickets: &[&[1], &[0]],
    first: b"a\nb\n",
    second: b"",
    flushes: (2, 1),
};

/// A worker that finds nothing, and can not flush what it wrote since another worker has the lock, says that it is held. It flushes once the lock is
/// free.
#[test]
fn a_worker_that_can_not_flush_is_held(rt: HostRuntime) {
    holds(&rt, rt.alloc(), &FLUSHES);
}
