//! A pool that is refused, and pools at their limits.
use crate::producer_tests::of_producers;
use crate::rows::{Deed, End, ONE, Row, Told, holds};
use crate::shutdown_tests::ended;
use crate::trial::{NEVER, PLAIN, Plan, setup_of};
use alog_msg::Level;
use alog_pool::{OpenGate, PRODUCERS_MAX, Pool, StartError};
use std::alloc::Global;
use std::process::Abort;
use std::sync::Wait;
use std::thread::Threads;
use std::time::Clock;

// A pool with a queue of so many places, this first ticket and so many workers.
fn of(queue: usize, first: u64, workers: usize) -> Plan {
    Plan {
        queue,
        first,
        workers,
        ..PLAIN
    }
}

// A pool of this plan is refused so.
fn is_refused<R: Abort + Threads + Wait + Clock + Clone + Drop + Send + 'static>(
    rt: &R,
    alloc: Global,
    plan: Plan,
    wanted: StartError,
) {
    let Ok(setup) = setup_of(alloc, plan, &[&[0]], &[NEVER]) else {
        panic!(rt; "out of memory")
    };
    match Pool::start(rt, alloc, setup, OpenGate) {
        Ok(_) => panic!(rt; "a pool"),
        Err(error) => assert!(rt; error == wanted),
    }
}

#[test]
fn refused_pools(rt: HostRuntime) {
    for (queue, first, workers, wanted) in [
        (3, 1 << 62, 0, StartError::BadWorkers),
        (2, 0, 65, StartError::BadWorkers),
        (3, 1 << 62, 64, StartError::BadSize),
        (2, 1 << 62, 1, StartError::BadFirst),
    ] {
        is_refused(&rt, rt.alloc(), of(queue, first, workers), wanted);
    }
}

// The last ticket of all.
const LAST: u64 = (1 << 62) - 1;

// Pools whose tickets come to their end.
static SPENT: [Row<'static>; 4] = [
    // The queue has two places and tickets for four texts, so the last two are posted only where a worker takes items. It ends when
    // no ticket is left.
    Row {
        plan: Plan {
            queue: 2,
            first: LAST - 3,
            ..PLAIN
        },
        producers: 2,
        deeds: &[
            Deed::Logs(0, 0, Level::Info, "a", Told::Posted(LAST - 3)),
            Deed::Logs(1, 0, Level::Info, "b", Told::Posted(LAST - 2)),
            Deed::Logs(0, 0, Level::Info, "c", Told::Posted(LAST - 1)),
            Deed::Logs(1, 0, Level::Info, "d", Told::Posted(LAST)),
            Deed::Logs(0, 0, Level::Info, "e", Told::Spent),
        ],
        totals: (5, 1),
        tickets: &[LAST - 3, LAST - 2, LAST - 1, LAST],
        files: &[b"a\nb\nc\nd\n"],
        ..ONE
    },
    // The last two tickets: the text has one and a stop the other, at which one of two workers ends, and the other since no ticket
    // is left.
    Row {
        plan: Plan {
            queue: 2,
            first: LAST - 1,
            workers: 2,
            ..PLAIN
        },
        deeds: &[Deed::Logs(0, 0, Level::Info, "a", Told::Posted(LAST - 1))],
        totals: (1, 0),
        files: &[b"a\n"],
        ..ONE
    },
    // The last ticket: the next text is discarded, and the worker ends without a stop.
    Row {
        plan: Plan {
            queue: 2,
            first: LAST,
            ..PLAIN
        },
        deeds: &[
            Deed::Logs(0, 0, Level::Info, "a", Told::Posted(LAST)),
            Deed::Logs(0, 0, Level::Info, "b", Told::Spent),
        ],
        totals: (2, 1),
        tickets: &[LAST],
        files: &[b"a\n"],
        ..ONE
    },
    // A pool makes 4,096 producers, and no further one. Its only ticket is used up, so that its worker ends; at the end all producers
    // come back.
    Row {
        plan: Plan {
            queue: 2,
            first: LAST,
            ..PLAIN
        },
        producers: PRODUCERS_MAX as usize,
        deeds: &[Deed::Logs(0, 0, Level::Info, "a", Told::Posted(LAST))],
        totals: (1, 0),
        tickets: &[LAST],
        files: &[b"a\n"],
        end: End::Full,
        ..ONE
    },
];

fn spent() -> &'static [Row<'static>] {
    &SPENT
}

// Pools by all rows. A function that holds a table is dear where it does more.
#[test]
fn pools_and_their_reports(rt: HostRuntime) {
    for rows in [spent(), of_producers(), ended()] {
        for row in rows {
            holds(&rt, rt.alloc(), row);
        }
    }
}
