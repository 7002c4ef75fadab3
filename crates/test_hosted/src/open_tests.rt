//! Pools that are refused, and pools whose tickets come to their end.
use crate::rows::{Deed, ONE, Row, Told, holds};
use crate::trial::{NEVER, PLAIN, Plan, Trial, setup_of};
use alog_hosted::{Host, Pause};
use alog_policy::Policy;
use alog_pool::StartError;
use std::alloc::Global;
use std::process::Abort;

/// A pool with a queue of so many places, this first ticket and so many workers.
fn of(queue: usize, first: u64, workers: usize) -> Plan {
    Plan {
        queue,
        first,
        workers,
        ..PLAIN
    }
}

/// What the opening of a pool of this plan is refused for; `None` where it is not.
fn refusal(rt: &impl Abort, alloc: Global, plan: Plan) -> Option<StartError> {
    let Ok(setup) = setup_of(alloc, plan, &[&[0]], &[NEVER]) else {
        panic!(rt; "no memory")
    };
    match Host::open(alloc, setup) {
        Ok((hosted, host)) => {
            Trial::of(rt, alloc, hosted, host, 0, 0).end(rt);
            None
        }
        Err(error) => Some(error),
    }
}

/// The first ticket that is none.
const END: u64 = 1 << 62;

/// Queues, first tickets and numbers of workers, and what each is refused for.
static REFUSED: [(usize, u64, usize, Option<StartError>); 13] = [
    (3, END, 0, Some(StartError::BadWorkers)),
    (3, END, 65, Some(StartError::BadWorkers)),
    (8, 0, usize::MAX, Some(StartError::BadWorkers)),
    (0, END, 1, Some(StartError::BadSize)),
    (1, END, 64, Some(StartError::BadSize)),
    (3, 0, 1, Some(StartError::BadSize)),
    (65_537, 0, 1, Some(StartError::BadSize)),
    (131_072, 0, 1, Some(StartError::BadSize)),
    (2, END, 1, Some(StartError::BadFirst)),
    (8, u64::MAX, 64, Some(StartError::BadFirst)),
    (2, END - 1, 1, None),
    (2, 0, 64, None),
    (8, 7, 1, None),
];

/// A pool is refused for its number of workers, or else for the size of its queue, or else for its first ticket.
#[test]
fn refused_pools(rt: HostRuntime) {
    for (queue, first, workers, wanted) in &REFUSED {
        let found = refusal(&rt, rt.alloc(), of(*queue, *first, *workers));
        assert!(rt; found == *wanted, "{queue} {first} {workers}: {found:?}");
    }
}

/// The last ticket of all.
const LAST: u64 = END - 1;

/// A queue of four places that has tickets for two items.
const TWO_TICKETS: Plan = Plan {
    queue: 4,
    first: LAST - 1,
    ..PLAIN
};

static SPENT: Row<'static> = Row {
    plan: TWO_TICKETS,
    deeds: &[
        Deed::Says(0, "a", Told::Posted(LAST - 1)),
        Deed::Says(0, "b", Told::Posted(LAST)),
        Deed::Says(0, "c", Told::Spent),
        Deed::Works(0, 1, 1, Pause::Done),
        Deed::Says(0, "d", Told::Spent),
        Deed::Flushes(0, Told::Spent),
        Deed::Works(0, 9, 1, Pause::Idle),
        Deed::Works(0, 9, 0, Pause::Idle),
        Deed::Says(0, "e", Told::Spent),
    ],
    totals: (6, 4, 0),
    tickets: &[&[LAST - 1, LAST]],
    files: &[b"a\nb\n"],
    ..ONE
};

/// Where no ticket is left, a log of a logger that blocks is discarded and counted: nobody would ever make room for it.
#[test]
fn the_last_tickets_are_used_up(rt: HostRuntime) {
    holds(&rt, rt.alloc(), &SPENT);
}

static SPENT_AND_LEFT: Row<'static> = Row {
    plan: TWO_TICKETS,
    workers: 0,
    deeds: &[
        Deed::Says(0, "a", Told::Posted(LAST - 1)),
        Deed::Says(0, "b", Told::Posted(LAST)),
        Deed::Says(0, "c", Told::Spent),
    ],
    totals: (3, 1, 0),
    tickets: &[],
    files: &[b"a\nb\n"],
    ..ONE
};

/// What has the last tickets of all is handed out at the end as all else is.
#[test]
fn what_has_the_last_tickets_is_handed_out(rt: HostRuntime) {
    holds(&rt, rt.alloc(), &SPENT_AND_LEFT);
}

static SPENT_FULL: Row<'static> = Row {
    plan: Plan {
        queue: 2,
        first: LAST - 2,
        ..PLAIN
    },
    deeds: &[
        Deed::Says(0, "a", Told::Posted(LAST - 2)),
        Deed::Says(0, "b", Told::Posted(LAST - 1)),
        Deed::Says(0, "c", Told::Blocks),
        Deed::Works(0, 1, 1, Pause::Done),
        Deed::Says(0, "c", Told::Posted(LAST)),
        Deed::Says(0, "d", Told::Spent),
    ],
    totals: (4, 1, 0),
    tickets: &[&[LAST - 2]],
    files: &[b"a\nb\nc\n"],
    ..ONE
};

/// While a ticket is left, a log of a logger that blocks would block where there is no room; and then it is discarded.
#[test]
fn a_full_queue_with_a_ticket_left_would_block(rt: HostRuntime) {
    holds(&rt, rt.alloc(), &SPENT_FULL);
}

static SPENT_OVERRUN: Row<'static> = Row {
    plan: Plan {
        queue: 2,
        policy: Policy::OverrunOldest,
        ..TWO_TICKETS
    },
    deeds: &[
        Deed::Says(0, "a", Told::Posted(LAST - 1)),
        Deed::Says(0, "b", Told::Posted(LAST)),
        Deed::Says(0, "c", Told::Spent),
        Deed::Works(0, 9, 2, Pause::Idle),
    ],
    totals: (3, 1, 0),
    tickets: &[&[LAST - 1, LAST]],
    files: &[b"a\nb\n"],
    ..ONE
};

/// Where no ticket is left, a logger that overruns the oldest takes nothing out.
#[test]
fn nothing_is_overrun_without_a_ticket(rt: HostRuntime) {
    holds(&rt, rt.alloc(), &SPENT_OVERRUN);
}
