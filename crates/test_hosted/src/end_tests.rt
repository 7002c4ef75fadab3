//! How pools end.
use crate::rows::{Deed, End, ONE, Row, Told, holds};
use crate::trial::{NEVER, PLAIN, Plan};
use alog_hosted::Pause;
use alog_msg::Level;

static NOTHING: Row<'static> = Row {
    producers: 0,
    workers: 0,
    tickets: &[],
    ..ONE
};

/// A pool that made nobody ends: there is a list of tickets for each worker that was made, and a sink for each of its setup.
#[test]
fn a_pool_of_nobody_ends(rt: HostRuntime) {
    holds(&rt, rt.alloc(), &NOTHING);
}

static LEFT: Row<'static> = Row {
    producers: 2,
    workers: 0,
    deeds: &[
        Deed::Says(0, "a", Told::Posted(0)),
        Deed::Says(1, "b", Told::Posted(1)),
        Deed::Flushes(0, Told::Posted(2)),
        Deed::Says(1, "c", Told::Posted(3)),
    ],
    totals: (4, 0, 0),
    tickets: &[],
    files: &[b"a\nb\nc\n"],
    ..ONE
};

/// What is left in the queue the pool hands out at its end, in the order of the tickets, though it has no worker. All of it counts as handled, and
/// no worker has a ticket of it.
#[test]
fn what_is_left_is_handed_out_in_order(rt: HostRuntime) {
    holds(&rt, rt.alloc(), &LEFT);
}

static LEFT_FLUSH: Row<'static> = Row {
    fuses: &[1],
    workers: 0,
    deeds: &[
        Deed::Says(0, "a", Told::Posted(0)),
        Deed::Flushes(0, Told::Posted(1)),
    ],
    totals: (2, 0, 0),
    tickets: &[],
    faults: &[2],
    files: &[b"a\n"],
    ..ONE
};

/// A flush that is left is made as well: the store, whose second call fails, meets it before the flush at the end.
#[test]
fn a_flush_that_is_left_is_made(rt: HostRuntime) {
    holds(&rt, rt.alloc(), &LEFT_FLUSH);
}

/// Two workers.
const PAIR: Plan = Plan {
    workers: 2,
    ..PLAIN
};

static TAKEN: Row<'static> = Row {
    plan: PAIR,
    workers: 2,
    deeds: &[
        Deed::Says(0, "a", Told::Posted(0)),
        Deed::Says(0, "b", Told::Posted(1)),
        Deed::Says(0, "c", Told::Posted(2)),
        Deed::Flushes(0, Told::Posted(3)),
        Deed::Says(0, "d", Told::Posted(4)),
        Deed::Says(0, "e", Told::Posted(5)),
        Deed::Works(1, 1, 1, Pause::Done),
        Deed::Works(0, 2, 2, Pause::Done),
        Deed::Works(1, 1, 1, Pause::Done),
    ],
    totals: (6, 0, 0),
    tickets: &[&[1, 2], &[0, 3]],
    files: &[b"a\nb\nc\nd\ne\n"],
    ..ONE
};

/// What two workers took counts with what was left, and what was left comes behind it.
#[test]
fn what_workers_took_counts_with_what_was_left(rt: HostRuntime) {
    holds(&rt, rt.alloc(), &TAKEN);
}

static ROUND: Row<'static> = Row {
    plan: Plan { queue: 4, ..PLAIN },
    deeds: &[
        Deed::Says(0, "a", Told::Posted(0)),
        Deed::Says(0, "b", Told::Posted(1)),
        Deed::Says(0, "c", Told::Posted(2)),
        Deed::Works(0, 3, 3, Pause::Done),
        Deed::Says(0, "d", Told::Posted(3)),
        Deed::Says(0, "e", Told::Posted(4)),
        Deed::Says(0, "f", Told::Posted(5)),
        Deed::Says(0, "g", Told::Posted(6)),
    ],
    totals: (7, 0, 0),
    tickets: &[&[0, 1, 2]],
    files: &[b"a\nb\nc\nd\ne\nf\ng\n"],
    ..ONE
};

/// The order of the tickets is not that of the places: what is left in a queue that began again at its first place is handed out in order.
#[test]
fn a_queue_that_went_round_is_handed_out_in_order(rt: HostRuntime) {
    holds(&rt, rt.alloc(), &ROUND);
}

static TWO_SINKS: Row<'static> = Row {
    routes: &[&[1], &[0, 1]],
    fuses: &[NEVER, NEVER],
    deeds: &[
        Deed::Logs(0, 0, Level::Info, "a", Told::Posted(0)),
        Deed::Logs(0, 1, Level::Error, "b", Told::Posted(1)),
        Deed::Logs(0, 0, Level::Info, "c", Told::Posted(2)),
        Deed::Works(0, 1, 1, Pause::Done),
    ],
    totals: (3, 0, 0),
    tickets: &[&[0]],
    faults: &[0, 0],
    files: &[b"b\n", b"a\nb\nc\n"],
    ..ONE
};

/// What is left goes to the sinks of its logger, as what a worker takes does, and the sinks come back in the order of the setup.
#[test]
fn what_is_left_goes_to_the_sinks_of_its_logger(rt: HostRuntime) {
    holds(&rt, rt.alloc(), &TWO_SINKS);
}

static FIRST_TICKETS: Row<'static> = Row {
    plan: Plan {
        tickets_max: 2,
        ..PLAIN
    },
    deeds: &[
        Deed::Says(0, "a", Told::Posted(0)),
        Deed::Says(0, "b", Told::Posted(1)),
        Deed::Says(0, "c", Told::Posted(2)),
        Deed::Works(0, 9, 3, Pause::Idle),
    ],
    totals: (3, 0, 0),
    tickets: &[&[0, 1]],
    files: &[b"a\nb\nc\n"],
    ..ONE
};

/// Of a worker's tickets the first ones are told, as many as the setup says. All are counted.
#[test]
fn the_first_tickets_are_told(rt: HostRuntime) {
    holds(&rt, rt.alloc(), &FIRST_TICKETS);
}

static WITHOUT_A_PRODUCER: Row<'static> = Row {
    producers: 2,
    deeds: &[
        Deed::Says(0, "a", Told::Posted(0)),
        Deed::Says(1, "b", Told::Posted(1)),
        Deed::Works(0, 1, 1, Pause::Done),
    ],
    end: End::LateProducer,
    totals: (2, 0, 0),
    tickets: &[&[0]],
    files: &[b"a\nb\n"],
    ..ONE
};

/// While a producer is out, a pool does not end and all comes back; when the producer is back, the pool ends, and nothing was lost or doubled.
#[test]
fn a_producer_that_is_out_keeps_a_pool(rt: HostRuntime) {
    holds(&rt, rt.alloc(), &WITHOUT_A_PRODUCER);
}

static WITHOUT_A_WORKER: Row<'static> = Row {
    plan: PAIR,
    workers: 2,
    deeds: &[
        Deed::Says(0, "a", Told::Posted(0)),
        Deed::Says(0, "b", Told::Posted(1)),
        Deed::Says(0, "c", Told::Posted(2)),
        Deed::Works(1, 1, 1, Pause::Done),
        Deed::Works(0, 1, 1, Pause::Done),
    ],
    end: End::LateWorker,
    totals: (3, 0, 0),
    tickets: &[&[1], &[0]],
    files: &[b"a\nb\nc\n"],
    ..ONE
};

/// The same holds of a worker.
#[test]
fn a_worker_that_is_out_keeps_a_pool(rt: HostRuntime) {
    holds(&rt, rt.alloc(), &WITHOUT_A_WORKER);
}

static ENOUGH: Row<'static> = Row {
    plan: PAIR,
    workers: 2,
    deeds: &[
        Deed::HiresNone,
        Deed::Says(0, "a", Told::Posted(0)),
        Deed::HiresNone,
        Deed::Works(1, 9, 1, Pause::Idle),
    ],
    totals: (1, 0, 0),
    tickets: &[&[], &[0]],
    files: &[b"a\n"],
    ..ONE
};

/// A host makes as many workers as its setup says, and no worker more; what it refused changes nothing.
#[test]
fn a_host_makes_no_worker_more(rt: HostRuntime) {
    holds(&rt, rt.alloc(), &ENOUGH);
}
