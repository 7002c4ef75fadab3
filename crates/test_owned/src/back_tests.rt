//! What a pool makes, what is given back, and when it ends.
use crate::rows::{Deed, ONE, Row, Told, holds};
use crate::trial::Plan;
use alog_hosted::Pause;

static NOTHING: Row<'static> = Row {
    plan: Plan {
        producers: 0,
        ..ONE
    },
    deeds: &[Deed::NoProducer, Deed::NoProducer],
    posted: 0,
    tickets: &[],
    file: b"",
};

/// A pool that was opened for no producer makes none, and ends.
#[test]
fn a_pool_of_nobody_ends(rt: HostRuntime) {
    holds(&rt, rt.alloc(), &NOTHING);
}

static LATE_PRODUCER: Row<'static> = Row {
    plan: ONE,
    deeds: &[
        Deed::MakesProducer(0),
        Deed::MakesWorker(0),
        Deed::Says(0, "a", Told::Posted(0)),
        Deed::Works(0, 1, 1, Pause::Done),
        Deed::Stays,
        Deed::GivesWorker(0),
        Deed::Stays,
        Deed::Says(0, "b", Told::Posted(1)),
        Deed::Stays,
        Deed::GivesProducer(0),
    ],
    posted: 2,
    tickets: &[&[0]],
    file: b"a\nb\n",
};

/// While a producer is out, the pool does not end. It comes back, and goes on; when the producer is back it ends, and nothing was lost or doubled.
#[test]
fn a_producer_that_is_out_keeps_a_pool(rt: HostRuntime) {
    holds(&rt, rt.alloc(), &LATE_PRODUCER);
}

static LATE_WORKER: Row<'static> = Row {
    plan: Plan {
        producers: 2,
        ..ONE
    },
    deeds: &[
        Deed::MakesProducer(0),
        Deed::MakesWorker(0),
        Deed::Says(0, "a", Told::Posted(0)),
        Deed::GivesProducer(0),
        Deed::Stays,
        Deed::MakesProducer(1),
        Deed::Works(0, 1, 1, Pause::Done),
        Deed::Says(0, "b", Told::Posted(1)),
        Deed::GivesProducer(0),
        Deed::Stays,
        Deed::NoProducer,
        Deed::Works(0, 9, 1, Pause::Idle),
        Deed::GivesWorker(0),
    ],
    posted: 2,
    tickets: &[&[0, 1]],
    file: b"a\nb\n",
};

/// The same holds of a worker, and a pool that came back makes producers, as ever as many as it was opened for.
#[test]
fn a_worker_that_is_out_keeps_a_pool(rt: HostRuntime) {
    holds(&rt, rt.alloc(), &LATE_WORKER);
}

/// Three producers and two workers.
const FIVE: Plan = Plan {
    producers: 3,
    workers: 2,
    ..ONE
};

static ENOUGH: Row<'static> = Row {
    plan: FIVE,
    deeds: &[
        Deed::MakesProducer(0),
        Deed::MakesProducer(1),
        Deed::MakesProducer(2),
        Deed::NoProducer,
        Deed::MakesWorker(0),
        Deed::MakesWorker(1),
        Deed::NoWorker,
        Deed::GivesProducer(0),
        Deed::NoProducer,
        Deed::GivesWorker(0),
        Deed::NoWorker,
        Deed::GivesProducer(0),
        Deed::GivesProducer(0),
        Deed::GivesWorker(0),
    ],
    posted: 0,
    tickets: &[&[], &[]],
    file: b"",
};

/// A pool makes as many producers as it was opened for, and as many workers as its setup says. One that was given back makes no room for another.
#[test]
fn a_pool_makes_no_more(rt: HostRuntime) {
    holds(&rt, rt.alloc(), &ENOUGH);
}

static SHUFFLED: Row<'static> = Row {
    plan: FIVE,
    deeds: &[
        Deed::MakesProducer(0),
        Deed::MakesWorker(0),
        Deed::MakesProducer(1),
        Deed::MakesWorker(1),
        Deed::MakesProducer(2),
        Deed::Says(2, "a", Told::Posted(0)),
        Deed::Says(0, "b", Told::Posted(1)),
        Deed::Says(1, "c", Told::Posted(2)),
        Deed::Flushes(0, 0, Told::Posted(3)),
        Deed::Works(1, 1, 1, Pause::Done),
        Deed::Works(0, 2, 2, Pause::Done),
        Deed::Says(1, "d", Told::Posted(4)),
        Deed::GivesProducer(2),
        Deed::GivesWorker(1),
        Deed::Says(1, "e", Told::Posted(5)),
        Deed::GivesProducer(0),
        Deed::Stays,
        Deed::Works(0, 1, 1, Pause::Done),
        Deed::GivesWorker(0),
        Deed::GivesProducer(0),
    ],
    posted: 6,
    tickets: &[&[0], &[1, 2, 3]],
    file: b"a\nb\nc\nd\ne\n",
};

/// Several of each may be given back in any order, partly before a pool came back and partly behind it. The report has the tickets of the
/// workers in the order in which these were given back, and what is left in the queue is handed out at the end.
#[test]
fn parts_come_back_in_any_order(rt: HostRuntime) {
    holds(&rt, rt.alloc(), &SHUFFLED);
}
