//! What a worker ends in a call, and why it stops.
use crate::rows::{Deed, ONE, Row, Told, holds};
use crate::trial::NEVER;
use alog_hosted::Pause;
use alog_msg::Level;

static SOME: Row<'static> = Row {
    deeds: &[
        Deed::Says(0, "a", Told::Posted(0)),
        Deed::Says(0, "b", Told::Posted(1)),
        Deed::Says(0, "c", Told::Posted(2)),
        Deed::Works(0, 2, 2, Pause::Done),
        Deed::Works(0, 2, 1, Pause::Idle),
    ],
    totals: (3, 0, 0),
    tickets: &[&[0, 1, 2]],
    files: &[b"a\nb\nc\n"],
    ..ONE
};

/// A worker ends as many items as it is to, and then says that it is done. Where it found fewer, it says that nothing is there.
#[test]
fn a_worker_ends_as_many_as_it_is_to(rt: HostRuntime) {
    holds(&rt, rt.alloc(), &SOME);
}

static EXACT: Row<'static> = Row {
    deeds: &[
        Deed::Says(0, "a", Told::Posted(0)),
        Deed::Says(0, "b", Told::Posted(1)),
        Deed::Works(0, 0, 0, Pause::Done),
        Deed::Works(0, 2, 2, Pause::Done),
        Deed::Works(0, 1, 0, Pause::Idle),
        Deed::Works(0, 0, 0, Pause::Done),
    ],
    totals: (2, 0, 0),
    tickets: &[&[0, 1]],
    files: &[b"a\nb\n"],
    ..ONE
};

/// A worker that ended as many as it was to does not look whether more are there, and one that is to end none does nothing.
#[test]
fn a_worker_that_is_done_looks_no_further(rt: HostRuntime) {
    holds(&rt, rt.alloc(), &EXACT);
}

static EMPTY: Row<'static> = Row {
    producers: 0,
    deeds: &[Deed::Works(0, 8, 0, Pause::Idle)],
    ..ONE
};

/// Where no text was ever logged, a worker says that nothing is there, and takes nothing.
#[test]
fn a_worker_of_an_empty_queue_is_idle(rt: HostRuntime) {
    holds(&rt, rt.alloc(), &EMPTY);
}

static ROUTES: Row<'static> = Row {
    routes: &[&[1], &[0, 1], &[]],
    fuses: &[NEVER, NEVER],
    deeds: &[
        Deed::Logs(0, 0, Level::Info, "a", Told::Posted(0)),
        Deed::Logs(0, 1, Level::Info, "b", Told::Posted(1)),
        Deed::Logs(0, 2, Level::Info, "c", Told::Posted(2)),
        Deed::Logs(0, 1, Level::Error, "d", Told::Posted(3)),
        Deed::Flushes(0, Told::Posted(4)),
        Deed::Works(0, 9, 5, Pause::Idle),
    ],
    totals: (5, 0, 0),
    tickets: &[&[0, 1, 2, 3, 4]],
    faults: &[0, 0],
    files: &[b"b\nd\n", b"a\nb\nd\n"],
    ..ONE
};

/// A text goes to the sinks of its logger alone, and a flush is an item of the queue as a text is.
#[test]
fn texts_go_to_the_sinks_of_their_logger(rt: HostRuntime) {
    holds(&rt, rt.alloc(), &ROUTES);
}
