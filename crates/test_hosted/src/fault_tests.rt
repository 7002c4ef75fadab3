//! Stores that fail.
use crate::rows::{Deed, ONE, Row, Told, holds};
use crate::trial::NEVER;
use alog_hosted::Pause;
use alog_msg::Level;

static APPEND: Row<'static> = Row {
    routes: &[&[0, 1]],
    fuses: &[NEVER, 1],
    deeds: &[
        Deed::Says(0, "one", Told::Posted(0)),
        Deed::Says(0, "two", Told::Posted(1)),
        Deed::Says(0, "six", Told::Posted(2)),
        Deed::Works(0, 9, 3, Pause::Idle),
    ],
    totals: (3, 0, 0),
    tickets: &[&[0, 1, 2]],
    faults: &[0, 4],
    files: &[b"one\ntwo\nsix\n", b"one\ntwo"],
    ..ONE
};

/// The second append of a store fails, after three bytes: its sink is broken. The turn of that line, that of the next, the worker's own flush, for
/// the line before it, and the flush at the end are answered by a fault. The other sink has all lines, and all texts were handled.
#[test]
fn a_store_that_fails_is_counted(rt: HostRuntime) {
    holds(&rt, rt.alloc(), &APPEND);
}

static FIRST: Row<'static> = Row {
    routes: &[&[0], &[1]],
    fuses: &[0, NEVER],
    deeds: &[
        Deed::Logs(0, 0, Level::Info, "one", Told::Posted(0)),
        Deed::Logs(0, 1, Level::Info, "two", Told::Posted(1)),
        Deed::Works(0, 9, 2, Pause::Idle),
    ],
    totals: (2, 0, 0),
    tickets: &[&[0, 1]],
    faults: &[2, 0],
    files: &[b"one", b"two\n"],
    ..ONE
};

/// A worker does not flush a sink to which it wrote no line: the turn of its one line and the flush at the end are answered by a fault.
#[test]
fn a_store_that_fails_at_once_is_counted(rt: HostRuntime) {
    holds(&rt, rt.alloc(), &FIRST);
}

static AT_THE_END: Row<'static> = Row {
    routes: &[&[1, 0]],
    fuses: &[NEVER, 1],
    deeds: &[
        Deed::Says(0, "one", Told::Posted(0)),
        Deed::Works(0, 1, 1, Pause::Done),
        Deed::Says(0, "two", Told::Posted(1)),
        Deed::Says(0, "six", Told::Posted(2)),
    ],
    totals: (3, 0, 0),
    tickets: &[&[0]],
    faults: &[0, 3],
    files: &[b"one\ntwo\nsix\n", b"one\ntwo"],
    ..ONE
};

/// The faults of what the pool hands out at its end are counted with those of its workers.
#[test]
fn a_store_that_fails_at_the_end_is_counted(rt: HostRuntime) {
    holds(&rt, rt.alloc(), &AT_THE_END);
}

static FLUSH: Row<'static> = Row {
    fuses: &[2],
    deeds: &[
        Deed::Says(0, "one", Told::Posted(0)),
        Deed::Works(0, 9, 1, Pause::Idle),
        Deed::Works(0, 9, 0, Pause::Idle),
    ],
    totals: (1, 0, 0),
    tickets: &[&[0]],
    faults: &[1],
    files: &[b"one\n"],
    ..ONE
};

/// A worker that found nothing flushes what it wrote, once; the third call of the store is the flush at the end, which is answered by a fault.
#[test]
fn a_flush_that_fails_is_counted(rt: HostRuntime) {
    holds(&rt, rt.alloc(), &FLUSH);
}

static TOLD: Row<'static> = Row {
    routes: &[&[0, 1]],
    fuses: &[1, 2],
    deeds: &[
        Deed::Says(0, "one", Told::Posted(0)),
        Deed::Works(0, 1, 1, Pause::Done),
        Deed::Fails(0, 0),
        Deed::Says(0, "two", Told::Posted(1)),
        Deed::Works(0, 1, 1, Pause::Done),
        Deed::Fails(0, 1),
        Deed::Says(0, "six", Told::Posted(2)),
        Deed::Works(0, 1, 1, Pause::Done),
        Deed::Fails(0, 3),
        Deed::Works(0, 9, 0, Pause::Idle),
        Deed::Fails(0, 5),
        Deed::Works(0, 9, 0, Pause::Idle),
        Deed::Fails(0, 5),
    ],
    totals: (3, 0, 0),
    tickets: &[&[0, 1, 2]],
    faults: &[4, 3],
    files: &[b"one\ntwo", b"one\ntwo\nsix"],
    ..ONE
};

/// A worker tells the faults of all its sinks so far: none, one at the first sink, one more at each, and those of its own flushes. The report has those of
/// the end, too.
#[test]
fn faults_are_told_so_far(rt: HostRuntime) {
    holds(&rt, rt.alloc(), &TOLD);
}
