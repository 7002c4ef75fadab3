//! Dumps of backtraces that never wait: what is posted of them, and what becomes of it.
use crate::rows::{Deed, ONE, Row, Told, holds};
use crate::trial::{PLAIN, Plan};
use alog_hosted::Pause;
use alog_msg::Level;
use alog_policy::Policy;

/// A backtrace of two messages.
const KEEPING: Plan = Plan {
    backtrace: 2,
    ..PLAIN
};

/// The same with a queue of two places.
const FULL: Plan = Plan {
    queue: 2,
    ..KEEPING
};

static TWICE: Row<'static> = Row {
    plan: KEEPING,
    producers: 2,
    deeds: &[
        Deed::Logs(0, 0, Level::Debug, "a", Told::Below(Level::Info, true)),
        Deed::Says(1, "b", Told::Kept(0)),
        Deed::Logs(0, 0, Level::Debug, "c", Told::Below(Level::Info, true)),
        Deed::Dumps(
            1,
            0,
            &[
                Told::Posted(1),
                Told::Posted(2),
                Told::Posted(3),
                Told::Posted(4),
            ],
        ),
        Deed::Dumps(0, 0, &[]),
        Deed::Logs(1, 0, Level::Trace, "d", Told::Below(Level::Info, true)),
        Deed::Dumps(0, 0, &[Told::Posted(5), Told::Posted(6), Told::Posted(7)]),
        Deed::Says(0, "e", Told::Blocks),
        Deed::Works(0, 9, 8, Pause::Idle),
        Deed::Dumps(1, 0, &[]),
    ],
    totals: (8, 0, 0),
    tickets: &[&[0, 1, 2, 3, 4, 5, 6, 7]],
    files: &[
        b"b\n=== backtrace start ===\nb\nc\n=== backtrace end ===\n\
=== backtrace start ===\nd\n=== backtrace end ===\n",
    ],
    ..ONE
};

/// A dump writes what all producers kept since the last one, also what was below the level, between two markers; where nothing was, it posts
/// nothing. A message that would block is not kept.
#[test]
fn dumps_between_markers(rt: HostRuntime) {
    holds(&rt, rt.alloc(), &TWICE);
}

static NOTHING: Row<'static> = Row {
    routes: &[&[0], &[0]],
    deeds: &[
        Deed::Says(0, "a", Told::Posted(0)),
        Deed::Dumps(0, 0, &[]),
        Deed::Dumps(0, 1, &[]),
        Deed::Works(0, 9, 1, Pause::Idle),
    ],
    totals: (1, 0, 0),
    tickets: &[&[0]],
    files: &[b"a\n"],
    ..ONE
};

/// A logger without a backtrace has nothing to dump.
#[test]
fn dumps_nothing(rt: HostRuntime) {
    holds(&rt, rt.alloc(), &NOTHING);
}

static ONE_OF_TWO: Row<'static> = Row {
    plan: KEEPING,
    routes: &[&[0], &[0]],
    deeds: &[
        Deed::Logs(0, 0, Level::Debug, "a", Told::Below(Level::Info, true)),
        Deed::Logs(0, 1, Level::Debug, "b", Told::Below(Level::Info, true)),
        Deed::Dumps(0, 1, &[Told::Posted(0), Told::Posted(1), Told::Posted(2)]),
        Deed::Works(0, 9, 3, Pause::Idle),
        Deed::Dumps(0, 0, &[Told::Posted(3), Told::Posted(4), Told::Posted(5)]),
        Deed::Works(0, 9, 3, Pause::Idle),
    ],
    totals: (6, 0, 0),
    tickets: &[&[0, 1, 2, 3, 4, 5]],
    files: &[
        b"=== backtrace start ===\nb\n=== backtrace end ===\n\
=== backtrace start ===\na\n=== backtrace end ===\n",
    ],
    ..ONE
};

/// Each logger keeps its own.
#[test]
fn dumps_one_of_two_loggers(rt: HostRuntime) {
    holds(&rt, rt.alloc(), &ONE_OF_TWO);
}

static NO_ROOM: Row<'static> = Row {
    plan: FULL,
    deeds: &[
        Deed::Says(0, "a", Told::Kept(0)),
        Deed::Says(0, "b", Told::Kept(1)),
        Deed::Dumps(0, 0, &[Told::Full, Told::Full, Told::Full, Told::Full]),
        Deed::Works(0, 9, 2, Pause::Idle),
        Deed::Dumps(0, 0, &[]),
    ],
    totals: (6, 4, 0),
    tickets: &[&[0, 1]],
    files: &[b"a\nb\n"],
    ..ONE
};

/// Where the queue of a logger that blocks is full, the posts of a dump are discarded and counted, and what was kept is gone.
#[test]
fn dumps_to_a_full_queue(rt: HostRuntime) {
    holds(&rt, rt.alloc(), &NO_ROOM);
}

static OVERRUNS: Row<'static> = Row {
    plan: Plan {
        policy: Policy::OverrunOldest,
        backtrace: 1,
        ..FULL
    },
    deeds: &[
        Deed::Says(0, "a", Told::Kept(0)),
        Deed::Dumps(0, 0, &[Told::Posted(1), Told::Overran(2), Told::Overran(3)]),
        Deed::Works(0, 9, 2, Pause::Idle),
    ],
    totals: (4, 0, 2),
    tickets: &[&[2, 3]],
    files: &[b"a\n=== backtrace end ===\n"],
    ..ONE
};

/// Where a logger overruns the oldest, so do the posts of its dump.
#[test]
fn a_dump_overruns_the_oldest(rt: HostRuntime) {
    holds(&rt, rt.alloc(), &OVERRUNS);
}
