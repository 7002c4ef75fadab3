//! What a producer is told.
use crate::rows::{Deed, ONE, Row, Told, holds};
use crate::trial::{PLAIN, Plan};
use alog_hosted::Pause;
use alog_msg::Level;
use alog_policy::Policy;

/// A queue of two places, and loggers that block.
const BLOCKING: Plan = Plan { queue: 2, ..PLAIN };

/// Loggers that discard what is new.
const DISCARDING: Plan = Plan {
    policy: Policy::DiscardNew,
    ..BLOCKING
};

/// Loggers that overrun the oldest.
const OVERRUNNING: Plan = Plan {
    policy: Policy::OverrunOldest,
    ..BLOCKING
};

static BLOCKS: Row<'static> = Row {
    plan: BLOCKING,
    deeds: &[
        Deed::Says(0, "a", Told::Posted(0)),
        Deed::Says(0, "b", Told::Posted(1)),
        Deed::Says(0, "c", Told::Blocks),
        Deed::Says(0, "d", Told::Blocks),
        Deed::Works(0, 1, 1, Pause::Done),
        Deed::Says(0, "d", Told::Posted(2)),
        Deed::Says(0, "e", Told::Blocks),
    ],
    totals: (3, 0, 0),
    tickets: &[&[0]],
    files: &[b"a\nb\nd\n"],
    ..ONE
};

/// Where a logger blocks and the queue is full, a log answers that it would block, and is counted nowhere. It goes through when a worker made room.
#[test]
fn a_log_that_would_block_does_nothing(rt: HostRuntime) {
    holds(&rt, rt.alloc(), &BLOCKS);
}

static DISCARDS: Row<'static> = Row {
    plan: DISCARDING,
    deeds: &[
        Deed::Says(0, "a", Told::Posted(0)),
        Deed::Says(0, "b", Told::Posted(1)),
        Deed::Says(0, "c", Told::Full),
        Deed::Flushes(0, Told::Full),
        Deed::Works(0, 1, 1, Pause::Done),
        Deed::Says(0, "d", Told::Posted(2)),
        Deed::Says(0, "e", Told::Full),
    ],
    totals: (6, 3, 0),
    tickets: &[&[0]],
    files: &[b"a\nb\nd\n"],
    ..ONE
};

/// Where a logger discards what is new, a text or a flush that finds no room is discarded, and counted as discarded.
#[test]
fn a_new_text_is_discarded_and_counted(rt: HostRuntime) {
    holds(&rt, rt.alloc(), &DISCARDS);
}

static OVERRUNS: Row<'static> = Row {
    plan: OVERRUNNING,
    deeds: &[
        Deed::Says(0, "a", Told::Posted(0)),
        Deed::Says(0, "b", Told::Posted(1)),
        Deed::Says(0, "c", Told::Overran(2)),
        Deed::Flushes(0, Told::Overran(3)),
        Deed::Says(0, "d", Told::Overran(4)),
        Deed::Works(0, 9, 2, Pause::Idle),
    ],
    totals: (5, 0, 3),
    tickets: &[&[3, 4]],
    files: &[b"d\n"],
    ..ONE
};

/// Where a logger overruns the oldest, a text or a flush that finds no room takes the oldest item out, which is counted as overrun. No line says
/// that one is missing, though the setup asks for it.
#[test]
fn the_oldest_text_is_overrun_and_counted(rt: HostRuntime) {
    holds(&rt, rt.alloc(), &OVERRUNS);
}

static BOTH: Row<'static> = Row {
    plan: OVERRUNNING,
    producers: 2,
    deeds: &[
        Deed::Says(0, "a", Told::Posted(0)),
        Deed::Says(1, "b", Told::Posted(1)),
        Deed::Says(1, "c", Told::Overran(2)),
        Deed::Says(0, "d", Told::Overran(3)),
    ],
    totals: (4, 0, 2),
    tickets: &[&[]],
    files: &[b"c\nd\n"],
    ..ONE
};

/// The losses of all producers are counted together: one may take out what another logged.
#[test]
fn losses_of_two_producers_are_summed(rt: HostRuntime) {
    holds(&rt, rt.alloc(), &BOTH);
}

static FLUSHES: Row<'static> = Row {
    plan: BLOCKING,
    deeds: &[
        Deed::Says(0, "a", Told::Posted(0)),
        Deed::Flushes(0, Told::Posted(1)),
        Deed::Flushes(0, Told::Full),
        Deed::Says(0, "b", Told::Blocks),
        Deed::Works(0, 9, 2, Pause::Idle),
    ],
    totals: (3, 1, 0),
    tickets: &[&[0, 1]],
    files: &[b"a\n"],
    ..ONE
};

/// A flush of a logger that blocks is read as one that discards what is new: where there is no room it is discarded and counted.
#[test]
fn a_flush_of_a_full_queue_is_discarded(rt: HostRuntime) {
    holds(&rt, rt.alloc(), &FLUSHES);
}

static BELOW: Row<'static> = Row {
    deeds: &[
        Deed::Logs(0, 0, Level::Trace, "a", Told::Below(Level::Info, false)),
        Deed::Logs(0, 0, Level::Debug, "b", Told::Below(Level::Info, false)),
        Deed::Logs(0, 0, Level::Info, "c", Told::Posted(0)),
        Deed::Logs(0, 0, Level::Critical, "d", Told::Posted(1)),
        Deed::Works(0, 9, 2, Pause::Idle),
    ],
    totals: (2, 0, 0),
    tickets: &[&[0, 1]],
    files: &[b"c\nd\n"],
    ..ONE
};

/// What is below its logger's level is filtered, and counted nowhere.
#[test]
fn what_is_below_the_level_is_filtered(rt: HostRuntime) {
    holds(&rt, rt.alloc(), &BELOW);
}

static LEVELS: Row<'static> = Row {
    routes: &[&[0], &[0]],
    deeds: &[
        Deed::Sets(0, Level::Debug),
        Deed::Sets(1, Level::Off),
        Deed::Logs(0, 0, Level::Debug, "a", Told::Posted(0)),
        Deed::Logs(0, 0, Level::Trace, "b", Told::Below(Level::Debug, false)),
        Deed::Logs(0, 1, Level::Critical, "c", Told::Below(Level::Off, false)),
        Deed::Sets(0, Level::Error),
        Deed::Logs(0, 0, Level::Warning, "d", Told::Below(Level::Error, false)),
        Deed::Works(0, 9, 1, Pause::Idle),
    ],
    totals: (1, 0, 0),
    tickets: &[&[0]],
    files: &[b"a\n"],
    ..ONE
};

/// A log reads the level that its logger has then.
#[test]
fn levels_are_set_while_the_pool_runs(rt: HostRuntime) {
    holds(&rt, rt.alloc(), &LEVELS);
}

static KEPT: Row<'static> = Row {
    plan: Plan {
        backtrace: 2,
        ..BLOCKING
    },
    deeds: &[
        Deed::Logs(0, 0, Level::Debug, "a", Told::Below(Level::Info, true)),
        Deed::Says(0, "b", Told::Kept(0)),
        Deed::Logs(0, 0, Level::Debug, "c", Told::Below(Level::Info, true)),
        Deed::Says(0, "d", Told::Kept(1)),
        Deed::Says(0, "e", Told::Blocks),
        Deed::Works(0, 9, 2, Pause::Idle),
    ],
    totals: (2, 0, 0),
    tickets: &[&[0, 1]],
    files: &[b"b\nd\n"],
    ..ONE
};

/// A logger with a backtrace says that it kept what is below its level, and what it posted.
#[test]
fn a_logger_with_a_backtrace_keeps_texts(rt: HostRuntime) {
    holds(&rt, rt.alloc(), &KEPT);
}

static KEPT_NOW: Row<'static> = Row {
    plan: Plan {
        backtrace: 2,
        ..DISCARDING
    },
    deeds: &[
        Deed::Logs(0, 0, Level::Debug, "a", Told::Below(Level::Info, true)),
        Deed::Says(0, "b", Told::Kept(0)),
        Deed::Works(0, 9, 1, Pause::Idle),
    ],
    totals: (1, 0, 0),
    tickets: &[&[0]],
    files: &[b"b\n"],
    ..ONE
};

/// The same holds of a logger that discards what is new.
#[test]
fn a_logger_that_discards_keeps_texts(rt: HostRuntime) {
    holds(&rt, rt.alloc(), &KEPT_NOW);
}

/// 128 bytes, the most that a text may have, and one more.
const LONGEST: &str = "0123456789012345678901234567890123456789012345678901234567890123\
0123456789012345678901234567890123456789012345678901234567890123";

const TOO_LONG: &str = "0123456789012345678901234567890123456789012345678901234567890123\
0123456789012345678901234567890123456789012345678901234567890123+";

static LONG: Row<'static> = Row {
    deeds: &[
        Deed::Says(0, TOO_LONG, Told::TooLong),
        Deed::Says(0, LONGEST, Told::Posted(0)),
        Deed::Says(0, "", Told::Posted(1)),
        Deed::Logs(
            0,
            0,
            Level::Debug,
            TOO_LONG,
            Told::Below(Level::Info, false),
        ),
        Deed::Works(0, 9, 2, Pause::Idle),
    ],
    totals: (2, 0, 0),
    tickets: &[&[0, 1]],
    files: &[
        b"0123456789012345678901234567890123456789012345678901234567890123\
0123456789012345678901234567890123456789012345678901234567890123\n\n",
    ],
    ..ONE
};

/// A text of as many bytes as the limit says is logged, and one of a byte more is refused and counted nowhere; where it is filtered, its length is
/// not looked at.
#[test]
fn a_text_above_the_limit_is_refused(rt: HostRuntime) {
    holds(&rt, rt.alloc(), &LONG);
}

static LONG_AND_KEPT: Row<'static> = Row {
    plan: Plan {
        backtrace: 2,
        ..PLAIN
    },
    deeds: &[
        Deed::Says(0, TOO_LONG, Told::TooLong),
        Deed::Logs(0, 0, Level::Debug, TOO_LONG, Told::TooLong),
        Deed::Logs(0, 0, Level::Debug, LONGEST, Told::Below(Level::Info, true)),
    ],
    ..ONE
};

/// Where a logger has a backtrace, a text that is too long is refused whatever its level.
#[test]
fn a_text_above_the_limit_is_not_kept(rt: HostRuntime) {
    holds(&rt, rt.alloc(), &LONG_AND_KEPT);
}
