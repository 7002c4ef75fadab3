//! What producers are told, and what workers say.
use crate::rows::{Deed, ONE, Row, Told, holds};
use crate::trial::Plan;
use alog_hosted::Pause;
use alog_msg::Level;

static LINES: Row<'static> = Row {
    plan: ONE,
    deeds: &[
        Deed::MakesProducer(0),
        Deed::MakesWorker(0),
        Deed::Says(0, "a", Told::Posted(0)),
        Deed::Logs(0, 0, Level::Debug, "b", Told::Below(Level::Info)),
        Deed::Logs(0, 0, Level::Error, "c", Told::Posted(1)),
        Deed::Flushes(0, 0, Told::Posted(2)),
        Deed::Works(0, 2, 2, Pause::Done),
        Deed::Sets(Level::Warning),
        Deed::Says(0, "d", Told::Below(Level::Warning)),
        Deed::Logs(0, 0, Level::Warning, "e", Told::Posted(3)),
        Deed::Works(0, 9, 2, Pause::Idle),
        Deed::GivesProducer(0),
        Deed::GivesWorker(0),
    ],
    posted: 4,
    tickets: &[&[0, 1, 2, 3]],
    file: b"a\nc\ne\n",
};

/// What a producer logs is written by a worker, in the order of the tickets, and nothing that is below the level that the logger has by then.
#[test]
fn what_is_logged_is_written(rt: HostRuntime) {
    holds(&rt, rt.alloc(), &LINES);
}

static UNKNOWN: Row<'static> = Row {
    plan: ONE,
    deeds: &[
        Deed::MakesProducer(0),
        Deed::Says(0, "a", Told::Posted(0)),
        Deed::Logs(0, 1, Level::Error, "b", Told::NoLogger),
        Deed::Logs(0, u32::MAX, Level::Error, "c", Told::NoLogger),
        Deed::Flushes(0, 1, Told::NoLogger),
        Deed::Flushes(0, u32::MAX, Told::NoLogger),
        Deed::DumpsNone(0, 1),
        Deed::DumpsNone(0, u32::MAX),
        Deed::Says(0, "d", Told::Posted(1)),
        Deed::GivesProducer(0),
    ],
    posted: 2,
    tickets: &[],
    file: b"a\nd\n",
};

/// Where there is no such logger, neither a log nor a flush nor a dump does anything, or is counted.
#[test]
fn an_unknown_logger_is_refused(rt: HostRuntime) {
    holds(&rt, rt.alloc(), &UNKNOWN);
}

/// 128 bytes, the most that a text may have, and one more.
const LONGEST: &str = "0123456789012345678901234567890123456789012345678901234567890123\
0123456789012345678901234567890123456789012345678901234567890123";

const TOO_LONG: &str = "0123456789012345678901234567890123456789012345678901234567890123\
0123456789012345678901234567890123456789012345678901234567890123+";

static LONG: Row<'static> = Row {
    plan: ONE,
    deeds: &[
        Deed::MakesProducer(0),
        Deed::Says(0, TOO_LONG, Told::TooLong),
        Deed::Logs(0, 1, Level::Info, TOO_LONG, Told::NoLogger),
        Deed::Logs(0, 0, Level::Debug, TOO_LONG, Told::Below(Level::Info)),
        Deed::Says(0, LONGEST, Told::Posted(0)),
        Deed::GivesProducer(0),
    ],
    posted: 1,
    tickets: &[],
    file: b"0123456789012345678901234567890123456789012345678901234567890123\
0123456789012345678901234567890123456789012345678901234567890123\n",
};

/// A text above the limit is refused, and counted nowhere. Where the logger is unknown, or the level too low, that is told.
#[test]
fn a_text_that_is_too_long_is_refused(rt: HostRuntime) {
    holds(&rt, rt.alloc(), &LONG);
}

static FULL: Row<'static> = Row {
    plan: Plan { queue: 2, ..ONE },
    deeds: &[
        Deed::MakesProducer(0),
        Deed::MakesWorker(0),
        Deed::Says(0, "a", Told::Posted(0)),
        Deed::Says(0, "b", Told::Posted(1)),
        Deed::Says(0, "c", Told::Blocks),
        Deed::Says(0, "d", Told::Blocks),
        Deed::Works(0, 1, 1, Pause::Done),
        Deed::Says(0, "d", Told::Posted(2)),
        Deed::Says(0, "e", Told::Blocks),
        Deed::GivesWorker(0),
        Deed::GivesProducer(0),
    ],
    posted: 3,
    tickets: &[&[0]],
    file: b"a\nb\nd\n",
};

/// Where the queue is full, a log answers that it would block, and is counted nowhere. It goes through when a worker made room.
#[test]
fn a_log_that_would_block_goes_after_work(rt: HostRuntime) {
    holds(&rt, rt.alloc(), &FULL);
}

static KEPT: Row<'static> = Row {
    plan: Plan {
        producers: 2,
        backtrace: 2,
        ..ONE
    },
    deeds: &[
        Deed::MakesProducer(0),
        Deed::MakesProducer(1),
        Deed::MakesWorker(0),
        Deed::Dumps(0, 0, &[]),
        Deed::Says(0, "a", Told::Kept(0)),
        Deed::Logs(1, 0, Level::Debug, "b", Told::KeptBelow(Level::Info)),
        Deed::Logs(0, 0, Level::Debug, "c", Told::KeptBelow(Level::Info)),
        Deed::Dumps(1, 0, &[1, 2, 3, 4]),
        Deed::Works(0, 9, 5, Pause::Idle),
        Deed::GivesWorker(0),
        Deed::Logs(1, 0, Level::Debug, "d", Told::KeptBelow(Level::Info)),
        Deed::GivesProducer(1),
        Deed::Dumps(0, 0, &[5, 6, 7]),
        Deed::Dumps(0, 0, &[]),
        Deed::GivesProducer(0),
    ],
    posted: 8,
    tickets: &[&[0, 1, 2, 3, 4]],
    file: b"a\n=== backtrace start ===\nb\nc\n=== backtrace end ===\n\
=== backtrace start ===\nd\n=== backtrace end ===\n",
};

/// A dump writes what all producers kept since the last one, also one that was given back, between two markers, and nothing where nothing was.
#[test]
fn what_is_kept_is_dumped(rt: HostRuntime) {
    holds(&rt, rt.alloc(), &KEPT);
}
