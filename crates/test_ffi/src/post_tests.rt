//! What becomes of messages: policies where the queue is full, flushes and dumps, and sinks whose areas run out.
use crate::rows::{NOTHING, Row, wrong_of};
use crate::trial::{AREA, Deed, FILES, Opening, POOL, SECOND, TALKER, UNTOLD, WRITER};
use alog_ffi::Answer;
use std::process::Abort;

/// A queue of two places, and a logger for each policy, the last of which keeps two messages.
const POLICIES: Opening<'static> = Opening {
    document: b"queue = 2\n[[sink]]\nname = \"main\"\nkind = \"memory\"\npattern = \"%n %v\"\n\
[[logger]]\nname = \"block\"\nsinks = [\"main\"]\n\
[[logger]]\nname = \"new\"\nsinks = [\"main\"]\npolicy = \"discard_new\"\n\
[[logger]]\nname = \"oldest\"\nsinks = [\"main\"]\npolicy = \"overrun_oldest\"\n\
[[logger]]\nname = \"keeps\"\nsinks = [\"main\"]\nbacktrace = 2\n",
    producers: 2,
    areas: 4,
    room: 100,
    words: b"",
};

static OPEN: &[Row<'static>] = &[
    (Deed::Opens(POOL, FILES, POLICIES), Answer::Done),
    (Deed::Makes(POOL, TALKER), Answer::Done),
    (Deed::Hires(POOL, WRITER), Answer::Done),
];

static BLOCK: &[Row<'static>] = &[
    (Deed::Logs(TALKER, 0, 2, b"a", 0), Answer::Done),
    (Deed::Logs(TALKER, 0, 2, b"b", 1), Answer::Done),
    (Deed::Logs(TALKER, 0, 2, b"c", UNTOLD), Answer::WouldBlock),
    (Deed::Logs(TALKER, 0, 2, b"c", UNTOLD), Answer::WouldBlock),
    (Deed::Works(WRITER, 1, 1), Answer::Done),
    (Deed::Logs(TALKER, 0, 2, b"c", 2), Answer::Done),
    (Deed::Flushes(TALKER, 0, UNTOLD), Answer::Full),
    (Deed::Works(WRITER, 9, 2), Answer::Idle),
    (Deed::Gives(TALKER), Answer::Done),
    (Deed::Gives(WRITER), Answer::Done),
    (Deed::Ends(POOL, [4, 3, 1, 0, 3, 0]), Answer::Done),
    (
        Deed::Takes(
            FILES,
            AREA,
            &[
                (1, b"main", b"block a\n"),
                (1, b"main", b"block b\n"),
                (1, b"main", b"block c\n"),
                (4, b"main", b""),
            ],
        ),
        Answer::Done,
    ),
    (Deed::Closes(FILES), Answer::Done),
];

/// A logger that blocks has its log answered so where the queue is full, which is counted nowhere; its flush is discarded and counted.
#[test]
fn a_logger_that_blocks(rt: HostRuntime) {
    let wrong = wrong_of(rt.alloc(), [OPEN, BLOCK, NOTHING], 0);
    assert!(rt; wrong.is_none(), "{wrong:?}");
}

static NEW: &[Row<'static>] = &[
    (Deed::Logs(TALKER, 1, 2, b"a", 0), Answer::Done),
    (Deed::Flushes(TALKER, 1, 1), Answer::Done),
    (Deed::Logs(TALKER, 1, 2, b"b", UNTOLD), Answer::Full),
    (Deed::Flushes(TALKER, 1, UNTOLD), Answer::Full),
    (Deed::Works(WRITER, 9, 2), Answer::Idle),
    (Deed::Logs(TALKER, 1, 2, b"c", 2), Answer::Done),
    (Deed::Gives(TALKER), Answer::Done),
    (Deed::Gives(WRITER), Answer::Done),
    (Deed::Ends(POOL, [5, 3, 2, 0, 3, 0]), Answer::Done),
    (
        Deed::Takes(FILES, AREA, &[(1, b"main", b"new a\n"), (4, b"main", b"")]),
        Answer::Done,
    ),
    (
        Deed::Takes(FILES, AREA, &[(1, b"main", b"new c\n"), (4, b"main", b"")]),
        Answer::Done,
    ),
    (Deed::Closes(FILES), Answer::Done),
];

/// A logger that discards the new message tells so where the queue is full, and counts it.
#[test]
fn a_logger_that_discards(rt: HostRuntime) {
    let wrong = wrong_of(rt.alloc(), [OPEN, NEW, NOTHING], 0);
    assert!(rt; wrong.is_none(), "{wrong:?}");
}

static OLDEST: &[Row<'static>] = &[
    (Deed::Logs(TALKER, 2, 2, b"a", 0), Answer::Done),
    (Deed::Logs(TALKER, 2, 2, b"b", 1), Answer::Done),
    (Deed::Logs(TALKER, 2, 2, b"c", 2), Answer::Done),
    (Deed::Flushes(TALKER, 2, 3), Answer::Done),
    (Deed::Works(WRITER, 9, 2), Answer::Idle),
    (Deed::Gives(TALKER), Answer::Done),
    (Deed::Gives(WRITER), Answer::Done),
    (Deed::Ends(POOL, [4, 4, 0, 2, 2, 0]), Answer::Done),
    (
        Deed::Takes(
            FILES,
            AREA,
            &[(1, b"main", b"oldest c\n"), (4, b"main", b"")],
        ),
        Answer::Done,
    ),
    (Deed::Closes(FILES), Answer::Done),
];

/// A logger that overruns the oldest message has each posted, and counts what was taken out.
#[test]
fn a_logger_that_overruns(rt: HostRuntime) {
    let wrong = wrong_of(rt.alloc(), [OPEN, OLDEST, NOTHING], 0);
    assert!(rt; wrong.is_none(), "{wrong:?}");
}

static KEEPS: &[Row<'static>] = &[
    (Deed::Makes(POOL, SECOND), Answer::Done),
    (Deed::Dumps(TALKER, 3, 0), Answer::Done),
    (Deed::Logs(TALKER, 3, 1, b"a", UNTOLD), Answer::Filtered),
    (Deed::Logs(TALKER, 3, 0, b"\xff", UNTOLD), Answer::NotUtf8),
    (Deed::Logs(SECOND, 3, 2, b"b", 0), Answer::Done),
    (Deed::Logs(TALKER, 3, 0, b"c", UNTOLD), Answer::Filtered),
    (Deed::Dumps(TALKER, 0, 0), Answer::Done),
    (Deed::Works(WRITER, 9, 1), Answer::Idle),
    (Deed::Dumps(SECOND, 3, 4), Answer::Done),
    (Deed::Dumps(TALKER, 3, 0), Answer::Done),
    (Deed::Logs(TALKER, 3, 2, b"d", UNTOLD), Answer::WouldBlock),
    (Deed::Dumps(TALKER, 3, 0), Answer::Done),
    (Deed::Works(WRITER, 9, 2), Answer::Idle),
    (Deed::Gives(SECOND), Answer::Done),
    (Deed::Gives(TALKER), Answer::Done),
    (Deed::Gives(WRITER), Answer::Done),
    (Deed::Ends(POOL, [5, 3, 2, 0, 3, 0]), Answer::Done),
    (
        Deed::Takes(
            FILES,
            AREA,
            &[(1, b"main", b"keeps b\n"), (4, b"main", b"")],
        ),
        Answer::Done,
    ),
    (
        Deed::Takes(
            FILES,
            AREA,
            &[
                (1, b"main", b"keeps === backtrace start ===\n"),
                (1, b"main", b"keeps b\n"),
                (4, b"main", b""),
            ],
        ),
        Answer::Done,
    ),
    (Deed::Closes(FILES), Answer::Done),
];

/// A dump posts the last two messages of all producers between markers, and says how many posts that were; those for which there is no room are
/// discarded and counted. A message that would block is not kept.
#[test]
fn a_logger_that_keeps(rt: HostRuntime) {
    let wrong = wrong_of(rt.alloc(), [OPEN, KEEPS, NOTHING], 0);
    assert!(rt; wrong.is_none(), "{wrong:?}");
}

/// Two sinks of one area each: of the first logger one of them, of the second both.
const TWO_SINKS: Opening<'static> = Opening {
    document: b"queue = 8\nworkers = 2\n[[sink]]\nname = \"main\"\nkind = \"memory\"\npattern = \"%v\"\n\
[[sink]]\nname = \"side\"\nkind = \"memory\"\npattern = \"%v\"\n\
[[logger]]\nname = \"app\"\nsinks = [\"main\"]\n[[logger]]\nname = \"both\"\nsinks = [\"main\", \"side\"]\n",
    producers: 1,
    areas: 1,
    room: 100,
    words: b"",
};

static FULL: &[Row<'static>] = &[
    (Deed::Opens(POOL, FILES, TWO_SINKS), Answer::Done),
    (Deed::Makes(POOL, TALKER), Answer::Done),
    (Deed::Hires(POOL, WRITER), Answer::Done),
    (Deed::Hires(POOL, SECOND), Answer::Done),
    (Deed::Fails(WRITER, 0), Answer::Done),
    (Deed::Logs(TALKER, 1, 2, b"a", 0), Answer::Done),
    (Deed::Works(WRITER, 9, 1), Answer::Idle),
    (Deed::Fails(WRITER, 0), Answer::Done),
    (Deed::Logs(TALKER, 0, 2, b"b", 1), Answer::Done),
    (Deed::Works(WRITER, 9, 1), Answer::Idle),
    (Deed::Fails(WRITER, 1), Answer::Done),
    (Deed::Logs(TALKER, 1, 2, b"c", 2), Answer::Done),
    (Deed::Works(WRITER, 9, 1), Answer::Idle),
    (Deed::Fails(WRITER, 3), Answer::Done),
];

/// (the sinks are broken for good)
static EMPTIED: &[Row<'static>] = &[
    (
        Deed::Takes(FILES, AREA, &[(1, b"main", b"a\n"), (4, b"main", b"")]),
        Answer::Done,
    ),
    (
        Deed::Takes(FILES, AREA, &[(1, b"side", b"a\n"), (4, b"side", b"")]),
        Answer::Done,
    ),
    (Deed::Logs(TALKER, 0, 2, b"d", 3), Answer::Done),
    (Deed::Works(WRITER, 9, 1), Answer::Idle),
    (Deed::Fails(WRITER, 4), Answer::Done),
    (Deed::Fails(WRITER, 4), Answer::Done),
    (Deed::Fails(SECOND, 0), Answer::Done),
    (Deed::Logs(TALKER, 1, 2, b"e", 4), Answer::Done),
    (Deed::Works(SECOND, 9, 1), Answer::Idle),
    (Deed::Fails(SECOND, 2), Answer::Done),
    (Deed::Fails(WRITER, 4), Answer::Done),
    (Deed::Gives(TALKER), Answer::Done),
    (Deed::Gives(WRITER), Answer::Done),
    (Deed::Gives(SECOND), Answer::Done),
    (Deed::Ends(POOL, [5, 5, 0, 0, 5, 8]), Answer::Done),
    (Deed::Closes(FILES), Answer::Done),
];

/// A worker tells each turn at a sink that found no empty area, or came behind one that did, at all of its sinks, and none of another worker. The report
/// counts those of both, and the flush of each sink at the end.
#[test]
fn areas_that_run_out(rt: HostRuntime) {
    let wrong = wrong_of(rt.alloc(), [FULL, EMPTIED, NOTHING], 0);
    assert!(rt; wrong.is_none(), "{wrong:?}");
}
