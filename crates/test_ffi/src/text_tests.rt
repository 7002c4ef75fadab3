//! What is said in numbers and bytes: names, loggers, levels, texts and sources, each taken or refused.
use crate::rows::{NOTHING, Row, START, wrong_between, wrong_of};
use crate::trial::{AREA, Deed, FILES, Opening, POOL, TALKER, UNTOLD, WRITER};
use alog_ffi::{Answer, level_of};
use std::process::Abort;

static NAMES: &[Row<'static>] = &[
    (Deed::Finds(TALKER, b"app", 0), Answer::Done),
    (Deed::Finds(POOL, b"app", 0), Answer::Done),
    (Deed::Finds(TALKER, b"ap", UNTOLD), Answer::NoLogger),
    (Deed::Finds(POOL, b"apps", UNTOLD), Answer::NoLogger),
    (Deed::Finds(TALKER, b"main", UNTOLD), Answer::NoLogger),
    (Deed::Finds(TALKER, b"", UNTOLD), Answer::NoLogger),
    (Deed::Finds(TALKER, b"app\xc3", UNTOLD), Answer::NotUtf8),
    (Deed::Finds(POOL, b"\xed\xa0\x80", UNTOLD), Answer::NotUtf8),
];

/// A logger is found by its whole name, by a pool and by a producer.
#[test]
fn names_of_loggers(rt: HostRuntime) {
    let wrong = wrong_between(rt.alloc(), NAMES);
    assert!(rt; wrong.is_none(), "{wrong:?}");
}

static LOGGERS: &[Row<'static>] = &[
    (Deed::Logs(TALKER, 1, 2, b"a", UNTOLD), Answer::NoLogger),
    (
        Deed::Logs(TALKER, u32::MAX, 7, b"\xff", UNTOLD),
        Answer::NoLogger,
    ),
    (Deed::Flushes(TALKER, 1, UNTOLD), Answer::NoLogger),
    (Deed::Flushes(TALKER, u32::MAX, UNTOLD), Answer::NoLogger),
    (Deed::Dumps(TALKER, 1, 0), Answer::NoLogger),
    (Deed::Dumps(TALKER, u32::MAX, 0), Answer::NoLogger),
    (Deed::Dumps(TALKER, 0, 0), Answer::Done),
    (Deed::Sets(TALKER, 1, 2), Answer::NoLogger),
    (Deed::Asks(TALKER, 1, 2), Answer::NoLogger),
    (Deed::Sets(POOL, u32::MAX, 2), Answer::NoLogger),
    (Deed::Asks(POOL, u32::MAX, 2), Answer::NoLogger),
    (Deed::Sets(TALKER, 1, 7), Answer::NoLevel),
    (Deed::Asks(TALKER, 1, 7), Answer::NoLevel),
    (Deed::Sets(POOL, 0, u32::MAX), Answer::NoLevel),
    (Deed::Asks(POOL, 0, u32::MAX), Answer::NoLevel),
    (Deed::Logs(TALKER, 0, 7, b"a", UNTOLD), Answer::NoLevel),
    (
        Deed::Logs(TALKER, 0, u32::MAX, b"\xff", UNTOLD),
        Answer::NoLevel,
    ),
];

/// A logger or a level that there is not is refused, the logger first where something is logged, and nothing is counted.
#[test]
fn no_such_logger_or_level(rt: HostRuntime) {
    let wrong = wrong_between(rt.alloc(), LOGGERS);
    assert!(rt; wrong.is_none(), "{wrong:?}");
}

/// The levels, each by its number: a message of the level before is filtered, one of its own is not.
static LEVELS: &[Row<'static>] = &[
    (Deed::Logs(TALKER, 0, 1, b"a", UNTOLD), Answer::Filtered),
    (Deed::Sets(TALKER, 0, 0), Answer::Done),
    (Deed::Asks(POOL, 0, 0), Answer::Done),
    (Deed::Logs(TALKER, 0, 0, b"trace", 0), Answer::Done),
    (Deed::Sets(POOL, 0, 1), Answer::Done),
    (Deed::Asks(POOL, 0, 0), Answer::Filtered),
    (Deed::Asks(TALKER, 0, 1), Answer::Done),
    (Deed::Logs(TALKER, 0, 0, b"a", UNTOLD), Answer::Filtered),
    (Deed::Logs(TALKER, 0, 1, b"debug", 1), Answer::Done),
    (Deed::Sets(TALKER, 0, 3), Answer::Done),
    (Deed::Asks(TALKER, 0, 2), Answer::Filtered),
    (Deed::Asks(POOL, 0, 3), Answer::Done),
    (Deed::Logs(TALKER, 0, 2, b"a", UNTOLD), Answer::Filtered),
    (Deed::Logs(TALKER, 0, 3, b"warning", 2), Answer::Done),
    (Deed::Sets(TALKER, 0, 7), Answer::NoLevel),
    (Deed::Asks(TALKER, 0, 7), Answer::NoLevel),
    (Deed::Logs(TALKER, 0, 3, b"warning", 3), Answer::Done),
    (Deed::Works(WRITER, 9, 4), Answer::Idle),
    (Deed::Sets(POOL, 0, 4), Answer::Done),
    (Deed::Asks(POOL, 0, 3), Answer::Filtered),
    (Deed::Asks(TALKER, 0, 4), Answer::Done),
    (Deed::Logs(TALKER, 0, 3, b"a", UNTOLD), Answer::Filtered),
    (Deed::Logs(TALKER, 0, 4, b"error", 4), Answer::Done),
    (Deed::Sets(POOL, 0, 5), Answer::Done),
    (Deed::Asks(POOL, 0, 4), Answer::Filtered),
    (Deed::Asks(TALKER, 0, 5), Answer::Done),
    (Deed::Logs(TALKER, 0, 4, b"a", UNTOLD), Answer::Filtered),
    (Deed::Logs(TALKER, 0, 5, b"critical", 5), Answer::Done),
    (Deed::Sets(POOL, 0, 6), Answer::Done),
    (Deed::Asks(POOL, 0, 5), Answer::Filtered),
    (Deed::Asks(TALKER, 0, 6), Answer::Done),
    (Deed::Logs(TALKER, 0, 5, b"a", UNTOLD), Answer::Filtered),
    (Deed::Logs(TALKER, 0, 5, b"\xff", UNTOLD), Answer::Filtered),
    (Deed::Flushes(TALKER, 0, 6), Answer::Done),
    (Deed::Gives(TALKER), Answer::Done),
    (Deed::Gives(WRITER), Answer::Done),
    (Deed::Ends(POOL, [7, 7, 0, 0, 7, 0]), Answer::Done),
    (
        Deed::Takes(
            FILES,
            AREA,
            &[
                (1, b"a.log", b"trace\n"),
                (1, b"a.log", b"debug\n"),
                (1, b"a.log", b"warning\n"),
                (1, b"a.log", b"warning\n"),
                (4, b"a.log", b""),
            ],
        ),
        Answer::Done,
    ),
    (Deed::Closes(FILES), Answer::Done),
];

/// A level is set for a logger by its number, and holds for what is logged then.
#[test]
fn levels_by_number(rt: HostRuntime) {
    let wrong = wrong_of(rt.alloc(), [START, LEVELS, NOTHING], 0);
    assert!(rt; wrong.is_none(), "{wrong:?}");
    for number in 0..9 {
        assert!(rt; level_of(number).is_some() == (number < 7), "{number}");
    }
    assert!(rt; level_of(u32::MAX).is_none());
}

/// A pool with two loggers.
const TWO: Opening<'static> = Opening {
    document: b"[[sink]]\nname = \"main\"\nkind = \"memory\"\npattern = \"%n %v\"\n\
[[logger]]\nname = \"one\"\nsinks = [\"main\"]\n[[logger]]\nname = \"two\"\nsinks = [\"main\"]\n",
    producers: 1,
    areas: 1,
    room: 0,
    words: b"",
};

static TWO_LEVELS: &[Row<'static>] = &[
    (Deed::Opens(POOL, FILES, TWO), Answer::Done),
    (Deed::Makes(POOL, TALKER), Answer::Done),
    (Deed::Sets(TALKER, 1, 4), Answer::Done),
    (Deed::Asks(TALKER, 1, 3), Answer::Filtered),
    (Deed::Asks(TALKER, 0, 3), Answer::Done),
    (Deed::Logs(TALKER, 1, 3, b"a", UNTOLD), Answer::Filtered),
    (Deed::Logs(TALKER, 0, 2, b"b", 0), Answer::Done),
    (Deed::Sets(POOL, 0, 5), Answer::Done),
    (Deed::Logs(TALKER, 0, 4, b"c", UNTOLD), Answer::Filtered),
    (Deed::Logs(TALKER, 1, 4, b"d", 1), Answer::Done),
    (Deed::Gives(TALKER), Answer::Done),
    (Deed::Ends(POOL, [2, 2, 0, 0, 2, 0]), Answer::Done),
    (
        Deed::Takes(
            FILES,
            AREA,
            &[
                (1, b"main", b"one b\n"),
                (1, b"main", b"two d\n"),
                (4, b"main", b""),
            ],
        ),
        Answer::Done,
    ),
    (Deed::Closes(FILES), Answer::Done),
];

/// The level of a logger is set and that of another one is not.
#[test]
fn a_level_of_each_logger(rt: HostRuntime) {
    let wrong = wrong_of(rt.alloc(), [TWO_LEVELS, NOTHING, NOTHING], 0);
    assert!(rt; wrong.is_none(), "{wrong:?}");
}

/// A hundred bytes, the most that a text may have.
const LONGEST: &[u8] =
    b"0123456789012345678901234567890123456789012345678901234567890123456789012345678901234567890123456789";

/// One more.
const TOO_LONG: &[u8] =
    b"0123456789012345678901234567890123456789012345678901234567890123456789012345678901234567890123456789+";

/// The line of the longest text.
const LONGEST_LINE: &[u8] =
    b"0123456789012345678901234567890123456789012345678901234567890123456789012345678901234567890123456789\n";

static TEXTS: &[Row<'static>] = &[
    (Deed::Says(TALKER, TOO_LONG, UNTOLD), Answer::TextTooLong),
    (Deed::Logs(TALKER, 0, 1, TOO_LONG, UNTOLD), Answer::Filtered),
    (Deed::Logs(TALKER, 1, 2, TOO_LONG, UNTOLD), Answer::NoLogger),
    (Deed::Says(TALKER, b"a\xc3", UNTOLD), Answer::NotUtf8),
    (Deed::Says(TALKER, b"\xed\xa0\x80", UNTOLD), Answer::NotUtf8),
    (Deed::Logs(TALKER, 0, 1, b"\xff", UNTOLD), Answer::Filtered),
    (Deed::Says(TALKER, LONGEST, 0), Answer::Done),
    (Deed::Says(TALKER, b"", 1), Answer::Done),
    (Deed::Says(TALKER, b"\xc3\xbc\0", 2), Answer::Done),
    (Deed::Works(WRITER, 9, 3), Answer::Idle),
    (Deed::Gives(WRITER), Answer::Done),
    (Deed::Gives(TALKER), Answer::Done),
    (Deed::Ends(POOL, [3, 3, 0, 0, 3, 0]), Answer::Done),
    (
        Deed::Takes(
            FILES,
            AREA,
            &[
                (1, b"a.log", LONGEST_LINE),
                (1, b"a.log", b"\n"),
                (1, b"a.log", b"\xc3\xbc\0\n"),
                (4, b"a.log", b""),
            ],
        ),
        Answer::Done,
    ),
    (Deed::Closes(FILES), Answer::Done),
];

/// A text that is no UTF-8, or too long, is refused and counted nowhere, and one that is filtered is not looked at; the longest and the empty one are
/// written.
#[test]
fn texts(rt: HostRuntime) {
    let wrong = wrong_of(rt.alloc(), [START, TEXTS, NOTHING], 0);
    assert!(rt; wrong.is_none(), "{wrong:?}");
}

/// A pool whose lines show the source.
const SHOWING: Opening<'static> = Opening {
    document: b"[[sink]]\nname = \"main\"\nkind = \"memory\"\npattern = \"%g:%# %! %v\"\n\
[[logger]]\nname = \"app\"\nsinks = [\"main\"]\n",
    producers: 1,
    areas: 1,
    room: 0,
    words: b"",
};

const FUNCTION: &[u8] =
    b"01234567890123456789012345678901234567890123456789012345678901234567890123456789\
012345678901234567890123456789012345678901234567";

const LONG_FUNCTION: &[u8] =
    b"01234567890123456789012345678901234567890123456789012345678901234567890123456789\
0123456789012345678901234567890123456789012345678";

const FILE: &[u8] =
    b"01234567890123456789012345678901234567890123456789012345678901234567890123456789\
01234567890123456789012345678901234567890123456789012345678901234567890123456789\
01234567890123456789012345678901234567890123456789012345678901234567890123456789\
0123456789012345";

const LONG_FILE: &[u8] =
    b"01234567890123456789012345678901234567890123456789012345678901234567890123456789\
01234567890123456789012345678901234567890123456789012345678901234567890123456789\
01234567890123456789012345678901234567890123456789012345678901234567890123456789\
01234567890123456";

static SOURCES: &[Row<'static>] = &[
    (Deed::Opens(POOL, FILES, SHOWING), Answer::Done),
    (Deed::Makes(POOL, TALKER), Answer::Done),
    (
        Deed::Tells(TALKER, 0, b"a", LONG_FILE, b"f", UNTOLD),
        Answer::SourceTooLong,
    ),
    (
        Deed::Tells(TALKER, 0, b"a", b"a.c", LONG_FUNCTION, UNTOLD),
        Answer::SourceTooLong,
    ),
    (
        Deed::Tells(TALKER, 0, b"a", b"\xff", b"f", UNTOLD),
        Answer::NotUtf8,
    ),
    (
        Deed::Tells(TALKER, 0, b"a", b"a.c", b"f\xc3", UNTOLD),
        Answer::NotUtf8,
    ),
    (
        Deed::Tells(TALKER, 0, b"\xff", b"a.c", b"f", UNTOLD),
        Answer::NotUtf8,
    ),
    (
        Deed::Tells(TALKER, 1, b"a", b"\xff", b"f", UNTOLD),
        Answer::NoLogger,
    ),
    (
        Deed::Tells(TALKER, 0, b"a", b"dir/a.c", b"f", 0),
        Answer::Done,
    ),
    (Deed::Tells(TALKER, 0, b"b", b"", b"", 1), Answer::Done),
    (Deed::Says(TALKER, b"c", 2), Answer::Done),
    (
        Deed::Tells(TALKER, 0, b"d", FILE, FUNCTION, 3),
        Answer::Done,
    ),
    (Deed::Gives(TALKER), Answer::Done),
    (Deed::Ends(POOL, [4, 4, 0, 0, 4, 0]), Answer::Done),
    (
        Deed::Takes(
            FILES,
            AREA,
            &[
                (1, b"main", b"dir/a.c:4294967295 f a\n"),
                (1, b"main", b":4294967295  b\n"),
                (1, b"main", b":  c\n"),
                (
                    1,
                    b"main",
                    b"01234567890123456789012345678901234567890123456789012345678901234567890123456789\
01234567890123456789012345678901234567890123456789012345678901234567890123456789\
01234567890123456789012345678901234567890123456789012345678901234567890123456789\
0123456789012345:4294967295 \
01234567890123456789012345678901234567890123456789012345678901234567890123456789\
012345678901234567890123456789012345678901234567 d\n",
                ),
                (4, b"main", b""),
            ],
        ),
        Answer::Done,
    ),
    (Deed::Closes(FILES), Answer::Done),
];

/// A source that is no UTF-8, or too long, is refused; others are in the lines, the longest too.
#[test]
fn sources(rt: HostRuntime) {
    let wrong = wrong_of(rt.alloc(), [SOURCES, NOTHING, NOTHING], 0);
    assert!(rt; wrong.is_none(), "{wrong:?}");
}

/// A pool whose logger lets nothing through, and keeps all for a backtrace.
const KEEPING: Opening<'static> = Opening {
    document: b"[[sink]]\nname = \"main\"\nkind = \"memory\"\n\
[[logger]]\nname = \"one\"\nsinks = [\"main\"]\nlevel = \"off\"\nbacktrace = 1\n",
    producers: 1,
    areas: 1,
    room: 0,
    words: b"",
};

static KEPT: &[Row<'static>] = &[
    (Deed::Opens(POOL, FILES, KEEPING), Answer::Done),
    (Deed::Makes(POOL, TALKER), Answer::Done),
    (Deed::Asks(POOL, 0, 0), Answer::Done),
    (Deed::Asks(TALKER, 0, 5), Answer::Done),
    (Deed::Logs(TALKER, 0, 5, b"a", UNTOLD), Answer::Filtered),
    (Deed::Dumps(TALKER, 0, 3), Answer::Done),
    (Deed::Gives(TALKER), Answer::Done),
    (Deed::Ends(POOL, [3, 3, 0, 0, 3, 0]), Answer::Done),
    (Deed::Closes(FILES), Answer::Done),
];

/// A logger that keeps a backtrace reads each level.
#[test]
fn what_is_kept_is_on(rt: HostRuntime) {
    let wrong = wrong_of(rt.alloc(), [KEPT, NOTHING, NOTHING], 0);
    assert!(rt; wrong.is_none(), "{wrong:?}");
}
