//! Which files the sinks of a document have, how a pool is opened, or why not, what it makes, and when it ends.
use crate::rows::{NOTHING, PLAIN, Row, START, trial_of, wrong_between, wrong_in, wrong_of};
use crate::trial::{
    AREA, Deed, FILES, Opening, POOL, SECOND, TALKER, THIRD, Trial, UNTOLD, WRITER,
};
use alog_ffi::Answer;
use std::alloc::Global;
use std::process::Abort;

/// Sinks of each kind, and a fan.
const KINDS: &[u8] = b"[[sink]]\nname = \"one\"\nkind = \"memory\"\nfile = \"a.log\"\n\
[[sink]]\nname = \"two\"\nkind = \"daily\"\nfile = \"b.log\"\n\
[[sink]]\nname = \"three\"\nkind = \"rotating\"\nfile = \"c.log\"\nmax_size = 9\nmax_files = 2\n\
[[sink]]\nname = \"all\"\nkind = \"fan\"\nof = [\"one\", \"two\"]\n\
[[sink]]\nname = \"four\"\nkind = \"memory\"\n\
[[logger]]\nname = \"app\"\nsinks = [\"all\", \"three\", \"four\"]\n";

/// One sink, by days.
const DAYS: &[u8] = b"[[sink]]\nname = \"two\"\nkind = \"daily\"\nfile = \"b.log\"\n\
[[logger]]\nname = \"app\"\nsinks = [\"two\"]\n";

/// A queue of sixteen places.
const SMALL: &[u8] = b"queue = 16\n[[sink]]\nname = \"two\"\nkind = \"memory\"\n\
[[logger]]\nname = \"app\"\nsinks = [\"two\"]\n";

/// The files of those that have one from the start.
const NAMES: &[u8] = b"a.log\x00c.log\x00four\x00";

static NAMED: &[Row<'static>] = &[
    (Deed::Names(KINDS, 60, NAMES), Answer::Done),
    (Deed::Names(KINDS, 17, NAMES), Answer::Done),
    (Deed::Names(KINDS, 16, b""), Answer::TooShort),
    (Deed::Names(KINDS, 0, b""), Answer::TooShort),
    (Deed::Names(DAYS, 60, b""), Answer::Done),
    (Deed::Names(DAYS, 0, b""), Answer::Done),
    (Deed::Names(b"queue = 3", 60, b""), Answer::BadConfig),
    (Deed::Names(b"", 60, b""), Answer::BadConfig),
    (Deed::Names(b"\xff", 60, b""), Answer::BadConfig),
];

static SIZED: &[Row<'static>] = &[
    (Deed::Places(KINDS, 8_192), Answer::Done),
    (Deed::Places(SMALL, 16), Answer::Done),
    (Deed::Places(b"queue = 3", 0), Answer::BadConfig),
    (Deed::Places(b"", 0), Answer::BadConfig),
    (Deed::Places(b"\xff", 0), Answer::BadConfig),
];

/// How many places a document's queue has is told without a pool.
#[test]
fn places_of_a_document(rt: HostRuntime) {
    let wrong = wrong_in(rt.alloc(), SIZED);
    assert!(rt; wrong.is_none(), "{wrong:?}");
}

/// The files that sinks have from their start are told without a pool, all of them or none.
#[test]
fn files_of_a_document(rt: HostRuntime) {
    let wrong = wrong_in(rt.alloc(), NAMED);
    assert!(rt; wrong.is_none(), "{wrong:?}");
}

/// A queue that is no power of two.
const QUEUE: Opening<'static> = Opening {
    document: b"queue = 3",
    words: b"queue = 3: a value that its key can not have; it may have a power of two, 2 to 65536",
    ..PLAIN
};

/// The same with room for nine bytes.
const NINE: Opening<'static> = Opening {
    room: 9,
    words: b"queue = 3",
    ..QUEUE
};

/// The same with room for all words and not one more.
const JUST: Opening<'static> = Opening { room: 84, ..QUEUE };

/// The same with no room.
const NONE_AT_ALL: Opening<'static> = Opening {
    room: 0,
    words: b"",
    ..QUEUE
};

/// No document.
const VOID: Opening<'static> = Opening {
    document: b"",
    words: b"sink: a key is missing; it may have 1 to 256 tables",
    ..PLAIN
};

/// A key that is not known, and not all of its words.
const COLOUR: Opening<'static> = Opening {
    document: b"colour = 1",
    words: b"\"colour\" = 1: a key that is not known here; known are queue, workers, text, offset, zone, process, r",
    ..PLAIN
};

/// No TOML, and no UTF-8.
const NO_TOML: Opening<'static> = Opening {
    document: b"\xff",
    room: 27,
    words: b"the document is not TOML: l",
    ..PLAIN
};

static REFUSED: &[Row<'static>] = &[
    (Deed::Opens(POOL, FILES, QUEUE), Answer::BadConfig),
    (Deed::Founds(FILES, b"a.log", 1), Answer::Done),
    (Deed::Opens(POOL, FILES, JUST), Answer::BadConfig),
    (Deed::Opens(POOL, FILES, NINE), Answer::BadConfig),
    (Deed::Opens(POOL, FILES, NONE_AT_ALL), Answer::BadConfig),
    (Deed::Opens(POOL, FILES, VOID), Answer::BadConfig),
    (Deed::Opens(POOL, FILES, COLOUR), Answer::BadConfig),
    (Deed::Opens(POOL, FILES, NO_TOML), Answer::BadConfig),
    (Deed::Founds(FILES, b"b.log", 1), Answer::Done),
    (Deed::Opens(POOL, FILES, PLAIN), Answer::Done),
    (Deed::Ends(POOL, [0; 6]), Answer::Done),
    (Deed::Closes(FILES), Answer::Done),
];

/// A document that is no configuration is refused in words, as far as there is room, and the files that were found stay.
#[test]
fn words_of_a_refused_document(rt: HostRuntime) {
    let wrong = wrong_in(rt.alloc(), REFUSED);
    assert!(rt; wrong.is_none(), "{wrong:?}");
}

/// A file of at most twelve bytes, and a fan of two such files.
const TWELVE: Opening<'static> = Opening {
    document: b"[[sink]]\nname = \"one\"\nkind = \"rotating\"\nfile = \"a.log\"\nmax_size = 12\nmax_files = 1\npattern = \"%v\"\n\
[[sink]]\nname = \"two\"\nkind = \"rotating\"\nfile = \"b.log\"\nmax_size = 12\nmax_files = 0\npattern = \"%v\"\n\
[[sink]]\nname = \"both\"\nkind = \"fan\"\nof = [\"one\", \"two\"]\n\
[[logger]]\nname = \"app\"\nsinks = [\"both\"]\n",
    ..PLAIN
};

static SIZES: &[Row<'static>] = &[
    (Deed::Founds(FILES, b"a.log", 9), Answer::Done),
    (Deed::Founds(FILES, b"b.log", 8), Answer::Done),
    (Deed::Founds(FILES, b"b.log", 12), Answer::Done),
    (Deed::Opens(POOL, FILES, QUEUE), Answer::BadConfig),
    (Deed::Opens(POOL, FILES, TWELVE), Answer::Done),
    (Deed::Makes(POOL, TALKER), Answer::Done),
    (Deed::Hires(POOL, WRITER), Answer::Done),
    (Deed::Says(TALKER, b"abc", 0), Answer::Done),
    (Deed::Works(WRITER, 9, 1), Answer::Idle),
    (
        Deed::Takes(
            FILES,
            AREA,
            &[
                (2, b"a.log", b"a.1.log"),
                (1, b"a.log", b"abc\n"),
                (4, b"a.log", b""),
            ],
        ),
        Answer::Done,
    ),
    (
        Deed::Takes(FILES, AREA, &[(1, b"b.log", b"abc\n"), (4, b"b.log", b"")]),
        Answer::Done,
    ),
    (Deed::Takes(FILES, AREA, &[]), Answer::Idle),
    (Deed::Says(TALKER, b"def", 1), Answer::Done),
    (Deed::Works(WRITER, 9, 1), Answer::Idle),
    (
        Deed::Takes(FILES, AREA, &[(1, b"a.log", b"def\n"), (4, b"a.log", b"")]),
        Answer::Done,
    ),
    (
        Deed::Takes(
            FILES,
            AREA,
            &[
                (3, b"b.log", b""),
                (1, b"b.log", b"def\n"),
                (4, b"b.log", b""),
            ],
        ),
        Answer::Done,
    ),
    (Deed::Gives(TALKER), Answer::Done),
    (Deed::Gives(WRITER), Answer::Done),
    (Deed::Ends(POOL, [2, 2, 0, 0, 2, 0]), Answer::Done),
    (Deed::Closes(FILES), Answer::Done),
];

/// The sizes of the files that were found, the first of each name, are those that a sink begins with, also where an open was refused before: one rotates
/// at its first line, and one not.
#[test]
fn sizes_of_found_files(rt: HostRuntime) {
    let wrong = wrong_in(rt.alloc(), SIZES);
    assert!(rt; wrong.is_none(), "{wrong:?}");
}

static ENOUGH: &[Row<'static>] = &[
    (Deed::Makes(POOL, SECOND), Answer::Done),
    (Deed::Makes(POOL, THIRD), Answer::Done),
    (Deed::Gives(THIRD), Answer::Done),
    (Deed::Makes(POOL, THIRD), Answer::TooMany),
    (Deed::Makes(POOL, SECOND), Answer::InUse),
    (Deed::Gives(SECOND), Answer::Done),
    (Deed::Makes(POOL, SECOND), Answer::TooMany),
    (Deed::Hires(POOL, SECOND), Answer::Done),
    (Deed::Hires(POOL, THIRD), Answer::TooMany),
    (Deed::Gives(SECOND), Answer::Done),
    (Deed::Hires(POOL, SECOND), Answer::TooMany),
];

/// A pool makes as many producers as were asked for, and as many workers as its configuration says; what is given back makes no room.
#[test]
fn too_many_parts(rt: HostRuntime) {
    let wrong = wrong_between(rt.alloc(), ENOUGH);
    assert!(rt; wrong.is_none(), "{wrong:?}");
}

/// A pool for no producer, whose sink has no area but the least.
const NOBODY: Opening<'static> = Opening {
    producers: 0,
    areas: 0,
    room: 0,
    ..PLAIN
};

static NO_PRODUCER: &[Row<'static>] = &[
    (Deed::Opens(POOL, FILES, NOBODY), Answer::Done),
    (Deed::Makes(POOL, TALKER), Answer::TooMany),
    (Deed::Finds(POOL, b"app", 0), Answer::Done),
    (Deed::Ends(POOL, [0; 6]), Answer::Done),
    (
        Deed::Takes(FILES, AREA, &[(4, b"a.log", b"")]),
        Answer::Done,
    ),
    (Deed::Closes(FILES), Answer::Done),
];

/// A pool that was opened for no producer makes none, and ends.
#[test]
fn a_pool_of_nobody(rt: HostRuntime) {
    let wrong = wrong_in(rt.alloc(), NO_PRODUCER);
    assert!(rt; wrong.is_none(), "{wrong:?}");
}

static OUT: &[Row<'static>] = &[
    (Deed::Ends(POOL, [0; 6]), Answer::PartsOut),
    (Deed::Says(TALKER, b"a", 0), Answer::Done),
    (Deed::Gives(WRITER), Answer::Done),
    (Deed::Ends(POOL, [0; 6]), Answer::PartsOut),
    (Deed::Says(TALKER, b"b", 1), Answer::Done),
    (Deed::Gives(TALKER), Answer::Done),
    (Deed::Hires(POOL, WRITER), Answer::Done),
    (Deed::Ends(POOL, [0; 6]), Answer::PartsOut),
    (Deed::Works(WRITER, 1, 1), Answer::Done),
    (Deed::Gives(WRITER), Answer::Done),
    (Deed::Makes(POOL, TALKER), Answer::Done),
    (Deed::Ends(POOL, [0; 6]), Answer::PartsOut),
    (Deed::Says(TALKER, b"c", 2), Answer::Done),
    (Deed::Gives(TALKER), Answer::Done),
    (Deed::Ends(POOL, [3, 3, 0, 0, 3, 0]), Answer::Done),
    (
        Deed::Takes(
            FILES,
            AREA,
            &[
                (1, b"a.log", b"a\n"),
                (1, b"a.log", b"b\n"),
                (1, b"a.log", b"c\n"),
                (4, b"a.log", b""),
            ],
        ),
        Answer::Done,
    ),
    (Deed::Closes(FILES), Answer::Done),
];

/// While a producer or a worker is out a pool does not end, and all goes on; then it writes what is left.
#[test]
fn parts_that_are_out(rt: HostRuntime) {
    let wrong = wrong_of(rt.alloc(), [START, OUT, NOTHING], 0);
    assert!(rt; wrong.is_none(), "{wrong:?}");
}

static LATE: &[Row<'static>] = &[
    (Deed::Takes(FILES, AREA - 1, &[]), Answer::TooShort),
    (Deed::Takes(FILES, 0, &[]), Answer::TooShort),
    (Deed::Takes(FILES, AREA, &[]), Answer::Idle),
    (Deed::Says(TALKER, b"a", 0), Answer::Done),
    (Deed::Works(WRITER, 0, 0), Answer::Done),
    (Deed::Works(WRITER, 1, 1), Answer::Done),
    (Deed::Takes(FILES, AREA, &[]), Answer::Idle),
    (Deed::Works(WRITER, 1, 0), Answer::Idle),
    (Deed::Takes(FILES, AREA - 1, &[]), Answer::TooShort),
    (
        Deed::Takes(FILES, AREA, &[(1, b"a.log", b"a\n"), (4, b"a.log", b"")]),
        Answer::Done,
    ),
    (Deed::Takes(FILES, AREA, &[]), Answer::Idle),
    (Deed::Closes(FILES), Answer::Done),
    (Deed::Says(TALKER, b"b", 1), Answer::Done),
    (Deed::Works(WRITER, 9, 1), Answer::Idle),
    (Deed::Gives(TALKER), Answer::Done),
    (Deed::Gives(WRITER), Answer::Done),
    (Deed::Ends(POOL, [2, 2, 0, 0, 2, 0]), Answer::Done),
];

/// What is written is handed out once it was flushed, into memory for a whole area; files may be let go before their pool ends.
#[test]
fn what_is_taken_when(rt: HostRuntime) {
    let wrong = wrong_of(rt.alloc(), [START, LATE, NOTHING], 0);
    assert!(rt; wrong.is_none(), "{wrong:?}");
}

/// A pool whose sink has one area.
const ONE_AREA: Opening<'static> = Opening { areas: 1, ..PLAIN };

static ONE_AREA_FULL: &[Row<'static>] = &[
    (Deed::Opens(POOL, FILES, ONE_AREA), Answer::Done),
    (Deed::Makes(POOL, TALKER), Answer::Done),
    (Deed::Hires(POOL, WRITER), Answer::Done),
    (Deed::Says(TALKER, b"a", 0), Answer::Done),
    (Deed::Works(WRITER, 9, 1), Answer::Idle),
    (Deed::Says(TALKER, b"b", 1), Answer::Done),
    (Deed::Works(WRITER, 9, 1), Answer::Idle),
    (
        Deed::Takes(FILES, AREA, &[(1, b"a.log", b"a\n"), (4, b"a.log", b"")]),
        Answer::Done,
    ),
    (Deed::Takes(FILES, AREA, &[]), Answer::Idle),
    (Deed::Says(TALKER, b"c", 2), Answer::Done),
    (Deed::Works(WRITER, 9, 1), Answer::Idle),
    (Deed::Gives(TALKER), Answer::Done),
    (Deed::Gives(WRITER), Answer::Done),
    (Deed::Ends(POOL, [3, 3, 0, 0, 3, 3]), Answer::Done),
    (Deed::Takes(FILES, AREA, &[]), Answer::Ended),
    (Deed::Closes(FILES), Answer::Done),
];

/// A sink has as many areas as were asked for. One that finds none is broken, also when there is one again: what it wrote before is handed out, and later
/// turns are faults, which the report counts.
#[test]
fn a_sink_without_an_area(rt: HostRuntime) {
    let wrong = wrong_in(rt.alloc(), ONE_AREA_FULL);
    assert!(rt; wrong.is_none(), "{wrong:?}");
}

/// A pool that is asked for more producers than there may be.
const ALL: Opening<'static> = Opening {
    producers: usize::MAX,
    ..PLAIN
};

/// Makes a producer and gives it back, so many times. It answers how often that went.
fn made(trial: &mut Trial, most: usize) -> usize {
    for count in 0..most {
        if trial.does(Deed::Makes(POOL, TALKER)) != (Answer::Done, true) {
            return count;
        }
        if trial.does(Deed::Gives(TALKER)) != (Answer::Done, true) {
            return count;
        }
    }
    most
}

/// How many producers a pool makes that may make as many as it is asked for, and whether it ends.
fn most_producers(alloc: Global) -> (usize, bool) {
    let Some(mut trial) = trial_of(alloc) else {
        return (0, false);
    };
    let is_open = trial.does(Deed::Opens(POOL, FILES, ALL)) == (Answer::Done, true);
    let count = made(&mut trial, 5_000);
    let is_refused = trial.does(Deed::Makes(POOL, TALKER)) == (Answer::TooMany, true);
    let has_ended = trial.does(Deed::Ends(POOL, [0; 6])) == (Answer::Done, true);
    let is_closed = trial.does(Deed::Closes(FILES)) == (Answer::Done, true);
    (count, is_open && is_refused && has_ended && is_closed)
}

/// There are at most 4,096 producers, however many are asked for.
#[test]
fn the_most_producers(rt: HostRuntime) {
    assert!(rt; most_producers(rt.alloc()) == (4_096, true));
}
