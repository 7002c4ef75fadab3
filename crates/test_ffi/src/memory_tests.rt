//! Want of memory, for runs in which one allocation fails, as `rt try --test --fail-alloc` makes it. Whichever that is, the call that meets it says so
//! and leaves each handle as it was, and the same call goes when it is made again: nothing is lost, and all later calls answer and tell the same. An end
//! that wants memory to take its parts back says that they are out.
use crate::rows::{NOTHING, Row, wrong_of};
use crate::trial::{AREA, Deed, FILES, Opening, POOL, SECOND, TALKER, UNTOLD, WRITER};
use alog_ffi::Answer;
use std::process::Abort;

/// A fan of two files, one of them by days, and a logger that keeps two messages.
const TWO_FILES: &[u8] = b"queue = 8\nworkers = 2\ntext = 500\n\
[[sink]]\nname = \"one\"\nkind = \"rotating\"\nfile = \"a.log\"\nmax_size = 4_000\nmax_files = 2\npattern = \"%v %s\"\n\
[[sink]]\nname = \"two\"\nkind = \"daily\"\nfile = \"b.log\"\npattern = \"%v\"\n\
[[sink]]\nname = \"both\"\nkind = \"fan\"\nof = [\"one\", \"two\"]\n\
[[logger]]\nname = \"app\"\nsinks = [\"both\"]\nbacktrace = 2\n";

/// A pool of them.
const FAN: Opening<'static> = Opening {
    document: TWO_FILES,
    producers: 2,
    areas: 8,
    room: 100,
    words: b"",
};

/// A document that is refused in words.
const WRONG: Opening<'static> = Opening {
    document: b"queue = 3",
    words: b"queue = 3: a value that its key can not have; it may have a power of two, 2 to 65536",
    ..FAN
};

/// A text whose copy takes memory of its own.
const LONG: &[u8] = b"a text of more than seventy bytes, which do not lie in a message itself";

static OPEN: &[Row<'static>] = &[
    (Deed::Names(TWO_FILES, 60, b"a.log\x00"), Answer::Done),
    (Deed::Places(TWO_FILES, 8), Answer::Done),
    (Deed::Founds(FILES, b"a.log", 50), Answer::Done),
    (Deed::Founds(FILES, b"other", 5_000), Answer::Done),
    (Deed::Founds(FILES, b"more", 0), Answer::Done),
    (Deed::Founds(FILES, b"and", 0), Answer::Done),
    (Deed::Founds(FILES, b"the fifth", 0), Answer::Done),
    (Deed::Opens(POOL, FILES, WRONG), Answer::BadConfig),
    (Deed::Founds(FILES, b"the sixth", 0), Answer::Done),
    (Deed::Opens(POOL, FILES, FAN), Answer::Done),
    (Deed::Makes(POOL, TALKER), Answer::Done),
    (Deed::Makes(POOL, SECOND), Answer::Done),
    (Deed::Hires(POOL, WRITER), Answer::Done),
    (Deed::Finds(TALKER, b"app", 0), Answer::Done),
];

static GO: &[Row<'static>] = &[
    (Deed::Logs(TALKER, 0, 1, LONG, UNTOLD), Answer::Filtered),
    (Deed::Says(TALKER, LONG, 0), Answer::Done),
    (Deed::Tells(SECOND, 0, LONG, b"a.c", b"f", 1), Answer::Done),
    (Deed::Flushes(SECOND, 0, 2), Answer::Done),
    (Deed::Works(WRITER, 9, 3), Answer::Idle),
    (Deed::Dumps(TALKER, 0, 4), Answer::Done),
    (Deed::Gives(SECOND), Answer::Done),
    (Deed::Works(WRITER, 2, 2), Answer::Done),
    (Deed::Ends(POOL, [0; 6]), Answer::PartsOut),
    (Deed::Hires(POOL, SECOND), Answer::Done),
    (Deed::Works(SECOND, 9, 2), Answer::Idle),
    (Deed::Tells(TALKER, 0, b"d", b"a.c", b"f", 7), Answer::Done),
    (Deed::Gives(TALKER), Answer::Done),
    (Deed::Gives(WRITER), Answer::Done),
    (Deed::Gives(SECOND), Answer::Done),
    (Deed::Ends(POOL, [8, 8, 0, 0, 8, 0]), Answer::Done),
];

/// What stands in the files: of the first sink with the source.
static TAKEN: &[Row<'static>] = &[
    (
        Deed::Takes(
            FILES,
            AREA,
            &[
                (
                    1,
                    b"a.log",
                    b"a text of more than seventy bytes, which do not lie in a message itself \n",
                ),
                (
                    1,
                    b"a.log",
                    b"a text of more than seventy bytes, which do not lie in a message itself a.c\n",
                ),
                (4, b"a.log", b""),
            ],
        ),
        Answer::Done,
    ),
    (Deed::Closes(FILES), Answer::Done),
];

/// Whichever allocation fails, all calls do and answer the same once they are made again.
#[test]
fn want_of_memory(rt: HostRuntime) {
    let wrong = wrong_of(rt.alloc(), [OPEN, GO, TAKEN], 1);
    assert!(rt; wrong.is_none(), "{wrong:?}");
}
