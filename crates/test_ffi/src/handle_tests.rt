//! Handles that hold nothing, or something else than a call is to have: each call is refused, and all go on as ever.
use crate::rows::{END, NOTHING, PLAIN, Row, START, wrong_between, wrong_in, wrong_of};
use crate::trial::{
    AREA, Deed, FILES, NONE, OTHER, OTHER_FILES, POOL, SECOND, TALKER, THIRD, UNTOLD, WRITER,
};
use alog_ffi::Answer;
use std::process::Abort;

/// What a call on an empty handle says, in the order in which it looks.
static EMPTY: &[Row<'static>] = &[
    (Deed::Makes(NONE, SECOND), Answer::NoHandle),
    (Deed::Hires(NONE, SECOND), Answer::NoHandle),
    (Deed::Finds(NONE, b"app", UNTOLD), Answer::NoHandle),
    (Deed::Finds(NONE, b"\xff", UNTOLD), Answer::NotUtf8),
    (Deed::Sets(NONE, 0, 2), Answer::NoHandle),
    (Deed::Asks(NONE, 0, 2), Answer::NoHandle),
    (Deed::Sets(NONE, 0, 7), Answer::NoLevel),
    (Deed::Asks(NONE, 0, 7), Answer::NoLevel),
    (Deed::Says(NONE, b"a", UNTOLD), Answer::NoHandle),
    (Deed::Logs(NONE, 9, 9, b"\xff", UNTOLD), Answer::NoHandle),
    (
        Deed::Tells(NONE, 0, b"a", b"a.c", b"f", UNTOLD),
        Answer::NoHandle,
    ),
    (Deed::Flushes(NONE, 0, UNTOLD), Answer::NoHandle),
    (Deed::Dumps(NONE, 0, 0), Answer::NoHandle),
    (Deed::Works(NONE, 9, 0), Answer::NoHandle),
    (Deed::Fails(NONE, 0), Answer::NoHandle),
    (Deed::Takes(NONE, AREA, &[]), Answer::NoHandle),
    (Deed::Takes(NONE, 0, &[]), Answer::NoHandle),
    (Deed::Gives(NONE), Answer::NoHandle),
    (Deed::Ends(NONE, [0; 6]), Answer::NoHandle),
    (Deed::Closes(NONE), Answer::NoHandle),
];

/// A handle that holds nothing is refused by each call that wants something, before a pool is there.
#[test]
fn empty_handles_at_first(rt: HostRuntime) {
    let wrong = wrong_in(rt.alloc(), EMPTY);
    assert!(rt; wrong.is_none(), "{wrong:?}");
}

/// The same beside a pool, of which nothing comes.
#[test]
fn empty_handles_beside_a_pool(rt: HostRuntime) {
    let wrong = wrong_between(rt.alloc(), EMPTY);
    assert!(rt; wrong.is_none(), "{wrong:?}");
}

static OF_A_POOL: &[Row<'static>] = &[
    (Deed::Founds(POOL, b"a.log", 1), Answer::WrongHandle),
    (Deed::Opens(POOL, NONE, PLAIN), Answer::InUse),
    (Deed::Opens(POOL, FILES, PLAIN), Answer::InUse),
    (Deed::Opens(OTHER, POOL, PLAIN), Answer::WrongHandle),
    (Deed::Makes(OTHER, POOL), Answer::InUse),
    (Deed::Hires(OTHER, POOL), Answer::InUse),
    (Deed::Says(POOL, b"a", UNTOLD), Answer::WrongHandle),
    (
        Deed::Tells(POOL, 0, b"a", b"a.c", b"f", UNTOLD),
        Answer::WrongHandle,
    ),
    (Deed::Flushes(POOL, 0, UNTOLD), Answer::WrongHandle),
    (Deed::Dumps(POOL, 0, 0), Answer::WrongHandle),
    (Deed::Works(POOL, 9, 0), Answer::WrongHandle),
    (Deed::Fails(POOL, 0), Answer::WrongHandle),
    (Deed::Takes(POOL, AREA, &[]), Answer::WrongHandle),
    (Deed::Gives(POOL), Answer::WrongHandle),
    (Deed::Closes(POOL), Answer::WrongHandle),
];

/// A pool is refused where something else is wanted, and stays.
#[test]
fn a_pool_in_another_place(rt: HostRuntime) {
    let wrong = wrong_between(rt.alloc(), OF_A_POOL);
    assert!(rt; wrong.is_none(), "{wrong:?}");
}

static OF_A_PRODUCER: &[Row<'static>] = &[
    (Deed::Founds(TALKER, b"a.log", 1), Answer::WrongHandle),
    (Deed::Opens(TALKER, NONE, PLAIN), Answer::InUse),
    (Deed::Opens(OTHER, TALKER, PLAIN), Answer::WrongHandle),
    (Deed::Makes(TALKER, SECOND), Answer::WrongHandle),
    (Deed::Hires(TALKER, SECOND), Answer::WrongHandle),
    (Deed::Makes(POOL, TALKER), Answer::InUse),
    (Deed::Hires(POOL, TALKER), Answer::InUse),
    (Deed::Works(TALKER, 9, 0), Answer::WrongHandle),
    (Deed::Fails(TALKER, 0), Answer::WrongHandle),
    (Deed::Takes(TALKER, AREA, &[]), Answer::WrongHandle),
    (Deed::Ends(TALKER, [0; 6]), Answer::WrongHandle),
    (Deed::Closes(TALKER), Answer::WrongHandle),
];

/// The same of a producer.
#[test]
fn a_producer_in_another_place(rt: HostRuntime) {
    let wrong = wrong_between(rt.alloc(), OF_A_PRODUCER);
    assert!(rt; wrong.is_none(), "{wrong:?}");
}

static OF_A_WORKER: &[Row<'static>] = &[
    (Deed::Founds(WRITER, b"a.log", 1), Answer::WrongHandle),
    (Deed::Opens(WRITER, NONE, PLAIN), Answer::InUse),
    (Deed::Opens(OTHER, WRITER, PLAIN), Answer::WrongHandle),
    (Deed::Makes(WRITER, SECOND), Answer::WrongHandle),
    (Deed::Hires(WRITER, SECOND), Answer::WrongHandle),
    (Deed::Makes(POOL, WRITER), Answer::InUse),
    (Deed::Hires(POOL, WRITER), Answer::InUse),
    (Deed::Finds(WRITER, b"app", UNTOLD), Answer::WrongHandle),
    (Deed::Sets(WRITER, 0, 5), Answer::WrongHandle),
    (Deed::Asks(WRITER, 0, 5), Answer::WrongHandle),
    (Deed::Says(WRITER, b"a", UNTOLD), Answer::WrongHandle),
    (
        Deed::Tells(WRITER, 0, b"a", b"a.c", b"f", UNTOLD),
        Answer::WrongHandle,
    ),
    (Deed::Flushes(WRITER, 0, UNTOLD), Answer::WrongHandle),
    (Deed::Dumps(WRITER, 0, 0), Answer::WrongHandle),
    (Deed::Takes(WRITER, AREA, &[]), Answer::WrongHandle),
    (Deed::Ends(WRITER, [0; 6]), Answer::WrongHandle),
    (Deed::Closes(WRITER), Answer::WrongHandle),
];

/// The same of a worker.
#[test]
fn a_worker_in_another_place(rt: HostRuntime) {
    let wrong = wrong_between(rt.alloc(), OF_A_WORKER);
    assert!(rt; wrong.is_none(), "{wrong:?}");
}

static OF_FILES: &[Row<'static>] = &[
    (Deed::Founds(FILES, b"a.log", 1), Answer::WrongHandle),
    (Deed::Opens(FILES, NONE, PLAIN), Answer::InUse),
    (Deed::Opens(OTHER, FILES, PLAIN), Answer::WrongHandle),
    (Deed::Makes(FILES, SECOND), Answer::WrongHandle),
    (Deed::Hires(FILES, SECOND), Answer::WrongHandle),
    (Deed::Makes(POOL, FILES), Answer::InUse),
    (Deed::Hires(POOL, FILES), Answer::InUse),
    (Deed::Finds(FILES, b"app", UNTOLD), Answer::WrongHandle),
    (Deed::Sets(FILES, 0, 5), Answer::WrongHandle),
    (Deed::Asks(FILES, 0, 5), Answer::WrongHandle),
    (Deed::Says(FILES, b"a", UNTOLD), Answer::WrongHandle),
    (
        Deed::Tells(FILES, 0, b"a", b"a.c", b"f", UNTOLD),
        Answer::WrongHandle,
    ),
    (Deed::Flushes(FILES, 0, UNTOLD), Answer::WrongHandle),
    (Deed::Dumps(FILES, 0, 0), Answer::WrongHandle),
    (Deed::Works(FILES, 9, 0), Answer::WrongHandle),
    (Deed::Fails(FILES, 0), Answer::WrongHandle),
    (Deed::Gives(FILES), Answer::WrongHandle),
    (Deed::Ends(FILES, [0; 6]), Answer::WrongHandle),
];

/// The same of the files of a pool.
#[test]
fn files_of_a_pool_in_another_place(rt: HostRuntime) {
    let wrong = wrong_between(rt.alloc(), OF_FILES);
    assert!(rt; wrong.is_none(), "{wrong:?}");
}

static OF_FOUND_FILES: &[Row<'static>] = &[
    (Deed::Founds(FILES, b"\xff", 1), Answer::NotUtf8),
    (Deed::Closes(FILES), Answer::NoHandle),
    (Deed::Founds(FILES, b"", 0), Answer::Done),
    (Deed::Closes(FILES), Answer::Done),
    (Deed::Founds(FILES, b"a.log", 1), Answer::Done),
    (Deed::Founds(FILES, b"a\xc3", 1), Answer::NotUtf8),
    (Deed::Founds(FILES, b"", u64::MAX), Answer::Done),
    (Deed::Opens(FILES, NONE, PLAIN), Answer::InUse),
    (Deed::Makes(FILES, SECOND), Answer::WrongHandle),
    (Deed::Hires(FILES, SECOND), Answer::WrongHandle),
    (Deed::Makes(NONE, FILES), Answer::InUse),
    (Deed::Finds(FILES, b"app", UNTOLD), Answer::WrongHandle),
    (Deed::Sets(FILES, 0, 5), Answer::WrongHandle),
    (Deed::Asks(FILES, 0, 5), Answer::WrongHandle),
    (Deed::Says(FILES, b"a", UNTOLD), Answer::WrongHandle),
    (Deed::Flushes(FILES, 0, UNTOLD), Answer::WrongHandle),
    (Deed::Dumps(FILES, 0, 0), Answer::WrongHandle),
    (Deed::Works(FILES, 9, 0), Answer::WrongHandle),
    (Deed::Fails(FILES, 0), Answer::WrongHandle),
    (Deed::Takes(FILES, AREA, &[]), Answer::WrongHandle),
    (Deed::Gives(FILES), Answer::WrongHandle),
    (Deed::Ends(FILES, [0; 6]), Answer::WrongHandle),
];

/// The same of files that were found, over which a pool is opened then.
#[test]
fn found_files_in_another_place(rt: HostRuntime) {
    let wrong = wrong_of(rt.alloc(), [OF_FOUND_FILES, START, END], 0);
    assert!(rt; wrong.is_none(), "{wrong:?}");
}

static BACK: &[Row<'static>] = &[
    (Deed::Gives(TALKER), Answer::Done),
    (Deed::Says(TALKER, b"a", UNTOLD), Answer::NoHandle),
    (Deed::Gives(TALKER), Answer::NoHandle),
    (Deed::Gives(WRITER), Answer::Done),
    (Deed::Works(WRITER, 9, 0), Answer::NoHandle),
    (Deed::Fails(WRITER, 0), Answer::NoHandle),
    (Deed::Gives(WRITER), Answer::NoHandle),
    (Deed::Makes(POOL, WRITER), Answer::Done),
    (Deed::Hires(POOL, TALKER), Answer::Done),
    (Deed::Says(WRITER, b"b", 0), Answer::Done),
    (Deed::Gives(WRITER), Answer::Done),
    (Deed::Works(TALKER, 9, 1), Answer::Idle),
    (Deed::Gives(TALKER), Answer::Done),
    (Deed::Ends(POOL, [1, 1, 0, 0, 1, 0]), Answer::Done),
    (Deed::Ends(POOL, [0; 6]), Answer::NoHandle),
    (Deed::Finds(POOL, b"app", UNTOLD), Answer::NoHandle),
    (Deed::Makes(POOL, TALKER), Answer::NoHandle),
    (Deed::Closes(FILES), Answer::Done),
    (Deed::Closes(FILES), Answer::NoHandle),
    (Deed::Takes(FILES, AREA, &[]), Answer::NoHandle),
];

/// A handle whose part was given back, ended or let go holds nothing, and may hold another part.
#[test]
fn handles_are_used_again(rt: HostRuntime) {
    let wrong = wrong_of(rt.alloc(), [START, BACK, NOTHING], 0);
    assert!(rt; wrong.is_none(), "{wrong:?}");
}

static AGAIN: &[Row<'static>] = &[
    (Deed::Opens(OTHER, OTHER_FILES, PLAIN), Answer::Done),
    (Deed::Makes(OTHER, THIRD), Answer::Done),
    (Deed::Says(THIRD, b"other", 0), Answer::Done),
    (Deed::Ends(OTHER, [0; 6]), Answer::PartsOut),
    (Deed::Gives(THIRD), Answer::Done),
    (Deed::Ends(OTHER, [1, 1, 0, 0, 1, 0]), Answer::Done),
    (Deed::Takes(FILES, AREA, &[]), Answer::Idle),
    (
        Deed::Takes(
            OTHER_FILES,
            AREA,
            &[(1, b"a.log", b"other\n"), (4, b"a.log", b"")],
        ),
        Answer::Done,
    ),
    (Deed::Closes(OTHER_FILES), Answer::Done),
];

/// A second pool has its own queue, its own files and its own report.
#[test]
fn two_pools(rt: HostRuntime) {
    let wrong = wrong_between(rt.alloc(), AGAIN);
    assert!(rt; wrong.is_none(), "{wrong:?}");
}
