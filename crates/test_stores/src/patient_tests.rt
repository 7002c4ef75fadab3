//! A store that tries again: what it leaves, how long it pauses, how often it says so, and what it does not try again.
use crate::calls::{EACH, answers_all};
use crate::memory_tests::{LEFT, are_just, noting, opened};
use crate::patient::{Asked, Counting, Failing, Flaky};
use alog_patient::{Patience, PatientStore};
use alog_sink::{MemStore, Store, StoreError};
use std::alloc::Global;
use std::io::ErrorKind;
use std::sync::Wait;
use std::test::Fail;
use std::time::Clock;

/// A patience, and an append of five bytes; whether it is done, what was asked of the runtime, and what the file has then.
type Trying<'a> = (Patience, Failing, bool, Asked, &'a [u8]);

/// A full disk, which is told as such.
const FULL: Option<ErrorKind> = Some(ErrorKind::StorageFull);

/// Names that are none of a file, of which the one is refused here, and the other by the system.
const OUTSIDE: Option<ErrorKind> = Some(ErrorKind::InvalidInput);

const TOO_LONG: Option<ErrorKind> = Some(ErrorKind::InvalidFilename);

const TRYING: [Trying<'_>; 10] = [
    (Patience::Endless, (0, 1, None), true, (0, 0, 0), b"line\n"),
    (Patience::Endless, (1, 5, None), true, (1, 1, 2), b"line\n"),
    (
        Patience::Endless,
        (8, 1, FULL),
        true,
        (8, 121, 2),
        b"line\n",
    ),
    (Patience::Times(3), (3, 2, None), true, (3, 7, 2), b"line\n"),
    (Patience::Times(3), (4, 1, FULL), false, (3, 7, 2), b"line"),
    (Patience::Times(0), (1, 3, None), false, (0, 0, 0), b"lin"),
    // What no change on the disk mends is not tried again.
    (Patience::Endless, (1, 3, OUTSIDE), false, (0, 0, 0), b"lin"),
    (Patience::Endless, (1, 0, TOO_LONG), false, (0, 0, 0), b""),
    (Patience::Times(3), (1, 1, OUTSIDE), false, (0, 0, 0), b"l"),
    (
        Patience::Times(3),
        (0, 1, OUTSIDE),
        true,
        (0, 0, 0),
        b"line\n",
    ),
];

/// Whether a store that tries again does the append of a row or not, as it says, and leaves what it says.
fn appends<R: Wait + Clock + Eprint>(
    store: &mut PatientStore<Flaky, &R>,
    row: &Trying<'_>,
) -> Result<bool, StoreError> {
    let was_done = store.append("log", b"line\n").is_ok();
    let is_left = are_just(&store.store.files, &[("log", row.4)])?;
    Ok(is_left && was_done == row.2)
}

/// The same of a store of its own.
fn appends_once<R: Wait + Clock + Eprint>(
    rt: &R,
    flaky: Flaky,
    row: &Trying<'_>,
) -> Result<bool, StoreError> {
    let mut store = PatientStore::new(rt, flaky, row.0);
    appends(&mut store, row)
}

/// Whether a row holds.
fn tries<R: Wait>(rt: &R, alloc: Global, row: &Trying<'_>) -> Result<bool, StoreError> {
    let flaky = Flaky::new(alloc, noting(MemStore::new(alloc)), row.1);
    let counting = Counting::new(rt);
    let is_right = appends_once(&counting, flaky, row)?;
    Ok(is_right && counting.asked() == row.3)
}

#[test]
fn appends_that_are_tried_again(rt: HostRuntime) -> Result<(), Fail> {
    for (i, row) in TRYING.iter().enumerate() {
        assert!(rt; tries(&rt, rt.alloc(), row)?, "row {i}");
    }
    Ok(())
}

/// Whether a store that tries again answers each call once as it says, and leaves what that leaves, with each flush asked for.
fn answers_each<R: Wait + Clock + Eprint>(
    store: &mut PatientStore<Flaky, &R>,
) -> Result<bool, StoreError> {
    let are_right = answers_all(store, &EACH)?;
    let are_left = are_just(&store.store.files, &LEFT)?;
    Ok(are_left && are_right && store.store.flushed.as_str() == "none b ")
}

/// The same of a store of its own.
fn answers_each_once<R: Wait + Clock + Eprint>(rt: &R, flaky: Flaky) -> Result<bool, StoreError> {
    let mut store = PatientStore::new(rt, flaky, Patience::Endless);
    answers_each(&mut store)
}

/// The same where each call fails twice before it is done, for which the runtime is asked so.
fn tries_each<R: Wait>(rt: &R, alloc: Global) -> Result<bool, Fail> {
    let flaky = Flaky::new(alloc, noting(opened(alloc)?), (2, 1, FULL));
    let counting = Counting::new(rt);
    let is_right = answers_each_once(&counting, flaky)?;
    Ok(is_right && counting.asked() == (34, 51, 34))
}

#[test]
fn each_call_is_tried_again(rt: HostRuntime) -> Result<(), Fail> {
    assert!(rt; tries_each(&rt, rt.alloc())?);
    Ok(())
}
