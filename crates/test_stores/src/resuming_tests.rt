//! Appends that fail, and how many bytes of each were taken: those behind them, appended later, make it whole.
use crate::folder::{clear, has, open};
use crate::memory_tests::{are_just, noting};
use crate::sessions::{Before, prepared};
use alog_sink::{FuseStore, MemStore, Resumes, StoreError};
use std::alloc::Global;
use std::path::PathBuf;
use std::test::Fail;

/// The bytes of an append, and how many are taken of one that is to fail.
type Appending<'a> = (&'a str, &'a [u8], Option<usize>);

/// Whether a store answers each of these appends as it says. A failure of what is to be done is an error of the test.
fn takes_all<S: Resumes>(store: &mut S, appends: &[Appending<'_>]) -> Result<bool, StoreError> {
    let mut are_right = true;
    for (name, bytes, wanted) in appends {
        match (store.append_some(name, bytes), wanted) {
            (Ok(()), wanted) => are_right = are_right && wanted.is_none(),
            (Err(error), Some(taken)) => are_right = are_right && error.taken == *taken,
            (Err(_), None) => return Err(StoreError),
        }
    }
    Ok(are_right)
}

/// After how many calls a fuse burns, how many bytes of an append it passes on, the appends, and what `log` has then.
type Burning<'a> = (u64, usize, &'a [Appending<'a>], &'a [u8]);

const BURNING: [Burning<'_>; 4] = [
    (
        0,
        2,
        &[("log", b"one\n", Some(2)), ("log", b"e\n", None)],
        b"one\n",
    ),
    (
        1,
        0,
        &[
            ("log", b"one\n", None),
            ("log", b"two\n", Some(0)),
            ("log", b"two\n", None),
        ],
        b"one\ntwo\n",
    ),
    // The whole of a line is taken, though it fails.
    (
        0,
        9,
        &[("log", b"one\n", Some(4)), ("log", b"", None)],
        b"one\n",
    ),
    (5, 9, &[("log", b"one\n", None)], b"one\n"),
];

/// Whether a row holds.
fn burns(alloc: Global, row: &Burning<'_>) -> Result<bool, StoreError> {
    let (count, part, appends, bytes) = *row;
    let mut store = FuseStore::new(noting(MemStore::new(alloc)), count, part);
    let are_taken = takes_all(&mut store, appends)?;
    Ok(are_just(store.store(), &[("log", bytes)])? && are_taken)
}

#[test]
fn parts_of_appends_in_memory(rt: HostRuntime) -> Result<(), Fail> {
    for (i, row) in BURNING.iter().enumerate() {
        assert!(rt; burns(rt.alloc(), row)?, "row {i}");
    }
    Ok(())
}

/// How many bytes a buffer holds.
const FULL: usize = 65_536;

/// Whether what a full file does not take stays in its buffer, as far as it has room, and is told.
fn tells_of_full<S: Resumes>(store: &mut S, bytes: &[u8]) -> Result<bool, StoreError> {
    let appends = [
        ("full", bytes, Some(0)),
        ("full", b"one\n", None),
        ("full", bytes, Some(0)),
        ("full", bytes.get(4..).unwrap_or(&[]), None),
        ("full", b"two\n", Some(0)),
        ("../log", b"one\n", Some(0)),
        ("log", bytes, None),
        ("log", b"one\n", None),
    ];
    takes_all(store, &appends)
}

/// The same of a store of its own.
fn tells_in(rt: &HostRuntime, path: &PathBuf, bytes: &[u8]) -> Result<bool, Fail> {
    let mut store = open(rt, path)?;
    Ok(tells_of_full(&mut store, bytes)?)
}

fn of_full_file(rt: &HostRuntime) -> Result<bool, Fail> {
    let mut bytes = Vec::from_elem(rt.alloc(), b'x', FULL)?;
    let path = prepared(rt, "taken", &[Before::Full("full")])?;
    let are_told = tells_in(rt, &path, bytes.as_slice())?;
    bytes.extend_from_slice(b"one\n")?;
    let is_right = has(rt, &path, "log", Some(bytes.as_slice()))? && are_told;
    clear(rt, &path)?;
    Ok(is_right)
}

#[test]
fn parts_of_appends_in_a_folder(rt: HostRuntime) -> Result<(), Fail> {
    assert!(rt; of_full_file(&rt)?);
    Ok(())
}
