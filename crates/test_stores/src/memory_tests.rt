//! Files in memory, and behind a fuse.
use crate::calls::{Call, EACH, answers_all, has_just};
use crate::stores::Noting;
use alog_sink::{Fuse, FuseStore, MemStore, Store, StoreError};
use std::alloc::Global;
use std::test::Fail;

/// A store with one file, which was put there twice.
pub fn opened(alloc: Global) -> Result<MemStore, Fail> {
    let store = MemStore::new(alloc).with("a", b"old")?;
    Ok(store.with("a", b"abc")?)
}

/// The files that each call once has left.
pub const LEFT: [(&str, &[u8]); 2] = [("b", b"abcde"), ("d", b"xy")];

/// Whether each call once is answered by files in memory as it says, and leaves those.
fn of_memory(alloc: Global) -> Result<bool, Fail> {
    let mut store = opened(alloc)?;
    Ok(answers_all(&mut store, &EACH)? && has_just(&store, &LEFT))
}

/// The same behind a fuse that does not burn.
fn of_fuse(alloc: Global) -> Result<bool, Fail> {
    let mut store = FuseStore::new(opened(alloc)?, 100, 0);
    Ok(
        answers_all(&mut store, &EACH)?
            && has_just(store.store(), &LEFT)
            && has_just(&store.into_store(), &LEFT),
    )
}

#[test]
fn each_call(rt: HostRuntime) -> Result<(), Fail> {
    assert!(rt; of_memory(rt.alloc())?, "in memory");
    assert!(rt; of_fuse(rt.alloc())?, "behind a fuse");
    Ok(())
}

/// Files in no order of their names.
const NAMES: [Call<'_>; 5] = [
    Call::Appends("b.2", b"x", true),
    Call::Appends("b", b"x", true),
    Call::Appends("a", b"x", true),
    Call::Appends("c", b"x", true),
    Call::Appends("B", b"x", true),
];

/// Whether the names of a store's files are these, in this order.
fn has_names(store: &MemStore, names: &[&str]) -> bool {
    for (found, name) in store.files().keys().zip(names) {
        if found.as_str() != *name {
            return false;
        }
    }
    store.files().len() == names.len()
}

#[test]
fn names_in_order(rt: HostRuntime) -> Result<(), Fail> {
    let mut store = MemStore::new(rt.alloc());
    let are_right = answers_all(&mut store, &NAMES)?;
    assert!(rt; are_right && has_names(&store, &["B", "a", "b", "b.2", "c"]));
    Ok(())
}

/// After how many calls a fuse burns, how many bytes of an append it passes on, and the calls; how far it has burnt then, and what
/// is left.
type Burning<'a> = (u64, usize, &'a [Call<'a>], Fuse, &'a [(&'a str, &'a [u8])]);

const BURNING: [Burning<'_>; 3] = [
    // An append that stops.
    (
        1,
        3,
        &[
            Call::Appends("log", b"one\n", true),
            Call::Appends("log", b"two\n", false),
        ],
        Fuse::Burnt,
        &[("log", b"one\ntwo")],
    ),
    (
        1,
        3,
        &[
            Call::Appends("log", b"one\n", true),
            Call::Appends("log", b"two\n", false),
            Call::Appends("log", b"!", true),
        ],
        Fuse::Burnt,
        &[("log", b"one\ntwo!")],
    ),
    // A line shorter than its part.
    (
        0,
        9,
        &[Call::Appends("log", b"one", false)],
        Fuse::Burnt,
        &[("log", b"one")],
    ),
];

/// These files, of which it is noted whether a call of theirs fails.
pub fn noting(files: MemStore) -> Noting {
    Noting {
        files,
        has_failed: false,
    }
}

/// Whether these files are just that. It is an error of the test where there was no memory for them.
pub fn are_just(noting: &Noting, files: &[(&str, &[u8])]) -> Result<bool, StoreError> {
    if noting.has_failed {
        return Err(StoreError);
    }
    Ok(has_just(&noting.files, files))
}

/// Whether a row holds.
fn burns(alloc: Global, row: &Burning<'_>) -> Result<bool, StoreError> {
    let (count, part, calls, fuse, files) = *row;
    let mut store = FuseStore::new(noting(MemStore::new(alloc)), count, part);
    Ok(answers_all(&mut store, calls)? && are_just(store.store(), files)? && store.fuse == fuse)
}

#[test]
fn an_append_that_stops(rt: HostRuntime) -> Result<(), Fail> {
    for (i, row) in BURNING.iter().enumerate() {
        assert!(rt; burns(rt.alloc(), row)?, "row {i}");
    }
    Ok(())
}

/// Which of five calls fails, the first four of which differ, what the size is said to be, and how many files are left.
const FAILING: [(u64, Result<Option<u64>, StoreError>, usize); 4] = [
    (0, Ok(None), 1),
    (1, Ok(Some(3)), 0),
    (2, Err(StoreError), 0),
    (3, Ok(Some(3)), 1),
];

/// Whether a store fails just that call.
fn fails_at<S: Store>(
    store: &mut S,
    call: u64,
    size: Result<Option<u64>, StoreError>,
) -> Result<bool, StoreError> {
    let calls = [
        Call::Renames("a", "b", call != 0),
        Call::Flushes("b", call != 1),
        Call::Sizes("b", size),
        Call::Removes("b", call != 3),
        Call::Flushes("b", true),
    ];
    answers_all(store, &calls)
}

/// The same of a store of its own, which leaves so many files.
fn fails_once(
    alloc: Global,
    call: u64,
    size: Result<Option<u64>, StoreError>,
    left: usize,
) -> Result<bool, Fail> {
    let mut store = FuseStore::new(opened(alloc)?, call, 0);
    Ok(fails_at(&mut store, call, size)? && store.into_store().files().len() == left)
}

#[test]
fn a_fuse_fails_any_call_once(rt: HostRuntime) -> Result<(), Fail> {
    for (call, size, left) in &FAILING {
        assert!(rt; fails_once(rt.alloc(), *call, *size, *left)?, "call {call}");
    }
    Ok(())
}
