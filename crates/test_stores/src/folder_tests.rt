//! Files of a folder: what the system has after each call, and what a call answers that the system refuses.
use crate::calls::{Call, EACH, answers, answers_all};
use crate::folder::{Folder, clear, count, found, has, has_all, open, scratch};
use crate::sessions::{Before, prepared};
use alog_sink::{FolderStore, Store, StoreError};
use std::alloc::Global;
use std::fs;
use std::path::PathBuf;
use std::test::Fail;

/// Whether each call once is answered as it says, and leaves these two files.
fn answers_each(rt: &HostRuntime, path: &PathBuf) -> Result<bool, Fail> {
    Ok(
        of_calls(rt, path, &EACH)?
            && has_all(rt, path, &[("b", Some(b"abcde")), ("d", Some(b"xy"))])?
            && count(rt, path.as_str())? == 2,
    )
}

/// Each call once.
fn of_each_call(rt: &HostRuntime) -> Result<bool, Fail> {
    let path = prepared(rt, "each", &[Before::File("a", "abc")])?;
    let are_right = answers_each(rt, &path)?;
    clear(rt, &path)?;
    Ok(are_right)
}

/// Whether a store of its own answers each of these calls as it says.
fn of_calls(rt: &HostRuntime, path: &PathBuf, calls: &[Call<'_>]) -> Result<bool, Fail> {
    let mut store = open(rt, path)?;
    Ok(answers_all(&mut store, calls)?)
}

#[test]
fn each_call_in_a_folder(rt: HostRuntime) -> Result<(), Fail> {
    assert!(rt; of_each_call(&rt)?);
    Ok(())
}

/// How many bytes a buffer holds.
const FULL: usize = 65_536;

fn many(alloc: Global, count: usize) -> Result<Vec<u8>, Fail> {
    Ok(Vec::from_elem(alloc, b'x', count)?)
}

/// Appends these bytes to a store in two parts.
fn appends_both<S: Store>(store: &mut S, all: &[u8], first: usize) -> Result<bool, StoreError> {
    let parts = [
        Call::Appends("log", all.get(..first).unwrap_or(&[]), true),
        Call::Appends("log", all.get(first..).unwrap_or(&[]), true),
    ];
    answers_all(store, &parts)
}

/// Whether just so many of these bytes are written before a flush, where they are appended to a store in two parts.
fn writes_both(
    rt: &HostRuntime,
    path: &PathBuf,
    store: &mut Folder,
    all: &[u8],
    first: usize,
    written: usize,
) -> Result<bool, Fail> {
    Ok(
        appends_both(store, all, first)?
            && has(rt, path, "log", all.get(..written))?
            && answers(store, Call::Flushes("log", true))?
            && has(rt, path, "log", Some(all))?,
    )
}

/// The same of a store of its own.
fn are_written(
    rt: &HostRuntime,
    path: &PathBuf,
    all: &[u8],
    first: usize,
    written: usize,
) -> Result<bool, Fail> {
    let mut store = open(rt, path)?;
    writes_both(rt, path, &mut store, all, first, written)
}

/// The bytes of two appends, and how many of them are written before a flush.
const ENDS: [(usize, usize, usize); 8] = [
    (0, FULL - 1, 0),
    (0, FULL, FULL),
    (0, FULL + 1, FULL + 1),
    (1, FULL - 1, 0),
    (1, FULL, FULL + 1),
    (2, FULL - 1, 2),
    (FULL - 1, 1, 0),
    (FULL - 1, 2, FULL - 1),
];

/// Whether a row holds.
fn ends(rt: &HostRuntime, first: usize, second: usize, written: usize) -> Result<bool, Fail> {
    let path = scratch(rt, "ends")?;
    let all = many(rt.alloc(), first.saturating_add(second))?;
    let are_written = are_written(rt, &path, all.as_slice(), first, written)?;
    clear(rt, &path)?;
    Ok(are_written)
}

#[test]
fn the_ends_of_a_buffer(rt: HostRuntime) -> Result<(), Fail> {
    for (first, second, written) in &ENDS {
        assert!(rt; ends(&rt, *first, *second, *written)?, "{first}, {second}");
    }
    Ok(())
}

/// Names with which no call but a flush is done: no file can have the last but one, the last is a rename's own, and the
/// others lead out of the folder.
const NO_NAMES: [&str; 8] = [
    "",
    ".",
    "..",
    "/tmp/x",
    "below/x",
    "../x",
    "a\0b",
    ".file.replaced",
];

/// Whether all calls with a name are refused but a flush.
fn refuses_name<S: Store>(store: &mut S, name: &str) -> Result<bool, StoreError> {
    let calls = [
        Call::Appends(name, b"x", false),
        Call::Sizes(name, Err(StoreError)),
        Call::Removes(name, false),
        Call::Renames("file", name, false),
        Call::Renames(name, "file", false),
        Call::Flushes(name, true),
    ];
    answers_all(store, &calls)
}

/// Whether each call with one of those names is refused.
fn refuses_names<S: Store>(store: &mut S) -> Result<bool, StoreError> {
    for name in &NO_NAMES {
        if !refuses_name(store, name)? {
            return Ok(false);
        }
    }
    Ok(true)
}

/// What the system refuses whoever asks is a folder where a file is to be.
const BELOW: [Call<'_>; 3] = [
    Call::Appends("below", b"x", false),
    Call::Renames("file", "below", false),
    Call::Removes("below", false),
];

/// Whether a store refuses all that.
fn refuses_both<S: Store>(store: &mut S) -> Result<bool, StoreError> {
    Ok(answers_all(store, &BELOW)? && refuses_names(store)?)
}

/// Whether all that is refused in a folder.
fn refuses_all(rt: &HostRuntime, path: &PathBuf) -> Result<bool, Fail> {
    let mut store = open(rt, path)?;
    Ok(refuses_both(&mut store)?)
}

/// Whether all that is refused, and leaves a file that cannot take its place as it was.
fn refuses_and_leaves(rt: &HostRuntime, path: &PathBuf) -> Result<bool, Fail> {
    Ok(
        refuses_all(rt, path)?
            && has(rt, path, "file", Some(b"kept"))?
            && count(rt, path.as_str())? == 2,
    )
}

/// A folder where a file is to be, and a file.
const REFUSING: [Before<'_>; 2] = [Before::Folder("below"), Before::File("file", "kept")];

fn of_refusals(rt: &HostRuntime) -> Result<bool, Fail> {
    let path = prepared(rt, "refused", &REFUSING)?;
    let are_refused = refuses_and_leaves(rt, &path)?;
    fs::remove_dir(rt, path.join(rt.alloc(), "below")?)?;
    clear(rt, &path)?;
    Ok(are_refused)
}

#[test]
fn what_is_refused(rt: HostRuntime) -> Result<(), Fail> {
    assert!(rt; of_refusals(&rt)?);
    Ok(())
}

/// Whether the calls are refused on files to which nothing can be written, but an append that stays in the buffer, a rename to such a
/// file's name, and its removal.
fn refuses_calls<S: Store>(store: &mut S, bytes: &[u8]) -> Result<bool, StoreError> {
    let calls = [
        Call::Appends("a", bytes, false),
        Call::Flushes("a", true),
        Call::Appends("b", b"x", true),
        Call::Appends("c", b"x", true),
        Call::Appends("d", b"x", true),
        Call::Appends("e", b"x", true),
        Call::Flushes("b", false),
        Call::Appends("b", bytes, false),
        Call::Sizes("c", Err(StoreError)),
        Call::Renames("d", "f", false),
        Call::Renames("f", "d", true),
        Call::Removes("e", true),
    ];
    answers_all(store, &calls)
}

/// Whether a store refuses all that, and other files can be written.
fn writes_others(
    rt: &HostRuntime,
    path: &PathBuf,
    store: &mut Folder,
    bytes: &[u8],
) -> Result<bool, Fail> {
    Ok(
        refuses_calls(store, bytes)?
            && count(rt, path.as_str())? == 4
            && answers(store, Call::Appends("log", b"x", true))?,
    )
}

/// The same of a store of its own.
fn refuses_each(rt: &HostRuntime, path: &PathBuf, bytes: &[u8]) -> Result<bool, Fail> {
    let mut store = open(rt, path)?;
    writes_others(rt, path, &mut store, bytes)
}

/// Files to which nothing can be written.
const FULL_FILES: [Before<'_>; 5] = [
    Before::Full("a"),
    Before::Full("b"),
    Before::Full("c"),
    Before::Full("d"),
    Before::Full("e"),
];

fn of_full_files(rt: &HostRuntime) -> Result<bool, Fail> {
    let path = prepared(rt, "full", &FULL_FILES)?;
    let bytes = many(rt.alloc(), FULL)?;
    let is_right = refuses_each(rt, &path, bytes.as_slice())? && has(rt, &path, "log", Some(b"x"))?;
    clear(rt, &path)?;
    Ok(is_right)
}

#[test]
fn full_files(rt: HostRuntime) -> Result<(), Fail> {
    assert!(rt; of_full_files(&rt)?);
    Ok(())
}

/// Which of seven calls were done: two appends, a size, a rename, an append, a removal and a flush.
#[derive(Clone, Copy)]
struct Answers {
    one: bool,
    two: bool,
    asked: bool,
    moved: bool,
    three: bool,
    removed: bool,
    flushed: bool,
}

fn seven_calls<S: Store>(store: &mut S) -> Answers {
    Answers {
        one: store.append("log", b"one\n").is_ok(),
        two: store.append("log", b"two\n").is_ok(),
        asked: store.size("log").is_ok(),
        moved: store.rename("log", "old").is_ok(),
        three: store.append("log", b"three\n").is_ok(),
        removed: store.remove("old").is_ok(),
        flushed: store.flush("log").is_ok(),
    }
}

fn failures(answers: Answers) -> usize {
    let Answers {
        one,
        two,
        asked,
        moved,
        three,
        removed,
        flushed,
    } = answers;
    let all = [one, two, asked, moved, three, removed, flushed];
    all.iter().filter(|&&is_ok| !is_ok).count()
}

/// What `log` and `old` have where at most one call was not done; `log` may be absent then.
fn left_by(answers: Answers) -> (&'static [u8], Option<&'static [u8]>) {
    if !answers.one {
        (b"three\n", None)
    } else if !answers.moved {
        (b"one\ntwo\nthree\n", None)
    } else if !answers.three {
        (b"", None)
    } else if !answers.removed {
        (b"three\n", Some(b"one\ntwo\n"))
    } else {
        (b"three\n", None)
    }
}

/// Which of the calls a store of its own did, or none where it was not made.
fn called(rt: &HostRuntime, path: &PathBuf) -> Option<Answers> {
    match FolderStore::new(rt.alloc(), *rt, path.as_str()) {
        Ok(mut store) => Some(seven_calls(&mut store)),
        Err(_) => None,
    }
}

/// Whether the files have what those calls left that were done, of which at most one was not.
fn is_left_by(rt: &HostRuntime, path: &PathBuf, answers: Answers) -> Result<bool, Fail> {
    let (log, old) = left_by(answers);
    let kept = found(rt, path, "log")?;
    let is_kept = kept.is_none_or(|file| file.as_slice() == log);
    Ok(failures(answers) <= 1 && is_kept && has(rt, path, "old", old)?)
}

fn of_want_of_memory(rt: &HostRuntime) -> Result<bool, Fail> {
    let path = scratch(rt, "memory")?;
    let is_right = match called(rt, &path) {
        Some(answers) => is_left_by(rt, &path, answers)?,
        None => true,
    };
    clear(rt, &path)?;
    Ok(is_right)
}

// Where memory is wanting once, the store is not made, or one call fails: the files have what the others were answered.
#[test]
fn want_of_memory(rt: HostRuntime) -> Result<(), Fail> {
    assert!(rt; of_want_of_memory(&rt)?);
    Ok(())
}
