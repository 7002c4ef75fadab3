//! Sinks over a folder.
use crate::folder::{clear, count, has, open, scratch};
use crate::hour_of_line;
use alog_format::{Context, LineBuf, Zone};
use alog_msg::{Level, Message};
use alog_pattern::Pattern;
use alog_sink::{Face, MemStore, Names, Sink, SinkError, Store, Taken};
use std::alloc::Global;
use std::fs;
use std::os::unix::fs::symlink;
use std::path::PathBuf;
use std::test::Fail;

/// An hour in nanoseconds, and the begin of 2024-02-28 in UTC.
const HOUR: i64 = 3_600_000_000_000;

const START: i64 = 1_709_078_400_000_000_000;

/// A face of the text alone.
fn face(alloc: Global) -> Result<Face, Fail> {
    Ok(Face {
        level: Level::Info,
        pattern: Pattern::compile(alloc, b"%v", 64)?,
        context: Context {
            zone: Zone::Fixed(0),
            process: 7,
        },
        names: Names::new(alloc),
    })
}

/// A kind of sink, with few and short files.
#[derive(Clone, Copy)]
enum Kind {
    Memory,
    Rotating(usize),
    Daily(usize),
}

/// A sink of this kind over this store.
fn sink<S: Store + Drop>(alloc: Global, store: S, kind: Kind) -> Result<Sink<S>, Fail> {
    let face = face(alloc)?;
    let sink = match kind {
        Kind::Memory => Sink::memory(alloc, face, store, "log.txt"),
        Kind::Rotating(files) => Sink::rotating(alloc, face, store, "log.txt", 10, files),
        Kind::Daily(files) => Sink::daily(alloc, face, store, "log.txt", 0, 0, files),
    };
    match sink {
        Ok(sink) => Ok(sink),
        Err(unopened) => Err(unopened.error.into()),
    }
}

/// Whether a sink that is given a message answers so. A failure of its store that is not wanted is an error of the test: so it may end
/// where there is no memory.
fn takes<S: Store>(
    sink: &mut Sink<S>,
    message: &Message,
    line: &mut LineBuf,
    wanted: Result<Taken, SinkError>,
) -> Result<bool, SinkError> {
    if !sink.may_take(message, line) {
        return Ok(false);
    }
    match sink.take(message, line) {
        Err(SinkError::Store) if wanted != Err(SinkError::Store) => Err(SinkError::Store),
        answer => Ok(answer == wanted),
    }
}

/// Whether a sink that is given a text of a time answers so.
fn gives<S: Store>(
    alloc: Global,
    sink: &mut Sink<S>,
    time: i64,
    text: &str,
    wanted: Result<Taken, SinkError>,
) -> Result<bool, Fail> {
    let message = Message::new(alloc, 64, 0, Level::Info, time, 1, text, None)?;
    let mut line = LineBuf::new(alloc, 1_024)?;
    Ok(takes(sink, &message, &mut line, wanted)?)
}

/// Whether a sink whose file cannot be written takes a text, fails at a flush and is broken then.
fn breaks<S: Store>(alloc: Global, sink: &mut Sink<S>) -> Result<bool, Fail> {
    Ok(
        gives(alloc, sink, 0, "one", Ok(Taken::Written))?
            && sink.flush() == Err(SinkError::Store)
            && gives(alloc, sink, 0, "two", Err(SinkError::Broken))?,
    )
}

fn breaks_in(rt: &HostRuntime, path: &PathBuf) -> Result<bool, Fail> {
    let mut sink = sink(rt.alloc(), open(rt, path)?, Kind::Memory)?;
    breaks(rt.alloc(), &mut sink)
}

/// Whether a sink over a file to which nothing can be written breaks.
fn of_a_full_file(rt: &HostRuntime) -> Result<bool, Fail> {
    let path = scratch(rt, "broken")?;
    symlink(rt, "/dev/full", path.join(rt.alloc(), "log.txt")?)?;
    let is_broken = breaks_in(rt, &path)?;
    clear(rt, &path)?;
    Ok(is_broken)
}

#[test]
fn a_sink_over_a_full_file(rt: HostRuntime) -> Result<(), Fail> {
    assert!(rt; of_a_full_file(&rt)?);
    Ok(())
}

/// Six lines, two of each day from 2024-02-28 on.
const LINES: [&str; 6] = ["a", "bbbb", "ccccccccccc", "dd", "eee", "f"];

/// Gives those lines to a sink. Whether it wrote each.
fn writes_six<S: Store>(alloc: Global, sink: &mut Sink<S>) -> Result<bool, Fail> {
    for (line, text) in (0u8..6).zip(&LINES) {
        let time = START.saturating_add(i64::from(hour_of_line(line)) * HOUR);
        if !gives(alloc, sink, time, text, Ok(Taken::Written))? {
            return Ok(false);
        }
    }
    Ok(true)
}

/// Whether a sink over this folder writes six lines.
fn writes_in(rt: &HostRuntime, path: &PathBuf, kind: Kind) -> Result<bool, Fail> {
    let mut sink = sink(rt.alloc(), open(rt, path)?, kind)?;
    writes_six(rt.alloc(), &mut sink)
}

/// Whether the folder has the files of a store, which are so many, and no other.
fn is_like(rt: &HostRuntime, path: &PathBuf, store: &MemStore, files: usize) -> Result<bool, Fail> {
    for (name, file) in store.files().iter() {
        if !has(rt, path, name.as_str(), Some(file.as_slice()))? {
            return Ok(false);
        }
    }
    Ok(count(rt, path.as_str())? == files && store.files().len() == files)
}

/// A sink over memory, where a file was there at the start.
fn over_memory(alloc: Global, kind: Kind) -> Result<Sink<MemStore>, Fail> {
    let opening = MemStore::new(alloc).with("log.txt", b"old\n")?;
    sink(alloc, opening, kind)
}

/// Whether a sink over memory has what is in the folder, so many files.
fn has_the_same(
    rt: &HostRuntime,
    path: &PathBuf,
    sink: &Sink<MemStore>,
    files: usize,
) -> Result<bool, Fail> {
    match sink.store() {
        Some(store) => is_like(rt, path, store, files),
        None => Ok(false),
    }
}

/// Whether a sink writes six lines, and has what is in the folder then, so many files.
fn goes_on_the_same(
    rt: &HostRuntime,
    path: &PathBuf,
    sink: &mut Sink<MemStore>,
    files: usize,
) -> Result<bool, Fail> {
    Ok(writes_six(rt.alloc(), sink)? && has_the_same(rt, path, sink, files)?)
}

/// The same of a sink that goes then.
fn ends_the_same(
    rt: &HostRuntime,
    path: &PathBuf,
    mut sink: Sink<MemStore>,
    files: usize,
) -> Result<bool, Fail> {
    goes_on_the_same(rt, path, &mut sink, files)
}

/// The same of a sink of this kind.
fn leaves_the_same(
    rt: &HostRuntime,
    path: &PathBuf,
    kind: Kind,
    files: usize,
) -> Result<bool, Fail> {
    ends_the_same(rt, path, over_memory(rt.alloc(), kind)?, files)
}

/// Kinds of sinks, and how many files they leave.
const KINDS: [(Kind, usize); 5] = [
    (Kind::Memory, 1),
    (Kind::Rotating(0), 1),
    (Kind::Rotating(2), 3),
    (Kind::Daily(0), 4),
    (Kind::Daily(2), 3),
];

/// Whether sinks over a folder and over memory leave the same files, so many; a file was there at the start.
fn of_kind(rt: &HostRuntime, kind: Kind, files: usize) -> Result<bool, Fail> {
    let path = scratch(rt, "sinks")?;
    fs::write(rt, path.join(rt.alloc(), "log.txt")?, "old\n")?;
    let are_same = writes_in(rt, &path, kind)? && leaves_the_same(rt, &path, kind, files)?;
    clear(rt, &path)?;
    Ok(are_same)
}

#[test]
fn sinks_over_a_folder(rt: HostRuntime) -> Result<(), Fail> {
    for (i, (kind, files)) in KINDS.iter().enumerate() {
        assert!(rt; of_kind(&rt, *kind, *files)?, "row {i}");
    }
    Ok(())
}
