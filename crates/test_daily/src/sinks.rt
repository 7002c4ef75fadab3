//! What the tests of daily sinks share: sinks by a plan, and calls of them with the answer wanted.
//!
//! A call of these in a test is one step of its proof, which no branch follows: so a test of many calls stays cheap.
use crate::stores::Noting;
use alog_format::{Context, LineBuf, OFFSET_MAX, Zone};
use alog_msg::{Level, Message, MessageError};
use alog_pattern::Pattern;
use alog_sink::{Face, FuseStore, MemStore, Names, Sink, SinkError, Store, Taken};
use std::alloc::Global;
use std::process::Abort;
use std::test::Fail;

// Minutes, hours and days in nanoseconds, and the begin of 2024-02-28 in UTC.
pub const MINUTE: i64 = 60_000_000_000;

pub const HOUR: i64 = 60 * MINUTE;

pub const DAY: i64 = 24 * HOUR;

pub const START: i64 = 1_709_078_400_000_000_000;

// Files by days, of the name `day.log`.
#[derive(Clone, Copy)]
pub struct Plan {
    pub offset: i16,
    pub hour: u32,
    pub minute: u32,
    pub max_files: usize,
}

pub const PLAIN: Plan = Plan {
    offset: 0,
    hour: 0,
    minute: 0,
    max_files: 0,
};

pub fn face(alloc: Global, offset: i16) -> Result<Face, Fail> {
    Ok(Face {
        level: Level::Info,
        pattern: Pattern::compile(alloc, b"%v", 64)?,
        context: Context {
            zone: Zone::Fixed(offset.clamp(-OFFSET_MAX, OFFSET_MAX)),
            process: 7,
        },
        names: Names::new(alloc),
    })
}

// The sink, or the refusal as an error of the test.
pub fn opened<S: Store + Drop>(alloc: Global, store: S, plan: Plan) -> Result<Sink<S>, Fail> {
    opened_as(alloc, face(alloc, plan.offset)?, store, "day.log", plan)
}

// The same of another face and another name.
pub fn opened_as<S: Store + Drop>(
    alloc: Global,
    face: Face,
    store: S,
    name: &str,
    plan: Plan,
) -> Result<Sink<S>, Fail> {
    let Plan {
        hour,
        minute,
        max_files,
        ..
    } = plan;
    match Sink::daily(alloc, face, store, name, hour, minute, max_files) {
        Ok(sink) => Ok(sink),
        Err(unopened) => Err(unopened.error.into()),
    }
}

// A message of a text and a time. The test ends here where there is no memory.
fn message_of(rt: &(impl Abort + AllocGlobal), time: i64, text: &str) -> Message {
    match Message::new(rt.alloc(), 64, 0, Level::Info, time, 1, text, None) {
        Ok(message) => message,
        Err(MessageError::OutOfMemory) => panic!(rt; "out of memory"),
        Err(_) => panic!(rt; "no message of {text}"),
    }
}

// A buffer for a line. The test ends here where there is no memory.
fn line_of(rt: &(impl Abort + AllocGlobal)) -> LineBuf {
    match LineBuf::new(rt.alloc(), 1_024) {
        Ok(line) => line,
        Err(_) => panic!(rt; "out of memory"),
    }
}

// What a sink answers to a message. The test ends here where it may not be given it.
fn take<S: Store>(
    rt: &impl Abort,
    sink: &mut Sink<S>,
    message: &Message,
    line: &mut LineBuf,
) -> Result<Taken, SinkError> {
    assert!(rt; sink.may_take(message, line), "it may not be given it");
    sink.take(message, line)
}

// What a sink answers to a text of a time.
pub fn answer_to<S: Store>(
    rt: &(impl Abort + AllocGlobal),
    sink: &mut Sink<S>,
    time: i64,
    text: &str,
) -> Result<Taken, SinkError> {
    let message = message_of(rt, time, text);
    let mut line = line_of(rt);
    take(rt, sink, &message, &mut line)
}

// Gives a text of a time to a sink, which answers this. Where its store fails and is not to, the test ends with these words alone:
// files in memory fail for want of it.
pub fn gives<S: Store>(
    rt: &(impl Abort + AllocGlobal),
    sink: &mut Sink<S>,
    time: i64,
    text: &str,
    wanted: Result<Taken, SinkError>,
) {
    let answer = answer_to(rt, sink, time, text);
    let is_faulted = answer == Err(SinkError::Store) && answer != wanted;
    assert!(rt; !is_faulted, "the store failed");
    assert!(rt; answer == wanted, "{text}: {answer:?}");
}

// Gives a text of a time to a sink, which writes it.
pub fn writes<S: Store>(
    rt: &(impl Abort + AllocGlobal),
    sink: &mut Sink<S>,
    time: i64,
    text: &str,
) {
    gives(rt, sink, time, text, Ok(Taken::Written));
}

// Flushes a sink, which answers this.
pub fn flushes<S: Store>(rt: &impl Abort, sink: &mut Sink<S>, wanted: Result<(), SinkError>) {
    let answer = sink.flush();
    assert!(rt; answer == wanted, "{answer:?}");
}

// Whether a store has this file.
fn has_file(store: &MemStore, name: &str, text: &str) -> bool {
    match store.files().get(name) {
        Some(file) => file.as_slice() == text.as_bytes(),
        None => false,
    }
}

// The store has exactly these files.
pub fn has_only(rt: &impl Abort, store: Option<&MemStore>, files: &[(&str, &str)]) {
    let Some(store) = store else {
        panic!(rt; "no store")
    };
    assert_eq!(rt; store.files().len(), files.len());
    for (name, text) in files {
        assert!(rt; has_file(store, name, text), "{name}");
    }
}

// A sink writes these texts, each so long after a time, and its store has exactly these files then.
pub fn goes_on(
    rt: &(impl Abort + AllocGlobal),
    sink: &mut Sink<MemStore>,
    after: i64,
    said: &[(i64, &str)],
    files: &[(&str, &str)],
) {
    for (at, text) in said {
        writes(rt, sink, after.saturating_add(*at), text);
    }
    has_only(rt, sink.store(), files);
}

// The same of a sink that goes then: it is dropped here, where nothing else is alive.
pub fn ends(
    rt: &(impl Abort + AllocGlobal),
    mut sink: Sink<MemStore>,
    after: i64,
    said: &[(i64, &str)],
    files: &[(&str, &str)],
) {
    goes_on(rt, &mut sink, after, said, files);
}

// The same of a new sink by this plan.
pub fn leaves(
    rt: &(impl Abort + AllocGlobal),
    plan: Plan,
    after: i64,
    said: &[(i64, &str)],
    files: &[(&str, &str)],
) -> Result<(), Fail> {
    let sink = opened(rt.alloc(), MemStore::new(rt.alloc()), plan)?;
    ends(rt, sink, after, said, files);
    Ok(())
}

// A store that fails the call after so many, and passes so many bytes of an append.
pub fn fuse(alloc: Global, calls: u64, part: usize) -> FuseStore<Noting> {
    let files = Noting {
        files: MemStore::new(alloc),
        has_failed: false,
    };
    FuseStore::new(files, calls, part)
}

// The files of the sink's store behind its fuse, or none of a fan. The test ends here where there was no memory for them.
pub fn files<'a>(rt: &impl Abort, sink: &'a Sink<FuseStore<Noting>>) -> Option<&'a MemStore> {
    let noting = sink.store().map(|fuse| fuse.store())?;
    assert!(rt; !noting.has_failed, "the store failed");
    Some(&noting.files)
}
