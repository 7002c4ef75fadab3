//! Daily sinks whose stores fail, what they flush, and want of memory.
use crate::sinks::{
    DAY, PLAIN, Plan, START, answer_to, face, files, flushes, fuse, gives, has_only, opened, writes,
};
use crate::stores::Noting;
use alog_sink::{
    Face, FuseStore, MemStore, OpenError, Sink, SinkError, Store, StoreError, Taken, Unopened,
};
use std::io;
use std::process::Abort;
use std::test::Fail;

// What a sink is given and flushed where the call `k` of its store fails, up to what it leaves.
fn fails_within(
    rt: &(impl Abort + AllocGlobal),
    sink: &mut Sink<FuseStore<Noting>>,
    k: u64,
    file: &str,
    text: &str,
) {
    gives(rt, sink, START, "aaa", where_it_fails(k, 0, 0));
    gives(rt, sink, START + DAY, "bbb", where_it_fails(k, 1, 2));
    flushes(rt, sink, where_it_fails(k, 3, 3).map(|_| ()));
    has_only(rt, files(rt, sink), &[(file, text)]);
}

// Two days within one file, and a flush, where the call `k` fails and passes two bytes of an append: what is left in the
// one file, and what a further flush answers.
fn flushes_again(
    rt: &(impl Abort + AllocGlobal),
    mut sink: Sink<FuseStore<Noting>>,
    k: u64,
    file: &str,
    text: &str,
) {
    fails_within(rt, &mut sink, k, file, text);
    let after = if k < 4 {
        Err(SinkError::Broken)
    } else {
        Ok(())
    };
    flushes(rt, &mut sink, after);
}

// The same of a sink that keeps one file.
fn fused(rt: &(impl Abort + AllocGlobal), k: u64, file: &str, text: &str) -> Result<(), Fail> {
    let plan = Plan {
        max_files: 1,
        ..PLAIN
    };
    let sink = opened(rt.alloc(), fuse(rt.alloc(), k, 2), plan)?;
    flushes_again(rt, sink, k, file, text);
    Ok(())
}

// What a sink answers to a turn that makes the calls from `first` to `last`, where the call `k` fails.
fn where_it_fails(k: u64, first: u64, last: u64) -> Result<Taken, SinkError> {
    if k < first {
        Err(SinkError::Broken)
    } else if k <= last {
        Err(SinkError::Store)
    } else {
        Ok(Taken::Written)
    }
}

// Which call fails, and what is left in the one file: before another day's is opened the last one is removed, and not flushed for it.
const FUSED: [(u64, &str, &str); 5] = [
    (0, "day_2024-02-28.log", "aa"),
    (1, "day_2024-02-28.log", "aaa\n"),
    (2, "day_2024-02-29.log", "bb"),
    (3, "day_2024-02-29.log", "bbb\n"),
    (9, "day_2024-02-29.log", "bbb\n"),
];

#[test]
fn each_call_of_a_day_failing(rt: HostRuntime) -> Result<(), Fail> {
    for (call, file, text) in &FUSED {
        fused(&rt, *call, file, text)?;
    }
    Ok(())
}

// What a sink is given: a time, a text, and the first and the last call of its store that it makes for it.
type Given<'a> = (i64, &'a str, u64, u64);

// What the files have where the call of this number fails and passes two bytes of an append.
type Left<'a> = &'a [(&'a str, &'a str)];

// A sink whose store fails the call of this number is given this, and then flushed.
fn fails_at(
    rt: &(impl Abort + AllocGlobal),
    sink: &mut Sink<FuseStore<Noting>>,
    call: u64,
    given: &[Given<'_>],
    flush: u64,
) {
    for (time, text, first, last) in given {
        let wanted = where_it_fails(call, *first, *last);
        gives(rt, sink, *time, text, wanted);
    }
    let wanted = where_it_fails(call, flush, flush).map(|_| ());
    flushes(rt, sink, wanted);
}

// The same of a sink that goes then, which leaves these files.
fn ends(
    rt: &(impl Abort + AllocGlobal),
    mut sink: Sink<FuseStore<Noting>>,
    call: u64,
    given: &[Given<'_>],
    flush: u64,
    left: Left<'_>,
) {
    fails_at(rt, &mut sink, call, given, flush);
    has_only(rt, files(rt, &sink), left);
}

// The call of this number failing of a sink by this plan: what its files have then.
fn one_call(
    rt: &(impl Abort + AllocGlobal),
    plan: Plan,
    given: &[Given<'_>],
    flush: u64,
    call: u64,
    left: Left<'_>,
) -> Result<(), Fail> {
    let sink = opened(rt.alloc(), fuse(rt.alloc(), call, 2), plan)?;
    ends(rt, sink, call, given, flush, left);
    Ok(())
}

// Each call of a sink by this plan failing, and the one behind the last, which is its flush.
fn each_call(
    rt: &(impl Abort + AllocGlobal),
    plan: Plan,
    given: &[Given<'_>],
    flush: u64,
    left: &[Left<'_>],
) -> Result<(), Fail> {
    for (call, files_left) in left.iter().enumerate() {
        one_call(rt, plan, given, flush, call as u64, files_left)?;
    }
    Ok(())
}

const TWO_DAYS: [Given<'_>; 3] = [
    (1_709_251_199_999_999_999, "aaa", 0, 0),
    (1_709_251_200_000_000_000, "bbb", 1, 2),
    (1_709_247_600_000_000_000, "ccc", 3, 3),
];

// The first day's file is flushed before the second one's is made.
const LEFT_OF_TWO_DAYS: [Left<'_>; 6] = [
    &[("day_2024-02-29.log", "aa")],
    &[("day_2024-02-29.log", "aaa\n")],
    &[
        ("day_2024-02-29.log", "aaa\n"),
        ("day_2024-03-01.log", "bb"),
    ],
    &[
        ("day_2024-02-29.log", "aaa\n"),
        ("day_2024-03-01.log", "bbb\ncc"),
    ],
    BOTH_DAYS,
    BOTH_DAYS,
];

const BOTH_DAYS: Left<'_> = &[
    ("day_2024-02-29.log", "aaa\n"),
    ("day_2024-03-01.log", "bbb\nccc\n"),
];

#[test]
fn each_call_of_two_days_failing(rt: HostRuntime) -> Result<(), Fail> {
    each_call(&rt, PLAIN, &TWO_DAYS, 4, &LEFT_OF_TWO_DAYS)
}

const MAKING_WAY: [Given<'_>; 3] = [
    (1_709_269_200_000_000_000, "aaa", 0, 0),
    (1_709_276_400_000_000_000, "bbb", 1, 1),
    (1_709_362_800_000_000_000, "ccc", 2, 3),
];

// The file that makes way is removed, and not flushed for it, before the next one is made.
const LEFT_OF_MAKING_WAY: [Left<'_>; 6] = [
    &[("day_2024-03-01.log", "aa")],
    &[("day_2024-03-01.log", "aaa\nbb")],
    &[("day_2024-03-01.log", "aaa\nbbb\n")],
    &[("day_2024-03-02.log", "cc")],
    &[("day_2024-03-02.log", "ccc\n")],
    &[("day_2024-03-02.log", "ccc\n")],
];

#[test]
fn each_call_of_a_file_that_makes_way_failing(rt: HostRuntime) -> Result<(), Fail> {
    let plan = Plan {
        hour: 6,
        max_files: 1,
        ..PLAIN
    };
    each_call(&rt, plan, &MAKING_WAY, 4, &LEFT_OF_MAKING_WAY)
}

// Whether a file has just so many bytes of a line.
fn has_part(store: Option<&MemStore>, part: usize) -> bool {
    let found = store.and_then(|store| store.files().get("day_2024-02-28.log"));
    let bytes = found.map_or(&[][..], |file| file.as_slice());
    b"abc\n".iter().take(part).eq(bytes.iter())
}

// A line of a sink is cut off after so many bytes.
fn is_cut(rt: &(impl Abort + AllocGlobal), mut sink: Sink<FuseStore<Noting>>, part: usize) {
    gives(rt, &mut sink, START, "abc", Err(SinkError::Store));
    leaves_part(rt, &sink, part);
    gives(rt, &mut sink, START, "abc", Err(SinkError::Broken));
}

// The sink's file has just so many bytes of the line.
fn leaves_part(rt: &impl Abort, sink: &Sink<FuseStore<Noting>>, part: usize) {
    assert!(rt; has_part(files(rt, sink), part), "{part}");
}

#[test]
fn each_part_of_a_line(rt: HostRuntime) -> Result<(), Fail> {
    for part in 0..5 {
        let sink = opened(rt.alloc(), fuse(rt.alloc(), 0, part), PLAIN)?;
        is_cut(&rt, sink, part);
    }
    Ok(())
}

// Counts the calls on one name that flush, and all others.
#[derive(Debug, Drop)]
struct Flushes {
    name: &'static str,
    flushed: u64,
    others: u64,
}

impl Store for Flushes {
    ghost use Rattle.std.specs.Prelude.{false, None};
    ghost use Rattle.alog_sink.specs.Files.{no_files};

    ghost files = { λ s. no_files };

    ghost tells = { false };

    ghost failures = { λ s. 0 };

    ghost why = { λ _. None };

    fn append(&mut self, _name: &str, _bytes: &[u8]) -> Result<(), StoreError> {
        self.others = self.others.saturating_add(1);
        Ok(())
    }

    fn rename(&mut self, _from: &str, _to: &str) -> Result<(), StoreError> {
        self.others = self.others.saturating_add(1);
        Ok(())
    }

    fn remove(&mut self, _name: &str) -> Result<(), StoreError> {
        self.others = self.others.saturating_add(1);
        Ok(())
    }

    fn size(&mut self, _name: &str) -> Result<Option<u64>, StoreError> {
        self.others = self.others.saturating_add(1);
        Ok(None)
    }

    fn flush(&mut self, name: &str) -> Result<(), StoreError> {
        if name == self.name {
            self.flushed = self.flushed.saturating_add(1);
        } else {
            self.others = self.others.saturating_add(1);
        }
        Ok(())
    }

    fn reason(&self) -> Option<io::Error> {
        None
    }
}

// How many flushes of a file were made, and how many other calls.
type Made = (u64, u64);

fn has_made(rt: &impl Abort, sink: &Sink<Flushes>, wanted: Made) {
    let made = sink.store().map(|store| (store.flushed, store.others));
    assert!(rt; made == Some(wanted), "{made:?}");
}

// A sink flushes nothing before its first line. Then it writes to the files of two days.
fn writes_two_days(rt: &(impl Abort + AllocGlobal), sink: &mut Sink<Flushes>, made: Made) {
    flushes(rt, sink, Ok(()));
    has_made(rt, sink, (0, 0));
    writes(rt, sink, START, "a");
    writes(rt, sink, START + DAY, "b");
    writes(rt, sink, START, "c");
    has_made(rt, sink, made);
}

// And then it is flushed.
fn flushes_current(
    rt: &(impl Abort + AllocGlobal),
    mut sink: Sink<Flushes>,
    before: Made,
    after: Made,
) {
    writes_two_days(rt, &mut sink, before);
    flushes(rt, &mut sink, Ok(()));
    has_made(rt, &sink, after);
}

// How many files a sink keeps, and of each day's file what was made before the sink is flushed, and then: the first one is flushed when the
// next day begins, but where it is removed then; the current one by the flush.
const OF_TWO_DAYS: [(usize, &str, Made, Made); 6] = [
    (0, "day_2024-02-28.log", (1, 3), (1, 4)),
    (0, "day_2024-02-29.log", (0, 4), (1, 4)),
    (1, "day_2024-02-28.log", (0, 4), (0, 5)),
    (1, "day_2024-02-29.log", (0, 4), (1, 4)),
    (2, "day_2024-02-28.log", (1, 3), (1, 4)),
    (2, "day_2024-02-29.log", (0, 4), (1, 4)),
];

#[test]
fn flushes_of_the_current_file(rt: HostRuntime) -> Result<(), Fail> {
    for (max_files, name, before, after) in &OF_TWO_DAYS {
        let store = Flushes {
            name: *name,
            flushed: 0,
            others: 0,
        };
        let plan = Plan {
            max_files: *max_files,
            ..PLAIN
        };
        flushes_current(&rt, opened(rt.alloc(), store, plan)?, *before, *after);
    }
    Ok(())
}

// A sink that keeps one file, or none where there was no memory for it.
fn opened_if_memory(rt: &(impl Abort + AllocGlobal), face: Face) -> Option<Sink<MemStore>> {
    let store = MemStore::new(rt.alloc());
    match Sink::daily(rt.alloc(), face, store, "day.log", 0, 0, 1) {
        Ok(sink) => Some(sink),
        Err(unopened) => {
            wants_memory(rt, unopened);
            None
        }
    }
}

// The sink was not opened for want of memory.
fn wants_memory(rt: &impl Abort, unopened: Unopened<MemStore>) {
    let error = unopened.error;
    assert_eq!(rt; error, OpenError::OutOfMemory);
}

// A sink writes a line, or its store fails and it is broken then, as it is if it was before. Whether it is broken now.
fn writes_or_breaks(
    rt: &(impl Abort + AllocGlobal),
    sink: &mut Sink<MemStore>,
    time: i64,
    broken: bool,
) -> bool {
    let answer = answer_to(rt, sink, time, "a");
    let right = match answer {
        Ok(Taken::Written) | Err(SinkError::Store) => !broken,
        Err(SinkError::Broken) => broken,
        Ok(Taken::Below) => false,
    };
    assert!(rt; right, "{answer:?}");
    answer.is_err()
}

// A sink is given a line of one day and two of the next.
fn goes_on_or_breaks(rt: &(impl Abort + AllocGlobal), sink: &mut Sink<MemStore>) {
    let mut broken = false;
    for time in [START, START + DAY, START + DAY] {
        broken = writes_or_breaks(rt, sink, time, broken);
    }
}

// Whichever allocation fails, the sink is refused for want of memory, or its store fails once and it is broken then.
#[test]
fn want_of_memory(rt: HostRuntime) -> Result<(), Fail> {
    let face = face(rt.alloc(), 0)?;
    match opened_if_memory(&rt, face) {
        Some(mut sink) => goes_on_or_breaks(&rt, &mut sink),
        None => {}
    }
    Ok(())
}
