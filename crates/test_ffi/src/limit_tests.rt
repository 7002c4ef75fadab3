//! What no clause says: that refusals for too many come, that a level is the one that was set, and how many areas a sink has.
use alog_ffi::{
    AlogHandle, AlogReport, Answer, Asked, Said, close, give, log, open, producer, set_level,
    shutdown, take, work, worker,
};
use std::alloc::Global;
use std::mem::ManuallyDrop;

type Handle = ManuallyDrop<AlogHandle>;

fn empty() -> Handle {
    unsafe { ManuallyDrop::new_unchecked(AlogHandle::empty()) }
}

static DOCUMENT: &[u8] =
    b"[[sink]]\nname = \"main\"\nkind = \"memory\"\nfile = \"a.log\"\npattern = \"%v\"\n\n[[logger]]\nname = \"app\"\nsinks = [\"main\"]\n";

/// Opens a pool of one producer and one worker, whose sink has two areas.
fn opens(alloc: Global, pool: &mut AlogHandle, files: &mut AlogHandle) -> bool {
    let mut told = [0_u8; 64];
    let mut length = 0_usize;
    let asked = Asked {
        document: DOCUMENT,
        producers: 1,
        areas: 2,
    };
    open(alloc, pool, files, asked, &mut told, &mut length) == Answer::Done
}

/// Makes one of each, and no second one.
fn makes(
    alloc: Global,
    pool: &mut AlogHandle,
    own: &mut AlogHandle,
    crew: &mut AlogHandle,
    other: &mut AlogHandle,
) -> bool {
    producer(alloc, pool, own) == Answer::Done
        && worker(alloc, pool, crew) == Answer::Done
        && producer(alloc, pool, other) == Answer::TooMany
        && worker(alloc, pool, other) == Answer::TooMany
}

fn logs(alloc: Global, own: &mut AlogHandle) -> Answer {
    let mut ticket = 0;
    let said = Said {
        logger: 0,
        level: 2,
        time: 0,
        text: b"one",
        source: None,
    };
    log(alloc, own, said, &mut ticket)
}

/// A level hides a message, and the lowest one hides none.
fn sets(alloc: Global, own: &mut AlogHandle) -> bool {
    set_level(alloc, own, 0, 6) == Answer::Done
        && logs(alloc, own) == Answer::Filtered
        && set_level(alloc, own, 0, 0) == Answer::Done
        && logs(alloc, own) == Answer::Done
}

/// Fills two areas before any is taken.
fn fills(alloc: Global, own: &mut AlogHandle, crew: &mut AlogHandle) -> bool {
    let mut items = 0;
    work(alloc, crew, 9, &mut items) == Answer::Idle
        && logs(alloc, own) == Answer::Done
        && work(alloc, crew, 9, &mut items) == Answer::Idle
}

/// Takes both.
fn takes(alloc: Global, files: &mut AlogHandle) -> bool {
    let mut bytes = [0_u8; 131_072];
    let mut length = 0;
    take(alloc, files, &mut bytes, &mut length) == Answer::Done
        && take(alloc, files, &mut bytes, &mut length) == Answer::Done
        && take(alloc, files, &mut bytes, &mut length) == Answer::Idle
}

/// Gives both parts back, and ends the pool, whose sink met no fault.
fn ends(alloc: Global, pool: &mut AlogHandle, own: &mut AlogHandle, crew: &mut AlogHandle) -> bool {
    let mut report = AlogReport {
        asked: 0,
        posted: 0,
        discarded: 0,
        overrun: 0,
        handled: 0,
        faults: 0,
    };
    give(alloc, own) == Answer::Done
        && shutdown(alloc, pool, &mut report) == Answer::PartsOut
        && give(alloc, crew) == Answer::Done
        && shutdown(alloc, pool, &mut report) == Answer::Done
        && report.handled == 2
        && report.faults == 0
}

fn run(alloc: Global) -> bool {
    let (mut pool, mut files, mut own, mut crew) = (empty(), empty(), empty(), empty());
    let mut other = empty();
    opens(alloc, &mut pool, &mut files)
        && makes(alloc, &mut pool, &mut own, &mut crew, &mut other)
        && sets(alloc, &mut own)
        && fills(alloc, &mut own, &mut crew)
        && takes(alloc, &mut files)
        && ends(alloc, &mut pool, &mut own, &mut crew)
        && close(alloc, &mut files) == Answer::Done
}

/// Too many parts, a level that is set, and two areas.
#[test]
fn limits_of_handles(rt: HostRuntime) {
    assert!(rt; run(rt.alloc()));
}
