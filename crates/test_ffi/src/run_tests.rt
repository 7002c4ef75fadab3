//! A whole run: a pool is opened, two messages are logged and written, what is to be done to files is taken, and the pool ends.
use alog_ffi::{
    AlogHandle, AlogReport, Answer, Asked, Said, close, find, found, give, log, open, producer,
    shutdown, take, work, worker,
};
use std::alloc::Global;
use std::mem::ManuallyDrop;

type Handle = ManuallyDrop<AlogHandle>;

fn empty() -> Handle {
    unsafe { ManuallyDrop::new_unchecked(AlogHandle::empty()) }
}

static DOCUMENT: &[u8] =
    b"[[sink]]\nname = \"main\"\nkind = \"memory\"\nfile = \"a.log\"\npattern = \"%v\"\n\n[[logger]]\nname = \"app\"\nsinks = [\"main\"]\n";

fn said(text: &[u8]) -> Said<'_> {
    Said {
        logger: 0,
        level: 2,
        time: 0,
        text,
        source: None,
    }
}

/// Opens a pool of the document.
fn opens(alloc: Global, pool: &mut AlogHandle, files: &mut AlogHandle) -> bool {
    let asked = Asked {
        document: DOCUMENT,
        producers: 4,
        areas: 2,
    };
    let mut words = [0_u8; 8];
    let mut length = 0_usize;
    open(alloc, pool, files, asked, &mut words, &mut length) == Answer::Done
}

/// Makes a producer and a worker, and finds the logger.
fn starts(
    alloc: Global,
    pool: &mut AlogHandle,
    own: &mut AlogHandle,
    crew: &mut AlogHandle,
) -> bool {
    let mut number = 9_u32;
    producer(alloc, pool, own) == Answer::Done
        && worker(alloc, pool, crew) == Answer::Done
        && find(alloc, own, b"app", &mut number) == Answer::Done
        && number == 0
}

/// Logs two messages, which are written.
fn logs_two(alloc: Global, own: &mut AlogHandle, crew: &mut AlogHandle) -> bool {
    let (mut ticket, mut items) = (0_u64, 0_usize);
    log(alloc, own, said(b"one"), &mut ticket) == Answer::Done
        && log(alloc, own, said(b"two"), &mut ticket) == Answer::Done
        && work(alloc, crew, 9, &mut items) == Answer::Idle
        && items == 2
}

/// Takes what is to be done to the files.
fn takes(alloc: Global, files: &mut AlogHandle) -> bool {
    let mut bytes = [0_u8; 131_072];
    let mut length = 0_usize;
    take(alloc, files, &mut bytes, &mut length) == Answer::Done && length > 0
}

/// Gives the parts back, and ends the pool, which handled two messages.
fn ends(alloc: Global, pool: &mut AlogHandle, own: &mut AlogHandle, crew: &mut AlogHandle) -> bool {
    let mut report = AlogReport {
        asked: 0,
        posted: 0,
        discarded: 0,
        overrun: 0,
        handled: 0,
        faults: 0,
    };
    give(alloc, own) == Answer::Done
        && give(alloc, crew) == Answer::Done
        && shutdown(alloc, pool, &mut report) == Answer::Done
        && report.handled == 2
}

fn run(alloc: Global) -> bool {
    let (mut pool, mut files, mut own, mut crew) = (empty(), empty(), empty(), empty());
    opens(alloc, &mut pool, &mut files)
        && starts(alloc, &mut pool, &mut own, &mut crew)
        && logs_two(alloc, &mut own, &mut crew)
        && takes(alloc, &mut files)
        && ends(alloc, &mut pool, &mut own, &mut crew)
        && close(alloc, &mut files) == Answer::Done
}

/// Two messages go through handles.
#[test]
fn two_messages_go_through_handles(rt: HostRuntime) {
    assert!(rt; run(rt.alloc()));
}
