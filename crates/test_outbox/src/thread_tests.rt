//! A drain on a thread of its own.
use crate::host::{Host, Taken, opened};
use alog_outbox::{Drain, Outbox};
use alog_sink::Store;
use std::alloc::Global;
use std::process::Abort;
use std::test::Fail;
use std::thread::{self, Threads};

/// How many lines are written.
const LINES: u64 = 100_000;

/// How often a call is made again.
const LOOKS: u32 = 100_000_000;

/// Appends a line, as soon as there is an area.
fn append(rt: &impl Abort, store: &mut Outbox, line: &str) {
    for _ in 0..LOOKS {
        match store.append("log", line.as_bytes()) {
            Ok(()) => return,
            Err(_) => thread::yield_now(),
        }
    }
    panic!(rt; "no area")
}

/// Writes all lines, of which each is its number, and lets the store go, which sends the last of them.
fn write(rt: &impl Abort, alloc: Global, mut store: Outbox) {
    for number in 0..LINES {
        let Ok(line) = format!(in alloc; "{number}\n") else {
            panic!(rt; "no memory")
        };
        append(rt, &mut store, line.as_str());
    }
}

/// Takes areas until the store has ended, by when so many records were carried out.
fn drained(rt: &impl Abort, mut host: Host, mut drain: Drain, wanted: usize) -> Host {
    let mut all: usize = 0;
    for _ in 0..LOOKS {
        match host.take(&mut drain) {
            Ok(Taken::Records(records)) => all = all.saturating_add(records),
            Ok(Taken::Nothing) => thread::yield_now(),
            Ok(Taken::Ended) => {
                assert!(rt; all == wanted);
                return host;
            }
            _ => panic!(rt; "bad records"),
        }
    }
    panic!(rt; "no end")
}

/// These lines are the numbers of all lines, in order.
fn are_lines(rt: &impl Abort, text: &str) {
    let mut next = 0;
    for line in text.lines() {
        assert!(rt; line.parse::<u64>() == Ok(next));
        next = next.wrapping_add(1);
    }
    assert!(rt; next == LINES);
}

/// The file has the numbers of all lines, in order.
fn has_lines(rt: &impl Abort, host: &Host) {
    let Some(file) = host.files.files().get("log") else {
        panic!(rt; "no file")
    };
    let Ok(text) = str::from_utf8(file.as_slice()) else {
        panic!(rt; "no text")
    };
    are_lines(rt, text);
}

/// The host, when one thread wrote all lines and one drained them.
fn joined(
    rt: &(impl Abort + Threads + Sync),
    alloc: Global,
    store: Outbox,
    drain: Drain,
    host: Host,
) -> Host {
    let ((), host) = thread::join(
        rt,
        move || write(rt, alloc, store),
        move || drained(rt, host, drain, LINES as usize),
    );
    host
}

#[test]
fn one_thread_writes_and_one_drains(rt: HostRuntime) -> Result<(), Fail> {
    let alloc = rt.alloc();
    let host = Host::new(alloc)?;
    let (store, drain) = opened(alloc, "log", 0, 4)?;
    let host = joined(&rt, alloc, store, drain, host);
    has_lines(&rt, &host);
    Ok(())
}
