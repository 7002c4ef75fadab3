//! Outputs that fail at a write or at a flush, under help and all commands but scripts and pipes.
use std::io;
use test_runs::{Course, Host, SMALL, UNWRITTEN, ends, ends_within, removed, written};

/// Command lines that write more than five bytes.
const WRITING: &[&[&str]] = &[&["alog", "format", "%v", "hello"], &["alog", "--help"]];

#[test]
fn each_write_failing(rt: HostRuntime) {
    for words in WRITING {
        for room in 0..5 {
            assert!(rt; ends_within(&rt, words, room, 3), "{room}");
        }
    }
}

/// More than any of them writes.
const ALL: usize = 65_536;

#[test]
fn a_flush_failing(rt: HostRuntime) {
    for words in WRITING {
        let mut course = Course::of(words, ALL);
        course.flush_fails = true;
        assert!(rt; ends(&rt, course, 3, UNWRITTEN));
    }
}

/// Whether `alog check` of this file into a writer with this room has this status.
fn checks_within<R: Host>(rt: &R, file: &str, room: usize, status: u8) -> bool {
    ends_within(rt, &["alog", "check", file], room, status)
}

/// Whether a load of three messages of this file, into a writer with this room, has this status.
fn loads_within<R: Host>(rt: &R, file: &str, room: usize, status: u8) -> bool {
    let words = ["alog", "load", file, "--messages=3"];
    ends_within(rt, words.as_slice(), room, status)
}

/// What such a load says.
const THREE: &str = "asked 3\nposted 3\ndiscarded 0\noverrun 0\nhandled 3\n";

#[test]
fn checks_to_failing_writers(rt: HostRuntime) -> io::Result<()> {
    let path = written(&rt, SMALL)?;
    for (room, status) in &[(0, 3), (2, 3), (3, 0)] {
        assert!(rt; checks_within(&rt, path.as_str(), *room, *status), "{room}");
    }
    removed(&rt, path)
}

#[test]
fn totals_to_failing_writers(rt: HostRuntime) -> io::Result<()> {
    let path = written(&rt, SMALL)?;
    for (room, status) in &[(0, 3), (THREE.len() - 1, 3), (THREE.len(), 0)] {
        assert!(rt; loads_within(&rt, path.as_str(), *room, *status), "{room}");
    }
    removed(&rt, path)
}
