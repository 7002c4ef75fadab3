//! A pipe whose reads are interrupted, on the whole program.
use std::{fs, io};
use test_runs::{Course, Host, SMALL, ends, folder, lines_in, written};

/// What is said of two lines that came in eight reads.
const EIGHT_READS: &str =
    "lines 2\nbytes 6\nmended 0\ncut 0\nmissing 0\nasked 2\nposted 2\ndiscarded 0\noverrun 0\nhandled 2\n";

/// Whether a pipe that is interrupted before each read goes on all the same.
fn goes_on<'x, R: Host>(rt: &R, file: &'x str, to: &'x str) -> bool {
    let course = Course {
        words: &["alog", "pipe", file, "--folder", to, "--totals"],
        input: "one\ntwo\n",
        printed: EIGHT_READS,
        interrupts: true,
        reader_fails: false,
        room: EIGHT_READS.len(),
        writer_fails: true,
        flush_fails: false,
    };
    ends(rt, course, 0, "")
}

/// Whether such a pipe of a small configuration, to this folder, goes on all the same.
fn goes_on_to<R: Host>(rt: &R, to: &str) -> io::Result<bool> {
    let file = written(rt, SMALL)?;
    let is_on = goes_on(rt, file.as_str(), to);
    fs::remove_file(rt, file.as_str())?;
    Ok(is_on)
}

#[test]
fn an_interruption_is_no_end_and_no_read(rt: HostRuntime) -> io::Result<()> {
    let to = folder(&rt)?;
    assert!(rt; goes_on_to(&rt, to.as_str())?);
    let lines = lines_in(&rt, &to)?;
    assert!(rt; lines.as_str() == "net I one\nnet I two\n");
    Ok(())
}
