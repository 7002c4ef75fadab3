//! `alog replay --config` on the whole program where its reader or its writer fails, or memory is wanting.
use std::alloc::AllocError;
use std::path::PathBuf;
use std::{fs, io};
use test_runs::{Course, Host, Ran, SMALL, Scratch, UNWRITTEN, ends, removed, written};

const SCRIPT: &str = "log 1 0 net info a\nrun 1\nwork 2\nrun 2\n";

const PRINTED: &str =
    "1 claim 0\n1 write 0\n1 posted 0 overran 0\n2 grab 0\n2 take 0 a\n2 line 0 out\n== out out 8\nnet I a\n";

/// Whether the script, with the configuration of this file, ends so.
fn ends_on<R: Host>(
    rt: &R,
    file: &str,
    (reader_fails, room): (bool, usize),
    (status, error): (u8, &str),
) -> bool {
    let course = Course {
        words: &["alog", "replay", "--config", file],
        input: SCRIPT,
        printed: PRINTED,
        interrupts: false,
        reader_fails,
        room,
        writer_fails: true,
        flush_fails: false,
    };
    ends(rt, course, status, error)
}

/// Whether the script, with the small configuration, ends so where its reader fails or not, and its writer takes so many bytes.
fn ends_so<R: Host>(rt: &R, how: (bool, usize), said: (u8, &str)) -> bool {
    match written(rt, SMALL) {
        Ok(path) => {
            let is_so = ends_on(rt, path.as_str(), how, said);
            fs::remove_file(rt, path.as_str()).is_ok() && is_so
        }
        Err(_) => false,
    }
}

#[test]
fn a_reader_failing(rt: HostRuntime) {
    let unread = "alog: refused 34\nalog: the script could not be read: broken pipe\n";
    assert!(rt; ends_so(&rt, (false, PRINTED.len()), (0, "")));
    assert!(rt; ends_so(&rt, (true, PRINTED.len()), (3, unread)));
}

#[test]
fn each_write_failing(rt: HostRuntime) {
    for room in 0..PRINTED.len() {
        assert!(rt;
            ends_so(&rt, (false, room), (3, UNWRITTEN)),
            "at {room} bytes"
        );
    }
}

/// A document that is not TOML, and what is said of it.
const NO_TOML: (&str, &str) = (
    "queue = \"8",
    "alog: refused 28\nalog: the document is not TOML: line 1: invalid string\n",
);

/// Whether a file that has no configuration is refused so where the script cannot be read either.
fn refuses_first<R: Host>(rt: &R, file: &str, error: &str) -> bool {
    let words = ["alog", "replay", "--config", file];
    let mut course = Course::of(words.as_slice(), 0);
    course.reader_fails = true;
    ends(rt, course, 2, error)
}

#[test]
fn a_refused_configuration_comes_before_a_script_that_cannot_be_read(
    rt: HostRuntime,
) -> io::Result<()> {
    let (document, error) = NO_TOML;
    let path = written(&rt, document)?;
    assert!(rt; refuses_first(&rt, path.as_str(), error));
    removed(&rt, path)
}

/// A path for this test, asked for again where memory was wanting.
fn own_path(rt: &HostRuntime) -> io::Result<PathBuf> {
    match rt.scratch("memory") {
        Ok(path) => Ok(path),
        Err(_) => rt.scratch("memory"),
    }
}

/// How much the script prints at most, and what is said on standard error.
const ROOM: usize = 256;

/// Plays the script, and again where there was no memory before it began.
fn played<R: Host>(rt: &R, file: &str) -> Result<Ran, AllocError> {
    let course = Course {
        words: &["alog", "replay", "--config", file],
        input: SCRIPT,
        printed: "",
        interrupts: false,
        reader_fails: false,
        room: ROOM,
        writer_fails: true,
        flush_fails: false,
    };
    match course.run(rt) {
        Ok(ran) => Ok(ran),
        Err(_) => course.run(rt),
    }
}

/// The script was played.
fn is_played(ran: &Ran) -> bool {
    let is_printed = ran.output.taken.as_slice() == PRINTED.as_bytes();
    ran.status == 0 && is_printed && ran.errors.is_empty()
}

/// There was no memory.
fn is_without_memory(ran: &Ran) -> bool {
    let is_front = PRINTED.as_bytes().starts_with(ran.output.taken.as_slice());
    ran.status == 4
        && is_front
        && ran.errors.as_slice() == b"alog: refused 1\nalog: out of memory\n".as_slice()
}

/// Whether the script is played, or ends for want of memory and is played when it is asked for again.
fn is_played_in_the_end<R: Host>(rt: &R, file: &str) -> bool {
    match played(rt, file) {
        Ok(first) if is_without_memory(&first) => {
            played(rt, file).is_ok_and(|again| is_played(&again))
        }
        Ok(first) => is_played(&first),
        Err(_) => false,
    }
}

// For runs in which one allocation fails, as `rt try --test --fail-alloc` makes it: whichever that is, the status is 4, and
// the next run is as ever.
#[test]
fn want_of_memory(rt: HostRuntime) -> io::Result<()> {
    let path = own_path(&rt)?;
    fs::write(&rt, path.as_str(), SMALL)?;
    let is_played = is_played_in_the_end(&rt, path.as_str());
    removed(&rt, path)?;
    assert!(rt; is_played);
    Ok(())
}
