//! `alog replay` on the whole program where its reader gives a byte at a time or fails, and where its writer fails.
use test_runs::{Course, UNWRITTEN, ends};

const WORDS: [&str; 2] = ["alog", "replay"];

const SCRIPT: &str = "ring 2 0\npush 1 a\nrun 1\nwork 2\nrun 2\n";

const PRINTED: &str =
    "1 claim 0\n1 write 0\n2 grab 0\n2 take 0 a\n2 line 0 memory\n== memory memory 2\na\n";

#[test]
fn one_byte_at_a_time(rt: HostRuntime) {
    for (reader_fails, status, error) in [
        (false, 0, ""),
        (
            true,
            3,
            "alog: refused 34\nalog: the script could not be read: broken pipe\n",
        ),
    ] {
        let course = Course {
            words: WORDS.as_slice(),
            input: SCRIPT,
            printed: PRINTED,
            interrupts: true,
            reader_fails,
            room: PRINTED.len(),
            writer_fails: true,
            flush_fails: false,
        };
        assert!(rt; ends(&rt, course, status, error), "{status}");
    }
}

/// What is said where a writer takes no more.
const FULL: &str = "alog: refused 35\nalog: the output could not be written: write zero\n";

#[test]
fn each_write_failing(rt: HostRuntime) {
    for room in 0..PRINTED.len() {
        for writer_fails in [true, false] {
            let course = Course {
                words: WORDS.as_slice(),
                input: SCRIPT,
                printed: PRINTED,
                interrupts: false,
                reader_fails: false,
                room,
                writer_fails,
                flush_fails: false,
            };
            let error = if writer_fails { UNWRITTEN } else { FULL };
            assert!(rt; ends(&rt, course, 3, error), "at {room} bytes");
        }
    }
}

#[test]
fn a_flush_failing(rt: HostRuntime) {
    let mut course = Course::of(WORDS.as_slice(), PRINTED.len());
    course.input = SCRIPT;
    course.printed = PRINTED;
    course.flush_fails = true;
    assert!(rt; ends(&rt, course, 3, UNWRITTEN));
}
