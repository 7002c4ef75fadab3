//! Runs whose reader or writer is disturbed, and what is wanted of them.
use crate::ports::{Input, Output};
use crate::program::{Host, run};
use std::alloc::{AllocError, Global};

/// What is said where a write fails.
pub const UNWRITTEN: &str =
    "alog: refused 35\nalog: the output could not be written: broken pipe\n";

/// A text of this many letters, after a front.
pub fn long(alloc: Global, front: &str, letters: usize) -> Result<String, AllocError> {
    let mut text = String::from_str(alloc, front)?;
    for _ in 0..letters {
        text.push('x')?;
    }
    Ok(text)
}

/// A run: its input comes byte by byte, and its output takes a byte at a time.
#[derive(Clone, Copy)]
pub struct Course<'a> {
    pub words: &'a [&'a str],
    pub input: &'a str,
    /// What it prints where nothing fails.
    pub printed: &'a str,
    /// Whether each read and each write is interrupted first.
    pub interrupts: bool,
    /// Whether the input fails at its end.
    pub reader_fails: bool,
    /// How many bytes the output takes.
    pub room: usize,
    /// Whether the output then fails, or takes none; and whether its flush fails.
    pub writer_fails: bool,
    pub flush_fails: bool,
}

impl<'a> Course<'a> {
    /// A run on these words without input, which prints nothing that is looked at, into an output with this room.
    pub fn of(words: &'a [&'a str], room: usize) -> Course<'a> {
        Course {
            words,
            input: "",
            printed: "",
            interrupts: false,
            reader_fails: false,
            room,
            writer_fails: true,
            flush_fails: false,
        }
    }

    /// Whether it may print this: a front of what it prints, which fills its room where its input does not fail. Where nothing is wanted
    /// of what it prints, it may be anything.
    fn prints(self, taken: &[u8]) -> bool {
        let most = self.room.min(self.printed.len());
        let is_full = taken.len() == most || self.reader_fails;
        self.printed.is_empty() || is_full && self.printed.as_bytes().starts_with(taken)
    }

    /// Makes the run, over lists that have room for what it writes.
    pub fn run<R: Host>(self, rt: &R) -> Result<Ran, AllocError> {
        let mut input = Input::new(self.input.as_bytes());
        input.interrupts = self.interrupts;
        input.fails = self.reader_fails;
        let mut output = Output::new(rt.alloc(), self.room)?;
        output.interrupts = self.interrupts;
        output.fails = self.writer_fails;
        output.flush_fails = self.flush_fails;
        let mut errors = Vec::with_capacity(rt.alloc(), ERRORS)?;
        let status = run(rt, self.words, &mut input, &mut output, &mut errors);
        Ok(Ran {
            status,
            output,
            errors,
        })
    }
}

/// What a run answered, with what it printed and what it said on standard error.
#[derive(Drop)]
pub struct Ran {
    pub status: u8,
    pub output: Output,
    pub errors: Vec<u8>,
}

/// Room for what a run says on standard error.
const ERRORS: usize = 256;

/// Whether a run has this status, prints what it may, and says this on standard error.
pub fn ends<R: Host>(rt: &R, course: Course<'_>, status: u8, error: &str) -> bool {
    match course.run(rt) {
        Ok(ran) => {
            ran.status == status
                && course.prints(ran.output.taken.as_slice())
                && ran.errors.as_slice() == error.as_bytes()
        }
        Err(_) => false,
    }
}

/// Whether a run into a writer with this room has this status, and says that the output could not be written if it is 3.
pub fn ends_within<R: Host>(rt: &R, words: &[&str], room: usize, status: u8) -> bool {
    let error = if status == 3 { UNWRITTEN } else { "" };
    ends(rt, Course::of(words, room), status, error)
}
