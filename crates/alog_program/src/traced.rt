//! A reader and a writer that remember what is to be said of a script that ends early.
ghost use Rattle.std.specs.Prelude.{◌≡◌};

use alog_replay::SCRIPT_LINE_MAX;
use std::alloc::Global;
use std::io;
use std::io::{ErrorKind, Read, Write};

/// What is remembered behind an error, which is no fault where the call is made again.
fn kept(error: &io::Error, before: Option<ErrorKind>) -> Option<ErrorKind> {
    match error.kind() {
        ErrorKind::Interrupted => before,
        kind => Some(kind),
    }
}

/// A reader that keeps what its last read gave, with the beginning of the line that goes on there, and why a read failed.
/// A line is kept up to its limit, beyond which it is refused. Where there was no memory to keep what was read, no line is told any more.
#[derive(Drop)]
pub(crate) struct TracedReader<I> {
    pub(crate) input: I,
    /// How many lines ended before `front`.
    before: u64,
    front: Vec<u8>,
    last: Vec<u8>,
    /// Whether something of what was read could not be kept.
    lost: bool,
    pub(crate) fault: Option<ErrorKind>,
}

impl<I> TracedReader<I> {
    pub(crate) fn new(alloc: Global, input: I) -> TracedReader<I>
        ensures { result.input ≡ input }
    {
        TracedReader {
            input,
            before: 0,
            front: Vec::new(alloc),
            last: Vec::new(alloc),
            lost: false,
            fault: None,
        }
    }

    /// Puts these bytes, which were read, in the place of those before.
    fn keep(&mut self, bytes: &[u8])
        ensures { self.new.input ≡ self.old.input }
    {
        let TracedReader {
            before,
            front,
            last,
            lost,
            ..
        } = self;
        for byte in last.iter() {
            if *byte == b'\n' {
                front.clear();
                *before = before.wrapping_add(1);
            } else if front.len() < SCRIPT_LINE_MAX {
                *lost |= front.push(*byte).is_err();
            }
        }
        last.clear();
        *lost |= last.extend_from_slice(bytes).is_err();
    }

    /// The line of this number, from 1, without its newline, if it is kept, which it is not where memory was wanting.
    pub(crate) fn line(&self, alloc: Global, number: u64) -> Option<Vec<u8>> {
        if self.lost {
            return None;
        }
        let skipped = number.checked_sub(self.before)?.checked_sub(1)?;
        let mut line = Vec::new(alloc);
        let mut at = 0u64;
        for byte in self.front.iter().chain(self.last.iter()) {
            if *byte == b'\n' {
                at = at.wrapping_add(1);
            } else if at == skipped {
                line.push(*byte).ok()?;
            }
        }
        Some(line)
    }
}

impl<I: Read> Read for TracedReader<I> {
    ghost remaining = { λ r. I.remaining r.input };

    fn read(&mut self, buf: &mut [u8]) -> io::Result<usize> {
        match self.input.read(buf) {
            Ok(count) => {
                self.keep(&buf[..count]);
                Ok(count)
            }
            Err(error) => {
                self.fault = kept(&error, self.fault);
                Err(error)
            }
        }
    }
}

/// A writer that keeps why a write failed.
#[derive(Drop)]
pub(crate) struct TracedWriter<O> {
    pub(crate) output: O,
    pub(crate) fault: Option<ErrorKind>,
}

impl<O> TracedWriter<O> {
    pub(crate) fn new(output: O) -> TracedWriter<O>
        ensures { result.output ≡ output }
    {
        TracedWriter {
            output,
            fault: None,
        }
    }
}

impl<O: Write> Write for TracedWriter<O> {
    ghost contents = { λ w. O.contents w.output };

    fn write(&mut self, buf: &[u8]) -> io::Result<usize> {
        match self.output.write(buf) {
            Ok(0) if !buf.is_empty() => {
                self.fault = Some(ErrorKind::WriteZero);
                Ok(0)
            }
            Ok(count) => Ok(count),
            Err(error) => {
                self.fault = kept(&error, self.fault);
                Err(error)
            }
        }
    }

    fn flush(&mut self) -> io::Result<()> {
        match self.output.flush() {
            Ok(()) => Ok(()),
            Err(error) => {
                self.fault = kept(&error, self.fault);
                Err(error)
            }
        }
    }
}
