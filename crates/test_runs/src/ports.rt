//! The reader and the writer of all runs, each of which may fail.
use alog_program::TimedRead;
use std::alloc::{AllocError, Global};
use std::io;
use std::io::{Error, ErrorKind, Read, Write};
use std::time::Duration;

/// Gives its bytes one at a time.
#[derive(Drop)]
pub struct Input<'a> {
    bytes: &'a [u8],
    /// Whether it is interrupted before each read.
    pub interrupts: bool,
    /// Whether it fails at its end.
    pub fails: bool,
    is_interrupted: bool,
}

impl<'a> Input<'a> {
    /// All of these bytes, and nothing fails.
    pub fn new(bytes: &'a [u8]) -> Input<'a> {
        Input {
            bytes,
            interrupts: false,
            fails: false,
            is_interrupted: false,
        }
    }
}

impl Read for Input<'_> {
    fn read(&mut self, buf: &mut [u8]) -> io::Result<usize> {
        self.is_interrupted = self.interrupts && !self.is_interrupted;
        if self.is_interrupted {
            return Err(Error::from(ErrorKind::Interrupted));
        }
        match (self.bytes, buf) {
            ([first, rest @ ..], [place, ..]) => {
                *place = *first;
                self.bytes = rest;
                Ok(1)
            }
            _ if self.fails => Err(Error::from(ErrorKind::BrokenPipe)),
            _ => Ok(0),
        }
    }
}

impl TimedRead for Input<'_> {
    fn set_read_timeout(&mut self, _timeout: Option<Duration>) {}
}

/// Takes so many bytes, one at a time, and then no more.
#[derive(Drop)]
pub struct Output {
    /// What it took.
    pub taken: Vec<u8>,
    room: usize,
    /// Whether it is interrupted before each write.
    pub interrupts: bool,
    /// Whether it fails where it takes no more.
    pub fails: bool,
    /// Whether it fails when it is flushed.
    pub flush_fails: bool,
    is_interrupted: bool,
}

impl Output {
    /// One with room for so many bytes, which it takes without memory, and which then fails.
    pub fn new(alloc: Global, room: usize) -> Result<Output, AllocError> {
        Ok(Output {
            taken: Vec::with_capacity(alloc, room)?,
            room,
            interrupts: false,
            fails: true,
            flush_fails: false,
            is_interrupted: false,
        })
    }
}

impl Write for Output {
    fn write(&mut self, buf: &[u8]) -> io::Result<usize> {
        self.is_interrupted = self.interrupts && !self.is_interrupted;
        if self.is_interrupted {
            return Err(Error::from(ErrorKind::Interrupted));
        }
        match buf {
            [first, ..] if self.taken.len() < self.room => {
                self.taken.push(*first)?;
                Ok(1)
            }
            _ if self.fails => Err(Error::from(ErrorKind::BrokenPipe)),
            _ => Ok(0),
        }
    }

    fn flush(&mut self) -> io::Result<()> {
        if self.flush_fails {
            return Err(Error::from(ErrorKind::BrokenPipe));
        }
        Ok(())
    }
}
