//! Readers that give their bytes in chunks.
use std::io::{self, Error, ErrorKind, Read};

/// Gives one byte a read, and is interrupted before each.
#[derive(Drop)]
pub(crate) struct Trickle<'a> {
    pub(crate) bytes: &'a [u8],
    pub(crate) interrupted: bool,
}

impl<'a> Trickle<'a> {
    pub(crate) fn of(bytes: &'a [u8]) -> Trickle<'a> {
        Trickle {
            bytes,
            interrupted: false,
        }
    }
}

impl Read for Trickle<'_> {
    fn read(&mut self, buf: &mut [u8]) -> io::Result<usize> {
        self.interrupted = !self.interrupted;
        if self.interrupted {
            return Err(Error::from(ErrorKind::Interrupted));
        }
        match (self.bytes, buf) {
            ([first, rest @ ..], [place, ..]) => {
                *place = *first;
                self.bytes = rest;
                Ok(1)
            }
            _ => Ok(0),
        }
    }
}

/// Gives its first bytes, fails once, then gives its other bytes, and is at its end once before it gives the first again.
#[derive(Drop)]
pub(crate) struct Halting<'a> {
    pub(crate) first: &'a [u8],
    pub(crate) second: &'a [u8],
    pub(crate) reads: u32,
}

impl Read for Halting<'_> {
    fn read(&mut self, buf: &mut [u8]) -> io::Result<usize> {
        let read = self.reads;
        self.reads = read.saturating_add(1);
        let mut given = match read {
            0 => self.first,
            1 => return Err(Error::from(ErrorKind::BrokenPipe)),
            2 => self.second,
            3 => return Ok(0),
            _ => self.first,
        };
        given.read(buf)
    }
}

/// Gives 300,000 bytes of one line, and notes the least room that it is given.
#[derive(Drop)]
pub(crate) struct Noting {
    left: usize,
    size: usize,
    pub(crate) least: usize,
}

impl Noting {
    /// One that gives at most so many bytes a read.
    pub(crate) fn of(size: usize) -> Noting {
        Noting {
            left: 300_000,
            size,
            least: usize::MAX,
        }
    }
}

impl Read for Noting {
    fn read(&mut self, buf: &mut [u8]) -> io::Result<usize> {
        self.least = self.least.min(buf.len());
        let count = self.left.min(self.size).min(buf.len());
        buf[..count].fill(b'a');
        self.left -= count;
        Ok(count)
    }
}
