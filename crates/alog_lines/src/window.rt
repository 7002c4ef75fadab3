//! The bytes that were read.
ghost use Rattle.std.specs.Prelude.{◌≡◌, ◌≢◌, ◌+◌, ◌≤◌, ◌<◌, ℕ, List, [], ◌++◌, length, drop, slice_range, vec_len, IfOk, OnErr};
ghost use Rattle.std.specs.Io.KnownBytes.{Consumes, IsAtEnd, Keeps};

use crate::cutter::Fill;
use std::alloc::{AllocError, Global};
use std::io::{self, ErrorKind, Read};

/// Bytes that were read, in a room that stays.
#[derive(Debug, Drop)]
pub(crate) struct Window {
    pub(crate) bytes: Vec<u8>,
    /// Those from here to `end` are in no piece yet.
    pub(crate) start: usize,
    pub(crate) end: usize,
    pub ghost ordered: { start ≤ end },
    pub ghost within: { end ≤ vec_len bytes },
}

impl Window {
    ghost use Rattle.alog_lines.specs.Window.{Came, held, room};

    /// An empty window with room for so many bytes.
    pub(crate) fn new(alloc: Global, size: usize) -> Result<Window, AllocError>
        ensures held { IfOk result (λ w. held w ≡ []) }
        ensures size { IfOk result (λ w. vec_len w.bytes ≡ size) }
    {
        Ok(Window {
            bytes: vec![in alloc; 0; size]?,
            start: 0,
            end: 0,
        })
    }

    /// The bytes that are in no piece yet.
    pub(crate) fn as_slice(&self) -> &[u8]
        ensures value { result.now ≡ held self.now }
        ensures fits { length result.now ≤ vec_len self.now.bytes }
    {
        &self.bytes[self.start..self.end]
    }

    /// The bytes of these places.
    pub(crate) fn part(&self, start: usize, end: usize) -> &[u8]
        requires ordered { start ≤ end }
        requires within { end ≤ vec_len self.now.bytes }
        ensures { result.now ≡ slice_range self.now.bytes.items start end }
    {
        &self.bytes[start..end]
    }

    /// Leaves out so many of the first bytes, which stay where they are.
    pub(crate) fn consume(&mut self, count: usize)
        requires { count ≤ length (held self.old) }
        ensures held { held self.new ≡ drop count (held self.old) }
        ensures bytes { self.new.bytes ≡ self.old.bytes }
    {
        self.start += count;
    }

    /// Moves the bytes to the front of the room.
    pub(crate) fn move_to_front(&mut self)
        ensures held { held self.new ≡ held self.old }
        ensures room { room self.new + length (held self.new) ≡ vec_len self.old.bytes }
        ensures size { vec_len self.new.bytes ≡ vec_len self.old.bytes }
    {
        let (start, end) = (self.start, self.end);
        self.bytes.as_mut_slice().copy_within(start..end, 0);
        self.start = 0;
        self.end = end - start;
    }

    /// Reads once, behind what is held, which moves to the front.
    pub(crate) fn refill<R: Read>(&mut self, reader: &mut R) -> io::Result<Fill>
        requires { length (held self.old) < vec_len self.old.bytes }
        ensures came { Came (R.remaining reader.old) (R.remaining reader.new) (held self.old) (held self.new) }
        ensures some { IfOk result (λ fill. fill ≡ Fill.Bytes → length (held self.old) < length (held self.new)) }
        ensures none { IfOk result (λ fill. fill ≢ Fill.Bytes → held self.new ≡ held self.old) }
        ensures end { IfOk result (λ fill. fill ≡ Fill.End → IsAtEnd (R.remaining reader.new)) }
        ensures err { OnErr result (held self.new ≡ held self.old) }
        ensures size { vec_len self.new.bytes ≡ vec_len self.old.bytes }
    {
        self.move_to_front();
        match self.read_from(reader) {
            Ok(0) => Ok(Fill::End),
            Ok(_) => Ok(Fill::Bytes),
            Err(error) if error.kind() == ErrorKind::Interrupted => Ok(Fill::Nothing),
            Err(error) => Err(error),
        }
    }

    /// Reads once, behind what is held, and answers how many bytes came.
    pub(crate) fn read_from<R: Read>(&mut self, reader: &mut R) -> io::Result<usize>
        ensures read { IfOk result (λ n. (more : List ℕ) × (length more ≡ n) × (held self.new ≡ held self.old ++ more)
            × Consumes (R.remaining reader.old) (R.remaining reader.new) more) }
        ensures end { IfOk result (λ n. n ≡ 0 → 0 < room self.old → IsAtEnd (R.remaining reader.new)) }
        ensures err { OnErr result ((held self.new ≡ held self.old) × Keeps (R.remaining reader.old) (R.remaining reader.new)) }
        ensures size { vec_len self.new.bytes ≡ vec_len self.old.bytes }
    {
        let end = self.end;
        let count = reader.read(&mut self.bytes.as_mut_slice()[end..])?;
        self.end = end + count;
        Ok(count)
    }
}
