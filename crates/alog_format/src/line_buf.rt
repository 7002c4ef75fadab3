ghost use Rattle.std.specs.Prelude.{◌≡◌, ◌+◌, ◌≤◌, ◌↔◌, [], length, IfOk, IsErr, OnOk, OnErr, ◌==◌};

use crate::block::{Bytes, Deed, Start, part, reunite};
use std::alloc::{AllocError, Global};
use std::fmt;
use std::marker::Model;
use thiserror::Error;

/// The buffer has no room for the bytes. The test `has_no_room_at_all` shows when.
#[derive(Clone, Copy, Debug, PartialEq, Eq, Error)]
#[error("the line buffer has no room")]
pub struct NoRoomError;

/// A block of bytes of fixed capacity, in which one worker makes its lines. The block is taken once, never grows, and
/// is reached through a raw pointer by `Bytes` alone.
///
/// The test `makes_a_line_in_place` shows each call.
pub struct LineBuf {
    start: Start,
    bytes: Bytes,
    deed: Deed,
    /// How many bytes it may hold, which are at most those of the block.
    limit: usize,
    len: usize,
}

impl Model for LineBuf {
    ghost use Rattle.std.specs.Prelude.{◌≡◌, ◌≤◌, length, take};
    ghost use Rattle.alog_format.specs.Buffer.{Buffer};

    ghost Value = { Buffer };

    ghost view = { λ b. record { bytes = take b.len b.bytes.items; capacity = b.limit } };

    ghost invariant = { λ b. (b.len ≤ b.limit) × (b.limit ≤ length b.bytes.items)
        × (b.start.at ≡ b.bytes.start) × (b.deed.start ≡ b.bytes.start) × (b.deed.len ≡ length b.bytes.items) };
}

impl fmt::Debug for LineBuf {
    fn fmt<W: fmt::Write>(&self, f: &mut fmt::Formatter<W>) -> fmt::Result {
        f.debug_struct("LineBuf")
            .field("len", &self.len)
            .field("capacity", &self.limit)
            .finish_non_exhaustive()
    }
}

impl Drop for LineBuf {
    fn drop(self) {
        let LineBuf {
            start: _,
            bytes,
            deed,
            limit: _,
            len: _,
        } = self;
        drop(reunite(bytes, deed));
    }
}

impl LineBuf {
    ghost use Rattle.alog_format.specs.Buffer.{appended, shifted, truncated, LacksRoom};

    /// An empty buffer for `cap` bytes.
    pub fn new(alloc: Global, cap: usize) -> Result<LineBuf, AllocError>
        ensures empty { IfOk result (λ b. b.bytes ≡ []) }
        ensures capacity { IfOk result (λ b. b.capacity ≡ cap) }
    {
        // A block of no byte would have no place.
        let mut block = vec![in alloc; 0; cap.max(1)]?;
        let start = Start::of(&mut block);
        let (bytes, deed) = part(block);
        Ok(LineBuf {
            start,
            bytes,
            deed,
            limit: cap,
            len: 0,
        })
    }

    /// Appends the bytes.
    #[inline(always)]
    pub fn put(&mut self, bytes: &[u8]) -> Result<(), NoRoomError>
        ensures ok { OnOk result (self.new ≡ appended self.old bytes.now) }
        ensures no_room { IsErr result ↔ LacksRoom self.old (length bytes.now) }
        ensures err { OnErr result (self.new ≡ self.old) }
    {
        if bytes.len() > self.room() {
            return Err(NoRoomError);
        }
        self.bytes.copy_in(self.start.at, self.len, bytes);
        self.len += bytes.len();
        Ok(())
    }

    /// Moves the bytes from `at` on up by `by`, and fills the gap with spaces.
    pub fn shift(&mut self, at: usize, by: usize) -> Result<(), NoRoomError>
        requires { at ≤ length self.old.bytes }
        ensures ok { OnOk result (self.new ≡ shifted self.old at by) }
        ensures no_room { IsErr result ↔ LacksRoom self.old by }
        ensures err { OnErr result (self.new ≡ self.old) }
    {
        if by > self.room() {
            return Err(NoRoomError);
        }
        self.bytes.open_gap(self.start.at, self.len, at, by);
        self.len += by;
        Ok(())
    }

    /// Keeps the first `len` bytes.
    pub fn cut(&mut self, len: usize)
        requires { len ≤ length self.old.bytes }
        ensures { self.new ≡ truncated self.old len }
    {
        self.len = len;
    }

    /// Drops all bytes. The capacity stays.
    pub fn clear(&mut self)
        ensures { self.new ≡ truncated self.old 0 }
    {
        self.len = 0;
    }

    /// The bytes.
    pub fn as_slice(&self) -> &[u8]
        ensures { result.now ≡ self.now.bytes }
    {
        self.bytes.as_slice(self.start.at, self.len)
    }

    /// The number of bytes.
    pub fn len(&self) -> usize
        ensures { result ≡ length self.now.bytes }
    {
        self.len
    }

    /// Whether there are no bytes.
    pub fn is_empty(&self) -> bool
        ensures { result ≡ (length self.now.bytes == 0) }
    {
        self.len == 0
    }

    /// How many bytes the buffer has room for in all.
    pub fn capacity(&self) -> usize
        ensures value { result ≡ self.now.capacity }
        ensures bytes_within { length self.now.bytes ≤ result }
    {
        self.limit
    }

    /// How many more bytes the buffer takes.
    pub fn room(&self) -> usize
        ensures { result + length self.now.bytes ≡ self.now.capacity }
    {
        self.capacity() - self.len
    }
}
