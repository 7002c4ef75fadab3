//! An area: a reserved piece of memory, and the records in it.
ghost use Rattle.std.specs.Prelude.{◌≡◌, ◌+◌, ◌≤◌, ◌++◌, [], length, drop, IfOk};
ghost use Rattle.alog_outbox.specs.Calls.{call, number, number_of, record_of};

use crate::AREA;
use crate::call::Kind;
use std::alloc::{AllocError, Global};
use std::marker::Model;

/// How many bytes a record has before the name.
pub(crate) const HEADER: usize = 16;

/// At most `AREA` bytes, in memory that was reserved for all of them.
#[derive(Drop)]
pub(crate) struct Area {
    bytes: Vec<u8>,
}

impl Model for Area {
    ghost use Rattle.std.specs.Prelude.{◌≡◌, ℕ, ◌≤◌, List, length, vec_len, vec_capacity};
    ghost use Rattle.alog_outbox.specs.declared.TheConstants.{AREA};

    ghost Value = { List ℕ };

    ghost view = { λ a. a.bytes.items };

    ghost invariant = { λ a. (length a.bytes.items ≡ vec_len a.bytes) × (vec_len a.bytes ≤ AREA) × (AREA ≤ vec_capacity a.bytes) };
}

/// What a record has before the name: its kind, the lengths of the name and of the rest, and 0.
fn header(kind: Kind, name: u32, rest: u32) -> [u8; HEADER]
    ensures { result ≡ number (number_of kind) ++ number name ++ number rest ++ number 0 }
{
    let mut header = [0; HEADER];
    header[..4].copy_from_slice(&kind.number().to_le_bytes());
    header[4..8].copy_from_slice(&name.to_le_bytes());
    header[8..12].copy_from_slice(&rest.to_le_bytes());
    header
}

impl Area {
    /// An empty area.
    pub(crate) fn new(alloc: Global) -> Result<Area, AllocError>
        ensures { IfOk result (λ a. a ≡ []) }
    {
        let bytes = Vec::with_capacity(alloc, AREA)?;
        Ok(Area { bytes })
    }

    /// How many more bytes it takes.
    pub(crate) fn room(&self) -> usize
        ensures { result + length self.now ≡ AREA }
    {
        AREA - self.bytes.len()
    }

    fn put(&mut self, bytes: &[u8])
        requires { length self.old + length bytes.now ≤ AREA }
        ensures { self.new ≡ self.old ++ bytes.now }
    {
        if self.bytes.extend_from_slice(bytes).is_err() {
            unreachable!();
        }
    }

    /// Appends the record of a call.
    pub(crate) fn put_record(&mut self, kind: Kind, name: &[u8], rest: &[u8])
        requires room { length self.old + (HEADER + length name.now + length rest.now) ≤ AREA }
        ensures { self.new ≡ self.old ++ record_of (call kind name.now rest.now) }
    {
        self.put(&header(kind, name.len() as u32, rest.len() as u32));
        self.put(name);
        self.put(rest);
    }

    /// Copies its bytes to the front, and answers how many they are.
    pub(crate) fn copy_to(&self, to: &mut [u8]) -> usize
        requires { AREA ≤ length to.old }
        ensures count { result ≡ length self.now }
        ensures within { result ≤ AREA }
        ensures copied { to.new ≡ self.now ++ drop result to.old }
    {
        let count = self.bytes.len();
        to[..count].copy_from_slice(self.bytes.as_slice());
        count
    }

    /// Drops its bytes. The memory stays.
    pub(crate) fn clear(&mut self)
        ensures { self.new ≡ [] }
    {
        self.bytes.clear();
    }
}
