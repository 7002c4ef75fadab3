//! A host: it takes areas out, and carries out on a store in memory what the records in them tell.
ghost use Rattle.std.specs.Prelude.{◌≡◌, IfOk};

use alog_outbox::{AREA, Drain, FoundFile, Outbox, TakeError, outbox};
use alog_sink::{MemStore, Store, StoreError};
use std::alloc::{AllocError, Global};
use std::sync::Arc;

/// A host has its files, and room for an area.
#[derive(Drop)]
pub struct Host {
    pub files: MemStore,
    room: Vec<u8>,
}

/// What became of a take.
#[derive(Clone, Copy, Debug, PartialEq, Eq, Drop)]
pub enum Taken {
    /// This many records were carried out.
    Records(usize),
    /// There was nothing.
    Nothing,
    /// The store has ended, and all was taken.
    Ended,
    /// The bytes are no records.
    Bad,
}

/// A record.
#[derive(Clone, Copy, Drop)]
struct Record<'a> {
    kind: usize,
    name: &'a [u8],
    rest: &'a [u8],
}

/// The number of four bytes, the lowest first, at this place.
fn number_at(bytes: &[u8], at: usize) -> Option<usize> {
    let bytes = bytes.get(at..)?;
    let number = [
        *bytes.get(0)?,
        *bytes.get(1)?,
        *bytes.get(2)?,
        *bytes.get(3)?,
    ];
    Some(u32::from_le_bytes(number) as usize)
}

/// The kind of the first record, and how many bytes its name and its rest have.
fn header_of(bytes: &[u8]) -> Option<(usize, usize, usize)> {
    let kind = number_at(bytes, 0)?;
    let name_len = number_at(bytes, 4)?;
    let rest_len = number_at(bytes, 8)?;
    if number_at(bytes, 12)? != 0 {
        return None;
    }
    Some((kind, name_len, rest_len))
}

/// The first record, and what is behind it.
fn first_of(bytes: &[u8]) -> Option<(Record<'_>, &[u8])> {
    let (kind, name_len, rest_len) = header_of(bytes)?;
    let (name, behind) = bytes.get(16..)?.split_at_checked(name_len)?;
    let (rest, behind) = behind.split_at_checked(rest_len)?;
    Some((Record { kind, name, rest }, behind))
}

/// Carries out a record. It answers whether there is such a call.
fn carry_out(files: &mut MemStore, record: &Record<'_>) -> Result<bool, StoreError> {
    let Ok(name) = str::from_utf8(record.name) else {
        return Ok(false);
    };
    match record.kind {
        1 => files.append(name, record.rest)?,
        2 => {
            let Ok(to) = str::from_utf8(record.rest) else {
                return Ok(false);
            };
            files.rename(name, to)?;
        }
        3 if record.rest.is_empty() => files.remove(name)?,
        4 if record.rest.is_empty() => files.flush(name)?,
        _ => return Ok(false),
    }
    Ok(true)
}

impl Host {
    /// A host without files.
    pub fn new(alloc: Global) -> Result<Host, AllocError> {
        Ok(Host {
            files: MemStore::new(alloc),
            room: Vec::from_elem(alloc, 0, AREA)?,
        })
    }

    /// Takes the next area, and carries out what is in it.
    pub fn take(&mut self, drain: &mut Drain) -> Result<Taken, StoreError>
        ensures { drain.new.line ≡ drain.old.line }
    {
        let count = match drain.take_into(self.room.as_mut_slice()) {
            Ok(count) => count,
            Err(TakeError::Nothing) => return Ok(Taken::Nothing),
            Err(TakeError::Ended) => return Ok(Taken::Ended),
            Err(TakeError::TooShort) => return Ok(Taken::Bad),
        };
        let Some(mut bytes) = self.room.as_slice().get(..count) else {
            return Ok(Taken::Bad);
        };
        for records in 0..count {
            if bytes.is_empty() {
                return Ok(Taken::Records(records));
            }
            let Some((record, behind)) = first_of(bytes) else {
                return Ok(Taken::Bad);
            };
            if !carry_out(&mut self.files, &record)? {
                return Ok(Taken::Bad);
            }
            bytes = behind;
        }
        Ok(Taken::Bad)
    }

    /// Takes all areas that lie there, at most so many. It answers how many records they had, or none where their bytes are no records.
    pub fn take_all(&mut self, drain: &mut Drain, most: usize) -> Result<Option<usize>, StoreError>
        ensures { drain.new.line ≡ drain.old.line }
    {
        let mut all: usize = 0;
        for _ in 0..most {
            match self.take(drain)? {
                Taken::Records(records) => all = all.saturating_add(records),
                Taken::Nothing | Taken::Ended => return Ok(Some(all)),
                Taken::Bad => return Ok(None),
            }
        }
        Ok(Some(all))
    }

    /// Whether it has this file.
    pub fn has_file(&self, name: &str, bytes: &[u8]) -> bool {
        self.files.files().get(name).map(|file| file.as_slice()) == Some(bytes)
    }

    /// Whether it has the same files as a store.
    pub fn has_files_of(&self, other: &MemStore) -> bool {
        for (name, file) in other.files() {
            if !self.has_file(name.as_str(), file.as_slice()) {
                return false;
            }
        }
        self.files.files().len() == other.files().len()
    }
}

/// A store over a folder in which a file of this name and size was found, and its drain.
pub fn opened(
    alloc: Global,
    name: &str,
    size: u64,
    areas: usize,
) -> Result<(Outbox, Drain), AllocError>
    ensures { IfOk result (λ o. o.1.line ≡ o.0.line) }
{
    let mut found = Vec::new(alloc);
    let name = String::from_str(alloc, name)?;
    found.push(FoundFile { name, size })?;
    outbox(alloc, Arc::new(alloc, found)?, areas)
}
