//! A file that is rotated.
ghost use Rattle.std.specs.Prelude.{◌≡◌, ◌+◌, ◌-◌, ◌<◌, ◌≤◌, ◌^◌, ℕ, true, List, [], ◌∷◌, ◌++◌};
ghost use Rattle.std.specs.Prelude.{IfErr, IfOk, OnOk, OnErr, length, map, string_bytes};
ghost use Rattle.alog_sink.specs.Calls.{Counts};
ghost use Rattle.alog_sink.specs.Deeds.{Does};
ghost use Rattle.alog_sink.specs.Files.{Files, AreSame};
ghost use Rattle.alog_sink.specs.Names.{IsFileName, numbered};
ghost use Rattle.alog_sink.specs.RotationDeeds.{AreNumbersOf, base_name, deeds_of, gives_up, makes_room, size_left, with_line};
ghost use Rattle.alog_sink.specs.RotationDeeds.{StandsFor};
ghost use Rattle.alog_sink.specs.RotationOpen.{CountsOpening};

use crate::names::numbered;
use crate::store::{Store, StoreError};
use std::alloc::{AllocError, Global};
use std::marker::Model;
use thiserror::Error;

/// The greatest size, in bytes, that a base may be kept within.
pub(crate) const SIZE_MAX: u64 = 1 << 40;

/// The greatest number of further files.
pub(crate) const FILES_MAX: usize = 1_000;

/// A file, the base, with up to `max_files` further files, `base.1` and on, that have what the base had before.
///
/// It has the names of all of them, so that a line takes no memory of its own.
#[derive(Debug, Drop)]
pub(crate) struct Rotation {
    names: Vec<String>,
    size: u64,
    max_size: u64,
}

impl Model for Rotation {
    ghost use Rattle.std.specs.Prelude.{◌≤◌, ◌+◌, ◌-◌, length, map, string_bytes};
    ghost use Rattle.alog_sink.specs.RotationDeeds.{AreNumbersOf, base_name, Rotating};
    ghost use Rattle.alog_sink.specs.declared.rotation.TheConstants.{SIZE_MAX, FILES_MAX};

    ghost Value = { Rotating };

    ghost view = { λ r. record {
      limits = record {
        file = base_name (map string_bytes r.names.items);
        max_size = r.max_size;
        max_files = length r.names.items - 1;
      };
      size = r.size;
    } };

    ghost invariant = { λ r. (1 ≤ length r.names.items) × (length r.names.items ≤ FILES_MAX + 1)
        × AreNumbersOf (base_name (map string_bytes r.names.items)) (map string_bytes r.names.items) × (r.max_size ≤ SIZE_MAX) };
}

/// Why a rotation could not be opened.
#[derive(Clone, Copy, Debug, PartialEq, Eq, Drop, Error)]
pub(crate) enum OpenError {
    #[error("out of memory")]
    OutOfMemory,
    #[error("the store failed")]
    Store,
}

impl From<AllocError> for OpenError {
    ghost use Rattle.std.specs.Prelude.{◌≡◌};
    ghost use Rattle.alog_sink.specs.declared.rotation.OpenError.TheVariants.{OutOfMemory};

    ghost from_gives = { λ _ e. e ≡ OutOfMemory };

    fn from(_: AllocError) -> OpenError {
        OpenError::OutOfMemory
    }
}

impl From<StoreError> for OpenError {
    ghost use Rattle.std.specs.Prelude.{◌≡◌};
    ghost use Rattle.alog_sink.specs.declared.rotation.OpenError.TheVariants.{Store as Failed};

    ghost from_gives = { λ _ e. e ≡ Failed };

    fn from(_: StoreError) -> OpenError {
        OpenError::Store
    }
}

impl Rotation {
    /// The rotation of `file` in a store, whose files stay.
    ///
    /// `max_size` is 1 to 2^40 bytes and `max_files` at most 1,000. All names are made before the store is asked for the
    /// base's size.
    pub(crate) fn open<S: Store>(
        alloc: Global,
        store: &mut S,
        file: &str,
        max_size: u64,
        max_files: usize,
    ) -> Result<Rotation, OpenError>
        requires name { IsFileName file.now }
        requires some { 1 ≤ max_size }
        requires size { max_size ≤ SIZE_MAX }
        requires files { max_files ≤ FILES_MAX }
        ensures limits { IfOk result (λ r. r.limits ≡ record { file = file.now; max_size = max_size; max_files = max_files }) }
        ensures stands { S.tells ≡ true → IfOk result (λ r. StandsFor r (S.files store.old) [] (S.files store.new)) }
        ensures same { S.tells ≡ true → AreSame (S.files store.old) (S.files store.new) }
        ensures counted { CountsOpening (S.failures store.old) (S.failures store.new) result }
        ensures unasked { IfErr result (λ e. (e ≡ OpenError.OutOfMemory) → (store.new ≡ store.old)) }
    {
        let names = names_of(alloc, file, max_files)?;
        let size = store.size(file)?.unwrap_or(0);
        Ok(Rotation {
            names,
            size,
            max_size,
        })
    }

    /// The base's name.
    pub(crate) fn file(&self) -> &str
        ensures { result.now ≡ self.now.limits.file }
    {
        self.names[0].as_str()
    }

    // Gives the base up before a line of so many bytes where it has to, and says how many bytes it has then.
    fn make_room<S: Store>(&self, store: &mut S, length: u64) -> Result<u64, StoreError>
        ensures deeds { S.tells ≡ true
            → Does (makes_room self.now length) (S.files store.old) (S.files store.new) result }
        ensures counted { Counts (S.failures store.old) (S.failures store.new) result }
        ensures left { IfOk result (λ left. left ≡ size_left self.now length) }
        ensures fits { IfOk result (λ left. left + length < 2 ^ 64) }
    {
        if self.size == 0 || self.size.saturating_add(length) <= self.max_size {
            return Ok(self.size);
        }
        rotate(self.names.as_slice(), store)?;
        Ok(0)
    }

    /// Appends a line to the base.
    ///
    /// A line that would make the base larger than `max_size` is the first of a new base, except where the base is empty:
    /// for i from `max_files` down to 1 the file number i - 1 is renamed to i, or with `max_files` 0 the base is removed.
    /// An empty line does nothing.
    pub(crate) fn put<S: Store>(&mut self, store: &mut S, line: &[u8]) -> Result<(), StoreError>
        ensures stands { S.tells ≡ true → OnOk result ((opening : Files) (lines : List (List ℕ))
            → StandsFor self.old opening lines (S.files store.old)
            → StandsFor self.new opening (lines ++ line.now ∷ []) (S.files store.new)) }
        ensures deeds { S.tells ≡ true
            → Does (deeds_of self.old line.now) (S.files store.old) (S.files store.new) result }
        ensures counted { Counts (S.failures store.old) (S.failures store.new) result }
        ensures done { OnOk result (self.new ≡ with_line self.old line.now) }
        ensures failed { OnErr result (self.new ≡ self.old) }
    {
        if line.is_empty() {
            return Ok(());
        }
        let length = line.len() as u64;
        let left = self.make_room(store, length)?;
        store.append(self.file(), line)?;
        self.size = left + length;
        Ok(())
    }
}

// The names of the numbers from 0 to `max_files`.
fn names_of(alloc: Global, file: &str, max_files: usize) -> Result<Vec<String>, AllocError>
    requires { max_files ≤ FILES_MAX }
    ensures count { IfOk result (λ names. length names.items ≡ max_files + 1) }
    ensures numbered { IfOk result (λ names. AreNumbersOf file.now (map string_bytes names.items)) }
{
    let mut names = Vec::new(alloc);
    for i in 0..max_files + 1 {
        names.push(numbered(alloc, file, i)?)?;
    }
    Ok(names)
}

// Renames each file, from the last but one down, to the next name, or removes the only one.
fn rotate<S: Store>(names: &[String], store: &mut S) -> Result<(), StoreError>
    requires some { 1 ≤ length names.now }
    requires numbered { AreNumbersOf (base_name (map string_bytes names.now)) (map string_bytes names.now) }
    ensures deeds { S.tells ≡ true
        → Does (gives_up (base_name (map string_bytes names.now)) (length names.now - 1)) (S.files store.old) (S.files store.new) result }
    ensures counted { Counts (S.failures store.old) (S.failures store.new) result }
{
    if names.len() == 1 {
        return store.remove(names[0].as_str());
    }
    for i in (1..names.len()).rev() {
        store.rename(names[i - 1].as_str(), names[i].as_str())?;
    }
    Ok(())
}
