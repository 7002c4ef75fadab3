//! Files in order of their names.
ghost use Rattle.std.specs.Prelude.{◌≡◌, None, [], OnOk, OnErr, IsSome, MatchOption};
ghost use Rattle.std.specs.Option.{option_map};
ghost use Rattle.alog_sink.specs.Files.{AreSame, appended, removed, renamed, with_file};
ghost use Rattle.alog_sink.specs.Listed.{files_in, AreInOrder, HasOthers, IsAt};

use alog_msg::are_same;
use indexmap::IndexMap;
use std::alloc::{AllocError, Global};
use std::marker::Model;

/// Files by name, in order of their names, which contracts see as a list. The place of the file that was asked for last is
/// at hand, so that appends to one file search it once.
#[derive(Debug, Drop)]
pub struct SortedFiles {
    alloc: Global,
    map: IndexMap<String, Vec<u8>>,
    /// Where the file asked for last was then.
    last: usize,
}

impl Model for SortedFiles {
    ghost use Rattle.std.specs.Prelude.{ℕ, List, String, Vec};
    ghost use Rattle.std.specs.declared.alloc.Global.{Global};
    ghost use Rattle.alog_sink.specs.Listed.{AreInOrder};

    ghost Value = { List (String Global × Vec ℕ Global) };

    ghost view = { λ s. s.map.entries };

    ghost invariant = { λ s. AreInOrder s.map.entries };
}

impl SortedFiles {
    /// No files.
    pub(crate) fn new(alloc: Global) -> SortedFiles
        ensures { result ≡ [] }
    {
        SortedFiles {
            alloc,
            map: IndexMap::new(alloc),
            last: 0,
        }
    }

    /// The files by name, in order of their names.
    pub(crate) fn map(&self) -> &IndexMap<String, Vec<u8>>
        ensures entries { result.now.entries ≡ self.now }
        ensures ordered { AreInOrder result.now.entries }
    {
        &self.map
    }

    /// The place of a file, if it is there.
    fn place_of(&mut self, name: &str) -> Option<usize>
        ensures kept { self.new ≡ self.old }
        ensures place { MatchOption result (files_in self.old name.now ≡ None) (λ at. IsAt self.old at name.now) }
    {
        if let Some((key, _)) = self.map.get_index(self.last) {
            if are_same(key.as_bytes(), name.as_bytes()) {
                return Some(self.last);
            }
        }
        let at = self.map.get_index_of(name)?;
        self.last = at;
        Some(at)
    }

    /// Makes a file of these bytes, in place of what had its name, or changes nothing.
    pub(crate) fn put(&mut self, name: &str, bytes: &[u8]) -> Result<(), AllocError>
        ensures done { OnOk result (AreSame (with_file name.now bytes.now (files_in self.old)) (files_in self.new)) }
        ensures failed { OnErr result (self.new ≡ self.old) }
    {
        let key = String::from_str(self.alloc, name)?;
        let file = Vec::from_slice(self.alloc, bytes)?;
        self.map.insert_sorted(key, file)?;
        Ok(())
    }

    /// Appends to a file, which is made where it is absent, or changes nothing.
    pub(crate) fn append(&mut self, name: &str, bytes: &[u8]) -> Result<(), AllocError>
        ensures done { OnOk result (AreSame (appended name.now bytes.now (files_in self.old)) (files_in self.new)) }
        ensures failed { OnErr result (AreSame (files_in self.old) (files_in self.new)) }
    {
        match self.place_of(name) {
            Some(at) => self.map[at].extend_from_slice(bytes),
            None => self.put(name, bytes),
        }
    }

    /// Removes a file, if it is there.
    pub(crate) fn remove(&mut self, name: &str) -> Option<Vec<u8>>
        ensures gone { AreSame (removed name.now (files_in self.old)) (files_in self.new) }
        ensures file { option_map (λ v. v.items) result ≡ files_in self.old name.now }
    {
        let at = self.place_of(name)?;
        let (_, file) = self.map.shift_remove_index(at)?;
        Some(file)
    }

    /// Renames a file, or changes nothing.
    pub(crate) fn rename(&mut self, from: &str, to: &str) -> Result<(), AllocError>
        ensures done { OnOk result (AreSame (renamed from.now to.now (files_in self.old)) (files_in self.new)) }
        ensures failed { OnErr result (AreSame (files_in self.old) (files_in self.new)) }
    {
        if from == to || self.place_of(from).is_none() {
            return Ok(());
        }
        self.make(to)?;
        if let Some(file) = self.remove(from) {
            self.replace(to, file);
        }
        Ok(())
    }

    /// Makes a file where there is none of this name, or changes nothing.
    fn make(&mut self, name: &str) -> Result<(), AllocError>
        ensures there { OnOk result (IsSome (files_in self.new name.now)) }
        ensures others { OnOk result (HasOthers name.now (files_in self.old) (files_in self.new)) }
        ensures failed { OnErr result (self.new ≡ self.old) }
    {
        match self.place_of(name) {
            Some(_) => Ok(()),
            None => self.put(name, b""),
        }
    }

    /// Replaces what a file has.
    fn replace(&mut self, name: &str, file: Vec<u8>)
        requires { IsSome (files_in self.old name.now) }
        ensures { AreSame (with_file name.now file.items (files_in self.old)) (files_in self.new) }
    {
        if let Some(at) = self.place_of(name) {
            self.map[at] = file;
        }
    }
}
