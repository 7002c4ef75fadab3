//! Files in memory.
ghost use Rattle.std.specs.Prelude.{◌≡◌, IfErr, IfOk};
ghost use Rattle.alog_sink.specs.Files.{AreSame, no_files, with_file};
ghost use Rattle.alog_sink.specs.Listed.{entries_of, files_in, AreInOrder};
ghost use Rattle.alog_sink.specs.Memory.{listing};

use crate::resume::{AppendError, Resumes};
use crate::sorted_files::SortedFiles;
use crate::store::{Store, StoreError, counted};
use indexmap::IndexMap;
use std::alloc::{AllocFailed, Global};
use std::io;

/// Files in memory, in order of their names. An append costs the bytes appended, and a search where it is not to the file
/// that was asked for last.
///
/// A refused growth is its only failure, and leaves the files as they were.
#[derive(Debug, Drop)]
pub struct MemStore {
    files: SortedFiles,
    failures: u64,
}

impl MemStore {
    /// A store without files, which takes its memory from `alloc`.
    pub fn new(alloc: Global) -> MemStore
        ensures files { AreSame no_files (⟦<MemStore as Store>⟧.files result) }
        ensures failures { ⟦<MemStore as Store>⟧.failures result ≡ 0 }
    {
        MemStore {
            files: SortedFiles::new(alloc),
            failures: 0,
        }
    }

    /// The store with this file, in place of what had its name. Want of memory hands the store back as it was.
    pub fn with(self, name: &str, bytes: &[u8]) -> Result<MemStore, AllocFailed<MemStore>>
        ensures files { IfOk result (λ s.
            AreSame (with_file name.now bytes.now (⟦<MemStore as Store>⟧.files self)) (⟦<MemStore as Store>⟧.files s)) }
        ensures failures { IfOk result (λ s. ⟦<MemStore as Store>⟧.failures s ≡ ⟦<MemStore as Store>⟧.failures self) }
        ensures back { IfErr result (λ e. AreSame (⟦<MemStore as Store>⟧.files self) (⟦<MemStore as Store>⟧.files e.value)) }
        ensures uncounted { IfErr result (λ e. ⟦<MemStore as Store>⟧.failures e.value ≡ ⟦<MemStore as Store>⟧.failures self) }
    {
        let mut store = self;
        match store.files.put(name, bytes) {
            Ok(()) => Ok(store),
            Err(_) => Err(AllocFailed { value: store }),
        }
    }

    /// The files by name, in order of their names.
    pub fn files(&self) -> &IndexMap<String, Vec<u8>>
        ensures files { AreSame (files_in result.now.entries) (⟦<MemStore as Store>⟧.files self.now) }
        ensures ordered { AreInOrder result.now.entries }
        ensures listed { entries_of result.now.entries ≡ listing self.now }
    {
        self.files.map()
    }
}

impl Store for MemStore {
    ghost use Rattle.std.specs.Prelude.{true, None};
    ghost use Rattle.alog_sink.specs.Listed.{files_in};

    ghost files = { λ s. files_in s.files };

    ghost tells = { true };

    ghost failures = { λ s. s.failures };

    ghost why = { λ _. None };

    fn append(&mut self, name: &str, bytes: &[u8]) -> Result<(), StoreError> {
        counted(self.files.append(name, bytes), &mut self.failures)
    }

    fn rename(&mut self, from: &str, to: &str) -> Result<(), StoreError> {
        counted(self.files.rename(from, to), &mut self.failures)
    }

    fn remove(&mut self, name: &str) -> Result<(), StoreError> {
        self.files.remove(name);
        Ok(())
    }

    fn size(&mut self, name: &str) -> Result<Option<u64>, StoreError> {
        Ok(self.files.map().get(name).map(|file| file.len() as u64))
    }

    fn flush(&mut self, _name: &str) -> Result<(), StoreError> {
        Ok(())
    }

    fn reason(&self) -> Option<io::Error> {
        None
    }
}

impl Resumes for MemStore {
    fn append_some(&mut self, name: &str, bytes: &[u8]) -> Result<(), AppendError> {
        match counted(self.files.append(name, bytes), &mut self.failures) {
            Ok(()) => Ok(()),
            Err(StoreError) => Err(AppendError { taken: 0 }),
        }
    }
}
