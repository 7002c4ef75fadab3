//! A store that the tests of daily sinks put behind a fuse. It meets the law of `Store`, as those of `alog_sink` do.
use alog_sink::{MemStore, Store, StoreError};
use std::io;

/// Files in memory that note whether a call of theirs failed, which they do where there is no memory: behind a fuse that is to fail the
/// same call nobody else would tell.
#[derive(Debug, Drop)]
pub struct Noting {
    /// the files
    pub files: MemStore,
    /// whether a call failed
    pub has_failed: bool,
}

impl Store for Noting {
    ghost use Rattle.std.specs.Prelude.{true};

    ghost files = { λ s. ⟦<MemStore as Store>⟧.files s.files };

    ghost tells = { true };

    ghost failures = { λ s. ⟦<MemStore as Store>⟧.failures s.files };

    ghost why = { λ s. ⟦<MemStore as Store>⟧.why s.files };

    fn append(&mut self, name: &str, bytes: &[u8]) -> Result<(), StoreError> {
        let answer = self.files.append(name, bytes);
        self.has_failed |= answer.is_err();
        answer
    }

    fn rename(&mut self, from: &str, to: &str) -> Result<(), StoreError> {
        let answer = self.files.rename(from, to);
        self.has_failed |= answer.is_err();
        answer
    }

    fn remove(&mut self, name: &str) -> Result<(), StoreError> {
        self.files.remove(name)
    }

    fn size(&mut self, name: &str) -> Result<Option<u64>, StoreError> {
        self.files.size(name)
    }

    fn flush(&mut self, name: &str) -> Result<(), StoreError> {
        self.files.flush(name)
    }

    fn reason(&self) -> Option<io::Error> {
        self.files.reason()
    }
}
