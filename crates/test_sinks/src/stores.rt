//! Stores that tests hand to sinks. Each meets the law of `Store`, as those of `alog_sink` do.
use alog_sink::{MemStore, Store, StoreError};
use std::alloc::Global;
use std::sync::Arc;
use std::sync::atomic::{AtomicU64, Ordering};
use std::{io, thread};

/// Files in memory, where each call lets other threads go on first. The test `two_threads_write_lines` shows it.
#[derive(Debug, Drop)]
pub struct Yielding(pub MemStore);

impl Store for Yielding {
    ghost use Rattle.std.specs.Prelude.{true};

    ghost files = { λ s. ⟦<MemStore as Store>⟧.files s.0 };

    ghost tells = { true };

    ghost failures = { λ s. ⟦<MemStore as Store>⟧.failures s.0 };

    ghost why = { λ s. ⟦<MemStore as Store>⟧.why s.0 };

    fn append(&mut self, name: &str, bytes: &[u8]) -> Result<(), StoreError> {
        thread::yield_now();
        self.0.append(name, bytes)
    }

    fn rename(&mut self, from: &str, to: &str) -> Result<(), StoreError> {
        thread::yield_now();
        self.0.rename(from, to)
    }

    fn remove(&mut self, name: &str) -> Result<(), StoreError> {
        thread::yield_now();
        self.0.remove(name)
    }

    fn size(&mut self, name: &str) -> Result<Option<u64>, StoreError> {
        thread::yield_now();
        self.0.size(name)
    }

    fn flush(&mut self, name: &str) -> Result<(), StoreError> {
        thread::yield_now();
        self.0.flush(name)
    }

    fn reason(&self) -> Option<io::Error> {
        self.0.reason()
    }
}

/// Files in memory that note which names were flushed, and whether there was no memory. The test `a_flush_names_its_file` shows it.
#[derive(Debug, Drop)]
pub struct Noting {
    /// the files
    pub files: MemStore,
    /// the names in the order of their flushes, each followed by a space
    pub flushed: String,
    /// whether there was no memory for one of both: behind a fuse that is to fail the same call nobody else would tell
    pub has_failed: bool,
}

impl Noting {
    /// These files, of which nothing was flushed.
    pub fn new(alloc: Global, files: MemStore) -> Noting {
        Noting {
            files,
            flushed: String::new(alloc),
            has_failed: false,
        }
    }
}

impl Store for Noting {
    ghost use Rattle.std.specs.Prelude.{true};

    ghost files = { λ s. ⟦<MemStore as Store>⟧.files s.files };

    ghost tells = { true };

    ghost failures = { λ s. ⟦<MemStore as Store>⟧.failures s.files };

    ghost why = { λ s. ⟦<MemStore as Store>⟧.why s.files };

    fn append(&mut self, name: &str, bytes: &[u8]) -> Result<(), StoreError> {
        let answer = self.files.append(name, bytes);
        self.has_failed |= answer.is_err();
        answer
    }

    fn rename(&mut self, from: &str, to: &str) -> Result<(), StoreError> {
        let answer = self.files.rename(from, to);
        self.has_failed |= answer.is_err();
        answer
    }

    fn remove(&mut self, name: &str) -> Result<(), StoreError> {
        self.files.remove(name)
    }

    fn size(&mut self, name: &str) -> Result<Option<u64>, StoreError> {
        self.files.size(name)
    }

    fn flush(&mut self, name: &str) -> Result<(), StoreError> {
        self.has_failed |= self.flushed.push_str(name).is_err();
        self.has_failed |= self.flushed.push_str(" ").is_err();
        self.files.flush(name)
    }

    fn reason(&self) -> Option<io::Error> {
        self.files.reason()
    }
}

/// Notes each append and each flush in a number that several stores share: one digit more, its own. The test
/// `a_fan_serves_its_members_in_order` shows it.
#[derive(Drop)]
pub struct Marking {
    /// what all have noted
    pub marks: Arc<AtomicU64>,
    /// its own digit
    pub digit: u64,
}

impl Marking {
    fn mark(&self) {
        let marks = self.marks.load(Ordering::SeqCst).wrapping_mul(10);
        self.marks
            .store(marks.wrapping_add(self.digit), Ordering::SeqCst);
    }
}

impl Store for Marking {
    ghost use Rattle.std.specs.Prelude.{false, None};
    ghost use Rattle.alog_sink.specs.Files.{no_files};

    ghost files = { λ s. no_files };

    ghost tells = { false };

    ghost failures = { λ s. 0 };

    ghost why = { λ _. None };

    fn append(&mut self, _name: &str, _bytes: &[u8]) -> Result<(), StoreError> {
        self.mark();
        Ok(())
    }

    fn rename(&mut self, _from: &str, _to: &str) -> Result<(), StoreError> {
        Ok(())
    }

    fn remove(&mut self, _name: &str) -> Result<(), StoreError> {
        Ok(())
    }

    fn size(&mut self, _name: &str) -> Result<Option<u64>, StoreError> {
        Ok(None)
    }

    fn flush(&mut self, _name: &str) -> Result<(), StoreError> {
        self.mark();
        Ok(())
    }

    fn reason(&self) -> Option<io::Error> {
        None
    }
}
