//! A store that keeps nothing.
use alog_sink::{Store, StoreError};
use std::io;

/// A store that drops what it is given, and never fails.
#[derive(Drop)]
pub struct NullStore;

impl Store for NullStore {
    ghost use Rattle.std.specs.Prelude.{false, None};
    ghost use Rattle.alog_sink.specs.Files.{no_files};

    ghost files = { λ _. no_files };

    ghost tells = { false };

    ghost failures = { λ _. 0 };

    ghost why = { λ _. None };

    fn append(&mut self, _name: &str, _bytes: &[u8]) -> Result<(), StoreError> {
        Ok(())
    }

    fn rename(&mut self, _from: &str, _to: &str) -> Result<(), StoreError> {
        Ok(())
    }

    fn remove(&mut self, _name: &str) -> Result<(), StoreError> {
        Ok(())
    }

    fn size(&mut self, _name: &str) -> Result<Option<u64>, StoreError> {
        Ok(None)
    }

    fn flush(&mut self, _name: &str) -> Result<(), StoreError> {
        Ok(())
    }

    fn reason(&self) -> Option<io::Error> {
        None
    }
}
