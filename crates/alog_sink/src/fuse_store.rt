//! A store that fails once.
ghost use Rattle.std.specs.Prelude.{◌≡◌, ◌↔◌, IsTrue};
ghost use Rattle.alog_sink.specs.Fuse.{burnt};

use crate::resume::{AppendError, Resumes};
use crate::store::{Store, StoreError};
use std::io;

/// A store that passes its calls on to another, but for one, which it fails.
///
/// All calls count: append, rename, remove, size and flush. Where the one to fail is an append, its first `part` bytes
/// are passed on, or all where it has fewer.
#[derive(Debug, Drop)]
pub struct FuseStore<S> {
    /// Where calls are passed on to.
    pub store: S,
    /// How far the fuse has burnt.
    pub fuse: Fuse,
    /// How many bytes of a failing append are passed on, at most.
    pub part: usize,
}

/// How far a fuse has burnt.
#[derive(Clone, Copy, Debug, PartialEq, Eq, Drop)]
pub enum Fuse {
    /// So many calls pass before the one that it fails.
    Left(u64),
    /// It failed its call.
    Burnt,
    /// Its call was an append that failed in the store below.
    Spared,
}

impl<S: Store> FuseStore<S> {
    /// The store `store`, whose call number `k`, from 0, fails.
    pub fn new(store: S, k: u64, part: usize) -> FuseStore<S>
        ensures { result ≡ record { store = store; fuse = Fuse.Left k; part = part } }
    {
        FuseStore {
            store,
            fuse: Fuse::Left(k),
            part,
        }
    }

    /// The store that calls are passed on to.
    pub fn store(&self) -> &S
        ensures { result.now ≡ self.now.store }
    {
        &self.store
    }

    /// Gives that store back.
    pub fn into_store(self) -> S
        ensures { result ≡ self.store }
    {
        let FuseStore {
            store,
            fuse: _,
            part: _,
        } = self;
        store
    }
}

// One call: whether it is the one to fail.
fn burns(fuse: &mut Fuse) -> bool
    ensures burns { IsTrue result ↔ (fuse.old ≡ Fuse.Left 0) }
    ensures burnt { fuse.new ≡ burnt fuse.old }
{
    match *fuse {
        Fuse::Left(0) => {
            *fuse = Fuse::Burnt;
            true
        }
        Fuse::Left(calls) => {
            *fuse = Fuse::Left(calls - 1);
            false
        }
        Fuse::Burnt | Fuse::Spared => false,
    }
}

impl<S: Store> Store for FuseStore<S> {
    ghost use Rattle.std.specs.Prelude.{◌≡◌, ◌≢◌, ◌+◌, ◌<◌, ◌⊎◌, true, length, take, IfOk, IsErr, OnOk, OnErr};
    ghost use Rattle.std.specs.Option.{option_map};
    ghost use Rattle.alog_sink.specs.Files.{AreSame, appended, renamed, removed};
    ghost use Rattle.alog_sink.specs.Calls.{Counts, LeavesFront};
    ghost use Rattle.alog_sink.specs.Fuse.{own_failures, Passes};
    ghost use Rattle.alog_sink.specs.declared.TheConstants.{FAILURES_MAX};

    ghost files = { λ s. S.files s.store };

    ghost tells = { S.tells };

    ghost failures = { λ s. S.failures s.store + own_failures s.fuse };

    ghost why = { λ s. S.why s.store };

    fn append(&mut self, name: &str, bytes: &[u8]) -> Result<(), StoreError>
        ensures done { S.tells ≡ true
            → OnOk result (AreSame (appended name.now bytes.now (S.files self.old.store)) (S.files self.new.store)) }
        ensures failed { S.tells ≡ true → OnErr result (LeavesFront name.now bytes.now (S.files self.old.store) (S.files self.new.store)) }
        ensures counted { Counts (S.failures self.old.store + own_failures self.old.fuse)
            (S.failures self.new.store + own_failures self.new.fuse) result }
        ensures fails { (self.old.fuse ≡ Fuse.Left 0) → IsErr result }
        ensures ends { (self.old.fuse ≡ Fuse.Left 0) → ((self.new.fuse ≡ Fuse.Burnt) ⊎ (self.new.fuse ≡ Fuse.Spared)) }
        ensures spared { (self.old.fuse ≡ Fuse.Left 0) → (self.new.fuse ≡ Fuse.Spared)
            → (S.failures self.old.store < FAILURES_MAX) → S.failures self.new.store ≡ S.failures self.old.store + 1 }
        ensures part { S.tells ≡ true → (self.old.fuse ≡ Fuse.Left 0) → (self.new.fuse ≡ Fuse.Burnt)
            → AreSame (appended name.now (take self.old.part bytes.now) (S.files self.old.store)) (S.files self.new.store) }
        ensures passes { (self.old.fuse ≢ Fuse.Left 0)
            → Passes self.old.fuse self.new.fuse (S.failures self.old.store) (S.failures self.new.store) result }
        ensures limit { self.new.part ≡ self.old.part }
    {
        if burns(&mut self.fuse) {
            let part = self.part.min(bytes.len());
            if self.store.append(name, &bytes[..part]).is_err() {
                self.fuse = Fuse::Spared;
            }
            return Err(StoreError);
        }
        self.store.append(name, bytes)
    }

    fn rename(&mut self, from: &str, to: &str) -> Result<(), StoreError>
        ensures done { S.tells ≡ true → OnOk result (AreSame (renamed from.now to.now (S.files self.old.store)) (S.files self.new.store)) }
        ensures failed { S.tells ≡ true → OnErr result (AreSame (S.files self.old.store) (S.files self.new.store)) }
        ensures counted { Counts (S.failures self.old.store + own_failures self.old.fuse)
            (S.failures self.new.store + own_failures self.new.fuse) result }
        ensures passes { Passes self.old.fuse self.new.fuse (S.failures self.old.store) (S.failures self.new.store) result }
        ensures limit { self.new.part ≡ self.old.part }
    {
        if burns(&mut self.fuse) {
            return Err(StoreError);
        }
        self.store.rename(from, to)
    }

    fn remove(&mut self, name: &str) -> Result<(), StoreError>
        ensures done { S.tells ≡ true → OnOk result (AreSame (removed name.now (S.files self.old.store)) (S.files self.new.store)) }
        ensures failed { S.tells ≡ true → OnErr result (AreSame (S.files self.old.store) (S.files self.new.store)) }
        ensures counted { Counts (S.failures self.old.store + own_failures self.old.fuse)
            (S.failures self.new.store + own_failures self.new.fuse) result }
        ensures passes { Passes self.old.fuse self.new.fuse (S.failures self.old.store) (S.failures self.new.store) result }
        ensures limit { self.new.part ≡ self.old.part }
    {
        if burns(&mut self.fuse) {
            return Err(StoreError);
        }
        self.store.remove(name)
    }

    fn size(&mut self, name: &str) -> Result<Option<u64>, StoreError>
        ensures size { S.tells ≡ true → IfOk result (λ size. size ≡ option_map length (S.files self.old.store name.now)) }
        ensures same { S.tells ≡ true → AreSame (S.files self.old.store) (S.files self.new.store) }
        ensures counted { Counts (S.failures self.old.store + own_failures self.old.fuse)
            (S.failures self.new.store + own_failures self.new.fuse) result }
        ensures passes { Passes self.old.fuse self.new.fuse (S.failures self.old.store) (S.failures self.new.store) result }
        ensures limit { self.new.part ≡ self.old.part }
    {
        if burns(&mut self.fuse) {
            return Err(StoreError);
        }
        self.store.size(name)
    }

    fn flush(&mut self, name: &str) -> Result<(), StoreError>
        ensures same { S.tells ≡ true → AreSame (S.files self.old.store) (S.files self.new.store) }
        ensures counted { Counts (S.failures self.old.store + own_failures self.old.fuse)
            (S.failures self.new.store + own_failures self.new.fuse) result }
        ensures passes { Passes self.old.fuse self.new.fuse (S.failures self.old.store) (S.failures self.new.store) result }
        ensures limit { self.new.part ≡ self.old.part }
    {
        if burns(&mut self.fuse) {
            return Err(StoreError);
        }
        self.store.flush(name)
    }

    /// Why the last call of the store below that failed did: a fuse that burns has no reason of its own.
    fn reason(&self) -> Option<io::Error> {
        self.store.reason()
    }
}

impl<S: Resumes> Resumes for FuseStore<S> {
    ghost use Rattle.std.specs.Prelude.{◌≡◌, ◌≢◌, ◌+◌, ◌<◌, ◌≤◌, ◌⊎◌, min, true, length, IfErr, IsErr, OnOk};
    ghost use Rattle.alog_sink.specs.Files.{AreSame, appended};
    ghost use Rattle.alog_sink.specs.Calls.{Counts, TakesFront};
    ghost use Rattle.alog_sink.specs.Fuse.{own_failures, Passes};
    ghost use Rattle.alog_sink.specs.declared.TheConstants.{FAILURES_MAX};

    fn append_some(&mut self, name: &str, bytes: &[u8]) -> Result<(), AppendError>
        ensures done { S.tells ≡ true
            → OnOk result (AreSame (appended name.now bytes.now (S.files self.old.store)) (S.files self.new.store)) }
        ensures failed { S.tells ≡ true
            → IfErr result (λ e. TakesFront e.taken name.now bytes.now (S.files self.old.store) (S.files self.new.store)) }
        ensures within { IfErr result (λ e. e.taken ≤ length bytes.now) }
        ensures counted { Counts (S.failures self.old.store + own_failures self.old.fuse)
            (S.failures self.new.store + own_failures self.new.fuse) result }
        ensures fails { (self.old.fuse ≡ Fuse.Left 0) → IsErr result }
        ensures ends { (self.old.fuse ≡ Fuse.Left 0) → ((self.new.fuse ≡ Fuse.Burnt) ⊎ (self.new.fuse ≡ Fuse.Spared)) }
        ensures spared { (self.old.fuse ≡ Fuse.Left 0) → (self.new.fuse ≡ Fuse.Spared)
            → (S.failures self.old.store < FAILURES_MAX) → S.failures self.new.store ≡ S.failures self.old.store + 1 }
        ensures part { (self.old.fuse ≡ Fuse.Left 0) → (self.new.fuse ≡ Fuse.Burnt)
            → IfErr result (λ e. e.taken ≡ min self.old.part (length bytes.now)) }
        ensures passes { (self.old.fuse ≢ Fuse.Left 0)
            → Passes self.old.fuse self.new.fuse (S.failures self.old.store) (S.failures self.new.store) result }
        ensures limit { self.new.part ≡ self.old.part }
    {
        if burns(&mut self.fuse) {
            let part = self.part.min(bytes.len());
            return match self.store.append_some(name, &bytes[..part]) {
                Ok(()) => Err(AppendError { taken: part }),
                Err(error) => {
                    self.fuse = Fuse::Spared;
                    Err(error)
                }
            };
        }
        self.store.append_some(name, bytes)
    }
}
