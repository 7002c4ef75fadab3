//! A store over another one, whose failed calls it tries again.
ghost use Rattle.std.specs.Prelude.{◌≡◌, ◌≤◌, true, length, IfErr, OnErr, OnOk};
ghost use Rattle.alog_sink.specs.Calls.{Counts, TakesFront};
ghost use Rattle.alog_sink.specs.Files.{AreSame, appended};
ghost use Rattle.alog_patient.specs.Tried.{Tried};

use crate::patience::Patience;
use crate::row::Row;
use alog_sink::{AppendError, Resumes, Store, StoreError};
use std::fmt::{self, Debug, Formatter};
use std::io;
use std::sync::Wait;
use std::time::Clock;

/// A store that tries a failed call of another store again, after a pause of 1, 2, 4, .. at most 30 seconds.
///
/// What an append that failed took is not appended again. A call is a failure of this store only where it is given up; then it left what
/// a failed call of the store below leaves, so of an append some first bytes. Standard error says when a call is tried again for the first
/// time, why, where the store below knows it, and when the call is done or given up.
#[derive(Drop)]
pub struct PatientStore<S, R> {
    /// The store whose calls are tried.
    pub store: S,
    /// How often each is tried again.
    pub patience: Patience,
    /// Why the last call that was given up failed, where the store below knew it.
    pub reason: Option<io::Error>,
    rt: R,
    given_up: u64,
}

impl<S: Resumes, R: Wait + Clock + Eprint> PatientStore<S, R> {
    /// A store over this one.
    pub fn new(rt: R, store: S, patience: Patience) -> PatientStore<S, R>
        ensures store { result.store ≡ store }
        ensures patience { result.patience ≡ patience }
        ensures failures { ⟦<PatientStore<S, R> as Store>⟧.failures result ≡ 0 }
    {
        PatientStore {
            store,
            patience,
            reason: None,
            rt,
            given_up: 0,
        }
    }

    /// Appends to a file, each time what is left behind the bytes that were taken.
    fn append_rest(&mut self, name: &str, bytes: &[u8]) -> Result<(), AppendError>
        ensures done { S.tells ≡ true
            → OnOk result (AreSame (appended name.now bytes.now (S.files self.old.store)) (S.files self.new.store)) }
        ensures failed { S.tells ≡ true
            → IfErr result (λ e. TakesFront e.taken name.now bytes.now (S.files self.old.store) (S.files self.new.store)) }
        ensures within { IfErr result (λ e. e.taken ≤ length bytes.now) }
        ensures counted { Counts self.old.given_up self.new.given_up result }
        ensures tried { Tried S.failures self.old.patience self.old.store self.new.store self.new.reason result }
        ensures told { OnErr result (self.new.reason ≡ S.why self.new.store) }
        ensures patience { self.new.patience ≡ self.old.patience }
    {
        let mut row = Row::new(name, self.patience);
        let mut taken = 0;
        for _ in self.rt.forever() {
            match self.store.append_some(name, &bytes[taken..]) {
                Ok(()) => {
                    row.end(&self.rt);
                    return Ok(());
                }
                Err(error) => taken += error.taken,
            }
            let reason = self.store.reason();
            if !row.goes_on(&self.rt, reason) {
                self.given_up = self.given_up.saturating_add(1);
                self.reason = reason;
                return Err(AppendError { taken });
            }
        }
        unreachable!()
    }
}

impl<S: Debug, R> Debug for PatientStore<S, R> {
    fn fmt<W: fmt::Write>(&self, f: &mut Formatter<W>) -> fmt::Result {
        f.debug_struct("PatientStore")
            .field("store", &self.store)
            .field("patience", &self.patience)
            .finish_non_exhaustive()
    }
}

impl<S: Resumes, R: Wait + Clock + Eprint> Store for PatientStore<S, R> {
    ghost use Rattle.std.specs.Prelude.{◌≡◌, true, length, IfOk, OnOk, OnErr};
    ghost use Rattle.std.specs.Option.{option_map};
    ghost use Rattle.alog_sink.specs.Files.{AreSame, appended, renamed, removed};
    ghost use Rattle.alog_sink.specs.Calls.{Counts, LeavesFront};
    ghost use Rattle.alog_patient.specs.Tried.{Tried};

    ghost files = { λ s. S.files s.store };

    ghost tells = { S.tells };

    ghost failures = { λ s. s.given_up };

    ghost why = { λ s. s.reason };

    fn append(&mut self, name: &str, bytes: &[u8]) -> Result<(), StoreError>
        ensures done { S.tells ≡ true
            → OnOk result (AreSame (appended name.now bytes.now (S.files self.old.store)) (S.files self.new.store)) }
        ensures failed { S.tells ≡ true → OnErr result (LeavesFront name.now bytes.now (S.files self.old.store) (S.files self.new.store)) }
        ensures counted { Counts self.old.given_up self.new.given_up result }
        ensures tried { Tried S.failures self.old.patience self.old.store self.new.store self.new.reason result }
        ensures told { OnErr result (self.new.reason ≡ S.why self.new.store) }
        ensures patience { self.new.patience ≡ self.old.patience }
    {
        match self.append_rest(name, bytes) {
            Ok(()) => Ok(()),
            Err(_) => Err(StoreError),
        }
    }

    fn rename(&mut self, from: &str, to: &str) -> Result<(), StoreError>
        ensures done { S.tells ≡ true → OnOk result (AreSame (renamed from.now to.now (S.files self.old.store)) (S.files self.new.store)) }
        ensures failed { S.tells ≡ true → OnErr result (AreSame (S.files self.old.store) (S.files self.new.store)) }
        ensures counted { Counts self.old.given_up self.new.given_up result }
        ensures tried { Tried S.failures self.old.patience self.old.store self.new.store self.new.reason result }
        ensures told { OnErr result (self.new.reason ≡ S.why self.new.store) }
        ensures patience { self.new.patience ≡ self.old.patience }
    {
        let mut row = Row::new(from, self.patience);
        for _ in self.rt.forever() {
            if let Ok(()) = self.store.rename(from, to) {
                row.end(&self.rt);
                return Ok(());
            }
            let reason = self.store.reason();
            if !row.goes_on(&self.rt, reason) {
                self.given_up = self.given_up.saturating_add(1);
                self.reason = reason;
                return Err(StoreError);
            }
        }
        unreachable!()
    }

    fn remove(&mut self, name: &str) -> Result<(), StoreError>
        ensures done { S.tells ≡ true → OnOk result (AreSame (removed name.now (S.files self.old.store)) (S.files self.new.store)) }
        ensures failed { S.tells ≡ true → OnErr result (AreSame (S.files self.old.store) (S.files self.new.store)) }
        ensures counted { Counts self.old.given_up self.new.given_up result }
        ensures tried { Tried S.failures self.old.patience self.old.store self.new.store self.new.reason result }
        ensures told { OnErr result (self.new.reason ≡ S.why self.new.store) }
        ensures patience { self.new.patience ≡ self.old.patience }
    {
        let mut row = Row::new(name, self.patience);
        for _ in self.rt.forever() {
            if let Ok(()) = self.store.remove(name) {
                row.end(&self.rt);
                return Ok(());
            }
            let reason = self.store.reason();
            if !row.goes_on(&self.rt, reason) {
                self.given_up = self.given_up.saturating_add(1);
                self.reason = reason;
                return Err(StoreError);
            }
        }
        unreachable!()
    }

    fn size(&mut self, name: &str) -> Result<Option<u64>, StoreError>
        ensures size { S.tells ≡ true → IfOk result (λ size. size ≡ option_map length (S.files self.old.store name.now)) }
        ensures same { S.tells ≡ true → AreSame (S.files self.old.store) (S.files self.new.store) }
        ensures counted { Counts self.old.given_up self.new.given_up result }
        ensures tried { Tried S.failures self.old.patience self.old.store self.new.store self.new.reason result }
        ensures told { OnErr result (self.new.reason ≡ S.why self.new.store) }
        ensures patience { self.new.patience ≡ self.old.patience }
    {
        let mut row = Row::new(name, self.patience);
        for _ in self.rt.forever() {
            if let Ok(size) = self.store.size(name) {
                row.end(&self.rt);
                return Ok(size);
            }
            let reason = self.store.reason();
            if !row.goes_on(&self.rt, reason) {
                self.given_up = self.given_up.saturating_add(1);
                self.reason = reason;
                return Err(StoreError);
            }
        }
        unreachable!()
    }

    fn flush(&mut self, name: &str) -> Result<(), StoreError>
        ensures same { S.tells ≡ true → AreSame (S.files self.old.store) (S.files self.new.store) }
        ensures counted { Counts self.old.given_up self.new.given_up result }
        ensures tried { Tried S.failures self.old.patience self.old.store self.new.store self.new.reason result }
        ensures told { OnErr result (self.new.reason ≡ S.why self.new.store) }
        ensures patience { self.new.patience ≡ self.old.patience }
    {
        let mut row = Row::new(name, self.patience);
        for _ in self.rt.forever() {
            if let Ok(()) = self.store.flush(name) {
                row.end(&self.rt);
                return Ok(());
            }
            let reason = self.store.reason();
            if !row.goes_on(&self.rt, reason) {
                self.given_up = self.given_up.saturating_add(1);
                self.reason = reason;
                return Err(StoreError);
            }
        }
        unreachable!()
    }

    fn reason(&self) -> Option<io::Error>
        ensures { result ≡ self.now.reason }
    {
        self.reason
    }
}

impl<S: Resumes, R: Wait + Clock + Eprint> Resumes for PatientStore<S, R> {
    fn append_some(&mut self, name: &str, bytes: &[u8]) -> Result<(), AppendError> {
        self.append_rest(name, bytes)
    }
}
