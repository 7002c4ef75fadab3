//! What a store that tries again is tried with: a store whose calls fail, and a runtime whose pauses take no time.
ghost use Rattle.std.specs.Prelude.{◌≡◌, ◌≤◌, IfErr, length};
ghost use Rattle.alog_sink.specs.Calls.{Counts};

use crate::stores::Noting;
use alog_sink::{AppendError, Resumes, Store, StoreError};
use std::alloc::Global;
use std::fmt::Display;
use std::io::{self, ErrorKind};
use std::sync::Wait;
use std::sync::atomic::{AtomicU64, Ordering};
use std::time::{Clock, Duration};

/// How often each call fails before it is done, how many bytes an append that fails takes, or all of fewer, and of what kind a failure
/// is, where that is told.
pub type Failing = (u32, usize, Option<ErrorKind>);

/// Files in memory, each call of which fails so many times before it is done; each append that fails takes some first bytes. It tells
/// nothing of its files, so that it may do so.
#[derive(Debug, Drop)]
pub struct Flaky {
    /// the files
    pub files: Noting,
    /// the names of the flushes that were done, a blank behind each
    pub flushed: String,
    failing: Failing,
    reason: Option<io::Error>,
    left: u32,
    failures: u64,
}

impl Flaky {
    /// These files, whose calls fail so.
    pub fn new(alloc: Global, files: Noting, failing: Failing) -> Flaky {
        let reason = match failing.2 {
            Some(kind) => Some(kind.into()),
            None => None,
        };
        Flaky {
            files,
            flushed: String::new(alloc),
            failing,
            reason,
            left: failing.0,
            failures: 0,
        }
    }

    /// Whether a call fails.
    fn fails(&mut self) -> bool
        ensures { self.new.failures ≡ self.old.failures }
    {
        if self.left == 0 {
            self.left = self.failing.0;
            return false;
        }
        self.left -= 1;
        true
    }

    /// An answer, which is counted where it is a failure.
    fn told<T, E: Drop>(&mut self, answer: Result<T, E>) -> Result<T, E>
        ensures same { result ≡ answer }
        ensures counted { Counts self.old.failures self.new.failures result }
    {
        if answer.is_err() {
            self.failures = self.failures.saturating_add(1);
        }
        answer
    }

    /// Notes the name of a flush.
    fn note(&mut self, name: &str)
        ensures { self.new.failures ≡ self.old.failures }
    {
        let is_noted = self.flushed.push_str(name).is_ok() && self.flushed.push(' ').is_ok();
        self.files.has_failed |= !is_noted;
    }

    /// Appends to a file, or some first bytes where the call fails.
    fn take(&mut self, name: &str, bytes: &[u8]) -> Result<(), AppendError>
        ensures within { IfErr result (λ e. e.taken ≤ length bytes.now) }
        ensures counted { Counts self.old.failures self.new.failures result }
    {
        if !self.fails() {
            let answer = self.files.append_some(name, bytes);
            return self.told(answer);
        }
        let taken = self.failing.1.min(bytes.len());
        let _ = self.files.append(name, &bytes[..taken]);
        self.told(Err(AppendError { taken }))
    }
}

impl Store for Flaky {
    ghost use Rattle.std.specs.Prelude.{false};
    ghost use Rattle.alog_sink.specs.Files.{no_files};

    ghost files = { λ _. no_files };

    ghost tells = { false };

    ghost failures = { λ s. s.failures };

    ghost why = { λ s. s.reason };

    fn append(&mut self, name: &str, bytes: &[u8]) -> Result<(), StoreError> {
        match self.take(name, bytes) {
            Ok(()) => Ok(()),
            Err(_) => Err(StoreError),
        }
    }

    fn rename(&mut self, from: &str, to: &str) -> Result<(), StoreError> {
        if self.fails() {
            return self.told(Err(StoreError));
        }
        let answer = self.files.rename(from, to);
        self.told(answer)
    }

    fn remove(&mut self, name: &str) -> Result<(), StoreError> {
        if self.fails() {
            return self.told(Err(StoreError));
        }
        let answer = self.files.remove(name);
        self.told(answer)
    }

    fn size(&mut self, name: &str) -> Result<Option<u64>, StoreError> {
        if self.fails() {
            return self.told(Err(StoreError));
        }
        let answer = self.files.size(name);
        self.told(answer)
    }

    fn flush(&mut self, name: &str) -> Result<(), StoreError> {
        if self.fails() {
            return self.told(Err(StoreError));
        }
        self.note(name);
        let answer = self.files.flush(name);
        self.told(answer)
    }

    fn reason(&self) -> Option<io::Error> {
        self.reason
    }
}

impl Resumes for Flaky {
    fn append_some(&mut self, name: &str, bytes: &[u8]) -> Result<(), AppendError> {
        self.take(name, bytes)
    }
}

/// What a runtime was asked for: how many pauses, of how many seconds in all, and how many lines on standard error.
pub type Asked = (u64, u64, u64);

/// A runtime that counts what it is asked for, and does none of it.
#[derive(Drop)]
pub struct Counting<R> {
    rt: R,
    pauses: AtomicU64,
    seconds: AtomicU64,
    lines: AtomicU64,
}

impl<R> Counting<R> {
    /// A runtime that was asked for nothing. It waits as this one does.
    pub fn new(rt: R) -> Counting<R> {
        Counting {
            rt,
            pauses: AtomicU64::new(0),
            seconds: AtomicU64::new(0),
            lines: AtomicU64::new(0),
        }
    }

    pub fn asked(&self) -> Asked {
        (
            self.pauses.load(Ordering::SeqCst),
            self.seconds.load(Ordering::SeqCst),
            self.lines.load(Ordering::SeqCst),
        )
    }
}

impl<R: Wait> Wait for Counting<R> {}

impl<R> Clock for Counting<R> {
    fn monotonic(&self) -> io::Result<Duration> {
        Ok(Duration::ZERO)
    }

    fn since_1970(&self) -> io::Result<Duration> {
        Ok(Duration::ZERO)
    }

    fn sleep(&self, duration: Duration) {
        self.pauses.fetch_add(1, Ordering::SeqCst);
        self.seconds.fetch_add(duration.as_secs(), Ordering::SeqCst);
    }
}

impl<R> Eprint for Counting<R> {
    fn eprint<D: Display + Drop>(&self, _value: D) -> io::Result<()> {
        Ok(())
    }

    fn eprintln<D: Display + Drop>(&self, _value: D) -> io::Result<()> {
        self.lines.fetch_add(1, Ordering::SeqCst);
        Ok(())
    }
}
