//! Failures of one call in a row.
ghost use Rattle.std.specs.Prelude.{◌≡◌, true, false, cond};
ghost use Rattle.alog_patient.specs.Tried.{fewer, has_more, is_hopeless};

use crate::patience::Patience;
use std::io::{self, ErrorKind};
use std::thread;
use std::time::{Clock, Duration};

/// The first pause of a row, in seconds. Each is twice as long as the one before.
const FIRST_PAUSE: u64 = 1;

/// The longest pause, in seconds.
const PAUSE_MAX: u64 = 30;

/// A call on a file, and how often it failed.
///
/// Of pauses and of what is printed no contract says anything.
#[derive(Drop)]
pub(crate) struct Row<'a> {
    file: &'a str,
    pub(crate) left: Patience,
    has_failed: bool,
    pause: u64,
}

impl<'a> Row<'a> {
    /// A call on this file, which was not tried.
    pub(crate) fn new(file: &'a str, patience: Patience) -> Row<'a>
        ensures { result.left ≡ patience }
    {
        Row {
            file,
            left: patience,
            has_failed: false,
            pause: FIRST_PAUSE,
        }
    }

    /// Lets a pause pass behind a failure, where the call is tried again, and answers whether it is. The first failure is told, with its
    /// reason, and the last one.
    pub(crate) fn goes_on<R: Clock + Eprint>(&mut self, rt: &R, reason: Option<io::Error>) -> bool
        ensures again { result ≡ cond (is_hopeless reason) false (has_more self.old.left) }
        ensures left { result ≡ true → self.new.left ≡ fewer self.old.left }
    {
        if is_hopeless(reason) || self.left == Patience::Times(0) {
            self.give_up(rt);
            return false;
        }
        if let Patience::Times(times) = self.left {
            self.left = Patience::Times(times - 1);
        }
        self.tell(rt, reason);
        thread::sleep(rt, Duration::from_secs(self.pause));
        self.pause = self.pause.saturating_mul(2).min(PAUSE_MAX);
        true
    }

    /// Tells the first failure.
    fn tell<R: Eprint>(&mut self, rt: &R, reason: Option<io::Error>)
        ensures { self.new.left ≡ self.old.left }
    {
        if self.has_failed {
            return;
        }
        self.has_failed = true;
        let file = self.file;
        let _ = match reason {
            Some(reason) => eprintln!(rt;
                "alog: file {file}: a call failed and is tried again: {reason}"
            ),
            None => eprintln!(rt; "alog: file {file}: a call failed and is tried again"),
        };
    }

    /// Tells that the call is given up, where it was tried again.
    fn give_up<R: Eprint>(&self, rt: &R) {
        if self.has_failed {
            let file = self.file;
            let _ = eprintln!(rt; "alog: file {file}: it is given up");
        }
    }

    /// Tells that the call is done, where it failed before.
    pub(crate) fn end<R: Eprint>(&self, rt: &R) {
        if self.has_failed {
            let file = self.file;
            let _ = eprintln!(rt; "alog: file {file}: it goes on");
        }
    }
}

/// Whether no change on the disk mends what failed so.
fn is_hopeless(reason: Option<io::Error>) -> bool
    ensures { result ≡ is_hopeless reason }
{
    match reason {
        Some(error) => matches!(
            error.kind(),
            ErrorKind::InvalidInput | ErrorKind::InvalidFilename
        ),
        None => false,
    }
}
