//! The line of progress of a load, which a terminal shows while the load goes on.
use alog_pool::Gate;
use std::io::{IsTerminal, Write};
use std::sync::atomic::{AtomicU64, Ordering};
use std::time::Clock;

/// Where a line of progress is shown.
pub trait Screen {
    /// Whether somebody may look at it: whether standard error is a terminal.
    fn is_watched(&self) -> bool;

    /// Shows that so many texts of so many were handled, in place of what it showed before.
    fn show(&self, handled: u64, all: u64);

    /// Shows nothing in place of that.
    fn clear(&self);
}

impl Screen for HostRuntime {
    fn is_watched(&self) -> bool {
        self.stderr().is_terminal()
    }

    fn show(&self, handled: u64, all: u64) {
        let _ = write!(self.stderr(), "\r{handled} of {all} handled\x1b[K");
    }

    fn clear(&self) {
        let _ = write!(self.stderr(), "\r\x1b[K");
    }
}

/// A gate that counts the texts that were handled, and shows on a screen that is watched, at most twice a second, how many.
#[derive(Drop)]
pub struct Progress<R> {
    rt: R,
    is_watched: bool,
    all: u64,
    handled: AtomicU64,
    /// The half second of the clock in which it was last shown.
    shown: AtomicU64,
}

impl<R: Screen + Clock> Progress<R> {
    /// None of so many is handled yet.
    pub fn of(rt: R, all: u64) -> Progress<R> {
        Progress {
            is_watched: rt.is_watched(),
            rt,
            all,
            handled: AtomicU64::new(0),
            shown: AtomicU64::new(0),
        }
    }

    /// Shows it, if nothing was shown in this half second.
    fn show_in_time(&self, handled: u64) {
        let Ok(now) = self.rt.monotonic() else {
            return;
        };
        let half = now
            .as_secs()
            .saturating_mul(2)
            .saturating_add(u64::from(now.subsec_nanos() / 500_000_000));
        let last = self.shown.load(Ordering::SeqCst);
        let is_due = half > last
            && self
                .shown
                .compare_exchange(last, half, Ordering::SeqCst, Ordering::SeqCst)
                .is_ok();
        if is_due {
            self.rt.show(handled, self.all);
        }
    }
}

impl<R: Screen + Clock> Gate for Progress<R> {
    fn before(&self, _worker: u32, _ticket: u64) {}

    fn after(&self, _worker: u32, _ticket: u64) {
        if self.is_watched {
            let handled = self.handled.fetch_add(1, Ordering::SeqCst).wrapping_add(1);
            self.show_in_time(handled);
        }
    }
}
