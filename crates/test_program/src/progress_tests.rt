//! The line of progress, on a screen and by a clock of the test's own.
use alog_pool::Gate;
use alog_program::{Progress, Screen};
use std::io;
use std::sync::atomic::{AtomicU64, Ordering};
use std::time::{Clock, Duration};

/// A screen that notes how often it was shown something, and what at last.
#[derive(Drop)]
struct Noted {
    is_watched: bool,
    /// What its clock shows, in milliseconds.
    now: AtomicU64,
    times: AtomicU64,
    handled: AtomicU64,
    all: AtomicU64,
}

impl Noted {
    fn new(is_watched: bool) -> Noted {
        Noted {
            is_watched,
            now: AtomicU64::new(0),
            times: AtomicU64::new(0),
            handled: AtomicU64::new(0),
            all: AtomicU64::new(0),
        }
    }

    /// How often it was shown something, and what at last.
    fn said(&self) -> (u64, u64, u64) {
        let of = |number: &AtomicU64| number.load(Ordering::SeqCst);
        (of(&self.times), of(&self.handled), of(&self.all))
    }
}

impl Screen for &Noted {
    fn is_watched(&self) -> bool {
        self.is_watched
    }

    fn show(&self, handled: u64, all: u64) {
        self.times.fetch_add(1, Ordering::SeqCst);
        self.handled.store(handled, Ordering::SeqCst);
        self.all.store(all, Ordering::SeqCst);
    }

    fn clear(&self) {}
}

impl Clock for Noted {
    fn monotonic(&self) -> io::Result<Duration> {
        Ok(Duration::from_millis(self.now.load(Ordering::SeqCst)))
    }

    fn since_1970(&self) -> io::Result<Duration> {
        self.monotonic()
    }
}

#[test]
fn shows_twice_a_second(rt: HostRuntime) {
    let screen = Noted::new(true);
    let progress = Progress::of(&screen, 10);
    for (now, said) in [
        (1_000, (1, 1, 10)),
        (1_400, (1, 1, 10)),
        (1_500, (2, 3, 10)),
        (1_999, (2, 3, 10)),
        (9_000, (3, 5, 10)),
        (8_000, (3, 5, 10)),
    ] {
        screen.now.store(now, Ordering::SeqCst);
        progress.before(0, 0);
        progress.after(0, 0);
        assert!(rt; screen.said() == said, "{now}");
    }
}

#[test]
fn shows_nothing_that_is_not_watched(rt: HostRuntime) {
    let screen = Noted::new(false);
    let progress = Progress::of(&screen, 10);
    for now in [1_000, 2_000] {
        screen.now.store(now, Ordering::SeqCst);
        progress.after(0, 0);
    }
    assert!(rt; screen.said() == (0, 0, 0));
}
