//! How a worker waits for an item.
use alog_pool::{ItemWait, RestPace};
use alog_ring::PopError;
use std::io;
use std::process::Abort;
use std::sync::atomic::{AtomicU64, Ordering};
use std::time::{Clock, Duration};

/// A clock that stands still, and counts the sleeps and the microseconds that they are asked to take, each less than a second.
#[derive(Drop)]
struct Stopped {
    sleeps: AtomicU64,
    micros: AtomicU64,
}

impl Clock for Stopped {
    fn monotonic(&self) -> io::Result<Duration> {
        Ok(Duration::ZERO)
    }

    fn since_1970(&self) -> io::Result<Duration> {
        Ok(Duration::ZERO)
    }

    fn sleep(&self, duration: Duration) {
        self.sleeps.fetch_add(1, Ordering::SeqCst);
        let micros = u64::from(duration.subsec_micros());
        self.micros.fetch_add(micros, Ordering::SeqCst);
    }
}

/// After a thousand pops more that took nothing for this reason, so many sleeps of so many microseconds were made in all.
fn has_slept(
    rt: &impl Abort,
    wait: &mut ItemWait,
    pace: &mut RestPace,
    clock: &Stopped,
    error: PopError,
    wanted: (u64, u64),
) {
    for _ in 0..1_000 {
        wait.after(clock, pace, error);
    }
    let sleeps = clock.sleeps.load(Ordering::SeqCst);
    let micros = clock.micros.load(Ordering::SeqCst);
    assert!(rt; (sleeps, micros) == wanted, "{sleeps} sleeps of {micros}");
}

#[test]
fn rests_where_the_queue_is_idle_alone(rt: HostRuntime) {
    let clock = Stopped {
        sleeps: AtomicU64::new(0),
        micros: AtomicU64::new(0),
    };
    let (mut wait, mut pace) = (ItemWait::new(), RestPace::new(1, 8_192));
    let (on_its_way, beaten) = (PopError::Empty { next: 7 }, PopError::Busy { seen: 7 });
    has_slept(&rt, &mut wait, &mut pace, &clock, on_its_way, (0, 0));
    has_slept(&rt, &mut wait, &mut pace, &clock, beaten, (0, 0));
    // Seven rests and eight yields come before the first sleep, of 50 microseconds; the eighth and all behind it take four thousand.
    let slept = (985, 3_918_350);
    let idle = PopError::Idle { next: 7 };
    has_slept(&rt, &mut wait, &mut pace, &clock, idle, slept);
    has_slept(&rt, &mut wait, &mut pace, &clock, on_its_way, slept);
}

#[test]
fn rests_longer_beside_others(rt: HostRuntime) {
    let clock = Stopped {
        sleeps: AtomicU64::new(0),
        micros: AtomicU64::new(0),
    };
    let (mut wait, mut pace) = (ItemWait::new(), RestPace::new(2, 8_192));
    // The ninth sleep and all behind it take eight thousand microseconds, four thousand for each worker.
    let slept = (985, 7_828_750);
    let idle = PopError::Idle { next: 7 };
    has_slept(&rt, &mut wait, &mut pace, &clock, idle, slept);
}

/// A clock that shows 100 ns more at each look, and counts the looks.
#[derive(Drop)]
struct Walking {
    looks: AtomicU64,
}

impl Clock for Walking {
    fn monotonic(&self) -> io::Result<Duration> {
        let looks = self.looks.fetch_add(1, Ordering::SeqCst);
        Ok(Duration::from_nanos(looks.saturating_mul(100)))
    }

    fn since_1970(&self) -> io::Result<Duration> {
        Ok(Duration::ZERO)
    }

    fn sleep(&self, _duration: Duration) {}
}

// How many items are taken from one rest to the next, and the nanoseconds of that rest on a queue of 65,536 places, of 2,048 and of 2.
const RESTS: [(u32, [u64; 3]); 13] = [
    (0, [1_500, 1_500, 1_500]),
    (3, [1_500, 1_500, 1_500]),
    (4, [3_000, 3_000, 1_500]),
    (127, [6_000, 6_000, 1_500]),
    (128, [6_000, 6_000, 1_500]),
    (100_000, [6_000, 6_000, 1_500]),
    (4, [12_000, 12_000, 1_500]),
    (4, [24_000, 12_288, 1_500]),
    (127, [24_000, 12_288, 1_500]),
    (128, [24_000, 12_288, 1_500]),
    (3, [1_500, 1_500, 1_500]),
    (128, [1_500, 1_500, 1_500]),
    (5, [3_000, 3_000, 1_500]),
];

#[test]
fn rests_follow_the_items(rt: HostRuntime) {
    for (number, places) in [65_536, 2_048, 2].into_iter().enumerate() {
        let mut pace = RestPace::new(1, places);
        for (items, wanted) in RESTS {
            for _ in 0..items {
                pace.count();
            }
            let nanos = pace.next_rest();
            assert!(rt;
                nanos == wanted[number],
                "{places} places, {items} items: {nanos} ns"
            );
        }
    }
}

// How many items are taken from one rest to the next, and how often a worker has looked at such a clock behind that rest: once at the
// beginning of each, and then for each 100 ns of it.
const LOOKS_BEHIND: [(u32, u64); 5] = [(0, 16), (4, 47), (9, 108), (0, 124), (1, 140)];

#[test]
fn a_rest_takes_its_time(rt: HostRuntime) {
    let clock = Walking {
        looks: AtomicU64::new(0),
    };
    let (mut wait, mut pace) = (ItemWait::new(), RestPace::new(1, 8_192));
    for (items, wanted) in LOOKS_BEHIND {
        for _ in 0..items {
            pace.count();
        }
        wait.after(&clock, &mut pace, PopError::Idle { next: 7 });
        let looks = clock.looks.load(Ordering::SeqCst);
        assert!(rt; looks == wanted, "{items} items: {looks} looks");
    }
}
