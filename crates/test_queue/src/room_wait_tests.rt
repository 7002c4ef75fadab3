//! How a post waits for room.
use alog_policy::{Pace, RoomWait, spin_for};
use std::io;
use std::process::Abort;
use std::sync::atomic::{AtomicU64, Ordering};
use std::time::{Clock, Duration};

/// A clock that stands still, and counts the sleeps and the nanoseconds that they are asked to take, each less than a second.
#[derive(Drop)]
struct Stopped {
    sleeps: AtomicU64,
    nanos: AtomicU64,
}

impl Stopped {
    fn new() -> Stopped {
        Stopped {
            sleeps: AtomicU64::new(0),
            nanos: AtomicU64::new(0),
        }
    }

    /// So many sleeps, of so many nanoseconds in all, were asked for.
    fn was_asked(&self, rt: &impl Abort, sleeps: u64, nanos: u64) {
        let asked = (
            self.sleeps.load(Ordering::SeqCst),
            self.nanos.load(Ordering::SeqCst),
        );
        assert!(rt;
            asked == (sleeps, nanos),
            "{} sleeps of {} ns",
            asked.0,
            asked.1
        );
    }
}

impl Clock for Stopped {
    fn monotonic(&self) -> io::Result<Duration> {
        Ok(Duration::ZERO)
    }

    fn since_1970(&self) -> io::Result<Duration> {
        Ok(Duration::ZERO)
    }

    fn sleep(&self, duration: Duration) {
        self.sleeps.fetch_add(1, Ordering::SeqCst);
        let nanos = u64::from(duration.subsec_nanos());
        self.nanos.fetch_add(nanos, Ordering::SeqCst);
    }
}

/// A post whose ticket finds no room looks four times again, and then rests so many nanoseconds: it sleeps, or yields where these are
/// less than 55 microseconds.
fn rests_so_long(rt: &impl Abort, pace: &mut Pace, ticket: u64, nap: u64) {
    let clock = Stopped::new();
    let mut room = RoomWait::new();
    for _ in 0..4 {
        room.wait(&clock, pace, ticket);
    }
    clock.was_asked(rt, 0, 0);
    let mut twin = *pace;
    let next = twin.next_nap(ticket);
    assert!(rt;
        next == nap,
        "a rest of {next} ns where ticket {ticket} found no room"
    );
    room.wait(&clock, pace, ticket);
    let slept = if nap < 55_000 { 0 } else { nap };
    clock.was_asked(rt, u64::from(slept > 0), slept);
}

/// The tickets of a thread's posts that find no room, one after another, and the nanoseconds that each of these posts rests.
type Naps = &'static [(u64, u64)];

/// At 8,192 places 6,144 tickets are to be claimed from one sleep to the next.
const OF_MANY: Naps = &[
    // The first, and none claimed since: each sleep is twice as long, up to 10 ms.
    (8_192, 1_000_000),
    (8_192, 2_000_000),
    (8_192, 4_000_000),
    (8_192, 8_000_000),
    (8_192, 10_000_000),
    (8_192, 10_000_000),
    // As many as are to be, and one more than that: a sleep is as long, and then a little shorter.
    (14_336, 10_000_000),
    (20_481, 9_998_372),
    // Twice as many, and more: it is half as long, but not less than an eighth of the first.
    (32_769, 4_999_186),
    (1_000_000, 2_499_593),
    (2_000_000, 1_249_796),
    (3_000_000, 624_898),
    (4_000_000, 312_449),
    (5_000_000, 156_224),
    (6_000_000, 125_000),
    (7_000_000, 125_000),
    // Three quarters of them, half of them, and fewer.
    (7_004_608, 166_666),
    (7_007_680, 333_332),
    (7_007_681, 666_664),
];

/// At two places one ticket is to be claimed from one rest to the next: rests of 250 ns to 8 microseconds.
const OF_TWO: Naps = &[
    (1_000, 250),
    (1_000, 500),
    (1_000, 1_000),
    (1_000, 2_000),
    (1_000, 4_000),
    (1_000, 8_000),
    (1_000, 8_000),
    (1_001, 8_000),
    (1_004, 4_000),
    (1_010, 2_000),
    (1_110, 1_000),
    (1_110, 2_000),
];

/// At eight places six.
const OF_EIGHT: Naps = &[
    (1_000, 1_000),
    (1_000, 2_000),
    (1_000, 4_000),
    (1_000, 8_000),
    (1_000, 8_000),
    (1_006, 8_000),
    (1_016, 4_800),
    (1_116, 2_400),
    (1_116, 4_800),
    (1_120, 7_200),
];

/// At 64 places 48, and at 256 places 192: no rest takes longer than the first.
const OF_64: Naps = &[(64, 8_000), (64, 8_000), (160, 4_000), (196, 5_333)];

const OF_256: Naps = &[
    (256, 32_000),
    (256, 32_000),
    (448, 32_000),
    (832, 16_000),
    (4_096, 8_000),
    (4_096, 16_000),
];

/// At 439 places 328, and at 440 places 330: there the first rest takes 55 microseconds, and is a sleep.
const OF_439: Naps = &[(439, 54_875), (439, 54_875), (767, 54_875), (1_423, 27_437)];

const OF_440: Naps = &[
    (440, 55_000),
    (440, 110_000),
    (770, 110_000),
    (1_430, 55_000),
    (2_090, 27_500),
];

/// At 65,536 places 49,152.
const OF_MOST: Naps = &[
    (65_536, 1_000_000),
    (114_688, 1_000_000),
    (180_224, 750_000),
    (212_992, 1_125_000),
];

/// How many places a queue has, and the naps of a thread that posts there. From 440 places on the first is a sleep, and from 8,000 on
/// it takes a millisecond.
const ROWS: [(usize, Naps); 12] = [
    (2, OF_TWO),
    (8, OF_EIGHT),
    (64, OF_64),
    (256, OF_256),
    (439, OF_439),
    (440, OF_440),
    (512, &[(512, 64_000), (896, 64_000), (1_664, 32_000)]),
    (4_096, &[(4_096, 512_000)]),
    (7_999, &[(0, 999_875)]),
    (8_001, &[(0, 1_000_000)]),
    (8_192, OF_MANY),
    (65_536, OF_MOST),
];

#[test]
fn naps_follow_the_worker(rt: HostRuntime) {
    for (places, naps) in &ROWS {
        let mut pace = Pace::new(*places);
        for (ticket, nap) in *naps {
            rests_so_long(&rt, &mut pace, *ticket, *nap);
        }
    }
}

// A post that goes on finding no room sleeps at each look from the fifth on.
#[test]
fn a_post_sleeps_again_and_again(rt: HostRuntime) {
    let clock = Stopped::new();
    let mut pace = Pace::new(8_192);
    let mut room = RoomWait::new();
    for _ in 0..100 {
        room.wait(&clock, &mut pace, 8_192);
    }
    clock.was_asked(&rt, 96, 935_000_000);
}

// On a queue of few places a post that goes on finding no room yields at 32 looks, and then sleeps half a millisecond at each.
#[test]
fn a_post_of_few_places_yields_before_it_sleeps(rt: HostRuntime) {
    for places in [2, 8, 64, 439] {
        let clock = Stopped::new();
        let mut pace = Pace::new(places);
        let mut room = RoomWait::new();
        for _ in 0..36 {
            room.wait(&clock, &mut pace, 8);
        }
        clock.was_asked(&rt, 0, 0);
        for _ in 0..10 {
            room.wait(&clock, &mut pace, 8);
        }
        clock.was_asked(&rt, 10, 5_000_000);
    }
}

// On a queue of more places whose tickets are claimed fast, a post sleeps at its first rest, and then yields at each look.
#[test]
fn a_post_of_many_places_yields_on(rt: HostRuntime) {
    for (places, first) in [(440, 55_000), (512, 64_000)] {
        let clock = Stopped::new();
        let mut pace = Pace::new(places);
        let mut room = RoomWait::new();
        for look in 0..1_000 {
            room.wait(&clock, &mut pace, look * 4_096);
        }
        clock.was_asked(&rt, 1, first);
    }
}

/// A clock that shows 100 ns more at each look, counts the looks, and fails from the hundredth on.
#[derive(Drop)]
struct Walking {
    looks: AtomicU64,
}

impl Walking {
    fn new() -> Walking {
        Walking {
            looks: AtomicU64::new(0),
        }
    }

    fn looks(&self) -> u64 {
        self.looks.load(Ordering::SeqCst)
    }
}

impl Clock for Walking {
    fn monotonic(&self) -> io::Result<Duration> {
        let before = self.looks.fetch_add(1, Ordering::SeqCst);
        if before < 99 {
            Ok(Duration::from_nanos(before.saturating_mul(100)))
        } else {
            Err(io::Error::from(io::ErrorKind::Other))
        }
    }

    fn since_1970(&self) -> io::Result<Duration> {
        Ok(Duration::ZERO)
    }

    fn sleep(&self, _duration: Duration) {}
}

// A spin looks at its beginning, and then until its time has passed, the clock fails, or it has looked once for each four nanoseconds.
// How many nanoseconds it is to take, and how often the clock was looked at then, in all.
const SPINS: [(u64, u64); 8] = [
    (0, 1),
    (3, 2),
    (4, 4),
    (100, 6),
    (101, 9),
    (4_000, 50),
    (9_000, 100),
    (9_000, 101),
];

#[test]
fn a_spin_takes_its_time(rt: HostRuntime) {
    let clock = Walking::new();
    for (nanos, wanted) in SPINS {
        spin_for(&clock, nanos);
        let looks = clock.looks();
        assert!(rt; looks == wanted, "{nanos} ns: {looks} looks");
    }
    spin_for(&Stopped::new(), 24_000);
}

// How many places a queue has, and how often a post that another is faster than looks at the clock, the first time: once, and then for
// each 100 of 2,500 ns, or of the shortest rest.
const WAYS: [(usize, u64); 5] = [(65_536, 26), (160, 26), (100, 17), (8, 3), (2, 2)];

#[test]
fn a_beaten_post_gives_way_once(rt: HostRuntime) {
    for (places, wanted) in WAYS {
        let (clock, pace) = (Walking::new(), Pace::new(places));
        let mut room = RoomWait::new();
        for _ in 0..3 {
            room.give_way(&clock, &pace);
            let looks = clock.looks();
            assert!(rt; looks == wanted, "{places} places: {looks} looks");
        }
    }
}
