//! How a post waits for room.
use crate::spin::spin_for;
use crossbeam_utils::Backoff;
use std::thread;
use std::time::{Clock, Duration};

/// A post that finds no room spins so many steps of the backoff first: a place that gets free at once costs no call of the
/// system.
const ROOM_SPINS: u32 = 4;

/// A post that another was faster than lets it get on for so many nanoseconds at first. Who is beaten looks at the words of the ring
/// at the same time as another, and both take them from each other at each look; meanwhile ten to thirty posts of the other are
/// through. On a queue of fewer than 160 places it takes as long as the shortest rest.
const FIRST_WAY: u64 = 2_500;

/// Then it rests. The first rest takes so many nanoseconds for each place of the queue, in which a worker makes some half of
/// them free.
const NAP_PER_PLACE: u64 = 125;

/// But at most so many nanoseconds.
const FIRST_NAP_MAX: u64 = 1_000_000;

/// A later one takes at least this part of the first.
const SHORTEST_PART: u64 = 8;

/// And at most so many times as long as the first: a worker that has no room by then is slow, and a post that looks so often
/// costs it nothing.
const LONGEST_TIMES: u64 = 10;

/// A sleep takes so many nanoseconds longer than it is asked to, in which a worker empties a queue of some hundred places and
/// then has nothing to do. So a rest that is to be shorter than this is no sleep.
const SLEEP_LEAST: u64 = 55_000;

/// It is yields, one for so many nanoseconds: some half a microsecond where no other thread wants the processor.
const NANOS_PER_YIELD: u64 = 500;

/// Where the first rest is no sleep, the queue has few places, and no rest takes more nanoseconds than the first or than this: a
/// worker that has emptied such a queue looks for some 25 microseconds before it sleeps, and a post that rested longer would come too
/// late each time.
const FEW_PLACES_MOST: u64 = 8_000;

/// There a post yields through so many rests, which together take longer than the first sleep of a worker that had nothing to do.
const FEW_PLACES_RESTS: u32 = 32;

/// Then the worker is slow, and the post sleeps so many nanoseconds in place of each further rest.
const FEW_PLACES_SLEEP: u64 = 500_000;

/// How long the posts of a thread rest where the queue is full: its own, from post to post.
///
/// From one rest to the next some three quarters of the queue's places are to be claimed, by all threads, so that few posts
/// rest, and the worker still finds items meanwhile. So a rest is longer than the last one where fewer were claimed, and
/// shorter where more were: at most twice as long, and at least half. A post that looked again and again instead would take the
/// words of the queue from the worker that is to make room, and cost it half of its time.
///
/// On a queue of few places each rest is short, and is yields: `FEW_PLACES_MOST` says why. A post that rested there again and again
/// sleeps.
///
/// Of how long a post rests no contract says anything. The tests `naps_follow_the_worker`,
/// `a_post_of_few_places_yields_before_it_sleeps` and `a_post_of_many_places_yields_on` show it.
#[derive(Clone, Copy, Debug)]
pub struct Pace {
    /// How many tickets are to be claimed from one rest to the next.
    aim: u64,
    /// The nanoseconds of the shortest rest, and of the longest.
    least: u64,
    most: u64,
    /// Those of the last rest, and before it of the first one.
    nap: u64,
    /// The ticket that found no room before the last rest.
    seen: Option<u64>,
}

impl Pace {
    /// For a queue of so many places, which no post found full.
    pub fn new(places: usize) -> Pace {
        let places = places as u64;
        let nap = NAP_PER_PLACE.saturating_mul(places).min(FIRST_NAP_MAX);
        let most = if nap < SLEEP_LEAST {
            nap.max(FEW_PLACES_MOST)
        } else {
            nap * LONGEST_TIMES
        };
        Pace {
            aim: places / 2 + places / 4,
            least: nap / SHORTEST_PART,
            most,
            nap,
            seen: None,
        }
    }

    /// Whether the queue has so few places, fewer than 440, that the longest rest is no sleep.
    fn is_of_few_places(&self) -> bool {
        self.most < SLEEP_LEAST
    }

    /// The nanoseconds of the next rest, where this ticket found no room. The test `naps_follow_the_worker` shows them.
    pub fn next_nap(&mut self, ticket: u64) -> u64 {
        if let Some(seen) = self.seen {
            let claimed = ticket.saturating_sub(seen);
            let twice = self.nap.saturating_mul(2);
            let fit = if claimed == 0 {
                twice
            } else {
                self.nap.saturating_mul(self.aim) / claimed
            };
            let least = self.least.max(self.nap / 2);
            let most = self.most.min(twice);
            self.nap = fit.max(least).min(most);
        }
        self.seen = Some(ticket);
        self.nap
    }
}

/// What a post waits with until there is room: its own, from its first look on. The test `a_port_waits_for_room` waits with it.
#[derive(Drop)]
pub struct RoomWait {
    backoff: Backoff,
    looks: u32,
    /// Whether another was faster already.
    was_beaten: bool,
}

impl RoomWait {
    /// For a post that has not looked.
    pub fn new() -> RoomWait {
        RoomWait {
            backoff: Backoff::new(),
            looks: 0,
            was_beaten: false,
        }
    }

    /// Waits a little where this ticket found no room: where it rests, at the pace of the post's thread.
    pub fn wait(&mut self, clock: &impl Clock, pace: &mut Pace, ticket: u64) {
        if self.looks < ROOM_SPINS {
            self.looks += 1;
            self.backoff.spin();
            return;
        }
        let nap = pace.next_nap(ticket);
        if nap >= SLEEP_LEAST {
            sleep(clock, nap);
        } else if pace.is_of_few_places() && self.looks >= ROOM_SPINS + FEW_PLACES_RESTS {
            sleep(clock, FEW_PLACES_SLEEP);
        } else {
            self.looks = self.looks.saturating_add(1);
            give_way_for(nap);
        }
    }

    /// Lets another push get on that was faster: at first for a while that lets it make many, and then a little. The test
    /// `a_beaten_post_gives_way_once` shows it.
    pub fn give_way(&mut self, clock: &impl Clock, pace: &Pace) {
        if self.was_beaten {
            self.backoff.spin();
        } else {
            self.was_beaten = true;
            spin_for(clock, FIRST_WAY.min(pace.least));
        }
    }
}

/// Sleeps so many nanoseconds, and as long as a sleep takes besides.
fn sleep(clock: &impl Clock, nanos: u64) {
    thread::sleep(clock, Duration::from_nanos(nanos));
}

/// Yields for some so many nanoseconds.
fn give_way_for(nanos: u64) {
    for _ in 0..=nanos / NANOS_PER_YIELD {
        thread::yield_now();
    }
}
