//! How a worker waits for an item.
use alog_policy::spin_for;
use alog_ring::PopError;
use crossbeam_utils::Backoff;
use std::thread;
use std::time::{Clock, Duration};

/// A worker that finds an item on its way looks again at once, so many times: its producer has only to write it. A producer
/// that has not written it by then was most likely preempted, and a worker that went on could keep it from a processor: from
/// then on it yields before each look. A look took 7 ns on a machine of 2.5 GHz, so these take less than a microsecond.
const LOOKS: u32 = 100;

/// A worker that finds the queue idle rests so many times first: an item that comes meanwhile costs no call of the system.
const RESTS: u32 = 7;

/// Each of these rests takes at least so many nanoseconds, and no more where items are few: who waits for one has it soon.
const SHORTEST_REST: u64 = 1_500;

/// And at most so many.
const LONGEST_REST: u64 = 24_000;

/// But at most so many for each place, so that a queue of few places does not fill up meanwhile.
const REST_PER_PLACE: u64 = 6;

/// Fewer items than this since the last rest are few.
const FEW_ITEMS: u32 = 4;

/// And so many are enough: a rest need not be longer than the one in which they came.
const ENOUGH_ITEMS: u32 = 128;

/// Then it yields so many times, which lets a producer on its processor get on.
const YIELDS: u32 = 8;

/// Then it sleeps so many microseconds. A sleep takes some 55 longer than it is asked to.
const FIRST_NAP: u64 = 50;

/// Each sleep is twice as long as the one before, up to so many microseconds for each worker of the pool, so that a pool which
/// stays idle comes to wake at most two hundred and fifty times a second, whatever its number of workers is.
const ITEM_NAP_MAX: u64 = 4_000;

/// How long a thread rests and sleeps that takes items: its own, from item to item.
///
/// A worker that is quicker than the producers finds the queue idle again and again, and one that looked again at once would be right
/// behind each item: it and its producer would wait for the same lines of the cache, message by message. Behind a longer rest many
/// items lie there, and the producers are as far ahead. So a rest is twice as long as the last one, up to 24 microseconds, as long
/// as some items came since then, but not enough; and where few came it is short, 1.5 microseconds. They are microseconds of the clock,
/// since the pause of a processor takes 5 ns on some and 60 on others.
///
/// No contract says anything of this. The test `rests_follow_the_items` of `test_pool` shows it.
#[derive(Clone, Copy, Debug)]
pub struct RestPace {
    /// The nanoseconds of the last rest, and of the longest.
    nanos: u64,
    most: u64,
    /// Items taken since the last rest, as far as they are counted.
    taken: u32,
    /// The microseconds of the longest sleep.
    longest_nap: u64,
}

impl RestPace {
    /// For one of so many workers of a queue of so many places, which has not rested.
    pub fn new(workers: u32, places: usize) -> RestPace {
        let part = REST_PER_PLACE.saturating_mul(places as u64);
        RestPace {
            nanos: SHORTEST_REST,
            most: part.clamp(SHORTEST_REST, LONGEST_REST),
            taken: 0,
            longest_nap: ITEM_NAP_MAX.saturating_mul(workers as u64),
        }
    }

    /// Counts an item that was taken.
    pub fn count(&mut self) {
        self.taken = self.taken.saturating_add(1);
    }

    /// The nanoseconds of the next rest.
    pub fn next_rest(&mut self) -> u64 {
        if self.taken < FEW_ITEMS {
            self.nanos = SHORTEST_REST;
        } else if self.taken < ENOUGH_ITEMS {
            self.nanos = self.nanos.saturating_mul(2).min(self.most);
        }
        self.taken = 0;
        self.nanos
    }
}

/// How a thread that takes items waits: what a worker of a pool does after each pop that took nothing, from one item to the next.
///
/// Where the queue is idle it spins, at the pace of the thread's rests, then yields, and then sleeps, each time twice as long, from 50
/// microseconds up to four milliseconds for each worker. Where it is empty, so that an item is on its way, it looks again at once, a
/// hundred times, and then yields before each look. Where another pop was faster it spins. It sleeps in the first case alone.
///
/// No contract says anything of this. The tests `rests_where_the_queue_is_idle_alone` and `rests_longer_beside_others` of
/// `test_pool` show how often it sleeps, and how long.
#[derive(Drop)]
pub struct ItemWait {
    /// Looks since the queue was idle last, each of which found an item on its way, as far as they are counted.
    looks: u32,
    /// Rests and yields while the queue was idle.
    rests: u32,
    /// The microseconds of the next sleep.
    nap: u64,
    /// Spins after pops that another was faster at.
    beaten: Backoff,
}

impl ItemWait {
    /// For a thread that has just taken an item.
    pub fn new() -> ItemWait {
        ItemWait {
            looks: 0,
            rests: 0,
            nap: FIRST_NAP,
            beaten: Backoff::new(),
        }
    }

    /// Lets some time pass after a pop that took nothing, by why it did: more and more, up to a bound, where nothing is there or
    /// another pop was faster, and hardly any where an item is on its way.
    pub fn after(&mut self, clock: &impl Clock, pace: &mut RestPace, error: PopError) {
        match error {
            PopError::Idle { next: _ } => self.rest(clock, pace),
            PopError::Empty { next: _ } => self.look_again(),
            PopError::Busy { seen: _ } => self.beaten.spin(),
        }
    }

    /// An item is on its way.
    fn look_again(&mut self) {
        if self.looks < LOOKS {
            self.looks += 1;
        } else {
            thread::yield_now();
        }
    }

    /// Nothing is there.
    fn rest(&mut self, clock: &impl Clock, pace: &mut RestPace) {
        self.looks = 0;
        if self.rests < RESTS {
            spin_for(clock, pace.next_rest());
        } else if self.rests < RESTS + YIELDS {
            thread::yield_now();
        } else {
            thread::sleep(clock, Duration::from_micros(self.nap));
            self.nap = self.nap.saturating_mul(2).min(pace.longest_nap);
            return;
        }
        self.rests += 1;
    }
}
