//! 1,000 schedules on which words and places answer as the plain list does, and show the same.
use crate::plain::Plain;
use crate::queue_tests::{LAST, world};
use alog_core::{Answer, Call, World};
use std::alloc::{AllocError, Global};
use std::process::Abort;

/// Numbers in a fixed order (Steele, Lea and Flood's SplitMix64).
#[derive(Drop)]
struct Numbers(u64);

impl Numbers {
    fn next(&mut self) -> u64 {
        self.0 = self.0.wrapping_add(0x9e37_79b9_7f4a_7c15);
        let mut z = self.0;
        z = (z ^ (z >> 30)).wrapping_mul(0xbf58_476d_1ce4_e5b9);
        z = (z ^ (z >> 27)).wrapping_mul(0x94d0_49bb_1331_11eb);
        z ^ (z >> 31)
    }

    /// One of the numbers below this power of two.
    fn below(&mut self, power: u64) -> u64 {
        self.next() & power.wrapping_sub(1)
    }

    /// One of these.
    fn one_of(&mut self, choices: &[u64]) -> u64 {
        let index = self.below(choices.len() as u64);
        choices.get(index as usize).copied().unwrap_or(0)
    }

    /// A call of one of the first `actors`, a power of two, and now and then of one that there is not.
    fn call(&mut self, actors: u64) -> Call<u64> {
        let actor = if self.below(64) == 0 {
            64
        } else {
            u32::try_from(self.below(actors)).unwrap_or(0)
        };
        match self.below(8) {
            0 => Call::Push(actor, self.below(1 << 20)),
            1 => Call::Pop(actor),
            _ => Call::Step(actor),
        }
    }
}

/// How many calls a run has.
const CALLS: usize = 60;

/// The calls of a run, of so many actors.
fn calls_of(alloc: Global, seed: u64, actors: u64) -> Result<Vec<Call<u64>>, AllocError> {
    let mut numbers = Numbers(seed);
    let mut calls = Vec::new(alloc);
    for _ in 0..CALLS {
        calls.push(numbers.call(actors))?;
    }
    Ok(calls)
}

/// What the queue answers to these calls.
fn answers_of(
    rt: &impl Abort,
    alloc: Global,
    world: &mut World<u64>,
    calls: Result<Vec<Call<u64>>, AllocError>,
) -> Vec<Answer<u64>> {
    let Ok(calls) = calls else {
        panic!(rt; "out of memory")
    };
    match world.run(alloc, calls) {
        Ok(answers) => answers,
        Err(_) => panic!(rt; "out of memory"),
    }
}

/// Whether the plain list answers the calls of a run so.
fn answers_alike(plain: &mut Plain, seed: u64, actors: u64, answers: &[Answer<u64>]) -> bool {
    let mut numbers = Numbers(seed);
    for answer in answers {
        if plain.answer(&numbers.call(actors)) != *answer {
            return false;
        }
    }
    answers.len() == CALLS
}

/// Whether the plain list shows the cells and words of the queue.
fn shows_alike(rt: &impl Abort, alloc: Global, world: &World<u64>, plain: &Plain) -> bool {
    let (Ok(cells), Ok(words)) = (world.cells(alloc), world.words(alloc)) else {
        panic!(rt; "out of memory")
    };
    plain.has_cells(&cells) && plain.has_words(&words)
}

/// Plays eight runs on both, and tells whether both were alike after each.
fn are_alike(
    rt: &impl Abort,
    alloc: Global,
    world: &mut World<u64>,
    plain: &mut Plain,
    numbers: &mut Numbers,
    actors: u64,
) -> bool {
    for _ in 0..8 {
        let seed = numbers.next();
        let answers = answers_of(rt, alloc, world, calls_of(alloc, seed, actors));
        let alike = answers_alike(plain, seed, actors, &answers);
        if !alike || !shows_alike(rt, alloc, world, plain) {
            return false;
        }
    }
    true
}

const PLACES: [u64; 4] = [2, 4, 8, 16];

const FIRSTS: [u64; 8] = [0, 1, 5, 14, LAST - 40, LAST - 9, LAST - 2, LAST];

const ACTORS: [u64; 8] = [1, 2, 4, 8, 16, 32, 64, 64];

/// A queue of one of a few sizes and first tickets, and the same as a plain list, are alike.
fn schedule_is_alike(rt: &impl Abort, alloc: Global, numbers: &mut Numbers) -> bool {
    let places = numbers.one_of(&PLACES) as usize;
    let first = numbers.one_of(&FIRSTS);
    let actors = numbers.one_of(&ACTORS);
    let Ok(mut plain) = Plain::new(alloc, places, first) else {
        panic!(rt; "out of memory")
    };
    let mut world = world(rt, alloc, places, first);
    are_alike(rt, alloc, &mut world, &mut plain, numbers, actors)
}

#[test]
fn a_plain_list_answers_alike(rt: HostRuntime) {
    let mut numbers = Numbers(1);
    for schedule in 0..1000 {
        let alike = schedule_is_alike(&rt, rt.alloc(), &mut numbers);
        assert!(rt; alike, "schedule {schedule}");
    }
}
