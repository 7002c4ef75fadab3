//! A level that threads share, in one word.
ghost use Rattle.std.specs.Prelude.{◌≡◌, ◌<◌};
ghost use Rattle.alog_msg.specs.Level.{row_of};

use alog_msg::Level;
use crossbeam_utils::CachePadded;
use std::sync::atomic::Ordering::SeqCst;
use std::sync::atomic::{AtomicIn, Rule};

/// The number of a level.
struct IsLevel;

impl Rule for IsLevel {
    ghost invariant = { λ n. n < 7 };
}

/// One word that always is a level. Whoever reads it knows no more of it. Each log reads it, so nothing that a thread writes lies
/// on its line of the cache: beside a worker's counts it took a log from one processor to the other and back.
#[derive(Drop)]
pub(crate) struct LevelWord {
    word: CachePadded<AtomicIn<IsLevel>>,
}

impl LevelWord {
    pub(crate) fn new(level: Level) -> LevelWord {
        LevelWord {
            word: CachePadded::new(AtomicIn::new(u64::from(level.number()))),
        }
    }

    pub(crate) fn get(&self) -> Level {
        level_of(self.word.load(SeqCst))
    }

    pub(crate) fn set(&self, level: Level) {
        self.word.store(u64::from(level.number()), SeqCst);
    }
}

/// The level of this number.
fn level_of(number: u64) -> Level
    requires { number < 7 }
    ensures { (row_of result).number ≡ number }
{
    match number {
        0 => Level::Trace,
        1 => Level::Debug,
        2 => Level::Info,
        3 => Level::Warning,
        4 => Level::Error,
        5 => Level::Critical,
        6 => Level::Off,
        _ => unreachable!(),
    }
}
