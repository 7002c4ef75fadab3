//! Loggers that threads share.
ghost use Rattle.std.specs.Prelude.{◌≡◌, ◌==◌, ◌↔◌, ◌<◌, ◌≤◌, ℕ, length, Some, IsTrue, IsSome, vec_len};
ghost use Rattle.std.specs.Option.{option_copied};
ghost use Rattle.alog_registry.specs.Listed.{name_at, spec_at};
ghost use Rattle.alog_registry.specs.Logging.{IsOn};

use crate::LOGGERS_MAX;
use crate::level_word::LevelWord;
use crate::logger::{Logger, Spec};
use crate::lookup::number_of;
use alog_msg::Level;
use std::fmt;
use std::marker::Model;

/// Loggers by number and by name. Their levels may be read and set by any thread; contracts see the loggers, and of the
/// levels nothing, since another thread may set one at any time. The test `levels_are_set` shows it.
#[derive(Drop)]
pub struct Loggers {
    loggers: Vec<Logger>,
    levels: Vec<LevelWord>,
}

impl Model for Loggers {
    ghost use Rattle.std.specs.Prelude.{List, vec_len};
    ghost use Rattle.alog_registry.specs.declared.logger.Logger.{Logger};
    ghost use Rattle.alog_registry.specs.Listed.{IsShared};

    ghost Value = { List Logger };

    ghost view = { λ l. l.loggers.items };

    ghost invariant = { λ l. IsShared l.loggers.items (vec_len l.levels) };
}

impl fmt::Debug for Loggers {
    fn fmt<W: fmt::Write>(&self, f: &mut fmt::Formatter<W>) -> fmt::Result {
        f.debug_struct("Loggers")
            .field("loggers", &self.loggers)
            .finish_non_exhaustive()
    }
}

impl Loggers {
    ghost use Rattle.alog_registry.specs.Listed.{IsShared};

    /// Loggers with these levels.
    pub(crate) fn of(loggers: Vec<Logger>, levels: Vec<LevelWord>) -> Loggers
        requires { IsShared loggers.items (vec_len levels) }
        ensures { result ≡ loggers.items }
    {
        Loggers { loggers, levels }
    }

    /// How many loggers there are.
    pub fn len(&self) -> usize
        ensures len { result ≡ length self.now }
        ensures few { result ≤ LOGGERS_MAX }
    {
        self.loggers.len()
    }

    /// Whether there is no logger.
    pub fn is_empty(&self) -> bool
        ensures { result ≡ (length self.now == 0) }
    {
        self.loggers.is_empty()
    }

    /// The number of the logger of this name, or `None` where there is no such logger. The test `levels_are_set` shows it.
    pub fn find(&self, name: &str) -> Option<u32>
        ensures { (n : ℕ) → (result ≡ Some n) ↔ (name_at self.now n ≡ Some name.now) }
    {
        number_of(&self.loggers, name)
    }

    /// How the logger of this number was set up, or `None` where there is no such logger. Its `level` stays the first one.
    pub fn spec(&self, number: u32) -> Option<&Spec>
        ensures value { option_copied result ≡ spec_at self.now number }
        ensures known { IsSome result ↔ (number < length self.now) }
    {
        self.loggers.get(number as usize).map(|logger| &logger.spec)
    }

    /// The level of the logger of this number as it is now, or `None` where there is no such logger.
    pub fn level(&self, number: u32) -> Option<Level>
        ensures { IsSome result ↔ (number < length self.now) }
    {
        match self.levels.get(number as usize) {
            Some(word) => Some(word.get()),
            None => None,
        }
    }

    /// Whether the logger of this number reads a message of this level: where it is not below the logger's level as it is now,
    /// or where the logger has a backtrace, which keeps it. `false` where there is no such logger. What is not read is filtered
    /// whatever its text is, so who asks first need not make that text. The test `levels_are_on` shows it.
    pub fn is_on(&self, number: u32, level: Level) -> bool
        ensures { IsOn self.now number level result }
    {
        match (self.spec(number), self.level(number)) {
            (Some(spec), Some(own)) => spec.backtrace > 0 || own.number() <= level.number(),
            _ => false,
        }
    }

    /// Sets the level of the logger of this number for all threads, and answers whether there is such a logger. The test
    /// `levels_are_set` shows it.
    pub fn set_level(&self, number: u32, level: Level) -> bool
        ensures { IsTrue result ↔ (number < length self.now) }
    {
        match self.levels.get(number as usize) {
            Some(word) => {
                word.set(level);
                true
            }
            None => false,
        }
    }
}
