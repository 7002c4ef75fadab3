//! A registry: loggers and levels that one owner changes.
ghost use Rattle.std.specs.Prelude.{◌≡◌, ◌≢◌, ◌↔◌, ◌<◌, ◌≤◌, ◌∷◌, ◌++◌, [], ℕ, length, slice_get, slice_set};
ghost use Rattle.std.specs.Prelude.{Some, None, IsTrue, OnOk, OnErr, IfOk, IfErr, IsOk, vec_len, vec_capacity};
ghost use Rattle.alog_registry.specs.Listed.{no_loggers, name_at, IsTaken, AreApart, MayBeAdded, IsRefused, added, with_level};

use crate::error::{AddError, RefusedSpec};
use crate::level_word::LevelWord;
use crate::logger::{Logger, Spec};
use crate::loggers::Loggers;
use crate::lookup::{is_taken, number_of};
use crate::{KEPT_MAX, LOGGERS_MAX};
use alog_msg::{LOGGER_NAME_MAX, Level, Text};
use std::alloc::{AllocError, AllocFailed, Global};
use std::fmt;
use std::marker::Model;

/// Loggers by number and by name, and the level of each. A logger's number is its place, from 0, in the order in which they
/// were added. Contracts see the list of loggers and the list of their levels. The test `loggers_by_name` shows it.
#[derive(Drop)]
pub struct Registry {
    alloc: Global,
    loggers: Vec<Logger>,
    levels: Vec<Level>,
}

impl Model for Registry {
    ghost use Rattle.alog_registry.specs.Listed.{RegistryView, IsListing};

    ghost Value = { RegistryView };

    ghost view = { λ r. record { loggers = r.loggers.items; levels = r.levels.items } };

    ghost invariant = { λ r. IsListing r.loggers.items r.levels.items };
}

impl fmt::Debug for Registry {
    fn fmt<W: fmt::Write>(&self, f: &mut fmt::Formatter<W>) -> fmt::Result {
        f.debug_struct("Registry")
            .field("loggers", &self.loggers)
            .field("levels", &self.levels)
            .finish_non_exhaustive()
    }
}

impl Registry {
    /// A registry of no loggers. It takes no memory; what it takes later is taken here.
    pub fn new(alloc: Global) -> Registry
        ensures { result ≡ no_loggers }
    {
        Registry {
            alloc,
            loggers: Vec::new(alloc),
            levels: Vec::new(alloc),
        }
    }

    /// Adds a logger and answers its number. It begins with the level of its spec.
    ///
    /// A refusal changes nothing and hands the spec back; the reasons are looked at in the order of `AddError`. The tests
    /// `loggers_by_name` and `refusals_in_order` show it.
    pub fn add(&mut self, name: &str, spec: Spec) -> Result<u32, RefusedSpec>
        ensures added { OnOk result (self.new ≡ added self.old name.now spec) }
        ensures number { IfOk result (λ n. n ≡ length self.old.loggers) }
        ensures field_too_long { IsRefused result AddError.FieldTooLong ↔ (LOGGER_NAME_MAX < length name.now) }
        ensures name_taken { IsRefused result AddError.NameTaken
            ↔ ((length name.now ≤ LOGGER_NAME_MAX) × IsTaken self.old.loggers name.now) }
        ensures too_many { IsRefused result AddError.TooMany
            ↔ ((length name.now ≤ LOGGER_NAME_MAX) × (¬ IsTaken self.old.loggers name.now) × (LOGGERS_MAX ≤ length self.old.loggers)) }
        ensures bad_limit { IsRefused result AddError.BadLimit
            ↔ ((length name.now ≤ LOGGER_NAME_MAX) × (¬ IsTaken self.old.loggers name.now) × (length self.old.loggers < LOGGERS_MAX)
            × (KEPT_MAX < spec.backtrace)) }
        ensures out_of_memory { IsRefused result AddError.OutOfMemory → MayBeAdded self.old.loggers name.now spec.backtrace }
        ensures back { IfErr result (λ r. r.spec ≡ spec) }
        ensures err { OnErr result (self.new ≡ self.old) }
    {
        if let Some(fault) = fault_of(&self.loggers, name, spec.backtrace) {
            return Err(RefusedSpec { fault, spec });
        }
        match make_room(self.alloc, name, &mut self.loggers, &mut self.levels) {
            Ok(name) => {
                let number = self.loggers.len() as u32;
                self.levels.push_reserved(spec.level);
                self.loggers.push_reserved(Logger { name, spec });
                Ok(number)
            }
            Err(AllocError) => Err(RefusedSpec {
                fault: AddError::OutOfMemory,
                spec,
            }),
        }
    }

    /// The number of the logger of this name, or `None` where there is no such logger. The test `loggers_by_name` shows it.
    pub fn find(&self, name: &str) -> Option<u32>
        ensures { (n : ℕ) → (result ≡ Some n) ↔ (name_at self.now.loggers n ≡ Some name.now) }
    {
        number_of(&self.loggers, name)
    }

    /// The level of the logger of this number, or `None` where there is no such logger. The test `levels_are_set` shows it.
    pub fn level(&self, number: u32) -> Option<Level>
        ensures value { result ≡ slice_get self.now.levels number }
        ensures known { (result ≡ None) ↔ (length self.now.loggers ≤ number) }
    {
        self.levels.get(number as usize).copied()
    }

    /// Sets the level of the logger of this number, and answers whether there is such a logger. The test `levels_are_set`
    /// shows it.
    pub fn set_level(&mut self, number: u32, level: Level) -> bool
        ensures set { self.new ≡ with_level self.old number level }
        ensures known { IsTrue result ↔ (number < length self.old.loggers) }
    {
        if number as usize >= self.levels.len() {
            return false;
        }
        self.levels[number as usize] = level;
        true
    }

    /// Makes loggers of it that threads share: each begins with the level that it has here. Where there is no memory for the
    /// levels, the registry comes back. The test `levels_are_set` shows it.
    pub fn freeze(self, alloc: Global) -> Result<Loggers, AllocFailed<Registry>>
        ensures frozen { IfOk result (λ l. l ≡ self.loggers) }
        ensures back { IfErr result (λ e. e.value ≡ self) }
    {
        match level_words(alloc, &self.levels) {
            Ok(words) => Ok(Loggers::of(self.loggers, words)),
            Err(AllocError) => Err(AllocFailed { value: self }),
        }
    }
}

/// Why no logger of this name and backtrace is added, if that is so.
fn fault_of(loggers: &[Logger], name: &str, backtrace: usize) -> Option<AddError>
    requires few { length loggers.now ≤ LOGGERS_MAX }
    requires apart { AreApart loggers.now }
    ensures field_too_long { (result ≡ Some AddError.FieldTooLong) ↔ (LOGGER_NAME_MAX < length name.now) }
    ensures name_taken { (result ≡ Some AddError.NameTaken)
        ↔ ((length name.now ≤ LOGGER_NAME_MAX) × IsTaken loggers.now name.now) }
    ensures too_many { (result ≡ Some AddError.TooMany)
        ↔ ((length name.now ≤ LOGGER_NAME_MAX) × (¬ IsTaken loggers.now name.now) × (LOGGERS_MAX ≤ length loggers.now)) }
    ensures bad_limit { (result ≡ Some AddError.BadLimit)
        ↔ ((length name.now ≤ LOGGER_NAME_MAX) × (¬ IsTaken loggers.now name.now) × (length loggers.now < LOGGERS_MAX)
        × (KEPT_MAX < backtrace)) }
    ensures memory { result ≢ Some AddError.OutOfMemory }
    ensures none { result ≡ None → MayBeAdded loggers.now name.now backtrace }
{
    if name.len() > LOGGER_NAME_MAX {
        Some(AddError::FieldTooLong)
    } else if is_taken(loggers, name) {
        Some(AddError::NameTaken)
    } else if loggers.len() >= LOGGERS_MAX {
        Some(AddError::TooMany)
    } else if backtrace > KEPT_MAX {
        Some(AddError::BadLimit)
    } else {
        None
    }
}

/// Takes all the memory that one logger more needs, and copies its name.
fn make_room(
    alloc: Global,
    name: &str,
    loggers: &mut Vec<Logger>,
    levels: &mut Vec<Level>,
) -> Result<Text, AllocError>
    ensures same { (loggers.new.items ≡ loggers.old.items) × (levels.new.items ≡ levels.old.items) }
    ensures loggers { OnOk result (vec_len loggers.new < vec_capacity loggers.new) }
    ensures levels { OnOk result (vec_len levels.new < vec_capacity levels.new) }
    ensures name { IfOk result (λ t. t ≡ name.now) }
{
    loggers.reserve(1)?;
    levels.reserve(1)?;
    Text::copy_of(alloc, name)
}

/// Words that threads share, of these levels.
fn level_words(alloc: Global, levels: &[Level]) -> Result<Vec<LevelWord>, AllocError>
    ensures { IfOk result (λ v. vec_len v ≡ length levels.now) }
{
    let mut words = Vec::with_capacity(alloc, levels.len())?;
    for level in levels {
        words.push_reserved(LevelWord::new(*level));
    }
    Ok(words)
}
