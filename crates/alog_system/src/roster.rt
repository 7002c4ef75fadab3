//! Loggers with their levels, and what each keeps.
ghost use Rattle.std.specs.Prelude.{◌≡◌, ◌↔◌, ◌<◌, ◌≤◌, ◌+◌, ◌^◌, ℕ, IfOk, IsTrue, IsSome, length, map, slice_get, Some};
ghost use Rattle.std.specs.Option.{option_copied};
ghost use Rattle.std.specs.List.{All};
ghost use Rattle.alog_msg.specs.declared.limits.TheConstants.{TEXT_LIMIT_MAX};
ghost use Rattle.alog_registry.specs.Dumping.{posted_of};
ghost use Rattle.alog_registry.specs.Listed.{spec_at, name_at};
ghost use Rattle.alog_registry.specs.declared.TheConstants.{KEPT_MAX};
ghost use Rattle.alog_system.specs.Roster.{fresh_roster, keeping, emptied, with_level, kept_at, backtrace_of, level_at, policy_at, backtrace_at, turns_for};

use crate::dump::{Dump, Rest};
use alog_msg::{Item, Level, Message};
use alog_policy::Policy;
use alog_registry::{Backtrace, Loggers, SinkTurn, Spec};
use std::alloc::{AllocError, Global};
use std::marker::Model;

/// Loggers, the level of each as it is now, and the backtrace of each. Contracts see the `RosterView` of `specs/Roster.antt`.
#[derive(Drop)]
pub struct Roster {
    loggers: Loggers,
    levels: Vec<Level>,
    kept: Vec<Backtrace>,
}

impl Model for Roster {
    ghost use Rattle.alog_system.specs.Roster.{RosterView, IsRoster};

    ghost Value = { RosterView };

    ghost view = { λ r. record { loggers = r.loggers; levels = r.levels.items; kept = r.kept.items } };

    ghost invariant = { λ r. IsRoster r.loggers r.levels.items r.kept.items };
}

impl Roster {
    /// Each logger with the level of its spec, and nothing kept.
    pub fn new(alloc: Global, loggers: Loggers) -> Result<Roster, AllocError>
        requires { All (λ l. backtrace_of l ≤ KEPT_MAX) loggers }
        ensures made { IfOk result (λ r. r ≡ fresh_roster loggers) }
    {
        let mut levels = Vec::with_capacity(alloc, loggers.len())?;
        let mut kept = Vec::with_capacity(alloc, loggers.len())?;
        for number in 0..loggers.len() as u32 {
            let Some(spec) = loggers.spec(number) else {
                unreachable!()
            };
            levels.push_reserved(spec.level);
            let Ok(backtrace) = Backtrace::new(alloc, spec.backtrace) else {
                return Err(AllocError);
            };
            kept.push_reserved(backtrace);
        }
        Ok(Roster {
            loggers,
            levels,
            kept,
        })
    }

    /// The number of the logger of this name.
    pub fn find(&self, name: &str) -> Option<u32>
        ensures { (n : ℕ) → (result ≡ Some n) ↔ (name_at self.now.loggers n ≡ Some name.now) }
    {
        self.loggers.find(name)
    }

    /// How the logger of this number was set up.
    pub fn spec(&self, number: u32) -> Option<&Spec>
        ensures { option_copied result ≡ spec_at self.now.loggers number }
    {
        self.loggers.spec(number)
    }

    /// The level of the logger of this number.
    pub fn level(&self, number: u32) -> Option<Level>
        ensures level { result ≡ slice_get self.now.levels number }
        ensures known { IsSome result ↔ (number < length self.now.loggers) }
    {
        self.levels.get(number as usize).copied()
    }

    /// The level of a logger, its policy, and how many messages it keeps at most. Where there is no such logger, these are off,
    /// block and none.
    pub fn own_level(&self, number: u32) -> Level
        ensures { result ≡ level_at self.now number }
    {
        match self.level(number) {
            Some(level) => level,
            None => Level::Off,
        }
    }

    pub fn policy(&self, number: u32) -> Policy
        ensures { result ≡ policy_at self.now number }
    {
        match self.spec(number) {
            Some(spec) => spec.policy,
            None => Policy::Block,
        }
    }

    pub fn backtrace(&self, number: u32) -> usize
        ensures { result ≡ backtrace_at self.now number }
    {
        match self.spec(number) {
            Some(spec) => spec.backtrace,
            None => 0,
        }
    }

    /// The turn of this place in the work on an item that was taken under this ticket.
    pub fn turn(&self, ticket: u64, item: &Item, place: usize) -> Option<SinkTurn>
        ensures turn { result ≡ slice_get (turns_for self.now ticket item.now) place }
        ensures few { IsSome result → place + 1 < 2 ^ 64 }
    {
        let number = match item {
            Item::Text(message) => message.logger,
            Item::Flush(number) => *number,
            Item::Stop => 0,
        };
        match self.spec(number) {
            Some(spec) => {
                let _few = spec.sinks.as_slice().len();
                spec.turn_of_work(ticket, item, place)
            }
            None => None,
        }
    }

    /// Sets the level of the logger of this number, and answers whether there is such a logger.
    pub fn set_level(&mut self, number: u32, level: Level) -> bool
        ensures set { self.new ≡ with_level self.old number level }
        ensures known { IsTrue result ↔ (number < length self.old.loggers) }
    {
        match self.levels.get_mut(number as usize) {
            Some(place) => {
                *place = level;
                true
            }
            None => false,
        }
    }

    /// The backtrace of the message's logger keeps it.
    pub fn keep(&mut self, message: Message)
        requires { length message.text ≤ TEXT_LIMIT_MAX }
        ensures { self.new ≡ keeping self.old message }
    {
        let number = message.logger as usize;
        if number < self.kept.len() {
            self.kept[number].keep(message);
        }
    }

    /// How many messages the logger of this number keeps.
    pub fn kept(&self, number: u32) -> usize
        ensures { result ≡ length (kept_at self.now number).messages }
    {
        match self.kept.get(number as usize) {
            Some(backtrace) => backtrace.len(),
            None => 0,
        }
    }

    /// A dump takes what its logger kept.
    pub fn dump(&mut self, dump: Dump) -> Rest
        requires known { dump.logger < length self.old.loggers }
        requires room { dump.most ≡ backtrace_at self.old dump.logger }
        ensures posts { result ≡ posted_of dump.logger dump.time dump.thread (kept_at self.old dump.logger).messages }
        ensures emptied { self.new ≡ emptied self.old dump.logger }
    {
        let number = dump.logger() as usize;
        dump.take(&mut self.kept[number])
    }
}
