//! The system: what its calls answer.
ghost use Rattle.std.specs.Prelude.{◌≡◌, ◌↔◌, ◌<◌, ℕ, IfOk, IsErrOf, IsSome, IsTrue, false, Some, length, map, replicate, slice_get};
ghost use Rattle.std.specs.List.{All};
ghost use Rattle.std.specs.Option.{option_copied};
ghost use Rattle.alog_core.specs.World.{is_size, shown};
ghost use Rattle.alog_core.specs.declared.TheConstants.{ACTORS};
ghost use Rattle.alog_policy.specs.Desk.{fresh_desk};
ghost use Rattle.alog_registry.specs.Listed.{name_at};
ghost use Rattle.alog_system.specs.Outputs.{AreSuited};
ghost use Rattle.alog_system.specs.Roster.{with_level};
ghost use Rattle.alog_system.specs.System.{fresh_system, is_free, item_of, duty_of, owes, with_duty, with_roster};
ghost use Rattle.alog_system.specs.Within.{DutyFits, LoggerFits};
ghost use Rattle.alog_system.specs.declared.duty.Duty.TheVariants as duty;

mod begin;
mod new;
mod step;

use crate::duty::Duty;
use crate::error::SystemError;
use crate::outputs::Outputs;
use crate::roster::Roster;
use alog_core::{ACTORS, CellView};
use alog_msg::{Item, Level};
use alog_policy::{Counts, Desk};
use alog_registry::Loggers;
use alog_sink::{Sink, Store};
use std::alloc::{AllocError, Global};
use std::marker::Model;
use std::mem;

/// The stepped queue of items with its losses, the loggers with their levels and backtraces, and the sinks.
///
/// Contracts see it as the `SystemView` of `specs/System.antt`. It stores no history. `a_log_and_a_work` of `test_laws` shows calls.
#[derive(Drop)]
pub struct System<S> {
    desk: Desk<Item>,
    duties: Vec<Duty>,
    roster: Roster,
    outputs: Outputs<S>,
}

impl<S> Model for System<S> {
    ghost use Rattle.alog_system.specs.System.{SystemView};
    ghost use Rattle.alog_system.specs.Inside.{system_in, IsWithinInside};

    ghost Value = { SystemView S };

    ghost view = { system_in };

    ghost invariant = { IsWithinInside };
}

impl<S: Store + Drop> System<S> {
    /// A system with a queue of this many places, a power of two from 2 to 65,536, whose texts have at most `text_limit` bytes.
    ///
    /// By condition each logger's sinks are among these, its backtrace keeps at most 4,096 messages, and each pattern of a sink
    /// takes texts of the limit. All memory that its calls take, but for those of `begin` and `cells`, is taken here.
    pub fn of(
        alloc: Global,
        places: usize,
        text_limit: usize,
        loggers: Loggers,
        sinks: Vec<Sink<S>>,
    ) -> Result<System<S>, SystemError>
        requires loggers { All (LoggerFits (length sinks.items)) loggers }
        requires sinks { AreSuited text_limit sinks.items }
        ensures made { IfOk result (λ s. s ≡ fresh_system places text_limit loggers sinks.items) }
        ensures bad_size { IsErrOf result SystemError.BadSize ↔ (is_size places ≡ false) }
    {
        let (desk, duties) = desk_of(alloc, places)?;
        let roster = Roster::new(alloc, loggers)?;
        Ok(System {
            desk,
            duties,
            roster,
            outputs: Outputs::new(alloc, text_limit, sinks)?,
        })
    }

    /// Whether this actor, 0 to 63, is in no call.
    pub fn is_free(&self, actor: u32) -> bool
        requires { actor < ACTORS }
        ensures { result ≡ is_free self.now actor }
    {
        self.desk.is_idle(actor) && !self.owes(&self.duties[actor as usize])
    }

    /// The item that a worker took last, until its actor begins another call.
    pub fn taken(&self, actor: u32) -> Option<&Item>
        ensures { option_copied result ≡ item_of (duty_of self.now actor) }
    {
        match self.duties.get(actor as usize) {
            Some(Duty::Serves { item, .. }) => Some(item),
            _ => None,
        }
    }

    /// Tells the losses: the items that posts overran, and the posts that ended discarded.
    pub fn counts(&self) -> Counts
        ensures { result ≡ self.now.desk.counts }
    {
        self.desk.counts()
    }

    /// Shows the cells, in ticket order.
    pub fn cells(&self, alloc: Global) -> Result<Vec<CellView>, AllocError>
        ensures { IfOk result (λ v. v.items ≡ map shown self.now.desk.world.queue.cells) }
    {
        self.desk.cells(alloc)
    }

    /// The sinks, by number.
    pub fn sinks(&self) -> &[Sink<S>]
        ensures { result.now ≡ self.now.outputs.sinks }
    {
        self.outputs.sinks()
    }

    /// The number of the logger of this name, or `None` where there is no such logger.
    pub fn find(&self, name: &str) -> Option<u32>
        ensures { (n : ℕ) → (result ≡ Some n) ↔ (name_at self.now.roster.loggers n ≡ Some name.now) }
    {
        self.roster.find(name)
    }

    /// The level of the logger of this number as it is now, or `None` where there is no such logger.
    pub fn level(&self, number: u32) -> Option<Level>
        ensures level { result ≡ slice_get self.now.roster.levels number }
        ensures known { IsSome result ↔ (number < length self.now.roster.loggers) }
    {
        self.roster.level(number)
    }

    /// Sets the level of the logger of this number at once, and answers whether there is such a logger. A log that has begun goes on
    /// by the level that it read.
    pub fn set_level(&mut self, number: u32, level: Level) -> bool
        ensures set { self.new ≡ with_roster self.old (with_level self.old.roster number level) }
        ensures known { IsTrue result ↔ (number < length self.old.roster.loggers) }
    {
        self.roster.set_level(number, level)
    }

    /// Whether something is left of a duty when its actor is in no round.
    fn owes(&self, duty: &Duty) -> bool
        ensures { result ≡ owes self.now.roster duty.now }
    {
        match duty {
            Duty::Free | Duty::Posts { .. } | Duty::Works => false,
            Duty::Keeps(_) | Duty::Dumps(_) => true,
            Duty::Serves { ticket, item, done } => self.roster.turn(*ticket, item, *done).is_some(),
        }
    }

    /// What the actor does beside its round, which it then does no more.
    fn take_duty(&mut self, actor: u32) -> Duty
        requires { actor < ACTORS }
        ensures duty { result ≡ duty_of self.old actor }
        ensures fits { DutyFits self.old.roster self.old.outputs.text_limit result }
        ensures after { self.new ≡ with_duty self.old actor duty.Free }
    {
        mem::replace(&mut self.duties[actor as usize], Duty::Free)
    }
}

/// A new desk of this many places, and no actor does anything.
fn desk_of(alloc: Global, places: usize) -> Result<(Desk<Item>, Vec<Duty>), SystemError>
    ensures desk { IfOk result (λ r. r.0 ≡ fresh_desk places 0) }
    ensures duties { IfOk result (λ r. r.1.items ≡ replicate ACTORS duty.Free) }
    ensures bad_size { IsErrOf result SystemError.BadSize ↔ (is_size places ≡ false) }
{
    let desk = Desk::new(alloc, places, 0)?;
    Ok((desk, free_duties(alloc)?))
}

/// No actor does anything.
fn free_duties(alloc: Global) -> Result<Vec<Duty>, AllocError>
    ensures { IfOk result (λ v. v.items ≡ replicate ACTORS duty.Free) }
{
    let mut duties = Vec::with_capacity(alloc, ACTORS as usize)?;
    for _ in 0..ACTORS {
        duties.push_reserved(Duty::Free);
    }
    Ok(duties)
}
