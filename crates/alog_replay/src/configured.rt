//! The scene of a script with a configuration: a stepped system, the names of its sinks, and where its leaves are.
ghost use Rattle.std.specs.Prelude.{◌≡◌, ◌↔◌, ◌⊎◌, ◌++◌, ◌<◌, ◌&&◌, Some, true, false, IfOk, IfSome, OnOk, IsErrOf, length, map, string_bytes};
ghost use Rattle.alog_core.specs.World.{shown};
ghost use Rattle.std.specs.Option.{option_copied};
ghost use Rattle.alog_system.specs.Begin.{begun, filtered_by, filtering, logging, message_by, IsKnown, IsTooLong};
ghost use Rattle.alog_system.specs.Roster.{level_at};
ghost use Rattle.alog_system.specs.Step.{SystemSteps};
ghost use Rattle.alog_system.specs.System.{duty_of, is_free, item_of};
ghost use Rattle.alog_replay.specs.Configured.{Stage, with_system, number_in, is_fit, may_do, after_act, store_at, store_in, listed_text, stored_text, places_text, told_text};
ghost use Rattle.alog_replay.specs.Rows.{row_of};
ghost use Rattle.alog_replay.specs.Scene.{Prints};
ghost use Rattle.alog_replay.specs.Texts.{cells_line, counts_text};
ghost use Rattle.alog_replay.specs.declared.command.Act.TheVariants as act;

use crate::command::{Act, Actor, TextRef};
use crate::error::LineError;
use crate::places::Place;
use crate::print::{print_cells, print_counts, print_file};
use crate::scene::Playable;
use crate::told::{print_filtered, print_told};
use alog_msg::{Item, Level};
use alog_sink::{MemStore, Sink, Store};
use alog_system::{Deed, Stepped, System};
use std::alloc::{AllocError, Global};
use std::marker::Model;

/// What a script with a configuration is played on: a stepped system, the names of its sinks, and where its leaves are.
///
/// Contracts see it as the `Stage` of `specs/Configured.antt`.
#[derive(Drop)]
pub struct Configured<'c, S> {
    system: System<S>,
    names: Vec<TextRef<'c>>,
    places: Vec<Place<'c>>,
}

impl<'c, S> Model for Configured<'c, S> {
    ghost use Rattle.alog_replay.specs.Configured.{Stage};

    ghost Value = { Stage S };

    ghost view = { λ c. record { system = c.system; names = c.names.items; places = c.places.items } };
}

impl<'c> Configured<'c, MemStore> {
    /// This system, whose sinks have these names by their numbers, and the files of whose leaves at these places are printed at the end,
    /// in this order. A turn of a sink past the last name is printed with the empty name.
    pub fn of(
        system: System<MemStore>,
        names: Vec<TextRef<'c>>,
        places: Vec<Place<'c>>,
    ) -> Configured<'c, MemStore>
        ensures { result ≡ record { system = system; names = names.entry.items; places = places.entry.items } }
    {
        Configured {
            system,
            names,
            places,
        }
    }

    /// The number of the logger of this name.
    fn number(&self, name: &str) -> Option<u32>
        ensures number { result ≡ number_in self.now name.now }
        ensures known { IfSome result (λ n. n < length self.now.system.roster.loggers) }
    {
        self.system.find(name)
    }

    /// Begins a deed of an actor, whose logger is one of the system's: the level that filters it, if one does.
    fn begin(
        &mut self,
        alloc: Global,
        actor: Actor,
        deed: Deed<'_>,
    ) -> Result<Option<Level>, LineError>
        requires { IsKnown self.old.system.roster deed }
        ensures filtered { IfOk result (λ level. level ≡ filtered_by self.old.system.roster deed.entry) }
        ensures begun { OnOk result (self.new ≡ with_system self.old (begun self.old.system actor deed.entry)) }
        ensures refused { IsErrOf result LineError.Refused ↔ ((is_free self.old.system actor ≡ false)
            ⊎ IsTooLong self.old.system.roster self.old.system.outputs.text_limit deed.entry) }
    {
        Ok(self.system.begin(alloc, u32::from(actor.number()), deed)?)
    }

    /// Begins a log of an actor by the logger of this number: the level that filters it, if one does.
    fn begin_log(
        &mut self,
        alloc: Global,
        actor: Actor,
        time: i64,
        logger: u32,
        level: Level,
        text: &str,
    ) -> Result<Option<Level>, LineError>
        requires { logger < length self.old.system.roster.loggers }
        ensures filtered { IfOk result (λ own. own ≡ filtering level (level_at self.old.system.roster logger)) }
        ensures begun { OnOk result (self.new
            ≡ with_system self.old (logging self.old.system actor (message_by actor time logger level text.now))) }
        ensures refused { IsErrOf result LineError.Refused
            ↔ ((is_free self.old.system actor && is_fit self.old.system level text.now logger) ≡ false) }
    {
        let deed = Deed::Log {
            time,
            logger,
            level,
            text,
        };
        self.begin(alloc, actor, deed)
    }

    /// An actor begins a log, and the level that filters it is printed.
    fn log(
        &mut self,
        alloc: Global,
        actor: Actor,
        time: i64,
        logger: &str,
        level: Level,
        text: &str,
        out: &mut String,
    ) -> Result<(), LineError>
        ensures printed { OnOk result (string_bytes out.new
            ≡ string_bytes out.old ++ (after_act self.old (act.Log actor time logger.now level text.now)).0) }
        ensures begun { OnOk result (self.new ≡ (after_act self.old (act.Log actor time logger.now level text.now)).1) }
        ensures refused { IsErrOf result LineError.Refused ↔ (may_do self.old (act.Log actor time logger.now level text.now) ≡ false) }
        ensures same { IsErrOf result LineError.Refused → string_bytes out.new ≡ string_bytes out.old }
    {
        let Some(logger) = self.number(logger) else {
            return Err(LineError::Refused);
        };
        let filtered = self.begin_log(alloc, actor, time, logger, level, text)?;
        Ok(print_filtered(out, actor.number(), filtered)?)
    }

    /// An actor begins a worker's pop.
    fn work(&mut self, alloc: Global, actor: Actor) -> Result<(), LineError>
        ensures begun { OnOk result (self.new ≡ (after_act self.old (act.Work actor)).1) }
        ensures refused { IsErrOf result LineError.Refused ↔ (may_do self.old (act.Work actor) ≡ false) }
    {
        self.begin(alloc, actor, Deed::Work)?;
        Ok(())
    }

    /// An actor begins a post that flushes the sinks of the logger of this name.
    fn flush(&mut self, alloc: Global, actor: Actor, logger: &str) -> Result<(), LineError>
        ensures begun { OnOk result (self.new ≡ (after_act self.old (act.Flush actor logger.now)).1) }
        ensures refused { IsErrOf result LineError.Refused ↔ (may_do self.old (act.Flush actor logger.now) ≡ false) }
    {
        let Some(logger) = self.number(logger) else {
            return Err(LineError::Refused);
        };
        self.begin(alloc, actor, Deed::Flush { logger })?;
        Ok(())
    }

    /// An actor begins a dump of what the logger of this name kept.
    fn dump(
        &mut self,
        alloc: Global,
        actor: Actor,
        time: i64,
        logger: &str,
    ) -> Result<(), LineError>
        ensures begun { OnOk result (self.new ≡ (after_act self.old (act.Dump actor time logger.now)).1) }
        ensures refused { IsErrOf result LineError.Refused ↔ (may_do self.old (act.Dump actor time logger.now) ≡ false) }
    {
        let Some(logger) = self.number(logger) else {
            return Err(LineError::Refused);
        };
        self.begin(alloc, actor, Deed::Dump { time, logger })?;
        Ok(())
    }

    /// The logger of this name has this level from now on.
    fn set_level(&mut self, logger: &str, level: Level) -> Result<(), LineError>
        ensures set { OnOk result (self.new ≡ (after_act self.old (act.Level logger.now level)).1) }
        ensures refused { IsErrOf result LineError.Refused ↔ (may_do self.old (act.Level logger.now level) ≡ false) }
    {
        let Some(logger) = self.number(logger) else {
            return Err(LineError::Refused);
        };
        self.system.set_level(logger, level);
        Ok(())
    }

    /// Prints the cells.
    fn print_cells(&self, alloc: Global, out: &mut String) -> Result<(), AllocError>
        ensures { OnOk result (string_bytes out.new
            ≡ string_bytes out.old ++ cells_line (map shown self.now.system.desk.world.queue.cells)) }
    {
        let cells = self.system.cells(alloc)?;
        print_cells(out, &cells)
    }

    /// Prints the losses.
    fn print_counts(&self, out: &mut String) -> Result<(), AllocError>
        ensures { OnOk result (string_bytes out.new ≡ string_bytes out.old ++ counts_text self.now.system.desk.counts) }
    {
        print_counts(out, self.system.counts())
    }
}

/// An actor makes the next step of its call.
fn step_of(system: &mut System<MemStore>, actor: Actor) -> Result<Stepped, LineError>
    ensures steps { IfOk result (λ told. SystemSteps ⟦<MemStore as Store>⟧.tells ⟦<MemStore as Store>⟧.files
        ⟦<MemStore as Store>⟧.failures system.old actor told system.new) }
    ensures refused { IsErrOf result LineError.Refused ↔ (is_free system.old actor ≡ true) }
{
    Ok(system.step(u32::from(actor.number()))?)
}

/// The item that an actor took last.
fn held_by(system: &System<MemStore>, actor: Actor) -> Option<&Item>
    ensures { option_copied result ≡ item_of (duty_of system.now actor) }
{
    system.taken(u32::from(actor.number()))
}

/// Prints a step that this system has made.
fn print_step(
    out: &mut String,
    actor: Actor,
    names: &[TextRef<'_>],
    system: &System<MemStore>,
    told: Stepped,
) -> Result<(), AllocError>
    ensures { OnOk result (string_bytes out.new
        ≡ string_bytes out.old ++ told_text names.now actor (item_of (duty_of system.now actor)) told) }
{
    print_told(out, actor.number(), names, held_by(system, actor), &told)
}

/// The store of a leaf.
fn store_at<'s>(system: &'s System<MemStore>, place: &Place<'_>) -> Option<&'s MemStore>
    ensures { option_copied result ≡ store_at system.now place.now }
{
    let sink = system.sinks().get(place.sink)?;
    match place.member {
        Some(member) => store_of_member(sink, member),
        None => sink.store(),
    }
}

/// The store of a member of a fan.
fn store_of_member(sink: &Sink<MemStore>, member: usize) -> Option<&MemStore>
    ensures { option_copied result ≡ store_in (Some member) sink.now }
{
    let leaf = sink.members().get(member)?;
    Some(leaf.store())
}

/// Prints the files of a sink, in the order of their names.
fn print_listed(
    alloc: Global,
    out: &mut Vec<u8>,
    sink: &str,
    store: &MemStore,
) -> Result<(), AllocError>
    ensures { OnOk result (out.new.items ≡ out.old.items ++ listed_text sink.now (row_of store.now)) }
{
    for (file, bytes) in store.files().iter() {
        print_file(alloc, out, sink, file.as_str(), bytes.as_slice())?;
    }
    Ok(())
}

/// Prints the files of a sink, if there is one.
fn print_stored(
    alloc: Global,
    out: &mut Vec<u8>,
    sink: &str,
    store: Option<&MemStore>,
) -> Result<(), AllocError>
    ensures { OnOk result (out.new.items ≡ out.old.items ++ stored_text row_of sink.now (option_copied store.entry)) }
{
    match store {
        Some(store) => print_listed(alloc, out, sink, store),
        None => Ok(()),
    }
}

/// Prints the files of these leaves, one leaf after another.
fn print_places(
    alloc: Global,
    out: &mut Vec<u8>,
    system: &System<MemStore>,
    places: &[Place<'_>],
) -> Result<(), AllocError>
    ensures { OnOk result (out.new.items ≡ out.old.items ++ places_text row_of system.now places.now) }
{
    for place in places {
        print_stored(alloc, out, place.name.as_str(), store_at(system, place))?;
    }
    Ok(())
}

impl Playable for Configured<'_, MemStore> {
    ghost use Rattle.alog_replay.specs.Configured.{configured};
    ghost use Rattle.alog_replay.specs.Goes.{configured_goes_on};
    ghost use Rattle.alog_replay.specs.Rows.{row_of};

    ghost scene = { configured ⟦<MemStore as Store>⟧.tells ⟦<MemStore as Store>⟧.files ⟦<MemStore as Store>⟧.failures row_of };

    fn is_free(&self, actor: Actor) -> bool {
        self.system.is_free(u32::from(actor.number()))
    }

    fn act(&mut self, alloc: Global, act: Act<'_>, out: &mut String) -> Result<(), LineError> {
        match act {
            Act::Ring { .. } | Act::Push { .. } | Act::Pop { .. } | Act::Post { .. } => {
                Err(LineError::Refused)
            }
            Act::Work { actor } => self.work(alloc, actor),
            Act::Log {
                actor,
                time,
                logger,
                level,
                text,
            } => {
                let logger = logger.as_str();
                let text = text.as_str();
                self.log(alloc, actor, time, logger, level, text, out)
            }
            Act::Flush { actor, logger } => self.flush(alloc, actor, logger.as_str()),
            Act::Dump {
                actor,
                time,
                logger,
            } => self.dump(alloc, actor, time, logger.as_str()),
            Act::Level { logger, level } => self.set_level(logger.as_str(), level),
            Act::Cells => Ok(self.print_cells(alloc, out)?),
            Act::Counts => Ok(self.print_counts(out)?),
        }
    }

    fn step(&mut self, actor: Actor, out: &mut String) -> Result<(), LineError> {
        let told = step_of(&mut self.system, actor)?;
        Ok(print_step(out, actor, &self.names, &self.system, told)?)
    }

    fn print_files(&self, alloc: Global, out: &mut Vec<u8>) -> Result<(), AllocError> {
        print_places(alloc, out, &self.system, &self.places)
    }

    ghost goes_on = { configured_goes_on ⟦<MemStore as Store>⟧.tells ⟦<MemStore as Store>⟧.files ⟦<MemStore as Store>⟧.failures row_of };
}
