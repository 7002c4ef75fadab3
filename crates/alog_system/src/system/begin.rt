//! How a deed begins.
ghost use Rattle.std.specs.Prelude.{◌≡◌, ◌↔◌, ◌≤◌, ◌<◌, ◌==◌, IfOk, OnOk, OnErr, IfErr, IsErrOf, None, [], true, false, length};
ghost use Rattle.alog_core.specs.Run.{GoesOn};
ghost use Rattle.alog_core.specs.World.{is_idle, round_of};
ghost use Rattle.alog_core.specs.declared.TheConstants.{ACTORS};
ghost use Rattle.alog_core.specs.declared.round.Round.TheVariants as round;
ghost use Rattle.alog_policy.specs.Desk.{call_began, post_began};
ghost use Rattle.alog_msg.specs.declared.item.Item.TheVariants.{Text};
ghost use Rattle.alog_registry.specs.Given.{message_of};
ghost use Rattle.alog_system.specs.Begin.{IsKnown, IsTooLong, IsOfMaking, MayBegin, begun, filtered_by, filtering, logging, kept_after, is_unread};
ghost use Rattle.alog_system.specs.Outputs.{IsShort};
ghost use Rattle.alog_system.specs.Roster.{backtrace_at, level_at, policy_at};
ghost use Rattle.alog_system.specs.System.{is_free, with_desk, with_duty};
ghost use Rattle.alog_system.specs.Within.{DutyFits};
ghost use Rattle.alog_system.specs.declared.deed.Deed.TheVariants as deed;
ghost use Rattle.alog_system.specs.declared.duty.Duty.TheVariants as duty;

use super::System;
use crate::deed::Deed;
use crate::dump::Dump;
use crate::duty::Duty;
use crate::error::BeginError;
use alog_core::ACTORS;
use alog_msg::{Item, Level, Message};
use alog_policy::Policy;
use alog_registry::MessageRef;
use alog_sink::Store;
use std::alloc::Global;

impl<S: Store + Drop> System<S> {
    /// Begins a deed of an actor, 0 to 63, whose logger is one of the system's: its steps follow by `step`.
    ///
    /// All growths of the deed are made here. The logger's level is read here too: where it filters a log it is answered, and the
    /// log is over, but for the turn that keeps its message where the logger has a backtrace. A text that nobody looks at, since its
    /// log is filtered and not kept, may have any length. A refusal changes nothing; the reasons are looked at in the order of
    /// `BeginError`. `configured_scripts.session` and `refused_configured_scripts.session` of `sessions/` show it.
    pub fn begin(
        &mut self,
        alloc: Global,
        actor: u32,
        deed: Deed<'_>,
    ) -> Result<Option<Level>, BeginError>
        requires { IsKnown self.old.roster deed }
        ensures filtered { IfOk result (λ level. level ≡ filtered_by self.old.roster deed.entry) }
        ensures begun { OnOk result (self.new ≡ begun self.old actor deed.entry) }
        // Each history that leads to the queue and its rounds leads to those in which the deed has begun.
        ensures history { OnOk result (GoesOn {N = Unit {0}} self.old.desk.world [] self.new.desk.world) }
        ensures no_actor { IsErrOf result BeginError.NoActor ↔ (ACTORS ≤ actor) }
        ensures in_call { IsErrOf result BeginError.InCall ↔ ((actor < ACTORS) × (is_free self.old actor ≡ false)) }
        ensures text_too_long { IsErrOf result BeginError.TextTooLong
            ↔ ((actor < ACTORS) × (is_free self.old actor ≡ true) × IsTooLong self.old.roster self.old.outputs.text_limit deed.entry) }
        ensures out_of_memory { IsErrOf result BeginError.OutOfMemory → MayBegin self.old actor deed.entry }
        ensures err { OnErr result (self.new ≡ self.old) }
    {
        if actor >= ACTORS {
            return Err(BeginError::NoActor);
        }
        if !self.is_free(actor) {
            return Err(BeginError::InCall);
        }
        self.desk.is_reached();
        match deed {
            Deed::Log {
                time,
                logger,
                level,
                text,
            } => {
                let given = MessageRef {
                    logger,
                    level,
                    time,
                    thread: u64::from(actor),
                    text,
                    source: None,
                };
                self.begin_log(alloc, actor, given)
            }
            Deed::Flush { logger } => {
                let policy = self.roster.policy(logger);
                self.post(actor, policy, Item::Flush(logger), Duty::Free);
                Ok(None)
            }
            Deed::Dump { time, logger } => self.begin_dump(alloc, actor, time, logger),
            Deed::Work => {
                self.pop(actor);
                Ok(None)
            }
        }
    }

    /// Begins a dump, whose markers and room are made here.
    fn begin_dump(
        &mut self,
        alloc: Global,
        actor: u32,
        time: i64,
        logger: u32,
    ) -> Result<Option<Level>, BeginError>
        requires actor { actor < ACTORS }
        requires known { logger < length self.old.roster.loggers }
        ensures filtered { IfOk result (λ level. level ≡ None) }
        ensures begun { OnOk result (self.new ≡ begun self.old actor (deed.Dump time logger)) }
        ensures cause { IfErr result (λ e. e ≡ BeginError.OutOfMemory) }
        ensures err { OnErr result (self.new ≡ self.old) }
    {
        let most = self.roster.backtrace(logger);
        let dump = Dump::new(alloc, logger, time, u64::from(actor), most)?;
        self.owe(actor, Duty::Dumps(dump));
        Ok(None)
    }

    /// Begins a log of a message without a source.
    fn begin_log(
        &mut self,
        alloc: Global,
        actor: u32,
        given: MessageRef<'_>,
    ) -> Result<Option<Level>, BeginError>
        requires actor { actor < ACTORS }
        requires idle { is_idle (round_of self.old.desk.world actor) ≡ true }
        requires source { given.source ≡ None }
        ensures filtered { IfOk result (λ level. level ≡ filtering given.entry.level (level_at self.old.roster given.entry.logger)) }
        ensures begun { OnOk result (self.new ≡ logging self.old actor (message_of given.entry)) }
        ensures text_too_long { IsErrOf result BeginError.TextTooLong ↔ ((self.old.outputs.text_limit < length given.entry.text.now)
            × (is_unread self.old.roster given.entry.logger given.entry.level ≡ false)) }
        ensures cause { IfErr result (λ e. IsOfMaking e) }
        ensures err { OnErr result (self.new ≡ self.old) }
    {
        let own = self.roster.own_level(given.logger);
        let duty = match self.duty_after(alloc, given) {
            Ok(duty) => duty,
            Err(fault) => return Err(fault),
        };
        if given.level.number() < own.number() {
            self.owe(actor, duty);
            return Ok(Some(own));
        }
        match self.post_message(alloc, actor, given, duty) {
            Ok(()) => Ok(None),
            Err(fault) => Err(fault),
        }
    }

    /// Begins the post of a message without a source, whose actor then does this beside.
    fn post_message(
        &mut self,
        alloc: Global,
        actor: u32,
        given: MessageRef<'_>,
        duty: Duty,
    ) -> Result<(), BeginError>
        requires actor { actor < ACTORS }
        requires idle { is_idle (round_of self.old.desk.world actor) ≡ true }
        requires source { given.source ≡ None }
        requires fits { DutyFits self.old.roster self.old.outputs.text_limit duty }
        ensures begun { OnOk result (self.new ≡ with_duty (with_desk self.old (post_began self.old.desk actor
            (policy_at self.old.roster given.entry.logger) (Text (message_of given.entry)))) actor duty) }
        ensures text_too_long { IsErrOf result BeginError.TextTooLong ↔ (self.old.outputs.text_limit < length given.entry.text.now) }
        ensures cause { IfErr result (λ e. IsOfMaking e) }
        ensures err { OnErr result (self.new ≡ self.old) }
    {
        match self.message(alloc, given) {
            Ok(message) => {
                self.post_text(actor, message, duty);
                Ok(())
            }
            Err(fault) => Err(fault),
        }
    }

    /// Begins the post of a text under its logger's policy, whose actor then does this beside.
    fn post_text(&mut self, actor: u32, message: Message, duty: Duty)
        requires actor { actor < ACTORS }
        requires idle { is_idle (round_of self.old.desk.world actor) ≡ true }
        requires short { length message.text ≤ self.old.outputs.text_limit }
        requires fits { DutyFits self.old.roster self.old.outputs.text_limit duty }
        ensures { self.new ≡ with_duty (with_desk self.old (post_began self.old.desk actor
            (policy_at self.old.roster message.logger) (Text message))) actor duty }
    {
        let policy = self.roster.policy(message.logger);
        self.post(actor, policy, Item::Text(message), duty);
    }

    /// Makes what an actor does after the post of a message: it keeps a copy, where the logger has a backtrace.
    fn duty_after(&self, alloc: Global, given: MessageRef<'_>) -> Result<Duty, BeginError>
        requires source { given.source ≡ None }
        ensures made { IfOk result (λ d. d ≡ kept_after self.now.roster (message_of given.entry)) }
        ensures fits { IfOk result (λ d. DutyFits self.now.roster self.now.outputs.text_limit d) }
        ensures keeps { OnErr result ((backtrace_at self.now.roster given.entry.logger == 0) ≡ false) }
        ensures text_too_long { IsErrOf result BeginError.TextTooLong ↔ ((self.now.outputs.text_limit < length given.entry.text.now)
            × ((backtrace_at self.now.roster given.entry.logger == 0) ≡ false)) }
        ensures cause { IfErr result (λ e. IsOfMaking e) }
    {
        if self.roster.backtrace(given.logger) == 0 {
            return Ok(Duty::Free);
        }
        Ok(Duty::Keeps(self.message(alloc, given)?))
    }

    /// Makes a message without a source.
    fn message(&self, alloc: Global, given: MessageRef<'_>) -> Result<Message, BeginError>
        requires source { given.source ≡ None }
        ensures made { IfOk result (λ m. m ≡ message_of given.entry) }
        ensures fits { OnOk result (length given.entry.text.now ≤ self.now.outputs.text_limit) }
        ensures text_too_long { IsErrOf result BeginError.TextTooLong ↔ (self.now.outputs.text_limit < length given.entry.text.now) }
        ensures cause { IfErr result (λ e. IsOfMaking e) }
    {
        Ok(Message::new(
            alloc,
            self.outputs.text_limit(),
            given.logger,
            given.level,
            given.time,
            given.thread,
            given.text,
            None,
        )?)
    }

    /// Begins a post of an actor that is in no round, who then does this beside.
    pub(super) fn post(&mut self, actor: u32, policy: Policy, item: Item, duty: Duty)
        requires actor { actor < ACTORS }
        requires idle { is_idle (round_of self.old.desk.world actor) ≡ true }
        requires short { IsShort self.old.outputs.text_limit item }
        requires fits { DutyFits self.old.roster self.old.outputs.text_limit duty }
        ensures { self.new ≡ with_duty (with_desk self.old (post_began self.old.desk actor policy item)) actor duty }
    {
        self.owe(actor, duty);
        let Ok(()) = self.desk.begin_post(actor, policy, item) else {
            unreachable!()
        };
    }

    /// Begins a worker's pop.
    fn pop(&mut self, actor: u32)
        requires actor { actor < ACTORS }
        requires idle { is_idle (round_of self.old.desk.world actor) ≡ true }
        ensures { self.new ≡ with_duty (with_desk self.old (call_began self.old.desk actor round.Pop)) actor duty.Works }
    {
        self.owe(actor, Duty::Works);
        let Ok(()) = self.desk.begin_pop(actor) else {
            unreachable!()
        };
    }

    /// The actor does this from now on.
    pub(super) fn owe(&mut self, actor: u32, duty: Duty)
        requires actor { actor < ACTORS }
        requires fits { DutyFits self.old.roster self.old.outputs.text_limit duty }
        ensures { self.new ≡ with_duty self.old actor duty }
    {
        self.duties[actor as usize] = duty;
    }
}
