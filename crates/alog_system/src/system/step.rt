//! What a step does.
ghost use Rattle.std.specs.Prelude.{◌≡◌, ◌↔◌, ◌≤◌, ◌<◌, IfOk, OnOk, OnErr, IsErrOf, IsSome, true, false, length};
ghost use Rattle.std.specs.List.{All};
ghost use Rattle.alog_core.specs.Run.{GoesOn};
ghost use Rattle.alog_core.specs.World.{is_idle, round_of};
ghost use Rattle.alog_core.specs.declared.TheConstants.{ACTORS};
ghost use Rattle.alog_policy.specs.Desk.{desk_told, desk_stepped};
ghost use Rattle.alog_system.specs.Outputs.{IsShort};
ghost use Rattle.alog_system.specs.Roster.{keeping, emptied, kept_at, policy_at, turns_for};
ghost use Rattle.alog_system.specs.Step.{SystemSteps, entries_by, TurnSteps, ServesOn, TurnsOn, RoundSteps, dumped_by, posting, told_of_work, work_after};
ghost use Rattle.alog_system.specs.System.{is_free, duty_of, owes, with_desk, with_duty, with_roster};
ghost use Rattle.alog_system.specs.Within.{DutyFits, IsShortText, SaidHasOnly};
ghost use Rattle.alog_system.specs.declared.duty.Duty.TheVariants as duty;

use super::System;
use crate::dump::{Dump, Rest};
use crate::duty::Duty;
use crate::stepped::{Stepped, Turn};
use alog_core::{ACTORS, Said, StepError};
use alog_msg::{Item, Message};
use alog_policy::{Outcome, Policy};
use alog_registry::SinkTurn;
use alog_sink::Store;

impl<S: Store + Drop> System<S> {
    /// Makes the next atomic step of the actor's call. It takes no memory of its own: a growth that a store refuses is a fault of
    /// that sink.
    ///
    /// A step of a log, of a flush, of a worker's pop and of a dump's posts is one of the desk. After the post of a log comes the turn
    /// that keeps its message; before the posts of a dump the turn that takes what was kept; and after a worker's pop the turns on
    /// sinks that its item asks for, one by one. A refusal changes nothing. `a_log_and_a_work` of `test_laws` and
    /// `sessions/configured_scripts.session` show it.
    pub fn step(&mut self, actor: u32) -> Result<Stepped, StepError>
        ensures no_actor { IsErrOf result StepError.NoActor ↔ (ACTORS ≤ actor) }
        ensures not_in_call { IsErrOf result StepError.NotInCall ↔ ((actor < ACTORS) × (is_free self.old actor ≡ true)) }
        ensures err { OnErr result (self.new ≡ self.old) }
        ensures steps { IfOk result (λ told. SystemSteps S.tells S.files S.failures self.old actor told self.new) }
        // Each history that leads to the queue and its rounds goes on with the step's event, if it was a step of the queue.
        ensures history { OnOk result (GoesOn self.old.desk.world (entries_by self.old actor) self.new.desk.world) }
    {
        if actor >= ACTORS {
            return Err(StepError::NoActor);
        }
        if self.is_free(actor) {
            return Err(StepError::NotInCall);
        }
        self.desk.is_reached();
        if self.desk.is_idle(actor) {
            return Ok(Stepped::Turned(self.turn(actor)));
        }
        Ok(self.advance(actor))
    }

    /// Makes the turn of an actor that is in a call, but in no round.
    fn turn(&mut self, actor: u32) -> Turn
        requires actor { actor < ACTORS }
        requires idle { is_idle (round_of self.old.desk.world actor) ≡ true }
        requires owes { owes self.old.roster (duty_of self.old actor) ≡ true }
        ensures { TurnSteps S.tells S.files S.failures self.old actor (duty_of self.old actor) result self.new }
    {
        match self.take_duty(actor) {
            Duty::Keeps(message) => {
                self.keep(message);
                Turn::Kept
            }
            Duty::Dumps(dump) => self.dump(actor, dump),
            Duty::Serves { ticket, item, done } => self.serve(actor, ticket, item, done),
            Duty::Free | Duty::Posts { .. } | Duty::Works => unreachable!(),
        }
    }

    /// A message's logger keeps it.
    fn keep(&mut self, message: Message)
        requires { IsShortText self.old.outputs.text_limit message }
        ensures { self.new ≡ with_roster self.old (keeping self.old.roster message) }
    {
        let _limit = self.outputs.text_limit();
        self.roster.keep(message);
    }

    /// Takes what a logger kept, and begins to post it.
    fn dump(&mut self, actor: u32, dump: Dump) -> Turn
        requires actor { actor < ACTORS }
        requires idle { is_idle (round_of self.old.desk.world actor) ≡ true }
        requires free { duty_of self.old actor ≡ duty.Free }
        requires fits { DutyFits self.old.roster self.old.outputs.text_limit (duty.Dumps dump) }
        ensures told { result ≡ Turn.Dumped (length (kept_at self.old.roster dump.logger).messages) }
        ensures begun { self.new ≡ posting (with_roster self.old (emptied self.old.roster dump.logger)) actor
            (policy_at self.old.roster dump.logger) (dumped_by self.old dump) }
    {
        let policy = self.roster.policy(dump.logger());
        let count = self.roster.kept(dump.logger());
        let rest = self.take_kept(dump);
        self.post_next(actor, policy, rest);
        Turn::Dumped(count)
    }

    /// Takes what a logger kept, as it is to be posted.
    fn take_kept(&mut self, dump: Dump) -> Rest
        requires { DutyFits self.old.roster self.old.outputs.text_limit (duty.Dumps dump) }
        ensures rest { result ≡ dumped_by self.old dump }
        ensures short { All (IsShortText self.old.outputs.text_limit) result }
        ensures emptied { self.new ≡ with_roster self.old (emptied self.old.roster dump.logger) }
    {
        let _limit = self.outputs.text_limit();
        self.roster.dump(dump)
    }

    /// Begins the next post of a dump, if one is left.
    fn post_next(&mut self, actor: u32, policy: Policy, rest: Rest)
        requires actor { actor < ACTORS }
        requires idle { is_idle (round_of self.old.desk.world actor) ≡ true }
        requires short { All (IsShortText self.old.outputs.text_limit) rest }
        ensures { self.new ≡ posting self.old actor policy rest }
    {
        let mut rest = rest;
        match rest.next() {
            Some(message) => {
                let duty = Duty::Posts { policy, rest };
                self.post(actor, policy, Item::Text(message), duty);
            }
            None => self.owe(actor, Duty::Free),
        }
    }

    /// Makes the next turn of a work.
    fn serve(&mut self, actor: u32, ticket: u64, item: Item, done: usize) -> Turn
        requires actor { actor < ACTORS }
        requires short { IsShort self.old.outputs.text_limit item }
        requires left { done < length (turns_for self.old.roster ticket item) }
        ensures { ServesOn S.tells S.files S.failures self.old actor ticket item done result self.new }
    {
        let Some(turn) = self.roster.turn(ticket, &item, done) else {
            unreachable!()
        };
        let told = self.turn_on(turn, &item);
        let done = done + 1;
        self.owe(actor, Duty::Serves { ticket, item, done });
        told
    }

    /// Makes a turn of a work on its sink.
    fn turn_on(&mut self, turn: SinkTurn, item: &Item) -> Turn
        requires known { turn.sink < length self.old.outputs.sinks }
        requires short { IsShort self.old.outputs.text_limit item.now }
        ensures { TurnsOn S.tells S.files S.failures self.old turn item.now result self.new }
    {
        self.outputs.turn(turn, item)
    }

    /// Makes the next step of the actor's round.
    fn advance(&mut self, actor: u32) -> Stepped
        requires actor { actor < ACTORS }
        requires in_round { is_idle (round_of self.old.desk.world actor) ≡ false }
        ensures { RoundSteps self.old actor result self.new }
    {
        let stepped = self.step_desk(actor);
        match self.take_duty(actor) {
            Duty::Works => {
                let (told, duty) = work_on(stepped);
                self.owe(actor, duty);
                told
            }
            Duty::Posts { policy, rest } => {
                if stepped.outcome.is_some() {
                    self.post_next(actor, policy, rest);
                } else {
                    self.owe(actor, Duty::Posts { policy, rest });
                }
                Stepped::Round(stepped)
            }
            duty => {
                self.owe(actor, duty);
                Stepped::Round(stepped)
            }
        }
    }

    /// The desk makes the next step of the actor's round.
    fn step_desk(&mut self, actor: u32) -> alog_policy::Stepped<Item>
        requires actor { actor < ACTORS }
        requires in_round { is_idle (round_of self.old.desk.world actor) ≡ false }
        ensures told { result ≡ desk_told self.old.desk actor }
        ensures stepped { self.new ≡ with_desk self.old (desk_stepped self.old.desk actor) }
        ensures short { SaidHasOnly (IsShort self.old.outputs.text_limit) result.said }
        ensures ended { IsSome result.outcome → is_idle (round_of self.new.desk.world actor) ≡ true }
    {
        self.desk.is_reached();
        let Ok(stepped) = self.desk.step(actor) else {
            unreachable!()
        };
        stepped
    }
}

/// What is told of a step of a worker's pop, and what the worker does after it.
fn work_on(stepped: alog_policy::Stepped<Item>) -> (Stepped, Duty)
    ensures told { result.0 ≡ told_of_work stepped stepped.said }
    ensures duty { result.1 ≡ work_after stepped.said }
{
    let alog_policy::Stepped { said, outcome } = stepped;
    match said {
        Said::Take(ticket, item) => {
            let done = 0;
            (Stepped::Took(ticket), Duty::Serves { ticket, item, done })
        }
        Said::Nothing => (going(Said::Nothing, outcome), Duty::Works),
        Said::Grab(ticket) => (going(Said::Grab(ticket), outcome), Duty::Works),
        Said::Front(ticket) => (going(Said::Front(ticket), outcome), Duty::Works),
        said => (going(said, outcome), Duty::Free),
    }
}

/// A step of the queue is told.
fn going(said: Said<Item>, outcome: Option<Outcome<Item>>) -> Stepped
    ensures { result ≡ Stepped.Round (record { said = said; outcome = outcome }) }
{
    Stepped::Round(alog_policy::Stepped { said, outcome })
}
