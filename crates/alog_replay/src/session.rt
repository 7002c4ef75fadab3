//! A queue under a script: the stepped queue with posts, what its actors owe, and the sink of its memory file.
ghost use Rattle.std.specs.Prelude.{◌≡◌, ◌↔◌, ◌++◌, Bool, true, false, nat_lt, ◌&&◌, Some};
ghost use Rattle.std.specs.Prelude.{IfOk, IfErr, IsErr, OnOk, IsErrOf, string_bytes};
ghost use Rattle.alog_core.specs.Queue.{last};
ghost use Rattle.alog_core.specs.World.{is_size, is_idle, round_of};
ghost use Rattle.alog_core.specs.declared.said.Said.{Said};
ghost use Rattle.alog_policy.specs.Desk.{desk_told, desk_stepped};
ghost use Rattle.alog_sink.specs.Files.{AreSame, no_files};
ghost use Rattle.alog_replay.specs.Memory.{MemoryFile, Turns, memory_name};
ghost use Rattle.alog_replay.specs.Session.{opened, is_free, may_push, pushing, popping, posting, duty_of, with_duty};
ghost use Rattle.alog_replay.specs.Session.{with_desk, with_memory, memory_turn_text, shown_message, work_after, Steps, cells_text};
ghost use Rattle.alog_replay.specs.Texts.{stepped_text};
ghost use Rattle.alog_replay.specs.Scene.{Prints};
ghost use Rattle.alog_replay.specs.Plain.{plain};

use crate::command::{Act, Actor};
use crate::duty::Duty;
use crate::error::LineError;
use crate::memory::MemorySink;
use crate::print::{print_cells, print_counts, print_memory_turn, print_stepped};
use crate::pushed::Pushed;
use alog_core::{ACTORS, Said};
use alog_policy::{Desk, Policy, Stepped};
use alog_sink::Store;
use std::alloc::{AllocError, Global};
use std::marker::Model;
use std::mem;

/// Contracts see it as the `Stage` of `specs/Session.antt`.
#[derive(Drop)]
pub struct Session<S: Store> {
    desk: Desk<Pushed>,
    duties: Vec<Duty>,
    memory: MemorySink<S>,
}

impl<S: Store> Model for Session<S> {
    ghost use Rattle.std.specs.Prelude.{◌≡◌, length};
    ghost use Rattle.alog_core.specs.declared.TheConstants.{ACTORS};
    ghost use Rattle.alog_replay.specs.Session.{Stage};

    ghost Value = { Stage };

    ghost view = { λ s. record { desk = s.desk; duties = s.duties.items; memory = s.memory } };

    ghost invariant = { λ s. length s.duties.items ≡ ACTORS };
}

impl<S: Store + Drop> Session<S> {
    /// An empty queue, nobody in a call, no loss, and a store without files, which tells what its files have.
    pub fn open(alloc: Global, store: S, places: u64, first: u64) -> Result<Session<S>, LineError>
        requires tells { S.tells ≡ true }
        requires empty { AreSame no_files (S.files store) }
        ensures opened { IfOk result (λ s. s ≡ opened places first) }
        ensures refused { IsErrOf result LineError.Refused ↔ ((is_size places && nat_lt first last) ≡ false) }
    {
        let desk = Desk::new(alloc, places as usize, first)?;
        let mut duties = Vec::with_capacity(alloc, ACTORS as usize)?;
        for _ in 0..ACTORS {
            duties.push_reserved(Duty::Free);
        }
        let memory = MemorySink::open(alloc, store)?;
        Ok(Session {
            desk,
            duties,
            memory,
        })
    }

    /// Whether an actor is in no call.
    pub fn is_free(&self, actor: Actor) -> bool
        ensures { result ≡ is_free self.now actor }
    {
        let owes = matches!(self.duties[usize::from(actor.number())], Duty::Owes { .. });
        self.desk.is_idle(u32::from(actor.number())) && !owes
    }

    /// An actor begins a push of a text of at most `DEFAULT_TEXT_LIMIT` bytes.
    pub fn push(&mut self, alloc: Global, actor: Actor, text: &str) -> Result<(), LineError>
        ensures begun { OnOk result (self.new ≡ pushing self.old actor text.now) }
        ensures refused { IsErrOf result LineError.Refused ↔ (may_push self.old actor text.now ≡ false) }
    {
        if !self.is_free(actor) {
            return Err(LineError::Refused);
        }
        let pushed = Pushed::new(alloc, actor, text)?;
        self.desk.begin_push(u32::from(actor.number()), pushed)?;
        self.owe(actor, Duty::Free);
        Ok(())
    }

    /// An actor begins a post, under a policy, of a text of at most `DEFAULT_TEXT_LIMIT` bytes.
    pub fn post(
        &mut self,
        alloc: Global,
        actor: Actor,
        policy: Policy,
        text: &str,
    ) -> Result<(), LineError>
        ensures begun { OnOk result (self.new ≡ posting self.old actor policy text.now) }
        ensures refused { IsErrOf result LineError.Refused ↔ (may_push self.old actor text.now ≡ false) }
    {
        if !self.is_free(actor) {
            return Err(LineError::Refused);
        }
        let pushed = Pushed::new(alloc, actor, text)?;
        self.desk
            .begin_post(u32::from(actor.number()), policy, pushed)?;
        self.owe(actor, Duty::Free);
        Ok(())
    }

    /// An actor begins a pop, as a worker or not.
    pub fn pop(&mut self, actor: Actor, duty: Duty) -> Result<(), LineError>
        ensures begun { OnOk result (self.new ≡ popping self.old actor duty) }
        ensures refused { IsErr result ↔ (is_free self.old actor ≡ false) }
        ensures cause { IfErr result (λ e. e ≡ LineError.Refused) }
    {
        if !self.is_free(actor) {
            return Err(LineError::Refused);
        }
        self.desk.begin_pop(u32::from(actor.number()))?;
        self.owe(actor, duty);
        Ok(())
    }

    /// An actor makes the next step of its call, which is printed.
    pub fn step(&mut self, actor: Actor, out: &mut String) -> Result<(), LineError>
        ensures stepped { OnOk result (Prints (string_bytes out.old) (string_bytes out.new)
            (λ text. Steps true self.old actor text self.new)) }
        ensures refused { IsErrOf result LineError.Refused ↔ (is_free self.old actor ≡ true) }
        ensures same { IsErrOf result LineError.Refused → string_bytes out.new ≡ string_bytes out.old }
    {
        if self.is_free(actor) {
            return Err(LineError::Refused);
        }
        match self.take_duty(actor) {
            Duty::Free => self.step_free(actor, out),
            Duty::Works => self.step_worker(actor, out),
            Duty::Owes { ticket, pushed } => self.settle(actor, ticket, &pushed, out),
        }
    }

    /// The memory file takes its turn with what an actor took, which is printed.
    fn settle(
        &mut self,
        actor: Actor,
        ticket: u64,
        pushed: &Pushed,
        out: &mut String,
    ) -> Result<(), LineError>
        ensures settled { OnOk result ((written : Bool) × (memory : MemoryFile)
            × Turns true self.old.memory pushed.now.text written memory × (self.new ≡ with_memory self.old memory)
            × (string_bytes out.new ≡ string_bytes out.old ++ memory_turn_text actor ticket written)) }
        ensures cause { IfErr result (λ e. e ≡ LineError.OutOfMemory) }
    {
        let written = self.memory.take(pushed);
        Ok(print_memory_turn(out, actor.number(), ticket, written)?)
    }

    /// Carries out an act where the queue is open.
    pub fn act(&mut self, alloc: Global, act: Act<'_>, out: &mut String) -> Result<(), LineError>
        ensures done { OnOk result (Prints (string_bytes out.old) (string_bytes out.new)
            (λ text. (plain true).Does (Some self.old) act.entry text (Some self.new))) }
        ensures refused { IsErrOf result LineError.Refused ↔ ((plain true).may_do (Some self.old) act.entry ≡ false) }
        ensures same { IsErrOf result LineError.Refused → string_bytes out.new ≡ string_bytes out.old }
    {
        match act {
            Act::Ring { .. }
            | Act::Log { .. }
            | Act::Flush { .. }
            | Act::Dump { .. }
            | Act::Level { .. } => Err(LineError::Refused),
            Act::Push { actor, text } => self.push(alloc, actor, text.as_str()),
            Act::Pop { actor } => self.pop(actor, Duty::Free),
            Act::Work { actor } => self.pop(actor, Duty::Works),
            Act::Post {
                actor,
                policy,
                text,
            } => self.post(alloc, actor, policy, text.as_str()),
            Act::Cells => Ok(self.print_cells(alloc, out)?),
            Act::Counts => Ok(print_counts(out, self.desk.counts())?),
        }
    }

    /// Prints the cells.
    fn print_cells(&self, alloc: Global, out: &mut String) -> Result<(), AllocError>
        ensures { OnOk result (string_bytes out.new ≡ string_bytes out.old ++ cells_text self.now) }
    {
        let cells = self.desk.cells(alloc)?;
        print_cells(out, &cells)
    }

    /// The store, which has the memory file.
    pub fn store(&self) -> &S
        ensures { S.files result.now memory_name ≡ self.now.memory.bytes }
    {
        self.memory.store()
    }

    /// What the actor owes, which it then owes no more.
    fn take_duty(&mut self, actor: Actor) -> Duty
        ensures duty { result ≡ duty_of self.old actor }
        ensures after { self.new ≡ with_duty self.old actor Duty.Free }
    {
        mem::replace(&mut self.duties[usize::from(actor.number())], Duty::Free)
    }

    /// The actor owes this from now on.
    fn owe(&mut self, actor: Actor, duty: Duty)
        ensures { self.new ≡ with_duty self.old actor duty }
    {
        self.duties[usize::from(actor.number())] = duty;
    }

    /// The next step of a push, a post, or a pop by no worker.
    fn step_free(&mut self, actor: Actor, out: &mut String) -> Result<(), LineError>
        requires in_call { is_idle (round_of self.old.desk.world actor) ≡ false }
        ensures stepped { OnOk result (self.new ≡ with_desk self.old (desk_stepped self.old.desk actor)) }
        ensures printed { OnOk result (string_bytes out.new
            ≡ string_bytes out.old ++ stepped_text shown_message actor (desk_told self.old.desk actor)) }
        ensures cause { IfErr result (λ e. e ≡ LineError.OutOfMemory) }
    {
        self.advance(actor, out)?;
        Ok(())
    }

    /// The next step of a worker's pop, and what it then owes.
    fn step_worker(&mut self, actor: Actor, out: &mut String) -> Result<(), LineError>
        requires in_call { is_idle (round_of self.old.desk.world actor) ≡ false }
        ensures stepped { OnOk result (self.new ≡ with_duty (with_desk self.old (desk_stepped self.old.desk actor)) actor
            (work_after (desk_told self.old.desk actor).said)) }
        ensures printed { OnOk result (string_bytes out.new
            ≡ string_bytes out.old ++ stepped_text shown_message actor (desk_told self.old.desk actor)) }
        ensures cause { IfErr result (λ e. e ≡ LineError.OutOfMemory) }
    {
        let said = self.advance(actor, out)?;
        self.owe(actor, owed(said));
        Ok(())
    }

    /// The next step of a push, a pop or a post.
    fn advance(&mut self, actor: Actor, out: &mut String) -> Result<Said<Pushed>, LineError>
        requires in_call { is_idle (round_of self.old.desk.world actor) ≡ false }
        ensures said { IfOk result (λ said. said ≡ (desk_told self.old.desk actor).said) }
        ensures stepped { OnOk result (self.new ≡ with_desk self.old (desk_stepped self.old.desk actor)) }
        ensures printed { OnOk result (string_bytes out.new
            ≡ string_bytes out.old ++ stepped_text shown_message actor (desk_told self.old.desk actor)) }
        ensures cause { IfErr result (λ e. e ≡ LineError.OutOfMemory) }
    {
        let stepped = self.desk.step(u32::from(actor.number()))?;
        Ok(print_step(out, actor, stepped)?)
    }
}

/// Prints a step of an actor, and answers what it said.
fn print_step(
    out: &mut String,
    actor: Actor,
    stepped: Stepped<Pushed>,
) -> Result<Said<Pushed>, AllocError>
    ensures printed { OnOk result (string_bytes out.new ≡ string_bytes out.old ++ stepped_text shown_message actor stepped) }
    ensures said { IfOk result (λ said. said ≡ stepped.said) }
{
    print_stepped(out, actor.number(), &stepped)?;
    Ok(stepped.said)
}

/// What a worker owes after a step of its pop.
fn owed(said: Said<Pushed>) -> Duty
    ensures { result ≡ work_after said }
{
    match said {
        Said::Take(ticket, pushed) => Duty::Owes { ticket, pushed },
        Said::Nothing | Said::Grab(_) | Said::Front(_) => Duty::Works,
        _ => Duty::Free,
    }
}
