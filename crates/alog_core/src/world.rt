//! The stepped queue: what its calls answer, and in which order they refuse.
ghost use Rattle.std.specs.Prelude.{◌≡◌, ◌<◌, ◌≤◌, ◌↔◌, Some, [], true, false, map, IfOk, OnOk, OnErr, IfErr, IsOk, IsErrOf};
ghost use Rattle.alog_core.specs.Queue.{Event, Allows, last};
ghost use Rattle.alog_core.specs.World.{is_size, fresh, round_of, is_idle, began, next_move, stepped, told, shown};
ghost use Rattle.alog_core.specs.World.{reply_to, after_call, replies_to, after_calls};
ghost use Rattle.alog_core.specs.Words.{AreWords};
ghost use Rattle.alog_core.specs.Run.{LeadsTo, GoesOn, entries_of_step, entries_of_run, TellAll, HasItsCell, EachHasItsCell};
ghost use Rattle.alog_core.specs.Staged.{IsReached};
ghost use Rattle.alog_core.specs.declared.round.Round.TheVariants as round;

use crate::error::{BeginError, Refused, StepError, WorldError};
use crate::play::advance;
use crate::round::Round;
use crate::said::{Answer, Call, CellView, Said};
use crate::table::{Table, empty, views, words};
use crate::{ACTORS, PLACES_MAX, PLACES_MIN, TICKET_END};
use std::alloc::{AllocError, AllocFailed, Global};
use std::marker::Model;
use std::mem;

/// A bounded queue and 64 actors, each in a round of its own, which move one atomic step at a time: it plays any schedule
/// of pushes and pops. The tests `emptying_cell_keeps_its_place` and `busy_push` show it.
///
/// Contracts see it as the machine of `specs/World.antt`: the number of places, the queue of cells in ticket order,
/// and each actor's round. It stores no history: a step says of each history that leads to the world before it
/// which one leads to the world after it.
#[derive(Drop)]
pub struct World<T> {
    table: Table<T>,
    rounds: Vec<Round<T>>,
}

impl<T> Model for World<T> {
    ghost use Rattle.alog_core.specs.World.{Machine};

    ghost Value = { Machine T };

    ghost use Rattle.alog_core.specs.Inside.{machine_in, IsKept};

    ghost view = { machine_in };

    ghost invariant = { IsKept };
}

/// Whether a queue may have so many places: a power of two from 2 to 65,536.
pub fn is_size(places: usize) -> bool
    ensures { result ≡ is_size places }
{
    places.is_power_of_two() && (PLACES_MIN..=PLACES_MAX).contains(&places)
}

impl<T: Drop> World<T> {
    /// Makes an empty queue of this many places, a power of two from 2 to 65,536, whose first ticket is below 2^62.
    ///
    /// Nobody is in a call then. All the memory that `begin_push`, `begin_pop` and `step` need is taken here. The test
    /// `sizes_and_first_tickets` shows it.
    pub fn new(alloc: Global, places: usize, first: u64) -> Result<World<T>, WorldError>
        ensures made { IfOk result (λ w. w ≡ fresh places first) }
        ensures history { IfOk result (λ w. LeadsTo {N = Unit {0}} first [] w) }
        ensures bad_size { IsErrOf result WorldError.BadSize ↔ (is_size places ≡ false) }
        ensures bad_first { IsErrOf result WorldError.BadFirst ↔ ((is_size places ≡ true) × (last ≤ first)) }
    {
        if !is_size(places) {
            return Err(WorldError::BadSize);
        }
        if first >= TICKET_END {
            return Err(WorldError::BadFirst);
        }
        let mut rounds = Vec::with_capacity(alloc, ACTORS as usize)?;
        for _ in 0..ACTORS {
            rounds.push_reserved(Round::Idle);
        }
        let table = empty(alloc, places, first)?;
        Ok(World { table, rounds })
    }

    /// What is true of every world, whatever was called: the facts of `IsReached`. It does nothing: its contract is the
    /// law.
    pub fn is_reached(&self)
        ensures { IsReached self.now }
    {
        // A function knows what is true of a struct where it reads a field of it.
        let _ = &self.table;
    }

    /// Begins a push of this item by an actor, 0 to 63: its steps follow by `step`. It takes no memory.
    ///
    /// A refusal changes nothing and hands the item back. The tests `busy_push` and `refusals` show it.
    pub fn begin_push(&mut self, actor: u32, item: T) -> Result<(), Refused<T>>
        ensures began { OnOk result (self.new ≡ began self.old actor (round.Push item)) }
        ensures begins { IsOk result ↔ ((actor < ACTORS) × (is_idle (round_of self.old actor) ≡ true)) }
        ensures no_actor { IfErr result (λ r. (r.fault ≡ BeginError.NoActor) ↔ (ACTORS ≤ actor)) }
        ensures item { IfErr result (λ r. r.item ≡ item) }
        ensures history { OnOk result (GoesOn {N = Unit {0}} self.old [] self.new) }
        ensures err { OnErr result (self.new ≡ self.old) }
    {
        match self.may_begin(actor) {
            Ok(()) => {
                self.rounds[actor as usize] = Round::Push { item };
                Ok(())
            }
            Err(fault) => Err(Refused { fault, item }),
        }
    }

    /// Begins a pop by an actor, 0 to 63: its steps follow by `step`. It takes no memory, and a refusal changes nothing.
    /// The test `busy_pop` shows it.
    pub fn begin_pop(&mut self, actor: u32) -> Result<(), BeginError>
        ensures began { OnOk result (self.new ≡ began self.old actor round.Pop) }
        ensures begins { IsOk result ↔ ((actor < ACTORS) × (is_idle (round_of self.old actor) ≡ true)) }
        ensures no_actor { IsErrOf result BeginError.NoActor ↔ (ACTORS ≤ actor) }
        ensures history { OnOk result (GoesOn {N = Unit {0}} self.old [] self.new) }
        ensures err { OnErr result (self.new ≡ self.old) }
    {
        self.may_begin(actor)?;
        self.rounds[actor as usize] = Round::Pop;
        Ok(())
    }

    /// Whether this actor, 0 to 63, is in no call.
    pub fn is_idle(&self, actor: u32) -> bool
        requires { actor < ACTORS }
        ensures { result ≡ is_idle (round_of self.now actor) }
    {
        self.rounds[actor as usize].is_idle()
    }

    /// Whether a call of this actor may begin.
    fn may_begin(&self, actor: u32) -> Result<(), BeginError>
        ensures begins { IsOk result ↔ ((actor < ACTORS) × (is_idle (round_of self.now actor) ≡ true)) }
        ensures no_actor { IsErrOf result BeginError.NoActor ↔ (ACTORS ≤ actor) }
        ensures in_call { IsErrOf result BeginError.InCall → (actor < ACTORS) × (is_idle (round_of self.now actor) ≡ false) }
    {
        if actor >= ACTORS {
            Err(BeginError::NoActor)
        } else if self.is_idle(actor) {
            Ok(())
        } else {
            Err(BeginError::InCall)
        }
    }

    /// Makes the next atomic step of the actor's call. It takes no memory.
    ///
    /// Each step is one event of the queue, which the queue allows, or none, and it is the one that the table of a
    /// round names. A refusal changes nothing. The tests `busy_push` and `emptying_cell_keeps_its_place` show it.
    pub fn step(&mut self, actor: u32) -> Result<Said<T>, StepError>
        ensures no_actor { IsErrOf result StepError.NoActor ↔ (ACTORS ≤ actor) }
        ensures not_in_call { IsErrOf result StepError.NotInCall ↔ ((actor < ACTORS) × (is_idle (round_of self.old actor) ≡ true)) }
        ensures err { OnErr result (self.new ≡ self.old) }

        ensures said { IfOk result (λ s. s ≡ told self.old actor) }
        ensures stepped { OnOk result (self.new ≡ stepped self.old actor) }
        // The queue allows the step's event, so each history that leads to the world before goes on with it.
        ensures allowed { OnOk result ((e : Event T) → (next_move self.old actor).event ≡ Some e
            → Allows self.old.places self.old.queue actor e) }
        ensures history { OnOk result (GoesOn self.old (entries_of_step self.old actor) self.new) }
        // A ticket that the actor got has its cell, and the last step of a call writes it, or takes its item out.
        ensures cell { OnOk result (HasItsCell self.old actor) }
    {
        match self.may_begin(actor) {
            Err(BeginError::NoActor) => Err(StepError::NoActor),
            Ok(()) => Err(StepError::NotInCall),
            Err(BeginError::InCall) => Ok(self.advance(actor)),
        }
    }

    /// Makes the next step of an actor, 0 to 63.
    fn advance(&mut self, actor: u32) -> Said<T>
        requires { actor < ACTORS }
        ensures said { result ≡ told self.old actor }
        ensures stepped { self.new ≡ stepped self.old actor }
        ensures allowed { (e : Event T) → (next_move self.old actor).event ≡ Some e → Allows self.old.places self.old.queue actor e }
        ensures history { GoesOn self.old (entries_of_step self.old actor) self.new }
        ensures cell { HasItsCell self.old actor }
    {
        let place = actor as usize;
        let round = mem::replace(&mut self.rounds[place], Round::Idle);
        let (said, next) = advance(&mut self.table, actor, round);
        self.rounds[place] = next;
        said
    }

    /// Shows the cells, in ticket order. The test `claimed_cell_in_front` shows it.
    pub fn cells(&self, alloc: Global) -> Result<Vec<CellView>, AllocError>
        ensures { IfOk result (λ v. v.items ≡ map shown self.now.queue.cells) }
    {
        views(alloc, &self.table)
    }

    /// Shows the words, as they lie in memory: the next ticket, the front ticket, and the sequence of each place in turn.
    ///
    /// The sequence of a place is the ticket that has it, until it is written, and then one more; that of a place without
    /// a ticket is the one that it waits for. The test `words_of_a_queue` shows it.
    pub fn words(&self, alloc: Global) -> Result<Vec<u64>, AllocError>
        ensures { IfOk result (λ v. AreWords self.now.places self.now.queue v.items) }
    {
        words(alloc, &self.table)
    }

    /// Plays a whole schedule: makes the calls one after another, and answers their answers, one for each.
    ///
    /// The entries of the run are those of its steps that are events, in order. Out of memory changes nothing and hands the
    /// calls back. The test `calls_and_their_answers` shows it.
    pub fn run(
        &mut self,
        alloc: Global,
        calls: Vec<Call<T>>,
    ) -> Result<Vec<Answer<T>>, AllocFailed<Vec<Call<T>>>>
        ensures answers { IfOk result (λ v. v.items ≡ replies_to self.old calls.items) }
        ensures after { OnOk result (self.new ≡ after_calls self.old calls.items) }

        // The whole run: each history that leads to the world before goes on with its entries, which the answers tell.
        ensures history { OnOk result (GoesOn self.old (entries_of_run self.old calls.items) self.new) }
        ensures told { IfOk result (λ v. TellAll calls.items v.items (entries_of_run self.old calls.items)) }
        ensures cells { OnOk result (EachHasItsCell self.old calls.items) }

        ensures handed_back { IfErr result (λ e. e.value ≡ calls) }
        ensures err { OnErr result (self.new ≡ self.old) }
    {
        // What each step of the run finds follows from this.
        self.is_reached();
        let Ok(mut answers) = Vec::with_capacity(alloc, calls.len()) else {
            return Err(AllocFailed { value: calls });
        };
        for call in calls {
            answers.push_reserved(self.answer(call));
        }
        Ok(answers)
    }

    /// Makes one call.
    fn answer(&mut self, call: Call<T>) -> Answer<T>
        ensures reply { result ≡ reply_to self.old call }
        ensures after { self.new ≡ after_call self.old call }
    {
        match call {
            Call::Push(actor, item) => match self.begin_push(actor, item) {
                Ok(()) => Answer::Began,
                Err(refused) => Answer::Refused(refused.fault.number(), Some(refused.item)),
            },
            Call::Pop(actor) => match self.begin_pop(actor) {
                Ok(()) => Answer::Began,
                Err(fault) => Answer::Refused(fault.number(), None),
            },
            Call::Step(actor) => match self.step(actor) {
                Ok(said) => Answer::Said(said),
                Err(fault) => Answer::Refused(fault.number(), None),
            },
        }
    }
}
