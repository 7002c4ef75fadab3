//! The steps of a push and of a pop over words and places. Each reads or writes one word, whatever the number of places.
ghost use Rattle.std.specs.Prelude.{ℕ, ◌≤◌};
ghost use Rattle.alog_core.specs.Queue.{HasCell};
ghost use Rattle.alog_core.specs.Staged.{IsStaged};
ghost use Rattle.alog_core.specs.Table.{places_of, queue_in, IsTable, Advances};
ghost use Rattle.alog_core.specs.declared.mark.Mark.TheVariants.{Claimed, Emptying};
ghost use Rattle.alog_core.specs.declared.round.Round.TheVariants as round;

use crate::TICKET_END;
use crate::round::Round;
use crate::said::Said;
use crate::table::{Held, Table, place_of};

/// Makes the next step of an actor, and says what it answers and where it leaves the actor.
pub fn advance<T: Drop>(table: &mut Table<T>, actor: u32, round: Round<T>) -> (Said<T>, Round<T>)
    requires table { IsTable table.old }
    requires staged { IsStaged (places_of table.old) (queue_in table.old) actor round }
    ensures { Advances table.old table.new actor round result }
{
    match round {
        Round::Idle => (Said::Nothing, Round::Idle),
        Round::Push { item } => load_next(table, item),
        Round::PushRead { ticket, item } => load_sequence_to_push(table, ticket, item),
        Round::PushFree { ticket, item } => claim(table, actor, ticket, item),
        Round::PushClaimed { ticket } => write(table, ticket),
        Round::Pop => load_front(table),
        Round::PopRead { ticket } => load_sequence_to_pop(table, ticket),
        Round::PopReady { ticket } => grab(table, actor, ticket),
        Round::PopGrabbed { ticket } => take(table, ticket),
        Round::PopFronted { ticket } => load_end_to_pop(table, ticket),
    }
}

/// A push reads the next ticket.
fn load_next<T: Drop>(table: &Table<T>, item: T) -> (Said<T>, Round<T>)
    requires { IsTable table.now }
    ensures { (a : ℕ) → Advances table.now table.now a (round.Push item) result }
{
    let ticket = table.next;
    if ticket == TICKET_END {
        (Said::Spent(Some(item)), Round::Idle)
    } else {
        (Said::Nothing, Round::PushRead { ticket, item })
    }
}

/// A push reads the sequence of its ticket's place: the place is free, or held by the ticket a lap before, or has gone on.
fn load_sequence_to_push<T: Drop>(table: &Table<T>, ticket: u64, item: T) -> (Said<T>, Round<T>)
    requires table { IsTable table.now }
    requires read { ticket ≤ table.now.next }
    ensures { (a : ℕ) → Advances table.now table.now a (round.PushRead ticket item) result }
{
    let sequence = table.sequences[place_of(table.mask, ticket)];
    if sequence < ticket {
        (Said::Full(ticket, Some(item)), Round::Idle)
    } else if sequence == ticket {
        (Said::Nothing, Round::PushFree { ticket, item })
    } else {
        (Said::Busy(ticket, Some(item)), Round::Idle)
    }
}

/// A push moves the next ticket on: the ticket that it read is its own, or another actor was faster. Its item goes to the
/// ticket's place.
fn claim<T: Drop>(table: &mut Table<T>, actor: u32, ticket: u64, item: T) -> (Said<T>, Round<T>)
    requires table { IsTable table.old }
    requires staged { IsStaged (places_of table.old) (queue_in table.old) actor (round.PushFree ticket item) }
    ensures { Advances table.old table.new actor (round.PushFree ticket item) result }
{
    if table.next != ticket {
        return (Said::Busy(ticket, Some(item)), Round::Idle);
    }
    table.next = ticket + 1;
    table.slots[place_of(table.mask, ticket)] = Some(Held { item, actor });
    (Said::Claim(ticket), Round::PushClaimed { ticket })
}

/// A push stores the sequence: its item may be handed out.
fn write<T: Drop>(table: &mut Table<T>, ticket: u64) -> (Said<T>, Round<T>)
    requires table { IsTable table.old }
    requires claimed { (x : T) × (a : ℕ) × HasCell (queue_in table.old).cells ticket Claimed x a }
    ensures { (a : ℕ) → IsStaged (places_of table.old) (queue_in table.old) a (round.PushClaimed ticket)
        → Advances table.old table.new a (round.PushClaimed ticket) result }
{
    table.sequences[place_of(table.mask, ticket)] = ticket + 1;
    (Said::Write(ticket), Round::Idle)
}

/// A pop reads the front ticket.
fn load_front<T: Drop>(table: &Table<T>) -> (Said<T>, Round<T>)
    requires { IsTable table.now }
    ensures { (a : ℕ) → Advances table.now table.now a round.Pop result }
{
    let ticket = table.front;
    (Said::Nothing, Round::PopRead { ticket })
}

/// A pop reads the sequence of its ticket's place: the ticket is written, or not yet, or the place has gone on.
fn load_sequence_to_pop<T: Drop>(table: &Table<T>, ticket: u64) -> (Said<T>, Round<T>)
    requires table { IsTable table.now }
    requires read { ticket ≤ table.now.front }
    ensures { (a : ℕ) → Advances table.now table.now a (round.PopRead ticket) result }
{
    let sequence = table.sequences[place_of(table.mask, ticket)];
    if sequence < ticket + 1 {
        (Said::Front(ticket), Round::PopFronted { ticket })
    } else if sequence == ticket + 1 {
        (Said::Nothing, Round::PopReady { ticket })
    } else {
        (Said::Busy(ticket, None), Round::Idle)
    }
}

/// A pop that found its ticket unwritten reads the next ticket: nobody has claimed it, or somebody has.
fn load_end_to_pop<T: Drop>(table: &Table<T>, ticket: u64) -> (Said<T>, Round<T>)
    requires table { IsTable table.now }
    requires read { ticket ≤ table.now.front }
    ensures { (a : ℕ) → Advances table.now table.now a (round.PopFronted ticket) result }
{
    if table.next == ticket {
        (Said::Idle(ticket), Round::Idle)
    } else {
        (Said::Empty(ticket), Round::Idle)
    }
}

/// A pop moves the front ticket on: the ticket that it read is its own, or another actor was faster.
fn grab<T: Drop>(table: &mut Table<T>, actor: u32, ticket: u64) -> (Said<T>, Round<T>)
    requires table { IsTable table.old }
    requires staged { IsStaged (places_of table.old) (queue_in table.old) actor (round.PopReady ticket) }
    ensures { Advances table.old table.new actor (round.PopReady ticket) result }
{
    if table.front != ticket {
        return (Said::Busy(ticket, None), Round::Idle);
    }
    table.front = ticket + 1;
    if let Some(held) = &mut table.slots[place_of(table.mask, ticket)] {
        held.actor = actor;
    }
    (Said::Grab(ticket), Round::PopGrabbed { ticket })
}

/// A pop takes the item out of its ticket's place, and stores the sequence: the place waits for the ticket a lap later.
fn take<T: Drop>(table: &mut Table<T>, ticket: u64) -> (Said<T>, Round<T>)
    requires table { IsTable table.old }
    requires grabbed { (x : T) × (a : ℕ) × HasCell (queue_in table.old).cells ticket Emptying x a }
    ensures { (a : ℕ) → IsStaged (places_of table.old) (queue_in table.old) a (round.PopGrabbed ticket)
        → Advances table.old table.new a (round.PopGrabbed ticket) result }
{
    let place = place_of(table.mask, ticket);
    let Some(Held { item, actor: _ }) = table.slots[place].take() else {
        unreachable!()
    };
    table.sequences[place] = ticket + (table.mask + 1);
    (Said::Take(ticket, item), Round::Idle)
}
