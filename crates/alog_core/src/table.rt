//! The words and the places of a queue.
ghost use Rattle.std.specs.Prelude.{◌≡◌, ℕ, ◌+◌, ◌%◌, ◌<◌, ◌≤◌, None, true, length, map, replicate, slice_index, IfOk};
ghost use Rattle.std.specs.Option.{option_map};
ghost use Rattle.alog_core.specs.Queue.{last, start};
ghost use Rattle.alog_core.specs.World.{is_size, shown};
ghost use Rattle.alog_core.specs.Words.{AreWords};
ghost use Rattle.alog_core.specs.Table.{places_of, read_in, queue_in, Shows, IsTable};

use crate::mark::Mark;
use crate::said::CellView;
use std::alloc::{AllocError, Global};

/// What lies in a place while a ticket has it: the ticket's item, and its actor, who is the claimer, and from the grab on
/// the taker.
#[derive(Drop)]
pub struct Held<T> {
    pub item: T,
    pub actor: u32,
}

/// The words and the places of a queue. The place of a ticket is the ticket modulo the number of places.
#[derive(Drop)]
pub struct Table<T> {
    /// What it keeps of a ticket is the ticket's place: one less than the number of places, a power of two.
    pub mask: u64,
    /// The enqueue position: the ticket that the next push claims.
    pub next: u64,
    /// The dequeue position: the ticket that the next pop grabs.
    pub front: u64,
    /// By place, what it waits for: a ticket means that the place is free for it, or claimed; one more that its item is
    /// written.
    pub sequences: Vec<u64>,
    /// By place, what lies there.
    pub slots: Vec<Option<Held<T>>>,
}

/// An empty queue of this many places, a power of two, whose first ticket is below 2^62: each place waits for its first
/// ticket.
pub fn empty<T>(alloc: Global, places: usize, first: u64) -> Result<Table<T>, AllocError>
    requires size { is_size places ≡ true }
    requires first { first < last }
    ensures places { IfOk result (λ t. places_of t ≡ places) }
    ensures queue { IfOk result (λ t. queue_in t ≡ start first) }
    ensures shows { IfOk result (λ t. Shows t) }
{
    Ok(Table {
        mask: places as u64 - 1,
        next: first,
        front: first,
        sequences: first_sequences(alloc, places, first)?,
        slots: no_items(alloc, places)?,
    })
}

/// The sequences of an empty queue.
fn first_sequences(alloc: Global, places: usize, first: u64) -> Result<Vec<u64>, AllocError>
    requires size { is_size places ≡ true }
    requires first { first < last }
    ensures count { IfOk result (λ v. length v.items ≡ places) }
    ensures tickets { IfOk result (λ v. (t : ℕ) → first ≤ t → t < first + places → slice_index v.items (t % places) ≡ t) }
{
    let mut sequences = Vec::from_elem(alloc, first, places)?;
    let lap = places as u64;
    for ticket in first..first + lap {
        sequences[place_of(lap - 1, ticket)] = ticket;
    }
    Ok(sequences)
}

/// Places in which nothing lies.
fn no_items<T>(alloc: Global, places: usize) -> Result<Vec<Option<Held<T>>>, AllocError>
    ensures { IfOk result (λ v. v.items ≡ replicate places None) }
{
    let mut slots = Vec::with_capacity(alloc, places)?;
    for _ in 0..places {
        slots.push_reserved(None);
    }
    Ok(slots)
}

/// The words, as they lie in memory: the two positions, and the sequence of each place in turn.
pub fn words<T>(alloc: Global, table: &Table<T>) -> Result<Vec<u64>, AllocError>
    requires { IsTable table.now }
    ensures { IfOk result (λ v. AreWords (places_of table.now) (queue_in table.now) v.items) }
{
    let mut words = Vec::with_capacity(alloc, table.sequences.len() + 2)?;
    words.push(table.next)?;
    words.push(table.front)?;
    words.extend_from_slice(&table.sequences)?;
    Ok(words)
}

/// What is shown of each cell, in ticket order: only the last tickets, at most as many as places, can have one.
pub fn views<T>(alloc: Global, table: &Table<T>) -> Result<Vec<CellView>, AllocError>
    requires { IsTable table.now }
    ensures { IfOk result (λ v. v.items ≡ map shown (queue_in table.now).cells) }
{
    let mut views = Vec::new(alloc);
    for ticket in table.next.saturating_sub(table.mask + 1)..table.next {
        if let Some(view) = view_of(table, ticket) {
            views.push(view)?;
        }
    }
    Ok(views)
}

/// The place of a ticket.
pub fn place_of(mask: u64, ticket: u64) -> usize
    requires { is_size (mask + 1) ≡ true }
    ensures { result ≡ ticket % (mask + 1) }
{
    (ticket & mask) as usize
}

/// What is shown of a ticket's cell, if it has one. The ticket is one of the last that were issued, at most as many as places.
fn view_of<T>(table: &Table<T>, ticket: u64) -> Option<CellView>
    requires { IsTable table.now }
    ensures { result ≡ option_map shown (read_in table.now ticket) }
{
    let place = place_of(table.mask, ticket);
    if table.slots[place].is_none() {
        return None;
    }
    let mark = if table.sequences[place] == ticket {
        Mark::Claimed
    } else if ticket < table.front {
        Mark::Emptying
    } else {
        Mark::Written
    };
    Some(CellView { ticket, mark })
}
