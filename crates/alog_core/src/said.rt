use crate::mark::Mark;

/// What a step answers. A refusal of a push hands back the value that it brought. The test `busy_push` shows it.
#[derive(Debug, PartialEq, Eq, Drop)]
pub enum Said<T> {
    /// The step was no event, and the round goes on.
    Nothing,
    /// The push claimed this ticket.
    Claim(u64),
    /// The push wrote its item: the ticket may be handed out, and the call has ended.
    Write(u64),
    /// The place of this ticket, the next one, is not free. It ends a push.
    Full(u64, Option<T>),
    /// The pop grabbed this ticket.
    Grab(u64),
    /// The pop hands out the item of this ticket, and the call has ended.
    Take(u64, T),
    /// The front ticket is not written. The pop goes on: it looks whether that ticket is claimed.
    Front(u64),
    /// The ticket was claimed when the pop looked at the end, so a value is on its way, or has come since. It ends a pop.
    Empty(u64),
    /// No ticket was there to take when the pop looked at the end: the front ticket was the next one too. It ends a pop.
    Idle(u64),
    /// Another actor was faster: the position has left the ticket that this round read. It ends the round.
    Busy(u64, Option<T>),
    /// All tickets are issued. It ends a push.
    Spent(Option<T>),
}

/// One call of a `World`, as data: a list of them is a schedule for `World::run`. The test `calls_and_their_answers` shows
/// it.
#[derive(Debug, PartialEq, Eq, Drop)]
pub enum Call<T> {
    /// `begin_push` of this actor with this item.
    Push(u32, T),
    /// `begin_pop` of this actor.
    Pop(u32),
    /// `step` of this actor.
    Step(u32),
}

/// What one call of a `World` answered. The test `calls_and_their_answers` shows it.
#[derive(Debug, PartialEq, Eq, Drop)]
pub enum Answer<T> {
    /// The push or pop has begun.
    Began,
    /// What the step answered.
    Said(Said<T>),
    /// The refusal's number (6 no such actor, 7 in a call already, 8 not in a call), and the value that a push
    /// brought. Nothing has changed.
    Refused(u32, Option<T>),
}

/// A cell as `World::cells` shows it. The test `claimed_cell_in_front` shows it.
#[derive(Clone, Copy, Debug, PartialEq, Eq)]
pub struct CellView {
    /// Its ticket.
    pub ticket: u64,
    /// How far it has come.
    pub mark: Mark,
}
