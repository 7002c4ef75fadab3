//! The queue over a plain list of cells: what the first body of `World` was, and the plain program that the words and places
//! are compared with. It looks through the list for each step.
ghost use Rattle.std.specs.Prelude.{◌<◌, IfSome, length};

use alog_core::{ACTORS, Answer, Call, CellView, Mark, Said, TICKET_END};
use std::alloc::{AllocError, Global};

/// One ticket of the queue: how far it has come, and its item.
#[derive(Clone, Copy)]
struct Listed {
    ticket: u64,
    mark: Mark,
    item: u64,
}

/// Where an actor stands: in no call, or before a step of a push of an item or of a pop, with the ticket that it has read.
#[derive(Clone, Copy)]
enum Round {
    Idle,
    Push(u64),
    PushRead(u64, u64),
    PushFree(u64, u64),
    PushClaimed(u64),
    Pop,
    PopRead(u64),
    PopReady(u64),
    PopGrabbed(u64),
    PopFronted(u64),
}

/// What a step answers, and where its actor then stands.
type Stepped = (Said<u64>, Round);

/// A queue as a plain list, and the rounds of its actors: how many places it has, the ticket to claim next, the front ticket,
/// and the cells in ticket order.
#[derive(Drop)]
pub struct Plain {
    places: u64,
    next: u64,
    front: u64,
    cells: Vec<Listed>,
    rounds: Vec<Round>,
}

impl Plain {
    /// An empty queue. There is room for the cell of each place.
    pub fn new(alloc: Global, places: usize, first: u64) -> Result<Plain, AllocError> {
        let rounds = Vec::from_elem(alloc, Round::Idle, ACTORS as usize)?;
        Ok(Plain {
            places: places as u64,
            next: first,
            front: first,
            cells: Vec::with_capacity(alloc, places)?,
            rounds,
        })
    }

    /// Makes one call.
    pub fn answer(&mut self, call: &Call<u64>) -> Answer<u64> {
        match call {
            Call::Push(actor, item) => {
                let fault = self.begin(*actor, Round::Push(*item));
                answer_of(fault, Some(*item))
            }
            Call::Pop(actor) => answer_of(self.begin(*actor, Round::Pop), None),
            Call::Step(actor) => self.step(*actor),
        }
    }

    /// Begins a call, or tells why it is refused.
    fn begin(&mut self, actor: u32, call: Round) -> Option<u32> {
        match self.rounds.get_mut(actor as usize) {
            None => Some(6),
            Some(round) => match round {
                Round::Idle => {
                    *round = call;
                    None
                }
                _ => Some(7),
            },
        }
    }

    fn step(&mut self, actor: u32) -> Answer<u64> {
        let round = match self.rounds.get(actor as usize) {
            None => return Answer::Refused(6, None),
            Some(Round::Idle) => return Answer::Refused(8, None),
            Some(round) => *round,
        };
        let (said, next) = self.advance(round);
        if let Some(place) = self.rounds.get_mut(actor as usize) {
            *place = next;
        }
        Answer::Said(said)
    }

    /// Makes the next step of an actor that stands there.
    fn advance(&mut self, round: Round) -> Stepped {
        match round {
            Round::Idle => (Said::Nothing, Round::Idle),
            Round::Push(item) => self.load_next(item),
            Round::PushRead(ticket, item) => self.load_sequence_to_push(ticket, item),
            Round::PushFree(ticket, item) => self.claim(ticket, item),
            Round::PushClaimed(ticket) => {
                self.set_mark(ticket, Mark::Written);
                (Said::Write(ticket), Round::Idle)
            }
            Round::Pop => (Said::Nothing, Round::PopRead(self.front)),
            Round::PopRead(ticket) => self.load_sequence_to_pop(ticket),
            Round::PopReady(ticket) => self.grab(ticket),
            Round::PopGrabbed(ticket) => (self.take_out(ticket), Round::Idle),
            Round::PopFronted(ticket) if ticket == self.next => (Said::Idle(ticket), Round::Idle),
            Round::PopFronted(ticket) => (Said::Empty(ticket), Round::Idle),
        }
    }

    fn load_next(&self, item: u64) -> Stepped {
        if self.next == TICKET_END {
            (Said::Spent(Some(item)), Round::Idle)
        } else {
            (Said::Nothing, Round::PushRead(self.next, item))
        }
    }

    fn load_sequence_to_push(&self, ticket: u64, item: u64) -> Stepped {
        if self.blocks(ticket) {
            (Said::Full(ticket, Some(item)), Round::Idle)
        } else if ticket < self.next && self.mark_of(ticket) != Some(Mark::Claimed) {
            (Said::Busy(ticket, Some(item)), Round::Idle)
        } else {
            (Said::Nothing, Round::PushFree(ticket, item))
        }
    }

    fn claim(&mut self, ticket: u64, item: u64) -> Stepped {
        let cell = Listed {
            ticket,
            mark: Mark::Claimed,
            item,
        };
        if self.next != ticket || self.cells.push(cell).is_err() {
            return (Said::Busy(ticket, Some(item)), Round::Idle);
        }
        self.next = ticket.wrapping_add(1);
        (Said::Claim(ticket), Round::PushClaimed(ticket))
    }

    fn load_sequence_to_pop(&self, ticket: u64) -> Stepped {
        let mark = self.mark_of(ticket);
        let unwritten = mark.is_none() || mark == Some(Mark::Claimed);
        if ticket == self.front && unwritten {
            (Said::Front(ticket), Round::PopFronted(ticket))
        } else if ticket < self.front && mark.is_none() {
            (Said::Busy(ticket, None), Round::Idle)
        } else {
            (Said::Nothing, Round::PopReady(ticket))
        }
    }

    fn grab(&mut self, ticket: u64) -> Stepped {
        if self.front != ticket {
            return (Said::Busy(ticket, None), Round::Idle);
        }
        self.set_mark(ticket, Mark::Emptying);
        self.front = ticket.wrapping_add(1);
        (Said::Grab(ticket), Round::PopGrabbed(ticket))
    }

    fn take_out(&mut self, ticket: u64) -> Said<u64> {
        match self.index_of(ticket) {
            Some(index) => Said::Take(ticket, self.cells.remove(index).item),
            None => Said::Nothing,
        }
    }

    /// The index of a ticket's cell.
    fn index_of(&self, ticket: u64) -> Option<usize>
        ensures { IfSome result (λ i. i < length self.now.cells.items) }
    {
        for index in 0..self.cells.len() {
            if self.cells[index].ticket == ticket {
                return Some(index);
            }
        }
        None
    }

    fn mark_of(&self, ticket: u64) -> Option<Mark> {
        let index = self.index_of(ticket)?;
        Some(self.cells[index].mark)
    }

    /// Whether the ticket `places` before this one is listed still.
    fn blocks(&self, ticket: u64) -> bool {
        self.places <= ticket && self.index_of(ticket - self.places).is_some()
    }

    fn set_mark(&mut self, ticket: u64, mark: Mark) {
        if let Some(index) = self.index_of(ticket) {
            self.cells[index].mark = mark;
        }
    }

    /// Whether these are what is shown of the cells.
    pub fn has_cells(&self, views: &[CellView]) -> bool {
        for (index, cell) in self.cells.iter().enumerate() {
            let Listed { ticket, mark, .. } = *cell;
            if views.get(index) != Some(&CellView { ticket, mark }) {
                return false;
            }
        }
        views.len() == self.cells.len()
    }

    /// Whether these are the positions, and of each place the sequence.
    pub fn has_words(&self, words: &[u64]) -> bool {
        let [next, front, sequences @ ..] = words else {
            return false;
        };
        for (place, sequence) in sequences.iter().enumerate() {
            if *sequence != self.sequence(place as u64) {
                return false;
            }
        }
        (*next, *front, sequences.len() as u64) == (self.next, self.front, self.places)
    }

    /// The sequence of a place: that of its cell, or the least number from the next ticket on that leaves the place's number
    /// when divided by the number of places.
    fn sequence(&self, place: u64) -> u64 {
        for cell in &self.cells {
            if cell.ticket.checked_rem(self.places) == Some(place) {
                return match cell.mark {
                    Mark::Claimed => cell.ticket,
                    Mark::Written | Mark::Emptying => cell.ticket.wrapping_add(1),
                };
            }
        }
        for ticket in self.next..u64::MAX {
            if ticket.checked_rem(self.places) == Some(place) {
                return ticket;
            }
        }
        0
    }
}

/// The answer to a push or a pop that has begun, or is refused for this reason.
fn answer_of(fault: Option<u32>, item: Option<u64>) -> Answer<u64> {
    match fault {
        None => Answer::Began,
        Some(number) => Answer::Refused(number, item),
    }
}
