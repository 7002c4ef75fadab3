//! The end of a ring.
ghost use Rattle.std.specs.Prelude.{◌≡◌, ◌+◌, ◌<◌, ◌≤◌, ◌↔◌, [], List, map, IsOk, IfOk, IfErr, vec_capacity};
ghost use Rattle.std.specs.List.{AllByRecursion};
ghost use Rattle.std.specs.Mem.Slots.{slots_items, slots_len, IsFull};
ghost use Rattle.alog_core.specs.Queue.{Cell, last};
ghost use Rattle.alog_core.specs.declared.TheConstants.{PLACES_MAX};
ghost use Rattle.alog_ring.specs.Known.{IsPassOf};
ghost use Rattle.alog_ring.specs.Share.{Closes, IsWhole, ticket_and_item};
ghost use Rattle.alog_ring.specs.Board.{AreValues, LeftBy, Masks};

use crate::ALL_PARTS;
use crate::board::Board;
use crate::kind::Kind;
use crate::limit::{Limit, NoLimit};
use crate::pass::Pass;
use crate::ring::Ring;
use crate::words::{FRONT, NEXT};
use atomic_table::Closed;
use std::alloc::Global;
use std::fmt;
use thiserror::Error;

/// A ring was not closed, since the pass has not all parts. Ring and pass come back. The test `a_ring_of_two` shows it.
#[derive(Debug, Drop, Error)]
#[error("not all passes are here")]
pub struct PassesOut<T, L: Limit<T> = NoLimit> {
    pub ring: Ring<T, L>,
    pub pass: Pass<T>,
}

/// Takes the values out of the places, from that of the ticket `first` on.
fn take_out<T>(
    mut closed: Closed<Option<T>, Global>,
    mut left: Vec<(u64, T)>,
    first: u64,
    mask: u64,
) -> Vec<(u64, T)>
    requires places { IsFull closed.slots × (slots_len closed.slots ≡ mask + 1) }
    requires sizes { (mask < PLACES_MAX) × (first ≤ last) × Masks mask }
    requires room { (left.items ≡ []) × (mask + 1 ≤ vec_capacity left) }
    ensures { (cells : List (Cell T)) → AreValues (slots_items closed.slots) first (mask + 1) cells → result.items ≡ map ticket_and_item cells }
{
    for i in 0..mask + 1 {
        let ticket = first + i;
        match closed.take((ticket & mask) as usize) {
            Some(value) => left.push_reserved((ticket, value)),
            None => {}
        }
    }
    closed.free();
    left
}

/// The places of a ring at its end, with the front and the next ticket.
pub(crate) struct Ended<S> {
    pub(crate) closed: Closed<S, Global>,
    pub(crate) front: u64,
    pub(crate) next: u64,
}

impl<S, T, N, K: Kind<S, T, N>, L: Limit<S>> Board<S, T, N, K, L> {
    /// Ends the table, and answers what lies in its places.
    pub(crate) fn close(self, pass: Pass<T, S, N>) -> Ended<S>
        requires table { pass.table ≡ self.table.shared.table_id }
        requires all { pass.known.parts ≡ ALL_PARTS }
        ensures full { IsFull result.closed.slots × (slots_len result.closed.slots ≡ self.mask + 1) }
        ensures whole { IsWhole pass.known }
        ensures left { LeftBy K.kind self.table.shared.key.firsts.value.items (L.admits self.table.shared.key.limit) pass.known
            pass.known.seen (self.mask + 1) (slots_items result.closed.slots) result.front result.next }
    {
        let Board { table, mask: _ } = self;
        let Pass { seat, parts: _ } = pass;
        let closed = table.close_with(seat);
        let front = closed.word(FRONT);
        let next = closed.word(NEXT);
        Ended {
            closed,
            front,
            next,
        }
    }
}

impl<T, L: Limit<T>> Ring<T, L> {
    /// Ends the ring, where the pass has all parts, and answers what is left in it: each value with its ticket, in ticket
    /// order. It takes no memory.
    ///
    /// The history that the pass has seen is the whole one then, and what it leaves is what is answered. The test
    /// `a_lone_pass_closes_what_it_made` shows it.
    pub fn close(self, pass: Pass<T>) -> Result<Vec<(u64, T)>, PassesOut<T, L>>
        requires { IsPassOf self pass }
        ensures parts { IsOk result ↔ (pass.known.parts ≡ ALL_PARTS) }
        ensures left { IfOk result (λ v. Closes pass.known v.items) }
        ensures limit { IfOk result (λ v. AllByRecursion (λ p. L.admits self.limit p.1) v.items) }
        ensures out { IfErr result (λ e. (e.ring ≡ self) × (e.pass ≡ pass)) }
    {
        if pass.parts != ALL_PARTS {
            return Err(PassesOut { ring: self, pass });
        }
        let Ring { board, left } = self;
        let mask = board.mask;
        let Ended {
            closed,
            front,
            next: _,
        } = board.close(pass);
        Ok(take_out(closed, left, front, mask))
    }
}

impl<T, L: Limit<T>> fmt::Debug for Ring<T, L> {
    fn fmt<W: fmt::Write>(&self, f: &mut fmt::Formatter<W>) -> fmt::Result {
        f.pad("Ring { .. }")
    }
}

impl<T, S, N> fmt::Debug for Pass<T, S, N> {
    fn fmt<W: fmt::Write>(&self, f: &mut fmt::Formatter<W>) -> fmt::Result {
        f.pad("Pass { .. }")
    }
}
