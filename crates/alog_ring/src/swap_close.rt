//! The end of a swap ring.
ghost use Rattle.std.specs.Prelude.{◌≡◌, ℕ, ◌+◌, ◌-◌, ◌%◌, ◌<◌, ◌≤◌, ◌↔◌, [], true, false, length, IsOk, IfOk, IfErr, vec_capacity, slice_index_or};
ghost use Rattle.std.specs.List.{AllByRecursion};
ghost use Rattle.std.specs.Mem.Slots.{slots_items, slots_filled, slots_len, IsFull};
ghost use Rattle.alog_core.specs.Queue.{last};
ghost use Rattle.alog_core.specs.declared.TheConstants.{PLACES_MAX};
ghost use Rattle.alog_ring.specs.Known.{IsPassOf};
ghost use Rattle.alog_ring.specs.Board.{Masks};
ghost use Rattle.alog_ring.specs.Swaps.{AreSpares, SwapCloses};
ghost use Rattle.alog_ring.specs.Taken.{LiesFor, AreOf};

use crate::ALL_PARTS;
use crate::close::Ended;
use crate::kind::{Shows, Whole};
use crate::limit::{Limit, NoLimit};
use crate::pass::Pass;
use crate::swap_ring::{SwapPass, SwapRing};
use atomic_table::Closed;
use std::alloc::Global;
use thiserror::Error;

/// A swap ring was not closed, since the pass has not all parts. Ring and pass come back. The test `a_swap_ring_of_two` shows it.
#[derive(Debug, Drop, Error)]
#[error("not all passes are here")]
pub struct SwapPassesOut<B, T = B, W: Shows<B, T> = Whole, L: Limit<B> = NoLimit> {
    pub ring: SwapRing<B, T, W, L>,
    pub pass: Pass<T, B, Option<B>>,
}

/// Takes the values of the cells out of their places, in ticket order.
fn take_cells<B>(
    closed: &mut Closed<B, Global>,
    mut cells: Vec<(u64, B)>,
    front: u64,
    next: u64,
    mask: u64,
) -> Vec<(u64, B)>
    requires places { IsFull closed.old.slots × (slots_len closed.old.slots ≡ mask + 1) }
    requires sizes { (mask < PLACES_MAX) × (next ≤ last) × Masks mask }
    requires tickets { (front ≤ next) × (next ≤ front + (mask + 1)) }
    requires room { (cells.items ≡ []) × (mask + 1 ≤ vec_capacity cells) }
    ensures same { (slots_items closed.new.slots ≡ slots_items closed.old.slots) × (slots_len closed.new.slots ≡ mask + 1) }
    ensures taken { (t : ℕ) → front ≤ t → t < next → slice_index_or (slots_filled closed.new.slots) (t % (mask + 1)) false ≡ false }
    ensures full { (t : ℕ) → next ≤ t → t < front + (mask + 1)
        → slice_index_or (slots_filled closed.new.slots) (t % (mask + 1)) false ≡ true }
    ensures cells { AreOf (slots_items closed.old.slots) (mask + 1) front result.items × (front + length result.items ≡ next) }
{
    for ticket in front..next {
        let value = closed.take((ticket & mask) as usize);
        cells.push_reserved((ticket, value));
    }
    cells
}

/// Takes the spares out of the places without a cell, in order of places.
fn take_spares<B>(
    mut closed: Closed<B, Global>,
    mut spares: Vec<B>,
    front: u64,
    next: u64,
    mask: u64,
) -> Vec<B>
    requires places { slots_len closed.slots ≡ mask + 1 }
    requires sizes { (mask < PLACES_MAX) × (next ≤ last) × Masks mask }
    requires tickets { (front ≤ next) × (next ≤ front + (mask + 1)) }
    requires taken { (t : ℕ) → front ≤ t → t < next → slice_index_or (slots_filled closed.slots) (t % (mask + 1)) false ≡ false }
    requires full { (t : ℕ) → next ≤ t → t < front + (mask + 1)
        → slice_index_or (slots_filled closed.slots) (t % (mask + 1)) false ≡ true }
    requires room { (spares.items ≡ []) × (mask + 1 ≤ vec_capacity spares) }
    ensures { AreSpares front next (mask + 1) (LiesFor (slots_items closed.slots) (mask + 1)) (mask + 1) result.items }
{
    for place in 0..mask + 1 {
        // The place's ticket, of those from the front one on.
        let ticket = front + ((place + (mask + 1) - (front & mask)) & mask);
        if ticket >= next {
            spares.push_reserved(closed.take(place as usize));
        }
    }
    closed.free();
    spares
}

impl<B, T, W: Shows<B, T>, L: Limit<B>> SwapRing<B, T, W, L> {
    /// Ends the ring, where the pass has all parts, and answers the values of the cells that are left, with their tickets and in
    /// ticket order, and the spares of the places without a cell, in order of places. It takes no memory.
    ///
    /// The history that the pass has seen is the whole one then, and what it leaves is what is answered. The test
    /// `a_swap_ring_of_two` shows it.
    pub fn close(
        self,
        pass: SwapPass<B, T>,
    ) -> Result<(Vec<(u64, B)>, Vec<B>), SwapPassesOut<B, T, W, L>>
        requires { IsPassOf self.ring pass }
        ensures parts { IsOk result ↔ (pass.known.parts ≡ ALL_PARTS) }
        ensures left { IfOk result (λ r. SwapCloses W.shows self.firsts pass.known r.0.items r.1.items) }
        ensures limit { IfOk result (λ r. AllByRecursion (λ p. L.admits self.ring.limit p.1) r.0.items
            × AllByRecursion (L.admits self.ring.limit) r.1.items) }
        ensures out { IfErr result (λ e. (e.ring ≡ self) × (e.pass ≡ pass)) }
    {
        if pass.parts != ALL_PARTS {
            return Err(SwapPassesOut { ring: self, pass });
        }
        let SwapRing {
            board,
            cells,
            spares,
        } = self;
        let mask = board.mask;
        let Ended {
            mut closed,
            front,
            next,
        } = board.close(pass);
        let cells = take_cells(&mut closed, cells, front, next, mask);
        Ok((cells, take_spares(closed, spares, front, next, mask)))
    }
}
