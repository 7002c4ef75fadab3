//! A swap ring and its first pass: values are swapped through its places, so that it neither takes nor gives back memory.
ghost use Rattle.std.specs.Prelude.{◌≡◌, ℕ, ◌<◌, ◌≤◌, ◌⊎◌, ◌↔◌, ◌≢◌, [], true, false, length, IsTrue, IfOk, IfErr, MatchResult};
ghost use Rattle.std.specs.List.{AllByRecursion};
ghost use Rattle.alog_core.specs.Queue.{last};
ghost use Rattle.alog_core.specs.World.{is_size};
ghost use Rattle.alog_ring.specs.Known.{first_known, IsPassOf};
ghost use Rattle.alog_ring.specs.Made.{Made};
ghost use Rattle.alog_ring.specs.Share.{IsWhole, Splits, Joins, Meets};

use crate::ALL_PARTS;
use crate::board::{SwapBoard, laid_board};
use crate::kind::{Shows, Whole};
use crate::limit::{Limit, NoLimit};
use crate::pass::Pass;
use crate::ring::NewError;
use alog_core::{TICKET_END, is_size};
use std::alloc::Global;
use std::fmt;
use std::marker::Model;
use thiserror::Error;

/// Why no swap ring was made: the spares come back. `BadSize` is the reason, too, where there are not as many spares as places. The
/// test `a_swap_ring_of_two` of `test_queue` shows it.
#[derive(Debug, Drop, Error)]
#[error("{why}")]
pub struct SwapNewError<B> {
    pub why: NewError,
    pub spares: Vec<B>,
}

/// A pass of a swap ring.
pub type SwapPass<B, T = B> = Pass<T, B, Option<B>>;

/// A bounded queue by which any number of threads hand values to each other, and get a value for each: a push brings a value to
/// its ticket's place and gets what lay there, the spare; a pop brings a spare, and gets the value of its ticket. So nothing is
/// made or dropped as long as it runs, and large values can be made once and used again. The test `a_swap_ring_of_two` of
/// `test_queue` shows it.
///
/// The history is one of items: what a value shows, by `W`, which is the value itself where nothing else is said. Its values and
/// spares may keep to a limit, which is fixed when it is made.
#[derive(Drop)]
pub struct SwapRing<B, T = B, W: Shows<B, T> = Whole, L: Limit<B> = NoLimit> {
    pub(crate) board: SwapBoard<B, T, W, L>,
    // Room for what `close` answers.
    pub(crate) cells: Vec<(u64, B)>,
    pub(crate) spares: Vec<B>,
}

impl<B, T, W: Shows<B, T>, L: Limit<B>> Model for SwapRing<B, T, W, L> {
    ghost use Rattle.std.specs.Prelude.{◌≡◌, ◌+◌, ◌≤◌, [], vec_capacity};
    ghost use Rattle.alog_ring.specs.Swaps.{SwapId};

    ghost Value = { SwapId L B };

    ghost view = { λ r. record {
      ring = record {
        table = r.board.table.shared.table_id;
        places = r.board.mask + 1;
        first = r.board.table.shared.key.first;
        limit = r.board.table.shared.key.limit;
      };
      firsts = r.board.table.shared.key.firsts.value.items;
    } };

    ghost invariant = { λ r. (r.cells.items ≡ []) × (r.board.mask + 1 ≤ vec_capacity r.cells)
        × (r.spares.items ≡ []) × (r.board.mask + 1 ≤ vec_capacity r.spares) };
}

impl<B> SwapRing<B> {
    /// Makes a swap ring without a cell, and its first pass, which has all of the ring's parts.
    ///
    /// The ring has `places` places, a power of two from 2 to 65,536, and its first ticket is `first`, below 2^62. The spares are
    /// as many, and spare number i goes to place i; another number of spares is refused as a bad size. All memory that the ring ever
    /// takes is taken here. The test `a_swap_ring_of_two` shows it.
    pub fn new(
        alloc: Global,
        places: usize,
        first: u64,
        spares: Vec<B>,
    ) -> Result<(SwapRing<B>, SwapPass<B>), SwapNewError<B>>
        ensures bad_size { MatchResult result (λ _. ⊥) (λ e. e.why ≡ NewError.BadSize)
            ↔ ((is_size places ≡ false) ⊎ (length spares.items ≢ places)) }
        ensures bad_first { MatchResult result (λ _. ⊥) (λ e. e.why ≡ NewError.BadFirst)
            ↔ ((is_size places ≡ true) × (length spares.items ≡ places) × (last ≤ first)) }
        ensures back { IfErr result (λ e. e.spares.items ≡ spares.items) }
        ensures shape { IfOk result (λ r. (r.0.ring.places ≡ places) × (r.0.ring.first ≡ first) × (r.0.firsts ≡ spares.items)) }
        ensures ring { IfOk result (λ r. IsPassOf r.0.ring r.1) }
        ensures first { IfOk result (λ r. r.1.known ≡ first_known places first) }
    {
        SwapRing::limited(alloc, places, first, spares, NoLimit)
    }
}

impl<B, T, W: Shows<B, T>, L: Limit<B> + Drop> SwapRing<B, T, W, L> {
    /// Makes a swap ring as `new` does, whose values and spares keep to this limit. The test `a_swap_ring_of_small_numbers`
    /// shows it.
    pub fn limited(
        alloc: Global,
        places: usize,
        first: u64,
        spares: Vec<B>,
        limit: L,
    ) -> Result<(SwapRing<B, T, W, L>, SwapPass<B, T>), SwapNewError<B>>
        requires limit { AllByRecursion (L.admits limit) spares.items }
        ensures bad_size { MatchResult result (λ _. ⊥) (λ e. e.why ≡ NewError.BadSize)
            ↔ ((is_size places ≡ false) ⊎ (length spares.items ≢ places)) }
        ensures bad_first { MatchResult result (λ _. ⊥) (λ e. e.why ≡ NewError.BadFirst)
            ↔ ((is_size places ≡ true) × (length spares.items ≡ places) × (last ≤ first)) }
        ensures back { IfErr result (λ e. e.spares.items ≡ spares.items) }
        ensures shape { IfOk result (λ r. (r.0.ring.places ≡ places) × (r.0.ring.first ≡ first) × (r.0.ring.limit ≡ limit)
            × (r.0.firsts ≡ spares.items)) }
        ensures ring { IfOk result (λ r. IsPassOf r.0.ring r.1) }
        ensures first { IfOk result (λ r. r.1.known ≡ first_known places first) }
    {
        if !is_size(places) || spares.len() != places {
            return Err(SwapNewError {
                why: NewError::BadSize,
                spares,
            });
        }
        if first >= TICKET_END {
            return Err(SwapNewError {
                why: NewError::BadFirst,
                spares,
            });
        }
        reserved(alloc, places, first, spares, limit).map_err(|spares| SwapNewError {
            why: NewError::OutOfMemory,
            spares,
        })
    }
}

/// A swap ring and its first pass, with room for all that `close` answers; or the spares, where memory is refused.
fn reserved<B, T, W: Shows<B, T>, L: Limit<B> + Drop>(
    alloc: Global,
    places: usize,
    first: u64,
    spares: Vec<B>,
    limit: L,
) -> Result<(SwapRing<B, T, W, L>, SwapPass<B, T>), Vec<B>>
    requires size { is_size places ≡ true }
    requires spares { length spares.items ≡ places }
    requires first { first < last }
    requires limit { AllByRecursion (L.admits limit) spares.items }
    ensures back { IfErr result (λ e. e.items ≡ spares.items) }
    ensures shape { IfOk result (λ r. (r.0.ring.places ≡ places) × (r.0.ring.first ≡ first) × (r.0.ring.limit ≡ limit)
        × (r.0.firsts ≡ spares.items)) }
    ensures ring { IfOk result (λ r. IsPassOf r.0.ring r.1) }
    ensures first { IfOk result (λ r. r.1.known ≡ first_known places first) }
{
    let Ok(cells) = Vec::with_capacity(alloc, places) else {
        return Err(spares);
    };
    let Ok(back) = Vec::with_capacity(alloc, places) else {
        cells.destroy_empty();
        return Err(spares);
    };
    match laid_board(alloc, places, first, spares, limit) {
        Ok((board, seat)) => Ok((
            SwapRing {
                board,
                cells,
                spares: back,
            },
            Pass {
                seat,
                parts: ALL_PARTS,
            },
        )),
        Err(spares) => {
            cells.destroy_empty();
            back.destroy_empty();
            Err(spares)
        }
    }
}

impl<B, T, W: Shows<B, T>, L: Limit<B>> SwapRing<B, T, W, L> {
    /// How many places the ring has. The test `a_swap_ring_of_two` shows it.
    pub fn places(&self) -> usize
        ensures { result ≡ self.now.ring.places }
    {
        self.board.places()
    }

    /// Gives one more thread a pass: it gets `parts` of this one's parts, at least one and not all.
    ///
    /// The new pass has seen what this one has seen, and made nothing. The test `a_swap_ring_of_two` shows it.
    pub fn split(&self, pass: &mut SwapPass<B, T>, parts: u64) -> SwapPass<B, T>
        requires ring { IsPassOf self.now.ring pass.old }
        requires some { 0 < parts }
        requires fewer { parts < pass.old.known.parts }
        ensures ring { IsPassOf self.now.ring pass.new × IsPassOf self.now.ring result }
        ensures split { Splits pass.old pass.new result parts }
    {
        self.board.split(pass, parts)
    }

    /// Takes back the pass of a thread that has ended: its parts, its own entries, and those of its members.
    ///
    /// The pass has seen the longer of both histories then. The test `a_swap_ring_of_two` shows it.
    pub fn join(&self, pass: &mut SwapPass<B, T>, other: SwapPass<B, T>)
        requires pass { IsPassOf self.now.ring pass.old }
        requires other { IsPassOf self.now.ring other }
        ensures ring { IsPassOf self.now.ring pass.new }
        ensures joined { Joins pass.old.known other.known pass.new.known }
    {
        self.board.join(pass, other);
    }

    /// Tells the second pass what the first has seen, so that what one saw is a beginning of what the other saw.
    ///
    /// It has seen the longer of both histories then. The test `a_swap_ring_of_two` shows it.
    pub fn meet(&self, first: &mut SwapPass<B, T>, second: &mut SwapPass<B, T>)
        requires first { IsPassOf self.now.ring first.old }
        requires second { IsPassOf self.now.ring second.old }
        ensures first { first.new ≡ first.old }
        ensures ring { IsPassOf self.now.ring second.new }
        ensures met { Meets second.old.known first.old.known second.new.known }
    {
        self.board.meet(first, second);
    }

    /// Asks whether each other pass was joined into this one, which has all parts then.
    ///
    /// No other is left then, and what this one had seen is the whole history. No pass has more parts than all. The test
    /// `a_swap_ring_of_two` shows it.
    pub fn is_whole(&self, pass: &mut SwapPass<B, T>) -> bool
        requires { IsPassOf self.now.ring pass.old }
        ensures ring { IsPassOf self.now.ring pass.new }
        ensures looks { Made pass.old.known pass.new.known [] }
        ensures most { pass.old.known.parts ≤ ALL_PARTS }
        ensures parts { IsTrue result ↔ (pass.old.known.parts ≡ ALL_PARTS) }
        ensures whole { IsTrue result → IsWhole pass.new.known }
        ensures same { IsTrue result → (pass.new.known ≡ pass.old.known) }
    {
        self.board.is_whole(pass)
    }
}

impl<B, T, W: Shows<B, T>, L: Limit<B>> fmt::Debug for SwapRing<B, T, W, L> {
    fn fmt<F: fmt::Write>(&self, f: &mut fmt::Formatter<F>) -> fmt::Result {
        f.pad("SwapRing { .. }")
    }
}
