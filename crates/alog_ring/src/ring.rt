//! A ring and its first pass.
ghost use Rattle.std.specs.Prelude.{◌≡◌, ◌≤◌, ◌↔◌, true, false, IfOk, IsErrOf};
ghost use Rattle.alog_core.specs.Queue.{last};
ghost use Rattle.alog_core.specs.World.{is_size};
ghost use Rattle.alog_ring.specs.Known.{first_known, IsPassOf};

use crate::ALL_PARTS;
use crate::board::{PlainBoard, vacant_board};
use crate::limit::{Limit, NoLimit};
use crate::pass::Pass;
use alog_core::{TICKET_END, is_size};
use std::alloc::Global;
use std::marker::Model;
use thiserror::Error;

/// Why no ring was made. The test `takes_sizes_and_first_tickets` shows it.
#[derive(Clone, Copy, Debug, PartialEq, Eq, Error)]
pub enum NewError {
    #[error("the number of places is no power of two from 2 to 65,536")]
    BadSize,
    #[error("the first ticket is not below 2^62")]
    BadFirst,
    #[error("out of memory")]
    OutOfMemory,
}

/// A bounded queue by which any number of threads hand values to each other. The tests `two_threads_share_a_ring` and
/// `a_ring_of_two` show its use.
///
/// Its values may keep to a limit, which is fixed when it is made.
#[derive(Drop)]
pub struct Ring<T, L: Limit<T> = NoLimit> {
    pub(crate) board: PlainBoard<T, L>,
    // Room for what `close` answers.
    pub(crate) left: Vec<(u64, T)>,
}

impl<T, L: Limit<T>> Model for Ring<T, L> {
    ghost use Rattle.std.specs.Prelude.{◌≡◌, ◌+◌, ◌≤◌, [], vec_capacity};
    ghost use Rattle.alog_ring.specs.Known.{RingId};

    ghost Value = { RingId L };

    ghost view = { λ r. record {
      table = r.board.table.shared.table_id;
      places = r.board.mask + 1;
      first = r.board.table.shared.key.first;
      limit = r.board.table.shared.key.limit.limit;
    } };

    ghost invariant = { λ r. (r.left.items ≡ []) × (r.board.mask + 1 ≤ vec_capacity r.left) };
}

impl<T> Ring<T> {
    /// Makes an empty ring and its first pass, which has all of the ring's parts.
    ///
    /// The ring has `places` places, a power of two from 2 to 65,536, and its first ticket is `first`, below 2^62. All
    /// memory that the ring ever takes is taken here. The tests `takes_sizes_and_first_tickets` and `a_ring_of_two` show it.
    pub fn new(alloc: Global, places: usize, first: u64) -> Result<(Ring<T>, Pass<T>), NewError>
        ensures bad_size { IsErrOf result NewError.BadSize ↔ (is_size places ≡ false) }
        ensures bad_first { IsErrOf result NewError.BadFirst ↔ ((is_size places ≡ true) × (last ≤ first)) }
        ensures shape { IfOk result (λ r. (r.0.places ≡ places) × (r.0.first ≡ first)) }
        ensures ring { IfOk result (λ r. IsPassOf r.0 r.1) }
        ensures first { IfOk result (λ r. r.1.known ≡ first_known places first) }
    {
        Ring::limited(alloc, places, first, NoLimit)
    }
}

impl<T, L: Limit<T> + Drop> Ring<T, L> {
    /// Makes a ring as `new` does, whose values keep to this limit. The test `a_ring_of_small_numbers` shows it.
    pub fn limited(
        alloc: Global,
        places: usize,
        first: u64,
        limit: L,
    ) -> Result<(Ring<T, L>, Pass<T>), NewError>
        ensures bad_size { IsErrOf result NewError.BadSize ↔ (is_size places ≡ false) }
        ensures bad_first { IsErrOf result NewError.BadFirst ↔ ((is_size places ≡ true) × (last ≤ first)) }
        ensures shape { IfOk result (λ r. (r.0.places ≡ places) × (r.0.first ≡ first) × (r.0.limit ≡ limit)) }
        ensures ring { IfOk result (λ r. IsPassOf r.0 r.1) }
        ensures first { IfOk result (λ r. r.1.known ≡ first_known places first) }
    {
        if !is_size(places) {
            return Err(NewError::BadSize);
        }
        if first >= TICKET_END {
            return Err(NewError::BadFirst);
        }
        let Ok(left) = Vec::with_capacity(alloc, places) else {
            return Err(NewError::OutOfMemory);
        };
        match vacant_board(alloc, places, first, limit) {
            Ok((board, seat)) => Ok((
                Ring { board, left },
                Pass {
                    seat,
                    parts: ALL_PARTS,
                },
            )),
            Err(_) => {
                left.destroy_empty();
                Err(NewError::OutOfMemory)
            }
        }
    }
}

impl<T, L: Limit<T>> Ring<T, L> {
    /// How many places the ring has. The test `a_ring_of_two` shows it.
    pub fn places(&self) -> usize
        ensures { result ≡ self.now.places }
    {
        self.board.places()
    }
}
