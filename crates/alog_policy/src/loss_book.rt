//! A loss book and its first seat, adds and counts.
ghost use Rattle.std.specs.Prelude.{◌≡◌, IfOk};
ghost use Rattle.alog_lane.specs.Seats.{first_known};
ghost use Rattle.alog_lane.specs.Roster.{Idle};
ghost use Rattle.alog_policy.specs.declared.loss_book.TheConstants.{WORDS};
ghost use Rattle.alog_policy.specs.BookAdds.{Overran, Discarded};
ghost use Rattle.alog_policy.specs.BookCalls.{IsSeatOf, Adds, AreCounted};

use crate::book_plays::{Adding, Looking};
use crate::book_seat::BookSeat;
use crate::book_view::{Law, View};
use crate::counts::Counts;
use alog_lane::ALL_PARTS;
use atomic_table::Table;
use std::alloc::{AllocError, Global};
use std::marker::Model;

/// The word of the overrun items. Each of the two words lies two cache lines of 64 bytes from all others, since some
/// processors fetch lines in pairs.
pub(crate) const OVERRUN: usize = 16;

/// The word of the discarded posts.
pub(crate) const DISCARDED: usize = 32;

const WORDS: usize = 48;

// They lie so far apart: a changed constant is refused here.
const _: () = prove!(OVERRUN >= 16 && DISCARDED - OVERRUN >= 16 && WORDS - DISCARDED >= 16);

/// Losses, counted by any number of threads. The tests `counts_losses` and `two_threads_add` show it.
#[derive(Drop)]
pub struct LossBook {
    pub(crate) table: Table<(), View, (), Law, Global>,
    ghost sized: { (table.shared.table_id.words ≡ WORDS) × (table.shared.table_id.slots ≡ 0) },
}

impl Model for LossBook {
    ghost use Rattle.alog_policy.specs.BookCalls.{BookId};

    ghost Value = { BookId };

    ghost view = { λ b. record { table = b.table.shared.table_id } };
}

impl LossBook {
    /// A book without losses, and its first seat, which has all parts and has seen nothing. All memory that the book
    /// ever takes is taken here.
    pub fn new(alloc: Global) -> Result<(LossBook, BookSeat), AllocError>
        ensures seat { IfOk result (λ r. IsSeatOf r.0 r.1) }
        ensures known { IfOk result (λ r. r.1.known ≡ first_known) }
    {
        let (table, seat) = Table::of_words(alloc, &[0; WORDS], &())?;
        let seat = BookSeat {
            seat,
            parts: ALL_PARTS,
        };
        Ok((LossBook { table }, seat))
    }

    /// Counts one more item that was overrun, by one atomic step. The test `counts_losses` shows it.
    pub fn overran(&self, seat: &mut BookSeat)
        requires { IsSeatOf self.now seat.old }
        ensures seat { IsSeatOf self.now seat.new }
        ensures added { Adds seat.old.known seat.new.known (Overran 1) }
    {
        self.add_overrun(seat, 1);
    }

    /// Counts one more post that was discarded, by one atomic step. The test `counts_losses` shows it.
    pub fn discarded(&self, seat: &mut BookSeat)
        requires { IsSeatOf self.now seat.old }
        ensures seat { IsSeatOf self.now seat.new }
        ensures added { Adds seat.old.known seat.new.known (Discarded 1) }
    {
        self.add_discarded(seat, 1);
    }

    /// How much was lost: the overrun items at one moment of the call and the discarded posts at a later one, each
    /// modulo 2^64, with all adds that the seat had seen. The test `counts_losses` shows it.
    pub fn counts(&self, seat: &mut BookSeat) -> Counts
        requires { IsSeatOf self.now seat.old }
        ensures seat { IsSeatOf self.now seat.new }
        ensures counted { AreCounted seat.old.known seat.new.known result }
    {
        let overrun = self.table.shared.load::<Looking>(&mut seat.seat, OVERRUN);
        let discarded = self.table.shared.load::<Looking>(&mut seat.seat, DISCARDED);
        Counts { overrun, discarded }
    }

    pub(crate) fn add_overrun(&self, seat: &mut BookSeat, items: u64)
        requires { IsSeatOf self.now seat.old }
        ensures seat { IsSeatOf self.now seat.new }
        ensures added { Adds seat.old.known seat.new.known (Overran items) }
    {
        self.table
            .shared
            .fetch_add::<Adding>(&mut seat.seat, OVERRUN, items);
    }

    pub(crate) fn add_discarded(&self, seat: &mut BookSeat, posts: u64)
        requires { IsSeatOf self.now seat.old }
        ensures seat { IsSeatOf self.now seat.new }
        ensures added { Adds seat.old.known seat.new.known (Discarded posts) }
    {
        self.table
            .shared
            .fetch_add::<Adding>(&mut seat.seat, DISCARDED, posts);
    }
}
