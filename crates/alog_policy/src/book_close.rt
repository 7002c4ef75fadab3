//! The end of a loss book.
ghost use Rattle.std.specs.Prelude.{◌≡◌, ◌↔◌, IsOk, IfOk, IfErr};
ghost use Rattle.alog_policy.specs.BookCalls.{IsSeatOf, Closes};

use crate::book_seat::BookSeat;
use crate::counts::Counts;
use crate::loss_book::{DISCARDED, LossBook, OVERRUN};
use alog_lane::ALL_PARTS;
use std::fmt;
use thiserror::Error;

/// The seat has not all parts. Book and seat come back. The test `seats_split_and_join` shows it.
#[derive(Drop, Error)]
#[error("not all seats are here")]
pub struct SeatsOut {
    pub book: LossBook,
    pub seat: BookSeat,
}

impl LossBook {
    /// What was lost in all, where the seat has all parts: then no seat is left. It takes no memory.
    ///
    /// Each number is the sum, modulo 2^64, of the adds of this seat and of those that were joined into it. The test
    /// `seats_split_and_join` shows it.
    pub fn close(self, seat: BookSeat) -> Result<Counts, SeatsOut>
        requires { IsSeatOf self seat }
        ensures whole { IsOk result ↔ (seat.known.parts ≡ ALL_PARTS) }
        ensures sums { IfOk result (λ c. Closes seat.known c) }
        ensures out { IfErr result (λ e. (e.book ≡ self) × (e.seat ≡ seat)) }
    {
        if seat.parts != ALL_PARTS {
            return Err(SeatsOut { book: self, seat });
        }
        let LossBook { table } = self;
        let BookSeat { seat, parts: _ } = seat;
        let closed = table.close_with(seat);
        let counts = Counts {
            overrun: closed.word(OVERRUN),
            discarded: closed.word(DISCARDED),
        };
        closed.free();
        Ok(counts)
    }
}

impl fmt::Debug for SeatsOut {
    fn fmt<W: fmt::Write>(&self, f: &mut fmt::Formatter<W>) -> fmt::Result {
        f.pad("SeatsOut { .. }")
    }
}
