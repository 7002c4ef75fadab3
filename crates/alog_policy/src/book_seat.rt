//! A seat: what a thread adds and counts with.
ghost use Rattle.std.specs.Prelude.{◌≡◌};

use crate::book_view::View;
use atomic_table::Seat;
use std::marker::Model;

/// What a thread uses a loss book with. It has some of the book's parts, and knows which history of adds it has seen and
/// which of them are its own: contracts see that, and no field. A seat belongs to the book that it was made for. The
/// test `seats_split_and_join` shows it.
#[derive(Drop)]
pub struct BookSeat {
    pub(crate) seat: Seat<(), View>,
    pub(crate) parts: u64,
}

impl Model for BookSeat {
    ghost use Rattle.std.specs.Prelude.{◌≡◌, ◌<◌, ◌≤◌, []};
    ghost use Rattle.alog_lane.specs.declared.seat.TheConstants.{ALL_PARTS};
    ghost use Rattle.alog_lane.specs.Seats.{IsFaithful};
    ghost use Rattle.alog_lane.specs.Roster.{Idle};
    ghost use Rattle.alog_policy.specs.BookCalls.{SeatView};

    ghost Value = { SeatView };

    ghost view = { λ p. record { table = p.seat.table_id; known = p.seat.me.0.known } };

    ghost invariant = { λ p. (p.seat.me.0.stage ≡ Idle) × (p.seat.me.1 ≡ []) × (p.parts ≡ p.seat.me.0.known.parts)
        × (0 < p.parts) × (p.parts ≤ ALL_PARTS) × IsFaithful p.seat.me.0.known };
}

impl BookSeat {
    /// How many of its book's parts the seat has, of 2^32 in all.
    pub fn parts(&self) -> u64
        ensures { result ≡ self.now.known.parts }
    {
        self.parts
    }
}
