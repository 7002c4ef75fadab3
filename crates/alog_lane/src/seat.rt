//! A seat: what a thread takes its turns with.
ghost use Rattle.std.specs.Prelude.{◌≡◌};

use crate::turn::Turn;
use crate::view::{LockedValue, View};
use atomic_table::Seat;
use std::marker::Model;

/// The parts of a lane's first seat. Who has them all is alone.
pub const ALL_PARTS: u64 = 1 << 32;

/// What a thread uses a lane with. It has some of the lane's parts, and knows which history it has seen and which turns
/// in it are its own: contracts see that, and no field. A seat belongs to the lane that it was made for. The test
/// `a_lane_over_a_sum` shows it.
#[derive(Drop)]
pub struct LaneSeat<T: Turn> {
    pub(crate) seat: Seat<LockedValue<T>, View<T>>,
    pub(crate) parts: u64,
}

impl<T: Turn> Model for LaneSeat<T> {
    ghost use Rattle.std.specs.Prelude.{◌≡◌, ◌<◌, ◌≤◌, []};
    ghost use Rattle.alog_lane.specs.declared.seat.TheConstants.{ALL_PARTS};
    ghost use Rattle.alog_lane.specs.Seats.{IsFaithful};
    ghost use Rattle.alog_lane.specs.Roster.{Idle};
    ghost use Rattle.alog_lane.specs.Calls.{SeatView};

    ghost Value = { SeatView T T.Item T.Scratch T.Reply };

    ghost view = { λ p. record { table = p.seat.table_id; first = p.seat.me.0.key; known = p.seat.me.0.known } };

    ghost invariant = { λ p. (p.seat.me.0.stage ≡ Idle) × (p.seat.me.1 ≡ []) × (p.parts ≡ p.seat.me.0.known.parts)
        × (0 < p.parts) × (p.parts ≤ ALL_PARTS) × IsFaithful p.seat.me.0.known };
}

impl<T: Turn> LaneSeat<T> {
    /// How many of its lane's parts the seat has, of 2^32 in all.
    pub fn parts(&self) -> u64
        ensures { result ≡ self.now.known.parts }
    {
        self.parts
    }
}
