//! The end of a lane.
ghost use Rattle.std.specs.Prelude.{◌≡◌, ◌↔◌, IsOk, IfOk, IfErr};
ghost use Rattle.alog_lane.specs.Calls.{IsSeatOf, Closes};

use crate::lane::{Lane, SLOT};
use crate::seat::{ALL_PARTS, LaneSeat};
use crate::turn::Turn;
use crate::view::LockedValue;
use std::fmt;
use thiserror::Error;

/// The seat has not all parts. Lane and seat come back. The test `a_lane_over_a_sum` shows it.
#[derive(Drop, Error)]
#[error("not all seats are here")]
pub struct SeatsOut<T: Turn> {
    pub lane: Lane<T>,
    pub seat: LaneSeat<T>,
}

impl<T: Turn> Lane<T> {
    /// The value that all turns have led to, where the seat has all parts: then no seat is left. It takes no memory.
    ///
    /// The seat has seen the whole history, and each turn in it is its own or one of a seat that was joined into it. The
    /// test `a_lane_over_a_sum` shows it.
    pub fn close(self, seat: LaneSeat<T>) -> Result<T, SeatsOut<T>>
        requires { IsSeatOf self seat }
        ensures whole { IsOk result ↔ (seat.known.parts ≡ ALL_PARTS) }
        ensures value { IfOk result (λ v. Closes T.turns self.first seat.known v) }
        ensures out { IfErr result (λ e. (e.lane ≡ self) × (e.seat ≡ seat)) }
    {
        if seat.parts != ALL_PARTS {
            return Err(SeatsOut { lane: self, seat });
        }
        let Lane { table } = self;
        let LaneSeat { seat, parts: _ } = seat;
        let mut closed = table.close_with(seat);
        let LockedValue {
            value,
            turns: _,
            last: _,
        } = closed.take(SLOT);
        closed.free();
        Ok(value)
    }
}

impl<T: Turn> fmt::Debug for SeatsOut<T> {
    fn fmt<W: fmt::Write>(&self, f: &mut fmt::Formatter<W>) -> fmt::Result {
        f.pad("SeatsOut { .. }")
    }
}
