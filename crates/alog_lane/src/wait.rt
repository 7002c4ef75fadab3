//! Turns that wait for the lock.
ghost use Rattle.alog_lane.specs.Calls.{IsSeatOf, TakesTurn};

use crate::lane::{Held, Lane};
use crate::seat::LaneSeat;
use crate::turn::Turn;
use crossbeam_utils::Backoff;
use std::sync::Wait;

impl<T: Turn> Lane<T> {
    /// A turn at the value, as soon as the lock is got: tries of `turn_once`, between which it backs off.
    ///
    /// It answers the turn's index and its reply. The test `a_held_lock_is_told` shows it.
    pub fn turn(
        &self,
        rt: &impl Wait,
        seat: &mut LaneSeat<T>,
        tag: u64,
        item: &T::Item,
        scratch: &mut T::Scratch,
    ) -> (u64, T::Reply)
        requires seat { IsSeatOf self.now seat.old }
        requires may_turn { T.may_turn self.now.first item.now scratch.old }
        ensures seat { IsSeatOf self.now seat.new }
        ensures turn { TakesTurn T.turns self.now.first seat.old.known seat.new.known
            (record { tag = tag; item = item.now; before = scratch.old; reply = result.1; after = scratch.new }) result.0 }
    {
        let backoff = Backoff::new();
        for _ in rt.forever() {
            match self.turn_once(seat, tag, item, scratch) {
                Ok(answer) => return answer,
                Err(Held) => backoff.snooze(),
            }
        }
        unreachable!()
    }
}
