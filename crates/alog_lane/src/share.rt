//! Seats for more threads: split off, and joined.
ghost use Rattle.std.specs.Prelude.{◌≡◌, ℕ, ◌<◌, ◌≤◌, []};
ghost use Rattle.alog_lane.specs.Seats.{IsFaithful, apart_from, IsSplit, IsJoined};
ghost use Rattle.alog_lane.specs.Roster.{Idle, kept_part, given_part, taking_in};
ghost use Rattle.alog_lane.specs.Plays.{saw_both};
ghost use Rattle.alog_lane.specs.Calls.{IsSeatOf};
ghost use Rattle.alog_lane.specs.declared.seat.TheConstants.{ALL_PARTS};

use crate::lane::{LOCK, Lane};
use crate::plays::{Amount, Cut, Names, SeeBoth, TakeIn};
use crate::seat::LaneSeat;
use crate::turn::Turn;
use crate::view::{LockedValue, View};
use atomic_table::Seat;
use std::marker::Brand;

impl<T: Turn> Lane<T> {
    /// A new seat for another thread, with so many of this one's parts: at least one, and not all.
    ///
    /// It has seen what this one has seen, and made nothing. The test `two_threads_take_turns` shows it.
    pub fn split(&self, seat: &mut LaneSeat<T>, parts: u64) -> LaneSeat<T>
        requires seat { IsSeatOf self.now seat.old }
        requires some { 0 < parts }
        requires fewer { parts < seat.old.known.parts }
        ensures seat { IsSeatOf self.now seat.new × IsSeatOf self.now result }
        ensures split { IsSplit seat.old.known seat.new.known result.known parts }
    {
        let given = self.cut::<Brand>(&mut seat.seat, parts);
        seat.parts -= parts;
        given
    }

    /// Gives the seat the other's parts, and what the other had seen and made. The test `a_lane_over_a_sum` shows it.
    pub fn join(&self, seat: &mut LaneSeat<T>, other: LaneSeat<T>)
        requires seat { IsSeatOf self.now seat.old }
        requires other { IsSeatOf self.now other }
        ensures seat { IsSeatOf self.now seat.new }
        ensures joined { IsJoined seat.old.known other.known seat.new.known }
    {
        let LaneSeat { seat: own, parts } = other;
        self.take_in(&mut seat.seat, own);
        seat.parts += parts;
    }

    fn cut<A: Amount>(&self, own: &mut Seat<LockedValue<T>, View<T>>, parts: u64) -> LaneSeat<T>
        requires amount { parts ≡ A.parts }
        requires table { own.old.table_id ≡ self.now.table }
        requires stage { own.old.me.0.stage ≡ Idle }
        requires some { 0 < parts }
        requires fewer { parts < own.old.me.0.known.parts }
        requires most { parts ≤ ALL_PARTS }
        ensures table { (own.new.table_id ≡ own.old.table_id) × (result.table ≡ own.old.table_id) }
        ensures kept { own.new.me ≡ (kept_part parts own.old.me.0, own.old.me.1) }
        ensures first { result.first ≡ own.old.me.0.key }
        ensures given { (a : ℕ) × (result.known ≡ apart_from own.old.me.0.known a parts) }
        ensures faithful { IsFaithful result.known }
    {
        let mut given = self.table.shared.split_seat::<Cut<A>>(own);
        self.table.shared.load::<Names>(&mut given, LOCK);
        LaneSeat { seat: given, parts }
    }

    fn take_in(&self, own: &mut Seat<LockedValue<T>, View<T>>, other: Seat<LockedValue<T>, View<T>>)
        requires table { (own.old.table_id ≡ self.now.table) × (other.table_id ≡ self.now.table) }
        requires stage { (own.old.me.0.stage ≡ Idle) × (other.me.0.stage ≡ Idle) }
        requires some { 0 < own.old.me.0.known.parts }
        requires home { other.me.1 ≡ [] }
        requires faithful { IsFaithful own.old.me.0.known × IsFaithful other.me.0.known }
        ensures table { own.new.table_id ≡ own.old.table_id }
        ensures both { saw_both other.me.0.known.seen (taking_in own.old.me.0 other.me.0, own.old.me.1) own.new.me }
    {
        self.table.shared.join_seat::<TakeIn>(own, other);
        self.table.shared.load::<SeeBoth>(own, LOCK);
    }
}
