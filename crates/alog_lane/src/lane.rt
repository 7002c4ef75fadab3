//! A lane and its first seat, and one try at its lock.
ghost use Rattle.std.specs.Prelude.{◌≡◌, ◌≢◌, ◌+◌, ◌%◌, ◌^◌, ◌∷◌, ◌++◌, [], ℕ, IfOk, IfErr, OnErr, IsErr};
ghost use Rattle.alog_lane.specs.Seats.{first_known};
ghost use Rattle.alog_lane.specs.Roster.{Idle};
ghost use Rattle.alog_lane.specs.declared.view.LockedValue.{LockedValue};
ghost use Rattle.alog_lane.specs.Plays.{tried, Took};
ghost use Rattle.alog_lane.specs.Calls.{IsSeatOf, TakesTurn};

use crate::plays::{GivesBack, Tries};
use crate::seat::{ALL_PARTS, LaneSeat};
use crate::turn::Turn;
use crate::view::{Done, Law, LockedValue, View};
use atomic_table::{Refused, Seat, Table};
use std::alloc::{AllocFailed, Global};
use std::fmt;
use std::marker::Model;
use std::snapshot::Snapshot;
use thiserror::Error;

/// The lock word, and its values.
pub(crate) const LOCK: usize = 0;

const FREE: u64 = 0;

const TAKEN: u64 = 1;

/// The slot of the value.
pub(crate) const SLOT: usize = 0;

/// Another seat has the lock. Nothing happened. The test `a_held_lock_is_told` shows it.
#[derive(Clone, Copy, Debug, PartialEq, Eq, Error)]
#[error("another seat has the lock")]
pub struct Held;

/// A value behind a lock, for any number of threads. The tests `a_lane_over_a_sum` and `two_threads_take_turns` show it.
#[derive(Drop)]
pub struct Lane<T: Turn> {
    pub(crate) table: Table<LockedValue<T>, View<T>, Snapshot<T>, Law, Global>,
    ghost sized: { (table.shared.table_id.words ≡ 1) × (table.shared.table_id.slots ≡ 1) },
}

impl<T: Turn> Model for Lane<T> {
    ghost use Rattle.alog_lane.specs.Calls.{LaneId};

    ghost Value = { LaneId T };

    ghost view = { λ l. record { table = l.table.shared.table_id; first = l.table.shared.key.value } };
}

impl<T: Turn> fmt::Debug for Lane<T> {
    fn fmt<W: fmt::Write>(&self, f: &mut fmt::Formatter<W>) -> fmt::Result {
        f.debug_struct("Lane").finish_non_exhaustive()
    }
}

impl<T: Turn> Lane<T> {
    /// A lane over this value, and its first seat, which has all parts and has seen nothing. All memory that the lane ever
    /// takes is taken here; where there is none, the value comes back.
    pub fn new(alloc: Global, value: T) -> Result<(Lane<T>, LaneSeat<T>), AllocFailed<T>>
        ensures first { IfOk result (λ r. r.0.first ≡ value) }
        ensures seat { IfOk result (λ r. IsSeatOf r.0 r.1) }
        ensures known { IfOk result (λ r. r.1.known ≡ first_known) }
        ensures back { IfErr result (λ e. e.value ≡ value) }
    {
        let Ok(mut slots) = Vec::with_capacity(alloc, 1) else {
            return Err(AllocFailed { value });
        };
        let first = Snapshot::of(&value);
        slots.push_reserved(LockedValue {
            value,
            turns: 0,
            last: Snapshot::of(&None),
        });
        match Table::new(alloc, &[0], slots, &first) {
            Ok((table, seat)) => {
                let seat = LaneSeat {
                    seat,
                    parts: ALL_PARTS,
                };
                Ok((Lane { table }, seat))
            }
            Err(Refused { mut slots }) => match slots.pop() {
                Some(
                    LockedValue {
                        value,
                        turns: _,
                        last: _,
                    },
                ) => {
                    slots.destroy_empty();
                    Err(AllocFailed { value })
                }
                None => unreachable!(),
            },
        }
    }

    /// One try at the lock and, where it was got, one turn at the value: what `turn` does where nobody is to wait.
    ///
    /// It answers the turn's index, its place from 0 in the order in which the lock was got, modulo 2^64, and its reply.
    /// The tag is only kept in the history. It takes no memory of its own. Where another seat has the lock, nothing
    /// happens; a seat with all parts is alone, and never hears of another.
    pub fn turn_once(
        &self,
        seat: &mut LaneSeat<T>,
        tag: u64,
        item: &T::Item,
        scratch: &mut T::Scratch,
    ) -> Result<(u64, T::Reply), Held>
        requires seat { IsSeatOf self.now seat.old }
        requires may_turn { T.may_turn self.now.first item.now scratch.old }
        ensures seat { IsSeatOf self.now seat.new }
        ensures turn { IfOk result (λ r. TakesTurn T.turns self.now.first seat.old.known seat.new.known
            (record { tag = tag; item = item.now; before = scratch.old; reply = r.1; after = scratch.new }) r.0) }
        ensures nothing { OnErr result ((seat.new ≡ seat.old) × (scratch.new ≡ scratch.old)) }
        ensures held { IsErr result → seat.old.known.parts ≢ ALL_PARTS }
    {
        let own = &mut seat.seat;
        if self.try_lock(own) != FREE {
            return Err(Held);
        }
        let answer = self.take_turn(own, tag, item, scratch);
        self.table.shared.store::<GivesBack>(own, LOCK, FREE);
        Ok(answer)
    }

    /// Tries to get the lock, and tells what the lock word was.
    fn try_lock(&self, own: &mut Seat<LockedValue<T>, View<T>>) -> u64
        requires table { own.old.table_id ≡ self.now.table }
        requires stage { own.old.me.0.stage ≡ Idle }
        ensures table { own.new.table_id ≡ own.old.table_id }
        ensures tried { tried T.turns T.may_turn own.old.me result own.new.me }
    {
        self.table
            .shared
            .compare_exchange::<Tries>(own, LOCK, FREE, TAKEN)
    }

    /// The owner's turn at the value, and its index.
    fn take_turn(
        &self,
        own: &mut Seat<LockedValue<T>, View<T>>,
        tag: u64,
        item: &T::Item,
        scratch: &mut T::Scratch,
    ) -> (u64, T::Reply)
        requires table { own.old.table_id ≡ self.now.table }
        requires owner { (c : LockedValue T T.Item T.Reply T.Scratch) × (own.old.me.1 ≡ (0, c) ∷ []) × T.may_turn c.value item.now scratch.old }
        ensures table { own.new.table_id ≡ own.old.table_id }
        ensures took { Took T.turns T.may_turn
            (record { tag = tag; item = item.now; before = scratch.old; reply = result.1; after = scratch.new })
            result.0 own.old.me own.new.me }
    {
        let before = Snapshot::of(&*scratch);
        let locked = own.slot_mut(&self.table.shared, SLOT);
        let index = locked.turns;
        let reply = locked.value.turn(item, scratch);
        locked.turns = index_after(index);
        let done = Done {
            tag,
            item: Snapshot::of(item),
            before,
            reply: Snapshot::of(&reply),
            after: Snapshot::of(&*scratch),
        };
        locked.last = Snapshot::of(&Some(done));
        (index, reply)
    }
}

/// The index of the turn after this one.
pub(crate) fn index_after(index: u64) -> u64
    ensures { result ≡ (index + 1) % 2 ^ 64 }
{
    index.wrapping_add(1)
}
