//! What a seat at the lane's table knows, and the rule that every step keeps.
ghost use Rattle.std.specs.Prelude.{Some};
ghost use Rattle.alog_lane.specs.Roster.{first_sight};
ghost use Rattle.alog_lane.specs.Rule.{Ruled};

use crate::turn::Turn;
use atomic_table::TableRule;
use std::marker::{Model, PhantomData};
use std::snapshot::Snapshot;

/// A turn, which clauses see whole.
#[derive(Drop)]
pub struct Done<T: Turn> {
    pub tag: u64,
    pub item: Snapshot<T::Item>,
    pub before: Snapshot<T::Scratch>,
    pub reply: Snapshot<T::Reply>,
    pub after: Snapshot<T::Scratch>,
}

/// What lies behind the lock: the value, and the number of turns that it has taken, modulo 2^64.
#[derive(Drop)]
pub struct LockedValue<T: Turn> {
    pub value: T,
    pub turns: u64,
    /// The last turn, for the clauses: it has no bytes.
    pub last: Snapshot<Option<Done<T>>>,
}

/// What a seat knows. No value of it is made.
pub struct View<T: Turn> {
    kind: PhantomData<T>,
}

impl<T: Turn> Model for View<T> {
    ghost use Rattle.std.specs.Prelude.{None};
    ghost use Rattle.alog_lane.specs.Roster.{first_sight};
    ghost use Rattle.alog_lane.specs.Rule.{LaneSight};

    ghost Value = { LaneSight T T.Item T.Scratch T.Reply };

    ghost view = { λ _. first_sight None };
}

/// The rule of the lane.
pub struct Law;

impl<T: Turn> TableRule<LockedValue<T>, View<T>, Snapshot<T>> for Law {
    ghost holds = { λ first s. Ruled T.turns T.may_turn first.value s };

    ghost first = { λ key. first_sight (Some key.value) };
}
