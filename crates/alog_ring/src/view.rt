//! What a seat at the ring's table knows, and the rule that every step keeps.
ghost use Rattle.alog_ring.specs.Sight.{first_sight};
ghost use Rattle.alog_ring.specs.Limit.{Keeps};

use crate::kind::Kind;
use crate::limit::Limit;
use atomic_table::TableRule;
use std::marker::{Model, PhantomData};
use std::snapshot::Snapshot;

/// What a seat knows. No value of it is made.
pub struct View<T, N> {
    kind: PhantomData<(T, N)>,
}

impl<T, N> Model for View<T, N> {
    ghost use Rattle.alog_ring.specs.Sight.{Sight, first_sight};

    ghost Value = { Sight T N };

    ghost view = { λ _. first_sight 0 0 };
}

/// How many places the ring has, its first ticket, what lay in the places at first, and what lies there keeps to.
#[derive(Drop)]
pub struct Shape<S, L> {
    pub places: u64,
    pub first: u64,
    pub firsts: Snapshot<Vec<S>>,
    pub limit: L,
}

/// The rule of a ring with this kind of places.
pub struct Law<K> {
    kind: PhantomData<K>,
}

impl<S, T, N, K: Kind<S, T, N>, L: Limit<S>> TableRule<S, View<T, N>, Shape<S, L>> for Law<K> {
    ghost holds = { λ shape s. Keeps K.kind shape.firsts.value.items (L.admits shape.limit) shape.places shape.first s };

    ghost first = { λ shape. first_sight shape.places shape.first };
}
