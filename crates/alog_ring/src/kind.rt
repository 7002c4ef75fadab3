//! What lies in the places of a ring.

use std::marker::PhantomData;

/// A kind of place: which item what lies there has, the note of a take, and what lies in a place that is free.
pub trait Kind<S, T, N> {
    ghost use Rattle.alog_ring.specs.Kinds.{PlaceKind};

    ghost kind: { PlaceKind S T N };
}

/// A place of a `Ring`: it is empty, or has a value.
#[derive(Drop)]
pub struct Plain;

impl<T> Kind<Option<T>, T, ()> for Plain {
    ghost use Rattle.alog_ring.specs.Kinds.{plain_kind};

    ghost kind = { plain_kind T };
}

/// What the items of a swap ring are: what its values show. The values are swapped through its places, and its history is one
/// of items.
pub trait Shows<B, T> {
    ghost shows: { B → T };
}

/// A value is an item itself.
#[derive(Drop)]
pub struct Whole;

impl<T> Shows<T, T> for Whole {
    ghost shows = { λ y. y };
}

/// A place of a `SwapRing`: it always has a value.
#[derive(Drop)]
pub struct Swap<W> {
    shows: PhantomData<W>,
}

impl<B, T, W: Shows<B, T>> Kind<B, T, Option<B>> for Swap<W> {
    ghost use Rattle.alog_ring.specs.Kinds.{swap_kind};

    ghost kind = { swap_kind W.shows };
}
