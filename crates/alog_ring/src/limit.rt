//! What a ring asks of its values.

/// What the values of a ring keep to. It is fixed when the ring is made: each value that is brought keeps to it, by
/// condition, and so each value that the ring gives. The test `a_ring_of_small_numbers` shows one.
pub trait Limit<T> {
    ghost admits: { Self → T → Type 0 };
}

/// Nothing is asked of the values.
#[derive(Clone, Copy, Debug, PartialEq, Eq, Drop)]
pub struct NoLimit;

impl<T> Limit<T> for NoLimit {
    ghost admits = { λ limit x. Unit {0} };
}

/// What the places of a `Ring` keep to: a place is empty, or its value keeps to the limit.
#[derive(Drop)]
pub struct IfThere<L> {
    pub limit: L,
}

impl<T, L: Limit<T>> Limit<Option<T>> for IfThere<L> {
    ghost use Rattle.std.specs.Prelude.{IfSome};

    ghost admits = { λ l place. IfSome place (L.admits l.limit) };
}
