//! A pass: what a thread pushes and pops with.
ghost use Rattle.std.specs.Prelude.{◌≡◌};

use crate::view::View;
use atomic_table::Seat;
use std::marker::Model;

/// What a thread pushes and pops with: each thread has a pass of its own, which belongs to the ring it was made for.
///
/// It has some of the ring's parts, and knows which history it has seen and which entries in it are its own: contracts
/// see that, and no field. The test `two_threads_share_a_ring` shows it.
///
/// Its other parameters are what lies in a place of its ring, and the note of an entry: they are those of a `Ring`.
#[derive(Drop)]
pub struct Pass<T, S = Option<T>, N = ()> {
    pub(crate) seat: Seat<S, View<T, N>>,
    pub(crate) parts: u64,
}

impl<T, S, N> Model for Pass<T, S, N> {
    ghost use Rattle.std.specs.Prelude.{◌≡◌, ◌<◌, ◌≤◌, []};
    ghost use Rattle.alog_ring.specs.declared.TheConstants.{ALL_PARTS};
    ghost use Rattle.alog_ring.specs.Known.{PassView};
    ghost use Rattle.alog_ring.specs.Made.{IsFaithful};
    ghost use Rattle.alog_ring.specs.Sight.{Idle};

    ghost Value = { PassView T N };

    ghost view = { λ p. record { table = p.seat.table_id; known = p.seat.me.0.known } };

    ghost invariant = { λ p. (p.seat.me.0.stage ≡ Idle) × (p.seat.me.1 ≡ []) × (p.parts ≡ p.seat.me.0.known.parts)
        × (0 < p.parts) × (p.parts ≤ ALL_PARTS) × IsFaithful p.seat.me.0.known };
}

impl<T, S, N> Pass<T, S, N> {
    /// Tells how many of its ring's 2^32 parts the pass has. The test `a_ring_of_two` shows it.
    pub fn parts(&self) -> u64
        ensures { result ≡ self.now.known.parts }
    {
        self.parts
    }
}
