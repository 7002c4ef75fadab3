//! What each step tells. These types are for the proofs alone.
ghost use Rattle.std.specs.Prelude.{◌≡◌, ℕ, List, ◌∷◌};
ghost use Rattle.alog_ring.specs.Limit.{AreHeld};
ghost use Rattle.alog_core.specs.History.{Entry};
ghost use Rattle.alog_ring.specs.Sight.{SawNext, SawFront, SawUnwritten, Writing, Reading, Joined};
ghost use Rattle.alog_ring.specs.Plays.{saw_next, saw_free, claimed, wrote, saw_front, saw_full, saw_end, grabbed, took};
ghost use Rattle.alog_ring.specs.Seats.{kept_part, given_part, lent_note, taking_in, reading_note, gone, was_named, saw_both, saw_all};

use crate::kind::Kind;
use crate::view::View;
use atomic_table::{Join, Play, Split};
use std::marker::{Brand, PhantomData};

pub struct SeeNext<K> {
    kind: PhantomData<K>,
}

impl<S, T, N, K: Kind<S, T, N>> Play<S, View<T, N>> for SeeNext<K> {
    ghost then = { λ s m r n. saw_next K.kind.blank m r n };
}

pub struct SeeFree<K> {
    kind: PhantomData<K>,
}

impl<S, T, N, K: Kind<S, T, N>> Play<S, View<T, N>> for SeeFree<K> {
    ghost then = { λ s m r n. (t : ℕ) → m.0.stage ≡ SawNext t → saw_free K.kind.blank t m r n };
}

/// What lay in the places at first, and what lies there keeps to. Each call picks it.
pub trait Picks<S> {
    ghost use Rattle.std.specs.Prelude.{List};

    ghost firsts: { List S };

    ghost admits: { S → Type 0 };
}

impl<S> Picks<S> for Brand {
    ghost use Rattle.std.specs.Prelude.{[]};

    ghost firsts = { [] };

    ghost admits = { λ y. Unit {0} };
}

pub struct Claims<K, P> {
    kind: PhantomData<(K, P)>,
}

impl<S, T, N, K: Kind<S, T, N>, P: Picks<S>> Play<S, View<T, N>> for Claims<K, P> {
    ghost then = { λ s m r n. claimed K.kind.blank K.kind.has (K.kind.spare P.firsts) s m r n × AreHeld P.admits n.1 };
}

pub struct Writes<K> {
    kind: PhantomData<K>,
}

impl<S, T, N, K: Kind<S, T, N>> Play<S, View<T, N>> for Writes<K> {
    ghost then = { λ s m r n. (t : ℕ) (x : T) → m.0.stage ≡ Writing t x → wrote K.kind.blank t m n };
}

pub struct SeeFront;

impl<S, T, N> Play<S, View<T, N>> for SeeFront {
    ghost then = { λ s m r n. saw_front m r n };
}

pub struct SeeFull<K> {
    kind: PhantomData<K>,
}

impl<S, T, N, K: Kind<S, T, N>> Play<S, View<T, N>> for SeeFull<K> {
    ghost then = { λ s m r n. (t : ℕ) → m.0.stage ≡ SawFront t → saw_full K.kind.blank t m r n };
}

pub struct SeeEnd<K> {
    kind: PhantomData<K>,
}

impl<S, T, N, K: Kind<S, T, N>> Play<S, View<T, N>> for SeeEnd<K> {
    ghost then = { λ s m r n. (t : ℕ) → m.0.stage ≡ SawUnwritten t → saw_end K.kind.blank t m r n };
}

pub struct Grabs<K, P> {
    kind: PhantomData<(K, P)>,
}

impl<S, T, N, K: Kind<S, T, N>, P: Picks<S>> Play<S, View<T, N>> for Grabs<K, P> {
    ghost then = { λ s m r n. grabbed K.kind.blank K.kind.has s m r n × AreHeld P.admits n.1 };
}

/// The note is of what was brought to the place.
pub struct Takes<K> {
    kind: PhantomData<K>,
}

impl<S, T, N, K: Kind<S, T, N>> Play<S, View<T, N>> for Takes<K> {
    ghost then = { λ s m r n. (t : ℕ) (x : T) (k : ℕ) (y : S) (more : List (ℕ × S)) (note : N) → m.0.stage ≡ Reading t x
        → m.1 ≡ (k, y) ∷ more → K.kind.brings note y → took note t x m n };
}

/// How many parts a split gives away. Each call picks it.
pub trait Amount {
    ghost parts: { ℕ };
}

impl Amount for Brand {
    ghost parts = { 0 };
}

/// A pass is cut in two.
pub struct Cut<A> {
    amount: PhantomData<A>,
}

impl<T, N, A: Amount> Split<View<T, N>> for Cut<A> {
    ghost left = { λ v. kept_part A.parts v };

    ghost right = { λ v. given_part A.parts v };
}

/// A note is lent, which tells what the pass has seen.
pub struct Lend;

impl<T, N> Split<View<T, N>> for Lend {
    ghost left = { λ v. kept_part 0 v };

    ghost right = { λ v. lent_note v };
}

/// Another pass is taken in.
pub struct TakeIn;

impl<T, N> Join<View<T, N>> for TakeIn {
    ghost both = { λ v w. taking_in v w };

    ghost spent = { gone };
}

/// A note is taken in.
pub struct ReadNote;

impl<T, N> Join<View<T, N>> for ReadNote {
    ghost both = { λ v w. reading_note v w };

    ghost spent = { gone };
}

pub struct Names;

impl<S, T, N> Play<S, View<T, N>> for Names {
    ghost then = { λ s m r n. was_named m n };
}

pub struct SeeBoth;

impl<S, T, N> Play<S, View<T, N>> for SeeBoth {
    ghost then = { λ s m r n. (t : List (Entry T N)) → m.0.stage ≡ Joined t → saw_both t m n };
}

pub struct SeeAll;

impl<S, T, N> Play<S, View<T, N>> for SeeAll {
    ghost then = { λ s m r n. saw_all m n };
}
