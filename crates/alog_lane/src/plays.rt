//! What each step tells. These types are for the proofs alone.
ghost use Rattle.std.specs.Prelude.{◌≡◌, ℕ, List};
ghost use Rattle.alog_lane.specs.Seats.{Entry};
ghost use Rattle.alog_lane.specs.Roster.{Joined, kept_part, given_part, taking_in, gone};
ghost use Rattle.alog_lane.specs.Turns.{Turned};
ghost use Rattle.alog_lane.specs.Plays.{was_named, saw_both, tried, gave_back};

use crate::turn::Turn;
use crate::view::{LockedValue, View};
use atomic_table::{Join, Play, Split};
use std::marker::{Brand, PhantomData};

/// The exchange of the lock word.
pub struct Tries;

impl<T: Turn> Play<LockedValue<T>, View<T>> for Tries {
    ghost then = { λ s m r n. tried T.turns T.may_turn m r n };
}

/// The store of the lock word, after a turn.
pub struct GivesBack;

impl<T: Turn> Play<LockedValue<T>, View<T>> for GivesBack {
    ghost then = { λ s m r n. gave_back m n };
}

/// How many parts a split gives away. Each call picks it.
pub trait Amount {
    ghost parts: { ℕ };
}

impl Amount for Brand {
    ghost parts = { 0 };
}

/// A seat is cut in two.
pub struct Cut<A> {
    amount: PhantomData<A>,
}

impl<T: Turn, A: Amount> Split<View<T>> for Cut<A> {
    ghost left = { λ v. kept_part A.parts v };

    ghost right = { λ v. given_part A.parts v };
}

/// A new seat learns its number.
pub struct Names;

impl<T: Turn> Play<LockedValue<T>, View<T>> for Names {
    ghost then = { λ s m r n. was_named m n };
}

/// Another seat is taken in.
pub struct TakeIn;

impl<T: Turn> Join<View<T>> for TakeIn {
    ghost both = { λ v w. taking_in v w };

    ghost spent = { gone };
}

/// A seat into which another was joined sees what both had seen.
pub struct SeeBoth;

impl<T: Turn> Play<LockedValue<T>, View<T>> for SeeBoth {
    ghost then = { λ s m r n. (h : List (Entry (Turned T.Item T.Scratch T.Reply))) → m.0.stage ≡ Joined h → saw_both h m n };
}
