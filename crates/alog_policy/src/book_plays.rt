//! What each step tells. These types are for the proofs alone.
ghost use Rattle.std.specs.Prelude.{◌≡◌, ℕ, List};
ghost use Rattle.alog_lane.specs.Seats.{Entry};
ghost use Rattle.alog_lane.specs.Roster.{Joined, kept_part, given_part, taking_in, gone};
ghost use Rattle.alog_lane.specs.Plays.{was_named, saw_both};
ghost use Rattle.alog_policy.specs.BookAdds.{Add};
ghost use Rattle.alog_policy.specs.BookPlays.{add_at, Added, Looked};

use crate::book_view::View;
use atomic_table::{Join, Play, Split};
use std::marker::{Brand, PhantomData};

/// An add to a number.
pub struct Adding;

impl Play<(), View> for Adding {
    ghost then = { λ s m r n. Added (add_at s.word s.first) m n };
}

/// A look at a number.
pub struct Looking;

impl Play<(), View> for Looking {
    ghost then = { λ s m r n. Looked s.word m r n };
}

/// How many parts a split gives away. Each call picks it.
pub trait Amount {
    ghost parts: { ℕ };
}

impl Amount for Brand {
    ghost parts = { 0 };
}

/// A seat is cut in two.
pub struct Cut<A> {
    amount: PhantomData<A>,
}

impl<A: Amount> Split<View> for Cut<A> {
    ghost left = { λ v. kept_part A.parts v };

    ghost right = { λ v. given_part A.parts v };
}

/// A new seat learns its number.
pub struct Names;

impl Play<(), View> for Names {
    ghost then = { λ s m r n. was_named m n };
}

/// Another seat is taken in.
pub struct TakeIn;

impl Join<View> for TakeIn {
    ghost both = { λ v w. taking_in v w };

    ghost spent = { gone };
}

/// A seat into which another was joined sees what both had seen.
pub struct SeeBoth;

impl Play<(), View> for SeeBoth {
    ghost then = { λ s m r n. (h : List (Entry Add)) → m.0.stage ≡ Joined h → saw_both h m n };
}
