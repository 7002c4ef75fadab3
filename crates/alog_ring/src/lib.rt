//! The running ring: a bounded queue by which any number of threads hand values to each other, without a lock.
//!
//! `Ring::new` gives a ring and its first `Pass`, `split` a pass for each further thread, and a thread pushes and pops
//! with its own. A *round* reads a position, looks at its place and exchanges the position, and is busy where another
//! thread was faster: `push_once` and `pop_once` make one round, `push` and `pop` go on until one is not busy. A pop that
//! finds no value looks at the other position: the ring is empty where a value is on its way, and idle where none is. A
//! large value lies in a hand, from which `push_from` takes it, or into which `pop_once_into` and `pop_into` put it. The test
//! `two_threads_share_a_ring` of `test_queue` is a program that uses it. The rule is Dmitry Vyukov's (1024cores.net).
//!
//! In a `SwapRing` a place always has a value: a push brings one and gets the spare that lay there, a pop brings a spare and
//! gets its value, so large values can be made once and used again. It is another kind of place on the same board, under the
//! same rule (`kind.rt`).
//!
//! Contracts see no word of it. They speak of the queue of `alog_core`: one history for all threads, of which a pass
//! has seen a beginning, and in which it knows exactly its own entries. Read in `specs/` what is promised: `Known` (what
//! a pass knows), `Made` and `Calls`, `Refused`, `Waits` (what a push and a pop say), `Share` (split, join, meet,
//! is_whole, close), `Spares` and `Swaps` (what a swap ring says more). The other files there (`Kinds`, `Noting`, `Sight`,
//! `Plays`, `Seats`, `Rule`, `Limit`, `Board`, `Taken`) are for the proofs, as are `board.rt` (each step on the words and places),
//! `rounds.rt` (a round of them), `words.rt`, `view.rt` and `plays.rt`.
#![tactic(auto)]

mod board;
mod close;
mod gate;
mod kind;
mod limit;
mod pass;
mod plays;
mod pop;
mod push;
mod ring;
mod rounds;
mod share;
mod swap_calls;
mod swap_close;
mod swap_ring;
mod view;
mod wait;
mod words;

pub use close::PassesOut;
pub use gate::StepGate;
pub use kind::{Shows, Whole};
pub use limit::{Limit, NoLimit};
pub use pass::Pass;
pub use pop::PopError;
pub use push::PushError;
pub use ring::{NewError, Ring};
pub use swap_calls::SwapPopError;
pub use swap_close::SwapPassesOut;
pub use swap_ring::{SwapNewError, SwapPass, SwapRing};

/// The parts of a ring, which its first pass has. Passes share them: who has them all is alone.
pub const ALL_PARTS: u64 = 1 << 32;
