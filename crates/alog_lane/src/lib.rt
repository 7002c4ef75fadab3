//! A lane: one value behind a lock, whose owners take turns at it.
//!
//! A `Turn` is what an owner of the lock does to the value, and what it answers. Contracts see no lock word: they speak
//! of one history of turns, each with its seat, its tag, what it was given and what it answered, which leads from the
//! first value to the value at its end. A `LaneSeat`, with which a thread works, has seen a beginning of that history
//! and knows which turns in it are its own.
//!
//! Read `turn.rt` (the trait), `seat.rt`, `lane.rt` (a lane, and one try), `wait.rt` (tries until the lock was got),
//! `share.rt` (seats split and joined) and `close.rt`; below them `view.rt` and `plays.rt` (the rule that each step
//! keeps, and what it tells). In `specs/`, `Turns` is the history, `Seats` what a seat knows, `Calls` what the calls
//! promise; `Roster` (seats and one history, of any deeds) and `Rule` are for the proofs.
#![tactic(auto)]

mod close;
mod lane;
pub mod laws;
mod plays;
mod seat;
mod share;
mod turn;
mod view;
mod wait;

pub use close::SeatsOut;
pub use lane::{Held, Lane};
pub use seat::{ALL_PARTS, LaneSeat};
pub use turn::Turn;
