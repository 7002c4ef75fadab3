//! A store that hands its calls out: what it is told to do is written down in areas of reserved memory, and whoever drains it carries the calls out.
//!
//! `outbox` gives the store and its drain. Each may go to a thread of its own. A call of the store, `Outbox`, becomes a record of bytes (`specs/Calls.antt`)
//! in the area in hand. A flush, and an area that has no room for the next record, sends the area to the drain; `Drain::take_into` copies it out, and gives
//! the emptied area back. The records that were taken, one behind the other, are those of the calls, in their order. A store that is let go sends what is in
//! hand, and behind it the end, so that its drain says when that are all; `is_drained` says it while the store is there. All memory is taken by `outbox`.
//!
//! Read `specs/Calls.antt`, `specs/Views.antt`, `call.rt` and `found.rt`; then `store.rt`, `drain.rt` and `opening.rt`; then `area.rt` (an area),
//! `line.rt` and `letter.rt` with `specs/Line.antt` (the queue of full areas, by whose rule nothing is lost on the way) and `hand.rt` (the area in
//! hand). The tests are in `test_outbox`.
#![tactic(auto)]

mod area;
mod call;
mod drain;
mod found;
mod hand;
mod letter;
mod line;
mod opening;
mod store;

pub use call::{Call, Kind};
pub use drain::{Drain, TakeError, is_drained};
pub use found::FoundFile;
pub use opening::outbox;
pub use store::Outbox;

/// How many bytes an area holds.
pub const AREA: usize = 131_072;
