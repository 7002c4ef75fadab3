//! Loads: many producers that log all their messages through a pool, as fast as they can.
//!
//! `load` builds what a configuration names (`alog_server::setup_of`), starts a pool of it, and sends so many producers off, each
//! on a thread of its own (`producers.rt`), where each logs its messages one after the other (`load_seat.rt`). When all have come back, the
//! pool is ended, and its report answered. Whatever is refused on the way, all threads are joined, and a pool that was started is
//! ended: neither it nor a producer is `Drop`, so no other way out compiles.
//!
//! `specs/Load.antt` says what a report is that is answered: that of a pool which was started with what the configuration gives,
//! and was ended with as many producers as were asked for, each of which made the logs of its own messages, in order, and no other
//! calls.
//!
//! Read `loading.rt`, `error.rt`; then `load_task.rt`, `load_seat.rt` and `producers.rt`; then `setup.rt`. What servers need as well, the setup and the making of
//! producers, is in `alog_server`.
#![tactic(auto)]

mod error;
mod load_seat;
mod load_task;
mod loading;
mod producers;
mod setup;

pub use error::LoadError;
pub use loading::load;

/// The most producers of a load.
pub const LOAD_PRODUCERS_MAX: u64 = 64;

/// The most messages of each producer.
pub const LOAD_MESSAGES_MAX: u64 = 1_000_000;
