//! Tests of the bounded queue, and of what is posted to it, over the public surface of `alog_core`, `alog_ring`, `alog_lane` and
//! `alog_policy`.
//!
//! They are here, and not in those crates, since a crate with tests is proved twice. What differs by numbers alone stands in rows, over which
//! a test loops. Read `queue_tests.rt` and `run_tests.rt` (the stepped queue), `memory_tests.rt` (want of memory), `plain.rt` (the queue as
//! a plain program, over a list of cells) with `words_tests.rt` (it beside the real one, on 1,000 schedules); `ring_tests.rt`,
//! `crossing_tests.rt` and `step_tests.rt` (the running ring, its values from thread to thread, and what is met beside a push or a pop that is
//! held); `swap_ring_tests.rt` and `swap_crossing_tests.rt` (the swap ring); `lane_tests.rt`; `desk_tests.rt` (posts on the stepped queue), `outlet_tests.rt`, `book_tests.rt` (the loss book), `port_tests.rt` (posts on a running ring), `swap_port_tests.rt`
//! (on a swap ring) and `room_wait_tests.rt` (how long a post waits for room); `error_tests.rt` has what errors say, and `limits.rt` the limits by their numbers.
#![tactic(auto)]

#[cfg(test)]
mod book_tests;
#[cfg(test)]
mod crossing_tests;
#[cfg(test)]
mod desk_tests;
#[cfg(test)]
mod error_tests;
#[cfg(test)]
mod lane_tests;
mod limits;
#[cfg(test)]
mod memory_tests;
#[cfg(test)]
mod outlet_tests;
#[cfg(test)]
mod plain;
#[cfg(test)]
mod port_tests;
#[cfg(test)]
mod queue_tests;
#[cfg(test)]
mod ring_tests;
#[cfg(test)]
mod room_wait_tests;
#[cfg(test)]
mod run_tests;
#[cfg(test)]
mod step_tests;
#[cfg(test)]
mod swap_crossing_tests;
#[cfg(test)]
mod swap_port_tests;
#[cfg(test)]
mod swap_ring_tests;
#[cfg(test)]
mod words_tests;

pub use limits::limits_of_queues;
