//! Tests of a store that hands its calls out, over the public surface of `alog_outbox`: what no clause says.
//!
//! They are here, and not in that crate, since a crate with tests is proved twice. Read `host.rt` (a host: it takes areas, reads the records in them,
//! and carries them out on a store in memory), then `call_tests.rt` (single calls, areas that run out, and when all was taken), `end_tests.rt` (what a drain is
//! told when its store has been let go), `sink_tests.rt` (sinks of
//! each kind over such a store, beside the same sink over a store in memory), `memory_tests.rt` (want of memory), `error_tests.rt` (what a drain says where it takes nothing) and
//! `thread_tests.rt` (a drain on a thread of its own).
#![tactic(auto)]

#[cfg(test)]
mod call_tests;
#[cfg(test)]
mod end_tests;
#[cfg(test)]
mod error_tests;
#[cfg(test)]
mod host;
#[cfg(test)]
mod memory_tests;
#[cfg(test)]
mod sink_tests;
#[cfg(test)]
mod thread_tests;
