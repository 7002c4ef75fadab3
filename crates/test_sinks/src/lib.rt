//! Tests of sinks over the public surface of several crates, and the stores that they hand to sinks.
//!
//! They are here, and not in the crates that they try, since a crate with tests is proved twice. Read `stores.rt` (stores
//! that yield, that note what is flushed, and that note when), `sinks.rt` (what the tests share), `sink_tests.rt` (sinks of each
//! kind), `rotation_tests.rt` and `rotation_plain_tests.rt` (rotating sinks, and the definition as a plain program beside them, on all
//! small lists of lines), `fault_tests.rt` (sinks whose store fails), `flush_tests.rt` (what is flushed, and in which order) and `lane_tests.rt` (sinks under a
//! lock, to which threads give lines).
//! Daily sinks have a crate of tests of their own, `test_daily`, and so have stores, `test_stores`.
#![tactic(auto)]

#[cfg(test)]
mod fault_tests;
#[cfg(test)]
mod flush_tests;
#[cfg(test)]
mod lane_tests;
#[cfg(test)]
mod rotation_plain_tests;
#[cfg(test)]
mod rotation_tests;
#[cfg(test)]
mod sink_tests;
#[cfg(test)]
mod sinks;
mod stores;

pub use stores::{Marking, Noting, Yielding};
