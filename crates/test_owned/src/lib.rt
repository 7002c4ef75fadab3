//! Tests of pools whose parts own their share, over the public surface of `alog_owned`.
//!
//! They are here, and not in that crate, since a crate with tests is proved twice. Read `sinks.rt` (what a pool is opened with), `trial.rt` (a pool
//! that is tried, with those of its producers and workers that are out) and `rows.rt` (pools by rows: what is done on one thread, and what the pool
//! reports). Then `log_tests.rt` (what producers are told), `back_tests.rt` (what is given back, and when a pool ends), `memory_tests.rt` (want of
//! memory), `error_tests.rt` (what errors say, those of hosted pools too) and `thread_tests.rt` (parts that are given back from threads of their own). A call of a pool is dear, so each test is one call with a row.
#![tactic(auto)]

#[cfg(test)]
mod back_tests;
#[cfg(test)]
mod error_tests;
#[cfg(test)]
mod log_tests;
#[cfg(test)]
mod memory_tests;
#[cfg(test)]
mod rows;
#[cfg(test)]
mod sinks;
#[cfg(test)]
mod thread_tests;
#[cfg(test)]
mod trial;
