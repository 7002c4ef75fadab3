//! Tests of hosted pools over the public surface of `alog_hosted`.
//!
//! They are here, and not in that crate, since a crate with tests is proved twice. Read `sinks.rt` (a sink, and the limit of texts), `trial.rt`
//! (a pool that is tried, with its producers and workers), `reports.rt` (what is wanted of a report) and `rows.rt` (pools by rows: what producers
//! and workers do on one thread, and what the pool reports). Then `log_tests.rt` (what producers are told), `dump_tests.rt` (dumps of backtraces),
//! `work_tests.rt` (what workers say), `end_tests.rt` (how pools end), `open_tests.rt` (pools that are refused, and last tickets) and `fault_tests.rt` (stores that fail); `flags.rt`
//! and `stores.rt` (a store whose lines have memory, and that may hold a worker), `held_tests.rt` (a lock that another worker has) and
//! `memory_tests.rt` (want of memory); last `thread_tests.rt` (producers and workers on threads of their own). A test that calls a function over
//! any host is dear, whatever it does: so each test is one call with a row.
#![tactic(auto)]

#[cfg(test)]
mod dump_tests;
#[cfg(test)]
mod end_tests;
#[cfg(test)]
mod fault_tests;
#[cfg(test)]
mod flags;
#[cfg(test)]
mod held_tests;
#[cfg(test)]
mod log_tests;
#[cfg(test)]
mod memory_tests;
#[cfg(test)]
mod open_tests;
#[cfg(test)]
mod reports;
#[cfg(test)]
mod rows;
#[cfg(test)]
mod sinks;
#[cfg(test)]
mod stores;
#[cfg(test)]
mod thread_tests;
#[cfg(test)]
mod trial;
#[cfg(test)]
mod work_tests;
