//! Tests of pools and of loads over the public surface of `alog_pool` and `alog_load`.
//!
//! They are here, and not in those crates, since a crate with tests is proved twice. Read `sinks.rt` (a sink, and the limit of
//! texts), `totals.rt` (what a pool has to report, as a plain program), `trial.rt` (a pool that is tried, with its producers),
//! `reports.rt` (what is wanted of replies and reports) and `rows.rt` (pools by rows). Then `worker_tests.rt` (a worker alone),
//! `wait_tests.rt` (how it waits), `producer_tests.rt`, `pool_tests.rt` and `shutdown_tests.rt`; `gates.rt` (a gate that holds a
//! worker), `gate_tests.rt` and `order_tests.rt` (which turn comes before which, and what a worker flushes of its own); `meeting_tests.rt` (sinks that wait for each
//! other), `thread_tests.rt` (producers on threads of their own), `memory_tests.rt` (want of memory) and `reserved_tests.rt` (that
//! posting takes none); last `load_tests.rt` (loads of small configurations) and `error_tests.rt` (what errors say, those of servers too). A test that calls a function over any host is dear,
//! whatever it does: so what differs by numbers and texts alone stands in rows.
#![tactic(auto)]

#[cfg(test)]
mod error_tests;
#[cfg(test)]
mod gate_tests;
#[cfg(test)]
mod gates;
#[cfg(test)]
mod load_tests;
#[cfg(test)]
mod meeting_tests;
#[cfg(test)]
mod memory_tests;
#[cfg(test)]
mod order_tests;
#[cfg(test)]
mod pool_tests;
#[cfg(test)]
mod producer_tests;
#[cfg(test)]
mod reports;
#[cfg(test)]
mod reserved_tests;
#[cfg(test)]
mod rows;
#[cfg(test)]
mod shutdown_tests;
#[cfg(test)]
mod sinks;
#[cfg(test)]
mod thread_tests;
mod totals;
#[cfg(test)]
mod trial;
#[cfg(test)]
mod wait_tests;
#[cfg(test)]
mod worker_tests;

pub use totals::totals_of;
