//! Tests of loggers over the public surface of `alog_registry`.
//!
//! They are here, and not in `alog_registry`, since a crate with tests is proved twice. Read `registry_tests.rt` (loggers by name,
//! their levels and work), `backtrace_tests.rt` (what a backtrace keeps and dumps), `trial.rt` (what the others share), `log_tests.rt`
//! (logs, flushes and dumps on a lent desk), `refusal_tests.rt`, `port_tests.rt` (the same on a running ring), `block_port_tests.rt`
//! (on a ring of blocks), `wait_tests.rt` (with waiting), `thread_tests.rt` (a backtrace under a lock, by two threads),
//! `dump_tests.rt` (dumps of such a backtrace that never wait), `memory_tests.rt` (what a filtered text costs) and `error_tests.rt`
//! (what errors say, those of messages too).
#![tactic(auto)]

#[cfg(test)]
mod backtrace_tests;
#[cfg(test)]
mod block_port_tests;
#[cfg(test)]
mod dump_tests;
#[cfg(test)]
mod error_tests;
#[cfg(test)]
mod log_tests;
#[cfg(test)]
mod memory_tests;
#[cfg(test)]
mod port_tests;
#[cfg(test)]
mod refusal_tests;
#[cfg(test)]
mod registry_tests;
#[cfg(test)]
mod thread_tests;
#[cfg(test)]
mod trial;
#[cfg(test)]
mod wait_tests;
