//! Tests of daily sinks over the public surface of `alog_sink`.
//!
//! They are here, and not in `alog_sink`, since a crate with tests is proved twice. Read `sinks.rt` and `stores.rt` (what the tests share)
//! and `daily_tests.rt` (which file each line goes to, which files are kept), `fault_tests.rt` (stores that fail), `zone_tests.rt`
//! (days by rules), then `period.rt` and `daily_plain_tests.rt` (the definition as a plain program, beside what a daily
//! sink does).
#![tactic(auto)]

#[cfg(test)]
mod daily_plain_tests;
#[cfg(test)]
mod daily_tests;
#[cfg(test)]
mod fault_tests;
mod period;
#[cfg(test)]
mod sinks;
#[cfg(test)]
mod stores;
#[cfg(test)]
mod zone_tests;

pub use period::{Moment, period_of};
