//! Tests of servers over the public surface of `alog_server`: runs of threads, works that end early, and starts that are refused.
//!
//! Files and the small configuration are of `test_runs`. Read `works.rt` (what a caller is told of its works), `asks.rt` (what a server is
//! asked, and what it tells), `answers.rt` (whether that is what it is to tell), `places.rt` (folders, and what is none), and
//! `server_tests.rt`, whose tests loop over rows of these; `time_tests.rt` has the times of messages, and `level_tests.rt`, over `leveling.rt`,
//! the levels of loggers.
#![tactic(auto)]

#[cfg(test)]
mod answers;
#[cfg(test)]
mod asks;
#[cfg(test)]
mod level_tests;
#[cfg(test)]
mod leveling;
#[cfg(test)]
mod places;
#[cfg(test)]
mod server_tests;
#[cfg(test)]
mod time_tests;
mod works;

pub use works::{Late, told_of_works};
