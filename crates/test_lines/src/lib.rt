//! Tests of messages, patterns and lines over the public surface of `alog_msg`, `alog_pattern` and `alog_format`.
//!
//! They are here, and not in those crates, since a crate with tests is proved twice. Read `msg_tests.rt`, `block_tests.rt`,
//! `pattern_tests.rt`, `buffer_tests.rt`, `format_tests.rt`, `formatter_tests.rt`, `naming_tests.rt` and `zone_tests.rt`, then `spaces.rt` (padding as a plain program) and `padding_tests.rt` (it beside the lines that are made).
#![tactic(auto)]

#[cfg(test)]
mod block_tests;
#[cfg(test)]
mod buffer_tests;
#[cfg(test)]
mod format_tests;
#[cfg(test)]
mod formatter_tests;
#[cfg(test)]
mod msg_tests;
#[cfg(test)]
mod naming_tests;
#[cfg(test)]
mod padding_tests;
#[cfg(test)]
mod pattern_tests;
mod spaces;
#[cfg(test)]
mod zone_tests;

pub use spaces::spaces_round;
