//! Tests of the program over the public surface of `alog_program`: what no run of the built program shows.
//!
//! What the program says on which words and which input, the sessions of `sessions/` and the rows of `rows/` show, on the program that
//! was built. Here are readers that are interrupted or fail, writers that fail at each byte, want of memory, words that the system cannot give,
//! and the line of progress by a clock of the test's own. A run is made by `test_runs`. Read `disturbed_tests.rt` (scripts with a
//! configuration), `script_tests.rt` (scripts alone), `pipe_tests.rt`, `aside_tests.rt` (reads by a thread),
//! `writer_tests.rt` (the other commands), `word_tests.rt` and `progress_tests.rt`.
#![tactic(auto)]

#[cfg(test)]
mod aside_tests;
#[cfg(test)]
mod disturbed_tests;
#[cfg(test)]
mod pipe_tests;
#[cfg(test)]
mod progress_tests;
#[cfg(test)]
mod script_tests;
#[cfg(test)]
mod word_tests;
#[cfg(test)]
mod writer_tests;
