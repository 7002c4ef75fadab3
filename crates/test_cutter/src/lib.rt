//! Tests of the cutter of lines over the public surface of `alog_lines`.
//!
//! They are here, and not there, since a crate with tests is proved twice. Read `pieces.rt` (what is written of the pieces that a reader
//! gives) and `readers.rt`, then `piece_tests.rt` (lines, lengths and what is no UTF-8) and `read_tests.rt` (bytes in chunks, and faults).
#![tactic(auto)]

#[cfg(test)]
mod piece_tests;
#[cfg(test)]
mod pieces;
#[cfg(test)]
mod read_tests;
#[cfg(test)]
mod readers;
