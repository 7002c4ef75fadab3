//! Tests of handles and the calls on them, over the public surface of `alog_ffi`.
//!
//! They are here, and not in that crate, since a crate with tests is proved twice. Read `trial.rt` (handles, and each call on them with what it tells
//! beside its answer), `records.rt` (what is handed out of what is to be done to files) and `rows.rt` (rows of calls with their answers). Then
//! `run_tests.rt` (a whole run without rows), `handle_tests.rt` (handles that hold nothing or something else), `text_tests.rt` (names, levels, texts
//! and sources), `open_tests.rt` (which files a document's sinks have, how a pool is opened, what it makes, and when it ends), `limit_tests.rt` (levels,
//! areas and too many parts), `post_tests.rt` (what becomes of messages), `memory_tests.rt` (want of memory) and `large_tests.rt` (many messages, line
//! for line).
//!
//! Nothing here meets a lock that another thread has, an item that another call is just posting, or a desk at which another thread is: the store of a
//! pool with handles never waits, so one thread can not hold another one there.
#![tactic(auto)]

#[cfg(test)]
mod handle_tests;
#[cfg(test)]
mod large_tests;
#[cfg(test)]
mod limit_tests;
#[cfg(test)]
mod memory_tests;
#[cfg(test)]
mod open_tests;
#[cfg(test)]
mod post_tests;
#[cfg(test)]
mod records;
#[cfg(test)]
mod rows;
#[cfg(test)]
mod run_tests;
#[cfg(test)]
mod text_tests;
#[cfg(test)]
mod trial;
