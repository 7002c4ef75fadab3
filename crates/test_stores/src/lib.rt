//! Tests of stores over the public surface of `alog_sink` and `alog_patient`: of files in memory, behind a fuse and in a folder, and of sinks
//! over a folder.
//!
//! They are here, and not in `alog_sink`, since a crate with tests is proved twice. Read `calls.rt` (calls of any store
//! with the answer wanted, and each call once), `memory_tests.rt` (files in memory, and behind a fuse, with `stores.rt`),
//! `folder.rt` (what the system has), `sessions.rt` (what is done in a folder, step by step), `left_tests.rt` (what is left
//! then), `folder_tests.rt` (files of a folder), `resuming_tests.rt` (how much of a failed append was taken), `patient.rt` and
//! `patient_tests.rt` (stores of `alog_patient`, which try again), then `hours.rt` and `folder_sink_tests.rt` (sinks over a
//! folder, beside those over memory).
#![tactic(auto)]

#[cfg(test)]
mod calls;
#[cfg(test)]
mod folder;
#[cfg(test)]
mod folder_sink_tests;
#[cfg(test)]
mod folder_tests;
mod hours;
#[cfg(test)]
mod left_tests;
#[cfg(test)]
mod memory_tests;
#[cfg(test)]
mod patient;
#[cfg(test)]
mod patient_tests;
#[cfg(test)]
mod resuming_tests;
#[cfg(test)]
mod sessions;
#[cfg(test)]
mod stores;

pub use hours::hour_of_line;
