//! A store that tries again.
//!
//! A sink is broken for ever by the first call of its store that fails, as where a disk is full for a minute. A `PatientStore` over that
//! store tries a failed call again, after pauses, for ever or so many times. What it leaves is what a `Store` leaves, whose law it meets:
//! each byte of an append is appended once, however often it is tried, and a call that was done in the end is no failure.
//!
//! Read `patience.rt`, `specs/Tried.antt`, `patient_store.rt`, then `row.rt` (the pauses, and the lines on standard error).
//! `resume.rt` of `alog_sink` has what the store below has to tell. `patient_tests.rt` of `test_stores` has examples.
#![tactic(auto)]

mod patience;
mod patient_store;
mod row;

pub use patience::Patience;
pub use patient_store::PatientStore;
