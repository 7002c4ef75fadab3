//! What the tests of the program share: a run of it, and whether it ended as it was to end.
//!
//! `program.rt` has one run, `ports.rt` its reader and its writer, `course.rt` runs whose reader or writer is disturbed, and what is wanted of
//! them; `files.rt` the files and folders of a test.
//!
//! A function over any `Host` is dear to prove, since it carries what each part of one promises: so there are few, they are small and
//! answer a `bool`, and what a run holds is alive in them alone. The loops over rows are in the tests, whose runtime is known.
#![tactic(auto)]

mod course;
mod files;
mod ports;
mod program;

pub use course::{Course, Ran, UNWRITTEN, ends, ends_within, long};
pub use files::{Scratch, folder, lines_in, removed, written};
pub use ports::{Input, Output};
pub use program::{Host, SHORT, SMALL, run};
