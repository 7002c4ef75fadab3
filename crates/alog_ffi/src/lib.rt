//! What programs in other languages hold of alog, and what their calls do: handles over the parts of an owned pool, and calls on handles, which answer
//! numbers. `alog_c` exports them, one by one.
//!
//! A handle is a struct of C's with a number and a pointer, `AlogHandle`. A call takes out what its handle holds, does what it is to do, and puts it
//! back, so that a handle is empty while a call has it, and for good when its part was given back or its pool was ended. No call has a condition: each
//! tests what it is given, and answers why it did nothing. No call waits, starts a thread or sleeps, or calls the system: what is to be done to files is
//! handed out by `take`.
//!
//! Read `answer.rt` with `specs/Answers.antt`; `part.rt`, `handle.rt`, `holding.rt` and `slot.rt` with `specs/Held.antt`; `said.rt`, `hearing.rt`, `logging.rt`; `found_list.rt`, `opening.rt`, `naming.rt` and `places.rt`; and the
//! calls with `specs/Calls.antt`: `pools.rt`, `producers.rt`, `workers.rt`, `watching.rt`, `files.rt`, `giving.rt`, and `report.rt`.
#![tactic(auto)]

mod answer;
mod files;
mod found_list;
mod giving;
mod handle;
mod hearing;
mod holding;
mod logging;
mod naming;
mod opening;
mod part;
mod places;
mod pools;
mod producers;
mod report;
mod said;
mod slot;
mod watching;
mod workers;

pub use answer::Answer;
pub use files::{close, found, take};
pub use found_list::FoundList;
pub use giving::give;
pub use handle::AlogHandle;
pub use hearing::level_of;
pub use naming::file_names;
pub use opening::Asked;
pub use part::Part;
pub use places::queue_places;
pub use pools::{open, producer, shutdown, worker};
pub use producers::{dump, find, flush, is_on, log, set_level};
pub use report::AlogReport;
pub use said::{Heard, Said, Source};
pub use slot::Slot;
pub use watching::faults;
pub use workers::work;
