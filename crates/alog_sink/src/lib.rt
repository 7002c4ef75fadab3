//! Sinks, which hold formatted lines, and the stores that they write to. The rules are those of spdlog's sinks.
//!
//! A `Store` is a folder of files by name; its law is on the calls of the trait. `MemStore` keeps its files in memory,
//! `FolderStore` in a folder of the file system; `FuseStore` passes calls on to another store and fails one of them. Each of
//! them `Resumes`: it tells how much of a failed append it took. A `Sink` is given messages: one that writes to files of a
//! store (`Leaf`), or a fan of such (`Fan`). It stores no list of messages; a relation says which opening files and which
//! messages it stands for, and each turn leads from one such pair to the next.
//!
//! Read `specs/Files.antt`, `specs/Calls.antt`, `store.rt` and `resume.rt` (stores), `mem_store.rt` over `sorted_files.rt`,
//! `folder_store.rt` and `fuse_store.rt`; then `specs/Lines.antt` and `face.rt` (lines), `specs/Kept.antt` and `target.rt`
//! (where they go: `one_file.rt`, `rotation.rt` with `specs/Rotation.antt`, and `daily_files.rt` with `specs/Daily.antt` and `specs/DailyFiles.antt`),
//! `specs/Turn.antt`, `leaf.rt` and `fan.rt`, `specs/Sinks.antt` and `sink.rt`, `open.rt` (constructors), `turn.rt` (a
//! sink under a lock). `names.rt` makes names of files; `laws.rt` states what is true of definitions.
//!
//! The tests `a_memory_sink` and `a_rotating_sink` of `test_sinks`, and `a_daily_sink` of `test_daily`, are examples.
//! Stores are tried in `test_stores`.
#![tactic(auto)]

mod daily_files;
mod face;
mod fan;
mod folder_store;
mod fuse_store;
pub mod laws;
mod leaf;
mod mem_store;
mod names;
mod one_file;
mod open;
mod resume;
mod rotation;
mod sink;
mod sorted_files;
mod store;
mod target;
mod turn;

pub use face::{Face, NameError, Names};
pub use fan::Fan;
pub use folder_store::FolderStore;
pub use fuse_store::{Fuse, FuseStore};
pub use leaf::{Leaf, SinkError, Taken};
pub use mem_store::MemStore;
pub use names::is_file_name;
pub use open::{NoFan, OpenError, Unopened};
pub use resume::{AppendError, Resumes};
pub use sink::Sink;
pub use store::{Store, StoreError};
pub use turn::Served;

/// A store counts so many failures, and may stop counting then.
pub const FAILURES_MAX: u64 = u64::MAX;

/// The most members of a fan.
pub const FAN_MAX: usize = 16;
