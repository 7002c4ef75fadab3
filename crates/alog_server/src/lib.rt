//! What a server logs with: a pool of a configuration, and for each of its threads a client that finds loggers by name.
//!
//! `start` reads a configuration, opens the files of a folder and starts a pool. `Server::run` gives each of so many threads a
//! `Client`, lets it do its `Work`, and ends the pool when all threads are done: no producer can be lost, and whatever happens on the
//! way, no worker is left waiting. What a file's buffer holds then is written when the answer is dropped, and the folder is let go
//! behind it. A program that does so needs no clause and no proof.
//!
//! ```text
//! let server = alog_server::start(&rt, alloc, &document, "logs")?;
//! let ran = server.run(&rt, 4, &Requests)?;
//! ```
//! `example_server` is the whole program.
//!
//! A `Home` is a pool as a type: clients and loggers name it, so that a logger of one pool cannot be used with another.
//! `Server::run` picks it (`specs/Homes.antt`). A client's calls are those of `alog_pool::Producer` (`specs/Says.antt`).
//!
//! Read `home.rt`, `logger.rt`, `client.rt`, `calls.rt` and `levels.rt` (what a thread logs with), `work.rt`, `seats.rt` (the
//! clients of all threads), `sink_end.rt` (what is told of each sink) and `server.rt`; then `opening.rt` over `writable.rt` (what
//! keeps files from being written to a folder), `setup.rt`, `producers.rt` and `folders.rt`, and `error.rt`.
#![tactic(auto)]

mod calls;
mod client;
mod error;
mod folders;
mod home;
mod levels;
mod logger;
mod opening;
mod producers;
mod seats;
mod server;
mod setup;
mod sink_end;
mod work;
mod writable;

pub use alog_patient::Patience;
pub use client::Client;
pub use error::{LogError, RunError, StartError};
pub use folders::{Folders, folder_stores, patience_of};
pub use home::Home;
pub use logger::Logger;
pub use opening::start;
pub use producers::make;
pub use server::{Ran, Server};
pub use setup::setup_of;
pub use sink_end::SinkEnd;
pub use work::Work;
pub use writable::{Hold, hold_folder};

/// The most threads of a server.
pub const THREADS_MAX: usize = 4_096;
