//! A pool whose host brings the threads: it starts none, waits for none and never sleeps, so it can stand in a library that a server written in
//! another language links.
//!
//! `Host::open` makes a `Hosted`, what all threads share, and a `Host`, what its owner keeps. The owner makes a `HostedProducer` for each thread that
//! logs and a `HostedWorker` for each that writes; each of their calls is lent the `Hosted`, makes one try where a pool of threads would wait, and
//! says so. `Host::disband` takes all back and ends the pool. What is shared is lent and has no owner beside the host, so that with all parts back the
//! queue, the loss book and the lanes of the sinks are closed by value: that the end comes is proved, and of `Pool::shutdown` it is not.
//!
//! Posts, histories, turns that are due and made, and what a report tells are defined as in `alog_pool`. A producer's log is `LogsOnce` (`specs/Once.antt`),
//! a log of `Loggers` that never waits, or a round of a push that had no room. A worker's turns, and behind them those that it owes, are those that are
//! due for what it took (`specs/Workers.antt`, `Owed.antt`). The end is `Disbands` (`specs/Ends.antt`): one legal history, made by those who came back;
//! what it leaves the pool hands out itself; each sink has the turns of all workers, and of the pool what was owed and what was left.
//!
//! Read `hosted.rt`, `once.rt`; then `producer.rt`, `backtrace_place.rt`, `log_once.rt`; then `worker.rt`, `owed.rt`, `turns.rt`, `sink_place.rt`; then
//! `host.rt`, `outfit.rt`, `blank.rt`, `error.rt`, `disband.rt`. The tests are in `test_hosted`.
#![tactic(auto)]

mod backtrace_place;
mod blank;
mod disband;
mod error;
mod host;
mod hosted;
pub mod laws;
mod log_once;
mod once;
mod outfit;
mod owed;
mod producer;
mod sink_place;
mod turns;
mod worker;

pub use error::{PartsOut, WorkerError};
pub use host::Host;
pub use hosted::Hosted;
pub use once::Once;
pub use producer::HostedProducer;
pub use worker::{HostedWorker, Pause, Work};
