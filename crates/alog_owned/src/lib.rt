//! A pool whose host brings the threads, as that of `alog_hosted`, and whose producers and workers own their share of it: no call is lent a pool, and
//! no caller has anything to prove but that its setup fits, which `setup_of` says.
//!
//! `OwnedPool::open` opens it, for up to so many producers; each producer and each worker may go to a thread, and comes back to the pool from there by
//! `give_back`. `OwnedPool::end` ends the pool when all have come back. What comes back lies on a desk, a queue of the kit that stands in the same `Arc`
//! as what the pool lends: by its rule all on it is of one pool, so that no call has to be told so.
//!
//! Read `producer.rt`, `worker.rt`, `pool.rt`, with `specs/Owned.antt`; then `back.rt`, `common.rt` and `desk.rt`, with `specs/Desk.antt`. The tests are in
//! `test_owned`.
#![tactic(auto)]

mod back;
mod common;
mod desk;
mod error;
mod pool;
mod producer;
mod worker;

pub use error::{LogError, OwnedDumpError};
pub use pool::OwnedPool;
pub use producer::OwnedProducer;
pub use worker::OwnedWorker;
