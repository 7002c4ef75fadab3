//! Pipes: the lines of a reader, logged one by one.
//!
//! `pipe` builds what a configuration names (`alog_server::setup_of`), starts a pool of it with one worker, and makes one producer, with
//! which the thread of its caller logs each piece of each line (`alog_lines`) that the reader gives: at the time of the read that brought
//! its end, to one logger, at one level. The worker flushes what it wrote when it finds nothing to do. When the reader is at its end, or
//! failed, the pool is ended.
//!
//! Under `block` a piece waits for room. Under the other policies none does; a piece that is refused is counted, and as soon as there is
//! room, before the next one is posted, a line at level warning says how many are missing there. Meanwhile reads do not wait for ever
//! (`TimedRead`), and where nothing comes that line is tried again. What `overrun_oldest` takes out of the queue the worker tells, in
//! front of the next line that is there.
//!
//! `specs/Piped.antt` says what was logged of what the reader gave, `specs/Logged.antt` what becomes of each piece, `specs/Aside.antt`
//! what is known of a reader that a thread reads at times.
//!
//! Read `piping.rt`, `pump.rt`, `piece_log.rt`, `counts.rt`, `timed_read.rt`, `read_aside.rt`.
#![tactic(auto)]

mod counts;
mod piece_log;
mod piping;
mod pump;
mod read_aside;
mod timed_read;

pub use counts::Counts;
pub use piping::{Piped, pipe};
pub use read_aside::ReadAside;
pub use timed_read::TimedRead;
