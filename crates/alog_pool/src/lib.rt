//! A pool: workers on threads of their own pop items with waiting, and make the turns that each item asks for; request threads
//! log with a producer. The queue is a swap ring of blocks, which are made at the start and with each producer and go round from
//! then on: a post swaps its block for the one in its place, and a pop brings the block of the item before.
//!
//! A `Worker` is what one worker works with: a pass of the ring, a block, a place at each sink under its lock, a line buffer. `Worker::work`
//! handles items until the first stop, or until no ticket is left, and says in terms of the pass's own entries what was taken
//! (`specs/Working.antt`, over `specs/Accounts.antt`): nothing was put in, the recorded tickets are the first ones of its texts
//! and flushes, their number is counted, and it ended at its first stop or at the end of tickets. At each place the seat's own
//! turns are those that the definition of the work gives for the items that were taken, and for what it tells of gaps, in their order
//! and by their tags, and beside them flushes of its own, under a tag that no item has; the place's faults count those that were
//! answered by one (`specs/Deeds.antt`); `SinkSeat` says of one turn what it is (`specs/SinkSeat.antt`). A worker that finds the queue
//! idle, or ends, flushes each sink to which its seat wrote a line, or may have, behind its last flush.
//!
//! A `Producer` has a pass of the ring, two blocks, a seat of the loss book and a place at the backtrace of each logger
//! (`BacktraceSeat`). Each of its calls is one of `Loggers` on what it lends (`specs/Producer.antt`, `BacktraceSeat.antt`). The law
//! `no_work_is_left` says that no text is left where workers have ended (`specs/Ending.antt`).
//!
//! `Pool::start` makes a `PoolParts`, which is all but the workers, and hires them one by one: each gets a part of the pool's pass and
//! a part of its place at each sink, and promises what `Worker::work` does (`Works`). `Pool::producer` gives parts away as well. What
//! is left of the parts is known by their numbers (`specs/Pool.antt`).
//!
//! `Pool::shutdown` takes all back: the producers' passes and seats, then it posts a stop for each worker and joins them, and then
//! it has all parts, so that it knows the whole history (`specs/Report.antt`; what is known on the way stands in
//! `specs/Ended.antt`). The law `workers_write_what_was_posted` says what a pool wrote (`specs/Workers.antt`), and
//! `one_worker_writes_in_order` what one of one worker did (`specs/OneWorker.antt`).
//!
//! Read `gate.rt`, `shared.rt`; then `worker.rt`, `sink_seat.rt`, `gaps.rt` (what a worker says of items that others took),
//! `item_wait.rt` (how it waits); then `producer.rt`, `backtrace_seat.rt`; then `setup.rt`, `pool_parts.rt`, `works.rt`, `pool.rt`;
//! then `stops.rt`, `alone.rt`, `report.rt`, `shutdown.rt`. The tests are in `test_pool`.
#![tactic(auto)]

mod alone;
mod backtrace_seat;
mod error;
mod gaps;
mod gate;
mod item_wait;
pub mod laws;
mod pool;
mod pool_parts;
mod producer;
mod report;
mod setup;
mod shared;
mod shutdown;
mod sink_seat;
mod stops;
mod worker;
mod works;

pub use error::{ProducerError, ProducersOut, StartError};
pub use gaps::{Gaps, gap_text};
pub use gate::{Gate, OpenGate};
pub use item_wait::{ItemWait, RestPace};
pub use pool::{PRODUCERS_MAX, Pool, WORKERS_MAX, queue_of, two_blocks};
pub use producer::Producer;
pub use report::{Report, Totals};
pub use setup::Setup;
pub use shared::{Queue, QueuePass, Shared};
pub use sink_seat::{SinkSeat, fault_in, is_fan, is_unflushed};
pub use worker::Worker;
