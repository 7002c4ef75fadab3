//! Loggers by name: their levels and policies, and what a logger keeps for a backtrace.
//!
//! A `Registry` is a list of loggers, each with a name and a `Spec`, and of their levels. `freeze` makes `Loggers` of it,
//! which threads share: the list stays as it is, and each level is one word that anybody may set.
//!
//! A `Backtrace` keeps the last messages that it is given, until they are dumped; under the lock of a lane it takes turns.
//! Which turns on sinks a worker makes for an item that it took is told by the `Spec` of the item's logger.
//!
//! Read `logger.rt` (a logger and its `Spec`), `registry.rt` and `loggers.rt` with `specs/Listed.antt` (numbers and names);
//! `backtrace.rt` and `dumped.rt` with `specs/Backtrace.antt`, `turn.rt` with `specs/Turn.antt`; `work.rt` with
//! `specs/Work.antt`. Then what is done with a message: `given.rt` with `specs/Given.antt`, `item_outlet.rt` with
//! `specs/ItemOutlet.antt` (how a post's value is made), `block_port.rt` (the same of blocks, without memory), `keep.rt` with
//! `specs/Keep.antt` and `LaneKeeper.antt` (who keeps messages), `logging.rt` with `specs/Logging.antt`, `dumping.rt` with
//! `specs/Dumping.antt`, `waiting.rt`, which does both with waiting, and `dump_once.rt`, which dumps by one try at the lock.
//! Below them are `lookup.rt` (a number by a name) and `level_word.rt`.
#![tactic(auto)]

mod backtrace;
mod block_port;
mod dump_once;
mod dumped;
mod dumping;
mod error;
mod given;
mod item_outlet;
mod keep;
mod level_word;
mod limit;
mod logger;
mod loggers;
mod logging;
mod lookup;
mod registry;
mod turn;
mod waiting;
mod work;

pub use backtrace::{Backtrace, BacktraceError};
pub use block_port::{BlockPort, Contents, InHand};
pub use dumped::Dumped;
pub use error::{AddError, DumpError, RefusedSpec};
pub use given::MessageRef;
pub use item_outlet::{ItemOutlet, WaitingItemOutlet};
pub use keep::{Keep, LaneKeeper};
pub use limit::TextLimit;
pub use logger::{Logger, Spec};
pub use loggers::Loggers;
pub use logging::LogReply;
pub use registry::Registry;
pub use turn::{BacktraceItem, BacktraceReply, BacktraceScratch};
pub use work::{SinkDeed, SinkTurn};

/// There are no more loggers than this.
pub const LOGGERS_MAX: usize = 256;

/// No backtrace keeps more messages than this.
pub const KEPT_MAX: usize = 4_096;
