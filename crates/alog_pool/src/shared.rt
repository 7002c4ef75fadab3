//! What all threads of a pool share.
use alog_msg::{Block, Item};
use alog_policy::LossBook;
use alog_registry::{Contents, Loggers, TextLimit};
use alog_ring::{SwapPass, SwapRing};

/// The queue of a pool: items in blocks, which are made once and used again.
pub type Queue = SwapRing<Block, Item, Contents, TextLimit>;

/// A pass of it.
pub type QueuePass = SwapPass<Block, Item>;

/// What all threads of a pool share. No lock is round it.
#[derive(Drop)]
pub struct Shared {
    pub ring: Queue,
    pub book: LossBook,
    pub loggers: Loggers,
    /// The ticket from which on its worker tells gaps, where it does.
    pub gaps: Option<u64>,
}
