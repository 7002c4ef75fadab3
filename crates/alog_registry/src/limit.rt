//! What the items of a queue keep to.
ghost use Rattle.alog_registry.specs.Limit.{KeepsTo, HoldsTo};

use alog_msg::{Block, Item};
use alog_ring::Limit;

/// The texts in a ring of items or of blocks have at most so many bytes, and each block has this limit. The test
/// `a_ring_of_short_texts` shows one.
#[derive(Clone, Copy, Debug, PartialEq, Eq, Drop)]
pub struct TextLimit {
    /// 64 to 8,192.
    pub most: usize,
}

impl Limit<Item> for TextLimit {
    ghost admits = { λ limit x. KeepsTo limit.most x };
}

impl Limit<Block> for TextLimit {
    ghost admits = { HoldsTo };
}
