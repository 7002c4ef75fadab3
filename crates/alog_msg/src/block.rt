ghost use Rattle.std.specs.Prelude.{◌≡◌, ◌≤◌, ◌<◌, ◌↔◌, IfOk, IsErrOf, OnErr, OnOk, length};

use crate::item::Item;
use crate::level::Level;
use crate::limits::{TEXT_LIMIT_MAX, TEXT_LIMIT_MIN};
use crate::message::Message;
use crate::source::{SourceRef, has_long_field};
use crate::spare::{Spare, small_room, small_rooms};
use std::alloc::{AllocError, Global};
use std::marker::Model;
use std::mem::{self, size_of};
use thiserror::Error;

/// Why nothing was written to a block. The tests `blocks_at_their_limit` and `sources_of_a_block_at_their_limits` show it.
#[derive(Clone, Copy, Debug, PartialEq, Eq, Error)]
pub enum WriteError {
    /// The text has more bytes than the block's text limit.
    #[error("the text is longer than the text limit, which may be 64 to 8,192 bytes")]
    TextTooLong,
    /// The source's file has more than 256 bytes, or its function more than 128.
    #[error("the file has more than 256 bytes or the function more than 128")]
    FieldTooLong,
}

/// An item that is written again and again, and takes memory only when it is made.
///
/// Contracts see it as its text limit and its item. A text of at most `SHORT_TEXT_MAX` bytes lies in the block itself; room for
/// longer ones, up to the limit, and for a source was taken beside it.
///
/// ```text
/// let mut block = Block::new(alloc, 2_048)?;
/// block.write(7, Level::Error, -5, 9, "no route", None)?;
/// assert!(rt; matches!(block.item(), Item::Text(message) if message.text.as_str() == "no route"));
/// block.write_flush(7);
/// assert!(rt; matches!(block.item(), Item::Flush(7)));
/// ```
/// The test `items_of_a_block` runs it.
#[derive(Debug, Drop)]
pub struct Block {
    item: Item,
    spare: Box<Spare>,
}

// So a place of a queue of blocks is as long as two lines of the cache.
const _: () = prove!(size_of::<Block>() == 128);

impl Model for Block {
    ghost use Rattle.alog_msg.specs.Block.{BlockFields, IsReady};

    ghost Value = { BlockFields };

    ghost view = { λ b. record { limit = b.spare.value.limit; item = b.item } };

    ghost invariant = { λ b. IsReady b.item b.spare.value };
}

impl Block {
    ghost use Rattle.std.specs.List.{AllByRecursion};
    ghost use Rattle.alog_msg.specs.Block.{IsSmallRoom};
    ghost use Rattle.alog_msg.specs.Message.{source_of, HasLongField};

    /// Takes memory for a text, a file and a function at their limits. A text limit is 64 to 8,192 bytes. The item is `Stop`.
    pub fn new(alloc: Global, limit: usize) -> Result<Block, AllocError>
        requires { (TEXT_LIMIT_MIN ≤ limit) × (limit ≤ TEXT_LIMIT_MAX) }
        ensures { IfOk result (λ b. b ≡ record { limit = limit; item = Item.Stop }) }
    {
        let room = small_room(alloc, limit)?;
        Block::in_room(alloc, limit, room)
    }

    /// Makes so many blocks, each as `new` does, for a queue that goes through them in this order.
    ///
    /// Their rooms for texts of up to 256 bytes are taken before all else of them, one after another, so that who writes block
    /// after block finds them near each other.
    ///
    /// The test `blocks_made_together` shows it.
    pub fn many(alloc: Global, count: usize, limit: usize) -> Result<Vec<Block>, AllocError>
        requires { (TEXT_LIMIT_MIN ≤ limit) × (limit ≤ TEXT_LIMIT_MAX) }
        ensures each { IfOk result (λ v. AllByRecursion (λ b. b ≡ record { limit = limit; item = Item.Stop }) v.items) }
        ensures count { IfOk result (λ v. length v.items ≡ count) }
    {
        let mut blocks = Vec::with_capacity(alloc, count)?;
        for room in small_rooms(alloc, count, limit)? {
            blocks.push_reserved(Block::in_room(alloc, limit, room)?);
        }
        Ok(blocks)
    }

    /// A block with this small room.
    fn in_room(alloc: Global, limit: usize, room: Option<String>) -> Result<Block, AllocError>
        requires limit { (TEXT_LIMIT_MIN ≤ limit) × (limit ≤ TEXT_LIMIT_MAX) }
        requires room { IsSmallRoom limit room }
        ensures { IfOk result (λ b. b ≡ record { limit = limit; item = Item.Stop }) }
    {
        let spare = Spare::new(alloc, limit, room)?;
        Ok(Block {
            item: Item::Stop,
            spare: Box::new(alloc, spare)?,
        })
    }

    /// The most bytes of a text.
    pub fn limit(&self) -> usize
        ensures { result ≡ self.now.limit }
    {
        self.spare.limit
    }

    /// Lends what was written last.
    pub fn item(&self) -> &Item
        ensures { result.now ≡ self.now.item }
    {
        &self.item
    }

    /// Writes a message of copies of the text and the source. It takes no memory.
    ///
    /// The refusals are tested in the order of `WriteError`, and a refused write changes nothing.
    pub fn write(
        &mut self,
        logger: u32,
        level: Level,
        time: i64,
        thread: u64,
        text: &str,
        source: Option<SourceRef<'_>>,
    ) -> Result<(), WriteError>
        ensures written { OnOk result (self.new ≡ record {
          limit = self.old.limit;
          item = Item.Text (record {
            logger = logger;
            level = level;
            time = time;
            thread = thread;
            text = text.now;
            source = source_of source.entry;
          });
        }) }
        ensures text_too_long { IsErrOf result WriteError.TextTooLong ↔ (self.old.limit < length text.now) }
        ensures field_too_long { IsErrOf result WriteError.FieldTooLong ↔
            ((length text.now ≤ self.old.limit) × HasLongField source.entry) }
        ensures err { OnErr result (self.new ≡ self.old) }
    {
        if text.len() > TEXT_LIMIT_MIN && text.len() > self.spare.limit {
            return Err(WriteError::TextTooLong);
        }
        if has_long_field(source) {
            return Err(WriteError::FieldTooLong);
        }
        self.write_within(logger, level, time, thread, text, source);
        Ok(())
    }

    /// Writes what `write` writes, where text and source are known not to be too long. It takes no memory.
    ///
    /// It does not look at the limit, which lies beside the block.
    #[inline(always)]
    pub fn write_within(
        &mut self,
        logger: u32,
        level: Level,
        time: i64,
        thread: u64,
        text: &str,
        source: Option<SourceRef<'_>>,
    )
        requires text { length text.now ≤ self.old.limit }
        requires source { ¬ (HasLongField source) }
        ensures { self.new ≡ record {
          limit = self.old.limit;
          item = Item.Text (record {
            logger = logger;
            level = level;
            time = time;
            thread = thread;
            text = text.now;
            source = source_of source.entry;
          });
        } }
    {
        match &mut self.item {
            Item::Text(message) => {
                message.logger = logger;
                message.level = level;
                message.time = time;
                message.thread = thread;
                self.spare.write_text(&mut message.text, text);
                self.spare.write_source(&mut message.source, source);
            }
            Item::Flush(_) | Item::Stop => {
                self.item = Item::Text(Message {
                    logger,
                    level,
                    time,
                    thread,
                    text: self.spare.text(text),
                    source: self.spare.source(source),
                });
            }
        }
    }

    /// Writes that the sinks of the logger of this number are to be flushed. It takes no memory.
    pub fn write_flush(&mut self, logger: u32)
        ensures { self.new ≡ record { limit = self.old.limit; item = Item.Flush logger } }
    {
        self.write_stop();
        self.item = Item::Flush(logger);
    }

    /// Writes that the worker which takes it ends. It takes no memory.
    pub fn write_stop(&mut self)
        ensures { self.new ≡ record { limit = self.old.limit; item = Item.Stop } }
    {
        match mem::replace(&mut self.item, Item::Stop) {
            Item::Text(message) => self.spare.take_back(message),
            Item::Flush(_) | Item::Stop => {}
        }
    }
}
