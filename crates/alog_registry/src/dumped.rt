//! What a dump of a backtrace took: messages, oldest first.
ghost use Rattle.std.specs.Prelude.{◌≡◌, ◌==◌, ◌^◌, ◌<◌, ◌≤◌, length, slice_get, drop, IfOk};
ghost use Rattle.alog_registry.specs.Backtrace.{room_for};
ghost use Rattle.alog_registry.specs.Limit.{IsNoLonger};

use alog_msg::Message;
use circular_buffer::HeapCircularBuffer;
use std::alloc::{AllocError, Global};
use std::marker::Model;

/// A list of messages with room for so many, from which they are taken one by one. A dump fills an empty one. The test
/// `dumps_the_last_two` shows it.
#[derive(Drop)]
pub struct Dumped {
    pub(crate) messages: HeapCircularBuffer<Message>,
    // The most bytes of a text.
    pub(crate) text_limit: usize,
}

impl Model for Dumped {
    ghost use Rattle.alog_registry.specs.Backtrace.{Room, AreShort};

    ghost Value = { Room };

    ghost view = { λ d. record { messages = d.messages.items; most = d.messages.capacity; limit = d.text_limit } };

    ghost invariant = { λ d. AreShort d.text_limit d.messages.items };
}

impl Dumped {
    /// An empty list with room for so many messages, with texts of at most so many bytes. All memory that it takes is taken
    /// here.
    pub fn new(alloc: Global, most: usize, text_limit: usize) -> Result<Dumped, AllocError>
        ensures { IfOk result (λ d. d ≡ room_for most text_limit) }
    {
        Ok(Dumped {
            messages: HeapCircularBuffer::with_capacity(alloc, most)?,
            text_limit,
        })
    }

    /// How many messages are left.
    pub fn len(&self) -> usize
        ensures len { result ≡ length self.now.messages }
        ensures within { result ≤ self.now.most }
    {
        self.messages.len()
    }

    /// The most messages that there is room for.
    pub fn most(&self) -> usize
        ensures most { result ≡ self.now.most }
        ensures within { result < 2 ^ 63 }
    {
        self.messages.capacity()
    }

    /// Whether none is left.
    pub fn is_empty(&self) -> bool
        ensures { result ≡ (length self.now.messages == 0) }
    {
        self.messages.is_empty()
    }

    /// Takes the oldest message that is left.
    pub fn take_oldest(&mut self) -> Option<Message>
        ensures oldest { result ≡ slice_get self.old.messages 0 }
        ensures short { IsNoLonger self.old.limit result }
        ensures rest { self.new ≡ record { messages = drop 1 self.old.messages; most = self.old.most; limit = self.old.limit } }
    {
        self.messages.pop_front()
    }
}
