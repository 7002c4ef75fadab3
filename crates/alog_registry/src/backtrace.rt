//! A backtrace: the last messages that were kept.
ghost use Rattle.std.specs.Prelude.{◌≡◌, ◌==◌, ◌↔◌, ◌<◌, ◌≤◌, [], ◌∷◌, ◌++◌, List, length, IfOk, IsErrOf};
ghost use Rattle.alog_registry.specs.Backtrace.{room_for, kept_with, Keeps};
ghost use Rattle.alog_msg.specs.declared.limits.TheConstants.{TEXT_LIMIT_MIN, TEXT_LIMIT_MAX};
ghost use Rattle.alog_msg.specs.declared.message.Message.{Message};
ghost use Rattle.alog_registry.specs.Limit.{IsShort};

use crate::KEPT_MAX;
use crate::dumped::Dumped;
use alog_msg::{Message, TEXT_LIMIT_MAX};
use circular_buffer::HeapCircularBuffer;
use std::alloc::{AllocError, Global};
use std::marker::Model;
use std::mem;
use thiserror::Error;

/// Why no backtrace was made. The test `limits_of_a_backtrace` shows it.
#[derive(Clone, Copy, Debug, PartialEq, Eq, Drop, Error)]
pub enum BacktraceError {
    /// It was to keep more than 4,096 messages.
    #[error("a backtrace keeps at most 4096 messages")]
    BadLimit,
    /// There was no memory for the messages.
    #[error("out of memory")]
    OutOfMemory,
}

impl From<AllocError> for BacktraceError {
    ghost use Rattle.std.specs.Prelude.{◌≡◌};
    ghost use Rattle.alog_registry.specs.declared.backtrace.BacktraceError.TheVariants.{OutOfMemory};

    ghost from_gives = { λ _ e. e ≡ OutOfMemory };

    fn from(_error: AllocError) -> BacktraceError {
        BacktraceError::OutOfMemory
    }
}

/// The last messages that were kept since the start or the last dump, at most so many. The test `dumps_the_last_two` shows
/// it.
#[derive(Drop)]
pub struct Backtrace {
    messages: HeapCircularBuffer<Message>,
    // The most bytes of a text.
    text_limit: usize,
}

impl Model for Backtrace {
    ghost use Rattle.std.specs.Prelude.{◌≤◌, length};
    ghost use Rattle.alog_registry.specs.declared.TheConstants.{KEPT_MAX};
    ghost use Rattle.alog_msg.specs.declared.limits.TheConstants.{TEXT_LIMIT_MIN, TEXT_LIMIT_MAX};
    ghost use Rattle.alog_registry.specs.Backtrace.{Room, AreShort};

    ghost Value = { Room };

    ghost view = { λ b. record { messages = b.messages.items; most = b.messages.capacity; limit = b.text_limit } };

    ghost invariant = { λ b. (b.messages.capacity ≤ KEPT_MAX) × AreShort b.text_limit b.messages.items
        × (TEXT_LIMIT_MIN ≤ b.text_limit) × (b.text_limit ≤ TEXT_LIMIT_MAX) };
}

impl Backtrace {
    /// A backtrace that keeps the last so many messages, 0 to 4,096, with texts of at most 8,192 bytes. All memory that it
    /// takes is taken here. The test `limits_of_a_backtrace` shows it.
    pub fn new(alloc: Global, most: usize) -> Result<Backtrace, BacktraceError>
        ensures made { IfOk result (λ b. b ≡ room_for most TEXT_LIMIT_MAX) }
        ensures bad_limit { IsErrOf result BacktraceError.BadLimit ↔ (KEPT_MAX < most) }
    {
        Backtrace::limited(alloc, most, TEXT_LIMIT_MAX)
    }

    /// The same, with another text limit, 64 to 8,192 bytes.
    pub fn limited(
        alloc: Global,
        most: usize,
        text_limit: usize,
    ) -> Result<Backtrace, BacktraceError>
        requires { (TEXT_LIMIT_MIN ≤ text_limit) × (text_limit ≤ TEXT_LIMIT_MAX) }
        ensures made { IfOk result (λ b. b ≡ room_for most text_limit) }
        ensures bad_limit { IsErrOf result BacktraceError.BadLimit ↔ (KEPT_MAX < most) }
    {
        if most > KEPT_MAX {
            return Err(BacktraceError::BadLimit);
        }
        Ok(Backtrace {
            messages: HeapCircularBuffer::with_capacity(alloc, most)?,
            text_limit,
        })
    }

    /// Keeps a message. Where as many are kept as may be, the oldest is dropped; where none may be kept, this one is.
    ///
    /// `since` says it of all messages that were kept since the start or the last dump.
    pub fn keep(&mut self, message: Message)
        requires { IsShort self.old.limit message }
        ensures kept { self.new ≡ kept_with self.old message }
        ensures since { (ms : List Message) → Keeps self.old ms → Keeps self.new (ms ++ message ∷ []) }
    {
        self.messages.push_back(message);
    }

    /// How many messages are kept.
    pub fn len(&self) -> usize
        ensures len { result ≡ length self.now.messages }
        ensures within { (result ≤ self.now.most) × (self.now.most ≤ KEPT_MAX) }
    {
        self.messages.len()
    }

    /// Whether none is kept.
    pub fn is_empty(&self) -> bool
        ensures { result ≡ (length self.now.messages == 0) }
    {
        self.messages.is_empty()
    }

    /// The most bytes of a text that it keeps.
    pub fn text_limit(&self) -> usize
        ensures limit { result ≡ self.now.limit }
        ensures within { (TEXT_LIMIT_MIN ≤ result) × (result ≤ TEXT_LIMIT_MAX) }
    {
        self.text_limit
    }

    /// The most messages that it keeps.
    pub fn most(&self) -> usize
        ensures most { result ≡ self.now.most }
        ensures within { result ≤ KEPT_MAX }
    {
        self.messages.capacity()
    }

    /// Gives what was kept, oldest first, and keeps nothing then. It takes no memory: the room that the empty list brings
    /// takes the place of the one that it gives.
    pub fn dump(&mut self, list: Dumped) -> Dumped
        requires { list ≡ room_for self.old.most self.old.limit }
        ensures dumped { result ≡ self.old }
        ensures emptied { self.new ≡ room_for self.old.most self.old.limit }
        ensures since { Keeps self.new [] }
    {
        let Dumped {
            messages,
            text_limit,
        } = list;
        Dumped {
            messages: mem::replace(&mut self.messages, messages),
            text_limit,
        }
    }
}
