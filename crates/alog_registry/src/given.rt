//! What a logger is given to make a message of.
ghost use Rattle.std.specs.Prelude.{◌≡◌, ◌↔◌, ◌≤◌, ◌<◌, length, IfOk, IsErrOf};
ghost use Rattle.alog_msg.specs.declared.limits.TheConstants.{TEXT_LIMIT_MIN, TEXT_LIMIT_MAX};
ghost use Rattle.alog_registry.specs.Given.{message_of, IsWithin, IsTooLongField};

use alog_msg::{Level, Message, MessageError, SourceRef};
use std::alloc::Global;

/// The fields of a message that are lent, to make a message of.
#[derive(Clone, Copy, Debug)]
pub struct MessageRef<'a> {
    /// The number of the logger.
    pub logger: u32,
    pub level: Level,
    /// Nanoseconds since the epoch, 1970-01-01 00:00:00 UTC.
    pub time: i64,
    /// The number of the thread.
    pub thread: u64,
    pub text: &'a str,
    pub source: Option<SourceRef<'a>>,
}

/// Makes a message of copies. The refusals are those of `Message::new`.
pub(crate) fn message(
    alloc: Global,
    text_limit: usize,
    given: MessageRef<'_>,
) -> Result<Message, MessageError>
    requires { (TEXT_LIMIT_MIN ≤ text_limit) × (text_limit ≤ TEXT_LIMIT_MAX) }
    ensures made { IfOk result (λ m. m ≡ message_of given.entry) }
    ensures text_too_long { IsErrOf result MessageError.TextTooLong ↔ (text_limit < length given.entry.text.now) }
    ensures field_too_long { IsErrOf result MessageError.FieldTooLong ↔
        IsTooLongField text_limit given.entry.text.now given.entry.source }
    ensures out_of_memory { IsErrOf result MessageError.OutOfMemory → IsWithin text_limit given.entry.text.now given.entry.source }
{
    Message::new(
        alloc,
        text_limit,
        given.logger,
        given.level,
        given.time,
        given.thread,
        given.text,
        given.source,
    )
}
