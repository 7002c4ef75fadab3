ghost use Rattle.std.specs.Prelude.{◌≡◌, ◌↔◌, ◌<◌, ◌≤◌, IfOk, IsErr, IsErrOf, length};
ghost use Rattle.alog_msg.specs.declared.message.MessageError.TheVariants.{OutOfMemory};

use crate::level::Level;
use crate::limits::{TEXT_LIMIT_MAX, TEXT_LIMIT_MIN};
use crate::source::{Source, SourceRef, has_long_field};
use crate::text::Text;
use std::alloc::{AllocError, Global};
use thiserror::Error;

/// Why no message was made. The tests `text_at_its_limit` and `source_at_its_limits` show it.
#[derive(Clone, Copy, Debug, PartialEq, Eq, Error)]
pub enum MessageError {
    /// The text has more bytes than the text limit.
    #[error("the text is longer than the text limit, which may be 64 to 8,192 bytes")]
    TextTooLong,
    /// The source's file has more than 256 bytes, or its function more than 128.
    #[error("the file has more than 256 bytes or the function more than 128")]
    FieldTooLong,
    /// There was no memory for the copies of text, file and function.
    #[error("out of memory")]
    OutOfMemory,
}

impl From<AllocError> for MessageError {
    ghost from_gives = { λ _ e. e ≡ OutOfMemory };

    fn from(_error: AllocError) -> MessageError {
        MessageError::OutOfMemory
    }
}

/// One message: what was said, to which logger, how severe it is, when, and by which thread.
///
/// The test `message_with_its_fields` shows one.
#[derive(Debug, Drop)]
pub struct Message {
    /// The number of the logger.
    pub logger: u32,
    pub level: Level,
    /// Nanoseconds since the epoch, 1970-01-01 00:00:00 UTC.
    pub time: i64,
    /// The number of the thread.
    pub thread: u64,
    pub text: Text,
    pub source: Option<Source>,
}

impl Message {
    ghost use Rattle.alog_msg.specs.Message.{source_of, HasLongField, TakesMemory};

    /// Makes a message of copies of the text and the source. A text limit is 64 to 8,192 bytes.
    ///
    /// The refusals are tested in the order of `MessageError`. A message without a source whose text has at most
    /// `SHORT_TEXT_MAX` bytes takes no memory.
    ///
    /// ```text
    /// let source = SourceRef { file: "src/net.rt", line: 12, function: "connect" };
    /// let message = Message::new(alloc, 64, 7, Level::Error, -5, 9, "no route", Some(source))?;
    /// assert!(rt; message.text.as_str() == "no route");
    /// ```
    /// The test `message_with_its_fields` runs it.
    pub fn new(
        alloc: Global,
        text_limit: usize,
        logger: u32,
        level: Level,
        time: i64,
        thread: u64,
        text: &str,
        source: Option<SourceRef<'_>>,
    ) -> Result<Message, MessageError>
        requires { (TEXT_LIMIT_MIN ≤ text_limit) × (text_limit ≤ TEXT_LIMIT_MAX) }
        ensures made { IfOk result (λ m. m ≡ record {
          logger = logger;
          level = level;
          time = time;
          thread = thread;
          text = text.now;
          source = source_of source.entry;
        }) }
        ensures text_too_long { IsErrOf result MessageError.TextTooLong ↔ (text_limit < length text.now) }
        ensures field_too_long { IsErrOf result MessageError.FieldTooLong ↔
            ((length text.now ≤ text_limit) × HasLongField source.entry) }
        ensures out_of_memory { IsErrOf result MessageError.OutOfMemory → TakesMemory text.now source.entry }
    {
        if text.len() > text_limit {
            return Err(MessageError::TextTooLong);
        }
        if has_long_field(source) {
            return Err(MessageError::FieldTooLong);
        }
        let source = match source {
            Some(source) => Some(Source::copy_of(alloc, source)?),
            None => None,
        };
        Ok(Message {
            logger,
            level,
            time,
            thread,
            text: Text::copy_of(alloc, text)?,
            source,
        })
    }

    /// Copies the message: for a backtrace, which keeps what is posted besides. It takes memory where `new` does.
    ///
    /// The test `copy_of_a_message` shows it.
    pub fn copy(&self, alloc: Global) -> Result<Message, AllocError>
        ensures copy { IfOk result (λ m. m ≡ self.now) }
        ensures short { IsErr result → TakesMemory self.now.text self.now.source }
    {
        let source = match &self.source {
            Some(source) => Some(Source::copy_of(alloc, source.lend())?),
            None => None,
        };
        Ok(Message {
            logger: self.logger,
            level: self.level,
            time: self.time,
            thread: self.thread,
            text: Text::copy_of(alloc, self.text.as_str())?,
            source,
        })
    }
}
