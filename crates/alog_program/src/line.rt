//! `alog format`: the line of a message, by a pattern.
ghost use Rattle.std.specs.Prelude.{◌≡◌, ◌↔◌, ◌<◌, ◌≤◌, IfOk, OnOk, IsErrOf, length};
ghost use Rattle.alog_program.specs.LineError.{number_of, status_of};
ghost use Rattle.alog_program.specs.Line.{message_of, Fits, IsLineOf, IsPatternTooLong, IsLineTooLong, IsTextTooLong, IsFieldTooLong};

use crate::request::LineRequest;
use alog_format::{LineBuf, format};
use alog_msg::{DEFAULT_TEXT_LIMIT, LOGGER_NAME_MAX, Message, MessageError};
use alog_pattern::{Pattern, PatternError};
use std::alloc::{AllocError, Global};
use thiserror::Error;

/// Why no line was made.
#[derive(Clone, Copy, Debug, PartialEq, Eq, Error)]
pub enum LineError {
    #[error("the pattern has more than 256 bytes")]
    PatternTooLong,
    #[error("a line of the pattern may have more than 65,536 bytes")]
    LineTooLong,
    #[error("the text has more than 2,048 bytes")]
    TextTooLong,
    #[error("the name has more than 64 bytes, the file more than 256 or the function more than 128")]
    FieldTooLong,
    #[error("out of memory")]
    OutOfMemory,
}

impl From<PatternError> for LineError {
    ghost use Rattle.std.specs.Prelude.{◌≡◌};
    ghost use Rattle.alog_program.specs.LineError.{of_pattern};

    ghost from_gives = { λ p e. e ≡ of_pattern p };

    fn from(error: PatternError) -> LineError {
        match error {
            PatternError::PatternTooLong => LineError::PatternTooLong,
            PatternError::LineTooLong => LineError::LineTooLong,
            PatternError::OutOfMemory => LineError::OutOfMemory,
        }
    }
}

impl From<MessageError> for LineError {
    ghost use Rattle.std.specs.Prelude.{◌≡◌};
    ghost use Rattle.alog_program.specs.LineError.{of_message};

    ghost from_gives = { λ m e. e ≡ of_message m };

    fn from(error: MessageError) -> LineError {
        match error {
            MessageError::TextTooLong => LineError::TextTooLong,
            MessageError::FieldTooLong => LineError::FieldTooLong,
            MessageError::OutOfMemory => LineError::OutOfMemory,
        }
    }
}

impl From<AllocError> for LineError {
    ghost use Rattle.std.specs.Prelude.{◌≡◌};
    ghost use Rattle.alog_program.specs.declared.line.LineError.TheVariants.{OutOfMemory};

    ghost from_gives = { λ _ e. e ≡ OutOfMemory };

    fn from(_error: AllocError) -> LineError {
        LineError::OutOfMemory
    }
}

impl LineError {
    /// The number of the refusal, as `docs/FORMATS.md` has them.
    pub fn number(self) -> u8
        ensures { result ≡ number_of self }
    {
        match self {
            LineError::OutOfMemory => 1,
            LineError::TextTooLong => 2,
            LineError::FieldTooLong => 3,
            LineError::PatternTooLong => 17,
            LineError::LineTooLong => 18,
        }
    }

    /// The program's exit status: 4 for want of memory, else 2.
    pub fn status(self) -> u8
        ensures { result ≡ status_of self }
    {
        match self {
            LineError::OutOfMemory => 4,
            _ => 2,
        }
    }
}

/// The line that is asked for, with its newline. The refusals come in the order of the pattern, the text, and the name,
/// file and function.
pub fn line_of(alloc: Global, request: &LineRequest<'_>) -> Result<LineBuf, LineError>
    ensures made { IfOk result (λ line. IsLineOf request.now line.bytes) }
    ensures fits { OnOk result (Fits request.now) }
    ensures pattern { IsErrOf result LineError.PatternTooLong ↔ IsPatternTooLong request.now }
    ensures line { IsErrOf result LineError.LineTooLong ↔ IsLineTooLong request.now }
    ensures text { IsErrOf result LineError.TextTooLong → IsTextTooLong request.now }
    ensures field { IsErrOf result LineError.FieldTooLong → IsFieldTooLong request.now }
{
    let pattern = Pattern::compile(alloc, request.pattern.as_bytes(), DEFAULT_TEXT_LIMIT)?;
    let message = message_of(alloc, request)?;
    let mut line = LineBuf::new(alloc, pattern.longest())?;
    format(
        &pattern,
        &request.context,
        request.name,
        &message,
        request.previous,
        &mut line,
    );
    Ok(line)
}

/// The message that is asked for. The text is tested first, and a name over its limit is a field that is too long.
fn message_of(alloc: Global, request: &LineRequest<'_>) -> Result<Message, MessageError>
    ensures made { IfOk result (λ message. message ≡ message_of request.now) }
    ensures text { IsErrOf result MessageError.TextTooLong ↔ IsTextTooLong request.now }
    ensures field { IsErrOf result MessageError.FieldTooLong ↔ IsFieldTooLong request.now }
{
    if request.text.len() <= DEFAULT_TEXT_LIMIT && request.name.len() > LOGGER_NAME_MAX {
        return Err(MessageError::FieldTooLong);
    }
    let time = request.time;
    Message::new(
        alloc,
        DEFAULT_TEXT_LIMIT,
        0,
        request.level,
        time,
        request.thread,
        request.text,
        request.source,
    )
}
