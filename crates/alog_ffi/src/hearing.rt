//! How what was said is heard.
ghost use Rattle.std.specs.Prelude.{◌≡◌, ◌<◌, length, IfOk, IfErr, IfSome, IsTrue, None};
ghost use Rattle.std.specs.Str.{IsAscii, IsUtf8};
ghost use Rattle.alog_ffi.specs.Said.{IsFiltered, IsHeard, IsLevelOf, IsUnheard};
ghost use Rattle.alog_ffi.specs.declared.answer.Answer.TheVariants as answer;

use crate::answer::Answer;
use crate::said::{Heard, Said};
use alog_msg::{Level, SourceRef};
use alog_registry::Loggers;
use std::str;

/// The level of this number.
pub fn level_of(number: u32) -> Option<Level>
    ensures { IsLevelOf number result }
{
    match number {
        0 => Some(Level::Trace),
        1 => Some(Level::Debug),
        2 => Some(Level::Info),
        3 => Some(Level::Warning),
        4 => Some(Level::Error),
        5 => Some(Level::Critical),
        6 => Some(Level::Off),
        _ => None,
    }
}

/// The level of its logger, where that keeps no backtrace and what was said is below that level.
#[inline(always)]
pub(crate) fn filter_of(loggers: &Loggers, said: Said<'_>) -> Option<Level>
    ensures { IfSome result (IsFiltered loggers.now said.entry) }
{
    let level = level_of(said.level)?;
    let spec = loggers.spec(said.logger)?;
    let own = loggers.level(said.logger)?;
    if spec.backtrace == 0 && level.number() < own.number() {
        Some(own)
    } else {
        None
    }
}

/// What was said, or the first reason why it is no message of these loggers.
#[inline(always)]
pub(crate) fn hear<'a>(loggers: &Loggers, said: Said<'a>) -> Result<Heard<'a>, Answer>
    ensures ok { IfOk result (IsHeard loggers.now said.entry) }
    ensures err { IfErr result (IsUnheard loggers.now said.entry) }
{
    if said.logger as usize >= loggers.len() {
        return Err(Answer::NoLogger);
    }
    let Some(level) = level_of(said.level) else {
        return Err(Answer::NoLevel);
    };
    let text = text_of(said.text)?;
    let source = match said.source {
        Some(source) => Some(SourceRef {
            file: text_of(source.file)?,
            line: source.line,
            function: text_of(source.function)?,
        }),
        None => None,
    };
    Ok(Heard {
        logger: said.logger,
        level,
        text,
        source,
    })
}

/// These bytes as a text. Most texts are ASCII, and to see that all of one is takes a quarter of the instructions of the full test.
#[inline(always)]
fn text_of(bytes: &[u8]) -> Result<&str, Answer>
    ensures text { IfOk result (λ t. t.now ≡ bytes.now) }
    ensures refused { IfErr result (λ a. (a ≡ answer.NotUtf8) × ¬ IsUtf8 bytes.now) }
{
    if is_ascii(bytes) {
        return Ok(unsafe { str::from_utf8_unchecked(bytes) });
    }
    match str::from_utf8(bytes) {
        Ok(text) => Ok(text),
        Err(_) => Err(Answer::NotUtf8),
    }
}

/// Whether all bytes are ASCII: whether the greatest is, which a processor finds sixteen bytes at a time.
#[inline(always)]
fn is_ascii(bytes: &[u8]) -> bool
    ensures { IsTrue result → IsAscii bytes.now }
{
    let mut greatest = 0_u8;
    for byte in bytes {
        greatest = greatest.max(*byte);
    }
    greatest < 0x80
}
