//! What a caller says in numbers and bytes, and what that is.
ghost use Rattle.std.specs.Prelude.{FitsSigned};
ghost use Rattle.std.specs.Int.{w64};

use alog_msg::{Level, SourceRef};

/// A message as numbers and bytes.
#[derive(Clone, Copy, Drop)]
pub struct Said<'a> {
    /// The number of the logger, as `find` gives it.
    pub logger: u32,
    /// The level, from 0 for trace to 6 for off.
    pub level: u32,
    /// The time in nanoseconds since 1970, UTC.
    pub time: i64,
    /// The text, in UTF-8.
    pub text: &'a [u8],
    /// Where it came from, where that is told.
    pub source: Option<Source<'a>>,
    ghost fits: { FitsSigned w64 time },
}

/// Where a message came from, as numbers and bytes.
#[derive(Clone, Copy, Drop)]
pub struct Source<'a> {
    /// The file, in UTF-8, up to 256 bytes.
    pub file: &'a [u8],
    pub line: u32,
    /// The function, in UTF-8, up to 128 bytes.
    pub function: &'a [u8],
}

/// A message of an existing logger and an existing level, in texts.
#[derive(Clone, Copy, Drop)]
pub struct Heard<'a> {
    pub logger: u32,
    pub level: Level,
    pub text: &'a str,
    pub source: Option<SourceRef<'a>>,
}
