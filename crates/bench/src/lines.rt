//! How lines are made, and of what.
ghost use Rattle.std.specs.Prelude.{◌+◌, ◌≤◌, OnOk, length};
ghost use Rattle.alog_pattern.specs.Compiled.{longest};

use alog_format::{Context, Formatter, LineBuf, Zone, format};
use alog_msg::Message;
use alog_pattern::Pattern;
use anyhow::{Result, ensure};
use std::alloc::Global;

/// The most bytes that a text has.
pub const TEXT_LIMIT: usize = 2_048;

/// The pattern of a whole line.
pub const PATTERN: &[u8] = b"[%Y-%m-%d %H:%M:%S.%e] [%n] [%l] %v";

/// The time of the first message, in nanoseconds since the epoch.
pub const START: i64 = 1_700_000_000_000_000_000;

/// The logger.
pub const NAME: &str = "server";

/// A text of some 64 bytes.
pub const TEXT: &str = "request 123 of client 12 served by worker 3 in 861 microseconds";

pub const UTC: Context = Context {
    zone: Zone::Fixed(0),
    process: 1,
};

/// The pattern of a whole line, compiled.
fn pattern(alloc: Global) -> Result<Pattern> {
    Ok(Pattern::compile(alloc, PATTERN, TEXT_LIMIT)?)
}

/// How lines are made.
#[derive(Drop)]
pub enum Way {
    /// By `format`, each for itself.
    Alone(Pattern),
    /// By one formatter, which remembers the last second, as that of a sink and spdlog's do.
    Remembering(Formatter),
}

/// Empties the buffer for the line of a message, which fits there.
#[inline(always)]
fn make_room(pattern: &Pattern, message: &Message, line: &mut LineBuf) -> Result<()>
    ensures { OnOk result ((length message.now.text ≤ pattern.now.text_limit)
        × (length line.new.bytes + longest pattern.now ≤ line.new.capacity)) }
{
    line.clear();
    ensure!(
        message.text.len() <= pattern.text_limit(),
        "a text is too long"
    );
    ensure!(pattern.longest() <= line.room(), "a line has no room");
    Ok(())
}

impl Way {
    pub fn alone(alloc: Global) -> Result<Way> {
        Ok(Way::Alone(pattern(alloc)?))
    }

    pub fn remembering(alloc: Global) -> Result<Way> {
        Ok(Way::Remembering(Formatter::new(pattern(alloc)?)))
    }

    fn pattern(&self) -> &Pattern {
        match self {
            Way::Alone(pattern) => pattern,
            Way::Remembering(formatter) => formatter.pattern(),
        }
    }

    /// The bytes of the longest line.
    pub fn longest(&self) -> usize {
        self.pattern().longest()
    }

    /// Makes the line of a message, in place of what the buffer has.
    #[inline(always)]
    pub fn write(&mut self, message: &Message, line: &mut LineBuf) -> Result<()> {
        match self {
            Way::Alone(pattern) => {
                make_room(pattern, message, line)?;
                format(pattern, &UTC, NAME, message, None, line);
            }
            Way::Remembering(formatter) => {
                make_room(formatter.pattern(), message, line)?;
                formatter.format(&UTC, NAME, message, None, line);
            }
        }
        Ok(())
    }
}
