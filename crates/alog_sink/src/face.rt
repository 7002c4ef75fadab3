//! How a sink writes its lines.
ghost use Rattle.std.specs.Prelude.{◌≡◌, ◌↔◌, ◌<◌, IsTrue, ◌≤◌, ◌∷◌, ◌++◌, [], length, IfOk, IsErrOf, OnOk, OnErr};
ghost use Rattle.alog_format.specs.Civil.{IsZone};
ghost use Rattle.alog_format.specs.Line.{AppendsLine};
ghost use Rattle.alog_pattern.specs.Compiled.{longest};
ghost use Rattle.alog_sink.specs.Lines.{name_of};

use alog_format::{Context, Formatter, LineBuf, Zone};
use alog_msg::{LOGGER_NAME_MAX, Level, Message, Text};
use alog_pattern::{LINE_MAX, Pattern};
use std::alloc::{AllocError, Global};
use std::marker::Model;
use thiserror::Error;

/// Why a name was not taken. The test `names_by_number` shows it.
#[derive(Clone, Copy, Debug, PartialEq, Eq, Drop, Error)]
pub enum NameError {
    /// The name has more than 64 bytes.
    #[error("the name has more than 64 bytes")]
    NameTooLong,
    #[error("out of memory")]
    OutOfMemory,
}

impl From<AllocError> for NameError {
    ghost use Rattle.std.specs.Prelude.{◌≡◌};
    ghost use Rattle.alog_sink.specs.declared.face.NameError.TheVariants.{OutOfMemory};

    ghost from_gives = { λ _ e. e ≡ OutOfMemory };

    fn from(_error: AllocError) -> NameError {
        NameError::OutOfMemory
    }
}

/// The names of loggers by number, each of at most 64 bytes. Contracts see them as the list of them.
///
/// The test `names_by_number` shows them.
#[derive(Debug, Drop)]
pub struct Names {
    texts: Vec<Text>,
}

impl Model for Names {
    ghost use Rattle.std.specs.Prelude.{ℕ, List, ◌≤◌, length, All};
    ghost use Rattle.alog_msg.specs.declared.limits.TheConstants.{LOGGER_NAME_MAX};

    ghost Value = { List (List ℕ) };

    ghost view = { λ n. n.texts.items };

    ghost invariant = { λ n. All (λ (name : List ℕ). length name ≤ LOGGER_NAME_MAX) n.texts.items };
}

impl Names {
    /// No names.
    pub fn new(alloc: Global) -> Names
        ensures { result ≡ [] }
    {
        Names {
            texts: Vec::new(alloc),
        }
    }

    /// Gives the next number to this name, which it copies.
    pub fn push(&mut self, alloc: Global, name: &str) -> Result<(), NameError>
        ensures pushed { OnOk result (self.new ≡ self.old ++ name.now ∷ []) }
        ensures too_long { IsErrOf result NameError.NameTooLong ↔ (LOGGER_NAME_MAX < length name.now) }
        ensures err { OnErr result (self.new ≡ self.old) }
    {
        if name.len() > LOGGER_NAME_MAX {
            return Err(NameError::NameTooLong);
        }
        let text = Text::copy_of(alloc, name)?;
        match self.texts.push(text) {
            Ok(()) => Ok(()),
            Err(_) => Err(NameError::OutOfMemory),
        }
    }

    /// The name of a number, which is empty past the last one.
    pub fn get(&self, number: u32) -> &str
        ensures name { result.now ≡ name_of self.now number }
        ensures length { length result.now ≤ LOGGER_NAME_MAX }
    {
        match self.texts.get(number as usize) {
            Some(name) => name.as_str(),
            None => "",
        }
    }
}

/// How a sink writes its lines, and which messages it takes: those of a level that is at least its own.
///
/// The test `a_memory_sink` of `test_sinks` shows one.
#[derive(Debug, Drop)]
pub struct Face {
    pub level: Level,
    pub pattern: Pattern,
    pub context: Context,
    /// The names of loggers by number. A number past the end has the empty name.
    pub names: Names,
}

/// A face that writes lines. Contracts see it as the face.
#[derive(Debug, Drop)]
pub struct Scribe {
    level: Level,
    context: Context,
    names: Names,
    formatter: Formatter,
}

impl Model for Scribe {
    ghost use Rattle.alog_sink.specs.declared.face.Face.{Face};

    ghost Value = { Face };

    ghost view = { λ s. record { level = s.level; pattern = s.formatter.pattern; context = s.context; names = s.names } };
}

impl Scribe {
    ghost use Rattle.alog_sink.specs.Lines.{admits, FaceSuits, MayWrite, IsLineOf};

    pub(crate) fn new(face: Face) -> Scribe
        ensures face { result ≡ face }
        ensures suits { FaceSuits face.pattern.text_limit LINE_MAX result }
    {
        prove!(face.pattern.longest() <= LINE_MAX);
        let Face {
            level,
            pattern,
            context,
            names,
        } = face;
        Scribe {
            level,
            context,
            names,
            formatter: Formatter::new(pattern),
        }
    }

    fn pattern(&self) -> &Pattern
        ensures { result.now ≡ self.now.pattern }
    {
        self.formatter.pattern()
    }

    /// Where the clock of the lines stands.
    pub(crate) fn zone(&self) -> &Zone
        ensures value { result.now ≡ self.now.context.zone }
        ensures zone { IsZone result.now }
    {
        &self.context.zone
    }

    /// Whether a message of this level is taken.
    pub(crate) fn admits(&self, level: Level) -> bool
        ensures { result ≡ admits self.now.level level }
    {
        level.number() >= self.level.number()
    }

    /// Whether a message's line may be written into the buffer.
    pub(crate) fn may_write(&self, message: &Message, line: &LineBuf) -> bool
        ensures { IsTrue result ↔ MayWrite self.now message.now line.now.capacity }
    {
        has_room(self.pattern(), message, line)
    }

    /// Writes a message's line into the buffer, in place of what was there. The message before came at the previous time.
    pub(crate) fn write(&mut self, message: &Message, previous: Option<i64>, line: &mut LineBuf)
        requires { MayWrite self.old message.now line.old.capacity }
        ensures line { IsLineOf self.old previous message.now line.new.bytes }
        ensures capacity { line.new.capacity ≡ line.old.capacity }
        ensures same { self.new ≡ self.old }
    {
        line.clear();
        let name = self.names.get(message.logger);
        self.formatter
            .format(&self.context, name, message, previous, line);
    }
}

/// Whether a message keeps to the limit of a pattern, and the buffer has room for the pattern's longest line.
fn has_room(pattern: &Pattern, message: &Message, line: &LineBuf) -> bool
    ensures { IsTrue result ↔ ((length message.now.text ≤ pattern.now.text_limit) × (longest pattern.now ≤ line.now.capacity)) }
{
    message.text.len() <= pattern.text_limit() && pattern.longest() <= line.capacity()
}
