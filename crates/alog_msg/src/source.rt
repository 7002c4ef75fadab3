ghost use Rattle.std.specs.Prelude.{◌≡◌, ◌≤◌, ◌↔◌, IfOk, IsTrue, length};
ghost use Rattle.alog_msg.specs.Message.{HasLongField};

use crate::limits::{FILE_MAX, FUNCTION_MAX};
use arrayvec::ArrayString;
use std::alloc::{AllocError, Global};
use std::marker::Model;

/// A source that is lent, to make a message from. The test `message_with_its_fields` shows one.
#[derive(Clone, Copy, Debug)]
pub struct SourceRef<'a> {
    pub file: &'a str,
    pub line: u32,
    pub function: &'a str,
}

/// A source is lent that is too long for a message: its file has more than 256 bytes, or its function more than 128.
///
/// The tests `source_at_its_limits` and `sources_of_a_block_at_their_limits` show it.
pub fn has_long_field(source: Option<SourceRef<'_>>) -> bool
    ensures { IsTrue result ↔ HasLongField source.entry }
{
    match source {
        Some(source) => source.file.len() > FILE_MAX || source.function.len() > FUNCTION_MAX,
        None => false,
    }
}

/// The place in a program that a message comes from: a file of at most 256 bytes, a line, and a function of at
/// most 128 bytes. File and function may be empty. The test `source_at_its_limits` shows it.
///
/// It is one pointer, so that an item, with a short text in it, has 120 bytes with or without it.
#[derive(Debug, Drop)]
pub struct Source {
    place: Box<Place>,
}

/// What a source says, with room for any other source.
#[derive(Debug, Drop)]
struct Place {
    file: ArrayString<FILE_MAX>,
    line: u32,
    function: ArrayString<FUNCTION_MAX>,
}

impl Model for Source {
    ghost use Rattle.alog_msg.specs.Source.{SourceFields};

    ghost Value = { SourceFields };

    ghost view = { λ s. record { file = s.place.value.file.bytes; line = s.place.value.line; function = s.place.value.function.bytes } };
}

impl Source {
    ghost use Rattle.alog_msg.specs.Message.{fields_of};

    /// Copies a source whose fields are not too long.
    pub fn copy_of(alloc: Global, source: SourceRef<'_>) -> Result<Source, AllocError>
        requires file_fits { length source.file.now ≤ FILE_MAX }
        requires function_fits { length source.function.now ≤ FUNCTION_MAX }
        ensures { IfOk result (λ s. s ≡ fields_of source.entry) }
    {
        let mut copy = Source::blank(alloc)?;
        copy.write(source);
        Ok(copy)
    }

    /// A source that says nothing yet. To write it takes no memory.
    pub(crate) fn blank(alloc: Global) -> Result<Source, AllocError> {
        let place = Place {
            file: ArrayString::new(),
            line: 0,
            function: ArrayString::new(),
        };
        Ok(Source {
            place: Box::new(alloc, place)?,
        })
    }

    /// Writes another source over it.
    pub(crate) fn write(&mut self, source: SourceRef<'_>)
        requires file_fits { length source.file.now ≤ FILE_MAX }
        requires function_fits { length source.function.now ≤ FUNCTION_MAX }
        ensures { self.new ≡ fields_of source.entry }
    {
        let place = &mut *self.place;
        place.file.clear();
        place.file.push_str(source.file);
        place.line = source.line;
        place.function.clear();
        place.function.push_str(source.function);
    }

    /// Lends what it says, for a copy.
    pub fn lend(&self) -> SourceRef<'_>
        ensures says { fields_of result ≡ self.now }
        ensures file_fits { length result.file.now ≤ FILE_MAX }
        ensures function_fits { length result.function.now ≤ FUNCTION_MAX }
    {
        SourceRef {
            file: self.file(),
            line: self.line(),
            function: self.function(),
        }
    }

    /// The file as it was given.
    pub fn file(&self) -> &str
        ensures value { result.now ≡ self.now.file }
        ensures fits { length result.now ≤ FILE_MAX }
    {
        self.place.file.as_str()
    }

    /// The line in the file.
    pub fn line(&self) -> u32
        ensures { result ≡ self.now.line }
    {
        self.place.line
    }

    /// The name of the function.
    pub fn function(&self) -> &str
        ensures value { result.now ≡ self.now.function }
        ensures fits { length result.now ≤ FUNCTION_MAX }
    {
        self.place.function.as_str()
    }
}
