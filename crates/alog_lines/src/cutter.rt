//! What cuts the bytes of a reader into pieces of lines.
ghost use Rattle.std.specs.Prelude.{◌≡◌, ◌≤◌, ◌<◌, None, [], Ok, IfOk, IfSome, OnErr, IsUtf8, length, take, false, true};
ghost use Rattle.alog_lines.specs.Building.{Builds, piece_built};
ghost use Rattle.alog_lines.specs.Cutting.{Brings, IsSame, LacksPiece, Reads, Takes, piece_of};
ghost use Rattle.alog_lines.specs.Front.{Begins};
ghost use Rattle.alog_lines.specs.declared.cutter.TheConstants.{TEXT_MIN, TEXT_MAX};

use crate::build::{Built, build};
use crate::front::{Front, front_of};
use crate::window::Window;
use std::alloc::{AllocError, Global};
use std::io::{self, Read};
use std::marker::Model;
use std::str;

/// Each read is given room for so many bytes at least. A test of `test_cutter` shows it, and no clause.
pub const CHUNK: usize = 65_536;

/// The least limit on the bytes of a text: each character fits.
pub const TEXT_MIN: usize = 4;

/// The greatest.
pub const TEXT_MAX: usize = 65_536;

/// What was found in the bytes that were read: a line, or a piece of one that is too long for a text.
#[derive(Clone, Copy, Debug, PartialEq, Eq)]
pub struct Cut {
    /// Whether its line ends with it.
    pub ends: bool,
    /// How many U+FFFD in it stand for what is no character in UTF-8.
    pub mended: usize,
}

/// What one read brought.
#[derive(Clone, Copy, Debug, PartialEq, Eq)]
pub enum Fill {
    /// Bytes.
    Bytes,
    /// Nothing: it was interrupted, or more is pending than a text has, and nothing was read.
    Nothing,
    /// Nothing: the reader is at its end. It is read no more.
    End,
}

/// Cuts what a reader gives into the pieces of its lines.
///
/// Contracts see the limit on a text, the bytes that were read and are in no piece yet, the text that was found last, and whether the reader
/// was found at its end. The reader is handed to each read, so that they tell what was read from what remains.
///
/// ```text
/// let mut lines = LineCutter::new(alloc, 2_048)?;
/// while lines.fill(&mut input)? != Fill::End {
///     while let Some(_) = lines.next() {
///         println!(rt; "{}", lines.text())?;
///     }
/// }
/// // The last line, where it has no newline.
/// while let Some(_) = lines.next() { .. }
/// ```
#[derive(Debug, Drop)]
pub struct LineCutter {
    window: Window,
    /// A text that is not as it was read. Its room is that of the longest.
    built: String,
    /// Whether the text that was found last is that one. Otherwise it lies in the window, from `start` to `end`.
    is_built: bool,
    start: usize,
    end: usize,
    limit: usize,
    ended: bool,
}

impl Model for LineCutter {
    ghost use Rattle.std.specs.Prelude.{◌≡◌, ◌+◌, ◌≤◌, IsUtf8, if◌then◌else◌, slice_range, vec_len};
    ghost use Rattle.std.specs.String.{string_bytes, string_capacity};
    ghost use Rattle.alog_lines.specs.Cutting.{Cutting};
    ghost use Rattle.alog_lines.specs.Window.{held};
    ghost use Rattle.alog_lines.specs.declared.cutter.TheConstants.{CHUNK, TEXT_MIN, TEXT_MAX};

    ghost Value = { Cutting };

    ghost view = { λ c. record {
      limit = c.limit;
      pending = held c.window;
      text = if c.is_built then string_bytes c.built else slice_range c.window.bytes.items c.start c.end;
      ended = c.ended;
    } };

    ghost invariant = { λ c. (TEXT_MIN ≤ c.limit) × (c.limit ≤ TEXT_MAX) × (vec_len c.window.bytes ≡ CHUNK + c.limit)
        × (c.limit ≤ string_capacity c.built) × (c.start ≤ c.end) × (c.end ≤ vec_len c.window.bytes)
        × ∥ IsUtf8 (slice_range c.window.bytes.items c.start c.end) ∥₁ };
}

impl LineCutter {
    /// A cutter that has read nothing, of texts of at most so many bytes, 4 to 65,536. No other call takes memory.
    pub fn new(alloc: Global, limit: usize) -> Result<LineCutter, AllocError>
        requires { (TEXT_MIN ≤ limit) × (limit ≤ TEXT_MAX) }
        ensures { IfOk result (λ c. c ≡ record { limit = limit; pending = []; text = []; ended = false }) }
    {
        Ok(LineCutter {
            window: Window::new(alloc, CHUNK + limit)?,
            built: String::with_capacity(alloc, limit)?,
            is_built: true,
            start: 0,
            end: 0,
            limit,
            ended: false,
        })
    }

    /// The text that `next` found last. A `fill` that asks the reader leaves it empty, whatever the reader answers; a test shows it, and no clause.
    pub fn text(&self) -> &str
        ensures { result.now ≡ self.now.text }
    {
        if self.is_built {
            return self.built.as_str();
        }
        // What was found there was looked at: it is UTF-8.
        unsafe { str::from_utf8_unchecked(self.window.part(self.start, self.end)) }
    }

    /// Reads once. Where more is pending than a text has, `next` is to be called first, and nothing is read. An error of the reader
    /// leaves what is pending, and a later call reads on.
    pub fn fill<R: Read>(&mut self, reader: &mut R) -> io::Result<Fill>
        ensures read { Reads (R.remaining reader.old) (R.remaining reader.new) self.old self.new }
        ensures brings { IfOk result (λ fill. Brings fill self.old self.new) }
        ensures err { OnErr result ((self.new.pending ≡ self.old.pending) × (self.new.ended ≡ false)) }
        ensures again { self.old.ended ≡ true → (result ≡ Ok Fill.End) × (self.new ≡ self.old) }
        ensures full { self.old.ended ≡ false → self.old.limit < length self.old.pending → (result ≡ Ok Fill.Nothing) × (self.new ≡ self.old) }
    {
        if self.ended {
            return Ok(Fill::End);
        }
        if self.window.as_slice().len() > self.limit {
            return Ok(Fill::Nothing);
        }
        self.built.clear();
        self.is_built = true;
        self.start = 0;
        self.end = 0;
        let fill = self.window.refill(reader)?;
        self.ended = fill == Fill::End;
        Ok(fill)
    }

    /// The next piece of what was read, which `text` then lends. There is none where more has to be read first, or nothing is left.
    pub fn next(&mut self) -> Option<Cut>
        ensures found { IfSome result (λ cut. Takes self.old self.new (piece_of self.new cut)) }
        ensures none { result ≡ None → LacksPiece self.old × (self.new ≡ self.old) }
        ensures same { IsSame self.old self.new }
    {
        match front_of(self.window.as_slice(), self.limit, self.ended) {
            Front::Line { len, newline } => Some(self.take_line(len, newline)),
            Front::Long => Some(self.take_long()),
            Front::Part => None,
        }
    }

    /// Takes the line that the pending bytes begin with, or its first piece.
    fn take_line(&mut self, len: usize, newline: usize) -> Cut
        requires { Begins self.old.pending self.old.limit self.old.ended (Front.Line len newline) }
        ensures takes { Takes self.old self.new (piece_of self.new result) }
        ensures same { IsSame self.old self.new }
    {
        match str::from_utf8(&self.window.as_slice()[..len]) {
            Ok(_) => self.lend_line(len, newline),
            Err(_) => self.build_line(len, newline),
        }
    }

    /// Takes that line as it was read, which is in UTF-8.
    fn lend_line(&mut self, len: usize, newline: usize) -> Cut
        requires line { Begins self.old.pending self.old.limit self.old.ended (Front.Line len newline) }
        requires text { IsUtf8 (take len self.old.pending) }
        ensures takes { Takes self.old self.new (piece_of self.new result) }
        ensures same { IsSame self.old self.new }
    {
        self.is_built = false;
        self.start = self.window.start;
        self.end = self.start + len;
        self.window.consume(len + newline);
        Cut {
            ends: true,
            mended: 0,
        }
    }

    /// Takes the first piece of that line, which is built.
    fn build_line(&mut self, len: usize, newline: usize) -> Cut
        requires { Begins self.old.pending self.old.limit self.old.ended (Front.Line len newline) }
        ensures takes { Takes self.old self.new (piece_of self.new result) }
        ensures same { IsSame self.old self.new }
    {
        let Built { taken, mended } = self.build_first(len);
        if taken == len {
            self.window.consume(len + newline);
            return Cut { ends: true, mended };
        }
        self.window.consume(taken);
        Cut {
            ends: false,
            mended,
        }
    }

    /// Takes the first piece of a line that is too long for a text.
    fn take_long(&mut self) -> Cut
        requires { Begins self.old.pending self.old.limit self.old.ended Front.Long }
        ensures takes { Takes self.old self.new (piece_of self.new result) }
        ensures same { IsSame self.old self.new }
    {
        let Built { taken, mended } = self.build_first(self.limit + 1);
        self.window.consume(taken);
        Cut {
            ends: false,
            mended,
        }
    }

    /// Builds the first piece of a line that begins with so many pending bytes, which stay.
    fn build_first(&mut self, len: usize) -> Built
        requires { len ≤ length self.old.pending }
        ensures builds { Builds self.old.limit (take len self.old.pending) result.taken (piece_built self.new.text result) }
        ensures pending { self.new.pending ≡ self.old.pending }
        ensures same { IsSame self.old self.new }
    {
        self.is_built = true;
        build(&self.window.as_slice()[..len], self.limit, &mut self.built)
    }
}
