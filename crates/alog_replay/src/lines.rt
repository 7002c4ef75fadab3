ghost use Rattle.std.specs.Prelude.{◌≡◌, ◌≢◌, ◌≤◌, ◌<◌, ◌-◌, ℕ, [], IfOk, OnOk, OnErr, length, slice_index, ◌==◌, if◌then◌else◌};
ghost use Rattle.std.specs.Io.KnownBytes.{Consumes, IsAtEnd};
ghost use Rattle.alog_replay.specs.LineState.{rest_of, work_left};
ghost use Rattle.alog_replay.specs.Lines.{IsUnbroken};

use crate::limits::{CHUNK, READS_MAX, SCRIPT_LINE_MAX};
use memchr::memchr;
use std::alloc::{AllocError, Global};
use std::io::{ErrorKind, Read};
use std::marker::Model;
use thiserror::Error;

/// The reader failed, or was not at its end after `READS_MAX` reads.
#[derive(Clone, Copy, Debug, PartialEq, Eq, Error)]
#[error("the script could not be read")]
pub struct ReadFault;

/// What comes next in a script.
#[derive(Clone, Copy)]
pub enum Line {
    /// A line of at most `SCRIPT_LINE_MAX` bytes.
    Found,
    /// A line of more bytes.
    TooLong,
    /// No line: the script is at its end.
    End,
}

// How far the pending bytes brought a line.
#[derive(Clone, Copy)]
enum Piece {
    // To its newline.
    Ended,
    // Not to its newline: none is pending.
    Whole,
    // Past `SCRIPT_LINE_MAX` bytes.
    TooLong,
}

// What one read brought.
#[derive(Clone, Copy)]
enum Fill {
    Bytes,
    Nothing,
    End,
}

/// Reads a script line by line. Its room is made at the start, so that no line takes memory.
///
/// Contracts see the line, the bytes that were read and are in no line yet, and how many reads are left. The reader is
/// handed to each call, so that they tell what was read from what remains.
#[derive(Drop)]
pub struct LineReader {
    line: Vec<u8>,
    chunk: Vec<u8>,
    start: usize,
    end: usize,
    reads_left: u64,
}

impl Model for LineReader {
    ghost use Rattle.std.specs.Prelude.{◌≡◌, ◌≤◌, slice_range, vec_len, vec_capacity};
    ghost use Rattle.alog_replay.specs.LineState.{LineState};
    ghost use Rattle.alog_replay.specs.declared.limits.TheConstants.{CHUNK, SCRIPT_LINE_MAX};

    ghost Value = { LineState };

    ghost view = { λ r. record { line = r.line.items; pending = slice_range r.chunk.items r.start r.end; reads_left = r.reads_left } };

    ghost invariant = { λ r. (r.start ≤ r.end) × (r.end ≤ vec_len r.chunk) × (vec_len r.chunk ≡ CHUNK)
        × (vec_len r.line ≤ SCRIPT_LINE_MAX) × (SCRIPT_LINE_MAX ≤ vec_capacity r.line) };
}

impl LineReader {
    ghost use Rattle.alog_replay.specs.Reading.{FindsLine, MovesPiece};

    /// A reader at the start of a script.
    pub fn new(alloc: Global) -> Result<LineReader, AllocError>
        ensures { IfOk result (λ r. r ≡ record { line = []; pending = []; reads_left = READS_MAX }) }
    {
        Ok(LineReader {
            line: Vec::with_capacity(alloc, SCRIPT_LINE_MAX)?,
            chunk: vec![in alloc; 0; CHUNK]?,
            start: 0,
            end: 0,
            reads_left: READS_MAX,
        })
    }

    /// The line that was found last, without its newline.
    pub fn line(&self) -> &[u8]
        ensures value { result.now ≡ self.now.line }
        ensures fits { length result.now ≤ SCRIPT_LINE_MAX }
    {
        self.line.as_slice()
    }

    /// Reads up to the next line, which `line` then lends. A fault leaves what was read of the line there.
    pub fn next_line<R: Read>(&mut self, reader: &mut R) -> Result<Line, ReadFault>
        ensures found { IfOk result (λ line. FindsLine line
            (rest_of self.old (R.remaining reader.old)) (rest_of self.new (R.remaining reader.new)) self.new.line) }
        ensures fault { OnErr result (Consumes
            (rest_of self.old (R.remaining reader.old)) (rest_of self.new (R.remaining reader.new)) self.new.line) }
        ensures fewer { IfOk result (λ line. line ≡ Line.Found → work_left self.new < work_left self.old) }

        // A line whose newline was read takes no further read.
        ensures unread { ¬ IsUnbroken self.old.pending → self.new.reads_left ≡ self.old.reads_left }
    {
        self.begin();
        loop {
            match self.take_piece() {
                Piece::Ended => return Ok(Line::Found),
                Piece::TooLong => return Ok(Line::TooLong),
                Piece::Whole => {}
            }
            if let Fill::End = self.fill(reader)? {
                return Ok(self.last());
            }
        }
    }

    // Makes the line empty.
    fn begin(&mut self)
        ensures { self.new ≡ record self.old { line = [] } }
    {
        self.line.clear();
    }

    // What the line is where no byte comes any more.
    fn last(&self) -> Line
        ensures { result ≡ (if length self.now.line == 0 then Line.End else Line.Found) }
    {
        if self.line.is_empty() {
            Line::End
        } else {
            Line::Found
        }
    }

    // Moves the pending bytes behind the line, up to the first newline.
    fn take_piece(&mut self) -> Piece
        ensures piece { MovesPiece result self.old self.new }
        ensures reads { self.new.reads_left ≡ self.old.reads_left }
        ensures fits { length self.new.line ≤ SCRIPT_LINE_MAX }
    {
        let pending = &self.chunk[self.start..self.end];
        let len = unbroken_len(pending);
        if len > SCRIPT_LINE_MAX - self.line.len() {
            return Piece::TooLong;
        }
        self.line.extend_from_slice(&pending[..len]).unwrap();
        if len == pending.len() {
            self.start = self.end;
            Piece::Whole
        } else {
            self.start += len + 1;
            Piece::Ended
        }
    }

    // Reads once, where no byte is pending. That costs one of the reads that are left; where none is left, it is a fault.
    fn fill<R: Read>(&mut self, reader: &mut R) -> Result<Fill, ReadFault>
        requires { self.old.pending ≡ [] }
        ensures line { self.new.line ≡ self.old.line }
        ensures cost { self.new.reads_left ≡ self.old.reads_left - 1 }
        ensures left { OnOk result (0 < self.old.reads_left) }
        ensures bound { length self.new.pending ≤ CHUNK }
        ensures rest { Consumes (rest_of self.old (R.remaining reader.old)) (rest_of self.new (R.remaining reader.new)) [] }
        ensures end { IfOk result (λ fill. fill ≡ Fill.End → IsAtEnd (rest_of self.new (R.remaining reader.new))) }
    {
        if self.reads_left == 0 {
            return Err(ReadFault);
        }
        self.reads_left -= 1;
        match reader.read(self.chunk.as_mut_slice()) {
            Ok(0) => Ok(Fill::End),
            Ok(n) => {
                self.start = 0;
                self.end = n;
                Ok(Fill::Bytes)
            }
            Err(error) if error.kind() == ErrorKind::Interrupted => Ok(Fill::Nothing),
            Err(_) => Err(ReadFault),
        }
    }
}

// The number of bytes before the first newline, or of all where there is none.
fn unbroken_len(bytes: &[u8]) -> usize
    ensures within { result ≤ length bytes.now }
    ensures unbroken { (k : ℕ) → k < result → slice_index bytes.now k ≢ 10 }
    ensures newline { result < length bytes.now → slice_index bytes.now result ≡ 10 }
{
    memchr(b'\n', bytes).unwrap_or(bytes.len())
}
