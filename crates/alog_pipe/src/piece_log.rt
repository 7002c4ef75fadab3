//! What a pipe logs with.
ghost use Rattle.std.specs.Prelude.{◌≡◌, length};
ghost use Rattle.alog_pipe.specs.Logged.{CanSay, IsReady, LogsFound, LogsPiece, Tells, below_by, fate_of, missed_by};
ghost use Rattle.alog_pipe.specs.Piped.{Finishes};
ghost use Rattle.alog_pool.specs.Producer.{IsSame};

use alog_msg::Level;
use alog_policy::Outcome;
use alog_pool::{Producer, gap_text};
use alog_registry::LogReply;
use std::alloc::Global;
use std::sync::Wait;
use std::thread;
use std::time::{Clock, Duration};

/// How many milliseconds the end waits for room for the line that says what is missing, from one try to the next.
const NAP_MILLIS: u64 = 1;

/// What became of a message.
#[derive(Clone, Copy, Debug, PartialEq, Eq)]
pub(crate) enum Fate {
    Posted,
    /// It is below the logger's level.
    Below,
    /// Its post was discarded, or there was no memory for its copy.
    Missing,
}

/// Whether the log says what is missing.
#[derive(Clone, Copy, Debug, PartialEq, Eq)]
pub(crate) enum Told {
    All,
    /// There was no room in the queue for the line that says it.
    NoRoom,
    /// The logger keeps copies for a backtrace, and there was no memory for one.
    NoMemory,
}

/// Logs pieces of lines to one logger, at one level, and in place of those that are missing a line that says how many they are.
pub(crate) struct PieceLog {
    pub(crate) producer: Producer,
    /// The logger's number.
    pub(crate) logger: u32,
    pub(crate) level: Level,
    /// How many of the last pieces are missing, which no line of the log says yet.
    pub(crate) hole: u64,
    /// How many are missing in all, modulo 2^64.
    pub(crate) missing: u64,
    /// How many were below the level that the logger had, modulo 2^64.
    pub(crate) below: u64,
}

impl PieceLog {
    /// Logs a piece. Where pieces before it are missing, the line that says so goes before it; where that line is not kept, the piece is
    /// missing too.
    pub(crate) fn log<R: Wait + Clock>(&mut self, rt: &R, alloc: Global, time: i64, text: &str)
        requires { IsReady (length text.now) self.old }
        ensures { LogsPiece time text.now self.old self.new }
    {
        match self.tell_hole(rt, alloc, time) {
            Told::All => match self.log_found(rt, alloc, time, text) {
                Fate::Posted => {}
                Fate::Below => self.count_below(),
                Fate::Missing => self.miss(),
            },
            Told::NoRoom | Told::NoMemory => self.miss(),
        }
    }

    /// Waits until the log says what is missing, unless the logger keeps copies and there is no memory for one.
    pub(crate) fn finish<R: Wait + Clock>(&mut self, rt: &R, alloc: Global, time: i64)
        requires { CanSay self.old }
        ensures finished { Finishes time self.old self.new }
        ensures same { IsSame self.old.producer self.new.producer }
    {
        for _ in rt.forever() {
            match self.tell_hole(rt, alloc, time) {
                Told::NoRoom => thread::sleep(rt, Duration::from_millis(NAP_MILLIS)),
                Told::All | Told::NoMemory => return,
            }
        }
        unreachable!()
    }

    /// Counts a piece that is missing.
    fn miss(&mut self)
        ensures { self.new ≡ missed_by self.old.producer self.old }
    {
        self.hole = self.hole.saturating_add(1);
        self.missing = self.missing.wrapping_add(1);
    }

    /// Counts a piece that is below the level.
    fn count_below(&mut self)
        ensures { self.new ≡ below_by self.old.producer self.old }
    {
        self.below = self.below.wrapping_add(1);
    }

    /// Logs a piece where all is said that is missing before it, and answers what became of it.
    fn log_found<R: Wait + Clock>(&mut self, rt: &R, alloc: Global, time: i64, text: &str) -> Fate
        requires { IsReady (length text.now) self.old }
        ensures found { LogsFound time text.now result self.old self.new }
        ensures same { IsSame self.old.producer self.new.producer }
    {
        let (logger, level) = (self.logger, self.level);
        match self
            .producer
            .log(rt, alloc, logger, level, time, text, None)
        {
            Ok(reply) => fate_of(&reply),
            Err(_) => Fate::Missing,
        }
    }

    /// Logs the line that says how many pieces are missing, where some are. Memory is taken for its copy alone, where the logger keeps copies.
    pub(crate) fn tell_hole<R: Wait + Clock>(&mut self, rt: &R, alloc: Global, time: i64) -> Told
        requires { CanSay self.old }
        ensures tells { Tells time result self.old self.new }
        ensures same { IsSame self.old.producer self.new.producer }
    {
        let number = self.hole;
        if number == 0 {
            return Told::All;
        }
        let text = gap_text(number);
        let (logger, level) = (self.logger, Level::Warning);
        match self
            .producer
            .log(rt, alloc, logger, level, time, text.as_str(), None)
        {
            Ok(reply) => match fate_of(&reply) {
                Fate::Posted | Fate::Below => {
                    self.hole = 0;
                    Told::All
                }
                Fate::Missing => Told::NoRoom,
            },
            Err(_) => Told::NoMemory,
        }
    }
}

/// What became of a message that was answered so.
fn fate_of(reply: &LogReply) -> Fate
    ensures { result ≡ fate_of reply.now }
{
    match reply {
        LogReply::Filtered { .. } => Fate::Below,
        LogReply::Logged { outcome, .. } => match outcome {
            Outcome::Posted { .. } => Fate::Posted,
            Outcome::Discarded { .. } => Fate::Missing,
        },
    }
}
