//! The loop that is timed.
use crate::lines::{START, TEXT, TEXT_LIMIT, Way};
use alog_format::LineBuf;
use alog_msg::{Level, Message};
use alog_sink::{Sink, Store};
use anyhow::{Result, ensure};
use std::alloc::Global;
use std::rt::Clock;
use std::time::{Duration, Instant};

/// The messages of a run.
pub const COUNT: u32 = 1_000_000;

/// The bytes that a buffer for lines has.
const LINE: usize = 65_536;

/// Nanoseconds between two messages.
const STEP: i64 = 1_000;

/// What messages are given to.
pub trait Taker {
    /// Gives it one message.
    fn give(&mut self, message: &Message, line: &mut LineBuf) -> Result<()>;

    /// Flushes, if it has a file.
    fn finish(&mut self) -> Result<()>;
}

impl Taker for Way {
    #[inline(always)]
    fn give(&mut self, message: &Message, line: &mut LineBuf) -> Result<()> {
        self.write(message, line)
    }

    fn finish(&mut self) -> Result<()> {
        Ok(())
    }
}

impl<S: Store> Taker for Sink<S> {
    #[inline(always)]
    fn give(&mut self, message: &Message, line: &mut LineBuf) -> Result<()> {
        ensure!(self.may_take(message, line), "a line has no room");
        self.take(message, line)?;
        Ok(())
    }

    fn finish(&mut self) -> Result<()> {
        Ok(self.flush()?)
    }
}

/// A message of some 64 bytes, whose time is set as it is written.
fn message(alloc: Global) -> Result<Message> {
    Ok(Message::new(alloc, TEXT_LIMIT, 0, Level::Info, 0, 1, TEXT, None)?)
}

/// Gives the message so often, with times that are a microsecond apart, and flushes. This is what is timed.
fn give_all<T: Taker>(target: &mut T, message: &mut Message, line: &mut LineBuf) -> Result<()> {
    let mut time = START;
    for _ in 0..COUNT {
        message.time = time;
        time = time.wrapping_add(STEP);
        target.give(message, line)?;
    }
    target.finish()
}

fn timed<T, R>(
    rt: &R,
    target: &mut T,
    message: &mut Message,
    line: &mut LineBuf,
) -> Result<Duration>
where
    T: Taker,
    R: Clock,
{
    let start = Instant::now(rt)?;
    give_all(target, message, line)?;
    Ok(start.elapsed(rt)?)
}

/// The time that a run on this target takes, if it could be made.
pub fn time_of<T, R>(rt: &R, alloc: Global, target: Result<T>) -> Result<Duration>
where
    T: Taker + Drop,
    R: Clock,
{
    let mut target = target?;
    let mut line = LineBuf::new(alloc, LINE)?;
    let mut message = message(alloc)?;
    timed(rt, &mut target, &mut message, &mut line)
}
