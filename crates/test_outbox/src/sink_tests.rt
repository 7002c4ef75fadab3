//! Sinks of each kind over a store that hands its calls out, beside the same sink over a store in memory: what is carried out is what that one has.
use crate::host::{Host, opened};
use alog_format::{Context, LineBuf, Zone};
use alog_msg::{Level, Message};
use alog_outbox::{Drain, Outbox};
use alog_pattern::Pattern;
use alog_sink::{Face, MemStore, Names, Sink, Store};
use std::alloc::Global;
use std::process::Abort;
use std::test::Fail;

/// A day in nanoseconds.
const DAY: i64 = 86_400_000_000_000;

/// How many areas.
const AREAS: usize = 3;

/// What a sink is.
#[derive(Clone, Copy)]
enum Kind {
    Memory,
    Rotating,
    Daily,
}

fn face(alloc: Global) -> Result<Face, Fail> {
    let mut names = Names::new(alloc);
    names.push(alloc, "net")?;
    Ok(Face {
        level: Level::Info,
        pattern: Pattern::compile(alloc, b"%l %v", 64)?,
        context: Context {
            zone: Zone::Fixed(0),
            process: 7,
        },
        names,
    })
}

fn sink_over<S: Store + Drop>(alloc: Global, kind: Kind, store: S) -> Result<Sink<S>, Fail> {
    let face = face(alloc)?;
    let opened = match kind {
        Kind::Memory => Sink::memory(alloc, face, store, "log.txt"),
        Kind::Rotating => Sink::rotating(alloc, face, store, "log.txt", 40, 2),
        Kind::Daily => Sink::daily(alloc, face, store, "log.txt", 0, 0, 2),
    };
    match opened {
        Ok(sink) => Ok(sink),
        Err(unopened) => Err(unopened.error.into()),
    }
}

/// Gives a sink the text of this time. It answers whether it took it.
fn gives<S: Store>(
    sink: &mut Sink<S>,
    message: &Message,
    line: &mut LineBuf,
) -> Result<bool, Fail> {
    if !sink.may_take(message, line) {
        return Ok(false);
    }
    sink.take(message, line)?;
    sink.flush()?;
    Ok(true)
}

/// A sink over a store that hands its calls out, and by whom they are carried out.
#[derive(Drop)]
struct Far {
    sink: Sink<Outbox>,
    drain: Drain,
    host: Host,
}

impl Far {
    /// A sink of this kind, and a host without files.
    fn open(alloc: Global, kind: Kind) -> Result<Far, Fail> {
        let host = Host::new(alloc)?;
        let (store, drain) = opened(alloc, "other", 5, AREAS)?;
        let sink = sink_over(alloc, kind, store)?;
        Ok(Far { sink, drain, host })
    }

    /// Gives the sink a text, and carries out what it told. It answers whether the sink took the text, and told what can be carried out.
    fn gives(&mut self, message: &Message, line: &mut LineBuf) -> Result<bool, Fail> {
        if !gives(&mut self.sink, message, line)? {
            return Ok(false);
        }
        Ok(self.host.take_all(&mut self.drain, 9)?.is_some())
    }
}

/// The text of this number. Three of them are of a day.
fn numbered(alloc: Global, number: i64) -> Result<Message, Fail> {
    let text = format!(in alloc; "text {number}")?;
    let time = number.wrapping_mul(DAY / 3);
    let message = Message::new(alloc, 64, 0, Level::Info, time, 1, text.as_str(), None)?;
    Ok(message)
}

/// Whether both sinks take a text, and what was told is carried out to the same files.
fn agrees_on(
    near: &mut Sink<MemStore>,
    far: &mut Far,
    message: &Message,
    line: &mut LineBuf,
) -> Result<bool, Fail> {
    if !gives(near, message, line)? || !far.gives(message, line)? {
        return Ok(false);
    }
    let Some(store) = near.store() else {
        return Ok(false);
    };
    Ok(far.host.has_files_of(store))
}

/// Both sinks take a few lines, and after each what was told is carried out.
fn agrees(alloc: Global, near: &mut Sink<MemStore>, far: &mut Far) -> Result<bool, Fail> {
    let mut line = LineBuf::new(alloc, 256)?;
    for number in 0..12_i64 {
        let message = numbered(alloc, number)?;
        if !agrees_on(near, far, &message, &mut line)? {
            return Ok(false);
        }
    }
    Ok(true)
}

/// Whether both sinks agree. The near one is let go.
fn ends_near(alloc: Global, mut near: Sink<MemStore>, far: &mut Far) -> Result<bool, Fail> {
    agrees(alloc, &mut near, far)
}

/// Whether both sinks agree. They are let go.
fn ends_the_same(alloc: Global, near: Sink<MemStore>, mut far: Far) -> Result<bool, Fail> {
    ends_near(alloc, near, &mut far)
}

/// Whether a sink of this kind is the same over both.
fn is_same(alloc: Global, kind: Kind) -> Result<bool, Fail> {
    let near = sink_over(alloc, kind, MemStore::new(alloc))?;
    let far = Far::open(alloc, kind)?;
    ends_the_same(alloc, near, far)
}

#[test]
fn a_memory_sink(rt: HostRuntime) -> Result<(), Fail> {
    assert!(rt; is_same(rt.alloc(), Kind::Memory)?);
    Ok(())
}

#[test]
fn a_rotating_sink(rt: HostRuntime) -> Result<(), Fail> {
    assert!(rt; is_same(rt.alloc(), Kind::Rotating)?);
    Ok(())
}

#[test]
fn a_daily_sink(rt: HostRuntime) -> Result<(), Fail> {
    assert!(rt; is_same(rt.alloc(), Kind::Daily)?);
    Ok(())
}

/// Two sinks, each over one of these stores.
fn both_over(alloc: Global, one: Outbox, two: Outbox) -> Result<Vec<Sink<Outbox>>, Fail> {
    let mut sinks = Vec::new(alloc);
    sinks.push(sink_over(alloc, Kind::Memory, one)?)?;
    sinks.push(sink_over(alloc, Kind::Rotating, two)?)?;
    Ok(sinks)
}

/// A fan of two sinks over these stores.
fn fan_over(alloc: Global, one: Outbox, two: Outbox) -> Result<Sink<Outbox>, Fail> {
    match Sink::fan(alloc, Level::Info, both_over(alloc, one, two)?) {
        Ok(fan) => Ok(fan),
        Err(refused) => Err(refused.error.into()),
    }
}

/// Whether the sink takes a text, and flushes it.
fn takes_text(alloc: Global, sink: &mut Sink<Outbox>) -> Result<bool, Fail> {
    let mut line = LineBuf::new(alloc, 256)?;
    let message = Message::new(alloc, 64, 0, Level::Info, 0, 1, "text", None)?;
    gives(sink, &message, &mut line)
}

/// Whether what is taken here are an append and a flush, which give the file the line of that text.
fn has_text(alloc: Global, drain: &mut Drain) -> Result<bool, Fail> {
    let mut host = Host::new(alloc)?;
    let taken = host.take_all(drain, 9)?;
    Ok(taken == Some(2) && host.has_file("log.txt", b"info text\n"))
}

/// A fan of two sinks, each over a store of its own, and what these hand out.
fn fan_opened(alloc: Global) -> Result<(Sink<Outbox>, Drain, Drain), Fail> {
    let (one, drain_of_one) = opened(alloc, "other", 5, AREAS)?;
    let (two, drain_of_two) = opened(alloc, "other", 5, AREAS)?;
    Ok((fan_over(alloc, one, two)?, drain_of_one, drain_of_two))
}

/// Whether a fan takes a text and flushes it. The fan is let go.
fn ends_with_text(alloc: Global, fan: Sink<Outbox>) -> Result<bool, Fail> {
    let mut fan = fan;
    takes_text(alloc, &mut fan)
}

/// Whether each of the two was told that text. Both are let go.
fn have_text(alloc: Global, mut one: Drain, mut two: Drain) -> Result<bool, Fail> {
    Ok(has_text(alloc, &mut one)? && has_text(alloc, &mut two)?)
}

/// Whether a fan takes a text, and tells it to the store of each of its two sinks.
fn fan(alloc: Global) -> Result<bool, Fail> {
    let (fan, one, two) = fan_opened(alloc)?;
    let is_taken = ends_with_text(alloc, fan)?;
    let is_told = have_text(alloc, one, two)?;
    Ok(is_taken && is_told)
}

#[test]
fn a_fan(rt: HostRuntime) -> Result<(), Fail> {
    assert!(rt; fan(rt.alloc())?);
    Ok(())
}
