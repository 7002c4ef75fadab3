//! The messages that are written.
use crate::lines::TEXT_LIMIT;
use alog_msg::{Level, Message};
use anyhow::Result;
use std::alloc::Global;

/// The different messages of a run.
pub const COUNT: u32 = 1_000;

/// How long the texts are.
#[derive(Clone, Copy)]
pub enum Size {
    /// About 64 bytes.
    Short,
    /// About 200 bytes.
    Long,
}

fn level_of(number: u32) -> Level {
    match number % 6 {
        0 => Level::Trace,
        1 => Level::Debug,
        2 => Level::Info,
        3 => Level::Warning,
        4 => Level::Error,
        _ => Level::Critical,
    }
}

fn text_of(alloc: Global, size: Size, number: u32) -> Result<String> {
    let client = number % 37;
    let worker = number % 8;
    let time = number.wrapping_mul(7) % 5_003;
    let one = format!(in alloc;
        "request {number} of client {client} served by worker {worker} in {time} microseconds"
    )?;
    match size {
        Size::Short => Ok(one),
        Size::Long => Ok(format!(in alloc; "{one}; {one}; {one}")?),
    }
}

fn message_of(alloc: Global, size: Size, number: u32) -> Result<Message> {
    let text = text_of(alloc, size, number)?;
    let level = level_of(number);
    Ok(Message::new(alloc, TEXT_LIMIT, 0, level, 0, 1, text.as_str(), None)?)
}

/// The messages of a run, whose times are set as they are written.
pub fn messages(alloc: Global, size: Size) -> Result<Vec<Message>> {
    let mut messages = Vec::new(alloc);
    for number in 0..COUNT {
        messages.push(message_of(alloc, size, number)?)?;
    }
    Ok(messages)
}
