//! What is asked for.
use crate::lines::{PATTERN, TEXT};
use anyhow::{Context, Result, bail};

/// The messages of all producers, where as many are logged as go: so many spdlog's own measurement of its asynchronous logger makes.
const MESSAGES: u32 = 1_000_000;

/// The messages of all producers, where so many are offered in a second.
const OFFERED: u32 = 100_000;

const SHORT: &[u8] = b"%n %L %v";

/// A text of 16 bytes.
const SHORT_TEXT: &str = "request 123 done";

/// A text of 200 bytes, as most logs have them.
const MIDDLE_TEXT: &str =
    "request 123 of client 12 served by worker 3 in 861 microseconds, request 123 of client 12 served by \
    worker 3 in 861 microseconds, request 123 of client 12 served by worker 3 in 861 microseconds, reque";

/// A text of 1,000 bytes.
const LONG_TEXT: &str =
    "request 123 of client 12 served by worker 3 in 861 microseconds, request 123 of client 12 served by \
    worker 3 in 861 microseconds, request 123 of client 12 served by worker 3 in 861 microseconds, reque\
    st 123 of client 12 served by worker 3 in 861 microseconds, request 123 of client 12 served by worke\
    r 3 in 861 microseconds, request 123 of client 12 served by worker 3 in 861 microseconds, request 12\
    3 of client 12 served by worker 3 in 861 microseconds, request 123 of client 12 served by worker 3 i\
    n 861 microseconds, request 123 of client 12 served by worker 3 in 861 microseconds, request 123 of \
    client 12 served by worker 3 in 861 microseconds, request 123 of client 12 served by worker 3 in 86\
    1 microseconds, request 123 of client 12 served by worker 3 in 861 microseconds, request 123 of clie\
    nt 12 served by worker 3 in 861 microseconds, request 123 of client 12 served by worker 3 in 861 mic\
    roseconds, request 123 of client 12 served by worker 3 in 861 microseconds, request 123 of client 1\
    2 ";

/// Nanoseconds in a second.
const SECOND: u64 = 1_000_000_000;

/// What takes the lines.
#[derive(Clone, Copy)]
pub enum Target<'a> {
    /// Nothing keeps them.
    Null,
    /// A file in memory.
    Memory,
    /// A file in the folder with this path.
    Folder(&'a str),
}

/// What is measured.
#[derive(Clone, Copy, PartialEq, Eq)]
pub enum Figure {
    /// How many messages go in a second.
    Rate,
    /// How long each log takes.
    Times,
}

/// What one producer does.
#[derive(Clone, Copy, Drop)]
pub struct Order {
    /// How many messages it logs.
    pub count: u32,
    /// How many nanoseconds lie between the beginnings of two logs, at least.
    pub gap: u64,
    pub figure: Figure,
}

/// A run.
#[derive(Clone, Copy)]
pub struct Case<'a> {
    pub target: Target<'a>,
    pub pattern: &'static [u8],
    pub producers: u32,
    /// The text of each message.
    pub text: &'static str,
    pub order: Order,
}

impl Case<'_> {
    /// How many messages are logged by all.
    pub fn messages(&self) -> u32 {
        self.producers.wrapping_mul(self.order.count)
    }
}

/// The number that a word spells.
pub fn number(word: &str) -> Result<u32> {
    word.parse::<u32>().ok().context("no number")
}

/// The run that these words ask for.
pub fn case_of<'a>(
    store: &'a str,
    pattern: &str,
    producers: &str,
    length: &str,
    how: &str,
) -> Result<Case<'a>> {
    let target = match store {
        "null" => Target::Null,
        "memory" => Target::Memory,
        folder => Target::Folder(folder),
    };
    let pattern = match pattern {
        "short" => SHORT,
        "full" => PATTERN,
        _ => bail!("no such pattern"),
    };
    let producers = number(producers)?;
    let text = text_of(length)?;
    let order = match how {
        "rate" => Order {
            count: share_of(MESSAGES, producers),
            gap: 0,
            figure: Figure::Rate,
        },
        offered => timed(number(offered)?, producers),
    };
    Ok(Case {
        target,
        pattern,
        producers,
        text,
        order,
    })
}

/// The text of so many bytes.
fn text_of(length: &str) -> Result<&'static str> {
    match length {
        "16" => Ok(SHORT_TEXT),
        "63" => Ok(TEXT),
        "200" => Ok(MIDDLE_TEXT),
        "1000" => Ok(LONG_TEXT),
        _ => bail!("no text of this length"),
    }
}

/// How many messages each of so many producers logs, where all log so many.
fn share_of(messages: u32, producers: u32) -> u32 {
    messages.checked_div(producers).unwrap_or(0)
}

/// The order of each of so many producers that offer so many messages in a second, or as many as go where that is 0.
fn timed(offered: u32, producers: u32) -> Order {
    let all = SECOND.saturating_mul(u64::from(producers));
    let (count, gap) = match all.checked_div(u64::from(offered)) {
        Some(gap) => (share_of(OFFERED, producers), gap),
        None => (share_of(MESSAGES, producers), 0),
    };
    Order {
        count,
        gap,
        figure: Figure::Times,
    }
}
