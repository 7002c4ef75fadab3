//! Formatters, which remember a second.
use crate::buffer_tests::buffer;
use crate::format_tests::{EAST, UTC, WEST, at, message};
use crate::pattern_tests::compiled;
use alog_format::{Context, Formatter, LineBuf, format};
use alog_msg::Message;
use alog_pattern::Pattern;
use std::process::Abort;

const PATTERN: &[u8] = b"%Y-%m-%d %T.%F %a %z";

/// Writes the line of a message in place of what was there.
fn write_message(
    rt: &impl Abort,
    formatter: &mut Formatter,
    context: &Context,
    message: &Message,
    previous: Option<i64>,
    line: &mut LineBuf,
) {
    line.clear();
    assert!(rt; message.text.len() <= formatter.pattern().text_limit());
    assert!(rt; formatter.pattern().longest() <= line.room());
    formatter.format(context, "", message, previous, line);
}

/// Writes the line of a message of this time, behind one of the previous time, in place of what was there.
fn write(
    rt: &(impl Abort + AllocGlobal),
    formatter: &mut Formatter,
    context: &Context,
    previous: Option<i64>,
    time: i64,
    line: &mut LineBuf,
) {
    let message = message(rt, at(time));
    write_message(rt, formatter, context, &message, previous, line);
}

/// Writes the line of a message by the function that remembers nothing.
fn write_message_alone(
    rt: &impl Abort,
    pattern: &Pattern,
    context: &Context,
    message: &Message,
    previous: Option<i64>,
    line: &mut LineBuf,
) {
    line.clear();
    assert!(rt; message.text.len() <= pattern.text_limit());
    assert!(rt; pattern.longest() <= line.room());
    format(pattern, context, "", message, previous, line);
}

/// Writes it so, of a message of this time.
fn write_alone(
    rt: &(impl Abort + AllocGlobal),
    pattern: &Pattern,
    context: &Context,
    previous: Option<i64>,
    time: i64,
    line: &mut LineBuf,
) {
    let message = message(rt, at(time));
    write_message_alone(rt, pattern, context, &message, previous, line);
}

/// Writes the line of a message of this time, which is this text.
pub fn shows(
    rt: &(impl Abort + AllocGlobal),
    formatter: &mut Formatter,
    context: &Context,
    time: i64,
    text: &str,
    line: &mut LineBuf,
) {
    write(rt, formatter, context, None, time, line);
    assert!(rt; line.as_slice() == text.as_bytes(), "{text}");
}

/// One of three clocks.
#[derive(Clone, Copy)]
enum Clock {
    Utc,
    East,
    West,
}

fn by(clock: Clock) -> Context {
    match clock {
        Clock::Utc => UTC,
        Clock::East => EAST,
        Clock::West => WEST,
    }
}

// By one formatter, in this order. The texts are those of Python's `datetime`.
const SECONDS: [(Clock, i64, &str); 13] = [
    (Clock::Utc, 0, "1970-01-01 00:00:00.000000000 Thu +00:00\n"),
    (
        Clock::Utc,
        999_999_999,
        "1970-01-01 00:00:00.999999999 Thu +00:00\n",
    ),
    (
        Clock::East,
        999_999_999,
        "1970-01-01 23:59:00.999999999 Thu +23:59\n",
    ),
    (Clock::Utc, 1, "1970-01-01 00:00:00.000000001 Thu +00:00\n"),
    (Clock::Utc, -1, "1969-12-31 23:59:59.999999999 Wed +00:00\n"),
    (
        Clock::West,
        -1,
        "1969-12-31 00:00:59.999999999 Wed -23:59\n",
    ),
    (
        Clock::West,
        -1_000_000_000,
        "1969-12-31 00:00:59.000000000 Wed -23:59\n",
    ),
    (
        Clock::West,
        -1_000_000_001,
        "1969-12-31 00:00:58.999999999 Wed -23:59\n",
    ),
    (
        Clock::Utc,
        86_399_999_999_999,
        "1970-01-01 23:59:59.999999999 Thu +00:00\n",
    ),
    (
        Clock::Utc,
        86_400_000_000_000,
        "1970-01-02 00:00:00.000000000 Fri +00:00\n",
    ),
    (
        Clock::Utc,
        i64::MAX,
        "2262-04-11 23:47:16.854775807 Fri +00:00\n",
    ),
    (
        Clock::Utc,
        i64::MIN,
        "1677-09-21 00:12:43.145224192 Tue +00:00\n",
    ),
    (
        Clock::Utc,
        i64::MAX - 854_775_807,
        "2262-04-11 23:47:16.000000000 Fri +00:00\n",
    ),
];

#[test]
fn remembers_a_second(rt: HostRuntime) {
    let mut formatter = Formatter::new(compiled(&rt, PATTERN));
    let mut line = buffer(&rt, formatter.pattern().longest());
    for (clock, time, text) in &SECONDS {
        shows(&rt, &mut formatter, &by(*clock), *time, text, &mut line);
    }
}

// Times round whole seconds and days, on clocks of three zones: each after each.
const TIMES: [i64; 9] = [
    0,
    1,
    -1,
    999_999_999,
    -1_000_000_000,
    1_000_000_000,
    86_399_999_999_999,
    i64::MIN,
    i64::MAX,
];

// Whole seconds first, milliseconds first, none at all, padded ones, more than a formatter remembers, and elapsed times.
const PATTERNS: [&[u8]; 6] = [
    PATTERN,
    b"%e:%S %F %c",
    b"%v",
    b"%a %8H %S",
    b"%c %c %c %A %B %r",
    b"%S %u %i %o %O",
];

/// What a formatter writes of the second of two messages.
fn by_one(
    rt: &(impl Abort + AllocGlobal),
    pattern: &[u8],
    first: (Context, i64),
    second: (Context, i64),
) -> LineBuf {
    let mut formatter = Formatter::new(compiled(rt, pattern));
    let mut line = buffer(rt, formatter.pattern().longest());
    let previous = Some(first.1);
    write(rt, &mut formatter, &first.0, None, first.1, &mut line);
    write(rt, &mut formatter, &second.0, previous, second.1, &mut line);
    line
}

/// What is written of a message behind one of the previous time by nobody that remembers.
fn alone(
    rt: &(impl Abort + AllocGlobal),
    pattern: &[u8],
    previous: i64,
    said: (Context, i64),
) -> LineBuf {
    let pattern = compiled(rt, pattern);
    let mut line = buffer(rt, pattern.longest());
    write_alone(rt, &pattern, &said.0, Some(previous), said.1, &mut line);
    line
}

/// One formatter after these two messages writes what `format` does.
fn writes_as_alone(
    rt: &(impl Abort + AllocGlobal),
    pattern: &[u8],
    first: (Context, i64),
    second: (Context, i64),
) {
    let line = by_one(rt, pattern, first, second);
    let alone = alone(rt, pattern, first.1, second);
    let is_same = line.as_slice() == alone.as_slice();
    assert!(rt; is_same, "{second:?}");
}

#[test]
fn writes_any_second_after_any(rt: HostRuntime) {
    for pattern in &PATTERNS {
        for before in &TIMES {
            for after in &TIMES {
                writes_as_alone(&rt, pattern, (UTC, *before), (UTC, *after));
                writes_as_alone(&rt, pattern, (UTC, *before), (EAST, *after));
                writes_as_alone(&rt, pattern, (WEST, *before), (UTC, *after));
            }
        }
    }
}
