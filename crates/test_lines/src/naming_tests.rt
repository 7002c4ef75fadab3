//! Formatters, which remember a name and a level.
use crate::buffer_tests::buffer;
use crate::format_tests::{NOTHING, Said, UTC, message};
use crate::pattern_tests::compiled;
use alog_format::{Formatter, LineBuf, format};
use alog_msg::{Level, Message};
use alog_pattern::Pattern;
use std::process::Abort;

/// Writes the line of a message to a logger of this name in place of what was there.
fn write(
    rt: &impl Abort,
    formatter: &mut Formatter,
    name: &str,
    message: &Message,
    line: &mut LineBuf,
) {
    line.clear();
    assert!(rt; name.len() <= 64);
    assert!(rt; message.text.len() <= formatter.pattern().text_limit());
    assert!(rt; formatter.pattern().longest() <= line.room());
    formatter.format(&UTC, name, message, None, line);
}

/// Writes it by the function that remembers nothing.
fn write_alone(
    rt: &impl Abort,
    pattern: &Pattern,
    name: &str,
    message: &Message,
    line: &mut LineBuf,
) {
    line.clear();
    assert!(rt; name.len() <= 64);
    assert!(rt; message.text.len() <= pattern.text_limit());
    assert!(rt; pattern.longest() <= line.room());
    format(pattern, &UTC, name, message, None, line);
}

/// What the line at this place says.
fn said(place: u32, level: Level) -> Said<'static> {
    Said {
        level,
        time: 300_000_000 * i64::from(place),
        text: "text",
        ..NOTHING
    }
}

// By one formatter, in this order.
const NAMES: [(&str, Level, &str); 13] = [
    ("net", Level::Info, "[net] [info]: text\n"),
    ("net", Level::Info, "[net] [info]: text\n"),
    ("net", Level::Info, "[net] [info]: text\n"),
    ("disk", Level::Info, "[disk] [info]: text\n"),
    ("net", Level::Info, "[net] [info]: text\n"),
    ("net", Level::Error, "[net] [error]: text\n"),
    ("net", Level::Error, "[net] [error]: text\n"),
    ("net", Level::Info, "[net] [info]: text\n"),
    ("", Level::Info, "[] [info]: text\n"),
    ("", Level::Info, "[] [info]: text\n"),
    ("new", Level::Off, "[new] [off]: text\n"),
    ("new", Level::Off, "[new] [off]: text\n"),
    ("net", Level::Off, "[net] [off]: text\n"),
];

#[test]
fn remembers_a_name(rt: HostRuntime) {
    let mut formatter = Formatter::new(compiled(&rt, b"[%n] [%l]: %v"));
    let mut line = buffer(&rt, formatter.pattern().longest());
    for (place, (name, level, text)) in NAMES.iter().enumerate() {
        let message = message(&rt, said(place as u32, *level));
        write(&rt, &mut formatter, name, &message, &mut line);
        assert!(rt; line.as_slice() == text.as_bytes(), "{text}");
    }
}

/// 64 bytes, and 64 that differ in the last one.
const LONG: &str = "0123456789abcdef0123456789abcdef0123456789abcdef0123456789abcdef";

const OTHER: &str = "0123456789abcdef0123456789abcdef0123456789abcdef0123456789abcdeg";

// In turn and in a row.
const LINES: [(&str, Level); 20] = [
    ("", Level::Off),
    ("", Level::Off),
    ("", Level::Off),
    ("net", Level::Trace),
    ("disk", Level::Trace),
    ("net", Level::Trace),
    ("disk", Level::Debug),
    ("disk", Level::Debug),
    ("disk", Level::Debug),
    ("disk", Level::Info),
    ("disk", Level::Info),
    ("disk", Level::Debug),
    (LONG, Level::Warning),
    (LONG, Level::Warning),
    (LONG, Level::Warning),
    (OTHER, Level::Warning),
    (OTHER, Level::Warning),
    (OTHER, Level::Critical),
    ("net", Level::Critical),
    ("net", Level::Critical),
];

// A date before the name, no name, the name alone, behind the text and twice, padded ones, each item that hangs on name and
// level alone, more bytes than are remembered, more with a long name only, and a name among what is the same throughout a second.
const PATTERNS: [&[u8]; 9] = [
    b"[%Y-%m-%d %H:%M:%S.%e] [%n] [%l] %v",
    b"%e - %v",
    b"%n",
    b"%v %n|%l %v [%L] %n",
    b"%8n|%-8l|%=3L|%n",
    b"%e%^%n%%%q%l%$%L %5!v",
    b"%e----------------------------------------------------------------------------------------------------------------------------------%n",
    b"%e----------------------------------------------------------------------------%n%l %v",
    b"%S %n %M %l %H",
];

/// Writes the lines by a formatter, each as `format` does, where the numbers of their loggers are so far apart.
fn names_as_alone(rt: &(impl Abort + AllocGlobal), pattern: &[u8], apart: u32) {
    let mut formatter = Formatter::new(compiled(rt, pattern));
    let mut line = buffer(rt, formatter.pattern().longest());
    let mut alone = buffer(rt, formatter.pattern().longest());
    for (place, (name, level)) in LINES.iter().enumerate() {
        let mut message = message(rt, said(place as u32, *level));
        message.logger = apart.wrapping_mul(place as u32);
        write(rt, &mut formatter, name, &message, &mut line);
        write_alone(rt, formatter.pattern(), name, &message, &mut alone);
        let is_same = line.as_slice() == alone.as_slice();
        assert!(rt; is_same, "{name} {level:?}");
    }
}

#[test]
fn writes_any_name_after_any(rt: HostRuntime) {
    for pattern in &PATTERNS {
        for apart in [0, 1, u32::MAX] {
            names_as_alone(&rt, pattern, apart);
        }
    }
}
