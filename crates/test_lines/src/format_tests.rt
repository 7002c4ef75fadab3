//! Lines.
use crate::buffer_tests::{buffer, has};
use crate::pattern_tests::{LIMIT, compiled};
use alog_format::{Context, LineBuf, OFFSET_MAX, Zone, clock_time, format};
use alog_msg::{Level, Message, MessageError, SourceRef};
use alog_pattern::Pattern;
use std::process::Abort;

pub const UTC: Context = Context {
    zone: Zone::Fixed(0),
    process: 7,
};

/// The offsets at both limits.
pub const WEST: Context = Context {
    zone: Zone::Fixed(-1439),
    process: 0,
};

pub const EAST: Context = Context {
    zone: Zone::Fixed(1439),
    process: 0,
};

/// What lines show at this offset.
fn fixed(rt: &impl Abort, offset: i16) -> Context {
    assert!(rt; -OFFSET_MAX <= offset && offset <= OFFSET_MAX);
    Context {
        zone: Zone::Fixed(offset),
        process: 0,
    }
}

/// What a line is made of.
#[derive(Clone, Copy)]
pub struct Said<'a> {
    pub name: &'a str,
    pub level: Level,
    pub time: i64,
    pub text: &'a str,
    pub source: Option<SourceRef<'a>>,
    /// The time of the message before.
    pub previous: Option<i64>,
}

/// Nothing at the epoch, at level info, with no message before.
pub const NOTHING: Said<'static> = Said {
    name: "",
    level: Level::Info,
    time: 0,
    text: "",
    source: None,
    previous: None,
};

pub fn at<'a>(time: i64) -> Said<'a> {
    Said { time, ..NOTHING }
}

pub fn message(rt: &(impl Abort + AllocGlobal), said: Said<'_>) -> Message {
    let Said {
        level,
        time,
        text,
        source,
        ..
    } = said;
    match Message::new(rt.alloc(), LIMIT, 0, level, time, 5, text, source) {
        Ok(message) => message,
        Err(MessageError::OutOfMemory) => panic!(rt; "out of memory"),
        Err(_) => panic!(rt; "no message"),
    }
}

/// Appends the line of a message.
fn append_message(
    rt: &impl Abort,
    pattern: &Pattern,
    context: &Context,
    name: &str,
    message: &Message,
    previous: Option<i64>,
    line: &mut LineBuf,
) {
    assert!(rt; name.len() <= 64);
    assert!(rt; message.text.len() <= pattern.text_limit());
    assert!(rt; pattern.longest() <= line.room());
    format(pattern, context, name, message, previous, line);
}

/// Appends the line of what is said.
fn append(
    rt: &(impl Abort + AllocGlobal),
    pattern: &Pattern,
    context: &Context,
    said: Said<'_>,
    line: &mut LineBuf,
) {
    let message = message(rt, said);
    append_message(
        rt,
        pattern,
        context,
        said.name,
        &message,
        said.previous,
        line,
    );
}

/// The line of what is said.
fn line_of(
    rt: &(impl Abort + AllocGlobal),
    pattern: &Pattern,
    context: &Context,
    said: Said<'_>,
) -> LineBuf {
    let mut line = buffer(rt, pattern.longest());
    append(rt, pattern, context, said, &mut line);
    line
}

/// The line has this text and a newline.
fn is_line(rt: &impl Abort, line: &LineBuf, text: &str) {
    let found = line.as_slice().strip_suffix(b"\n");
    assert!(rt; found == Some(text.as_bytes()), "{text}");
}

/// The line of what is said has this text and a newline.
pub fn check(
    rt: &(impl Abort + AllocGlobal),
    pattern: &str,
    context: &Context,
    said: Said<'_>,
    text: &str,
) {
    let pattern = compiled(rt, pattern.as_bytes());
    let line = line_of(rt, &pattern, context, said);
    is_line(rt, &line, text);
}

const ERROR: Said<'static> = Said {
    level: Level::Error,
    ..NOTHING
};

const NAMED: Said<'static> = Said {
    name: "abcdef",
    ..NOTHING
};

#[test]
fn pads_a_level(rt: HostRuntime) {
    let levels = "%8l|%-8l|%=8l|%3!l";
    check(&rt, levels, &UTC, NOTHING, "    info|info    |  info  |inf");
    check(&rt, "%=8l", &UTC, ERROR, " error  ");
    check(&rt, "%=5L|%-3!n|", &UTC, NAMED, "  I  |abc|");
}

const X: Said<'static> = Said {
    text: "x",
    ..NOTHING
};

const MAIN: Said<'static> = Said {
    source: Some(SourceRef {
        file: "src/main.rs",
        line: 7,
        function: "main",
    }),
    ..X
};

/// Each pattern makes this line of what is said.
fn check_all(rt: &(impl Abort + AllocGlobal), said: Said<'_>, lines: &[(&str, &str)]) {
    for (pattern, text) in lines {
        check(rt, pattern, &UTC, said, text);
    }
}

const LINES_OF_X: [(&str, &str); 3] = [
    ("%q %5q %% %", "%q %q % "),
    ("%-v|", "x|"),
    ("%5!q%@%s%g%#%!|%3!v|%^%$%t %P", "     q|  x|5 7"),
];

const LINES_OF_MAIN: [(&str, &str); 3] = [
    ("[%6!]", "[  main]"),
    ("%3!5", "main5"),
    ("%@ %s %g %# %!", "src/main.rs:7 main.rs src/main.rs 7 main"),
];

#[test]
fn writes_unknown_flags(rt: HostRuntime) {
    check_all(&rt, X, &LINES_OF_X);
    check_all(&rt, MAIN, &LINES_OF_MAIN);
}

const LATER: i64 = 1_706_974_546_000_000_000;

/// A pattern, an offset and a time, and the line.
const CLOCK_TIMES: [(&str, i16, i64, &str); 7] = [
    (
        "%Y-%m-%d %T.%F %E",
        0,
        -1,
        "1969-12-31 23:59:59.999999999 -1",
    ),
    ("%I %p", 0, 300_000_000_000, "12 AM"),
    ("%I %p %r", 0, 43_200_000_000_000, "12 PM 12:00:00 PM"),
    (
        "%c|%r|%D|%z",
        0,
        LATER,
        "Sat Feb 3 15:35:46 2024|03:35:46 PM|02/03/24|+00:00",
    ),
    ("%z %R", 120, LATER, "+02:00 17:35"),
    (
        "%z %A %B %e %f %C %x %X",
        -30,
        LATER,
        "-00:30 Saturday February 000 000000 24 02/03/24 15:05:46",
    ),
    (
        "%a %b %m %d %C %D %x %H %I %M %S %p %R %r %T %X %e %f",
        0,
        i64::MAX,
        "Fri Apr 04 11 62 04/11/62 04/11/62 23 11 47 16 PM 23:47 11:47:16 PM 23:47:16 23:47:16 854 854775",
    ),
];

#[test]
fn tells_the_time(rt: HostRuntime) {
    for (pattern, offset, time, text) in &CLOCK_TIMES {
        check(&rt, pattern, &fixed(&rt, *offset), at(*time), text);
    }
}

// The least and the greatest time, at both limits of the offset, and leap days. The texts are those of Python's `datetime`.
const DATES: [(i64, Context, &str); 8] = [
    (
        i64::MIN,
        UTC,
        "Tuesday 21 September 1677 00:12:43.145224192 +00:00 -9223372037",
    ),
    (
        i64::MIN,
        WEST,
        "Monday 20 September 1677 00:13:43.145224192 -23:59 -9223372037",
    ),
    (
        i64::MAX,
        UTC,
        "Friday 11 April 2262 23:47:16.854775807 +00:00 9223372036",
    ),
    (
        i64::MAX,
        EAST,
        "Saturday 12 April 2262 23:46:16.854775807 +23:59 9223372036",
    ),
    (
        1_709_164_800_000_000_000,
        UTC,
        "Thursday 29 February 2024 00:00:00.000000000 +00:00 1709164800",
    ),
    (
        951_868_799_999_999_999,
        UTC,
        "Tuesday 29 February 2000 23:59:59.999999999 +00:00 951868799",
    ),
    (
        4_107_542_399_999_999_999,
        EAST,
        "Monday 01 March 2100 23:58:59.999999999 +23:59 4107542399",
    ),
    (
        -1,
        WEST,
        "Wednesday 31 December 1969 00:00:59.999999999 -23:59 -1",
    ),
];

#[test]
fn tells_the_date(rt: HostRuntime) {
    for (time, context, text) in &DATES {
        check(&rt, "%A %d %B %Y %T.%F %z %E", context, at(*time), text);
    }
}

const SOME: Said<'static> = Said {
    name: "mylogger",
    time: 1_414_799_219_678_000_000,
    text: "Some message",
    ..NOTHING
};

#[test]
fn writes_the_default_format(rt: HostRuntime) {
    let some = "[2014-10-31 23:46:59.678] [mylogger] [info] Some message";
    check(&rt, "%+", &UTC, SOME, some);
    let main = "[1970-01-01 00:00:00.000] [info] [main.rs:7] x";
    check(&rt, "%+", &UTC, MAIN, main);
}

// The time from the message before: none before, the same time, later, back, on both sides of 1970, and over the whole range of
// times, where each text has its greatest length.
const ELAPSED: [(Option<i64>, i64, &str); 11] = [
    (None, 5, "0 0 0 0     0|0"),
    (Some(0), 0, "0 0 0 0     0|0"),
    (Some(0), 999, "0 0 0 999     0|9"),
    (Some(0), 1_500_000_000, "1 1500 1500000 1500000000  1500|1"),
    (Some(1_600_000_000), 1_000_000_000, "0 0 0 0     0|0"),
    (Some(1_000_000_000), 1_000_001_000, "0 0 1 1000     0|1"),
    (Some(-1), 0, "0 0 0 1     0|1"),
    (
        Some(-1_500_000_000),
        -500_000_001,
        "0 999 999999 999999999   999|9",
    ),
    (
        Some(i64::MIN),
        0,
        "9223372036 9223372036854 9223372036854775 9223372036854775808 9223372036854|9",
    ),
    (
        Some(i64::MIN),
        i64::MAX,
        "18446744073 18446744073709 18446744073709551 18446744073709551615 18446744073709|1",
    ),
    (Some(i64::MAX), i64::MIN, "0 0 0 0     0|0"),
];

#[test]
fn tells_what_has_elapsed(rt: HostRuntime) {
    for (previous, time, text) in &ELAPSED {
        let said = Said {
            previous: *previous,
            ..at(*time)
        };
        check(&rt, "%O %o %i %u %5o|%1!u", &UTC, said, text);
    }
}

const ONE: Said<'static> = Said {
    text: "one",
    ..NOTHING
};

const TWO: Said<'static> = Said {
    text: "two",
    ..ERROR
};

/// Appends two lines.
fn append_two(rt: &(impl Abort + AllocGlobal), pattern: &Pattern, line: &mut LineBuf) {
    append(rt, pattern, &UTC, ONE, line);
    append(rt, pattern, &UTC, TWO, line);
}

#[test]
fn writes_lines_one_behind_another(rt: HostRuntime) {
    let mut line = buffer(&rt, 5_000);
    append_two(&rt, &compiled(&rt, b"%L %v"), &mut line);
    has(&rt, &line, "I one\nE two\n");
}

/// An offset and a time, and their day and second.
const DAYS: [(i16, i64, i64, i64); 10] = [
    (0, 0, 0, 0),
    (0, -1, -1, 86_399),
    (0, 86_399_999_999_999, 0, 86_399),
    (0, 86_400_000_000_000, 1, 0),
    (1_439, 60_000_000_000, 1, 0),
    (-1_439, 86_340_000_000_000, 0, 0),
    (-1_439, 86_339_999_999_999, -1, 86_399),
    (60, 1_709_247_600_000_000_000, 19_783, 0),
    (1_439, i64::MAX, 106_752, 85_576),
    (-1_439, i64::MIN, -106_753, 823),
];

#[test]
fn days_and_seconds(rt: HostRuntime) {
    for (offset, time, day, second) in &DAYS {
        let shown = clock_time(&fixed(&rt, *offset).zone, *time);
        assert!(rt; (shown.day, shown.second) == (*day, *second), "{time}");
    }
}
