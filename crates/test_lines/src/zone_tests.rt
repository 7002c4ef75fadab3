//! Zones with rules.
use crate::buffer_tests::buffer;
use crate::format_tests::{at, check};
use crate::formatter_tests::shows;
use crate::pattern_tests::compiled;
use alog_format::{Context, Formatter, Zone};
use jiff::Timestamp;
use jiff::civil::DateTime;
use jiff::tz::TimeZone;
use std::alloc::{AllocError, Global};
use std::process::Abort;
use std::test::Fail;

const BERLIN: &str = "CET-1CEST,M3.5.0,M10.5.0/3";

const NEW_YORK: &str = "EST5EDT,M3.2.0,M11.1.0";

const SYDNEY: &str = "AEST-10AEDT,M10.1.0,M4.1.0/3";

const LORD_HOWE: &str = "<+1030>-10:30<+11>-11,M10.1.0,M4.1.0";

/// A zone whose last nanosecond of a year is at another offset than the one before.
const TURN_OF_THE_YEAR: &str = "AAA0BBB,0/0,J365/25";

const PATTERN: &str = "%Y-%m-%d %T.%F %z";

/// What lines show by a rule.
fn by(rt: &impl Abort, rule: &str) -> Context {
    match Zone::rule(rule) {
        Some(zone) => Context { zone, process: 0 },
        None => panic!(rt; "no rule: {rule}"),
    }
}

// The clock goes forward, and an hour does not come, or half an hour; it goes back, and one comes twice; before 1970; at both
// ends of the range; at offsets with seconds, which are dropped toward zero; and within a second. The texts are those of
// Python's `zoneinfo`, but for the last three, where a rule means what `jiff` has of it.
const CLOCKS: [(&str, i64, &str); 28] = [
    (
        BERLIN,
        1_711_846_799_999_999_999,
        "2024-03-31 01:59:59.999999999 +01:00",
    ),
    (
        BERLIN,
        1_711_846_800_000_000_000,
        "2024-03-31 03:00:00.000000000 +02:00",
    ),
    (
        BERLIN,
        1_729_990_799_999_999_999,
        "2024-10-27 02:59:59.999999999 +02:00",
    ),
    (
        BERLIN,
        1_729_990_800_000_000_000,
        "2024-10-27 02:00:00.000000000 +01:00",
    ),
    (
        BERLIN,
        1_729_989_000_000_000_000,
        "2024-10-27 02:30:00.000000000 +02:00",
    ),
    (
        BERLIN,
        1_729_992_600_000_000_000,
        "2024-10-27 02:30:00.000000000 +01:00",
    ),
    (
        BERLIN,
        -23_929_200_000_000_001,
        "1969-03-30 01:59:59.999999999 +01:00",
    ),
    (
        BERLIN,
        -23_929_200_000_000_000,
        "1969-03-30 03:00:00.000000000 +02:00",
    ),
    (BERLIN, i64::MIN, "1677-09-21 02:12:43.145224192 +02:00"),
    (BERLIN, i64::MAX, "2262-04-12 01:47:16.854775807 +02:00"),
    (
        NEW_YORK,
        1_710_053_999_999_999_999,
        "2024-03-10 01:59:59.999999999 -05:00",
    ),
    (
        NEW_YORK,
        1_710_054_000_000_000_000,
        "2024-03-10 03:00:00.000000000 -04:00",
    ),
    (
        NEW_YORK,
        1_730_613_599_999_999_999,
        "2024-11-03 01:59:59.999999999 -04:00",
    ),
    (
        NEW_YORK,
        1_730_613_600_000_000_000,
        "2024-11-03 01:00:00.000000000 -05:00",
    ),
    (
        SYDNEY,
        1_712_419_199_999_999_999,
        "2024-04-07 02:59:59.999999999 +11:00",
    ),
    (
        SYDNEY,
        1_712_419_200_000_000_000,
        "2024-04-07 02:00:00.000000000 +10:00",
    ),
    (
        SYDNEY,
        1_728_143_999_999_999_999,
        "2024-10-06 01:59:59.999999999 +10:00",
    ),
    (
        SYDNEY,
        1_728_144_000_000_000_000,
        "2024-10-06 03:00:00.000000000 +11:00",
    ),
    (
        LORD_HOWE,
        1_712_415_599_999_999_999,
        "2024-04-07 01:59:59.999999999 +11:00",
    ),
    (
        LORD_HOWE,
        1_712_415_600_000_000_000,
        "2024-04-07 01:30:00.000000000 +10:30",
    ),
    (
        LORD_HOWE,
        1_728_142_199_999_999_999,
        "2024-10-06 01:59:59.999999999 +10:30",
    ),
    (
        LORD_HOWE,
        1_728_142_200_000_000_000,
        "2024-10-06 02:30:00.000000000 +11:00",
    ),
    ("AAA-0:00:59", 0, "1970-01-01 00:00:59.000000000 +00:00"),
    ("AAA0:00:59", 0, "1969-12-31 23:59:01.000000000 +00:00"),
    ("AAA0:01:59", 0, "1969-12-31 23:58:01.000000000 -00:01"),
    (
        "AAA-24:59:59BBB,M3.5.0,M10.5.0",
        1_720_000_000_000_000_000,
        "2024-07-04 11:46:39.000000000 +25:59",
    ),
    (
        TURN_OF_THE_YEAR,
        1_735_689_599_999_999_998,
        "2025-01-01 00:59:59.999999998 +01:00",
    ),
    (
        TURN_OF_THE_YEAR,
        1_735_689_599_999_999_999,
        "2024-12-31 23:59:59.999999999 +00:00",
    ),
];

#[test]
fn clocks_change_by_rules(rt: HostRuntime) {
    for (rule, time, text) in &CLOCKS {
        check(&rt, PATTERN, &by(&rt, rule), at(*time), text);
    }
}

// A formatter that has shown one line shows another within the same second, at another offset.
const WITHIN_A_SECOND: [(i64, &str); 4] = [
    (
        1_735_689_599_999_999_997,
        "2025-01-01 00:59:59.999999997 +01:00\n",
    ),
    (
        1_735_689_599_999_999_998,
        "2025-01-01 00:59:59.999999998 +01:00\n",
    ),
    (
        1_735_689_599_999_999_999,
        "2024-12-31 23:59:59.999999999 +00:00\n",
    ),
    (
        1_735_689_599_999_999_996,
        "2025-01-01 00:59:59.999999996 +01:00\n",
    ),
];

#[test]
fn remembers_an_offset(rt: HostRuntime) {
    let context = by(&rt, TURN_OF_THE_YEAR);
    let mut formatter = Formatter::new(compiled(&rt, PATTERN.as_bytes()));
    let mut line = buffer(&rt, formatter.pattern().longest());
    for (time, text) in &WITHIN_A_SECOND {
        shows(&rt, &mut formatter, &context, *time, text, &mut line);
    }
}

const RULES: [&str; 20] = [
    "CET-1CEST,M3.5.0,M10.5.0/3",
    "EST5EDT,M3.2.0,M11.1.0",
    "AEST-10AEDT,M10.1.0,M4.1.0/3",
    "<+1030>-10:30<+11>-11,M10.1.0,M4.1.0",
    "UTC0",
    "JST-9",
    "IST-1GMT0,M10.5.0,M3.5.0/1",
    "<-02>2<-01>,M3.5.0/-1,M10.5.0/0",
    "<+1245>-12:45<+1345>,M9.5.0/2:45,M4.1.0/3:45",
    "EET-2EEST,M3.4.4/50,M10.4.4/50",
    "<-03>3<-02>,M3.5.0/-2,M10.5.0/-1",
    "NST3:30NDT,M3.2.0,M11.1.0",
    "LMT0:44:30",
    "LMT-0:00:59",
    "AAA24:59:59",
    "AAA-24:59:59BBB,J60,300/167",
    "AAA0BBB,0/0,J365/25",
    "AAA3BBB2:59:30,J1/-167,365/167",
    "AAA-1BBB1,59,J59/0",
    "AAA12BBB-12:30:30,M2.5.0/26:59:59,M2.1.6/-0:00:01",
];

const TIMES: [i64; 10] = [
    i64::MIN,
    -1_000_000_001,
    0,
    951_782_400_000_000_000,
    1_711_846_799_999_999_999,
    1_711_846_800_000_000_000,
    1_729_990_800_000_000_000,
    1_735_689_599_999_999_998,
    1_735_689_599_999_999_999,
    i64::MAX,
];

/// A date of `jiff`, a time of it, and an offset in seconds, each as a line has it.
fn date_of_jiff(alloc: Global, at: DateTime) -> Result<String, AllocError> {
    let (year, month, day) = (at.year(), at.month(), at.day());
    format!(in alloc; "{year}-{month:02}-{day:02}")
}

fn clock_of_jiff(alloc: Global, at: DateTime) -> Result<String, AllocError> {
    let (hour, minute, second) = (at.hour(), at.minute(), at.second());
    let nanosecond = at.subsec_nanosecond();
    format!(in alloc; "{hour:02}:{minute:02}:{second:02}.{nanosecond:09}")
}

fn offset_of_jiff(alloc: Global, seconds: i32) -> Result<String, AllocError> {
    let minutes = seconds / 60;
    let sign = if minutes < 0 { '-' } else { '+' };
    let minutes = minutes.unsigned_abs();
    let (hours, minutes) = (minutes / 60, minutes % 60);
    format!(in alloc; "{sign}{hours:02}:{minutes:02}")
}

/// A date and a time of it.
fn date_and_clock_of_jiff(alloc: Global, at: DateTime) -> Result<String, AllocError> {
    let date = date_of_jiff(alloc, at)?;
    let clock = clock_of_jiff(alloc, at)?;
    format!(in alloc; "{date} {clock}")
}

/// What `jiff` has of a time.
fn timestamp_of(rt: &impl Abort, time: i64) -> Timestamp {
    match Timestamp::from_nanosecond(i128::from(time)) {
        Ok(timestamp) => timestamp,
        Err(_) => panic!(rt; "no time: {time}"),
    }
}

/// The line of `jiff`.
fn line_of_jiff(
    rt: &(impl Abort + AllocGlobal),
    zone: &TimeZone<'static>,
    time: i64,
) -> Result<String, AllocError> {
    let timestamp = timestamp_of(rt, time);
    let seconds = zone.to_offset(timestamp).seconds();
    let shown = date_and_clock_of_jiff(rt.alloc(), zone.to_datetime(timestamp))?;
    let offset = offset_of_jiff(rt.alloc(), seconds)?;
    format!(in rt.alloc(); "{shown} {offset}")
}

/// The lines of a zone are those of `jiff`.
fn are_of_jiff(
    rt: &(impl Abort + AllocGlobal),
    zone: &TimeZone<'static>,
    context: &Context,
) -> Result<(), Fail> {
    for time in &TIMES {
        let line = line_of_jiff(rt, zone, *time)?;
        check(rt, PATTERN, context, at(*time), line.as_str());
    }
    Ok(())
}

/// The zone of `jiff` by a rule.
fn zone_of_jiff(rt: &impl Abort, rule: &str) -> TimeZone<'static> {
    match TimeZone::posix(rule) {
        Ok(zone) => zone,
        Err(_) => panic!(rt; "no rule: {rule}"),
    }
}

#[test]
fn two_hundred_lines_of_jiff(rt: HostRuntime) -> Result<(), Fail> {
    for rule in &RULES {
        are_of_jiff(&rt, &zone_of_jiff(&rt, rule), &by(&rt, rule))?;
    }
    Ok(())
}

// A rule has 1 to 64 bytes, and is read as a whole.
const TEXTS: [(&str, bool); 11] = [
    (
        "<ABCDEFGHIJKLM>-10:30:00<ABCDEFGHIJKLMN>-11:00:00,M10.1.0,M4.1.0",
        true,
    ),
    (
        "<ABCDEFGHIJKLMN>-10:30:00<ABCDEFGHIJKLMN>-11:00:00,M10.1.0,M4.1.0",
        false,
    ),
    ("UTC0", true),
    ("UTC0 ", false),
    ("", false),
    ("UTC", false),
    ("Europe/Berlin", false),
    ("CET-1CEST", false),
    ("CET-25", false),
    ("CET-1CEST,M3.6.0,M10.5.0/3", false),
    ("CET-1CEST,M3.5.0,M10.5.0/168", false),
];

#[test]
fn what_no_rule_is(rt: HostRuntime) {
    for (text, is_one) in &TEXTS {
        assert!(rt; Zone::rule(text).is_some() == *is_one, "{text}");
    }
}
