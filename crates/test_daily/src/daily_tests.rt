//! Daily sinks: which file each line goes to, which files are kept, and which are refused.
use crate::sinks::{
    DAY, MINUTE, PLAIN, Plan, START, ends, face, goes_on, leaves, opened, opened_as,
};
use alog_format::OFFSET_MAX;
use alog_pattern::Pattern;
use alog_sink::{Face, MemStore, OpenError, Sink, Unopened};
use std::alloc::Global;
use std::process::Abort;
use std::test::Fail;

const MONTHS_END: [(i64, &str); 3] = [
    (1_709_251_199_999_999_999, "last of February"),
    (1_709_251_200_000_000_000, "first of March"),
    (1_709_247_600_000_000_000, "late"),
];

const FILES_OF_MONTHS_END: [(&str, &str); 2] = [
    ("day_2024-02-29.log", "last of February\n"),
    ("day_2024-03-01.log", "first of March\nlate\n"),
];

#[test]
fn a_daily_sink(rt: HostRuntime) -> Result<(), Fail> {
    leaves(&rt, PLAIN, 0, &MONTHS_END, &FILES_OF_MONTHS_END)
}

// A sink of lines by this pattern, to files of this name.
fn opened_by(alloc: Global, pattern: &[u8], name: &str) -> Result<Sink<MemStore>, Fail> {
    let pattern = Pattern::compile(alloc, pattern, 64)?;
    let face = Face {
        pattern,
        ..face(alloc, 0)?
    };
    opened_as(alloc, face, MemStore::new(alloc), name, PLAIN)
}

const ELAPSING: [(i64, &str); 4] = [
    (1_709_251_199_999_999_000, "a"),
    (1_709_251_200_000_001_999, "b"),
    (1_709_247_600_000_000_000, "late"),
    (1_709_247_600_000_007_999, "c"),
];

const FILES_OF_ELAPSING: [(&str, &str); 2] = [
    ("day_2024-02-29.log", "0 a\n"),
    ("day_2024-03-01.log", "2 b\n0 late\n7 c\n"),
];

// The line before is the one that the sink wrote last, in whatever file it is, and a late message is one too.
#[test]
fn time_since_a_line_of_the_day_before(rt: HostRuntime) -> Result<(), Fail> {
    let sink = opened_by(rt.alloc(), b"%i %v", "day.log")?;
    ends(&rt, sink, 0, &ELAPSING, &FILES_OF_ELAPSING);
    Ok(())
}

const DOT: [(i64, &str); 1] = [(1_709_251_199_999_999_999, "a")];

const FILES_OF_DOT: [(&str, &str); 1] = [(".hidden_2024-02-29", "a\n")];

// Where the only dot of a name is its first character, the date stands behind the whole name.
#[test]
fn a_name_that_begins_with_a_dot(rt: HostRuntime) -> Result<(), Fail> {
    let sink = opened_by(rt.alloc(), b"%v", ".hidden")?;
    ends(&rt, sink, 0, &DOT, &FILES_OF_DOT);
    Ok(())
}

const BEFORE_A_CHANGE: [(i64, &str); 2] = [
    (1_709_269_200_000_000_000, "a"),
    (1_709_276_400_000_000_000, "b"),
];

const FILES_BEFORE: [(&str, &str); 1] = [("day_2024-03-01.log", "a\nb\n")];

const BEHIND_A_CHANGE: [(i64, &str); 1] = [(1_709_362_800_000_000_000, "c")];

const FILES_BEHIND: [(&str, &str); 1] = [("day_2024-03-02.log", "c\n")];

#[test]
fn a_file_that_makes_way(rt: HostRuntime) -> Result<(), Fail> {
    let plan = Plan {
        hour: 6,
        max_files: 1,
        ..PLAIN
    };
    let mut sink = opened(rt.alloc(), MemStore::new(rt.alloc()), plan)?;
    goes_on(&rt, &mut sink, 0, &BEFORE_A_CHANGE, &FILES_BEFORE);
    ends(&rt, sink, 0, &BEHIND_A_CHANGE, &FILES_BEHIND);
    Ok(())
}

// An offset, the time of a first message, and its file.
const DATES: [(i16, i64, &str); 7] = [
    (60, 1_709_247_600_000_000_000, "day_2024-03-01.log"),
    (1_439, START + MINUTE - 1, "day_2024-02-28.log"),
    (1_439, START + MINUTE, "day_2024-02-29.log"),
    (-1_439, START - MINUTE - 1, "day_2024-02-26.log"),
    (-1_439, START - MINUTE, "day_2024-02-27.log"),
    (0, i64::MIN, "day_1677-09-21.log"),
    (0, i64::MAX, "day_2262-04-11.log"),
];

#[test]
fn dates_of_zones(rt: HostRuntime) -> Result<(), Fail> {
    for (offset, time, name) in &DATES {
        let plan = Plan {
            offset: *offset,
            ..PLAIN
        };
        leaves(&rt, plan, *time, &[(0, "a")], &[(*name, "a\n")])?;
    }
    Ok(())
}

// Lines before and after a change at 23:59, from midnight on.
const CHANGING_LATE: [(i64, &str); 5] = [
    (0, "a"),
    (DAY - MINUTE - 1, "b"),
    (DAY - MINUTE, "c"),
    (2 * DAY - MINUTE - 1, "d"),
    (2 * DAY - MINUTE, "e"),
];

const FILES_OF_CHANGING_LATE: [(&str, &str); 2] = [
    ("day_2024-02-28.log", "a\nb\nc\nd\n"),
    ("day_2024-02-29.log", "e\n"),
];

#[test]
fn a_change_at_the_last_minute(rt: HostRuntime) -> Result<(), Fail> {
    for offset in [-1_439, 0, 1_439] {
        let plan = Plan {
            offset,
            hour: 23,
            minute: 59,
            max_files: 0,
        };
        let midnight = START - i64::from(offset) * MINUTE;
        leaves(&rt, plan, midnight, &CHANGING_LATE, &FILES_OF_CHANGING_LATE)?;
    }
    Ok(())
}

// Lines just before and at the change of day, of three days, the last but one late.
const THREE_DAYS: [(i64, &str); 7] = [
    (0, "a"),
    (DAY - 1, "b"),
    (DAY, "c"),
    (2 * DAY - 1, "d"),
    (2 * DAY, "e"),
    (0, "late"),
    (2 * DAY + 1, "f"),
];

// The last first.
const FILES_OF_THREE_DAYS: [(&str, &str); 3] = [
    ("day_2024-03-01.log", "e\nlate\nf\n"),
    ("day_2024-02-29.log", "c\nd\n"),
    ("day_2024-02-28.log", "a\nb\n"),
];

// With 0 to 4 files, of which 0 stands for all. The day changes so long after midnight.
fn few_files(rt: &(impl Abort + AllocGlobal), plan: Plan, after: i64) -> Result<(), Fail> {
    let first = (START - i64::from(plan.offset) * MINUTE).saturating_add(after);
    for max_files in 0..5 {
        let plan = Plan { max_files, ..plan };
        let kept = if max_files == 0 { 3 } else { max_files.min(3) };
        let files = &FILES_OF_THREE_DAYS[..kept];
        leaves(rt, plan, first, &THREE_DAYS, files)?;
    }
    Ok(())
}

// At midnight and at 23:59, in zones at both limits, in UTC and an hour before it.
#[test]
fn few_files_in_zones(rt: HostRuntime) -> Result<(), Fail> {
    for offset in [-OFFSET_MAX, 0, 60, OFFSET_MAX] {
        let midnight = Plan { offset, ..PLAIN };
        few_files(&rt, midnight, 0)?;
        let last_minute = Plan {
            hour: 23,
            minute: 59,
            ..midnight
        };
        few_files(&rt, last_minute, DAY - MINUTE)?;
    }
    Ok(())
}

// Why a sink was not opened, or none where it was.
fn refusal(opening: Result<Sink<MemStore>, Unopened<MemStore>>) -> Option<OpenError> {
    match opening {
        Ok(_) => None,
        Err(unopened) => Some(unopened.error),
    }
}

// Why no sink of this name is opened by this plan, or none where one is.
fn refusal_of(alloc: Global, plan: Plan, name: &str) -> Result<Option<OpenError>, Fail> {
    let Plan {
        hour,
        minute,
        max_files,
        ..
    } = plan;
    let face = face(alloc, 0)?;
    let store = MemStore::new(alloc);
    Ok(refusal(Sink::daily(alloc, face, store, name, hour, minute, max_files)))
}

const HIGHEST: Plan = Plan {
    hour: 23,
    minute: 59,
    max_files: 1_000,
    ..PLAIN
};

// Limits and a name, and how a daily sink of them is refused.
const REFUSED: [(Plan, &str, Option<OpenError>); 5] = [
    (Plan { hour: 24, ..PLAIN }, "", Some(OpenError::BadLimit)),
    (
        Plan {
            minute: 60,
            ..PLAIN
        },
        "a",
        Some(OpenError::BadLimit),
    ),
    (
        Plan {
            max_files: 1_001,
            ..PLAIN
        },
        "a",
        Some(OpenError::BadLimit),
    ),
    (HIGHEST, "a/b", Some(OpenError::BadName)),
    (HIGHEST, "a", None),
];

#[test]
fn refused_daily_sinks(rt: HostRuntime) -> Result<(), Fail> {
    for (i, (plan, name, error)) in REFUSED.iter().enumerate() {
        let found = refusal_of(rt.alloc(), *plan, name)?;
        assert!(rt; found != Some(OpenError::OutOfMemory), "out of memory");
        assert!(rt; found == *error, "row {i}");
    }
    Ok(())
}
