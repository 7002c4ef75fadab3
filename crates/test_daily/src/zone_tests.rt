//! Files by days in zones with rules.
use crate::sinks::{ends, face};
use alog_format::{Context, Zone};
use alog_sink::{Face, MemStore, Sink};
use std::process::Abort;
use std::test::Fail;

const BERLIN: &str = "CET-1CEST,M3.5.0,M10.5.0/3";

const LORD_HOWE: &str = "<+1030>-10:30<+11>-11,M10.1.0,M4.1.0";

// What lines show by a rule.
fn by(rt: &impl Abort, rule: &str) -> Context {
    match Zone::rule(rule) {
        Some(zone) => Context { zone, process: 7 },
        None => panic!(rt; "no rule: {rule}"),
    }
}

// A face whose clock goes by a rule.
fn face_by(rt: &(impl Abort + AllocGlobal), rule: &str) -> Result<Face, Fail> {
    let context = by(rt, rule);
    Ok(Face {
        context,
        ..face(rt.alloc(), 0)?
    })
}

// Files by days of the name `day.log`, whose days change at an hour and a minute on a clock of the rule.
fn opened(
    rt: &(impl Abort + AllocGlobal),
    rule: &str,
    hour: u32,
    minute: u32,
) -> Result<Sink<MemStore>, Fail> {
    let face = face_by(rt, rule)?;
    let store = MemStore::new(rt.alloc());
    match Sink::daily(rt.alloc(), face, store, "day.log", hour, minute, 0) {
        Ok(sink) => Ok(sink),
        Err(unopened) => Err(unopened.error.into()),
    }
}

// What a sink is given whose days change at this hour and minute by a rule, and the files that it then has.
struct Played<'a> {
    rule: &'a str,
    change: (u32, u32),
    said: &'a [(i64, &'a str)],
    files: &'a [(&'a str, &'a str)],
}

const PLAYED: [Played<'static>; 5] = [
    // A day of 23 hours, and a late message.
    Played {
        rule: BERLIN,
        change: (0, 0),
        said: &[
            (1_711_839_599_999_999_999, "a"),
            (1_711_839_600_000_000_000, "b"),
            (1_711_846_800_000_000_000, "c"),
            (1_711_922_399_999_999_999, "d"),
            (1_711_922_400_000_000_000, "e"),
            (1_711_922_399_999_999_999, "f"),
        ],
        files: &[
            ("day_2024-03-30.log", "a\n"),
            ("day_2024-03-31.log", "b\nc\nd\n"),
            ("day_2024-04-01.log", "e\nf\n"),
        ],
    },
    // A day of 25 hours.
    Played {
        rule: BERLIN,
        change: (0, 0),
        said: &[
            (1_729_979_999_999_999_999, "a"),
            (1_729_980_000_000_000_000, "b"),
            (1_730_069_999_999_999_999, "c"),
            (1_730_070_000_000_000_000, "d"),
        ],
        files: &[
            ("day_2024-10-26.log", "a\n"),
            ("day_2024-10-27.log", "b\nc\n"),
            ("day_2024-10-28.log", "d\n"),
        ],
    },
    // The day changes at half past two, which does not come.
    Played {
        rule: BERLIN,
        change: (2, 30),
        said: &[
            (1_711_800_000_000_000_000, "a"),
            (1_711_846_799_999_999_999, "b"),
            (1_711_846_800_000_000_000, "c"),
            (1_711_846_799_999_999_999, "d"),
        ],
        files: &[
            ("day_2024-03-30.log", "a\nb\n"),
            ("day_2024-03-31.log", "c\nd\n"),
        ],
    },
    // It comes twice, and the second time is no change.
    Played {
        rule: BERLIN,
        change: (2, 30),
        said: &[
            (1_729_944_000_000_000_000, "a"),
            (1_729_988_999_999_999_999, "b"),
            (1_729_989_000_000_000_000, "c"),
            (1_729_990_800_000_000_000, "d"),
            (1_729_992_600_000_000_000, "e"),
        ],
        files: &[
            ("day_2024-10-26.log", "a\nb\n"),
            ("day_2024-10-27.log", "c\nd\ne\n"),
        ],
    },
    // Half an hour does not come.
    Played {
        rule: LORD_HOWE,
        change: (2, 15),
        said: &[
            (1_728_090_000_000_000_000, "a"),
            (1_728_142_199_999_999_999, "b"),
            (1_728_142_200_000_000_000, "c"),
        ],
        files: &[
            ("day_2024-10-05.log", "a\nb\n"),
            ("day_2024-10-06.log", "c\n"),
        ],
    },
];

#[test]
fn days_by_rules(rt: HostRuntime) -> Result<(), Fail> {
    for played in &PLAYED {
        let (hour, minute) = played.change;
        let sink = opened(&rt, played.rule, hour, minute)?;
        ends(&rt, sink, 0, played.said, played.files);
    }
    Ok(())
}
