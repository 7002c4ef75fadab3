use crate::backtrace_tests::message;
use crate::trial::number_of;
use alog_msg::{Item, Level, MessageError};
use alog_policy::Policy;
use alog_registry::{AddError, Loggers, RefusedSpec, Registry, SinkDeed, SinkTurn, Spec};
use std::alloc::{AllocError, Global};
use std::process::Abort;
use std::thread::{self, Threads};

fn spec(rt: &impl Abort, alloc: Global, backtrace: usize) -> Spec {
    let Ok(sinks) = Vec::from_slice(alloc, &[3, 1]) else {
        panic!(rt; "out of memory")
    };
    Spec {
        level: Level::Info,
        policy: Policy::Block,
        flush_on: Level::Error,
        backtrace,
        sinks,
    }
}

// A logger of this name and backtrace is added, and gets this number.
fn adds(
    rt: &impl Abort,
    alloc: Global,
    registry: &mut Registry,
    name: &str,
    backtrace: usize,
    number: u32,
) {
    let added = number_of(rt, registry.add(name, spec(rt, alloc, backtrace)));
    assert!(rt; added == Some(number), "{name}");
}

// A logger of this name and backtrace is refused so, and its spec comes back.
fn refuses(
    rt: &impl Abort,
    alloc: Global,
    registry: &mut Registry,
    name: &str,
    backtrace: usize,
    wanted: AddError,
) {
    match registry.add(name, spec(rt, alloc, backtrace)) {
        Ok(_) => panic!(rt; "it is refused"),
        Err(RefusedSpec { fault, spec }) => {
            let back = spec.backtrace == backtrace && spec.sinks.as_slice() == [3, 1].as_slice();
            assert!(rt; back && fault == wanted, "{name}");
        }
    }
}

// The logger of this name has this number.
fn finds(rt: &impl Abort, registry: &Registry, name: &str, wanted: Option<u32>) {
    assert!(rt; registry.find(name) == wanted, "{name}");
}

#[test]
fn loggers_by_name(rt: HostRuntime) {
    let mut registry = Registry::new(rt.alloc());
    adds(&rt, rt.alloc(), &mut registry, "net", 0, 0);
    adds(&rt, rt.alloc(), &mut registry, "db", 4_096, 1);
    for (name, wanted) in [
        ("db", Some(1)),
        ("net", Some(0)),
        ("d", None),
        ("dbs", None),
        ("", None),
    ] {
        finds(&rt, &registry, name, wanted);
    }
}

const LONGEST: &str = "0123456789abcdef0123456789abcdef0123456789abcdef0123456789abcdef";

const NEXT_TO_LONGEST: &str = "0123456789abcdef0123456789abcdef0123456789abcdef0123456789abcde";

const TOO_LONG: &str = "0123456789abcdef0123456789abcdef0123456789abcdef0123456789abcdef!";

#[test]
fn refusals_in_order(rt: HostRuntime) {
    let mut registry = Registry::new(rt.alloc());
    adds(&rt, rt.alloc(), &mut registry, "net", 0, 0);
    for (name, wanted) in [
        (TOO_LONG, AddError::FieldTooLong),
        ("net", AddError::NameTaken),
        ("db", AddError::BadLimit),
    ] {
        refuses(&rt, rt.alloc(), &mut registry, name, 4_097, wanted);
    }
    finds(&rt, &registry, "db", None);
    adds(&rt, rt.alloc(), &mut registry, LONGEST, 4_096, 1);
    finds(&rt, &registry, LONGEST, Some(1));
    adds(&rt, rt.alloc(), &mut registry, NEXT_TO_LONGEST, 4_095, 2);
    finds(&rt, &registry, NEXT_TO_LONGEST, Some(2));
}

// The logger of this number is added, with its number as its name.
fn adds_by_number(rt: &impl Abort, alloc: Global, registry: &mut Registry, number: u32) {
    match format!(in alloc; "{number}") {
        Ok(name) => adds(rt, alloc, registry, name.as_str(), 0, number),
        Err(_) => panic!(rt; "out of memory"),
    }
}

#[test]
fn no_257th_logger(rt: HostRuntime) {
    let mut registry = Registry::new(rt.alloc());
    for number in 0..256u32 {
        adds_by_number(&rt, rt.alloc(), &mut registry, number);
    }
    let (many, taken) = (AddError::TooMany, AddError::NameTaken);
    refuses(&rt, rt.alloc(), &mut registry, "256", 4_097, many);
    refuses(&rt, rt.alloc(), &mut registry, "255", 0, taken);
    finds(&rt, &registry, "255", Some(255));
}

fn frozen(rt: &impl Abort, alloc: Global, registry: Registry) -> Loggers {
    match registry.freeze(alloc) {
        Ok(loggers) => loggers,
        Err(_) => panic!(rt; "out of memory"),
    }
}

// The first loggers have these levels, and there is no further one.
fn added_with(rt: &impl Abort, registry: &Registry, levels: [Level; 2]) {
    for (number, level) in [Some(levels[0]), Some(levels[1]), None].iter().enumerate() {
        assert!(rt; registry.level(number as u32) == *level, "{number}");
    }
}

// The same of loggers that are shared.
fn have_levels(rt: &impl Abort, loggers: &Loggers, levels: [Level; 2]) {
    for (number, level) in [Some(levels[0]), Some(levels[1]), None].iter().enumerate() {
        assert!(rt; loggers.level(number as u32) == *level, "{number}");
        assert!(rt;
            loggers.spec(number as u32).is_some() == level.is_some(),
            "{number}"
        );
    }
}

// The level of this logger is set, if there is one.
fn sets_added(rt: &impl Abort, registry: &mut Registry, number: u32, level: Level, is: bool) {
    assert!(rt; registry.set_level(number, level) == is, "{number}");
}

fn sets(rt: &impl Abort, loggers: &Loggers, number: u32, level: Level, is: bool) {
    assert!(rt; loggers.set_level(number, level) == is, "{number}");
}

// Logger 0 was set up at level info, with a backtrace of two, and logger 1 is `db`.
fn are_as_added(rt: &impl Abort, loggers: &Loggers) {
    let Some(first) = loggers.spec(0) else {
        panic!(rt; "there is a logger 0")
    };
    assert!(rt; first.level == Level::Info && first.backtrace == 2);
    assert!(rt; loggers.find("db") == Some(1) && loggers.find("b").is_none());
}

// It is printed so.
fn is_printed(rt: &impl Abort, text: Result<String, AllocError>, wanted: &str) {
    match text {
        Ok(text) => assert!(rt; text.as_str() == wanted, "{text}"),
        Err(_) => panic!(rt; "out of memory"),
    }
}

#[test]
fn what_is_printed_of_loggers(rt: HostRuntime) {
    let mut registry = Registry::new(rt.alloc());
    adds(&rt, rt.alloc(), &mut registry, "net", 2, 0);
    sets_added(&rt, &mut registry, 0, Level::Off, true);
    let wanted =
        "Registry { loggers: [Logger { name: \"net\", spec: Spec { level: Info, policy: Block, \
        flush_on: Error, backtrace: 2, sinks: [3, 1] } }], levels: [Off], .. }";
    is_printed(&rt, format!(in rt.alloc(); "{registry:?}"), wanted);
    let loggers = frozen(&rt, rt.alloc(), registry);
    let wanted =
        "Loggers { loggers: [Logger { name: \"net\", spec: Spec { level: Info, policy: Block, \
        flush_on: Error, backtrace: 2, sinks: [3, 1] } }], .. }";
    is_printed(&rt, format!(in rt.alloc(); "{loggers:?}"), wanted);
}

#[test]
fn levels_are_set(rt: HostRuntime) {
    let mut registry = Registry::new(rt.alloc());
    adds(&rt, rt.alloc(), &mut registry, "net", 2, 0);
    adds(&rt, rt.alloc(), &mut registry, "db", 0, 1);
    added_with(&rt, &registry, [Level::Info, Level::Info]);
    sets_added(&rt, &mut registry, 1, Level::Debug, true);
    sets_added(&rt, &mut registry, 9, Level::Debug, false);
    added_with(&rt, &registry, [Level::Info, Level::Debug]);
    let loggers = frozen(&rt, rt.alloc(), registry);
    have_levels(&rt, &loggers, [Level::Info, Level::Debug]);
    sets(&rt, &loggers, 0, Level::Off, true);
    sets(&rt, &loggers, 9, Level::Debug, false);
    have_levels(&rt, &loggers, [Level::Off, Level::Debug]);
    are_as_added(&rt, &loggers);
}

static LEVELS: [Level; 7] = [
    Level::Trace,
    Level::Debug,
    Level::Info,
    Level::Warning,
    Level::Error,
    Level::Critical,
    Level::Off,
];

// This logger reads the messages of these levels, and none of those before.
fn are_on(rt: &impl Abort, loggers: &Loggers, number: u32, least: usize) {
    for (place, level) in LEVELS.iter().enumerate() {
        let is = loggers.is_on(number, *level);
        assert!(rt; is == (least <= place), "{number}, {place}");
    }
}

// A logger reads what is not below its level; with a backtrace, all; and one that there is not, nothing.
#[test]
fn levels_are_on(rt: HostRuntime) {
    let mut registry = Registry::new(rt.alloc());
    adds(&rt, rt.alloc(), &mut registry, "net", 1, 0);
    adds(&rt, rt.alloc(), &mut registry, "db", 0, 1);
    let loggers = frozen(&rt, rt.alloc(), registry);
    are_on(&rt, &loggers, 0, 0);
    are_on(&rt, &loggers, 1, 2);
    sets(&rt, &loggers, 0, Level::Off, true);
    for (least, level) in LEVELS.iter().enumerate() {
        sets(&rt, &loggers, 1, *level, true);
        are_on(&rt, &loggers, 1, least);
        are_on(&rt, &loggers, 0, 0);
    }
    are_on(&rt, &loggers, 2, 7);
}

// Sets the level of logger 0 to the one of this name, while another thread reads it.
fn sets_beside_a_reader(rt: &(impl Abort + Threads), loggers: &Loggers, name: &str) {
    let Some(level) = Level::read(name) else {
        panic!(rt; "a level's name")
    };
    let (set, read) = thread::join(
        rt,
        || loggers.set_level(0, level),
        || loggers.level(0).is_some(),
    );
    assert!(rt; set && read && loggers.level(0) == Some(level), "{name}");
}

#[test]
fn each_level_is_read_back(rt: HostRuntime) {
    let mut registry = Registry::new(rt.alloc());
    adds(&rt, rt.alloc(), &mut registry, "net", 0, 0);
    let loggers = frozen(&rt, rt.alloc(), registry);
    for name in [
        "trace", "debug", "info", "warning", "error", "critical", "off",
    ] {
        sets_beside_a_reader(&rt, &loggers, name);
    }
}

fn turn(sink: u32, deed: SinkDeed) -> Option<SinkTurn> {
    Some(SinkTurn { sink, tag: 7, deed })
}

// A text of this level makes these turns, from this place on.
fn text_turns(
    rt: &impl Abort,
    alloc: Global,
    level: Level,
    from: usize,
    turns: &[Option<SinkTurn>],
) {
    let message = match message(alloc, level, "text") {
        Ok(message) => message,
        Err(MessageError::OutOfMemory) => panic!(rt; "out of memory"),
        Err(_) => panic!(rt; "no message"),
    };
    item_turns(rt, alloc, &Item::Text(message), from, turns);
}

// An item makes these turns, from this place on, by the work of a logger whose sinks are 3 and 1.
fn item_turns(
    rt: &impl Abort,
    alloc: Global,
    item: &Item,
    from: usize,
    turns: &[Option<SinkTurn>],
) {
    let spec = spec(rt, alloc, 0);
    for (i, wanted) in turns.iter().enumerate() {
        let place = from.saturating_add(i);
        assert!(rt; spec.turn_of_work(7, item, place) == *wanted, "{place}");
    }
}

#[test]
fn turns_of_a_work(rt: HostRuntime) {
    let alloc = rt.alloc();
    let (take, flush) = (SinkDeed::Take, SinkDeed::Flush);
    let bad = [
        turn(3, take),
        turn(1, take),
        turn(3, flush),
        turn(1, flush),
        None,
    ];
    text_turns(&rt, alloc, Level::Error, 0, &bad);
    text_turns(&rt, alloc, Level::Warning, 1, &[turn(1, take), None]);
    text_turns(&rt, alloc, Level::Off, 1, &[turn(1, take), None]);
    item_turns(&rt, alloc, &Item::Flush(0), 1, &[turn(1, flush), None]);
    item_turns(&rt, alloc, &Item::Stop, 0, &[None]);
}
