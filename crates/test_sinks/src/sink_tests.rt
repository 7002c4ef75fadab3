//! Sinks of each kind, by what they leave in their files, and those that are refused.
use crate::sinks::{Deed, Named, Plan, Row, fan_does, fan_of_plan, fan_of_two, store_of};
use alog_msg::Level;
use alog_sink::{
    FuseStore, MemStore, NameError, Names, NoFan, OpenError, Sink, Store, Taken, Unopened,
};
use std::alloc::Global;
use std::error::Error;
use std::test::Fail;

/// Names for the numbers 0, 1 and 2.
fn names(alloc: Global) -> Result<Names, Fail> {
    let mut names = Names::new(alloc);
    for name in ["net", "", "db"] {
        names.push(alloc, name)?;
    }
    Ok(names)
}

#[test]
fn names_by_number(rt: HostRuntime) -> Result<(), Fail> {
    let names = names(rt.alloc())?;
    for (number, name) in [(0, "net"), (1, ""), (2, "db"), (3, ""), (u32::MAX, "")] {
        assert!(rt; names.get(number) == name, "{number}");
    }
    Ok(())
}

/// How a name is taken, and whether the names then have it.
fn pushed(alloc: Global, name: &str) -> Result<(Result<(), NameError>, bool), NameError> {
    let mut names = Names::new(alloc);
    match names.push(alloc, name) {
        Err(NameError::OutOfMemory) => Err(NameError::OutOfMemory),
        pushed => Ok((pushed, names.get(0) == name)),
    }
}

#[test]
fn names_of_64_bytes(rt: HostRuntime) -> Result<(), Fail> {
    let longest = "nnnnnnnnnnnnnnnnnnnnnnnnnnnnnnnnnnnnnnnnnnnnnnnnnnnnnnnnnnnnnnnn";
    let longer = "nnnnnnnnnnnnnnnnnnnnnnnnnnnnnnnnnnnnnnnnnnnnnnnnnnnnnnnnnnnnnnnnn";
    assert!(rt; pushed(rt.alloc(), longest)? == (Ok(()), true));
    assert!(rt; pushed(rt.alloc(), longer)? == (Err(NameError::NameTooLong), false));
    Ok(())
}

/// The files that a sink opens, and what it does and leaves.
type Opened<'a> = (Named<'a>, Row<'a>);

const WRITING: Opened<'_> = (
    &[("log", b"old\n")],
    Row {
        plan: Plan {
            level: Level::Info,
            pattern: b"%n %L %v",
            file: "log",
            limits: None,
        },
        deeds: &[
            Deed::Writes("one"),
            Deed::Writes(""),
            Deed::Gives(Level::Debug, "no", Ok(Taken::Below)),
            Deed::Gives(Level::Off, "off", Ok(Taken::Written)),
            Deed::Flushes(Ok(())),
        ],
        files: &[("log", b"old\nnet I one\nnet I \nnet O off\n")],
    },
);

const SILENT: Opened<'_> = (
    &[],
    Row {
        plan: Plan::MEMORY,
        deeds: &[
            Deed::Flushes(Ok(())),
            Deed::Gives(Level::Trace, "no", Ok(Taken::Below)),
        ],
        files: &[],
    },
);

const ROTATING: Opened<'_> = (
    &[],
    Row {
        plan: Plan {
            level: Level::Trace,
            pattern: b"%v",
            file: "log.txt",
            limits: Some((10, 2)),
        },
        deeds: &[
            Deed::Writes("aaaaa"),
            Deed::Writes("bbbbb"),
            Deed::Writes("ccccc"),
            Deed::Writes("ddddd"),
            Deed::Flushes(Ok(())),
        ],
        files: &[
            ("log.txt", b"ddddd\n"),
            ("log.1.txt", b"ccccc\n"),
            ("log.2.txt", b"bbbbb\n"),
        ],
    },
);

/// Neither a message below the sink's level nor a flush is a line before.
const ELAPSING: Opened<'_> = (
    &[],
    Row {
        plan: Plan {
            pattern: b"%O %o %i %u",
            ..Plan::MEMORY
        },
        deeds: &[
            Deed::At(Level::Info, 0, Ok(Taken::Written)),
            Deed::At(Level::Info, 1_500_000_000, Ok(Taken::Written)),
            Deed::At(Level::Debug, 1_600_000_000, Ok(Taken::Below)),
            Deed::Flushes(Ok(())),
            Deed::At(Level::Info, 1_000_000_000, Ok(Taken::Written)),
            Deed::At(Level::Info, 1_000_001_000, Ok(Taken::Written)),
        ],
        files: &[(
            "log",
            b"0 0 0 0\n1 1500 1500000 1500000000\n0 0 0 0\n0 0 1 1000\n",
        )],
    },
);

/// The line before may stand in another file.
const ELAPSING_FILES: Opened<'_> = (
    &[],
    Row {
        plan: Plan {
            pattern: b"%u",
            limits: Some((2, 2)),
            ..Plan::MEMORY
        },
        deeds: &[
            Deed::At(Level::Info, -3, Ok(Taken::Written)),
            Deed::At(Level::Info, 2, Ok(Taken::Written)),
            Deed::At(Level::Info, 9, Ok(Taken::Written)),
        ],
        files: &[("log", b"7\n"), ("log.1", b"5\n"), ("log.2", b"0\n")],
    },
);

/// Whether a row holds.
fn holds(alloc: Global, row: &Opened<'_>) -> Result<bool, Fail> {
    let store = store_of(alloc, row.0)?;
    row.1.holds(alloc, store)
}

#[test]
fn a_memory_sink(rt: HostRuntime) -> Result<(), Fail> {
    assert!(rt; holds(rt.alloc(), &WRITING)?);
    Ok(())
}

#[test]
fn a_sink_without_a_line_has_no_file(rt: HostRuntime) -> Result<(), Fail> {
    assert!(rt; holds(rt.alloc(), &SILENT)?);
    Ok(())
}

#[test]
fn a_rotating_sink(rt: HostRuntime) -> Result<(), Fail> {
    assert!(rt; holds(rt.alloc(), &ROTATING)?);
    Ok(())
}

const FOUR_TIMES: [Deed<'_>; 4] = [
    Deed::At(Level::Info, 10, Ok(Taken::Written)),
    Deed::At(Level::Error, 15, Ok(Taken::Written)),
    Deed::At(Level::Info, 17, Ok(Taken::Written)),
    Deed::At(Level::Error, 18, Ok(Taken::Written)),
];

const FILES_OF_FOUR_TIMES: [Named<'_>; 2] = [&[("log", b"0\n5\n2\n1\n")], &[("log", b"0\n3\n")]];

/// Whether a fan of two takes texts of four times, and each member counts from the line before of its own.
fn goes_on(alloc: Global, mut fan: Sink<MemStore>) -> Result<bool, Fail> {
    fan_does(alloc, &mut fan, &FOUR_TIMES, &FILES_OF_FOUR_TIMES)
}

fn elapses_for_each(alloc: Global) -> Result<bool, Fail> {
    let plan = Plan {
        pattern: b"%u",
        ..Plan::MEMORY
    };
    goes_on(
        alloc,
        fan_of_plan(alloc, plan, MemStore::new(alloc), MemStore::new(alloc))?,
    )
}

/// Whether both rows hold.
fn elapses(alloc: Global) -> Result<bool, Fail> {
    holds(alloc, &ELAPSING)
}

fn elapses_over_files(alloc: Global) -> Result<bool, Fail> {
    holds(alloc, &ELAPSING_FILES)
}

#[test]
fn the_time_since_the_line_before(rt: HostRuntime) -> Result<(), Fail> {
    assert!(rt; elapses(rt.alloc())?, "a level");
    assert!(rt; elapses_over_files(rt.alloc())?, "files");
    assert!(rt; elapses_for_each(rt.alloc())?, "a fan");
    Ok(())
}

/// Whether a sink of one store is no fan and has no members.
fn is_no_fan(alloc: Global) -> Result<bool, Fail> {
    let sink = Plan::MEMORY.opened(alloc, MemStore::new(alloc))?;
    Ok(sink.members().is_empty() && !sink.is_fan())
}

const TWO: [Deed<'_>; 3] = [
    Deed::Writes("a"),
    Deed::Gives(Level::Error, "b", Ok(Taken::Written)),
    Deed::Flushes(Ok(())),
];

const FILES_OF_TWO: [Named<'_>; 2] = [&[("log", b"a\nb\n")], &[("log", b"b\n")]];

/// Whether a sink is a fan, and gives what it is given to each member that is to have it.
fn does_as_a_fan(alloc: Global, fan: &mut Sink<MemStore>) -> Result<bool, Fail> {
    let is_fan = fan.store().is_none() && fan.is_fan();
    Ok(fan_does(alloc, fan, &TWO, &FILES_OF_TWO)? && is_fan)
}

/// The same of a fan that goes then.
fn is_fan_of_two(alloc: Global, mut fan: Sink<MemStore>) -> Result<bool, Fail> {
    does_as_a_fan(alloc, &mut fan)
}

fn gives_to_each(alloc: Global) -> Result<bool, Fail> {
    is_fan_of_two(
        alloc,
        fan_of_two(alloc, MemStore::new(alloc), MemStore::new(alloc))?,
    )
}

#[test]
fn fans(rt: HostRuntime) -> Result<(), Fail> {
    assert!(rt; is_no_fan(rt.alloc())?);
    assert!(rt; gives_to_each(rt.alloc())?);
    Ok(())
}

/// Why a sink was refused, if it was.
fn error_of<S: Drop>(sink: Result<Sink<S>, Unopened<S>>) -> Option<OpenError> {
    match sink {
        Ok(_) => None,
        Err(refused) => Some(refused.error),
    }
}

/// Why a sink over this store is refused, if it is.
fn refusal<S: Store + Drop>(
    alloc: Global,
    plan: Plan,
    store: S,
) -> Result<Option<OpenError>, Fail> {
    match error_of(plan.open(alloc, store)?) {
        Some(OpenError::OutOfMemory) => Err(OpenError::OutOfMemory.into()),
        error => Ok(error),
    }
}

/// A memory sink.
fn memory(file: &'static str) -> Plan {
    Plan {
        file,
        ..Plan::MEMORY
    }
}

/// Whether no sink may have such a name.
fn are_bad_names(alloc: Global) -> Result<bool, Fail> {
    for name in ["", ".", "..", "a/b", "a\0"] {
        if refusal(alloc, memory(name), MemStore::new(alloc))? != Some(OpenError::BadName) {
            return Ok(false);
        }
    }
    Ok(true)
}

/// Limits and names that a rotating sink may not have, and why.
const LIMITS: [(u64, usize, &str, OpenError); 4] = [
    (0, 2, "", OpenError::BadLimit),
    (1_099_511_627_777, 2, "a", OpenError::BadLimit),
    (1, 1_001, "a", OpenError::BadLimit),
    (1_099_511_627_776, 0, "a/b", OpenError::BadName),
];

/// Whether a rotating sink is refused within each of those limits.
fn are_bad_limits(alloc: Global) -> Result<bool, Fail> {
    for (size, files, name, wanted) in &LIMITS {
        let plan = Plan::rotating(name, *size, *files);
        if refusal(alloc, plan, MemStore::new(alloc))? != Some(*wanted) {
            return Ok(false);
        }
    }
    Ok(true)
}

/// Whether a rotating sink is refused over a store that fails at once.
fn is_bad_store(alloc: Global) -> Result<bool, Fail> {
    let store = FuseStore::new(MemStore::new(alloc), 0, 0);
    let error = refusal(alloc, Plan::rotating("a", 1, 0), store)?;
    Ok(error == Some(OpenError::Store))
}

#[test]
fn refused_sinks(rt: HostRuntime) -> Result<(), Fail> {
    assert!(rt; are_bad_names(rt.alloc())?, "names");
    assert!(rt; are_bad_limits(rt.alloc())?, "limits");
    assert!(rt; is_bad_store(rt.alloc())?, "stores");
    Ok(())
}

/// So many memory sinks.
fn members(alloc: Global, count: usize) -> Result<Vec<Sink<MemStore>>, Fail> {
    let mut members = Vec::with_capacity(alloc, count)?;
    for _ in 0..count {
        members.push(Plan::MEMORY.opened(alloc, MemStore::new(alloc))?)?;
    }
    Ok(members)
}

/// How many members a fan has, or why it is refused and how many are given back.
fn fan_of(alloc: Global, members: Vec<Sink<MemStore>>) -> Result<usize, (OpenError, usize)> {
    match Sink::fan(alloc, Level::Info, members) {
        Ok(fan) => Ok(fan.members().len()),
        Err(refused) => Err((refused.error, refused.members.len())),
    }
}

#[test]
fn sizes_of_fans(rt: HostRuntime) -> Result<(), Fail> {
    for (count, wanted) in [
        (0, Err((OpenError::BadLimit, 0))),
        (1, Ok(1)),
        (16, Ok(16)),
        (17, Err((OpenError::BadLimit, 17))),
    ] {
        let members = members(rt.alloc(), count)?;
        let found = fan_of(rt.alloc(), members);
        assert!(rt;
            found != Err((OpenError::OutOfMemory, count)),
            "out of memory"
        );
        assert!(rt; found == wanted, "{count}");
    }
    Ok(())
}

/// Whether a fan of a fan is refused.
fn refuses_a_fan(alloc: Global) -> Result<bool, Fail> {
    let fan = fan_of_two(alloc, MemStore::new(alloc), MemStore::new(alloc))?;
    let members = vec![in alloc; fan]?;
    Ok(fan_of(alloc, members).is_err())
}

#[test]
fn a_fan_of_a_fan_is_refused(rt: HostRuntime) -> Result<(), Fail> {
    assert!(rt; refuses_a_fan(rt.alloc())?);
    Ok(())
}

/// Whether this is the message of an error.
fn says(alloc: Global, error: &impl Error, wanted: &str) -> Result<bool, Fail> {
    let text = format!(in alloc; "{error}")?;
    Ok(text.as_str() == wanted)
}

/// The refusal of a sink with a bad name.
fn unopened(alloc: Global) -> Result<Unopened<MemStore>, Fail> {
    match memory("a/b").open(alloc, MemStore::new(alloc))? {
        Ok(_) => Err(Fail::new("opened")),
        Err(unopened) => Ok(unopened),
    }
}

/// The refusal of a fan without members.
fn no_fan(alloc: Global) -> Result<NoFan<MemStore>, Fail> {
    match Sink::fan(alloc, Level::Info, Vec::new(alloc)) {
        Ok(_) => Err(Fail::new("made")),
        Err(no_fan) => Ok(no_fan),
    }
}

/// Whether these are their messages.
fn unopened_says(alloc: Global, wanted: &str) -> Result<bool, Fail> {
    says(alloc, &unopened(alloc)?, wanted)
}

fn no_fan_says(alloc: Global, wanted: &str) -> Result<bool, Fail> {
    says(alloc, &no_fan(alloc)?, wanted)
}

#[test]
fn refusals_are_errors(rt: HostRuntime) -> Result<(), Fail> {
    let wanted =
        "the sink was not opened: no file can have this name: allowed are 1 to 64 bytes, not . or .., without a slash or a zero byte";
    assert!(rt; unopened_says(rt.alloc(), wanted)?);
    let wanted = "the fan was not made: a limit of the sink is out of its bounds";
    assert!(rt; no_fan_says(rt.alloc(), wanted)?);
    Ok(())
}
