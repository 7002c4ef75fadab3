//! What a flush of a sink flushes, and in which order a fan serves its members.
use crate::sinks::{Deed, Plan, answered, fan_of_two, notes};
use crate::stores::{Marking, Noting};
use alog_msg::Level;
use alog_sink::{FuseStore, Sink, SinkError, Taken};
use std::alloc::Global;
use std::sync::Arc;
use std::sync::atomic::{AtomicU64, Ordering};
use std::test::Fail;

/// Whether just these names were flushed of a store. It is an error of the test where there was no memory for them.
fn has_flushed(store: &Noting, names: &str) -> Result<bool, SinkError> {
    if store.has_failed {
        return Err(SinkError::Store);
    }
    Ok(store.flushed.as_str() == names)
}

/// Whether just these names were flushed of a sink's store.
fn flushed(sink: &Sink<Noting>, names: &str) -> Result<bool, SinkError> {
    match sink.store() {
        Some(store) => has_flushed(store, names),
        None => Ok(false),
    }
}

/// A sink, what is done with it, and which names were flushed then.
type Flush<'a> = (Plan, &'a [Deed<'a>], &'a str);

const ROTATING: Plan = Plan {
    file: "log.txt",
    limits: Some((10, 2)),
    ..Plan::MEMORY
};

const FLUSHES: [Flush<'_>; 3] = [
    (
        Plan::MEMORY,
        &[
            Deed::Flushes(Ok(())),
            Deed::Writes("a"),
            Deed::Flushes(Ok(())),
        ],
        "log log ",
    ),
    (
        ROTATING,
        &[Deed::Writes("aaaaa"), Deed::Writes("bbbbb")],
        "",
    ),
    (
        ROTATING,
        &[
            Deed::Writes("aaaaa"),
            Deed::Writes("bbbbb"),
            Deed::Flushes(Ok(())),
        ],
        "log.txt ",
    ),
];

/// Whether a sink answers these deeds as they say, and just these names were flushed then.
fn does(
    alloc: Global,
    sink: &mut Sink<Noting>,
    deeds: &[Deed<'_>],
    names: &str,
) -> Result<bool, Fail> {
    let count = answered(alloc, sink, deeds)?;
    Ok(count == deeds.len() && flushed(sink, names)?)
}

/// The same of a sink that goes then.
fn ends(
    alloc: Global,
    mut sink: Sink<Noting>,
    deeds: &[Deed<'_>],
    names: &str,
) -> Result<bool, Fail> {
    does(alloc, &mut sink, deeds, names)
}

/// Whether a row holds.
fn flushes(alloc: Global, flush: Flush<'_>) -> Result<bool, Fail> {
    let (plan, deeds, names) = flush;
    ends(alloc, plan.opened(alloc, notes(alloc))?, deeds, names)
}

#[test]
fn a_flush_names_its_file(rt: HostRuntime) -> Result<(), Fail> {
    for (i, flush) in FLUSHES.iter().enumerate() {
        assert!(rt; flushes(rt.alloc(), *flush)?, "row {i}");
    }
    Ok(())
}

/// Whether just these names were flushed of each of two members.
fn members_flushed(fan: &Sink<Noting>, names: &str) -> Result<bool, SinkError> {
    let members = fan.members();
    for member in members {
        if !has_flushed(member.store(), names)? {
            return Ok(false);
        }
    }
    Ok(members.len() == 2)
}

/// Whether a flush of a fan flushes the file of each member.
fn flushes_both(alloc: Global, fan: &mut Sink<Noting>) -> Result<bool, Fail> {
    let count = answered(alloc, fan, &[Deed::Flushes(Ok(()))])?;
    Ok(count == 1 && members_flushed(fan, "log ")?)
}

/// The same of a fan that goes then.
fn ends_flushed(alloc: Global, mut fan: Sink<Noting>) -> Result<bool, Fail> {
    flushes_both(alloc, &mut fan)
}

fn flushes_each(alloc: Global) -> Result<bool, Fail> {
    ends_flushed(alloc, fan_of_two(alloc, notes(alloc), notes(alloc))?)
}

#[test]
fn a_flush_of_each_member(rt: HostRuntime) -> Result<(), Fail> {
    assert!(rt; flushes_each(rt.alloc())?);
    Ok(())
}

/// Whether a fan answers as the deeds say.
fn answers_so(
    alloc: Global,
    mut fan: Sink<FuseStore<Marking>>,
    deeds: &[Deed<'_>],
) -> Result<bool, Fail> {
    Ok(answered(alloc, &mut fan, deeds)? == deeds.len())
}

/// A fan of two members that note in turn, the first with 1 and the second with 2, where the store of the first fails its call of
/// this number.
fn fan_that_marks(
    alloc: Global,
    marks: &Arc<AtomicU64>,
    fails: u64,
) -> Result<Sink<FuseStore<Marking>>, Fail> {
    let one = marking(Arc::try_clone(marks)?, 1, fails);
    let two = marking(Arc::try_clone(marks)?, 2, u64::MAX);
    fan_of_two(alloc, one, two)
}

/// What its members noted; none where the fan answers other than the deeds say.
fn marked(alloc: Global, fails: u64, deeds: &[Deed<'_>]) -> Result<Option<u64>, Fail> {
    let marks = Arc::new(alloc, AtomicU64::new(0))?;
    let is_answered = answers_so(alloc, fan_that_marks(alloc, &marks, fails)?, deeds)?;
    Ok(is_answered.then_some(marks.load(Ordering::SeqCst)))
}

fn marking(marks: Arc<AtomicU64>, digit: u64, fails: u64) -> FuseStore<Marking> {
    FuseStore::new(Marking { marks, digit }, fails, 0)
}

// Each line and each flush goes to the first member first, and a fault of its flush does not keep the second from its own.
#[test]
fn a_fan_serves_its_members_in_order(rt: HostRuntime) -> Result<(), Fail> {
    let deeds = [
        Deed::Gives(Level::Error, "x", Ok(Taken::Written)),
        Deed::Flushes(Ok(())),
    ];
    let in_order = marked(rt.alloc(), u64::MAX, deeds.as_slice())?;
    let failed = [Deed::Flushes(Err(SinkError::Store))];
    let behind_a_fault = marked(rt.alloc(), 0, failed.as_slice())?;
    assert!(rt; (in_order, behind_a_fault) == (Some(1212), Some(2)));
    Ok(())
}
