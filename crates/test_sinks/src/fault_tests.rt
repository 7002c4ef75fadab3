//! Sinks whose store fails: what they answer then and from then on, and what their files have.
use crate::sinks::{
    Answer, Deed, Fused, Kept, Named, Plan, Row, answered, fan_of_two, has_just, members_leave,
    notes, store_of,
};
use crate::stores::Noting;
use alog_msg::Level;
use alog_sink::{FuseStore, OpenError, Sink, SinkError, Taken, Unopened};
use std::alloc::Global;
use std::test::Fail;

/// A store that fails the call after so many, of an append when it has so many bytes.
fn fuse(alloc: Global, calls: u64, part: usize) -> Fused {
    FuseStore::new(notes(alloc), calls, part)
}

/// After how many calls a store fails, how many bytes of an append it has then, and what a memory sink over it does and leaves.
type Fault<'a> = (u64, usize, &'a [Deed<'a>], Named<'a>);

/// A text that cannot be written whole.
const CUT: &[Deed<'_>] = &[
    Deed::Writes("one"),
    Deed::Fails("two"),
    Deed::IsBroken("six"),
];

const SECOND_CALL: Fault<'_> = (
    1,
    3,
    &[
        Deed::Writes("one"),
        Deed::Fails("two"),
        Deed::IsBroken("six"),
        Deed::Flushes(Err(SinkError::Broken)),
        Deed::Gives(Level::Debug, "no", Ok(Taken::Below)),
    ],
    &[("log", b"one\ntwo")],
);

const FAULTS: [Fault<'_>; 7] = [
    // A flush that fails.
    (
        1,
        0,
        &[
            Deed::Writes("one"),
            Deed::Flushes(Err(SinkError::Store)),
            Deed::IsBroken("two"),
        ],
        &[("log", b"one\n")],
    ),
    // Each part of an append.
    (1, 0, CUT, &[("log", b"one\n")]),
    (1, 1, CUT, &[("log", b"one\nt")]),
    (1, 2, CUT, &[("log", b"one\ntw")]),
    (1, 3, CUT, &[("log", b"one\ntwo")]),
    (1, 4, CUT, &[("log", b"one\ntwo\n")]),
    (1, 5, CUT, &[("log", b"one\ntwo\n")]),
];

/// Whether a row holds of a sink of this plan.
fn holds(alloc: Global, plan: Plan, fault: Fault<'_>) -> Result<bool, Fail> {
    let (calls, part, deeds, files) = fault;
    Row { plan, deeds, files }.holds(alloc, fuse(alloc, calls, part))
}

#[test]
fn a_store_that_fails_at_its_second_call(rt: HostRuntime) -> Result<(), Fail> {
    assert!(rt; holds(rt.alloc(), Plan::MEMORY, SECOND_CALL)?);
    Ok(())
}

#[test]
fn memory_sinks_whose_store_fails(rt: HostRuntime) -> Result<(), Fail> {
    for (i, fault) in FAULTS.iter().enumerate() {
        assert!(rt; holds(rt.alloc(), Plan::MEMORY, *fault)?, "row {i}");
    }
    Ok(())
}

/// How three texts and a flush end where so many texts are written.
const NONE_IS_WRITTEN: &[Deed<'_>] = &[
    Deed::Fails("aaaaa"),
    Deed::IsBroken("bbbbb"),
    Deed::IsBroken("ccccc"),
    Deed::Flushes(Err(SinkError::Broken)),
    Deed::Gives(Level::Debug, "no", Ok(Taken::Below)),
];

const ONE_IS_WRITTEN: &[Deed<'_>] = &[
    Deed::Writes("aaaaa"),
    Deed::Fails("bbbbb"),
    Deed::IsBroken("ccccc"),
    Deed::Flushes(Err(SinkError::Broken)),
    Deed::Gives(Level::Debug, "no", Ok(Taken::Below)),
];

const TWO_ARE_WRITTEN: &[Deed<'_>] = &[
    Deed::Writes("aaaaa"),
    Deed::Writes("bbbbb"),
    Deed::Fails("ccccc"),
    Deed::Flushes(Err(SinkError::Broken)),
    Deed::Gives(Level::Debug, "no", Ok(Taken::Below)),
];

const ALL_ARE_WRITTEN: &[Deed<'_>] = &[
    Deed::Writes("aaaaa"),
    Deed::Writes("bbbbb"),
    Deed::Writes("ccccc"),
    Deed::Flushes(Ok(())),
    Deed::Gives(Level::Debug, "no", Ok(Taken::Below)),
];

static ROTATIONS: [Fault<'static>; 6] = [
    (1, 2, NONE_IS_WRITTEN, &[("log", b"aa")]),
    (2, 2, ONE_IS_WRITTEN, &[("log", b"aaaaa\n")]),
    (
        3,
        2,
        ONE_IS_WRITTEN,
        &[("log", b"bb"), ("log.1", b"aaaaa\n")],
    ),
    (
        4,
        2,
        TWO_ARE_WRITTEN,
        &[("log", b"bbbbb\n"), ("log.1", b"aaaaa\n")],
    ),
    (
        5,
        2,
        TWO_ARE_WRITTEN,
        &[("log", b"cc"), ("log.1", b"bbbbb\n")],
    ),
    (
        9,
        2,
        ALL_ARE_WRITTEN,
        &[("log", b"ccccc\n"), ("log.1", b"bbbbb\n")],
    ),
];

// A function that holds a table is dear where it does more.
fn rotations() -> &'static [Fault<'static>] {
    &ROTATIONS
}

/// How four texts and a flush end where the text of this number is the first that is not written.
const FIRST_OF_FOUR: &[Deed<'_>] = &[
    Deed::Fails("aaaaa"),
    Deed::IsBroken("bbbbb"),
    Deed::IsBroken("ccccc"),
    Deed::IsBroken("ddddd"),
    Deed::Flushes(Err(SinkError::Broken)),
];

const SECOND_OF_FOUR: &[Deed<'_>] = &[
    Deed::Writes("aaaaa"),
    Deed::Fails("bbbbb"),
    Deed::IsBroken("ccccc"),
    Deed::IsBroken("ddddd"),
    Deed::Flushes(Err(SinkError::Broken)),
];

const THIRD_OF_FOUR: &[Deed<'_>] = &[
    Deed::Writes("aaaaa"),
    Deed::Writes("bbbbb"),
    Deed::Fails("ccccc"),
    Deed::IsBroken("ddddd"),
    Deed::Flushes(Err(SinkError::Broken)),
];

const LAST_OF_FOUR: &[Deed<'_>] = &[
    Deed::Writes("aaaaa"),
    Deed::Writes("bbbbb"),
    Deed::Writes("ccccc"),
    Deed::Fails("ddddd"),
    Deed::Flushes(Err(SinkError::Broken)),
];

const FLUSH_OF_FOUR: &[Deed<'_>] = &[
    Deed::Writes("aaaaa"),
    Deed::Writes("bbbbb"),
    Deed::Writes("ccccc"),
    Deed::Writes("ddddd"),
    Deed::Flushes(Err(SinkError::Store)),
];

const NONE_OF_FOUR: &[Deed<'_>] = &[
    Deed::Writes("aaaaa"),
    Deed::Writes("bbbbb"),
    Deed::Writes("ccccc"),
    Deed::Writes("ddddd"),
    Deed::Flushes(Ok(())),
];

/// What the four texts leave where no call before the flush fails.
const FOUR: Named<'_> = &[
    ("log.txt", b"ddddd\n"),
    ("log.1.txt", b"ccccc\n"),
    ("log.2.txt", b"bbbbb\n"),
];

/// Each call behind the one that opens, of four texts over two further files: a file that makes way is first in the second place, and
/// nothing is in the first until the next call.
static CALLS_OF_FOUR: [Fault<'static>; 12] = [
    (1, 2, FIRST_OF_FOUR, &[("log.txt", b"aa")]),
    (2, 2, SECOND_OF_FOUR, &[("log.txt", b"aaaaa\n")]),
    (3, 2, SECOND_OF_FOUR, &[("log.txt", b"aaaaa\n")]),
    (
        4,
        2,
        SECOND_OF_FOUR,
        &[("log.txt", b"bb"), ("log.1.txt", b"aaaaa\n")],
    ),
    (
        5,
        2,
        THIRD_OF_FOUR,
        &[("log.txt", b"bbbbb\n"), ("log.1.txt", b"aaaaa\n")],
    ),
    (
        6,
        0,
        THIRD_OF_FOUR,
        &[("log.txt", b"bbbbb\n"), ("log.2.txt", b"aaaaa\n")],
    ),
    (
        7,
        2,
        THIRD_OF_FOUR,
        &[
            ("log.txt", b"cc"),
            ("log.1.txt", b"bbbbb\n"),
            ("log.2.txt", b"aaaaa\n"),
        ],
    ),
    (
        8,
        2,
        LAST_OF_FOUR,
        &[
            ("log.txt", b"ccccc\n"),
            ("log.1.txt", b"bbbbb\n"),
            ("log.2.txt", b"aaaaa\n"),
        ],
    ),
    (
        9,
        2,
        LAST_OF_FOUR,
        &[("log.txt", b"ccccc\n"), ("log.2.txt", b"bbbbb\n")],
    ),
    (
        10,
        2,
        LAST_OF_FOUR,
        &[
            ("log.txt", b"dd"),
            ("log.1.txt", b"ccccc\n"),
            ("log.2.txt", b"bbbbb\n"),
        ],
    ),
    (11, 2, FLUSH_OF_FOUR, FOUR),
    (12, 2, NONE_OF_FOUR, FOUR),
];

fn calls_of_four() -> &'static [Fault<'static>] {
    &CALLS_OF_FOUR
}

#[test]
fn rotating_sinks_whose_store_fails(rt: HostRuntime) -> Result<(), Fail> {
    let (one, two) = (
        Plan::rotating("log", 10, 1),
        Plan::rotating("log.txt", 10, 2),
    );
    for (plan, faults) in [(one, rotations()), (two, calls_of_four())] {
        for (i, fault) in faults.iter().enumerate() {
            assert!(rt; holds(rt.alloc(), plan, *fault)?, "{}, row {i}", plan.file);
        }
    }
    Ok(())
}

/// A file that is there when its sink is opened, of nine bytes: a line of six more makes it way.
const OLD: &[u8] = b"12345678\n";

const OLD_STAYS: &[Deed<'_>] = &[
    Deed::Fails("aaaaa"),
    Deed::IsBroken("bbbbb"),
    Deed::Flushes(Err(SinkError::Broken)),
];

const OLD_MAKES_WAY: &[Deed<'_>] = &[Deed::Writes("aaaaa"), Deed::Flushes(Err(SinkError::Store))];

const OLD_MADE_WAY: &[Deed<'_>] = &[Deed::Writes("aaaaa"), Deed::Flushes(Ok(()))];

/// Each call behind the one that opens, of a sink over that file.
const CALLS_OVER_OLD: [Fault<'_>; 5] = [
    (1, 2, OLD_STAYS, &[("log.txt", OLD)]),
    (2, 2, OLD_STAYS, &[("log.txt", OLD)]),
    (3, 2, OLD_STAYS, &[("log.txt", b"aa"), ("log.1.txt", OLD)]),
    (
        4,
        2,
        OLD_MAKES_WAY,
        &[("log.txt", b"aaaaa\n"), ("log.1.txt", OLD)],
    ),
    (
        5,
        2,
        OLD_MADE_WAY,
        &[("log.txt", b"aaaaa\n"), ("log.1.txt", OLD)],
    ),
];

/// Whether a row holds of such a sink.
fn holds_over_old(alloc: Global, fault: Fault<'_>) -> Result<bool, Fail> {
    let (calls, part, deeds, files) = fault;
    let plan = Plan::rotating("log.txt", 10, 2);
    let old = Noting::new(alloc, store_of(alloc, &[("log.txt", OLD)])?);
    Row { plan, deeds, files }.holds(alloc, FuseStore::new(old, calls, part))
}

#[test]
fn rotating_sinks_over_a_file_that_is_there(rt: HostRuntime) -> Result<(), Fail> {
    for (i, fault) in CALLS_OVER_OLD.iter().enumerate() {
        assert!(rt; holds_over_old(rt.alloc(), *fault)?, "row {i}");
    }
    Ok(())
}

/// The texts of a fan, of level error, which each of its two members writes by one call, and what a member has that wrote so many.
const TEXTS: [&str; 3] = ["a", "b", "c"];

const LINES: [Named<'_>; 4] = [
    &[("log", b"")],
    &[("log", b"a\n")],
    &[("log", b"a\nb\n")],
    &[("log", b"a\nb\nc\n")],
];

/// What a member answers at its call of this number whose store fails at that one.
fn answer_at(call: usize, fails: usize) -> Answer {
    if call < fails {
        Ok(Taken::Written)
    } else if call == fails {
        Err(SinkError::Store)
    } else {
        Err(SinkError::Broken)
    }
}

/// What a fan answers whose members' stores fail at these calls: the first fault.
fn first_at(call: usize, one: usize, two: usize) -> Answer {
    answer_at(call, one)?;
    answer_at(call, two)
}

/// The first call of a fan of two members that is not answered so, of three texts and a flush.
fn first_wrong(
    alloc: Global,
    fan: &mut Sink<Fused>,
    one: usize,
    two: usize,
) -> Result<Option<usize>, Fail> {
    let mut deeds = [Deed::Flushes(first_at(3, one, two).map(|_| ())); 4];
    for (i, text) in TEXTS.iter().enumerate() {
        deeds[i] = Deed::Gives(Level::Error, text, first_at(i, one, two));
    }
    let count = answered(alloc, fan, &deeds)?;
    if count < deeds.len() {
        Ok(Some(count))
    } else {
        Ok(None)
    }
}

/// That, and whether each member of the fan has the lines before its own fault.
fn is_left(
    alloc: Global,
    fan: &mut Sink<Fused>,
    one: usize,
    two: usize,
) -> Result<(Option<usize>, bool), Fail> {
    let wrong = first_wrong(alloc, fan, one, two)?;
    let are_left = members_leave(fan, &[LINES[one.min(3)], LINES[two.min(3)]])?;
    Ok((wrong, are_left))
}

/// The same of a fan that goes then.
fn ends(
    alloc: Global,
    mut fan: Sink<Fused>,
    one: usize,
    two: usize,
) -> Result<(Option<usize>, bool), Fail> {
    is_left(alloc, &mut fan, one, two)
}

/// The same of a fan whose members' stores fail at these calls.
fn called(alloc: Global, one: usize, two: usize) -> Result<(Option<usize>, bool), Fail> {
    let first = fuse(alloc, one as u64, 0);
    let second = fuse(alloc, two as u64, 0);
    ends(alloc, fan_of_two(alloc, first, second)?, one, two)
}

#[test]
fn each_call_of_a_fan_failing(rt: HostRuntime) -> Result<(), Fail> {
    for one in 0..5 {
        for two in 0..5 {
            let found = called(rt.alloc(), one, two)?;
            assert!(rt; found == (None, true), "{one}, {two}: {found:?}");
        }
    }
    Ok(())
}

/// The refusal of a rotating sink over a store of these files that fails at once.
fn unopened(
    alloc: Global,
    plan: Plan,
    opening: Named<'_>,
) -> Result<Option<Unopened<Fused>>, Fail> {
    let store = FuseStore::new(Noting::new(alloc, store_of(alloc, opening)?), 0, 0);
    Ok(plan.open(alloc, store)?.err())
}

/// Why it is refused, and whether it gives back what the store had.
fn of_a_refusal(
    alloc: Global,
    plan: Plan,
    opening: Named<'_>,
) -> Result<Option<(OpenError, bool)>, Fail> {
    let refusal = unopened(alloc, plan, opening)?;
    Ok(refusal.map(|it| (it.error, has_just(it.store.kept(), opening))))
}

#[test]
fn a_rotating_sink_that_cannot_be_opened(rt: HostRuntime) -> Result<(), Fail> {
    let (one, two) = (
        Plan::rotating("log", 10, 1),
        Plan::rotating("log.txt", 10, 2),
    );
    let openings: [(Plan, Named<'_>); 3] = [
        (one, &[("log", b"old\n")]),
        (two, &[]),
        (two, &[("log.txt", OLD)]),
    ];
    for (plan, opening) in openings {
        let refusal = of_a_refusal(rt.alloc(), plan, opening)?;
        let is_wanting = matches!(refusal, Some((OpenError::OutOfMemory, _)));
        assert!(rt; !is_wanting, "out of memory");
        assert!(rt; refusal == Some((OpenError::Store, true)));
    }
    Ok(())
}
