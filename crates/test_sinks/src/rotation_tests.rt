//! Files that are rotated, by what a sink leaves in them; names of files; and what is true of definitions.
use crate::sinks::{Deed, Named, Plan, Row, store_of};
use alog_sink::is_file_name;
use alog_sink::laws::{dated_names_differ, days_go_on, numbered_names_differ, pieces_have_one_cut};
use std::alloc::Global;
use std::test::Fail;

/// A rotating sink within 10 bytes, over these files and with so many further ones, leaves these of the texts.
type Leaves<'a> = (Named<'a>, usize, &'a [Deed<'a>], Named<'a>);

const FOUR: &[Deed<'_>] = &[
    Deed::Writes("aaaaa"),
    Deed::Writes("bbbbb"),
    Deed::Writes("ccccc"),
    Deed::Writes("ddddd"),
];

/// The last runs of four texts.
const KEPT: [(&str, &[u8]); 3] = [
    ("log.txt", b"ddddd\n"),
    ("log.1.txt", b"ccccc\n"),
    ("log.2.txt", b"bbbbb\n"),
];

/// A base and two further files, with gaps between them.
const GAPS: Named<'_> = &[
    ("log.txt", b"base"),
    ("log.2.txt", b"two"),
    ("log.4.txt", b"four"),
];

/// The same behind one rotation, and behind two.
const ONCE: Named<'_> = &[
    ("log.txt", b"aaaaaaa\n"),
    ("log.1.txt", b"base"),
    ("log.3.txt", b"two"),
    ("log.4.txt", b"four"),
];

const TWICE: Named<'_> = &[
    ("log.txt", b"bbbbb\n"),
    ("log.1.txt", b"aaaaaaa\n"),
    ("log.2.txt", b"base"),
    ("log.4.txt", b"two"),
];

static LEAVES: [Leaves<'static>; 10] = [
    // The last runs are kept.
    (&[], 2, FOUR, &KEPT),
    (
        &[],
        1,
        FOUR,
        &[("log.txt", b"ddddd\n"), ("log.1.txt", b"ccccc\n")],
    ),
    (&[], 0, FOUR, &[("log.txt", b"ddddd\n")]),
    // Two texts fit.
    (
        &[],
        2,
        &[Deed::Writes("aaa"), Deed::Writes("bbbbb")],
        &[("log.txt", b"aaa\nbbbbb\n")],
    ),
    // A long line in an empty base.
    (
        &[("log.txt", b"")],
        2,
        &[Deed::Writes("0123456789012345678")],
        &[("log.txt", b"0123456789012345678\n")],
    ),
    // The opening base is a run.
    (
        &[("log.txt", b"012345678")],
        2,
        &[Deed::Writes("aaaaa")],
        &[("log.txt", b"aaaaa\n"), ("log.1.txt", b"012345678")],
    ),
    // Absent files among the numbers.
    (GAPS, 4, &[Deed::Writes("aaaaaaa")], ONCE),
    (
        GAPS,
        4,
        &[Deed::Writes("aaaaaaa"), Deed::Writes("bbbbb")],
        TWICE,
    ),
    (ONCE, 4, &[Deed::Writes("bbbbb")], TWICE),
    // The last number.
    (
        &[("log.txt", b"base"), ("log.999.txt", b"old")],
        1_000,
        &[Deed::Writes("aaaaaaa")],
        &[
            ("log.txt", b"aaaaaaa\n"),
            ("log.1.txt", b"base"),
            ("log.1000.txt", b"old"),
        ],
    ),
];

// A function that holds a table is dear where it does more.
fn leaves() -> &'static [Leaves<'static>] {
    &LEAVES
}

/// A name of 64 bytes, and the first and the last of a thousand further files.
const LONGEST: &str = "0123456789abcdef0123456789abcdef0123456789abcdef0123456789ab.txt";

const FIRST_OF_LONGEST: &str = "0123456789abcdef0123456789abcdef0123456789abcdef0123456789ab.1.txt";

const LAST_OF_LONGEST: &str =
    "0123456789abcdef0123456789abcdef0123456789abcdef0123456789ab.1000.txt";

/// Whether a sink with that name and a thousand further files is opened over a base and the last file but one, and rotates.
fn rotates_the_longest(alloc: Global) -> Result<bool, Fail> {
    let next_to_last = "0123456789abcdef0123456789abcdef0123456789abcdef0123456789ab.999.txt";
    let store = store_of(alloc, &[(LONGEST, b"base"), (next_to_last, b"old")])?;
    let row = Row {
        plan: Plan::rotating(LONGEST, 10, 1_000),
        deeds: &[Deed::Writes("aaaaaaa")],
        files: &[
            (LONGEST, b"aaaaaaa\n"),
            (FIRST_OF_LONGEST, b"base"),
            (LAST_OF_LONGEST, b"old"),
        ],
    };
    row.holds(alloc, store)
}

#[test]
fn a_thousand_files_with_the_longest_name(rt: HostRuntime) -> Result<(), Fail> {
    assert!(rt; rotates_the_longest(rt.alloc())?);
    Ok(())
}

/// Whether a row holds.
fn holds(alloc: Global, row: Leaves<'_>) -> Result<bool, Fail> {
    let (opening, max_files, deeds, files) = row;
    let store = store_of(alloc, opening)?;
    let plan = Plan::rotating("log.txt", 10, max_files);
    Row { plan, deeds, files }.holds(alloc, store)
}

#[test]
fn files_that_are_left(rt: HostRuntime) -> Result<(), Fail> {
    for (i, row) in leaves().iter().enumerate() {
        assert!(rt; holds(rt.alloc(), *row)?, "row {i}");
    }
    Ok(())
}

/// Bases, and the first further file of each.
const NUMBERED: [(&str, &str); 6] = [
    ("log", "log.1"),
    ("log.txt", "log.1.txt"),
    (".hidden", ".hidden.1"),
    ("a.", "a..1"),
    ("a.b.c", "a.b.1.c"),
    ("...", "....1"),
];

/// Whether the first further file of this one has this name.
fn is_numbered(alloc: Global, name: &'static str, first: &str) -> Result<bool, Fail> {
    let row = Row {
        plan: Plan::rotating(name, 1, 1),
        deeds: &[Deed::Writes("a"), Deed::Writes("b")],
        files: &[(name, b"b\n"), (first, b"a\n")],
    };
    row.holds(alloc, store_of(alloc, &[])?)
}

#[test]
fn names_with_numbers(rt: HostRuntime) -> Result<(), Fail> {
    for (name, first) in &NUMBERED {
        assert!(rt; is_numbered(rt.alloc(), name, first)?, "{name}");
    }
    Ok(())
}

/// Names, and whether a file may have them: the last but one has 64 bytes, and the last one more.
const NAMES: [(&str, bool); 13] = [
    ("log.txt", true),
    (".hidden", true),
    ("a..b", true),
    ("...", true),
    ("-", true),
    ("", false),
    (".", false),
    ("..", false),
    ("a/b", false),
    ("/", false),
    ("a\0", false),
    (
        "0123456789abcdef0123456789abcdef0123456789abcdef0123456789abcdef",
        true,
    ),
    (
        "0123456789abcdef0123456789abcdef0123456789abcdef0123456789abcdef!",
        false,
    ),
];

#[test]
fn names_of_files(rt: HostRuntime) {
    for (name, is_one) in &NAMES {
        assert!(rt; is_file_name(name) == *is_one, "{name}");
    }
}

#[test]
fn laws() {
    dated_names_differ();
    days_go_on();
    numbered_names_differ();
    pieces_have_one_cut();
}
