//! What is done in a folder, step by step, and which files are left.
use crate::calls::Call;
use crate::sessions::{Before, Row, Step, holds};
use std::test::Fail;

/// Bytes wait in the buffer until one of these calls on their file; other files keep theirs.
const BUFFERS: Row<'_> = Row {
    name: "buffer",
    before: &[],
    sessions: &[&[
        Step::Calls(Call::Appends("flushed", b"one\n", true)),
        Step::Has("flushed", Some(b"")),
        Step::Calls(Call::Appends("asked", b"one\n", true)),
        Step::Has("asked", Some(b"")),
        Step::Calls(Call::Appends("moved", b"one\n", true)),
        Step::Has("moved", Some(b"")),
        Step::Calls(Call::Appends("replaced", b"one\n", true)),
        Step::Has("replaced", Some(b"")),
        Step::Calls(Call::Appends("removed", b"one\n", true)),
        Step::Has("removed", Some(b"")),
        Step::Calls(Call::Appends("kept", b"one\n", true)),
        Step::Has("kept", Some(b"")),
        Step::Calls(Call::Flushes("flushed", true)),
        Step::Has("flushed", Some(b"one\n")),
        Step::Calls(Call::Sizes("asked", Ok(Some(4)))),
        Step::Has("asked", Some(b"one\n")),
        Step::Calls(Call::Renames("moved", "new", true)),
        Step::Has("moved", None),
        Step::Has("new", Some(b"one\n")),
        Step::Calls(Call::Renames("none", "replaced", true)),
        Step::Has("replaced", Some(b"")),
        Step::Calls(Call::Removes("removed", true)),
        Step::Has("removed", None),
        Step::Has("kept", Some(b"")),
    ]],
    after: &[("kept", Some(b"one\n")), ("replaced", Some(b"one\n"))],
    count: 5,
};

const AGAIN: Row<'_> = Row {
    name: "again",
    before: &[],
    sessions: &[
        &[Step::Calls(Call::Appends("log", b"one\n", true))],
        &[
            Step::Has("log", Some(b"one\n")),
            Step::Calls(Call::Appends("log", b"two\n", true)),
        ],
        &[
            Step::Has("log", Some(b"one\ntwo\n")),
            Step::Calls(Call::Appends("log", b"three\n", true)),
            Step::Calls(Call::Renames("log", "old", true)),
            Step::Calls(Call::Appends("log", b"four\n", true)),
            Step::Calls(Call::Appends("old", b"five\n", true)),
            Step::Calls(Call::Removes("log", true)),
            Step::Calls(Call::Appends("log", b"six\n", true)),
        ],
    ],
    after: &[
        ("old", Some(b"one\ntwo\nthree\nfive\n")),
        ("log", Some(b"six\n")),
    ],
    count: 2,
};

/// A file is opened once, and stays open until it is renamed or removed, or the store is dropped.
const OPEN: Row<'_> = Row {
    name: "open",
    before: &[],
    sessions: &[&[
        Step::Calls(Call::Appends("a", b"x", true)),
        Step::Calls(Call::Flushes("a", true)),
        Step::Calls(Call::Appends("b", b"x", true)),
        Step::Calls(Call::Flushes("b", true)),
        Step::Calls(Call::Appends("a", b"x", true)),
        Step::Calls(Call::Flushes("a", true)),
        Step::Calls(Call::Appends("c", b"x", true)),
        Step::Calls(Call::Flushes("c", true)),
        Step::Calls(Call::Appends("b", b"x", true)),
        Step::Calls(Call::Flushes("b", true)),
        Step::HasOpen(3),
        Step::Calls(Call::Renames("a", "b", true)),
        Step::HasOpen(1),
        Step::Calls(Call::Appends("b", b"x", true)),
        Step::Calls(Call::Removes("c", true)),
        Step::HasOpen(1),
    ]],
    after: &[("b", Some(b"xxx"))],
    count: 1,
};

const ABSENT: Row<'_> = Row {
    name: "absent",
    before: &[],
    sessions: &[&[
        Step::Leaves,
        Step::Calls(Call::Appends("log", b"x", false)),
        Step::Calls(Call::Appends("log", b"x", false)),
        Step::Calls(Call::Sizes("log", Ok(None))),
        Step::Calls(Call::Renames("log", "old", true)),
        Step::Calls(Call::Removes("log", true)),
        Step::Calls(Call::Flushes("log", true)),
        Step::Comes,
        Step::Calls(Call::Appends("log", b"x", true)),
    ]],
    after: &[("log", Some(b"x"))],
    count: 1,
};

/// What an ended process left within a rename: the next one to that name removes it, whether there is a file or none.
const ASIDE: Row<'_> = Row {
    name: "aside",
    before: &[
        Before::File("a", "a"),
        Before::File("b", "b"),
        Before::File("c", "c"),
        Before::File(".b.replaced", ".b.replaced"),
        Before::File(".c.replaced", ".c.replaced"),
    ],
    sessions: &[&[
        Step::Calls(Call::Renames("none", "c", true)),
        Step::Has("c", Some(b"c")),
        Step::Calls(Call::Renames("a", "b", true)),
        Step::Has("b", Some(b"a")),
        Step::Calls(Call::Renames("b", "d", true)),
        Step::Has("d", Some(b"a")),
        Step::Calls(Call::Renames("d", "d", true)),
        Step::Has("d", Some(b"a")),
        Step::Calls(Call::Removes("c", true)),
        Step::Counts(1),
    ]],
    after: &[],
    count: 1,
};

/// Three names of 64 bytes that differ in their last byte or their first one.
const LONG: &str = "0123456789abcdef0123456789abcdef0123456789abcdef0123456789abcdef";

const LONG_END: &str = "0123456789abcdef0123456789abcdef0123456789abcdef0123456789abcdeg";

const LONG_FRONT: &str = "1123456789abcdef0123456789abcdef0123456789abcdef0123456789abcdef";

/// Files with long names are open beside one another, and each is flushed, renamed and removed alone.
const LONG_NAMES: Row<'_> = Row {
    name: "long",
    before: &[],
    sessions: &[&[
        Step::Calls(Call::Appends(LONG, b"one\n", true)),
        Step::Calls(Call::Appends(LONG_END, b"two\n", true)),
        Step::Calls(Call::Appends(LONG_FRONT, b"three\n", true)),
        Step::HasOpen(3),
        Step::Calls(Call::Flushes(LONG_END, true)),
        Step::Has(LONG, Some(b"")),
        Step::Has(LONG_END, Some(b"two\n")),
        Step::Has(LONG_FRONT, Some(b"")),
        Step::Calls(Call::Removes(LONG_END, true)),
        Step::HasOpen(2),
        Step::Calls(Call::Appends(LONG, b"four\n", true)),
        Step::Calls(Call::Renames(LONG_FRONT, LONG_END, true)),
        Step::HasOpen(1),
    ]],
    after: &[
        (LONG, Some(b"one\nfour\n")),
        (LONG_END, Some(b"three\n")),
        (LONG_FRONT, None),
    ],
    count: 2,
};

const ROWS: [Row<'_>; 3] = [BUFFERS, AGAIN, OPEN];

#[test]
fn files_that_are_left(rt: HostRuntime) -> Result<(), Fail> {
    for row in &ROWS {
        assert!(rt; holds(&rt, row)?, "{}", row.name);
    }
    Ok(())
}

const OTHER_ROWS: [Row<'_>; 3] = [ABSENT, ASIDE, LONG_NAMES];

#[test]
fn files_of_other_names_that_are_left(rt: HostRuntime) -> Result<(), Fail> {
    for row in &OTHER_ROWS {
        assert!(rt; holds(&rt, row)?, "{}", row.name);
    }
    Ok(())
}
