//! Servers: starts that are refused, runs of threads, and what is told of them.
use crate::answers::{SinkRow, Wanted, tells};
use crate::asks::{Ask, HELLO, Talk};
use crate::places::Place;
use alog_server::LogError;
use std::io;
use std::path::PathBuf;
use std::process::Abort;
use test_runs::{SHORT, SMALL, folder, lines_in};

/// What lies at the path of its folder, the document of a server, what it is asked, and what it is to tell.
type Row<'a> = (Place, &'a str, Ask<'a>, Wanted<'a>);

/// What the row of this number wants is so.
fn is_so(rt: &impl Abort, so: bool, number: usize) {
    assert!(rt; so, "row {number}");
}

/// One sink, whose files have names by dates.
const DAILY: &str = "queue = 8\n\n[[sink]]\nname = \"out\"\nkind = \"daily\"\nfile = \"out\"\n\n\
                     [[logger]]\nname = \"net\"\nsinks = [\"out\"]\n";

/// One that rotates two files.
const ROTATING: &str =
    "queue = 8\n\n[[sink]]\nname = \"out\"\nkind = \"rotating\"\nfile = \"out\"\nmax_size = 100\nmax_files = 2\n\n\
                        [[logger]]\nname = \"net\"\nsinks = [\"out\"]\n";

/// Three, of which the second is a fan of the first: the third is that of the second store.
const TWO_ROTATING: &str = "queue = 8\n\n\
    [[sink]]\nname = \"first\"\nkind = \"rotating\"\nfile = \"first\"\nmax_size = 100\nmax_files = 2\n\n\
    [[sink]]\nname = \"all\"\nkind = \"fan\"\nof = [\"first\"]\n\n\
    [[sink]]\nname = \"out\"\nkind = \"rotating\"\nfile = \"out\"\nmax_size = 100\nmax_files = 2\n\n\
    [[logger]]\nname = \"net\"\nsinks = [\"all\", \"out\"]\n";

/// One, whose file would be that by which the folder is held.
const ON_THE_LOCK: &str =
    "[[sink]]\nname = \"out\"\nkind = \"memory\"\nfile = \".alog.lock\"\n\n[[logger]]\nname = \"net\"\nsinks = [\"out\"]\n";

/// Two sinks for each message, both flushed behind it: a file to which nothing can be written, and a fan of two files.
const FAULTY: &str = "queue = 8\n\n[[sink]]\nname = \"a\"\nkind = \"memory\"\nfile = \"a.log\"\n\n\
                      [[sink]]\nname = \"lost\"\nkind = \"memory\"\nfile = \"lost.log\"\nlevel = \"info\"\n\n\
                      [[sink]]\nname = \"b\"\nkind = \"daily\"\nfile = \"b.log\"\n\n\
                      [[sink]]\nname = \"both\"\nkind = \"fan\"\nof = [\"b\", \"a\"]\n\n\
                      [[logger]]\nname = \"net\"\nsinks = [\"both\", \"lost\"]\nflush_on = \"info\"\n";

/// What is told of the sinks where three hundred messages were logged to each: those that are no fan's member, in the order of the
/// configuration. The first line waits in its buffer, and fails at its flush.
const TOLD: [SinkRow; 2] = [
    ("lost", 599, &["lost.log"]),
    ("both", 0, &["b.log", "a.log"]),
];

/// A thread that logs to a logger that is not there, and one whose text is too long.
const STRAY: Talk = Talk {
    logger: "disk",
    text: "hello",
    messages: 1,
};

const LONG: Talk = Talk {
    logger: "net",
    text: "a text of more than sixty-four bytes, which is over the text limit",
    messages: 1,
};

/// What is said of a file that is a link to itself, where its sink is the first, and where it is the third.
const LOOPS: &str =
    "sink 0, out: the size of its file cannot be read: Too many levels of symbolic links (os error 40)";

const THIRD_LOOPS: &str =
    "sink 2, out: the size of its file cannot be read: Too many levels of symbolic links (os error 40)";

/// What is to be printed, as derived implementations print it.
const PRINTED: &str =
    "Server { pool: Pool { workers: 1, producers: 0, .. }, sinks: [SinkEnd { name: \"out\", faults: 0, \
    files: NameList { texts: [\"out\"] } }], .. }\n\
    Ok(Ran { report: Report { totals: Totals { asked: 0, posted: 0, discarded: 0, overrun: 0, handled: 0 }, tickets: [[]], \
    faults: [0], .. }, sinks: [SinkEnd { name: \"out\", faults: 0, \
    files: NameList { texts: [\"out\"] } }], \
    error: Some(\"Client { producer: Producer { number: 0, .. }, .. }, Logger { number: 0, .. }\"), .. })";

const ONE: Ask<'_> = Ask::Run(1, &HELLO);

const RAN: Wanted<'_> = Wanted::Run(100, None);

static ROWS: [Row<'static>; 10] = [
    // Works that end early end the pool all the same.
    (
        Place::Folder,
        SHORT,
        Ask::Run(2, &STRAY),
        Wanted::Run(0, Some(LogError::NoLogger)),
    ),
    (
        Place::Folder,
        SHORT,
        Ask::Run(2, &LONG),
        Wanted::Run(0, Some(LogError::TextTooLong)),
    ),
    // A server has 1 to 4,096 threads.
    (
        Place::Folder,
        SMALL,
        Ask::Run(0, &HELLO),
        Wanted::BadThreads,
    ),
    (
        Place::Folder,
        SMALL,
        Ask::Run(4_097, &HELLO),
        Wanted::BadThreads,
    ),
    // Documents that are no configurations.
    (
        Place::Absent,
        "queue = \"8",
        ONE,
        Wanted::NoConfig("refused 28: the document is not TOML: line 1: invalid string"),
    ),
    (
        Place::Absent,
        "queue = 3",
        ONE,
        Wanted::NoConfig(
            "refused 30 in top: queue = 3: a value that its key can not have; it may have a power of two, 2 to 65536",
        ),
    ),
    (
        Place::Absent,
        "",
        ONE,
        Wanted::NoConfig("refused 31 in top: sink: a key is missing; it may have 1 to 256 tables"),
    ),
    // What is no obstacle is passed over.
    (Place::UsedFolder, DAILY, ONE, RAN),
    // Sinks are told with their faults and files.
    (
        Place::FullFolder,
        FAULTY,
        Ask::Run(3, &HELLO),
        Wanted::Sinks(&TOLD),
    ),
    (Place::Folder, SMALL, Ask::Print, Wanted::Printed(PRINTED)),
];

// A function that holds a table is dear where it does more.
fn rows() -> &'static [Row<'static>] {
    &ROWS
}

#[test]
fn what_servers_tell(rt: HostRuntime) -> io::Result<()> {
    for (number, (place, document, ask, wanted)) in rows().iter().enumerate() {
        let folder = place.made(&rt)?;
        let so = tells(&rt, rt.alloc(), (document, folder.as_str()), *ask, *wanted);
        place.remove(&rt, folder)?;
        is_so(&rt, so, number);
    }
    Ok(())
}

/// Places that take no lines.
const NO_FILES: Wanted<'_> = Wanted::NoLines("no files can be written to ", ": ");

const NO_FOLDER: Wanted<'_> = Wanted::NoLines("", " is no folder");

const NO_FILE: Wanted<'_> = Wanted::NoLines("", "/out cannot be written: ");

static UNWRITABLE: [Row<'static>; 11] = [
    (Place::Absent, SMALL, ONE, NO_FILES),
    (Place::Proc, SMALL, ONE, NO_FILES),
    (Place::File, SMALL, ONE, NO_FOLDER),
    (Place::Absent, DAILY, ONE, NO_FILES),
    (Place::Proc, DAILY, ONE, NO_FILES),
    (Place::File, DAILY, ONE, NO_FOLDER),
    (Place::Absent, ROTATING, ONE, NO_FILES),
    (Place::Proc, ROTATING, ONE, NO_FILES),
    (Place::File, ROTATING, ONE, NO_FOLDER),
    (Place::TakenFolder, SMALL, ONE, NO_FILE),
    (Place::TakenFolder, ROTATING, ONE, NO_FILE),
];

fn unwritable() -> &'static [Row<'static>] {
    &UNWRITABLE
}

#[test]
fn what_cannot_be_written_is_refused_at_the_start(rt: HostRuntime) -> io::Result<()> {
    for (number, (place, document, ask, wanted)) in unwritable().iter().enumerate() {
        let folder = place.made(&rt)?;
        let so = tells(&rt, rt.alloc(), (document, folder.as_str()), *ask, *wanted);
        place.remove(&rt, folder)?;
        is_so(&rt, so, number);
    }
    Ok(())
}

/// Whether this is so many lines, and all are this one.
fn are_lines(text: &str, count: usize, wanted: &str) -> bool {
    text.lines().count() == count && text.lines().all(|line| line == wanted)
}

/// Whether the file `out` of this folder has so many lines, and all are this one. The folder is removed.
fn has_lines(rt: &HostRuntime, folder: &PathBuf, count: usize, wanted: &str) -> io::Result<bool> {
    let lines = lines_in(rt, folder)?;
    Ok(are_lines(lines.as_str(), count, wanted))
}

/// The document of a server, what it is asked, and what it is to tell.
type Turn<'a> = (&'a str, Ask<'a>, Wanted<'a>);

/// Servers over one folder, one after another: three threads of the first log to one file, and one of the second behind them.
static HOLDING: [Turn<'static>; 4] = [
    (SMALL, Ask::Run(3, &HELLO), Wanted::Run(300, None)),
    (SMALL, Ask::Hold, Wanted::Held),
    (DAILY, ONE, RAN),
    (
        ON_THE_LOCK,
        ONE,
        Wanted::NoLines("", "/.alog.lock is the lock of the folder"),
    ),
];

fn holding() -> &'static [Turn<'static>] {
    &HOLDING
}

#[test]
fn a_folder_is_held_by_one_server(rt: HostRuntime) -> io::Result<()> {
    let folder = folder(&rt)?;
    for (number, (document, ask, wanted)) in holding().iter().enumerate() {
        let so = tells(&rt, rt.alloc(), (document, folder.as_str()), *ask, *wanted);
        is_so(&rt, so, number);
    }
    assert!(rt; has_lines(&rt, &folder, 400, "net I hello")?);
    Ok(())
}

/// Sinks that rotate over the stores of a folder that is empty, and of one where the file of one of them is a link to itself.
static OVER: [(Place, &str, Wanted<'static>); 4] = [
    (Place::Folder, ROTATING, RAN),
    (Place::LoopFolder, ROTATING, Wanted::NoStore(LOOPS)),
    (Place::Folder, TWO_ROTATING, RAN),
    (
        Place::LoopFolder,
        TWO_ROTATING,
        Wanted::NoStore(THIRD_LOOPS),
    ),
];

fn over() -> &'static [(Place, &'static str, Wanted<'static>)] {
    &OVER
}

#[test]
fn a_sink_that_cannot_be_opened_is_told(rt: HostRuntime) -> io::Result<()> {
    for (number, (place, document, wanted)) in over().iter().enumerate() {
        let folder = place.made(&rt)?;
        let at = (*document, folder.as_str());
        let so = tells(&rt, rt.alloc(), at, Ask::Over, *wanted);
        place.remove(&rt, folder)?;
        is_so(&rt, so, number);
    }
    Ok(())
}
