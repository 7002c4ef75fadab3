//! Loads of small configurations, over files in memory.
use crate::reports::{count_of_lines, file_named, has_faults, has_first_tickets, has_totals};
use crate::thread_tests::has_each_ticket_once;
use crate::trial::{Files, NEVER};
use alog_config::{Config, leaves, read};
use alog_load::LoadError;
use alog_pool::{Gate, Report};
use alog_sink::{FuseStore, MemStore};
use std::alloc::Global;
use std::process::Abort;
use std::sync::atomic::{AtomicU64, Ordering};
use std::sync::{Arc, Wait};
use std::thread::Threads;
use std::time::Clock;

const ONE_LOGGER: &str = "
queue = 8

[[sink]]
name = \"out\"
kind = \"memory\"
pattern = \"%n %L %v\"

[[logger]]
name = \"net\"
sinks = [\"out\"]
";

const FLUSHING: &str = "
queue = 8

[[sink]]
name = \"out\"
kind = \"rotating\"
file = \"out.log\"
max_size = 1_024
max_files = 3
pattern = \"%v\"

[[logger]]
name = \"net\"
flush_on = \"info\"
sinks = [\"out\"]
";

const TWO_LOGGERS: &str = "
queue = 8
workers = 2

[[sink]]
name = \"all\"
kind = \"memory\"
pattern = \"%n %v %E%F\"

[[sink]]
name = \"own\"
kind = \"rotating\"
file = \"own.log\"
max_size = 1_024
max_files = 3
pattern = \"%v\"

[[logger]]
name = \"net\"
sinks = [\"all\", \"own\"]

[[logger]]
name = \"db\"
sinks = [\"all\"]

[[logger]]
name = \"quiet\"
level = \"error\"
sinks = [\"own\"]
";

fn config_of(rt: &impl Abort, alloc: Global, document: &str) -> Config {
    match read(alloc, document.as_bytes()) {
        Ok(config) => config,
        Err(_) => panic!(rt; "it is a configuration"),
    }
}

// So many stores, of which the last fails its call of this number, from 0 on.
fn stores_of(rt: &impl Abort, alloc: Global, count: usize, fails: u64) -> Vec<Files> {
    let mut stores = Vec::new(alloc);
    for left in (0..count).rev() {
        let call = if left == 0 { fails } else { NEVER };
        assert!(rt;
            stores
                .push(FuseStore::new(MemStore::new(alloc), call, 0))
                .is_ok()
        );
    }
    stores
}

// What the workers of a load told their gate.
#[derive(Drop)]
struct Seen {
    begun: AtomicU64,
    ended: AtomicU64,
    /// The texts that are being handled: a bit for each ticket below 64.
    open: AtomicU64,
    /// The texts that began twice, or ended without having begun.
    strays: AtomicU64,
}

// Nothing yet.
fn unseen() -> Seen {
    Seen {
        begun: AtomicU64::new(0),
        ended: AtomicU64::new(0),
        open: AtomicU64::new(0),
        strays: AtomicU64::new(0),
    }
}

// The bit of a ticket.
fn bit(ticket: u64) -> u64 {
    1 << (ticket % 64)
}

// A gate that counts its calls.
#[derive(Drop)]
struct Counting(Arc<Seen>);

impl Gate for Counting {
    fn before(&self, _worker: u32, ticket: u64) {
        let seen: &Seen = &self.0;
        seen.begun.fetch_add(1, Ordering::SeqCst);
        if seen.open.fetch_or(bit(ticket), Ordering::SeqCst) & bit(ticket) != 0 {
            seen.strays.fetch_add(1, Ordering::SeqCst);
        }
    }

    fn after(&self, _worker: u32, ticket: u64) {
        let seen: &Seen = &self.0;
        seen.ended.fetch_add(1, Ordering::SeqCst);
        if seen.open.fetch_and(!bit(ticket), Ordering::SeqCst) & bit(ticket) == 0 {
            seen.strays.fetch_add(1, Ordering::SeqCst);
        }
    }
}

// What a load of this configuration answers, where the last store fails its call of this number.
fn answered<R: Abort + Threads + Wait + Clock + Clone + Drop + Send + Sync + 'static>(
    rt: &R,
    alloc: Global,
    load: &Loaded<'_>,
    gate: Counting,
) -> Result<Report<Files>, LoadError> {
    let config = config_of(rt, alloc, load.document);
    let count = leaves(&config);
    let stores = stores_of(rt, alloc, count, load.fails);
    assert!(rt; stores.len() == count);
    alog_load::load(
        rt,
        alloc,
        &config,
        stores,
        gate,
        load.producers,
        load.messages,
    )
}

const EIGHT_WORKERS: &str = "
queue = 8
workers = 8

[[sink]]
name = \"out\"
kind = \"memory\"
pattern = \"%n %L %v\"

[[logger]]
name = \"net\"
sinks = [\"out\"]
";

// The file of this name, in the sink at this place, has one of these.
fn has_one_of(rt: &impl Abort, report: &Report<Files>, place: usize, name: &str, wanted: &[&[u8]]) {
    let file = file_named(rt, report, place, name);
    assert!(rt; wanted.iter().any(|bytes| file == *bytes));
}

// The store of the sink at this place has this file with so many lines, or no file where that is none.
fn has_count(rt: &impl Abort, report: &Report<Files>, place: usize, name: &str, count: usize) {
    let store = report.sinks.get(place).and_then(|sink| sink.store());
    let files = if count > 0 { 1 } else { 0 };
    assert!(rt; store.is_some_and(|store| store.store().files().len() == files));
    assert!(rt; count_of_lines(file_named(rt, report, place, name)) == count);
}

// Why there is no load: a number is out of bounds, or the store of the second sink failed as it was opened.
#[derive(Clone, Copy)]
enum Fault {
    BadValue,
    SecondStore,
}

// A load of so many producers, of so many messages each, where the last store fails its call of this number.
#[derive(Clone, Copy)]
struct Loaded<'a> {
    document: &'a str,
    producers: u64,
    messages: u64,
    fails: u64,
    /// How many messages of all are asked, and by how many workers they are handled; or why there is no load.
    told: Result<(u64, usize), Fault>,
    /// How many turns at each sink are answered by a fault.
    faults: &'a [u64],
    /// How many lines each sink's file has.
    files: &'a [(&'a str, usize)],
    /// Which lines the first sink's file of its name may have, where they are looked at.
    lines: &'a [&'a [u8]],
}

const ONE: Loaded<'_> = Loaded {
    document: ONE_LOGGER,
    producers: 1,
    messages: 1,
    fails: NEVER,
    told: Err(Fault::BadValue),
    faults: &[0],
    files: &[],
    lines: &[],
};

const ONE_LIST: Loaded<'_> = Loaded {
    producers: 4,
    messages: 100,
    told: Ok((400, 1)),
    files: &[("out", 400)],
    ..ONE
};

const TWO: Loaded<'_> = Loaded {
    document: TWO_LOGGERS,
    faults: &[0, 0],
    ..ONE
};

static LOADS: [Loaded<'static>; 13] = [
    Loaded {
        messages: 3,
        told: Ok((3, 1)),
        files: &[("out", 3)],
        lines: &[b"net I 0 0\nnet I 0 1\nnet I 0 2\n"],
        ..ONE
    },
    // The time is the number; two workers write in either order.
    Loaded {
        messages: 2,
        told: Ok((2, 2)),
        files: &[("all", 2), ("own.log", 2)],
        lines: &[
            b"net 0 0 0000000000\nnet 0 1 0000000001\n",
            b"net 0 1 0000000001\nnet 0 0 0000000000\n",
        ],
        ..TWO
    },
    Loaded {
        document: EIGHT_WORKERS,
        producers: 4,
        messages: 1_000,
        told: Ok((4_000, 8)),
        files: &[("out", 4_000)],
        ..ONE
    },
    // The loggers are met in turn: of four producers two log to `net`, whose number is 0, one to `db` and one to `quiet`, which
    // filters all. What is filtered is not asked for.
    Loaded {
        producers: 4,
        messages: 50,
        told: Ok((150, 2)),
        files: &[("all", 150), ("own.log", 100)],
        ..TWO
    },
    // The most producers.
    Loaded {
        producers: 64,
        messages: 5,
        told: Ok((320, 1)),
        files: &[("out", 320)],
        ..ONE
    },
    // No messages.
    Loaded {
        producers: 2,
        messages: 0,
        told: Ok((0, 1)),
        files: &[("out", 0)],
        ..ONE
    },
    // Three of four producers log twenty texts that are handled.
    Loaded {
        producers: 4,
        messages: 20,
        told: Ok((60, 2)),
        files: &[("all", 60), ("own.log", 40)],
        ..TWO
    },
    // Numbers out of bounds.
    Loaded {
        producers: 0,
        ..ONE
    },
    Loaded {
        producers: 65,
        ..ONE
    },
    Loaded {
        messages: 1_000_001,
        ..ONE
    },
    // A store that fails as its sink is opened, or at its first line, or at its second one, where each is flushed.
    Loaded {
        messages: 10,
        fails: 0,
        told: Err(Fault::SecondStore),
        ..TWO
    },
    Loaded {
        messages: 10,
        fails: 1,
        told: Ok((10, 2)),
        faults: &[0, 10],
        ..TWO
    },
    Loaded {
        document: FLUSHING,
        messages: 10,
        fails: 3,
        told: Ok((10, 1)),
        faults: &[18],
        ..ONE
    },
];

// So many texts began, and each ended behind that. Where there are no more than have a bit, none is open, and none was a stray.
fn has_seen(rt: &impl Abort, seen: &Seen, texts: u64) {
    for word in [&seen.begun, &seen.ended] {
        assert!(rt; word.load(Ordering::SeqCst) == texts);
    }
    if texts <= 64 {
        for word in [&seen.open, &seen.strays] {
            assert!(rt; word.load(Ordering::SeqCst) == 0);
        }
    }
}

// The report of a load says so. The tickets of each worker rise, and all have together each that was handled once; those of one worker
// are the first.
fn is_reported(
    rt: &impl Abort,
    alloc: Global,
    report: &Report<Files>,
    load: &Loaded<'_>,
    told: (u64, usize),
) {
    let (asked, workers) = told;
    has_totals(rt, report, asked, 0, 0);
    has_faults(rt, report, load.faults);
    has_each_ticket_once(rt, alloc, report, workers);
    if workers == 1 {
        has_first_tickets(rt, report, 0, asked as usize);
    }
    for (place, (name, count)) in load.files.iter().enumerate() {
        has_count(rt, report, place, name, *count);
    }
    if let ([(name, _), ..], [_, ..]) = (load.files, load.lines) {
        has_one_of(rt, report, 0, name, load.lines);
    }
}

// A load answers so.
fn is_told(
    rt: &impl Abort,
    alloc: Global,
    answer: Result<Report<Files>, LoadError>,
    load: &Loaded<'_>,
) {
    match (answer, load.told) {
        (Ok(report), Ok(told)) => is_reported(rt, alloc, &report, load, told),
        (Err(LoadError::BadValue), Err(Fault::BadValue)) => {}
        (
            Err(
                LoadError::Store {
                    sink: 1,
                    reason: None,
                },
            ),
            Err(Fault::SecondStore),
        ) => {}
        _ => panic!(rt; "another answer"),
    }
}

// What a gate notes, shared with it.
fn shared(rt: &impl Abort, alloc: Global) -> (Arc<Seen>, Counting) {
    let Ok(seen) = Arc::new(alloc, unseen()) else {
        panic!(rt; "out of memory")
    };
    match Arc::try_clone(&seen) {
        Ok(same) => (seen, Counting(same)),
        Err(_) => panic!(rt; "out of memory"),
    }
}

// A load does so.
fn goes<R: Abort + Threads + Wait + Clock + Clone + Drop + Send + Sync + 'static>(
    rt: &R,
    alloc: Global,
    load: &Loaded<'_>,
) {
    let (seen, gate) = shared(rt, alloc);
    let answer = answered(rt, alloc, load, gate);
    is_told(rt, alloc, answer, load);
    has_seen(rt, &seen, texts_of(load.told));
}

// How many texts are handled where this is told.
fn texts_of(told: Result<(u64, usize), Fault>) -> u64 {
    match told {
        Ok((asked, _)) => asked,
        Err(_) => 0,
    }
}

#[test]
fn one_list_of_tickets(rt: HostRuntime) {
    goes(&rt, rt.alloc(), &ONE_LIST);
}

fn loads() -> &'static [Loaded<'static>] {
    &LOADS
}

#[test]
fn loads_and_their_reports(rt: HostRuntime) {
    for load in loads() {
        goes(&rt, rt.alloc(), load);
    }
}
