//! That posting takes no memory: four producers log a hundred messages each, one after another in the test's own thread, through a
//! worker that writes to a store whose bytes were reserved. Whichever allocation fails from the last producer to the end of the
//! pool, as `rt try --test --fail-alloc` makes it, the totals and the lines are as ever. Before that, a test that has no memory ends
//! and says so.
ghost use Rattle.std.specs.Prelude.{◌≡◌, IfOk, length};
ghost use Rattle.std.specs.List.{AllByRecursion};
ghost use Rattle.alog_pattern.specs.declared.patterns.TheConstants.{LINE_MAX};
ghost use Rattle.alog_sink.specs.Sinks.{Suits};
ghost use Rattle.test_pool.specs.declared.sinks.TheConstants.{TEXT_LIMIT};

use crate::reports::has_totals;
use crate::sinks::{face, sink};
use crate::trial::{PLAIN, Plan, Trial, setup_over};
use alog_msg::SourceRef;
use alog_pool::{OpenGate, Report};
use alog_sink::{Sink, Store, StoreError};
use std::alloc::{AllocError, Global};
use std::io;
use std::process::Abort;
use std::sync::Wait;
use std::thread::Threads;
use std::time::Clock;

const PRODUCERS: usize = 4;

/// How many messages each producer logs.
const EACH: usize = 100;

/// More bytes than all lines have.
const ROOM: usize = 65_536;

/// Where each second message comes from.
const SOURCE: SourceRef<'static> = SourceRef {
    file: "server.rs",
    line: 34,
    function: "serve",
};

/// A file, for which memory was reserved: what has no room there is lost. Contracts know nothing of it.
#[derive(Drop)]
struct Reserved(Vec<u8>);

impl Store for Reserved {
    ghost use Rattle.std.specs.Prelude.{false, None};
    ghost use Rattle.alog_sink.specs.Files.{no_files};

    ghost files = { λ _. no_files };

    ghost tells = { false };

    ghost failures = { λ _. 0 };

    ghost why = { λ _. None };

    fn append(&mut self, _name: &str, bytes: &[u8]) -> Result<(), StoreError> {
        drop(self.0.extend_from_slice(bytes));
        Ok(())
    }

    fn rename(&mut self, _from: &str, _to: &str) -> Result<(), StoreError> {
        Ok(())
    }

    fn remove(&mut self, _name: &str) -> Result<(), StoreError> {
        Ok(())
    }

    fn size(&mut self, _name: &str) -> Result<Option<u64>, StoreError> {
        Ok(None)
    }

    fn flush(&mut self, _name: &str) -> Result<(), StoreError> {
        Ok(())
    }

    fn reason(&self) -> Option<io::Error> {
        None
    }
}

/// A sink over such a file.
fn sinks(alloc: Global) -> Result<Vec<Sink<Reserved>>, AllocError>
    ensures { IfOk result (λ v. AllByRecursion (Suits TEXT_LIMIT LINE_MAX) v.items) }
{
    let store = Reserved(Vec::with_capacity(alloc, ROOM)?);
    let mut sinks = Vec::with_capacity(alloc, 1)?;
    sinks.push_reserved(sink(alloc, face(alloc)?, store)?);
    Ok(sinks)
}

/// One worker, a queue of eight places, and one logger, which waits for room.
const RESERVED: Plan = Plan {
    tickets_max: PRODUCERS * EACH,
    ..PLAIN
};

/// The texts, round by round a text of each producer: in each second round of more bytes than lie in a message itself.
fn texts(alloc: Global) -> Result<Vec<String>, AllocError> {
    let mut texts = Vec::with_capacity(alloc, PRODUCERS * EACH)?;
    for number in 0..PRODUCERS * EACH {
        let (message, producer) = (number / PRODUCERS, number % PRODUCERS);
        let rest = if message % 2 == 0 {
            ""
        } else {
            " and what a request says of itself in more than seventy bytes, of which each is kept"
        };
        texts.push(format!(in alloc; "{producer} {message}{rest}")?)?;
    }
    Ok(texts)
}

/// The lines of these texts.
fn lines(alloc: Global, texts: &[String]) -> Result<Vec<u8>, AllocError> {
    let mut lines = Vec::new(alloc);
    for text in texts {
        lines.extend_from_slice(text.as_bytes())?;
        lines.push(b'\n')?;
    }
    Ok(lines)
}

/// Lets the producers log these texts in turn, each second of a producer's with a source.
fn log_all(
    rt: &(impl Abort + Wait + Clock),
    alloc: Global,
    trial: &mut Trial<Reserved>,
    texts: &[String],
) {
    for (number, text) in texts.iter().enumerate() {
        let source = match number / PRODUCERS % 2 {
            0 => None,
            _ => Some(SOURCE),
        };
        trial.log_once(rt, alloc, number % PRODUCERS, text, source);
    }
}

/// What a pool reports whose producers have.
fn reported<R: Abort + Threads + Wait + Clock + Clone + Drop + Send + 'static>(
    rt: &R,
    alloc: Global,
    texts: &[String],
) -> Report<Reserved> {
    let setup = setup_over(alloc, RESERVED, &[&[0]], sinks(alloc));
    let mut trial = Trial::start(rt, alloc, setup, OpenGate, PRODUCERS);
    log_all(rt, alloc, &mut trial, texts);
    trial.end(rt)
}

/// The file has these bytes, and no turn met a fault.
fn is_told(rt: &impl Abort, report: &Report<Reserved>, bytes: &[u8]) {
    assert!(rt; report.faults.as_slice() == [0].as_slice());
    let Some(store) = report.sinks.first().and_then(|sink| sink.store()) else {
        panic!(rt; "no sink")
    };
    assert!(rt; store.0.as_slice() == bytes);
}

#[test]
fn posting_takes_no_memory(rt: HostRuntime) {
    let alloc = rt.alloc();
    let Ok(texts) = texts(alloc) else {
        panic!(rt; "out of memory")
    };
    let Ok(wanted) = lines(alloc, &texts) else {
        panic!(rt; "out of memory")
    };
    let report = reported(&rt, alloc, &texts);
    has_totals(&rt, &report, 400, 0, 0);
    is_told(&rt, &report, &wanted);
}
