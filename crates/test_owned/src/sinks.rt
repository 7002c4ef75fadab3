//! What a pool is opened with: a sink in memory, whose lines are the texts, and a logger.
ghost use Rattle.std.specs.Prelude.{◌≡◌, IfOk};
ghost use Rattle.alog_pattern.specs.declared.patterns.TheConstants.{LINE_MAX};
ghost use Rattle.alog_pool.specs.Pool.{Fits};
ghost use Rattle.alog_sink.specs.Sinks.{Suits};
ghost use Rattle.test_owned.specs.declared.sinks.TheConstants.{TEXT_LIMIT};

use alog_format::{Context, Zone};
use alog_msg::Level;
use alog_pattern::Pattern;
use alog_policy::Policy;
use alog_pool::{Report, Setup};
use alog_registry::{Loggers, Registry, Spec};
use alog_sink::{Face, MemStore, Names, Sink};
use std::alloc::{AllocError, Global};
use std::process::Abort;

/// The most bytes of a text.
pub const TEXT_LIMIT: usize = 128;

/// A face whose lines are the texts, of all levels.
fn face(alloc: Global) -> Result<Face, AllocError>
    ensures { IfOk result (λ f. f.pattern.text_limit ≡ TEXT_LIMIT) }
{
    let Ok(pattern) = Pattern::compile(alloc, b"%v", TEXT_LIMIT) else {
        return Err(AllocError);
    };
    Ok(Face {
        level: Level::Trace,
        pattern,
        context: Context {
            zone: Zone::Fixed(0),
            process: 7,
        },
        names: Names::new(alloc),
    })
}

/// A sink over this store, whose lines go to the file `log`.
fn sink(alloc: Global, face: Face, store: MemStore) -> Result<Sink<MemStore>, AllocError>
    requires { face.pattern.text_limit ≡ TEXT_LIMIT }
    ensures { IfOk result (Suits TEXT_LIMIT LINE_MAX) }
{
    let Ok(sink) = Sink::memory(alloc, face, store, "log") else {
        return Err(AllocError);
    };
    Ok(sink)
}

/// One logger, `app`, of level info, which blocks where the queue is full, keeps so many messages for a backtrace, and whose messages go to the
/// first sink.
fn loggers(alloc: Global, backtrace: usize) -> Result<Loggers, AllocError> {
    let mut registry = Registry::new(alloc);
    let spec = Spec {
        level: Level::Info,
        policy: Policy::Block,
        flush_on: Level::Error,
        backtrace,
        sinks: Vec::from_slice(alloc, &[0])?,
    };
    if registry.add("app", spec).is_err() {
        return Err(AllocError);
    }
    match registry.freeze(alloc) {
        Ok(loggers) => Ok(loggers),
        Err(_) => Err(AllocError),
    }
}

/// A setup of one sink and one logger that keeps so many messages, with a queue of so many places, for up to so many workers.
pub fn setup(
    alloc: Global,
    queue: usize,
    workers: usize,
    backtrace: usize,
) -> Result<Setup<MemStore>, AllocError>
    ensures { IfOk result Fits }
{
    let sink = sink(alloc, face(alloc)?, MemStore::new(alloc))?;
    let mut sinks = Vec::new(alloc);
    sinks.push(sink)?;
    Ok(Setup {
        queue,
        first: 0,
        workers,
        tickets_max: 400,
        tells_gaps: false,
        text_limit: TEXT_LIMIT,
        loggers: loggers(alloc, backtrace)?,
        sinks,
    })
}

/// What the file `log` of the sink has, which has no bytes where it is absent.
pub fn file_of<'a>(rt: &impl Abort, report: &'a Report<MemStore>) -> &'a [u8] {
    let Some(store) = report.sinks.get(0).and_then(|sink| sink.store()) else {
        panic!(rt; "no sink")
    };
    match store.files().get("log") {
        Some(file) => file.as_slice(),
        None => b"",
    }
}
