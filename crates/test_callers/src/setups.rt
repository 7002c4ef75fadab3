//! Setups of one logger and one sink in memory, whose lines are the texts.
ghost use Rattle.std.specs.Prelude.{IfOk};
ghost use Rattle.alog_pool.specs.Pool.{Fits};

use alog_format::{Context, Zone};
use alog_msg::Level;
use alog_pattern::Pattern;
use alog_policy::Policy;
use alog_pool::{Report, Setup};
use alog_registry::{Loggers, Registry, Spec};
use alog_sink::{Face, MemStore, Names, Sink};
use std::alloc::{AllocError, Global};

/// The most bytes of a text.
const TEXT_LIMIT: usize = 64;

/// A logger of the level info under this policy, which writes to the first sink.
fn loggers(alloc: Global, policy: Policy) -> Result<Loggers, AllocError> {
    let spec = Spec {
        level: Level::Info,
        policy,
        flush_on: Level::Off,
        backtrace: 0,
        sinks: Vec::from_slice(alloc, &[0])?,
    };
    let mut registry = Registry::new(alloc);
    if registry.add("net", spec).is_err() {
        return Err(AllocError);
    }
    match registry.freeze(alloc) {
        Ok(loggers) => Ok(loggers),
        Err(_) => Err(AllocError),
    }
}

/// A setup of one worker and a queue of eight places.
pub fn setup(alloc: Global, policy: Policy) -> Result<Setup<MemStore>, AllocError>
    ensures { IfOk result Fits }
{
    let Ok(pattern) = Pattern::compile(alloc, b"%v", TEXT_LIMIT) else {
        return Err(AllocError);
    };
    let face = Face {
        level: Level::Trace,
        pattern,
        context: Context {
            zone: Zone::Fixed(0),
            process: 7,
        },
        names: Names::new(alloc),
    };
    let Ok(sink) = Sink::memory(alloc, face, MemStore::new(alloc), "log") else {
        return Err(AllocError);
    };
    let mut sinks = Vec::new(alloc);
    sinks.push(sink)?;
    Ok(Setup {
        queue: 8,
        first: 0,
        workers: 1,
        tickets_max: 0,
        tells_gaps: false,
        text_limit: TEXT_LIMIT,
        loggers: loggers(alloc, policy)?,
        sinks,
    })
}

/// Whether one message was handled, and its line is all that the file has.
pub fn has_line(report: &Option<Report<MemStore>>, line: &[u8]) -> bool {
    let Some(report) = report else {
        return false;
    };
    let Some(store) = report.sinks.get(0).and_then(|sink| sink.store()) else {
        return false;
    };
    report.totals.handled == 1
        && store
            .files()
            .get("log")
            .is_some_and(|file| file.as_slice() == line)
}
