//! The pool of a run.
ghost use Rattle.std.specs.Prelude.{◌≡◌, ◌<◌, length, IfOk};
ghost use Rattle.alog_pattern.specs.declared.patterns.TheConstants.{LINE_MAX};
ghost use Rattle.alog_pool.specs.Pool.{Fits};
ghost use Rattle.alog_sink.specs.Sinks.{Suits};
ghost use Rattle.bench.specs.declared.lines.TheConstants.{TEXT_LIMIT};

use crate::lines::{NAME, TEXT_LIMIT};
use crate::outputs::{FILE, face};
use alog_msg::Level;
use alog_policy::Policy;
use alog_pool::{OpenGate, Pool, Setup};
use alog_registry::{Loggers, Registry, Spec};
use alog_sink::{Face, Sink, Store};
use anyhow::{Result, bail};
use std::alloc::Global;
use std::sync::Wait;
use std::thread::Threads;
use std::time::Clock;

/// The places of the queue.
const QUEUE: usize = 8_192;

/// A sink that appends its lines to one file.
fn sink<S: Store + Drop>(alloc: Global, face: Face, store: S) -> Result<Sink<S>>
    requires { face.pattern.text_limit ≡ TEXT_LIMIT }
    ensures { IfOk result (λ s. Suits TEXT_LIMIT LINE_MAX s) }
{
    match Sink::memory(alloc, face, store, FILE) {
        Ok(sink) => Ok(sink),
        Err(refused) => Err(refused.error.into()),
    }
}

/// One logger, which blocks where the queue is full.
fn loggers(alloc: Global) -> Result<Loggers>
    ensures { IfOk result (λ l. length l ≡ 1) }
{
    let spec = Spec {
        level: Level::Info,
        policy: Policy::Block,
        flush_on: Level::Off,
        backtrace: 0,
        sinks: Vec::from_slice(alloc, &[0])?,
    };
    let mut registry = Registry::new(alloc);
    match registry.add(NAME, spec) {
        Ok(_) => {}
        Err(_) => bail!("the logger was refused"),
    }
    match registry.freeze(alloc) {
        Ok(loggers) => Ok(loggers),
        Err(_) => bail!("out of memory"),
    }
}

fn setup<S: Store + Drop>(
    alloc: Global,
    pattern: &[u8],
    store: S,
    workers: usize,
) -> Result<Setup<S>>
    ensures fits { IfOk result (λ s. Fits s) }
    ensures one { IfOk result (λ s. length s.loggers ≡ 1) }
{
    let mut sinks = Vec::with_capacity(alloc, 1)?;
    sinks.push_reserved(sink(alloc, face(alloc, pattern)?, store)?);
    Ok(Setup {
        queue: QUEUE,
        first: 0,
        workers,
        tickets_max: 0,
        tells_gaps: false,
        text_limit: TEXT_LIMIT,
        loggers: loggers(alloc)?,
        sinks,
    })
}

/// A pool of so many workers, which write lines of this pattern to a file of the store.
pub fn started<S, R>(
    rt: &R,
    alloc: Global,
    pattern: &[u8],
    store: S,
    workers: usize,
) -> Result<Pool<S>>
where
    S: Store + Drop + Send + 'static,
    R: Threads + Wait + Clock + Clone + Drop + Send + 'static,
    ensures one { IfOk result (λ p. length p.shared.loggers ≡ 1) }
    ensures fresh { IfOk result (λ p. p.made ≡ 0) }
{
    let setup = setup(alloc, pattern, store, workers)?;
    Ok(Pool::start(rt, alloc, setup, OpenGate)?)
}
