//! A whole pipe.
ghost use Rattle.std.specs.Prelude.{◌≡◌, ◌≤◌, ◌<◌, [], false, IfErr, IfOk, OnErr, count_by, length};
ghost use Rattle.std.specs.Io.KnownBytes.{Keeps};
ghost use Rattle.std.specs.List.{AllByRecursion};
ghost use Rattle.alog_config.specs.Built.{IsFaultOf};
ghost use Rattle.alog_config.specs.Sinks.{is_leaf};
ghost use Rattle.alog_msg.specs.declared.limits.TheConstants.{TEXT_LIMIT_MIN};
ghost use Rattle.alog_pipe.specs.Pipes.{Pipes, PipesThrough, overruns_of};
ghost use Rattle.alog_pool.specs.Report.{Ends};
ghost use Rattle.alog_registry.specs.Listed.{spec_at};

use crate::counts::Counts;
use crate::piece_log::PieceLog;
use crate::pump::pump_all;
use crate::timed_read::TimedRead;
use alog_config::{BuildError, Config};
use alog_lines::LineCutter;
use alog_msg::Level;
use alog_policy::Policy;
use alog_pool::{OpenGate, Pool, Producer, Report, StartError};
use alog_registry::Loggers;
use alog_server::setup_of;
use alog_sink::Store;
use std::alloc::{AllocError, Global};
use std::io;
use std::sync::Wait;
use std::thread::Threads;
use std::time::Clock;

/// What became of a pipe.
#[derive(Debug, Drop)]
pub struct Piped<S: Store> {
    /// What became of all messages, and the sinks.
    pub report: Report<S>,
    pub counts: Counts,
    /// How many pieces of lines are missing, modulo 2^64: their posts were discarded, or there was no memory for their copies, or the
    /// line that says what is missing before them was not kept, and then they were not posted. Such a line is posted as soon as there is
    /// room, before the next piece, or at the end, unless there is no memory for its copy, where the logger keeps copies; where it is below
    /// the level of the logger or of a sink, no file has it.
    pub missing: u64,
    /// How many pieces were below the level that the logger had when they were logged, modulo 2^64: they were not posted, and are not
    /// missing. Lines that say what is missing are none of them.
    pub below: u64,
    /// Why the reader could not be read to its end, where it could not.
    pub fault: Option<io::Error>,
}

/// Logs each line of a reader to the logger of this number, at this level, through a pool of this configuration over these stores, and
/// ends the pool. It has one worker, whatever the configuration says: several would write lines in another order than they were read, and
/// each line goes to the same sinks. Where that logger overruns the oldest, the log says in their place how many messages were overrun.
/// There are as many stores as `alog_config::leaves` tells. It fails for want of memory, or since the store of a sink that rotates failed
/// as it was opened; then nothing was read.
pub fn pipe<R, S, I>(
    rt: &R,
    alloc: Global,
    config: &Config,
    stores: Vec<S>,
    input: &mut I,
    logger: u32,
    level: Level,
) -> Result<Piped<S>, BuildError>
where
    R: Threads + Wait + Clock + Clone + Drop + Send + 'static,
    S: Store + Drop + Send + 'static,
    I: TimedRead,
    requires many { length stores.items ≡ count_by is_leaf config.now.sinks.items }
    requires known { logger < length config.now.loggers.items }
    ensures piped { IfOk result (λ p. Pipes S.tells S.files S.failures config.now stores.items logger level (I.remaining input.old)
        (I.remaining input.new) p) }
    ensures fault { IfErr result (IsFaultOf S.failures S.why config.now.sinks.items stores.items) }
    ensures unread { OnErr result (Keeps (I.remaining input.old) (I.remaining input.new)) }
{
    let lines = LineCutter::new(alloc, config.text)?;
    let mut setup = setup_of(alloc, config, stores, 0)?;
    setup.workers = 1;
    setup.tells_gaps = overruns(&setup.loggers, logger);
    let pool = match Pool::start(rt, alloc, setup, OpenGate) {
        Ok(pool) => pool,
        Err(StartError::OutOfMemory) => return Err(BuildError::OutOfMemory),
        Err(StartError::BadWorkers | StartError::BadSize | StartError::BadFirst) => unreachable!(),
    };
    match pipe_through(rt, alloc, pool, lines, input, logger, level) {
        Ok(piped) => Ok(piped),
        Err(AllocError) => Err(BuildError::OutOfMemory),
    }
}

/// Whether the logger of this number, if there is one, overruns the oldest where there is no room.
fn overruns(loggers: &Loggers, number: u32) -> bool
    ensures { result ≡ overruns_of (spec_at loggers.now number) }
{
    match loggers.spec(number) {
        Some(spec) => matches!(spec.policy, Policy::OverrunOldest),
        None => false,
    }
}

/// Logs each line of a reader through this pool, which made no producer yet, and ends it.
fn pipe_through<R: Threads + Wait + Clock, S: Store + Drop + Send + 'static, I: TimedRead>(
    rt: &R,
    alloc: Global,
    pool: Pool<S>,
    lines: LineCutter,
    input: &mut I,
    logger: u32,
    level: Level,
) -> Result<Piped<S>, AllocError>
    requires none { pool.made ≡ 0 }
    requires ready { (logger < length pool.shared.loggers) × (TEXT_LIMIT_MIN ≤ pool.limit) × (lines.limit ≤ pool.limit) }
    requires fresh { (lines.pending ≡ []) × (lines.ended ≡ false) }
    ensures piped { IfOk result (λ p. PipesThrough S.tells S.files S.failures lines.limit pool logger level (I.remaining input.old)
        (I.remaining input.new) p) }
    ensures unread { OnErr result (Keeps (I.remaining input.old) (I.remaining input.new)) }
{
    let mut pool = pool;
    let Ok(mut back) = Vec::with_capacity(alloc, 1) else {
        end(rt, pool, Vec::new(alloc));
        return Err(AllocError);
    };
    let Ok(producer) = pool.producer() else {
        end(rt, pool, back);
        return Err(AllocError);
    };
    let log = PieceLog {
        producer,
        logger,
        level,
        hole: 0,
        missing: 0,
        below: 0,
    };
    let (log, counts, fault) = pump_all(rt, alloc, lines, log, input);
    let PieceLog {
        producer,
        logger: _,
        level: _,
        hole: _,
        missing,
        below,
    } = log;
    back.push_reserved(producer);
    let report = end(rt, pool, back);
    Ok(Piped {
        report,
        counts,
        missing,
        below,
        fault,
    })
}

/// Ends a pool with all producers that it made.
fn end<R: Threads + Wait + Clock, S: Store + Drop + Send + 'static>(
    rt: &R,
    pool: Pool<S>,
    producers: Vec<Producer>,
) -> Report<S>
    requires own { AllByRecursion (λ p. p.shared ≡ pool.shared) producers.items }
    requires all { length producers.items ≡ pool.made }
    ensures { Ends S.tells S.files S.failures pool producers.items result }
{
    match pool.shutdown(rt, producers) {
        Ok(report) => report,
        Err(_) => unreachable!(),
    }
}
