//! A whole load.
ghost use Rattle.std.specs.Prelude.{◌≡◌, ◌≤◌, ◌↔◌, IfErr, IfOk, IsErrOf, IsTrue, count_by, length};
ghost use Rattle.std.specs.List.{AllByRecursion};
ghost use Rattle.alog_config.specs.Sinks.{is_leaf};
ghost use Rattle.alog_load.specs.Load.{AreBad, IsRefusalOf, Loads};
ghost use Rattle.alog_pool.specs.Report.{Ends};

use crate::error::LoadError;
use crate::producers::run_all;
use crate::setup::setup_of;
use crate::{LOAD_MESSAGES_MAX, LOAD_PRODUCERS_MAX};
use alog_config::Config;
use alog_pool::{Gate, Pool, Producer, Report, StartError};
use alog_sink::Store;
use std::alloc::Global;
use std::sync::Wait;
use std::thread::Threads;
use std::time::Clock;

/// Logs as many messages of each of so many producers as are asked for, through a pool of this configuration over these stores, and
/// ends it.
///
/// The producers go round among the loggers: producer p logs the texts `p i`, i from 0, at level info with time i to the logger
/// whose number is p modulo their number. Each has a thread of its own, as far as the system gives threads. The report tells every
/// ticket.
///
/// There are as many stores as `alog_config::leaves` tells. The gate is called round each text that a worker handles. Where there is
/// no memory for a message, all producers stop. The test `one_list_of_tickets` shows it.
pub fn load<
    R: Threads + Wait + Clock + Clone + Drop + Send + Sync + 'static,
    S: Store + Drop + Send + 'static,
    G: Gate + Send + Sync + Drop + 'static,
>(
    rt: &R,
    alloc: Global,
    config: &Config,
    stores: Vec<S>,
    gate: G,
    producers: u64,
    messages: u64,
) -> Result<Report<S>, LoadError>
    requires { length stores.items ≡ count_by is_leaf config.now.sinks.items }
    ensures bad_value { IsErrOf result LoadError.BadValue ↔ AreBad producers messages }
    ensures refused { IfErr result (IsRefusalOf S.failures S.why config.now.sinks.items stores.items) }
    ensures loads { IfOk result (λ r. Loads S.tells S.files S.failures config.now stores.items producers messages r) }
{
    if producers < 1 || producers > LOAD_PRODUCERS_MAX || messages > LOAD_MESSAGES_MAX {
        return Err(LoadError::BadValue);
    }
    let setup = setup_of(alloc, config, stores, (producers * messages) as usize)?;
    let mut pool = match Pool::start(rt, alloc, setup, gate) {
        Ok(pool) => pool,
        Err(StartError::OutOfMemory) => return Err(LoadError::OutOfMemory),
        Err(StartError::BadWorkers | StartError::BadSize | StartError::BadFirst) => unreachable!(),
    };
    let loggers = config.loggers.len();
    let (back, done) = run_all(rt, alloc, &mut pool, producers, loggers, messages);
    ended(rt, pool, back, done)
}

/// Ends a pool that has all its producers back. There is no report where one of them had no memory for a message.
fn ended<R: Threads + Wait + Clock, S: Store + Drop + Send + 'static>(
    rt: &R,
    pool: Pool<S>,
    back: Vec<Producer>,
    done: bool,
) -> Result<Report<S>, LoadError>
    requires own { AllByRecursion (λ p. p.shared ≡ pool.shared) back.items }
    requires all { pool.made ≤ length back.items }
    ensures ends { IfOk result (λ r. IsTrue done × Ends S.tells S.files S.failures pool back.items r) }
    ensures refused { IfErr result (λ e. e ≡ LoadError.OutOfMemory) }
{
    match pool.shutdown(rt, back) {
        Ok(report) if done => Ok(report),
        Ok(_) => Err(LoadError::OutOfMemory),
        Err(_) => unreachable!(),
    }
}
