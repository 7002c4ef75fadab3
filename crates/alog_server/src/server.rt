//! A server's pool, and a run of its threads.
ghost use Rattle.std.specs.Prelude.{◌≡◌, ◌↔◌, ◌≤◌, IfOk, IfErr, IsErrAnd, IsErrOf, count_by, length};
ghost use Rattle.alog_config.specs.Sinks.{is_leaf};
ghost use Rattle.alog_server.specs.Ends.{AllEnd, IsToldOf, TellsError};
ghost use Rattle.alog_server.specs.Reasons.{IsStoreRefusal, SomeUnopened};
ghost use Rattle.alog_server.specs.Running.{AreBad, HasThreads, Runs, Works};
ghost use Rattle.alog_server.specs.SinkEnds.{AreWithFaults};
ghost use Rattle.alog_server.specs.Starting.{IsOfStores, IsServerOf};
ghost use Rattle.alog_server.specs.declared.TheConstants.{THREADS_MAX};

use crate::THREADS_MAX;
use crate::error::{RunError, StartError};
use crate::producers::make;
use crate::seats::{Ended, run_all};
use crate::setup::setup_for;
use crate::sink_end::{SinkEnd, ends_of, with_faults};
use crate::work::Work;
use alog_config::Config;
use alog_pool::{OpenGate, Pool, Producer, Report};
use alog_sink::Store;
use std::alloc::Global;
use std::fmt;
use std::marker::Brand;
use std::sync::Wait;
use std::thread::Threads;
use std::time::Clock;

/// A pool that made no producer yet, and what is held for it, as the lock of a folder, until what its run answers is dropped. It is no
/// `Drop`: a way out of a function that does not end it by `run` does not compile.
pub struct Server<S: Store, L = ()> {
    alloc: Global,
    pub(crate) pool: Pool<S>,
    /// The sinks of the pool, without faults. They are there before it starts, so that its end takes no memory.
    pub(crate) sinks: Vec<SinkEnd>,
    lock: L,
    pub ghost fresh: { pool.made ≡ 0 },
    pub ghost each: { length sinks.items ≡ length pool.sink_seats },
}

impl<S: Store, L> fmt::Debug for Server<S, L> {
    fn fmt<W: fmt::Write>(&self, f: &mut fmt::Formatter<W>) -> fmt::Result {
        f.debug_struct("Server")
            .field("pool", &self.pool)
            .field("sinks", &self.sinks)
            .finish_non_exhaustive()
    }
}

/// What a run answers. The stores of the report write what they still hold when it is dropped, and what was held for the pool, as the
/// lock of a folder, is let go behind them.
#[derive(Drop)]
pub struct Ran<S: Store, E, L = ()> {
    /// What became of all messages, and the sinks.
    pub report: Report<S>,
    /// The sinks of the report, by their names: those of the configuration that are no fan's member, in their order.
    pub sinks: Vec<SinkEnd>,
    /// Why work ended early: of the first thread, by number, where it did.
    pub error: Option<E>,
    /// It is the last field, since fields are dropped in their order.
    lock: L,
}

impl<S: Store, E: fmt::Debug, L> fmt::Debug for Ran<S, E, L> {
    fn fmt<W: fmt::Write>(&self, f: &mut fmt::Formatter<W>) -> fmt::Result {
        f.debug_struct("Ran")
            .field("report", &self.report)
            .field("sinks", &self.sinks)
            .field("error", &self.error)
            .finish_non_exhaustive()
    }
}

impl<S: Store + Drop + Send + 'static> Server<S> {
    /// A server of this configuration over these stores, of which there are as many as `alog_config::leaves` tells.
    pub fn over<R: Threads + Wait + Clock + Clone + Drop + Send + 'static>(
        rt: &R,
        alloc: Global,
        config: &Config,
        stores: Vec<S>,
    ) -> Result<Server<S>, StartError>
        requires { length stores.items ≡ count_by is_leaf config.now.sinks.items }
        ensures started { IfOk result (λ s. IsServerOf S.tells S.files S.failures config.now stores.items s.pool s.sinks.items) }
        ensures failed { IsErrAnd result IsStoreRefusal → SomeUnopened S.failures S.why config.now.sinks.items stores.items }
        ensures refused { IfErr result (IsOfStores config.now) }
    {
        Server::holding(rt, alloc, config, stores, ())
    }
}

impl<S: Store + Drop + Send + 'static, L: Drop> Server<S, L> {
    /// The same, with what is held until what its run answers is dropped, or the start is refused.
    pub(crate) fn holding<R: Threads + Wait + Clock + Clone + Drop + Send + 'static>(
        rt: &R,
        alloc: Global,
        config: &Config,
        stores: Vec<S>,
        lock: L,
    ) -> Result<Server<S, L>, StartError>
        requires { length stores.items ≡ count_by is_leaf config.now.sinks.items }
        ensures started { IfOk result (λ s. IsServerOf S.tells S.files S.failures config.now stores.items s.pool s.sinks.items) }
        ensures failed { IsErrAnd result IsStoreRefusal → SomeUnopened S.failures S.why config.now.sinks.items stores.items }
        ensures refused { IfErr result (IsOfStores config.now) }
    {
        let sinks = ends_of(alloc, config)?;
        let setup = setup_for(alloc, config, stores)?;
        match Pool::start(rt, alloc, setup, OpenGate) {
            Ok(pool) => Ok(Server {
                alloc,
                pool,
                sinks,
                lock,
            }),
            Err(_) => Err(StartError::OutOfMemory),
        }
    }

    /// Lets so many threads, 1 to 4,096, do their work, each with a client of its own, and ends the pool when all are done. Each has a
    /// thread of its own, as far as the system gives threads. What the clients logged is given to the stores then, and the pool is ended
    /// whatever is answered. What a store holds back, as the buffer of a file, it writes when the answer is dropped.
    pub fn run<R: Threads + Wait + Clock + Sync, W: Work<R> + Sync>(
        self,
        rt: &R,
        threads: usize,
        work: &W,
    ) -> Result<Ran<S, W::Error, L>, RunError>
        ensures bad_threads { IsErrOf result RunError.BadThreads ↔ AreBad threads }
        ensures runs { IfOk result (λ r. Runs S.tells S.files S.failures self.pool threads r.report) }
        ensures sinks { IfOk result (λ r. AreWithFaults self.sinks.items r.report.faults.items r.sinks.items) }
        ensures error { IfOk result (λ r. TellsError (W.ends work.now) threads r.error) }
    {
        let Server {
            alloc,
            mut pool,
            sinks,
            lock,
        } = self;
        if threads < 1 || threads > THREADS_MAX {
            end_unused(rt, alloc, pool);
            return Err(RunError::BadThreads);
        }
        let (producers, ended) = work_with(rt, alloc, &mut pool, threads, work);
        match pool.shutdown(rt, producers) {
            Ok(report) => ended.with(lock, report, sinks),
            Err(_) => unreachable!(),
        }
    }
}

/// Ends a pool that made no producer.
fn end_unused<R: Threads + Wait + Clock, S: Store + Drop + Send + 'static>(
    rt: &R,
    alloc: Global,
    pool: Pool<S>,
)
    requires { pool.made ≡ 0 }
{
    match pool.shutdown(rt, Vec::new(alloc)) {
        Ok(_report) => {}
        Err(_) => unreachable!(),
    }
}

impl<E: Drop> Ended<E> {
    /// What a run answers whose pool, for which this was held, ended with this report, and these sinks. Where there is no answer the report
    /// is dropped, and then the lock.
    fn with<S: Store + Drop, L: Drop>(
        self,
        lock: L,
        report: Report<S>,
        sinks: Vec<SinkEnd>,
    ) -> Result<Ran<S, E, L>, RunError>
        requires { length sinks.items ≡ length report.faults.items }
        ensures ran { IfOk result (λ r. (r.report ≡ report) × HasThreads self × IsToldOf self r.error) }
        ensures sinks { IfOk result (λ r. AreWithFaults sinks.items r.report.faults.items r.sinks.items) }
        ensures threads { IsErrOf result RunError.BadThreads → ⊥ }
    {
        let sinks = with_faults(sinks, report.faults.as_slice());
        match self {
            Ended::Done => Ok(Ran {
                report,
                sinks,
                error: None,
                lock,
            }),
            Ended::Early(error) => Ok(Ran {
                report,
                sinks,
                error: Some(error),
                lock,
            }),
            Ended::OutOfMemory => Err(RunError::OutOfMemory),
        }
    }
}

/// Makes a producer for each thread, lets the threads do their work, and gives the producers back.
fn work_with<S: Store + Drop + Send + 'static, R: Threads + Wait + Clock + Sync, W: Work<R> + Sync>(
    rt: &R,
    alloc: Global,
    pool: &mut Pool<S>,
    threads: usize,
    work: &W,
) -> (Vec<Producer>, Ended<W::Error>)
    requires { 1 ≤ threads }
    ensures works { Works pool.old pool.new threads result.0.items result.1 }
    ensures ends { AllEnd (W.ends work.now) threads result.1 }
{
    let Ok(mut producers) = Vec::with_capacity(alloc, threads) else {
        return (Vec::new(alloc), Ended::OutOfMemory);
    };
    if !make(pool, threads as u64, &mut producers) {
        return (producers, Ended::OutOfMemory);
    }
    run_all::<Brand, R, W>(rt, alloc, producers, work)
}
