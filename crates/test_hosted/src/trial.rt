//! A hosted pool that is tried, with its producers and workers. The functions end the test where something is not as it should be.
ghost use Rattle.std.specs.Prelude.{◌≡◌, ◌≤◌, [], ◌∷◌, ◌++◌, length, vec_capacity, IfOk};
ghost use Rattle.std.specs.List.{AllByRecursion};
ghost use Rattle.alog_hosted.specs.Lent.{IsProducerOf};
ghost use Rattle.alog_hosted.specs.Workers.{IsWorkerOf};
ghost use Rattle.alog_pattern.specs.declared.patterns.TheConstants.{LINE_MAX};
ghost use Rattle.alog_pool.specs.Pool.{Fits};
ghost use Rattle.alog_sink.specs.Sinks.{Suits};
ghost use Rattle.test_hosted.specs.declared.sinks.TheConstants.{TEXT_LIMIT};

use crate::sinks::{TEXT_LIMIT, face, sink};
use alog_hosted::{Host, Hosted, HostedProducer, HostedWorker, Once, PartsOut, Work, WorkerError};
use alog_msg::{Level, MessageError};
use alog_policy::{Outcome, Policy};
use alog_pool::{ProducerError, Report, Setup};
use alog_registry::{DumpError, Loggers, Registry, Spec};
use alog_sink::{FuseStore, MemStore, Sink, Store};
use std::alloc::{AllocError, Global};
use std::marker::Model;
use std::process::Abort;

/// Files in memory, of which a call may fail.
pub type Files = FuseStore<MemStore>;

/// The number of a call that is never made.
pub const NEVER: u64 = u64::MAX;

/// How a pool is tried: its queue, how many workers it may have, how many tickets of each are told, and what all of its loggers do.
#[derive(Clone, Copy, Drop)]
pub struct Plan {
    pub queue: usize,
    /// The first ticket.
    pub first: u64,
    pub workers: usize,
    pub tickets_max: usize,
    pub level: Level,
    pub policy: Policy,
    pub backtrace: usize,
}

/// One worker and a queue of eight places, which blocks where it is full.
pub const PLAIN: Plan = Plan {
    queue: 8,
    first: 0,
    workers: 1,
    tickets_max: 400,
    level: Level::Info,
    policy: Policy::Block,
    backtrace: 0,
};

/// A pool, its host, its producers and its workers.
pub struct Trial<S: Store> {
    pub host: Host<S>,
    pub hosted: Hosted<S>,
    pub producers: Vec<HostedProducer>,
    pub workers: Vec<HostedWorker<S>>,
}

impl<S: Store> Model for Trial<S> {
    ghost use Rattle.std.specs.Prelude.{◌≡◌, ℕ, length};
    ghost use Rattle.std.specs.List.{AllByRecursion};
    ghost use Rattle.alog_hosted.specs.Lent.{IsProducerOf};
    ghost use Rattle.alog_hosted.specs.Workers.{IsWorkerOf};

    ghost Value = { ℕ };

    ghost view = { λ t. length t.producers.items };

    ghost invariant = { λ t. (t.host.hosted ≡ t.hosted) × AllByRecursion (IsProducerOf t.hosted) t.producers.items
        × AllByRecursion (IsWorkerOf t.hosted) t.workers.items };
}

/// Loggers that do what the plan says, of which each has a route: the numbers of its sinks. The name of each is its number.
pub fn loggers(alloc: Global, plan: Plan, routes: &[&[u32]]) -> Result<Loggers, AllocError> {
    let mut registry = Registry::new(alloc);
    for (number, route) in routes.iter().enumerate() {
        let spec = Spec {
            level: plan.level,
            policy: plan.policy,
            flush_on: Level::Error,
            backtrace: plan.backtrace,
            sinks: Vec::from_slice(alloc, route)?,
        };
        let name = format!(in alloc; "{number}")?;
        if registry.add(&name, spec).is_err() {
            return Err(AllocError);
        }
    }
    match registry.freeze(alloc) {
        Ok(loggers) => Ok(loggers),
        Err(_) => Err(AllocError),
    }
}

/// Sinks over stores of which each fails the call of such a number, of an append when it has three bytes.
fn sinks(alloc: Global, fuses: &[u64]) -> Result<Vec<Sink<Files>>, AllocError>
    ensures { IfOk result (λ v. AllByRecursion (Suits TEXT_LIMIT LINE_MAX) v.items) }
{
    let mut sinks = Vec::new(alloc);
    for fuse in fuses {
        let store = FuseStore::new(MemStore::new(alloc), *fuse, 3);
        let sink = sink(alloc, face(alloc)?, store)?;
        sinks.push(sink)?;
    }
    Ok(sinks)
}

/// A setup of this plan over these sinks, with a logger for each route. It asks for gaps to be told, which a hosted pool never does.
pub fn setup_over<S: Store + Drop>(
    alloc: Global,
    plan: Plan,
    routes: &[&[u32]],
    sinks: Result<Vec<Sink<S>>, AllocError>,
) -> Result<Setup<S>, AllocError>
    requires { IfOk sinks (λ v. AllByRecursion (Suits TEXT_LIMIT LINE_MAX) v.items) }
    ensures { IfOk result Fits }
{
    let sinks = sinks?;
    Ok(Setup {
        queue: plan.queue,
        first: plan.first,
        workers: plan.workers,
        tickets_max: plan.tickets_max,
        tells_gaps: true,
        text_limit: TEXT_LIMIT,
        loggers: loggers(alloc, plan, routes)?,
        sinks,
    })
}

/// The same, with a sink for each fuse.
pub fn setup_of(
    alloc: Global,
    plan: Plan,
    routes: &[&[u32]],
    fuses: &[u64],
) -> Result<Setup<Files>, AllocError>
    ensures { IfOk result Fits }
{
    setup_over(alloc, plan, routes, sinks(alloc, fuses))
}

/// Room for so many.
fn room<T>(rt: &impl Abort, alloc: Global, count: usize) -> Vec<T>
    ensures { result.items ≡ [] }
{
    if let Ok(all) = Vec::with_capacity(alloc, count) {
        return all;
    }
    match Vec::with_capacity(alloc, count) {
        Ok(all) => all,
        Err(_) => panic!(rt; "no memory"),
    }
}

/// Adds one to those.
pub fn add<T>(rt: &impl Abort, all: &mut Vec<T>, one: T)
    ensures { all.new.items ≡ all.old.items ++ one ∷ [] }
{
    match all.push(one) {
        Ok(()) => {}
        Err(_) => panic!(rt; "no memory"),
    }
}

/// The host's next producer. Where memory was wanting, it is made again.
fn next_producer<S: Store + Drop>(
    rt: &impl Abort,
    host: &mut Host<S>,
    hosted: &Hosted<S>,
) -> HostedProducer
    requires { hosted.now ≡ host.old.hosted }
    ensures host { host.new.hosted ≡ host.old.hosted }
    ensures producer { IsProducerOf hosted.now result }
{
    let answer = match host.producer(hosted) {
        Err(ProducerError::OutOfMemory) => host.producer(hosted),
        answer => answer,
    };
    match answer {
        Ok(producer) => producer,
        Err(_) => panic!(rt; "no producer"),
    }
}

/// The host's next worker. Where memory was wanting, it is made again.
fn next_worker<S: Store + Drop>(
    rt: &impl Abort,
    host: &mut Host<S>,
    hosted: &Hosted<S>,
) -> HostedWorker<S>
    requires { hosted.now ≡ host.old.hosted }
    ensures host { host.new.hosted ≡ host.old.hosted }
    ensures worker { IsWorkerOf hosted.now result }
{
    let answer = match host.worker(hosted) {
        Err(WorkerError::OutOfMemory) => host.worker(hosted),
        answer => answer,
    };
    match answer {
        Ok(worker) => worker,
        Err(_) => panic!(rt; "no worker"),
    }
}

/// So many producers of this host, which made none yet.
fn producers_of<S: Store + Drop>(
    rt: &impl Abort,
    alloc: Global,
    host: &mut Host<S>,
    hosted: &Hosted<S>,
    count: usize,
) -> Vec<HostedProducer>
    requires { hosted.now ≡ host.old.hosted }
    ensures host { host.new.hosted ≡ host.old.hosted }
    ensures producers { AllByRecursion (IsProducerOf hosted.now) result.items }
{
    let mut all = room(rt, alloc, count);
    for number in 0..count {
        let producer = next_producer(rt, host, hosted);
        assert!(rt; producer.number() == number as u64);
        add(rt, &mut all, producer);
    }
    all
}

/// So many workers of this host, which made none yet.
fn workers_of<S: Store + Drop>(
    rt: &impl Abort,
    alloc: Global,
    host: &mut Host<S>,
    hosted: &Hosted<S>,
    count: usize,
) -> Vec<HostedWorker<S>>
    requires { hosted.now ≡ host.old.hosted }
    ensures host { host.new.hosted ≡ host.old.hosted }
    ensures workers { AllByRecursion (IsWorkerOf hosted.now) result.items }
{
    let mut all = room(rt, alloc, count);
    for number in 0..count {
        let worker = next_worker(rt, host, hosted);
        assert!(rt; worker.number() as usize == number);
        add(rt, &mut all, worker);
    }
    all
}

/// A producer logs this text, of this level, to this logger of its pool. Where memory was wanting, it logs it again.
pub fn log_again<S: Store>(
    rt: &impl Abort,
    alloc: Global,
    producer: &mut HostedProducer,
    hosted: &Hosted<S>,
    logger: u32,
    level: Level,
    text: &str,
) -> Result<Once, MessageError>
    requires { IsProducerOf hosted.now producer.old }
    ensures { IsProducerOf hosted.now producer.new }
{
    assert!(rt; (logger as usize) < hosted.loggers().len());
    match producer.log_once(hosted, alloc, logger, level, 0, text, None) {
        Err(MessageError::OutOfMemory) => {
            producer.log_once(hosted, alloc, logger, level, 0, text, None)
        }
        answer => answer,
    }
}

/// A producer posts a flush of the first logger of its pool.
fn flush_first<S: Store>(
    rt: &impl Abort,
    producer: &mut HostedProducer,
    hosted: &Hosted<S>,
) -> Outcome<()>
    requires { IsProducerOf hosted.now producer.old }
    ensures { IsProducerOf hosted.now producer.new }
{
    assert!(rt; hosted.loggers().len() > 0);
    producer.flush(hosted, 0)
}

/// A producer dumps, at time 5, the backtrace of this logger of its pool. Where memory was wanting, it dumps it again.
fn dump_again<S: Store>(
    rt: &impl Abort,
    alloc: Global,
    producer: &mut HostedProducer,
    hosted: &Hosted<S>,
    logger: u32,
) -> Result<Vec<Outcome<()>>, DumpError>
    requires { IsProducerOf hosted.now producer.old }
    ensures { IsProducerOf hosted.now producer.new }
{
    assert!(rt; (logger as usize) < hosted.loggers().len());
    match producer.dump_once(hosted, alloc, logger, 5) {
        Err(DumpError::OutOfMemory) => producer.dump_once(hosted, alloc, logger, 5),
        answer => answer,
    }
}

/// A worker of this pool ends items, at most so many.
pub fn work_some<S: Store>(worker: &mut HostedWorker<S>, hosted: &Hosted<S>, most: usize) -> Work
    requires { IsWorkerOf hosted.now worker.old }
    ensures { IsWorkerOf hosted.now worker.new }
{
    worker.work_some(hosted, most)
}

/// A pool of which a producer or a worker is out does not end: all comes back as it was.
fn kept<S: Store + Drop>(
    rt: &impl Abort,
    host: Host<S>,
    hosted: Hosted<S>,
    producers: Vec<HostedProducer>,
    workers: Vec<HostedWorker<S>>,
) -> PartsOut<S>
    requires hosted { hosted ≡ host.hosted }
    requires producers { AllByRecursion (IsProducerOf hosted) producers.items }
    requires workers { AllByRecursion (IsWorkerOf hosted) workers.items }
    ensures host { result.host ≡ host }
    ensures hosted { result.hosted ≡ hosted }
    ensures producers { result.producers ≡ producers }
    ensures workers { result.workers ≡ workers }
{
    match host.disband(hosted, producers, workers) {
        Ok(_) => panic!(rt; "nobody is out"),
        Err(out) => out,
    }
}

impl<S: Store + Drop> Trial<S> {
    /// Opens a pool of this setup, and makes so many producers and workers.
    pub fn open(
        rt: &impl Abort,
        alloc: Global,
        setup: Result<Setup<S>, AllocError>,
        producers: usize,
        workers: usize,
    ) -> Trial<S>
        requires { IfOk setup Fits }
    {
        let Ok(setup) = setup else {
            panic!(rt; "no memory")
        };
        match Host::open(alloc, setup) {
            Ok((hosted, host)) => Trial::of(rt, alloc, hosted, host, producers, workers),
            Err(_) => panic!(rt; "no pool"),
        }
    }

    /// Tries this pool with so many producers and workers.
    pub fn of(
        rt: &impl Abort,
        alloc: Global,
        hosted: Hosted<S>,
        host: Host<S>,
        producers: usize,
        workers: usize,
    ) -> Trial<S>
        requires { host.hosted ≡ hosted }
    {
        let mut host = host;
        let producers = producers_of(rt, alloc, &mut host, &hosted, producers);
        let workers = workers_of(rt, alloc, &mut host, &hosted, workers);
        Trial {
            host,
            hosted,
            producers,
            workers,
        }
    }

    /// The producer of this number logs this text, of this level, to this logger. Where memory was wanting, it logs it again.
    pub fn log(
        &mut self,
        rt: &impl Abort,
        alloc: Global,
        number: usize,
        logger: u32,
        level: Level,
        text: &str,
    ) -> Result<Once, MessageError> {
        assert!(rt; number < self.producers.len());
        let producer = &mut self.producers[number];
        log_again(rt, alloc, producer, &self.hosted, logger, level, text)
    }

    /// It posts a flush of the first logger.
    pub fn flush(&mut self, rt: &impl Abort, number: usize) -> Outcome<()> {
        assert!(rt; number < self.producers.len());
        flush_first(rt, &mut self.producers[number], &self.hosted)
    }

    /// It dumps the backtrace of this logger. Where memory was wanting, it dumps it again.
    pub fn dump(
        &mut self,
        rt: &impl Abort,
        alloc: Global,
        number: usize,
        logger: u32,
    ) -> Result<Vec<Outcome<()>>, DumpError> {
        assert!(rt; number < self.producers.len());
        let producer = &mut self.producers[number];
        dump_again(rt, alloc, producer, &self.hosted, logger)
    }

    /// The worker of this number ends items, at most so many.
    pub fn work(&mut self, rt: &impl Abort, number: usize, most: usize) -> Work {
        assert!(rt; number < self.workers.len());
        work_some(&mut self.workers[number], &self.hosted, most)
    }

    /// How many faults the worker of this number tells.
    pub fn faults(&self, rt: &impl Abort, number: usize) -> u64 {
        assert!(rt; number < self.workers.len());
        self.workers[number].faults()
    }

    /// From now on the logger of this number has this level.
    pub fn set_level(&self, rt: &impl Abort, logger: u32, level: Level) {
        assert!(rt; self.hosted.loggers().set_level(logger, level));
    }

    /// The host makes no worker more.
    pub fn hires_none(&mut self, rt: &impl Abort) {
        match self.host.worker(&self.hosted) {
            Err(WorkerError::TooMany) => {}
            _ => panic!(rt; "a worker more"),
        }
    }

    /// Ends the pool.
    pub fn end(self, rt: &impl Abort) -> Report<S> {
        let Trial {
            host,
            hosted,
            producers,
            workers,
        } = self;
        match host.disband(hosted, producers, workers) {
            Ok(report) => report,
            Err(_) => panic!(rt; "a producer or a worker is out"),
        }
    }

    /// While its last producer is out, the pool does not end: the others come back.
    pub fn kept_by_a_producer(self, rt: &impl Abort) -> Trial<S> {
        let Trial {
            host,
            hosted,
            mut producers,
            workers,
        } = self;
        let Some(late) = producers.pop() else {
            panic!(rt; "no producer")
        };
        let (talkers, writers) = (producers.len(), workers.len());
        let PartsOut {
            host,
            hosted,
            mut producers,
            workers,
        } = kept(rt, host, hosted, producers, workers);
        assert!(rt; producers.len() == talkers && workers.len() == writers);
        add(rt, &mut producers, late);
        Trial {
            host,
            hosted,
            producers,
            workers,
        }
    }

    /// While its last worker is out, the pool does not end: the others come back.
    pub fn kept_by_a_worker(self, rt: &impl Abort) -> Trial<S> {
        let Trial {
            host,
            hosted,
            producers,
            mut workers,
        } = self;
        let Some(late) = workers.pop() else {
            panic!(rt; "no worker")
        };
        let (talkers, writers) = (producers.len(), workers.len());
        let PartsOut {
            host,
            hosted,
            producers,
            mut workers,
        } = kept(rt, host, hosted, producers, workers);
        assert!(rt; producers.len() == talkers && workers.len() == writers);
        add(rt, &mut workers, late);
        Trial {
            host,
            hosted,
            producers,
            workers,
        }
    }
}
