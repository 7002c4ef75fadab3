//! A pool that is tried, with its producers. The functions end the test where something is not as it should be: a test is a
//! straight line of calls.
ghost use Rattle.std.specs.Prelude.{◌≡◌, [], ◌∷◌, ◌++◌, IfOk};
ghost use Rattle.std.specs.List.{AllByRecursion};
ghost use Rattle.alog_pattern.specs.declared.patterns.TheConstants.{LINE_MAX};
ghost use Rattle.alog_pool.specs.Pool.{Fits};
ghost use Rattle.alog_sink.specs.Sinks.{Suits};
ghost use Rattle.test_pool.specs.declared.sinks.TheConstants.{TEXT_LIMIT};

use crate::sinks::{TEXT_LIMIT, face, sink};
use alog_msg::{Level, MessageError, SourceRef};
use alog_policy::{Outcome, Policy};
use alog_pool::{Gate, Pool, Producer, ProducerError, ProducersOut, Report, Setup, StartError};
use alog_registry::{LogReply, Loggers, Registry, Spec};
use alog_sink::{FuseStore, MemStore, Sink, Store};
use std::alloc::{AllocError, Global};
use std::marker::Model;
use std::process::Abort;
use std::sync::Wait;
use std::thread::Threads;
use std::time::Clock;

/// Files in memory, of which a call may fail.
pub type Files = FuseStore<MemStore>;

/// The number of a call that is never made.
pub const NEVER: u64 = u64::MAX;

/// How a pool is tried: its queue and its workers, how many tickets of each are told, and what all of its loggers do.
#[derive(Clone, Copy, Drop)]
pub struct Plan {
    pub queue: usize,
    /// The first ticket.
    pub first: u64,
    pub workers: usize,
    pub tickets_max: usize,
    pub tells_gaps: bool,
    pub level: Level,
    pub policy: Policy,
    pub backtrace: usize,
}

/// One worker and a queue of eight places, which blocks where it is full.
pub const PLAIN: Plan = Plan {
    queue: 8,
    first: 0,
    workers: 1,
    tickets_max: 400,
    tells_gaps: false,
    level: Level::Info,
    policy: Policy::Block,
    backtrace: 0,
};

/// A pool and its producers.
pub struct Trial<S: Store> {
    pub pool: Pool<S>,
    pub producers: Vec<Producer>,
}

impl<S: Store> Model for Trial<S> {
    ghost use Rattle.std.specs.Prelude.{◌≡◌, ℕ, length};
    ghost use Rattle.std.specs.List.{AllByRecursion};

    ghost Value = { ℕ };

    ghost view = { λ t. length t.producers.items };

    ghost invariant = { λ t. AllByRecursion (λ p. p.shared ≡ t.pool.shared) t.producers.items };
}

/// Loggers that do what the plan says, of which each has a route: the numbers of its sinks. The name of each is its number.
pub fn loggers(alloc: Global, plan: Plan, routes: &[&[u32]]) -> Result<Loggers, AllocError> {
    let mut registry = Registry::new(alloc);
    for (number, route) in routes.iter().enumerate() {
        let spec = Spec {
            level: plan.level,
            policy: plan.policy,
            flush_on: Level::Error,
            backtrace: plan.backtrace,
            sinks: Vec::from_slice(alloc, route)?,
        };
        let name = format!(in alloc; "{number}")?;
        if registry.add(&name, spec).is_err() {
            return Err(AllocError);
        }
    }
    match registry.freeze(alloc) {
        Ok(loggers) => Ok(loggers),
        Err(_) => Err(AllocError),
    }
}

/// Sinks over stores of which each fails the call of such a number, of an append when it has three bytes.
fn sinks(alloc: Global, fuses: &[u64]) -> Result<Vec<Sink<Files>>, AllocError>
    ensures { IfOk result (λ v. AllByRecursion (Suits TEXT_LIMIT LINE_MAX) v.items) }
{
    let mut sinks = Vec::new(alloc);
    for fuse in fuses {
        let store = FuseStore::new(MemStore::new(alloc), *fuse, 3);
        let sink = sink(alloc, face(alloc)?, store)?;
        sinks.push(sink)?;
    }
    Ok(sinks)
}

/// A setup of this plan over these sinks, with a logger for each route.
pub fn setup_over<S: Store + Drop>(
    alloc: Global,
    plan: Plan,
    routes: &[&[u32]],
    sinks: Result<Vec<Sink<S>>, AllocError>,
) -> Result<Setup<S>, AllocError>
    requires { IfOk sinks (λ v. AllByRecursion (Suits TEXT_LIMIT LINE_MAX) v.items) }
    ensures { IfOk result Fits }
{
    let sinks = sinks?;
    Ok(Setup {
        queue: plan.queue,
        first: plan.first,
        workers: plan.workers,
        tickets_max: plan.tickets_max,
        tells_gaps: plan.tells_gaps,
        text_limit: TEXT_LIMIT,
        loggers: loggers(alloc, plan, routes)?,
        sinks,
    })
}

/// The same, with a sink for each fuse.
pub fn setup_of(
    alloc: Global,
    plan: Plan,
    routes: &[&[u32]],
    fuses: &[u64],
) -> Result<Setup<Files>, AllocError>
    ensures { IfOk result Fits }
{
    setup_over(alloc, plan, routes, sinks(alloc, fuses))
}

/// Its next producer. Where memory was wanting, it is made again.
fn next<S: Store + Drop + Send + 'static>(rt: &impl Abort, pool: &mut Pool<S>) -> Producer
    ensures pool { pool.new.shared ≡ pool.old.shared }
    ensures producer { result.shared ≡ pool.old.shared }
{
    let answer = match pool.producer() {
        Err(ProducerError::OutOfMemory) => pool.producer(),
        answer => answer,
    };
    match answer {
        Ok(producer) => producer,
        Err(_) => panic!(rt; "no producer"),
    }
}

/// Room for so many producers.
fn room(rt: &impl Abort, alloc: Global, count: usize) -> Vec<Producer>
    ensures { result.items ≡ [] }
{
    if let Ok(all) = Vec::with_capacity(alloc, count) {
        return all;
    }
    match Vec::with_capacity(alloc, count) {
        Ok(all) => all,
        Err(_) => panic!(rt; "no memory"),
    }
}

/// Adds a producer to those.
pub fn add(rt: &impl Abort, all: &mut Vec<Producer>, producer: Producer)
    ensures { all.new.items ≡ all.old.items ++ producer ∷ [] }
{
    match all.push(producer) {
        Ok(()) => {}
        Err(_) => panic!(rt; "no memory"),
    }
}

/// So many producers of this pool, which made none yet.
fn made<S: Store + Drop + Send + 'static>(
    rt: &impl Abort,
    alloc: Global,
    pool: &mut Pool<S>,
    count: usize,
) -> Vec<Producer>
    ensures pool { pool.new.shared ≡ pool.old.shared }
    ensures producers { AllByRecursion (λ p. p.shared ≡ pool.old.shared) result.items }
{
    let mut all = room(rt, alloc, count);
    for number in 0..count {
        let producer = next(rt, pool);
        assert!(rt; producer.number() == number as u64);
        add(rt, &mut all, producer);
    }
    all
}

/// This producer logs this text, of this level, to this logger. Where memory was wanting, it logs it again.
pub fn log_again(
    rt: &(impl Abort + Wait + Clock),
    alloc: Global,
    producer: &mut Producer,
    logger: u32,
    level: Level,
    text: &str,
) -> Result<LogReply, MessageError>
    ensures { producer.new.shared ≡ producer.old.shared }
{
    assert!(rt; (logger as usize) < producer.loggers().len());
    match producer.log(rt, alloc, logger, level, 0, text, None) {
        Err(MessageError::OutOfMemory) => producer.log(rt, alloc, logger, level, 0, text, None),
        answer => answer,
    }
}

/// By how many posts this producer dumps the backtrace of the first logger. Where memory was wanting, it dumps it again.
fn dump_again(rt: &(impl Abort + Wait + Clock), alloc: Global, producer: &mut Producer) -> usize
    ensures { producer.new.shared ≡ producer.old.shared }
{
    assert!(rt; producer.loggers().len() > 0);
    let answer = match producer.dump_backtrace(rt, alloc, 0, 0) {
        Err(_) => producer.dump_backtrace(rt, alloc, 0, 0),
        answer => answer,
    };
    match answer {
        Ok(outcomes) => outcomes.len(),
        Err(_) => panic!(rt; "no memory"),
    }
}

/// A pool of which a producer is out does not end: it comes back as it was, with the others.
pub fn kept<S: Store + Drop + Send + 'static>(
    rt: &(impl Abort + Threads + Wait + Clock),
    pool: Pool<S>,
    producers: Vec<Producer>,
) -> ProducersOut<S>
    requires { AllByRecursion (λ p. p.shared ≡ pool.shared) producers.items }
    ensures pool { result.pool ≡ pool }
    ensures producers { result.producers ≡ producers }
{
    match pool.shutdown(rt, producers) {
        Ok(_) => panic!(rt; "a producer is out"),
        Err(out) => out,
    }
}

impl<S: Store + Drop + Send + 'static> Trial<S> {
    /// Starts a pool of this setup, and makes so many producers.
    pub fn start<
        R: Abort + Threads + Wait + Clock + Clone + Drop + Send + 'static,
        G: Gate + Send + Sync + Drop + 'static,
    >(
        rt: &R,
        alloc: Global,
        setup: Result<Setup<S>, AllocError>,
        gate: G,
        producers: usize,
    ) -> Trial<S>
        requires { IfOk setup Fits }
    {
        let Ok(setup) = setup else {
            panic!(rt; "out of memory")
        };
        match Pool::start(rt, alloc, setup, gate) {
            Ok(pool) => Trial::of(rt, alloc, pool, producers),
            Err(StartError::OutOfMemory) => panic!(rt; "out of memory"),
            Err(_) => panic!(rt; "no pool"),
        }
    }

    /// Tries this pool with so many producers.
    pub fn of(rt: &impl Abort, alloc: Global, pool: Pool<S>, producers: usize) -> Trial<S> {
        let mut pool = pool;
        let producers = made(rt, alloc, &mut pool, producers);
        Trial { pool, producers }
    }

    /// The producer of this number logs this text, of this level, to this logger. Where memory was wanting, it logs it again.
    pub fn log_at(
        &mut self,
        rt: &(impl Abort + Wait + Clock),
        alloc: Global,
        number: usize,
        logger: u32,
        level: Level,
        text: &str,
    ) -> LogReply {
        assert!(rt; number < self.producers.len());
        let producer = &mut self.producers[number];
        match log_again(rt, alloc, producer, logger, level, text) {
            Ok(reply) => reply,
            Err(_) => panic!(rt; "no memory"),
        }
    }

    /// It logs it without waiting, to the first logger.
    pub fn log_now(
        &mut self,
        rt: &impl Abort,
        alloc: Global,
        number: usize,
        level: Level,
        text: &str,
    ) -> LogReply {
        assert!(rt; number < self.producers.len());
        let producer = &mut self.producers[number];
        assert!(rt; producer.loggers().len() > 0);
        let answer = match producer.log_now(alloc, 0, level, 0, text, None) {
            Err(MessageError::OutOfMemory) => producer.log_now(alloc, 0, level, 0, text, None),
            answer => answer,
        };
        match answer {
            Ok(reply) => reply,
            Err(_) => panic!(rt; "no memory"),
        }
    }

    /// It logs it, of level info, to this logger.
    pub fn log(
        &mut self,
        rt: &(impl Abort + Wait + Clock),
        alloc: Global,
        number: usize,
        logger: u32,
        text: &str,
    ) -> LogReply {
        self.log_at(rt, alloc, number, logger, Level::Info, text)
    }

    /// It logs it, of level info, to the first logger.
    pub fn say(
        &mut self,
        rt: &(impl Abort + Wait + Clock),
        alloc: Global,
        number: usize,
        text: &str,
    ) {
        self.log(rt, alloc, number, 0, text);
    }

    /// It logs it, of level info, to the first logger, with where it comes from, and is not asked again where memory was wanting.
    pub fn log_once(
        &mut self,
        rt: &(impl Abort + Wait + Clock),
        alloc: Global,
        number: usize,
        text: &str,
        source: Option<SourceRef<'_>>,
    ) {
        assert!(rt; number < self.producers.len());
        let producer = &mut self.producers[number];
        assert!(rt; producer.loggers().len() > 0);
        let answer = producer.log(rt, alloc, 0, Level::Info, 0, text, source);
        assert!(rt; answer.is_ok());
    }

    /// It posts a flush of the first logger, under this ticket.
    pub fn flush(&mut self, rt: &impl Abort, number: usize, ticket: u64) {
        assert!(rt; number < self.producers.len());
        let producer = &mut self.producers[number];
        assert!(rt; producer.loggers().len() > 0);
        assert!(rt; producer.flush(0) == Outcome::Posted { ticket, overran: 0 });
    }

    /// It posts a flush of the first logger with waiting, under this ticket.
    pub fn flush_wait(&mut self, rt: &(impl Abort + Wait + Clock), number: usize, ticket: u64) {
        assert!(rt; number < self.producers.len());
        let producer = &mut self.producers[number];
        assert!(rt; producer.loggers().len() > 0);
        let outcome = producer.flush_wait(rt, 0);
        assert!(rt; outcome == Outcome::Posted { ticket, overran: 0 });
    }

    /// It dumps the backtrace of the first logger, by so many posts. Where memory was wanting, it dumps it again.
    pub fn dump(
        &mut self,
        rt: &(impl Abort + Wait + Clock),
        alloc: Global,
        number: usize,
        posts: usize,
    ) {
        assert!(rt; number < self.producers.len());
        let producer = &mut self.producers[number];
        assert!(rt; dump_again(rt, alloc, producer) == posts);
    }

    /// The loggers, as the producer of this number lends them.
    pub fn loggers(&self, rt: &impl Abort, number: usize) -> &Loggers {
        match self.producers.get(number) {
            Some(producer) => producer.loggers(),
            None => panic!(rt; "no producer"),
        }
    }

    /// Ends the pool.
    pub fn end(self, rt: &(impl Abort + Threads + Wait + Clock)) -> Report<S> {
        let Trial { pool, producers } = self;
        match pool.shutdown(rt, producers) {
            Ok(report) => report,
            Err(_) => panic!(rt; "a producer is out"),
        }
    }

    /// Ends the pool when its last producer is back: while that is out, pool and producers come back as they were.
    pub fn end_late(self, rt: &(impl Abort + Threads + Wait + Clock)) -> Report<S> {
        let Trial {
            pool,
            mut producers,
        } = self;
        let Some(late) = producers.pop() else {
            panic!(rt; "no producer")
        };
        let others = producers.len();
        assert!(rt; late.number() == others as u64);
        let ProducersOut {
            pool,
            mut producers,
        } = kept(rt, pool, producers);
        assert!(rt; producers.len() == others);
        add(rt, &mut producers, late);
        Trial { pool, producers }.end(rt)
    }

    /// Ends the pool, which makes no producer more.
    pub fn end_full(self, rt: &(impl Abort + Threads + Wait + Clock)) -> Report<S> {
        let Trial {
            mut pool,
            producers,
        } = self;
        match pool.producer() {
            Err(ProducerError::TooMany) => {}
            _ => panic!(rt; "a producer more"),
        }
        Trial { pool, producers }.end(rt)
    }
}
