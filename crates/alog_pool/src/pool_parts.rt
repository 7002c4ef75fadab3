//! What a pool stands on before it has workers.
ghost use Rattle.std.specs.Prelude.{◌≡◌, ◌≤◌, ◌<◌, ◌+◌, ℕ, [], length, map, vec_capacity, IfOk, Ok, OnOk};
ghost use Rattle.std.specs.Arc.{arc_value};
ghost use Rattle.std.specs.List.{AllByRecursion, range_with_len};
ghost use Rattle.alog_core.specs.World.{is_size};
ghost use Rattle.alog_lane.specs.Seats.{first_known as first_seat};
ghost use Rattle.alog_lane.specs.declared.seat.TheConstants.{ALL_PARTS as ALL_SEATS};
ghost use Rattle.alog_msg.specs.declared.item.Item.TheVariants.{Stop};
ghost use Rattle.alog_msg.specs.declared.limits.TheConstants.{TEXT_LIMIT_MIN, TEXT_LIMIT_MAX};
ghost use Rattle.alog_pattern.specs.declared.patterns.TheConstants.{LINE_MAX};
ghost use Rattle.alog_policy.specs.BookCalls.{IsSeatOf};
ghost use Rattle.alog_pool.specs.BacktraceSeat.{BacktraceSeatView};
ghost use Rattle.alog_pool.specs.Gaps.{CanTell, next_of, told_from};
ghost use Rattle.alog_pool.specs.Places.{AreSpare, Each2, Each3, IsFirst, IsBacktraceSeatOf, IsPart};
ghost use Rattle.alog_pool.specs.Pool.{Begins, Fits, HasBlock, HasQueue, AreParts, Staffs, Stands, Crews, Hires, lanes_of};
ghost use Rattle.alog_pool.specs.Room.{HasRoom};
ghost use Rattle.alog_pool.specs.Working.{HasWorked, IsAtWork, numbers_of};
ghost use Rattle.alog_pool.specs.declared.pool.TheConstants.{WORKERS_MAX};
ghost use Rattle.alog_ring.specs.Known.{IsPassOf, first_known};
ghost use Rattle.alog_sink.specs.Sinks.{Suits};

use crate::backtrace_seat::BacktraceSeat;
use crate::gaps::{Gaps, gaps_from};
use crate::gate::Gate;
use crate::item_wait::RestPace;
use crate::pool::Pool;
use crate::report::Blank;
use crate::setup::Setup;
use crate::shared::{Queue, QueuePass, Shared};
use crate::sink_seat::SinkSeat;
use crate::stops::post_stops;
use crate::worker::Worker;
use crate::works::{Works, work_alone};
use alog_format::LineBuf;
use alog_msg::Block;
use alog_pattern::LINE_MAX;
use alog_policy::{BookSeat, LossBook};
use alog_registry::Loggers;
use alog_sink::{Sink, Store};
use std::alloc::{AllocError, Global};
use std::snapshot::Snapshot;
use std::sync::{Arc, Wait};
use std::thread::{self, PromisedHandle, Threads};
use std::time::Clock;

/// A worker's thread.
pub(crate) type WorkerHandle<S> = PromisedHandle<Worker<S>, Works<S>>;

/// The parts of a pool: what all share, and the first place at each shared thing.
#[derive(Drop)]
pub(crate) struct PoolParts<S: Store> {
    pub(crate) alloc: Global,
    pub(crate) shared: Arc<Shared>,
    pub(crate) pass: QueuePass,
    /// What its stops are written into.
    pub(crate) block: Block,
    pub(crate) losses: BookSeat,
    pub(crate) sink_seats: Vec<SinkSeat<S>>,
    pub(crate) backtrace_seats: Vec<BacktraceSeat>,
    pub(crate) text_limit: usize,
    pub(crate) tickets_max: usize,
    pub(crate) workers: usize,
}

impl<S: Store + Drop + Send + 'static> PoolParts<S> {
    /// What a pool over this queue stands on.
    pub(crate) fn new(
        alloc: Global,
        setup: Setup<S>,
        ring: Queue,
        pass: QueuePass,
    ) -> Result<PoolParts<S>, AllocError>
        requires fits { Fits setup }
        requires ring { IsPassOf ring.ring pass × (ring.ring.limit.most ≡ setup.text_limit) }
        requires pass { pass.known ≡ first_known ring.ring.places ring.ring.first }
        requires first { ring.ring.first ≡ setup.first }
        requires places { 1 ≤ ring.ring.places }
        ensures { IfOk result (λ g. AreParts setup ring.ring g) }
    {
        let gaps = told_from(&setup);
        let Setup {
            text_limit,
            tickets_max,
            loggers,
            sinks,
            workers,
            ..
        } = setup;
        let (shared, losses) = shared_of(alloc, ring, loggers, gaps)?;
        let backtrace_seats = backtrace_seats_of(alloc, &shared.loggers, text_limit)?;
        let sink_seats = sink_seats_of(alloc, sinks, text_limit)?;
        let block = Block::new(alloc, text_limit)?;
        Ok(PoolParts {
            alloc,
            shared,
            pass,
            block,
            losses,
            sink_seats,
            backtrace_seats,
            text_limit,
            tickets_max,
            workers,
        })
    }

    /// Starts its workers. Where one cannot be started, those that were are told to stop.
    pub(crate) fn staff<
        R: Threads + Wait + Clock + Clone + Drop + Send + 'static,
        G: Gate + Send + Sync + Drop + 'static,
    >(self, rt: &R, gate: G) -> Result<Pool<S>, AllocError>
        requires stands { Stands 0 self }
        requires block { HasBlock self }
        requires workers { (1 ≤ self.workers) × (self.workers ≤ WORKERS_MAX) }
        ensures { IfOk result (λ p. Staffs self p) }
    {
        let mut parts = self;
        match parts.hire_all(rt, gate) {
            Ok((workers, blank)) => Ok(parts.with(workers, blank)),
            Err(AllocError) => Err(AllocError),
        }
    }

    /// Starts all of its workers, and gives them with room for what they will have done.
    fn hire_all<
        R: Threads + Wait + Clock + Clone + Drop + Send + 'static,
        G: Gate + Send + Sync + Drop + 'static,
    >(&mut self, rt: &R, gate: G) -> Result<(Vec<WorkerHandle<S>>, Blank<S>), AllocError>
        requires stands { Stands 0 self.old }
        requires block { HasBlock self.old }
        requires workers { self.old.workers ≤ WORKERS_MAX }
        ensures crew { IfOk result (λ r. Crews self.old self.new (map (λ h. h.promise.start.value) r.0.items)) }
        ensures room { IfOk result (λ r. HasRoom (length r.0.items) (length self.new.sink_seats.items) r.1) }
        ensures block { OnOk result (HasBlock self.new) }
    {
        let Ok(gate) = Arc::new(self.alloc, gate) else {
            return Err(AllocError);
        };
        let blank = Blank::new(self.alloc, self.workers, self.sink_seats.len())?;
        let workers = self.crew(rt, &gate)?;
        Ok((workers, blank))
    }

    /// Starts all of its workers. Where one cannot be started, those that were are told to stop.
    fn crew<
        R: Threads + Wait + Clock + Clone + Drop + Send + 'static,
        G: Gate + Send + Sync + Drop + 'static,
    >(&mut self, rt: &R, gate: &Arc<G>) -> Result<Vec<WorkerHandle<S>>, AllocError>
        requires stands { Stands 0 self.old }
        requires block { HasBlock self.old }
        requires workers { self.old.workers ≤ WORKERS_MAX }
        ensures crew { IfOk result (λ v. Crews self.old self.new (map (λ h. h.promise.start.value) v.items)) }
        ensures block { OnOk result (HasBlock self.new) }
    {
        let mut workers = Vec::with_capacity(self.alloc, self.workers)?;
        for number in 0..self.workers {
            match self.hire(rt, gate, number as u32) {
                Ok(worker) => workers.push_reserved(worker),
                Err(AllocError) => {
                    post_stops(
                        rt,
                        &self.shared.ring,
                        &mut self.pass,
                        &mut self.block,
                        workers.len(),
                    );
                    return Err(AllocError);
                }
            }
        }
        Ok(workers)
    }

    /// The pool with these workers.
    fn with(self, workers: Vec<WorkerHandle<S>>, blank: Blank<S>) -> Pool<S>
        requires stands { Stands (length workers.items) self }
        requires block { HasBlock self }
        requires each { AllByRecursion (Begins (arc_value self.shared) (lanes_of self.sink_seats.items) self.tickets_max)
            (map (λ h. h.promise.start.value) workers.items) }
        requires all { (1 ≤ self.workers) × (length workers.items ≡ self.workers) }
        requires numbers { numbers_of (map (λ h. h.promise.start.value) workers.items) ≡ range_with_len 0 self.workers }
        requires room { HasRoom (length workers.items) (length self.sink_seats.items) blank }
        ensures { Staffs self result }
    {
        let PoolParts {
            alloc,
            shared,
            pass,
            block,
            losses,
            sink_seats,
            backtrace_seats,
            text_limit,
            tickets_max,
            workers: _,
        } = self;
        Pool {
            alloc,
            shared,
            pass,
            block,
            losses,
            sink_seats,
            backtrace_seats,
            made: 0,
            text_limit,
            tickets_max,
            workers,
            blank,
        }
    }

    /// Starts one more worker.
    fn hire<
        R: Threads + Wait + Clock + Clone + Drop + Send + 'static,
        G: Gate + Send + Sync + Drop + 'static,
    >(&mut self, rt: &R, gate: &Arc<G>, number: u32) -> Result<WorkerHandle<S>, AllocError>
        requires stands { (n : ℕ) × Stands n self.old × (n < WORKERS_MAX) }
        requires block { HasBlock self.old }
        requires workers { self.old.workers ≤ WORKERS_MAX }
        ensures hires { (n : ℕ) → Stands n self.old → n < WORKERS_MAX → IfOk result (λ h. Hires n self.old self.new h.promise.start.value) }
        ensures number { IfOk result (λ h. h.promise.start.value.number ≡ number) }
        ensures queue { HasQueue self.new }
        ensures block { HasBlock self.new }
    {
        let (own, gate) = both_for_one(rt, gate)?;
        let pace = self.pace();
        let worker = self.worker(number, pace)?;
        set_to_work(rt, own, gate, worker)
    }

    /// How long its workers rest.
    fn pace(&self) -> RestPace
        requires { self.now.workers ≤ WORKERS_MAX }
    {
        RestPace::new(self.workers as u32, self.shared.ring.places())
    }

    /// What one more worker works with, which rests at this pace.
    fn worker(&mut self, number: u32, pace: RestPace) -> Result<Worker<S>, AllocError>
        requires stands { (n : ℕ) × Stands n self.old × (n < WORKERS_MAX) }
        requires block { HasBlock self.old }
        ensures hires { (n : ℕ) → Stands n self.old → n < WORKERS_MAX → IfOk result (λ h. Hires n self.old self.new h) }
        ensures number { IfOk result (λ h. h.number ≡ number) }
        ensures queue { HasQueue self.new }
        ensures block { HasBlock self.new }
    {
        let shared = Arc::try_clone(&self.shared)?;
        let tools = Tools::new(self.alloc, self.text_limit, self.tickets_max, shared.gaps)?;
        let sink_seats = parts_of(self.alloc, &mut self.sink_seats)?;
        let pass = self.shared.ring.split(&mut self.pass, 1);
        let Tools {
            line,
            block,
            tickets,
            gaps,
        } = tools;
        Ok(Worker {
            shared,
            pass,
            block,
            sink_seats,
            line,
            number,
            pace,
            tickets,
            most: self.tickets_max,
            handled: 0,
            gaps,
        })
    }
}

/// Starts this worker, on a thread of its own.
fn set_to_work<
    S: Store + Drop + Send + 'static,
    R: Threads + Wait + Clock + Clone + Drop + Send + 'static,
    G: Gate + Send + Sync + Drop + 'static,
>(rt: &R, own: R, gate: Arc<G>, worker: Worker<S>) -> Result<WorkerHandle<S>, AllocError>
    requires at_work { IsAtWork worker worker }
    ensures { IfOk result (λ h. h.promise.start.value ≡ worker) }
{
    let promise = Works {
        start: Snapshot::of(&worker),
    };
    let answer = thread::spawn_with(
        rt,
        promise,
        move || -> Worker<S>
            requires { IsAtWork worker worker }
            ensures { HasWorked worker result }
        { work_alone(own, gate, worker) },
    );
    handle_of(answer)
}

/// What a worker writes with, and has to itself.
#[derive(Drop)]
struct Tools {
    line: LineBuf,
    block: Block,
    tickets: Vec<u64>,
    gaps: Option<Gaps>,
}

impl Tools {
    /// With room for so many tickets, for a worker that tells gaps from this ticket on, or tells none.
    fn new(
        alloc: Global,
        text_limit: usize,
        tickets_max: usize,
        first: Option<u64>,
    ) -> Result<Tools, AllocError>
        requires { (TEXT_LIMIT_MIN ≤ text_limit) × (text_limit ≤ TEXT_LIMIT_MAX) }
        ensures line { IfOk result (λ t. t.line.capacity ≡ LINE_MAX) }
        ensures block { IfOk result (λ t. t.block ≡ record { limit = text_limit; item = Stop }) }
        ensures tickets { IfOk result (λ t. (t.tickets.items ≡ []) × (tickets_max ≤ vec_capacity t.tickets)) }
        ensures gaps { IfOk result (λ t. (next_of t.gaps ≡ first) × CanTell text_limit t.gaps) }
    {
        Ok(Tools {
            line: LineBuf::new(alloc, LINE_MAX)?,
            block: Block::new(alloc, text_limit)?,
            tickets: Vec::with_capacity(alloc, tickets_max)?,
            gaps: gaps_from(alloc, first)?,
        })
    }
}

/// From which ticket on the worker of a pool of this setup tells gaps, where it does.
fn told_from<S: Store>(setup: &Setup<S>) -> Option<u64>
    ensures { result ≡ told_from setup.now }
{
    if setup.tells_gaps && setup.workers == 1 {
        Some(setup.first)
    } else {
        None
    }
}

/// The handle of a worker's thread. Where there is none, what was to run on it is dropped.
fn handle_of<S: Store + Drop + Send + 'static, E: Drop>(
    answer: Result<WorkerHandle<S>, E>,
) -> Result<WorkerHandle<S>, AllocError>
    ensures { IfOk result (λ h. answer ≡ Ok h) }
{
    match answer {
        Ok(handle) => Ok(handle),
        Err(_) => Err(AllocError),
    }
}

/// The runtime and the gate of one more worker.
fn both_for_one<R: Clone + Drop, G: Drop>(
    rt: &R,
    gate: &Arc<G>,
) -> Result<(R, Arc<G>), AllocError> {
    let gate = Arc::try_clone(gate)?;
    Ok((rt.clone()?, gate))
}

/// What all threads of a pool over this queue share, and the first seat of its loss book.
fn shared_of(
    alloc: Global,
    ring: Queue,
    loggers: Loggers,
    gaps: Option<u64>,
) -> Result<(Arc<Shared>, BookSeat), AllocError>
    ensures ring { IfOk result (λ r. (arc_value r.0).ring ≡ ring) }
    ensures loggers { IfOk result (λ r. (arc_value r.0).loggers ≡ loggers) }
    ensures gaps { IfOk result (λ r. (arc_value r.0).gaps ≡ gaps) }
    ensures seat { IfOk result (λ r. IsSeatOf (arc_value r.0).book r.1) }
    ensures known { IfOk result (λ r. r.1.known ≡ first_seat) }
{
    let (book, losses) = LossBook::new(alloc)?;
    let shared = Shared {
        ring,
        book,
        loggers,
        gaps,
    };
    match Arc::new(alloc, shared) {
        Ok(shared) => Ok((shared, losses)),
        Err(_) => Err(AllocError),
    }
}

/// The first place at each of these sinks.
fn sink_seats_of<S: Store + Drop>(
    alloc: Global,
    sinks: Vec<Sink<S>>,
    text_limit: usize,
) -> Result<Vec<SinkSeat<S>>, AllocError>
    requires { AllByRecursion (Suits text_limit LINE_MAX) sinks.items }
    ensures { IfOk result (λ v. Each2 (IsFirst text_limit) sinks.items v.items) }
{
    let mut sink_seats = Vec::with_capacity(alloc, sinks.len())?;
    for sink in sinks {
        sink_seats.push_reserved(SinkSeat::first(alloc, sink, text_limit)?);
    }
    Ok(sink_seats)
}

/// A place for a worker at each sink.
fn parts_of<S: Store + Drop>(
    alloc: Global,
    sink_seats: &mut Vec<SinkSeat<S>>,
) -> Result<Vec<SinkSeat<S>>, AllocError>
    requires { AreSpare sink_seats.old.items }
    ensures { IfOk result (λ v. Each3 IsPart sink_seats.old.items sink_seats.new.items v.items) }
{
    let mut parts = Vec::with_capacity(alloc, sink_seats.len())?;
    for place in 0..sink_seats.len() {
        parts.push_reserved(sink_seats[place].split()?);
    }
    Ok(parts)
}

/// The first place at the backtrace of each logger.
fn backtrace_seats_of(
    alloc: Global,
    loggers: &Loggers,
    text_limit: usize,
) -> Result<Vec<BacktraceSeat>, AllocError>
    requires { (TEXT_LIMIT_MIN ≤ text_limit) × (text_limit ≤ TEXT_LIMIT_MAX) }
    ensures { IfOk result (λ v. Each2 (IsBacktraceSeatOf text_limit) loggers.now v.items) }
{
    let mut backtrace_seats = Vec::with_capacity(alloc, loggers.len())?;
    for number in 0..loggers.len() {
        let Some(spec) = loggers.spec(number as u32) else {
            unreachable!()
        };
        backtrace_seats.push_reserved(BacktraceSeat::new(alloc, spec.backtrace, text_limit)?);
    }
    Ok(backtrace_seats)
}
