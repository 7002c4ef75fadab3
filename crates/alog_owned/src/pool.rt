//! A pool whose parts own their share of it.
ghost use Rattle.std.specs.Prelude.{◌≡◌, ◌↔◌, ◌≤◌, false, true, min, IfOk, IfErr, IsErrOf, OnErr};
ghost use Rattle.std.specs.Arc.{arc_value};
ghost use Rattle.std.specs.List.{AllByRecursion};
ghost use Rattle.alog_core.specs.Queue.{last};
ghost use Rattle.alog_core.specs.World.{is_size};
ghost use Rattle.alog_hosted.specs.Lent.{IsProducerOf};
ghost use Rattle.alog_hosted.specs.Workers.{IsWorkerOf};
ghost use Rattle.alog_owned.specs.Desk.{IsPassAt};
ghost use Rattle.alog_owned.specs.Owned.{EndsSo, HiresBy, MakesBy, OpensBy};
ghost use Rattle.alog_pool.specs.Pool.{Fits, HasWorkers};
ghost use Rattle.alog_pool.specs.declared.pool.TheConstants.{PRODUCERS_MAX};

use crate::back::Piece;
use crate::common::Common;
use crate::desk::{DeskPass, another, desk_for, take};
use crate::producer::OwnedProducer;
use crate::worker::OwnedWorker;
use alog_hosted::{Host, Hosted, HostedProducer, HostedWorker, WorkerError};
use alog_pool::{PRODUCERS_MAX, ProducerError, Report, Setup, StartError};
use alog_registry::Loggers;
use alog_sink::Store;
use std::alloc::Global;
use std::fmt;
use std::marker::Model;
use std::sync::Arc;

/// A pool whose host brings the threads, and whose producers and workers own their share of it. It is ended by `end`, so it is no `Drop`.
pub struct OwnedPool<S: Store> {
    common: Arc<Common<S>>,
    pass: DeskPass<S>,
    host: Host<S>,
    /// Those that were taken off the desk.
    producers: Vec<HostedProducer>,
    workers: Vec<HostedWorker<S>>,
    /// How many producers, and how many workers, were made.
    made: u64,
    hired: usize,
    /// How many producers, and how many workers, it may make.
    most: u64,
    workers_most: usize,
}

impl<S: Store> Model for OwnedPool<S> {
    ghost use Rattle.std.specs.Prelude.{◌≡◌, ◌≤◌};
    ghost use Rattle.std.specs.Arc.{arc_value};
    ghost use Rattle.std.specs.List.{AllByRecursion};
    ghost use Rattle.alog_hosted.specs.Lent.{IsProducerOf};
    ghost use Rattle.alog_hosted.specs.Workers.{IsWorkerOf};
    ghost use Rattle.alog_owned.specs.Desk.{IsPassAt};
    ghost use Rattle.alog_owned.specs.Owned.{OwnedPoolView};
    ghost use Rattle.alog_pool.specs.declared.pool.TheConstants.{PRODUCERS_MAX};

    ghost Value = { OwnedPoolView S };

    ghost view = { λ p. record { host = p.host; most = p.most } };

    ghost invariant = { λ p. IsPassAt (arc_value p.common).desk (arc_value p.common).hosted p.pass
        × (p.host.hosted ≡ (arc_value p.common).hosted) × (p.made ≡ p.host.made) × (p.hired ≡ p.host.hired) × (p.most ≤ PRODUCERS_MAX)
        × (p.workers_most ≡ p.host.workers)
        × AllByRecursion (IsProducerOf (arc_value p.common).hosted) p.producers.items
        × AllByRecursion (IsWorkerOf (arc_value p.common).hosted) p.workers.items };
}

impl<S: Store> fmt::Debug for OwnedPool<S> {
    fn fmt<W: fmt::Write>(&self, f: &mut fmt::Formatter<W>) -> fmt::Result {
        f.debug_struct("OwnedPool")
            .field("producers", &self.made)
            .field("workers", &self.hired)
            .finish_non_exhaustive()
    }
}

impl<S: Store + Drop> OwnedPool<S> {
    /// Opens a pool, as `Host::open` does, that may make up to so many producers, and at most 4,096. Beside what `Host::open` takes it takes memory
    /// for a desk with a place for each producer and worker that it may make.
    pub fn open(
        alloc: Global,
        setup: Setup<S>,
        producers: usize,
    ) -> Result<OwnedPool<S>, StartError>
        requires { Fits setup }
        ensures bad_workers { IsErrOf result StartError.BadWorkers ↔ (¬ HasWorkers setup) }
        ensures bad_size { IsErrOf result StartError.BadSize ↔ (HasWorkers setup × (is_size setup.queue ≡ false)) }
        ensures bad_first { IsErrOf result StartError.BadFirst
            ↔ (HasWorkers setup × (is_size setup.queue ≡ true) × (last ≤ setup.first)) }
        ensures opened { IfOk result (OpensBy setup producers) }
    {
        let most = (producers as u64).min(PRODUCERS_MAX);
        let workers_most = setup.workers;
        let places = (most as usize).saturating_add(workers_most);
        let (hosted, host) = Host::open(alloc, setup)?;
        let Ok((desk, pass)) = desk_for(alloc, &hosted, places) else {
            close_unused(alloc, host, hosted);
            return Err(StartError::OutOfMemory);
        };
        match Arc::new(alloc, Common { hosted, desk }) {
            Ok(common) => Ok(OwnedPool {
                common,
                pass,
                host,
                producers: Vec::new(alloc),
                workers: Vec::new(alloc),
                made: 0,
                hired: 0,
                most,
                workers_most,
            }),
            Err(failed) => {
                let Common { hosted, desk: _ } = failed.value;
                close_unused(alloc, host, hosted);
                Err(StartError::OutOfMemory)
            }
        }
    }

    /// The loggers of the pool: by name, with their levels, which any thread may set while it runs.
    pub fn loggers(&self) -> &Loggers
        ensures { result.now ≡ self.now.host.hosted.shared.loggers }
    {
        self.common.hosted.loggers()
    }

    /// Makes a producer, as `Host::producer` does.
    pub fn producer(&mut self) -> Result<OwnedProducer<S>, ProducerError>
        ensures too_many { IsErrOf result ProducerError.TooMany ↔ (self.old.most ≤ self.old.host.made) }
        ensures made { IfOk result (MakesBy self.old self.new) }
        ensures err { OnErr result (self.new ≡ self.old) }
    {
        if self.made >= self.most {
            return Err(ProducerError::TooMany);
        }
        let out = (self.made as usize)
            .saturating_sub(self.producers.len())
            .saturating_add(1);
        let Ok(()) = self.producers.reserve(out) else {
            return Err(ProducerError::OutOfMemory);
        };
        let Ok(common) = Arc::try_clone(&self.common) else {
            return Err(ProducerError::OutOfMemory);
        };
        match self.host.producer(&common.hosted) {
            Ok(producer) => {
                self.made += 1;
                let pass = another(&common, &mut self.pass);
                Ok(OwnedProducer::of(common, pass, producer))
            }
            Err(error) => Err(error),
        }
    }

    /// Makes a worker, as `Host::worker` does.
    pub fn worker(&mut self) -> Result<OwnedWorker<S>, WorkerError>
        ensures too_many { IsErrOf result WorkerError.TooMany ↔ (self.old.host.workers ≤ self.old.host.hired) }
        ensures hired { IfOk result (HiresBy self.old self.new) }
        ensures err { OnErr result (self.new ≡ self.old) }
    {
        if self.hired >= self.workers_most {
            return Err(WorkerError::TooMany);
        }
        let out = self
            .hired
            .saturating_sub(self.workers.len())
            .saturating_add(1);
        let Ok(()) = self.workers.reserve(out) else {
            return Err(WorkerError::OutOfMemory);
        };
        let Ok(common) = Arc::try_clone(&self.common) else {
            return Err(WorkerError::OutOfMemory);
        };
        match self.host.worker(&common.hosted) {
            Ok(worker) => {
                self.hired += 1;
                let pass = another(&common, &mut self.pass);
                Ok(OwnedWorker::of(common, pass, worker))
            }
            Err(error) => Err(error),
        }
    }

    /// Ends the pool, as `Host::disband` does, when its producers and workers have all been given back. A worker's tickets are told in the order in
    /// which the workers were given back.
    ///
    /// Where some have not been given back, or one is being given back at this moment, the pool is handed back: try again. It takes memory for at most
    /// one place in two lists while parts lie at its desk, and is handed back where there is none.
    pub fn end(mut self) -> Result<Report<S>, OwnedPool<S>>
        ensures ends { IfOk result (EndsSo S.tells S.files S.failures self.host) }
        ensures back { IfErr result (λ p. p ≡ self) }
    {
        clear(
            &self.common,
            &mut self.pass,
            &mut self.producers,
            &mut self.workers,
        );
        self.end_cleared()
    }

    /// Ends the pool, if all of its parts were taken off the desk.
    fn end_cleared(self) -> Result<Report<S>, OwnedPool<S>>
        ensures ends { IfOk result (EndsSo S.tells S.files S.failures self.host) }
        ensures back { IfErr result (λ p. p ≡ self) }
    {
        if self.producers.len() as u64 != self.made || self.workers.len() != self.hired {
            return Err(self);
        }
        let OwnedPool {
            common,
            pass,
            host,
            producers,
            workers,
            made,
            hired,
            most,
            workers_most,
        } = self;
        match Arc::try_unwrap(common) {
            Ok(Common { hosted, desk: _ }) => match host.disband(hosted, producers, workers) {
                Ok(report) => Ok(report),
                Err(_) => unreachable!(),
            },
            Err(common) => Err(OwnedPool {
                common,
                pass,
                host,
                producers,
                workers,
                made,
                hired,
                most,
                workers_most,
            }),
        }
    }
}

/// Takes off the desk what lies there, as long as there is room for it.
fn clear<S: Store>(
    common: &Common<S>,
    pass: &mut DeskPass<S>,
    producers: &mut Vec<HostedProducer>,
    workers: &mut Vec<HostedWorker<S>>,
)
    requires pass { IsPassAt common.now.desk common.now.hosted pass.old }
    requires producers { AllByRecursion (IsProducerOf common.now.hosted) producers.old.items }
    requires workers { AllByRecursion (IsWorkerOf common.now.hosted) workers.old.items }
    ensures pass { IsPassAt common.now.desk common.now.hosted pass.new }
    ensures producers { AllByRecursion (IsProducerOf common.now.hosted) producers.new.items }
    ensures workers { AllByRecursion (IsWorkerOf common.now.hosted) workers.new.items }
{
    for _ in 0..common.desk.capacity() {
        if !clear_one(common, pass, producers, workers) {
            return;
        }
    }
}

/// Takes one part off the desk, if there is one, and room for it.
fn clear_one<S: Store>(
    common: &Common<S>,
    pass: &mut DeskPass<S>,
    producers: &mut Vec<HostedProducer>,
    workers: &mut Vec<HostedWorker<S>>,
) -> bool
    requires pass { IsPassAt common.now.desk common.now.hosted pass.old }
    requires producers { AllByRecursion (IsProducerOf common.now.hosted) producers.old.items }
    requires workers { AllByRecursion (IsWorkerOf common.now.hosted) workers.old.items }
    ensures pass { IsPassAt common.now.desk common.now.hosted pass.new }
    ensures producers { AllByRecursion (IsProducerOf common.now.hosted) producers.new.items }
    ensures workers { AllByRecursion (IsWorkerOf common.now.hosted) workers.new.items }
{
    let (Ok(()), Ok(())) = (producers.reserve(1), workers.reserve(1)) else {
        return false;
    };
    let Some(back) = take(common, pass) else {
        return false;
    };
    match back.into_piece() {
        Piece::Producer(producer) => producers.push_reserved(producer),
        Piece::Worker(worker) => workers.push_reserved(worker),
        Piece::Seed => {}
    }
    true
}

/// Ends a pool of which no producer and no worker was made.
fn close_unused<S: Store + Drop>(alloc: Global, host: Host<S>, hosted: Hosted<S>)
    requires hosted { hosted ≡ host.hosted }
    requires unused { (host.made ≡ 0) × (host.hired ≡ 0) }
{
    match host.disband(hosted, Vec::new(alloc), Vec::new(alloc)) {
        Ok(_) => {}
        Err(_) => unreachable!(),
    }
}
