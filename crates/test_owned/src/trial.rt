//! A pool that is tried, with those of its producers and workers that are out. The functions end the test where something is not as it should be.
//! Where memory was wanting, a call is made again.
ghost use Rattle.std.specs.Prelude.{IfOk};
ghost use Rattle.alog_pool.specs.Pool.{Fits};

use crate::sinks::setup;
use alog_hosted::{Once, Work, WorkerError};
use alog_msg::{Level, MessageError};
use alog_owned::{LogError, OwnedDumpError, OwnedPool, OwnedProducer, OwnedWorker};
use alog_policy::Outcome;
use alog_pool::{ProducerError, Report, Setup, StartError};
use alog_registry::DumpError;
use alog_sink::MemStore;
use std::alloc::{AllocError, Global};
use std::process::Abort;

/// A pool over files in memory.
pub type Pool = OwnedPool<MemStore>;

/// A producer of it.
pub type Talker = OwnedProducer<MemStore>;

/// A worker of it.
pub type Writer = OwnedWorker<MemStore>;

/// How a pool is opened: its queue, how many producers and workers it may make, and how many messages its logger keeps.
#[derive(Clone, Copy)]
pub struct Plan {
    pub queue: usize,
    pub producers: usize,
    pub workers: usize,
    pub backtrace: usize,
}

/// A pool, and its producers and workers that are out.
pub struct Trial {
    pub pool: Pool,
    pub producers: Vec<Talker>,
    pub workers: Vec<Writer>,
}

/// Opens a pool of this setup, for up to so many producers.
fn open_of(
    alloc: Global,
    setup: Result<Setup<MemStore>, AllocError>,
    producers: usize,
) -> Result<Pool, StartError>
    requires { IfOk setup Fits }
{
    match setup {
        Ok(setup) => OwnedPool::open(alloc, setup, producers),
        Err(_) => Err(StartError::OutOfMemory),
    }
}

/// Opens a pool of this plan.
pub fn open(rt: &impl Abort, alloc: Global, plan: Plan) -> Pool {
    let answer = match open_of(
        alloc,
        setup(alloc, plan.queue, plan.workers, plan.backtrace),
        plan.producers,
    ) {
        Err(StartError::OutOfMemory) => {
            open_of(
                alloc,
                setup(alloc, plan.queue, plan.workers, plan.backtrace),
                plan.producers,
            )
        }
        answer => answer,
    };
    match answer {
        Ok(pool) => pool,
        Err(_) => panic!(rt; "no pool"),
    }
}

/// The pool is to make a producer.
fn ask_producer(pool: &mut Pool) -> Result<Talker, ProducerError> {
    match pool.producer() {
        Err(ProducerError::OutOfMemory) => pool.producer(),
        answer => answer,
    }
}

/// The pool is to make a worker.
fn ask_worker(pool: &mut Pool) -> Result<Writer, WorkerError> {
    match pool.worker() {
        Err(WorkerError::OutOfMemory) => pool.worker(),
        answer => answer,
    }
}

/// The pool makes a producer.
pub fn producer_of(rt: &impl Abort, pool: &mut Pool) -> Talker {
    match ask_producer(pool) {
        Ok(producer) => producer,
        Err(_) => panic!(rt; "no producer"),
    }
}

/// The pool makes a worker.
pub fn worker_of(rt: &impl Abort, pool: &mut Pool) -> Writer {
    match ask_worker(pool) {
        Ok(worker) => worker,
        Err(_) => panic!(rt; "no worker"),
    }
}

/// The pool ends: nothing of it is out.
pub fn end(rt: &impl Abort, pool: Pool) -> Report<MemStore> {
    let answer = match pool.end() {
        Err(pool) => pool.end(),
        answer => answer,
    };
    match answer {
        Ok(report) => report,
        Err(_) => panic!(rt; "a producer or a worker is out"),
    }
}

/// Adds one to those that are out.
fn add<T>(rt: &impl Abort, all: &mut Vec<T>, one: T) {
    let answer = match all.push(one) {
        Err(failed) => all.push(failed.value),
        answer => answer,
    };
    match answer {
        Ok(()) => {}
        Err(_) => panic!(rt; "no memory"),
    }
}

impl Trial {
    /// Opens a pool of this plan, of which nothing is out.
    pub fn open(rt: &impl Abort, alloc: Global, plan: Plan) -> Trial {
        Trial {
            pool: open(rt, alloc, plan),
            producers: Vec::new(alloc),
            workers: Vec::new(alloc),
        }
    }

    /// The pool makes a producer of this number.
    pub fn make_producer(&mut self, rt: &impl Abort, number: u64) {
        let producer = producer_of(rt, &mut self.pool);
        assert!(rt; producer.number() == number);
        add(rt, &mut self.producers, producer);
    }

    /// The pool makes a worker of this number.
    pub fn make_worker(&mut self, rt: &impl Abort, number: u32) {
        let worker = worker_of(rt, &mut self.pool);
        assert!(rt; worker.number() == number);
        add(rt, &mut self.workers, worker);
    }

    /// The pool makes no producer more.
    pub fn make_no_producer(&mut self, rt: &impl Abort) {
        match ask_producer(&mut self.pool) {
            Err(ProducerError::TooMany) => {}
            _ => panic!(rt; "a producer more"),
        }
    }

    /// The pool makes no worker more.
    pub fn make_no_worker(&mut self, rt: &impl Abort) {
        match ask_worker(&mut self.pool) {
            Err(WorkerError::TooMany) => {}
            _ => panic!(rt; "a worker more"),
        }
    }

    /// The producer at this place logs this text, of this level, to this logger.
    pub fn log(
        &mut self,
        rt: &impl Abort,
        alloc: Global,
        place: usize,
        logger: u32,
        level: Level,
        text: &str,
    ) -> Result<Once, LogError> {
        assert!(rt; place < self.producers.len());
        let producer = &mut self.producers[place];
        match producer.log_once(alloc, logger, level, 0, text, None) {
            Err(LogError::Refused(MessageError::OutOfMemory)) => {
                producer.log_once(alloc, logger, level, 0, text, None)
            }
            answer => answer,
        }
    }

    /// It posts a flush of this logger.
    pub fn flush(&mut self, rt: &impl Abort, place: usize, logger: u32) -> Option<Outcome<()>> {
        assert!(rt; place < self.producers.len());
        self.producers[place].flush(logger)
    }

    /// It dumps the backtrace of this logger.
    pub fn dump(
        &mut self,
        rt: &impl Abort,
        alloc: Global,
        place: usize,
        logger: u32,
    ) -> Result<Vec<Outcome<()>>, OwnedDumpError> {
        assert!(rt; place < self.producers.len());
        let producer = &mut self.producers[place];
        match producer.dump_once(alloc, logger, 5) {
            Err(OwnedDumpError::Refused(DumpError::OutOfMemory)) => {
                producer.dump_once(alloc, logger, 5)
            }
            answer => answer,
        }
    }

    /// The worker at this place ends items, at most so many.
    pub fn work(&mut self, rt: &impl Abort, place: usize, most: usize) -> Work {
        assert!(rt; place < self.workers.len());
        self.workers[place].work_some(most)
    }

    /// The producer at this place is given back. Those behind it move up.
    pub fn give_producer(&mut self, rt: &impl Abort, place: usize) {
        assert!(rt; place < self.producers.len());
        match self.producers.remove(place).give_back() {
            Ok(()) => {}
            Err(_) => panic!(rt; "nobody is at the desk"),
        }
    }

    /// The worker at this place is given back. Those behind it move up.
    pub fn give_worker(&mut self, rt: &impl Abort, place: usize) {
        assert!(rt; place < self.workers.len());
        match self.workers.remove(place).give_back() {
            Ok(()) => {}
            Err(_) => panic!(rt; "nobody is at the desk"),
        }
    }

    /// The pool does not end, and comes back: something of it is out.
    pub fn stay(self, rt: &impl Abort) -> Trial {
        let Trial {
            pool,
            producers,
            workers,
        } = self;
        match pool.end() {
            Ok(_) => panic!(rt; "something is out"),
            Err(pool) => Trial {
                pool,
                producers,
                workers,
            },
        }
    }

    /// The pool ends, all of whose producers and workers were given back.
    pub fn end(self, rt: &impl Abort) -> Report<MemStore> {
        let Trial {
            pool,
            producers,
            workers,
        } = self;
        assert!(rt; producers.is_empty() && workers.is_empty());
        producers.destroy_empty();
        workers.destroy_empty();
        end(rt, pool)
    }
}
