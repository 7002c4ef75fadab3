//! What the host of a pool keeps, with which it makes producers and workers; and how a pool is opened.
ghost use Rattle.std.specs.Prelude.{◌≡◌, ◌↔◌, ◌≤◌, ◌<◌, ◌+◌, [], length, map, true, false, None, vec_capacity, IfOk, OnErr, IsErrOf};
ghost use Rattle.std.specs.List.{AllByRecursion};
ghost use Rattle.alog_core.specs.Queue.{last};
ghost use Rattle.alog_core.specs.World.{is_size};
ghost use Rattle.alog_hosted.specs.Host.{Hires, IsSpareFor, Makes, Opens};
ghost use Rattle.alog_lane.specs.declared.seat.TheConstants.{ALL_PARTS as ALL_SEATS};
ghost use Rattle.alog_msg.specs.declared.item.Item.TheVariants.{Stop};
ghost use Rattle.alog_msg.specs.declared.limits.TheConstants.{TEXT_LIMIT_MIN, TEXT_LIMIT_MAX};
ghost use Rattle.alog_pattern.specs.declared.patterns.TheConstants.{LINE_MAX};
ghost use Rattle.alog_pool.specs.Places.{AreSpare, Each2, Each3, IsBacktraceSeatOf, IsBacktraceSeatPart, IsFirst, IsPart};
ghost use Rattle.alog_pool.specs.Pool.{Fits, HasWorkers, backtrace_seat_lanes, lanes_of};
ghost use Rattle.alog_pool.specs.declared.pool.TheConstants.{PRODUCERS_MAX};
ghost use Rattle.alog_ring.specs.Known.{IsPassOf, first_known};
ghost use Rattle.alog_sink.specs.Sinks.{Suits};

use crate::backtrace_place::BacktracePlace;
use crate::blank::Blank;
use crate::error::WorkerError;
use crate::hosted::Hosted;
use crate::outfit::fitted_out;
use crate::producer::HostedProducer;
use crate::sink_place::SinkPlace;
use crate::worker::HostedWorker;
use alog_format::LineBuf;
use alog_lane::Lane;
use alog_msg::Block;
use alog_pattern::LINE_MAX;
use alog_policy::{BookSeat, LossBook, Pace};
use alog_pool::{
    PRODUCERS_MAX, ProducerError, Queue, QueuePass, Setup, Shared, StartError, WORKERS_MAX,
    queue_of, two_blocks,
};
use alog_registry::{Backtrace, BacktraceScratch, Loggers};
use alog_sink::{Sink, Store};
use std::alloc::{AllocError, Global};
use std::fmt;
use std::marker::Model;
use std::snapshot::Snapshot;

/// What the host of a pool keeps to itself, while the pool is lent to its threads: producers and workers are made of it, and by it the pool is
/// ended. It is no `Drop`: a way out of a function that does not end the pool by `disband` does not compile.
pub struct Host<S: Store> {
    pub(crate) alloc: Global,
    /// Which pool it is.
    pub(crate) hosted: Snapshot<Hosted<S>>,
    pub(crate) pass: QueuePass,
    pub(crate) losses: BookSeat,
    pub(crate) places: Vec<SinkPlace<S>>,
    pub(crate) backtraces: Vec<BacktracePlace>,
    /// What its end writes lines with.
    pub(crate) line: LineBuf,
    /// How many producers, and how many workers, it made.
    pub(crate) made: u64,
    pub(crate) hired: usize,
    /// How many workers it may make.
    pub(crate) workers: usize,
    pub(crate) text_limit: usize,
    pub(crate) tickets_max: usize,
    pub(crate) blank: Blank<S>,
}

impl<S: Store> Model for Host<S> {
    ghost use Rattle.std.specs.Prelude.{◌≡◌, length};
    ghost use Rattle.alog_hosted.specs.Host.{HasRoom, HostView, IsHost};
    ghost use Rattle.alog_pattern.specs.declared.patterns.TheConstants.{LINE_MAX};

    ghost Value = { HostView S };

    ghost view = { λ h. record {
      hosted = h.hosted.value;
      pass = h.pass;
      losses = h.losses;
      places = h.places.items;
      backtraces = h.backtraces.items;
      made = h.made;
      hired = h.hired;
      workers = h.workers;
      limit = h.text_limit;
      most = h.tickets_max;
    } };

    ghost invariant = { λ h. IsHost h.hosted.value h.pass h.losses h.places.items h.backtraces.items h.made h.hired h.workers h.text_limit
        × HasRoom h.workers (length h.places.items) h.blank × (h.line.capacity ≡ LINE_MAX) };
}

impl<S: Store> fmt::Debug for Host<S> {
    fn fmt<W: fmt::Write>(&self, f: &mut fmt::Formatter<W>) -> fmt::Result {
        f.debug_struct("Host")
            .field("producers", &self.made)
            .field("workers", &self.hired)
            .finish_non_exhaustive()
    }
}

impl<S: Store + Drop> Host<S> {
    /// Opens a pool over a new queue and these loggers and sinks, without a thread: what is lent to its producers and workers, and what its host
    /// keeps. It tells no gaps, whatever the setup says.
    ///
    /// The reasons for a refusal are looked at in the order of `StartError`; what was handed over is dropped then. Among the memory that it takes
    /// is a block for each place of the queue.
    pub fn open(alloc: Global, setup: Setup<S>) -> Result<(Hosted<S>, Host<S>), StartError>
        requires { Fits setup }
        ensures bad_workers { IsErrOf result StartError.BadWorkers ↔ (¬ HasWorkers setup) }
        ensures bad_size { IsErrOf result StartError.BadSize ↔ (HasWorkers setup × (is_size setup.queue ≡ false)) }
        ensures bad_first { IsErrOf result StartError.BadFirst
            ↔ (HasWorkers setup × (is_size setup.queue ≡ true) × (last ≤ setup.first)) }
        ensures opened { IfOk result (λ r. Opens setup r.0 r.1) }
    {
        if setup.workers < 1 || setup.workers > WORKERS_MAX {
            return Err(StartError::BadWorkers);
        }
        let (ring, pass) = queue_of(alloc, setup.queue, setup.first, setup.text_limit)?;
        match opened(alloc, setup, ring, pass) {
            Ok(both) => Ok(both),
            Err(AllocError) => Err(StartError::OutOfMemory),
        }
    }

    /// A producer for one of the host's threads. Its number is how many were made before it. It takes memory: two blocks that go round by its
    /// posts, and a list for the backtrace of each logger.
    pub fn producer(&mut self, hosted: &Hosted<S>) -> Result<HostedProducer, ProducerError>
        requires hosted { hosted.now ≡ self.old.hosted }
        ensures too_many { IsErrOf result ProducerError.TooMany ↔ (PRODUCERS_MAX ≤ self.old.made) }
        ensures made { IfOk result (λ p. Makes self.old self.new p) }
        ensures err { OnErr result (self.new ≡ self.old) }
    {
        if self.made >= PRODUCERS_MAX {
            return Err(ProducerError::TooMany);
        }
        let Ok(spares) = spares_of(self.alloc, &self.backtraces) else {
            return Err(ProducerError::OutOfMemory);
        };
        let Ok(mut backtraces) = Vec::with_capacity(self.alloc, spares.len()) else {
            return Err(ProducerError::OutOfMemory);
        };
        let Ok((hand, spare)) = two_blocks(self.alloc, self.text_limit) else {
            return Err(ProducerError::OutOfMemory);
        };
        share_backtraces(
            &hosted.backtraces,
            &mut self.backtraces,
            spares,
            &mut backtraces,
        );
        let shared = &hosted.shared;
        let producer = HostedProducer {
            shared: Snapshot::of(shared),
            pass: shared.ring.split(&mut self.pass, 1),
            hand: Some(hand),
            spare: Some(spare),
            pace: Pace::new(shared.ring.places()),
            losses: shared.book.split(&mut self.losses, 1),
            backtraces,
            number: self.made,
            text_limit: self.text_limit,
        };
        self.made += 1;
        Ok(producer)
    }

    /// A worker for one of the host's threads. Its number is how many were made before it. It takes memory: a block, room for a line and for the
    /// tickets that it notes, and a place at each sink.
    pub fn worker(&mut self, hosted: &Hosted<S>) -> Result<HostedWorker<S>, WorkerError>
        requires hosted { hosted.now ≡ self.old.hosted }
        ensures too_many { IsErrOf result WorkerError.TooMany ↔ (self.old.workers ≤ self.old.hired) }
        ensures hired { IfOk result (λ w. Hires self.old self.new w) }
        ensures err { OnErr result (self.new ≡ self.old) }
    {
        if self.hired >= self.workers {
            return Err(WorkerError::TooMany);
        }
        let Ok(tools) = Tools::new(self.alloc, self.text_limit, self.tickets_max) else {
            return Err(WorkerError::OutOfMemory);
        };
        let Ok(mut places) = Vec::with_capacity(self.alloc, self.places.len()) else {
            return Err(WorkerError::OutOfMemory);
        };
        share_places(&hosted.lanes, &mut self.places, &mut places);
        let Tools {
            line,
            block,
            tickets,
        } = tools;
        let worker = HostedWorker {
            shared: Snapshot::of(&hosted.shared),
            pass: hosted.shared.ring.split(&mut self.pass, 1),
            block,
            places,
            line,
            tickets,
            handled: 0,
            number: self.hired as u32,
            most: self.tickets_max,
            owed: None,
        };
        self.hired += 1;
        Ok(worker)
    }
}

/// A pool over this queue, and what its host keeps.
fn opened<S: Store + Drop>(
    alloc: Global,
    setup: Setup<S>,
    ring: Queue,
    pass: QueuePass,
) -> Result<(Hosted<S>, Host<S>), AllocError>
    requires fits { Fits setup }
    requires workers { HasWorkers setup }
    requires ring { IsPassOf ring.ring pass × (ring.ring.limit.most ≡ setup.text_limit) }
    requires shape { (ring.ring.places ≡ setup.queue) × (ring.ring.first ≡ setup.first) × (1 ≤ ring.ring.places) }
    requires pass { pass.known ≡ first_known ring.ring.places ring.ring.first }
    ensures { IfOk result (λ r. Opens setup r.0 r.1) }
{
    let Setup {
        text_limit,
        tickets_max,
        loggers,
        sinks,
        workers,
        ..
    } = setup;
    let outfit = fitted_out(alloc, &loggers, sinks, text_limit, workers)?;
    let hosted = Hosted {
        shared: Shared {
            ring,
            book: outfit.book,
            loggers,
            gaps: None,
        },
        lanes: outfit.lanes,
        backtraces: outfit.backtrace_lanes,
    };
    let host = Host {
        alloc,
        hosted: Snapshot::of(&hosted),
        pass,
        losses: outfit.losses,
        places: outfit.places,
        backtraces: outfit.backtraces,
        line: outfit.line,
        made: 0,
        hired: 0,
        workers,
        text_limit,
        tickets_max,
        blank: outfit.blank,
    };
    Ok((hosted, host))
}

/// What a place at each of these backtraces takes memory for.
fn spares_of(
    alloc: Global,
    backtraces: &[BacktracePlace],
) -> Result<Vec<BacktraceScratch>, AllocError>
    ensures { IfOk result (λ v. Each2 IsSpareFor backtraces.now v.items) }
{
    let mut spares = Vec::with_capacity(alloc, backtraces.len())?;
    for backtrace in backtraces {
        spares.push_reserved(backtrace.spare(alloc)?);
    }
    Ok(spares)
}

/// Gives a part of each place away, into the memory that was made for it.
fn share_backtraces(
    lanes: &[Lane<Backtrace>],
    backtraces: &mut Vec<BacktracePlace>,
    spares: Vec<BacktraceScratch>,
    given: &mut Vec<BacktracePlace>,
)
    requires lanes { backtrace_seat_lanes backtraces.old.items ≡ lanes.now }
    requires spares { Each2 IsSpareFor backtraces.old.items spares.items }
    requires parts { AllByRecursion (λ k. 1 < k.seat.known.parts) backtraces.old.items }
    requires room { (given.old.items ≡ []) × (length spares.items ≤ vec_capacity given.old) }
    ensures { Each3 IsBacktraceSeatPart backtraces.old.items backtraces.new.items given.new.items }
{
    for spare in spares {
        let number = given.len();
        given.push_reserved(backtraces[number].split(&lanes[number], spare));
    }
}

/// Gives a part of each place to a worker, into the memory that was made for it.
fn share_places<S: Store + Drop>(
    lanes: &[Lane<Sink<S>>],
    places: &mut Vec<SinkPlace<S>>,
    given: &mut Vec<SinkPlace<S>>,
)
    requires lanes { lanes_of places.old.items ≡ lanes.now }
    requires parts { AreSpare places.old.items }
    requires room { (given.old.items ≡ []) × (length places.old.items ≤ vec_capacity given.old) }
    ensures { Each3 IsPart places.old.items places.new.items given.new.items }
{
    for number in 0..places.len() {
        given.push_reserved(places[number].split(&lanes[number]));
    }
}

/// What a worker writes with, and has to itself.
#[derive(Drop)]
struct Tools {
    line: LineBuf,
    block: Block,
    tickets: Vec<u64>,
}

impl Tools {
    /// With room for so many tickets.
    fn new(alloc: Global, text_limit: usize, tickets_max: usize) -> Result<Tools, AllocError>
        requires { (TEXT_LIMIT_MIN ≤ text_limit) × (text_limit ≤ TEXT_LIMIT_MAX) }
        ensures line { IfOk result (λ t. t.line.capacity ≡ LINE_MAX) }
        ensures block { IfOk result (λ t. t.block ≡ record { limit = text_limit; item = Stop }) }
        ensures tickets { IfOk result (λ t. (t.tickets.items ≡ []) × (tickets_max ≤ vec_capacity t.tickets)) }
    {
        Ok(Tools {
            line: LineBuf::new(alloc, LINE_MAX)?,
            block: Block::new(alloc, text_limit)?,
            tickets: Vec::with_capacity(alloc, tickets_max)?,
        })
    }
}
