//! A pool: it starts workers, and makes producers.
ghost use Rattle.std.specs.Prelude.{◌≡◌, ◌↔◌, ◌≤◌, ◌<◌, [], length, true, false, vec_capacity, IfOk, OnErr, IsErrOf};
ghost use Rattle.std.specs.List.{AllByRecursion};
ghost use Rattle.alog_core.specs.Queue.{last};
ghost use Rattle.alog_core.specs.World.{is_size};
ghost use Rattle.alog_msg.specs.declared.limits.TheConstants.{TEXT_LIMIT_MIN, TEXT_LIMIT_MAX};
ghost use Rattle.alog_msg.specs.declared.item.Item.TheVariants.{Stop};
ghost use Rattle.alog_pool.specs.Places.{Each2, Each3, IsBacktraceSeatPart, IsSpareOf};
ghost use Rattle.alog_pool.specs.Pool.{Fits, HasWorkers, AreParts, Makes, Staffs, Starts};
ghost use Rattle.alog_registry.specs.Limit.{HoldsTo};
ghost use Rattle.alog_pool.specs.declared.pool_parts.PoolParts.{PoolParts};
ghost use Rattle.alog_pool.specs.declared.pool.TheConstants.{PRODUCERS_MAX};
ghost use Rattle.alog_ring.specs.Known.{IsPassOf, first_known};

use crate::backtrace_seat::{BacktraceSeat, Spare};
use crate::error::{ProducerError, StartError};
use crate::gate::Gate;
use crate::pool_parts::{PoolParts, WorkerHandle};
use crate::producer::Producer;
use crate::report::Blank;
use crate::setup::Setup;
use crate::shared::{Queue, QueuePass, Shared};
use crate::sink_seat::SinkSeat;
use alog_core::{TICKET_END, is_size};
use alog_msg::Block;
use alog_policy::{BookSeat, Pace};
use alog_registry::{Loggers, TextLimit};
use alog_ring::SwapRing;
use alog_sink::Store;
use std::alloc::{AllocError, Global};
use std::fmt;
use std::marker::Model;
use std::sync::{Arc, Wait};
use std::thread::Threads;
use std::time::Clock;

/// The most workers of a pool.
pub const WORKERS_MAX: usize = 64;

/// The most producers that a pool makes.
pub const PRODUCERS_MAX: u64 = 4_096;

/// Workers that write lines on threads of their own, and what producers are made of.
///
/// A pool is no `Drop`: a way out of a function that does not end it by `shutdown` does not compile, so no pool leaves its workers
/// waiting.
pub struct Pool<S: Store> {
    pub(crate) alloc: Global,
    pub(crate) shared: Arc<Shared>,
    pub(crate) pass: QueuePass,
    /// What its stops are written into.
    pub(crate) block: Block,
    pub(crate) losses: BookSeat,
    pub(crate) sink_seats: Vec<SinkSeat<S>>,
    pub(crate) backtrace_seats: Vec<BacktraceSeat>,
    pub(crate) made: u64,
    pub(crate) text_limit: usize,
    pub(crate) tickets_max: usize,
    pub(crate) workers: Vec<WorkerHandle<S>>,
    pub(crate) blank: Blank<S>,
}

impl<S: Store> Model for Pool<S> {
    ghost use Rattle.std.specs.Prelude.{length, map};
    ghost use Rattle.std.specs.Arc.{arc_value};
    ghost use Rattle.alog_pool.specs.Pool.{PoolView, IsPool};
    ghost use Rattle.alog_pool.specs.Room.{HasRoom};
    ghost use Rattle.alog_registry.specs.Limit.{HoldsTo};

    ghost Value = { PoolView S };

    ghost view = { λ p. record {
      shared = arc_value p.shared;
      pass = p.pass;
      losses = p.losses;
      sink_seats = p.sink_seats.items;
      backtrace_seats = p.backtrace_seats.items;
      made = p.made;
      limit = p.text_limit;
      most = p.tickets_max;
      crew = map (λ h. h.promise.start.value) p.workers.items;
    } };

    ghost invariant = { λ p. IsPool (arc_value p.shared) p.pass p.losses p.sink_seats.items p.backtrace_seats.items p.made p.text_limit p.tickets_max
        (map (λ h. h.promise.start.value) p.workers.items) × HasRoom (length p.workers.items) (length p.sink_seats.items) p.blank
        × HoldsTo (arc_value p.shared).ring.ring.limit p.block };
}

impl<S: Store> fmt::Debug for Pool<S> {
    fn fmt<W: fmt::Write>(&self, f: &mut fmt::Formatter<W>) -> fmt::Result {
        f.debug_struct("Pool")
            .field("workers", &self.workers.len())
            .field("producers", &self.made)
            .finish_non_exhaustive()
    }
}

impl<S: Store + Drop + Send + 'static> Pool<S> {
    /// Starts so many workers, over a new queue and these loggers and sinks, with the gate round each text that they handle.
    ///
    /// The reasons for a refusal are looked at in the order of `StartError`; what was handed over is dropped then. Among the memory
    /// that it takes is a block for each place of the queue and for each worker, and one for its stops.
    pub fn start<
        R: Threads + Wait + Clock + Clone + Drop + Send + 'static,
        G: Gate + Send + Sync + Drop + 'static,
    >(rt: &R, alloc: Global, setup: Setup<S>, gate: G) -> Result<Pool<S>, StartError>
        requires { Fits setup }
        ensures bad_workers { IsErrOf result StartError.BadWorkers ↔ (¬ HasWorkers setup) }
        ensures bad_size { IsErrOf result StartError.BadSize ↔ (HasWorkers setup × (is_size setup.queue ≡ false)) }
        ensures bad_first { IsErrOf result StartError.BadFirst
            ↔ (HasWorkers setup × (is_size setup.queue ≡ true) × (last ≤ setup.first)) }
        ensures started { IfOk result (λ p. Starts setup p) }
    {
        if setup.workers < 1 || setup.workers > WORKERS_MAX {
            return Err(StartError::BadWorkers);
        }
        let (ring, pass) = queue_of(alloc, setup.queue, setup.first, setup.text_limit)?;
        match start_workers(rt, alloc, setup, ring, pass, gate) {
            Ok(pool) => Ok(pool),
            Err(AllocError) => Err(StartError::OutOfMemory),
        }
    }

    /// Its loggers: by name, with their levels, which any thread may set while it runs.
    pub fn loggers(&self) -> &Loggers
        ensures { result.now ≡ self.now.shared.loggers }
    {
        &self.shared.loggers
    }

    /// A producer for a request thread. Its number is how many were made before it. It takes memory: two blocks that go round by its
    /// posts, and a list for the backtrace of each logger.
    pub fn producer(&mut self) -> Result<Producer, ProducerError>
        ensures too_many { IsErrOf result ProducerError.TooMany ↔ (PRODUCERS_MAX ≤ self.old.made) }
        ensures made { IfOk result (λ p. Makes self.old self.new p) }
        ensures err { OnErr result (self.new ≡ self.old) }
    {
        if self.made >= PRODUCERS_MAX {
            return Err(ProducerError::TooMany);
        }
        let Ok(shared) = Arc::try_clone(&self.shared) else {
            return Err(ProducerError::OutOfMemory);
        };
        let Ok(spares) = spares_of(self.alloc, &self.backtrace_seats) else {
            return Err(ProducerError::OutOfMemory);
        };
        let Ok(mut backtrace_seats) = Vec::with_capacity(self.alloc, spares.len()) else {
            return Err(ProducerError::OutOfMemory);
        };
        let Ok((hand, spare)) = two_blocks(self.alloc, self.text_limit) else {
            return Err(ProducerError::OutOfMemory);
        };
        share_backtrace_seats(&mut self.backtrace_seats, spares, &mut backtrace_seats);
        let producer = Producer {
            pass: shared.ring.split(&mut self.pass, 1),
            hand: Some(hand),
            spare: Some(spare),
            pace: Pace::new(shared.ring.places()),
            losses: shared.book.split(&mut self.losses, 1),
            shared,
            backtrace_seats,
            number: self.made,
            text_limit: self.text_limit,
        };
        self.made += 1;
        Ok(producer)
    }
}

/// The queue of a pool, and the first pass of it.
pub fn queue_of(
    alloc: Global,
    places: usize,
    first: u64,
    text_limit: usize,
) -> Result<(Queue, QueuePass), StartError>
    requires limit { (TEXT_LIMIT_MIN ≤ text_limit) × (text_limit ≤ TEXT_LIMIT_MAX) }
    ensures workers { ¬ IsErrOf result StartError.BadWorkers }
    ensures bad_size { IsErrOf result StartError.BadSize ↔ (is_size places ≡ false) }
    ensures bad_first { IsErrOf result StartError.BadFirst ↔ ((is_size places ≡ true) × (last ≤ first)) }
    ensures shape { IfOk result (λ r. (r.0.ring.places ≡ places) × (r.0.ring.first ≡ first) × (r.0.ring.limit.most ≡ text_limit)) }
    ensures ring { IfOk result (λ r. IsPassOf r.0.ring r.1) }
    ensures first { IfOk result (λ r. r.1.known ≡ first_known places first) }
{
    if !is_size(places) {
        return Err(StartError::BadSize);
    }
    if first >= TICKET_END {
        return Err(StartError::BadFirst);
    }
    let Ok(blocks) = blocks_of(alloc, places, text_limit) else {
        return Err(StartError::OutOfMemory);
    };
    let limit = TextLimit { most: text_limit };
    match SwapRing::limited(alloc, places, first, blocks, limit) {
        Ok(made) => Ok(made),
        Err(_) => Err(StartError::OutOfMemory),
    }
}

/// So many blocks for texts of this limit.
fn blocks_of(alloc: Global, count: usize, text_limit: usize) -> Result<Vec<Block>, AllocError>
    requires { (TEXT_LIMIT_MIN ≤ text_limit) × (text_limit ≤ TEXT_LIMIT_MAX) }
    ensures each { IfOk result (λ v. AllByRecursion (HoldsTo (record { most = text_limit })) v.items) }
    ensures count { IfOk result (λ v. length v.items ≡ count) }
{
    Block::many(alloc, count, text_limit)
}

/// The blocks of a producer.
pub fn two_blocks(alloc: Global, text_limit: usize) -> Result<(Block, Block), AllocError>
    requires { (TEXT_LIMIT_MIN ≤ text_limit) × (text_limit ≤ TEXT_LIMIT_MAX) }
    ensures { IfOk result (λ r. (r.0.limit ≡ text_limit) × (r.0.item ≡ Stop) × (r.1.limit ≡ text_limit) × (r.1.item ≡ Stop)) }
{
    let hand = Block::new(alloc, text_limit)?;
    Ok((hand, Block::new(alloc, text_limit)?))
}

/// Starts the workers of a pool over this queue.
fn start_workers<
    S: Store + Drop + Send + 'static,
    R: Threads + Wait + Clock + Clone + Drop + Send + 'static,
    G: Gate + Send + Sync + Drop + 'static,
>(
    rt: &R,
    alloc: Global,
    setup: Setup<S>,
    ring: Queue,
    pass: QueuePass,
    gate: G,
) -> Result<Pool<S>, AllocError>
    requires fits { Fits setup }
    requires workers { HasWorkers setup }
    requires ring { IsPassOf ring.ring pass × (ring.ring.limit.most ≡ setup.text_limit) }
    requires pass { pass.known ≡ first_known ring.ring.places ring.ring.first }
    requires first { ring.ring.first ≡ setup.first }
    requires places { 1 ≤ ring.ring.places }
    ensures { IfOk result (λ p. (g : PoolParts S) × AreParts setup ring.ring g × Staffs g p) }
{
    PoolParts::new(alloc, setup, ring, pass)?.staff(rt, gate)
}

/// What a place at each of these backtraces takes memory for.
fn spares_of(alloc: Global, backtrace_seats: &[BacktraceSeat]) -> Result<Vec<Spare>, AllocError>
    ensures { IfOk result (λ v. Each2 IsSpareOf backtrace_seats.now v.items) }
{
    let mut spares = Vec::with_capacity(alloc, backtrace_seats.len())?;
    for backtrace_seat in backtrace_seats {
        spares.push_reserved(backtrace_seat.spare(alloc)?);
    }
    Ok(spares)
}

/// Gives a part of each place away, into the memory that was made for it.
fn share_backtrace_seats(
    backtrace_seats: &mut Vec<BacktraceSeat>,
    spares: Vec<Spare>,
    given: &mut Vec<BacktraceSeat>,
)
    requires spares { Each2 IsSpareOf backtrace_seats.old.items spares.items }
    requires parts { AllByRecursion (λ k. 1 < k.seat.known.parts) backtrace_seats.old.items }
    requires room { (given.old.items ≡ []) × (length spares.items ≤ vec_capacity given.old) }
    ensures { Each3 IsBacktraceSeatPart backtrace_seats.old.items backtrace_seats.new.items given.new.items }
{
    for spare in spares {
        let place = given.len();
        given.push_reserved(backtrace_seats[place].split(spare));
    }
}
