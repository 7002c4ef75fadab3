//! A worker alone, on the thread of the test. It has no place at a sink: what a worker writes, tests of pools show.
ghost use Rattle.std.specs.Prelude.{◌≡◌, IfOk};
ghost use Rattle.std.specs.Arc.{arc_value};
ghost use Rattle.alog_registry.specs.Limit.{HoldsTo};
ghost use Rattle.alog_pattern.specs.declared.patterns.TheConstants.{LINE_MAX};
ghost use Rattle.alog_pool.specs.Working.{IsAtWork, IsFresh};
ghost use Rattle.test_pool.specs.declared.sinks.TheConstants.{TEXT_LIMIT};
ghost use Rattle.alog_ring.specs.Known.{IsPassOf};

use crate::sinks::TEXT_LIMIT;
use crate::trial::{PLAIN, loggers};
use alog_format::LineBuf;
use alog_msg::{Block, Item, Level};
use alog_pattern::LINE_MAX;
use alog_policy::LossBook;
use alog_pool::{OpenGate, Queue, QueuePass, RestPace, Shared, Worker};
use alog_registry::{Loggers, TextLimit};
use alog_ring::SwapRing;
use alog_sink::MemStore;
use std::alloc::Global;
use std::process::Abort;
use std::sync::{Arc, Wait};
use std::test::Fail;
use std::time::Clock;

// A block for texts of the limit.
fn block(rt: &impl Abort, alloc: Global) -> Block
    ensures { HoldsTo (record { most = TEXT_LIMIT }) result }
{
    match Block::new(alloc, TEXT_LIMIT) {
        Ok(block) => block,
        Err(_) => panic!(rt; "no memory"),
    }
}

// Posts what is in the hand, under this ticket.
fn post(rt: &impl Abort, ring: &Queue, pass: &mut QueuePass, hand: &mut Block, ticket: u64)
    requires ring { IsPassOf ring.now.ring pass.old }
    requires hand { HoldsTo ring.now.ring.limit hand.old }
    ensures ring { IsPassOf ring.now.ring pass.new }
    ensures hand { HoldsTo ring.now.ring.limit hand.new }
{
    assert!(rt;
        ring.push_swap_from(pass, hand)
            .is_ok_and(|found| found == ticket)
    );
}

// Posts this text, under this ticket.
fn post_text(
    rt: &impl Abort,
    ring: &Queue,
    pass: &mut QueuePass,
    hand: &mut Block,
    text: &str,
    ticket: u64,
)
    requires ring { IsPassOf ring.now.ring pass.old }
    requires hand { HoldsTo ring.now.ring.limit hand.old }
    ensures ring { IsPassOf ring.now.ring pass.new }
    ensures hand { HoldsTo ring.now.ring.limit hand.new }
{
    let written = hand.write(0, Level::Info, 0, 1, text, None).is_ok();
    assert!(rt; written);
    post(rt, ring, pass, hand, ticket);
}

// Posts a text, a stop, and a text behind it.
fn post_all(rt: &impl Abort, alloc: Global, ring: &Queue, pass: &mut QueuePass)
    requires ring { IsPassOf ring.now.ring pass.old }
    requires limit { ring.now.ring.limit ≡ record { most = TEXT_LIMIT } }
    ensures { IsPassOf ring.now.ring pass.new }
{
    let mut hand = block(rt, alloc);
    post_text(rt, ring, pass, &mut hand, "a", 0);
    hand.write_stop();
    post(rt, ring, pass, &mut hand, 1);
    post_text(rt, ring, pass, &mut hand, "b", 2);
}

// A queue with those, a worker's pass of it, and another.
fn queue(rt: &impl Abort, alloc: Global) -> Result<(Queue, QueuePass, QueuePass), Fail>
    ensures ring { IfOk result (λ r. IsPassOf r.0.ring r.1 × (r.0.ring.limit ≡ record { most = TEXT_LIMIT })) }
    ensures fresh { IfOk result (λ r. IsFresh r.1.known) }
    ensures other { IfOk result (λ r. IsPassOf r.0.ring r.2) }
{
    let limit = TextLimit { most: TEXT_LIMIT };
    let blocks = vec![in alloc;
        block(rt, alloc),
        block(rt, alloc),
        block(rt, alloc),
        block(rt, alloc),
    ]?;
    let Ok((ring, mut first)) = SwapRing::limited(alloc, 4, 0, blocks, limit) else {
        panic!(rt; "no memory")
    };
    let pass = ring.split(&mut first, 1);
    post_all(rt, alloc, &ring, &mut first);
    Ok((ring, pass, first))
}

// What this queue's worker shares with the rest of its pool.
fn shared(rt: &impl Abort, alloc: Global, ring: Queue, loggers: Loggers) -> Arc<Shared>
    ensures { (arc_value result).ring ≡ ring }
{
    let Ok((book, _)) = LossBook::new(alloc) else {
        panic!(rt; "no memory")
    };
    let shared = Shared {
        ring,
        book,
        loggers,
        gaps: None,
    };
    match Arc::new(alloc, shared) {
        Ok(shared) => shared,
        Err(_) => panic!(rt; "no memory"),
    }
}

// A worker without a place, of a pool of one.
fn worker(
    rt: &impl Abort,
    alloc: Global,
    shared: Arc<Shared>,
    pass: QueuePass,
) -> Result<Worker<MemStore>, Fail>
    requires ring { IsPassOf (arc_value shared).ring.ring pass }
    requires limit { (arc_value shared).ring.ring.limit ≡ record { most = TEXT_LIMIT } }
    requires fresh { IsFresh pass.known }
    ensures { IfOk result (λ h. IsAtWork h h) }
{
    Ok(Worker {
        shared,
        pass,
        block: block(rt, alloc),
        sink_seats: Vec::new(alloc),
        line: LineBuf::new(alloc, LINE_MAX)?,
        number: 0,
        pace: RestPace::new(1, 8_192),
        tickets: Vec::with_capacity(alloc, 4)?,
        most: 4,
        handled: 0,
        gaps: None,
    })
}

// The next item of the queue is the text behind the stop.
fn has_the_last(rt: &impl Abort, ring: &Queue, pass: &mut QueuePass, spare: &mut Block)
    requires ring { IsPassOf ring.now.ring pass.old }
    requires spare { HoldsTo ring.now.ring.limit spare.old }
{
    assert!(rt; ring.pop_swap_into(pass, spare) == Ok(2));
    match spare.item() {
        Item::Text(message) => assert!(rt; message.text.as_str() == "b"),
        Item::Flush(_) | Item::Stop => panic!(rt; "another item"),
    }
}

// It handled the first item alone.
fn has_handled(rt: &impl Abort, handled: u64, tickets: &[u64]) {
    assert!(rt; handled == 1 && tickets == [0].as_slice());
}

// It counted what it took, the text and the stop: with two items more there are as many as make the next rest longer.
fn has_counted(rt: &impl Abort, mut pace: RestPace) {
    pace.count();
    pace.count();
    assert!(rt; pace.next_rest() == 3_000);
}

// The same, of a pool with one logger.
fn shared_of(rt: &impl Abort, alloc: Global, ring: Queue) -> Result<Arc<Shared>, Fail>
    ensures { IfOk result (λ s. (arc_value s).ring ≡ ring) }
{
    let loggers = loggers(alloc, PLAIN, &[&[0]])?;
    Ok(shared(rt, alloc, ring, loggers))
}

// A worker of this pool ends when it handled the first item alone.
fn works(
    rt: &(impl Abort + Wait + Clock),
    alloc: Global,
    shared: &Arc<Shared>,
    pass: QueuePass,
) -> Result<(), Fail>
    requires ring { IsPassOf (arc_value shared.now).ring.ring pass }
    requires limit { (arc_value shared.now).ring.ring.limit ≡ record { most = TEXT_LIMIT } }
    requires fresh { IsFresh pass.known }
{
    let same = Arc::try_clone(shared)?;
    let worker = worker(rt, alloc, same, pass)?.work(rt, &OpenGate);
    has_handled(rt, worker.handled, worker.tickets.as_slice());
    has_counted(rt, worker.pace);
    Ok(())
}

// It does, and the text behind its stop is left to another pass.
fn ends(
    rt: &(impl Abort + Wait + Clock),
    alloc: Global,
    shared: Arc<Shared>,
    pass: QueuePass,
    mut other: QueuePass,
) -> Result<(), Fail>
    requires ring { IsPassOf (arc_value shared).ring.ring pass }
    requires limit { (arc_value shared).ring.ring.limit ≡ record { most = TEXT_LIMIT } }
    requires fresh { IsFresh pass.known }
    requires other { IsPassOf (arc_value shared).ring.ring other }
{
    works(rt, alloc, &shared, pass)?;
    let mut spare = block(rt, alloc);
    has_the_last(rt, &shared.ring, &mut other, &mut spare);
    Ok(())
}

#[test]
fn a_worker_ends_at_its_stop(rt: HostRuntime) -> Result<(), Fail> {
    let (ring, pass, other) = queue(&rt, rt.alloc())?;
    let shared = shared_of(&rt, rt.alloc(), ring)?;
    ends(&rt, rt.alloc(), shared, pass, other)
}
