//! Logs, flushes and dumps on a running ring of blocks.
ghost use Rattle.std.specs.Prelude.{◌≡◌, ◌≤◌, ◌<◌, IfOk, length};
ghost use Rattle.std.specs.List.{AllByRecursion};
ghost use Rattle.alog_registry.specs.Limit.{AdmitsShort, HoldsTo};
ghost use Rattle.alog_ring.specs.Known.{IsPassOf, first_known};
ghost use Rattle.test_loggers.specs.declared.trial.TheConstants.{TEXT_LIMIT};

use crate::port_tests::new_book;
use crate::trial::{
    TEXT_LIMIT, discarded, dump_twice, is_outcome, keep_three, log_to_a_full, one, overran, posted,
};
use alog_msg::{Block, Item};
use alog_policy::{Outcome, Pace, Policy};
use alog_registry::{Backtrace, BlockPort, Contents, ItemOutlet, Loggers, TextLimit};
use alog_ring::{NewError, SwapNewError, SwapPass, SwapRing};
use std::alloc::{AllocError, Global};
use std::process::Abort;
use std::test::Fail;

type Blocks = SwapRing<Block, Item, Contents, TextLimit>;

// So many blocks for texts of 64 bytes.
fn blocks(alloc: Global, count: usize) -> Result<Vec<Block>, AllocError>
    ensures { IfOk result (λ v. AllByRecursion (HoldsTo (record { most = TEXT_LIMIT })) v.items) }
{
    let mut blocks = Vec::new(alloc);
    for _ in 0..count {
        blocks.push(Block::new(alloc, TEXT_LIMIT)?)?;
    }
    Ok(blocks)
}

// A block for texts of 64 bytes. The test ends here where there is no memory.
fn block_of(rt: &impl Abort, alloc: Global) -> Block
    ensures { HoldsTo (record { most = TEXT_LIMIT }) result }
{
    match Block::new(alloc, TEXT_LIMIT) {
        Ok(block) => block,
        Err(_) => panic!(rt; "out of memory"),
    }
}

// A ring of so many blocks, and its first pass.
fn ring_of(rt: &impl Abort, alloc: Global, places: usize) -> (Blocks, SwapPass<Block, Item>)
    ensures ring { IsPassOf result.0.ring result.1 }
    ensures first { result.1.known ≡ first_known places 0 }
    ensures limit { result.0.ring.limit ≡ record { most = TEXT_LIMIT } }
{
    let Ok(blocks) = blocks(alloc, places) else {
        panic!(rt; "out of memory")
    };
    let limit = TextLimit { most: TEXT_LIMIT };
    match SwapRing::limited(alloc, places, 0, blocks, limit) {
        Ok(made) => made,
        Err(
            SwapNewError {
                why: NewError::OutOfMemory,
                ..
            },
        ) => panic!(rt; "out of memory"),
        Err(_) => panic!(rt; "no ring of {places} places"),
    }
}

// The next item of the ring is this text: it lies in the spare then.
fn takes(
    rt: &impl Abort,
    ring: &Blocks,
    pass: &mut SwapPass<Block, Item>,
    spare: &mut Block,
    text: &str,
)
    requires ring { IsPassOf ring.now.ring pass.old }
    requires spare { HoldsTo ring.now.ring.limit spare.old }
    ensures ring { IsPassOf ring.now.ring pass.new }
    ensures spare { HoldsTo ring.now.ring.limit spare.new }
{
    let is_taken = ring.pop_swap_into(pass, spare).is_ok();
    let is = match spare.item() {
        Item::Text(message) => message.text.as_str() == text,
        Item::Flush(_) | Item::Stop => text == "",
    };
    assert!(rt; is_taken && is, "{text}");
}

// What a dump of the last two posted is taken, and then a flush.
fn take_dumped(rt: &impl Abort, alloc: Global, ring: &Blocks, pass: &mut SwapPass<Block, Item>)
    requires ring { IsPassOf ring.now.ring pass.old }
    requires limit { ring.now.ring.limit ≡ record { most = TEXT_LIMIT } }
{
    let mut spare = block_of(rt, alloc);
    takes(rt, ring, pass, &mut spare, "=== backtrace start ===");
    takes(rt, ring, pass, &mut spare, "m2");
    takes(rt, ring, pass, &mut spare, "m3");
    takes(rt, ring, pass, &mut spare, "=== backtrace end ===");
    takes(rt, ring, pass, &mut spare, "");
    assert!(rt; matches!(spare.item(), Item::Flush(0)));
}

// Three messages are kept, the last two are dumped, and then a flush is posted.
fn keep_dump_and_flush<O: ItemOutlet>(
    rt: &impl Abort,
    loggers: &Loggers,
    alloc: Global,
    outlet: &mut O,
    backtrace: &mut Backtrace,
)
    requires known { 0 < length loggers.now }
    requires outlet { O.is_ready outlet.old × AdmitsShort O.admits TEXT_LIMIT outlet.old }
    requires backtrace { TEXT_LIMIT ≤ backtrace.old.limit }
{
    keep_three(rt, loggers, alloc, outlet, backtrace);
    assert!(rt; backtrace.text_limit() == TEXT_LIMIT);
    dump_twice(rt, loggers, alloc, outlet, backtrace);
    let flushed = loggers.flush(outlet, 0);
    is_outcome(rt, &flushed, &posted(4));
}

// A block is in the hand, and a spare is there.
fn are_there(rt: &impl Abort, hand: &Option<Block>, spare: &Option<Block>) {
    assert!(rt; hand.is_some() && spare.is_some());
}

// The same on a ring of blocks: a block is in the hand afterwards, and a spare is there.
fn keep_on_blocks(
    rt: &impl Abort,
    loggers: &Loggers,
    alloc: Global,
    ring: &Blocks,
    pass: &mut SwapPass<Block, Item>,
    backtrace: &mut Backtrace,
)
    requires known { 0 < length loggers.now }
    requires ring { IsPassOf ring.now.ring pass.old }
    requires limit { ring.now.ring.limit ≡ record { most = TEXT_LIMIT } }
    requires backtrace { TEXT_LIMIT ≤ backtrace.old.limit }
{
    let (book, mut losses) = new_book(rt, alloc);
    let mut hand = Some(block_of(rt, alloc));
    let mut spare = Some(block_of(rt, alloc));
    let mut pace = Pace::new(ring.places());
    let mut port = BlockPort {
        ring,
        pass,
        book: &book,
        seat: &mut losses,
        hand: &mut hand,
        spare: &mut spare,
        pace: &mut pace,
    };
    keep_dump_and_flush(rt, loggers, alloc, &mut port, backtrace);
    are_there(rt, &hand, &spare);
}

#[test]
fn logs_on_blocks(rt: HostRuntime) -> Result<(), Fail> {
    let alloc = rt.alloc();
    let mut backtrace = Backtrace::limited(alloc, 2, TEXT_LIMIT)?;
    let loggers = one(&rt, alloc, Policy::Block, 2);
    let (ring, mut pass) = ring_of(&rt, alloc, 8);
    let mut other = ring.split(&mut pass, 1);
    keep_on_blocks(&rt, &loggers, alloc, &ring, &mut pass, &mut backtrace);
    take_dumped(&rt, alloc, &ring, &mut other);
    Ok(())
}

// How a log goes under this policy where the ring is full: a block is in the hand afterwards, and a spare is there.
fn when_full(rt: &impl Abort, alloc: Global, policy: Policy, outcome: Outcome<()>) {
    let loggers = one(rt, alloc, policy, 4);
    let (ring, mut pass) = ring_of(rt, alloc, 2);
    log_to_full_blocks(rt, &loggers, alloc, &ring, &mut pass, outcome);
}

// The same on this ring of two places.
fn log_to_full_blocks(
    rt: &impl Abort,
    loggers: &Loggers,
    alloc: Global,
    ring: &Blocks,
    pass: &mut SwapPass<Block, Item>,
    outcome: Outcome<()>,
)
    requires known { 0 < length loggers.now }
    requires ring { IsPassOf ring.now.ring pass.old }
    requires limit { ring.now.ring.limit ≡ record { most = TEXT_LIMIT } }
{
    let (book, mut losses) = new_book(rt, alloc);
    let mut hand = Some(block_of(rt, alloc));
    let mut spare = Some(block_of(rt, alloc));
    let mut pace = Pace::new(ring.places());
    let mut port = BlockPort {
        ring,
        pass,
        book: &book,
        seat: &mut losses,
        hand: &mut hand,
        spare: &mut spare,
        pace: &mut pace,
    };
    log_to_a_full(rt, loggers, alloc, &mut port, outcome);
    are_there(rt, &hand, &spare);
}

#[test]
fn policies_of_a_full_ring_of_blocks(rt: HostRuntime) {
    when_full(&rt, rt.alloc(), Policy::DiscardNew, discarded());
    when_full(&rt, rt.alloc(), Policy::Block, discarded());
    when_full(&rt, rt.alloc(), Policy::OverrunOldest, overran());
}
