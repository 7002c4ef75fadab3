//! What a worker tells of the items that others took.
ghost use Rattle.std.specs.Prelude.{◌≡◌, ◌≤◌, ◌-◌, ℕ, Some, IfOk, length};
ghost use Rattle.alog_msg.specs.declared.limits.TheConstants.{TEXT_LIMIT_MIN};
ghost use Rattle.alog_pattern.specs.declared.patterns.TheConstants.{LINE_MAX};
ghost use Rattle.alog_pool.specs.Deeds.{HaveMade, all_dues};
ghost use Rattle.alog_pool.specs.Gaps.{CanTell, gap_at, gap_item, gap_of, gap_text, next_after, next_of};
ghost use Rattle.alog_pool.specs.SinkSeat.{places_of};
ghost use Rattle.alog_pool.specs.Working.{AreLimited};
ghost use Rattle.alog_registry.specs.Limit.{KeepsTo};

use crate::sink_seat::SinkSeat;
use crate::worker::make_turns;
use alog_format::LineBuf;
use alog_msg::{Block, Item, Level, Message, TEXT_LIMIT_MIN};
use alog_registry::Loggers;
use alog_sink::Store;
use arrayvec::ArrayString;
use itoa::Buffer;
use std::alloc::{AllocError, Global};
use std::sync::Wait;

/// What a worker that tells gaps counts by, and what it writes its texts into.
#[derive(Drop)]
pub struct Gaps {
    /// The ticket of the next item, if none is missing.
    pub next: u64,
    /// Its text limit is the smallest one.
    pub block: Block,
}

impl Gaps {
    /// Counts an item that was taken under this ticket. Where items are missing in front of a text, makes the turns of one that says how
    /// many.
    fn tell<S: Store>(
        &mut self,
        rt: &impl Wait,
        loggers: &Loggers,
        sink_seats: &mut Vec<SinkSeat<S>>,
        line: &mut LineBuf,
        ticket: u64,
        item: &Item,
    )
        requires block { self.old.block.limit ≡ TEXT_LIMIT_MIN }
        requires places { (limit : ℕ) × (TEXT_LIMIT_MIN ≤ limit) × AreLimited limit (places_of sink_seats.old.items) }
        requires line { line.old.capacity ≡ LINE_MAX }
        ensures turns { HaveMade 0 sink_seats.old.items sink_seats.new.items (all_dues loggers.now (gap_at (Some self.old.next) ticket item.now)) }
        ensures next { Some self.new.next ≡ next_after (Some self.old.next) ticket item.now }
        ensures block { self.new.block.limit ≡ TEXT_LIMIT_MIN }
        ensures places { places_of sink_seats.new.items ≡ places_of sink_seats.old.items }
        ensures line { line.new.capacity ≡ LINE_MAX }
    {
        match item {
            Item::Text(message) => {
                self.say(rt, loggers, sink_seats, line, ticket, message);
                self.next = ticket.saturating_add(1);
            }
            Item::Flush(_) => self.next = self.next.saturating_add(1),
            Item::Stop => {}
        }
    }

    /// Where items are missing in front of this message, which was taken under this ticket, makes the turns of a text that says how many.
    fn say<S: Store>(
        &mut self,
        rt: &impl Wait,
        loggers: &Loggers,
        sink_seats: &mut Vec<SinkSeat<S>>,
        line: &mut LineBuf,
        ticket: u64,
        message: &Message,
    )
        requires block { self.old.block.limit ≡ TEXT_LIMIT_MIN }
        requires places { (limit : ℕ) × (TEXT_LIMIT_MIN ≤ limit) × AreLimited limit (places_of sink_seats.old.items) }
        requires line { line.old.capacity ≡ LINE_MAX }
        ensures turns { HaveMade 0 sink_seats.old.items sink_seats.new.items
            (all_dues loggers.now (gap_of (ticket - self.old.next) ticket message.now)) }
        ensures next { self.new.next ≡ self.old.next }
        ensures block { self.new.block.limit ≡ TEXT_LIMIT_MIN }
        ensures places { places_of sink_seats.new.items ≡ places_of sink_seats.old.items }
        ensures line { line.new.capacity ≡ LINE_MAX }
    {
        let missing = ticket.saturating_sub(self.next);
        if missing == 0 {
            return;
        }
        self.write(missing, message);
        let text = self.block.item();
        make_turns(rt, loggers, message.logger, sink_seats, line, ticket, text);
    }

    /// Writes the text that says that so many are missing in front of this message.
    fn write(&mut self, missing: u64, message: &Message)
        requires { self.old.block.limit ≡ TEXT_LIMIT_MIN }
        ensures written { self.new.block ≡ record { limit = TEXT_LIMIT_MIN; item = gap_item missing message.now } }
        ensures fits { KeepsTo TEXT_LIMIT_MIN (gap_item missing message.now) }
        ensures next { self.new.next ≡ self.old.next }
    {
        let text = gap_text(missing);
        self.block.write_within(
            message.logger,
            Level::Warning,
            message.time,
            message.thread,
            text.as_str(),
            None,
        );
    }
}

/// The text that says that so many lines are missing: `17 lines are missing here`. It takes no memory, and is no longer than any
/// pool's text limit allows.
pub fn gap_text(missing: u64) -> ArrayString<TEXT_LIMIT_MIN>
    ensures text { result.bytes ≡ gap_text missing }
    ensures fits { length (gap_text missing) ≤ TEXT_LIMIT_MIN }
{
    let mut text = ArrayString::<TEXT_LIMIT_MIN>::new();
    text.push_str(Buffer::new().format(missing));
    text.push_str(" lines are missing here");
    text
}

/// What a worker tells gaps with that counts from this ticket on; nothing, where it tells none.
pub(crate) fn gaps_from(alloc: Global, first: Option<u64>) -> Result<Option<Gaps>, AllocError>
    ensures next { IfOk result (λ g. next_of g ≡ first) }
    ensures block { IfOk result (λ g. (limit : ℕ) → TEXT_LIMIT_MIN ≤ limit → CanTell limit g) }
{
    let Some(next) = first else {
        return Ok(None);
    };
    let block = Block::new(alloc, TEXT_LIMIT_MIN)?;
    Ok(Some(Gaps { next, block }))
}

/// Tells what is missing in front of an item that was taken under this ticket, where gaps are told.
pub(crate) fn tell_gap<S: Store>(
    rt: &impl Wait,
    loggers: &Loggers,
    sink_seats: &mut Vec<SinkSeat<S>>,
    line: &mut LineBuf,
    gaps: &mut Option<Gaps>,
    ticket: u64,
    item: &Item,
)
    requires places { (limit : ℕ) × CanTell limit gaps.old × AreLimited limit (places_of sink_seats.old.items) }
    requires line { line.old.capacity ≡ LINE_MAX }
    ensures turns { HaveMade 0 sink_seats.old.items sink_seats.new.items (all_dues loggers.now (gap_at (next_of gaps.old) ticket item.now)) }
    ensures next { next_of gaps.new ≡ next_after (next_of gaps.old) ticket item.now }
    ensures block { (limit : ℕ) → CanTell limit gaps.old → CanTell limit gaps.new }
    ensures places { places_of sink_seats.new.items ≡ places_of sink_seats.old.items }
    ensures line { line.new.capacity ≡ LINE_MAX }
{
    match gaps {
        Some(gaps) => gaps.tell(rt, loggers, sink_seats, line, ticket, item),
        None => {}
    }
}
