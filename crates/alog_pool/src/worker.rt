//! A worker.
ghost use Rattle.std.specs.Prelude.{◌≡◌, ◌↔◌, ◌≤◌, ◌∷◌, ◌++◌, [], IsTrue, None, true, false, take, length, vec_capacity};
ghost use Rattle.alog_core.specs.Queue.{last};
ghost use Rattle.alog_msg.specs.declared.item.Item.TheVariants.{Stop};
ghost use Rattle.alog_pattern.specs.declared.patterns.TheConstants.{LINE_MAX};
ghost use Rattle.alog_pool.specs.SinkSeat.{AreFlushed, AreServable, places_of};
ghost use Rattle.alog_pool.specs.Deeds.{Due, HaveMade, dues_by, dues_of};
ghost use Rattle.alog_pool.specs.Working.{Finds, GoesOn, HasTurned, HasWorked, IsAtWork, is_idle};
ghost use Rattle.alog_registry.specs.Limit.{HoldsTo};
ghost use Rattle.alog_registry.specs.Listed.{spec_at};
ghost use Rattle.alog_ring.specs.Known.{IsPassOf};
ghost use Rattle.alog_ring.specs.Made.{IsFaithful};
ghost use Rattle.alog_ring.specs.declared.pop.PopError.TheVariants.{Idle};

use crate::gaps::{Gaps, tell_gap};
use crate::gate::Gate;
use crate::item_wait::{ItemWait, RestPace};
use crate::shared::{QueuePass, Shared};
use crate::sink_seat::SinkSeat;
use alog_core::TICKET_END;
use alog_format::LineBuf;
use alog_msg::{Block, Item};
use alog_registry::{Loggers, SinkDeed};
use alog_ring::PopError;
use alog_sink::Store;
use std::sync::{Arc, Wait};
use std::time::Clock;

/// What a worker works with, and what it did.
#[derive(Drop)]
pub struct Worker<S: Store> {
    pub shared: Arc<Shared>,
    pub pass: QueuePass,
    /// It holds what the worker took last, and its next pop brings it.
    pub block: Block,
    pub sink_seats: Vec<SinkSeat<S>>,
    pub line: LineBuf,
    pub number: u32,
    /// How long it rests where the queue is idle.
    pub pace: RestPace,
    /// The tickets of its first texts and flushes, for which there is room.
    pub tickets: Vec<u64>,
    pub most: usize,
    /// Its texts and flushes, modulo 2^64.
    pub handled: u64,
    /// Where it tells gaps, what it tells them with.
    pub gaps: Option<Gaps>,
}

impl<S: Store> Worker<S> {
    /// Handles items until the first stop, or until no ticket is left. It waits where no item is there, so that it returns is not
    /// promised.
    pub fn work<R: Wait + Clock, G: Gate>(self, rt: &R, gate: &G) -> Worker<S>
        requires { IsAtWork self self }
        ensures { HasWorked self result }
    {
        let mut worker = self;
        for _ in rt.forever() {
            if !worker.goes_on(rt, gate) {
                return worker;
            }
        }
        unreachable!()
    }

    /// Handles the next item as soon as there is one, and answers whether the worker goes on: it does not after a stop, nor where no
    /// ticket is left, and then has flushed what it wrote.
    fn goes_on<R: Wait + Clock, G: Gate>(&mut self, rt: &R, gate: &G) -> bool
        requires { (start : Worker S) × IsAtWork start self.old }
        ensures { (start : Worker S) → IsAtWork start self.old → HasTurned start self.old → GoesOn start self.new result }
    {
        let Some(ticket) = take_waiting(
            rt,
            &self.shared,
            &mut self.pass,
            &mut self.pace,
            &mut self.block,
            &mut self.sink_seats,
            &mut self.line,
        ) else {
            return false;
        };
        if is_stop(self.block.item()) {
            flush_all(rt, &mut self.sink_seats, &mut self.line);
            return false;
        }
        self.handled = self.handled.wrapping_add(1);
        note(&mut self.tickets, self.most, ticket);
        let Worker {
            shared,
            sink_seats,
            line,
            block,
            gaps,
            ..
        } = self;
        let item = block.item();
        tell_gap(rt, &shared.loggers, sink_seats, line, gaps, ticket, item);
        handle(
            rt,
            gate,
            self.number,
            &shared.loggers,
            sink_seats,
            line,
            ticket,
            item,
        );
        true
    }
}

/// Notes the ticket, if fewer than so many are noted.
fn note(tickets: &mut Vec<u64>, most: usize, ticket: u64)
    requires room { most ≤ vec_capacity tickets.old }
    requires few { length tickets.old.items ≤ most }
    ensures noted { tickets.new.items ≡ take most (tickets.old.items ++ ticket ∷ []) }
    ensures room { vec_capacity tickets.new ≡ vec_capacity tickets.old }
{
    if tickets.len() < most {
        tickets.push_reserved(ticket);
    }
}

/// Makes the turns of an item, and calls the gate before and after those of a text.
fn handle<S: Store, R: Wait, G: Gate>(
    rt: &R,
    gate: &G,
    number: u32,
    loggers: &Loggers,
    sink_seats: &mut Vec<SinkSeat<S>>,
    line: &mut LineBuf,
    ticket: u64,
    item: &Item,
)
    requires servable { AreServable item.now (places_of sink_seats.old.items) }
    requires line { line.old.capacity ≡ LINE_MAX }
    ensures turns { HaveMade 0 sink_seats.old.items sink_seats.new.items (dues_of loggers.now ticket item.now) }
    ensures places { places_of sink_seats.new.items ≡ places_of sink_seats.old.items }
    ensures line { line.new.capacity ≡ LINE_MAX }
{
    match item {
        Item::Text(message) => {
            gate.before(number, ticket);
            make_turns(rt, loggers, message.logger, sink_seats, line, ticket, item);
            gate.after(number, ticket);
        }
        Item::Flush(logger) => make_turns(rt, loggers, *logger, sink_seats, line, ticket, item),
        Item::Stop => {}
    }
}

/// Makes the turns of an item of this logger, one after another.
pub(crate) fn make_turns<S: Store>(
    rt: &impl Wait,
    loggers: &Loggers,
    logger: u32,
    sink_seats: &mut Vec<SinkSeat<S>>,
    line: &mut LineBuf,
    ticket: u64,
    item: &Item,
)
    requires servable { AreServable item.now (places_of sink_seats.old.items) }
    requires line { line.old.capacity ≡ LINE_MAX }
    ensures turns { HaveMade 0 sink_seats.old.items sink_seats.new.items (dues_by (spec_at loggers.now logger) logger ticket item.now) }
    ensures places { places_of sink_seats.new.items ≡ places_of sink_seats.old.items }
    ensures line { line.new.capacity ≡ LINE_MAX }
{
    let Some(spec) = loggers.spec(logger) else {
        return;
    };
    for place in 0..usize::MAX {
        let Some(turn) = spec.turn_of_work(ticket, item, place) else {
            return;
        };
        let flush = Item::Flush(logger);
        let given = match turn.deed {
            SinkDeed::Take => item,
            SinkDeed::Flush => &flush,
        };
        serve_at(rt, sink_seats, turn.sink as usize, turn.tag, given, line);
    }
}

/// Makes a turn at the place of this number, if there is one.
fn serve_at<S: Store>(
    rt: &impl Wait,
    sink_seats: &mut Vec<SinkSeat<S>>,
    number: usize,
    tag: u64,
    item: &Item,
    line: &mut LineBuf,
)
    requires servable { AreServable item.now (places_of sink_seats.old.items) }
    requires line { line.old.capacity ≡ LINE_MAX }
    ensures turn { let due : Due = record { sink = number; tag = tag; item = item.now } in
        HaveMade 0 sink_seats.old.items sink_seats.new.items (due ∷ []) }
    ensures places { places_of sink_seats.new.items ≡ places_of sink_seats.old.items }
    ensures line { line.new.capacity ≡ LINE_MAX }
{
    if number < sink_seats.len() {
        sink_seats[number].serve(rt, tag, item, line);
    }
}

/// Takes the next item as soon as there is one, and answers its ticket: it lies in the block then, and what lay there in the item's
/// place. Or none, where no ticket is left and none will come. Where the queue is idle, the sinks are flushed before it waits.
fn take_waiting<S: Store, R: Wait + Clock>(
    rt: &R,
    shared: &Shared,
    pass: &mut QueuePass,
    pace: &mut RestPace,
    block: &mut Block,
    sink_seats: &mut Vec<SinkSeat<S>>,
    line: &mut LineBuf,
) -> Option<u64>
    requires ring { IsPassOf shared.now.ring.ring pass.old }
    requires faithful { IsFaithful pass.old.known }
    requires block { HoldsTo shared.now.ring.ring.limit block.old }
    requires line { line.old.capacity ≡ LINE_MAX }
    ensures ring { IsPassOf shared.now.ring.ring pass.new }
    ensures block { HoldsTo shared.now.ring.ring.limit block.new }
    ensures finds { Finds shared.now.ring.ring.limit.most pass.old.known pass.new.known result block.new.item }
    ensures turns { HaveMade 0 sink_seats.old.items sink_seats.new.items [] }
    ensures flushed { result ≡ None → AreFlushed sink_seats.new.items }
    ensures places { places_of sink_seats.new.items ≡ places_of sink_seats.old.items }
    ensures line { line.new.capacity ≡ LINE_MAX }
{
    let mut pause = ItemWait::new();
    for _ in rt.forever() {
        match shared.ring.pop_swap_into(pass, block) {
            Ok(ticket) => {
                pace.count();
                return Some(ticket);
            }
            Err(error) => {
                flush_if_idle(rt, error, sink_seats, line);
                if is_end(error) {
                    return None;
                }
                pause.after(rt, pace, error);
            }
        }
    }
    unreachable!()
}

/// After a pop that found the queue idle, flushes each sink to which the place wrote a line, or may have, since it flushed last.
fn flush_if_idle<S: Store>(
    rt: &impl Wait,
    error: PopError,
    sink_seats: &mut Vec<SinkSeat<S>>,
    line: &mut LineBuf,
)
    requires line { line.old.capacity ≡ LINE_MAX }
    ensures turns { HaveMade 0 sink_seats.old.items sink_seats.new.items [] }
    ensures idle { is_idle error ≡ true → AreFlushed sink_seats.new.items }
    ensures busy { is_idle error ≡ false → sink_seats.new.items ≡ sink_seats.old.items }
    ensures places { places_of sink_seats.new.items ≡ places_of sink_seats.old.items }
    ensures line { line.new.capacity ≡ LINE_MAX }
{
    if is_idle(error) {
        flush_all(rt, sink_seats, line);
    }
}

/// Flushes each sink to which the place wrote a line, or may have, since it flushed last.
fn flush_all<S: Store>(rt: &impl Wait, sink_seats: &mut Vec<SinkSeat<S>>, line: &mut LineBuf)
    requires line { line.old.capacity ≡ LINE_MAX }
    ensures turns { HaveMade 0 sink_seats.old.items sink_seats.new.items [] }
    ensures flushed { AreFlushed sink_seats.new.items }
    ensures once { AreFlushed sink_seats.old.items → sink_seats.new.items ≡ sink_seats.old.items }
    ensures places { places_of sink_seats.new.items ≡ places_of sink_seats.old.items }
    ensures line { line.new.capacity ≡ LINE_MAX }
{
    for number in 0..sink_seats.len() {
        sink_seats[number].flush_written(rt, line);
    }
}

/// Whether a pop found that nothing is there and nothing on its way.
fn is_idle(error: PopError) -> bool
    ensures { result ≡ is_idle error }
{
    match error {
        PopError::Idle { next: _ } => true,
        PopError::Empty { next: _ } | PopError::Busy { seen: _ } => false,
    }
}

/// Whether a pop found that no ticket is left and none will come: the queue is idle at 2^62. Where it is idle or empty at a
/// smaller ticket, one may still come.
fn is_end(error: PopError) -> bool
    ensures { IsTrue result ↔ (error ≡ Idle last) }
{
    match error {
        PopError::Idle { next } => next == TICKET_END,
        PopError::Empty { next: _ } | PopError::Busy { seen: _ } => false,
    }
}

/// Whether the item makes its worker end.
pub(crate) fn is_stop(item: &Item) -> bool
    ensures { IsTrue result ↔ (item.now ≡ Stop) }
{
    matches!(item, Item::Stop)
}
