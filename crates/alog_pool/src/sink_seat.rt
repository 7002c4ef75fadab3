//! A worker's place at a sink.
ghost use Rattle.std.specs.Prelude.{◌≡◌, ◌+◌, ◌-◌, ◌^◌, ◌<◌, false, [], min, IfOk, OnErr};
ghost use Rattle.alog_lane.specs.Calls.{Closes};
ghost use Rattle.alog_lane.specs.Seats.{IsJoined};
ghost use Rattle.alog_lane.specs.declared.seat.TheConstants.{ALL_PARTS};
ghost use Rattle.alog_pattern.specs.declared.patterns.TheConstants.{LINE_MAX};
ghost use Rattle.alog_pool.specs.SinkSeat.{IsServable, Serves, fault_in, is_fan, is_unflushed, may_write, place_of, unflushed_by};
ghost use Rattle.alog_pool.specs.Deeds.{HasMade};
ghost use Rattle.alog_pool.specs.Places.{IsFirst, IsPart};
ghost use Rattle.alog_sink.specs.Sinks.{Suits, Turns};

use crate::alone::alone;
use alog_core::TICKET_END;
use alog_format::LineBuf;
use alog_lane::{Lane, LaneSeat};
use alog_msg::Item;
use alog_sink::{Served, Sink, SinkError, Store, Taken};
use std::alloc::{AllocError, Global};
use std::marker::Model;
use std::sync::{Arc, Wait};

/// A sink under its lock, a seat of that, and how many of the seat's turns were answered by a fault, at most 2^64 - 1.
#[derive(Drop)]
pub struct SinkSeat<S: Store> {
    pub(crate) lane: Arc<Lane<Sink<S>>>,
    pub(crate) seat: LaneSeat<Sink<S>>,
    pub(crate) faults: u64,
    /// Whether the sink is a fan.
    fan: bool,
    /// Whether the seat wrote a line since it flushed last, or may have.
    unflushed: bool,
    /// The most bytes of a text.
    pub(crate) text_limit: usize,
}

impl<S: Store> Model for SinkSeat<S> {
    ghost use Rattle.std.specs.Prelude.{◌≡◌, false};
    ghost use Rattle.std.specs.Arc.{arc_value};
    ghost use Rattle.alog_lane.specs.Calls.{IsSeatOf};
    ghost use Rattle.alog_pattern.specs.declared.patterns.TheConstants.{LINE_MAX};
    ghost use Rattle.alog_pool.specs.SinkSeat.{SinkSeatView, is_fan, unflushed_after};
    ghost use Rattle.alog_sink.specs.Sinks.{Suits};

    ghost Value = { SinkSeatView S };

    ghost view = { λ b. record { lane = arc_value b.lane; seat = b.seat; faults = b.faults; limit = b.text_limit } };

    ghost invariant = { λ b. IsSeatOf (arc_value b.lane) b.seat × Suits b.text_limit LINE_MAX (arc_value b.lane).first
        × (b.fan ≡ is_fan (arc_value b.lane).first) × (b.unflushed ≡ unflushed_after (is_fan (arc_value b.lane).first) false b.seat.known.own) };
}

impl<S: Store> SinkSeat<S> {
    /// Makes a turn on the sink at this item, as soon as the lock is got.
    pub fn serve(&mut self, rt: &impl Wait, tag: u64, item: &Item, line: &mut LineBuf)
        requires item { IsServable self.old.limit item.now }
        requires line { line.old.capacity ≡ LINE_MAX }
        ensures serves { Serves S.tells S.files S.failures self.old tag item.now self.new }
        ensures line { line.new.capacity ≡ LINE_MAX }
    {
        let (_, reply) = self.lane.turn(rt, &mut self.seat, tag, item, line);
        self.faults = self.faults.saturating_add(fault_in(&reply));
        self.unflushed = is_unflushed(self.fan, self.unflushed, item, &reply);
    }

    /// Flushes the sink, if the seat wrote a line since it flushed last, or may have.
    pub(crate) fn flush_written(&mut self, rt: &impl Wait, line: &mut LineBuf)
        requires line { line.old.capacity ≡ LINE_MAX }
        ensures made { HasMade self.old self.new [] }
        ensures flushed { is_unflushed self.new ≡ false }
        ensures once { is_unflushed self.old ≡ false → self.new ≡ self.old }
        ensures place { place_of self.new ≡ place_of self.old }
        ensures line { line.new.capacity ≡ LINE_MAX }
    {
        if self.unflushed {
            let flush = Item::Flush(0);
            self.serve(rt, TICKET_END, &flush, line);
        }
    }
}

/// One for a fault.
pub fn fault_in(reply: &Result<Served, SinkError>) -> u64
    ensures { result ≡ fault_in reply.now }
{
    match reply {
        Ok(_) => 0,
        Err(_) => 1,
    }
}

/// Whether a sink is a fan.
pub fn is_fan<S: Store>(sink: &Sink<S>) -> bool
    ensures { result ≡ is_fan sink.now }
{
    matches!(sink, Sink::Fan(_))
}

/// Whether a turn that was answered so wrote a line, or may have: a fan answers a fault of one of its members, and the others write.
fn may_write(fan: bool, reply: &Result<Served, SinkError>) -> bool
    ensures { result ≡ may_write fan reply.now }
{
    match reply {
        Ok(Served::Taken(Taken::Written)) => true,
        Ok(Served::Taken(Taken::Below) | Served::Flushed) => false,
        Err(_) => fan,
    }
}

/// Whether a line may be unflushed after a turn at this item that was answered so, on a sink that is a fan or is none.
pub fn is_unflushed(fan: bool, before: bool, item: &Item, reply: &Result<Served, SinkError>) -> bool
    ensures { result ≡ unflushed_by fan before item.now reply.now }
{
    match item {
        Item::Text(_) => before || may_write(fan, reply),
        Item::Flush(_) | Item::Stop => false,
    }
}

impl<S: Store + Drop> SinkSeat<S> {
    /// The first place at this sink, which has all parts. Where there is no memory, the sink is dropped.
    pub(crate) fn first(
        alloc: Global,
        sink: Sink<S>,
        text_limit: usize,
    ) -> Result<SinkSeat<S>, AllocError>
        requires { Suits text_limit LINE_MAX sink }
        ensures { IfOk result (λ b. IsFirst text_limit sink b) }
    {
        let fan = is_fan(&sink);
        let Ok((lane, seat)) = Lane::new(alloc, sink) else {
            return Err(AllocError);
        };
        match Arc::new(alloc, lane) {
            Ok(lane) => Ok(SinkSeat {
                lane,
                seat,
                faults: 0,
                fan,
                unflushed: false,
                text_limit,
            }),
            Err(_) => Err(AllocError),
        }
    }

    /// A place at the same sink for a worker, with one of this one's parts.
    pub(crate) fn split(&mut self) -> Result<SinkSeat<S>, AllocError>
        requires spare { 1 < self.old.seat.known.parts }
        ensures given { IfOk result (λ b. IsPart self.old self.new b) }
        ensures err { OnErr result (self.new ≡ self.old) }
    {
        let lane = Arc::try_clone(&self.lane)?;
        let seat = self.lane.split(&mut self.seat, 1);
        Ok(SinkSeat {
            lane,
            seat,
            faults: 0,
            fan: self.fan,
            unflushed: false,
            text_limit: self.text_limit,
        })
    }

    /// Takes a worker's seat of the same sink back, with its faults.
    pub fn take_back(&mut self, place: SinkSeat<S>)
        requires { place.lane ≡ self.old.lane }
        ensures same { (self.new.lane ≡ self.old.lane) × (self.new.limit ≡ self.old.limit) }
        ensures joined { IsJoined self.old.seat.known place.seat.known self.new.seat.known }
        ensures faults { self.new.faults ≡ min (self.old.faults + place.faults) (2 ^ 64 - 1) }
    {
        let SinkSeat {
            lane: _,
            seat,
            faults,
            fan: _,
            unflushed: _,
            text_limit: _,
        } = place;
        self.lane.join(&mut self.seat, seat);
        self.faults = self.faults.saturating_add(faults);
    }

    /// The sink, when all seats have come back.
    pub(crate) fn close(self, rt: &impl Wait) -> Sink<S>
        requires all { self.seat.known.parts ≡ ALL_PARTS }
        ensures { Closes (Turns S.tells S.files S.failures) self.lane.first self.seat.known result }
    {
        let SinkSeat {
            lane,
            seat,
            faults: _,
            fan: _,
            unflushed: _,
            text_limit: _,
        } = self;
        let lane = alone(rt, lane);
        match lane.close(seat) {
            Ok(sink) => sink,
            Err(_) => unreachable!(),
        }
    }
}
