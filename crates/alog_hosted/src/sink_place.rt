//! A place at a sink, whose lane is lent to each call.
ghost use Rattle.std.specs.Prelude.{◌≡◌, ◌≢◌, ◌+◌, ◌-◌, ◌^◌, ◌<◌, false, [], min, IfOk, OnOk, OnErr, IsErr};
ghost use Rattle.alog_lane.specs.Calls.{Closes};
ghost use Rattle.alog_lane.specs.Seats.{IsJoined};
ghost use Rattle.alog_lane.specs.declared.seat.TheConstants.{ALL_PARTS};
ghost use Rattle.alog_pattern.specs.declared.patterns.TheConstants.{LINE_MAX};
ghost use Rattle.alog_hosted.specs.Ends.{EndsPlace};
ghost use Rattle.alog_pool.specs.Deeds.{HasMade};
ghost use Rattle.alog_pool.specs.Places.{IsFirst, IsPart};
ghost use Rattle.alog_pool.specs.SinkSeat.{IsServable, Serves, is_unflushed, place_of};
ghost use Rattle.alog_sink.specs.Sinks.{Suits, Turns};

use alog_core::TICKET_END;
use alog_format::LineBuf;
use alog_lane::{Held, Lane, LaneSeat};
use alog_msg::Item;
use alog_pool::{fault_in, is_fan, is_unflushed};
use alog_sink::{Sink, Store};
use std::alloc::{AllocError, Global};
use std::marker::Model;
use std::mem;
use std::snapshot::Snapshot;

/// A seat at the lane of a sink, and how many of its turns were answered by a fault, at most 2^64 - 1. The lane itself is lent to each call.
#[derive(Drop)]
pub(crate) struct SinkPlace<S: Store> {
    /// Which lane it is.
    lane: Snapshot<Lane<Sink<S>>>,
    seat: LaneSeat<Sink<S>>,
    faults: u64,
    /// Whether the sink is a fan.
    fan: bool,
    /// Whether the seat wrote a line since it flushed last, or may have.
    unflushed: bool,
    /// The most bytes of a text.
    text_limit: usize,
}

impl<S: Store> Model for SinkPlace<S> {
    ghost use Rattle.std.specs.Prelude.{◌≡◌, false};
    ghost use Rattle.alog_lane.specs.Calls.{IsSeatOf};
    ghost use Rattle.alog_pattern.specs.declared.patterns.TheConstants.{LINE_MAX};
    ghost use Rattle.alog_pool.specs.SinkSeat.{SinkSeatView, is_fan, unflushed_after};
    ghost use Rattle.alog_sink.specs.Sinks.{Suits};

    ghost Value = { SinkSeatView S };

    ghost view = { λ b. record { lane = b.lane.value; seat = b.seat; faults = b.faults; limit = b.text_limit } };

    ghost invariant = { λ b. IsSeatOf b.lane.value b.seat × Suits b.text_limit LINE_MAX b.lane.value.first
        × (b.fan ≡ is_fan b.lane.value.first) × (b.unflushed ≡ unflushed_after (is_fan b.lane.value.first) false b.seat.known.own) };
}

impl<S: Store> SinkPlace<S> {
    /// Makes a turn on the sink at this item, if its lock is free. Where another seat has it, nothing happens; where all parts are here, none has.
    pub(crate) fn serve_once(
        &mut self,
        lane: &Lane<Sink<S>>,
        tag: u64,
        item: &Item,
        line: &mut LineBuf,
    ) -> Result<(), Held>
        requires lane { lane.now ≡ self.old.lane }
        requires item { IsServable self.old.limit item.now }
        requires line { line.old.capacity ≡ LINE_MAX }
        ensures serves { OnOk result (Serves S.tells S.files S.failures self.old tag item.now self.new) }
        ensures held { OnErr result (self.new ≡ self.old) }
        ensures parted { IsErr result → self.old.seat.known.parts ≢ ALL_PARTS }
        ensures line { line.new.capacity ≡ LINE_MAX }
    {
        match lane.turn_once(&mut self.seat, tag, item, line) {
            Ok((_, reply)) => {
                self.faults = self.faults.saturating_add(fault_in(&reply));
                self.unflushed = is_unflushed(self.fan, self.unflushed, item, &reply);
                Ok(())
            }
            Err(held) => Err(held),
        }
    }

    /// Flushes the sink, if the seat wrote a line since it flushed last, or may have, and its lock is free.
    pub(crate) fn flush_once(
        &mut self,
        lane: &Lane<Sink<S>>,
        line: &mut LineBuf,
    ) -> Result<(), Held>
        requires lane { lane.now ≡ self.old.lane }
        requires line { line.old.capacity ≡ LINE_MAX }
        ensures made { HasMade self.old self.new [] }
        ensures flushed { OnOk result (is_unflushed self.new ≡ false) }
        ensures held { OnErr result ((self.new ≡ self.old) × (is_unflushed self.old ≢ false)) }
        ensures once { is_unflushed self.old ≡ false → self.new ≡ self.old }
        ensures place { place_of self.new ≡ place_of self.old }
        ensures line { line.new.capacity ≡ LINE_MAX }
    {
        if !self.unflushed {
            return Ok(());
        }
        let flush = Item::Flush(0);
        self.serve_once(lane, TICKET_END, &flush, line)
    }

    /// How many faults were counted.
    pub(crate) fn faults(&self) -> u64
        ensures { result ≡ self.now.faults }
    {
        self.faults
    }

    /// How many faults were counted; from then on they are counted from none.
    pub(crate) fn take_faults(&mut self) -> u64
        ensures taken { result ≡ self.old.faults }
        ensures left { self.new.faults ≡ 0 }
        ensures same { (self.new.lane ≡ self.old.lane) × (self.new.limit ≡ self.old.limit) × (self.new.seat ≡ self.old.seat) }
    {
        mem::replace(&mut self.faults, 0)
    }
}

impl<S: Store + Drop> SinkPlace<S> {
    /// The lane of a sink, and the first place at it, which has all parts. Where there is no memory, the sink is dropped.
    pub(crate) fn first(
        alloc: Global,
        sink: Sink<S>,
        text_limit: usize,
    ) -> Result<(Lane<Sink<S>>, SinkPlace<S>), AllocError>
        requires { Suits text_limit LINE_MAX sink }
        ensures { IfOk result (λ r. IsFirst text_limit sink r.1 × (r.1.lane ≡ r.0)) }
    {
        let fan = is_fan(&sink);
        let Ok((lane, seat)) = Lane::new(alloc, sink) else {
            return Err(AllocError);
        };
        let place = SinkPlace {
            lane: Snapshot::of(&lane),
            seat,
            faults: 0,
            fan,
            unflushed: false,
            text_limit,
        };
        Ok((lane, place))
    }

    /// A place at the same sink for a worker, with one of this one's parts.
    pub(crate) fn split(&mut self, lane: &Lane<Sink<S>>) -> SinkPlace<S>
        requires lane { lane.now ≡ self.old.lane }
        requires spare { 1 < self.old.seat.known.parts }
        ensures { IsPart self.old self.new result }
    {
        let seat = lane.split(&mut self.seat, 1);
        SinkPlace {
            lane: Snapshot::of(lane),
            seat,
            faults: 0,
            fan: self.fan,
            unflushed: false,
            text_limit: self.text_limit,
        }
    }

    /// Takes a worker's seat of the same sink back, with its faults.
    pub(crate) fn take_back(&mut self, lane: &Lane<Sink<S>>, place: SinkPlace<S>)
        requires lane { lane.now ≡ self.old.lane }
        requires same { place.lane ≡ self.old.lane }
        ensures same { (self.new.lane ≡ self.old.lane) × (self.new.limit ≡ self.old.limit) }
        ensures joined { IsJoined self.old.seat.known place.seat.known self.new.seat.known }
        ensures faults { self.new.faults ≡ min (self.old.faults + place.faults) (2 ^ 64 - 1) }
    {
        let SinkPlace {
            lane: _,
            seat,
            faults,
            fan: _,
            unflushed: _,
            text_limit: _,
        } = place;
        lane.join(&mut self.seat, seat);
        self.faults = self.faults.saturating_add(faults);
    }

    /// Flushes the sink once more, when all seats have come back, and answers it with how many faults this place counted.
    pub(crate) fn end(self, lane: Lane<Sink<S>>, line: &mut LineBuf) -> (Sink<S>, u64)
        requires lane { lane ≡ self.lane }
        requires all { self.seat.known.parts ≡ ALL_PARTS }
        requires line { line.old.capacity ≡ LINE_MAX }
        ensures ends { EndsPlace S.tells S.files S.failures self result.0 result.1 }
        ensures line { line.new.capacity ≡ LINE_MAX }
    {
        let mut place = self;
        let flush = Item::Flush(0);
        let Ok(()) = place.serve_once(&lane, TICKET_END, &flush, line) else {
            unreachable!()
        };
        let faults = place.faults;
        (place.close(lane), faults)
    }

    /// The sink, when all seats have come back.
    fn close(self, lane: Lane<Sink<S>>) -> Sink<S>
        requires lane { lane ≡ self.lane }
        requires all { self.seat.known.parts ≡ ALL_PARTS }
        ensures { Closes (Turns S.tells S.files S.failures) self.lane.first self.seat.known result }
    {
        let SinkPlace {
            lane: _,
            seat,
            faults: _,
            fan: _,
            unflushed: _,
            text_limit: _,
        } = self;
        match lane.close(seat) {
            Ok(sink) => sink,
            Err(_) => unreachable!(),
        }
    }
}
