//! The end of a hosted pool.
ghost use Rattle.std.specs.Prelude.{◌≡◌, ◌≢◌, ◌⊎◌, ◌↔◌, ◌<◌, ◌≤◌, ◌+◌, ◌%◌, ◌^◌, ◌++◌, ℕ, [], drop, length, map, vec_capacity, IfOk, IfErr, IsErr};
ghost use Rattle.std.specs.List.{AllByRecursion};
ghost use Rattle.alog_core.specs.Accounts.{weigh};
ghost use Rattle.alog_hosted.specs.Closing.{AreAtLimit, Collects, EndAll, GivesFaults, LeavesInQueue, halves_of, items_of, owed_in};
ghost use Rattle.alog_hosted.specs.Ends.{Disbands};
ghost use Rattle.alog_hosted.specs.Lent.{IsProducerOf};
ghost use Rattle.alog_hosted.specs.Owed.{AreAlone};
ghost use Rattle.alog_hosted.specs.Workers.{IsWorkerOf};
ghost use Rattle.alog_lane.specs.declared.seat.TheConstants.{ALL_PARTS as ALL_SEATS};
ghost use Rattle.alog_pattern.specs.declared.patterns.TheConstants.{LINE_MAX};
ghost use Rattle.alog_policy.specs.BookCalls as book;
ghost use Rattle.alog_pool.specs.Accounts.{of_work};
ghost use Rattle.alog_pool.specs.Back.{AreAccounts, HasBack, HasSeatsBack, loss_member, pass_member};
ghost use Rattle.alog_pool.specs.Collected.{TakesBack};
ghost use Rattle.alog_pool.specs.Deeds.{HaveMade, all_dues, dues_of};
ghost use Rattle.alog_pool.specs.Places.{Each2, Each3, IsSameLane};
ghost use Rattle.alog_pool.specs.Pool.{IsUnused, lanes_of};
ghost use Rattle.alog_pool.specs.SinkSeat.{places_of};
ghost use Rattle.alog_pool.specs.Working.{AreLimited};
ghost use Rattle.alog_registry.specs.Limit.{HoldsTo, KeepsTo};
ghost use Rattle.alog_ring.specs.Known.{IsPassOf};
ghost use Rattle.alog_ring.specs.Made.{IsFaithful};
ghost use Rattle.alog_ring.specs.declared.TheConstants.{ALL_PARTS};

use crate::blank::{Blank, Half};
use crate::error::PartsOut;
use crate::host::Host;
use crate::hosted::Hosted;
use crate::owed::Owed;
use crate::producer::HostedProducer;
use crate::sink_place::SinkPlace;
use crate::turns::make_turns;
use crate::worker::{HostedWorker, is_stop};
use alog_format::LineBuf;
use alog_lane::Lane;
use alog_msg::{Block, Item};
use alog_policy::{BookSeat, Counts, LossBook};
use alog_pool::{Queue, QueuePass, Report, Shared, Totals};
use alog_registry::Loggers;
use alog_sink::{Sink, Store};

impl<S: Store + Drop> Host<S> {
    /// Ends the pool, when its producers and workers have come back: it makes the turns that workers owe, hands out what is left in the queue by
    /// itself, flushes each sink once more, and answers what became of all messages. It takes no memory of its own and waits for no other thread:
    /// with all parts here no lock can be held. Where the workers ended all that was posted, it writes no line.
    ///
    /// The report has the tickets of each worker in the order in which the workers are handed in; it has none of what was left, which counts as
    /// handled.
    ///
    /// Where not just as many producers and as many workers come back as were made, nothing is done, and all comes back. More can not come back: each
    /// brings a part of the queue, and there are no more parts than all.
    pub fn disband(
        self,
        hosted: Hosted<S>,
        producers: Vec<HostedProducer>,
        workers: Vec<HostedWorker<S>>,
    ) -> Result<Report<S>, PartsOut<S>>
        requires hosted { hosted ≡ self.hosted }
        requires producers { AllByRecursion (IsProducerOf hosted) producers.items }
        requires workers { AllByRecursion (IsWorkerOf hosted) workers.items }
        ensures out { IsErr result ↔ ((length producers.items ≢ self.made) ⊎ (length workers.items ≢ self.hired)) }
        ensures back { IfErr result (λ e. (e.host ≡ self) × (e.hosted ≡ hosted) × (e.producers ≡ producers) × (e.workers ≡ workers)) }
        ensures ends { IfOk result (λ r. Disbands S.tells S.files S.failures self producers.items workers.items r) }
    {
        if producers.len() as u64 != self.made || workers.len() != self.hired {
            return Err(PartsOut {
                host: self,
                hosted,
                producers,
                workers,
            });
        }
        Ok(self.end(hosted, producers, workers))
    }

    /// Ends the pool, whose producers and workers have all come back.
    fn end(
        self,
        hosted: Hosted<S>,
        producers: Vec<HostedProducer>,
        workers: Vec<HostedWorker<S>>,
    ) -> Report<S>
        requires hosted { hosted ≡ self.hosted }
        requires producers { AllByRecursion (IsProducerOf hosted) producers.items }
        requires workers { AllByRecursion (IsWorkerOf hosted) workers.items }
        requires all { (length producers.items ≡ self.made) × (length workers.items ≡ self.hired) }
        ensures { Disbands S.tells S.files S.failures self producers.items workers.items result }
    {
        let Host {
            alloc: _,
            hosted: _,
            mut pass,
            mut losses,
            mut places,
            backtraces: _,
            mut line,
            made: _,
            hired: _,
            workers: _,
            text_limit: _,
            tickets_max: _,
            blank,
        } = self;
        let Blank {
            mut tickets,
            mut halves,
            mut faults,
            mut sinks,
        } = blank;
        let Hosted { shared, lanes, .. } = hosted;
        gather(&shared, &mut pass, &mut losses, producers);
        let taken = collect(
            &shared,
            &lanes,
            &mut pass,
            &mut places,
            workers,
            &mut tickets,
            &mut halves,
        );
        take_faults(&mut places, &mut faults);
        let Shared {
            ring,
            book,
            loggers,
            ..
        } = shared;
        finish_all(&loggers, &lanes, &mut places, &mut line, halves);
        let left = left_of(ring, pass);
        let handled = hand_out(&loggers, &lanes, &mut places, &mut line, left, taken);
        let lost = lost_in(book, losses);
        end_places(lanes, places, &mut line, &mut faults, &mut sinks);
        Report {
            totals: Totals::of(lost, handled),
            tickets,
            faults,
            sinks,
        }
    }
}

/// Takes each producer's pass and seat back.
fn gather(
    shared: &Shared,
    pass: &mut QueuePass,
    losses: &mut BookSeat,
    producers: Vec<HostedProducer>,
)
    requires ring { IsPassOf shared.now.ring.ring pass.old }
    requires book { book.IsSeatOf shared.now.book losses.old }
    requires faithful { IsFaithful pass.old.known }
    requires own { AllByRecursion (λ p. p.shared ≡ shared.now) producers.items }
    ensures ring { IsPassOf shared.now.ring.ring pass.new }
    ensures book { book.IsSeatOf shared.now.book losses.new }
    ensures passes { HasBack pass.old.known pass.new.known (map pass_member producers.items) }
    ensures seats { HasSeatsBack losses.old.known losses.new.known (map loss_member producers.items) }
    ensures accounts { AreAccounts producers.items }
{
    let mut rest = producers.into_iter();
    while let Some(producer) = rest.next() {
        let HostedProducer {
            shared: _,
            pass: own,
            hand: _,
            spare: _,
            pace: _,
            losses: seat,
            backtraces: _,
            number: _,
            text_limit: _,
        } = producer;
        shared.ring.join(pass, own);
        shared.book.join(losses, seat);
    }
    rest.destroy_empty();
}

/// Takes each worker's pass and places back, in their order, lists its tickets, and keeps the item that it brings back half done. Answers how
/// many texts and flushes all took, modulo 2^64.
fn collect<S: Store + Drop>(
    shared: &Shared,
    lanes: &[Lane<Sink<S>>],
    pass: &mut QueuePass,
    places: &mut Vec<SinkPlace<S>>,
    workers: Vec<HostedWorker<S>>,
    tickets: &mut Vec<Vec<u64>>,
    halves: &mut Vec<Half>,
) -> u64
    requires ring { IsPassOf shared.now.ring.ring pass.old }
    requires faithful { IsFaithful pass.old.known }
    requires lanes { lanes_of places.old.items ≡ lanes.now }
    requires unused { AllByRecursion IsUnused places.old.items }
    requires own { AllByRecursion (λ w. (w.shared ≡ shared.now) × (lanes_of w.places ≡ lanes.now)) workers.items }
    requires tickets { (tickets.old.items ≡ []) × (length workers.items ≤ vec_capacity tickets.old) }
    requires halves { (halves.old.items ≡ []) × (length workers.items ≤ vec_capacity halves.old) }
    ensures ring { IsPassOf shared.now.ring.ring pass.new }
    ensures collects { Collects shared.now workers.items pass.old.known pass.new.known places.old.items places.new.items
        tickets.new.items halves.new.items result }
    ensures limits { map (λ b. b.limit) places.new.items ≡ map (λ b. b.limit) places.old.items }
{
    let mut all = 0_u64;
    let mut rest = workers.into_iter();
    while let Some(worker) = rest.next() {
        let HostedWorker {
            shared: _,
            pass: own,
            block,
            places: given,
            line: _,
            tickets: noted,
            handled,
            number: _,
            most: _,
            owed,
        } = worker;
        shared.ring.join(pass, own);
        take_all_back(lanes, places, given);
        tickets.push_reserved(noted);
        all = all.wrapping_add(handled);
        keep_half(halves, block, owed);
    }
    rest.destroy_empty();
    all
}

/// Keeps an item that is half done.
fn keep_half(halves: &mut Vec<Half>, block: Block, owed: Option<Owed>)
    requires room { length halves.old.items < vec_capacity halves.old }
    ensures kept { halves.new.items ≡ halves.old.items ++ halves_of block owed }
    ensures room { vec_capacity halves.new ≡ vec_capacity halves.old }
{
    if let Some(owed) = owed {
        halves.push_reserved(Half { block, owed });
    }
}

/// Takes a worker's place at each sink back.
fn take_all_back<S: Store + Drop>(
    lanes: &[Lane<Sink<S>>],
    places: &mut Vec<SinkPlace<S>>,
    given: Vec<SinkPlace<S>>,
)
    requires lanes { lanes_of places.old.items ≡ lanes.now }
    requires same { Each2 IsSameLane places.old.items given.items }
    ensures { Each3 TakesBack places.old.items places.new.items given.items }
{
    let mut number = 0;
    for place in given {
        places[number].take_back(&lanes[number], place);
        number += 1;
    }
}

/// Lists how many faults each place counted, which from then on are counted from none.
fn take_faults<S: Store>(places: &mut Vec<SinkPlace<S>>, faults: &mut Vec<u64>)
    requires room { (faults.old.items ≡ []) × (length places.old.items ≤ vec_capacity faults.old) }
    ensures { Each3 GivesFaults places.old.items places.new.items faults.new.items }
{
    for number in 0..places.len() {
        faults.push_reserved(places[number].take_faults());
    }
}

/// Makes the turns that workers owe, one item after another.
fn finish_all<S: Store>(
    loggers: &Loggers,
    lanes: &[Lane<Sink<S>>],
    places: &mut Vec<SinkPlace<S>>,
    line: &mut LineBuf,
    halves: Vec<Half>,
)
    requires lanes { lanes_of places.old.items ≡ lanes.now }
    requires alone { AreAlone places.old.items }
    requires limits { (limit : ℕ) × AreLimited limit (places_of places.old.items) × AllByRecursion (AreAtLimit limit) halves.items }
    requires line { line.old.capacity ≡ LINE_MAX }
    ensures turns { HaveMade 0 places.old.items places.new.items (owed_in loggers.now halves.items) }
    ensures places { places_of places.new.items ≡ places_of places.old.items }
    ensures line { line.new.capacity ≡ LINE_MAX }
{
    for half in halves {
        let Owed { ticket, place } = half.owed;
        make_all(
            loggers,
            lanes,
            places,
            line,
            ticket,
            half.block.item(),
            place,
        );
    }
}

/// Makes the turns of an item from this place on, where nobody else has a seat at the sinks' lanes.
fn make_all<S: Store>(
    loggers: &Loggers,
    lanes: &[Lane<Sink<S>>],
    places: &mut Vec<SinkPlace<S>>,
    line: &mut LineBuf,
    ticket: u64,
    item: &Item,
    from: usize,
)
    requires lanes { lanes_of places.old.items ≡ lanes.now }
    requires alone { AreAlone places.old.items }
    requires limits { (limit : ℕ) × AreLimited limit (places_of places.old.items) × KeepsTo limit item.now }
    requires line { line.old.capacity ≡ LINE_MAX }
    ensures turns { HaveMade 0 places.old.items places.new.items (drop from (dues_of loggers.now ticket item.now)) }
    ensures places { places_of places.new.items ≡ places_of places.old.items }
    ensures line { line.new.capacity ≡ LINE_MAX }
{
    match make_turns(loggers, lanes, places, line, ticket, item, from) {
        None => {}
        Some(_) => unreachable!(),
    }
}

/// What is left in the queue, when all passes have come back.
fn left_of(ring: Queue, pass: QueuePass) -> Vec<(u64, Block)>
    requires ring { IsPassOf ring.ring pass }
    requires all { pass.known.parts ≡ ALL_PARTS }
    ensures left { LeavesInQueue pass.known (items_of result.items) }
    ensures limit { AllByRecursion (λ p. HoldsTo ring.ring.limit p.1) result.items }
{
    match ring.close(pass) {
        Ok((cells, _spares)) => cells,
        Err(_) => unreachable!(),
    }
}

/// Makes the turns of what was left, in the order of its tickets, and answers how many texts and flushes were taken with those before, modulo 2^64.
fn hand_out<S: Store>(
    loggers: &Loggers,
    lanes: &[Lane<Sink<S>>],
    places: &mut Vec<SinkPlace<S>>,
    line: &mut LineBuf,
    left: Vec<(u64, Block)>,
    taken: u64,
) -> u64
    requires lanes { lanes_of places.old.items ≡ lanes.now }
    requires alone { AreAlone places.old.items }
    requires limits { (limit : ℕ) × AreLimited limit (places_of places.old.items) × AllByRecursion (λ p. KeepsTo limit p.1.item) left.items }
    requires line { line.old.capacity ≡ LINE_MAX }
    ensures turns { HaveMade 0 places.old.items places.new.items (all_dues loggers.now (items_of left.items)) }
    ensures handled { result ≡ (taken + weigh of_work (items_of left.items)) % 2 ^ 64 }
    ensures places { places_of places.new.items ≡ places_of places.old.items }
    ensures line { line.new.capacity ≡ LINE_MAX }
{
    let mut handled = taken;
    for (ticket, block) in left {
        let item = block.item();
        if !is_stop(item) {
            handled = handled.wrapping_add(1);
        }
        make_all(loggers, lanes, places, line, ticket, item, 0);
    }
    handled
}

/// What was lost in all, when all seats have come back.
fn lost_in(kept: LossBook, losses: BookSeat) -> Counts
    requires seat { book.IsSeatOf kept losses }
    requires all { losses.known.parts ≡ ALL_SEATS }
    ensures { book.Closes losses.known result }
{
    match kept.close(losses) {
        Ok(lost) => lost,
        Err(_) => unreachable!(),
    }
}

/// Ends each place, in order: the sinks, and to the faults that are listed those that it counted.
fn end_places<S: Store + Drop>(
    lanes: Vec<Lane<Sink<S>>>,
    places: Vec<SinkPlace<S>>,
    line: &mut LineBuf,
    faults: &mut Vec<u64>,
    sinks: &mut Vec<Sink<S>>,
)
    requires lanes { lanes_of places.items ≡ lanes.items }
    requires alone { AreAlone places.items }
    requires faults { length faults.old.items ≡ length places.items }
    requires sinks { (sinks.old.items ≡ []) × (length places.items ≤ vec_capacity sinks.old) }
    requires line { line.old.capacity ≡ LINE_MAX }
    ensures { EndAll S.tells S.files S.failures places.items faults.old.items sinks.new.items faults.new.items }
{
    let mut number = 0;
    let mut lanes = lanes.into_iter();
    for place in places {
        let Some(lane) = lanes.next() else {
            unreachable!()
        };
        let (sink, more) = place.end(lane, line);
        faults[number] = faults[number].saturating_add(more);
        sinks.push_reserved(sink);
        number += 1;
    }
}
