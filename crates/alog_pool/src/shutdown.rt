//! The end of a pool.
ghost use Rattle.std.specs.Prelude.{◌≡◌, ◌↔◌, ◌≤◌, ◌<◌, ℕ, [], length, map, vec_capacity, IfOk, IfErr, IsErr};
ghost use Rattle.std.specs.Arc.{arc_value};
ghost use Rattle.std.specs.List.{AllByRecursion};
ghost use Rattle.alog_lane.specs.declared.seat.TheConstants.{ALL_PARTS as ALL_SEATS};
ghost use Rattle.alog_policy.specs.BookCalls as book;
ghost use Rattle.alog_pool.specs.Back.{AreAccounts, HasBack, HasSeatsBack, loss_member, pass_member};
ghost use Rattle.alog_pool.specs.Collected.{Collects, IsClosing, TakesBack};
ghost use Rattle.alog_pool.specs.Places.{Each2, Each3, IsSameLane};
ghost use Rattle.alog_pool.specs.Pool.{Begins, IsUnused, lanes_of};
ghost use Rattle.alog_pool.specs.Report.{Ends};
ghost use Rattle.alog_ring.specs.Known.{IsPassOf};
ghost use Rattle.alog_ring.specs.Made.{IsFaithful};

use crate::alone::alone;
use crate::error::ProducersOut;
use crate::pool::Pool;
use crate::pool_parts::WorkerHandle;
use crate::producer::Producer;
use crate::report::{Blank, Report, Totals};
use crate::shared::{QueuePass, Shared};
use crate::sink_seat::SinkSeat;
use crate::stops::post_stops;
use crate::worker::Worker;
use alog_policy::{BookSeat, Counts};
use alog_sink::{Sink, Store};
use std::sync::{Arc, Wait};
use std::thread::Threads;
use std::time::Clock;

impl<S: Store + Drop + Send + 'static> Pool<S> {
    /// Ends the pool, when its producers have come back: it tells its workers to stop, waits until each has handled what it took,
    /// and answers what became of all messages. It takes no memory. That it returns is not promised: a store in which a worker waits
    /// keeps it.
    ///
    /// Where fewer producers come back than were made, nothing is done, and pool and producers come back. More can not come back: each
    /// brings a part of the queue, and there are no more parts than all.
    pub fn shutdown<R: Threads + Wait + Clock>(
        self,
        rt: &R,
        producers: Vec<Producer>,
    ) -> Result<Report<S>, ProducersOut<S>>
        requires own { AllByRecursion (λ p. p.shared ≡ self.shared) producers.items }
        ensures out { IsErr result ↔ (length producers.items < self.made) }
        ensures back { IfErr result (λ e. (e.pool ≡ self) × (e.producers ≡ producers)) }
        ensures all { IfOk result (λ _. length producers.items ≡ self.made) }
        ensures ends { IfOk result (λ r. Ends S.tells S.files S.failures self producers.items r) }
    {
        if (producers.len() as u64) < self.made {
            return Err(ProducersOut {
                pool: self,
                producers,
            });
        }
        Ok(self.end(rt, producers))
    }

    /// Ends the pool, whose producers have all come back.
    fn end<R: Threads + Wait + Clock>(self, rt: &R, producers: Vec<Producer>) -> Report<S>
        requires own { AllByRecursion (λ p. p.shared ≡ self.shared) producers.items }
        requires enough { self.made ≤ length producers.items }
        ensures all { length producers.items ≡ self.made }
        ensures ends { Ends S.tells S.files S.failures self producers.items result }
    {
        let Pool {
            alloc: _,
            shared,
            mut pass,
            mut block,
            mut losses,
            mut sink_seats,
            backtrace_seats: _,
            made: _,
            text_limit: _,
            tickets_max: _,
            workers,
            blank,
        } = self;
        let Blank {
            mut tickets,
            mut faults,
            mut sinks,
        } = blank;
        gather(&shared, &mut pass, &mut losses, producers);
        post_stops(rt, &shared.ring, &mut pass, &mut block, workers.len());
        let handled = collect(
            rt,
            &shared,
            &mut pass,
            &mut sink_seats,
            workers,
            &mut tickets,
        );
        let _whole = shared.ring.is_whole(&mut pass);
        let lost = close_book(rt, shared, losses);
        close_sink_seats(rt, sink_seats, &mut faults, &mut sinks);
        Report {
            totals: Totals::of(lost, handled),
            tickets,
            faults,
            sinks,
        }
    }
}

/// Takes each producer's pass and seat back.
fn gather(shared: &Shared, pass: &mut QueuePass, losses: &mut BookSeat, producers: Vec<Producer>)
    requires ring { IsPassOf shared.now.ring.ring pass.old }
    requires book { book.IsSeatOf shared.now.book losses.old }
    requires faithful { IsFaithful pass.old.known }
    requires own { AllByRecursion (λ p. p.shared ≡ shared.now) producers.items }
    ensures ring { IsPassOf shared.now.ring.ring pass.new }
    ensures book { book.IsSeatOf shared.now.book losses.new }
    ensures passes { HasBack pass.old.known pass.new.known (map pass_member producers.items) }
    ensures seats { HasSeatsBack losses.old.known losses.new.known (map loss_member producers.items) }
    ensures accounts { AreAccounts producers.items }
{
    let mut rest = producers.into_iter();
    while let Some(producer) = rest.next() {
        let Producer {
            shared: _,
            pass: own,
            hand: _,
            spare: _,
            pace: _,
            losses: seat,
            backtrace_seats: _,
            number: _,
            text_limit: _,
        } = producer;
        shared.ring.join(pass, own);
        shared.book.join(losses, seat);
    }
    rest.destroy_empty();
}

/// Waits for each worker, in their order: takes its pass and its places back, and lists its tickets. Answers how many texts and
/// flushes all handled, modulo 2^64.
fn collect<R: Threads, S: Store + Drop + Send + 'static>(
    rt: &R,
    shared: &Shared,
    pass: &mut QueuePass,
    sink_seats: &mut Vec<SinkSeat<S>>,
    workers: Vec<WorkerHandle<S>>,
    tickets: &mut Vec<Vec<u64>>,
) -> u64
    requires ring { IsPassOf shared.now.ring.ring pass.old }
    requires faithful { IsFaithful pass.old.known }
    requires unused { AllByRecursion IsUnused sink_seats.old.items }
    requires began { (most : ℕ) × AllByRecursion (Begins shared.now (lanes_of sink_seats.old.items) most)
        (map (λ h. h.promise.start.value) workers.items) }
    requires room { (tickets.old.items ≡ []) × (length workers.items ≤ vec_capacity tickets.old) }
    ensures ring { IsPassOf shared.now.ring.ring pass.new }
    ensures collects { Collects (map (λ h. h.promise.start.value) workers.items) pass.old.known pass.new.known
        sink_seats.old.items sink_seats.new.items tickets.new.items result }
{
    let mut all = 0_u64;
    for worker in workers {
        let Worker {
            shared: _,
            pass: own,
            block: _,
            sink_seats: places,
            line: _,
            number: _,
            pace: _,
            tickets: noted,
            most: _,
            handled,
            gaps: _,
        } = worker.join(rt);
        shared.ring.join(pass, own);
        take_all_back(sink_seats, places);
        tickets.push_reserved(noted);
        all = all.wrapping_add(handled);
    }
    all
}

/// Takes a worker's place at each sink back.
fn take_all_back<S: Store + Drop>(sink_seats: &mut Vec<SinkSeat<S>>, places: Vec<SinkSeat<S>>)
    requires { Each2 IsSameLane sink_seats.old.items places.items }
    ensures { Each3 TakesBack sink_seats.old.items sink_seats.new.items places.items }
{
    let mut number = 0;
    for place in places {
        sink_seats[number].take_back(place);
        number += 1;
    }
}

/// What was lost in all, when all seats have come back.
fn close_book(rt: &impl Wait, shared: Arc<Shared>, losses: BookSeat) -> Counts
    requires seat { book.IsSeatOf (arc_value shared).book losses }
    requires all { losses.known.parts ≡ ALL_SEATS }
    ensures { book.Closes losses.known result }
{
    let Shared {
        ring: _,
        book,
        loggers: _,
        gaps: _,
    } = alone(rt, shared);
    match book.close(losses) {
        Ok(lost) => lost,
        Err(_) => unreachable!(),
    }
}

/// The sinks and the faults, in order, when all places have come back.
fn close_sink_seats<S: Store + Drop>(
    rt: &impl Wait,
    sink_seats: Vec<SinkSeat<S>>,
    faults: &mut Vec<u64>,
    sinks: &mut Vec<Sink<S>>,
)
    requires all { AllByRecursion (λ b. b.seat.known.parts ≡ ALL_SEATS) sink_seats.items }
    requires faults { (faults.old.items ≡ []) × (length sink_seats.items ≤ vec_capacity faults.old) }
    requires sinks { (sinks.old.items ≡ []) × (length sink_seats.items ≤ vec_capacity sinks.old) }
    ensures { Each3 (IsClosing S.tells S.files S.failures) sink_seats.items sinks.new.items faults.new.items }
{
    for sink_seat in sink_seats {
        faults.push_reserved(sink_seat.faults);
        sinks.push_reserved(sink_seat.close(rt));
    }
}
