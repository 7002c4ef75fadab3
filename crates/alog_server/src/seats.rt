//! The clients of all threads, from their producers and back.
ghost use Rattle.std.specs.Prelude.{◌≡◌, ◌≤◌, ◌<◌, None, [], length, map, vec_capacity};
ghost use Rattle.std.specs.List.{AllByRecursion};
ghost use Rattle.alog_server.specs.Ends.{AllEnd, EachEnds, EndsSo, first_error};
ghost use Rattle.alog_server.specs.Homes.{IsAtHome};

use crate::client::Client;
use crate::home::Home;
use crate::work::Work;
use alog_pool::Producer;
use std::alloc::Global;
use std::thread::{self, Threads};

/// A thread's client, and why its work ended early, where it did.
pub(crate) struct Seat<H: Home, E> {
    client: Client<H>,
    error: Option<E>,
}

/// How the work of all threads ended.
#[derive(Drop)]
pub(crate) enum Ended<E> {
    /// Each came to its end.
    Done,
    /// The first that did not, by number, ended with this.
    Early(E),
    /// There was no memory. Nothing was done.
    OutOfMemory,
}

/// Lets as many threads as there are producers do their work, each with a client of its own, and gives the producers back.
pub(crate) fn run_all<H: Home + Send, R: Threads + Sync, W: Work<R> + Sync>(
    rt: &R,
    alloc: Global,
    producers: Vec<Producer>,
    work: &W,
) -> (Vec<Producer>, Ended<W::Error>)
    requires home { AllByRecursion (λ p. IsAtHome H.is_home H.loggers p) producers.items }
    requires some { 0 < length producers.items }
    ensures home { AllByRecursion (λ p. H.is_home p.shared) result.0.items }
    ensures count { length result.0.items ≡ length producers.items }
    ensures ends { AllEnd (W.ends work.now) (length producers.items) result.1 }
{
    let count = producers.len();
    let Ok(mut back) = Vec::with_capacity(alloc, count) else {
        return (producers, Ended::OutOfMemory);
    };
    let Ok(seats) = Vec::with_capacity(alloc, count) else {
        back.destroy_empty();
        return (producers, Ended::OutOfMemory);
    };
    let mut seats: Vec<Seat<H, W::Error>> = seat_all(alloc, producers, seats);
    work_all(rt, &mut seats, work);
    match rise_all(seats, &mut back) {
        None => (back, Ended::Done),
        Some(error) => (back, Ended::Early(error)),
    }
}

/// Gives each producer a seat, in their order.
fn seat_all<H: Home, E: Drop>(
    alloc: Global,
    producers: Vec<Producer>,
    seats: Vec<Seat<H, E>>,
) -> Vec<Seat<H, E>>
    requires home { AllByRecursion (λ p. IsAtHome H.is_home H.loggers p) producers.items }
    requires room { (seats.items ≡ []) × (length producers.items ≤ vec_capacity seats) }
    ensures count { length result.items ≡ length producers.items }
    ensures fresh { AllByRecursion (λ s. s.error ≡ None) result.items }
{
    let mut seats = seats;
    let mut rest = producers.into_iter();
    while let Some(producer) = rest.next() {
        seats.push_reserved(Seat {
            client: Client::of(alloc, producer),
            error: None,
        });
    }
    rest.destroy_empty();
    seats
}

/// Lets each thread do its work.
fn work_all<H: Home + Send, R: Threads + Sync, W: Work<R> + Sync>(
    rt: &R,
    seats: &mut Vec<Seat<H, W::Error>>,
    work: &W,
)
    requires some { 0 < length seats.old.items }
    requires fresh { AllByRecursion (λ s. s.error ≡ None) seats.old.items }
    ensures count { length seats.new.items ≡ length seats.old.items }
    ensures ends { EachEnds (W.ends work.now) 0 (map (λ s. s.error) seats.new.items) }
{
    let threads = seats.len();
    thread::for_each_mut(
        rt,
        seats.as_mut_slice(),
        threads,
        &|number, seat: &mut Seat<H, W::Error>|
            requires { seat.now.error ≡ None }
            ensures { EndsSo (W.ends work.entry.now number) seat.exit.now.error }
        { work_one(rt, number, seat, work) },
    );
}

/// Does the work of the thread of this number.
fn work_one<H: Home, R, W: Work<R>>(rt: &R, number: usize, seat: &mut Seat<H, W::Error>, work: &W)
    requires { seat.old.error ≡ None }
    ensures { EndsSo (W.ends work.now number) seat.new.error }
{
    if let Err(error) = work.work(rt, number, &mut seat.client) {
        seat.error = Some(error);
    }
}

/// Takes the producers back, in their order, and answers the first error.
fn rise_all<H: Home, E: Drop>(seats: Vec<Seat<H, E>>, back: &mut Vec<Producer>) -> Option<E>
    requires room { (back.old.items ≡ []) × (length seats.items ≤ vec_capacity back.old) }
    ensures home { AllByRecursion (λ p. H.is_home p.shared) back.new.items }
    ensures count { length back.new.items ≡ length seats.items }
    ensures first { result ≡ first_error (map (λ s. s.error) seats.items) }
{
    let mut first = None;
    let mut rest = seats.into_iter();
    while let Some(seat) = rest.next() {
        let Seat { client, error } = seat;
        back.push_reserved(client.into_producer());
        first = first.or(error);
    }
    rest.destroy_empty();
    first
}
