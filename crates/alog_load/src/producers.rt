//! The producers of a load, each on a thread of its own.
ghost use Rattle.std.specs.Prelude.{◌≡◌, ◌≤◌, ◌<◌, [], length, map, vec_capacity, IsTrue};
ghost use Rattle.std.specs.List.{AllByRecursion};
ghost use Rattle.alog_load.specs.Load.{Goes};
ghost use Rattle.alog_load.specs.Producers.{AreDone, HaveLoggers, Runs};
ghost use Rattle.alog_load.specs.declared.TheConstants.{LOAD_MESSAGES_MAX};
ghost use Rattle.alog_pool.specs.Places.{Each2};
ghost use Rattle.alog_registry.specs.declared.TheConstants.{LOGGERS_MAX};
ghost use Rattle.alog_server.specs.Making.{MakesAll};

use crate::load_seat::LoadSeat;
use alog_pool::{Pool, Producer};
use alog_sink::Store;
use std::alloc::Global;
use std::sync::Wait;
use std::sync::atomic::AtomicBool;
use std::thread::{self, Threads};
use std::time::Clock;

/// Has the pool make so many producers, lets each log its messages on a thread of its own, and waits until all have. Answers them, and
/// whether each logged all its messages.
pub(crate) fn run_all<S: Store + Drop + Send + 'static, R: Threads + Wait + Clock + Sync>(
    rt: &R,
    alloc: Global,
    pool: &mut Pool<S>,
    count: u64,
    loggers: usize,
    messages: u64,
) -> (Vec<Producer>, bool)
    requires some { 1 ≤ count }
    requires loggers { (loggers ≡ length pool.old.shared.loggers) × (loggers ≤ LOGGERS_MAX) }
    requires few { messages ≤ LOAD_MESSAGES_MAX }
    ensures { Runs pool.old pool.new count loggers messages result.0.items result.1 }
{
    let Ok(mut back) = Vec::with_capacity(alloc, count as usize) else {
        return (Vec::new(alloc), false);
    };
    let Ok(mut seats) = Vec::with_capacity(alloc, count as usize) else {
        return (back, false);
    };
    if !seat_all(pool, count, &mut seats) {
        rise_all(seats, &mut back);
        return (back, false);
    }
    go_all(rt, alloc, &mut seats, loggers, messages);
    let done = rise_all(seats, &mut back);
    (back, done)
}

/// Has the pool make so many producers, each at a seat, and answers whether it did.
fn seat_all<S: Store + Drop + Send + 'static>(
    pool: &mut Pool<S>,
    count: u64,
    seats: &mut Vec<LoadSeat>,
) -> bool
    requires room { (seats.old.items ≡ []) × (count ≤ vec_capacity seats.old) }
    ensures makes { MakesAll pool.old (map (λ s. s.producer) seats.new.items) pool.new }
    ensures many { IsTrue result → length seats.new.items ≡ count }
    ensures few { length seats.new.items ≤ count }
{
    for _number in 0..count {
        match pool.producer() {
            Ok(producer) => seats.push_reserved(LoadSeat {
                producer,
                done: false,
            }),
            Err(_) => return false,
        }
    }
    true
}

/// Lets each log its messages.
fn go_all<R: Threads + Wait + Clock + Sync>(
    rt: &R,
    alloc: Global,
    seats: &mut Vec<LoadSeat>,
    loggers: usize,
    messages: u64,
)
    requires some { 0 < length seats.old.items }
    requires known { AllByRecursion (HaveLoggers loggers) seats.old.items }
    requires few { (loggers ≤ LOGGERS_MAX) × (messages ≤ LOAD_MESSAGES_MAX) }
    ensures { Each2 (Goes loggers messages) seats.old.items seats.new.items }
{
    let halt = AtomicBool::new(false);
    let threads = seats.len();
    thread::for_each_mut(
        rt,
        seats.as_mut_slice(),
        threads,
        &|_number, seat: &mut LoadSeat|
            requires { HaveLoggers loggers seat.now × (loggers ≤ LOGGERS_MAX) × (messages ≤ LOAD_MESSAGES_MAX) }
            ensures { Goes loggers messages seat.entry.now seat.exit.now }
        { seat.go(rt, alloc, loggers, messages, &halt) },
    );
}

/// Takes the producers back, in their order, and answers whether each logged all its messages.
fn rise_all(seats: Vec<LoadSeat>, back: &mut Vec<Producer>) -> bool
    requires room { (back.old.items ≡ []) × (length seats.items ≤ vec_capacity back.old) }
    ensures back { back.new.items ≡ map (λ s. s.producer) seats.items }
    ensures done { IsTrue result → AreDone seats.items }
{
    let mut all = true;
    let mut rest = seats.into_iter();
    while let Some(seat) = rest.next() {
        let LoadSeat { producer, done } = seat;
        all = all && done;
        back.push_reserved(producer);
    }
    rest.destroy_empty();
    all
}
