//! Workers that are lent their pool.
ghost use Rattle.std.specs.Prelude.{◌≡◌, ◌↔◌, ◌≤◌, ◌∷◌, ◌++◌, [], IsTrue, take, length, vec_capacity, IfSome, None};
ghost use Rattle.alog_hosted.specs.Faults.{capped_sum_by, faults_of};
ghost use Rattle.alog_hosted.specs.Workers.{HasEnded, IsPause, IsSameWorker, IsWorkerOf};
ghost use Rattle.alog_msg.specs.declared.item.Item.{Item as It};
ghost use Rattle.alog_msg.specs.declared.item.Item.TheVariants.{Stop};
ghost use Rattle.alog_pool.specs.Accounts.{Moved};
ghost use Rattle.alog_pool.specs.Working.{IsWorkOf};
ghost use Rattle.alog_registry.specs.BlockPort.{block_note};
ghost use Rattle.alog_ring.specs.Known.{Known};

use crate::hosted::Hosted;
use crate::owed::Owed;
use crate::sink_place::SinkPlace;
use crate::turns::{flush_all, make_turns};
use alog_format::LineBuf;
use alog_msg::{Block, Item};
use alog_pool::{QueuePass, Shared};
use alog_ring::PopError;
use alog_sink::Store;
use std::fmt;
use std::marker::Model;
use std::snapshot::Snapshot;

/// Why a worker stopped.
#[derive(Clone, Copy, Debug, PartialEq, Eq, Drop)]
pub enum Pause {
    /// It ended as many items as it was to. There may be more, and what it wrote may not be flushed.
    Done,
    /// Nothing is there, and nothing on its way. Each sink to which the worker wrote was flushed, or answered the flush by a fault.
    Idle,
    /// An item is on its way, or another pop was faster: the next call may find one at once.
    Soon,
    /// Another worker has the lock of a sink. The next call does what is left to do; it is to come soon, whether anything is logged or not.
    Held,
}

/// What a call of a worker did.
#[derive(Clone, Copy, Debug, PartialEq, Eq, Drop)]
pub struct Work {
    /// How many items it ended: those whose turns were all made.
    pub items: usize,
    /// Why it stopped.
    pub pause: Pause,
}

/// What one of the host's threads writes lines with. Its pool is lent to each call. It has to come back to `Host::disband`, so it is no `Drop`.
pub struct HostedWorker<S: Store> {
    /// What its pool's threads share.
    pub(crate) shared: Snapshot<Shared>,
    pub(crate) pass: QueuePass,
    /// It holds what the worker took last, and its next pop brings it.
    pub(crate) block: Block,
    pub(crate) places: Vec<SinkPlace<S>>,
    pub(crate) line: LineBuf,
    /// The tickets of its first texts and flushes, for which there is room.
    pub(crate) tickets: Vec<u64>,
    /// Its texts and flushes, modulo 2^64.
    pub(crate) handled: u64,
    pub(crate) number: u32,
    pub(crate) most: usize,
    /// Where a lock was held, what is left of the item in the block.
    pub(crate) owed: Option<Owed>,
}

impl<S: Store> Model for HostedWorker<S> {
    ghost use Rattle.std.specs.Prelude.{◌≡◌, ◌≤◌, vec_capacity};
    ghost use Rattle.alog_core.specs.Accounts.{takes};
    ghost use Rattle.alog_hosted.specs.Owed.{IsLastOf, half_of, owed_of};
    ghost use Rattle.alog_hosted.specs.Workers.{IsWorker, WorkerView};
    ghost use Rattle.alog_pattern.specs.declared.patterns.TheConstants.{LINE_MAX};

    ghost Value = { WorkerView S };

    ghost view = { λ w. record {
      shared = w.shared.value;
      pass = w.pass;
      places = w.places.items;
      tickets = w.tickets.items;
      handled = w.handled;
      number = w.number;
      most = w.most;
      half = half_of w.owed;
      owed = owed_of w.shared.value.loggers w.owed w.block.item;
    } };

    ghost invariant = { λ w. IsWorker w.shared.value w.pass w.block w.places.items w.tickets.items w.handled w.most
        (owed_of w.shared.value.loggers w.owed w.block.item) × (w.line.capacity ≡ LINE_MAX) × (w.most ≤ vec_capacity w.tickets)
        × IsLastOf (takes w.pass.known.own) w.owed w.block.item };
}

impl<S: Store> fmt::Debug for HostedWorker<S> {
    fn fmt<W: fmt::Write>(&self, f: &mut fmt::Formatter<W>) -> fmt::Result {
        f.debug_struct("HostedWorker")
            .field("number", &self.number)
            .field("handled", &self.handled)
            .finish_non_exhaustive()
    }
}

impl<S: Store> HostedWorker<S> {
    /// Its number, from 0 in the order in which its pool made workers.
    pub fn number(&self) -> u32
        ensures { result ≡ self.now.number }
    {
        self.number
    }

    /// How many turns at sinks this worker made so far that were answered by a fault, at most 2^64 - 1. A sink that is broken answers each flush by one,
    /// and each text that its level lets through; a fan answers one for all of its members. So above 0 a sink, or a member of one, is broken; how
    /// many lines are missing the number does not say. The test `faults_are_told_so_far` shows it.
    pub fn faults(&self) -> u64
        ensures turns { result ≡ faults_of self.now }
        ensures counted { result ≡ capped_sum_by (λ p. p.faults) self.now.places }
    {
        faults_counted(&self.places)
    }

    /// Takes items out of the queue and writes their lines, until it ended so many items, or has to stop before, and answers how many it ended and
    /// why it stopped. It waits for no other thread, and takes no memory of its own: what a call of a store does is the store's matter.
    ///
    /// Where another worker has the lock of a sink, the item is half done and stays with this worker; its next call goes on with it.
    pub fn work_some(&mut self, hosted: &Hosted<S>, most: usize) -> Work
        requires of { IsWorkerOf hosted.now self.old }
        ensures same { IsSameWorker self.old self.new }
        ensures ended { HasEnded self.old self.new result.items }
        ensures most { result.items ≤ most }
        ensures pause { IsPause most self.old self.new result.items result.pause }
    {
        // What is true of each worker is known once a field was looked at.
        let _number = self.number;
        for items in 0..most {
            if let Some(pause) = self.step(hosted) {
                return Work { items, pause };
            }
        }
        Work {
            items: most,
            pause: Pause::Done,
        }
    }

    /// Ends one item, or says why not.
    fn step(&mut self, hosted: &Hosted<S>) -> Option<Pause>
        requires of { IsWorkerOf hosted.now self.old }
        ensures same { IsSameWorker self.old self.new }
        ensures ended { result ≡ None → HasEnded self.old self.new 1 × (self.new.half ≡ 0) }
        ensures pause { IfSome result (λ p. HasEnded self.old self.new 0 × IsPause 1 self.old self.new 0 p) }
    {
        if self.owed.is_some() {
            return self.finish(hosted);
        }
        match self.take(hosted) {
            Some(pause) => Some(pause),
            None => self.finish(hosted),
        }
    }

    /// Takes the next item, whose turns it owes then, or says why not.
    fn take(&mut self, hosted: &Hosted<S>) -> Option<Pause>
        requires of { IsWorkerOf hosted.now self.old }
        requires free { self.old.half ≡ 0 }
        ensures same { IsSameWorker self.old self.new }
        ensures took { result ≡ None → HasEnded self.old self.new 0 × (self.new.half ≡ 1) }
        ensures pause { IfSome result (λ p. HasEnded self.old self.new 0 × IsPause 1 self.old self.new 0 p) }
    {
        match hosted
            .shared
            .ring
            .pop_swap_into(&mut self.pass, &mut self.block)
        {
            Ok(ticket) => {
                let item = self.block.item();
                count(
                    item,
                    ticket,
                    self.most,
                    &mut self.tickets,
                    &mut self.handled,
                );
                self.owed = Some(Owed { ticket, place: 0 });
                None
            }
            Err(PopError::Idle { next: _ }) => {
                match flush_all(&hosted.lanes, &mut self.places, &mut self.line) {
                    Ok(()) => return Some(Pause::Idle),
                    Err(_) => return Some(Pause::Held),
                }
            }
            Err(PopError::Empty { next: _ }) => Some(Pause::Soon),
            Err(PopError::Busy { seen: _ }) => Some(Pause::Soon),
        }
    }

    /// Makes the turns that it owes, or says that a lock is held.
    fn finish(&mut self, hosted: &Hosted<S>) -> Option<Pause>
        requires of { IsWorkerOf hosted.now self.old }
        requires half { self.old.half ≡ 1 }
        ensures same { IsSameWorker self.old self.new }
        ensures ended { result ≡ None → HasEnded self.old self.new 1 × (self.new.half ≡ 0) }
        ensures pause { IfSome result (λ p. HasEnded self.old self.new 0 × IsPause 1 self.old self.new 0 p) }
    {
        let Some(owed) = self.owed else {
            unreachable!()
        };
        let loggers = &hosted.shared.loggers;
        let places = &mut self.places;
        let line = &mut self.line;
        let item = self.block.item();
        match make_turns(
            loggers,
            &hosted.lanes,
            places,
            line,
            owed.ticket,
            item,
            owed.place,
        ) {
            None => {
                self.owed = None;
                None
            }
            Some(place) => {
                let ticket = owed.ticket;
                self.owed = Some(Owed { ticket, place });
                Some(Pause::Held)
            }
        }
    }
}

/// Counts an item that was taken under this ticket, and notes the ticket, if fewer than so many are noted; of a stop it does neither.
fn count(item: &Item, ticket: u64, most: usize, tickets: &mut Vec<u64>, handled: &mut u64)
    requires room { most ≤ vec_capacity tickets.old }
    requires few { length tickets.old.items ≤ most }
    ensures counted { (k l : Known It block_note) → IsWorkOf most k tickets.old.items handled.old → Moved k l [] ((ticket, item.now) ∷ [])
        → IsWorkOf most l tickets.new.items handled.new }
    ensures room { vec_capacity tickets.new ≡ vec_capacity tickets.old }
{
    if !is_stop(item) {
        *handled = handled.wrapping_add(1);
        note(tickets, most, ticket);
    }
}

/// Notes the ticket, if fewer than so many are noted.
fn note(tickets: &mut Vec<u64>, most: usize, ticket: u64)
    requires room { most ≤ vec_capacity tickets.old }
    requires few { length tickets.old.items ≤ most }
    ensures noted { tickets.new.items ≡ take most (tickets.old.items ++ ticket ∷ []) }
    ensures room { vec_capacity tickets.new ≡ vec_capacity tickets.old }
{
    if tickets.len() < most {
        tickets.push_reserved(ticket);
    }
}

/// How many faults these places counted, at most 2^64 - 1.
fn faults_counted<S: Store>(places: &[SinkPlace<S>]) -> u64
    ensures { result ≡ capped_sum_by (λ p. p.faults) places.now }
{
    let mut sum: u64 = 0;
    for place in places {
        sum = sum.saturating_add(place.faults());
    }
    sum
}

/// Whether the item is a stop, which makes no turn and is not counted.
pub(crate) fn is_stop(item: &Item) -> bool
    ensures { IsTrue result ↔ (item.now ≡ Stop) }
{
    matches!(item, Item::Stop)
}
