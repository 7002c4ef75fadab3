//! How a pool tells its workers to end.
ghost use Rattle.std.specs.Prelude.{◌↔◌, IsTrue};
ghost use Rattle.alog_pool.specs.Stops.{DidPost, IsSpent, PutsStops, Tries};
ghost use Rattle.alog_registry.specs.Limit.{HoldsTo};
ghost use Rattle.alog_ring.specs.Known.{IsPassOf};
ghost use Rattle.alog_ring.specs.Made.{IsFaithful};

use crate::shared::{Queue, QueuePass};
use alog_msg::Block;
use alog_policy::{Pace, RoomWait};
use alog_ring::PushError;
use std::sync::Wait;
use std::time::Clock;

/// Posts so many stops, written into the block in the hand, each as soon as there is room, or as many as there are tickets left: who
/// finds no ticket left needs no stop.
pub(crate) fn post_stops(
    rt: &(impl Wait + Clock),
    ring: &Queue,
    pass: &mut QueuePass,
    hand: &mut Block,
    count: usize,
)
    requires ring { IsPassOf ring.now.ring pass.old }
    requires hand { HoldsTo ring.now.ring.limit hand.old }
    requires faithful { IsFaithful pass.old.known }
    ensures ring { IsPassOf ring.now.ring pass.new }
    ensures hand { HoldsTo ring.now.ring.limit hand.new }
    ensures stops { PutsStops pass.old.known pass.new.known count }
{
    for _posted in 0..count {
        if !post_stop(rt, ring, pass, hand) {
            return;
        }
    }
}

/// Posts a stop as soon as there is room, and answers whether a ticket was left for it.
fn post_stop(rt: &(impl Wait + Clock), ring: &Queue, pass: &mut QueuePass, hand: &mut Block) -> bool
    requires ring { IsPassOf ring.now.ring pass.old }
    requires hand { HoldsTo ring.now.ring.limit hand.old }
    requires faithful { IsFaithful pass.old.known }
    ensures ring { IsPassOf ring.now.ring pass.new }
    ensures hand { HoldsTo ring.now.ring.limit hand.new }
    ensures did { DidPost pass.old.known pass.new.known result }
{
    let mut room = RoomWait::new();
    for _ in rt.forever() {
        if let Some(posted) = try_stop(ring, pass, hand) {
            return posted;
        }
        // A stop waits for one place alone, so each of its rests is a first one.
        let mut pace = Pace::new(ring.places());
        room.wait(rt, &mut pace, 0);
    }
    unreachable!()
}

/// Tries to post a stop, and answers whether a ticket was left for it; `None` where there was no room, or another was faster.
fn try_stop(ring: &Queue, pass: &mut QueuePass, hand: &mut Block) -> Option<bool>
    requires ring { IsPassOf ring.now.ring pass.old }
    requires hand { HoldsTo ring.now.ring.limit hand.old }
    requires faithful { IsFaithful pass.old.known }
    ensures ring { IsPassOf ring.now.ring pass.new }
    ensures hand { HoldsTo ring.now.ring.limit hand.new }
    ensures tried { Tries pass.old.known pass.new.known result }
{
    hand.write_stop();
    match ring.push_swap_from(pass, hand) {
        Ok(_ticket) => Some(true),
        Err(error) => { if is_spent(&error) { Some(false) } else { None } }
    }
}

/// Whether a push found that no ticket is left.
fn is_spent(error: &PushError<()>) -> bool
    ensures { IsTrue result ↔ IsSpent error.now }
{
    matches!(error, PushError::Spent { .. })
}
