//! Pushes and pops of a swap ring.
ghost use Rattle.std.specs.Prelude.{◌≡◌, None, IfOk, IfErr};
ghost use Rattle.alog_ring.specs.Known.{IsPassOf};
ghost use Rattle.alog_ring.specs.Refused.{PushRefusedAs, PopRefusedAs};
ghost use Rattle.alog_ring.specs.Swaps.{PushedFor, PoppedFor, SwapPopRefused};

use crate::gate::OpenSteps;
use crate::kind::Shows;
use crate::limit::Limit;
use crate::pop::PopError;
use crate::push::PushError;
use crate::swap_ring::{SwapPass, SwapRing};
use std::marker::Brand;
use thiserror::Error;

/// Why a pop of a swap ring did not go through: the spare comes back. The test `a_swap_ring_of_two` shows it.
#[derive(Debug, Drop, Error)]
pub enum SwapPopError<B> {
    /// The front ticket was not written, and it was claimed by the time that this pop looked at the end.
    #[error("empty at {next}")]
    Empty { next: u64, spare: B },
    /// The front ticket was not written, and nobody had claimed it when this pop looked at the end.
    #[error("idle at {next}")]
    Idle { next: u64, spare: B },
    /// Another pop grabbed the ticket that this one read.
    #[error("busy at {seen}")]
    Busy { seen: u64, spare: B },
}

impl<B, T, W: Shows<B, T>, L: Limit<B>> SwapRing<B, T, W, L> {
    /// Puts the value into the ring if that goes at once, and answers its ticket with the spare of its place: what the pop of the
    /// ticket a lap before brought, or what lay there at first.
    ///
    /// It is one round of a push, as `Ring::push_once` makes it. A refusal hands the value back. The test `a_swap_ring_of_two`
    /// shows it.
    pub fn push_swap(&self, pass: &mut SwapPass<B, T>, value: B) -> Result<(u64, B), PushError<B>>
        requires ring { IsPassOf self.now.ring pass.old }
        requires limit { L.admits self.now.ring.limit value }
        ensures ring { IsPassOf self.now.ring pass.new }
        ensures pushed { IfOk result (λ r. PushedFor W.shows self.now.firsts pass.old.known pass.new.known r.0 value r.1) }
        ensures limit { IfOk result (λ r. L.admits self.now.ring.limit r.1) }
        ensures refused { IfErr result (λ e. PushRefusedAs None pass.old.known pass.new.known value e) }
    {
        let mut hand = value;
        match self.push_swap_from(pass, &mut hand) {
            Ok(ticket) => Ok((ticket, hand)),
            Err(PushError::Full { value: (), next }) => Err(PushError::Full { value: hand, next }),
            Err(PushError::Busy { value: (), seen }) => Err(PushError::Busy { value: hand, seen }),
            Err(PushError::Spent { value: () }) => Err(PushError::Spent { value: hand }),
        }
    }

    /// Takes the front value out of the ring if that goes at once, leaves the spare in its place, and answers the value with its
    /// ticket.
    ///
    /// It is one round of a pop, as `Ring::pop_once` makes it. A refusal hands the spare back. The test `a_swap_ring_of_two`
    /// shows it.
    pub fn pop_swap(&self, pass: &mut SwapPass<B, T>, spare: B) -> Result<(u64, B), SwapPopError<B>>
        requires ring { IsPassOf self.now.ring pass.old }
        requires limit { L.admits self.now.ring.limit spare }
        ensures ring { IsPassOf self.now.ring pass.new }
        ensures popped { IfOk result (λ r. PoppedFor W.shows pass.old.known pass.new.known r.0 spare r.1) }
        ensures limit { IfOk result (λ r. L.admits self.now.ring.limit r.1) }
        ensures refused { IfErr result (λ e. SwapPopRefused pass.old.known pass.new.known spare e) }
    {
        let mut hand = spare;
        match self.pop_swap_into(pass, &mut hand) {
            Ok(ticket) => Ok((ticket, hand)),
            Err(PopError::Empty { next }) => Err(SwapPopError::Empty { next, spare: hand }),
            Err(PopError::Idle { next }) => Err(SwapPopError::Idle { next, spare: hand }),
            Err(PopError::Busy { seen }) => Err(SwapPopError::Busy { seen, spare: hand }),
        }
    }

    /// Puts the value that lies in the hand into the ring if that goes at once, and answers its ticket: the spare of its place lies
    /// in the hand then.
    ///
    /// It is `push_swap` for a large value, which is moved once. A refused push leaves it in the hand. The test
    /// `a_hand_is_swapped` shows it.
    pub fn push_swap_from(
        &self,
        pass: &mut SwapPass<B, T>,
        hand: &mut B,
    ) -> Result<u64, PushError<()>>
        requires ring { IsPassOf self.now.ring pass.old }
        requires limit { L.admits self.now.ring.limit hand.old }
        ensures ring { IsPassOf self.now.ring pass.new }
        ensures pushed { IfOk result (λ t. PushedFor W.shows self.now.firsts pass.old.known pass.new.known t hand.old hand.new) }
        ensures limit { L.admits self.now.ring.limit hand.new }
        ensures refused { IfErr result (λ e. PushRefusedAs None pass.old.known pass.new.known (tt {0}) e) }
        ensures left { IfErr result (λ e. hand.new ≡ hand.old) }
    {
        self.board
            .push_round::<Brand, OpenSteps>(pass, hand, &OpenSteps)
    }

    /// Takes the front value out of the ring if that goes at once, and answers its ticket: what lay in the hand lies in its place
    /// then, and the value in the hand.
    ///
    /// It is `pop_swap` for large values, which are moved once. A refused pop leaves the spare in the hand. The test
    /// `a_hand_is_swapped` shows it.
    pub fn pop_swap_into(&self, pass: &mut SwapPass<B, T>, hand: &mut B) -> Result<u64, PopError>
        requires ring { IsPassOf self.now.ring pass.old }
        requires limit { L.admits self.now.ring.limit hand.old }
        ensures ring { IsPassOf self.now.ring pass.new }
        ensures popped { IfOk result (λ t. PoppedFor W.shows pass.old.known pass.new.known t hand.old hand.new) }
        ensures limit { L.admits self.now.ring.limit hand.new }
        ensures refused { IfErr result (λ e. PopRefusedAs None pass.old.known pass.new.known e) }
        ensures left { IfErr result (λ e. hand.new ≡ hand.old) }
    {
        self.board
            .pop_round::<Brand, OpenSteps>(pass, hand, &OpenSteps)
    }
}
