//! Pushes.
ghost use Rattle.std.specs.Prelude.{◌≡◌, None, IsSome, IfSome, IfOk, IfErr};
ghost use Rattle.alog_ring.specs.Known.{IsPassOf};
ghost use Rattle.alog_ring.specs.Calls.{Pushed};
ghost use Rattle.alog_ring.specs.Refused.{PushRefused};

use crate::board::let_go;
use crate::gate::{OpenSteps, StepGate};
use crate::limit::Limit;
use crate::pass::Pass;
use crate::ring::Ring;
use std::marker::Brand;
use thiserror::Error;

/// Why a push did not go through: the value comes back. The tests `a_ring_of_two` and `the_last_ticket_of_all` show it.
#[derive(Debug, Drop, Error)]
pub enum PushError<T> {
    /// The place of the next ticket is not free: the ticket a lap before is not taken yet.
    #[error("full at {next}")]
    Full { value: T, next: u64 },
    /// Another push claimed the ticket that this one read.
    #[error("busy at {seen}")]
    Busy { value: T, seen: u64 },
    /// All tickets below 2^62 are claimed.
    #[error("no ticket is left")]
    Spent { value: T },
}

impl<T, L: Limit<T>> Ring<T, L> {
    /// Puts the value into the ring if that goes at once, and answers its ticket.
    ///
    /// It is one round of a push: it reads the next ticket, looks whether its place is free, and claims it. It never
    /// waits, so it is for a caller that has something else to do where another push was faster (`Busy`): `push` begins
    /// again there. The test `a_ring_of_two` shows it.
    pub fn push_once(&self, pass: &mut Pass<T>, value: T) -> Result<u64, PushError<T>>
        requires ring { IsPassOf self.now pass.old }
        requires limit { L.admits self.now.limit value }
        ensures ring { IsPassOf self.now pass.new }
        ensures pushed { IfOk result (λ t. Pushed pass.old.known pass.new.known t value) }
        ensures refused { IfErr result (λ e. PushRefused pass.old.known pass.new.known value e) }
    {
        self.push_value(pass, value, &OpenSteps)
    }

    /// Puts the value that lies in the hand into the ring if that goes at once, and answers its ticket.
    ///
    /// It is `push_once` for a large value: it lies where it is until its place takes it, so it is moved once however
    /// many rounds are made. A refused push leaves it in the hand. The test `a_hand_is_emptied_once` shows it.
    pub fn push_from(&self, pass: &mut Pass<T>, hand: &mut Option<T>) -> Result<u64, PushError<()>>
        requires ring { IsPassOf self.now pass.old }
        requires there { IsSome hand.old }
        requires limit { IfSome hand.old (λ x. L.admits self.now.limit x) }
        ensures ring { IsPassOf self.now pass.new }
        ensures pushed { IfOk result (λ t. IfSome hand.old (Pushed pass.old.known pass.new.known t)) }
        ensures emptied { IfOk result (λ t. hand.new ≡ None) }
        ensures refused { IfErr result (λ e. PushRefused pass.old.known pass.new.known (tt {0}) e) }
        ensures left { IfErr result (λ e. hand.new ≡ hand.old) }
    {
        self.push_round(pass, hand, &OpenSteps)
    }

    /// Makes one round of a push of the value, at this gate.
    pub(crate) fn push_value<G: StepGate>(
        &self,
        pass: &mut Pass<T>,
        value: T,
        gate: &G,
    ) -> Result<u64, PushError<T>>
        requires ring { IsPassOf self.now pass.old }
        requires limit { L.admits self.now.limit value }
        ensures ring { IsPassOf self.now pass.new }
        ensures pushed { IfOk result (λ t. Pushed pass.old.known pass.new.known t value) }
        ensures refused { IfErr result (λ e. PushRefused pass.old.known pass.new.known value e) }
    {
        let mut hand = Some(value);
        match self.push_round(pass, &mut hand, gate) {
            Ok(ticket) => {
                let_go(hand);
                Ok(ticket)
            }
            Err(PushError::Full { value: (), next }) => Err(PushError::Full {
                value: hand.unwrap(),
                next,
            }),
            Err(PushError::Busy { value: (), seen }) => Err(PushError::Busy {
                value: hand.unwrap(),
                seen,
            }),
            Err(PushError::Spent { value: () }) => Err(PushError::Spent {
                value: hand.unwrap(),
            }),
        }
    }

    /// Makes one round of a push of the value that lies in the hand, at this gate.
    fn push_round<G: StepGate>(
        &self,
        pass: &mut Pass<T>,
        hand: &mut Option<T>,
        gate: &G,
    ) -> Result<u64, PushError<()>>
        requires ring { IsPassOf self.now pass.old }
        requires there { IsSome hand.old }
        requires limit { IfSome hand.old (λ x. L.admits self.now.limit x) }
        ensures ring { IsPassOf self.now pass.new }
        ensures pushed { IfOk result (λ t. IfSome hand.old (Pushed pass.old.known pass.new.known t)) }
        ensures emptied { IfOk result (λ t. hand.new ≡ None) }
        ensures refused { IfErr result (λ e. PushRefused pass.old.known pass.new.known (tt {0}) e) }
        ensures left { IfErr result (λ e. hand.new ≡ hand.old) }
    {
        self.board.push_round::<Brand, G>(pass, hand, gate)
    }
}
