//! Pops.
ghost use Rattle.std.specs.Prelude.{◌≡◌, None, IsSome, IfSome, IfOk, IfErr};
ghost use Rattle.alog_ring.specs.Known.{IsPassOf};
ghost use Rattle.alog_ring.specs.Calls.{Popped};
ghost use Rattle.alog_ring.specs.Refused.{PopRefused};

use crate::board::let_go;
use crate::gate::{OpenSteps, StepGate};
use crate::limit::Limit;
use crate::pass::Pass;
use crate::ring::Ring;
use std::marker::Brand;
use thiserror::Error;

/// Why a pop did not go through. The test `the_last_ticket_of_all` shows it.
#[derive(Clone, Copy, Debug, PartialEq, Eq, Error)]
pub enum PopError {
    /// The front ticket was not written, and it was claimed by the time that this pop looked at the end: its value is on
    /// its way, or has come since.
    #[error("empty at {next}")]
    Empty { next: u64 },
    /// The front ticket was not written, and nobody had claimed it when this pop looked at the end: no value was there, and
    /// none on its way. From 2^62 on none will come.
    #[error("idle at {next}")]
    Idle { next: u64 },
    /// Another pop grabbed the ticket that this one read.
    #[error("busy at {seen}")]
    Busy { seen: u64 },
}

impl<T, L: Limit<T>> Ring<T, L> {
    /// Takes the front value out of the ring if that goes at once, and answers it with its ticket.
    ///
    /// It is one round of a pop: it reads the front ticket, looks whether it is written, and grabs it. Where it is not
    /// written, it looks whether it is claimed (`Empty`) or not (`Idle`), and ends. It never waits, so it is for a caller
    /// that has something else to do where another pop was faster (`Busy`): `pop` begins again there. The test
    /// `a_ring_of_two` shows it.
    pub fn pop_once(&self, pass: &mut Pass<T>) -> Result<(u64, T), PopError>
        requires { IsPassOf self.now pass.old }
        ensures ring { IsPassOf self.now pass.new }
        ensures popped { IfOk result (λ r. Popped pass.old.known pass.new.known r.0 r.1) }
        ensures limit { IfOk result (λ r. L.admits self.now.limit r.1) }
        ensures refused { IfErr result (λ e. PopRefused pass.old.known pass.new.known e) }
    {
        let mut hand = None;
        match self.pop_once_into(pass, &mut hand) {
            Ok(ticket) => Ok((ticket, hand.unwrap())),
            Err(error) => {
                let_go(hand);
                Err(error)
            }
        }
    }

    /// Takes the front value out of the ring into the empty hand if that goes at once, and answers its ticket.
    ///
    /// It is `pop_once` for a large value, which is moved once. A refused pop leaves the hand empty. The test
    /// `a_hand_is_filled` shows it.
    pub fn pop_once_into(&self, pass: &mut Pass<T>, hand: &mut Option<T>) -> Result<u64, PopError>
        requires ring { IsPassOf self.now pass.old }
        requires empty { hand.old ≡ None }
        ensures ring { IsPassOf self.now pass.new }
        ensures some { IfOk result (λ t. IsSome hand.new) }
        ensures popped { IfOk result (λ t. IfSome hand.new (Popped pass.old.known pass.new.known t)) }
        ensures limit { IfSome hand.new (λ x. L.admits self.now.limit x) }
        ensures none { IfErr result (λ e. hand.new ≡ None) }
        ensures refused { IfErr result (λ e. PopRefused pass.old.known pass.new.known e) }
    {
        self.pop_round(pass, hand, &OpenSteps)
    }

    /// Makes one round of a pop into the empty hand, at this gate.
    pub(crate) fn pop_round<G: StepGate>(
        &self,
        pass: &mut Pass<T>,
        hand: &mut Option<T>,
        gate: &G,
    ) -> Result<u64, PopError>
        requires ring { IsPassOf self.now pass.old }
        requires empty { hand.old ≡ None }
        ensures ring { IsPassOf self.now pass.new }
        ensures some { IfOk result (λ t. IsSome hand.new) }
        ensures popped { IfOk result (λ t. IfSome hand.new (Popped pass.old.known pass.new.known t)) }
        ensures limit { IfSome hand.new (λ x. L.admits self.now.limit x) }
        ensures none { IfErr result (λ e. hand.new ≡ None) }
        ensures refused { IfErr result (λ e. PopRefused pass.old.known pass.new.known e) }
    {
        self.board.pop_round::<Brand, G>(pass, hand, gate)
    }
}
