//! Pushes and pops that begin again while another thread is in the way.
ghost use Rattle.std.specs.Prelude.{◌≡◌, None, IsSome, IfSome, IfOk, IfErr};
ghost use Rattle.alog_ring.specs.Known.{IsPassOf};
ghost use Rattle.alog_ring.specs.Waits.{PushedAtLast, PushRefusedAtLast, PoppedAtLast, PopRefusedAtLast};

use crate::board::let_go;
use crate::gate::{OpenSteps, StepGate};
use crate::limit::Limit;
use crate::pass::Pass;
use crate::pop::PopError;
use crate::push::PushError;
use crate::ring::Ring;
use crossbeam_utils::Backoff;
use std::sync::Wait;

/// Steps of the backoff for each busy round. With one, many threads are mostly in each other's way.
const STEPS: u32 = 4;

/// Lets the thread that is in the way get on.
fn give_way(backoff: &Backoff) {
    for _ in 0..STEPS {
        backoff.spin();
    }
}

impl<T, L: Limit<T>> Ring<T, L> {
    /// Puts the value into the ring whatever other pushes do, and answers its ticket. It is what a thread calls that has
    /// nothing else to do.
    ///
    /// It makes rounds until one is not busy, and backs off between them. A full or spent ring refuses it as it refuses
    /// `push_once`. That it returns is not promised while other pushes are always faster. The test
    /// `two_threads_share_a_ring` shows it.
    pub fn push(&self, rt: &impl Wait, pass: &mut Pass<T>, value: T) -> Result<u64, PushError<T>>
        requires ring { IsPassOf self.now pass.old }
        requires limit { L.admits self.now.limit value }
        ensures ring { IsPassOf self.now pass.new }
        ensures pushed { IfOk result (λ t. PushedAtLast pass.old.known pass.new.known t value) }
        ensures refused { IfErr result (λ e. PushRefusedAtLast pass.old.known pass.new.known value e) }
    {
        self.push_gated(rt, pass, value, &OpenSteps)
    }

    /// A push whose steps are held by a gate: it is called before each of them. For tests of what other threads meet meanwhile.
    ///
    /// It is `push` otherwise. The test `a_held_push` shows it.
    pub fn push_gated<G: StepGate>(
        &self,
        rt: &impl Wait,
        pass: &mut Pass<T>,
        mut value: T,
        gate: &G,
    ) -> Result<u64, PushError<T>>
        requires ring { IsPassOf self.now pass.old }
        requires limit { L.admits self.now.limit value }
        ensures ring { IsPassOf self.now pass.new }
        ensures pushed { IfOk result (λ t. PushedAtLast pass.old.known pass.new.known t value) }
        ensures refused { IfErr result (λ e. PushRefusedAtLast pass.old.known pass.new.known value e) }
    {
        let backoff = Backoff::new();
        for _ in rt.forever() {
            match self.push_value(pass, value, gate) {
                Err(
                    PushError::Busy {
                        value: back,
                        seen: _,
                    },
                ) => value = back,
                answer => return answer,
            }
            give_way(&backoff);
        }
        unreachable!()
    }

    /// Takes the front value out of the ring whatever other pops do, and answers it with its ticket. It is what a thread
    /// calls that has nothing else to do.
    ///
    /// It makes rounds until one is not busy, and backs off between them. A ring without a written value refuses it as it
    /// refuses `pop_once`: where that is `Empty` a value is on its way, or has come since, so another look soon finds it, and
    /// where it is `Idle` none is. That it returns is not promised while other pops are always faster. The test
    /// `two_threads_share_a_ring` shows it.
    pub fn pop(&self, rt: &impl Wait, pass: &mut Pass<T>) -> Result<(u64, T), PopError>
        requires { IsPassOf self.now pass.old }
        ensures ring { IsPassOf self.now pass.new }
        ensures popped { IfOk result (λ r. PoppedAtLast pass.old.known pass.new.known r.0 r.1) }
        ensures limit { IfOk result (λ r. L.admits self.now.limit r.1) }
        ensures refused { IfErr result (λ e. PopRefusedAtLast pass.old.known pass.new.known e) }
    {
        self.pop_gated(rt, pass, &OpenSteps)
    }

    /// A pop whose steps are held by a gate: it is called before each of them. For tests of what other threads meet meanwhile.
    ///
    /// It is `pop` otherwise. The test `a_held_pop` shows it.
    pub fn pop_gated<G: StepGate>(
        &self,
        rt: &impl Wait,
        pass: &mut Pass<T>,
        gate: &G,
    ) -> Result<(u64, T), PopError>
        requires { IsPassOf self.now pass.old }
        ensures ring { IsPassOf self.now pass.new }
        ensures popped { IfOk result (λ r. PoppedAtLast pass.old.known pass.new.known r.0 r.1) }
        ensures limit { IfOk result (λ r. L.admits self.now.limit r.1) }
        ensures refused { IfErr result (λ e. PopRefusedAtLast pass.old.known pass.new.known e) }
    {
        let mut hand = None;
        match self.pop_into_gated(rt, pass, &mut hand, gate) {
            Ok(ticket) => Ok((ticket, hand.unwrap())),
            Err(error) => {
                let_go(hand);
                Err(error)
            }
        }
    }

    /// Takes the front value out of the ring into the empty hand whatever other pops do, and answers its ticket.
    ///
    /// It is `pop` for a large value, which is moved once. A refused pop leaves the hand empty. That it returns is not
    /// promised while other pops are always faster. The test `a_hand_is_filled` shows it.
    pub fn pop_into(
        &self,
        rt: &impl Wait,
        pass: &mut Pass<T>,
        hand: &mut Option<T>,
    ) -> Result<u64, PopError>
        requires ring { IsPassOf self.now pass.old }
        requires empty { hand.old ≡ None }
        ensures ring { IsPassOf self.now pass.new }
        ensures some { IfOk result (λ t. IsSome hand.new) }
        ensures popped { IfOk result (λ t. IfSome hand.new (PoppedAtLast pass.old.known pass.new.known t)) }
        ensures limit { IfSome hand.new (λ x. L.admits self.now.limit x) }
        ensures none { IfErr result (λ e. hand.new ≡ None) }
        ensures refused { IfErr result (λ e. PopRefusedAtLast pass.old.known pass.new.known e) }
    {
        self.pop_into_gated(rt, pass, hand, &OpenSteps)
    }

    /// Takes the front value out of the ring into the empty hand, at this gate.
    fn pop_into_gated<G: StepGate>(
        &self,
        rt: &impl Wait,
        pass: &mut Pass<T>,
        hand: &mut Option<T>,
        gate: &G,
    ) -> Result<u64, PopError>
        requires ring { IsPassOf self.now pass.old }
        requires empty { hand.old ≡ None }
        ensures ring { IsPassOf self.now pass.new }
        ensures some { IfOk result (λ t. IsSome hand.new) }
        ensures popped { IfOk result (λ t. IfSome hand.new (PoppedAtLast pass.old.known pass.new.known t)) }
        ensures limit { IfSome hand.new (λ x. L.admits self.now.limit x) }
        ensures none { IfErr result (λ e. hand.new ≡ None) }
        ensures refused { IfErr result (λ e. PopRefusedAtLast pass.old.known pass.new.known e) }
    {
        let backoff = Backoff::new();
        for _ in rt.forever() {
            match self.pop_round(pass, hand, gate) {
                Err(PopError::Busy { seen: _ }) => {}
                answer => return answer,
            }
            give_way(&backoff);
        }
        unreachable!()
    }
}
