//! One round of a push and of a pop, in a ring of any kind of place.
ghost use Rattle.std.specs.Prelude.{◌≡◌, ◌≤◌, IfOk, IfErr};
ghost use Rattle.alog_ring.specs.Board.{SwapsIn, SwapsOut};
ghost use Rattle.alog_ring.specs.Refused.{PushRefusedAs, PopRefusedAs};

use crate::board::Board;
use crate::gate::StepGate;
use crate::kind::Kind;
use crate::limit::Limit;
use crate::pass::Pass;
use crate::plays::Picks;
use crate::pop::PopError;
use crate::push::PushError;
use alog_core::TICKET_END;

impl<S, T, N, K: Kind<S, T, N>, L: Limit<S>> Board<S, T, N, K, L> {
    /// Makes one round of a push of what lies in the hand, at this gate: the hand has what lay in the ticket's place then. Where
    /// it is refused the hand is as it was.
    pub(crate) fn push_round<P: Picks<S>, G: StepGate>(
        &self,
        pass: &mut Pass<T, S, N>,
        hand: &mut S,
        gate: &G,
    ) -> Result<u64, PushError<()>>
        requires firsts { P.firsts ≡ self.now.table.shared.key.firsts.value.items }
        requires limit { (y : S) → L.admits self.now.table.shared.key.limit y → P.admits y }
        requires table { pass.old.table ≡ self.now.table.shared.table_id }
        requires places { 1 ≤ pass.old.known.places }
        requires there { (x : T) × K.kind.has hand.old x }
        requires admitted { L.admits self.now.table.shared.key.limit hand.old }
        ensures table { pass.new.table ≡ pass.old.table }
        ensures pushed { IfOk result (λ t. SwapsIn K.kind P.firsts pass.old.known pass.new.known t hand.old hand.new) }
        ensures admitted { IfOk result (λ t. P.admits hand.new) }
        ensures refused { IfErr result (λ e. PushRefusedAs K.kind.blank pass.old.known pass.new.known (tt {0}) e) }
        ensures left { IfErr result (λ e. hand.new ≡ hand.old) }
    {
        let seat = &mut pass.seat;
        gate.before(1);
        let next = self.see_next(seat);
        if next == TICKET_END {
            return Err(PushError::Spent { value: () });
        }
        gate.before(2);
        let sequence = self.see_free(seat, next);
        if sequence < next {
            return Err(PushError::Full { value: (), next });
        }
        if sequence > next || !self.claim_and_swap::<P, G>(seat, next, hand, gate) {
            return Err(PushError::Busy {
                value: (),
                seen: next,
            });
        }
        Ok(next)
    }

    /// Makes one round of a pop that brings what lies in the hand, at this gate: the hand has the front ticket's place then.
    /// Where it is refused the hand is as it was.
    pub(crate) fn pop_round<P: Picks<S>, G: StepGate>(
        &self,
        pass: &mut Pass<T, S, N>,
        hand: &mut S,
        gate: &G,
    ) -> Result<u64, PopError>
        requires limit { (y : S) → L.admits self.now.table.shared.key.limit y → P.admits y }
        requires table { pass.old.table ≡ self.now.table.shared.table_id }
        requires brought { (note : N) × K.kind.brings note hand.old }
        requires admitted { L.admits self.now.table.shared.key.limit hand.old }
        ensures table { pass.new.table ≡ pass.old.table }
        ensures popped { IfOk result (λ t. SwapsOut K.kind pass.old.known pass.new.known t hand.old hand.new) }
        ensures admitted { IfOk result (λ t. P.admits hand.new) }
        ensures refused { IfErr result (λ e. PopRefusedAs K.kind.blank pass.old.known pass.new.known e) }
        ensures left { IfErr result (λ e. hand.new ≡ hand.old) }
    {
        let seat = &mut pass.seat;
        gate.before(1);
        let next = self.see_front(seat);
        gate.before(2);
        let sequence = self.see_full(seat, next);
        if sequence < next + 1 {
            gate.before(5);
            if self.see_end(seat, next) == next {
                return Err(PopError::Idle { next });
            }
            return Err(PopError::Empty { next });
        }
        if sequence > next + 1 || !self.grab_and_swap::<P, G>(seat, next, hand, gate) {
            return Err(PopError::Busy { seen: next });
        }
        Ok(next)
    }
}
