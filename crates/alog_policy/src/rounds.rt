//! One round of a push or of a pop, with all its steps at once.
ghost use Rattle.std.specs.Prelude.{◌≡◌, ◌<◌, [], ◌∷◌, true, IfOk, IfErr};
ghost use Rattle.alog_core.specs.Queue.{Claim, Write, Grab, Take};
ghost use Rattle.alog_core.specs.World.{round_of, is_idle};
ghost use Rattle.alog_policy.specs.Rounds.{Makes, PushRoundRefused, PopRoundRefused, IsOfPush, IsOfPop, push_answer, pop_answer};

use alog_core::{ACTORS, Said, World};
use alog_ring::{PopError, PushError};

/// Makes one round of a push by an actor that is in no call.
pub(crate) fn push_round<T: Drop>(
    world: &mut World<T>,
    actor: u32,
    item: T,
) -> Result<u64, PushError<T>>
    requires actor { actor < ACTORS }
    requires idle { is_idle (round_of world.old actor) ≡ true }
    ensures pushed { IfOk result (λ t. Makes actor world.old (Claim t item ∷ Write t ∷ []) world.new) }
    ensures refused { IfErr result (λ e. PushRoundRefused actor world.old item e world.new) }
{
    world.is_reached();
    let Ok(()) = world.begin_push(actor, item) else {
        unreachable!()
    };
    loop {
        let Ok(said) = world.step(actor) else {
            unreachable!()
        };
        if let Some(answer) = push_answer(said) {
            return answer;
        }
    }
}

/// Makes one round of a pop by an actor that is in no call.
pub(crate) fn pop_round<T: Drop>(world: &mut World<T>, actor: u32) -> Result<(u64, T), PopError>
    requires actor { actor < ACTORS }
    requires idle { is_idle (round_of world.old actor) ≡ true }
    ensures popped { IfOk result (λ r. Makes actor world.old (Grab r.0 ∷ Take r.0 r.1 ∷ []) world.new) }
    ensures refused { IfErr result (λ e. PopRoundRefused actor world.old e world.new) }
{
    world.is_reached();
    let Ok(()) = world.begin_pop(actor) else {
        unreachable!()
    };
    loop {
        let Ok(said) = world.step(actor) else {
            unreachable!()
        };
        if let Some(answer) = pop_answer(said) {
            return answer;
        }
    }
}

/// The answer of a push, where this ends its round.
fn push_answer<T: Drop>(said: Said<T>) -> Option<Result<u64, PushError<T>>>
    requires { IsOfPush said }
    ensures { result ≡ push_answer said }
{
    match said {
        Said::Nothing | Said::Claim(_) => None,
        Said::Write(ticket) => Some(Ok(ticket)),
        Said::Full(next, Some(value)) => Some(Err(PushError::Full { value, next })),
        Said::Busy(seen, Some(value)) => Some(Err(PushError::Busy { value, seen })),
        Said::Spent(Some(value)) => Some(Err(PushError::Spent { value })),
        Said::Full(_, None)
        | Said::Busy(_, None)
        | Said::Spent(None)
        | Said::Grab(_)
        | Said::Take(..)
        | Said::Front(_)
        | Said::Empty(_)
        | Said::Idle(_) => unreachable!(),
    }
}

/// The answer of a pop, where this ends its round.
fn pop_answer<T: Drop>(said: Said<T>) -> Option<Result<(u64, T), PopError>>
    requires { IsOfPop said }
    ensures { result ≡ pop_answer said }
{
    match said {
        Said::Nothing | Said::Grab(_) | Said::Front(_) => None,
        Said::Take(ticket, item) => Some(Ok((ticket, item))),
        Said::Empty(next) => Some(Err(PopError::Empty { next })),
        Said::Idle(next) => Some(Err(PopError::Idle { next })),
        Said::Busy(seen, _) => Some(Err(PopError::Busy { seen })),
        Said::Claim(_) | Said::Write(_) | Said::Full(..) | Said::Spent(_) => unreachable!(),
    }
}
