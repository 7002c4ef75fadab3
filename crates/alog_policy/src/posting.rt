//! A post that never waits.
ghost use Rattle.std.specs.Prelude.{◌≡◌, [], ◌∷◌, None, Some, IsSome, IfSome, IfOk, IfErr, OnOk};
ghost use Rattle.alog_core.specs.Queue.{Claim, Write};
ghost use Rattle.alog_policy.specs.Outlet.{PostsNow, Leads, left_in, IsLeft, with_value};
ghost use Rattle.alog_policy.specs.Progress.{IsKept};
ghost use Rattle.alog_policy.specs.declared.progress.Side.TheVariants as side;

use crate::outlet::Outlet;
use crate::policy::{Outcome, Policy, Why};
use crate::progress::{Lost, Progress, Side};
use alog_ring::{PopError, PushError};

/// Brings the value into the queue under the policy, and answers how that went. It never waits, so `Block` is read as
/// `DiscardNew`, and it takes no memory.
///
/// It makes at most 64 rounds. A round is a push and, under `OverrunOldest` where that found the queue full, a pop of the
/// oldest item, which is lost. A discarded value is handed back. Losses are counted by the outlet: each item at its
/// take, a discarded post at its end. The test `posts_at_once` shows it.
#[inline]
pub fn post_now<O: Outlet>(outlet: &mut O, policy: Policy, value: O::Value) -> Outcome<O::Value>
    requires fit { O.is_fit outlet.old }
    requires admitted { O.admits outlet.old value }
    ensures post { PostsNow O.did policy (O.shows value) value outlet.old outlet.new result }
    ensures fit { O.is_fit outlet.new }
{
    let mut hand = Some(value);
    let outcome = post_at_once(outlet, policy, &mut hand);
    handed_back(outcome, hand)
}

/// Makes the rounds of a post that never waits, until one ends it. What is not posted is left in the hand.
#[inline]
pub(crate) fn post_at_once<O: Outlet>(
    outlet: &mut O,
    policy: Policy,
    hand: &mut Option<O::Value>,
) -> Outcome<()>
    requires fit { O.is_fit outlet.old }
    requires there { IsSome hand.old }
    requires admitted { IfSome hand.old (O.admits outlet.old) }
    ensures post { IfSome hand.old (λ v. PostsNow O.did policy (O.shows v) (tt {0}) outlet.old outlet.new result) }
    ensures left { hand.new ≡ left_in result hand.old }
    ensures fit { O.is_fit outlet.new }
{
    let mut progress = Progress::new(policy.without_waiting());
    loop {
        let next = match progress.side {
            Side::Push => match push(outlet, progress, hand) {
                Ok(ticket) => {
                    return Outcome::Posted {
                        ticket,
                        overran: progress.overran,
                    };
                }
                Err(next) => next,
            },
            Side::Pop => make_room(outlet, progress),
        };
        match next {
            Ok(further) => progress = further,
            Err(Lost { why, overran }) => {
                outlet.count_discarded();
                return Outcome::Discarded {
                    value: (),
                    why,
                    overran,
                };
            }
        }
    }
}

/// The outcome of a post, with what it left in the hand: a discarded value is handed back.
pub(crate) fn handed_back<V>(outcome: Outcome<()>, hand: Option<V>) -> Outcome<V>
    requires { IsLeft outcome hand }
    ensures { (v : V) → hand ≡ left_in outcome (Some v) → result ≡ with_value v outcome }
{
    match outcome {
        Outcome::Posted { ticket, overran } => {
            match hand {
                None => {}
                Some(_) => unreachable!(),
            }
            Outcome::Posted { ticket, overran }
        }
        Outcome::Discarded {
            value: (),
            why,
            overran,
        } => Outcome::Discarded {
            value: hand.unwrap(),
            why,
            overran,
        },
    }
}

/// Makes the push of a round. Where it is refused, answers what follows.
fn push<O: Outlet>(
    outlet: &mut O,
    progress: Progress,
    hand: &mut Option<O::Value>,
) -> Result<u64, Result<Progress, Lost>>
    requires fit { O.is_fit outlet.old }
    requires there { IsSome hand.old }
    requires admitted { IfSome hand.old (O.admits outlet.old) }
    requires side { progress.side ≡ side.Push }
    requires kept { IsKept progress }
    ensures pushed { IfOk result (λ t. IfSome hand.old (λ v. O.did outlet.old (Claim t (O.shows v) ∷ Write t ∷ []) 0 0 outlet.new)) }
    ensures emptied { IfOk result (λ t. hand.new ≡ None) }
    ensures fit { OnOk result (O.is_fit outlet.new) }
    ensures left { IfErr result (λ r. hand.new ≡ hand.old) }
    ensures refused { IfErr result (λ r. (x : O.Item) → Leads O.did O.is_fit x (tt {0}) progress outlet.old outlet.new r) }
{
    match outlet.push_from(hand) {
        Ok(ticket) => Ok(ticket),
        Err(PushError::Full { value: (), next: _ }) => Err(progress.after_full()),
        Err(PushError::Busy { value: (), seen: _ }) => Err(progress.again()),
        Err(PushError::Spent { value: () }) => Err(Err(progress.lost(Why::Spent))),
    }
}

/// Makes the pop of a round, which takes the oldest item out.
fn make_room<O: Outlet>(outlet: &mut O, progress: Progress) -> Result<Progress, Lost>
    requires fit { O.is_fit outlet.old }
    requires side { progress.side ≡ side.Pop }
    requires kept { IsKept progress }
    ensures { (x : O.Item) → Leads O.did O.is_fit x (tt {0}) progress outlet.old outlet.new result }
{
    match outlet.overrun_once() {
        Ok(_) => progress.after_take(),
        Err(PopError::Busy { seen: _ }) => progress.again(),
        Err(PopError::Empty { next: _ }) => Err(progress.lost(Why::Stalled)),
        Err(PopError::Idle { next: _ }) => Err(progress.lost(Why::Stalled)),
    }
}
