//! A post of the block that lies in a port's hand.
ghost use Rattle.std.specs.Prelude.{◌≡◌, [], ◌∷◌, Some, MatchOption, IfSome, IfOk, IfErr, OnOk};
ghost use Rattle.alog_core.specs.Queue.{Claim, Write};
ghost use Rattle.alog_policy.specs.Outlet.{Posts, PostsNow, PushRefused, IsPostedOrSpent};
ghost use Rattle.alog_policy.specs.SwapPort.{HandLeft, IsSwapFit, IsThere, SwapDid, SwapPortDid};
ghost use Rattle.alog_policy.specs.declared.policy.Policy.TheVariants as under;

use crate::outlet::Outlet;
use crate::policy::{Outcome, Policy, Why};
use crate::posting::post_at_once;
use crate::room_wait::RoomWait;
use crate::swap_port::SwapPort;
use alog_ring::{Limit, PushError, Shows};
use std::sync::Wait;
use std::time::Clock;

/// Brings the block that lies in the port's hand into the queue under the policy, and answers how that went.
///
/// It is `post_from` for a block that is written where it lies: under `Block` it goes from the hand to its place, and what lay
/// there comes into the hand, with no move between. A discarded block is left in the hand. That it returns under `Block` is not
/// promised. The test `a_port_posts_its_hand` shows it.
pub fn post_hand<B: Drop, T, W: Shows<B, T>, L: Limit<B>>(
    rt: &(impl Wait + Clock),
    port: &mut SwapPort<'_, B, T, W, L>,
    policy: Policy,
) -> Outcome<()>
    requires fit { IsSwapFit L.admits port.old }
    requires there { IsThere (L.admits port.old.ring.now.ring.limit) port.old.hand.now }
    ensures post { IfSome port.old.hand.now (λ b. Posts SwapDid policy (W.shows b) (tt {0}) port.old port.new result) }
    ensures hand { HandLeft (L.admits port.old.ring.now.ring.limit) port.old.hand.now result port.new.hand.now }
    ensures fit { IsSwapFit L.admits port.new }
    ensures blocks { policy ≡ under.Block → IsPostedOrSpent result }
{
    match policy {
        Policy::Block => post_hand_blocking(rt, port),
        Policy::OverrunOldest | Policy::DiscardNew => post_hand_now(port, policy),
    }
}

/// Brings the block that lies in the port's hand into the queue under the policy, without waiting, and answers how that went. It is
/// `post_now` for it: `Block` is read as `DiscardNew`, and a discarded block is left in the hand.
///
/// The test `a_port_posts_its_hand` shows it.
pub fn post_hand_now<B: Drop, T, W: Shows<B, T>, L: Limit<B>>(
    port: &mut SwapPort<'_, B, T, W, L>,
    policy: Policy,
) -> Outcome<()>
    requires fit { IsSwapFit L.admits port.old }
    requires there { IsThere (L.admits port.old.ring.now.ring.limit) port.old.hand.now }
    ensures post { IfSome port.old.hand.now (λ b. PostsNow SwapDid policy (W.shows b) (tt {0}) port.old port.new result) }
    ensures hand { HandLeft (L.admits port.old.ring.now.ring.limit) port.old.hand.now result port.new.hand.now }
    ensures fit { IsSwapFit L.admits port.new }
{
    let mut hand = port.hand.take();
    let outcome = post_at_once(port, policy, &mut hand);
    put_back(port.hand, hand);
    outcome
}

/// Puts a block back that was not posted.
fn put_back<B: Drop>(home: &mut Option<B>, kept: Option<B>)
    ensures { MatchOption kept (home.new ≡ home.old) (λ b. home.new ≡ Some b) }
{
    if let Some(block) = kept {
        *home = Some(block);
    }
}

/// Makes the rounds of a post of the hand that blocks, until one ends it.
fn post_hand_blocking<B: Drop, T, W: Shows<B, T>, L: Limit<B>>(
    rt: &(impl Wait + Clock),
    port: &mut SwapPort<'_, B, T, W, L>,
) -> Outcome<()>
    requires fit { IsSwapFit L.admits port.old }
    requires there { IsThere (L.admits port.old.ring.now.ring.limit) port.old.hand.now }
    ensures post { IfSome port.old.hand.now (λ b. Posts (SwapPortDid L.admits) under.Block (W.shows b) (tt {0}) port.old port.new result) }
    ensures fit { IsSwapFit L.admits port.new }
    ensures blocks { IsPostedOrSpent result }
{
    let mut room = RoomWait::new();
    for _ in rt.forever() {
        match push_hand(port) {
            Ok(ticket) => return Outcome::Posted { ticket, overran: 0 },
            Err(PushError::Full { value: (), next }) => room.wait(rt, port.pace, next),
            Err(PushError::Busy { value: (), seen: _ }) => room.give_way(rt, port.pace),
            Err(PushError::Spent { value: () }) => {
                port.count_discarded();
                return Outcome::Discarded {
                    value: (),
                    why: Why::Spent,
                    overran: 0,
                };
            }
        }
    }
    unreachable!()
}

/// Makes one round of a push of the block in the hand: what lay in its place is there then. A refusal leaves it there.
fn push_hand<B: Drop, T, W: Shows<B, T>, L: Limit<B>>(
    port: &mut SwapPort<'_, B, T, W, L>,
) -> Result<u64, PushError<()>>
    requires fit { IsSwapFit L.admits port.old }
    requires there { IsThere (L.admits port.old.ring.now.ring.limit) port.old.hand.now }
    ensures pushed { IfOk result (λ t. IfSome port.old.hand.now (λ b.
        SwapPortDid L.admits port.old (Claim t (W.shows b) ∷ Write t ∷ []) 0 0 port.new)) }
    ensures refused { IfErr result (λ e. PushRefused (SwapPortDid L.admits) (IsSwapFit L.admits) port.old (tt {0}) e port.new) }
    ensures left { IfErr result (λ e. port.new.hand.now ≡ port.old.hand.now) }
    ensures fit { OnOk result (IsSwapFit L.admits port.new) }
{
    let Some(block) = port.hand.as_mut() else {
        unreachable!()
    };
    port.ring.push_swap_from(port.pass, block)
}
