//! A post that may wait.
ghost use Rattle.std.specs.Prelude.{◌≡◌, IsSome, IfSome};
ghost use Rattle.alog_policy.specs.Outlet.{Posts, IsPostedOrSpent, left_in};
ghost use Rattle.alog_policy.specs.declared.policy.Policy.TheVariants as under;

use crate::outlet::{Outlet, RoomyOutlet};
use crate::policy::{Outcome, Policy, Why};
use crate::posting::{handed_back, post_at_once};
use crate::room_wait::{Pace, RoomWait};
use alog_ring::PushError;
use std::sync::Wait;
use std::time::Clock;

/// Brings the value into the queue under the policy, and answers how that went. Under `Block` it waits until there is room,
/// so that it is discarded only where no ticket is left; under the other policies it is `post_now`. It takes no memory.
///
/// That it returns under `Block` is not promised while nobody pops, or while other pushes are always faster. A discarded
/// value is handed back, and losses are counted as by `post_now`. The test `a_lone_port_posts` shows it.
pub fn post_wait<O: RoomyOutlet>(
    rt: &(impl Wait + Clock),
    outlet: &mut O,
    policy: Policy,
    value: O::Value,
) -> Outcome<O::Value>
    requires fit { O.is_fit outlet.old }
    requires admitted { O.admits outlet.old value }
    ensures post { Posts O.did policy (O.shows value) value outlet.old outlet.new result }
    ensures fit { O.is_fit outlet.new }
    ensures blocks { policy ≡ under.Block → IsPostedOrSpent result }
{
    let mut hand = Some(value);
    let outcome = post_from(rt, outlet, policy, &mut hand);
    handed_back(outcome, hand)
}

/// Brings the value that lies in the hand into the queue under the policy, and answers how that went.
///
/// It is `post_wait` for a large value: it lies where it is until its place in the queue takes it, however often the post
/// finds no room. A discarded value is left in the hand. The test `a_hand_keeps_what_is_discarded` shows it.
pub fn post_from<O: RoomyOutlet>(
    rt: &(impl Wait + Clock),
    outlet: &mut O,
    policy: Policy,
    hand: &mut Option<O::Value>,
) -> Outcome<()>
    requires fit { O.is_fit outlet.old }
    requires there { IsSome hand.old }
    requires admitted { IfSome hand.old (O.admits outlet.old) }
    ensures post { IfSome hand.old (λ v. Posts O.did policy (O.shows v) (tt {0}) outlet.old outlet.new result) }
    ensures left { hand.new ≡ left_in result hand.old }
    ensures fit { O.is_fit outlet.new }
    ensures blocks { policy ≡ under.Block → IsPostedOrSpent result }
{
    match policy {
        Policy::Block => {
            let pace = Pace::new(outlet.places());
            post_blocking(rt, outlet, pace, hand)
        }
        Policy::OverrunOldest | Policy::DiscardNew => post_at_once(outlet, policy, hand),
    }
}

/// Makes the rounds of a post that blocks, until one ends it.
fn post_blocking<O: Outlet>(
    rt: &(impl Wait + Clock),
    outlet: &mut O,
    mut pace: Pace,
    hand: &mut Option<O::Value>,
) -> Outcome<()>
    requires fit { O.is_fit outlet.old }
    requires there { IsSome hand.old }
    requires admitted { IfSome hand.old (O.admits outlet.old) }
    ensures post { IfSome hand.old (λ v. Posts O.did under.Block (O.shows v) (tt {0}) outlet.old outlet.new result) }
    ensures left { hand.new ≡ left_in result hand.old }
    ensures fit { O.is_fit outlet.new }
    ensures blocks { IsPostedOrSpent result }
{
    let mut room = RoomWait::new();
    for _ in rt.forever() {
        match outlet.push_from(hand) {
            Ok(ticket) => return Outcome::Posted { ticket, overran: 0 },
            Err(PushError::Full { value: (), next }) => room.wait(rt, &mut pace, next),
            Err(PushError::Busy { value: (), seen: _ }) => room.give_way(rt, &pace),
            Err(PushError::Spent { value: () }) => {
                outlet.count_discarded();
                return Outcome::Discarded {
                    value: (),
                    why: Why::Spent,
                    overran: 0,
                };
            }
        }
    }
    unreachable!()
}
