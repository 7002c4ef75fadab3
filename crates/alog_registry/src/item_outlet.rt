//! Outlets that carry items: how a post's value is made, apart from how it is posted.
ghost use Rattle.std.specs.Prelude.{◌≡◌};
ghost use Rattle.alog_registry.specs.ItemOutlet.{without_value};

use crate::given::{MessageRef, message};
use alog_msg::{Item, Message, MessageError};
use alog_policy::{DeskOutlet, Outcome, Policy, Port, post_from, post_now};
use alog_ring::Limit;
use std::alloc::Global;
use std::sync::Wait;
use std::time::Clock;

/// An outlet whose cells show items. A post is made in two steps: its value is made, and then it is posted.
///
/// `did` tells of two states of the outlet which events its actor made between them, and how many losses were counted; `shows`
/// is the item that a cell of the queue shows of a value that was made, which may lie in the outlet. `is_ready` is what the making
/// of a value asks of the outlet, `admits` what it asks of a message, and `is_fit` what a post asks of outlet and value. Nothing
/// here waits. Only `text` may take memory, and it answers want of it only where `wants_memory` holds.
pub trait ItemOutlet {
    ghost use Rattle.std.specs.Prelude.{◌≡◌, ◌↔◌, ◌≤◌, ◌<◌, ◌+◌, ℕ, List, [], ◌++◌, length, IfOk, OnOk, OnErr, IsErrOf};
    ghost use Rattle.alog_core.specs.Queue.{Event};
    ghost use Rattle.alog_msg.specs.declared.limits.TheConstants.{TEXT_LIMIT_MIN, TEXT_LIMIT_MAX};
    ghost use Rattle.alog_msg.specs.declared.item.Item.{Item};
    ghost use Rattle.alog_msg.specs.declared.item.Item.TheVariants.{Text, Flush};
    ghost use Rattle.alog_registry.specs.ItemOutlet.{PostsItemNow};
    ghost use Rattle.alog_registry.specs.Given.{message_of, IsWithin, IsTooLongField};
    ghost use Rattle.alog_registry.specs.Limit.{AdmitsShort};
    ghost use Rattle.alog_msg.specs.declared.message.Message.{Message};

    /// What a post brings.
    type Value: Drop;

    ghost shows: { Self → Self.Value → Item };

    ghost is_ready: { Self → Type 0 };

    ghost admits: { Self → Message → Type 0 };

    ghost is_fit: { Self → Self.Value → Type 0 };

    ghost did: { Self → List (Event Item) → ℕ → ℕ → Self → Type 0 };

    ghost wants_memory: { Type 0 };

    /// Makes the value of a text of these fields. A text limit is 64 to 8,192 bytes. A refusal, which is one of
    /// `Message::new`, leaves the outlet as it was.
    fn text(
        &mut self,
        alloc: Global,
        text_limit: usize,
        given: MessageRef<'_>,
    ) -> Result<Self::Value, MessageError>
        requires ready { is_ready self.old }
        requires limit { (TEXT_LIMIT_MIN ≤ text_limit) × (text_limit ≤ TEXT_LIMIT_MAX) }
        requires admitted { AdmitsShort admits text_limit self.old }
        ensures made { IfOk result (λ v. shows self.new v ≡ Text (message_of given.entry)) }
        ensures fit { IfOk result (λ v. is_fit self.new v × did self.old [] 0 0 self.new) }
        ensures text_too_long { IsErrOf result MessageError.TextTooLong ↔ (text_limit < length given.entry.text.now) }
        ensures field_too_long { IsErrOf result MessageError.FieldTooLong
            ↔ IsTooLongField text_limit given.entry.text.now given.entry.source }
        ensures out_of_memory { IsErrOf result MessageError.OutOfMemory
            → IsWithin text_limit given.entry.text.now given.entry.source }
        ensures memory { IsErrOf result MessageError.OutOfMemory → wants_memory }
        ensures err { OnErr result (self.new ≡ self.old) };

    /// Makes the value of a text that is this message.
    fn message(&mut self, message: Message) -> Self::Value
        requires ready { is_ready self.old }
        requires admitted { admits self.old message }
        ensures made { shows self.new result ≡ Text message }
        ensures fit { is_fit self.new result × did self.old [] 0 0 self.new };

    /// Makes the value of a flush of the logger of this number.
    fn flush(&mut self, number: u32) -> Self::Value
        requires { is_ready self.old }
        ensures made { shows self.new result ≡ Flush number }
        ensures fit { is_fit self.new result × did self.old [] 0 0 self.new };

    /// Posts the value, as `alog_policy::post_now` or `post_hand_now` does. Nothing is handed back of a discarded one.
    fn post_now(&mut self, policy: Policy, value: Self::Value) -> Outcome<()>
        requires { is_fit self.old value }
        ensures post { PostsItemNow did policy (shows self.old value) self.old self.new result }
        ensures ready { is_ready self.new };

    // What was done first and what was done then are one.
    ghost together: { (a b c : Self) (es fs : List (Event Item)) (k l m n : ℕ) → did a es k l b → did b fs m n c
        → did a (es ++ fs) (k + m) (l + n) c };

    // What is admitted stays so.
    ghost still: { (a b : Self) (x : Message) (es : List (Event Item)) (k l : ℕ) → did a es k l b → admits a x → admits b x };
}

/// An outlet that carries items, and on which a post may wait for room.
pub trait WaitingItemOutlet: ItemOutlet {
    ghost use Rattle.std.specs.Prelude.{◌≡◌, IsSome, IfSome};
    ghost use Rattle.alog_policy.specs.Outlet.{IsPostedOrSpent, left_in};
    ghost use Rattle.alog_policy.specs.declared.policy.Policy.TheVariants as under;
    ghost use Rattle.alog_registry.specs.ItemOutlet.{PostsItem};

    /// Posts the value that lies in the hand, as `alog_policy::post_from` or `post_hand` does: under `Block` it waits until there is
    /// room. A discarded value is left in the hand. That it returns is not promised.
    fn post_waiting(
        &mut self,
        rt: &(impl Wait + Clock),
        policy: Policy,
        hand: &mut Option<Self::Value>,
    ) -> Outcome<()>
        requires there { IsSome hand.old }
        requires fit { IfSome hand.old (λ v. Self.is_fit self.old v) }
        ensures post { IfSome hand.old (λ v. PostsItem Self.did policy (Self.shows self.old v) self.old self.new result) }
        ensures left { hand.new ≡ left_in result hand.old }
        ensures blocks { policy ≡ under.Block → IsPostedOrSpent result }
        ensures ready { Self.is_ready self.new };
}

/// An actor of a desk of items.
impl ItemOutlet for DeskOutlet<'_, Item> {
    ghost use Rattle.std.specs.Prelude.{◌≡◌};
    ghost use Rattle.alog_policy.specs.DeskOutlet.{IsFree, DeskDid};
    ghost use Rattle.alog_policy.specs.Together.{did_together};
    ghost use Rattle.std.proofs.Common.{subst, ◌∙◌};

    type Value = Item;

    ghost shows = { λ o x. x };

    ghost is_ready = { λ o. IsFree o.desk.now o.actor };

    ghost admits = { λ o m. Unit {0} };

    ghost is_fit = { λ o v. IsFree o.desk.now o.actor };

    ghost did = { λ o es k l p. (p.actor ≡ o.actor) × (p.desk.ghost_name ≡ o.desk.ghost_name)
        × DeskDid o.actor o.desk.now es k l p.desk.now };

    ghost wants_memory = { Unit {0} };

    fn text(
        &mut self,
        alloc: Global,
        text_limit: usize,
        given: MessageRef<'_>,
    ) -> Result<Item, MessageError> {
        Ok(Item::Text(message(alloc, text_limit, given)?))
    }

    fn message(&mut self, message: Message) -> Item {
        Item::Text(message)
    }

    fn flush(&mut self, number: u32) -> Item {
        Item::Flush(number)
    }

    fn post_now(&mut self, policy: Policy, value: Item) -> Outcome<()> {
        dropped(post_now(self, policy, value))
    }

    ghost together = { λ a b c es fs k l m n first then. (
      then.0 ∙ first.0,
      then.1 ∙ first.1,
      did_together a.actor a.desk.now b.desk.now c.desk.now es fs k l m n first.2
          (subst (λ x. DeskDid x b.desk.now fs m n c.desk.now) first.0 then.2),
    ) };

    ghost still = { λ a b x es k l done is. tt };
}

/// A port of a running ring of items.
impl<L: Limit<Item>> ItemOutlet for Port<'_, Item, L> {
    ghost use Rattle.alog_policy.specs.Port.{IsFit, PortDid};
    ghost use Rattle.std.specs.Prelude.{ℕ};
    ghost use Rattle.std.proofs.Common.{subst, sym};
    ghost use Rattle.alog_msg.specs.declared.item.Item.TheVariants.{Text, Flush};
    ghost use Rattle.alog_policy.specs.PortTogether.{port_together};

    type Value = Item;

    ghost shows = { λ o x. x };

    ghost is_ready = { λ p. IsFit p × ((n : ℕ) → L.admits p.ring.now.limit (Flush n)) };

    ghost admits = { λ p m. L.admits p.ring.now.limit (Text m) };

    ghost is_fit = { λ p x. IsFit p × ((n : ℕ) → L.admits p.ring.now.limit (Flush n)) × L.admits p.ring.now.limit x };

    ghost did = { PortDid };

    ghost wants_memory = { Unit {0} };

    fn text(
        &mut self,
        alloc: Global,
        text_limit: usize,
        given: MessageRef<'_>,
    ) -> Result<Item, MessageError> {
        Ok(Item::Text(message(alloc, text_limit, given)?))
    }

    fn message(&mut self, message: Message) -> Item {
        Item::Text(message)
    }

    fn flush(&mut self, number: u32) -> Item {
        Item::Flush(number)
    }

    fn post_now(&mut self, policy: Policy, value: Item) -> Outcome<()> {
        dropped(post_now(self, policy, value))
    }

    ghost together = { port_together };

    ghost still = { λ a b x es k l done is. subst (λ r. L.admits r.now.limit (Text x)) (sym done.ring) is };
}

impl<L: Limit<Item>> WaitingItemOutlet for Port<'_, Item, L> {
    fn post_waiting(
        &mut self,
        rt: &(impl Wait + Clock),
        policy: Policy,
        hand: &mut Option<Item>,
    ) -> Outcome<()> {
        post_from(rt, self, policy, hand)
    }
}

/// The outcome, whose item is dropped.
fn dropped(outcome: Outcome<Item>) -> Outcome<()>
    ensures { result ≡ without_value outcome }
{
    match outcome {
        Outcome::Posted { ticket, overran } => Outcome::Posted { ticket, overran },
        Outcome::Discarded {
            value: _,
            why,
            overran,
        } => Outcome::Discarded {
            value: (),
            why,
            overran,
        },
    }
}
