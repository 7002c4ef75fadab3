//! A port on a ring of blocks: its messages are written into the block in its hand, so that a post takes no memory.
ghost use Rattle.std.specs.Prelude.{◌≡◌, ◌≤◌, length};
ghost use Rattle.alog_policy.specs.Outlet.{left_in};

use crate::given::MessageRef;
use crate::item_outlet::{ItemOutlet, WaitingItemOutlet};
use crate::limit::TextLimit;
use alog_msg::{Block, Item, Message, MessageError, Source, has_long_field};
use alog_policy::{Outcome, Policy, SwapPort, post_hand, post_hand_now};
use alog_ring::Shows;
use std::alloc::Global;
use std::sync::Wait;
use std::time::Clock;

/// A block shows its item.
#[derive(Drop)]
pub struct Contents;

impl Shows<Block, Item> for Contents {
    ghost shows = { λ b. b.item };
}

/// A port on a ring of blocks. The test `logs_on_blocks` shows it.
pub type BlockPort<'a> = SwapPort<'a, Block, Item, Contents, TextLimit>;

/// What is posted is the block in the port's hand.
#[derive(Clone, Copy, Debug, PartialEq, Eq, Drop)]
pub struct InHand;

impl ItemOutlet for SwapPort<'_, Block, Item, Contents, TextLimit> {
    ghost use Rattle.alog_policy.specs.SwapPort.{SwapDid};
    ghost use Rattle.alog_policy.specs.SwapTogether.{did_both};
    ghost use Rattle.alog_registry.specs.BlockPort.{item_in, IsReadyPort};
    ghost use Rattle.alog_registry.specs.Limit.{IsShort};
    ghost use Rattle.std.proofs.Common.{subst, sym};

    type Value = InHand;

    ghost shows = { λ p v. item_in p.hand.now };

    ghost is_ready = { IsReadyPort };

    ghost admits = { λ p m. IsShort p.ring.now.ring.limit.most m };

    ghost is_fit = { λ p v. IsReadyPort p };

    ghost did = { SwapDid };

    ghost wants_memory = { ⊥ };

    #[inline(always)]
    fn text(
        &mut self,
        _alloc: Global,
        text_limit: usize,
        given: MessageRef<'_>,
    ) -> Result<InHand, MessageError> {
        if given.text.len() > text_limit {
            return Err(MessageError::TextTooLong);
        }
        if has_long_field(given.source) {
            return Err(MessageError::FieldTooLong);
        }
        let Some(block) = self.hand.as_mut() else {
            unreachable!()
        };
        block.write_within(
            given.logger,
            given.level,
            given.time,
            given.thread,
            given.text,
            given.source,
        );
        Ok(InHand)
    }

    fn message(&mut self, message: Message) -> InHand {
        let Some(block) = self.hand.as_mut() else {
            unreachable!()
        };
        copy_into(block, &message);
        InHand
    }

    fn flush(&mut self, number: u32) -> InHand {
        let Some(block) = self.hand.as_mut() else {
            unreachable!()
        };
        block.write_flush(number);
        InHand
    }

    fn post_now(&mut self, policy: Policy, _value: InHand) -> Outcome<()> {
        post_hand_now(self, policy)
    }

    ghost together = { did_both };

    ghost still = { λ a b m es k l done is. subst (λ r. IsShort r.now.ring.limit.most m) (sym done.ring) is };
}

impl WaitingItemOutlet for SwapPort<'_, Block, Item, Contents, TextLimit> {
    fn post_waiting(
        &mut self,
        rt: &(impl Wait + Clock),
        policy: Policy,
        hand: &mut Option<InHand>,
    ) -> Outcome<()> {
        let outcome = post_hand(rt, self, policy);
        take_posted(&outcome, hand);
        outcome
    }
}

/// Leaves in the hand what was discarded, and nothing where it was posted.
fn take_posted(outcome: &Outcome<()>, hand: &mut Option<InHand>)
    ensures { hand.new ≡ left_in outcome.now hand.old }
{
    if let Outcome::Posted { .. } = outcome {
        *hand = None;
    }
}

/// Writes a copy of a message, whose text is no longer than the block's limit, into the block.
fn copy_into(block: &mut Block, message: &Message)
    requires { length message.now.text ≤ block.old.limit }
    ensures { block.new ≡ record { limit = block.old.limit; item = Item.Text message.now } }
{
    block.write_within(
        message.logger,
        message.level,
        message.time,
        message.thread,
        message.text.as_str(),
        message.source.as_ref().map(Source::lend),
    );
}
