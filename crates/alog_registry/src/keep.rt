//! What keeps messages for a logger.
ghost use Rattle.std.specs.Prelude.{◌≡◌};

use crate::backtrace::Backtrace;
use crate::turn::{BacktraceItem, BacktraceScratch};
use alog_lane::{Lane, LaneSeat};
use alog_msg::Message;

/// A keeper of messages that never waits.
///
/// `keeps` is what the keeper does where it keeps a message, `passes` what it does where it does not. `is_ready` is what a
/// keep asks of it, and `admits` what it asks of the message.
pub trait Keep {
    ghost use Rattle.std.specs.Prelude.{true, false};
    ghost use Rattle.alog_registry.specs.Keep.{KeptOr};
    ghost use Rattle.alog_msg.specs.declared.message.Message.{Message};

    ghost is_ready: { Self → Type 0 };

    ghost admits: { Self → Message → Type 0 };

    ghost keeps: { Self → Message → Self → Type 0 };

    ghost passes: { Self → Self → Type 0 };

    /// Keeps the message, and answers whether it did: where it did not, the message is dropped. It takes no memory and never
    /// waits.
    fn keep_now(&mut self, message: Message) -> bool
        requires ready { is_ready self.old }
        requires admitted { admits self.old message }
        ensures kept { KeptOr keeps passes result self.old message self.new }
        ensures ready { is_ready self.new }
        ensures still { (m : Message) → admits self.old m → admits self.new m };
}

/// A backtrace of one's own keeps every message.
impl Keep for Backtrace {
    ghost use Rattle.std.specs.Prelude.{◌≡◌};
    ghost use Rattle.alog_registry.specs.Backtrace.{kept_with};
    ghost use Rattle.alog_registry.specs.Limit.{IsShort};

    ghost is_ready = { λ b. Unit {0} };

    ghost admits = { λ b m. IsShort b.limit m };

    ghost keeps = { λ b m c. c ≡ kept_with b m };

    ghost passes = { λ b c. ⊥ };

    fn keep_now(&mut self, message: Message) -> bool {
        self.keep(message);
        true
    }
}

/// A backtrace that threads share: it lends the backtrace's lane, a seat of it and the scratch. Contracts ask that the seat
/// belongs to the lane. A message is not kept where another seat has the lock. The test `two_threads_keep` shows one in each
/// of two threads.
#[derive(Drop)]
pub struct LaneKeeper<'a> {
    /// The backtrace under its lock.
    pub lane: &'a Lane<Backtrace>,
    /// The seat that takes the turns.
    pub seat: &'a mut LaneSeat<Backtrace>,
    /// What the turns use.
    pub scratch: &'a mut BacktraceScratch,
}

impl Keep for LaneKeeper<'_> {
    ghost use Rattle.alog_registry.specs.LaneKeeper.{IsSeated, KeepsByTurn, Passes};
    ghost use Rattle.alog_registry.specs.Limit.{IsShort};

    ghost is_ready = { IsSeated };

    ghost admits = { λ k m. IsShort k.lane.now.first.limit m };

    ghost keeps = { KeepsByTurn };

    ghost passes = { Passes };

    fn keep_now(&mut self, message: Message) -> bool {
        self.scratch.bring(message);
        let kept = self
            .lane
            .turn_once(self.seat, 0, &BacktraceItem::Keep, self.scratch)
            .is_ok();
        if !kept {
            self.scratch.clear();
        }
        kept
    }
}
