//! A log that never waits, and says where it would have to.
ghost use Rattle.std.specs.Prelude.{◌≡◌, ◌≢◌, ◌⊎◌, ◌≤◌, ◌<◌, [], ◌∷◌, length, Some, IfOk, IfSome, OnErr, OnOk, IfErr, IsErrOf, IsOk};
ghost use Rattle.alog_core.specs.Queue.{Claim, Write};
ghost use Rattle.alog_hosted.specs.Once.{BringsAndKeepsOnce, BringsOnce, HasPushed, IsBlockedOrSpent, IsLoggedUnread, LogsOnce};
ghost use Rattle.alog_msg.specs.declared.limits.TheConstants.{TEXT_LIMIT_MIN, TEXT_LIMIT_MAX};
ghost use Rattle.alog_msg.specs.declared.message.Message.{Message};
ghost use Rattle.alog_policy.specs.Outlet.{PushRefused};
ghost use Rattle.alog_policy.specs.SwapPort.{SwapDid};
ghost use Rattle.alog_policy.specs.declared.policy.Policy.TheVariants as under;
ghost use Rattle.alog_registry.specs.BlockPort.{IsReadyPort, item_in};
ghost use Rattle.alog_registry.specs.Given.{message_of, IsReason, IsWithin};
ghost use Rattle.alog_registry.specs.LaneKeeper.{HasList, IsSeated};
ghost use Rattle.alog_registry.specs.Limit.{AdmitsShort, IsShort};
ghost use Rattle.alog_registry.specs.Listed.{spec_at};
ghost use Rattle.alog_registry.specs.Logging.{IsBelow};
ghost use Rattle.alog_registry.specs.declared.logger.Spec.{Spec};

use crate::once::Once;
use alog_msg::{Level, Message, MessageError};
use alog_policy::{Outcome, Outlet, Policy, Why};
use alog_registry::{BlockPort, ItemOutlet, Keep, LaneKeeper, LogReply, Loggers, MessageRef};
use alog_ring::PushError;
use std::alloc::Global;

/// Logs a message as `Loggers::log_now` does, but for a logger whose policy is to block: of that it makes one round of a push, and where there
/// is no room, or another push was faster, it says that it would block. Then nothing was done, and nothing is counted.
#[inline(always)]
pub(crate) fn log_once(
    alloc: Global,
    loggers: &Loggers,
    port: &mut BlockPort<'_>,
    keeper: &mut LaneKeeper<'_>,
    text_limit: usize,
    given: MessageRef<'_>,
) -> Result<Once, MessageError>
    requires known { given.logger < length loggers.now }
    requires limit { (TEXT_LIMIT_MIN ≤ text_limit) × (text_limit ≤ TEXT_LIMIT_MAX) }
    requires port { IsReadyPort port.old × (text_limit ≤ port.old.ring.now.ring.limit.most) }
    requires keeper { IsSeated keeper.old × (text_limit ≤ keeper.old.lane.now.first.limit) }
    ensures logs { (s : Spec) → spec_at loggers.now given.entry.logger ≡ Some s
        → IfOk result (λ r. LogsOnce s (message_of given.entry) port.old keeper.old r port.new keeper.new) }
    ensures blocks { (s : Spec) → spec_at loggers.now given.entry.logger ≡ Some s → s.policy ≡ under.Block → IfOk result IsBlockedOrSpent }
    ensures within { (s : Spec) → spec_at loggers.now given.entry.logger ≡ Some s
        → IfOk result (λ r. IsLoggedUnread s r ⊎ IsWithin text_limit given.entry.text.now given.entry.source) }
    ensures reason { IfErr result (IsReason text_limit given.entry.text.now given.entry.source) }
    ensures memory { (s : Spec) → spec_at loggers.now given.entry.logger ≡ Some s → IsErrOf result MessageError.OutOfMemory
        → s.backtrace ≢ 0 }
    ensures err { OnErr result ((port.new ≡ port.old) × (keeper.new ≡ keeper.old)) }
    ensures ready { IsReadyPort port.new × IsSeated keeper.new }
{
    let (Some(spec), Some(own)) = (loggers.spec(given.logger), loggers.level(given.logger)) else {
        unreachable!()
    };
    if spec.policy != Policy::Block {
        return match loggers.log_ref_now(alloc, port, keeper, text_limit, given) {
            Ok(reply) => Ok(Once::Logged(reply)),
            Err(error) => Err(error),
        };
    }
    if spec.backtrace == 0 {
        return bring_once(alloc, port, text_limit, own, given, false);
    }
    bring_and_keep_once(alloc, port, keeper, text_limit, own, given)
}

/// Makes one round of a push of a message that is at least of this level, and answers how that went, and that it is kept as told.
#[inline(always)]
fn bring_once(
    alloc: Global,
    port: &mut BlockPort<'_>,
    text_limit: usize,
    own: Level,
    given: MessageRef<'_>,
    kept: bool,
) -> Result<Once, MessageError>
    requires limit { (TEXT_LIMIT_MIN ≤ text_limit) × (text_limit ≤ TEXT_LIMIT_MAX) }
    requires port { IsReadyPort port.old × (text_limit ≤ port.old.ring.now.ring.limit.most) }
    ensures brought { IfOk result (λ r. BringsOnce own kept (message_of given.entry) port.old r port.new) }
    ensures within { IfOk result (λ r. HasPushed r → IsWithin text_limit given.entry.text.now given.entry.source) }
    ensures reason { IfErr result (IsReason text_limit given.entry.text.now given.entry.source) }
    ensures err { OnErr result (port.new ≡ port.old) }
    ensures memory { ¬ IsErrOf result MessageError.OutOfMemory }
    ensures unread { IsBelow given.entry.level own → IsOk result }
    ensures ready { IsReadyPort port.new }
{
    if given.level.number() < own.number() {
        return Ok(Once::Logged(LogReply::Filtered { level: own, kept }));
    }
    ItemOutlet::text(port, alloc, text_limit, given)?;
    Ok(match push_hand(port) {
        Ok(ticket) => Once::Logged(LogReply::Logged {
            outcome: Outcome::Posted { ticket, overran: 0 },
            kept,
        }),
        Err(PushError::Full { value: (), next: _ }) => Once::WouldBlock,
        Err(PushError::Busy { value: (), seen: _ }) => Once::WouldBlock,
        Err(PushError::Spent { value: () }) => {
            port.count_discarded();
            Once::Logged(LogReply::Logged {
                outcome: Outcome::Discarded {
                    value: (),
                    why: Why::Spent,
                    overran: 0,
                },
                kept,
            })
        }
    })
}

/// Makes one round of a push of a message as `bring_once` does, and brings a copy of it to the keeper where that round did not refuse it.
/// It is not inlined, so that a log that keeps nothing has no room for a copy on its stack.
#[inline(never)]
fn bring_and_keep_once(
    alloc: Global,
    port: &mut BlockPort<'_>,
    keeper: &mut LaneKeeper<'_>,
    text_limit: usize,
    own: Level,
    given: MessageRef<'_>,
) -> Result<Once, MessageError>
    requires limit { (TEXT_LIMIT_MIN ≤ text_limit) × (text_limit ≤ TEXT_LIMIT_MAX) }
    requires port { IsReadyPort port.old × (text_limit ≤ port.old.ring.now.ring.limit.most) }
    requires keeper { IsSeated keeper.old × (text_limit ≤ keeper.old.lane.now.first.limit) }
    ensures brought { IfOk result (λ r. BringsAndKeepsOnce own (message_of given.entry) port.old keeper.old r port.new keeper.new) }
    ensures within { IfOk result (λ _. IsWithin text_limit given.entry.text.now given.entry.source) }
    ensures reason { IfErr result (IsReason text_limit given.entry.text.now given.entry.source) }
    ensures err { OnErr result ((port.new ≡ port.old) × (keeper.new ≡ keeper.old)) }
    ensures ready { IsReadyPort port.new × IsSeated keeper.new }
{
    let copy = Message::new(
        alloc,
        text_limit,
        given.logger,
        given.level,
        given.time,
        given.thread,
        given.text,
        given.source,
    )?;
    match bring_once(alloc, port, text_limit, own, given, false)? {
        Once::WouldBlock => Ok(Once::WouldBlock),
        Once::Logged(reply) => {
            let kept = keeper.keep_now(copy);
            Ok(Once::Logged(match reply {
                LogReply::Filtered { level, kept: _ } => LogReply::Filtered { level, kept },
                LogReply::Logged { outcome, kept: _ } => LogReply::Logged { outcome, kept },
            }))
        }
    }
}

/// Makes one round of a push of the block in the port's hand: what lay in its place is there then. A refusal leaves it there.
#[inline(always)]
fn push_hand(port: &mut BlockPort<'_>) -> Result<u64, PushError<()>>
    requires { IsReadyPort port.old }
    ensures pushed { IfOk result (λ t. SwapDid port.old (Claim t (item_in port.old.hand.now) ∷ Write t ∷ []) 0 0 port.new) }
    ensures refused { IfErr result (λ e. PushRefused SwapDid IsReadyPort port.old (tt {0}) e port.new) }
    ensures ready { IsReadyPort port.new }
{
    let Some(block) = port.hand.as_mut() else {
        unreachable!()
    };
    port.ring.push_swap_from(port.pass, block)
}
