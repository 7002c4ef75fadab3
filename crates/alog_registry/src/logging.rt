//! What a logger does with a message: it is filtered, or posted, and kept for a backtrace.
ghost use Rattle.std.specs.Prelude.{◌≡◌, ◌≢◌, ◌⊎◌, ◌≤◌, ◌<◌, length, None, Some, IsSome, OnErr, IfOk, IsOk, IfErr, IsErrOf};
ghost use Rattle.alog_msg.specs.declared.limits.TheConstants.{TEXT_LIMIT_MIN, TEXT_LIMIT_MAX};
ghost use Rattle.alog_msg.specs.declared.item.Item.TheVariants.{Flush};
ghost use Rattle.alog_policy.specs.Progress.{without_waiting};
ghost use Rattle.alog_registry.specs.ItemOutlet.{PostsItemNow};
ghost use Rattle.alog_registry.specs.Given.{message_of, message_with, IsReason, IsWithin};
ghost use Rattle.alog_registry.specs.Keep.{KeptOr};
ghost use Rattle.alog_registry.specs.Listed.{spec_at};
ghost use Rattle.alog_registry.specs.declared.logger.Spec.{Spec};
ghost use Rattle.alog_msg.specs.declared.message.Message.{Message};
ghost use Rattle.alog_registry.specs.Limit.{AdmitsShort};
ghost use Rattle.alog_registry.specs.Logging.{kept_by, IsBrought, IsLogged, Logs, IsMade, IsUnread, IsBelow};

use crate::given::{MessageRef, message};
use crate::item_outlet::ItemOutlet;
use crate::keep::Keep;
use crate::loggers::Loggers;
use alog_msg::{Level, Message, MessageError, SourceRef};
use alog_policy::{Outcome, Policy};
use std::alloc::Global;

/// What became of a message that a logger was given. The test `logs_at_once` shows both.
#[derive(Debug, PartialEq, Eq, Drop)]
pub enum LogReply {
    /// It is below the logger's level, and was not posted.
    Filtered {
        /// The level of the logger that was read.
        level: Level,
        /// Whether it was kept for a backtrace.
        kept: bool,
    },
    /// It was posted, or discarded by its post.
    Logged {
        /// How the post ended.
        outcome: Outcome<()>,
        /// Whether it was kept for a backtrace.
        kept: bool,
    },
}

impl Loggers {
    /// Logs a message with these fields to the logger of this number, which is one that was added: if it is at least of the
    /// logger's level it is posted under the logger's policy, and if the logger has a backtrace it is kept. It never waits.
    ///
    /// The level is read first. What is below it, where there is no backtrace, takes no memory, and its text is not looked at.
    /// Without a backtrace memory is wanted only by an outlet that takes some for a text.
    /// Otherwise all that is needed is made before anything is done, and a refusal, which is one of `Message::new`, leaves
    /// everything as it was. A text limit is 64 to 8,192 bytes; by condition outlet and keeper take texts of the limit. The
    /// tests `logs_at_once` and `a_ring_of_short_texts` show it.
    pub fn log_now<O: ItemOutlet, K: Keep>(
        &self,
        alloc: Global,
        outlet: &mut O,
        keeper: &mut K,
        text_limit: usize,
        number: u32,
        level: Level,
        time: i64,
        thread: u64,
        text: &str,
        source: Option<SourceRef<'_>>,
    ) -> Result<LogReply, MessageError>
        requires known { number < length self.now }
        requires limit { (TEXT_LIMIT_MIN ≤ text_limit) × (text_limit ≤ TEXT_LIMIT_MAX) }
        requires outlet { O.is_ready outlet.old × AdmitsShort O.admits text_limit outlet.old }
        requires keeper { K.is_ready keeper.old × AdmitsShort K.admits text_limit keeper.old }
        ensures logs { (s : Spec) → spec_at self.now number ≡ Some s
            → IfOk result (λ r. Logs O.did K.keeps K.passes (without_waiting s.policy) s
            (message_with number level time thread text.now source.entry) outlet.old keeper.old r outlet.new keeper.new) }
        ensures within { (s : Spec) → spec_at self.now number ≡ Some s
            → IfOk result (λ r. IsUnread s r ⊎ IsWithin text_limit text.now source.entry) }
        ensures reason { IfErr result (IsReason text_limit text.now source.entry) }
        ensures memory { (s : Spec) → spec_at self.now number ≡ Some s → IsErrOf result MessageError.OutOfMemory
            → O.wants_memory ⊎ (s.backtrace ≢ 0) }
        ensures err { OnErr result ((outlet.new ≡ outlet.old) × (keeper.new ≡ keeper.old)) }
        ensures ready { O.is_ready outlet.new × K.is_ready keeper.new }
        ensures outlet { (m : Message) → O.admits outlet.old m → O.admits outlet.new m }
        ensures keeper { (m : Message) → K.admits keeper.old m → K.admits keeper.new m }
    {
        let given = MessageRef {
            logger: number,
            level,
            time,
            thread,
            text,
            source,
        };
        self.log_ref_now(alloc, outlet, keeper, text_limit, given)
    }

    /// The same, by the fields that are lent together.
    pub fn log_ref_now<O: ItemOutlet, K: Keep>(
        &self,
        alloc: Global,
        outlet: &mut O,
        keeper: &mut K,
        text_limit: usize,
        given: MessageRef<'_>,
    ) -> Result<LogReply, MessageError>
        requires known { given.logger < length self.now }
        requires limit { (TEXT_LIMIT_MIN ≤ text_limit) × (text_limit ≤ TEXT_LIMIT_MAX) }
        requires outlet { O.is_ready outlet.old × AdmitsShort O.admits text_limit outlet.old }
        requires keeper { K.is_ready keeper.old × AdmitsShort K.admits text_limit keeper.old }
        ensures logs { (s : Spec) → spec_at self.now given.entry.logger ≡ Some s
            → IfOk result (λ r. Logs O.did K.keeps K.passes (without_waiting s.policy) s (message_of given.entry)
            outlet.old keeper.old r outlet.new keeper.new) }
        ensures within { (s : Spec) → spec_at self.now given.entry.logger ≡ Some s
            → IfOk result (λ r. IsUnread s r ⊎ IsWithin text_limit given.entry.text.now given.entry.source) }
        ensures reason { IfErr result (IsReason text_limit given.entry.text.now given.entry.source) }
        ensures memory { (s : Spec) → spec_at self.now given.entry.logger ≡ Some s → IsErrOf result MessageError.OutOfMemory
            → O.wants_memory ⊎ (s.backtrace ≢ 0) }
        ensures err { OnErr result ((outlet.new ≡ outlet.old) × (keeper.new ≡ keeper.old)) }
        ensures ready { O.is_ready outlet.new × K.is_ready keeper.new }
        ensures outlet { (m : Message) → O.admits outlet.old m → O.admits outlet.new m }
        ensures keeper { (m : Message) → K.admits keeper.old m → K.admits keeper.new m }
    {
        let (Some(spec), Some(own)) = (self.spec(given.logger), self.level(given.logger)) else {
            unreachable!()
        };
        let policy = spec.policy;
        if spec.backtrace == 0 {
            return bring_now(alloc, outlet, text_limit, own, policy, given, false);
        }
        bring_and_keep_now(alloc, outlet, keeper, text_limit, own, policy, given)
    }

    /// Posts a flush of the logger of this number, which is one that was added, under the logger's policy. It takes no memory and
    /// never waits. The test `flushes_and_dumps_at_once` shows it.
    pub fn flush<O: ItemOutlet>(&self, outlet: &mut O, number: u32) -> Outcome<()>
        requires known { number < length self.now }
        requires ready { O.is_ready outlet.old }
        ensures post { (s : Spec) → spec_at self.now number ≡ Some s
            → PostsItemNow O.did s.policy (Flush number) outlet.old outlet.new result }
        ensures ready { O.is_ready outlet.new }
        ensures outlet { (m : Message) → O.admits outlet.old m → O.admits outlet.new m }
    {
        let Some(spec) = self.spec(number) else {
            unreachable!()
        };
        let value = outlet.flush(number);
        outlet.post_now(spec.policy, value)
    }
}

/// Posts a message that is at least of this level, and answers how that went, and that it is kept as told; one below it is not made.
/// It never waits. Where this fails, nothing was done.
fn bring_now<O: ItemOutlet>(
    alloc: Global,
    outlet: &mut O,
    text_limit: usize,
    own: Level,
    policy: Policy,
    given: MessageRef<'_>,
    kept: bool,
) -> Result<LogReply, MessageError>
    requires limit { (TEXT_LIMIT_MIN ≤ text_limit) × (text_limit ≤ TEXT_LIMIT_MAX) }
    requires ready { O.is_ready outlet.old × AdmitsShort O.admits text_limit outlet.old }
    ensures brought { IfOk result (λ r. IsBrought O.did own (without_waiting policy) kept (message_of given.entry) outlet.old r outlet.new) }
    ensures within { IfOk result (λ r. IsLogged r → IsWithin text_limit given.entry.text.now given.entry.source) }
    ensures reason { IfErr result (IsReason text_limit given.entry.text.now given.entry.source) }
    ensures err { OnErr result (outlet.new ≡ outlet.old) }
    ensures memory { IsErrOf result MessageError.OutOfMemory → O.wants_memory }
    ensures unread { IsBelow given.entry.level own → IsOk result }
    ensures ready { O.is_ready outlet.new }
    ensures outlet { (m : Message) → O.admits outlet.old m → O.admits outlet.new m }
{
    let mut hand = None;
    admit(alloc, outlet, text_limit, own, given, &mut hand)?;
    match hand {
        Some(value) => {
            let outcome = outlet.post_now(policy, value);
            Ok(LogReply::Logged { outcome, kept })
        }
        None => Ok(LogReply::Filtered { level: own, kept }),
    }
}

/// Posts a message as `bring_now` does, brings a copy of it to the keeper, and answers whether that kept it, too. Where this fails,
/// nothing was done.
#[inline(never)]
fn bring_and_keep_now<O: ItemOutlet, K: Keep>(
    alloc: Global,
    outlet: &mut O,
    keeper: &mut K,
    text_limit: usize,
    own: Level,
    policy: Policy,
    given: MessageRef<'_>,
) -> Result<LogReply, MessageError>
    requires limit { (TEXT_LIMIT_MIN ≤ text_limit) × (text_limit ≤ TEXT_LIMIT_MAX) }
    requires outlet { O.is_ready outlet.old × AdmitsShort O.admits text_limit outlet.old }
    requires keeper { K.is_ready keeper.old × AdmitsShort K.admits text_limit keeper.old }
    ensures brought { IfOk result (λ r. IsBrought O.did own (without_waiting policy) (kept_by r) (message_of given.entry) outlet.old r outlet.new) }
    ensures kept { IfOk result (λ r. KeptOr K.keeps K.passes (kept_by r) keeper.old (message_of given.entry) keeper.new) }
    ensures within { IfOk result (λ _. IsWithin text_limit given.entry.text.now given.entry.source) }
    ensures reason { IfErr result (IsReason text_limit given.entry.text.now given.entry.source) }
    ensures err { OnErr result ((outlet.new ≡ outlet.old) × (keeper.new ≡ keeper.old)) }
    ensures ready { O.is_ready outlet.new × K.is_ready keeper.new }
    ensures outlet { (m : Message) → O.admits outlet.old m → O.admits outlet.new m }
    ensures keeper { (m : Message) → K.admits keeper.old m → K.admits keeper.new m }
{
    let copy = message(alloc, text_limit, given)?;
    let reply = bring_now(alloc, outlet, text_limit, own, policy, given, false)?;
    let kept = keeper.keep_now(copy);
    Ok(match reply {
        LogReply::Filtered { level, kept: _ } => LogReply::Filtered { level, kept },
        LogReply::Logged { outcome, kept: _ } => LogReply::Logged { outcome, kept },
    })
}

/// Makes the value of a message that is at least of this level, and puts it into the hand; the hand of one that is filtered stays
/// empty. Where this fails, nothing was done.
pub(crate) fn admit<O: ItemOutlet>(
    alloc: Global,
    outlet: &mut O,
    text_limit: usize,
    own: Level,
    given: MessageRef<'_>,
    hand: &mut Option<O::Value>,
) -> Result<(), MessageError>
    requires limit { (TEXT_LIMIT_MIN ≤ text_limit) × (text_limit ≤ TEXT_LIMIT_MAX) }
    requires ready { O.is_ready outlet.old × AdmitsShort O.admits text_limit outlet.old }
    requires empty { hand.old ≡ None }
    ensures made { IfOk result (λ _. IsMade O.did O.is_fit O.shows own (message_of given.entry) outlet.old hand.new outlet.new) }
    ensures within { IfOk result (λ _. IsSome hand.new → IsWithin text_limit given.entry.text.now given.entry.source) }
    ensures reason { IfErr result (IsReason text_limit given.entry.text.now given.entry.source) }
    ensures err { OnErr result (outlet.new ≡ outlet.old) }
    ensures memory { IsErrOf result MessageError.OutOfMemory → O.wants_memory }
    ensures outlet { (m : Message) → O.admits outlet.old m → O.admits outlet.new m }
    ensures unread { IsBelow given.entry.level own → IsOk result }
{
    if given.level.number() >= own.number() {
        *hand = Some(outlet.text(alloc, text_limit, given)?);
    }
    Ok(())
}
