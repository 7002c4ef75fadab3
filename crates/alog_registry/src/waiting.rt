//! Logs that wait for room and for the lock of a backtrace, flushes that wait for room, and dumps that wait for that lock.
ghost use Rattle.std.specs.Prelude.{◌≡◌, ◌≢◌, ◌⊎◌, ◌≤◌, ◌<◌, length, true, Some, OnErr, IfOk, IsOk, IfErr, IsErrOf};
ghost use Rattle.alog_msg.specs.declared.limits.TheConstants.{TEXT_LIMIT_MIN, TEXT_LIMIT_MAX};
ghost use Rattle.alog_msg.specs.declared.item.Item.TheVariants.{Flush};
ghost use Rattle.alog_msg.specs.declared.message.Message.{Message};
ghost use Rattle.alog_policy.specs.Outlet.{IsPostedOrSpent};
ghost use Rattle.alog_policy.specs.Progress.{without_waiting};
ghost use Rattle.alog_policy.specs.declared.policy.Policy.TheVariants as under;
ghost use Rattle.alog_registry.specs.Backtrace.{Room};
ghost use Rattle.alog_registry.specs.Dumping.{PostsEach, posted_of};
ghost use Rattle.alog_registry.specs.Given.{message_of, message_with, IsReason, IsWithin};
ghost use Rattle.alog_registry.specs.ItemOutlet.{PostsItem};
ghost use Rattle.alog_registry.specs.LaneKeeper.{IsSeated, HasList, KeepsByTurn, DumpsByTurn, NeverPasses};
ghost use Rattle.alog_registry.specs.Limit.{AdmitsShort, IsShort};
ghost use Rattle.alog_registry.specs.Listed.{spec_at};
ghost use Rattle.alog_registry.specs.Logging.{IsBelow, IsBrought, IsLogged, IsLoggedOrSpent, Logs, IsUnread};
ghost use Rattle.alog_registry.specs.declared.logger.Spec.{Spec};

use crate::dumped::Dumped;
use crate::dumping::{markers, post_dumped};
use crate::given::{MessageRef, message};
use crate::item_outlet::{ItemOutlet, WaitingItemOutlet};
use crate::keep::LaneKeeper;
use crate::loggers::Loggers;
use crate::logging::{LogReply, admit};
use crate::turn::{BacktraceItem, BacktraceReply};
use alog_msg::{Level, Message, MessageError, SourceRef};
use alog_policy::{Outcome, Policy};
use std::alloc::{AllocError, Global};
use std::sync::Wait;
use std::time::Clock;

impl Loggers {
    /// Logs a message as `log_now` does, but waits: under `Block` until there is room, so that it is discarded only where no
    /// ticket is left, and for the lock of the backtrace, so that it is always kept where there is one. That it returns is not
    /// promised. The test `logs_with_waiting` shows it.
    pub fn log<O: WaitingItemOutlet>(
        &self,
        rt: &(impl Wait + Clock),
        alloc: Global,
        outlet: &mut O,
        keeper: &mut LaneKeeper<'_>,
        text_limit: usize,
        number: u32,
        level: Level,
        time: i64,
        thread: u64,
        text: &str,
        source: Option<SourceRef<'_>>,
    ) -> Result<LogReply, MessageError>
        requires known { number < length self.now }
        requires limit { (TEXT_LIMIT_MIN ≤ text_limit) × (text_limit ≤ TEXT_LIMIT_MAX) }
        requires outlet { O.is_ready outlet.old × AdmitsShort O.admits text_limit outlet.old }
        requires keeper { IsSeated keeper.old × (text_limit ≤ keeper.old.lane.now.first.limit) }
        ensures logs { (s : Spec) → spec_at self.now number ≡ Some s
            → IfOk result (λ r. Logs O.did KeepsByTurn NeverPasses s.policy s
            (message_with number level time thread text.now source.entry) outlet.old keeper.old r outlet.new keeper.new) }
        ensures within { (s : Spec) → spec_at self.now number ≡ Some s
            → IfOk result (λ r. IsUnread s r ⊎ IsWithin text_limit text.now source.entry) }
        ensures reason { IfErr result (IsReason text_limit text.now source.entry) }
        ensures memory { (s : Spec) → spec_at self.now number ≡ Some s → IsErrOf result MessageError.OutOfMemory
            → O.wants_memory ⊎ (s.backtrace ≢ 0) }
        ensures blocks { (s : Spec) → spec_at self.now number ≡ Some s → s.policy ≡ under.Block → IfOk result IsLoggedOrSpent }
        ensures err { OnErr result ((outlet.new ≡ outlet.old) × (keeper.new ≡ keeper.old)) }
        ensures ready { O.is_ready outlet.new × IsSeated keeper.new }
        ensures list { HasList keeper.old → HasList keeper.new }
        ensures outlet { (m : Message) → O.admits outlet.old m → O.admits outlet.new m }
        ensures lane { keeper.new.lane ≡ keeper.old.lane }
    {
        let given = MessageRef {
            logger: number,
            level,
            time,
            thread,
            text,
            source,
        };
        self.log_ref(rt, alloc, outlet, keeper, text_limit, given)
    }

    /// The same, by the fields that are lent together.
    pub fn log_ref<O: WaitingItemOutlet>(
        &self,
        rt: &(impl Wait + Clock),
        alloc: Global,
        outlet: &mut O,
        keeper: &mut LaneKeeper<'_>,
        text_limit: usize,
        given: MessageRef<'_>,
    ) -> Result<LogReply, MessageError>
        requires known { given.logger < length self.now }
        requires limit { (TEXT_LIMIT_MIN ≤ text_limit) × (text_limit ≤ TEXT_LIMIT_MAX) }
        requires outlet { O.is_ready outlet.old × AdmitsShort O.admits text_limit outlet.old }
        requires keeper { IsSeated keeper.old × (text_limit ≤ keeper.old.lane.now.first.limit) }
        ensures logs { (s : Spec) → spec_at self.now given.entry.logger ≡ Some s
            → IfOk result (λ r. Logs O.did KeepsByTurn NeverPasses s.policy s (message_of given.entry)
            outlet.old keeper.old r outlet.new keeper.new) }
        ensures within { (s : Spec) → spec_at self.now given.entry.logger ≡ Some s
            → IfOk result (λ r. IsUnread s r ⊎ IsWithin text_limit given.entry.text.now given.entry.source) }
        ensures reason { IfErr result (IsReason text_limit given.entry.text.now given.entry.source) }
        ensures memory { (s : Spec) → spec_at self.now given.entry.logger ≡ Some s → IsErrOf result MessageError.OutOfMemory
            → O.wants_memory ⊎ (s.backtrace ≢ 0) }
        ensures blocks { (s : Spec) → spec_at self.now given.entry.logger ≡ Some s → s.policy ≡ under.Block
            → IfOk result IsLoggedOrSpent }
        ensures err { OnErr result ((outlet.new ≡ outlet.old) × (keeper.new ≡ keeper.old)) }
        ensures ready { O.is_ready outlet.new × IsSeated keeper.new }
        ensures list { HasList keeper.old → HasList keeper.new }
        ensures outlet { (m : Message) → O.admits outlet.old m → O.admits outlet.new m }
        ensures lane { keeper.new.lane ≡ keeper.old.lane }
    {
        let (Some(spec), Some(own)) = (self.spec(given.logger), self.level(given.logger)) else {
            unreachable!()
        };
        let policy = spec.policy;
        if spec.backtrace == 0 {
            return bring(rt, alloc, outlet, text_limit, own, policy, given, false);
        }
        bring_and_keep(rt, alloc, outlet, keeper, text_limit, own, policy, given)
    }
}

impl Loggers {
    /// Posts a flush of the logger of this number as `flush` does, but waits under `Block` until there is room, so that it is
    /// discarded only where no ticket is left. It takes no memory. That it returns is not promised. The test `flushes_with_waiting`
    /// shows it.
    pub fn flush_wait<O: WaitingItemOutlet>(
        &self,
        rt: &(impl Wait + Clock),
        outlet: &mut O,
        number: u32,
    ) -> Outcome<()>
        requires known { number < length self.now }
        requires ready { O.is_ready outlet.old }
        ensures post { (s : Spec) → spec_at self.now number ≡ Some s
            → PostsItem O.did s.policy (Flush number) outlet.old outlet.new result }
        ensures blocks { (s : Spec) → spec_at self.now number ≡ Some s → s.policy ≡ under.Block → IsPostedOrSpent result }
        ensures ready { O.is_ready outlet.new }
        ensures outlet { (m : Message) → O.admits outlet.old m → O.admits outlet.new m }
    {
        let Some(spec) = self.spec(number) else {
            unreachable!()
        };
        let mut hand = Some(outlet.flush(number));
        outlet.post_waiting(rt, spec.policy, &mut hand)
    }
}

impl Loggers {
    /// Dumps a shared backtrace as `dump_backtrace` does one of one's own, when it has got its lock, for which it waits. The posts
    /// never wait. The scratch lends an empty list of the backtrace's room, and has one again afterwards.
    ///
    /// What is needed is made before the backtrace is emptied, also where nothing is kept, and where there is no memory,
    /// everything is as it was. That it returns is not promised. The test `logs_with_waiting` shows it.
    pub fn dump_shared<O: ItemOutlet>(
        &self,
        rt: &impl Wait,
        alloc: Global,
        outlet: &mut O,
        keeper: &mut LaneKeeper<'_>,
        number: u32,
        time: i64,
        thread: u64,
    ) -> Result<Vec<Outcome<()>>, AllocError>
        requires known { number < length self.now }
        requires outlet { O.is_ready outlet.old }
        requires seated { IsSeated keeper.old }
        requires list { HasList keeper.old }
        requires limit { (TEXT_LIMIT_MIN ≤ keeper.old.lane.now.first.limit)
            × AdmitsShort O.admits keeper.old.lane.now.first.limit outlet.old }
        ensures dumped { (s : Spec) → spec_at self.now number ≡ Some s → IfOk result (λ v. (d : Room) × DumpsByTurn keeper.old d keeper.new
            × PostsEach O.did (without_waiting s.policy) (posted_of number time thread d.messages) outlet.old v.items outlet.new) }
        ensures err { OnErr result ((outlet.new ≡ outlet.old) × (keeper.new ≡ keeper.old)) }
        ensures ready { O.is_ready outlet.new × IsSeated keeper.new × HasList keeper.new }
        ensures outlet { (m : Message) → O.admits outlet.old m → O.admits outlet.new m }
        ensures lane { keeper.new.lane ≡ keeper.old.lane }
    {
        let Some(spec) = self.spec(number) else {
            unreachable!()
        };
        let (start, end) = markers(alloc, number, time, thread)?;
        let mut outcomes = Vec::with_capacity(alloc, keeper.scratch.room() + 2)?;
        let mut list = keeper.dump(rt);
        // It has no more messages than its room, so there is room for the outcomes.
        let _dumped = list.len();
        post_dumped(outlet, spec.policy, start, end, &mut list, &mut outcomes);
        keeper.scratch.take_back(list);
        Ok(outcomes)
    }
}

/// Posts a message that is at least of this level, and answers how that went, and that it is kept as told; one below it is not made.
/// Where this fails, nothing was done.
fn bring<O: WaitingItemOutlet>(
    rt: &(impl Wait + Clock),
    alloc: Global,
    outlet: &mut O,
    text_limit: usize,
    own: Level,
    policy: Policy,
    given: MessageRef<'_>,
    kept: bool,
) -> Result<LogReply, MessageError>
    requires limit { (TEXT_LIMIT_MIN ≤ text_limit) × (text_limit ≤ TEXT_LIMIT_MAX) }
    requires ready { O.is_ready outlet.old × AdmitsShort O.admits text_limit outlet.old }
    ensures brought { IfOk result (λ r. IsBrought O.did own policy kept (message_of given.entry) outlet.old r outlet.new) }
    ensures blocks { policy ≡ under.Block → IfOk result IsLoggedOrSpent }
    ensures within { IfOk result (λ r. IsLogged r → IsWithin text_limit given.entry.text.now given.entry.source) }
    ensures reason { IfErr result (IsReason text_limit given.entry.text.now given.entry.source) }
    ensures err { OnErr result (outlet.new ≡ outlet.old) }
    ensures memory { IsErrOf result MessageError.OutOfMemory → O.wants_memory }
    ensures unread { IsBelow given.entry.level own → IsOk result }
    ensures ready { O.is_ready outlet.new }
    ensures outlet { (m : Message) → O.admits outlet.old m → O.admits outlet.new m }
{
    let mut hand = None;
    admit(alloc, outlet, text_limit, own, given, &mut hand)?;
    if hand.is_none() {
        return Ok(LogReply::Filtered { level: own, kept });
    }
    let outcome = outlet.post_waiting(rt, policy, &mut hand);
    Ok(LogReply::Logged { outcome, kept })
}

/// Posts a message as `bring` does, and keeps a copy of it as soon as the lock is got. Where this fails, nothing was done. It is not
/// inlined, so that a log that keeps nothing has no room for a copy on its stack, which would be cleared each time.
#[inline(never)]
fn bring_and_keep<O: WaitingItemOutlet>(
    rt: &(impl Wait + Clock),
    alloc: Global,
    outlet: &mut O,
    keeper: &mut LaneKeeper<'_>,
    text_limit: usize,
    own: Level,
    policy: Policy,
    given: MessageRef<'_>,
) -> Result<LogReply, MessageError>
    requires limit { (TEXT_LIMIT_MIN ≤ text_limit) × (text_limit ≤ TEXT_LIMIT_MAX) }
    requires outlet { O.is_ready outlet.old × AdmitsShort O.admits text_limit outlet.old }
    requires keeper { IsSeated keeper.old × (text_limit ≤ keeper.old.lane.now.first.limit) }
    ensures brought { IfOk result (λ r. IsBrought O.did own policy true (message_of given.entry) outlet.old r outlet.new) }
    ensures blocks { policy ≡ under.Block → IfOk result IsLoggedOrSpent }
    ensures kept { IfOk result (λ _. KeepsByTurn keeper.old (message_of given.entry) keeper.new) }
    ensures within { IfOk result (λ _. IsWithin text_limit given.entry.text.now given.entry.source) }
    ensures reason { IfErr result (IsReason text_limit given.entry.text.now given.entry.source) }
    ensures err { OnErr result ((outlet.new ≡ outlet.old) × (keeper.new ≡ keeper.old)) }
    ensures ready { O.is_ready outlet.new × IsSeated keeper.new }
    ensures list { HasList keeper.old → HasList keeper.new }
    ensures outlet { (m : Message) → O.admits outlet.old m → O.admits outlet.new m }
    ensures lane { keeper.new.lane ≡ keeper.old.lane }
{
    let copy = message(alloc, text_limit, given)?;
    let reply = bring(rt, alloc, outlet, text_limit, own, policy, given, true)?;
    keeper.keep(rt, copy);
    Ok(reply)
}

impl LaneKeeper<'_> {
    /// Keeps the message as soon as the lock is got.
    pub fn keep(&mut self, rt: &impl Wait, message: Message)
        requires seated { IsSeated self.old }
        requires short { IsShort self.old.lane.now.first.limit message }
        ensures kept { KeepsByTurn self.old message self.new }
        ensures ready { IsSeated self.new }
        ensures list { HasList self.old → HasList self.new }
    {
        self.scratch.bring(message);
        let (_, _) = self
            .lane
            .turn(rt, self.seat, 0, &BacktraceItem::Keep, self.scratch);
    }
}

impl LaneKeeper<'_> {
    /// Empties the backtrace as soon as the lock is got, and gives what it kept, oldest first.
    pub(crate) fn dump(&mut self, rt: &impl Wait) -> Dumped
        requires seated { IsSeated self.old }
        requires list { HasList self.old }
        ensures dumped { DumpsByTurn self.old result self.new }
        ensures most { (result.most ≡ self.old.lane.now.first.most) × (result.limit ≡ self.old.lane.now.first.limit) }
        ensures seated { IsSeated self.new }
    {
        let (_, reply) = self
            .lane
            .turn(rt, self.seat, 0, &BacktraceItem::Dump, self.scratch);
        match reply {
            BacktraceReply::Dumped(list) => list,
            BacktraceReply::Kept => unreachable!(),
        }
    }
}
