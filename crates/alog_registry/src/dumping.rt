//! Posting what a backtrace kept.
ghost use Rattle.std.specs.Prelude.{◌≡◌, ◌+◌, ◌≤◌, ◌<◌, ◌++◌, ℕ, ℤ, List, [], codes, length};
ghost use Rattle.std.specs.Prelude.{Some, OnErr, OnOk, IfOk, IsOk, vec_len, vec_capacity};
ghost use Rattle.alog_registry.specs.Backtrace.{room_for};
ghost use Rattle.alog_msg.specs.declared.item.Item.TheVariants as item;
ghost use Rattle.alog_msg.specs.declared.limits.TheConstants.{TEXT_LIMIT_MIN};
ghost use Rattle.alog_msg.specs.declared.message.Message.{Message};
ghost use Rattle.alog_policy.specs.Progress.{without_waiting};
ghost use Rattle.alog_registry.specs.ItemOutlet.{PostsItemNow};
ghost use Rattle.alog_registry.specs.Dumping.{marker, PostsEach, posted_of};
ghost use Rattle.alog_registry.specs.Limit.{AdmitsShort};
ghost use Rattle.alog_registry.specs.Listed.{spec_at};
ghost use Rattle.alog_registry.specs.declared.logger.Spec.{Spec};

use crate::backtrace::Backtrace;
use crate::dumped::Dumped;
use crate::item_outlet::ItemOutlet;
use crate::loggers::Loggers;
use alog_msg::{Level, Message, Text};
use alog_policy::{Outcome, Policy};
use std::alloc::{AllocError, Global};

/// The text of the message before those of a dump.
const START: &str = "=== backtrace start ===";

/// The text of the message behind those of a dump.
const END: &str = "=== backtrace end ===";

impl Loggers {
    /// Empties the backtrace and posts what it kept under the policy of the logger of this number, which is one that was added:
    /// a marker, the messages oldest first, and a marker. The markers have level info, this time and this thread, and no
    /// source. It answers one outcome for each post; a discarded post does not end the dump. It never waits.
    ///
    /// Where nothing was kept, nothing is posted and no memory is taken. Otherwise all that is needed is made before the backtrace
    /// is emptied; where there is no memory, everything is as it was. The test `flushes_and_dumps_at_once` shows it.
    pub fn dump_backtrace<O: ItemOutlet>(
        &self,
        alloc: Global,
        outlet: &mut O,
        backtrace: &mut Backtrace,
        number: u32,
        time: i64,
        thread: u64,
    ) -> Result<Vec<Outcome<()>>, AllocError>
        requires known { number < length self.now }
        requires ready { O.is_ready outlet.old × AdmitsShort O.admits backtrace.old.limit outlet.old }
        ensures posted { (s : Spec) → spec_at self.now number ≡ Some s → IfOk result (λ v. PostsEach O.did (without_waiting s.policy)
            (posted_of number time thread backtrace.old.messages) outlet.old v.items outlet.new) }
        ensures emptied { OnOk result (backtrace.new ≡ room_for backtrace.old.most backtrace.old.limit) }
        ensures err { OnErr result ((outlet.new ≡ outlet.old) × (backtrace.new ≡ backtrace.old)) }
        ensures none { backtrace.old.messages ≡ [] → IsOk result }
        ensures ready { O.is_ready outlet.new }
        ensures outlet { (m : Message) → O.admits outlet.old m → O.admits outlet.new m }
    {
        let Some(spec) = self.spec(number) else {
            unreachable!()
        };
        if backtrace.is_empty() {
            return Ok(Vec::new(alloc));
        }
        let (start, end) = markers(alloc, number, time, thread)?;
        let (room, mut outcomes) = room_of(alloc, backtrace)?;
        let mut list = backtrace.dump(room);
        post_dumped(outlet, spec.policy, start, end, &mut list, &mut outcomes);
        Ok(outcomes)
    }
}

/// An empty list for what the backtrace kept, and one for the outcomes of its posts and of two more.
fn room_of(alloc: Global, backtrace: &Backtrace) -> Result<(Dumped, Vec<Outcome<()>>), AllocError>
    ensures list { IfOk result (λ r. r.0 ≡ room_for backtrace.now.most backtrace.now.limit) }
    ensures none { IfOk result (λ r. r.1.items ≡ []) }
    ensures room { IfOk result (λ r. length backtrace.now.messages + 2 ≤ vec_capacity r.1) }
    ensures limit { OnOk result (TEXT_LIMIT_MIN ≤ backtrace.now.limit) }
{
    let outcomes = Vec::with_capacity(alloc, backtrace.len() + 2)?;
    let list = Dumped::new(alloc, backtrace.most(), backtrace.text_limit())?;
    Ok((list, outcomes))
}

/// The messages before and behind those of a dump.
pub(crate) fn markers(
    alloc: Global,
    number: u32,
    time: i64,
    thread: u64,
) -> Result<(Message, Message), AllocError>
    ensures start { IfOk result (λ r. r.0 ≡ marker number time thread (codes "=== backtrace start ===")) }
    ensures end { IfOk result (λ r. r.1 ≡ marker number time thread (codes "=== backtrace end ===")) }
{
    let start = marker(alloc, number, time, thread, START)?;
    let end = marker(alloc, number, time, thread, END)?;
    Ok((start, end))
}

/// A marker of a dump.
fn marker(
    alloc: Global,
    number: u32,
    time: i64,
    thread: u64,
    text: &str,
) -> Result<Message, AllocError>
    ensures { IfOk result (λ m. m ≡ marker number time thread text.now) }
{
    Ok(Message {
        logger: number,
        level: Level::Info,
        time,
        thread,
        text: Text::copy_of(alloc, text)?,
        source: None,
    })
}

/// Posts what was dumped between the two markers, or nothing where nothing was.
pub(crate) fn post_dumped<O: ItemOutlet>(
    outlet: &mut O,
    policy: Policy,
    start: Message,
    end: Message,
    list: &mut Dumped,
    outcomes: &mut Vec<Outcome<()>>,
)
    requires ready { O.is_ready outlet.old × AdmitsShort O.admits list.old.limit outlet.old }
    requires markers { O.admits outlet.old start × O.admits outlet.old end }
    requires none { outcomes.old.items ≡ [] }
    requires room { length list.old.messages + 2 ≤ vec_capacity outcomes.old }
    ensures posted { (n : ℕ) (t : ℤ) (th : ℕ) → start ≡ marker n t th (codes "=== backtrace start ===")
        → end ≡ marker n t th (codes "=== backtrace end ===")
        → PostsEach O.did (without_waiting policy) (posted_of n t th list.old.messages) outlet.old outcomes.new.items outlet.new }
    ensures list { list.new ≡ room_for list.old.most list.old.limit }
    ensures ready { O.is_ready outlet.new }
    ensures outlet { (m : Message) → O.admits outlet.old m → O.admits outlet.new m }
{
    if list.is_empty() {
        return;
    }
    outcomes.push_reserved(post(outlet, policy, start));
    post_all(outlet, policy, list, outcomes);
    outcomes.push_reserved(post(outlet, policy, end));
}

/// Posts a message.
fn post<O: ItemOutlet>(outlet: &mut O, policy: Policy, message: Message) -> Outcome<()>
    requires ready { O.is_ready outlet.old × O.admits outlet.old message }
    ensures post { PostsItemNow O.did policy (item.Text message) outlet.old outlet.new result }
    ensures ready { O.is_ready outlet.new }
    ensures admitted { (m : Message) → O.admits outlet.old m → O.admits outlet.new m }
{
    let value = outlet.message(message);
    outlet.post_now(policy, value)
}

/// Posts all messages of the list, oldest first, for whose outcomes there is room.
fn post_all<O: ItemOutlet>(
    outlet: &mut O,
    policy: Policy,
    list: &mut Dumped,
    outcomes: &mut Vec<Outcome<()>>,
)
    requires ready { O.is_ready outlet.old × AdmitsShort O.admits list.old.limit outlet.old }
    requires room { vec_len outcomes.old + length list.old.messages < vec_capacity outcomes.old }
    ensures posted { (s : O) (before : List Message) → PostsEach O.did (without_waiting policy) before s outcomes.old.items outlet.old
        → PostsEach O.did (without_waiting policy) (before ++ list.old.messages) s outcomes.new.items outlet.new }
    ensures list { list.new ≡ room_for list.old.most list.old.limit }
    ensures count { vec_len outcomes.new ≡ vec_len outcomes.old + length list.old.messages }
    ensures room { vec_capacity outcomes.new ≡ vec_capacity outcomes.old }
    ensures ready { O.is_ready outlet.new }
    ensures admitted { (m : Message) → O.admits outlet.old m → O.admits outlet.new m }
{
    while let Some(message) = list.take_oldest() {
        outcomes.push_reserved(post(outlet, policy, message));
    }
}
