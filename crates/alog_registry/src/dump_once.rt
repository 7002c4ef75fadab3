//! Dumps of a shared backtrace that never wait: the lock is taken by one try.
ghost use Rattle.std.specs.Prelude.{◌≡◌, ◌≢◌, ◌≤◌, ◌<◌, length, Some, OnErr, IfOk, IfSome, IsErrOf, IsNone};
ghost use Rattle.alog_lane.specs.declared.seat.TheConstants.{ALL_PARTS};
ghost use Rattle.alog_msg.specs.declared.limits.TheConstants.{TEXT_LIMIT_MIN};
ghost use Rattle.alog_msg.specs.declared.message.Message.{Message};
ghost use Rattle.alog_policy.specs.Progress.{without_waiting};
ghost use Rattle.alog_registry.specs.Backtrace.{Room};
ghost use Rattle.alog_registry.specs.Dumping.{PostsEach, posted_of};
ghost use Rattle.alog_registry.specs.LaneKeeper.{IsSeated, HasList, DumpsByTurn};
ghost use Rattle.alog_registry.specs.Limit.{AdmitsShort};
ghost use Rattle.alog_registry.specs.Listed.{spec_at};
ghost use Rattle.alog_registry.specs.declared.logger.Spec.{Spec};

use crate::dumped::Dumped;
use crate::dumping::{markers, post_dumped};
use crate::error::DumpError;
use crate::item_outlet::ItemOutlet;
use crate::keep::LaneKeeper;
use crate::loggers::Loggers;
use crate::turn::{BacktraceItem, BacktraceReply};
use alog_lane::Held;
use alog_policy::Outcome;
use std::alloc::Global;

impl Loggers {
    /// Dumps a shared backtrace as `dump_shared` does, but tries its lock once: where another thread has it, nothing is done, and
    /// the answer says so. It never waits. A seat that is alone is never told of another.
    ///
    /// What is needed is made before the lock is tried, also where nothing is kept. The test `dumps_at_once` shows it.
    pub fn dump_shared_once<O: ItemOutlet>(
        &self,
        alloc: Global,
        outlet: &mut O,
        keeper: &mut LaneKeeper<'_>,
        number: u32,
        time: i64,
        thread: u64,
    ) -> Result<Vec<Outcome<()>>, DumpError>
        requires known { number < length self.now }
        requires outlet { O.is_ready outlet.old }
        requires seated { IsSeated keeper.old }
        requires list { HasList keeper.old }
        requires limit { (TEXT_LIMIT_MIN ≤ keeper.old.lane.now.first.limit)
            × AdmitsShort O.admits keeper.old.lane.now.first.limit outlet.old }
        ensures dumped { (s : Spec) → spec_at self.now number ≡ Some s → IfOk result (λ v. (d : Room) × DumpsByTurn keeper.old d keeper.new
            × PostsEach O.did (without_waiting s.policy) (posted_of number time thread d.messages) outlet.old v.items outlet.new) }
        ensures held { IsErrOf result DumpError.Held → keeper.old.seat.now.known.parts ≢ ALL_PARTS }
        ensures err { OnErr result ((outlet.new ≡ outlet.old) × (keeper.new ≡ keeper.old)) }
        ensures ready { O.is_ready outlet.new × IsSeated keeper.new × HasList keeper.new }
        ensures outlet { (m : Message) → O.admits outlet.old m → O.admits outlet.new m }
        ensures lane { keeper.new.lane ≡ keeper.old.lane }
    {
        let Some(spec) = self.spec(number) else {
            unreachable!()
        };
        let (start, end) = markers(alloc, number, time, thread)?;
        let mut outcomes = Vec::with_capacity(alloc, keeper.scratch.room() + 2)?;
        let Some(mut list) = keeper.dump_once() else {
            return Err(DumpError::Held);
        };
        // It has no more messages than its room, so there is room for the outcomes.
        let _dumped = list.len();
        post_dumped(outlet, spec.policy, start, end, &mut list, &mut outcomes);
        keeper.scratch.take_back(list);
        Ok(outcomes)
    }
}

impl LaneKeeper<'_> {
    /// Empties the backtrace where one try gets the lock, and gives what it kept, oldest first. Where another seat has the lock,
    /// nothing is done.
    pub(crate) fn dump_once(&mut self) -> Option<Dumped>
        requires seated { IsSeated self.old }
        requires list { HasList self.old }
        ensures dumped { IfSome result (λ d. DumpsByTurn self.old d self.new) }
        ensures most { IfSome result (λ d. (d.most ≡ self.old.lane.now.first.most) × (d.limit ≡ self.old.lane.now.first.limit)) }
        ensures held { IsNone result → self.old.seat.now.known.parts ≢ ALL_PARTS }
        ensures none { IsNone result → self.new ≡ self.old }
        ensures seated { IsSeated self.new }
    {
        match self
            .lane
            .turn_once(self.seat, 0, &BacktraceItem::Dump, self.scratch)
        {
            Ok((_, BacktraceReply::Dumped(list))) => Some(list),
            Ok((_, BacktraceReply::Kept)) => unreachable!(),
            Err(Held) => None,
        }
    }
}
