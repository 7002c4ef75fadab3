//! A place at a backtrace, whose lane is lent to each call.
ghost use Rattle.std.specs.Prelude.{◌≡◌, ◌≢◌, ◌⊎◌, ◌≤◌, ◌<◌, length, Some, IfOk, OnErr, IfErr, IsErrOf};
ghost use Rattle.alog_hosted.specs.Once.{IsBlockedOrSpent, IsLoggedUnread, LogsOnce};
ghost use Rattle.alog_lane.specs.Seats.{first_known};
ghost use Rattle.alog_lane.specs.declared.seat.TheConstants.{ALL_PARTS};
ghost use Rattle.alog_msg.specs.declared.limits.TheConstants.{TEXT_LIMIT_MIN, TEXT_LIMIT_MAX};
ghost use Rattle.alog_policy.specs.Progress.{without_waiting};
ghost use Rattle.alog_policy.specs.SwapPort.{SwapDid};
ghost use Rattle.alog_policy.specs.declared.policy.Policy.TheVariants as under;
ghost use Rattle.alog_pool.specs.BacktraceSeat.{Keeps, empty_scratch};
ghost use Rattle.alog_pool.specs.Lending.{LendsAlike};
ghost use Rattle.alog_pool.specs.Places.{IsBacktraceSeatPart};
ghost use Rattle.alog_registry.specs.Backtrace.{Room, room_for};
ghost use Rattle.alog_registry.specs.BlockPort.{IsReadyPort};
ghost use Rattle.alog_registry.specs.Dumping.{PostsEach, posted_of};
ghost use Rattle.alog_registry.specs.Given.{message_of, IsReason, IsWithin};
ghost use Rattle.alog_registry.specs.LaneKeeper.{DumpsByTurn};
ghost use Rattle.alog_registry.specs.Listed.{spec_at};
ghost use Rattle.alog_registry.specs.declared.logger.Spec.{Spec};

use crate::log_once::log_once;
use crate::once::Once;
use alog_lane::{Lane, LaneSeat};
use alog_msg::MessageError;
use alog_policy::Outcome;
use alog_registry::{
    Backtrace, BacktraceScratch, BlockPort, DumpError, Dumped, LaneKeeper, Loggers, MessageRef,
};
use std::alloc::{AllocError, Global};
use std::marker::Model;
use std::snapshot::Snapshot;

/// A seat at the lane of a logger's backtrace, and what its turns use. The lane itself is lent to each call. A logger that keeps nothing has
/// a backtrace without room.
#[derive(Drop)]
pub(crate) struct BacktracePlace {
    /// Which lane it is.
    lane: Snapshot<Lane<Backtrace>>,
    seat: LaneSeat<Backtrace>,
    scratch: BacktraceScratch,
    /// The most messages that are kept.
    most: usize,
    /// The most bytes of a text.
    text_limit: usize,
}

impl Model for BacktracePlace {
    ghost use Rattle.alog_pool.specs.BacktraceSeat.{BacktraceSeatView, IsBacktraceSeat};

    ghost Value = { BacktraceSeatView };

    ghost view = { λ k. record { lane = k.lane.value; seat = k.seat; scratch = k.scratch } };

    ghost invariant = { λ k. IsBacktraceSeat k.most k.text_limit k.lane.value k.seat k.scratch };
}

impl BacktracePlace {
    /// The lane of a backtrace that keeps the last so many messages, and its first place.
    pub(crate) fn first(
        alloc: Global,
        most: usize,
        text_limit: usize,
    ) -> Result<(Lane<Backtrace>, BacktracePlace), AllocError>
        requires limit { (TEXT_LIMIT_MIN ≤ text_limit) × (text_limit ≤ TEXT_LIMIT_MAX) }
        ensures lane { IfOk result (λ r. r.1.lane ≡ r.0) }
        ensures empty { IfOk result (λ r. r.1.lane.first ≡ room_for most text_limit) }
        ensures known { IfOk result (λ r. r.1.seat.known ≡ first_known) }
    {
        let Ok(backtrace) = Backtrace::limited(alloc, most, text_limit) else {
            return Err(AllocError);
        };
        let scratch = scratch(alloc, most, text_limit)?;
        let Ok((lane, seat)) = Lane::new(alloc, backtrace) else {
            return Err(AllocError);
        };
        let place = BacktracePlace {
            lane: Snapshot::of(&lane),
            seat,
            scratch,
            most,
            text_limit,
        };
        Ok((lane, place))
    }

    /// The memory that another place at the same backtrace takes.
    pub(crate) fn spare(&self, alloc: Global) -> Result<BacktraceScratch, AllocError>
        ensures { IfOk result (λ s. s.list ≡ self.now.scratch.list) }
    {
        scratch(alloc, self.most, self.text_limit)
    }

    /// Another place at the same backtrace, with one of this one's parts.
    pub(crate) fn split(
        &mut self,
        lane: &Lane<Backtrace>,
        scratch: BacktraceScratch,
    ) -> BacktracePlace
        requires lane { lane.now ≡ self.old.lane }
        requires list { scratch.list ≡ self.old.scratch.list }
        requires parts { 1 < self.old.seat.known.parts }
        ensures { IsBacktraceSeatPart self.old self.new result }
    {
        let seat = lane.split(&mut self.seat, 1);
        BacktracePlace {
            lane: Snapshot::of(lane),
            seat,
            scratch,
            most: self.most,
            text_limit: self.text_limit,
        }
    }
}

impl BacktracePlace {
    /// Logs a message under the logger's policy, with this place as its keeper, and never waits.
    #[inline(always)]
    pub(crate) fn log_once(
        &mut self,
        lane: &Lane<Backtrace>,
        alloc: Global,
        loggers: &Loggers,
        port: &mut BlockPort<'_>,
        given: MessageRef<'_>,
    ) -> Result<Once, MessageError>
        requires lane { lane.now ≡ self.old.lane }
        requires known { given.logger < length loggers.now }
        requires fit { IsReadyPort port.old × (port.old.ring.now.ring.limit.most ≡ self.old.lane.first.limit) }
        ensures logs { (s : Spec) → spec_at loggers.now given.entry.logger ≡ Some s
            → IfOk result (λ r. Keeps self.old self.new (λ k l. LogsOnce s (message_of given.entry) port.old k r port.new l)) }
        ensures blocks { (s : Spec) → spec_at loggers.now given.entry.logger ≡ Some s → s.policy ≡ under.Block
            → IfOk result IsBlockedOrSpent }
        ensures within { (s : Spec) → spec_at loggers.now given.entry.logger ≡ Some s
            → IfOk result (λ r. IsLoggedUnread s r ⊎ IsWithin self.old.lane.first.limit given.entry.text.now given.entry.source) }
        ensures reason { IfErr result (IsReason self.old.lane.first.limit given.entry.text.now given.entry.source) }
        ensures memory { (s : Spec) → spec_at loggers.now given.entry.logger ≡ Some s → IsErrOf result MessageError.OutOfMemory
            → s.backtrace ≢ 0 }
        ensures err { OnErr result ((self.new ≡ self.old) × (port.new ≡ port.old)) }
        ensures lane { self.new.lane ≡ self.old.lane }
        ensures port { IsReadyPort port.new × LendsAlike port.old port.new }
    {
        let mut keeper = LaneKeeper {
            lane,
            seat: &mut self.seat,
            scratch: &mut self.scratch,
        };
        log_once(alloc, loggers, port, &mut keeper, self.text_limit, given)
    }

    /// Posts what was kept, as `Loggers::dump_shared_once` does, with this place as its keeper.
    pub(crate) fn dump_once(
        &mut self,
        lane: &Lane<Backtrace>,
        alloc: Global,
        loggers: &Loggers,
        port: &mut BlockPort<'_>,
        number: u32,
        time: i64,
        thread: u64,
    ) -> Result<Vec<Outcome<()>>, DumpError>
        requires lane { lane.now ≡ self.old.lane }
        requires known { number < length loggers.now }
        requires fit { IsReadyPort port.old × (port.old.ring.now.ring.limit.most ≡ self.old.lane.first.limit) }
        ensures dumped { (s : Spec) → spec_at loggers.now number ≡ Some s
            → IfOk result (λ v. Keeps self.old self.new (λ k l. (d : Room) × DumpsByTurn k d l
            × PostsEach SwapDid (without_waiting s.policy) (posted_of number time thread d.messages) port.old v.items port.new)) }
        ensures held { IsErrOf result DumpError.Held → self.old.seat.known.parts ≢ ALL_PARTS }
        ensures err { OnErr result ((self.new ≡ self.old) × (port.new ≡ port.old)) }
        ensures lane { self.new.lane ≡ self.old.lane }
        ensures port { IsReadyPort port.new × LendsAlike port.old port.new }
    {
        let mut keeper = LaneKeeper {
            lane,
            seat: &mut self.seat,
            scratch: &mut self.scratch,
        };
        loggers.dump_shared_once(alloc, port, &mut keeper, number, time, thread)
    }
}

/// A scratch with an empty list of this room.
fn scratch(alloc: Global, most: usize, text_limit: usize) -> Result<BacktraceScratch, AllocError>
    ensures { IfOk result (λ s. s ≡ empty_scratch most text_limit) }
{
    Ok(BacktraceScratch {
        message: None,
        list: Some(Dumped::new(alloc, most, text_limit)?),
    })
}
