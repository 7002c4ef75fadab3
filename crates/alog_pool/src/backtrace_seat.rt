//! A producer's place at a backtrace.
ghost use Rattle.std.specs.Prelude.{◌≡◌, ◌≢◌, ◌⊎◌, ◌≤◌, ◌<◌, length, Some, IfOk, OnErr, IfErr, IsErrOf};
ghost use Rattle.alog_lane.specs.Seats.{first_known};
ghost use Rattle.alog_msg.specs.declared.limits.TheConstants.{TEXT_LIMIT_MIN, TEXT_LIMIT_MAX};
ghost use Rattle.alog_policy.specs.SwapPort.{SwapDid};
ghost use Rattle.alog_policy.specs.Progress.{without_waiting};
ghost use Rattle.alog_policy.specs.declared.policy.Policy.TheVariants as under;
ghost use Rattle.alog_pool.specs.BacktraceSeat.{Keeps, empty_scratch};
ghost use Rattle.alog_pool.specs.Lending.{LendsAlike};
ghost use Rattle.alog_pool.specs.Places.{IsBacktraceSeatPart, IsSpareOf};
ghost use Rattle.alog_registry.specs.Backtrace.{Room, room_for};
ghost use Rattle.alog_registry.specs.BlockPort.{IsReadyPort};
ghost use Rattle.alog_registry.specs.Dumping.{PostsEach, posted_of};
ghost use Rattle.alog_registry.specs.Given.{message_of, IsReason, IsWithin};
ghost use Rattle.alog_registry.specs.LaneKeeper.{DumpsByTurn, KeepsByTurn, NeverPasses, Passes};
ghost use Rattle.alog_registry.specs.Listed.{spec_at};
ghost use Rattle.alog_registry.specs.Logging.{IsLoggedOrSpent, Logs, IsUnread};
ghost use Rattle.alog_registry.specs.declared.logger.Spec.{Spec};

use alog_lane::{Lane, LaneSeat};
use alog_msg::MessageError;
use alog_policy::Outcome;
use alog_registry::{
    Backtrace, BacktraceScratch, BlockPort, Dumped, LaneKeeper, LogReply, Loggers, MessageRef,
};
use std::alloc::{AllocError, Global};
use std::marker::Model;
use std::sync::{Arc, Wait};
use std::time::Clock;

/// The backtrace of a logger under its lock, a seat of that, and what turns at it use. A logger that keeps nothing has one
/// without room.
#[derive(Drop)]
pub(crate) struct BacktraceSeat {
    pub(crate) lane: Arc<Lane<Backtrace>>,
    pub(crate) seat: LaneSeat<Backtrace>,
    pub(crate) scratch: BacktraceScratch,
    /// The most messages that are kept.
    pub(crate) most: usize,
    /// The most bytes of a text.
    pub(crate) text_limit: usize,
}

/// What another place at a backtrace takes memory for: a share of the lane, and a list.
#[derive(Drop)]
pub(crate) struct Spare {
    lane: Arc<Lane<Backtrace>>,
    scratch: BacktraceScratch,
}

impl Model for BacktraceSeat {
    ghost use Rattle.std.specs.Prelude.{◌≡◌, ◌≤◌};
    ghost use Rattle.std.specs.Arc.{arc_value};
    ghost use Rattle.alog_pool.specs.BacktraceSeat.{BacktraceSeatView, IsBacktraceSeat};

    ghost Value = { BacktraceSeatView };

    ghost view = { λ k. record { lane = arc_value k.lane; seat = k.seat; scratch = k.scratch } };

    ghost invariant = { λ k. IsBacktraceSeat k.most k.text_limit (arc_value k.lane) k.seat k.scratch };
}

impl BacktraceSeat {
    /// A backtrace that keeps the last so many messages, and its first place.
    pub(crate) fn new(
        alloc: Global,
        most: usize,
        text_limit: usize,
    ) -> Result<BacktraceSeat, AllocError>
        requires limit { (TEXT_LIMIT_MIN ≤ text_limit) × (text_limit ≤ TEXT_LIMIT_MAX) }
        ensures empty { IfOk result (λ k. k.lane.first ≡ room_for most text_limit) }
        ensures known { IfOk result (λ k. k.seat.known ≡ first_known) }
    {
        let Ok(backtrace) = Backtrace::limited(alloc, most, text_limit) else {
            return Err(AllocError);
        };
        let scratch = scratch(alloc, most, text_limit)?;
        let Ok((lane, seat)) = Lane::new(alloc, backtrace) else {
            return Err(AllocError);
        };
        match Arc::new(alloc, lane) {
            Ok(lane) => Ok(BacktraceSeat {
                lane,
                seat,
                scratch,
                most,
                text_limit,
            }),
            Err(_) => Err(AllocError),
        }
    }
}

impl BacktraceSeat {
    /// The memory that another place at the same backtrace takes.
    pub(crate) fn spare(&self, alloc: Global) -> Result<Spare, AllocError>
        ensures { IfOk result (λ s. IsSpareOf self.now s) }
    {
        let lane = Arc::try_clone(&self.lane)?;
        let scratch = scratch(alloc, self.most, self.text_limit)?;
        Ok(Spare { lane, scratch })
    }

    /// Another place at the same backtrace, with one of this one's parts.
    pub(crate) fn split(&mut self, spare: Spare) -> BacktraceSeat
        requires of { IsSpareOf self.old spare }
        requires parts { 1 < self.old.seat.known.parts }
        ensures { IsBacktraceSeatPart self.old self.new result }
    {
        let Spare { lane, scratch } = spare;
        let seat = self.lane.split(&mut self.seat, 1);
        BacktraceSeat {
            lane,
            seat,
            scratch,
            most: self.most,
            text_limit: self.text_limit,
        }
    }
}

impl BacktraceSeat {
    /// Logs a message, as `Loggers::log` does, with this place as its keeper.
    pub(crate) fn log(
        &mut self,
        rt: &(impl Wait + Clock),
        alloc: Global,
        loggers: &Loggers,
        port: &mut BlockPort<'_>,
        given: MessageRef<'_>,
    ) -> Result<LogReply, MessageError>
        requires known { given.logger < length loggers.now }
        requires fit { IsReadyPort port.old × (port.old.ring.now.ring.limit.most ≡ self.old.lane.first.limit) }
        ensures logs { (s : Spec) → spec_at loggers.now given.entry.logger ≡ Some s
            → IfOk result (λ r. Keeps self.old self.new (λ k l. Logs SwapDid KeepsByTurn NeverPasses s.policy s
            (message_of given.entry) port.old k r port.new l)) }
        ensures blocks { (s : Spec) → spec_at loggers.now given.entry.logger ≡ Some s → s.policy ≡ under.Block
            → IfOk result IsLoggedOrSpent }
        ensures within { (s : Spec) → spec_at loggers.now given.entry.logger ≡ Some s
            → IfOk result (λ r. IsUnread s r ⊎ IsWithin self.old.lane.first.limit given.entry.text.now given.entry.source) }
        ensures reason { IfErr result (IsReason self.old.lane.first.limit given.entry.text.now given.entry.source) }
        ensures memory { (s : Spec) → spec_at loggers.now given.entry.logger ≡ Some s → IsErrOf result MessageError.OutOfMemory
            → s.backtrace ≢ 0 }
        ensures err { OnErr result ((self.new ≡ self.old) × (port.new ≡ port.old)) }
        ensures lane { self.new.lane ≡ self.old.lane }
        ensures port { IsReadyPort port.new × LendsAlike port.old port.new }
    {
        let mut keeper = keeper(&self.lane, &mut self.seat, &mut self.scratch);
        loggers.log_ref(rt, alloc, port, &mut keeper, self.text_limit, given)
    }

    /// Logs a message, as `Loggers::log_now` does, with this place as its keeper.
    pub(crate) fn log_now(
        &mut self,
        alloc: Global,
        loggers: &Loggers,
        port: &mut BlockPort<'_>,
        given: MessageRef<'_>,
    ) -> Result<LogReply, MessageError>
        requires known { given.logger < length loggers.now }
        requires fit { IsReadyPort port.old × (port.old.ring.now.ring.limit.most ≡ self.old.lane.first.limit) }
        ensures logs { (s : Spec) → spec_at loggers.now given.entry.logger ≡ Some s
            → IfOk result (λ r. Keeps self.old self.new (λ k l. Logs SwapDid KeepsByTurn Passes (without_waiting s.policy) s
            (message_of given.entry) port.old k r port.new l)) }
        ensures within { (s : Spec) → spec_at loggers.now given.entry.logger ≡ Some s
            → IfOk result (λ r. IsUnread s r ⊎ IsWithin self.old.lane.first.limit given.entry.text.now given.entry.source) }
        ensures reason { IfErr result (IsReason self.old.lane.first.limit given.entry.text.now given.entry.source) }
        ensures memory { (s : Spec) → spec_at loggers.now given.entry.logger ≡ Some s → IsErrOf result MessageError.OutOfMemory
            → s.backtrace ≢ 0 }
        ensures err { OnErr result ((self.new ≡ self.old) × (port.new ≡ port.old)) }
        ensures lane { self.new.lane ≡ self.old.lane }
        ensures port { IsReadyPort port.new × LendsAlike port.old port.new }
    {
        let mut keeper = keeper(&self.lane, &mut self.seat, &mut self.scratch);
        loggers.log_ref_now(alloc, port, &mut keeper, self.text_limit, given)
    }

    /// Posts what was kept, as `Loggers::dump_shared` does, with this place as its keeper.
    pub(crate) fn dump(
        &mut self,
        rt: &impl Wait,
        alloc: Global,
        loggers: &Loggers,
        port: &mut BlockPort<'_>,
        number: u32,
        time: i64,
        thread: u64,
    ) -> Result<Vec<Outcome<()>>, AllocError>
        requires known { number < length loggers.now }
        requires fit { IsReadyPort port.old × (port.old.ring.now.ring.limit.most ≡ self.old.lane.first.limit) }
        ensures dumped { (s : Spec) → spec_at loggers.now number ≡ Some s
            → IfOk result (λ v. Keeps self.old self.new (λ k l. (d : Room) × DumpsByTurn k d l
            × PostsEach SwapDid (without_waiting s.policy) (posted_of number time thread d.messages) port.old v.items port.new)) }
        ensures err { OnErr result ((self.new ≡ self.old) × (port.new ≡ port.old)) }
        ensures lane { self.new.lane ≡ self.old.lane }
        ensures port { IsReadyPort port.new × LendsAlike port.old port.new }
    {
        let mut keeper = keeper(&self.lane, &mut self.seat, &mut self.scratch);
        loggers.dump_shared(rt, alloc, port, &mut keeper, number, time, thread)
    }
}

/// The keeper that takes turns at this lane by this seat.
fn keeper<'a>(
    lane: &'a Lane<Backtrace>,
    seat: &'a mut LaneSeat<Backtrace>,
    scratch: &'a mut BacktraceScratch,
) -> LaneKeeper<'a>
    ensures lane { result.lane.now ≡ lane.now }
    ensures seat { (result.seat.ghost_name ≡ seat.entry.ghost_name) × (result.seat.now ≡ seat.old) }
    ensures scratch { (result.scratch.ghost_name ≡ scratch.entry.ghost_name) × (result.scratch.now ≡ scratch.old) }
{
    LaneKeeper {
        lane,
        seat,
        scratch,
    }
}

/// A scratch with an empty list of this room.
fn scratch(alloc: Global, most: usize, text_limit: usize) -> Result<BacktraceScratch, AllocError>
    ensures { IfOk result (λ s. s ≡ empty_scratch most text_limit) }
{
    Ok(BacktraceScratch {
        message: None,
        list: Some(Dumped::new(alloc, most, text_limit)?),
    })
}
