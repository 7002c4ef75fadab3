//! A producer that owns its share of the pool.
ghost use Rattle.std.specs.Prelude.{◌≡◌, ◌≢◌, ◌⊎◌, ◌↔◌, ◌≤◌, length, Some, IfOk, IfErr, IfSome, IsErrOf, IsNone, OnErr, slice_get};
ghost use Rattle.std.specs.Arc.{arc_value};
ghost use Rattle.alog_hosted.specs.Lent.{IsProducerOf};
ghost use Rattle.alog_hosted.specs.Once.{IsBlockedOrSpent, IsLoggedUnread, LogsOnce};
ghost use Rattle.alog_lane.specs.declared.seat.TheConstants.{ALL_PARTS};
ghost use Rattle.alog_msg.specs.declared.item.Item.TheVariants.{Flush};
ghost use Rattle.alog_msg.specs.declared.message.MessageError.TheVariants as message;
ghost use Rattle.alog_owned.specs.Desk.{IsPassAt};
ghost use Rattle.alog_owned.specs.Owned.{IsRefusedFor};
ghost use Rattle.alog_owned.specs.declared.error.LogError.TheVariants as owned;
ghost use Rattle.alog_owned.specs.declared.error.OwnedDumpError.TheVariants as undumped;
ghost use Rattle.alog_policy.specs.Progress.{without_waiting};
ghost use Rattle.alog_policy.specs.SwapPort.{SwapDid};
ghost use Rattle.alog_policy.specs.declared.policy.Policy.TheVariants as under;
ghost use Rattle.alog_pool.specs.BacktraceSeat.{BacktraceSeatView};
ghost use Rattle.alog_pool.specs.Producer.{IsPortOf, IsSame, Lent};
ghost use Rattle.alog_registry.specs.Backtrace.{Room};
ghost use Rattle.alog_registry.specs.BlockPort.{BlockPort};
ghost use Rattle.alog_registry.specs.Dumping.{PostsEach, posted_of};
ghost use Rattle.alog_registry.specs.Given.{message_with, IsWithin};
ghost use Rattle.alog_registry.specs.ItemOutlet.{PostsItemNow};
ghost use Rattle.alog_registry.specs.LaneKeeper.{DumpsByTurn};
ghost use Rattle.alog_registry.specs.Listed.{spec_at};
ghost use Rattle.alog_registry.specs.declared.error.DumpError.TheVariants as dump;
ghost use Rattle.alog_registry.specs.declared.logger.Spec.{Spec};

use crate::back::{Back, Piece};
use crate::common::Common;
use crate::desk::{DeskPass, lay};
use crate::error::{LogError, OwnedDumpError};
use alog_hosted::{Hosted, HostedProducer, Once};
use alog_msg::{Level, SourceRef};
use alog_policy::Outcome;
use alog_registry::Loggers;
use alog_sink::Store;
use std::alloc::Global;
use std::fmt;
use std::marker::Model;
use std::sync::Arc;

/// What one thread logs with. It owns its share of the pool, so that no call is lent any. It has to be given back, so it is no `Drop`.
pub struct OwnedProducer<S: Store> {
    common: Arc<Common<S>>,
    pass: DeskPass<S>,
    producer: HostedProducer,
}

impl<S: Store> Model for OwnedProducer<S> {
    ghost use Rattle.std.specs.Arc.{arc_value};
    ghost use Rattle.alog_hosted.specs.Lent.{IsProducerOf};
    ghost use Rattle.alog_owned.specs.Desk.{IsPassAt};
    ghost use Rattle.alog_owned.specs.Owned.{OwnedProducerView};

    ghost Value = { OwnedProducerView S };

    ghost view = { λ p. record { hosted = (arc_value p.common).hosted; producer = p.producer } };

    ghost invariant = { λ p. IsPassAt (arc_value p.common).desk (arc_value p.common).hosted p.pass × IsProducerOf (arc_value p.common).hosted p.producer };
}

impl<S: Store> fmt::Debug for OwnedProducer<S> {
    fn fmt<W: fmt::Write>(&self, f: &mut fmt::Formatter<W>) -> fmt::Result {
        f.debug_struct("OwnedProducer")
            .field("number", &self.producer.number())
            .finish_non_exhaustive()
    }
}

impl<S: Store> OwnedProducer<S> {
    /// A producer of this pool.
    pub(crate) fn of(
        common: Arc<Common<S>>,
        pass: DeskPass<S>,
        producer: HostedProducer,
    ) -> OwnedProducer<S>
        requires pass { IsPassAt (arc_value common).desk (arc_value common).hosted pass }
        requires producer { IsProducerOf (arc_value common).hosted producer }
        ensures { (result.hosted ≡ (arc_value common).hosted) × (result.producer ≡ producer) }
    {
        OwnedProducer {
            common,
            pass,
            producer,
        }
    }

    /// Its number, from 0 in the order in which its pool made producers.
    pub fn number(&self) -> u64
        ensures { result ≡ self.now.producer.number }
    {
        self.producer.number()
    }

    /// The loggers of its pool: by name, with their levels, which any thread may set while it runs.
    pub fn loggers(&self) -> &Loggers
        ensures { result.now ≡ self.now.hosted.shared.loggers }
    {
        self.common.hosted.loggers()
    }

    /// Logs a message to the logger of this number, as `HostedProducer::log_once` does.
    #[inline(always)]
    pub fn log_once(
        &mut self,
        alloc: Global,
        number: u32,
        level: Level,
        time: i64,
        text: &str,
        source: Option<SourceRef<'_>>,
    ) -> Result<Once, LogError>
        ensures logs { (s : Spec) → spec_at self.old.hosted.shared.loggers number ≡ Some s
            → IfOk result (λ r. Lent self.old.producer self.new.producer number (λ p k q l. LogsOnce s
            (message_with number level time self.old.producer.number text.now source.entry) p k r q l)) }
        ensures blocks { (s : Spec) → spec_at self.old.hosted.shared.loggers number ≡ Some s → s.policy ≡ under.Block
            → IfOk result IsBlockedOrSpent }
        ensures within { (s : Spec) → spec_at self.old.hosted.shared.loggers number ≡ Some s
            → IfOk result (λ r. IsLoggedUnread s r ⊎ IsWithin self.old.producer.limit text.now source.entry) }
        ensures unknown { IsErrOf result LogError.NoLogger ↔ (length self.old.hosted.shared.loggers ≤ number) }
        ensures refused { IfErr result (IsRefusedFor self.old.producer.limit text.now source.entry) }
        ensures memory { (s : Spec) → spec_at self.old.hosted.shared.loggers number ≡ Some s
            → IfErr result (λ e. e ≡ owned.Refused message.OutOfMemory → s.backtrace ≢ 0) }
        ensures err { OnErr result (self.new ≡ self.old) }
        ensures same { (self.new.hosted ≡ self.old.hosted) × IsSame self.old.producer self.new.producer }
    {
        let hosted: &Hosted<S> = &self.common.hosted;
        if number as usize >= hosted.loggers().len() {
            return Err(LogError::NoLogger);
        }
        let producer = &mut self.producer;
        match producer.log_once(hosted, alloc, number, level, time, text, source) {
            Ok(once) => return Ok(once),
            Err(error) => Err(LogError::Refused(error)),
        }
    }

    /// Posts a flush of the logger of this number, as `HostedProducer::flush` does, where there is such a logger.
    pub fn flush(&mut self, number: u32) -> Option<Outcome<()>>
        ensures post { (s : Spec) → spec_at self.old.hosted.shared.loggers number ≡ Some s
            → IfSome result (λ o. (p q : BlockPort) × IsPortOf self.old.producer p × IsPortOf self.new.producer q
            × PostsItemNow SwapDid s.policy (Flush number) p q o) }
        ensures unknown { IsNone result ↔ (length self.old.hosted.shared.loggers ≤ number) }
        ensures none { IsNone result → self.new ≡ self.old }
        ensures same { (self.new.hosted ≡ self.old.hosted) × IsSame self.old.producer self.new.producer
            × (self.new.producer.backtrace_seats ≡ self.old.producer.backtrace_seats) }
    {
        let hosted: &Hosted<S> = &self.common.hosted;
        if number as usize >= hosted.loggers().len() {
            return None;
        }
        Some(self.producer.flush(hosted, number))
    }

    /// Posts what the backtrace of the logger of this number kept, as `HostedProducer::dump_once` does, where there is such a logger.
    pub fn dump_once(
        &mut self,
        alloc: Global,
        number: u32,
        time: i64,
    ) -> Result<Vec<Outcome<()>>, OwnedDumpError>
        ensures dumped { (s : Spec) → spec_at self.old.hosted.shared.loggers number ≡ Some s
            → IfOk result (λ v. Lent self.old.producer self.new.producer number (λ p k q l. (d : Room) × DumpsByTurn k d l
            × PostsEach SwapDid (without_waiting s.policy) (posted_of number time self.old.producer.number d.messages) p v.items q)) }
        ensures unknown { IsErrOf result OwnedDumpError.NoLogger ↔ (length self.old.hosted.shared.loggers ≤ number) }
        ensures held { (k : BacktraceSeatView) → slice_get self.old.producer.backtrace_seats number ≡ Some k
            → IfErr result (λ e. e ≡ undumped.Refused dump.Held → k.seat.known.parts ≢ ALL_PARTS) }
        ensures err { OnErr result (self.new ≡ self.old) }
        ensures same { (self.new.hosted ≡ self.old.hosted) × IsSame self.old.producer self.new.producer }
    {
        let hosted: &Hosted<S> = &self.common.hosted;
        if number as usize >= hosted.loggers().len() {
            return Err(OwnedDumpError::NoLogger);
        }
        match self.producer.dump_once(hosted, alloc, number, time) {
            Ok(outcomes) => return Ok(outcomes),
            Err(error) => Err(OwnedDumpError::Refused(error)),
        }
    }

    /// Gives it back to its pool. Where another thread gives something back at this moment, it is handed back: try again.
    pub fn give_back(self) -> Result<(), OwnedProducer<S>>
    where
        S: Drop,
        ensures { IfErr result (λ p. p ≡ self) }
    {
        let OwnedProducer {
            common,
            mut pass,
            producer,
        } = self;
        match lay(&common, &mut pass, Back::producer(&common.hosted, producer)) {
            Ok(()) => Ok(()),
            Err(back) => match back.into_piece() {
                Piece::Producer(producer) => Err(OwnedProducer::of(common, pass, producer)),
                _ => unreachable!(),
            },
        }
    }
}
