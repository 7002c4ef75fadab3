//! Producers that are lent their pool.
ghost use Rattle.std.specs.Prelude.{◌≡◌, ◌≢◌, ◌⊎◌, ◌<◌, length, Some, OnErr, IfOk, IfErr, IsErrOf, slice_get};
ghost use Rattle.alog_hosted.specs.Lent.{IsProducerOf};
ghost use Rattle.alog_hosted.specs.Once.{IsBlockedOrSpent, IsLoggedUnread, LogsOnce};
ghost use Rattle.alog_lane.specs.declared.seat.TheConstants.{ALL_PARTS};
ghost use Rattle.alog_msg.specs.declared.item.Item.TheVariants.{Flush};
ghost use Rattle.alog_policy.specs.Progress.{without_waiting};
ghost use Rattle.alog_policy.specs.SwapPort.{SwapDid};
ghost use Rattle.alog_policy.specs.declared.policy.Policy.TheVariants as under;
ghost use Rattle.alog_pool.specs.BacktraceSeat.{BacktraceSeatView};
ghost use Rattle.alog_pool.specs.Pool.{backtrace_seat_lanes};
ghost use Rattle.alog_pool.specs.Producer.{IsPortOf, IsSame, Lent};
ghost use Rattle.alog_registry.specs.Backtrace.{Room};
ghost use Rattle.alog_registry.specs.BlockPort.{BlockPort};
ghost use Rattle.alog_registry.specs.Dumping.{PostsEach, posted_of};
ghost use Rattle.alog_registry.specs.Given.{message_with, IsReason, IsWithin};
ghost use Rattle.alog_registry.specs.ItemOutlet.{PostsItemNow};
ghost use Rattle.alog_registry.specs.LaneKeeper.{DumpsByTurn};
ghost use Rattle.alog_registry.specs.Listed.{spec_at};
ghost use Rattle.alog_registry.specs.declared.logger.Spec.{Spec};

use crate::backtrace_place::BacktracePlace;
use crate::hosted::Hosted;
use crate::once::Once;
use alog_msg::{Block, Level, MessageError, SourceRef};
use alog_policy::{BookSeat, Outcome, Pace};
use alog_pool::{QueuePass, Shared};
use alog_registry::{BlockPort, DumpError, MessageRef};
use alog_sink::Store;
use std::alloc::Global;
use std::fmt;
use std::marker::Model;
use std::snapshot::Snapshot;

/// A producer's port. It borrows some of the producer's fields, so that the others can be used beside it; a function would borrow all.
macro_rules! port_of {
    ($producer:ident, $hosted:ident) => {
        BlockPort {
            ring: &$hosted.shared.ring,
            pass: &mut $producer.pass,
            book: &$hosted.shared.book,
            seat: &mut $producer.losses,
            hand: &mut $producer.hand,
            spare: &mut $producer.spare,
            pace: &mut $producer.pace,
        }
    };
}

/// What one of the host's threads logs with. Its pool is lent to each call. Its number is the thread number of its messages. It has to come back
/// to `Host::disband`, so it is no `Drop`.
pub struct HostedProducer {
    /// What its pool's threads share.
    pub(crate) shared: Snapshot<Shared>,
    pub(crate) pass: QueuePass,
    /// The block that its next message is written into, and the one that its next pop brings.
    pub(crate) hand: Option<Block>,
    pub(crate) spare: Option<Block>,
    /// How a post rests that waits for room: none of its posts does, but what makes posts wants one.
    pub(crate) pace: Pace,
    /// Its seat of the loss book.
    pub(crate) losses: BookSeat,
    /// Its place at the backtrace of each logger.
    pub(crate) backtraces: Vec<BacktracePlace>,
    pub(crate) number: u64,
    /// The most bytes of a text.
    pub(crate) text_limit: usize,
}

impl Model for HostedProducer {
    ghost use Rattle.alog_pool.specs.Producer.{ProducerView, IsProducer, HasBlocks};

    ghost Value = { ProducerView };

    ghost view = { λ p. record {
      shared = p.shared.value;
      pass = p.pass;
      losses = p.losses;
      backtrace_seats = p.backtraces.items;
      number = p.number;
      limit = p.text_limit;
    } };

    ghost invariant = { λ p. IsProducer p.shared.value p.pass p.losses p.backtraces.items p.text_limit
        × HasBlocks p.shared.value p.hand p.spare };
}

impl fmt::Debug for HostedProducer {
    fn fmt<W: fmt::Write>(&self, f: &mut fmt::Formatter<W>) -> fmt::Result {
        f.debug_struct("HostedProducer")
            .field("number", &self.number)
            .finish_non_exhaustive()
    }
}

impl HostedProducer {
    /// Its number, from 0 in the order in which its pool made producers.
    pub fn number(&self) -> u64
        ensures { result ≡ self.now.number }
    {
        self.number
    }

    /// Logs a message to the logger of this number, as `Loggers::log_now` does, and never waits; but a logger whose policy is to block makes one
    /// round of a push, and where there is no room, or another push was faster, the answer is that it would block: nothing was done then, and
    /// nothing is counted.
    ///
    /// Memory is taken for the backtrace's copy alone, kept or not, where the text has more than 70 bytes or there is a source; `dump_once` posts
    /// what was kept. A refused message changes nothing.
    #[inline(always)]
    pub fn log_once<S: Store>(
        &mut self,
        hosted: &Hosted<S>,
        alloc: Global,
        number: u32,
        level: Level,
        time: i64,
        text: &str,
        source: Option<SourceRef<'_>>,
    ) -> Result<Once, MessageError>
        requires of { IsProducerOf hosted.now self.old }
        requires known { number < length hosted.now.shared.loggers }
        ensures logs { (s : Spec) → spec_at hosted.now.shared.loggers number ≡ Some s
            → IfOk result (λ r. Lent self.old self.new number (λ p k q l. LogsOnce s
            (message_with number level time self.old.number text.now source.entry) p k r q l)) }
        ensures blocks { (s : Spec) → spec_at hosted.now.shared.loggers number ≡ Some s → s.policy ≡ under.Block
            → IfOk result IsBlockedOrSpent }
        ensures within { (s : Spec) → spec_at hosted.now.shared.loggers number ≡ Some s
            → IfOk result (λ r. IsLoggedUnread s r ⊎ IsWithin self.old.limit text.now source.entry) }
        ensures reason { IfErr result (IsReason self.old.limit text.now source.entry) }
        ensures memory { (s : Spec) → spec_at hosted.now.shared.loggers number ≡ Some s → IsErrOf result MessageError.OutOfMemory
            → s.backtrace ≢ 0 }
        ensures err { OnErr result (self.new ≡ self.old) }
        ensures same { IsSame self.old self.new × (backtrace_seat_lanes self.new.backtrace_seats ≡ backtrace_seat_lanes self.old.backtrace_seats) }
    {
        let mut port = port_of!(self, hosted);
        let given = MessageRef {
            logger: number,
            level,
            time,
            thread: self.number,
            text,
            source,
        };
        let at = number as usize;
        let loggers = &hosted.shared.loggers;
        self.backtraces[at].log_once(&hosted.backtraces[at], alloc, loggers, &mut port, given)
    }

    /// Posts a flush of the logger of this number, as `Loggers::flush` does: it takes no memory and never waits. Block is read as discard new.
    pub fn flush<S: Store>(&mut self, hosted: &Hosted<S>, number: u32) -> Outcome<()>
        requires of { IsProducerOf hosted.now self.old }
        requires known { number < length hosted.now.shared.loggers }
        ensures post { (s : Spec) → spec_at hosted.now.shared.loggers number ≡ Some s
            → (p q : BlockPort) × IsPortOf self.old p × IsPortOf self.new q
            × PostsItemNow SwapDid s.policy (Flush number) p q result }
        ensures same { IsSame self.old self.new × (self.new.backtrace_seats ≡ self.old.backtrace_seats) }
    {
        let mut port = port_of!(self, hosted);
        hosted.shared.loggers.flush(&mut port, number)
    }

    /// Posts what the backtrace of the logger of this number kept, as `Loggers::dump_shared_once` does, and never waits: it tries the lock of the
    /// backtrace once, and where another thread has it, nothing changes, and the answer says so.
    ///
    /// Memory is taken for the outcomes alone, before the lock is tried: for two more than the backtrace may keep, also where it kept nothing.
    /// Where there is none, nothing changes. The tests `dumps_between_markers` and `dumps_nothing` show what is posted; the test
    /// `a_dump_that_is_held` of `test_loggers` shows of `Loggers::dump_shared_once` what comes where another thread has the lock.
    pub fn dump_once<S: Store>(
        &mut self,
        hosted: &Hosted<S>,
        alloc: Global,
        number: u32,
        time: i64,
    ) -> Result<Vec<Outcome<()>>, DumpError>
        requires of { IsProducerOf hosted.now self.old }
        requires known { number < length hosted.now.shared.loggers }
        ensures dumped { (s : Spec) → spec_at hosted.now.shared.loggers number ≡ Some s
            → IfOk result (λ v. Lent self.old self.new number (λ p k q l. (d : Room) × DumpsByTurn k d l
            × PostsEach SwapDid (without_waiting s.policy) (posted_of number time self.old.number d.messages) p v.items q)) }
        ensures held { (k : BacktraceSeatView) → slice_get self.old.backtrace_seats number ≡ Some k
            → IsErrOf result DumpError.Held → k.seat.known.parts ≢ ALL_PARTS }
        ensures err { OnErr result (self.new ≡ self.old) }
        ensures same { IsSame self.old self.new × (backtrace_seat_lanes self.new.backtrace_seats ≡ backtrace_seat_lanes self.old.backtrace_seats) }
    {
        let mut port = port_of!(self, hosted);
        let thread = self.number;
        let at = number as usize;
        let loggers = &hosted.shared.loggers;
        self.backtraces[at].dump_once(
            &hosted.backtraces[at],
            alloc,
            loggers,
            &mut port,
            number,
            time,
            thread,
        )
    }
}
