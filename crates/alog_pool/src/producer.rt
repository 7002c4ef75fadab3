//! A producer: what a request thread logs with.
ghost use Rattle.std.specs.Prelude.{◌≡◌, ◌≢◌, ◌⊎◌, ◌≤◌, ◌<◌, length, Some, OnErr, IfOk, IfErr, IsErrOf};
ghost use Rattle.alog_msg.specs.declared.item.Item.TheVariants.{Flush};
ghost use Rattle.alog_policy.specs.Outlet.{IsPostedOrSpent};
ghost use Rattle.alog_policy.specs.SwapPort.{SwapDid};
ghost use Rattle.alog_policy.specs.Progress.{without_waiting};
ghost use Rattle.alog_policy.specs.declared.policy.Policy.TheVariants as under;
ghost use Rattle.alog_pool.specs.Producer.{IsPortOf, IsSame, Lent};
ghost use Rattle.alog_registry.specs.Backtrace.{Room};
ghost use Rattle.alog_registry.specs.BlockPort.{BlockPort};
ghost use Rattle.alog_registry.specs.ItemOutlet.{PostsItem, PostsItemNow};
ghost use Rattle.alog_registry.specs.Dumping.{PostsEach, posted_of};
ghost use Rattle.alog_registry.specs.Given.{message_with, IsReason, IsWithin};
ghost use Rattle.alog_registry.specs.LaneKeeper.{DumpsByTurn, KeepsByTurn, NeverPasses, Passes};
ghost use Rattle.alog_registry.specs.Listed.{spec_at};
ghost use Rattle.alog_registry.specs.Logging.{IsLoggedOrSpent, Logs, IsUnread};
ghost use Rattle.alog_registry.specs.declared.logger.Spec.{Spec};

use crate::backtrace_seat::BacktraceSeat;
use crate::shared::{QueuePass, Shared};
use alog_msg::{Block, Level, MessageError, SourceRef};
use alog_policy::{BookSeat, Outcome, Pace};
use alog_registry::{BlockPort, LogReply, Loggers, MessageRef};
use std::alloc::{AllocError, Global};
use std::fmt;
use std::marker::Model;
use std::sync::{Arc, Wait};
use std::time::Clock;

/// A producer's port. It borrows some of the producer's fields, so that the others can be used beside it; a function would
/// borrow all.
macro_rules! port_of {
    ($producer:ident, $shared:ident) => {
        BlockPort {
            ring: &$shared.ring,
            pass: &mut $producer.pass,
            book: &$shared.book,
            seat: &mut $producer.losses,
            hand: &mut $producer.hand,
            spare: &mut $producer.spare,
            pace: &mut $producer.pace,
        }
    };
}

/// What a request thread logs with: each has a producer of its own, which its pool made. No lock is round it. Its number is the
/// thread number of its messages.
///
/// A producer is no `Drop`: it has to come back to `Pool::shutdown`, and a way out of a function that loses one does not compile. A
/// thread gets it by reference, as by `std::thread::for_each_mut`, since what a thread gives back has to be `Drop`.
pub struct Producer {
    pub(crate) shared: Arc<Shared>,
    pub(crate) pass: QueuePass,
    /// The block that its next message is written into, and the one that its next pop brings.
    pub(crate) hand: Option<Block>,
    pub(crate) spare: Option<Block>,
    /// How long its posts sleep where the queue is full.
    pub(crate) pace: Pace,
    /// Its seat of the loss book.
    pub(crate) losses: BookSeat,
    /// Its place at the backtrace of each logger.
    pub(crate) backtrace_seats: Vec<BacktraceSeat>,
    pub(crate) number: u64,
    /// The most bytes of a text.
    pub(crate) text_limit: usize,
}

impl Model for Producer {
    ghost use Rattle.std.specs.Arc.{arc_value};
    ghost use Rattle.alog_pool.specs.Producer.{ProducerView, IsProducer, HasBlocks};

    ghost Value = { ProducerView };

    ghost view = { λ p. record {
      shared = arc_value p.shared;
      pass = p.pass;
      losses = p.losses;
      backtrace_seats = p.backtrace_seats.items;
      number = p.number;
      limit = p.text_limit;
    } };

    ghost invariant = { λ p. IsProducer (arc_value p.shared) p.pass p.losses p.backtrace_seats.items p.text_limit
        × HasBlocks (arc_value p.shared) p.hand p.spare };
}

impl fmt::Debug for Producer {
    fn fmt<W: fmt::Write>(&self, f: &mut fmt::Formatter<W>) -> fmt::Result {
        f.debug_struct("Producer")
            .field("number", &self.number)
            .finish_non_exhaustive()
    }
}

impl Producer {
    /// Its number, from 0 in the order in which its pool made producers.
    pub fn number(&self) -> u64
        ensures { result ≡ self.now.number }
    {
        self.number
    }

    /// The loggers that it logs to: by name, with their levels, which any thread may set while the pool runs.
    pub fn loggers(&self) -> &Loggers
        ensures { result.now ≡ self.now.shared.loggers }
    {
        &self.shared.loggers
    }

    /// Logs a message to the logger of this number, as `Loggers::log` does: under `Block` it waits for room, so that it is discarded
    /// only where no ticket is left, and where the logger has a backtrace it waits for its lock. That it returns is not promised.
    ///
    /// Memory is taken for the backtrace's copy alone, where the text has more than 70 bytes or there is a source. A refused message
    /// changes nothing.
    pub fn log(
        &mut self,
        rt: &(impl Wait + Clock),
        alloc: Global,
        number: u32,
        level: Level,
        time: i64,
        text: &str,
        source: Option<SourceRef<'_>>,
    ) -> Result<LogReply, MessageError>
        requires known { number < length self.old.shared.loggers }
        ensures logs { (s : Spec) → spec_at self.old.shared.loggers number ≡ Some s
            → IfOk result (λ r. Lent self.old self.new number (λ p k q l. Logs SwapDid KeepsByTurn NeverPasses s.policy s
            (message_with number level time self.old.number text.now source.entry) p k r q l)) }
        ensures blocks { (s : Spec) → spec_at self.old.shared.loggers number ≡ Some s → s.policy ≡ under.Block
            → IfOk result IsLoggedOrSpent }
        ensures within { (s : Spec) → spec_at self.old.shared.loggers number ≡ Some s
            → IfOk result (λ r. IsUnread s r ⊎ IsWithin self.old.limit text.now source.entry) }
        ensures reason { IfErr result (IsReason self.old.limit text.now source.entry) }
        ensures memory { (s : Spec) → spec_at self.old.shared.loggers number ≡ Some s → IsErrOf result MessageError.OutOfMemory
            → s.backtrace ≢ 0 }
        ensures err { OnErr result (self.new ≡ self.old) }
        ensures same { IsSame self.old self.new }
    {
        let shared: &Shared = &self.shared;
        let mut port = port_of!(self, shared);
        let given = MessageRef {
            logger: number,
            level,
            time,
            thread: self.number,
            text,
            source,
        };
        let backtrace_seat = &mut self.backtrace_seats[number as usize];
        backtrace_seat.log(rt, alloc, &shared.loggers, &mut port, given)
    }

    /// Logs a message to the logger of this number, as `Loggers::log_now` does, and never waits: `Block` is read as `DiscardNew`, and
    /// where another thread has the lock of the backtrace no copy is kept, as the answer says. Memory is taken as by `log`, also for a
    /// copy that is not kept. A refused message changes nothing.
    pub fn log_now(
        &mut self,
        alloc: Global,
        number: u32,
        level: Level,
        time: i64,
        text: &str,
        source: Option<SourceRef<'_>>,
    ) -> Result<LogReply, MessageError>
        requires known { number < length self.old.shared.loggers }
        ensures logs { (s : Spec) → spec_at self.old.shared.loggers number ≡ Some s
            → IfOk result (λ r. Lent self.old self.new number (λ p k q l. Logs SwapDid KeepsByTurn Passes (without_waiting s.policy) s
            (message_with number level time self.old.number text.now source.entry) p k r q l)) }
        ensures within { (s : Spec) → spec_at self.old.shared.loggers number ≡ Some s
            → IfOk result (λ r. IsUnread s r ⊎ IsWithin self.old.limit text.now source.entry) }
        ensures reason { IfErr result (IsReason self.old.limit text.now source.entry) }
        ensures memory { (s : Spec) → spec_at self.old.shared.loggers number ≡ Some s → IsErrOf result MessageError.OutOfMemory
            → s.backtrace ≢ 0 }
        ensures err { OnErr result (self.new ≡ self.old) }
        ensures same { IsSame self.old self.new }
    {
        let shared: &Shared = &self.shared;
        let mut port = port_of!(self, shared);
        let given = MessageRef {
            logger: number,
            level,
            time,
            thread: self.number,
            text,
            source,
        };
        let backtrace_seat = &mut self.backtrace_seats[number as usize];
        backtrace_seat.log_now(alloc, &shared.loggers, &mut port, given)
    }

    /// Posts a flush of the logger of this number, as `Loggers::flush` does: it takes no memory and never waits. `Block` is read as
    /// `DiscardNew`.
    pub fn flush(&mut self, number: u32) -> Outcome<()>
        requires known { number < length self.old.shared.loggers }
        ensures post { (s : Spec) → spec_at self.old.shared.loggers number ≡ Some s
            → (p q : BlockPort) × IsPortOf self.old p × IsPortOf self.new q
            × PostsItemNow SwapDid s.policy (Flush number) p q result }
        ensures same { IsSame self.old self.new × (self.new.backtrace_seats ≡ self.old.backtrace_seats) }
    {
        let shared: &Shared = &self.shared;
        let mut port = port_of!(self, shared);
        shared.loggers.flush(&mut port, number)
    }

    /// Posts a flush of the logger of this number, as `Loggers::flush_wait` does: under `Block` it waits for room, so that it is
    /// discarded only where no ticket is left. It takes no memory. That it returns is not promised.
    pub fn flush_wait(&mut self, rt: &(impl Wait + Clock), number: u32) -> Outcome<()>
        requires known { number < length self.old.shared.loggers }
        ensures post { (s : Spec) → spec_at self.old.shared.loggers number ≡ Some s
            → (p q : BlockPort) × IsPortOf self.old p × IsPortOf self.new q
            × PostsItem SwapDid s.policy (Flush number) p q result }
        ensures blocks { (s : Spec) → spec_at self.old.shared.loggers number ≡ Some s → s.policy ≡ under.Block
            → IsPostedOrSpent result }
        ensures same { IsSame self.old self.new × (self.new.backtrace_seats ≡ self.old.backtrace_seats) }
    {
        let shared: &Shared = &self.shared;
        let mut port = port_of!(self, shared);
        shared.loggers.flush_wait(rt, &mut port, number)
    }

    /// Posts what the backtrace of the logger of this number kept, as `Loggers::dump_shared` does: it waits for the lock of the
    /// backtrace, and its posts never wait. That it returns is not promised.
    ///
    /// Memory is taken for the outcomes alone, before it waits: for two more than the backtrace may keep, also where it kept nothing.
    /// Where there is none, nothing changes.
    pub fn dump_backtrace(
        &mut self,
        rt: &impl Wait,
        alloc: Global,
        number: u32,
        time: i64,
    ) -> Result<Vec<Outcome<()>>, AllocError>
        requires known { number < length self.old.shared.loggers }
        ensures dumped { (s : Spec) → spec_at self.old.shared.loggers number ≡ Some s
            → IfOk result (λ v. Lent self.old self.new number (λ p k q l. (d : Room) × DumpsByTurn k d l
            × PostsEach SwapDid (without_waiting s.policy) (posted_of number time self.old.number d.messages) p v.items q)) }
        ensures err { OnErr result (self.new ≡ self.old) }
        ensures same { IsSame self.old self.new }
    {
        let shared: &Shared = &self.shared;
        let thread = self.number;
        let mut port = port_of!(self, shared);
        let backtrace_seat = &mut self.backtrace_seats[number as usize];
        backtrace_seat.dump(rt, alloc, &shared.loggers, &mut port, number, time, thread)
    }
}
