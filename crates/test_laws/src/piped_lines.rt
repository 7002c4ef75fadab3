//! From the lines of a reader to what a sink holds.
ghost use Rattle.std.specs.Prelude.{◌≡◌, ◌<◌, ℕ, IfOk, List, count_by, length};
ghost use Rattle.alog_config.specs.Sinks.{is_leaf};
ghost use Rattle.alog_pipe.specs.Pipes.{Pipes};
ghost use Rattle.test_laws.specs.PipedLines.{BlocksLoseNone, FlowsTo, HoldsPieces, KeepsAll, LeavesNone, LosesNone, OverrunsNone};
ghost use Rattle.test_laws.specs.Stretches.{HoldsKept, HoldsStretches};

use alog_config::{BuildError, Config};
use alog_lines::laws::short_lines_are_whole;
use alog_msg::Level;
use alog_pipe::{Piped, TimedRead, pipe};
use alog_pool::laws::one_worker_writes_in_order;
use alog_sink::Store;
use std::alloc::Global;
use std::sync::Wait;
use std::thread::Threads;
use std::time::Clock;

/// Logs each line of a reader, as `pipe` does, which answers for it. Where the reader came to its end, each sink of the logger where no
/// turn met a fault and whose store tells its files holds, behind what it held, one message for each piece of the reader's lines, in
/// their order, with their texts, of this logger and level, but for those that are missing or were below the logger's level, of which
/// there are as many as the answer counts. In place of missing ones that follow each other there is a message that says how many they
/// are, unless it is below that level; of the last ones there is none where the logger keeps copies for a backtrace and there was no
/// memory for one. If the sink is no fan it was opened over one of the stores, and its files are those of that store with the lines of
/// these messages.
///
/// Where the answer counts no piece that is missing or was below the level, there is exactly one message for each. Where their lines are
/// the texts alone, the sink's file, or the runs of its files one behind the other, are what was there and then these texts; and where the
/// reader's lines are short and in UTF-8, these are the reader's bytes.
///
/// Where the logger overruns the oldest, this is so if nothing was overrun; and if something was, the sink holds those messages but for as
/// many as the answer counts, in their order. Under the other policies nothing is overrun, whatever is missing.
///
/// Where the logger waits for room and keeps no copies for a backtrace, none is missing of fewer than 2^62 - 1 pieces: a queue has 2^62
/// tickets, of which the pool's stop may take one.
pub fn pipe_lines<R, S, I>(
    rt: &R,
    alloc: Global,
    config: &Config,
    stores: Vec<S>,
    input: &mut I,
    logger: u32,
    level: Level,
) -> Result<Piped<S>, BuildError>
where
    R: Threads + Wait + Clock + Clone + Drop + Send + 'static,
    S: Store + Drop + Send + 'static,
    I: TimedRead,
    requires many { length stores.items ≡ count_by is_leaf config.now.sinks.items }
    requires known { logger < length config.now.loggers.items }
    ensures piped { IfOk result (λ p. Pipes S.tells S.files S.failures config.now stores.items logger level (I.remaining input.old)
        (I.remaining input.new) p) }
    ensures spared { IfOk result (λ p. (h : Pipes S.tells S.files S.failures config.now stores.items logger level (I.remaining input.old)
        (I.remaining input.new) p) → OverrunsNone S.tells S.files S.failures h) }
    ensures said { IfOk result (λ p. (h : Pipes S.tells S.files S.failures config.now stores.items logger level (I.remaining input.old)
        (I.remaining input.new) p) (n : ℕ) (bytes : List ℕ) (f : FlowsTo S.tells S.files S.failures n bytes h)
        → LeavesNone S.tells S.files S.failures f) }
    ensures waits { IfOk result (λ p. (h : Pipes S.tells S.files S.failures config.now stores.items logger level (I.remaining input.old)
        (I.remaining input.new) p) (n : ℕ) (bytes : List ℕ) (f : FlowsTo S.tells S.files S.failures n bytes h)
        → BlocksLoseNone S.tells S.files S.failures f) }
    ensures kept { IfOk result (λ p. (h : Pipes S.tells S.files S.failures config.now stores.items logger level (I.remaining input.old)
        (I.remaining input.new) p) (n : ℕ) (bytes : List ℕ) → FlowsTo S.tells S.files S.failures n bytes h
        → HoldsKept S.files logger level n stores.items h.setup.sinks.items p.report.sinks.items config.now.text bytes p.missing p.below
        h.through.log.hole p.report.totals.overrun) }
    ensures told { IfOk result (λ p. (h : Pipes S.tells S.files S.failures config.now stores.items logger level (I.remaining input.old)
        (I.remaining input.new) p) (n : ℕ) (bytes : List ℕ) (f : FlowsTo S.tells S.files S.failures n bytes h)
        → KeepsAll S.tells S.files S.failures f → HoldsStretches S.files logger level n stores.items h.setup.sinks.items p.report.sinks.items config.now.text bytes p.missing p.below
        h.through.log.hole) }
    ensures held { IfOk result (λ p. (h : Pipes S.tells S.files S.failures config.now stores.items logger level (I.remaining input.old)
        (I.remaining input.new) p) (n : ℕ) (bytes : List ℕ) (f : FlowsTo S.tells S.files S.failures n bytes h)
        → KeepsAll S.tells S.files S.failures f → LosesNone p → HoldsPieces S.files logger level n stores.items h.setup.sinks.items p.report.sinks.items config.now.text bytes) }
{
    let piped = pipe(rt, alloc, config, stores, input, logger, level);
    one_worker_writes_in_order::<S>();
    short_lines_are_whole();
    piped
}
