//! From a log call to what a sink holds.
ghost use Rattle.std.specs.Prelude.{◌≡◌, ◌<◌, ℕ, Bool, [], ◌∷◌, length, IfSome, IsTrue, None, Ok, Some, slice_get, true};
ghost use Rattle.std.specs.List.{AllByRecursion};
ghost use Rattle.alog_policy.specs.declared.policy.Outcome.TheVariants.{Posted};
ghost use Rattle.alog_policy.specs.declared.policy.Policy.TheVariants.{Block};
ghost use Rattle.alog_pool.specs.Pool.{lanes_of};
ghost use Rattle.alog_pool.specs.Report.{Ends};
ghost use Rattle.alog_registry.specs.Given.{message_with};
ghost use Rattle.alog_registry.specs.Listed.{spec_at};
ghost use Rattle.alog_registry.specs.declared.logger.Spec.{Spec};
ghost use Rattle.alog_registry.specs.declared.logging.LogReply.TheVariants.{Logged};
ghost use Rattle.test_laws.specs.Written.{HoldsAt};

use alog_msg::{Level, MessageError};
use alog_policy::Outcome;
use alog_pool::laws::{one_worker_writes_in_order, posted_logs_put_their_text_in};
use alog_pool::{Pool, Producer, Report};
use alog_registry::LogReply;
use alog_sink::Store;
use std::alloc::Global;
use std::sync::Wait;
use std::thread::Threads;
use std::time::Clock;

/// Whether a log posted its message.
fn is_posted(reply: &Result<LogReply, MessageError>) -> bool
    ensures { IsTrue result → (t k : ℕ) × (kept : Bool) × (reply.now ≡ Ok (Logged (Posted t k) kept)) }
{
    matches!(
        reply,
        Ok(LogReply::Logged {
            outcome: Outcome::Posted { .. },
            ..
        })
    )
}

/// Ends a pool with all producers that it made.
fn end<R: Threads + Wait + Clock, S: Store + Drop + Send + 'static>(
    rt: &R,
    pool: Pool<S>,
    producers: Vec<Producer>,
) -> Report<S>
    requires own { AllByRecursion (λ p. p.shared ≡ pool.shared) producers.items }
    requires all { length producers.items ≡ pool.made }
    ensures { Ends S.tells S.files S.failures pool producers.items result }
{
    match pool.shutdown(rt, producers) {
        Ok(report) => report,
        Err(_) => unreachable!(),
    }
}

/// Logs one message in a pool that made no producer yet, and ends the pool: its report, or `None` where memory is wanting or the message
/// was not posted. In a pool of one worker whose logger waits for room and writes to one sink, where no turn on that sink met a fault and
/// its store tells its files, the sink holds exactly that message behind what it held; and where it is a memory sink whose level the
/// message passes, its file ends with that message's line.
pub fn log_alone<R: Threads + Wait + Clock, S: Store + Drop + Send + 'static>(
    rt: &R,
    alloc: Global,
    pool: Pool<S>,
    number: u32,
    level: Level,
    time: i64,
    text: &str,
) -> Option<Report<S>>
    requires new { pool.made ≡ 0 }
    requires known { number < length pool.shared.loggers }
    ensures { IfSome result (λ r. length pool.crew ≡ 1 → S.tells ≡ true → (s : Spec) (n : ℕ)
        → spec_at pool.shared.loggers number ≡ Some s → s.policy ≡ Block → s.sinks.items ≡ n ∷ [] → slice_get r.faults.items n ≡ Some 0
        → HoldsAt S.files n (lanes_of pool.sink_seats) r.sinks.items (message_with number level time 0 text.now None)) }
{
    let mut pool = pool;
    let Ok(mut producers) = Vec::with_capacity(alloc, 1) else {
        end(rt, pool, Vec::new(alloc));
        return None;
    };
    let Ok(mut producer) = pool.producer() else {
        end(rt, pool, producers);
        return None;
    };
    let reply = producer.log(rt, alloc, number, level, time, text, None);
    producers.push_reserved(producer);
    let report = end(rt, pool, producers);
    one_worker_writes_in_order::<S>();
    posted_logs_put_their_text_in();
    if is_posted(&reply) {
        Some(report)
    } else {
        None
    }
}
