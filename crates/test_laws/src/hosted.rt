//! From a log call in a pool whose host brings the threads to what a sink holds.
ghost use Rattle.std.specs.Prelude.{◌≡◌, ◌≢◌, ◌≤◌, ◌<◌, ◌==◌, ℕ, Bool, [], count_by, length, vec_capacity, IfSome, IsTrue, None, Ok, Some, slice_get, true};
ghost use Rattle.std.specs.List.{AllByRecursion};
ghost use Rattle.alog_hosted.specs.Ends.{Disbands};
ghost use Rattle.alog_hosted.specs.Lent.{IsProducerOf};
ghost use Rattle.alog_hosted.specs.Workers.{IsWorkerOf};
ghost use Rattle.alog_hosted.specs.declared.once.Once.TheVariants as once;
ghost use Rattle.alog_policy.specs.declared.policy.Outcome.TheVariants.{Posted};
ghost use Rattle.alog_policy.specs.declared.policy.Policy.TheVariants.{OverrunOldest};
ghost use Rattle.alog_registry.specs.Given.{message_with};
ghost use Rattle.alog_registry.specs.Listed.{spec_at};
ghost use Rattle.alog_registry.specs.declared.logger.Spec.{Spec};
ghost use Rattle.alog_registry.specs.declared.logging.LogReply.TheVariants.{Logged};
ghost use Rattle.test_laws.specs.Written.{HoldsAt};

use alog_hosted::laws::hosted_pools_write_all;
use alog_hosted::{Host, Hosted, HostedProducer, HostedWorker, Once};
use alog_msg::{Level, MessageError};
use alog_policy::Outcome;
use alog_pool::Report;
use alog_pool::laws::posted_logs_put_their_text_in;
use alog_registry::LogReply;
use alog_sink::Store;
use std::alloc::Global;

/// Whether a log that never waits posted its message.
fn is_posted(reply: &Result<Once, MessageError>) -> bool
    ensures { IsTrue result → (t k : ℕ) × (kept : Bool) × (reply.now ≡ Ok (once.Logged (Logged (Posted t k) kept))) }
{
    matches!(
        reply,
        Ok(Once::Logged(LogReply::Logged {
            outcome: Outcome::Posted { .. },
            ..
        }))
    )
}

/// Makes a worker, where memory is there and the pool has one to make, and lets it write what was posted.
fn work<S: Store + Drop>(host: &mut Host<S>, hosted: &Hosted<S>, workers: &mut Vec<HostedWorker<S>>)
    requires hosted { hosted.now ≡ host.old.hosted }
    requires none { (workers.old.items ≡ []) × (host.old.hired ≡ 0) }
    requires room { 1 ≤ vec_capacity workers.old }
    ensures hosted { host.new.hosted ≡ host.old.hosted }
    ensures made { host.new.made ≡ host.old.made }
    ensures workers { AllByRecursion (IsWorkerOf hosted.now) workers.new.items }
    ensures all { length workers.new.items ≡ host.new.hired }
{
    if let Ok(mut worker) = host.worker(hosted) {
        let _work = worker.work_some(hosted, 1);
        workers.push_reserved(worker);
    }
}

/// Ends a pool with all producers and workers that it made.
fn end<S: Store + Drop>(
    host: Host<S>,
    hosted: Hosted<S>,
    producers: Vec<HostedProducer>,
    workers: Vec<HostedWorker<S>>,
) -> Report<S>
    requires hosted { hosted ≡ host.hosted }
    requires producers { AllByRecursion (IsProducerOf hosted) producers.items }
    requires workers { AllByRecursion (IsWorkerOf hosted) workers.items }
    requires all { (length producers.items ≡ host.made) × (length workers.items ≡ host.hired) }
    ensures { Disbands S.tells S.files S.failures host producers.items workers.items result }
{
    match host.disband(hosted, producers, workers) {
        Ok(report) => report,
        Err(_) => unreachable!(),
    }
}

/// Logs one message in a hosted pool that made no producer and no worker yet, lets a worker write it, where one can be had, and ends the
/// pool: its report, or `None` where memory is wanting or the message was not posted. Where its logger does not overrun the oldest, each sink
/// that stands once among the logger's, on which no turn met a fault and whose store tells its files, holds exactly that message behind what it
/// held, whether a worker wrote it or the pool itself at its end; and where it is a memory sink whose level the message passes, its file ends
/// with that message's line.
pub fn log_hosted<S: Store + Drop>(
    alloc: Global,
    host: Host<S>,
    hosted: Hosted<S>,
    number: u32,
    level: Level,
    time: i64,
    text: &str,
) -> Option<Report<S>>
    requires hosted { hosted ≡ host.hosted }
    requires new { (host.made ≡ 0) × (host.hired ≡ 0) }
    requires known { number < length hosted.shared.loggers }
    ensures { IfSome result (λ r. S.tells ≡ true → (s : Spec) (n : ℕ)
        → spec_at hosted.shared.loggers number ≡ Some s → s.policy ≢ OverrunOldest → count_by (λ k. k == n) s.sinks.items ≡ 1
        → slice_get r.faults.items n ≡ Some 0
        → HoldsAt S.files n hosted.lanes r.sinks.items (message_with number level time 0 text.now None)) }
{
    let mut host = host;
    let Ok(mut producers) = Vec::with_capacity(alloc, 1) else {
        end(host, hosted, Vec::new(alloc), Vec::new(alloc));
        return None;
    };
    let Ok(mut workers) = Vec::with_capacity(alloc, 1) else {
        end(host, hosted, producers, Vec::new(alloc));
        return None;
    };
    let Ok(mut producer) = host.producer(&hosted) else {
        end(host, hosted, producers, workers);
        return None;
    };
    let reply = producer.log_once(&hosted, alloc, number, level, time, text, None);
    producers.push_reserved(producer);
    work(&mut host, &hosted, &mut workers);
    let report = end(host, hosted, producers, workers);
    hosted_pools_write_all::<S>();
    posted_logs_put_their_text_in();
    if is_posted(&reply) {
        Some(report)
    } else {
        None
    }
}
