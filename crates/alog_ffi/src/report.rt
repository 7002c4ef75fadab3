//! What a pool answers at its end.
ghost use Rattle.std.specs.Prelude.{◌≡◌, ℕ};
ghost use Rattle.alog_ffi.specs.Reports.{IsReportOf};
ghost use Rattle.alog_hosted.specs.Faults.{capped_sum_by};

use alog_pool::Report;
use alog_sink::Store;

/// What became of the texts and flushes that were logged to a pool, each number modulo 2^64: what was asked was posted or discarded, and what was
/// posted was overrun or handled. And how many turns at the sinks were answered by a fault, at most 2^64 - 1.
#[repr(C)]
#[derive(Clone, Copy, Debug, PartialEq, Eq, Drop)]
pub struct AlogReport {
    pub asked: u64,
    pub posted: u64,
    pub discarded: u64,
    pub overrun: u64,
    pub handled: u64,
    pub faults: u64,
}

/// What C is told of a report.
pub(crate) fn report_of<S: Store>(report: &Report<S>) -> AlogReport
    ensures { IsReportOf report.now result }
{
    AlogReport {
        asked: report.totals.asked,
        posted: report.totals.posted,
        discarded: report.totals.discarded,
        overrun: report.totals.overrun,
        handled: report.totals.handled,
        faults: sum_of(&report.faults),
    }
}

/// The sum of these, at most 2^64 - 1.
fn sum_of(counts: &[u64]) -> u64
    ensures { result ≡ capped_sum_by (λ (n : ℕ). n) counts.now }
{
    let mut sum: u64 = 0;
    for count in counts {
        sum = sum.saturating_add(*count);
    }
    sum
}
