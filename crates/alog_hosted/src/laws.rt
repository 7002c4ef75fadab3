//! What is true of hosted pools that have ended.
ghost use Rattle.alog_hosted.specs.Written.{HostedPoolsWriteAll};

use alog_sink::Store;

/// Where a hosted pool has ended: what its workers took and what was left are exactly the texts and flushes that were posted and not overrun, each
/// once. Each sink was given exactly the turns that are due for them, each worker's in the order of its tickets, and those that the pool made itself
/// in the order in which it made them, and beside them own flushes. Where no turn on it met a fault, over a store that tells its files, it holds
/// exactly the lines of their texts in the order in which its lock was got, behind what it held before.
/// It does nothing: its contract is the law.
pub fn hosted_pools_write_all<S: Store>()
    ensures { HostedPoolsWriteAll S.tells S.files S.failures }
{}
