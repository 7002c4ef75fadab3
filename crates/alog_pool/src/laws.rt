//! What is true of all passes of a ring together, and of pools that have ended.
ghost use Rattle.alog_pool.specs.Ending.{NoWorkIsLeft};
ghost use Rattle.alog_pool.specs.OneWorker.{OneWorkerWritesInOrder};
ghost use Rattle.alog_pool.specs.Posted.{PostedLogsPutTheirTextIn};
ghost use Rattle.alog_pool.specs.Whole.{MembersBalance};
ghost use Rattle.alog_pool.specs.Workers.{WorkersWriteWhatWasPosted};

use alog_sink::Store;

/// Where a pass has seen everything: by whatever weight of tickets and items, what its members put in, they took out, or it is
/// left in the queue. With the weight that counts texts and flushes it tells that what was posted was handled, overrun or left.
/// It does nothing: its contract is the law.
pub fn members_balance<T, N>()
    ensures { MembersBalance T N }
{}

/// Where a pass has seen everything, and a worker has ended: no text and no flush is left in the queue, so what was posted was handled
/// or overrun. The pool posts its stops after all producers have come back, which is what this rests on.
/// It does nothing: its contract is the law.
pub fn no_work_is_left()
    ensures { NoWorkIsLeft }
{}

/// A log, with waiting or without, that answered that its message was posted under a ticket put exactly this text in, under that ticket,
/// as the last of its producer's own. It took nothing out, unless its policy is to overrun the oldest.
/// It does nothing: its contract is the law.
pub fn posted_logs_put_their_text_in()
    ensures { PostedLogsPutTheirTextIn }
{}

/// Where a pool has ended, whatever the number of its workers: each handled some of the texts and flushes that were posted and not
/// overrun, under rising tickets, and all together each of them once. Each sink was given exactly the turns that are due for them, and for
/// what was told of gaps, in the order in which its lock was got, each worker's in the order of its tickets, and beside them workers' own
/// flushes. Where no turn on it met a fault, over a store that tells its files, it holds exactly the lines of those texts in that order,
/// behind what it held before.
/// It does nothing: its contract is the law.
pub fn workers_write_what_was_posted<S: Store>()
    ensures { WorkersWriteWhatWasPosted S.tells S.files S.failures }
{}

/// Where a pool of one worker has ended: each sink was given exactly the turns that are due for what was posted and not overrun, and for
/// what was told of gaps, in the order of the tickets, and beside them the worker's own flushes. Where no turn on it met a fault, over a
/// store that tells its files, it holds exactly the lines of those texts in that order, behind what it held before.
/// It does nothing: its contract is the law.
pub fn one_worker_writes_in_order<S: Store>()
    ensures { OneWorkerWritesInOrder S.tells S.files S.failures }
{}
