//! What is told of a worker while its pool runs.
ghost use Rattle.std.specs.Prelude.{◌≡◌};
ghost use Rattle.alog_ffi.specs.Calls.{AnswersFaults, OnWorker};
ghost use Rattle.alog_ffi.specs.Handles.{held};

use crate::answer::Answer;
use crate::handle::AlogHandle;
use crate::part::Part;
use std::alloc::Global;

/// Tells how many turns at sinks a worker made so far that were answered by a fault, at most 2^64 - 1, and leaves the worker as it was. Where it is
/// refused, the number that was there stays.
pub fn faults(alloc: Global, at: &mut AlogHandle, faults: &mut u64) -> Answer
    ensures { OnWorker (held at.old) (faults.new ≡ faults.old) (AnswersFaults faults.new) result (held at.new) }
{
    let Some(part) = at.take(alloc) else {
        return Answer::NoHandle;
    };
    let answer = match &**part {
        Part::Worker(worker) => {
            *faults = worker.faults();
            Answer::Done
        }
        _ => Answer::WrongHandle,
    };
    at.put(part);
    answer
}
