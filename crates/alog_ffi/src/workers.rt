//! The call of who writes lines, on the handle of a worker.
ghost use Rattle.std.specs.Prelude.{◌≡◌};
ghost use Rattle.alog_ffi.specs.Calls.{AnswersWork, OnWorker};
ghost use Rattle.alog_ffi.specs.Handles.{held};

use crate::answer::Answer;
use crate::handle::AlogHandle;
use crate::part::Part;
use std::alloc::Global;

/// Lets a worker write the lines of up to so many items, and tells how many it ended, none where it is refused.
pub fn work(alloc: Global, at: &mut AlogHandle, most: usize, items: &mut usize) -> Answer
    ensures { OnWorker (held at.old) (items.new ≡ 0) (AnswersWork most items.new) result (held at.new) }
{
    *items = 0;
    let Some(mut part) = at.take(alloc) else {
        return Answer::NoHandle;
    };
    let answer = match &mut **part {
        Part::Worker(worker) => {
            let work = worker.work_some(most);
            *items = work.items;
            Answer::of_pause(work.pause)
        }
        _ => Answer::WrongHandle,
    };
    at.put(part);
    answer
}
