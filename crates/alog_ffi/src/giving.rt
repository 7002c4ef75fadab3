//! How producers and workers come back.
ghost use Rattle.std.specs.Prelude.{◌≡◌};
ghost use Rattle.alog_ffi.specs.Calls.{AnswersGive};
ghost use Rattle.alog_ffi.specs.Handles.{held};

use crate::answer::Answer;
use crate::handle::AlogHandle;
use crate::part::{Part, out, set};
use std::alloc::Global;

/// Gives a producer or a worker back to its pool, and empties its handle. Where another thread gives something back at this moment, nothing is done: try
/// again.
pub fn give(alloc: Global, at: &mut AlogHandle) -> Answer
    ensures { AnswersGive (held at.old) result (held at.new) }
{
    let Some(mut part) = at.take(alloc) else {
        return Answer::NoHandle;
    };
    let (own, answer) = match out(&mut part) {
        Part::Producer(own) => match own.give_back() {
            Ok(()) => return Answer::Done,
            Err(own) => (Part::Producer(own), Answer::BusyPart),
        },
        Part::Worker(own) => match own.give_back() {
            Ok(()) => return Answer::Done,
            Err(own) => (Part::Worker(own), Answer::BusyPart),
        },
        own => (own, Answer::WrongHandle),
    };
    set(&mut part, own);
    at.put(part);
    answer
}
