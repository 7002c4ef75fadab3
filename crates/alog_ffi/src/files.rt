//! Calls of who does the calls on files: which files there are before, and what is to be done to them.
ghost use Rattle.std.specs.Prelude.{◌≡◌, ◌≢◌, ◌<◌, ◌≤◌, ◌↔◌, length, All, IsTrue, MatchOption};
ghost use Rattle.alog_ffi.specs.Files.{AnswersClose, AnswersFirst, AnswersFound, AnswersTake, AddsTo, AreLeft, AreTaken, IsOver, IsUntaken, OnFiles};
ghost use Rattle.alog_ffi.specs.Handles.{held};
ghost use Rattle.alog_ffi.specs.declared.part.Part.TheVariants.{Nothing};
ghost use Rattle.alog_outbox.specs.Views.{HasAll};

use crate::answer::Answer;
use crate::found_list::FoundList;
use crate::handle::AlogHandle;
use crate::part::{Part, out, room, set};
use alog_outbox::{AREA, Drain, FoundFile};
use std::alloc::Global;
use std::str;

/// Tells of a file that is in the folder before a pool is opened, and how many bytes it has. The handle holds nothing, or what was told before.
pub fn found(alloc: Global, at: &mut AlogHandle, name: &[u8], size: u64) -> Answer
    ensures { AnswersFound (held at.old) name.now size result (held at.new) }
{
    let Ok(name) = str::from_utf8(name) else {
        return Answer::NotUtf8;
    };
    let Some(mut part) = at.take(alloc) else {
        return found_first(alloc, at, name, size);
    };
    let answer = match &mut **part {
        Part::Found(files) => add(alloc, files, name, size),
        _ => Answer::WrongHandle,
    };
    at.put(part);
    answer
}

/// Puts a list of one file into an empty handle.
fn found_first(alloc: Global, at: &mut AlogHandle, name: &str, size: u64) -> Answer
    requires { held at.old ≡ Nothing }
    ensures { AnswersFirst name.now size result (held at.new) }
{
    let Ok(mut part) = room(alloc) else {
        return Answer::NoMemory;
    };
    let mut files = FoundList::new(alloc);
    match add(alloc, &mut files, name, size) {
        Answer::Done => {
            set(&mut part, Part::Found(files));
            at.put(part);
            Answer::Done
        }
        _ => Answer::NoMemory,
    }
}

/// Adds a file to a list.
fn add(alloc: Global, files: &mut FoundList, name: &str, size: u64) -> Answer
    ensures { AddsTo files.old name.now size result files.new }
{
    let Ok(name) = String::from_str(alloc, name) else {
        return Answer::NoMemory;
    };
    match files.push(alloc, FoundFile { name, size }) {
        Ok(()) => Answer::Done,
        Err(_) => Answer::NoMemory,
    }
}

/// Takes what is next to be done to the files of a sink: records, a whole number of them, at the front of memory that has room for an area. Of one sink
/// they come in the order in which its calls were made. Where there is nothing now, that is the answer, and no bytes are told; where the pool has ended and
/// all that it told its files was taken, that is the answer from then on.
pub fn take(alloc: Global, at: &mut AlogHandle, to: &mut [u8], length: &mut usize) -> Answer
    ensures { OnFiles (held at.old) (IsUntaken to.old to.new length.new) (AnswersTake to.old to.new length.new) result (held at.new) }
{
    *length = 0;
    let Some(mut part) = at.take(alloc) else {
        return Answer::NoHandle;
    };
    let answer = take_of(&mut **part, to, length);
    at.put(part);
    answer
}

/// Takes what is next of this part.
fn take_of(part: &mut Part, to: &mut [u8], length: &mut usize) -> Answer
    requires none { length.old ≡ 0 }
    requires some { part.old ≢ Nothing }
    ensures taken { OnFiles part.old (IsUntaken to.old to.new length.new) (AnswersTake to.old to.new length.new) result part.new }
    ensures some { part.new ≢ Nothing }
{
    match part {
        Part::Files(drains) => take_from(drains, to, length),
        Part::Nothing | Part::Pool(_) | Part::Producer(_) | Part::Worker(_) | Part::Found(_) => {
            Answer::WrongHandle
        }
    }
}

/// Takes the next area of the first sink that has one.
fn take_from(drains: &mut Vec<Drain>, to: &mut [u8], length: &mut usize) -> Answer
    requires { length.old ≡ 0 }
    ensures { AnswersTake to.old to.new length.new drains.old.items result drains.new.items }
{
    if to.len() < AREA {
        return Answer::TooShort;
    }
    for number in 0..drains.len() {
        if let Some(count) = take_at(drains, number, to) {
            *length = count;
            return Answer::Done;
        }
    }
    if have_ended(drains.as_slice()) {
        Answer::Ended
    } else {
        Answer::Idle
    }
}

/// Takes the next area of this sink, if it has one.
fn take_at(drains: &mut Vec<Drain>, number: usize, to: &mut [u8]) -> Option<usize>
    requires number { number < length drains.old.items }
    requires room { AREA ≤ length to.old }
    ensures count { length drains.new.items ≡ length drains.old.items }
    ensures taken { MatchOption result (AreLeft drains.old.items drains.new.items × (to.new ≡ to.old))
        (λ n. AreTaken to.old to.new n drains.old.items drains.new.items) }
{
    match drains[number].take_into(to) {
        Ok(count) => Some(count),
        Err(_) => None,
    }
}

/// Whether the ends of all were taken.
fn have_ended(drains: &[Drain]) -> bool
    ensures all { IsTrue result → All HasAll drains.now }
    ensures over { IsTrue result ↔ All IsOver drains.now }
{
    for drain in drains {
        if !drain.has_ended() {
            return false;
        }
    }
    true
}

/// Lets go of a list of files, or of what is still to be done to files, and empties the handle.
pub fn close(alloc: Global, at: &mut AlogHandle) -> Answer
    ensures { AnswersClose (held at.old) result (held at.new) }
{
    let Some(mut part) = at.take(alloc) else {
        return Answer::NoHandle;
    };
    match out(&mut part) {
        Part::Found(_) | Part::Files(_) => Answer::Done,
        own => {
            set(&mut part, own);
            at.put(part);
            Answer::WrongHandle
        }
    }
}
