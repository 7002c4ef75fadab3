//! Calls on the handle of a pool: how it is opened, what it makes, and how it ends.
ghost use Rattle.std.specs.Prelude.{◌≡◌, ◌≢◌, IfOk, IfErr};
ghost use Rattle.alog_ffi.specs.Answers.{answer_by};
ghost use Rattle.std.specs.Mem.{manually_drop_value};
ghost use Rattle.alog_ffi.specs.Calls.{AnswersEnd, AnswersProducer, AnswersWorker, MakesProducer, MakesWorker};
ghost use Rattle.alog_ffi.specs.Handles.{held};
ghost use Rattle.alog_ffi.specs.Opening.{AnswersOpen, HasWords, IsUnopenedFor, OpensFrom, TellsWhy};
ghost use Rattle.alog_ffi.specs.declared.answer.Answer.TheVariants as answer;
ghost use Rattle.alog_ffi.specs.declared.part.Part.TheVariants.{Files, Nothing, Pool};

use crate::answer::Answer;
use crate::found_list::FoundList;
use crate::handle::AlogHandle;
use crate::opening::{Asked, Opened, Refusal, open as open_pool};
use crate::part::{Held, Part, out, room, set};
use crate::report::{AlogReport, report_of};
use alog_hosted::WorkerError;
use alog_outbox::Outbox;
use alog_owned::OwnedPool;
use alog_pool::ProducerError;
use std::alloc::Global;

/// Opens a pool of the configuration that a document says, and puts it into an empty handle. `files` holds the files that were found, or nothing; when the
/// pool is open, it holds what is to be done to the files. Where a configuration is refused, or the size of a sink's file cannot be told, as many bytes as there is
/// room for say why in words, which are UTF-8 but for the last letter where they are cut.
pub fn open(
    alloc: Global,
    pool: &mut AlogHandle,
    files: &mut AlogHandle,
    asked: Asked<'_>,
    told: &mut [u8],
    told_len: &mut usize,
) -> Answer
    ensures answers { AnswersOpen (held pool.old) (held files.old) asked.entry result (held pool.new) (held files.new) }
    ensures told { TellsWhy told.old told.new told_len.new result }
{
    *told_len = 0;
    if !pool.is_empty() {
        return Answer::InUse;
    }
    match files.take(alloc) {
        Some(part) => open_after(alloc, pool, files, part, asked, told, told_len),
        None => open_first(alloc, pool, files, asked, told, told_len),
    }
}

/// Opens a pool where nothing was told of files.
fn open_first(
    alloc: Global,
    pool: &mut AlogHandle,
    files: &mut AlogHandle,
    asked: Asked<'_>,
    told: &mut [u8],
    told_len: &mut usize,
) -> Answer
    requires empty { (held pool.old ≡ Nothing) × (held files.old ≡ Nothing) }
    requires untold { told_len.old ≡ 0 }
    ensures answers { AnswersOpen Nothing Nothing asked.entry result (held pool.new) (held files.new) }
    ensures told { TellsWhy told.old told.new told_len.new result }
{
    let (Ok(at), Ok(part)) = (room(alloc), room(alloc)) else {
        return Answer::NoMemory;
    };
    let mut found = FoundList::new(alloc);
    match open_over(alloc, &mut found, asked, told, told_len) {
        Ok(opened) => {
            lay(opened, pool, at, files, part);
            Answer::Done
        }
        Err(answer) => answer,
    }
}

/// Opens a pool over what was told of files, where that is what the handle had.
fn open_after(
    alloc: Global,
    pool: &mut AlogHandle,
    files: &mut AlogHandle,
    mut part: Held,
    asked: Asked<'_>,
    told: &mut [u8],
    told_len: &mut usize,
) -> Answer
    requires empty { (held pool.old ≡ Nothing) × (held files.old ≡ Nothing) }
    requires part { manually_drop_value part.value ≢ Nothing }
    requires untold { told_len.old ≡ 0 }
    ensures answers { AnswersOpen Nothing (manually_drop_value part.value) asked.entry result (held pool.new) (held files.new) }
    ensures told { TellsWhy told.old told.new told_len.new result }
{
    let (own, answer) = match out(&mut part) {
        Part::Found(mut found) => match room(alloc) {
            Ok(at) => match open_over(alloc, &mut found, asked, told, told_len) {
                Ok(opened) => {
                    lay(opened, pool, at, files, part);
                    return Answer::Done;
                }
                Err(answer) => (Part::Found(found), answer),
            },
            Err(_) => (Part::Found(found), Answer::NoMemory),
        },
        own => (own, Answer::WrongHandle),
    };
    set(&mut part, own);
    files.put(part);
    answer
}

/// Opens a pool over these files, or says why not.
fn open_over(
    alloc: Global,
    found: &mut FoundList,
    asked: Asked<'_>,
    told: &mut [u8],
    told_len: &mut usize,
) -> Result<Opened, Answer>
    requires { told_len.old ≡ 0 }
    ensures same { found.new ≡ found.old }
    ensures opened { IfOk result (λ o. OpensFrom asked.entry found.old o.pool o.drains.items) }
    ensures refused { IfErr result (IsUnopenedFor asked.entry found.old) }
    ensures told { TellsWhy told.old told.new told_len.new (answer_by (λ _. answer.Done) result) }
{
    let Ok(files) = found.share(alloc) else {
        return Err(Answer::NoMemory);
    };
    match open_pool(alloc, asked, &files) {
        Ok(opened) => Ok(opened),
        Err(Refusal::NoMemory) => Err(Answer::NoMemory),
        Err(Refusal::BadConfig(words)) => {
            *told_len = copy(words.as_str(), told);
            Err(Answer::BadConfig)
        }
        Err(Refusal::NoStore(words)) => {
            *told_len = copy(words.as_str(), told);
            Err(Answer::NoStore)
        }
    }
}

/// Puts a pool and its files into their handles.
fn lay(opened: Opened, pool: &mut AlogHandle, mut at: Held, files: &mut AlogHandle, mut part: Held)
    requires empty { (held pool.old ≡ Nothing) × (held files.old ≡ Nothing) }
    requires room { (manually_drop_value at.value ≡ Nothing) × (manually_drop_value part.value ≡ Nothing) }
    ensures { (held pool.new ≡ Pool opened.pool) × (held files.new ≡ Files opened.drains) }
{
    let Opened { pool: own, drains } = opened;
    set(&mut at, Part::Pool(own));
    pool.put(at);
    set(&mut part, Part::Files(drains));
    files.put(part);
}

/// Copies as many bytes as there is room for to the front, and answers how many.
fn copy(from: &str, to: &mut [u8]) -> usize
    ensures { HasWords to.old to.new result }
{
    let from = from.as_bytes();
    let count = from.len().min(to.len());
    to[..count].copy_from_slice(&from[..count]);
    count
}

/// Makes a producer of a pool, and puts it into an empty handle.
pub fn producer(alloc: Global, pool: &mut AlogHandle, producer: &mut AlogHandle) -> Answer
    ensures { MakesProducer (held producer.old) (held producer.new) (held pool.old) (held pool.new) result }
{
    if !producer.is_empty() {
        return Answer::InUse;
    }
    let Some(mut part) = pool.take(alloc) else {
        return Answer::NoHandle;
    };
    let answer = match &mut **part {
        Part::Pool(own) => make_producer(alloc, own, producer),
        _ => Answer::WrongHandle,
    };
    pool.put(part);
    answer
}

fn make_producer(alloc: Global, pool: &mut OwnedPool<Outbox>, producer: &mut AlogHandle) -> Answer
    requires { held producer.old ≡ Nothing }
    ensures { AnswersProducer (held producer.new) pool.old result pool.new }
{
    let Ok(mut at) = room(alloc) else {
        return Answer::NoMemory;
    };
    match pool.producer() {
        Ok(own) => {
            set(&mut at, Part::Producer(own));
            producer.put(at);
            Answer::Done
        }
        Err(ProducerError::TooMany) => Answer::TooMany,
        Err(ProducerError::OutOfMemory) => Answer::NoMemory,
    }
}

/// Makes a worker of a pool, and puts it into an empty handle.
pub fn worker(alloc: Global, pool: &mut AlogHandle, worker: &mut AlogHandle) -> Answer
    ensures { MakesWorker (held worker.old) (held worker.new) (held pool.old) (held pool.new) result }
{
    if !worker.is_empty() {
        return Answer::InUse;
    }
    let Some(mut part) = pool.take(alloc) else {
        return Answer::NoHandle;
    };
    let answer = match &mut **part {
        Part::Pool(own) => make_worker(alloc, own, worker),
        _ => Answer::WrongHandle,
    };
    pool.put(part);
    answer
}

fn make_worker(alloc: Global, pool: &mut OwnedPool<Outbox>, worker: &mut AlogHandle) -> Answer
    requires { held worker.old ≡ Nothing }
    ensures { AnswersWorker (held worker.new) pool.old result pool.new }
{
    let Ok(mut at) = room(alloc) else {
        return Answer::NoMemory;
    };
    match pool.worker() {
        Ok(own) => {
            set(&mut at, Part::Worker(own));
            worker.put(at);
            Answer::Done
        }
        Err(WorkerError::TooMany) => Answer::TooMany,
        Err(WorkerError::OutOfMemory) => Answer::NoMemory,
    }
}

/// Ends a pool whose producers and workers have all come back, empties its handle, and tells what became of all messages. What it wrote and flushed at
/// its end is for `take` to hand out.
pub fn shutdown(alloc: Global, pool: &mut AlogHandle, told: &mut AlogReport) -> Answer
    ensures { AnswersEnd (held pool.old) told.old told.new result (held pool.new) }
{
    let Some(mut part) = pool.take(alloc) else {
        return Answer::NoHandle;
    };
    let (own, answer) = match out(&mut part) {
        Part::Pool(own) => match own.end() {
            Ok(report) => {
                *told = report_of(&report);
                return Answer::Done;
            }
            Err(own) => (Part::Pool(own), Answer::PartsOut),
        },
        own => (own, Answer::WrongHandle),
    };
    set(&mut part, own);
    pool.put(part);
    answer
}
