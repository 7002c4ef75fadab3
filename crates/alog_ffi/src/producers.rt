//! Calls of those who log, on the handle of a producer, and what both it and its pool answer.
ghost use Rattle.std.specs.Prelude.{◌≡◌, ◌≢◌};
ghost use Rattle.alog_ffi.specs.Calls.{AnswersDump, AnswersFind, AnswersFlush, AnswersIsOn, AnswersLog, AnswersSetLevel, IsOnAmong, OnProducer, ticket_by};
ghost use Rattle.alog_ffi.specs.Handles.{held};
ghost use Rattle.alog_ffi.specs.declared.part.Part.TheVariants.{Nothing};

use crate::answer::Answer;
use crate::handle::AlogHandle;
use crate::hearing::level_of;
use crate::logging::{dump_of, flush_of, say};
use crate::part::Part;
use crate::said::Said;
use alog_hosted::Once;
use alog_msg::Level;
use alog_outbox::Outbox;
use alog_owned::OwnedProducer;
use alog_policy::Outcome;
use alog_registry::{LogReply, Loggers};
use std::alloc::Global;
use std::str;

/// Finds a logger by its name, by the handle of a producer or of its pool.
pub fn find(alloc: Global, at: &mut AlogHandle, name: &[u8], logger: &mut u32) -> Answer
    ensures same { held at.new ≡ held at.old }
    ensures found { AnswersFind (held at.old) name.now logger.old logger.new result }
{
    let Ok(name) = str::from_utf8(name) else {
        return Answer::NotUtf8;
    };
    let Some(part) = at.take(alloc) else {
        return Answer::NoHandle;
    };
    let answer = find_in(&part, name, logger);
    at.put(part);
    answer
}

/// Finds a logger of this part.
fn find_in(part: &Part, name: &str, logger: &mut u32) -> Answer
    requires { part.now ≢ Nothing }
    ensures { AnswersFind part.now name.now logger.old logger.new result }
{
    let Some(loggers) = part.loggers() else {
        return Answer::WrongHandle;
    };
    match loggers.find(name) {
        Some(number) => {
            *logger = number;
            Answer::Done
        }
        None => Answer::NoLogger,
    }
}

/// Sets the level of a logger for all threads, by the handle of a producer or of its pool.
pub fn set_level(alloc: Global, at: &mut AlogHandle, logger: u32, level: u32) -> Answer
    ensures same { held at.new ≡ held at.old }
    ensures set { AnswersSetLevel (held at.old) logger level result }
{
    let Some(level) = level_of(level) else {
        return Answer::NoLevel;
    };
    let Some(part) = at.take(alloc) else {
        return Answer::NoHandle;
    };
    let answer = match part.loggers() {
        Some(loggers) => {
            if loggers.set_level(logger, level) {
                Answer::Done
            } else {
                Answer::NoLogger
            }
        }
        None => Answer::WrongHandle,
    };
    at.put(part);
    answer
}

/// Asks whether a logger reads a message of this level: where it is not below the logger's level as it is now, or where the logger has a backtrace,
/// which keeps it; `Filtered` where it does not. By the handle of a producer or of its pool.
pub fn is_on(alloc: Global, at: &mut AlogHandle, logger: u32, level: u32) -> Answer
    ensures same { held at.new ≡ held at.old }
    ensures told { AnswersIsOn (held at.old) logger level result }
{
    let Some(level) = level_of(level) else {
        return Answer::NoLevel;
    };
    let Some(part) = at.take(alloc) else {
        return Answer::NoHandle;
    };
    let answer = match part.loggers() {
        Some(loggers) => hears(loggers, logger, level),
        None => Answer::WrongHandle,
    };
    at.put(part);
    answer
}

/// Whether a logger of these reads a message of this level.
fn hears(loggers: &Loggers, logger: u32, level: Level) -> Answer
    ensures { IsOnAmong loggers.now logger level result }
{
    if logger as usize >= loggers.len() {
        Answer::NoLogger
    } else if loggers.is_on(logger, level) {
        Answer::Done
    } else {
        Answer::Filtered
    }
}

/// Logs what was said by a producer. Where it was posted, its ticket is told.
#[inline(always)]
pub fn log(alloc: Global, at: &mut AlogHandle, said: Said<'_>, ticket: &mut u64) -> Answer
    ensures { OnProducer (held at.old) (ticket.new ≡ ticket.old) (AnswersLog said.entry ticket.old ticket.new) result (held at.new) }
{
    let Some(mut part) = at.take(alloc) else {
        return Answer::NoHandle;
    };
    let answer = match &mut **part {
        Part::Producer(producer) => log_by(producer, alloc, said, ticket),
        _ => Answer::WrongHandle,
    };
    at.put(part);
    answer
}

/// Logs by this producer.
#[inline(always)]
fn log_by(
    producer: &mut OwnedProducer<Outbox>,
    alloc: Global,
    said: Said<'_>,
    ticket: &mut u64,
) -> Answer
    ensures { AnswersLog said.entry ticket.old ticket.new producer.old result producer.new }
{
    match say(producer, alloc, said) {
        Ok(once) => {
            if let Once::Logged(LogReply::Logged { outcome, .. }) = &once {
                tell(outcome, ticket);
            }
            Answer::of_log(&once)
        }
        Err(refusal) => refusal,
    }
}

/// Tells the ticket of what was posted.
#[inline(always)]
fn tell(outcome: &Outcome<()>, to: &mut u64)
    ensures { to.new ≡ ticket_by outcome.now to.old }
{
    if let Outcome::Posted { ticket, .. } = outcome {
        *to = *ticket;
    }
}

/// Posts a flush of a logger by a producer. Where it was posted, its ticket is told.
pub fn flush(alloc: Global, at: &mut AlogHandle, logger: u32, ticket: &mut u64) -> Answer
    ensures { OnProducer (held at.old) (ticket.new ≡ ticket.old) (AnswersFlush logger ticket.old ticket.new) result (held at.new) }
{
    let Some(mut part) = at.take(alloc) else {
        return Answer::NoHandle;
    };
    let answer = match &mut **part {
        Part::Producer(producer) => flush_by(producer, logger, ticket),
        _ => Answer::WrongHandle,
    };
    at.put(part);
    answer
}

/// Posts a flush by this producer.
fn flush_by(producer: &mut OwnedProducer<Outbox>, logger: u32, ticket: &mut u64) -> Answer
    ensures { AnswersFlush logger ticket.old ticket.new producer.old result producer.new }
{
    match flush_of(producer, logger) {
        Ok(outcome) => {
            tell(&outcome, ticket);
            Answer::of_post(&outcome)
        }
        Err(refusal) => refusal,
    }
}

/// Posts what the backtrace of a logger kept, by a producer: a marker, the messages, oldest first, and a marker; nothing where nothing was kept. It tells
/// how many posts it made, none where it is refused. It never waits: where another thread is at the backtrace, nothing is done.
pub fn dump(alloc: Global, at: &mut AlogHandle, logger: u32, time: i64, posts: &mut usize) -> Answer
    ensures { OnProducer (held at.old) (posts.new ≡ 0) (AnswersDump logger time posts.new) result (held at.new) }
{
    *posts = 0;
    let Some(mut part) = at.take(alloc) else {
        return Answer::NoHandle;
    };
    let answer = match &mut **part {
        Part::Producer(producer) => dump_by(producer, alloc, logger, time, posts),
        _ => Answer::WrongHandle,
    };
    at.put(part);
    answer
}

/// Dumps by this producer.
fn dump_by(
    producer: &mut OwnedProducer<Outbox>,
    alloc: Global,
    logger: u32,
    time: i64,
    posts: &mut usize,
) -> Answer
    requires { posts.old ≡ 0 }
    ensures { AnswersDump logger time posts.new producer.old result producer.new }
{
    match dump_of(producer, alloc, logger, time) {
        Ok(outcomes) => {
            *posts = outcomes.len();
            Answer::Done
        }
        Err(refusal) => refusal,
    }
}
