//! What a producer logs of what was said.
ghost use Rattle.std.specs.Prelude.{◌≡◌};
ghost use Rattle.alog_ffi.specs.Saying.{DumpsSo, FlushesSo, LogsSo};

use crate::answer::Answer;
use crate::hearing::{filter_of, hear};
use crate::said::Said;
use alog_hosted::Once;
use alog_outbox::Outbox;
use alog_owned::{LogError, OwnedDumpError, OwnedProducer};
use alog_policy::Outcome;
use alog_registry::{DumpError, LogReply};
use std::alloc::Global;

/// Logs what was said, or tells why nothing was done. What its logger filters and keeps no copy of is not looked at.
#[inline(always)]
pub(crate) fn say(
    producer: &mut OwnedProducer<Outbox>,
    alloc: Global,
    said: Said<'_>,
) -> Result<Once, Answer>
    ensures { LogsSo producer.old said.entry result producer.new }
{
    if let Some(level) = filter_of(producer.loggers(), said) {
        return Ok(Once::Logged(LogReply::Filtered { level, kept: false }));
    }
    let heard = hear(producer.loggers(), said)?;
    match producer.log_once(
        alloc,
        heard.logger,
        heard.level,
        said.time,
        heard.text,
        heard.source,
    ) {
        Ok(once) => Ok(once),
        Err(LogError::NoLogger) => Err(Answer::NoLogger),
        Err(LogError::Refused(error)) => Err(Answer::of_refusal(error)),
    }
}

/// Posts a flush of this logger, if there is one.
pub(crate) fn flush_of(
    producer: &mut OwnedProducer<Outbox>,
    logger: u32,
) -> Result<Outcome<()>, Answer>
    ensures { FlushesSo producer.old logger result producer.new }
{
    match producer.flush(logger) {
        Some(outcome) => Ok(outcome),
        None => Err(Answer::NoLogger),
    }
}

/// Posts what the backtrace of this logger kept, if there is one, and nobody else is at it.
pub(crate) fn dump_of(
    producer: &mut OwnedProducer<Outbox>,
    alloc: Global,
    logger: u32,
    time: i64,
) -> Result<Vec<Outcome<()>>, Answer>
    ensures { DumpsSo producer.old logger time result producer.new }
{
    match producer.dump_once(alloc, logger, time) {
        Ok(outcomes) => Ok(outcomes),
        Err(OwnedDumpError::NoLogger) => Err(Answer::NoLogger),
        Err(OwnedDumpError::Refused(DumpError::Held)) => Err(Answer::Held),
        Err(OwnedDumpError::Refused(DumpError::OutOfMemory)) => Err(Answer::NoMemory),
    }
}
