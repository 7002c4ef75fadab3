//! The calls of a client. A message has the time of its call.
ghost use Rattle.std.specs.Prelude.{◌≡◌, None, Some};
ghost use Rattle.alog_policy.specs.Outlet.{IsPostedOrSpent};
ghost use Rattle.alog_policy.specs.declared.policy.Policy.TheVariants as under;
ghost use Rattle.alog_registry.specs.Listed.{spec_at};
ghost use Rattle.alog_registry.specs.declared.logger.Spec.{Spec};
ghost use Rattle.alog_server.specs.Reasons.{answer_of, outcomes_of};
ghost use Rattle.alog_server.specs.Says.{Dumps, DumpsAt, Flushes, Says, SaysAt, Waiting, AtOnce};

use crate::client::Client;
use crate::error::LogError;
use crate::home::Home;
use crate::logger::Logger;
use alog_msg::{Level, MessageError, SourceRef};
use alog_policy::Outcome;
use alog_registry::LogReply;
use std::alloc::AllocError;
use std::sync::Wait;
use std::time::Clock;

/// The time in nanoseconds since 1970 UTC; `None` where the clock cannot be read, or shows a time after 2262.
fn time_of(clock: &impl Clock) -> Option<i64> {
    let elapsed = clock.since_1970().ok()?;
    i64::try_from(elapsed.as_nanos()).ok()
}

/// A producer's answer to a log, as a client gives it.
fn answer_of(answer: Result<LogReply, MessageError>) -> Result<LogReply, LogError>
    ensures { result ≡ answer_of answer }
{
    match answer {
        Ok(reply) => Ok(reply),
        Err(error) => Err(LogError::from(error)),
    }
}

/// A producer's answer to a dump, as a client gives it.
fn outcomes_of(answer: Result<Vec<Outcome<()>>, AllocError>) -> Result<Vec<Outcome<()>>, LogError>
    ensures { result ≡ outcomes_of answer }
{
    match answer {
        Ok(outcomes) => Ok(outcomes),
        Err(_) => Err(LogError::OutOfMemory),
    }
}

impl<H: Home> Client<H> {
    /// Logs a message at this level, as `alog_pool::Producer::log` does: where the queue is full it waits under the policy `block`,
    /// and where the logger has a backtrace it waits for its lock.
    pub fn log(
        &mut self,
        rt: &(impl Wait + Clock),
        logger: &Logger<H>,
        level: Level,
        text: &str,
    ) -> Result<LogReply, LogError>
        ensures { Says Waiting logger.now.number level text.now None self.old result self.new }
    {
        let Some(time) = time_of(rt) else {
            return Err(LogError::NoTime);
        };
        self.log_at(rt, logger, level, time, text, None)
    }

    /// The same, from this place in the program.
    pub fn log_from(
        &mut self,
        rt: &(impl Wait + Clock),
        logger: &Logger<H>,
        level: Level,
        text: &str,
        source: SourceRef<'_>,
    ) -> Result<LogReply, LogError>
        ensures { Says Waiting logger.now.number level text.now (Some source.entry) self.old result self.new }
    {
        let Some(time) = time_of(rt) else {
            return Err(LogError::NoTime);
        };
        self.log_at(rt, logger, level, time, text, Some(source))
    }

    /// Logs a message at this level, as `alog_pool::Producer::log_now` does: it never waits.
    pub fn log_now(
        &mut self,
        clock: &impl Clock,
        logger: &Logger<H>,
        level: Level,
        text: &str,
    ) -> Result<LogReply, LogError>
        ensures { Says AtOnce logger.now.number level text.now None self.old result self.new }
    {
        let Some(time) = time_of(clock) else {
            return Err(LogError::NoTime);
        };
        self.log_now_at(logger, level, time, text)
    }

    /// Logs a message at level trace, as `log` does.
    pub fn trace(
        &mut self,
        rt: &(impl Wait + Clock),
        logger: &Logger<H>,
        text: &str,
    ) -> Result<LogReply, LogError>
        ensures { Says Waiting logger.now.number Level.Trace text.now None self.old result self.new }
    {
        self.log(rt, logger, Level::Trace, text)
    }

    /// Logs a message at level debug, as `log` does.
    pub fn debug(
        &mut self,
        rt: &(impl Wait + Clock),
        logger: &Logger<H>,
        text: &str,
    ) -> Result<LogReply, LogError>
        ensures { Says Waiting logger.now.number Level.Debug text.now None self.old result self.new }
    {
        self.log(rt, logger, Level::Debug, text)
    }

    /// Logs a message at level info, as `log` does.
    pub fn info(
        &mut self,
        rt: &(impl Wait + Clock),
        logger: &Logger<H>,
        text: &str,
    ) -> Result<LogReply, LogError>
        ensures { Says Waiting logger.now.number Level.Info text.now None self.old result self.new }
    {
        self.log(rt, logger, Level::Info, text)
    }

    /// Logs a message at level warning, as `log` does.
    pub fn warning(
        &mut self,
        rt: &(impl Wait + Clock),
        logger: &Logger<H>,
        text: &str,
    ) -> Result<LogReply, LogError>
        ensures { Says Waiting logger.now.number Level.Warning text.now None self.old result self.new }
    {
        self.log(rt, logger, Level::Warning, text)
    }

    /// Logs a message at level error, as `log` does.
    pub fn error(
        &mut self,
        rt: &(impl Wait + Clock),
        logger: &Logger<H>,
        text: &str,
    ) -> Result<LogReply, LogError>
        ensures { Says Waiting logger.now.number Level.Error text.now None self.old result self.new }
    {
        self.log(rt, logger, Level::Error, text)
    }

    /// Logs a message at level critical, as `log` does.
    pub fn critical(
        &mut self,
        rt: &(impl Wait + Clock),
        logger: &Logger<H>,
        text: &str,
    ) -> Result<LogReply, LogError>
        ensures { Says Waiting logger.now.number Level.Critical text.now None self.old result self.new }
    {
        self.log(rt, logger, Level::Critical, text)
    }

    /// Posts a flush of the logger, as `alog_pool::Producer::flush` does: it takes no memory and never waits.
    pub fn flush(&mut self, logger: &Logger<H>) -> Outcome<()>
        ensures { Flushes AtOnce logger.now.number self.old result self.new }
    {
        self.producer.flush(logger.number)
    }

    /// Posts a flush of the logger, as `alog_pool::Producer::flush_wait` does: where the queue is full it waits under the policy
    /// `block`, so that it is posted or no ticket is left, and it takes no memory.
    pub fn flush_wait(&mut self, rt: &(impl Wait + Clock), logger: &Logger<H>) -> Outcome<()>
        ensures post { Flushes Waiting logger.now.number self.old result self.new }
        ensures blocks { (s : Spec) → spec_at self.old.shared.loggers logger.now.number ≡ Some s → s.policy ≡ under.Block
            → IsPostedOrSpent result }
    {
        self.producer.flush_wait(rt, logger.number)
    }

    /// Posts what the backtrace of the logger kept, oldest first, between two markers, as `alog_pool::Producer::dump_backtrace`
    /// does: it waits for the lock of the backtrace, and its posts never wait. It answers how each post ended.
    pub fn dump_backtrace(
        &mut self,
        rt: &(impl Wait + Clock),
        logger: &Logger<H>,
    ) -> Result<Vec<Outcome<()>>, LogError>
        ensures { Dumps logger.now.number self.old result self.new }
    {
        let Some(time) = time_of(rt) else {
            return Err(LogError::NoTime);
        };
        self.dump_at(rt, logger, time)
    }

    /// Logs a message with this time.
    fn log_at(
        &mut self,
        rt: &(impl Wait + Clock),
        logger: &Logger<H>,
        level: Level,
        time: i64,
        text: &str,
        source: Option<SourceRef<'_>>,
    ) -> Result<LogReply, LogError>
        ensures { SaysAt time Waiting logger.now.number level text.now source.entry self.old result self.new }
    {
        let number = logger.number;
        let answer = self
            .producer
            .log(rt, self.alloc, number, level, time, text, source);
        answer_of(answer)
    }

    /// Logs a message with this time, without waiting.
    fn log_now_at(
        &mut self,
        logger: &Logger<H>,
        level: Level,
        time: i64,
        text: &str,
    ) -> Result<LogReply, LogError>
        ensures { SaysAt time AtOnce logger.now.number level text.now None self.old result self.new }
    {
        let number = logger.number;
        let answer = self
            .producer
            .log_now(self.alloc, number, level, time, text, None);
        answer_of(answer)
    }

    /// Dumps the backtrace between markers of this time.
    fn dump_at(
        &mut self,
        rt: &impl Wait,
        logger: &Logger<H>,
        time: i64,
    ) -> Result<Vec<Outcome<()>>, LogError>
        ensures { DumpsAt time logger.now.number self.old result self.new }
    {
        let number = logger.number;
        let answer = self.producer.dump_backtrace(rt, self.alloc, number, time);
        outcomes_of(answer)
    }
}
