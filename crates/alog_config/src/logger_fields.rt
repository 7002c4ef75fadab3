//! The table of one logger.
ghost use Rattle.std.specs.Prelude.{◌≡◌, ◌↔◌, [], IfOk, IfSome, IsTrue, None};
ghost use Rattle.alog_config.specs.Fields.{AreLoggerFields};
ghost use Rattle.alog_config.specs.Rules.{HasBadLoggerField, HasLentSink, IsFirst, LacksOrBadLogger, LoggerBreaks};
ghost use Rattle.alog_config.specs.Rules.{LogsToNoSink, TakesLoggerName, order};
ghost use Rattle.alog_config.specs.Meaning.{SaysLogger};
ghost use Rattle.toml.specs.View.{table_view};

use crate::broken::Broken;
use crate::config::{LoggerConfig, SinkConfig};
use crate::fault::Rule;
use crate::field::Field;
use crate::keys::{Owner, has_other_key};
use crate::lists::names_at;
use crate::names::NameList;
use crate::sinks::{any_member, any_unknown};
use crate::values::{count_at, level_at, name_at, policy_at};
use alog_msg::{Level, Text};
use alog_policy::Policy;
use alog_registry::KEPT_MAX;
use std::alloc::{AllocError, Global};
use toml::Table;

/// What a logger's table has at its keys.
#[derive(Drop)]
pub(crate) struct LoggerFields {
    /// Whether it has a key that loggers do not have.
    pub other_key: bool,
    pub name: Field<Text>,
    pub level: Field<Level>,
    pub policy: Field<Policy>,
    pub sinks: Field<NameList>,
    pub flush_on: Field<Level>,
    pub backtrace: Field<u32>,
}

/// Reads the keys of a logger.
pub(crate) fn logger_fields(alloc: Global, table: &Table) -> Result<LoggerFields, AllocError>
    ensures { IfOk result (AreLoggerFields (table_view table.now)) }
{
    Ok(LoggerFields {
        other_key: has_other_key(table, Owner::Logger),
        name: name_at(alloc, table, "name")?,
        level: level_at(table, "level"),
        policy: policy_at(table, "policy"),
        sinks: names_at(alloc, table, "sinks")?,
        flush_on: level_at(table, "flush_on"),
        backtrace: count_at(table, "backtrace", 0, KEPT_MAX as u32),
    })
}

impl LoggerFields {
    /// Whether a value can not be read.
    fn has_bad_field(&self) -> bool
        ensures { IsTrue result ↔ HasBadLoggerField self.now }
    {
        self.name.is_bad()
            || self.level.is_bad()
            || self.policy.is_bad()
            || self.sinks.is_bad()
            || self.flush_on.is_bad()
            || self.backtrace.is_bad()
    }

    /// Whether one of its sinks is a member of a fan.
    pub(crate) fn has_lent_sink(&self, sinks: &[SinkConfig]) -> bool
        ensures { IsTrue result ↔ HasLentSink sinks.now self.now }
    {
        match &self.sinks {
            Field::Given(names) => any_member(sinks, names.as_slice()),
            Field::Absent | Field::Bad => false,
        }
    }

    /// Whether a key has a value that it can not have.
    fn has_bad_value(&self, sinks: &[SinkConfig]) -> bool
        ensures { IsTrue result ↔ LoggerBreaks sinks.now [] self.now Rule.BadValue }
    {
        self.has_bad_field() || self.has_lent_sink(sinks)
    }

    /// Whether a key that must be given is missing.
    fn lacks_key(&self) -> bool
        ensures { IsTrue result ↔ LoggerBreaks [] [] self.now Rule.Missing }
    {
        self.name.is_absent() || self.sinks.is_absent()
    }

    /// Whether an earlier logger has its name.
    fn takes_name(&self, earlier: &[LoggerConfig]) -> bool
        ensures { IsTrue result ↔ TakesLoggerName earlier.now self.now }
    {
        match &self.name {
            Field::Given(name) => earlier
                .iter()
                .any(|logger| logger.name.as_str() == name.as_str()),
            Field::Absent | Field::Bad => false,
        }
    }

    /// Whether one of its sinks is none.
    fn logs_to_no_sink(&self, sinks: &[SinkConfig]) -> bool
        ensures { IsTrue result ↔ LogsToNoSink sinks.now self.now }
    {
        match &self.sinks {
            Field::Given(names) => any_unknown(sinks, names.as_slice()),
            Field::Absent | Field::Bad => false,
        }
    }

    /// The first rule that the logger breaks, behind these earlier ones and with these sinks.
    pub(crate) fn fault(&self, sinks: &[SinkConfig], earlier: &[LoggerConfig]) -> Option<Rule>
        ensures { IsFirst order (LoggerBreaks sinks.now earlier.now self.now) result }
    {
        let broken = Broken {
            unknown_key: self.other_key,
            bad_value: self.has_bad_value(sinks),
            missing: self.lacks_key(),
            name_taken: self.takes_name(earlier),
            no_such_sink: self.logs_to_no_sink(sinks),
        };
        broken.first()
    }

    /// The logger that the fields say, or `None` where a field that must be given is not.
    pub(crate) fn made(self) -> Option<LoggerConfig>
        ensures says { IfSome result (SaysLogger self) }
        ensures missing { result ≡ None → LacksOrBadLogger self }
    {
        let (Field::Given(name), Field::Given(sinks)) = (self.name, self.sinks) else {
            return None;
        };
        Some(LoggerConfig {
            name,
            level: self.level.or(Level::Info),
            policy: self.policy.or(Policy::Block),
            sinks,
            flush_on: self.flush_on.or(Level::Off),
            backtrace: self.backtrace.or(0) as usize,
        })
    }
}
