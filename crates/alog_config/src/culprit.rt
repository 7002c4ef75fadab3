//! Which key of a table breaks a rule.
ghost use Rattle.std.specs.Prelude.{◌↔◌, [], IsTrue};
ghost use Rattle.alog_config.specs.Culprits.{HasBadFileKey, HasBadOfKey, HasBadSinksKey, IsFirstTold, IsLoggerCulprit};
ghost use Rattle.alog_config.specs.Culprits.{IsSinkCulprit, IsTopCulprit, LacksKey, needed_keys};
ghost use Rattle.alog_config.specs.Rules.{IsFirst};
ghost use Rattle.alog_config.specs.declared.field.Field.TheVariants.{Given};

use crate::config::SinkConfig;
use crate::fault::Rule;
use crate::field::Field;
use crate::keys::Kind;
use crate::logger_fields::LoggerFields;
use crate::sink_fields::SinkFields;
use crate::top::{TopFields, lacks_tables};
use crate::words::Key;

/// The first of these keys that is told.
fn first_told(keys: &[(Key, bool)]) -> Option<Key>
    ensures { IsFirstTold keys.now result }
{
    match keys {
        [] => None,
        [(key, true), ..] => Some(*key),
        [(_, false), rest @ ..] => first_told(rest),
    }
}

impl TopFields<'_> {
    /// The first key by which the top breaks a rule.
    pub(crate) fn culprit(&self, rule: Rule) -> Option<Key>
        ensures { IsTopCulprit self.now rule result }
    {
        match rule {
            Rule::BadValue => self.bad_key(),
            Rule::Missing => first_told(&[
                (Key::Sink, lacks_tables(&self.sinks)),
                (Key::Logger, lacks_tables(&self.loggers)),
            ]),
            Rule::UnknownKey | Rule::NameTaken | Rule::NoSuchSink => None,
        }
    }

    /// The first key with a value that it can not have.
    fn bad_key(&self) -> Option<Key>
        ensures { IsTopCulprit self.now Rule.BadValue result }
    {
        first_told(&[
            (Key::Queue, self.queue.is_bad()),
            (Key::Workers, self.workers.is_bad()),
            (Key::Text, self.text.is_bad()),
            (Key::Offset, self.offset.is_bad()),
            (Key::Zone, self.has_bad_zone_key()),
            (Key::Process, self.process.is_bad()),
            (Key::Retry, self.retry.is_bad()),
            (Key::Sink, self.sinks.is_bad()),
            (Key::Logger, self.loggers.is_bad()),
        ])
    }
}

impl SinkFields {
    /// The first key by which a sink breaks a rule behind these earlier ones.
    pub(crate) fn culprit(&self, earlier: &[SinkConfig], rule: Rule) -> Option<Key>
        ensures { IsSinkCulprit earlier.now self.now rule result }
    {
        match rule {
            Rule::UnknownKey => None,
            Rule::BadValue => self.bad_key(earlier),
            Rule::Missing => self.lacked_key(),
            Rule::NameTaken => Some(Key::Name),
            Rule::NoSuchSink => Some(Key::Of),
        }
    }

    /// The first key with a value that it can not have.
    fn bad_key(&self, earlier: &[SinkConfig]) -> Option<Key>
        ensures { IsSinkCulprit earlier.now self.now Rule.BadValue result }
    {
        first_told(&[
            (Key::Name, self.name.is_bad()),
            (Key::Kind, self.kind.is_bad()),
            (Key::Level, self.level.is_bad()),
            (Key::Pattern, self.pattern.is_bad()),
            (Key::File, self.has_bad_file_key(earlier)),
            (Key::MaxSize, self.max_size.is_bad()),
            (Key::MaxFiles, self.max_files.is_bad()),
            (Key::Hour, self.hour.is_bad()),
            (Key::Minute, self.minute.is_bad()),
            (Key::Of, self.has_bad_of_key(earlier)),
        ])
    }

    /// Whether its file can not be read, or can be none.
    fn has_bad_file_key(&self, earlier: &[SinkConfig]) -> bool
        ensures { IsTrue result ↔ HasBadFileKey earlier.now self.now }
    {
        self.file.is_bad() || self.has_bad_file(earlier)
    }

    /// Whether its members can not be read, or can be none.
    fn has_bad_of_key(&self, earlier: &[SinkConfig]) -> bool
        ensures { IsTrue result ↔ HasBadOfKey earlier.now self.now }
    {
        self.of.is_bad() || self.has_bad_member(earlier)
    }

    /// The first key that must be given and is missing.
    fn lacked_key(&self) -> Option<Key>
        ensures { IsSinkCulprit [] self.now Rule.Missing result }
    {
        match &self.kind {
            Field::Given(kind) => self.lacked_of(*kind),
            Field::Absent | Field::Bad => first_told(&[
                (Key::Name, self.name.is_absent()),
                (Key::Kind, self.kind.is_absent()),
            ]),
        }
    }

    /// The first key that a sink of this kind must be given, and that is missing.
    fn lacked_of(&self, kind: Kind) -> Option<Key>
        ensures { IsFirst (needed_keys (Given kind)) (LacksKey self.now) result }
    {
        let name = (Key::Name, self.name.is_absent());
        let named = (Key::Kind, self.kind.is_absent());
        let file = (Key::File, self.file.is_absent());
        match kind {
            Kind::Memory => first_told(&[name, named]),
            Kind::Rotating => first_told(&[
                name,
                named,
                file,
                (Key::MaxSize, self.max_size.is_absent()),
                (Key::MaxFiles, self.max_files.is_absent()),
            ]),
            Kind::Daily => first_told(&[name, named, file]),
            Kind::Fan => first_told(&[name, named, (Key::Of, self.of.is_absent())]),
        }
    }
}

impl LoggerFields {
    /// The first key by which a logger breaks a rule, with these sinks.
    pub(crate) fn culprit(&self, sinks: &[SinkConfig], rule: Rule) -> Option<Key>
        ensures { IsLoggerCulprit sinks.now self.now rule result }
    {
        match rule {
            Rule::UnknownKey => None,
            Rule::BadValue => first_told(&[
                (Key::Name, self.name.is_bad()),
                (Key::Level, self.level.is_bad()),
                (Key::Policy, self.policy.is_bad()),
                (Key::Sinks, self.has_bad_sinks_key(sinks)),
                (Key::FlushOn, self.flush_on.is_bad()),
                (Key::Backtrace, self.backtrace.is_bad()),
            ]),
            Rule::Missing => first_told(&[
                (Key::Name, self.name.is_absent()),
                (Key::Sinks, self.sinks.is_absent()),
            ]),
            Rule::NameTaken => Some(Key::Name),
            Rule::NoSuchSink => Some(Key::Sinks),
        }
    }

    /// Whether its sinks can not be read, or one can not be its.
    fn has_bad_sinks_key(&self, sinks: &[SinkConfig]) -> bool
        ensures { IsTrue result ↔ HasBadSinksKey sinks.now self.now }
    {
        self.sinks.is_bad() || self.has_lent_sink(sinks)
    }
}
