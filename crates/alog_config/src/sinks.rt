//! The sinks of a configuration, looked up by names.
ghost use Rattle.std.specs.Prelude.{◌≡◌, ◌↔◌, IsTrue, count_by};
ghost use Rattle.std.specs.List.{Any};
ghost use Rattle.alog_config.specs.Sinks.{AnyFan, AnyMember, AnyUnknown, HasFile, HasMember, IsFan, IsFanName, IsFile};
ghost use Rattle.alog_config.specs.Sinks.{IsMember, IsSinkName, is_leaf};

use crate::config::{Config, SinkConfig, SinkKind};
use alog_msg::Text;

impl SinkConfig {
    /// Whether it is a fan.
    pub fn is_fan(&self) -> bool
        ensures { IsTrue result ↔ IsFan self.now }
    {
        matches!(self.kind, SinkKind::Fan { .. })
    }

    /// Whether its lines go to this file.
    fn has_file(&self, file: &str) -> bool
        ensures { IsTrue result ↔ HasFile file.now self.now }
    {
        match &self.kind {
            SinkKind::Lines { file: own, .. } => own.as_str() == file,
            SinkKind::Fan { .. } => false,
        }
    }

    /// Whether it is a fan that has the sink of this name as a member.
    fn has_member(&self, name: &str) -> bool
        ensures { IsTrue result ↔ HasMember name.now self.now }
    {
        match &self.kind {
            SinkKind::Lines { .. } => false,
            SinkKind::Fan { of } => of.contains(name),
        }
    }
}

/// Whether a sink has this name.
pub(crate) fn is_sink_name(sinks: &[SinkConfig], name: &str) -> bool
    ensures { IsTrue result ↔ IsSinkName sinks.now name.now }
{
    sinks.iter().any(|sink| sink.name.as_str() == name)
}

/// Whether a fan has this name.
fn is_fan_name(sinks: &[SinkConfig], name: &str) -> bool
    ensures { IsTrue result ↔ IsFanName sinks.now name.now }
{
    sinks
        .iter()
        .any(|sink| sink.is_fan() && sink.name.as_str() == name)
}

/// Whether a fan among these has the sink of this name as a member: such a sink is no sink of its own for loggers.
pub fn is_member(sinks: &[SinkConfig], name: &str) -> bool
    ensures { IsTrue result ↔ IsMember sinks.now name.now }
{
    sinks.iter().any(|sink| sink.has_member(name))
}

/// Whether the lines of a sink go to this file.
pub(crate) fn is_file(sinks: &[SinkConfig], file: &str) -> bool
    ensures { IsTrue result ↔ IsFile sinks.now file.now }
{
    sinks.iter().any(|sink| sink.has_file(file))
}

/// Whether one of the names is that of no sink.
pub(crate) fn any_unknown(sinks: &[SinkConfig], names: &[Text]) -> bool
    ensures { IsTrue result ↔ AnyUnknown sinks.now names.now }
{
    names.iter().any(|name| !is_sink_name(sinks, name.as_str()))
}

/// Whether one of the names is that of a fan.
pub(crate) fn any_fan(sinks: &[SinkConfig], names: &[Text]) -> bool
    ensures { IsTrue result ↔ AnyFan sinks.now names.now }
{
    names.iter().any(|name| is_fan_name(sinks, name.as_str()))
}

/// Whether one of the names is that of a fan's member.
pub(crate) fn any_member(sinks: &[SinkConfig], names: &[Text]) -> bool
    ensures { IsTrue result ↔ AnyMember sinks.now names.now }
{
    names.iter().any(|name| is_member(sinks, name.as_str()))
}

/// How many stores the sinks of a configuration need: one for each that is no fan.
pub fn leaves(config: &Config) -> usize
    ensures { result ≡ count_by is_leaf config.now.sinks.items }
{
    let mut count = 0;
    for sink in &config.sinks {
        if !sink.is_fan() {
            count += 1;
        }
    }
    count
}
