//! The sinks of a configuration as its system has them: their names by number, and where the files of each are.
ghost use Rattle.std.specs.Prelude.{◌≡◌, IfOk, map};
ghost use Rattle.std.specs.List.{position};
ghost use Rattle.alog_replay.specs.OfConfig.{holds, is_member, member_in, names_of, place_of, places_of, tops_of};

use crate::command::TextRef;
use crate::places::Place;
use alog_config::{Config, SinkConfig, SinkKind};
use std::alloc::{AllocError, Global};

/// The number of the sink of this name among the members of a fan.
fn member_in(sink: &SinkConfig, name: &str) -> Option<usize>
    ensures { result ≡ member_in name.now sink.now.kind }
{
    match &sink.kind {
        SinkKind::Lines { .. } => None,
        SinkKind::Fan { of } => of
            .as_slice()
            .iter()
            .position(|member| member.as_str() == name),
    }
}

/// Whether a fan has the sink of this name as a member.
fn is_member(sinks: &[SinkConfig], name: &str) -> bool
    ensures { result ≡ is_member sinks.now name.now }
{
    sinks.iter().any(|sink| member_in(sink, name).is_some())
}

/// Whether it is the sink of this name, or a fan that has it as a member.
fn holds(sink: &SinkConfig, name: &str) -> bool
    ensures { result ≡ holds name.now sink.now }
{
    sink.name.as_str() == name || member_in(sink, name).is_some()
}

/// The sinks that the system has, by number: those that are no fan's member.
pub fn tops_of(alloc: Global, config: &Config) -> Result<Vec<&SinkConfig>, AllocError>
    ensures { IfOk result (λ v. map (λ s. s.now) v.items ≡ tops_of config.now) }
{
    let sinks = config.sinks.as_slice();
    sinks
        .iter()
        .filter(|sink| !is_member(sinks, sink.name.as_str()))
        .collect(alloc)
}

/// The names of these sinks.
pub fn names_of<'c>(alloc: Global, tops: &[&'c SinkConfig]) -> Result<Vec<TextRef<'c>>, AllocError>
    ensures { IfOk result (λ v. v.items ≡ map (λ s. s.now.name) tops.now) }
{
    tops.iter()
        .map(|top| TextRef::new(top.name.as_str()))
        .collect(alloc)
}

/// The number of the sink that has the files of the sink of this name: that sink, or a fan that has it as a member.
fn number_of(tops: &[&SinkConfig], name: &str) -> Option<usize>
    ensures { result ≡ position (λ t. holds name.now t.now) tops.now }
{
    tops.iter().position(|top| holds(top, name))
}

/// Where the files of a sink are, if these are the sinks that the system has; a fan has no files.
fn place_of<'c>(tops: &[&SinkConfig], sink: &'c SinkConfig) -> Option<Place<'c>>
    ensures { result ≡ place_of (map (λ s. s.now) tops.now) sink.now }
{
    if sink.is_fan() {
        return None;
    }
    let name = sink.name.as_str();
    let number = number_of(tops, name)?;
    Some(Place {
        name: TextRef::new(name),
        sink: number,
        member: member_in(tops[number], name),
    })
}

/// Where the files of each sink are, in the order of the configuration.
pub fn places_of<'c>(
    alloc: Global,
    config: &'c Config,
    tops: &[&SinkConfig],
) -> Result<Vec<Place<'c>>, AllocError>
    requires { map (λ s. s.now) tops.now ≡ tops_of config.now }
    ensures { IfOk result (λ v. v.items ≡ places_of config.now) }
{
    config
        .sinks
        .iter()
        .filter_map(|sink| place_of(tops, sink))
        .collect(alloc)
}
