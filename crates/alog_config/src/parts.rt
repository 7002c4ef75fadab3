//! Sinks that were built, by the names that the configuration gives them.
ghost use Rattle.std.specs.Prelude.{◌≡◌, ◌↔◌, ◌<◌, ◌≤◌, IsTrue, length, map, slice_get, IfOk, IfSome, None, vec_len};
ghost use Rattle.std.specs.List.{Any, AllPairs};
ghost use Rattle.alog_config.specs.Built.{EachIs, IsPlace};
ghost use Rattle.alog_config.specs.Parts.{AnyBuiltFan, AreAllKnown, MakesFan, TakesOut};
ghost use Rattle.alog_config.specs.Values.{AreNames};

use crate::TABLES_MAX;
use crate::config::SinkConfig;
use alog_msg::{Level, Text};
use alog_sink::{NoFan, OpenError, Sink, Store};
use std::alloc::{AllocError, Global};

/// A sink of a configuration, and what was built of it.
#[derive(Drop)]
pub(crate) struct Part<'c, S> {
    pub config: &'c SinkConfig,
    pub sink: Sink<S>,
}

impl<S> Part<'_, S> {
    /// Whether the sink has this name.
    fn has_name(&self, name: &str) -> bool
        ensures { IsTrue result ↔ (self.now.config.now.name ≡ name.now) }
    {
        let config = self.config;
        config.name.as_str() == name
    }
}

/// The place of the sink of this name.
fn place_of<S: Store>(parts: &[Part<'_, S>], name: &str) -> Option<usize>
    ensures place { IfSome result (λ n. IsPlace parts.now name.now n) }
    ensures within { IfSome result (λ n. n < length parts.now) }
    ensures none { result ≡ None → ¬ Any (λ p. p.config.now.name ≡ name.now) parts.now }
{
    for i in 0..parts.len() {
        if parts[i].has_name(name) {
            return Some(i);
        }
    }
    None
}

/// The places of the sinks of these names.
pub(crate) fn places_of<S: Store>(
    alloc: Global,
    parts: &[Part<'_, S>],
    names: &[Text],
) -> Result<Vec<u32>, AllocError>
    requires few { length parts.now ≤ TABLES_MAX }
    requires known { AreAllKnown parts.now names.now }
    ensures { IfOk result (λ v. EachIs (IsPlace parts.now) names.now v.items) }
{
    let mut places = Vec::with_capacity(alloc, names.len())?;
    for name in names {
        let Some(place) = place_of(parts, name.as_str()) else {
            unreachable!();
        };
        places.push_reserved(place as u32);
    }
    Ok(places)
}

/// Takes the sinks of these names out of the parts.
fn taken<S: Store + Drop>(
    alloc: Global,
    parts: &mut Vec<Part<'_, S>>,
    names: &[Text],
) -> Result<Vec<Sink<S>>, AllocError>
    requires known { AreAllKnown parts.old.items names.now }
    requires apart { AllPairs (λ a b. ¬ (a ≡ b)) names.now }
    ensures { IfOk result (λ v. TakesOut parts.old.items names.now v.items parts.new.items) }
{
    let mut sinks = Vec::with_capacity(alloc, names.len())?;
    for name in names {
        let Some(place) = place_of(parts.as_slice(), name.as_str()) else {
            unreachable!();
        };
        let Part { sink, .. } = parts.remove(place);
        sinks.push_reserved(sink);
    }
    Ok(sinks)
}

/// Makes a fan of the sinks of these names, which leave the parts.
pub(crate) fn fan_of<S: Store + Drop>(
    alloc: Global,
    level: Level,
    parts: &mut Vec<Part<'_, S>>,
    names: &[Text],
) -> Result<Sink<S>, AllocError>
    requires known { AreAllKnown parts.old.items names.now }
    requires names { AreNames names.now }
    requires leaves { ¬ AnyBuiltFan parts.old.items names.now }
    ensures { IfOk result (λ s. MakesFan parts.old.items level names.now s parts.new.items) }
{
    let members = taken(alloc, parts, names)?;
    match Sink::fan(alloc, level, members) {
        Ok(fan) => Ok(fan),
        Err(NoFan { error, .. }) => match error {
            OpenError::OutOfMemory => Err(AllocError),
            OpenError::BadLimit | OpenError::BadName | OpenError::Store => unreachable!(),
        },
    }
}

/// The sinks of the parts.
pub(crate) fn sinks_of<S: Store + Drop>(
    alloc: Global,
    parts: Vec<Part<'_, S>>,
) -> Result<Vec<Sink<S>>, AllocError>
    ensures { IfOk result (λ v. v.items ≡ map (λ p. p.sink) parts.entry.items) }
{
    let mut sinks = Vec::new(alloc);
    for Part { sink, .. } in parts {
        if sinks.push(sink).is_err() {
            return Err(AllocError);
        }
    }
    Ok(sinks)
}
