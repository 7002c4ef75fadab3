//! What a run tells of each sink.
ghost use Rattle.std.specs.Prelude.{◌≡◌, ◌↔◌, ◌<◌, None, IfOk, IfSome, OnOk, length, vec_capacity, vec_len};
ghost use Rattle.std.specs.List.{Any};
ghost use Rattle.alog_config.specs.Built.{EachIs};
ghost use Rattle.alog_config.specs.Sinks.{IsMember};
ghost use Rattle.alog_server.specs.SinkEnds.{AreFilesOf, AreWithFaults, HasLines, IsEndOf, IsFileOf, LacksLines, TellsNext, TellsSinks};

use alog_config::{Config, NameList, SinkConfig, SinkKind, is_member};
use alog_msg::Text;
use std::alloc::{AllocError, Global};

/// What became of a sink.
#[derive(Debug, Drop)]
pub struct SinkEnd {
    /// Its name in the configuration.
    pub name: Text,
    /// How many turns at it were answered by a fault, at most 2^64 - 1.
    pub faults: u64,
    /// The files that the configuration names for it: its own, or those of the members of a fan, in their order. Files with numbers
    /// and dates have names made of these.
    pub files: NameList,
}

impl SinkEnd {
    /// A sink among these, without a fault.
    fn of(alloc: Global, sinks: &[SinkConfig], sink: &SinkConfig) -> Result<SinkEnd, AllocError>
        requires { ¬ LacksLines sinks.now sink.now.kind }
        ensures { IfOk result (λ e. IsEndOf sinks.now sink.now e) }
    {
        Ok(SinkEnd {
            name: Text::copy_of(alloc, sink.name.as_str())?,
            faults: 0,
            files: files_of(alloc, sinks, &sink.kind)?,
        })
    }
}

/// The sinks of a configuration that are no fan's member, in their order, without faults.
pub(crate) fn ends_of(alloc: Global, config: &Config) -> Result<Vec<SinkEnd>, AllocError>
    ensures { IfOk result (λ v. TellsSinks config.now v.items) }
{
    let sinks = config.sinks.as_slice();
    let mut ends = Vec::with_capacity(alloc, sinks.len())?;
    for sink in sinks {
        add(alloc, &mut ends, sinks, sink)?;
    }
    Ok(ends)
}

/// Adds a sink among these, unless it is a fan's member.
fn add(
    alloc: Global,
    ends: &mut Vec<SinkEnd>,
    sinks: &[SinkConfig],
    sink: &SinkConfig,
) -> Result<(), AllocError>
    requires lines { ¬ LacksLines sinks.now sink.now.kind }
    requires room { vec_len ends.old < vec_capacity ends.old }
    ensures next { OnOk result (TellsNext sinks.now sink.now ends.old.items ends.new.items) }
    ensures capacity { vec_capacity ends.new ≡ vec_capacity ends.old }
{
    if is_member(sinks, sink.name.as_str()) {
        return Ok(());
    }
    let end = SinkEnd::of(alloc, sinks, sink)?;
    ends.push_reserved(end);
    Ok(())
}

/// The files of a sink of this kind among these.
fn files_of(alloc: Global, sinks: &[SinkConfig], kind: &SinkKind) -> Result<NameList, AllocError>
    requires { ¬ LacksLines sinks.now kind.now }
    ensures { IfOk result (λ files. AreFilesOf sinks.now kind.now files) }
{
    match kind {
        SinkKind::Lines { file, .. } => {
            let mut files = NameList::new(alloc);
            files.push(alloc, file.as_str())?;
            Ok(files)
        }
        SinkKind::Fan { of } => files_named(alloc, sinks, of.as_slice()),
    }
}

/// The files of the sinks of these names, in their order.
fn files_named(alloc: Global, sinks: &[SinkConfig], names: &[Text]) -> Result<NameList, AllocError>
    requires { ¬ Any (λ name. ¬ HasLines sinks.now name) names.now }
    ensures { IfOk result (λ files. EachIs (IsFileOf sinks.now) names.now files) }
{
    let mut files = NameList::new(alloc);
    for name in names {
        let Some(file) = file_of(sinks, name.as_str()) else {
            unreachable!();
        };
        files.push(alloc, file)?;
    }
    Ok(files)
}

/// The file to which the lines of the sink of this name go. There is none where no sink has the name, and for a fan.
fn file_of<'c>(sinks: &'c [SinkConfig], name: &str) -> Option<&'c str>
    ensures some { IfSome result (λ f. IsFileOf sinks.now name.now f.now) }
    ensures none { result ≡ None → ¬ HasLines sinks.now name.now }
{
    for sink in sinks {
        if let SinkKind::Lines { file, .. } = &sink.kind
            && sink.name.as_str() == name
        {
            return Some(file.as_str());
        }
    }
    None
}

/// The same sinks with these faults.
pub(crate) fn with_faults(ends: Vec<SinkEnd>, faults: &[u64]) -> Vec<SinkEnd>
    requires { length ends.items ≡ length faults.now }
    ensures { AreWithFaults ends.items faults.now result.items }
{
    let mut ends = ends;
    for number in 0..ends.len() {
        ends[number].faults = faults[number];
    }
    ends
}
