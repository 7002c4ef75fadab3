//! The table of one sink.
ghost use Rattle.std.specs.Prelude.{◌≡◌, ◌↔◌, IfOk, IfSome, IsTrue, None, codes, option_map};
ghost use Rattle.alog_config.specs.Fields.{AreSinkFields, default_file, file_of, file_or, given};
ghost use Rattle.alog_config.specs.Rules.{HasBadFile, HasBadMember, HasBadSinkField, IsFirst, LacksOrBadSink};
ghost use Rattle.alog_config.specs.Rules.{LacksSinkKey, NamesNoSink, SinkBreaks, TakesName, order};
ghost use Rattle.alog_config.specs.Meaning.{MakesUpkeep, SaysSink};
ghost use Rattle.alog_config.specs.Values.{given_or};
ghost use Rattle.alog_pattern.specs.Compiled.{IsTextLimit};
ghost use Rattle.toml.specs.View.{table_view};

use crate::broken::Broken;
use crate::config::{SinkConfig, SinkKind, Upkeep};
use crate::fault::Rule;
use crate::field::Field;
use crate::keys::{Kind, Owner, has_other_key};
use crate::lists::names_at;
use crate::names::NameList;
use crate::sinks::{any_fan, any_member, any_unknown, is_file, is_sink_name};
use crate::values::{count_at, file_at, kind_at, level_at, name_at, number_at, pattern_at};
use alog_msg::{Level, Text};
use alog_sink::is_file_name;
use std::alloc::{AllocError, Global};
use toml::Table;

/// The most bytes of a rotating file, and the most files that a sink keeps.
const SIZE_MAX: u64 = 1 << 40;

const FILES_MAX: u32 = 1_000;

/// What a sink's table has at its keys.
#[derive(Drop)]
pub(crate) struct SinkFields {
    /// Whether it has a key that sinks of its kind do not have.
    pub other_key: bool,
    pub name: Field<Text>,
    pub kind: Field<Kind>,
    pub level: Field<Level>,
    pub pattern: Field<Text>,
    pub file: Field<Text>,
    pub max_size: Field<u64>,
    pub max_files: Field<u32>,
    pub hour: Field<u32>,
    pub minute: Field<u32>,
    pub of: Field<NameList>,
}

/// Reads the keys of a sink, whose pattern is for texts of this limit.
pub(crate) fn sink_fields(
    alloc: Global,
    table: &Table,
    limit: usize,
) -> Result<SinkFields, AllocError>
    requires { IsTextLimit limit }
    ensures { IfOk result (AreSinkFields limit (table_view table.now)) }
{
    let kind = kind_at(table, "kind");
    Ok(SinkFields {
        other_key: has_other_key(table, Owner::Sink(told(&kind))),
        name: name_at(alloc, table, "name")?,
        kind,
        level: level_at(table, "level"),
        pattern: pattern_at(alloc, table, "pattern", limit)?,
        file: file_at(alloc, table, "file")?,
        max_size: number_at(table, "max_size", 1, SIZE_MAX),
        max_files: count_at(table, "max_files", 0, FILES_MAX),
        hour: count_at(table, "hour", 0, 23),
        minute: count_at(table, "minute", 0, 59),
        of: names_at(alloc, table, "of")?,
    })
}

/// The kind, if it is told.
pub(crate) fn told(kind: &Field<Kind>) -> Option<Kind>
    ensures { result ≡ given kind.now }
{
    match kind {
        Field::Given(kind) => Some(*kind),
        Field::Absent | Field::Bad => None,
    }
}

impl SinkFields {
    /// The name of the file that its lines would go to.
    fn file_name(&self) -> Option<&str>
        ensures { option_map (λ s. s.now) result ≡ file_of self.now }
    {
        match (&self.file, &self.kind, &self.name) {
            (Field::Given(file), _, _) => Some(file.as_str()),
            (Field::Absent, Field::Given(Kind::Memory), Field::Given(name)) => Some(name.as_str()),
            _ => None,
        }
    }

    /// Whether the file's name can be none, or is that of an earlier sink's file.
    pub(crate) fn has_bad_file(&self, earlier: &[SinkConfig]) -> bool
        ensures { IsTrue result ↔ HasBadFile earlier.now self.now }
    {
        match self.file_name() {
            Some(file) => !is_file_name(file) || is_file(earlier, file),
            None => false,
        }
    }

    /// Whether one of the members that are named is a fan, or a member of an earlier fan.
    pub(crate) fn has_bad_member(&self, earlier: &[SinkConfig]) -> bool
        ensures { IsTrue result ↔ HasBadMember earlier.now self.now }
    {
        match &self.of {
            Field::Given(of) => {
                any_fan(earlier, of.as_slice()) || any_member(earlier, of.as_slice())
            }
            Field::Absent | Field::Bad => false,
        }
    }

    /// Whether a value can not be read.
    fn has_bad_field(&self) -> bool
        ensures { IsTrue result ↔ HasBadSinkField self.now }
    {
        self.name.is_bad()
            || self.kind.is_bad()
            || self.level.is_bad()
            || self.pattern.is_bad()
            || self.file.is_bad()
            || self.max_size.is_bad()
            || self.max_files.is_bad()
            || self.hour.is_bad()
            || self.minute.is_bad()
            || self.of.is_bad()
    }

    /// Whether a key has a value that it can not have.
    fn has_bad_value(&self, earlier: &[SinkConfig]) -> bool
        ensures { IsTrue result ↔ SinkBreaks earlier.now self.now Rule.BadValue }
    {
        self.has_bad_field() || self.has_bad_file(earlier) || self.has_bad_member(earlier)
    }

    /// Whether a key that must be given is missing.
    fn lacks_key(&self) -> bool
        ensures { IsTrue result ↔ LacksSinkKey self.now }
    {
        self.name.is_absent()
            || match &self.kind {
                Field::Absent => true,
                Field::Bad | Field::Given(Kind::Memory) => false,
                Field::Given(Kind::Rotating) => {
                    self.file.is_absent() || self.max_size.is_absent() || self.max_files.is_absent()
                }
                Field::Given(Kind::Daily) => self.file.is_absent(),
                Field::Given(Kind::Fan) => self.of.is_absent(),
            }
    }

    /// Whether an earlier sink has its name.
    fn takes_name(&self, earlier: &[SinkConfig]) -> bool
        ensures { IsTrue result ↔ TakesName earlier.now self.now }
    {
        match &self.name {
            Field::Given(name) => is_sink_name(earlier, name.as_str()),
            Field::Absent | Field::Bad => false,
        }
    }

    /// Whether one of the members that are named is no earlier sink.
    fn names_no_sink(&self, earlier: &[SinkConfig]) -> bool
        ensures { IsTrue result ↔ NamesNoSink earlier.now self.now }
    {
        match &self.of {
            Field::Given(of) => any_unknown(earlier, of.as_slice()),
            Field::Absent | Field::Bad => false,
        }
    }

    /// The first rule that the sink breaks behind these earlier ones.
    pub(crate) fn fault(&self, earlier: &[SinkConfig]) -> Option<Rule>
        ensures { IsFirst order (SinkBreaks earlier.now self.now) result }
    {
        let broken = Broken {
            unknown_key: self.other_key,
            bad_value: self.has_bad_value(earlier),
            missing: self.lacks_key(),
            name_taken: self.takes_name(earlier),
            no_such_sink: self.names_no_sink(earlier),
        };
        broken.first()
    }

    /// The sink that the fields say, or `None` where a field that must be given is not.
    pub(crate) fn made(self, alloc: Global) -> Result<Option<SinkConfig>, AllocError>
        ensures says { IfOk result (λ o. IfSome o (SaysSink self)) }
        ensures missing { IfOk result (λ o. o ≡ None → LacksOrBadSink self) }
    {
        let SinkFields {
            name,
            kind,
            level,
            pattern,
            file,
            max_size,
            max_files,
            hour,
            minute,
            of,
            ..
        } = self;
        let (Field::Given(name), Field::Given(kind)) = (name, kind) else {
            return Ok(None);
        };
        let level = level.or(Level::Trace);
        if kind == Kind::Fan {
            let Field::Given(of) = of else {
                return Ok(None);
            };
            let kind = SinkKind::Fan { of };
            return Ok(Some(SinkConfig { name, level, kind }));
        }
        let upkeep = upkeep_of(kind, max_size, max_files, hour, minute);
        let texts = texts_for(alloc, kind, &name, file, pattern)?;
        let (Some(upkeep), Some((file, pattern))) = (upkeep, texts) else {
            return Ok(None);
        };
        let kind = SinkKind::Lines {
            file,
            pattern,
            upkeep,
        };
        Ok(Some(SinkConfig { name, level, kind }))
    }
}

/// The file of a sink of this kind and name, as `file_for` has it, with the pattern of its lines.
fn texts_for(
    alloc: Global,
    kind: Kind,
    name: &Text,
    file: Field<Text>,
    pattern: Field<Text>,
) -> Result<Option<(Text, Text)>, AllocError>
    ensures { IfOk result (λ o. o ≡ option_map (λ f. (f, given_or (codes "%+") pattern))
        (file_or (default_file (Field.Given kind) (Field.Given name.now)) file)) }
{
    let Some(file) = file_for(alloc, kind, name, file)? else {
        return Ok(None);
    };
    Ok(Some((file, pattern_for(alloc, pattern)?)))
}

/// The file of a sink of this kind and name, where one is given or stands for it.
fn file_for(
    alloc: Global,
    kind: Kind,
    name: &Text,
    file: Field<Text>,
) -> Result<Option<Text>, AllocError>
    ensures { IfOk result (λ o. o ≡ file_or (default_file (Field.Given kind) (Field.Given name.now)) file) }
{
    match file {
        Field::Given(file) => Ok(Some(file)),
        Field::Absent if kind == Kind::Memory => Ok(Some(Text::copy_of(alloc, name.as_str())?)),
        _ => Ok(None),
    }
}

/// The pattern that is given, or else the default.
fn pattern_for(alloc: Global, pattern: Field<Text>) -> Result<Text, AllocError>
    ensures { IfOk result (λ t. t ≡ given_or (codes "%+") pattern) }
{
    match pattern {
        Field::Given(pattern) => Ok(pattern),
        _ => Text::copy_of(alloc, "%+"),
    }
}

/// The upkeep of a file, or `None` where a number that must be given is not.
fn upkeep_of(
    kind: Kind,
    max_size: Field<u64>,
    max_files: Field<u32>,
    hour: Field<u32>,
    minute: Field<u32>,
) -> Option<Upkeep>
    ensures { MakesUpkeep kind max_size max_files hour minute result }
{
    match kind {
        Kind::Memory => Some(Upkeep::Never),
        Kind::Rotating => match (max_size, max_files) {
            (Field::Given(max_size), Field::Given(max_files)) => Some(Upkeep::BySize {
                max_size,
                max_files: max_files as usize,
            }),
            _ => None,
        },
        Kind::Daily => Some(Upkeep::Daily {
            hour: hour.or(0),
            minute: minute.or(0),
            max_files: max_files.or(0) as usize,
        }),
        Kind::Fan => None,
    }
}
