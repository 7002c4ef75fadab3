//! The values of the options of `alog format`.
ghost use Rattle.std.specs.Prelude.{◌≡◌, ◌≤◌, ◌↔◌, IsNone, IfOk, IfErr, IfSome, MatchOption, Some, codes, neg_ℤ, pos, ◌≤ℤ◌};
ghost use Rattle.std.specs.Str.Parse.{digits_value, signed_digits_value};
ghost use Rattle.alog_format.specs.Civil.{IsZone};
ghost use Rattle.alog_msg.specs.Level.{Names};
ghost use Rattle.alog_msg.specs.Message.{fields_of};
ghost use Rattle.alog_program.specs.Options.{value_of, text_of, name_of, allowed_of, Allows, IsAllowed, IsClock, IsNumber, IsSignedNumber, IsTime, IsLevel, AsksFor};
ghost use Rattle.alog_program.specs.Options.{MayStand, Refuses, IsFirstRefused};
ghost use Rattle.alog_program.specs.declared.options.Allowed.TheVariants.{Signed, Unsigned, LevelName};

use crate::request::LineRequest;
use alog_format::{Context, OFFSET_MAX, Zone};
use alog_msg::{Level, SourceRef};
use clap::ArgMatches;
use std::fmt;
use std::fmt::{Display, Formatter, Write};
use thiserror::Error;

/// An option of `alog format` whose value is read. They are read in this order.
#[derive(Clone, Copy, Debug)]
pub enum FormatOption {
    Time,
    Offset,
    Zone,
    Level,
    Thread,
    Process,
    Line,
    Previous,
}

/// What the value of an option may be.
#[derive(Clone, Copy, Debug)]
pub enum Allowed {
    /// A decimal number within these limits. A minus may stand first, and no plus.
    Signed { least: i64, most: i64 },
    /// A decimal number without a sign, and no more than this.
    Unsigned { most: u64 },
    /// A POSIX rule, and no offset beside it.
    ZoneRule,
    /// The name of a level.
    LevelName,
}

/// An option is refused: its value cannot be read, or lies outside its limits.
#[derive(Clone, Copy, Debug, Error)]
#[error("--{name}={value:?} is refused: allowed is {allowed}", name = .option.name())]
pub struct ValueError<'a> {
    pub option: FormatOption,
    pub value: &'a str,
    pub allowed: Allowed,
}

impl FormatOption {
    /// The name, without its two dashes.
    pub fn name(self) -> &'static str
        ensures { result.now ≡ name_of self }
    {
        match self {
            FormatOption::Time => "time",
            FormatOption::Offset => "offset",
            FormatOption::Zone => "zone",
            FormatOption::Level => "level",
            FormatOption::Thread => "thread",
            FormatOption::Process => "process",
            FormatOption::Line => "line",
            FormatOption::Previous => "previous",
        }
    }

    /// What its value may be.
    pub fn allowed(self) -> Allowed
        ensures { result ≡ allowed_of self }
    {
        match self {
            FormatOption::Time | FormatOption::Previous => Allowed::Signed {
                least: i64::MIN,
                most: i64::MAX,
            },
            FormatOption::Offset => Allowed::Signed {
                least: i64::from(-OFFSET_MAX),
                most: i64::from(OFFSET_MAX),
            },
            FormatOption::Zone => Allowed::ZoneRule,
            FormatOption::Level => Allowed::LevelName,
            FormatOption::Thread => Allowed::Unsigned { most: u64::MAX },
            FormatOption::Process | FormatOption::Line => Allowed::Unsigned {
                most: u64::from(u32::MAX),
            },
        }
    }

    /// The refusal of this value.
    fn refuse<'a>(self, value: &'a str) -> ValueError<'a>
        ensures { result ≡ record { option = self; value = value.entry; allowed = allowed_of self } }
    {
        ValueError {
            option: self,
            value,
            allowed: self.allowed(),
        }
    }
}

impl Display for Allowed {
    fn fmt<W: Write>(&self, f: &mut Formatter<W>) -> fmt::Result {
        match *self {
            Allowed::Signed { least, most } => write!(
                f,
                "a number from {least} to {most}, without +"
            ),
            Allowed::Unsigned { most } => write!(f, "a number from 0 to {most}, without a sign"),
            Allowed::ZoneRule => f.write_str(
                "a POSIX rule of 1 to 64 bytes, as CET-1CEST,M3.5.0,M10.5.0/3, without --offset",
            ),
            Allowed::LevelName => f.write_str(
                "trace, debug, info, warning, error, critical or off",
            ),
        }
    }
}

/// What `alog format` is asked for, or the first option whose value is refused.
pub(crate) fn line_request<'a>(matches: &ArgMatches<'a>) -> Result<LineRequest<'a>, ValueError<'a>>
    ensures asked { IfOk result (AsksFor (value_of matches.now)) }
    ensures refused { IfErr result (IsFirstRefused (value_of matches.now)) }
{
    let time = signed(matches, FormatOption::Time, i64::MIN, i64::MAX)?;
    let offset = offset(matches)?;
    let zone = zone(matches, offset)?;
    let level = level(matches)?;
    let thread = unsigned(matches, FormatOption::Thread, u64::MAX)?;
    let process = unsigned_32(matches, FormatOption::Process)?;
    let line = unsigned_32(matches, FormatOption::Line)?;
    let previous = previous(matches)?;
    Ok(LineRequest {
        pattern: text(matches, "PATTERN"),
        text: text(matches, "TEXT"),
        name: text(matches, "name"),
        level,
        time,
        thread,
        source: source(matches, line),
        context: Context { zone, process },
        previous,
    })
}

/// The offset from UTC in minutes, or 0 where it is not given.
fn offset<'a>(matches: &ArgMatches<'a>) -> Result<i16, ValueError<'a>>
    ensures read { IfOk result (IsSignedNumber (value_of matches.now (codes "offset"))) }
    ensures near { IfOk result (λ minutes. (neg_ℤ OFFSET_MAX ≤ℤ minutes) × (minutes ≤ℤ OFFSET_MAX)) }
    ensures allowed { IfOk result (λ _. IsAllowed (value_of matches.now) FormatOption.Offset) }
    ensures refused { IfErr result (Refuses (value_of matches.now) FormatOption.Offset) }
{
    let (west, east) = (i64::from(-OFFSET_MAX), i64::from(OFFSET_MAX));
    let minutes = signed(matches, FormatOption::Offset, west, east)?;
    Ok(minutes as i16)
}

/// The time of the message before, where it is given.
fn previous<'a>(matches: &ArgMatches<'a>) -> Result<Option<i64>, ValueError<'a>>
    ensures read { IfOk result (IsTime (value_of matches.now (codes "previous"))) }
    ensures allowed { IfOk result (λ _. IsAllowed (value_of matches.now) FormatOption.Previous) }
    ensures refused { IfErr result (Refuses (value_of matches.now) FormatOption.Previous) }
{
    let option = FormatOption::Previous;
    match matches.get_str(option.name()) {
        None => Ok(None),
        Some(text) => match signed_number(text, i64::MIN, i64::MAX) {
            Some(time) => Ok(Some(time)),
            None => Err(option.refuse(text)),
        },
    }
}

/// The zone of a rule, or so many minutes east of UTC where none is given. No rule stands beside an offset.
fn zone<'a>(matches: &ArgMatches<'a>, minutes: i16) -> Result<Zone, ValueError<'a>>
    requires read { IsSignedNumber (value_of matches.now (codes "offset")) minutes }
    requires near { (neg_ℤ OFFSET_MAX ≤ℤ minutes) × (minutes ≤ℤ OFFSET_MAX) }
    ensures read { IfOk result (IsClock (value_of matches.now (codes "zone")) (value_of matches.now (codes "offset"))) }
    ensures near { IfOk result IsZone }
    ensures allowed { IfOk result (λ _. IsAllowed (value_of matches.now) FormatOption.Zone) }
    ensures refused { IfErr result (Refuses (value_of matches.now) FormatOption.Zone) }
{
    let option = FormatOption::Zone;
    let Some(rule) = matches.get_str(option.name()) else {
        return Ok(Zone::Fixed(minutes));
    };
    if matches.get_str("offset").is_some() {
        return Err(option.refuse(rule));
    }
    match Zone::rule(rule) {
        Some(zone) => Ok(zone),
        None => Err(option.refuse(rule)),
    }
}

/// The value of a signed option, or 0 where it is not given.
fn signed<'a>(
    matches: &ArgMatches<'a>,
    option: FormatOption,
    least: i64,
    most: i64,
) -> Result<i64, ValueError<'a>>
    requires kind { allowed_of option ≡ Signed least most }
    requires stands { MayStand (value_of matches.now) option }
    ensures read { IfOk result (λ number. IsSignedNumber (value_of matches.now (name_of option)) number) }
    ensures near { least ≤ℤ pos 0 → pos 0 ≤ℤ most → IfOk result (λ number. (least ≤ℤ number) × (number ≤ℤ most)) }
    ensures allowed { IfOk result (λ _. IsAllowed (value_of matches.now) option) }
    ensures refused { IfErr result (Refuses (value_of matches.now) option) }
{
    let Some(text) = matches.get_str(option.name()) else {
        return Ok(0);
    };
    signed_number(text, least, most).ok_or(option.refuse(text))
}

/// The value of an unsigned option, or 0 where it is not given.
fn unsigned<'a>(
    matches: &ArgMatches<'a>,
    option: FormatOption,
    most: u64,
) -> Result<u64, ValueError<'a>>
    requires kind { allowed_of option ≡ Unsigned most }
    requires stands { MayStand (value_of matches.now) option }
    ensures read { IfOk result (λ number. IsNumber (value_of matches.now (name_of option)) number) }
    ensures near { IfOk result (λ number. number ≤ most) }
    ensures allowed { IfOk result (λ _. IsAllowed (value_of matches.now) option) }
    ensures refused { IfErr result (Refuses (value_of matches.now) option) }
{
    let Some(text) = matches.get_str(option.name()) else {
        return Ok(0);
    };
    unsigned_number(text, most).ok_or(option.refuse(text))
}

/// The value of an unsigned option that may be as large as a `u32`, or 0 where it is not given.
fn unsigned_32<'a>(matches: &ArgMatches<'a>, option: FormatOption) -> Result<u32, ValueError<'a>>
    requires kind { allowed_of option ≡ Unsigned u32.MAX }
    requires stands { MayStand (value_of matches.now) option }
    ensures read { IfOk result (λ number. IsNumber (value_of matches.now (name_of option)) number) }
    ensures allowed { IfOk result (λ _. IsAllowed (value_of matches.now) option) }
    ensures refused { IfErr result (Refuses (value_of matches.now) option) }
{
    let number = unsigned(matches, option, u64::from(u32::MAX))?;
    Ok(number as u32)
}

/// The level, or `info` where it is not given.
pub(crate) fn level<'a>(matches: &ArgMatches<'a>) -> Result<Level, ValueError<'a>>
    ensures read { IfOk result (IsLevel (value_of matches.now (codes "level"))) }
    ensures allowed { IfOk result (λ _. IsAllowed (value_of matches.now) FormatOption.Level) }
    ensures refused { IfErr result (Refuses (value_of matches.now) FormatOption.Level) }
{
    let option = FormatOption::Level;
    match matches.get_str(option.name()) {
        None => Ok(Level::Info),
        Some(text) => match Level::read(text) {
            Some(level) => Ok(level),
            None => Err(option.refuse(text)),
        },
    }
}

/// A decimal number within these limits, before which a minus may stand and no plus.
fn signed_number(text: &str, least: i64, most: i64) -> Option<i64>
    ensures { MatchOption result (¬ Allows (Signed least most) text.now)
        (λ number. Allows (Signed least most) text.now × (number ≡ signed_digits_value 10 text.now)) }
{
    match text.parse::<i64>() {
        Ok(number) if !text.starts_with('+') && least <= number && number <= most => Some(number),
        _ => None,
    }
}

/// A decimal number without a sign, and no more than `most`.
pub(crate) fn unsigned_number(text: &str, most: u64) -> Option<u64>
    ensures { MatchOption result (¬ Allows (Unsigned most) text.now)
        (λ number. Allows (Unsigned most) text.now × (number ≡ digits_value 10 text.now)) }
{
    match text.parse::<u64>() {
        Ok(number) if !text.starts_with('+') && number <= most => Some(number),
        _ => None,
    }
}

/// The source, where its file or its function is given.
fn source<'a>(matches: &ArgMatches<'a>, line: u32) -> Option<SourceRef<'a>>
    ensures absent { IsNone result
        ↔ (IsNone (value_of matches.now (codes "file")) × IsNone (value_of matches.now (codes "function"))) }
    ensures given { IfSome result (λ source. fields_of source ≡ record {
      file = text_of (value_of matches.now) (codes "file");
      line = line;
      function = text_of (value_of matches.now) (codes "function");
    }) }
{
    if matches.get_str("file").is_none() && matches.get_str("function").is_none() {
        return None;
    }
    Some(SourceRef {
        file: text(matches, "file"),
        line,
        function: text(matches, "function"),
    })
}

/// The value of an argument, or the empty text.
pub(crate) fn text<'a>(matches: &ArgMatches<'a>, name: &str) -> &'a str
    ensures { result.now ≡ text_of (value_of matches.now) name.now }
{
    match matches.get_str(name) {
        Some(text) => text,
        None => "",
    }
}
