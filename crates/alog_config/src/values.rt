//! What one key of a table may hold.
ghost use Rattle.std.specs.Prelude.{◌≡◌, ◌↔◌, ℕ, Some, IfOk, IsTrue, option_map};
ghost use Rattle.alog_config.specs.Values.{IsField, IsKind, IsMinutes, IsName, IsNumber, IsPattern, IsPatternText};
ghost use Rattle.alog_config.specs.Values.{IsPolicy, IsQueue, IsText, IsTextAt, Spelled};
ghost use Rattle.alog_format.specs.Civil.{IsRuleOf};
ghost use Rattle.alog_msg.specs.Level.{Names};
ghost use Rattle.alog_pattern.specs.Compiled.{IsTextLimit};
ghost use Rattle.toml.specs.Data.{get_member};
ghost use Rattle.toml.specs.View.{table_view, view};

use crate::field::Field;
use crate::keys::Kind;
use alog_format::{OFFSET_MAX, Zone};
use alog_msg::{LOGGER_NAME_MAX, Level, Text};
use alog_pattern::{Pattern, PatternError};
use alog_policy::Policy;
use std::alloc::{AllocError, Global};
use toml::{Table, Value};

/// The value at a key.
pub(crate) fn value_at<'t>(table: &'t Table, key: &str) -> Option<&'t Value>
    ensures { option_map (λ v. view v.now) result ≡ get_member key.now (table_view table.now) }
{
    table.get(key)
}

/// The number at a key, if it is one of these.
pub(crate) fn number_at(table: &Table, key: &str, least: u64, greatest: u64) -> Field<u64>
    ensures { IsField (IsNumber least greatest) (get_member key.now (table_view table.now)) result }
{
    let Some(value) = value_at(table, key) else {
        return Field::Absent;
    };
    match value.as_integer() {
        Some(n) if n >= 0 && (least..=greatest).contains(&(n as u64)) => Field::Given(n as u64),
        _ => Field::Bad,
    }
}

/// A smaller number at a key.
pub(crate) fn count_at(table: &Table, key: &str, least: u32, greatest: u32) -> Field<u32>
    ensures { IsField (IsNumber least greatest) (get_member key.now (table_view table.now)) result }
{
    match number_at(table, key, u64::from(least), u64::from(greatest)) {
        Field::Absent => Field::Absent,
        Field::Bad => Field::Bad,
        Field::Given(n) => Field::Given(n as u32),
    }
}

/// The size of a queue at a key: a power of two, 2 to 65,536.
pub(crate) fn queue_at(table: &Table, key: &str) -> Field<u32>
    ensures { IsField IsQueue (get_member key.now (table_view table.now)) result }
{
    match count_at(table, key, 2, 65_536) {
        Field::Given(n) if n.is_power_of_two() => Field::Given(n),
        Field::Absent => Field::Absent,
        _ => Field::Bad,
    }
}

/// Minutes at a key, less than a day either way.
pub(crate) fn minutes_at(table: &Table, key: &str) -> Field<i16>
    ensures { IsField IsMinutes (get_member key.now (table_view table.now)) result }
{
    let Some(value) = value_at(table, key) else {
        return Field::Absent;
    };
    match value.as_integer() {
        Some(n) if -i64::from(OFFSET_MAX) <= n && n <= i64::from(OFFSET_MAX) => {
            Field::Given(n as i16)
        }
        _ => Field::Bad,
    }
}

/// The zone whose rule is at a key.
pub(crate) fn zone_at(table: &Table, key: &str) -> Field<Zone>
    ensures { IsField (Spelled IsRuleOf) (get_member key.now (table_view table.now)) result }
{
    match text_at(table, key) {
        Field::Absent => Field::Absent,
        Field::Bad => Field::Bad,
        Field::Given(text) => match Zone::rule(text) {
            Some(zone) => Field::Given(zone),
            None => Field::Bad,
        },
    }
}

/// The text at a key.
pub(crate) fn text_at<'t>(table: &'t Table, key: &str) -> Field<&'t str>
    ensures { IsTextAt (get_member key.now (table_view table.now)) result }
{
    let Some(value) = value_at(table, key) else {
        return Field::Absent;
    };
    match value.as_str() {
        Some(text) => Field::Given(text),
        None => Field::Bad,
    }
}

/// The level whose name is at a key.
pub(crate) fn level_at(table: &Table, key: &str) -> Field<Level>
    ensures { IsField (Spelled Names) (get_member key.now (table_view table.now)) result }
{
    match text_at(table, key) {
        Field::Absent => Field::Absent,
        Field::Bad => Field::Bad,
        Field::Given(text) => match Level::read(text) {
            Some(level) => Field::Given(level),
            None => Field::Bad,
        },
    }
}

/// The kind of that name.
fn kind_of(text: &str) -> Option<Kind>
    ensures { (k : _) → (result ≡ Some k) ↔ IsKind text.now k }
{
    match text {
        "memory" => Some(Kind::Memory),
        "rotating" => Some(Kind::Rotating),
        "daily" => Some(Kind::Daily),
        "fan" => Some(Kind::Fan),
        _ => None,
    }
}

/// The kind of a sink at a key.
pub(crate) fn kind_at(table: &Table, key: &str) -> Field<Kind>
    ensures { IsField (Spelled IsKind) (get_member key.now (table_view table.now)) result }
{
    match text_at(table, key) {
        Field::Absent => Field::Absent,
        Field::Bad => Field::Bad,
        Field::Given(text) => match kind_of(text) {
            Some(kind) => Field::Given(kind),
            None => Field::Bad,
        },
    }
}

/// The policy of that name.
fn policy_of(text: &str) -> Option<Policy>
    ensures { (p : _) → (result ≡ Some p) ↔ IsPolicy text.now p }
{
    match text {
        "block" => Some(Policy::Block),
        "overrun_oldest" => Some(Policy::OverrunOldest),
        "discard_new" => Some(Policy::DiscardNew),
        _ => None,
    }
}

/// The policy at a key.
pub(crate) fn policy_at(table: &Table, key: &str) -> Field<Policy>
    ensures { IsField (Spelled IsPolicy) (get_member key.now (table_view table.now)) result }
{
    match text_at(table, key) {
        Field::Absent => Field::Absent,
        Field::Bad => Field::Bad,
        Field::Given(text) => match policy_of(text) {
            Some(policy) => Field::Given(policy),
            None => Field::Bad,
        },
    }
}

/// The name at a key: 1 to 64 bytes.
pub(crate) fn name_at(alloc: Global, table: &Table, key: &str) -> Result<Field<Text>, AllocError>
    ensures { IfOk result (IsField (Spelled IsName) (get_member key.now (table_view table.now))) }
{
    match text_at(table, key) {
        Field::Absent => Ok(Field::Absent),
        Field::Given(text) if !text.is_empty() && text.len() <= LOGGER_NAME_MAX => {
            Ok(Field::Given(Text::copy_of(alloc, text)?))
        }
        _ => Ok(Field::Bad),
    }
}

/// The text of a file's name at a key, which may yet be none that a file can have.
pub(crate) fn file_at(alloc: Global, table: &Table, key: &str) -> Result<Field<Text>, AllocError>
    ensures { IfOk result (IsField (Spelled IsText) (get_member key.now (table_view table.now))) }
{
    match text_at(table, key) {
        Field::Absent => Ok(Field::Absent),
        Field::Bad => Ok(Field::Bad),
        Field::Given(text) => Ok(Field::Given(Text::copy_of(alloc, text)?)),
    }
}

/// Whether a pattern of this spelling can be compiled for texts of that limit.
fn is_pattern(alloc: Global, spelling: &str, limit: usize) -> Result<bool, AllocError>
    requires { IsTextLimit limit }
    ensures { IfOk result (λ b. IsTrue b ↔ IsPattern limit spelling.now) }
{
    match Pattern::compile(alloc, spelling.as_bytes(), limit) {
        Ok(_) => Ok(true),
        Err(PatternError::OutOfMemory) => Err(AllocError),
        Err(PatternError::PatternTooLong | PatternError::LineTooLong) => Ok(false),
    }
}

/// The pattern at a key, for texts of this limit.
pub(crate) fn pattern_at(
    alloc: Global,
    table: &Table,
    key: &str,
    limit: usize,
) -> Result<Field<Text>, AllocError>
    requires { IsTextLimit limit }
    ensures { IfOk result (IsField (Spelled (IsPatternText limit)) (get_member key.now (table_view table.now))) }
{
    match text_at(table, key) {
        Field::Absent => Ok(Field::Absent),
        Field::Bad => Ok(Field::Bad),
        Field::Given(text) => {
            if is_pattern(alloc, text, limit)? {
                Ok(Field::Given(Text::copy_of(alloc, text)?))
            } else {
                Ok(Field::Bad)
            }
        }
    }
}
