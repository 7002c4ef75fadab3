//! What is wrong with a document that is refused, in words.
ghost use Rattle.std.specs.Prelude.{◌+◌, ◌≤◌, IfOk, string_len};
ghost use Rattle.alog_config.specs.Meaning.{limit_of};
ghost use Rattle.alog_pattern.specs.Compiled.{IsTextLimit};

use crate::config::SinkConfig;
use crate::fault::{ConfigFault, Place, Rule};
use crate::field::Field;
use crate::keys::{Owner, other_key};
use crate::logger_fields::logger_fields;
use crate::reading::read_sinks;
use crate::sink_fields::{sink_fields, told};
use crate::top::{TopFields, top_fields};
use crate::values::value_at;
use crate::words::{Key, known_keys};
use alog_msg::DEFAULT_TEXT_LIMIT;
use std::alloc::{AllocError, Global};
use toml::Table;
use toml::de::Error;

/// At most so many bytes of a key or of a value are shown.
const SHOWN_MAX: usize = 64;

/// Says in one line why `read` refuses a document so: the key, the value that it has, and what it may have.
///
/// Of a value at most 64 bytes are shown, those before its first newline, and `..` stands for the rest. Where the document
/// is no TOML, the line is told at which it is none, and why. A fault that is not the document's is told by its rule alone.
/// `sessions/words_of_refusals.session` shows each.
pub fn explain(alloc: Global, document: &[u8], fault: ConfigFault) -> Result<String, AllocError> {
    match toml::table_from_slice(alloc, document) {
        Ok(table) => match fault {
            ConfigFault::Broken { rule, place } => broken(alloc, &table, place, rule),
            ConfigFault::NotToml | ConfigFault::OutOfMemory => fault.to_string(alloc),
        },
        Err(error) => not_toml(alloc, document, &error),
    }
}

/// Why a document is no TOML, and at which line.
fn not_toml(alloc: Global, document: &[u8], error: &Error) -> Result<String, AllocError> {
    let Some(span) = error.span() else {
        return Err(AllocError);
    };
    let before = document.iter().take(span.start);
    let line = before.filter(|byte| **byte == b'\n').count();
    let line = line.saturating_add(1);
    let why = error.message();
    format!(in alloc; "{}: line {line}: {why}", ConfigFault::NotToml)
}

/// How the table of a place breaks a rule.
fn broken(alloc: Global, document: &Table, place: Place, rule: Rule) -> Result<String, AllocError> {
    let top = top_fields(alloc, document)?;
    match place {
        Place::Top => {
            let key = top.culprit(rule);
            said(alloc, document, Owner::Top, rule, key)
        }
        Place::Sink(i) => broken_sink(alloc, top, i, rule),
        Place::Logger(i) => broken_logger(alloc, top, i, rule),
    }
}

/// How the sink of this number breaks a rule.
fn broken_sink(
    alloc: Global,
    top: TopFields<'_>,
    i: usize,
    rule: Rule,
) -> Result<String, AllocError>
    requires { IsTextLimit (limit_of top) }
{
    let TopFields { text, sinks, .. } = top;
    let limit = text.or(DEFAULT_TEXT_LIMIT as u32) as usize;
    let Field::Given(tables) = sinks else {
        return rule.to_string(alloc);
    };
    let Some(table) = tables.get(i) else {
        return rule.to_string(alloc);
    };
    match sinks_of(alloc, &tables[..i], limit)? {
        Some(earlier) => broken_sink_table(alloc, table, earlier.as_slice(), limit, rule),
        None => rule.to_string(alloc),
    }
}

/// How the table of a sink breaks a rule behind these sinks.
fn broken_sink_table(
    alloc: Global,
    table: &Table,
    earlier: &[SinkConfig],
    limit: usize,
    rule: Rule,
) -> Result<String, AllocError>
    requires { IsTextLimit limit }
{
    let fields = sink_fields(alloc, table, limit)?;
    let key = fields.culprit(earlier, rule);
    said(alloc, table, Owner::Sink(told(&fields.kind)), rule, key)
}

/// The sinks that these tables say, or `None` where one of them says none.
fn sinks_of(
    alloc: Global,
    tables: &[&Table],
    limit: usize,
) -> Result<Option<Vec<SinkConfig>>, AllocError>
    requires { IsTextLimit limit }
{
    match read_sinks(alloc, tables, limit) {
        Ok(sinks) => Ok(Some(sinks)),
        Err(ConfigFault::OutOfMemory) => Err(AllocError),
        Err(_) => Ok(None),
    }
}

/// How the logger of this number breaks a rule.
fn broken_logger(
    alloc: Global,
    top: TopFields<'_>,
    i: usize,
    rule: Rule,
) -> Result<String, AllocError>
    requires { IsTextLimit (limit_of top) }
{
    let TopFields {
        text,
        sinks,
        loggers,
        ..
    } = top;
    let limit = text.or(DEFAULT_TEXT_LIMIT as u32) as usize;
    let (Field::Given(sinks), Field::Given(loggers)) = (sinks, loggers) else {
        return rule.to_string(alloc);
    };
    let Some(table) = loggers.get(i) else {
        return rule.to_string(alloc);
    };
    match sinks_of(alloc, sinks.as_slice(), limit)? {
        Some(sinks) => broken_logger_table(alloc, table, sinks.as_slice(), rule),
        None => rule.to_string(alloc),
    }
}

/// How the table of a logger breaks a rule over these sinks.
fn broken_logger_table(
    alloc: Global,
    table: &Table,
    sinks: &[SinkConfig],
    rule: Rule,
) -> Result<String, AllocError> {
    let fields = logger_fields(alloc, table)?;
    let key = fields.culprit(sinks, rule);
    said(alloc, table, Owner::Logger, rule, key)
}

/// That a table breaks a rule by this key.
fn said(
    alloc: Global,
    table: &Table,
    owner: Owner,
    rule: Rule,
    key: Option<Key>,
) -> Result<String, AllocError> {
    match (key, other_key(table, owner)) {
        (Some(key), _) => {
            let (name, allowed) = (key.name(), key.allowed());
            let value = shown_at(alloc, table, name)?;
            format!(in alloc; "{name}{value}: {rule}; it may have {allowed}")
        }
        (None, Some(name)) => {
            let value = shown_at(alloc, table, name)?;
            let name = cut(alloc, format!(in alloc; "{name:?}")?.as_str())?;
            let known = known_keys(owner);
            format!(in alloc; "{name}{value}: {rule}; known are {known}")
        }
        (None, None) => rule.to_string(alloc),
    }
}

/// The value at a key, if there is one, as it stands behind the key.
fn shown_at(alloc: Global, table: &Table, key: &str) -> Result<String, AllocError> {
    match value_at(table, key) {
        Some(value) => {
            let text = value.to_string(alloc)?;
            let shown = cut(alloc, text.as_str())?;
            format!(in alloc; " = {shown}")
        }
        None => Ok(String::new(alloc)),
    }
}

/// The first bytes of a text, at most so many, and none from its first newline on. `..` stands for the rest.
fn cut(alloc: Global, text: &str) -> Result<String, AllocError>
    ensures { IfOk result (λ s. string_len s ≤ SHOWN_MAX + 2) }
{
    let mut shown = String::new(alloc);
    for c in text.chars() {
        if c == '\n' || shown.len() + c.len_utf8() > SHOWN_MAX {
            shown.push_str("..")?;
            return Ok(shown);
        }
        shown.push(c)?;
    }
    Ok(shown)
}
