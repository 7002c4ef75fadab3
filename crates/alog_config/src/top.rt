//! The top of a document.
ghost use Rattle.std.specs.Prelude.{◌≡◌, ◌↔◌, IfOk, IsTrue};
ghost use Rattle.alog_config.specs.Fields.{AreTopFields};
ghost use Rattle.alog_config.specs.Rules.{HasBadNumber, HasBadZoneKey, IsFirst, LacksTables, TopBreaks, has, order};
ghost use Rattle.toml.specs.View.{table_view};

use crate::broken::Broken;
use crate::fault::Rule;
use crate::field::Field;
use crate::keys::{Owner, has_other_key};
use crate::lists::tables_at;
use crate::values::{count_at, minutes_at, queue_at, zone_at};
use alog_format::Zone;
use alog_msg::{TEXT_LIMIT_MAX, TEXT_LIMIT_MIN};
use std::alloc::{AllocError, Global};
use toml::Table;

/// What the top has at its keys.
#[derive(Drop)]
pub(crate) struct TopFields<'t> {
    /// Whether it has a key that is not known.
    pub other_key: bool,
    pub queue: Field<u32>,
    pub workers: Field<u32>,
    pub text: Field<u32>,
    pub offset: Field<i16>,
    pub zone: Field<Zone>,
    pub process: Field<u32>,
    pub retry: Field<u32>,
    pub sinks: Field<Vec<&'t Table>>,
    pub loggers: Field<Vec<&'t Table>>,
}

impl TopFields<'_> {
    /// Whether its zone can not be read, or stands beside an offset.
    pub(crate) fn has_bad_zone_key(&self) -> bool
        ensures { IsTrue result ↔ HasBadZoneKey self.now }
    {
        self.zone.is_bad() || (!self.zone.is_absent() && !self.offset.is_absent())
    }
}

/// Reads the keys of the top.
pub(crate) fn top_fields<'t>(alloc: Global, table: &'t Table) -> Result<TopFields<'t>, AllocError>
    ensures { IfOk result (AreTopFields (table_view table.now)) }
{
    let sinks = tables_at(alloc, table, "sink")?;
    let loggers = tables_at(alloc, table, "logger")?;
    Ok(TopFields {
        other_key: has_other_key(table, Owner::Top),
        queue: queue_at(table, "queue"),
        workers: count_at(table, "workers", 1, 64),
        text: count_at(table, "text", TEXT_LIMIT_MIN as u32, TEXT_LIMIT_MAX as u32),
        offset: minutes_at(table, "offset"),
        zone: zone_at(table, "zone"),
        process: count_at(table, "process", 0, u32::MAX),
        retry: count_at(table, "retry", 0, 1_000_000),
        sinks,
        loggers,
    })
}

/// Whether no table is given.
pub(crate) fn lacks_tables(tables: &Field<Vec<&Table>>) -> bool
    ensures { IsTrue result ↔ LacksTables tables.now }
{
    match tables {
        Field::Absent => true,
        Field::Bad => false,
        Field::Given(tables) => tables.is_empty(),
    }
}

/// Whether no sink or no logger is given.
fn lacks_array(top: &TopFields<'_>) -> bool
    ensures { IsTrue result ↔ TopBreaks top.now Rule.Missing }
{
    lacks_tables(&top.sinks) || lacks_tables(&top.loggers)
}

/// The first rule that the top breaks.
pub(crate) fn top_fault(top: &TopFields<'_>) -> Option<Rule>
    ensures { IsFirst order (TopBreaks top.now) result }
{
    let broken = Broken {
        unknown_key: top.other_key,
        bad_value: has_bad_value(top),
        missing: lacks_array(top),
        name_taken: false,
        no_such_sink: false,
    };
    broken.first()
}

/// Whether a number of the top is a bad value.
fn has_bad_number(top: &TopFields<'_>) -> bool
    ensures { IsTrue result ↔ HasBadNumber top.now }
{
    top.queue.is_bad()
        || top.workers.is_bad()
        || top.text.is_bad()
        || top.process.is_bad()
        || top.retry.is_bad()
}

/// Whether a key of the top has a bad value.
fn has_bad_value(top: &TopFields<'_>) -> bool
    ensures { IsTrue result ↔ TopBreaks top.now Rule.BadValue }
{
    has_bad_number(top)
        || top.offset.is_bad()
        || top.has_bad_zone_key()
        || top.sinks.is_bad()
        || top.loggers.is_bad()
}
