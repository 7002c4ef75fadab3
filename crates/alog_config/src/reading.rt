//! Reading a configuration.
ghost use Rattle.std.specs.Prelude.{◌≡◌, [], IfOk, IfErr, map, pos};
ghost use Rattle.alog_config.specs.Meaning.{AreLoggers, AreSinks, IsAnswer, IsLogger, IsLoggersFault, IsRefusedLogger};
ghost use Rattle.alog_config.specs.Meaning.{IsRefusedSink, IsSink, IsSinksFault, IsTableAnswer, Reads, fault_at};
ghost use Rattle.alog_config.specs.Values.{given_or};
ghost use Rattle.alog_format.specs.declared.context.Zone.TheVariants.{Fixed};
ghost use Rattle.alog_pattern.specs.Compiled.{IsTextLimit};
ghost use Rattle.toml.specs.View.{table_view};

use crate::config::{Config, LoggerConfig, SinkConfig};
use crate::fault::{ConfigFault, Place, Rule};
use crate::field::Field;
use crate::logger_fields::logger_fields;
use crate::sink_fields::sink_fields;
use crate::top::{top_fault, top_fields};
use alog_format::Zone;
use alog_msg::DEFAULT_TEXT_LIMIT;
use std::alloc::{AllocError, Global};
use toml::Table;

/// Why one table was not read.
#[derive(Clone, Copy, Drop)]
pub(crate) enum TableFault {
    /// The first rule that it breaks.
    Broken(Rule),
    OutOfMemory,
}

impl From<AllocError> for TableFault {
    ghost use Rattle.std.specs.Prelude.{◌≡◌};
    ghost use Rattle.alog_config.specs.declared.reading.TableFault.TheVariants.{OutOfMemory};

    ghost from_gives = { λ _ e. e ≡ OutOfMemory };

    fn from(_error: AllocError) -> TableFault {
        TableFault::OutOfMemory
    }
}

/// Reads a configuration from a TOML document in UTF-8.
///
/// Where the document is no TOML, that is the fault. Else the top is looked at first, then the sinks in their order, then
/// the loggers in theirs, and within one table the rules in the order of `RULES`; the first fault counts, and is answered
/// with its place. Want of memory may be answered at any point. `examples/` has
/// configurations, and `sessions/rules.session` the refusals.
pub fn read(alloc: Global, document: &[u8]) -> Result<Config, ConfigFault>
    ensures { Reads document.now result }
{
    match toml::table_from_slice(alloc, document) {
        Ok(table) => read_top(alloc, &table),
        Err(error) => {
            if error.is_memory() {
                Err(ConfigFault::OutOfMemory)
            } else {
                Err(ConfigFault::NotToml)
            }
        }
    }
}

/// Reads a configuration from the table of a document.
fn read_top(alloc: Global, table: &Table) -> Result<Config, ConfigFault>
    ensures { IsAnswer (table_view table.now) result }
{
    let Ok(top) = top_fields(alloc, table) else {
        return Err(ConfigFault::OutOfMemory);
    };
    let place = Place::Top;
    if let Some(rule) = top_fault(&top) {
        return Err(ConfigFault::Broken { rule, place });
    }
    let (Field::Given(sinks), Field::Given(loggers)) = (top.sinks, top.loggers) else {
        let rule = Rule::Missing;
        return Err(ConfigFault::Broken { rule, place });
    };
    let text = top.text.or(DEFAULT_TEXT_LIMIT as u32) as usize;
    let sinks = match read_sinks(alloc, sinks.as_slice(), text) {
        Ok(sinks) => sinks,
        Err(fault) => return Err(fault),
    };
    let loggers = match read_loggers(alloc, loggers.as_slice(), sinks.as_slice()) {
        Ok(loggers) => loggers,
        Err(fault) => return Err(fault),
    };
    Ok(Config {
        queue: top.queue.or(8_192) as usize,
        workers: top.workers.or(1) as usize,
        text,
        zone: clock_of(top.offset, top.zone),
        process: top.process.or(0),
        retry: top.retry.given(),
        sinks,
        loggers,
    })
}

/// The clock of lines: by the rule that is given, or else so many minutes east of UTC.
fn clock_of(offset: Field<i16>, zone: Field<Zone>) -> Zone
    ensures { result ≡ given_or (Fixed (given_or (pos 0) offset)) zone }
{
    zone.or(Zone::Fixed(offset.or(0)))
}

/// Reads the sinks, each behind those before it.
pub(crate) fn read_sinks(
    alloc: Global,
    tables: &[&Table],
    limit: usize,
) -> Result<Vec<SinkConfig>, ConfigFault>
    requires { IsTextLimit limit }
    ensures says { IfOk result (λ v. AreSinks limit [] (map (λ b. table_view b.now) tables.now) v.items) }
    ensures refused { IfErr result (IsSinksFault limit (map (λ b. table_view b.now) tables.now)) }
{
    let mut sinks = Vec::new(alloc);
    for (i, table) in tables.iter().enumerate() {
        match read_sink(alloc, table, limit, sinks.as_slice()) {
            Ok(sink) => {
                if sinks.push(sink).is_err() {
                    return Err(ConfigFault::OutOfMemory);
                }
            }
            Err(fault) => return Err(fault.at(Place::Sink(i))),
        }
    }
    Ok(sinks)
}

/// Reads the loggers, each behind those before it.
fn read_loggers(
    alloc: Global,
    tables: &[&Table],
    sinks: &[SinkConfig],
) -> Result<Vec<LoggerConfig>, ConfigFault>
    ensures says { IfOk result (λ v. AreLoggers sinks.now [] (map (λ b. table_view b.now) tables.now) v.items) }
    ensures refused { IfErr result (IsLoggersFault sinks.now (map (λ b. table_view b.now) tables.now)) }
{
    let mut loggers = Vec::new(alloc);
    for (i, table) in tables.iter().enumerate() {
        match read_logger(alloc, table, sinks, loggers.as_slice()) {
            Ok(logger) => {
                if loggers.push(logger).is_err() {
                    return Err(ConfigFault::OutOfMemory);
                }
            }
            Err(fault) => return Err(fault.at(Place::Logger(i))),
        }
    }
    Ok(loggers)
}

impl TableFault {
    /// The fault, in the table of this place.
    fn at(self, place: Place) -> ConfigFault
        ensures { result ≡ fault_at place self }
    {
        match self {
            TableFault::Broken(rule) => ConfigFault::Broken { rule, place },
            TableFault::OutOfMemory => ConfigFault::OutOfMemory,
        }
    }
}

/// Reads one sink behind those before it.
fn read_sink(
    alloc: Global,
    table: &Table,
    limit: usize,
    earlier: &[SinkConfig],
) -> Result<SinkConfig, TableFault>
    requires { IsTextLimit limit }
    ensures { IsTableAnswer (IsSink limit earlier.now (table_view table.now))
        (IsRefusedSink limit earlier.now (table_view table.now)) result }
{
    let fields = sink_fields(alloc, table, limit)?;
    if let Some(rule) = fields.fault(earlier) {
        return Err(TableFault::Broken(rule));
    }
    match fields.made(alloc)? {
        Some(sink) => Ok(sink),
        None => Err(TableFault::Broken(Rule::Missing)),
    }
}

/// Reads one logger behind those before it.
fn read_logger(
    alloc: Global,
    table: &Table,
    sinks: &[SinkConfig],
    earlier: &[LoggerConfig],
) -> Result<LoggerConfig, TableFault>
    ensures { IsTableAnswer (IsLogger sinks.now earlier.now (table_view table.now))
        (IsRefusedLogger sinks.now earlier.now (table_view table.now)) result }
{
    let fields = logger_fields(alloc, table)?;
    if let Some(rule) = fields.fault(sinks, earlier) {
        return Err(TableFault::Broken(rule));
    }
    match fields.made() {
        Some(logger) => Ok(logger),
        None => Err(TableFault::Broken(Rule::Missing)),
    }
}
