//! Opening the sinks that have a store of their own.
ghost use Rattle.std.specs.Prelude.{◌≡◌, ◌↔◌, ◌⊎◌, IfErr, IfOk, IsErrAnd, map};
ghost use Rattle.alog_config.specs.Built.{IsFaceOf, IsFaultOver, IsOver, IsStoreFault, IsTargetOf, TellsFault};
ghost use Rattle.alog_config.specs.Sinks.{IsBySize};
ghost use Rattle.alog_config.specs.Sound.{IsSoundUpkeep};
ghost use Rattle.alog_config.specs.Values.{IsPattern};
ghost use Rattle.alog_sink.specs.Names.{IsFileName};
ghost use Rattle.alog_sink.specs.Opened.{Opened, store_of};

use crate::building::BuildError;
use crate::config::{Config, Upkeep};
use alog_format::Context;
use alog_msg::Level;
use alog_pattern::{Pattern, PatternError};
use alog_sink::{Face, NameError, Names, OpenError, Sink, Store, Unopened};
use std::alloc::{AllocError, Global};
use std::io;

/// The names of the loggers, by number.
fn logger_names(alloc: Global, config: &Config) -> Result<Names, AllocError>
    ensures { IfOk result (λ n. n ≡ map (λ l. l.name) config.now.loggers.items) }
{
    let mut names = Names::new(alloc);
    for logger in &config.loggers {
        match names.push(alloc, logger.name.as_str()) {
            Ok(()) => {}
            Err(NameError::OutOfMemory) => return Err(AllocError),
            Err(NameError::NameTooLong) => unreachable!(),
        }
    }
    Ok(names)
}

/// The face of a sink of this level and pattern.
pub(crate) fn face_of(
    alloc: Global,
    config: &Config,
    level: Level,
    pattern: &str,
) -> Result<Face, AllocError>
    requires { IsPattern config.now.text pattern.now }
    ensures { IfOk result (IsFaceOf config.now level pattern.now) }
{
    let pattern = match Pattern::compile(alloc, pattern.as_bytes(), config.text) {
        Ok(pattern) => pattern,
        Err(PatternError::OutOfMemory) => return Err(AllocError),
        Err(PatternError::PatternTooLong | PatternError::LineTooLong) => unreachable!(),
    };
    Ok(Face {
        level,
        pattern,
        context: Context {
            zone: config.zone,
            process: config.process,
        },
        names: logger_names(alloc, config)?,
    })
}

/// Opens a sink of this face, file and upkeep over a store. The number is its own in the configuration.
pub(crate) fn opened<S: Store + Drop>(
    alloc: Global,
    face: Face,
    file: &str,
    upkeep: Upkeep,
    number: usize,
    store: S,
) -> Result<Sink<S>, BuildError>
    requires name { IsFileName file.now }
    requires upkeep { IsSoundUpkeep upkeep }
    ensures opened { IfOk result (Opened S.tells S.files face (IsTargetOf file.now upkeep) (S.files store)) }
    ensures over { IfOk result (λ s. IsOver S.tells S.files S.failures upkeep store (store_of s)) }
    ensures fault { IfErr result (IsFaultOver S.failures S.why number store) }
    ensures rotates { IsErrAnd result IsStoreFault → IsBySize upkeep }
{
    match upkeep {
        Upkeep::Never => match Sink::memory(alloc, face, store, file) {
            Ok(sink) => Ok(sink),
            Err(unopened) => Err(why(number, unopened)),
        },
        Upkeep::BySize {
            max_size,
            max_files,
        } => match Sink::rotating(alloc, face, store, file, max_size, max_files) {
            Ok(sink) => Ok(sink),
            Err(unopened) => Err(why(number, unopened)),
        },
        Upkeep::Daily {
            hour,
            minute,
            max_files,
        } => match Sink::daily(alloc, face, store, file, hour, minute, max_files) {
            Ok(sink) => Ok(sink),
            Err(unopened) => Err(why(number, unopened)),
        },
    }
}

/// Why the sink of this number of a sound configuration was not opened.
fn why<S: Store + Drop>(number: usize, unopened: Unopened<S>) -> BuildError
    requires { (unopened.error ≡ OpenError.OutOfMemory) ⊎ (unopened.error ≡ OpenError.Store) }
    ensures store { IsStoreFault result ↔ (unopened.error ≡ OpenError.Store) }
    ensures told { TellsFault number (S.why unopened.store) result }
{
    match unopened.error {
        OpenError::OutOfMemory => BuildError::OutOfMemory,
        OpenError::Store => BuildError::Store {
            sink: number,
            reason: unopened.store.reason(),
        },
        OpenError::BadLimit | OpenError::BadName => unreachable!(),
    }
}

/// Says in one line which sink could not be opened since its store failed, as `BuildError::Store` tells it, and what the system said
/// of the store's call, where it did. The test `a_sink_that_cannot_be_opened_is_told` of
/// `test_server` shows it.
pub fn explain_unopened(
    alloc: Global,
    config: &Config,
    sink: usize,
    reason: Option<io::Error>,
) -> Result<String, AllocError> {
    let name = match config.sinks.get(sink) {
        Some(said) => said.name.as_str(),
        None => "",
    };
    match reason {
        Some(reason) => {
            format!(in alloc; "sink {sink}, {name}: the size of its file cannot be read: {reason}")
        }
        None => format!(in alloc; "sink {sink}, {name}: the size of its file cannot be read"),
    }
}
