//! Building what a configuration names.
ghost use Rattle.std.specs.Prelude.{◌≡◌, [], ◌∷◌, ◌++◌, IfErr, IfOk, IsErrAnd, OnOk, count_by, length};
ghost use Rattle.std.specs.List.{All};
ghost use Rattle.alog_config.specs.Built.{Built, EachIs, IsFaultOf, IsFaultOfNext, IsLoggerOf, IsStoreFault};
ghost use Rattle.alog_config.specs.Fits.{LoggerFits};
ghost use Rattle.alog_config.specs.Parts.{AreBuilt, Makes, MayLog, MayMake};
ghost use Rattle.alog_config.specs.Sinks.{Rotates, is_leaf};
ghost use Rattle.alog_pattern.specs.declared.patterns.TheConstants.{LINE_MAX};
ghost use Rattle.alog_sink.specs.Sinks.{Suits};

use crate::config::{Config, LoggerConfig, SinkConfig, SinkKind};
use crate::opening::{face_of, opened};
use crate::parts::{Part, fan_of, places_of, sinks_of};
use alog_registry::{AddError, Loggers, Registry, Spec};
use alog_sink::{Sink, Store};
use std::alloc::{AllocError, Global};
use std::collections::VecDeque;
use std::io;
use thiserror::Error;

/// Why nothing was built. The test `a_sink_that_cannot_be_opened_is_told` of `test_server` shows one.
#[derive(Clone, Copy, Debug, Drop, Error)]
pub enum BuildError {
    /// A growth was refused.
    #[error("out of memory")]
    OutOfMemory,
    /// The store of a sink that rotates its file failed, as it was asked for the file's size.
    #[error("sink {sink}: the size of its file cannot be read")]
    Store {
        /// The sink's number in the configuration, from 0.
        sink: usize,
        /// Why the store's call failed, where the store tells it.
        reason: Option<io::Error>,
    },
}

impl From<AllocError> for BuildError {
    ghost use Rattle.std.specs.Prelude.{◌≡◌};
    ghost use Rattle.alog_config.specs.declared.building.BuildError.TheVariants.{OutOfMemory};

    ghost from_gives = { λ _ e. e ≡ OutOfMemory };

    fn from(_error: AllocError) -> BuildError {
        BuildError::OutOfMemory
    }
}

/// Builds the loggers and the sinks that a configuration names, over stores in the order of the sinks that need one.
///
/// The sinks are those that are no fan's member, in their order; a member is in its fan. A logger's sinks are told by their
/// places among them. There are as many stores as `leaves` tells. After a refusal the stores are dropped.
/// `sessions/scripts_on_sinks.session` shows what becomes of lines.
pub fn build<S: Store + Drop>(
    alloc: Global,
    config: &Config,
    stores: Vec<S>,
) -> Result<(Loggers, Vec<Sink<S>>), BuildError>
    requires { length stores.items ≡ count_by is_leaf config.now.sinks.items }
    ensures built { IfOk result (λ b. Built S.tells S.files S.failures config.now stores.items b.0 b.1.items) }
    // Each logger's sinks are there, and each sink takes the texts of the configuration, in lines that a buffer of `LINE_MAX` holds.
    ensures fits { IfOk result (λ b. All (LoggerFits (length b.1.items)) b.0) }
    ensures suits { IfOk result (λ b. All (λ s. Suits config.now.text LINE_MAX s) b.1.items) }
    ensures fault { IfErr result (IsFaultOf S.failures S.why config.now.sinks.items stores.items) }
{
    let parts = parts_of(alloc, config, stores)?;
    let loggers = loggers_of(alloc, &config.loggers, parts.as_slice())?;
    let sinks = sinks_of(alloc, parts)?;
    Ok((loggers, sinks))
}

/// Builds each sink, and puts the members of fans into them. What is left are the sinks that are no fan's member.
fn parts_of<'c, S: Store + Drop>(
    alloc: Global,
    config: &'c Config,
    stores: Vec<S>,
) -> Result<Vec<Part<'c, S>>, BuildError>
    requires { length stores.items ≡ count_by is_leaf config.now.sinks.items }
    ensures built { IfOk result (λ v. AreBuilt S.tells S.files S.failures config.now stores.items (length config.now.sinks.items) v.items) }
    ensures fault { IfErr result (IsFaultOf S.failures S.why config.now.sinks.items stores.items) }
{
    let mut stores = VecDeque::from_vec(stores);
    let mut parts = Vec::new(alloc);
    let sinks = config.sinks.as_slice();
    for (number, said) in sinks.iter().enumerate() {
        let sink = match made(alloc, config, said, number, &mut stores, &mut parts) {
            Ok(sink) => sink,
            Err(error) => return Err(error),
        };
        add(&mut parts, Part { config: said, sink })?;
    }
    Ok(parts)
}

/// Adds a part behind the others.
fn add<'c, S: Store + Drop>(
    parts: &mut Vec<Part<'c, S>>,
    part: Part<'c, S>,
) -> Result<(), AllocError>
    ensures { OnOk result (parts.new.items ≡ parts.old.items ++ part.entry ∷ []) }
{
    match parts.push(part) {
        Ok(()) => Ok(()),
        Err(_) => Err(AllocError),
    }
}

/// Makes the next sink, whose number this is, of the next store or of the parts that it names.
fn made<S: Store + Drop>(
    alloc: Global,
    config: &Config,
    sink: &SinkConfig,
    number: usize,
    stores: &mut VecDeque<S>,
    parts: &mut Vec<Part<'_, S>>,
) -> Result<Sink<S>, BuildError>
    requires { MayMake config.now.text sink.now.kind stores.old.items parts.old.items }
    ensures made { IfOk result (λ s. Makes S.tells S.files S.failures config.now sink.now.level sink.now.kind stores.old.items parts.old.items
        s stores.new.items parts.new.items) }
    ensures fault { IfErr result (IsFaultOfNext S.failures S.why number stores.old.items) }
    ensures rotates { IsErrAnd result IsStoreFault → Rotates sink.now }
{
    match &sink.kind {
        SinkKind::Lines {
            file,
            pattern,
            upkeep,
        } => {
            let Some(store) = stores.pop_front() else {
                unreachable!();
            };
            let face = face_of(alloc, config, sink.level, pattern.as_str())?;
            opened(alloc, face, file.as_str(), *upkeep, number, store)
        }
        SinkKind::Fan { of } => Ok(fan_of(alloc, sink.level, parts, of.as_slice())?),
    }
}

/// Makes the loggers, whose sinks are among these.
fn loggers_of<S: Store>(
    alloc: Global,
    loggers: &[LoggerConfig],
    parts: &[Part<'_, S>],
) -> Result<Loggers, AllocError>
    requires { MayLog parts.now loggers.now }
    ensures { IfOk result (EachIs (IsLoggerOf parts.now) loggers.now) }
{
    let mut registry = Registry::new(alloc);
    for logger in loggers {
        let spec = Spec {
            level: logger.level,
            policy: logger.policy,
            flush_on: logger.flush_on,
            backtrace: logger.backtrace,
            sinks: places_of(alloc, parts, logger.sinks.as_slice())?,
        };
        match registry.add(logger.name.as_str(), spec) {
            Ok(_) => {}
            Err(refused) => match refused.fault {
                AddError::OutOfMemory => return Err(AllocError),
                AddError::FieldTooLong
                | AddError::NameTaken
                | AddError::TooMany
                | AddError::BadLimit => unreachable!(),
            },
        }
    }
    match registry.freeze(alloc) {
        Ok(loggers) => Ok(loggers),
        Err(_) => Err(AllocError),
    }
}
