//! Opening a pool of a configuration, whose sinks hand out what is to be done to their files.
ghost use Rattle.std.specs.Prelude.{◌≡◌, length, Ok, IfOk, IfErr};
ghost use Rattle.std.specs.Arc.{arc_value};
ghost use Rattle.alog_config.specs.Meaning.{Reads};
ghost use Rattle.alog_ffi.specs.Opening.{AreNew, IsUnopenedFor, OpensFrom, answer_of};
ghost use Rattle.alog_pool.specs.Pool.{Fits};

use alog_config::{BuildError, Config, ConfigFault, explain, explain_unopened, leaves, read};
use alog_outbox::{Drain, FoundFile, Outbox, outbox};
use alog_owned::OwnedPool;
use alog_server::setup_of;
use std::alloc::{AllocError, Global};
use std::sync::Arc;

/// What is asked of an open.
#[derive(Clone, Copy, Drop)]
pub struct Asked<'a> {
    /// A configuration in TOML.
    pub document: &'a [u8],
    /// How many producers the pool may make, at most 4,096.
    pub producers: usize,
    /// How many areas of 131,072 bytes each sink has for what it hands out, at least one.
    pub areas: usize,
}

/// A pool, and what its sinks hand out.
pub(crate) struct Opened {
    pub(crate) pool: OwnedPool<Outbox>,
    pub(crate) drains: Vec<Drain>,
}

/// Why no pool was opened, and where its configuration or a sink's file is the reason in words what is wrong with that.
#[derive(Drop)]
pub(crate) enum Refusal {
    /// There is no memory, for the pool or for the words.
    NoMemory,
    /// The document is no configuration.
    BadConfig(String),
    /// The size of a sink's file could not be told.
    NoStore(String),
}

/// Opens a pool of the configuration that this document says, over a folder in which these files were found.
pub(crate) fn open(
    alloc: Global,
    asked: Asked<'_>,
    found: &Arc<Vec<FoundFile>>,
) -> Result<Opened, Refusal>
    ensures opened { IfOk result (λ o. OpensFrom asked.entry (arc_value found.now).items o.pool o.drains.items) }
    ensures refused { IfErr result (λ r. IsUnopenedFor asked.entry (arc_value found.now).items (answer_of r)) }
{
    let config = match read(alloc, asked.document) {
        Ok(config) => config,
        Err(ConfigFault::OutOfMemory) => return Err(Refusal::NoMemory),
        Err(fault) => {
            return match explain(alloc, asked.document, fault) {
                Ok(words) => Err(Refusal::BadConfig(words)),
                Err(_) => Err(Refusal::NoMemory),
            };
        }
    };
    open_configured(alloc, &config, asked, found)
}

/// Opens a pool of this configuration.
fn open_configured(
    alloc: Global,
    config: &Config,
    asked: Asked<'_>,
    found: &Arc<Vec<FoundFile>>,
) -> Result<Opened, Refusal>
    requires { Reads asked.document.now (Ok config.now) }
    ensures opened { IfOk result (λ o. OpensFrom asked.entry (arc_value found.now).items o.pool o.drains.items) }
    ensures refused { IfErr result (λ r. IsUnopenedFor asked.entry (arc_value found.now).items (answer_of r)) }
{
    let Ok((stores, drains)) = stores(alloc, found, asked.areas, leaves(config)) else {
        return Err(Refusal::NoMemory);
    };
    let setup = match setup_of(alloc, config, stores, 0) {
        Ok(setup) => setup,
        Err(BuildError::OutOfMemory) => return Err(Refusal::NoMemory),
        Err(BuildError::Store { sink, reason }) => {
            return match explain_unopened(alloc, config, sink, reason) {
                Ok(words) => Err(Refusal::NoStore(words)),
                Err(_) => Err(Refusal::NoMemory),
            };
        }
    };
    match OwnedPool::open(alloc, setup, asked.producers) {
        Ok(pool) => Ok(Opened { pool, drains }),
        Err(_) => Err(Refusal::NoMemory),
    }
}

/// So many stores over a folder in which these files were found, and what each hands out.
fn stores(
    alloc: Global,
    found: &Arc<Vec<FoundFile>>,
    areas: usize,
    count: usize,
) -> Result<(Vec<Outbox>, Vec<Drain>), AllocError>
    ensures count { IfOk result (λ r. length r.0.items ≡ count) }
    ensures new { IfOk result (λ r. AreNew (arc_value found.now).items r.0.items r.1.items) }
{
    let mut stores = Vec::with_capacity(alloc, count)?;
    let mut drains = Vec::with_capacity(alloc, count)?;
    for _number in 0..count {
        let (store, drain) = outbox(alloc, Arc::try_clone(found)?, areas)?;
        stores.push_reserved(store);
        drains.push_reserved(drain);
    }
    Ok((stores, drains))
}
