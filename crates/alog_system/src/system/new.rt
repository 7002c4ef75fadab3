//! The system that a configuration names.
ghost use Rattle.std.specs.Prelude.{◌≡◌, IfOk, length};
ghost use Rattle.alog_system.specs.Named.{AreEmpty, IsSystemOf};

use super::System;
use alog_config::{Config, build, leaves};
use alog_sink::{MemStore, Store};
use std::alloc::{AllocError, Global};

impl System<MemStore> {
    /// The system that a configuration names: its queue, its loggers and its sinks, each over a new store in memory.
    pub fn new(alloc: Global, config: &Config) -> Result<System<MemStore>, AllocError>
        ensures { IfOk result (λ s.
            IsSystemOf ⟦<MemStore as Store>⟧.tells ⟦<MemStore as Store>⟧.files ⟦<MemStore as Store>⟧.failures config.now s) }
    {
        let stores = new_stores(alloc, leaves(config))?;
        // A refused growth is the only failure of a store in memory.
        let Ok((loggers, sinks)) = build(alloc, config, stores) else {
            return Err(AllocError);
        };
        // The size of a configuration's queue is one that a queue may have.
        match System::of(alloc, config.queue, config.text, loggers, sinks) {
            Ok(system) => Ok(system),
            Err(_) => Err(AllocError),
        }
    }
}

/// So many stores without files.
fn new_stores(alloc: Global, count: usize) -> Result<Vec<MemStore>, AllocError>
    ensures many { IfOk result (λ v. length v.items ≡ count) }
    ensures empty { IfOk result (λ v. AreEmpty ⟦<MemStore as Store>⟧.files v.items) }
{
    let mut stores = Vec::with_capacity(alloc, count)?;
    for _ in 0..count {
        stores.push_reserved(MemStore::new(alloc));
    }
    Ok(stores)
}
