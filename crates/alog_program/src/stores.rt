//! The stores of a load that is kept in memory.
ghost use Rattle.std.specs.Prelude.{◌≡◌, All, length, IfOk};
ghost use Rattle.alog_server.specs.Stores.{IsNew};

use alog_sink::{MemStore, Store};
use std::alloc::{AllocError, Global};

/// So many stores in memory.
pub(crate) fn memory_stores(alloc: Global, count: usize) -> Result<Vec<MemStore>, AllocError>
    ensures many { IfOk result (λ v. length v.items ≡ count) }
    ensures fresh { IfOk result (λ v. All (IsNew ⟦<MemStore as Store>⟧.tells ⟦<MemStore as Store>⟧.files
        ⟦<MemStore as Store>⟧.failures) v.items) }
{
    let mut stores = Vec::with_capacity(alloc, count)?;
    for _number in 0..count {
        stores.push_reserved(MemStore::new(alloc));
    }
    Ok(stores)
}
