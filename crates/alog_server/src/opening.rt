//! Starting a server: from the text of a configuration, over the files of a folder.
ghost use Rattle.std.specs.Prelude.{ℕ, List, Ok, IfOk, IfErr};
ghost use Rattle.alog_config.specs.Meaning.{Reads};
ghost use Rattle.alog_server.specs.Starting.{IsServerOn, IsOfFault, IsReasonFor};

use crate::error::StartError;
use crate::folders::{Folders, folder_stores, patience_of};
use crate::server::Server;
use crate::writable::{Hold, hold_folder};
use alog_config::{Config, ConfigFault, Place, explain, leaves, read};
use alog_patient::Patience;
use std::alloc::{AllocError, Global};
use std::rt::Files;
use std::sync::Wait;
use std::thread::Threads;
use std::time::Clock;

/// Starts a server of the configuration that is in this document, with the files of its sinks in this folder, which has to be there
/// and to take them: that is looked at first. The folder is held until what the server's run answers is dropped, when the last buffers of
/// its files are written: no other server, load or pipe gets it before. A failed call on a file is tried again as often as the key `retry` says, and
/// not at all where it says nothing.
pub fn start<R: Files + Folders + Threads + Wait + Clock + Clone + Drop + Send + 'static>(
    rt: &R,
    alloc: Global,
    document: &[u8],
    folder: &str,
) -> Result<Server<R::Folder, R::Lock>, StartError>
    ensures started { IfOk result (λ s. IsServerOn R.Folder.tells R.Folder.files R.Folder.failures R.tries document.now s.pool s.sinks.items) }
    ensures refused { IfErr result (IsReasonFor document.now) }
{
    match read(alloc, document) {
        Ok(config) => start_with(rt, alloc, &config, folder),
        Err(fault) => Err(refused(alloc, document, fault)),
    }
}

/// The same of the configuration that a document has.
fn start_with<R: Files + Folders + Threads + Wait + Clock + Clone + Drop + Send + 'static>(
    rt: &R,
    alloc: Global,
    config: &Config,
    folder: &str,
) -> Result<Server<R::Folder, R::Lock>, StartError>
    ensures started { (document : List ℕ) → Reads document (Ok config.now)
        → IfOk result (λ s. IsServerOn R.Folder.tells R.Folder.files R.Folder.failures R.tries document s.pool s.sinks.items) }
    ensures refused { (document : List ℕ) → Reads document (Ok config.now) → IfErr result (IsReasonFor document) }
{
    let lock = match hold_folder(rt, alloc, folder, config)? {
        Hold::Held(lock) => lock,
        Hold::Refused(text) => return Err(StartError::Unwritable { text }),
    };
    let patience = patience_of(config, Patience::Times(0));
    let stores = folder_stores(rt, alloc, folder, leaves(config), patience)?;
    Server::holding(rt, alloc, config, stores, lock)
}

/// Why a server is not started of a document that has this fault.
fn refused(alloc: Global, document: &[u8], fault: ConfigFault) -> StartError
    ensures { IsOfFault fault result }
{
    if fault == ConfigFault::OutOfMemory {
        return StartError::OutOfMemory;
    }
    match words(alloc, document, fault) {
        Ok(text) => StartError::Config { fault, text },
        Err(AllocError) => StartError::OutOfMemory,
    }
}

/// What `alog check` says of a document that has this fault.
fn words(alloc: Global, document: &[u8], fault: ConfigFault) -> Result<String, AllocError> {
    let number = fault.number();
    let why = explain(alloc, document, fault)?;
    match fault {
        ConfigFault::Broken { place, .. } => match place {
            Place::Top => format!(in alloc; "refused {number} in top: {why}"),
            Place::Sink(i) => format!(in alloc; "refused {number} in sink {i}: {why}"),
            Place::Logger(i) => format!(in alloc; "refused {number} in logger {i}: {why}"),
        },
        ConfigFault::NotToml | ConfigFault::OutOfMemory => {
            format!(in alloc; "refused {number}: {why}")
        }
    }
}
