//! The stores of a folder, and what holds it.
ghost use Rattle.std.specs.Prelude.{◌≡◌, All, length, IfOk};
ghost use Rattle.alog_server.specs.Stores.{IsNew, patience_of};

use alog_config::Config;
use alog_patient::{Patience, PatientStore};
use alog_sink::{FolderStore, Store};
use std::alloc::{AllocError, Global};
use std::fs::{File, OpenOptions};
use std::io;
use std::path::Path;
use std::rt::Files;
use std::sync::Wait;
use std::time::Clock;

/// The file of a folder by which the folder is held.
pub(crate) const LOCK_FILE: &str = ".alog.lock";

/// What holds a folder and opens its stores, both of which may go to other threads.
///
/// Its ghost member `tries` is how often a store tries a failed call again.
pub trait Folders {
    ghost use Rattle.std.specs.Prelude.{◌≡◌, IfOk};
    ghost use Rattle.alog_patient.specs.declared.patience.Patience.{Patience};
    ghost use Rattle.alog_server.specs.Stores.{IsNew};

    type Folder: Store + Drop + Send + 'static;

    ghost tries: { Self.Folder → Patience };

    /// What holds a folder until it is dropped, or its process ends.
    type Lock: Drop + Send + 'static;

    /// A store over the folder with this path, which tries a failed call again so often.
    fn folder(
        &self,
        alloc: Global,
        path: &str,
        patience: Patience,
    ) -> Result<Self::Folder, AllocError>
        ensures fresh { IfOk result (λ s. IsNew Self.Folder.tells Self.Folder.files Self.Folder.failures s) }
        ensures tries { IfOk result (λ s. tries s ≡ patience) };

    /// Holds the folder with this path, by a lock on its file `.alog.lock`, which is made where it is absent, and stays. An error of
    /// the kind `WouldBlock` says that another holds it: a process, or a server of this one.
    fn hold(&self, alloc: Global, path: &str) -> io::Result<Self::Lock>;
}

/// The runtime of a program, whose files can be locked. A bound `Folders` cannot stand beside an impl for all runtimes.
pub trait Host: Files {
    /// Locks a file for those alone who have this open file, unless it is locked by others.
    fn try_lock(file: &Self::File) -> io::Result<()>;
}

impl Host for HostRuntime {
    fn try_lock(file: &File) -> io::Result<()> {
        Ok(file.try_lock()?)
    }
}

impl<R> Folders for R
where
    R: Host + Wait + Clock + Eprint + Clone + Drop + Send + 'static,
    R::File: Send + 'static,
{
    type Folder = PatientStore<FolderStore<R>, R>;

    type Lock = R::File;

    ghost tries = { λ s. s.patience };

    fn folder(
        &self,
        alloc: Global,
        path: &str,
        patience: Patience,
    ) -> Result<PatientStore<FolderStore<R>, R>, AllocError> {
        let (files, waits): (R, R) = (self.clone()?, self.clone()?);
        let store = FolderStore::new(alloc, files, path)?;
        Ok(PatientStore::new(waits, store, patience))
    }

    fn hold(&self, alloc: Global, path: &str) -> io::Result<R::File> {
        let path = Path::new(path).join(alloc, LOCK_FILE)?;
        let file = OpenOptions::new()
            .write(true)
            .create(true)
            .open(self, path.as_str())?;
        R::try_lock(&file)?;
        Ok(file)
    }
}

/// How often a failed call of a store is tried again: as often as a configuration says, and else so.
pub fn patience_of(config: &Config, default: Patience) -> Patience
    ensures { result ≡ patience_of default config.now.retry }
{
    match config.retry {
        Some(times) => Patience::Times(times),
        None => default,
    }
}

/// So many stores over the folder with this path, each of which tries a failed call again so often.
pub fn folder_stores<R: Folders>(
    rt: &R,
    alloc: Global,
    path: &str,
    count: usize,
    patience: Patience,
) -> Result<Vec<R::Folder>, AllocError>
    ensures many { IfOk result (λ v. length v.items ≡ count) }
    ensures fresh { IfOk result (λ v. All (IsNew R.Folder.tells R.Folder.files R.Folder.failures) v.items) }
    ensures tries { IfOk result (λ v. All (λ s. R.tries s ≡ patience) v.items) }
{
    let mut stores = Vec::with_capacity(alloc, count)?;
    for _number in 0..count {
        stores.push_reserved(rt.folder(alloc, path, patience)?);
    }
    Ok(stores)
}
