//! Whether the files of a configuration can be written to a folder, which is held for them.
use crate::folders::{Folders, LOCK_FILE};
use alog_config::{Config, SinkKind, Upkeep};
use std::alloc::{AllocError, Global};
use std::fs::{self, OpenOptions};
use std::io::{self, ErrorKind};
use std::path::Path;
use std::rt::Files;

/// A file that is made and removed in a folder to see whether one can be. No store takes a file of such a name.
const PROBE: &str = ".probe.replaced";

/// What came of asking for a folder.
#[derive(Drop)]
pub enum Hold<L> {
    /// It takes the files, and is held for them until this is dropped: behind the stores, whose buffers are written when they are dropped.
    Held(L),
    /// It does not, or another holds it: this says why.
    Refused(String),
}

/// Looks whether the files of a configuration can be written to a folder, and holds it for them, so that no two write there at once.
///
/// It is refused where the folder is not there, is none, or takes no new file; where a file that is there already cannot be opened, as
/// a folder of its name; where a sink's file would be the folder's lock, or that cannot be made; and where another alog holds it, or another server of this process. To see whether the folder takes files,
/// one is made there and removed. The files of daily sinks have names by dates, so the folder alone is looked at for them. The tests
/// `what_cannot_be_written_is_refused_at_the_start` and `a_folder_is_held_by_one_server` of `test_server` show it.
pub fn hold_folder<R: Files + Folders>(
    rt: &R,
    alloc: Global,
    folder: &str,
    config: &Config,
) -> Result<Hold<R::Lock>, AllocError> {
    if let Some(text) = unwritable(rt, alloc, folder, config)? {
        return Ok(Hold::Refused(text));
    }
    match rt.hold(alloc, folder) {
        Ok(lock) => Ok(Hold::Held(lock)),
        Err(error) => not_held(alloc, folder, error),
    }
}

/// Why a folder could not be held, by the error of its lock.
fn not_held<L>(alloc: Global, folder: &str, error: io::Error) -> Result<Hold<L>, AllocError> {
    let text = match error.kind() {
        ErrorKind::OutOfMemory => return Err(AllocError),
        ErrorKind::WouldBlock => {
            format!(in alloc; "{folder} is in use: another alog holds {folder}/{LOCK_FILE}")?
        }
        _ => format!(in alloc; "{folder}/{LOCK_FILE} cannot be locked: {error}")?,
    };
    Ok(Hold::Refused(text))
}

/// What keeps the files of a configuration from being written to a folder, in words, where something does.
fn unwritable<R: Files>(
    rt: &R,
    alloc: Global,
    folder: &str,
    config: &Config,
) -> Result<Option<String>, AllocError> {
    if let Some(text) = unwritable_folder(rt, alloc, folder)? {
        return Ok(Some(text));
    }
    for sink in &config.sinks {
        let Some(file) = lasting_file(&sink.kind) else {
            continue;
        };
        if let Some(text) = unwritable_file(rt, alloc, folder, file)? {
            return Ok(Some(text));
        }
    }
    Ok(None)
}

/// What keeps new files from being made in a folder, in words, where something does.
fn unwritable_folder<R: Files>(
    rt: &R,
    alloc: Global,
    folder: &str,
) -> Result<Option<String>, AllocError> {
    match fs::metadata(rt, folder) {
        Ok(found) if found.is_dir() => {}
        Ok(_) => return Ok(Some(format!(in alloc; "{folder} is no folder")?)),
        Err(error) => return takes_none(alloc, folder, error),
    }
    match takes_files(rt, alloc, folder) {
        Ok(()) => Ok(None),
        Err(error) => takes_none(alloc, folder, error),
    }
}

/// What keeps this file of a sink from being written to a folder, in words, where something does.
fn unwritable_file<R: Files>(
    rt: &R,
    alloc: Global,
    folder: &str,
    file: &str,
) -> Result<Option<String>, AllocError> {
    if file == LOCK_FILE {
        return Ok(Some(format!(in alloc;
            "{folder}/{file} is the lock of the folder, and can be no file of a sink"
        )?));
    }
    match takes_lines(rt, alloc, folder, file) {
        Ok(()) => Ok(None),
        Err(error) => {
            let text = format!(in alloc; "{folder}/{file} cannot be written: {error}")?;
            told(text, error)
        }
    }
}

/// What is said of a folder that takes no files, for this reason.
fn takes_none(alloc: Global, folder: &str, error: io::Error) -> Result<Option<String>, AllocError> {
    let text = format!(in alloc; "no files can be written to {folder}: {error}")?;
    told(text, error)
}

/// The words of an error, unless it is want of memory.
fn told(text: String, error: io::Error) -> Result<Option<String>, AllocError> {
    if error.kind() == ErrorKind::OutOfMemory {
        return Err(AllocError);
    }
    Ok(Some(text))
}

/// The file of a sink that writes to one of the same name on all days.
fn lasting_file(kind: &SinkKind) -> Option<&str> {
    match kind {
        SinkKind::Lines { file, upkeep, .. } if !matches!(upkeep, Upkeep::Daily { .. }) => {
            Some(file.as_str())
        }
        SinkKind::Lines { .. } | SinkKind::Fan { .. } => None,
    }
}

/// Whether a file can be made in this folder.
fn takes_files<R: Files>(rt: &R, alloc: Global, folder: &str) -> io::Result<()> {
    let path = Path::new(folder).join(alloc, PROBE)?;
    let made = OpenOptions::new()
        .write(true)
        .create_new(true)
        .open(rt, path.as_str());
    match made {
        Ok(_) => fs::remove_file(rt, path.as_str()),
        Err(error) if error.kind() == ErrorKind::AlreadyExists => Ok(()),
        Err(error) => Err(error),
    }
}

/// Whether lines can be appended to this file of a folder, where it is there.
fn takes_lines<R: Files>(rt: &R, alloc: Global, folder: &str, file: &str) -> io::Result<()> {
    let path = Path::new(folder).join(alloc, file)?;
    match OpenOptions::new().append(true).open(rt, path) {
        Ok(_) => Ok(()),
        Err(error) if error.kind() == ErrorKind::NotFound => Ok(()),
        Err(error) => Err(error),
    }
}
