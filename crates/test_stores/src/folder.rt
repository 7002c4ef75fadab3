//! What the tests of folders share: a folder for one test, and what the system has in it.
use alog_sink::FolderStore;
use std::path::PathBuf;
use std::test::Fail;
use std::{env, fs, process};

pub type Folder = FolderStore<HostRuntime>;

/// A folder for one test, without a file.
pub fn scratch(rt: &HostRuntime, name: &str) -> Result<PathBuf, Fail> {
    let process = process::id(rt.process());
    let own = format!(in rt.alloc(); "alog_store_{process}_{name}")?;
    let path = env::temp_dir(rt)?.join(rt.alloc(), own.as_str())?;
    fs::create_dir(rt, path.as_str())?;
    Ok(path)
}

/// The folder goes, with what is in it.
pub fn clear(rt: &HostRuntime, path: &PathBuf) -> Result<(), Fail> {
    Ok(fs::remove_dir_all(rt, path.as_str())?)
}

/// A store over the folder.
pub fn open(rt: &HostRuntime, path: &PathBuf) -> Result<Folder, Fail> {
    Ok(FolderStore::new(rt.alloc(), *rt, path.as_str())?)
}

/// What the system has of a file, or none where it has no such file.
pub fn found(rt: &HostRuntime, path: &PathBuf, name: &str) -> Result<Option<Vec<u8>>, Fail> {
    let file = path.join(rt.alloc(), name)?;
    if fs::exists(rt, file.as_str())? {
        Ok(Some(fs::read(rt, file.as_str())?))
    } else {
        Ok(None)
    }
}

/// Whether the system has just these bytes of a file, or no such file.
pub fn has(
    rt: &HostRuntime,
    path: &PathBuf,
    name: &str,
    wanted: Option<&[u8]>,
) -> Result<bool, Fail> {
    let found = found(rt, path, name)?;
    Ok(found.as_ref().map(|file| file.as_slice()) == wanted)
}

/// A file, and what the system has of it, or none where it has no such file.
pub type Left<'a> = (&'a str, Option<&'a [u8]>);

/// Whether the system has that of each of these files.
pub fn has_all(rt: &HostRuntime, path: &PathBuf, files: &[Left<'_>]) -> Result<bool, Fail> {
    for (name, wanted) in files {
        if !has(rt, path, name, *wanted)? {
            return Ok(false);
        }
    }
    Ok(true)
}

/// How many files there are in a folder.
pub fn count(rt: &HostRuntime, path: &str) -> Result<usize, Fail> {
    Ok(fs::read_dir(rt, path)?.count())
}
