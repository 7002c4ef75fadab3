//! The files and folders of a test, which runs in a process of its own.
use crate::program::Host;
use std::path::PathBuf;
use std::{env, fs, io, process};

/// What has paths at which no other process has anything.
pub trait Scratch {
    /// The path of this name, at which nothing is yet.
    fn scratch(&self, name: &str) -> io::Result<PathBuf>;
}

impl Scratch for HostRuntime {
    fn scratch(&self, name: &str) -> io::Result<PathBuf> {
        let process = process::id(self.process());
        let own = format!(in self.alloc(); "alog_{process}_{name}")?;
        Ok(env::temp_dir(self)?.join(self.alloc(), own.as_str())?)
    }
}

/// The file of a test, which has this document.
pub fn written<R: Host>(rt: &R, document: &str) -> io::Result<PathBuf> {
    let path = rt.scratch("file")?;
    fs::write(rt, path.as_str(), document)?;
    Ok(path)
}

/// The file of a test is removed.
pub fn removed(rt: &HostRuntime, path: PathBuf) -> io::Result<()> {
    fs::remove_file(rt, path.as_str())
}

/// The folder of a test, which is empty.
pub fn folder(rt: &HostRuntime) -> io::Result<PathBuf> {
    let path = rt.scratch("folder")?;
    fs::create_dir(rt, path.as_str())?;
    Ok(path)
}

/// What the file `out` of this folder has. The folder is removed.
pub fn lines_in(rt: &HostRuntime, folder: &PathBuf) -> io::Result<String> {
    let file = folder.join(rt.alloc(), "out")?;
    let lines = fs::read_to_string(rt, file)?;
    fs::remove_dir_all(rt, folder.as_str())?;
    Ok(lines)
}
