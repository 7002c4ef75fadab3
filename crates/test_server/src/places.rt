//! The places of tests: folders with something in them, and what is no folder.
use std::os::unix::fs::symlink;
use std::path::PathBuf;
use std::{fs, io};
use test_runs::{Scratch, folder};

/// What lies at the path that a server gets for its folder.
#[derive(Clone, Copy)]
pub(crate) enum Place {
    /// Nothing.
    Absent,
    /// What takes no files.
    Proc,
    File,
    Folder,
    /// A folder in which the file `out` is a folder.
    TakenFolder,
    /// One in which the file `lost.log` takes no byte.
    FullFolder,
    /// One with a file that was made in a look at it and left, one that takes no bytes, and a folder that has the name from which a daily
    /// sink makes its files'.
    UsedFolder,
    /// One in which the file `out` is a link to itself.
    LoopFolder,
}

impl Place {
    /// The path, when all is there.
    pub(crate) fn made(self, rt: &HostRuntime) -> io::Result<PathBuf> {
        let alloc = rt.alloc();
        match self {
            Place::Absent => rt.scratch("absent"),
            Place::Proc => Ok(PathBuf::from_str(alloc, "/proc")?),
            Place::File => {
                let path = rt.scratch("file")?;
                fs::write(rt, path.as_str(), "")?;
                Ok(path)
            }
            _ => {
                let path = folder(rt)?;
                self.fill(rt, &path)?;
                Ok(path)
            }
        }
    }

    /// Fills a folder.
    fn fill(self, rt: &HostRuntime, folder: &PathBuf) -> io::Result<()> {
        let alloc = rt.alloc();
        match self {
            Place::TakenFolder => fs::create_dir(rt, folder.join(alloc, "out")?),
            Place::FullFolder => symlink(rt, "/dev/full", folder.join(alloc, "lost.log")?),
            Place::LoopFolder => symlink(rt, "out", folder.join(alloc, "out")?),
            Place::UsedFolder => use_folder(rt, folder),
            Place::Absent | Place::Proc | Place::File | Place::Folder => Ok(()),
        }
    }

    /// What was made is removed.
    pub(crate) fn remove(self, rt: &HostRuntime, path: PathBuf) -> io::Result<()> {
        match self {
            Place::Absent | Place::Proc => Ok(()),
            Place::File => fs::remove_file(rt, path.as_str()),
            _ => fs::remove_dir_all(rt, path.as_str()),
        }
    }
}

/// Fills a folder with what a server passes over.
fn use_folder(rt: &HostRuntime, folder: &PathBuf) -> io::Result<()> {
    let alloc = rt.alloc();
    fs::write(rt, folder.join(alloc, ".probe.replaced")?, "")?;
    symlink(rt, "/dev/full", folder.join(alloc, "full")?)?;
    fs::create_dir(rt, folder.join(alloc, "out")?)
}
