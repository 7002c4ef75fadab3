//! Files of a folder.
ghost use Rattle.std.specs.Prelude.{◌≡◌, ◌<◌, ◌≤◌, IfOk, OnOk, length, take};
ghost use Rattle.std.specs.Io.KnownBytes.{Appends};
ghost use Rattle.alog_sink.specs.Calls.{Counts};

use crate::resume::{AppendError, Resumes};
use crate::store::{Store, StoreError, counted};
use alog_msg::are_same;
use std::alloc::{AllocError, Global};
use std::fmt::{self, Debug, Formatter};
use std::fs::{self, OpenOptions};
use std::io::{self, BufWriter, ErrorKind, Write};
use std::path::{Path, PathBuf};
use std::rt::Files;

/// How many bytes the buffer of a file holds before they are written.
const BUFFER: usize = 64 * 1024;

/// What stands before and behind the name of a file that a rename has set aside.
const ASIDE: (&str, &str) = (".", ".replaced");

/// The files of one folder of a file system.
///
/// A file is opened by the first append to it, which makes it where it is absent, and stays open, with a buffer of 64 KiB,
/// until it is renamed or removed. Its buffer is written when it is full, before a rename of it and a size, at a flush, and when
/// the store is dropped, which tells no failure. Before a removal, and a rename to its name, it is not: where there is no room for
/// it, these make some. A call fails where the system refuses what it asks, a write of the buffer among it, where memory is wanting,
/// and, but for a flush, where a name leads out of the folder or is of the form `.X.replaced`; a flush of a file that is not open does
/// nothing. Why the last call that failed did is kept. What could not be written stays in the buffer, and the next call that writes
/// it tries it again.
///
/// The system may change files as it likes, so this store does not tell what it holds. A rename to `X` sets aside what had
/// that name, as `.X.replaced`, and removes it when the file has its new name: some file systems, ext4 among them, write a
/// file out before it may replace another. Where the system refuses one of these steps, those before it are undone. A
/// process that is ended within a rename may leave `.X.replaced`, as a rename does to which the system refuses both the last step and
/// its undoing, which then is done; the next rename to `X` removes it.
#[derive(Drop)]
pub struct FolderStore<R: Files> {
    folder: Folder<R>,
    failures: u64,
    reason: Option<io::Error>,
}

impl<R: Files + Drop> FolderStore<R> {
    /// A store over the folder with this path, which needs not be there yet. It asks the system for nothing.
    pub fn new(alloc: Global, files: R, path: &str) -> Result<FolderStore<R>, AllocError>
        ensures { IfOk result (λ s. ⟦<FolderStore<R> as Store>⟧.failures s ≡ 0) }
    {
        let path = PathBuf::from_str(alloc, path)?;
        let open_files = Vec::new(alloc);
        Ok(FolderStore {
            folder: Folder {
                alloc,
                files,
                path,
                open_files,
            },
            failures: 0,
            reason: None,
        })
    }
}

impl<R: Files> FolderStore<R> {
    /// A call's answer. Why it failed, where it did, is kept.
    fn told<T>(&mut self, answer: io::Result<T>) -> Result<T, StoreError>
        ensures { Counts self.old.failures self.new.failures result }
    {
        if let Err(error) = &answer {
            self.reason = Some(*error);
        }
        counted(answer, &mut self.failures)
    }
}

impl<R: Files> Debug for FolderStore<R> {
    fn fmt<W: fmt::Write>(&self, f: &mut Formatter<W>) -> fmt::Result {
        f.debug_struct("FolderStore")
            .field("path", &self.folder.path)
            .finish_non_exhaustive()
    }
}

/// An open file.
#[derive(Drop)]
struct Kept<F: Write + Drop> {
    name: String,
    writer: BufWriter<F>,
}

/// A folder and its open files, each of which has a name of its own.
#[derive(Drop)]
struct Folder<R: Files> {
    alloc: Global,
    files: R,
    path: PathBuf,
    /// In the order in which they were opened.
    open_files: Vec<Kept<R::File>>,
}

impl<R: Files> Folder<R> {
    /// The path of a file in the folder.
    fn path_of(&self, name: &str) -> io::Result<PathBuf> {
        let is_outside = name.is_empty() || name == "." || name == ".." || name.contains('/');
        if is_outside || name.starts_with(ASIDE.0) && name.ends_with(ASIDE.1) {
            return Err(ErrorKind::InvalidInput.into());
        }
        Ok(self.path.join(self.alloc, name)?)
    }

    /// The path at which what had a name is set aside.
    fn path_aside(&self, name: &str) -> io::Result<PathBuf> {
        let mut aside = String::from_str(self.alloc, ASIDE.0)?;
        aside.push_str(name)?;
        aside.push_str(ASIDE.1)?;
        Ok(self.path.join(self.alloc, aside.as_str())?)
    }

    /// The place of a file among the open ones. It is opened where it is not there.
    fn place_of(&mut self, name: &str) -> io::Result<usize>
        ensures { IfOk result (λ at. at < length self.new.open_files.items) }
    {
        match self
            .open_files
            .iter()
            .rposition(|kept| are_same(kept.name.as_bytes(), name.as_bytes()))
        {
            Some(at) => Ok(at),
            None => self.open_file(name),
        }
    }

    /// Opens a file behind the open ones, and tells its place.
    fn open_file(&mut self, name: &str) -> io::Result<usize>
        ensures { IfOk result (λ at. at < length self.new.open_files.items) }
    {
        self.open_files.reserve(1)?;
        let kept = self.opened(name)?;
        let at = self.open_files.len();
        self.open_files.push(kept)?;
        Ok(at)
    }

    /// A file that is open for appends, made where it was absent.
    fn opened(&self, name: &str) -> io::Result<Kept<R::File>> {
        let path = self.path_of(name)?;
        let name = String::from_str(self.alloc, name)?;
        let file = OpenOptions::new()
            .append(true)
            .create(true)
            .open(&self.files, path)?;
        let writer = BufWriter::with_capacity(self.alloc, BUFFER, file)?;
        Ok(Kept { name, writer })
    }

    /// Appends to a file, and tells how many bytes its buffer or the system took.
    fn append(&mut self, name: &str, bytes: &[u8]) -> (usize, io::Result<()>)
        ensures { result.0 ≤ length bytes.now }
    {
        match self.place_of(name) {
            Ok(at) => write_counted(&mut self.open_files[at].writer, bytes),
            Err(error) => (0, Err(error)),
        }
    }

    /// Writes the buffer of a file, where it is open.
    fn write_out(&mut self, name: &str) -> io::Result<()> {
        match self
            .open_files
            .iter_mut()
            .find(|kept| kept.name.as_str() == name)
        {
            Some(kept) => kept.writer.flush(),
            None => Ok(()),
        }
    }

    /// Closes a file, where it is open.
    fn close(&mut self, name: &str) {
        self.open_files.retain(|kept| kept.name.as_str() != name);
    }

    /// Renames a file. What had the new name is not written out first, since it goes.
    fn rename(&mut self, from: &str, to: &str) -> io::Result<()> {
        self.write_out(from)?;
        if self.rename_file(from, to)? {
            self.close(from);
            self.close(to);
        }
        Ok(())
    }

    /// Renames a file that has no buffer to write out, and tells whether it was there.
    fn rename_file(&self, from: &str, to: &str) -> io::Result<bool> {
        let old = self.path_of(from)?;
        let new = self.path_of(to)?;
        let aside = self.path_aside(to)?;
        self.replace(&old, &new, &aside)
    }

    /// Renames a file, and tells whether it was there. What had the new name is set aside, and put back where that is not
    /// done.
    fn replace(&self, old: &PathBuf, new: &PathBuf, aside: &PathBuf) -> io::Result<bool> {
        let is_aside = is_done(fs::rename(&self.files, new, aside))?;
        let answer = self.replace_aside(old, new, aside);
        if is_aside && !matches!(answer, Ok(true)) {
            fs::rename(&self.files, aside, new)?;
        }
        answer
    }

    /// Renames a file to a name that is free, and removes what was set aside, and tells whether the file was there. Where it answers
    /// anything else than that, the name is free again: a file whose old name it cannot have back keeps the new one, and what was set
    /// aside stays, as after a process that is ended within a rename.
    fn replace_aside(&self, old: &PathBuf, new: &PathBuf, aside: &PathBuf) -> io::Result<bool> {
        if !is_done(fs::rename(&self.files, old, new))? {
            return Ok(false);
        }
        if let Err(e) = is_done(fs::remove_file(&self.files, aside)) {
            if fs::rename(&self.files, new, old).is_ok() {
                return Err(e);
            }
        }
        Ok(true)
    }

    /// Removes a file, which is not written out first.
    fn remove(&mut self, name: &str) -> io::Result<()> {
        let path = self.path_of(name)?;
        if is_done(fs::remove_file(&self.files, path))? {
            self.close(name);
        }
        Ok(())
    }

    fn size(&mut self, name: &str) -> io::Result<Option<u64>> {
        self.write_out(name)?;
        match fs::metadata(&self.files, self.path_of(name)?) {
            Ok(metadata) => Ok(Some(metadata.len())),
            Err(e) if e.kind() == ErrorKind::NotFound => Ok(None),
            Err(e) => Err(e),
        }
    }
}

/// Writes these bytes, and tells how many were taken, which are all where none failed.
fn write_counted<W: Write>(writer: &mut W, bytes: &[u8]) -> (usize, io::Result<()>)
    ensures within { result.0 ≤ length bytes.now }
    ensures done { OnOk result.1 (result.0 ≡ length bytes.now) }
    ensures taken { Appends (W.contents writer.old) (W.contents writer.new) (take result.0 bytes.now) }
{
    let mut taken = 0;
    for _ in 0..u64::MAX {
        if taken == bytes.len() {
            return (taken, Ok(()));
        }
        match writer.write(&bytes[taken..]) {
            Ok(0) => return (taken, Err(ErrorKind::WriteZero.into())),
            Ok(count) => taken += count,
            Err(error) if error.kind() == ErrorKind::Interrupted => {}
            Err(error) => return (taken, Err(error)),
        }
    }
    (taken, Err(ErrorKind::TimedOut.into()))
}

// Whether a call found its file; that it did not is no failure.
fn is_done(answer: io::Result<()>) -> io::Result<bool> {
    match answer {
        Ok(()) => Ok(true),
        Err(e) if e.kind() == ErrorKind::NotFound => Ok(false),
        Err(e) => Err(e),
    }
}

impl<R: Files> Store for FolderStore<R> {
    ghost use Rattle.std.specs.Prelude.{false};
    ghost use Rattle.alog_sink.specs.Files.{no_files};

    ghost files = { λ _. no_files };

    ghost tells = { false };

    ghost failures = { λ s. s.failures };

    ghost why = { λ s. s.reason };

    fn append(&mut self, name: &str, bytes: &[u8]) -> Result<(), StoreError> {
        let (_, answer) = self.folder.append(name, bytes);
        self.told(answer)
    }

    fn rename(&mut self, from: &str, to: &str) -> Result<(), StoreError> {
        let answer = self.folder.rename(from, to);
        self.told(answer)
    }

    fn remove(&mut self, name: &str) -> Result<(), StoreError> {
        let answer = self.folder.remove(name);
        self.told(answer)
    }

    fn size(&mut self, name: &str) -> Result<Option<u64>, StoreError> {
        let answer = self.folder.size(name);
        self.told(answer)
    }

    fn flush(&mut self, name: &str) -> Result<(), StoreError> {
        let answer = self.folder.write_out(name);
        self.told(answer)
    }

    fn reason(&self) -> Option<io::Error> {
        self.reason
    }
}

impl<R: Files> Resumes for FolderStore<R> {
    fn append_some(&mut self, name: &str, bytes: &[u8]) -> Result<(), AppendError> {
        let (taken, answer) = self.folder.append(name, bytes);
        match self.told(answer) {
            Ok(()) => Ok(()),
            Err(StoreError) => Err(AppendError { taken }),
        }
    }
}
