//! The files that a host found in its folder.
ghost use Rattle.std.specs.Prelude.{◌≡◌, [], ◌∷◌, ◌++◌, IfOk, OnErr};
ghost use Rattle.std.specs.Arc.{arc_value};

use alog_outbox::FoundFile;
use std::alloc::{AllocError, Global};
use std::marker::Model;
use std::mem;
use std::sync::Arc;

/// A list of files, which may be shared.
#[derive(Drop)]
pub struct FoundList {
    list: Files,
}

/// Where the list is: with its one owner, or shared.
#[derive(Drop)]
enum Files {
    Own(Vec<FoundFile>),
    Shared(Arc<Vec<FoundFile>>),
}

impl Model for FoundList {
    ghost use Rattle.std.specs.Prelude.{List};
    ghost use Rattle.alog_ffi.specs.Found.{files_of};
    ghost use Rattle.alog_outbox.specs.declared.found.FoundFile.{FoundFile};

    ghost Value = { List FoundFile };

    ghost view = { λ l. files_of l.list };
}

impl FoundList {
    /// No files.
    pub(crate) fn new(alloc: Global) -> FoundList
        ensures { result ≡ [] }
    {
        FoundList {
            list: Files::Own(Vec::new(alloc)),
        }
    }

    /// One more file. Where there is no memory the list stays.
    pub(crate) fn push(&mut self, alloc: Global, file: FoundFile) -> Result<(), AllocError>
        ensures pushed { IfOk result (λ _. self.new ≡ self.old ++ file ∷ []) }
        ensures err { OnErr result (self.new ≡ self.old) }
    {
        let mut files = match mem::replace(&mut self.list, Files::Own(Vec::new(alloc))) {
            Files::Own(files) => files,
            Files::Shared(files) => match Arc::try_unwrap(files) {
                Ok(files) => files,
                Err(files) => {
                    self.list = Files::Shared(files);
                    return Err(AllocError);
                }
            },
        };
        let pushed = files.push(file);
        self.list = Files::Own(files);
        match pushed {
            Ok(()) => Ok(()),
            Err(_) => Err(AllocError),
        }
    }

    /// The list, to be shared. Where there is no memory it stays as it was.
    pub(crate) fn share(&mut self, alloc: Global) -> Result<Arc<Vec<FoundFile>>, AllocError>
        ensures shared { IfOk result (λ l. (arc_value l).items ≡ self.old) }
        ensures same { self.new ≡ self.old }
    {
        match mem::replace(&mut self.list, Files::Own(Vec::new(alloc))) {
            Files::Own(files) => match Arc::new(alloc, files) {
                Ok(files) => self.keep(files),
                Err(failed) => {
                    self.list = Files::Own(failed.value);
                    Err(AllocError)
                }
            },
            Files::Shared(files) => self.keep(files),
        }
    }

    /// Keeps the list, and gives a share of it.
    fn keep(&mut self, files: Arc<Vec<FoundFile>>) -> Result<Arc<Vec<FoundFile>>, AllocError>
        ensures shared { IfOk result (λ l. (arc_value l).items ≡ (arc_value files).items) }
        ensures kept { self.new ≡ (arc_value files).items }
    {
        let share = Arc::try_clone(&files);
        self.list = Files::Shared(files);
        share
    }
}
