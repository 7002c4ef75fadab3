//! The file of a memory sink.
ghost use Rattle.std.specs.Prelude.{◌≡◌, ◌++◌, ◌∷◌, [], true, List, IfOk, OnOk};
ghost use Rattle.alog_sink.specs.Calls.{Counts};
ghost use Rattle.alog_sink.specs.Deeds.{Append, Does};
ghost use Rattle.alog_sink.specs.Files.{AreSame, Files};
ghost use Rattle.alog_sink.specs.OneFile.{one_file};

use crate::store::{Store, StoreError};
use alog_msg::Text;

/// One file, to which each line is appended.
#[derive(Debug, Drop)]
pub struct OneFile {
    pub(crate) file: Text,
}

impl OneFile {
    ghost use Rattle.std.specs.Prelude.{ℕ};

    /// Appends a line.
    #[tactic(auto, using(crate::proofs::OneFiles::append_does, crate::proofs::OneFiles::one_file_grows))]
    pub(crate) fn put<S: Store>(&self, store: &mut S, line: &[u8]) -> Result<(), StoreError>
        ensures does { S.tells ≡ true
            → Does (Append self.now.file line.now ∷ []) (S.files store.old) (S.files store.new) result }
        ensures kept { S.tells ≡ true → (opening : Files) (lines : List (List ℕ))
            → AreSame (one_file self.now.file opening lines) (S.files store.old)
            → OnOk result (AreSame (one_file self.now.file opening (lines ++ line.now ∷ [])) (S.files store.new)) }
        ensures counted { Counts (S.failures store.old) (S.failures store.new) result }
    {
        store.append(self.file.as_str(), line)
    }
}
