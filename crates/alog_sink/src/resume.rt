//! Stores that tell how much of an append they took.

use crate::store::Store;
use thiserror::Error;

/// An append failed.
#[derive(Clone, Copy, Debug, PartialEq, Eq, Drop, Error)]
#[error("the store failed")]
pub struct AppendError {
    /// How many of the first bytes are appended.
    pub taken: usize,
}

/// A store that tells of an append that failed how many of the first bytes it took, so that the others alone may be appended later.
pub trait Resumes: Store {
    ghost use Rattle.std.specs.Prelude.{◌≡◌, ◌≤◌, true, IfErr, OnOk, length};
    ghost use Rattle.alog_sink.specs.Files.{AreSame, appended};
    ghost use Rattle.alog_sink.specs.Calls.{Counts, TakesFront};

    /// Appends to a file, which is made where it is absent. Where that fails behind no byte, the file may have been made.
    fn append_some(&mut self, name: &str, bytes: &[u8]) -> Result<(), AppendError>
        ensures done { Self.tells ≡ true
            → OnOk result (AreSame (appended name.now bytes.now (Self.files self.old)) (Self.files self.new)) }
        ensures failed { Self.tells ≡ true
            → IfErr result (λ e. TakesFront e.taken name.now bytes.now (Self.files self.old) (Self.files self.new)) }
        ensures within { IfErr result (λ e. e.taken ≤ length bytes.now) }
        ensures counted { Counts (Self.failures self.old) (Self.failures self.new) result };
}
