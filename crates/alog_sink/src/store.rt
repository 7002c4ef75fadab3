//! What a sink writes to.
ghost use Rattle.std.specs.Prelude.{◌≡◌, IfOk, Ok, is_ok};
ghost use Rattle.alog_sink.specs.Calls.{Counts};

use std::io;
use thiserror::Error;

/// A call of a store failed. What it left is the store's law.
#[derive(Clone, Copy, Debug, PartialEq, Eq, Drop, Error)]
#[error("the store failed")]
pub struct StoreError;

/// A folder of files by name. A name is the bytes of its text.
///
/// Its meaning is `files`, what each name has; `tells`, whether anything is claimed of the files at all; `failures`, how many
/// calls have failed; and `why`, the reason that it tells of the last one. The law of each call: what it leaves where it answers, what
/// where it fails, and that a failed call, and no other, is counted.
pub trait Store {
    ghost use Rattle.std.specs.Prelude.{◌≡◌, ℕ, Bool, true, Option, IfOk, OnOk, OnErr, length};
    ghost use Rattle.std.specs.Option.{option_map};
    ghost use Rattle.std.specs.declared.io.Error.{Error};
    ghost use Rattle.alog_sink.specs.Files.{Files, AreSame, appended, renamed, removed};
    ghost use Rattle.alog_sink.specs.Calls.{LeavesFront, Counts};

    ghost files: { Self → Files };

    ghost tells: { Bool };

    ghost failures: { Self → ℕ };

    ghost why: { Self → Option Error };

    /// Appends to a file, which is made where it is absent. A failure may leave some of the first bytes appended.
    fn append(&mut self, name: &str, bytes: &[u8]) -> Result<(), StoreError>
        ensures done { tells ≡ true
            → OnOk result (AreSame (appended name.now bytes.now (files self.old)) (files self.new)) }
        ensures failed { tells ≡ true
            → OnErr result (LeavesFront name.now bytes.now (files self.old) (files self.new)) }
        ensures counted { Counts (failures self.old) (failures self.new) result };

    /// Gives a file another name, and replaces what had it. Nothing happens where there is no such file.
    fn rename(&mut self, from: &str, to: &str) -> Result<(), StoreError>
        ensures done { tells ≡ true
            → OnOk result (AreSame (renamed from.now to.now (files self.old)) (files self.new)) }
        ensures failed { tells ≡ true → OnErr result (AreSame (files self.old) (files self.new)) }
        ensures counted { Counts (failures self.old) (failures self.new) result };

    /// Removes a file, where it is there.
    fn remove(&mut self, name: &str) -> Result<(), StoreError>
        ensures done { tells ≡ true → OnOk result (AreSame (removed name.now (files self.old)) (files self.new)) }
        ensures failed { tells ≡ true → OnErr result (AreSame (files self.old) (files self.new)) }
        ensures counted { Counts (failures self.old) (failures self.new) result };

    /// How many bytes a file has, or none where it is absent.
    fn size(&mut self, name: &str) -> Result<Option<u64>, StoreError>
        ensures size { tells ≡ true → IfOk result (λ size. size ≡ option_map length (files self.old name.now)) }
        ensures same { tells ≡ true → AreSame (files self.old) (files self.new) }
        ensures counted { Counts (failures self.old) (failures self.new) result };

    /// Brings a file to where it is kept. Nothing happens where there is no such file.
    fn flush(&mut self, name: &str) -> Result<(), StoreError>
        ensures same { tells ≡ true → AreSame (files self.old) (files self.new) }
        ensures counted { Counts (failures self.old) (failures self.new) result };

    /// Why the last call that failed did, where the system said so. No law says that it is that call's reason; sessions show it.
    fn reason(&self) -> Option<io::Error>
        ensures { result ≡ why self.now };
}

/// A store's answer to what it was answered itself. A failure is counted.
pub(crate) fn counted<T, E: Drop>(answer: Result<T, E>, failures: &mut u64) -> Result<T, StoreError>
    ensures same { is_ok result ≡ is_ok answer }
    ensures value { IfOk result (λ x. answer ≡ Ok x) }
    ensures counted { Counts failures.old failures.new result }
{
    match answer {
        Ok(value) => Ok(value),
        Err(_) => {
            *failures = failures.saturating_add(1);
            Err(StoreError)
        }
    }
}
