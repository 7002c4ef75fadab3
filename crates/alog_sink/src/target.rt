//! Where the lines of a sink go.
ghost use Rattle.std.specs.Prelude.{◌≡◌, ◌++◌, ◌∷◌, [], true, List, IsOk, OnOk};
ghost use Rattle.alog_format.specs.Civil.{IsZone};
ghost use Rattle.alog_sink.specs.Calls.{Counts};
ghost use Rattle.alog_sink.specs.Deeds.{Does};
ghost use Rattle.alog_sink.specs.Files.{AreSame, Files};
ghost use Rattle.alog_sink.specs.Kept.{HasNoFile, IsKept, IsSameTarget, deeds_of};
ghost use Rattle.alog_sink.specs.Lines.{IsShownTo, Written};

use crate::daily_files::DailyFiles;
use crate::one_file::OneFile;
use crate::rotation::Rotation;
use crate::store::{Store, StoreError};
use alog_format::Zone;
use alog_msg::Message;

/// The files of a sink, by its kind.
#[derive(Debug, Drop)]
pub(crate) enum Target {
    /// One file.
    Memory(OneFile),
    /// A base, and further files that have what it had before.
    Rotating(Rotation),
    /// A file for each date that opened a period.
    Daily(DailyFiles),
}

impl Target {
    /// Brings the line of a message to the files; the zone is that of its dates.
    #[tactic(auto, using(crate::proofs::SharedOneFiles::lines_more))]
    pub(crate) fn put<S: Store>(
        &mut self,
        store: &mut S,
        zone: &Zone,
        message: &Message,
        line: &[u8],
    ) -> Result<(), StoreError>
        requires { IsZone zone.now }
        ensures does { S.tells ≡ true → (w : Written) → IsShownTo zone.now message.now w.at → w.line ≡ line.now
            → Does (deeds_of self.old w) (S.files store.old) (S.files store.new) result }
        ensures kept { S.tells ≡ true → (opening : Files) (ws : List Written) (w : Written) → IsShownTo zone.now message.now w.at
            → w.line ≡ line.now → IsKept self.old opening ws (S.files store.old)
            → OnOk result (IsKept self.new opening (ws ++ w ∷ []) (S.files store.new)) }
        ensures same { IsSameTarget self.old self.new }
        ensures counted { Counts (S.failures store.old) (S.failures store.new) result }
    {
        match self {
            Target::Memory(one_file) => one_file.put(store, line),
            Target::Rotating(rotation) => rotation.put(store, line),
            Target::Daily(daily_files) => daily_files.put(store, zone, message, line),
        }
    }

    /// Flushes the file that lines go to now, if there is one.
    pub(crate) fn flush<S: Store>(&self, store: &mut S) -> Result<(), StoreError>
        ensures same { S.tells ≡ true → AreSame (S.files store.old) (S.files store.new) }
        ensures counted { Counts (S.failures store.old) (S.failures store.new) result }
        ensures quiet { HasNoFile self.now → IsOk result × (store.new ≡ store.old) }
    {
        match self {
            Target::Memory(one_file) => store.flush(one_file.file.as_str()),
            Target::Rotating(rotation) => store.flush(rotation.file()),
            Target::Daily(daily_files) => daily_files.flush(store),
        }
    }
}
