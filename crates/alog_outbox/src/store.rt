//! The store whose calls are handed out.
ghost use Rattle.std.specs.Prelude.{◌≡◌, ◌+◌, ◌∷◌, ◌↔◌, [], length, None, OnErr, OnOk, IsOk, IsTrue};
ghost use Rattle.std.specs.Arc.{arc_value};
ghost use Rattle.alog_outbox.specs.Calls.{call, encoded};
ghost use Rattle.alog_outbox.specs.Line.{known, IsWriter};
ghost use Rattle.alog_outbox.specs.Views.{HasRoom, IsSameOutbox};
ghost use Rattle.alog_sink.specs.Calls.{Counts};

use crate::area::{Area, HEADER};
use crate::call::Kind;
use crate::found::{FoundFile, size_of};
use crate::hand::{is_empty, send_hand, write};
use crate::line::{Common, LinePass, send_end};
use alog_sink::{Store, StoreError};
use std::marker::Model;
use std::sync::Arc;
use std::{fmt, io};

/// A store that keeps no files: what it is told is written down, for its `Drain`.
///
/// Its files are those that were found, after the calls that it was told; what a file that was found holds, it does not know, so that it stands as
/// zeros. A call takes no memory. It fails where its record has no room in an empty area, and where no area is left: then the drain is behind. Where it is
/// let go, it sends what is in hand, and behind that the end, so that the drain can say that all was taken.
pub struct Outbox {
    pub(crate) common: Arc<Common>,
    pub(crate) pass: LinePass,
    /// The area in hand.
    hand: Option<Area>,
    found: Arc<Vec<FoundFile>>,
    /// Whether it was told anything.
    is_told: bool,
    failures: u64,
}

impl Model for Outbox {
    ghost use Rattle.std.specs.Prelude.{◌≡◌, ◌++◌};
    ghost use Rattle.std.specs.Arc.{arc_value};
    ghost use Rattle.alog_outbox.specs.Calls.{encoded, AreRecords};
    ghost use Rattle.alog_outbox.specs.Line.{known, IsWriter};
    ghost use Rattle.alog_outbox.specs.Views.{bytes_in, has_some, OutboxView};

    ghost Value = { OutboxView };

    ghost view = { λ o. record {
      calls = (known o.pass).calls;
      sent = (known o.pass).sent;
      hand = o.hand;
      found = (arc_value o.found).items;
      failures = o.failures;
      line = o.pass.table_id;
    } };

    ghost invariant = { λ o. IsWriter (arc_value o.common).line o.pass
        × ((known o.pass).sent ++ bytes_in o.hand ≡ encoded (known o.pass).calls)
        × AreRecords (bytes_in o.hand)
        × (o.is_told ≡ has_some (known o.pass).calls) };
}

impl fmt::Debug for Outbox {
    fn fmt<W: fmt::Write>(&self, f: &mut fmt::Formatter<W>) -> fmt::Result {
        f.debug_struct("Outbox")
            .field("failures", &self.failures)
            .finish_non_exhaustive()
    }
}

impl Drop for Outbox {
    fn drop(self) {
        let Outbox {
            common,
            mut pass,
            mut hand,
            found: _,
            is_told: _,
            failures: _,
        } = self;
        let common: &Common = &common;
        if send_hand(common, &mut pass, &mut hand) {
            send_end(&common.line, pass);
        }
    }
}

/// The answer of a call that was done, or was not. A failure is counted.
fn counted(is_done: bool, failures: &mut u64) -> Result<(), StoreError>
    ensures done { IsOk result ↔ IsTrue is_done }
    ensures counted { Counts failures.old failures.new result }
{
    if is_done {
        return Ok(());
    }
    *failures = failures.saturating_add(1);
    Err(StoreError)
}

impl Outbox {
    /// A store that was told nothing.
    pub(crate) fn of(common: Arc<Common>, pass: LinePass, found: Arc<Vec<FoundFile>>) -> Outbox
        requires pass { IsWriter (arc_value common).line pass }
        requires new { ((known pass).calls ≡ []) × ((known pass).sent ≡ []) }
        ensures told { (result.calls ≡ []) × (result.sent ≡ []) × (result.hand ≡ None) × (result.failures ≡ 0) }
        ensures found { result.found ≡ (arc_value found).items }
        ensures line { result.line ≡ pass.table_id }
    {
        Outbox {
            common,
            pass,
            hand: None,
            found,
            is_told: false,
            failures: 0,
        }
    }

    fn tell(&mut self, kind: Kind, name: &[u8], rest: &[u8]) -> Result<(), StoreError>
        ensures room { HasRoom self.old.hand (HEADER + length name.now + length rest.now) → IsOk result }
        ensures stays { HasRoom self.old.hand (HEADER + length name.now + length rest.now) → self.new.sent ≡ self.old.sent }
        ensures told { OnOk result (self.new.calls ≡ call kind name.now rest.now ∷ self.old.calls) }
        ensures failed { OnErr result (self.new.calls ≡ self.old.calls) }
        ensures counted { Counts self.old.failures self.new.failures result }
        ensures same { IsSameOutbox self.old self.new }
    {
        let is_done = write(
            &self.common,
            &mut self.pass,
            &mut self.hand,
            kind,
            name,
            rest,
        );
        self.is_told = self.is_told || is_done;
        counted(is_done, &mut self.failures)
    }

    /// Whether all that it was told has been sent.
    pub(crate) fn has_sent_all(&self) -> bool
        ensures { IsTrue result → self.now.sent ≡ encoded self.now.calls }
    {
        is_empty(&self.hand)
    }
}

impl Store for Outbox {
    ghost use Rattle.std.specs.Prelude.{◌≡◌, ◌+◌, ◌∷◌, ◌↔◌, ◌⊎◌, [], length, true, None, IfOk, IsErr, IsOk, IsTrue, OnErr, OnOk};
    ghost use Rattle.std.specs.Option.{option_map};
    ghost use Rattle.alog_outbox.specs.Calls.{call, encoded};
    ghost use Rattle.alog_outbox.specs.Views.{files_of, has_some, HasRoom, IsSameOutbox};
    ghost use Rattle.alog_outbox.specs.declared.area.TheConstants.{HEADER};
    ghost use Rattle.alog_outbox.specs.declared.call.Kind.TheVariants.{Append, Flush, Remove, Rename};
    ghost use Rattle.alog_sink.specs.Calls.{Counts, LeavesFront};
    ghost use Rattle.alog_sink.specs.Files.{AreSame, appended, removed, renamed};

    ghost files = { files_of };

    ghost tells = { true };

    ghost failures = { λ s. s.failures };

    ghost why = { λ _. None };

    fn append(&mut self, name: &str, bytes: &[u8]) -> Result<(), StoreError>
        ensures done { OnOk result (AreSame (appended name.now bytes.now (files_of self.old)) (files_of self.new)) }
        ensures failed { OnErr result (LeavesFront name.now bytes.now (files_of self.old) (files_of self.new)) }
        ensures counted { Counts self.old.failures self.new.failures result }
        ensures told { OnOk result (self.new.calls ≡ call Append name.now bytes.now ∷ self.old.calls) }
        ensures kept { OnErr result (self.new.calls ≡ self.old.calls) }
        ensures room { HasRoom self.old.hand (HEADER + length name.now + length bytes.now) → IsOk result }
        ensures stays { HasRoom self.old.hand (HEADER + length name.now + length bytes.now) → self.new.sent ≡ self.old.sent }
        ensures over { IsSameOutbox self.old self.new }
    {
        self.tell(Kind::Append, name.as_bytes(), bytes)
    }

    fn rename(&mut self, from: &str, to: &str) -> Result<(), StoreError>
        ensures done { OnOk result (AreSame (renamed from.now to.now (files_of self.old)) (files_of self.new)) }
        ensures failed { OnErr result (AreSame (files_of self.old) (files_of self.new)) }
        ensures counted { Counts self.old.failures self.new.failures result }
        ensures told { OnOk result (self.new.calls ≡ call Rename from.now to.now ∷ self.old.calls) }
        ensures kept { OnErr result (self.new.calls ≡ self.old.calls) }
        ensures room { HasRoom self.old.hand (HEADER + length from.now + length to.now) → IsOk result }
        ensures stays { HasRoom self.old.hand (HEADER + length from.now + length to.now) → self.new.sent ≡ self.old.sent }
        ensures over { IsSameOutbox self.old self.new }
    {
        self.tell(Kind::Rename, from.as_bytes(), to.as_bytes())
    }

    fn remove(&mut self, name: &str) -> Result<(), StoreError>
        ensures done { OnOk result (AreSame (removed name.now (files_of self.old)) (files_of self.new)) }
        ensures failed { OnErr result (AreSame (files_of self.old) (files_of self.new)) }
        ensures counted { Counts self.old.failures self.new.failures result }
        ensures told { OnOk result (self.new.calls ≡ call Remove name.now [] ∷ self.old.calls) }
        ensures kept { OnErr result (self.new.calls ≡ self.old.calls) }
        ensures room { HasRoom self.old.hand (HEADER + length name.now + 0) → IsOk result }
        ensures stays { HasRoom self.old.hand (HEADER + length name.now + 0) → self.new.sent ≡ self.old.sent }
        ensures over { IsSameOutbox self.old self.new }
    {
        self.tell(Kind::Remove, name.as_bytes(), &[])
    }

    /// How many bytes a file had when the host found it, or none where it found no such file. It fails where the store was told anything.
    fn size(&mut self, name: &str) -> Result<Option<u64>, StoreError>
        ensures size { IfOk result (λ size. size ≡ option_map length (files_of self.old name.now)) }
        ensures same { AreSame (files_of self.old) (files_of self.new) }
        ensures counted { Counts self.old.failures self.new.failures result }
        ensures late { IsErr result ↔ IsTrue (has_some self.old.calls) }
        ensures kept { (self.new.calls ≡ self.old.calls) × (self.new.sent ≡ self.old.sent) × (self.new.hand ≡ self.old.hand) }
        ensures over { IsSameOutbox self.old self.new }
    {
        if self.is_told {
            self.failures = self.failures.saturating_add(1);
            return Err(StoreError);
        }
        Ok(size_of(self.found.as_slice(), name))
    }

    /// Sends all that was told. A failure may have told the flush, and then what was told is kept in hand.
    fn flush(&mut self, name: &str) -> Result<(), StoreError>
        ensures same { AreSame (files_of self.old) (files_of self.new) }
        ensures counted { Counts self.old.failures self.new.failures result }
        ensures told { OnOk result (self.new.calls ≡ call Flush name.now [] ∷ self.old.calls) }
        ensures sent { OnOk result (self.new.sent ≡ encoded self.new.calls) }
        ensures kept { OnErr result ((self.new.calls ≡ self.old.calls) ⊎ (self.new.calls ≡ call Flush name.now [] ∷ self.old.calls)) }
        ensures over { IsSameOutbox self.old self.new }
    {
        self.tell(Kind::Flush, name.as_bytes(), &[])?;
        let is_sent = send_hand(&self.common, &mut self.pass, &mut self.hand);
        counted(is_sent, &mut self.failures)
    }

    fn reason(&self) -> Option<io::Error> {
        None
    }
}
