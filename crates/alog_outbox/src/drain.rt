//! Where the calls of a store come out.
ghost use Rattle.std.specs.Prelude.{◌≡◌, ◌<◌, ◌≤◌, ◌++◌, ◌↔◌, drop, false, length, take, IfOk, IsErrOf, IsSome, IsTrue, None, OnErr};
ghost use Rattle.std.specs.Arc.{arc_value};
ghost use Rattle.alog_outbox.specs.Calls.{encoded, AreRecords};
ghost use Rattle.alog_outbox.specs.Line.{known, IsReader};
ghost use Rattle.alog_outbox.specs.Views.{HasAll};

use crate::AREA;
use crate::area::Area;
use crate::letter::Letter;
use crate::line::{Common, LinePass, all_got, give_spare, receive};
use crate::store::Outbox;
use std::fmt;
use std::marker::Model;
use std::sync::Arc;
use thiserror::Error;

/// Why nothing was taken. The memory is as it was; that all was taken the drain knows from then on.
#[derive(Clone, Copy, Debug, PartialEq, Eq, Drop, Error)]
pub enum TakeError {
    /// There is no room for a whole area.
    #[error("there is no room for an area")]
    TooShort,
    /// No area lay there, or another thread was just at it.
    #[error("there is nothing to take")]
    Nothing,
    /// The store has been let go, and all that it was told was taken.
    #[error("all was taken")]
    Ended,
}

/// What the calls of an `Outbox` are taken out by.
#[derive(Drop)]
pub struct Drain {
    common: Arc<Common>,
    pass: LinePass,
    /// An area that could not be given back yet.
    spare: Option<Area>,
    /// Whether the end was taken.
    is_over: bool,
}

impl Model for Drain {
    ghost use Rattle.std.specs.Arc.{arc_value};
    ghost use Rattle.std.specs.Prelude.{◌≡◌, true};
    ghost use Rattle.alog_outbox.specs.Calls.{encoded};
    ghost use Rattle.alog_outbox.specs.Line.{known, told_by, IsReader};
    ghost use Rattle.alog_outbox.specs.Views.{DrainView};

    ghost Value = { DrainView };

    ghost view = { λ d. record { got = (known d.pass).got; told = told_by (known d.pass); line = d.pass.table_id } };

    ghost invariant = { λ d. IsReader (arc_value d.common).line d.pass × (d.is_over ≡ (known d.pass).is_over)
        × ((known d.pass).is_over ≡ true → (known d.pass).got ≡ encoded (known d.pass).calls) };
}

impl fmt::Debug for Drain {
    fn fmt<W: fmt::Write>(&self, f: &mut fmt::Formatter<W>) -> fmt::Result {
        f.debug_struct("Drain").finish_non_exhaustive()
    }
}

impl Drain {
    /// A drain that took nothing yet.
    pub(crate) fn of(common: Arc<Common>, pass: LinePass) -> Drain
        requires pass { IsReader (arc_value common).line pass }
        requires open { (known pass).is_over ≡ false }
        ensures { (result.got ≡ (known pass).got) × (result.told ≡ None) × (result.line ≡ pass.table_id) }
    {
        Drain {
            common,
            pass,
            spare: None,
            is_over: false,
        }
    }

    /// Takes the next area: copies its records, which are whole ones, to the front, and answers how many bytes they are. The emptied area goes back to
    /// the store. Where the store has been let go and all was taken, it answers that, from then on.
    pub fn take_into(&mut self, to: &mut [u8]) -> Result<usize, TakeError>
        ensures short { IsErrOf result TakeError.TooShort ↔ (length to.old < AREA) }
        ensures some { IfOk result (λ n. (0 < n) × (n ≤ AREA)) }
        ensures taken { IfOk result (λ n. self.new.got ≡ self.old.got ++ take n to.new) }
        ensures records { IfOk result (λ n. AreRecords (take n to.new)) }
        ensures rest { IfOk result (λ n. drop n to.new ≡ drop n to.old) }
        ensures err { OnErr result ((self.new.got ≡ self.old.got) × (to.new ≡ to.old)) }
        ensures all { IsErrOf result TakeError.Ended → HasAll self.new }
        ensures ended { (AREA ≤ length to.old) → (IsErrOf result TakeError.Ended ↔ IsSome self.new.told) }
        ensures once { IsSome self.old.told → self.new ≡ self.old }
        ensures kept { IsErrOf result TakeError.TooShort → self.new ≡ self.old }
        ensures line { self.new.line ≡ self.old.line }
    {
        if to.len() < AREA {
            return Err(TakeError::TooShort);
        }
        if self.is_over {
            return Err(TakeError::Ended);
        }
        let common: &Common = &self.common;
        if let Some(area) = self.spare.take() {
            if let Err(area) = give_spare(&common.spares, area) {
                self.spare = Some(area);
                return Err(TakeError::Nothing);
            }
        }
        match receive(&common.line, &mut self.pass) {
            Some(Letter::Area(area)) => {
                let count = area.copy_to(to);
                self.spare = give_spare(&common.spares, area).err();
                Ok(count)
            }
            Some(Letter::End) => {
                self.is_over = true;
                Err(TakeError::Ended)
            }
            None => Err(TakeError::Nothing),
        }
    }

    /// Whether its store has been let go and all that it was told was taken, as `take_into` answered.
    pub fn has_ended(&self) -> bool
        ensures all { IsTrue result → HasAll self.now }
        ensures ended { IsTrue result ↔ IsSome self.now.told }
    {
        self.is_over
    }
}

/// Whether all that the store was told has been taken by its drain. Both stay as they are.
pub fn is_drained(store: &mut Outbox, drain: &mut Drain) -> bool
    requires { drain.old.line ≡ store.old.line }
    ensures all { IsTrue result → drain.old.got ≡ encoded store.old.calls }
    ensures store { store.new ≡ store.old }
    ensures drain { drain.new ≡ drain.old }
{
    if drain.is_over || !store.has_sent_all() {
        return false;
    }
    let common: &Common = &store.common;
    all_got(&common.line, &mut store.pass, &mut drain.pass)
}
