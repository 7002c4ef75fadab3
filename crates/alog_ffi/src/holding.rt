//! How a part is taken out of a handle, and put into it.
ghost use Rattle.std.specs.Prelude.{◌≡◌, ◌≢◌, ◌↔◌, IsTrue, MatchOption};
ghost use Rattle.std.specs.Mem.{manually_drop_value};
ghost use Rattle.alog_ffi.specs.Handles.{held};
ghost use Rattle.alog_ffi.specs.declared.part.Part.TheVariants.{Nothing};

use crate::handle::AlogHandle;
use crate::part::Held;
use crate::slot::Slot;
use std::alloc::Global;

impl AlogHandle {
    /// A handle that holds nothing, as C makes it of zeros.
    pub fn empty() -> AlogHandle
        ensures { held result ≡ Nothing }
    {
        AlogHandle {
            kind: 0,
            slot: Slot::empty(),
        }
    }

    /// Whether it holds nothing.
    pub fn is_empty(&self) -> bool
        ensures { IsTrue result ↔ (held self.now ≡ Nothing) }
    {
        self.kind == 0
    }

    /// Takes out what it holds.
    pub(crate) fn take(&mut self, alloc: Global) -> Option<Held>
        ensures left { held self.new ≡ Nothing }
        ensures taken { MatchOption result (held self.old ≡ Nothing) (λ h. (held self.old ≡ manually_drop_value h.value) × (held self.old ≢ Nothing)) }
    {
        if self.kind == 0 {
            return None;
        }
        self.kind = 0;
        Some(self.slot.take(alloc))
    }

    /// Puts a part into an empty handle.
    pub(crate) fn put(&mut self, part: Held)
        requires empty { held self.old ≡ Nothing }
        requires part { manually_drop_value part.value ≢ Nothing }
        ensures { held self.new ≡ manually_drop_value part.value }
    {
        let kind = (**part).kind();
        self.slot.put(part);
        self.kind = kind;
    }
}
