//! A pointer of C's, and what lies there.
ghost use Rattle.std.specs.Prelude.{◌≡◌, ◌≢◌, Option, Some, None};
ghost use Rattle.std.specs.Mem.{manually_drop_value};
ghost use Rattle.alog_ffi.specs.declared.part.Part.{Part as PartOf};

use crate::part::{Held, Part};
use std::alloc::Global;
use std::marker::Model;
use std::mem::ManuallyDrop;

/// A pointer to a part, or to nothing. It owns what lies there.
#[repr(C)]
pub struct Slot {
    at: *mut u8,
    ghost part: { Option PartOf },
}

impl Model for Slot {
    ghost use Rattle.alog_ffi.specs.Slots.{held_at};
    ghost use Rattle.alog_ffi.specs.contracts.part.Part.{the_row};

    ghost also_owns = { λ h. held_at the_row h.at h.part };
}

unsafe impl Send for Slot {}

impl Slot {
    /// A slot that points to nothing.
    pub(crate) fn empty() -> Slot
        ensures { result.part ≡ None }
    {
        Slot {
            at: std::ptr::null_mut(),
        }
    }

    /// Takes out what it points to.
    pub(crate) fn take(&mut self, alloc: Global) -> Held
        requires { self.old.part ≢ None }
        ensures taken { self.old.part ≡ Some (manually_drop_value result.value) }
        ensures left { self.new.part ≡ None }
    {
        unsafe { Box::from_raw(alloc, self.at as *mut ManuallyDrop<Part>) }
    }

    /// Points to this.
    pub(crate) fn put(&mut self, held: Held)
        requires { self.old.part ≡ None }
        ensures { self.new.part ≡ Some (manually_drop_value held.value) }
    {
        self.at = Box::into_raw(held) as *mut u8;
    }
}
