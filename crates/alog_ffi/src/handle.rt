//! What C holds.
ghost use Rattle.alog_ffi.specs.Held.{IsHandle};

use crate::slot::Slot;

/// What C holds of a pool: the pool, a producer, a worker, files, or nothing, as a struct of zeros does. It is not copied, and each call has it to
/// itself.
#[repr(C)]
pub struct AlogHandle {
    /// 0 where it holds nothing, 1 for a pool, 2 for a producer, 3 for a worker, 4 for the files that were found, and 5 for those of an open pool.
    pub(crate) kind: u64,
    pub(crate) slot: Slot,
    ghost is: { IsHandle kind slot.part },
}
