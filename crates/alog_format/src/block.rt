//! A block of bytes behind a raw pointer: where it begins, its bytes, and the right to give it back.
//!
//! The block is a vector's, which is parted into its bytes and the rest of it, and reunited to be freed. Between, nothing
//! reaches the bytes but what `Bytes::places` and `as_slice` lend.
ghost use Rattle.std.specs.Prelude.{◌≡◌, ℕ, ◌+◌, ◌^◌, ◌<◌, ◌≤◌, List, length, replicate, take};
ghost use base.Fml.{ftrue, fex, fsep, feq};
ghost use denote.RawPtr.{Ptr};
ghost use Rattle.alog_format.specs.Block.{gapped, moved, overwritten};
ghost use Rattle.alog_format.specs.Ownership.{Span, span_code, bytes_own, bytes_lent, rest_own};

use std::marker::{Model, Move, Owns};
use std::slice;

/// Where a block begins. It owns nothing.
#[derive(Clone, Copy)]
pub(crate) struct Start {
    pub(crate) at: *mut u8,
}

/// The bytes of a block, which nothing else reaches. It takes no space.
pub(crate) struct Bytes {
    ghost start: { Ptr },
    ghost items: { List ℕ },
    ghost small: { length items < 2 ^ 63 },
}

impl Model for Bytes {
    ghost also_owns = { λ b. bytes_own b.start b.items };

    ghost also_shares = { λ b _ κ. bytes_lent b.start b.items κ };
}

/// A vector but for its bytes: it owns the room behind them, and the right to free the block.
pub(crate) struct Deed {
    vec: Vec<u8>,
}

impl Owns for Deed {
    ghost Value = { Span };

    ghost coded = { span_code };

    ghost shr_at = { λ _ _ _. ftrue };
}

impl Move for Deed {
    ghost own_val = { λ e vs. fex Inside (λ v.
        fsep (feq ℕ v.vec.len e.len) (fsep (feq Ptr v.vec.ptr e.start) (rest_own v.vec vs))) };
}

// A pointer alone gives no access to the bytes.
unsafe impl Send for Start {}

unsafe impl Sync for Start {}

unsafe impl Send for Bytes {}

unsafe impl Sync for Bytes {}

unsafe impl Send for Deed {}

unsafe impl Sync for Deed {}

/// Parts a vector into its bytes and the rest of it.
pub(crate) fn part(vec: Vec<u8>) -> (Bytes, Deed)
    requires { 0 < vec.len }
    ensures { (result.0.start ≡ vec.ptr) × (result.0.items ≡ vec.items)
        × (result.1.start ≡ vec.ptr) × (result.1.len ≡ vec.len) }
{
    (Bytes {}, Deed { vec })
}

/// Puts the bytes back into the rest of their vector.
pub(crate) fn reunite(bytes: Bytes, deed: Deed) -> Vec<u8>
    requires { (bytes.start ≡ deed.start) × (length bytes.items ≡ deed.len) }
    ensures { result.items ≡ bytes.items }
{
    let Bytes {} = bytes;
    let Deed { vec } = deed;
    vec
}

impl Start {
    /// Where the bytes of a vector begin.
    pub(crate) fn of(vec: &mut Vec<u8>) -> Start
        ensures start { result.at ≡ vec.new.ptr }
        ensures same { vec.new ≡ vec.old }
    {
        Start {
            at: vec.as_mut_ptr(),
        }
    }
}

impl Bytes {
    ghost use Rattle.std.specs.Prelude.{drop};
    ghost use Rattle.std.specs.Borrow.{sem};
    ghost use Rattle.alog_format.specs.Lends.{lends_places};

    /// The `count` places from `at` on, to be written.
    fn places(&mut self, start: *mut u8, at: usize, count: usize) -> &mut [u8]
        requires start { start ≡ self.old.start }
        requires fits { at + count ≤ length self.old.items }
        ensures* writes_back { sem 𝓛 (lends_places self.entry at result) }
        ensures value { result.now ≡ take count (drop at self.old.items) }
    {
        unsafe { slice::from_raw_parts_mut(start.add(at), count) }
    }

    /// Copies the bytes to the places from `at` on.
    #[tactic(auto, using(crate::proofs::Overwrites::ends_overwritten))]
    pub(crate) fn copy_in(&mut self, start: *mut u8, at: usize, bytes: &[u8])
        requires start { start ≡ self.old.start }
        requires fits { at + length bytes.now ≤ length self.old.items }
        ensures { (self.new.start ≡ self.old.start) × (self.new.items ≡ overwritten self.old.items at bytes.now) }
    {
        self.places(start, at, bytes.len()).copy_from_slice(bytes);
    }

    /// Copies the `count` bytes from `from` on up to the places from `to` on, which may overlap.
    #[tactic(auto, using(crate::proofs::Overwrites::ends_moved))]
    pub(crate) fn move_up(&mut self, start: *mut u8, from: usize, to: usize, count: usize)
        requires start { start ≡ self.old.start }
        requires fits { (from ≤ to) × (to + count ≤ length self.old.items) }
        ensures { (self.new.start ≡ self.old.start) × (self.new.items ≡ moved self.old.items from to count) }
    {
        let by = to - from;
        self.places(start, from, by + count)
            .copy_within(0..count, by);
    }

    /// Writes the byte to the `count` places from `at` on.
    #[tactic(auto, using(crate::proofs::Overwrites::ends_overwritten))]
    pub(crate) fn fill(&mut self, start: *mut u8, at: usize, count: usize, byte: u8)
        requires start { start ≡ self.old.start }
        requires fits { at + count ≤ length self.old.items }
        ensures { (self.new.start ≡ self.old.start) × (self.new.items ≡ overwritten self.old.items at (replicate count byte)) }
    {
        self.places(start, at, count).fill(byte);
    }

    /// Moves the bytes from `at` to `len` up by `by`, and fills the gap with spaces.
    pub(crate) fn open_gap(&mut self, start: *mut u8, len: usize, at: usize, by: usize)
        requires start { start ≡ self.old.start }
        requires inside { at ≤ len }
        requires fits { len + by ≤ length self.old.items }
        ensures { (self.new.start ≡ self.old.start) × (self.new.items ≡ gapped self.old.items len at by) }
    {
        self.move_up(start, at, at + by, len - at);
        self.fill(start, at, by, b' ');
    }

    /// The first `len` bytes.
    pub(crate) fn as_slice(&self, start: *mut u8, len: usize) -> &[u8]
        requires start { start ≡ self.now.start }
        requires within { len ≤ length self.now.items }
        ensures { result.now ≡ take len self.now.items }
    {
        unsafe { slice::from_raw_parts(start, len) }
    }
}
