//! Where the words of a ring lie at its table: the two positions, and a sequence for each place.

/// A cache line of 64 bytes is 8 words, and each place's sequence has a line of its own. Side by side, two threads took
/// twice as long for an item.
pub(crate) const APART: usize = 8;

/// The word of the next ticket, which the next push claims. It lies two lines from all others, since some processors
/// fetch lines in pairs (crossbeam's `CachePadded` keeps the same distance).
pub(crate) const NEXT: usize = 2 * APART;

/// The word of the front ticket, which the next pop grabs. It lies two lines from all others, too.
pub(crate) const FRONT: usize = 4 * APART;

/// The word of the first place's sequence. Those of the further places follow, each `APART` words on.
pub(crate) const SEQUENCES: usize = 6 * APART;

// A line has 64 bytes, and the words lie two lines apart that shall: a changed constant is refused here.
const _: () = prove!(APART * size_of::<u64>() == 64);

const _: () = prove!(
    NEXT >= 2 * APART && FRONT - NEXT >= 2 * APART && SEQUENCES - FRONT >= 2 * APART
);
