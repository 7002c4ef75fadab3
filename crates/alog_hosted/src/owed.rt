//! What a worker owes.

/// Of the item that lies in a worker's block: the ticket under which it was taken, and the place of the first turn that was not made yet.
#[derive(Clone, Copy, Debug, PartialEq, Eq, Drop)]
pub(crate) struct Owed {
    pub(crate) ticket: u64,
    pub(crate) place: usize,
}
