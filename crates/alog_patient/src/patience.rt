//! How often a failed call is tried again.

/// How often a failed call is tried again.
#[derive(Clone, Copy, Debug, PartialEq, Eq, Drop)]
pub enum Patience {
    /// Until it is done.
    Endless,
    /// At most so many times.
    Times(u32),
}
