/// How many losses were counted, modulo 2^64.
#[derive(Clone, Copy, Debug, PartialEq, Eq)]
pub struct Counts {
    /// Items that posts took out to make room.
    pub overrun: u64,
    /// Posts that ended discarded.
    pub discarded: u64,
}
