//! What becomes of a log that never waits.
use alog_registry::LogReply;

/// What a log answers that never waits.
#[derive(Debug, PartialEq, Eq, Drop)]
pub enum Once {
    /// It came to its end, as a log of a pool of threads does.
    Logged(LogReply),
    /// Its logger's policy is to block, and there was no room, or another push was faster, so that there may be room: the next call is to come
    /// soon, and not only when a worker has made room. Nothing was done, and nothing is counted.
    WouldBlock,
}
