//! What a pipe reads.
use std::io::Read;
use std::time::Duration;

/// A reader whose reads may be told how long they wait.
pub trait TimedRead: Read {
    ghost use Rattle.std.specs.Prelude.{◌≡◌};

    /// From now on a read waits so long at most, and fails with `WouldBlock` where nothing came; where no time is given it waits until
    /// something comes. A reader that cannot end its wait waits as before.
    ///
    /// A read that failed so is made again at once: it fails so only after it waited for a moment.
    fn set_read_timeout(&mut self, timeout: Option<Duration>)
        ensures given { Self.remaining self.new ≡ Self.remaining self.old };
}
