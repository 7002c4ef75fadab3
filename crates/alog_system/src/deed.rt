use alog_msg::Level;

/// What an actor begins. Logger numbers are those of the system's loggers. `a_log_and_a_work` of `test_laws` shows some.
#[derive(Clone, Copy, Debug)]
pub enum Deed<'a> {
    /// A message is logged: posted, unless it is below its logger's level, and kept where its logger has a backtrace. Its thread is
    /// the actor.
    Log {
        /// Nanoseconds since the epoch, 1970-01-01 00:00:00 UTC.
        time: i64,
        logger: u32,
        level: Level,
        text: &'a str,
    },
    /// A flush of the logger's sinks is posted.
    Flush {
        logger: u32,
    },
    /// What the logger's backtrace kept is posted, between two markers of this time.
    Dump {
        time: i64,
        logger: u32,
    },
    /// An item is popped, and the turns on sinks that it asks for are made.
    Work,
}
