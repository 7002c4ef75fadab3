use alog_msg::Item;

/// A turn of an actor: what it did beside the queue. `a_log_and_a_work` of `test_laws` and `sessions/configured_scripts.session` show them.
#[derive(Clone, Copy, Debug, PartialEq, Eq, Drop)]
pub enum Turn {
    /// The backtrace of the message's logger kept it.
    Kept,
    /// So many messages were taken from the logger's backtrace.
    Dumped(usize),
    /// The sink wrote the message's line.
    Line { ticket: u64, sink: u32 },
    /// The message is below the sink's level.
    Below { ticket: u64, sink: u32 },
    /// The sink's store failed, in this turn or before.
    Fault { ticket: u64, sink: u32 },
    /// The sink was flushed.
    Flushed { ticket: u64, sink: u32 },
}

/// What a step answers.
#[derive(Debug, Drop)]
pub enum Stepped {
    /// It was a step of the queue, and how the actor's post ended, if it ended with it.
    Round(alog_policy::Stepped<Item>),
    /// It was a worker's take, of the item of this ticket, which `System::taken` lends.
    Took(u64),
    /// It was a turn.
    Turned(Turn),
}
