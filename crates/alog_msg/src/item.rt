use crate::message::Message;

/// What a queue of the logger carries.
///
/// The test `items_of_a_queue` shows each.
#[derive(Debug, Drop)]
pub enum Item {
    /// A message, which a worker gives to the sinks of its logger.
    Text(Message),
    /// A worker flushes each sink of the logger of this number.
    Flush(u32),
    /// The worker that takes it ends.
    Stop,
}
