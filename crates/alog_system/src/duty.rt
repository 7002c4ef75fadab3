use crate::dump::{Dump, Rest};
use alog_msg::{Item, Message};
use alog_policy::Policy;

/// What an actor does beside the round that it is in, and after it.
#[derive(Drop)]
pub enum Duty {
    /// Nothing.
    Free,
    /// It keeps this message, once its post has ended.
    Keeps(Message),
    /// It takes what a logger kept.
    Dumps(Dump),
    /// It posts the message of its round, and then these.
    Posts {
        policy: Policy,
        rest: Rest,
    },
    /// It is a worker, and pops.
    Works,
    /// It took this item under this ticket, and has made so many of its turns.
    Serves {
        ticket: u64,
        item: Item,
        done: usize,
    },
}
