//! What a post does where the queue is full, and how it ends.
ghost use Rattle.std.specs.Prelude.{◌≡◌};
ghost use Rattle.alog_policy.specs.Progress.{without_waiting};

/// What a post does where the queue is full. The test `overruns_the_oldest` and `sessions/posts.session` show it.
#[derive(Clone, Copy, Debug, PartialEq, Eq)]
pub enum Policy {
    /// It begins again until there is room. A post that never waits reads it as `DiscardNew`.
    Block,
    /// It takes the oldest item out, which is lost, and begins again.
    OverrunOldest,
    /// It gives up.
    DiscardNew,
}

impl Policy {
    /// The policy of a post that never waits.
    pub(crate) fn without_waiting(self) -> Policy
        ensures { result ≡ without_waiting self }
    {
        match self {
            Policy::Block | Policy::DiscardNew => Policy::DiscardNew,
            Policy::OverrunOldest => Policy::OverrunOldest,
        }
    }
}

/// Why a post ended without a ticket. `sessions/posts.session` shows each.
#[derive(Clone, Copy, Debug, PartialEq, Eq)]
pub enum Why {
    /// The queue was full, and the policy is to discard the new, or to block, where the post never waits.
    Full,
    /// The queue was full, and then there was nothing to take out: its front ticket was claimed and not written yet, or others
    /// had grabbed all of its tickets.
    Stalled,
    /// 64 rounds went on: in each one others were faster, or an item was overrun.
    Busy,
    /// No ticket is left, and none will come.
    Spent,
}

/// How a post ended. The test `posts_at_once` shows it.
#[derive(Debug, PartialEq, Eq, Drop)]
pub enum Outcome<T> {
    /// The value is in the queue.
    Posted {
        /// Its ticket.
        ticket: u64,
        /// How many items the post took out to make room.
        overran: u64,
    },
    /// The value is not in the queue.
    Discarded {
        /// The value, handed back.
        value: T,
        /// Why.
        why: Why,
        /// How many items the post took out to make room.
        overran: u64,
    },
}
