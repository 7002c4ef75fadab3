//! How far a post has come, and what follows after a push or a pop of it: the table of `specs/Post.antt` as a machine.
ghost use Rattle.std.specs.Prelude.{◌≡◌, ◌<◌};
ghost use Rattle.alog_policy.specs.Progress.{begun, again, after_full, after_take, lost};

use crate::ROUNDS_MAX;
use crate::policy::{Policy, Why};

/// Which half of its round a post is in.
#[derive(Clone, Copy, Debug, PartialEq, Eq)]
pub enum Side {
    /// It pushes its value.
    Push,
    /// It pops the oldest item, to make room.
    Pop,
}

/// How far a post has come.
#[derive(Clone, Copy, Debug, PartialEq, Eq)]
pub struct Progress {
    /// What it does where the queue is full.
    pub policy: Policy,
    /// Which half of its round it is in.
    pub side: Side,
    /// How many of its rounds went on, none of which counts under `Block`; below 64.
    pub rounds: u64,
    /// How many items it took out to make room; at most one in each round.
    pub overran: u64,
}

/// A post that was lost: why, and how many items it took out to make room.
#[derive(Clone, Copy, Debug, PartialEq, Eq)]
pub struct Lost {
    pub why: Why,
    pub overran: u64,
}

impl Progress {
    /// A post before its first round.
    pub(crate) fn new(policy: Policy) -> Progress
        ensures { result ≡ begun policy }
    {
        Progress {
            policy,
            side: Side::Push,
            rounds: 0,
            overran: 0,
        }
    }

    /// After a round that went on: the next one, or the post was lost since its rounds are used up.
    pub(crate) fn again(self) -> Result<Progress, Lost>
        requires { self.rounds < ROUNDS_MAX }
        ensures { result ≡ again self }
    {
        let next = Progress {
            side: Side::Push,
            ..self
        };
        match self.policy {
            Policy::Block => Ok(next),
            Policy::OverrunOldest | Policy::DiscardNew => {
                let rounds = self.rounds + 1;
                if rounds == ROUNDS_MAX {
                    Err(self.lost(Why::Busy))
                } else {
                    Ok(Progress { rounds, ..next })
                }
            }
        }
    }

    /// After a push that found the queue full.
    pub(crate) fn after_full(self) -> Result<Progress, Lost>
        requires { self.rounds < ROUNDS_MAX }
        ensures { result ≡ after_full self }
    {
        match self.policy {
            Policy::Block => self.again(),
            Policy::OverrunOldest => Ok(Progress {
                side: Side::Pop,
                ..self
            }),
            Policy::DiscardNew => Err(self.lost(Why::Full)),
        }
    }

    /// After a pop that took the oldest item out.
    pub(crate) fn after_take(self) -> Result<Progress, Lost>
        requires rounds { self.rounds < ROUNDS_MAX }
        requires overran { self.overran < ROUNDS_MAX }
        ensures { result ≡ after_take self }
    {
        let taken = Progress {
            overran: self.overran + 1,
            ..self
        };
        taken.again()
    }

    /// The post, lost for this reason.
    pub(crate) fn lost(self, why: Why) -> Lost
        ensures { result ≡ lost self why }
    {
        Lost {
            why,
            overran: self.overran,
        }
    }
}
