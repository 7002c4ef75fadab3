ghost use Rattle.std.specs.Prelude.{◌≡◌, ◌<◌};

use alog_core::ACTORS;
use alog_msg::Level;
use alog_policy::Policy;
use std::marker::Model;

/// A text that is lent. Contracts see it as the list of its bytes.
#[derive(Debug, Drop)]
pub struct TextRef<'a> {
    text: &'a str,
}

impl<'a> Model for TextRef<'a> {
    ghost use Rattle.std.specs.Prelude.{ℕ, List};

    ghost Value = { List ℕ };

    ghost view = { λ t. t.text.now };
}

impl<'a> TextRef<'a> {
    /// This text.
    pub fn new(text: &'a str) -> TextRef<'a>
        ensures { result ≡ text.now }
    {
        TextRef { text }
    }

    /// The text.
    pub fn as_str(&self) -> &'a str
        ensures { result.now ≡ self.now }
    {
        self.text
    }
}

/// An actor. Contracts see it as its number, which is below `ACTORS`.
#[derive(Clone, Copy, Debug)]
pub struct Actor {
    number: u8,
}

impl Model for Actor {
    ghost use Rattle.std.specs.Prelude.{ℕ, ◌<◌};
    ghost use Rattle.alog_core.specs.declared.TheConstants.{ACTORS};

    ghost Value = { ℕ };

    ghost view = { λ a. a.number };

    ghost inverse = { λ n. record { number = n } };

    ghost invariant = { λ a. a.number < ACTORS };
}

impl Actor {
    pub fn new(number: u8) -> Actor
        requires { number < ACTORS }
        ensures { result ≡ number }
    {
        Actor { number }
    }

    pub fn number(self) -> u8
        ensures value { result ≡ self }
        ensures bound { result < ACTORS }
    {
        self.number
    }
}

/// What a line of a script asks for.
#[derive(Drop)]
pub enum Command<'a> {
    /// It is done at once, or begins a call.
    Acts(Act<'a>),
    /// An actor makes 1 to `STEPS_MAX` steps of its call.
    Step { actor: Actor, count: u32 },
    /// An actor makes steps until its call has ended.
    Run { actor: Actor },
}

/// What is done at once, and what begins a call.
#[derive(Debug, Drop)]
pub enum Act<'a> {
    /// The queue is to have this many places and this first ticket.
    Ring {
        size: u64,
        first: u64,
    },
    /// An actor begins a push of a text.
    Push {
        actor: Actor,
        text: TextRef<'a>,
    },
    /// An actor begins a pop.
    Pop {
        actor: Actor,
    },
    /// An actor begins a pop, whose text then goes to the sinks.
    Work {
        actor: Actor,
    },
    /// An actor begins a post of a text under a policy.
    Post {
        actor: Actor,
        policy: Policy,
        text: TextRef<'a>,
    },
    /// An actor begins a log of a message to the logger of this name, whose time is in nanoseconds since the epoch.
    Log {
        actor: Actor,
        time: i64,
        logger: TextRef<'a>,
        level: Level,
        text: TextRef<'a>,
    },
    /// An actor begins a post that flushes the sinks of the logger of this name.
    Flush {
        actor: Actor,
        logger: TextRef<'a>,
    },
    /// An actor begins a dump of what the logger of this name kept.
    Dump {
        actor: Actor,
        time: i64,
        logger: TextRef<'a>,
    },
    /// The logger of this name has this level from now on.
    Level {
        logger: TextRef<'a>,
        level: Level,
    },
    /// The cells are printed.
    Cells,
    /// The losses are printed.
    Counts,
}
