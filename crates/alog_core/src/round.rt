ghost use Rattle.std.specs.Prelude.{◌≡◌};

/// Where an actor stands: in no call, or before one of the four steps of a push or of the five of a pop.
///
/// A ticket here is a position that an earlier step of the round read. The tests `busy_push` and
/// `busy_pop` step through the rounds of a push and of a pop.
#[derive(Drop)]
pub enum Round<T> {
    /// In no call.
    Idle,
    /// A push before it loads the next ticket.
    Push {
        /// What it brings.
        item: T,
    },
    /// A push before it loads the sequence of its ticket's place.
    PushRead {
        /// The next ticket that it read.
        ticket: u64,
        /// What it brings.
        item: T,
    },
    /// A push before it moves the next ticket on: it found the place free.
    PushFree {
        /// The next ticket that it read.
        ticket: u64,
        /// What it brings.
        item: T,
    },
    /// A push before it stores the sequence: the ticket is its own, and the item in the cell.
    PushClaimed {
        /// The ticket that it claimed.
        ticket: u64,
    },
    /// A pop before it loads the front ticket.
    Pop,
    /// A pop before it loads the sequence of its ticket's place.
    PopRead {
        /// The front ticket that it read.
        ticket: u64,
    },
    /// A pop before it moves the front ticket on: it found the ticket written.
    PopReady {
        /// The front ticket that it read.
        ticket: u64,
    },
    /// A pop before it stores the sequence: the cell is its own to empty.
    PopGrabbed {
        /// The ticket that it grabbed.
        ticket: u64,
    },
    /// A pop before it loads the next ticket: it found the front ticket unwritten.
    PopFronted {
        /// The front ticket that it read.
        ticket: u64,
    },
}

impl<T> Round<T> {
    ghost use Rattle.alog_core.specs.World.{is_idle};

    /// Whether the actor is in no call.
    pub fn is_idle(&self) -> bool
        ensures { result ≡ is_idle self.now }
    {
        match self {
            Round::Idle => true,
            Round::Push { .. }
            | Round::PushRead { .. }
            | Round::PushFree { .. }
            | Round::PushClaimed { .. }
            | Round::Pop
            | Round::PopRead { .. }
            | Round::PopReady { .. }
            | Round::PopGrabbed { .. }
            | Round::PopFronted { .. } => false,
        }
    }
}
