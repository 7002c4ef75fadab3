//! The bounded queue for many producers and many consumers, as atomic steps of up to 64 actors in any interleaving.
//!
//! Use it to play a schedule: `World::new` makes the queue, an actor begins a push or a pop, and each `step` makes one
//! atomic step of the actor's call and answers what it was; `run` plays a list of such calls. The test
//! `calls_and_their_answers` of `test_queue` is an example. The rule is Dmitry Vyukov's (1024cores.net, "Bounded MPMC queue").
//!
//! Contracts see a `World` as a queue of cells in ticket order and the round in which each actor stands; whatever keeps
//! them is private. Read `specs/Queue.antt` for cells, events and what each is allowed to do, `specs/History.antt` for
//! histories, `specs/Accounts.antt` for what they issue and hand out, `specs/Round.antt` for the steps of a push and of a
//! pop, `specs/World.antt` for the machine, `specs/Run.antt` for which histories lead to it and for whole runs, and `specs/Staged.antt` for what is true of
//! every world; then `world.rt`, whose calls are that machine.
//! `play.rt` makes the steps over words and places (`table.rt`; how they stand for the queue is in `specs/Words.antt`),
//! and `laws.rt` states what is true of every history.
#![tactic(auto)]

mod error;
pub mod laws;
mod mark;
mod play;
mod round;
mod said;
mod table;
mod world;

pub use error::{BeginError, Refused, StepError, WorldError};
pub use mark::Mark;
pub use round::Round;
pub use said::{Answer, Call, CellView, Said};
pub use world::{World, is_size};

/// So many actors, numbered from 0 to 63.
pub const ACTORS: u32 = 64;

/// A queue has at least so many places.
pub const PLACES_MIN: usize = 2;

/// A queue has at most so many places.
pub const PLACES_MAX: usize = 65_536;

/// No ticket is as large. A queue that issued all tickets below it is spent.
pub const TICKET_END: u64 = 1 << 62;
