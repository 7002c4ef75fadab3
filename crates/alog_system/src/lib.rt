//! The stepped system: loggers, the stepped queue and sinks, driven one atomic step at a time by up to 64 actors in any
//! interleaving.
//!
//! A `System` owns a `Desk` of items, the loggers with their levels and backtraces, and the sinks. An actor begins a `Deed`, which
//! makes all growths that it needs, and `step` makes its steps one by one: those of the queue, the turn that keeps a message or takes
//! what was kept, and a worker's turns on sinks.
//!
//! Read `deed.rt` and `specs/Begin.antt` (what is begun by a deed), `stepped.rt` and `specs/Step.antt` (what a step does), both over
//! `specs/System.antt` (what callers see of a system, and what an actor does beside its round) and `specs/Roster.antt` (loggers).
//! What is true after a whole run is `specs/Runs.antt`, with the law in `laws.rt`: over `specs/Acts.antt` (what callers did),
//! `Asked.antt` (what that asks for) and `Faults.antt` (what sinks stand for), none of which says how a system is made.
//!
//! Then `system.rt` with `system/new.rt`, `begin.rt` and `step.rt`; below them `duty.rt`, `dump.rt`, `roster.rt` and `outputs.rt`.
//! `test_laws` has a caller of the law (`a_log_and_a_work`); what steps tell is shown on the built program, by the scripts of `rows/` and
//! `sessions/`.
#![tactic(auto)]

mod deed;
mod dump;
mod duty;
mod error;
pub mod laws;
mod outputs;
mod roster;
mod stepped;
mod system;

pub use deed::Deed;
pub use error::{BeginError, SystemError};
pub use stepped::{Stepped, Turn};
pub use system::System;
