//! Scripts that drive a queue step by step, and what they print.
//!
//! `replay` goes from a reader to a writer. Its definition is `specs/Script.antt`: a script tells its whole text, or its
//! first refused line, on a scene. A `Scene` (`specs/Scene.antt`) says who is free, what an act or a step prints and
//! which stage follows; the scene of a script without a configuration is `specs/Plain.antt`, over the queue of
//! `specs/Session.antt` and the memory file of `specs/Memory.antt`. Above it a script is lines (`specs/Lines.antt`), and a
//! line is skipped, refused or spells a command (`specs/Entry.antt`, `specs/Command.antt`).
//!
//! `play` goes so on any scene. That of a script with a configuration is `specs/Configured.antt`, over the stepped system of
//! `alog_system`: `Configured` (`configured.rt`) is made of a system, of names for its sinks, and of the places of its leaves
//! (`places.rt`), and `told.rt` has the texts of its steps. `specs/Refusing.antt` and `specs/Goes.antt` say why each step of it
//! comes to something. `specs/OfConfig.antt` says which stage is that of a configuration, and `replay_config` (`of_config.rt`, over
//! `leaves.rt`) plays on it.
//!
//! Read the specs in that order, then `scene.rt` (the trait of what a script is played on), `player.rt` (which plays on
//! any such thing, and has `replay` at its end); `plain.rt` and `session.rt` are the queue, `memory.rt` its sink, of which
//! `specs/MemorySink.antt` says what it is, `lines.rt` the reader, `parser.rt` and `entry.rt` the lines, and `print.rt` has
//! the texts of steps, cells and files. What scripts print, and which lines are refused, is shown on the built program: `rows/`, `sessions/`.
#![tactic(auto)]

mod command;
mod configured;
mod duty;
mod entry;
mod error;
mod leaves;
mod limits;
mod lines;
mod memory;
mod of_config;
mod parser;
mod places;
mod plain;
mod player;
mod print;
mod pushed;
mod scene;
mod session;
mod told;

pub use command::{Act, Actor, TextRef};
pub use configured::Configured;
pub use entry::{one_command, one_entry};
pub use error::{LineError, ReplayError};
pub use limits::{SCRIPT_LINE_MAX, STEPS_MAX};
pub use of_config::{faults_are_told, one_row, one_text_of_config, replay_config};
pub use places::Place;
pub use player::{one_text, play, replay, tells_something};
pub use scene::Playable;
