//! Configurations: a TOML document that says how a logger is set up.
//!
//! `read` gives the `Config` that a document says, or its first fault: the top is looked at first, then the sinks in
//! their order, then the loggers; within one table the rules in the order of `RULES`. `leaves` tells how many stores the
//! sinks of a configuration need, and `build` makes its loggers and sinks over them. `explain` says in words what a person has
//! to mend in a document that `read` refuses, and `explain_unopened` which sink `build` could not open.
//!
//! Read `config.rt` with `names.rt` (what a configuration is), `fault.rt` (what is refused); `specs/Values.antt` with
//! `field.rt`, `values.rt` and `lists.rt` (what one key may hold); `specs/Keys.antt` with `keys.rt`, and
//! `specs/Fields.antt` with `top.rt`, `sink_fields.rt` and `logger_fields.rt` (the keys of one table); `specs/Sinks.antt`
//! with `sinks.rt` (sinks by their names); `specs/Rules.antt` with `broken.rt` (which rules a table breaks);
//! `specs/Meaning.antt` with `reading.rt` (what a document says, and which fault is first); `specs/Sound.antt` (what is true of
//! each configuration); `specs/Built.antt` with `building.rt`, `opening.rt` and `parts.rt` (what is built of one);
//! `specs/Culprits.antt` with `culprit.rt`, `words.rt` and `explaining.rt` (which key breaks a rule, and how that is told).
//!
//! What documents give and how they are refused is shown on the built program, in `sessions/`: `keys`, `rules`, `words_of_refusals`,
//! `many_tables` and `scripts_on_sinks`.
#![tactic(auto)]

mod broken;
mod building;
mod config;
mod culprit;
mod explaining;
mod fault;
mod field;
mod keys;
mod lists;
mod logger_fields;
mod names;
mod opening;
mod parts;
mod reading;
mod sink_fields;
mod sinks;
mod top;
mod values;
mod words;

pub use building::{BuildError, build};
pub use config::{Config, LoggerConfig, SinkConfig, SinkKind, Upkeep};
pub use explaining::explain;
pub use fault::{ConfigFault, Place, RULES, Rule};
pub use names::NameList;
pub use opening::explain_unopened;
pub use reading::read;
pub use sinks::{is_member, leaves};

/// There are no more sinks than this, and no more loggers.
pub const TABLES_MAX: usize = 256;

/// A fan has no more members than this, and a logger no more sinks.
pub const NAMES_MAX: usize = 16;
