//! The whole program `alog`, but for `main`: the command line over the crates below it.
//!
//! `program.rt` has `run`: the whole program over any reader and two writers, which answers the exit status. `words.rt` reads the
//! command line into a request (`request.rt`): `command.rt` has the commands and their help for `clap`, and `options.rt` and
//! `load_options.rt` read the values that it found. `line.rt` makes the line of `alog format`, `check.rt`, `replay_config.rt` and
//! `load.rt` (with `progress.rt`) and `pipe.rt` (with `pipe_options.rt`) do what begins with the configuration of a file, and
//! `status.rt` says which status and which number each fault has; `ended.rt` says why a replay ended early, by what `traced.rt`
//! remembers of its script and its output, and `script_words.rt` which word of a refused line is wrong. `arguments.rt` collects the
//! words that the system gave, for `main` in the crate `alog`.
//!
//! What users see of it is tried on the built program, by `sessions/` and `.ci/sessions.py`; what no run of it shows is tested in the
//! crate `test_program` (what fails beneath it, clocks).
#![tactic(auto)]

mod arguments;
mod check;
mod command;
mod configuration;
mod ended;
mod line;
mod load;
mod load_options;
mod options;
mod pipe;
mod pipe_options;
mod program;
mod progress;
mod replay_config;
mod request;
mod script_words;
mod sinks;
mod status;
mod stores;
mod totals;
mod traced;
mod words;

pub use alog_pipe::{ReadAside, TimedRead};
pub use arguments::{ArgumentsError, collect_words};
pub use program::{refuse_arguments, run};
pub use progress::{Progress, Screen};
