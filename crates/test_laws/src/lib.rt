//! What a caller outside gets of laws: of pools that have ended, a log call whose text is the last that a sink holds (`written.rt`), also where the
//! host brings the threads (`hosted.rt`), and the lines of a reader, which a sink holds each once and in order (`piped_lines.rt`); of stepped systems,
//! what a run of a few calls is (`stepped.rt`); and limits by their numbers (`limits.rt`).
#![tactic(auto)]

mod hosted;
mod limits;
mod piped_lines;
mod stepped;
mod written;

pub use hosted::log_hosted;
pub use limits::{limits_of_configurations, limits_of_scripts};
pub use piped_lines::pipe_lines;
pub use stepped::a_log_and_a_work;
pub use written::log_alone;
