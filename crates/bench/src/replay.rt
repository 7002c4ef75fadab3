//! Measures the steps of the stepped queue of `alog_core`, at three sizes, with the queue empty and full; and the replay of
//! scripts of three sizes by `alog_replay`, with a configuration and without one.
//!
//! - `steps` prints how many steps it made in a second.
//! - `lines` prints how many lines of a script it replayed in a second.
//!
//! Of the steps read `queue.rt` (the calls that are timed) and `steps.rt` (the runs, and what is printed), of the scripts
//! `scripts.rt` and `replays.rt`.
mod queue;
mod replays;
mod scripts;
mod steps;

use anyhow::Result;
use std::rt::Clock;

/// Measures what these words ask for.
pub fn measure<R>(rt: &R, words: &[String]) -> Result<()>
where
    R: Clock + Print + AllocGlobal,
{
    match words {
        [word] if word.as_str() == "steps" => steps::measure(rt),
        [word] if word.as_str() == "lines" => replays::measure(rt),
        _ => Ok(()),
    }
}
