//! Measures parts of alog, most of them beside what others have.
//!
//! The first word names the part: `ring`, `lane`, `post`, `format`, `sink`, `replay` or `load`. The words behind it are those of
//! the part, which the head of its file tells. With no word the program prints nothing. The scripts of `bench/` run it.
//!
//! Read the part's file (what is run, and what is printed), and then those of its folder. What parts share stands once: `runs.rt`
//! (the best of some runs, and the one in the middle), `rivals.rt` (what is printed of two that are compared), `threads.rt`
//! (what threads do together), `ring_lane.rt` (a ring as one thread sees it), `lines.rt` (how lines are made) and `outputs.rt`
//! (what is asked of sinks and folders). Proved is that the program is safe; a run that waits may not end, and no time is
//! promised.
#![tactic(auto)]

mod format;
mod lane;
mod lines;
mod load;
mod outputs;
mod post;
mod replay;
mod ring;
mod ring_lane;
mod rivals;
mod runs;
mod sink;
mod threads;

use alog_server::Folders;
use anyhow::Result;
use std::env;
use std::rt::{Clock, Files};
use std::sync::Wait;
use std::thread::Threads;
use std::time::CpuClock;

fn main(rt: HostRuntime) -> Result<()> {
    let words: Vec<String> = env::args(&rt)?.collect(rt.alloc())?;
    match words.as_slice() {
        [_, part, words @ ..] => measure(&rt, part.as_str(), words),
        _ => Ok(()),
    }
}

/// Measures the part of this name as the words say.
fn measure<R>(rt: &R, part: &str, words: &[String]) -> Result<()>
where
    R: Threads + Wait + Clock + CpuClock + Files + Folders + Print + AllocGlobal,
    R: Clone + Drop + Send + Sync + 'static,
{
    match part {
        "ring" => ring::measure(rt),
        "lane" => lane::measure(rt),
        "post" => post::measure(rt),
        "format" => format::measure(rt),
        "sink" => sink::measure(rt, words),
        "replay" => replay::measure(rt, words),
        "load" => load::measure(rt, words),
        _ => Ok(()),
    }
}
