//! Measures the whole way of a message: producers on threads, a pool with one worker, and a sink.
//!
//! A call of the program is one run, so that `bench/load` can run it and its peer in turn.
//!
//! - `run STORE PATTERN PRODUCERS LENGTH rate` prints how many messages go in a second, from the first log to the last line
//!   written.
//! - `run STORE PATTERN PRODUCERS LENGTH OFFERED` prints the 50th, 99th and 99.9th percentile of the nanoseconds that one log
//!   takes, where so many messages are offered in a second, or as many as go where that is 0.
//! - `idle WORKERS SECONDS` prints the microseconds of a processor that a pool takes in a second in which nothing is logged.
//!
//! STORE is `null`, `memory` or the path of a folder, PATTERN `short` or `full`, LENGTH the bytes of each text: 16, 63, 200 or
//! 1000. Read `case.rt` (what is asked for), `start.rt`
//! (the pool of a run), `work.rt` (what a producer does), `run.rt` (a run and what it prints), `null_store.rt` and `idle.rt`.
//! `bench/load.cpp` does the same by spdlog.
mod case;
mod idle;
mod null_store;
mod run;
mod start;
mod work;

use crate::load::case::{Case, Target, case_of, number};
use crate::load::idle::print_idle;
use crate::load::null_store::NullStore;
use crate::load::run::{Run, print_run, run_on};
use crate::outputs::{FILE, remove_all};
use alog_server::{Folders, Patience};
use alog_sink::MemStore;
use anyhow::Result;
use std::alloc::Global;
use std::rt::Clock;
use std::sync::Wait;
use std::thread::Threads;
use std::time::CpuClock;

/// Makes the run that is asked for, over a store of its own.
fn run_case<R>(rt: &R, case: &Case<'_>) -> Result<Run>
where
    R: Threads + Wait + Clock + Folders + AllocGlobal + Clone + Drop + Send + Sync + 'static,
{
    let alloc = rt.alloc();
    match case.target {
        Target::Null => run_on(rt, NullStore, case),
        Target::Memory => run_on(rt, MemStore::new(alloc), case),
        Target::Folder(path) => run_on(rt, folder(rt, alloc, path)?, case),
    }
}

/// A store over the folder with this path, which may go to other threads, and from which the file of a run is removed.
fn folder<R: Folders>(rt: &R, alloc: Global, path: &str) -> Result<R::Folder> {
    let mut store = rt.folder(alloc, path, Patience::Times(0))?;
    remove_all(&mut store, &[FILE])?;
    Ok(store)
}

/// Measures what these words ask for.
pub fn measure<R>(rt: &R, words: &[String]) -> Result<()>
where
    R: Threads + Wait + Clock + CpuClock + Folders + Print + AllocGlobal,
    R: Clone + Drop + Send + Sync + 'static,
{
    match words {
        [word, store, pattern, producers, length, how] if word.as_str() == "run" => {
            let case = case_of(store, pattern, producers, length, how)?;
            print_run(rt, &case, run_case(rt, &case)?)
        }
        [word, workers, seconds] if word.as_str() == "idle" => {
            print_idle(rt, number(workers)?, number(seconds)?)
        }
        _ => Ok(()),
    }
}
