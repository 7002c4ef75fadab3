//! A run, and what it prints.
ghost use Rattle.std.specs.Prelude.{◌≡◌, ◌+◌, ◌<◌, ◌≤◌, [], All, length, vec_capacity};
ghost use Rattle.std.specs.List.{AllByRecursion};
ghost use Rattle.alog_pool.specs.declared.shared.Shared.{Shared};

use crate::load::case::{Case, Figure};
use crate::load::start::started;
use crate::load::work::{Task, carry_out};
use alog_pool::{Pool, Producer, Report};
use alog_sink::Store;
use anyhow::{Result, anyhow, ensure};
use std::alloc::Global;
use std::rt::Clock;
use std::sync::Wait;
use std::thread::Threads;
use std::time::{Duration, Instant};
use std::{io, thread};

/// What a run took.
#[derive(Drop)]
pub struct Run {
    /// From the first log to the last line written.
    time: Duration,
    /// The nanoseconds of each log, where they were asked for.
    times: Vec<u64>,
}

/// Makes a task for each producer, into a list with room for them.
fn add_tasks<S: Store + Drop + Send + 'static>(
    alloc: Global,
    pool: &mut Pool<S>,
    case: &Case<'_>,
    tasks: &mut Vec<Task>,
) -> Result<()>
    requires room { (tasks.old.items ≡ []) × (case.now.producers ≤ vec_capacity tasks.old) }
    ensures pool { pool.new.shared ≡ pool.old.shared }
    ensures made { pool.new.made ≡ pool.old.made + length tasks.new.items }
    ensures each { All (λ t. t.producer.shared ≡ pool.old.shared) tasks.new.items }
    ensures few { length tasks.new.items ≤ case.now.producers }
{
    let room = match case.order.figure {
        Figure::Rate => 0,
        Figure::Times => case.order.count as usize,
    };
    for _made in 0..case.producers {
        let times = Vec::with_capacity(alloc, room)?;
        tasks.push_reserved(Task {
            producer: pool.producer()?,
            order: case.order,
            times,
            failed: 0,
        });
    }
    Ok(())
}

/// Lets each task be done on a thread of its own, until all are.
fn do_by_threads<R: Threads + Wait + Clock + Sync>(
    rt: &R,
    alloc: Global,
    text: &'static str,
    tasks: &mut Vec<Task>,
)
    requires each { All (λ t. 0 < length t.producer.shared.loggers) tasks.old.items }
    ensures count { length tasks.new.items ≡ length tasks.old.items }
    ensures each { (s : Shared) → All (λ t. t.producer.shared ≡ s) tasks.old.items → All (λ t. t.producer.shared ≡ s) tasks.new.items }
{
    let threads = tasks.len().max(1);
    thread::for_each_mut(
        rt,
        tasks.as_mut_slice(),
        threads,
        &|_number, task: &mut Task|
            requires { 0 < length task.now.producer.shared.loggers }
            ensures { task.exit.now.producer.shared ≡ task.entry.now.producer.shared }
        { carry_out(rt, alloc, text, task) },
    );
}

/// Takes the producers of tasks back, with all their times, and says whether each log was done.
fn take_back(tasks: Vec<Task>, producers: &mut Vec<Producer>, times: &mut Vec<u64>) -> bool
    requires room { (producers.old.items ≡ []) × (length tasks.items ≤ vec_capacity producers.old) }
    ensures own { (s : Shared) → All (λ t. t.producer.shared ≡ s) tasks.items → All (λ p. p.shared ≡ s) producers.new.items }
    ensures count { length producers.new.items ≡ length tasks.items }
{
    let mut all = true;
    let mut rest = tasks.into_iter();
    while let Some(task) = rest.next() {
        let Task {
            producer,
            order: _,
            times: own,
            failed,
        } = task;
        producers.push_reserved(producer);
        all = all && failed == 0 && times.extend_from_slice(&own).is_ok();
    }
    rest.destroy_empty();
    all
}

/// Lets so many producers of the pool log, and answers them, and when they began and what times were taken.
fn logged<S, R>(
    rt: &R,
    alloc: Global,
    pool: &mut Pool<S>,
    case: &Case<'_>,
) -> (Vec<Producer>, Result<(Instant, Vec<u64>)>)
where
    S: Store + Drop + Send + 'static,
    R: Threads + Wait + Clock + Sync,
    requires some { 0 < length pool.old.shared.loggers }
    requires fresh { pool.old.made ≡ 0 }
    ensures own { AllByRecursion (λ p. p.shared ≡ pool.new.shared) result.0.items }
    ensures all { length result.0.items ≡ pool.new.made }
{
    let mut producers = Vec::new(alloc);
    let mut tasks = Vec::new(alloc);
    if producers.reserve(case.producers as usize).is_err()
        || tasks.reserve(case.producers as usize).is_err()
    {
        tasks.destroy_empty();
        return (producers, Err(anyhow!("out of memory")));
    }
    let made = add_tasks(alloc, pool, case, &mut tasks);
    let start = Instant::now(rt);
    do_by_threads(rt, alloc, case.text, &mut tasks);
    let mut times = Vec::new(alloc);
    let all = take_back(tasks, &mut producers, &mut times);
    (producers, begun(made, start, all, times))
}

/// When a run began and what times were taken, where all was done.
fn begun(
    made: Result<()>,
    start: io::Result<Instant>,
    all: bool,
    times: Vec<u64>,
) -> Result<(Instant, Vec<u64>)> {
    made?;
    ensure!(all, "a log failed");
    Ok((start?, times))
}

/// Ends the pool with all its producers.
pub fn ended<S, R>(rt: &R, pool: Pool<S>, producers: Vec<Producer>) -> Report<S>
where
    S: Store + Drop + Send + 'static,
    R: Threads + Wait + Clock,
    requires own { AllByRecursion (λ p. p.shared ≡ pool.shared) producers.items }
    requires all { length producers.items ≡ pool.made }
{
    match pool.shutdown(rt, producers) {
        Ok(report) => report,
        Err(_) => unreachable!(),
    }
}

/// Brings all lines to the stores.
fn flush_all<S: Store>(report: &mut Report<S>) -> Result<()> {
    for sink in report.sinks.iter_mut() {
        sink.flush()?;
    }
    Ok(())
}

/// Whether all messages were handled, and no turn failed.
fn is_whole<S: Store>(report: &Report<S>, case: &Case<'_>) -> bool {
    report.totals.handled == u64::from(case.messages())
        && report.faults.iter().all(|fault| *fault == 0)
}

/// Makes a run over this store.
pub fn run_on<S, R>(rt: &R, store: S, case: &Case<'_>) -> Result<Run>
where
    S: Store + Drop + Send + 'static,
    R: Threads + Wait + Clock + AllocGlobal + Clone + Drop + Send + Sync + 'static,
{
    let alloc = rt.alloc();
    let mut pool = started(rt, alloc, case.pattern, store, 1)?;
    let (producers, logged) = logged(rt, alloc, &mut pool, case);
    let mut report = ended(rt, pool, producers);
    let (start, times) = logged?;
    flush_all(&mut report)?;
    let time = start.elapsed(rt)?;
    ensure!(is_whole(&report, case), "a message was lost");
    Ok(Run { time, times })
}

/// The time that so many of a thousand logs do not exceed.
fn percentile(times: &[u64], per_mille: usize) -> u64 {
    let place = (times.len() / 1_000).saturating_mul(per_mille);
    times.get(place).copied().unwrap_or(0)
}

/// Prints the figure that was asked for.
pub fn print_run<R: Print>(rt: &R, case: &Case<'_>, mut run: Run) -> Result<()> {
    match case.order.figure {
        Figure::Rate => {
            let rate = f64::from(case.messages()) / run.time.as_secs_f64();
            println!(rt; "{rate:.0}")?;
        }
        Figure::Times => {
            run.times.sort_unstable();
            let times = run.times.as_slice();
            let (half, most, all) = (
                percentile(times, 500),
                percentile(times, 990),
                percentile(times, 999),
            );
            println!(rt; "{half} {most} {all}")?;
        }
    }
    Ok(())
}
