//! A producer of a load on its thread.
ghost use Rattle.std.specs.Prelude.{◌≡◌, ◌≤◌, ◌<◌, length, pos, IsTrue};
ghost use Rattle.alog_load.specs.Load.{Goes, HasLogged, LogsMessage};
ghost use Rattle.alog_load.specs.declared.TheConstants.{LOAD_MESSAGES_MAX};
ghost use Rattle.alog_pool.specs.Producer.{IsSame};
ghost use Rattle.alog_registry.specs.declared.TheConstants.{LOGGERS_MAX};

use crate::load_task::LoadTask;
use alog_msg::Level;
use alog_pool::Producer;
use std::alloc::Global;
use std::sync::Wait;
use std::sync::atomic::{AtomicBool, Ordering};
use std::time::Clock;

/// A producer of a load, and whether it logged all its messages.
pub(crate) struct LoadSeat {
    pub(crate) producer: Producer,
    pub(crate) done: bool,
}

impl LoadSeat {
    /// Logs all messages of the producer, on its thread: so many to the logger that is its own among so many. It ends early where there
    /// is no memory, or where another producer found none.
    pub(crate) fn go<R: Wait + Clock>(
        &mut self,
        rt: &R,
        alloc: Global,
        loggers: usize,
        messages: u64,
        halt: &AtomicBool,
    )
        requires known { loggers ≡ length self.old.producer.shared.loggers }
        requires few { (loggers ≤ LOGGERS_MAX) × (messages ≤ LOAD_MESSAGES_MAX) }
        ensures { Goes loggers messages self.old self.new }
    {
        let task = LoadTask::of(self.producer.number(), loggers, messages);
        self.done = log_all(rt, alloc, &mut self.producer, task, halt);
    }
}

/// Logs each message of the task, and answers whether that was done.
fn log_all<R: Wait + Clock>(
    rt: &R,
    alloc: Global,
    producer: &mut Producer,
    task: LoadTask,
    halt: &AtomicBool,
) -> bool
    requires known { 0 < task.messages → task.logger < length producer.old.shared.loggers }
    requires few { task.messages ≤ LOAD_MESSAGES_MAX }
    ensures same { IsSame producer.old producer.new }
    ensures logged { IsTrue result → HasLogged task.logger task.messages producer.old producer.new }
{
    for i in 0..task.messages {
        if halt.load(Ordering::SeqCst) {
            return false;
        }
        if !log_one(rt, alloc, producer, task.logger, i, i as i64) {
            halt.store(true, Ordering::SeqCst);
            return false;
        }
    }
    true
}

/// Logs the message of this number at this time, and answers whether there was memory for it.
fn log_one<R: Wait + Clock>(
    rt: &R,
    alloc: Global,
    producer: &mut Producer,
    logger: u32,
    i: u64,
    time: i64,
) -> bool
    requires known { logger < length producer.old.shared.loggers }
    requires time { time ≡ pos i }
    ensures same { IsSame producer.old producer.new }
    ensures logged { IsTrue result → LogsMessage logger i producer.old producer.new }
{
    let number = producer.number();
    let Ok(text) = format!(in alloc; "{number} {i}") else {
        return false;
    };
    match producer.log(rt, alloc, logger, Level::Info, time, text.as_str(), None) {
        Ok(_) => true,
        Err(_) => false,
    }
}
