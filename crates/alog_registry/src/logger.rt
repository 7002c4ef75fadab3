//! A logger: its name, and how it was set up.
use alog_msg::{Level, Text};
use alog_policy::Policy;

/// How a logger is set up. The test `loggers_by_name` shows one.
#[derive(Debug, Drop)]
pub struct Spec {
    /// The level that the logger has at first. Messages below a logger's level are not posted.
    pub level: Level,
    /// What its posts do where the queue is full.
    pub policy: Policy,
    /// A message of this level or above makes its worker flush the logger's sinks; one of level `Off` never does.
    pub flush_on: Level,
    /// How many messages its backtrace keeps, 0 to 4,096. With 0 it has none.
    pub backtrace: usize,
    /// The numbers of its sinks, in the order in which they are given each message.
    pub sinks: Vec<u32>,
}

/// A logger, as it was added. The test `loggers_by_name` shows one.
#[derive(Debug, Drop)]
pub struct Logger {
    /// At most 64 bytes. No two loggers have one name.
    pub name: Text,
    pub spec: Spec,
}
