//! What a configuration says.
ghost use Rattle.alog_config.specs.Soundness.{IsSound-prop, IsSoundTop-prop};
ghost use Rattle.alog_config.specs.Sound.{IsSound, IsSoundTop};

use crate::names::NameList;
use alog_format::Zone;
use alog_msg::{Level, Text};
use alog_policy::Policy;

/// A configuration that keeps every rule: how a logger is set up.
///
/// `examples/` has some.
#[derive(Debug, Drop)]
pub struct Config {
    /// Places of the queue: a power of two, 2 to 65,536.
    pub queue: usize,
    /// How many threads take items from the queue, 1 to 64.
    pub workers: usize,
    /// The most bytes of a message's text, 64 to 8,192.
    pub text: usize,
    /// Where the clock stands that lines show: at a fixed offset, or by a rule.
    pub zone: Zone,
    /// The number of the process that lines show.
    pub process: u32,
    /// How often a failed call of a sink's store is tried again, 0 to 1,000,000, where that is said.
    pub retry: Option<u32>,
    /// The sinks by number, 1 to 256.
    pub sinks: Vec<SinkConfig>,
    /// The loggers by number, 1 to 256.
    pub loggers: Vec<LoggerConfig>,
    ghost top: { IsSoundTop queue workers } by { IsSoundTop-prop queue workers },
    ghost sound: { IsSound text zone sinks.items loggers.items } by { IsSound-prop text zone sinks.items loggers.items },
}

/// One sink of a configuration.
#[derive(Debug, Drop)]
pub struct SinkConfig {
    /// 1 to 64 bytes. No two sinks have one name.
    pub name: Text,
    /// Messages below it pass the sink by.
    pub level: Level,
    pub kind: SinkKind,
}

/// What a sink does with a message.
#[derive(Debug, Drop)]
pub enum SinkKind {
    /// It writes a line to its file.
    Lines {
        /// The name of the file. No two sinks have one file.
        file: Text,
        /// The pattern of its lines.
        pattern: Text,
        /// When the file makes way for another.
        upkeep: Upkeep,
    },
    /// It hands it to the earlier sinks of these names, 1 to 16, which are no fans and in no other fan.
    Fan {
        of: NameList,
    },
}

/// When a file makes way for another.
#[derive(Clone, Copy, Debug, PartialEq, Eq, Drop)]
pub enum Upkeep {
    /// Never: the kind `memory`.
    Never,
    /// Where it would have more than `max_size` bytes, 1 to 2^40: the kind `rotating`. Up to `max_files` further files are
    /// kept, 0 to 1,000.
    BySize {
        max_size: u64,
        max_files: usize,
    },
    /// Each day at `hour` (0 to 23) and `minute` (0 to 59): the kind `daily`. Of the files by days the last `max_files`, up
    /// to 1,000, are kept, and with 0 all.
    Daily {
        hour: u32,
        minute: u32,
        max_files: usize,
    },
}

/// One logger of a configuration.
#[derive(Debug, Drop)]
pub struct LoggerConfig {
    /// 1 to 64 bytes. No two loggers have one name.
    pub name: Text,
    /// The level that it has at first.
    pub level: Level,
    /// What its posts do where the queue is full.
    pub policy: Policy,
    /// The names of its sinks, 1 to 16, in the order in which they are given each message. None is a fan's member.
    pub sinks: NameList,
    /// A message of this level or above flushes its sinks.
    pub flush_on: Level,
    /// How many messages its backtrace keeps, 0 to 4,096.
    pub backtrace: usize,
}
