//! What the command line asks for.
use alog_format::Context;
use alog_msg::{Level, SourceRef};

/// A line to be made of a message, by a pattern.
#[derive(Clone, Copy)]
pub struct LineRequest<'a> {
    pub pattern: &'a str,
    pub text: &'a str,
    /// The name of the message's logger.
    pub name: &'a str,
    pub level: Level,
    /// Nanoseconds since the epoch.
    pub time: i64,
    pub thread: u64,
    pub source: Option<SourceRef<'a>>,
    /// The zone and the process.
    pub context: Context,
    /// The time of the message before.
    pub previous: Option<i64>,
}

/// A load to be made through the loggers and sinks of a configuration.
#[derive(Clone, Copy)]
pub struct LoadRequest<'a> {
    /// The path of the file that has the configuration.
    pub file: &'a str,
    pub producers: u64,
    /// Of each producer.
    pub messages: u64,
    /// The folder for the files of the sinks, which are kept in memory where there is none.
    pub folder: Option<&'a str>,
}

/// Lines of standard input to be logged through the loggers and sinks of a configuration.
#[derive(Clone, Copy, Debug)]
pub struct PipeRequest<'a> {
    /// The path of the file that has the configuration.
    pub file: &'a str,
    /// The folder for the files of the sinks.
    pub folder: &'a str,
    /// The name of the logger, which is the first where there is none.
    pub logger: Option<&'a str>,
    pub level: Level,
    /// Whether the totals go to standard output, and not to standard error.
    pub totals: bool,
}

/// What the command line asks for.
#[derive(Clone, Copy)]
pub enum Request<'a> {
    /// `alog replay`: the script on standard input, without a configuration.
    Replay,
    /// `alog replay --config`: the same on the configuration of the file of this path.
    ReplayConfig(&'a str),
    /// `alog format`: a line.
    Format(LineRequest<'a>),
    /// `alog check`: whether the file of this path has a configuration.
    Check(&'a str),
    /// `alog load`: a load.
    Load(LoadRequest<'a>),
    /// `alog pipe`: the lines of standard input.
    Pipe(PipeRequest<'a>),
}
