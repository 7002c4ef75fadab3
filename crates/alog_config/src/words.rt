//! The keys of a configuration: their names, and what each may hold, in words.
ghost use Rattle.std.specs.Prelude.{◌≡◌};
ghost use Rattle.alog_config.specs.Culprits.{name_of};

use crate::keys::{Kind, Owner};

/// A key of a configuration.
#[derive(Clone, Copy, Debug, PartialEq, Eq, Drop)]
pub(crate) enum Key {
    Queue,
    Workers,
    Text,
    Offset,
    Zone,
    Process,
    Retry,
    Sink,
    Logger,
    Name,
    Kind,
    Level,
    Pattern,
    File,
    MaxSize,
    MaxFiles,
    Hour,
    Minute,
    Of,
    Policy,
    Sinks,
    FlushOn,
    Backtrace,
}

impl Key {
    /// The key as a document has it.
    pub(crate) fn name(self) -> &'static str
        ensures { result.now ≡ name_of self }
    {
        match self {
            Key::Queue => "queue",
            Key::Workers => "workers",
            Key::Text => "text",
            Key::Offset => "offset",
            Key::Zone => "zone",
            Key::Process => "process",
            Key::Retry => "retry",
            Key::Sink => "sink",
            Key::Logger => "logger",
            Key::Name => "name",
            Key::Kind => "kind",
            Key::Level => "level",
            Key::Pattern => "pattern",
            Key::File => "file",
            Key::MaxSize => "max_size",
            Key::MaxFiles => "max_files",
            Key::Hour => "hour",
            Key::Minute => "minute",
            Key::Of => "of",
            Key::Policy => "policy",
            Key::Sinks => "sinks",
            Key::FlushOn => "flush_on",
            Key::Backtrace => "backtrace",
        }
    }

    /// What it may hold.
    pub(crate) fn allowed(self) -> &'static str {
        match self {
            Key::Queue => "a power of two, 2 to 65536",
            Key::Workers => "a number, 1 to 64",
            Key::Text => "a number, 64 to 8192",
            Key::Offset => "minutes, -1439 to 1439",
            Key::Zone =>
                "a POSIX rule of 1 to 64 bytes, as CET-1CEST,M3.5.0,M10.5.0/3, and no offset beside it",
            Key::Process => "a number, 0 to 4294967295",
            Key::Retry => "a number, 0 to 1000000",
            Key::Sink | Key::Logger => "1 to 256 tables",
            Key::Name => "1 to 64 bytes, and not the name of an earlier table of the same array",
            Key::Kind => "memory, rotating, daily or fan",
            Key::Level | Key::FlushOn => "trace, debug, info, warning, error, critical or off",
            Key::Pattern => "a pattern of at most 256 bytes, whose lines have at most 65536",
            Key::File => {
                "1 to 64 bytes, not . or .., without a slash or a zero byte, and not the file of an earlier sink; \
                 where a memory sink has none, its name stands for it"
            }
            Key::MaxSize => "a number, 1 to 1099511627776",
            Key::MaxFiles => "a number, 0 to 1000",
            Key::Hour => "a number, 0 to 23",
            Key::Minute => "a number, 0 to 59",
            Key::Of => {
                "1 to 16 names of earlier sinks, none twice, none a fan or a member of an earlier fan"
            }
            Key::Policy => "block, overrun_oldest or discard_new",
            Key::Sinks => "1 to 16 names of sinks, none twice, none a member of a fan",
            Key::Backtrace => "a number, 0 to 4096",
        }
    }
}

/// The keys that a table of this owner may have.
pub(crate) fn known_keys(owner: Owner) -> &'static str {
    match owner {
        Owner::Top => "queue, workers, text, offset, zone, process, retry, sink and logger",
        Owner::Logger => "name, level, policy, sinks, flush_on and backtrace",
        Owner::Sink(None) => {
            "name, kind, level, pattern, file, max_size, max_files, hour, minute and of"
        }
        Owner::Sink(Some(Kind::Memory)) => "name, kind, level, pattern and file",
        Owner::Sink(Some(Kind::Rotating)) => {
            "name, kind, level, pattern, file, max_size and max_files"
        }
        Owner::Sink(Some(Kind::Daily)) => {
            "name, kind, level, pattern, file, hour, minute and max_files"
        }
        Owner::Sink(Some(Kind::Fan)) => "name, kind, level and of",
    }
}
