ghost use Rattle.std.specs.Prelude.{◌≡◌, ◌↔◌};
ghost use Rattle.alog_msg.specs.Level.{row_of, Names};

/// How severe a message is, or how severe the messages are that a logger or a sink lets through.
///
/// The seven levels of spdlog, from the least severe. `Off` lets only messages of level `Off` through.
///
/// ```text
/// assert_eq!(rt; Level::Warning.name(), "warning");
/// assert_eq!(rt; Level::read("warn"), Some(Level::Warning));
/// assert!(rt; Level::Debug < Level::Info);
/// ```
/// The tests `table_of_levels` and `other_names_of_levels` run it.
#[derive(Clone, Copy, Debug, PartialEq, Eq, PartialOrd, Ord, Hash)]
pub enum Level {
    Trace,
    Debug,
    Info,
    Warning,
    Error,
    Critical,
    Off,
}

impl Level {
    /// The place in the order of levels, from 0 for `Trace` to 6 for `Off`.
    pub fn number(self) -> u8
        ensures { result ≡ (row_of self).number }
    {
        self as u8
    }

    /// The name in lower case, as `%l` writes it and a configuration spells it.
    pub fn name(self) -> &'static str
        ensures { result.now ≡ (row_of self).name }
    {
        match self {
            Level::Trace => "trace",
            Level::Debug => "debug",
            Level::Info => "info",
            Level::Warning => "warning",
            Level::Error => "error",
            Level::Critical => "critical",
            Level::Off => "off",
        }
    }

    /// The name's first letter as a capital, as `%L` writes it.
    pub fn short(self) -> &'static str
        ensures { result.now ≡ (row_of self).short }
    {
        match self {
            Level::Trace => "T",
            Level::Debug => "D",
            Level::Info => "I",
            Level::Warning => "W",
            Level::Error => "E",
            Level::Critical => "C",
            Level::Off => "O",
        }
    }

    /// The level of a name, or `None` for any text but the seven names, `warn` and `err`.
    pub fn read(text: &str) -> Option<Level>
        ensures { (level : Level) → (result ≡ Some level) ↔ Names text.now level }
    {
        match text {
            "trace" => Some(Level::Trace),
            "debug" => Some(Level::Debug),
            "info" => Some(Level::Info),
            "warning" | "warn" => Some(Level::Warning),
            "error" | "err" => Some(Level::Error),
            "critical" => Some(Level::Critical),
            "off" => Some(Level::Off),
            _ => None,
        }
    }
}
