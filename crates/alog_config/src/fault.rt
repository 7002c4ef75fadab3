//! Why a configuration is refused, and where.
ghost use Rattle.std.specs.Prelude.{◌≡◌};
ghost use Rattle.alog_config.specs.Numbers.{number_of_fault, number_of_rule};

use thiserror::Error;

/// What a table of a configuration has to keep to. `sessions/rules.session` shows each.
#[derive(Clone, Copy, Debug, PartialEq, Eq, Error)]
pub enum Rule {
    /// The table, or a sink of its kind, has no such key.
    #[error("a key that is not known here")]
    UnknownKey,
    /// A key has a value that it can not have.
    #[error("a value that its key can not have")]
    BadValue,
    /// A key that must be given is missing.
    #[error("a key is missing")]
    Missing,
    /// An earlier table of the same array has the name.
    #[error("the name is taken")]
    NameTaken,
    /// No sink, or in a fan no earlier sink, has a name that is given.
    #[error("no sink has this name")]
    NoSuchSink,
}

/// The rules in the order in which they are looked at within one table. `sessions/rules.session` shows it.
pub const RULES: [Rule; 5] = [
    Rule::UnknownKey,
    Rule::BadValue,
    Rule::Missing,
    Rule::NameTaken,
    Rule::NoSuchSink,
];

/// Where in a configuration a rule is broken. `sessions/rules.session` shows each.
#[derive(Clone, Copy, Debug, PartialEq, Eq)]
pub enum Place {
    /// Outside of the sinks and the loggers.
    Top,
    /// In the sink of this number, from 0.
    Sink(usize),
    /// In the logger of this number, from 0.
    Logger(usize),
}

/// Why a configuration was not read. `sessions/rules.session` shows each.
#[derive(Clone, Copy, Debug, PartialEq, Eq, Error)]
pub enum ConfigFault {
    /// The document is no TOML, or not in UTF-8.
    #[error("the document is not TOML")]
    NotToml,
    /// The first rule that is broken, and where.
    #[error("{rule}")]
    Broken { rule: Rule, place: Place },
    /// A growth was refused.
    #[error("out of memory")]
    OutOfMemory,
}

impl Rule {
    /// The number of the refusal, as programs print it.
    pub fn number(self) -> u8
        ensures { result ≡ number_of_rule self }
    {
        match self {
            Rule::UnknownKey => 29,
            Rule::BadValue => 30,
            Rule::Missing => 31,
            Rule::NameTaken => 24,
            Rule::NoSuchSink => 32,
        }
    }
}

impl ConfigFault {
    /// The number of the refusal, as programs print it.
    pub fn number(self) -> u8
        ensures { result ≡ number_of_fault self }
    {
        match self {
            ConfigFault::OutOfMemory => 1,
            ConfigFault::NotToml => 28,
            ConfigFault::Broken { rule, .. } => rule.number(),
        }
    }
}
