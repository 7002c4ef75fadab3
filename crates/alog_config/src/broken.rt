//! Which rules a table breaks.
ghost use Rattle.std.specs.Prelude.{◌≡◌, IsTrue};
ghost use Rattle.alog_config.specs.Rules.{IsFirst, has, order};

use crate::fault::{RULES, Rule};

/// For each rule whether a table breaks it.
#[derive(Clone, Copy)]
pub(crate) struct Broken {
    pub unknown_key: bool,
    pub bad_value: bool,
    pub missing: bool,
    pub name_taken: bool,
    pub no_such_sink: bool,
}

impl Broken {
    /// Whether this rule is broken.
    fn has(self, rule: Rule) -> bool
        ensures { result ≡ has self rule }
    {
        match rule {
            Rule::UnknownKey => self.unknown_key,
            Rule::BadValue => self.bad_value,
            Rule::Missing => self.missing,
            Rule::NameTaken => self.name_taken,
            Rule::NoSuchSink => self.no_such_sink,
        }
    }

    /// The first rule that is broken.
    pub(crate) fn first(self) -> Option<Rule>
        ensures { IsFirst order (λ rule. IsTrue (has self rule)) result }
    {
        for rule in &RULES {
            if self.has(*rule) {
                return Some(*rule);
            }
        }
        None
    }
}
