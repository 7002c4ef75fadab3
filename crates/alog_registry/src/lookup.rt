//! A logger's number by its name.
ghost use Rattle.std.specs.Prelude.{◌≡◌, ◌↔◌, ◌≤◌, ℕ, length, Some, IsTrue};
ghost use Rattle.alog_registry.specs.Listed.{name_at, IsTaken, AreApart};

use crate::LOGGERS_MAX;
use crate::logger::Logger;

/// The number of the logger of this name, or `None` where there is no such logger.
pub(crate) fn number_of(loggers: &[Logger], name: &str) -> Option<u32>
    requires few { length loggers.now ≤ LOGGERS_MAX }
    requires apart { AreApart loggers.now }
    ensures { (n : ℕ) → (result ≡ Some n) ↔ (name_at loggers.now n ≡ Some name.now) }
{
    for i in 0..loggers.len() {
        if has_name(&loggers[i], name) {
            return Some(i as u32);
        }
    }
    None
}

/// Whether a logger has this name.
pub(crate) fn is_taken(loggers: &[Logger], name: &str) -> bool
    requires few { length loggers.now ≤ LOGGERS_MAX }
    requires apart { AreApart loggers.now }
    ensures { IsTrue result ↔ IsTaken loggers.now name.now }
{
    number_of(loggers, name).is_some()
}

/// Whether the logger has this name.
fn has_name(logger: &Logger, name: &str) -> bool
    ensures { IsTrue result ↔ (logger.now.name ≡ name.now) }
{
    logger.name.as_str() == name
}
