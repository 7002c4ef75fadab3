//! Which keys a table may have.
ghost use Rattle.std.specs.Prelude.{◌↔◌, IsTrue, None, Some, option_map};
ghost use Rattle.alog_config.specs.Culprits.{IsOtherKey};
ghost use Rattle.alog_config.specs.Keys.{HasOtherKey, IsOneOf, keys_of, logger_keys, sink_keys, top_keys};
ghost use Rattle.toml.specs.View.{table_view};

use toml::Table;

/// The kinds of sinks.
#[derive(Clone, Copy, PartialEq, Eq, Drop)]
pub(crate) enum Kind {
    Memory,
    Rotating,
    Daily,
    Fan,
}

/// Whose keys they are.
#[derive(Clone, Copy, Drop)]
pub(crate) enum Owner {
    Top,
    /// A sink of this kind, if that is told.
    Sink(Option<Kind>),
    Logger,
}

/// Whether the top has this key.
fn is_top_key(key: &str) -> bool
    ensures { IsTrue result ↔ IsOneOf top_keys key.now }
{
    matches!(
        key,
        "queue" | "workers" | "text" | "offset" | "zone" | "process" | "retry" | "sink" | "logger"
    )
}

/// Whether a logger has this key.
fn is_logger_key(key: &str) -> bool
    ensures { IsTrue result ↔ IsOneOf logger_keys key.now }
{
    matches!(
        key,
        "name" | "level" | "policy" | "sinks" | "flush_on" | "backtrace"
    )
}

/// Whether a memory sink has this key.
fn is_memory_key(key: &str) -> bool
    ensures { IsTrue result ↔ IsOneOf (sink_keys (Some Kind.Memory)) key.now }
{
    matches!(key, "name" | "kind" | "level" | "pattern" | "file")
}

/// Whether a rotating sink has this key.
fn is_rotating_key(key: &str) -> bool
    ensures { IsTrue result ↔ IsOneOf (sink_keys (Some Kind.Rotating)) key.now }
{
    matches!(
        key,
        "name" | "kind" | "level" | "pattern" | "file" | "max_size" | "max_files"
    )
}

/// Whether a daily sink has this key.
fn is_daily_key(key: &str) -> bool
    ensures { IsTrue result ↔ IsOneOf (sink_keys (Some Kind.Daily)) key.now }
{
    matches!(
        key,
        "name" | "kind" | "level" | "pattern" | "file" | "hour" | "minute" | "max_files"
    )
}

/// Whether a fan has this key.
fn is_fan_key(key: &str) -> bool
    ensures { IsTrue result ↔ IsOneOf (sink_keys (Some Kind.Fan)) key.now }
{
    matches!(key, "name" | "kind" | "level" | "of")
}

/// Whether a sink of some kind has this key.
fn is_key_of_any_sink(key: &str) -> bool
    ensures { IsTrue result ↔ IsOneOf (sink_keys None) key.now }
{
    matches!(
        key,
        "name"
            | "kind"
            | "level"
            | "pattern"
            | "file"
            | "max_size"
            | "max_files"
            | "hour"
            | "minute"
            | "of"
    )
}

/// Whether a sink of this kind has this key. Where no kind is told, it may be a key of any kind.
fn is_sink_key(kind: Option<Kind>, key: &str) -> bool
    ensures { IsTrue result ↔ IsOneOf (sink_keys kind) key.now }
{
    match kind {
        Some(Kind::Memory) => is_memory_key(key),
        Some(Kind::Rotating) => is_rotating_key(key),
        Some(Kind::Daily) => is_daily_key(key),
        Some(Kind::Fan) => is_fan_key(key),
        None => is_key_of_any_sink(key),
    }
}

/// Whether this is one of its keys.
fn is_key(owner: Owner, key: &str) -> bool
    ensures { IsTrue result ↔ IsOneOf (keys_of owner) key.now }
{
    match owner {
        Owner::Top => is_top_key(key),
        Owner::Sink(kind) => is_sink_key(kind, key),
        Owner::Logger => is_logger_key(key),
    }
}

/// The first key of a table that is not one of its owner's.
pub(crate) fn other_key(table: &Table, owner: Owner) -> Option<&str>
    ensures { IsOtherKey owner (table_view table.now) (option_map (λ k. k.now) result) }
{
    for (key, _value) in table.iter() {
        if !is_key(owner, key.as_str()) {
            return Some(key.as_str());
        }
    }
    None
}

/// Whether a table has a key that is not one of its owner's.
pub(crate) fn has_other_key(table: &Table, owner: Owner) -> bool
    ensures { IsTrue result ↔ HasOtherKey owner (table_view table.now) }
{
    other_key(table, owner).is_some()
}
