//! How long after the message before a message came.
ghost use Rattle.std.specs.Prelude.{◌≡◌};
ghost use Rattle.alog_format.specs.Text.{elapsed};

/// The nanoseconds from the time of the message before to this time: 0 without one before, and where time went back. The
/// whole range of times has 20 digits of them, more than an `i64` holds.
pub(crate) fn elapsed_since(previous: Option<i64>, time: i64) -> u64
    ensures { result ≡ elapsed previous time }
{
    match previous {
        Some(before) if before < time => time.abs_diff(before),
        _ => 0,
    }
}
