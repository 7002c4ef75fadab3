//! What a pool has to report, as a plain program.
ghost use Rattle.std.specs.Prelude.{◌≡◌, ◌-◌};

use alog_pool::Totals;

/// The totals where so many texts and flushes were asked, so many of them discarded, and so many overrun.
pub fn totals_of(asked: u64, discarded: u64, overrun: u64) -> Totals
    ensures asked { result.asked ≡ asked }
    ensures posted { result.posted ≡ asked - discarded }
    ensures discarded { result.discarded ≡ discarded }
    ensures overrun { result.overrun ≡ overrun }
    ensures handled { result.handled ≡ asked - discarded - overrun }
{
    let posted = asked.saturating_sub(discarded);
    Totals {
        asked,
        posted,
        discarded,
        overrun,
        handled: posted.saturating_sub(overrun),
    }
}
