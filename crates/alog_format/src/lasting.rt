//! What of a line is the same throughout a second.
ghost use Rattle.std.specs.Prelude.{◌≡◌, ◌≤◌, true, All, length, take};
ghost use Rattle.alog_format.specs.Lasting as lasting;

use alog_pattern::{Flag, Item};

/// How many of the first items last a second.
pub(crate) fn count_lasting(items: &[Item]) -> usize
    ensures within { result ≤ length items.now }
    ensures all { All (λ item. lasting.lasts item ≡ true) (take result items.now) }
{
    let mut count = 0;
    for item in items {
        if !lasts(item) {
            return count;
        }
        count += 1;
    }
    count
}

/// Whether the text of an item is the same throughout a second.
fn lasts(item: &Item) -> bool
    ensures { result ≡ lasting.lasts item.now }
{
    match *item {
        Item::Byte(_) => true,
        Item::Flag(flag, None) => flag_lasts(flag),
        _ => false,
    }
}

/// Whether a flag is one of whole seconds.
fn flag_lasts(flag: Flag) -> bool
    ensures { result ≡ lasting.flag_lasts flag }
{
    matches!(
        flag,
        Flag::ShortWeekday
            | Flag::Weekday
            | Flag::ShortMonth
            | Flag::Month
            | Flag::DateTime
            | Flag::ShortYear
            | Flag::Year
            | Flag::ShortDate
            | Flag::MonthNumber
            | Flag::Day
            | Flag::Hour
            | Flag::HalfDayHour
            | Flag::Minute
            | Flag::Second
            | Flag::HalfDay
            | Flag::HalfDayTime
            | Flag::ShortTime
            | Flag::Time
    )
}
