ghost use Rattle.std.specs.Prelude.{◌≡◌, ◌≤◌, length};
ghost use Rattle.alog_format.specs.Text as text;

/// The name of a day of the week, from 0 for Monday to 6 for Sunday.
#[tactic(auto, unfolding(crate::specs::Text::weekday_name))]
pub(crate) fn weekday_name(weekday: u32) -> &'static [u8]
    ensures name { result.now ≡ text.weekday_name weekday }
    ensures long { 3 ≤ length result.now }
{
    match weekday {
        0 => b"Monday",
        1 => b"Tuesday",
        2 => b"Wednesday",
        3 => b"Thursday",
        4 => b"Friday",
        5 => b"Saturday",
        _ => b"Sunday",
    }
}

/// The name of a month, from 1 for January to 12 for December.
#[tactic(auto, unfolding(crate::specs::Text::month_name))]
pub(crate) fn month_name(month: u32) -> &'static [u8]
    ensures name { result.now ≡ text.month_name month }
    ensures long { 3 ≤ length result.now }
{
    match month {
        1 => b"January",
        2 => b"February",
        3 => b"March",
        4 => b"April",
        5 => b"May",
        6 => b"June",
        7 => b"July",
        8 => b"August",
        9 => b"September",
        10 => b"October",
        11 => b"November",
        _ => b"December",
    }
}

/// `AM` before noon, and `PM` from noon on.
#[tactic(auto, unfolding(crate::specs::Text::half_day))]
pub(crate) fn half_day(hour: u32) -> &'static [u8]
    ensures { result.now ≡ text.half_day hour }
{
    if hour < 12 { b"AM" } else { b"PM" }
}

/// The hour of half a day, 1 to 12: midnight and noon are 12.
#[tactic(auto, unfolding(crate::specs::Text::half_day_hour))]
pub(crate) fn half_day_hour(hour: u32) -> u32
    ensures { result ≡ text.half_day_hour hour }
{
    match hour % 12 {
        0 => 12,
        hour => hour,
    }
}

/// A file after its last `/`.
#[tactic(auto, unfolding(crate::specs::Text::base))]
pub(crate) fn base(file: &[u8]) -> &[u8]
    ensures { result.now ≡ text.base file.now }
{
    let mut start = file.len();
    while 0 < start && file[start - 1] != b'/' {
        start -= 1;
    }
    &file[start..]
}
