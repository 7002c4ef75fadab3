ghost use Rattle.std.specs.Prelude.{◌≡◌, ◌+ℤ◌, int_div, pos};
ghost use Rattle.std.specs.Int.{int_div_euclid, int_rem_euclid};
ghost use Rattle.jiff_core.specs.Timestamp.{IsOffsetSeconds};
ghost use Rattle.jiff.specs.Words.{civil_nanos, nanos_of_seconds};
ghost use Rattle.alog_format.specs.Civil.{clock_seconds, day_at, fields, second_at, IsShownAt, IsZone};

use crate::context::Zone;
use jiff::Timestamp;
use jiff::civil::DateTime;
use jiff::tz::Offset;

/// What a clock shows at a message's time.
#[derive(Clone, Copy, Debug)]
pub struct Civil {
    /// 1677 to 2262.
    pub year: u32,
    /// 1 to 12.
    pub month: u32,
    /// 1 to 31.
    pub day: u32,
    /// 0 for Monday to 6 for Sunday.
    pub weekday: u32,
    /// 0 to 23.
    pub hour: u32,
    /// 0 to 59.
    pub minute: u32,
    /// 0 to 59.
    pub second: u32,
    /// 0 to 999,999,999.
    pub nanosecond: u32,
    /// Minutes east of UTC, -1,559 to 1,559; the seconds of an offset are dropped, toward zero.
    pub offset: i16,
}

/// A day and a second of it, as a clock shows them.
#[derive(Clone, Copy, Debug, PartialEq, Eq)]
pub struct ClockTime {
    /// The day, counted from 1970-01-01.
    pub day: i64,
    /// Whole seconds of that day, 0 to 86,399.
    pub second: i64,
}

/// The day and the second of it that a clock of the zone shows at a time in nanoseconds since the epoch. It costs a few
/// divisions; `civil_at` costs the whole date. The test `days_and_seconds` shows it.
pub fn clock_time(zone: &Zone, time: i64) -> ClockTime
    requires { IsZone zone.now }
    ensures day { result.day ≡ day_at zone.now time }
    ensures second { result.second ≡ second_at zone.now time }
{
    let seconds = clock_seconds(zone, time);
    ClockTime {
        day: day_of(seconds),
        second: second_of(seconds),
    }
}

/// Whole seconds from 1970-01-01 00:00:00 on a clock of the zone.
fn clock_seconds(zone: &Zone, time: i64) -> i64
    requires { IsZone zone.now }
    ensures { result ≡ clock_seconds zone.now time }
{
    time.div_euclid(1_000_000_000) + i64::from(zone.offset_seconds(time))
}

/// The day of a second, counted from 1970-01-01.
fn day_of(seconds: i64) -> i64
    ensures { result ≡ int_div_euclid seconds (pos 86_400) }
{
    seconds.div_euclid(86_400)
}

/// The second of its day.
fn second_of(seconds: i64) -> i64
    ensures { result ≡ int_rem_euclid seconds (pos 86_400) }
{
    seconds.rem_euclid(86_400)
}

/// What a clock of the zone shows at a time in nanoseconds since the epoch.
pub fn civil_at(zone: &Zone, time: i64) -> Civil
    requires { IsZone zone.now }
    ensures { IsShownAt zone.now time result }
{
    let offset = zone.offset_seconds(time);
    fields_of(offset, local(offset, time))
}

/// The date and the time of day on a clock so many seconds east of UTC.
pub(crate) fn local(offset: i32, time: i64) -> DateTime
    requires { IsOffsetSeconds offset }
    ensures { civil_nanos result ≡ time +ℤ nanos_of_seconds offset }
{
    let timestamp = Timestamp::from_nanosecond(i128::from(time)).unwrap();
    Offset::from_seconds(offset).unwrap().to_datetime(timestamp)
}

/// The fields of a date and a time of day there.
pub(crate) fn fields_of(offset: i32, at: DateTime) -> Civil
    requires { IsOffsetSeconds offset }
    ensures { result ≡ fields offset at }
{
    Civil {
        year: u32::from(at.year().unsigned_abs()),
        month: u32::from(at.month().unsigned_abs()),
        day: u32::from(at.day().unsigned_abs()),
        weekday: u32::from(at.weekday().to_monday_zero_offset().unsigned_abs()),
        hour: u32::from(at.hour().unsigned_abs()),
        minute: u32::from(at.minute().unsigned_abs()),
        second: u32::from(at.second().unsigned_abs()),
        nanosecond: at.subsec_nanosecond().unsigned_abs(),
        offset: minutes_of(offset),
    }
}

/// The whole minutes of an offset in seconds, toward zero.
fn minutes_of(offset: i32) -> i16
    requires { IsOffsetSeconds offset }
    ensures { result ≡ int_div offset (pos 60) }
{
    (offset / 60) as i16
}
