ghost use Rattle.std.specs.Prelude.{◌≡◌, ◌≤◌, ◌<◌, ◌+◌};
ghost use Rattle.alog_format.specs.Clip.{clipped, HasEnd};
ghost use Rattle.alog_format.specs.Text as text;

use crate::civil::Civil;
use crate::clip::{write, write_decimal, write_four_digits, write_three_digits, write_two_digits};
use crate::line_buf::LineBuf;
use crate::names::{half_day, half_day_hour, month_name, weekday_name};

/// Appends HH:MM.
#[tactic(auto, using(crate::proofs::Clips::then_written), unfolding(crate::specs::Text::short_time))]
pub(crate) fn write_short_time(line: &mut LineBuf, end: usize, at: &Civil)
    requires { HasEnd line.old end }
    ensures written { line.new ≡ clipped line.old end (text.short_time at.now) }
    ensures ends { HasEnd line.new end }
{
    write_two_digits(line, end, at.hour);
    write(line, end, b":");
    write_two_digits(line, end, at.minute);
}

/// Appends HH:MM:SS.
#[tactic(auto, using(crate::proofs::Clips::then_written), unfolding(crate::specs::Text::time))]
pub(crate) fn write_time(line: &mut LineBuf, end: usize, at: &Civil)
    requires { HasEnd line.old end }
    ensures written { line.new ≡ clipped line.old end (text.time at.now) }
    ensures ends { HasEnd line.new end }
{
    write_short_time(line, end, at);
    write(line, end, b":");
    write_two_digits(line, end, at.second);
}

/// Appends the first three letters of the day of the week.
#[tactic(auto, unfolding(crate::specs::Text::short_weekday))]
pub(crate) fn write_short_weekday(line: &mut LineBuf, end: usize, at: &Civil)
    requires { HasEnd line.old end }
    ensures written { line.new ≡ clipped line.old end (text.short_weekday at.now) }
    ensures ends { HasEnd line.new end }
{
    write(line, end, &weekday_name(at.weekday)[..3]);
}

/// Appends the first three letters of the month.
#[tactic(auto, unfolding(crate::specs::Text::short_month))]
pub(crate) fn write_short_month(line: &mut LineBuf, end: usize, at: &Civil)
    requires { HasEnd line.old end }
    ensures written { line.new ≡ clipped line.old end (text.short_month at.now) }
    ensures ends { HasEnd line.new end }
{
    write(line, end, &month_name(at.month)[..3]);
}

/// Appends MM/DD/YY.
#[tactic(auto, using(crate::proofs::Clips::then_written), unfolding(crate::specs::Text::short_date))]
pub(crate) fn write_short_date(line: &mut LineBuf, end: usize, at: &Civil)
    requires { HasEnd line.old end }
    ensures written { line.new ≡ clipped line.old end (text.short_date at.now) }
    ensures ends { HasEnd line.new end }
{
    write_two_digits(line, end, at.month);
    write(line, end, b"/");
    write_two_digits(line, end, at.day);
    write(line, end, b"/");
    write_two_digits(line, end, at.year);
}

/// Appends the time of half a day, as `03:35:46 PM`.
#[tactic(auto, using(crate::proofs::Clips::then_written), unfolding(crate::specs::Text::half_day_time))]
pub(crate) fn write_half_day_time(line: &mut LineBuf, end: usize, at: &Civil)
    requires { HasEnd line.old end }
    ensures written { line.new ≡ clipped line.old end (text.half_day_time at.now) }
    ensures ends { HasEnd line.new end }
{
    write_two_digits(line, end, half_day_hour(at.hour));
    write(line, end, b":");
    write_two_digits(line, end, at.minute);
    write(line, end, b":");
    write_two_digits(line, end, at.second);
    write(line, end, b" ");
    write(line, end, half_day(at.hour));
}

/// Appends date and time, as `Sat Feb 3 15:35:46 2024`.
#[tactic(auto, using(crate::proofs::Clips::then_written), unfolding(crate::specs::Text::date_and_time))]
pub(crate) fn write_date_and_time(line: &mut LineBuf, end: usize, at: &Civil)
    requires { HasEnd line.old end }
    ensures written { line.new ≡ clipped line.old end (text.date_and_time at.now) }
    ensures ends { HasEnd line.new end }
{
    write_short_weekday(line, end, at);
    write(line, end, b" ");
    write_short_month(line, end, at);
    write(line, end, b" ");
    write_decimal(line, end, u64::from(at.day));
    write(line, end, b" ");
    write_time(line, end, at);
    write(line, end, b" ");
    write_four_digits(line, end, at.year);
}

/// Appends date and time to the millisecond, as `2014-10-31 23:46:59.678`.
#[tactic(auto, using(crate::proofs::Clips::then_written), unfolding(crate::specs::Text::stamp))]
pub(crate) fn write_stamp(line: &mut LineBuf, end: usize, at: &Civil)
    requires { HasEnd line.old end }
    ensures written { line.new ≡ clipped line.old end (text.stamp at.now) }
    ensures ends { HasEnd line.new end }
{
    write_four_digits(line, end, at.year);
    write(line, end, b"-");
    write_two_digits(line, end, at.month);
    write(line, end, b"-");
    write_two_digits(line, end, at.day);
    write(line, end, b" ");
    write_time(line, end, at);
    write(line, end, b".");
    write_three_digits(line, end, at.nanosecond / 1_000_000);
}

/// Appends an offset from UTC in minutes, as `+02:00`.
#[inline(never)]
#[tactic(auto, using(crate::proofs::Clips::then_written), unfolding(crate::specs::Text::offset_text))]
pub(crate) fn write_offset(line: &mut LineBuf, end: usize, minutes: i16)
    requires { HasEnd line.old end }
    ensures written { line.new ≡ clipped line.old end (text.offset_text minutes) }
    ensures ends { HasEnd line.new end }
{
    write(line, end, offset_sign(minutes));
    let minutes = u32::from(minutes.unsigned_abs());
    write_two_digits(line, end, minutes / 60);
    write(line, end, b":");
    write_two_digits(line, end, minutes % 60);
}

/// The sign of an offset: `+` for zero too.
fn offset_sign(minutes: i16) -> &'static [u8]
    ensures { result.now ≡ text.offset_sign minutes }
{
    if minutes < 0 { b"-" } else { b"+" }
}
