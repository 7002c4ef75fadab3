ghost use Rattle.std.specs.Prelude.{◌≡◌, decimal};
ghost use Rattle.alog_format.specs.Clip.{clipped, HasEnd};
ghost use Rattle.alog_format.specs.Line.{shown_by};
ghost use Rattle.alog_format.specs.Text as text;

use crate::civil::Civil;
use crate::clip::{
    write, write_decimal, write_digits, write_four_digits, write_signed, write_three_digits,
    write_two_digits,
};
use crate::line_buf::LineBuf;
use crate::names::{base, half_day, half_day_hour, month_name, weekday_name};
use crate::times::{
    write_date_and_time, write_half_day_time, write_offset, write_short_date, write_short_month,
    write_short_time, write_short_weekday, write_stamp, write_time,
};
use alog_msg::{Message, Source};
use alog_pattern::Flag;

/// What a line shows: a message, and what its sink adds.
#[derive(Clone, Copy)]
pub(crate) struct Facts<'a> {
    pub message: &'a Message,
    /// The name of the logger.
    pub name: &'a str,
    pub process: u32,
    /// Whole minutes east of UTC.
    pub offset: i16,
    /// Nanoseconds since the message before in the same sink.
    pub elapsed: u64,
    /// What a clock shows at the message's time.
    pub at: &'a Civil,
}

/// Appends the text of a flag. What needs a stack frame is not inlined here, so that most flags need none.
#[inline(never)]
#[tactic(auto, unfolding(crate::specs::Text::flag_text))]
pub(crate) fn write_flag(line: &mut LineBuf, end: usize, flag: Flag, facts: &Facts<'_>)
    requires { HasEnd line.old end }
    ensures written { line.new ≡ clipped line.old end (text.flag_text (shown_by facts.now) flag) }
    ensures ends { HasEnd line.new end }
{
    let message = facts.message;
    match flag {
        Flag::Text => write(line, end, message.text.as_bytes()),
        Flag::Thread => write_decimal(line, end, message.thread),
        Flag::Process => write_decimal(line, end, u64::from(facts.process)),
        Flag::Name => write(line, end, facts.name.as_bytes()),
        Flag::Level => write(line, end, message.level.name().as_bytes()),
        Flag::ShortLevel => write(line, end, message.level.short().as_bytes()),
        Flag::Offset => write_offset(line, end, facts.offset),
        Flag::Epoch => write_epoch(line, end, message.time),
        Flag::ElapsedNanoseconds => write_decimal(line, end, facts.elapsed),
        Flag::ElapsedMicroseconds => write_decimal(line, end, facts.elapsed / 1_000),
        Flag::ElapsedMilliseconds => write_decimal(line, end, facts.elapsed / 1_000_000),
        Flag::ElapsedSeconds => write_decimal(line, end, facts.elapsed / 1_000_000_000),
        Flag::Percent => write(line, end, b"%"),
        Flag::Default => write_default(line, end, facts),
        Flag::ColourStart | Flag::ColourEnd => write(line, end, b""),
        Flag::Location => write_location(line, end, message),
        Flag::FileBase => write_file_base(line, end, message),
        Flag::File => write_file(line, end, message),
        Flag::Line => write_source_line(line, end, message),
        Flag::Function => write_function(line, end, message),
        _ => write_time_flag(line, end, flag, facts.at),
    }
}

/// Appends the text of a flag of the time, and nothing for another flag.
#[inline(always)]
#[tactic(auto, unfolding(crate::specs::Text::time_text))]
fn write_time_flag(line: &mut LineBuf, end: usize, flag: Flag, at: &Civil)
    requires { HasEnd line.old end }
    ensures written { line.new ≡ clipped line.old end (text.time_text at.now flag) }
    ensures ends { HasEnd line.new end }
{
    match flag {
        Flag::ShortWeekday => write_short_weekday(line, end, at),
        Flag::Weekday => write(line, end, weekday_name(at.weekday)),
        Flag::ShortMonth => write_short_month(line, end, at),
        Flag::Month => write(line, end, month_name(at.month)),
        Flag::DateTime => write_date_and_time(line, end, at),
        Flag::ShortYear => write_two_digits(line, end, at.year),
        Flag::Year => write_four_digits(line, end, at.year),
        Flag::ShortDate => write_short_date(line, end, at),
        Flag::MonthNumber => write_two_digits(line, end, at.month),
        Flag::Day => write_two_digits(line, end, at.day),
        Flag::Hour => write_two_digits(line, end, at.hour),
        Flag::HalfDayHour => write_two_digits(line, end, half_day_hour(at.hour)),
        Flag::Minute => write_two_digits(line, end, at.minute),
        Flag::Second => write_two_digits(line, end, at.second),
        Flag::Milliseconds => write_three_digits(line, end, at.nanosecond / 1_000_000),
        Flag::Microseconds => write_digits(line, end, 6, at.nanosecond / 1_000),
        Flag::Nanoseconds => write_digits(line, end, 9, at.nanosecond),
        Flag::HalfDay => write(line, end, half_day(at.hour)),
        Flag::HalfDayTime => write_half_day_time(line, end, at),
        Flag::ShortTime => write_short_time(line, end, at),
        Flag::Time => write_time(line, end, at),
        _ => write(line, end, b""),
    }
}

/// Appends whole seconds since the epoch, rounded down.
#[inline(never)]
#[tactic(auto, unfolding(crate::specs::Text::epoch))]
fn write_epoch(line: &mut LineBuf, end: usize, time: i64)
    requires { HasEnd line.old end }
    ensures written { line.new ≡ clipped line.old end (text.epoch time) }
    ensures ends { HasEnd line.new end }
{
    write_signed(line, end, time.div_euclid(1_000_000_000));
}

/// Appends the file of the source, and nothing without a source.
fn write_file(line: &mut LineBuf, end: usize, message: &Message)
    requires { HasEnd line.old end }
    ensures written { line.new ≡ clipped line.old end (text.of_source (λ source. source.file) message.now.source) }
    ensures ends { HasEnd line.new end }
{
    let file = match &message.source {
        Some(source) => source.file().as_bytes(),
        None => b"",
    };
    write(line, end, file);
}

/// Appends that file after its last `/`.
fn write_file_base(line: &mut LineBuf, end: usize, message: &Message)
    requires { HasEnd line.old end }
    ensures written { line.new ≡ clipped line.old end (text.of_source (λ source. text.base source.file) message.now.source) }
    ensures ends { HasEnd line.new end }
{
    match &message.source {
        Some(source) => write(line, end, base(source.file().as_bytes())),
        None => write(line, end, b""),
    }
}

/// Appends the line of the source.
fn write_source_line(line: &mut LineBuf, end: usize, message: &Message)
    requires { HasEnd line.old end }
    ensures written { line.new ≡ clipped line.old end (text.of_source (λ source. decimal source.line) message.now.source) }
    ensures ends { HasEnd line.new end }
{
    match &message.source {
        Some(source) => write_decimal(line, end, u64::from(source.line())),
        None => write(line, end, b""),
    }
}

/// Appends the function of the source.
pub(crate) fn write_function(line: &mut LineBuf, end: usize, message: &Message)
    requires { HasEnd line.old end }
    ensures written { line.new ≡ clipped line.old end (text.of_source (λ source. source.function) message.now.source) }
    ensures ends { HasEnd line.new end }
{
    match &message.source {
        Some(source) => write(line, end, source.function().as_bytes()),
        None => write(line, end, b""),
    }
}

/// Appends file and line of the source.
#[inline(never)]
fn write_location(line: &mut LineBuf, end: usize, message: &Message)
    requires { HasEnd line.old end }
    ensures written { line.new ≡ clipped line.old end (text.of_source (λ source. text.location source.file source) message.now.source) }
    ensures ends { HasEnd line.new end }
{
    match &message.source {
        Some(source) => write_place(line, end, source.file().as_bytes(), source),
        None => write(line, end, b""),
    }
}

/// Appends a file, and the line of a source.
#[tactic(auto, using(crate::proofs::Clips::then_written), unfolding(crate::specs::Text::location))]
fn write_place(line: &mut LineBuf, end: usize, file: &[u8], source: &Source)
    requires { HasEnd line.old end }
    ensures written { line.new ≡ clipped line.old end (text.location file.now source.now) }
    ensures ends { HasEnd line.new end }
{
    write(line, end, file);
    write(line, end, b":");
    write_decimal(line, end, u64::from(source.line()));
}

/// Appends the default format.
#[inline(never)]
#[tactic(auto, using(crate::proofs::Clips::then_written), unfolding(crate::specs::Text::default_text))]
fn write_default(line: &mut LineBuf, end: usize, facts: &Facts<'_>)
    requires { HasEnd line.old end }
    ensures written { line.new ≡ clipped line.old end (text.default_text (shown_by facts.now)) }
    ensures ends { HasEnd line.new end }
{
    write_stamp_part(line, end, facts.at);
    write_name_part(line, end, facts.name.as_bytes());
    write_bracketed(line, end, facts.message.level.name().as_bytes());
    write_place_part(line, end, facts.message);
    write(line, end, facts.message.text.as_bytes());
}

/// Appends date and time in brackets.
fn write_stamp_part(line: &mut LineBuf, end: usize, at: &Civil)
    requires { HasEnd line.old end }
    ensures written { line.new ≡ clipped line.old end (text.bracketed (text.stamp at.now)) }
    ensures ends { HasEnd line.new end }
{
    write(line, end, b"[");
    write_stamp(line, end, at);
    write(line, end, b"] ");
}

/// Appends the name in brackets, unless it is empty.
fn write_name_part(line: &mut LineBuf, end: usize, name: &[u8])
    requires { HasEnd line.old end }
    ensures written { line.new ≡ clipped line.old end (text.name_part name.now) }
    ensures ends { HasEnd line.new end }
{
    match name {
        [] => write(line, end, b""),
        _ => write_bracketed(line, end, name),
    }
}

/// Appends base and line of the source in brackets, if there is one.
fn write_place_part(line: &mut LineBuf, end: usize, message: &Message)
    requires { HasEnd line.old end }
    ensures written { line.new ≡ clipped line.old end (text.place_part message.now.source) }
    ensures ends { HasEnd line.new end }
{
    match &message.source {
        Some(source) => write_bracketed_place(line, end, base(source.file().as_bytes()), source),
        None => write(line, end, b""),
    }
}

/// Appends a file and the line of a source in brackets.
fn write_bracketed_place(line: &mut LineBuf, end: usize, file: &[u8], source: &Source)
    requires { HasEnd line.old end }
    ensures written { line.new ≡ clipped line.old end (text.bracketed (text.location file.now source.now)) }
    ensures ends { HasEnd line.new end }
{
    write(line, end, b"[");
    write_place(line, end, file, source);
    write(line, end, b"] ");
}

/// Appends a text in brackets, with a space behind them.
fn write_bracketed(line: &mut LineBuf, end: usize, content: &[u8])
    requires { HasEnd line.old end }
    ensures written { line.new ≡ clipped line.old end (text.bracketed content.now) }
    ensures ends { HasEnd line.new end }
{
    write(line, end, b"[");
    write(line, end, content);
    write(line, end, b"] ");
}
