ghost use Rattle.std.specs.Prelude.{◌≡◌, ◌≤◌, ◌+◌, ◌%◌, decimal};
ghost use Rattle.std.specs.Fmt.{signed_decimal};
ghost use Rattle.std.specs.Str.{byte};
ghost use Rattle.alog_format.specs.Clip.{clipped, HasEnd};
ghost use Rattle.alog_format.specs.Text.{digits};

use crate::line_buf::LineBuf;
use itoa::Buffer;

/// Appends the bytes as far as the end. The copy is a loop, so it is not inlined.
#[inline(never)]
#[tactic(auto, unfolding(crate::specs::Clip::clipped, crate::specs::Clip::HasEnd))]
pub(crate) fn write(line: &mut LineBuf, end: usize, bytes: &[u8])
    requires { HasEnd line.old end }
    ensures written { line.new ≡ clipped line.old end bytes.now }
    ensures ends { HasEnd line.new end }
{
    let count = (end - line.len()).min(bytes.len());
    let _ = line.put(&bytes[..count]);
}

/// Appends a number in decimal.
pub(crate) fn write_decimal(line: &mut LineBuf, end: usize, number: u64)
    requires { HasEnd line.old end }
    ensures written { line.new ≡ clipped line.old end (decimal number) }
    ensures ends { HasEnd line.new end }
{
    write(line, end, Buffer::new().format(number).as_bytes());
}

/// Appends a signed number in decimal.
pub(crate) fn write_signed(line: &mut LineBuf, end: usize, number: i64)
    requires { HasEnd line.old end }
    ensures written { line.new ≡ clipped line.old end (signed_decimal number) }
    ensures ends { HasEnd line.new end }
{
    write(line, end, Buffer::new().format(number).as_bytes());
}

/// Appends the last two decimal digits of a number, at once where they fit.
#[inline(always)]
#[tactic(auto, unfolding(crate::specs::Clip::clipped, crate::specs::Clip::HasEnd, crate::specs::Text::digits))]
pub(crate) fn write_two_digits(line: &mut LineBuf, end: usize, number: u32)
    requires { HasEnd line.old end }
    ensures written { line.new ≡ clipped line.old end (digits 2 number) }
    ensures ends { HasEnd line.new end }
{
    if 2 <= end - line.len() {
        let _ = line.put(&[digit(number / 10), digit(number)]);
    } else {
        write_digits(line, end, 2, number);
    }
}

/// Appends the last three decimal digits of a number, at once where they fit.
#[inline(always)]
#[tactic(auto, unfolding(crate::specs::Clip::clipped, crate::specs::Clip::HasEnd, crate::specs::Text::digits))]
pub(crate) fn write_three_digits(line: &mut LineBuf, end: usize, number: u32)
    requires { HasEnd line.old end }
    ensures written { line.new ≡ clipped line.old end (digits 3 number) }
    ensures ends { HasEnd line.new end }
{
    if 3 <= end - line.len() {
        let _ = line.put(&[digit(number / 100), digit(number / 10), digit(number)]);
    } else {
        write_digits(line, end, 3, number);
    }
}

/// Appends the last four decimal digits of a number, at once where they fit.
#[inline(always)]
#[tactic(auto, unfolding(crate::specs::Clip::clipped, crate::specs::Clip::HasEnd, crate::specs::Text::digits))]
pub(crate) fn write_four_digits(line: &mut LineBuf, end: usize, number: u32)
    requires { HasEnd line.old end }
    ensures written { line.new ≡ clipped line.old end (digits 4 number) }
    ensures ends { HasEnd line.new end }
{
    if 4 <= end - line.len() {
        let _ = line.put(&[
            digit(number / 1_000),
            digit(number / 100),
            digit(number / 10),
            digit(number),
        ]);
    } else {
        write_digits(line, end, 4, number);
    }
}

/// The last decimal digit of a number.
fn digit(number: u32) -> u8
    ensures { result ≡ byte "0" + number % 10 }
{
    b'0' + (number % 10) as u8
}

/// Appends the last `count` decimal digits of a number, at most nine, as far as the end.
#[inline(never)]
#[tactic(auto, unfolding(crate::specs::Text::digits))]
pub(crate) fn write_digits(line: &mut LineBuf, end: usize, count: usize, number: u32)
    requires end { HasEnd line.old end }
    requires count { count ≤ 9 }
    ensures written { line.new ≡ clipped line.old end (digits count number) }
    ensures ends { HasEnd line.new end }
{
    let mut text = [b'0'; 9];
    let mut rest = number;
    let mut left = count;
    while 0 < left {
        left -= 1;
        text[left] = digit(rest);
        rest /= 10;
    }
    write(line, end, &text[..count]);
}
