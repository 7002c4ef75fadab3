ghost use Rattle.std.specs.Prelude.{◌≡◌, ◌+◌, ◌-◌, ◌≤◌, length, max, if◌then◌else◌};
ghost use Rattle.alog_pattern.specs.Padding.{pad as padded_text, spaces_before as spaces_before_of};
ghost use Rattle.alog_format.specs.Buffer.{appended};
ghost use Rattle.alog_format.specs.Clip.{limit_of, padded_from, surrounded};
ghost use Rattle.alog_format.specs.Line.{shown_by};
ghost use Rattle.alog_format.specs.Text.{flag_text};

use crate::flag_texts::{Facts, write_flag};
use crate::line_buf::LineBuf;
use alog_pattern::{Flag, Padding, Side};

/// Appends the text of a flag, padded.
pub(crate) fn write_padded(line: &mut LineBuf, padding: Padding, flag: Flag, facts: &Facts<'_>)
    requires { length line.old.bytes
        + length (padded_text padding.width padding.side padding.cut (flag_text (shown_by facts.now) flag))
        ≤ line.old.capacity }
    ensures { line.new
        ≡ appended line.old (padded_text padding.width padding.side padding.cut (flag_text (shown_by facts.now) flag)) }
{
    let start = line.len();
    let end = end_of(line, padding);
    write_flag(line, end, flag, facts);
    pad(line, start, usize::from(padding.width), padding.side);
}

/// How far a text may go that is padded: as far as the width where it is cut.
fn end_of(line: &LineBuf, padding: Padding) -> usize
    requires { length line.now.bytes + (if padding.cut then padding.width else 0) ≤ line.now.capacity }
    ensures { result ≡ limit_of line.now padding }
{
    let capacity = line.capacity();
    if padding.cut {
        line.len() + usize::from(padding.width)
    } else {
        capacity
    }
}

/// Pads what was written from `start` on, which is not cut.
pub(crate) fn pad(line: &mut LineBuf, start: usize, width: usize, side: Side)
    requires start { start ≤ length line.old.bytes }
    requires fits { start + max width (length line.old.bytes - start) ≤ line.old.capacity }
    ensures { line.new ≡ padded_from line.old start width side }
{
    let len = line.len() - start;
    if len < width {
        surround(line, start, width - len, side);
    }
}

/// Puts `missing` spaces round what was written from `start` on.
fn surround(line: &mut LineBuf, start: usize, missing: usize, side: Side)
    requires start { start ≤ length line.old.bytes }
    requires fits { length line.old.bytes + missing ≤ line.old.capacity }
    ensures { line.new ≡ surrounded line.old start missing side }
{
    let before = spaces_before(side, missing);
    let _ = line.shift(start, before);
    let _ = line.shift(line.len(), missing - before);
}

/// How many of the spaces stand before the text. An odd one that is left stands behind a centred text.
fn spaces_before(side: Side, missing: usize) -> usize
    ensures value { result ≡ spaces_before_of side missing }
    ensures within { result ≤ missing }
{
    match side {
        Side::Right => missing,
        Side::Left => 0,
        Side::Centre => missing / 2,
    }
}
