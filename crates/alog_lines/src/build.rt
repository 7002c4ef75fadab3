//! The first piece of a line, built character by character.
ghost use Rattle.std.specs.Prelude.{◌≡◌, ◌≤◌, ◌<◌, ◌+◌, ◌^◌, IsTrue, length};
ghost use Rattle.std.specs.String.{string_bytes, string_capacity};
ghost use Rattle.alog_lines.specs.Building.{Adds, Builds, IsFull, piece_built};
ghost use Rattle.alog_lines.specs.declared.cutter.TheConstants.{TEXT_MIN};

use bstr::decode_utf8;

/// How a piece was built.
#[derive(Clone, Copy, Debug, PartialEq, Eq)]
pub(crate) struct Built {
    /// How many bytes of the line it took.
    pub(crate) taken: usize,
    /// How many U+FFFD in it stand for what is no character.
    pub(crate) mended: usize,
}

/// Writes the first piece of the line that begins with these bytes over a text. Where the line goes on behind them, they are more than
/// a text has: what a part of a character at their end becomes does not fit then.
pub(crate) fn build(bytes: &[u8], limit: usize, text: &mut String) -> Built
    requires least { (TEXT_MIN ≤ limit) × (limit < 2 ^ 32) }
    requires room { limit ≤ string_capacity text.old }
    ensures builds { Builds limit bytes.now result.taken (piece_built (string_bytes text.new) result) }
    ensures room { string_capacity text.old ≤ string_capacity text.new }
{
    text.clear();
    let mut built = Built {
        taken: 0,
        mended: 0,
    };
    while built.taken < bytes.len() {
        if !adds(&bytes[built.taken..], limit, text, &mut built) {
            break;
        }
    }
    built
}

/// Writes the first character of these bytes behind a text, or U+FFFD for what is none, if it fits.
fn adds(rest: &[u8], limit: usize, text: &mut String, built: &mut Built) -> bool
    requires some { 0 < length rest.now }
    requires limit { limit < 2 ^ 32 }
    requires fits { length (string_bytes text.old) ≤ limit }
    requires room { limit ≤ string_capacity text.old }
    requires few { (built.old.mended ≤ built.old.taken) × (built.old.taken + length rest.now < 2 ^ 64) }
    ensures added { IsTrue result → Adds limit rest.now (piece_built (string_bytes text.old) built.old) built.old.taken
        (piece_built (string_bytes text.new) built.new) built.new.taken }
    ensures full { ¬ IsTrue result → IsFull limit rest.now (piece_built (string_bytes text.old) built.old)
        × (string_bytes text.new ≡ string_bytes text.old) × (built.new ≡ built.old) }
    ensures room { string_capacity text.old ≤ string_capacity text.new }
{
    let (found, size) = decode_utf8(rest);
    let c = found.unwrap_or('\u{FFFD}');
    if text.len() + c.len_utf8() > limit {
        return false;
    }
    text.push(c).unwrap();
    built.mended += usize::from(found.is_none());
    built.taken += size;
    true
}
