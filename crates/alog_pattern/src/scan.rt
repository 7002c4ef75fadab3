use crate::flags::Flag;
use crate::items::{Item, Padding, Side, WIDTH_MAX};

/// Where the reading of a pattern stands.
#[derive(Clone, Copy)]
pub(crate) enum Scan {
    /// Behind a whole piece, or at the start.
    Between,
    /// Behind the `%` of a flag.
    Opened,
    /// Behind its side.
    Sided(Side),
    /// Behind a digit of its width.
    Wide(Side, u8),
    /// Behind the `!` that follows its width.
    Cut(Side, u8),
}

impl Scan {
    ghost use Rattle.std.specs.Prelude.{◌≡◌};
    ghost use Rattle.alog_pattern.specs.Scan.{step};

    /// Where one more byte leaves the reading, and the item that it completes.
    pub(crate) fn step(self, byte: u8) -> (Scan, Option<Item>)
        ensures { result ≡ step self byte }
    {
        match (self, byte) {
            (Scan::Between, b'%') => (Scan::Opened, None),
            (Scan::Between, _) => (Scan::Between, Some(Item::Byte(byte))),
            (Scan::Opened, b'-') => (Scan::Sided(Side::Left), None),
            (Scan::Opened, b'=') => (Scan::Sided(Side::Centre), None),
            (Scan::Opened, b'0'..=b'9') => (Scan::Wide(Side::Right, byte - b'0'), None),
            (Scan::Sided(side), b'0'..=b'9') => (Scan::Wide(side, byte - b'0'), None),
            (Scan::Wide(side, width), b'0'..=b'9') => (Scan::Wide(side, wider(width, byte)), None),
            (Scan::Wide(side, width), b'!') => (Scan::Cut(side, width), None),
            (Scan::Opened | Scan::Sided(_), _) => (Scan::Between, Some(completed(None, byte))),
            (Scan::Wide(side, width), _) => {
                let padding = Padding {
                    width,
                    side,
                    cut: false,
                };
                (Scan::Between, Some(completed(Some(padding), byte)))
            }
            (Scan::Cut(side, width), _) => {
                let padding = Padding {
                    width,
                    side,
                    cut: true,
                };
                (Scan::Between, Some(completed(Some(padding), byte)))
            }
        }
    }
}

ghost use Rattle.std.specs.Prelude.{◌≡◌, ◌≤◌, ◌+◌, ◌-◌, ◌*◌, min};
ghost use Rattle.alog_pattern.specs.Scan.{completed as completed_item};

/// A width with one more digit, at most the greatest.
fn wider(width: u8, digit: u8) -> u8
    requires low { 48 ≤ digit }
    requires high { digit ≤ 57 }
    ensures { result ≡ min WIDTH_MAX (10 * width + (digit - 48)) }
{
    let width = u16::from(width) * 10 + u16::from(digit - b'0');
    width.min(u16::from(WIDTH_MAX)) as u8
}

/// The item that a flag byte completes, behind a padding or none.
fn completed(padding: Option<Padding>, byte: u8) -> Item
    ensures { result ≡ completed_item padding byte }
{
    if let Some(flag) = Flag::of(byte) {
        return Item::Flag(flag, padding);
    }
    match padding {
        Some(padding) if padding.cut => Item::Function {
            width: padding.width,
            side: padding.side,
            next: byte,
        },
        _ => Item::Unknown(byte),
    }
}
