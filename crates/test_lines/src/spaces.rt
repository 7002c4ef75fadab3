//! Padding as a plain program.
ghost use Rattle.std.specs.Prelude.{◌≡◌, ◌+◌, ◌-◌, ◌≤◌};
ghost use Rattle.alog_pattern.specs.declared.items.Side.TheVariants.{Centre, Left, Right};

use alog_pattern::Side;

/// How many spaces stand before and behind a text of so many bytes that is padded to this width.
pub fn spaces_round(width: usize, side: Side, len: usize) -> (usize, usize)
    ensures all { result.0 + result.1 ≡ width - len }
    ensures right { side ≡ Right → result.1 ≡ 0 }
    ensures left { side ≡ Left → result.0 ≡ 0 }
    ensures centre { side ≡ Centre → (result.0 ≤ result.1) × (result.1 ≤ result.0 + 1) }
{
    let all = width.saturating_sub(len);
    let before = match side {
        Side::Right => all,
        Side::Left => 0,
        Side::Centre => all / 2,
    };
    (before, all - before)
}
