use crate::flags::Flag;

/// Where a padded text stands. The test `skips_a_side_without_a_width` shows it.
#[derive(Clone, Copy, Debug, PartialEq, Eq)]
pub enum Side {
    /// At the right, behind the spaces.
    Right,
    /// At the left, before the spaces: `-`.
    Left,
    /// Between the spaces, an odd one behind it: `=`.
    Centre,
}

/// The width that a text is padded to with spaces, in bytes. The test `skips_a_side_without_a_width` shows it.
#[derive(Clone, Copy, Debug, PartialEq, Eq)]
pub struct Padding {
    /// 0 to 64.
    pub width: u8,
    pub side: Side,
    /// Whether a longer text is cut to the width: `!`.
    pub cut: bool,
}

/// One part of a line. The test `pads_the_function_before_an_unknown_flag` shows each.
#[derive(Clone, Copy, Debug, PartialEq, Eq)]
pub enum Item {
    /// A byte that stands for itself.
    Byte(u8),
    /// A flag, padded where it has a padding and the flag does not ignore it.
    Flag(Flag, Option<Padding>),
    /// `%` and a byte that is no flag.
    Unknown(u8),
    /// The function of the source padded to a width of 0 to 64 and not cut, and then a byte that is no flag:
    /// what `%8!x` stands for.
    Function { width: u8, side: Side, next: u8 },
}

/// The greatest width. A greater number is read as this one.
pub const WIDTH_MAX: u8 = 64;
