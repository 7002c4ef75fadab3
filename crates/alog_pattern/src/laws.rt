ghost use Rattle.std.specs.Prelude.{ℕ, List};
ghost use Rattle.alog_pattern.specs.Grammar.{HasOneReading};
ghost use Rattle.alog_pattern.specs.Padding.{HasPaddedLength};

/// Each string has exactly one item list under the grammar.
pub fn one_reading()
    ensures { (bytes : List ℕ) → HasOneReading bytes }
{}

/// A padded text has at least the width, and exactly the width if it is cut.
pub fn padded_length()
    ensures { HasPaddedLength }
{}
