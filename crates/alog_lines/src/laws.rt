//! What is true of the pieces of each line.
ghost use Rattle.alog_lines.specs.Laws.{LinesEndOnce, PiecesAreTheLine, PiecesFit, ShortLinesAreWhole};

/// The texts of a line's pieces, one behind the other, are the line, with U+FFFD for what is no character in UTF-8.
/// It does nothing: its contract is the law.
pub fn pieces_are_the_line()
    ensures { PiecesAreTheLine }
{}

/// Each piece is a text in UTF-8 of at most so many bytes.
/// It does nothing: its contract is the law.
pub fn pieces_fit()
    ensures { PiecesFit }
{}

/// A short line in UTF-8 is one piece, as it is.
/// It does nothing: its contract is the law.
pub fn short_lines_are_whole()
    ensures { ShortLinesAreWhole }
{}

/// As many pieces end a line as there are lines.
/// It does nothing: its contract is the law.
pub fn lines_end_once()
    ensures { LinesEndOnce }
{}
