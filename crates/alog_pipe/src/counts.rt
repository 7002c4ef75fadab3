//! What is counted of a pipe.
ghost use Rattle.std.specs.Prelude.{◌≡◌};
ghost use Rattle.alog_pipe.specs.Counted.{with_piece};

use alog_lines::Cut;

/// What a pipe read, modulo 2^64.
#[derive(Clone, Copy, Debug, PartialEq, Eq, Drop)]
pub struct Counts {
    /// Lines, of which the last may lack its newline.
    pub lines: u64,
    /// The bytes of their texts: without newlines, and with what stands for bytes that are no character.
    pub bytes: u64,
    /// Each U+FFFD that stands for such bytes.
    pub mended: u64,
    /// How often a line was cut, since it was too long for a text.
    pub cut: u64,
}

impl Counts {
    /// Nothing.
    pub(crate) fn new() -> Counts
        ensures { result ≡ record { lines = 0; bytes = 0; mended = 0; cut = 0 } }
    {
        Counts {
            lines: 0,
            bytes: 0,
            mended: 0,
            cut: 0,
        }
    }

    /// Counts a piece, of which this was found and this is the text.
    pub(crate) fn see(&mut self, cut: Cut, text: &str)
        ensures { self.new ≡ with_piece self.old (record { text = text.now; mended = cut.mended; ends = cut.ends }) }
    {
        self.bytes = self.bytes.wrapping_add(text.len() as u64);
        self.mended = self.mended.wrapping_add(cut.mended as u64);
        if cut.ends {
            self.lines = self.lines.wrapping_add(1);
        } else {
            self.cut = self.cut.wrapping_add(1);
        }
    }
}
