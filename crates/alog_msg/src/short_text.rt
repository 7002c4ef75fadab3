ghost use Rattle.std.specs.Prelude.{◌≡◌, ◌≤◌, length};

use crate::limits::SHORT_TEXT_MAX;
use std::marker::Model;
use std::str;

/// A text that lies in the value itself, behind its length. Contracts see it as the list of its bytes.
///
/// It is one byte wider than the longest of these texts, and may lie at any address. So a text lies in 72 bytes, with the mark of
/// where it lies and no byte left over, and a block in 128.
#[derive(Drop)]
pub(crate) struct ShortText {
    len: u8,
    bytes: [u8; SHORT_TEXT_MAX],
}

impl Model for ShortText {
    ghost use Rattle.std.specs.Prelude.{◌≡◌, ◌≤◌, ℕ, List, length, take, IsUtf8};
    ghost use Rattle.alog_msg.specs.declared.limits.TheConstants.{SHORT_TEXT_MAX};

    ghost Value = { List ℕ };

    ghost view = { λ t. take t.len t.bytes };

    ghost invariant = { λ t. (t.len ≤ SHORT_TEXT_MAX) × (length t.bytes ≡ SHORT_TEXT_MAX) × ∥ IsUtf8 (take t.len t.bytes) ∥₁ };
}

impl ShortText {
    pub fn copy_of(text: &str) -> ShortText
        requires { length text.now ≤ SHORT_TEXT_MAX }
        ensures { result ≡ text.now }
    {
        let mut bytes = [0; SHORT_TEXT_MAX];
        bytes[..text.len()].copy_from_slice(text.as_bytes());
        ShortText {
            len: text.len() as u8,
            bytes,
        }
    }

    /// Writes another text over it.
    #[inline(always)]
    pub fn write(&mut self, text: &str)
        requires { length text.now ≤ SHORT_TEXT_MAX }
        ensures { self.new ≡ text.now }
    {
        self.bytes[..text.len()].copy_from_slice(text.as_bytes());
        self.len = text.len() as u8;
    }

    pub fn as_str(&self) -> &str
        ensures value { result.now ≡ self.now }
        ensures fits { length result.now ≤ SHORT_TEXT_MAX }
    {
        // What was copied is a text, as the invariant says.
        unsafe { str::from_utf8_unchecked(&self.bytes[..self.len as usize]) }
    }
}
