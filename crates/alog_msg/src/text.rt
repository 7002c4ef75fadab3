ghost use Rattle.std.specs.Prelude.{◌≡◌, ◌≤◌, ◌<◌, ◌↔◌, [], IsOk, IfOk, IfSome, IsSome, IsTrue, length};
ghost use Rattle.std.specs.String.{string_capacity};
ghost use Rattle.alog_msg.specs.Room.{IsRoomFor, LieAlike};

use crate::limits::{LARGE_ROOM, MIDDLE_ROOM, SHORT_TEXT_MAX, SMALL_ROOM};
use crate::short_text::ShortText;
use std::alloc::{AllocError, Global};
use std::fmt;
use std::marker::Model;

/// The text of a message or of a field of it, in UTF-8. Contracts see it as the list of its bytes.
///
/// ```text
/// let text = Text::copy_of(alloc, "né")?;
/// assert_eq!(rt; text.len(), 3);
/// assert!(rt; text.as_str() == "né");
/// ```
/// The tests `text_with_its_bytes` and `copies_of_short_and_long_texts` run it.
pub struct Text {
    kept: Kept,
}

/// Where the bytes of a text are: a short one, as most messages have, lies in the value itself. So it takes no memory, and it
/// goes through a queue with its message. A long one lies in a room of one of three sizes, which its length tells.
#[derive(Drop)]
enum Kept {
    Short(ShortText),
    Long(String),
}

impl Model for Text {
    ghost use Rattle.std.specs.Prelude.{ℕ, List};
    ghost use Rattle.alog_msg.specs.Text.{bytes_of, HasItsRoom};

    ghost Value = { List ℕ };

    ghost view = { λ t. bytes_of t.kept };

    ghost invariant = { λ t. HasItsRoom t.kept };
}

// In one place, so that who drops a message has one way out, wherever its text lies.
impl Drop for Text {
    fn drop(self) {
        let Text { kept } = self;
        drop(kept);
    }
}

// As a `str` is: what matters is the text, and not where it lies.
impl fmt::Debug for Text {
    fn fmt<W: fmt::Write>(&self, f: &mut fmt::Formatter<W>) -> fmt::Result {
        fmt::Debug::fmt(self.as_str(), f)
    }
}

impl Text {
    /// Copies a text. One of at most `SHORT_TEXT_MAX` bytes takes no memory, and a longer one the room that its length asks for.
    pub fn copy_of(alloc: Global, text: &str) -> Result<Text, AllocError>
        ensures copy { IfOk result (λ t. t ≡ text.now) }
        ensures short { length text.now ≤ SHORT_TEXT_MAX → IsOk result }
    {
        if text.len() <= SHORT_TEXT_MAX {
            return Ok(Text::short(text));
        }
        let room = String::with_capacity(alloc, room_for(text.len()))?;
        Ok(Text::in_room(room, text))
    }

    /// A copy of a short text, which takes no memory.
    pub(crate) fn short(text: &str) -> Text
        requires { length text.now ≤ SHORT_TEXT_MAX }
        ensures { result ≡ text.now }
    {
        Text {
            kept: Kept::Short(ShortText::copy_of(text)),
        }
    }

    /// A copy of a long text in this room, which takes no memory.
    pub(crate) fn in_room(room: String, text: &str) -> Text
        requires long { SHORT_TEXT_MAX < length text.now }
        requires fits { IsRoomFor (length text.now) (string_capacity room) }
        ensures { result ≡ text.now }
    {
        let mut room = room;
        room.clear();
        room.push_str(text).unwrap();
        Text {
            kept: Kept::Long(room),
        }
    }

    /// Writes another text over it, in the same place.
    #[inline(always)]
    pub(crate) fn write(&mut self, text: &str)
        requires alike { LieAlike (length self.old) (length text.now) }
        requires fits { length text.now ≤ LARGE_ROOM }
        ensures { self.new ≡ text.now }
    {
        match &mut self.kept {
            Kept::Short(short) => short.write(text),
            Kept::Long(room) => {
                room.clear();
                room.push_str(text).unwrap();
            }
        }
    }

    /// The room in which a long text lies, for another text.
    pub(crate) fn into_room(self) -> Option<String>
        ensures long { IsSome result ↔ (SHORT_TEXT_MAX < length self) }
        ensures fits { IfSome result (λ room. IsRoomFor (length self) (string_capacity room)) }
    {
        let Text { kept } = self;
        match kept {
            Kept::Short(_) => None,
            Kept::Long(room) => Some(room),
        }
    }

    pub fn as_str(&self) -> &str
        ensures { result.now ≡ self.now }
    {
        match &self.kept {
            Kept::Short(short) => short.as_str(),
            Kept::Long(string) => string.as_str(),
        }
    }

    pub fn as_bytes(&self) -> &[u8]
        ensures { result.now ≡ self.now }
    {
        self.as_str().as_bytes()
    }

    /// The number of bytes.
    pub fn len(&self) -> usize
        ensures { result ≡ length self.now }
    {
        self.as_str().len()
    }

    pub fn is_empty(&self) -> bool
        ensures { IsTrue result ↔ (self.now ≡ []) }
    {
        self.as_str().is_empty()
    }
}

/// How many bytes a room has in which a text of so many is to lie.
fn room_for(len: usize) -> usize
    ensures { IsRoomFor len result }
{
    if len <= SMALL_ROOM {
        SMALL_ROOM
    } else if len <= MIDDLE_ROOM {
        MIDDLE_ROOM
    } else if len <= LARGE_ROOM {
        LARGE_ROOM
    } else {
        len
    }
}

/// Texts of these lengths lie alike: both in the value, or in rooms of one size.
pub(crate) fn lie_alike(len: usize, other: usize) -> bool
    ensures { IsTrue result ↔ LieAlike len other }
{
    (len <= SHORT_TEXT_MAX) == (other <= SHORT_TEXT_MAX)
        && (len <= SMALL_ROOM) == (other <= SMALL_ROOM)
        && (len <= MIDDLE_ROOM) == (other <= MIDDLE_ROOM)
}
