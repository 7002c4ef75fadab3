ghost use Rattle.std.specs.Prelude.{◌≡◌, ◌<◌, ◌≤◌, ◌⊎◌, ℕ, IfOk, IsSome, length};
ghost use Rattle.std.specs.List.{AllByRecursion};
ghost use Rattle.alog_msg.specs.Message.{fields_of, source_of, HasLongField};
ghost use Rattle.alog_msg.specs.Block.{room_in, HasRooms, IsSmallRoom};

use crate::limits::{
    FILE_MAX, FUNCTION_MAX, LARGE_ROOM, MIDDLE_ROOM, SHORT_TEXT_MAX, SMALL_ROOM, TEXT_LIMIT_MAX,
};
use crate::message::Message;
use crate::source::{Source, SourceRef};
use crate::text::{Text, lie_alike};
use std::alloc::{AllocError, Global};
use std::mem;

/// What a block keeps beside its item: the rooms and the source that the item does not use.
#[derive(Debug, Drop)]
pub(crate) struct Spare {
    /// The most bytes of a text.
    pub limit: usize,
    pub small: Option<String>,
    pub middle: Option<String>,
    pub large: Option<String>,
    pub source: Option<Source>,
    /// A word that nobody reads, which makes this larger than what the C library keeps apart as its smallest pieces: it joins those with what lies
    /// around them each time that a larger piece comes back, so that to let a queue of blocks go took a quarter to a third longer.
    pub _beside: u64,
}

/// A room of so many bytes, where a limit lets texts through that are longer than the shorter rooms.
fn new_room(
    alloc: Global,
    limit: usize,
    shorter: usize,
    room: usize,
) -> Result<Option<String>, AllocError>
    ensures { IfOk result (λ r. shorter < limit → room ≤ room_in r) }
{
    if limit <= shorter {
        return Ok(None);
    }
    Ok(Some(String::with_capacity(alloc, room)?))
}

/// The room for the shortest of the long texts, where a limit lets long ones through.
pub(crate) fn small_room(alloc: Global, limit: usize) -> Result<Option<String>, AllocError>
    ensures { IfOk result (IsSmallRoom limit) }
{
    new_room(alloc, limit, SHORT_TEXT_MAX, SMALL_ROOM)
}

/// So many such rooms, taken one after another.
pub(crate) fn small_rooms(
    alloc: Global,
    count: usize,
    limit: usize,
) -> Result<Vec<Option<String>>, AllocError>
    ensures each { IfOk result (λ v. AllByRecursion (IsSmallRoom limit) v.items) }
    ensures count { IfOk result (λ v. length v.items ≡ count) }
{
    let mut rooms = Vec::with_capacity(alloc, count)?;
    for _made in 0..count {
        rooms.push_reserved(small_room(alloc, limit)?);
    }
    Ok(rooms)
}

impl Spare {
    /// Takes memory for all texts of at most so many bytes, but for those of the small room, which is given, and for a source.
    pub fn new(alloc: Global, limit: usize, small: Option<String>) -> Result<Spare, AllocError>
        requires { IsSmallRoom limit small }
        ensures limit { IfOk result (λ s. s.limit ≡ limit) }
        ensures rooms { IfOk result (HasRooms 0) }
        ensures source { IfOk result (λ s. IsSome s.source) }
    {
        Ok(Spare {
            limit,
            small,
            middle: new_room(alloc, limit, SMALL_ROOM, MIDDLE_ROOM)?,
            large: new_room(alloc, limit, MIDDLE_ROOM, LARGE_ROOM)?,
            source: Some(Source::blank(alloc)?),
            _beside: 0,
        })
    }

    /// Copies a text, into one of the rooms if it is long.
    pub fn text(&mut self, text: &str) -> Text
        requires rooms { HasRooms 0 self.old }
        requires fits { length text.now ≤ self.old.limit }
        requires limit { self.old.limit ≤ TEXT_LIMIT_MAX }
        ensures text { result ≡ text.now }
        ensures rooms { HasRooms (length text.now) self.new }
        ensures limit { self.new.limit ≡ self.old.limit }
        ensures source { self.new.source ≡ self.old.source }
    {
        if text.len() <= SHORT_TEXT_MAX {
            return Text::short(text);
        }
        let room = if text.len() <= SMALL_ROOM {
            self.small.take()
        } else if text.len() <= MIDDLE_ROOM {
            self.middle.take()
        } else {
            self.large.take()
        };
        Text::in_room(room.unwrap(), text)
    }

    /// Writes a text over another.
    #[inline(always)]
    pub fn write_text(&mut self, kept: &mut Text, text: &str)
        requires rooms { HasRooms (length kept.old) self.old }
        requires fits { length text.now ≤ self.old.limit }
        requires limit { self.old.limit ≤ TEXT_LIMIT_MAX }
        ensures text { kept.new ≡ text.now }
        ensures rooms { HasRooms (length text.now) self.new }
        ensures limit { self.new.limit ≡ self.old.limit }
        ensures source { self.new.source ≡ self.old.source }
    {
        if lie_alike(kept.len(), text.len()) {
            kept.write(text);
        } else {
            let old = mem::replace(kept, Text::short(""));
            self.take_text(old);
            *kept = self.text(text);
        }
    }

    /// Writes a source, or none, over another, or none.
    #[inline(always)]
    pub fn write_source(&mut self, kept: &mut Option<Source>, source: Option<SourceRef<'_>>)
        requires here { IsSome self.old.source ⊎ IsSome kept.old }
        requires fits { ¬ (HasLongField source) }
        ensures source { kept.new ≡ source_of source.entry }
        ensures here { IsSome self.new.source ⊎ IsSome kept.new }
        ensures limit { self.new.limit ≡ self.old.limit }
        ensures rooms { (n : ℕ) → HasRooms n self.old → HasRooms n self.new }
    {
        if let Some(kept) = &mut *kept
            && let Some(source) = source
        {
            kept.write(source);
            return;
        }
        if let Some(kept) = kept.take() {
            self.source = Some(kept);
        }
        *kept = self.source(source);
    }

    /// Takes back what a message used.
    pub fn take_back(&mut self, message: Message)
        requires rooms { HasRooms (length message.text) self.old }
        ensures rooms { HasRooms 0 self.new }
        ensures limit { self.new.limit ≡ self.old.limit }
        ensures source { (IsSome self.old.source ⊎ IsSome message.source) → IsSome self.new.source }
    {
        let Message { text, source, .. } = message;
        self.take_text(text);
        if let Some(source) = source {
            self.source = Some(source);
        }
    }

    /// Takes the room of a text back.
    fn take_text(&mut self, text: Text)
        requires rooms { HasRooms (length text) self.old }
        ensures rooms { HasRooms 0 self.new }
        ensures limit { self.new.limit ≡ self.old.limit }
        ensures source { self.new.source ≡ self.old.source }
    {
        let len = text.len();
        if let Some(room) = text.into_room() {
            if len <= SMALL_ROOM {
                self.small = Some(room);
            } else if len <= MIDDLE_ROOM {
                self.middle = Some(room);
            } else {
                self.large = Some(room);
            }
        }
    }

    /// Copies a source, if there is one, into that which is kept here.
    #[inline(always)]
    pub fn source(&mut self, source: Option<SourceRef<'_>>) -> Option<Source>
        requires here { IsSome self.old.source }
        requires fits { ¬ (HasLongField source) }
        ensures source { result ≡ source_of source.entry }
        ensures here { IsSome self.new.source ⊎ IsSome result }
        ensures rest { self.new ≡ record self.old { source = self.new.source } }
    {
        let source = source?;
        let mut kept = self.source.take().unwrap();
        kept.write(source);
        Some(kept)
    }
}
