//! What of a line hangs on the name of the logger and on the level alone.
ghost use Rattle.std.specs.Prelude.{◌≡◌, ◌+◌, ◌≤◌, ◌<◌, true, All, IsTrue, List, length, sum_by, take};
ghost use Rattle.std.specs.List.{flat_map};
ghost use Rattle.alog_pattern.specs.Length.{item_len};
ghost use Rattle.alog_format.specs.Buffer.{appended};
ghost use Rattle.alog_format.specs.Line.{shown_by, item_text, IsShowable};
ghost use Rattle.alog_format.specs.Naming as words;

use crate::flag_texts::Facts;
use crate::line_buf::LineBuf;
use crate::lines::{write_behind, write_items};
use alog_msg::{LOGGER_NAME_MAX, Level, Message, are_same};
use alog_pattern::{Flag, Item};
use arrayvec::ArrayVec;
use std::array;

/// The most bytes of a line that are remembered for a name and a level.
const NAMED_MAX: usize = 128;

/// A slot: appends items of which the first hang on name and level alone, and remembers the text of those for the name and
/// the level of its last line.
#[derive(Debug, Drop)]
pub(crate) struct Naming {
    /// Its last line's name; empty at first.
    pub name: ArrayVec<u8, LOGGER_NAME_MAX>,
    /// That line's level; `Off` at first.
    pub level: Level,
    /// How many of the first items are remembered.
    pub count: usize,
    /// Their text for that name and level.
    pub text: ArrayVec<u8, NAMED_MAX>,
    /// Whether the next line of that name and level is the second one in a row, for which the items are worth remembering.
    pub is_fresh: bool,
}

impl Naming {
    /// Remembers no item.
    pub fn new() -> Naming
        ensures { (items : List Item) → words.Remembers items result }
    {
        Naming {
            name: ArrayVec::new(),
            level: Level::Off,
            count: 0,
            text: ArrayVec::new(),
            is_fresh: true,
        }
    }

    /// Appends the texts of items in order, as `write_items` does. They are the same items at each line.
    pub fn write(
        &mut self,
        line: &mut LineBuf,
        items: &[Item],
        text_limit: usize,
        facts: &Facts<'_>,
    )
        requires showable { IsShowable text_limit (shown_by facts.now) }
        requires room { length line.old.bytes + sum_by (item_len text_limit) items.now < line.old.capacity }
        requires known { words.Remembers items.now self.old }
        ensures written { line.new ≡ appended line.old (flat_map (item_text (shown_by facts.now)) items.now) }
        ensures room_left { length line.new.bytes < line.new.capacity }
        ensures known { words.Remembers items.now self.new }
    {
        self.turn_to(line, items, text_limit, facts);
        write_behind(
            line,
            self.text.as_slice(),
            self.count,
            items,
            text_limit,
            facts,
        );
    }

    /// Turns to the name and the level of a line, and remembers the first items at the second line of these in a row. The
    /// buffer is as it was.
    fn turn_to(&mut self, line: &mut LineBuf, items: &[Item], text_limit: usize, facts: &Facts<'_>)
        requires showable { IsShowable text_limit (shown_by facts.now) }
        requires room { length line.old.bytes + sum_by (item_len text_limit) items.now < line.old.capacity }
        requires known { words.Remembers items.now self.old }
        ensures name { self.new.name.items ≡ facts.now.name.now }
        ensures level { self.new.level ≡ facts.now.message.now.level }
        ensures known { words.Remembers items.now self.new }
        ensures line { line.new ≡ line.old }
    {
        if self.show(facts.name, facts.message.level) && self.is_fresh {
            self.remember(line, items, text_limit, facts);
        }
    }

    /// Takes the name and the level of a line, and answers whether they are those of the last one.
    fn show(&mut self, name: &str, level: Level) -> bool
        requires { length name.now ≤ LOGGER_NAME_MAX }
        ensures name { self.new.name.items ≡ name.now }
        ensures level { self.new.level ≡ level }
        ensures known { (items : List Item) → words.Remembers items self.old → words.Remembers items self.new }
    {
        if level == self.level && are_same(name.as_bytes(), self.name.as_slice()) {
            return true;
        }
        self.level = level;
        self.name.clear();
        let _ = self.name.try_extend_from_slice(name.as_bytes());
        self.count = 0;
        self.text.clear();
        self.is_fresh = true;
        false
    }

    /// Remembers the text of the first items for a line's name and level, if it is short enough.
    fn remember(&mut self, line: &mut LineBuf, items: &[Item], text_limit: usize, facts: &Facts<'_>)
        requires showable { IsShowable text_limit (shown_by facts.now) }
        requires room { length line.old.bytes + sum_by (item_len text_limit) items.now < line.old.capacity }
        requires name { self.old.name.items ≡ facts.now.name.now }
        requires level { self.old.level ≡ facts.now.message.now.level }
        ensures name { self.new.name.items ≡ self.old.name.items }
        ensures level { self.new.level ≡ self.old.level }
        ensures known { words.Remembers items.now self.new }
        ensures line { line.new ≡ line.old }
    {
        let count = count_named(items);
        let start = line.len();
        write_items(line, &items[..count], text_limit, facts);
        self.is_fresh = false;
        self.text.clear();
        self.count = match self.text.try_extend_from_slice(&line.as_slice()[start..]) {
            Ok(()) => count,
            Err(_) => 0,
        };
        line.cut(start);
    }
}

/// How many slots a formatter has.
pub(crate) const SLOTS: usize = 16;

/// Slots that remember nothing.
pub(crate) fn no_names() -> [Naming; SLOTS]
    ensures { (items : List Item) → All (words.Remembers items) result }
{
    array::from_fn(
        |_|
            ensures { (items : List Item) → words.Remembers items result }
        { Naming::new() },
    )
}

/// Appends the texts of items in order, as `write_items` does, by the slot of the message.
pub(crate) fn write_named(
    slots: &mut [Naming; SLOTS],
    line: &mut LineBuf,
    items: &[Item],
    text_limit: usize,
    facts: &Facts<'_>,
)
    requires showable { IsShowable text_limit (shown_by facts.now) }
    requires room { length line.old.bytes + sum_by (item_len text_limit) items.now < line.old.capacity }
    requires known { All (words.Remembers items.now) slots.old }
    ensures written { line.new ≡ appended line.old (flat_map (item_text (shown_by facts.now)) items.now) }
    ensures room_left { length line.new.bytes < line.new.capacity }
    ensures known { All (words.Remembers items.now) slots.new }
{
    let slot = slot_of(facts.message);
    slots[slot].write(line, items, text_limit, facts);
}

/// The slot of a message. A logger has a row of seven, one for each level, and rows go round: a slot may be that of more
/// loggers and levels, so it looks at name and level itself, and any choice is right.
fn slot_of(message: &Message) -> usize
    ensures { result < SLOTS }
{
    let row = message.logger as usize % SLOTS * 7;
    (row + usize::from(message.level.number())) % SLOTS
}

/// Where the first run of items begins that hang on name and level alone, one of which is of the name or the level. Without
/// such a run it is behind all items.
pub(crate) fn start_of_names(items: &[Item]) -> usize
    ensures { result ≤ length items.now }
{
    let mut start = 0;
    let mut seen = 0;
    for item in items {
        seen += 1;
        if is_of_name_or_level(item) {
            return start;
        }
        if !names(item) {
            start = seen;
        }
    }
    items.len()
}

/// Whether an item is a flag of the name or the level that is not padded.
fn is_of_name_or_level(item: &Item) -> bool {
    matches!(
        *item,
        Item::Flag(Flag::Name | Flag::Level | Flag::ShortLevel, None)
    )
}

/// How many of the first items hang on name and level alone.
fn count_named(items: &[Item]) -> usize
    ensures within { result ≤ length items.now }
    ensures all { All (λ item. words.names item ≡ true) (take result items.now) }
{
    let mut count = 0;
    for item in items {
        if !names(item) {
            return count;
        }
        count += 1;
    }
    count
}

/// Whether the text of an item hangs on name and level alone.
fn names(item: &Item) -> bool
    ensures { result ≡ words.names item.now }
{
    match *item {
        Item::Byte(_) | Item::Unknown(_) => true,
        Item::Flag(flag, None) => flag_names(flag),
        _ => false,
    }
}

/// Whether the text of a flag that is not padded hangs on name and level alone.
fn flag_names(flag: Flag) -> bool
    ensures { result ≡ words.flag_names flag }
{
    matches!(
        flag,
        Flag::Name
            | Flag::Level
            | Flag::ShortLevel
            | Flag::Percent
            | Flag::ColourStart
            | Flag::ColourEnd
    )
}
