//! A formatter, which remembers what a clock showed last.
ghost use Rattle.std.specs.Prelude.{◌+◌, ◌≤◌, length};
ghost use Rattle.alog_pattern.specs.Compiled.{longest};
ghost use Rattle.alog_format.specs.Civil.{IsShownAt, IsZone};
ghost use Rattle.alog_format.specs.Line.{AppendsLine};

use crate::civil::{Civil, civil_at, fields_of, local};
use crate::context::{Context, Zone};
use crate::lasting::count_lasting;
use crate::line_buf::LineBuf;
use crate::lines::{facts_of, put, write_behind, write_items, write_line};
use crate::naming::{Naming, SLOTS, no_names, start_of_names, write_named};
use alog_msg::{LOGGER_NAME_MAX, Message};
use alog_pattern::Pattern;
use arrayvec::ArrayVec;
use jiff::civil::DateTime;
use std::marker::Model;

/// The nanoseconds of a second.
const SECOND: i64 = 1_000_000_000;

/// Appends the line of a message: the texts of the pattern's items in order, and a newline.
///
/// The previous time is that of the message before in the same sink, which the flags of elapsed time count from. The
/// buffer has room for the pattern's longest line, the text keeps to the pattern's limit, and the name of the
/// logger has at most 64 bytes. The tests `writes_the_default_format` and `writes_lines_one_behind_another` show calls.
pub fn format(
    pattern: &Pattern,
    context: &Context,
    name: &str,
    message: &Message,
    previous: Option<i64>,
    line: &mut LineBuf,
)
    requires text { length message.now.text ≤ pattern.now.text_limit }
    requires name { length name.now ≤ LOGGER_NAME_MAX }
    requires room { length line.old.bytes + longest pattern.now ≤ line.old.capacity }
    ensures { AppendsLine context.now pattern.now.items name.now message.now previous line.old line.new }
{
    let at = civil_at(&context.zone, message.time);
    write_line(pattern, context, name, message, previous, &at, line);
}

/// The most bytes of a line that a formatter remembers.
const FIRST_MAX: usize = 64;

/// Appends the lines of a pattern as `format` does, and remembers what comes again.
///
/// Of the last line it remembers the second, as spdlog's `pattern_formatter` does: the date and the time of day are worked
/// out again only for a message of another second, or where the clock is at another offset. From the second line of a second
/// on it remembers the text of the first items too, as far as it is the same throughout a second and has at most 64 bytes.
///
/// For some pairs of a logger's name and a level it remembers the text of a run of items, as `] [%n] [%l] `: the first run
/// of those that hang on the two alone in which one shows the name or the level, if the text has at most 128 bytes. It has
/// 16 slots; a slot's pair is that of its last line, and from the second line in a row on its text is remembered.
///
/// The tests `remembers_a_second` and `remembers_a_name` of `test_lines` show one.
#[derive(Debug, Drop)]
pub struct Formatter {
    pattern: Pattern,
    /// The last line's second, counted from the epoch.
    second: i64,
    /// The offset of its clock in seconds east of UTC. By a rule it may change within a second.
    offset: i32,
    /// What that clock shows at some time in that second.
    at: DateTime,
    /// Its fields, with the nanoseconds of the last line.
    civil: Civil,
    /// Where the run of items begins that hang on name and level alone.
    from: usize,
    /// How many of the first items are remembered, of those before that run.
    count: usize,
    /// Their text in that second.
    first: ArrayVec<u8, FIRST_MAX>,
    /// Whether the next line of that second is its second one, for which the first items are worth remembering.
    is_fresh: bool,
    /// What is remembered of the items from the run on, for some pairs of a name and a level.
    names: [Naming; SLOTS],
}

impl Model for Formatter {
    ghost use Rattle.std.specs.Prelude.{◌≡◌, ◌≤◌, ◌+ℤ◌, All, drop, length, take};
    ghost use Rattle.jiff.specs.Words.{civil_seconds};
    ghost use Rattle.alog_format.specs.Civil.{fields, with_nanosecond};
    ghost use Rattle.alog_format.specs.Lasting.{AreFirst, FormatterView};
    ghost use Rattle.alog_format.specs.Naming.{Remembers};

    ghost Value = { FormatterView };

    ghost view = { λ f. record { pattern = f.pattern; at = f.civil } };

    ghost invariant = { λ f. (civil_seconds f.at ≡ f.second +ℤ f.offset)
        × (f.civil ≡ with_nanosecond f.civil.nanosecond (fields f.offset f.at)) × (f.from ≤ length f.pattern.items)
        × AreFirst (take f.from f.pattern.items) f.civil f.count f.first.items × All (Remembers (drop f.from f.pattern.items)) f.names };
}

impl Formatter {
    ghost use Rattle.std.specs.Prelude.{◌≡◌};

    /// A formatter of a pattern. It remembers the first second of 1970 in UTC.
    pub fn new(pattern: Pattern) -> Formatter
        ensures { result.pattern ≡ pattern }
    {
        let at = local(0, 0);
        let from = start_of_names(pattern.items());
        Formatter {
            pattern,
            second: 0,
            offset: 0,
            at,
            civil: fields_of(0, at),
            from,
            count: 0,
            first: ArrayVec::new(),
            is_fresh: true,
            names: no_names(),
        }
    }

    /// The pattern.
    pub fn pattern(&self) -> &Pattern
        ensures { result.now ≡ self.now.pattern }
    {
        &self.pattern
    }

    /// Appends the line of a message, as `format` does, and by the same conditions.
    pub fn format(
        &mut self,
        context: &Context,
        name: &str,
        message: &Message,
        previous: Option<i64>,
        line: &mut LineBuf,
    )
        requires text { length message.now.text ≤ self.old.pattern.text_limit }
        requires name { length name.now ≤ LOGGER_NAME_MAX }
        requires room { length line.old.bytes + longest self.old.pattern ≤ line.old.capacity }
        ensures line { AppendsLine context.now self.old.pattern.items name.now message.now previous line.old line.new }
        ensures same { self.new.pattern ≡ self.old.pattern }
    {
        self.turn_to(context, name, message, line);
        let facts = facts_of(context, name, message, previous, &self.civil);
        let text_limit = self.pattern.text_limit();
        let items = self.pattern.items();
        write_behind(
            line,
            self.first.as_slice(),
            self.count,
            &items[..self.from],
            text_limit,
            &facts,
        );
        write_named(
            &mut self.names,
            line,
            &items[self.from..],
            text_limit,
            &facts,
        );
        put(line, b"\n");
    }

    /// Shows what a clock shows at a message's time, and remembers the first items at the second line of a second. The
    /// buffer is as it was.
    fn turn_to(&mut self, context: &Context, name: &str, message: &Message, line: &mut LineBuf)
        requires text { length message.now.text ≤ self.old.pattern.text_limit }
        requires name { length name.now ≤ LOGGER_NAME_MAX }
        requires room { length line.old.bytes + longest self.old.pattern ≤ line.old.capacity }
        ensures shown { IsShownAt context.now.zone message.now.time self.new.at }
        ensures same { self.new.pattern ≡ self.old.pattern }
        ensures line { line.new ≡ line.old }
    {
        if !self.show(&context.zone, message.time) && self.is_fresh {
            self.remember(context, name, message, line);
        }
    }

    /// Shows what a clock of the zone shows at a time, and answers whether that is another second than the last one, or one
    /// at another offset.
    fn show(&mut self, zone: &Zone, time: i64) -> bool
        requires { IsZone zone.now }
        ensures shown { IsShownAt zone.now time self.new.at }
        ensures same { self.new.pattern ≡ self.old.pattern }
    {
        let second = time.div_euclid(SECOND);
        let offset = zone.offset_seconds(time);
        let other = if second != self.second || offset != self.offset {
            self.second = second;
            self.offset = offset;
            self.at = local(offset, time);
            self.civil = fields_of(offset, self.at);
            self.count = 0;
            self.first.clear();
            self.is_fresh = true;
            true
        } else {
            false
        };
        self.civil.nanosecond = time.rem_euclid(SECOND).unsigned_abs() as u32;
        other
    }

    /// Remembers the text of the first items at the time of a message, which a clock shows now, if it is short enough.
    fn remember(&mut self, context: &Context, name: &str, message: &Message, line: &mut LineBuf)
        requires text { length message.now.text ≤ self.old.pattern.text_limit }
        requires name { length name.now ≤ LOGGER_NAME_MAX }
        requires room { length line.old.bytes + longest self.old.pattern ≤ line.old.capacity }
        requires shown { IsShownAt context.now.zone message.now.time self.old.at }
        ensures same { self.new ≡ self.old }
        ensures line { line.new ≡ line.old }
    {
        let front = &self.pattern.items()[..self.from];
        let count = count_lasting(front);
        let facts = facts_of(context, name, message, None, &self.civil);
        let start = line.len();
        write_items(line, &front[..count], self.pattern.text_limit(), &facts);
        self.is_fresh = false;
        self.first.clear();
        self.count = match self.first.try_extend_from_slice(&line.as_slice()[start..]) {
            Ok(()) => count,
            Err(_) => 0,
        };
        line.cut(start);
    }
}
