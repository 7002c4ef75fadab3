ghost use Rattle.std.specs.Prelude.{◌≡◌, ◌+◌, ◌≤◌, ◌<◌, ◌∷◌, [], length, sum_by, take, false, ◌^◌, FitsSigned};
ghost use Rattle.std.specs.Int.{w64};
ghost use Rattle.std.specs.List.{flat_map};
ghost use Rattle.alog_pattern.specs.Compiled.{longest};
ghost use Rattle.alog_pattern.specs.Length.{item_len};
ghost use Rattle.alog_pattern.specs.Padding.{pad};
ghost use Rattle.alog_format.specs.Buffer.{appended};
ghost use Rattle.alog_format.specs.Civil.{IsShownAt};
ghost use Rattle.alog_format.specs.Line.{shown_by, item_text, AppendsLine, IsShown, IsShowable, SourceFits};
ghost use Rattle.alog_format.specs.Text.{flag_text, of_source};

use crate::civil::Civil;
use crate::context::Context;
use crate::elapsed::elapsed_since;
use crate::flag_texts::{Facts, write_flag};
use crate::line_buf::LineBuf;
use crate::pads::write_padded;
use alog_msg::{LOGGER_NAME_MAX, Message};
use alog_pattern::{Flag, Item, Padding, Pattern, Side};

/// Appends the line of a message: the texts of the pattern's items in order, and a newline. A clock shows `at` at its time,
/// and the message before came at the previous time.
pub(crate) fn write_line(
    pattern: &Pattern,
    context: &Context,
    name: &str,
    message: &Message,
    previous: Option<i64>,
    at: &Civil,
    line: &mut LineBuf,
)
    requires text { length message.now.text ≤ pattern.now.text_limit }
    requires name { length name.now ≤ LOGGER_NAME_MAX }
    requires at { IsShownAt context.now.zone message.now.time at.now }
    requires room { length line.old.bytes + longest pattern.now ≤ line.old.capacity }
    ensures { AppendsLine context.now pattern.now.items name.now message.now previous line.old line.new }
{
    let facts = facts_of(context, name, message, previous, at);
    write_items(line, pattern.items(), pattern.text_limit(), &facts);
    put(line, b"\n");
}

/// What a line of the message shows.
pub(crate) fn facts_of<'a>(
    context: &Context,
    name: &'a str,
    message: &'a Message,
    previous: Option<i64>,
    at: &'a Civil,
) -> Facts<'a>
    requires { IsShownAt context.now.zone message.now.time at.now }
    ensures shown { IsShown context.now name.now message.now previous (shown_by result) }
    ensures at { result.at.now ≡ at.now }
    ensures source { SourceFits message.now.source }
    ensures thread { message.now.thread < 2 ^ 64 }
    ensures process { context.now.process < 2 ^ 32 }
    ensures time { FitsSigned w64 message.now.time }
    ensures elapsed { result.elapsed < 2 ^ 64 }
{
    let process = context.process();
    // What is read here only tells the prover its range: the fields of a source, the thread, and the time.
    if let Some(source) = &message.source {
        let (_file, _line, _function) = (source.file(), source.line(), source.function());
    }
    let (_thread, _time) = (message.thread, message.time);
    let elapsed = elapsed_since(previous, message.time);
    Facts {
        message,
        name,
        process,
        offset: at.offset,
        elapsed,
        at,
    }
}

/// Appends the texts of items in order, and leaves room for a newline.
pub(crate) fn write_items(line: &mut LineBuf, items: &[Item], text_limit: usize, facts: &Facts<'_>)
    requires showable { IsShowable text_limit (shown_by facts.now) }
    requires room { length line.old.bytes + sum_by (item_len text_limit) items.now < line.old.capacity }
    ensures written { line.new ≡ appended line.old (flat_map (item_text (shown_by facts.now)) items.now) }
    ensures room_left { length line.new.bytes < line.new.capacity }
{
    for item in items {
        write_item(line, item, facts);
    }
}

/// Appends the texts of items in order, as `write_items` does, where that of the first so many is known.
pub(crate) fn write_behind(
    line: &mut LineBuf,
    known: &[u8],
    count: usize,
    items: &[Item],
    text_limit: usize,
    facts: &Facts<'_>,
)
    requires showable { IsShowable text_limit (shown_by facts.now) }
    requires room { length line.old.bytes + sum_by (item_len text_limit) items.now < line.old.capacity }
    requires count { count ≤ length items.now }
    requires known { known.now ≡ flat_map (item_text (shown_by facts.now)) (take count items.now) }
    ensures written { line.new ≡ appended line.old (flat_map (item_text (shown_by facts.now)) items.now) }
    ensures room_left { length line.new.bytes < line.new.capacity }
{
    put_some(line, known);
    write_some(line, &items[count..], text_limit, facts);
}

/// Appends bytes for which there is room, if there are any.
fn put_some(line: &mut LineBuf, bytes: &[u8])
    requires { length line.old.bytes + length bytes.now ≤ line.old.capacity }
    ensures { line.new ≡ appended line.old bytes.now }
{
    if !bytes.is_empty() {
        put(line, bytes);
    }
}

/// Appends the texts of items in order as `write_items` does, if there are any.
fn write_some(line: &mut LineBuf, items: &[Item], text_limit: usize, facts: &Facts<'_>)
    requires showable { IsShowable text_limit (shown_by facts.now) }
    requires room { length line.old.bytes + sum_by (item_len text_limit) items.now < line.old.capacity }
    ensures written { line.new ≡ appended line.old (flat_map (item_text (shown_by facts.now)) items.now) }
    ensures room_left { length line.new.bytes < line.new.capacity }
{
    if !items.is_empty() {
        write_items(line, items, text_limit, facts);
    }
}

/// Appends the text of an item.
fn write_item(line: &mut LineBuf, item: &Item, facts: &Facts<'_>)
    requires { length line.old.bytes + length (item_text (shown_by facts.now) item.now) ≤ line.old.capacity }
    ensures { line.new ≡ appended line.old (item_text (shown_by facts.now) item.now) }
{
    match *item {
        Item::Byte(byte) => put(line, &[byte]),
        Item::Flag(flag, Some(padding)) if !flag.ignores_padding() => {
            write_padded(line, padding, flag, facts)
        }
        Item::Flag(flag, _) => write_unpadded(line, flag, facts),
        Item::Unknown(byte) => put(line, &[b'%', byte]),
        Item::Function { width, side, next } => {
            write_function(line, width, side, facts);
            put(line, &[next]);
        }
    }
}

/// Appends the function of the source, padded and not cut.
#[tactic(auto, unfolding(crate::specs::Text::flag_text))]
fn write_function(line: &mut LineBuf, width: u8, side: Side, facts: &Facts<'_>)
    requires { length line.old.bytes
        + length (pad width side false (of_source (λ source. source.function) facts.now.message.now.source))
        ≤ line.old.capacity }
    ensures { line.new
        ≡ appended line.old (pad width side false (of_source (λ source. source.function) facts.now.message.now.source)) }
{
    let padding = Padding {
        width,
        side,
        cut: false,
    };
    write_padded(line, padding, Flag::Function, facts);
}

/// Appends bytes for which there is room.
pub(crate) fn put(line: &mut LineBuf, bytes: &[u8])
    requires { length line.old.bytes + length bytes.now ≤ line.old.capacity }
    ensures { line.new ≡ appended line.old bytes.now }
{
    let _ = line.put(bytes);
}

/// Appends the text of a flag for which there is room. What a message has of it goes in as it is.
#[tactic(auto, unfolding(crate::specs::Text::flag_text))]
fn write_unpadded(line: &mut LineBuf, flag: Flag, facts: &Facts<'_>)
    requires { length line.old.bytes + length (flag_text (shown_by facts.now) flag) ≤ line.old.capacity }
    ensures { line.new ≡ appended line.old (flag_text (shown_by facts.now) flag) }
{
    match flag {
        Flag::Text => put(line, facts.message.text.as_bytes()),
        Flag::Name => put(line, facts.name.as_bytes()),
        Flag::Level => put(line, facts.message.level.name().as_bytes()),
        Flag::ShortLevel => put(line, facts.message.level.short().as_bytes()),
        _ => write_whole(line, flag, facts),
    }
}

/// Appends the text of a flag for which there is room.
fn write_whole(line: &mut LineBuf, flag: Flag, facts: &Facts<'_>)
    requires { length line.old.bytes + length (flag_text (shown_by facts.now) flag) ≤ line.old.capacity }
    ensures { line.new ≡ appended line.old (flag_text (shown_by facts.now) flag) }
{
    let end = line.capacity();
    write_flag(line, end, flag, facts);
}
