//! Levels, texts, messages with their limits and copies, and items.
use alog_msg::{
    Item, Level, Message, MessageError, SHORT_TEXT_MAX, Source, SourceRef, Text, are_same,
};
use std::alloc::{AllocError, Global};
use std::process::Abort;

const TEXT_LIMIT: usize = 64;

/// A message of this text and source, or why there is none.
fn made(
    rt: &impl AllocGlobal,
    text: &str,
    source: Option<SourceRef<'_>>,
) -> Result<Message, MessageError> {
    Message::new(rt.alloc(), TEXT_LIMIT, 7, Level::Error, -5, 9, text, source)
}

/// The message that was made.
fn made_or_end(rt: &impl Abort, made: Result<Message, MessageError>) -> Message {
    match made {
        Ok(message) => message,
        Err(MessageError::OutOfMemory) => panic!(rt; "out of memory"),
        Err(_) => panic!(rt; "no message"),
    }
}

/// A message of this text and source.
fn message(rt: &(impl Abort + AllocGlobal), text: &str, source: Option<SourceRef<'_>>) -> Message {
    made_or_end(rt, made(rt, text, source))
}

/// No message was made, for this reason.
fn refuses(rt: &impl Abort, made: Result<Message, MessageError>, error: MessageError) {
    match made {
        Ok(_) => panic!(rt; "no error"),
        Err(MessageError::OutOfMemory) => panic!(rt; "out of memory"),
        Err(found) => assert!(rt; found == error),
    }
}

/// There is no message, for this reason.
fn is_refused(
    rt: &(impl Abort + AllocGlobal),
    text: &str,
    source: Option<SourceRef<'_>>,
    error: MessageError,
) {
    refuses(rt, made(rt, text, source), error);
}

/// Each level with its number, its name and its letter.
const LEVELS: [(Level, u8, &str, &str); 7] = [
    (Level::Trace, 0, "trace", "T"),
    (Level::Debug, 1, "debug", "D"),
    (Level::Info, 2, "info", "I"),
    (Level::Warning, 3, "warning", "W"),
    (Level::Error, 4, "error", "E"),
    (Level::Critical, 5, "critical", "C"),
    (Level::Off, 6, "off", "O"),
];

#[test]
fn table_of_levels(rt: HostRuntime) {
    for (level, number, name, short) in &LEVELS {
        assert!(rt; level.number() == *number);
        assert!(rt; level.name() == *name && level.short() == *short);
        assert!(rt; Level::read(name) == Some(*level));
    }
    assert!(rt; Level::Debug < Level::Info);
}

const OTHER_NAMES: [(&str, Option<Level>); 6] = [
    ("warn", Some(Level::Warning)),
    ("err", Some(Level::Error)),
    ("Info", None),
    ("T", None),
    ("infos", None),
    ("", None),
];

#[test]
fn other_names_of_levels(rt: HostRuntime) {
    for (name, level) in &OTHER_NAMES {
        assert!(rt; Level::read(name) == *level, "{name}");
    }
}

/// A copy of a text.
fn text_of(rt: &(impl Abort + AllocGlobal), text: &str) -> Text {
    match Text::copy_of(rt.alloc(), text) {
        Ok(text) => text,
        Err(_) => panic!(rt; "out of memory"),
    }
}

/// The text has these bytes, which are so many.
fn has_bytes(rt: &impl Abort, text: &Text, bytes: &str, len: usize) {
    assert!(rt; (text.len(), text.is_empty()) == (len, len == 0));
    assert!(rt; text.as_bytes() == bytes.as_bytes());
}

#[test]
fn text_with_its_bytes(rt: HostRuntime) {
    has_bytes(&rt, &text_of(&rt, "né"), "né", 3);
    has_bytes(&rt, &text_of(&rt, ""), "", 0);
}

/// Names, and whether they are the same.
const NAMES: [(&str, &str, bool); 8] = [
    ("", "", true),
    ("server", "server", true),
    ("né", "né", true),
    ("", "s", false),
    ("server", "serve", false),
    ("serve", "server", false),
    ("server", "terver", false),
    ("server", "servet", false),
];

#[test]
fn names_are_compared(rt: HostRuntime) {
    for (these, those, same) in &NAMES {
        let found = are_same(these.as_bytes(), those.as_bytes());
        assert!(rt; found == *same, "{these} and {those}");
    }
}

/// What is printed of a text.
fn printed(alloc: Global, text: &str) -> Result<String, AllocError> {
    let text = Text::copy_of(alloc, text)?;
    format!(in alloc; "{text:?}")
}

/// This is printed of a text.
fn prints(rt: &(impl Abort + AllocGlobal), text: &str, wanted: &str) {
    match printed(rt.alloc(), text) {
        Ok(found) => assert!(rt; found.as_str() == wanted, "{found}"),
        Err(_) => panic!(rt; "out of memory"),
    }
}

const PRINTED: [(&str, &str); 4] = [
    ("né", "\"né\""),
    ("", "\"\""),
    ("say \"a\"\n", "\"say \\\"a\\\"\\n\""),
    (
        "a text that is longer than seventy bytes, and says \"a\" and \"b\" and more\n",
        "\"a text that is longer than seventy bytes, and says \\\"a\\\" and \\\"b\\\" and more\\n\"",
    ),
];

#[test]
fn texts_are_printed_as_they_read(rt: HostRuntime) {
    for (text, wanted) in &PRINTED {
        prints(&rt, text, wanted);
    }
}

const SOURCE: SourceRef<'static> = SourceRef {
    file: "src/net.rt",
    line: 12,
    function: "connect",
};

/// The message has the fields that it was made with, and this text.
fn has(rt: &impl Abort, message: &Message, text: &str) {
    let fields = (message.logger, message.level, message.time, message.thread);
    assert!(rt; fields == (7, Level::Error, -5, 9));
    assert!(rt; message.text.as_str() == text);
}

/// The source is the one above.
fn is_the_source(rt: &impl Abort, source: &Source) {
    assert!(rt; source.file() == "src/net.rt");
    assert!(rt; source.line() == 12);
    assert!(rt; source.function() == "connect");
}

/// The message has that source.
fn has_the_source(rt: &impl Abort, message: &Message) {
    match &message.source {
        Some(source) => is_the_source(rt, source),
        None => panic!(rt; "no source"),
    }
}

/// A copy of a message.
fn copy(rt: &(impl Abort + AllocGlobal), message: &Message) -> Message {
    match message.copy(rt.alloc()) {
        Ok(copy) => copy,
        Err(_) => panic!(rt; "out of memory"),
    }
}

#[test]
fn message_with_its_fields(rt: HostRuntime) {
    let said = message(&rt, "no route", Some(SOURCE));
    has(&rt, &said, "no route");
    has_the_source(&rt, &said);
    assert!(rt; message(&rt, "", None).source.is_none());
}

#[test]
fn copy_of_a_message(rt: HostRuntime) {
    let text = letters(&rt, 64);
    let said = copy(&rt, &message(&rt, text.as_str(), Some(SOURCE)));
    has(&rt, &said, text.as_str());
    has_the_source(&rt, &said);
    assert!(rt; copy(&rt, &message(&rt, "", None)).source.is_none());
}

/// A copy of so many letters has them.
fn is_copied(rt: &(impl Abort + AllocGlobal), count: usize) {
    let letters = letters(rt, count);
    let text = text_of(rt, letters.as_str());
    has_bytes(rt, &text, letters.as_str(), count);
    assert!(rt; text.as_str() == letters.as_str());
}

const COUNTS: [usize; 11] = [
    0,
    1,
    63,
    SHORT_TEXT_MAX,
    SHORT_TEXT_MAX + 1,
    256,
    257,
    2_048,
    2_049,
    8_192,
    8_193,
];

#[test]
fn copies_of_short_and_long_texts(rt: HostRuntime) {
    for count in &COUNTS {
        is_copied(&rt, *count);
    }
}

/// So many letters.
pub fn letters(rt: &(impl Abort + AllocGlobal), count: usize) -> String {
    let mut text = String::new(rt.alloc());
    for _ in 0..count {
        assert!(rt; text.push('a').is_ok(), "out of memory");
    }
    text
}

/// A text of 65 letters is refused for its length, with this source and without.
fn refuses_long_text(rt: &(impl Abort + AllocGlobal), source: Option<SourceRef<'_>>) {
    let long = letters(rt, 65);
    is_refused(rt, long.as_str(), source, MessageError::TextTooLong);
}

#[test]
fn text_at_its_limit(rt: HostRuntime) {
    let text = letters(&rt, 64);
    assert!(rt; message(&rt, text.as_str(), None).text.len() == 64);
    refuses_long_text(&rt, None);
    let file = letters(&rt, 257);
    let source = SourceRef {
        file: file.as_str(),
        line: 0,
        function: "",
    };
    refuses_long_text(&rt, Some(source));
}

/// How many letters the file and the function of a source have that is refused.
pub const LONG_SOURCES: [(usize, usize); 3] = [(257, 128), (256, 129), (257, 129)];

/// A message with a source of so many letters, or why there is none.
fn made_at(
    rt: &(impl Abort + AllocGlobal),
    file: usize,
    function: usize,
) -> Result<Message, MessageError> {
    let (file, function) = (letters(rt, file), letters(rt, function));
    let source = SourceRef {
        file: file.as_str(),
        line: 0,
        function: function.as_str(),
    };
    made(rt, "", Some(source))
}

#[test]
fn source_at_its_limits(rt: HostRuntime) {
    assert!(rt; made_or_end(&rt, made_at(&rt, 256, 128)).source.is_some());
    for (file, function) in &LONG_SOURCES {
        refuses(
            &rt,
            made_at(&rt, *file, *function),
            MessageError::FieldTooLong,
        );
    }
}

/// Whether an item is this text.
fn is_text(item: Item, text: &str) -> bool {
    match item {
        Item::Text(message) => message.text.as_str() == text,
        Item::Flush(_) | Item::Stop => false,
    }
}

/// Whether an item is the flush of this logger.
fn is_flush(item: Item, logger: u32) -> bool {
    matches!(item, Item::Flush(found) if found == logger)
}

fn is_stop(item: Item) -> bool {
    matches!(item, Item::Stop)
}

#[test]
fn items_of_a_queue(rt: HostRuntime) {
    let item = Item::Text(message(&rt, "no route", None));
    assert!(rt; is_text(item, "no route"));
    assert!(rt; is_flush(Item::Flush(3), 3) && is_stop(Item::Stop));
}
