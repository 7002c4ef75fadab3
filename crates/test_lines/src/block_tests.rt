//! Blocks: what they hold after each write, at each length of a text, and what is refused.
ghost use Rattle.std.specs.Prelude.{◌≡◌, ◌≤◌};

use crate::msg_tests::{LONG_SOURCES, letters};
use alog_msg::{Block, Item, Level, Message, Source, SourceRef, WriteError};
use std::process::Abort;

const LOG: SourceRef<'static> = SourceRef {
    file: "src/net.rt",
    line: 12,
    function: "connect",
};

const OTHER: SourceRef<'static> = SourceRef {
    file: "a.rt",
    line: 3,
    function: "",
};

/// A block with this limit.
fn block(rt: &(impl Abort + AllocGlobal), limit: usize) -> Block
    requires { (64 ≤ limit) × (limit ≤ 8_192) }
    ensures { result.limit ≡ limit }
{
    match Block::new(rt.alloc(), limit) {
        Ok(block) => block,
        Err(_) => panic!(rt; "out of memory"),
    }
}

/// Writes this message, in which the numbers follow from `logger`.
fn write(
    block: &mut Block,
    logger: u8,
    text: &str,
    source: Option<SourceRef<'_>>,
) -> Result<(), WriteError> {
    let number = u32::from(logger);
    let time = -i64::from(logger);
    block.write(number, level_of(logger), time, number.into(), text, source)
}

/// The level that goes with a number.
fn level_of(logger: u8) -> Level {
    if logger % 2 == 0 {
        Level::Info
    } else {
        Level::Critical
    }
}

/// The source says what was lent.
fn says(rt: &impl Abort, source: &Source, lent: SourceRef<'_>) {
    assert!(rt; source.file() == lent.file);
    assert!(rt; source.line() == lent.line);
    assert!(rt; source.function() == lent.function);
}

/// The message has the numbers that follow from `logger`, and this text and source.
fn has(rt: &impl Abort, message: &Message, logger: u8, text: &str, source: Option<SourceRef<'_>>) {
    let number = u32::from(logger);
    assert!(rt; (message.logger, message.thread) == (number, number.into()));
    assert!(rt; (message.level, message.time) == (level_of(logger), -i64::from(logger)));
    assert!(rt; message.text.as_str() == text);
    match (&message.source, source) {
        (Some(found), Some(lent)) => says(rt, found, lent),
        (found, lent) => assert!(rt; found.is_none() && lent.is_none()),
    }
}

/// The block holds such a message.
fn holds(rt: &impl Abort, block: &Block, logger: u8, text: &str, source: Option<SourceRef<'_>>) {
    match block.item() {
        Item::Text(message) => has(rt, message, logger, text, source),
        Item::Flush(_) | Item::Stop => panic!(rt; "no message"),
    }
}

/// The message is written.
fn writes(
    rt: &impl Abort,
    block: &mut Block,
    logger: u8,
    text: &str,
    source: Option<SourceRef<'_>>,
) {
    assert!(rt; write(block, logger, text, source).is_ok());
}

/// The message is refused for this reason.
fn refuses(
    rt: &impl Abort,
    block: &mut Block,
    logger: u8,
    text: &str,
    source: Option<SourceRef<'_>>,
    error: WriteError,
) {
    assert!(rt; write(block, logger, text, source) == Err(error));
}

/// The message is written, and the block holds it.
fn keeps(
    rt: &impl Abort,
    block: &mut Block,
    logger: u8,
    text: &str,
    source: Option<SourceRef<'_>>,
) {
    writes(rt, block, logger, text, source);
    holds(rt, block, logger, text, source);
}

/// The block's limit is 64, and it holds a stop.
fn is_stop(rt: &impl Abort, block: &Block) {
    assert!(rt; block.limit() == 64);
    assert!(rt; matches!(block.item(), Item::Stop));
}

/// The flush of a logger is written, and the block holds it.
fn keeps_flush(rt: &impl Abort, block: &mut Block, logger: u32) {
    block.write_flush(logger);
    assert!(rt; matches!(block.item(), Item::Flush(found) if *found == logger));
}

#[test]
fn items_of_a_block(rt: HostRuntime) {
    let mut block = block(&rt, 64);
    is_stop(&rt, &block);
    keeps(&rt, &mut block, 7, "no route", Some(LOG));
    keeps(&rt, &mut block, 8, "", None);
    keeps_flush(&rt, &mut block, 9);
    keeps(&rt, &mut block, 3, "route", Some(OTHER));
    block.write_stop();
    is_stop(&rt, &block);
}

/// The lengths at which a text lies elsewhere, and those beside them.
const LENGTHS: [usize; 10] = [1, 64, 65, 70, 71, 256, 257, 2_048, 2_049, 8_192];

/// Writes and checks a text with each source and without, after which another text follows.
fn each_source(rt: &impl Abort, block: &mut Block, logger: u8, text: &str, following: &str) {
    for source in [None, Some(LOG), Some(OTHER)] {
        keeps(rt, block, logger, text, source);
        keeps(rt, block, 99, following, Some(LOG));
    }
}

/// Writes and checks a text of each length, after which a text of the first length follows.
fn each_after(rt: &(impl Abort + AllocGlobal), block: &mut Block, text: &str) {
    for (len, logger) in LENGTHS.into_iter().zip(0..10) {
        let other = letters(rt, len);
        each_source(rt, block, logger, other.as_str(), text);
    }
}

/// So many letters, and one more, which is another.
fn letters_and_b(rt: &(impl Abort + AllocGlobal), count: usize) -> String {
    let mut text = letters(rt, count);
    assert!(rt; text.push('b').is_ok(), "out of memory");
    text
}

/// Text after text, each of these lengths after each, in one block, with a source and without.
#[test]
fn texts_of_a_block(rt: HostRuntime) {
    let mut block = block(&rt, 8_192);
    for len in LENGTHS {
        let text = letters_and_b(&rt, len - 1);
        each_after(&rt, &mut block, text.as_str());
    }
}

/// The write is refused for this reason, and leaves the block as it was.
fn is_refused(
    rt: &(impl Abort + AllocGlobal),
    text: &str,
    source: Option<SourceRef<'_>>,
    error: WriteError,
) {
    let mut block = block(rt, 64);
    writes(rt, &mut block, 7, "no route", Some(LOG));
    refuses(rt, &mut block, 8, text, source, error);
    holds(rt, &block, 7, "no route", Some(LOG));
}

/// Three messages of a text are written, and after each a longer one is refused.
fn keeps_to_its_limit(rt: &impl Abort, block: &mut Block, text: &str, long: &str) {
    for logger in 0..3 {
        writes(rt, block, logger, text, None);
        refuses(rt, block, 99, long, None, WriteError::TextTooLong);
        holds(rt, block, logger, text, None);
    }
}

const LIMITS: [usize; 9] = [64, 65, 70, 71, 256, 257, 2_048, 2_049, 8_192];

#[test]
fn blocks_at_their_limit(rt: HostRuntime) {
    for limit in LIMITS {
        let text = letters(&rt, limit);
        let long = letters(&rt, limit + 1);
        let mut block = block(&rt, limit);
        keeps_to_its_limit(&rt, &mut block, text.as_str(), long.as_str());
    }
}

/// Three blocks with this limit, made together.
fn three(rt: &(impl Abort + AllocGlobal), limit: usize) -> Vec<Block>
    requires { (64 ≤ limit) × (limit ≤ 8_192) }
{
    match Block::many(rt.alloc(), 3, limit) {
        Ok(blocks) => blocks,
        Err(_) => panic!(rt; "out of memory"),
    }
}

/// Each of the blocks holds a stop, and is one in which three messages of a text are written, and a longer one is refused.
fn keep_to_their_limit(rt: &impl Abort, blocks: &mut [Block], text: &str, long: &str) {
    for block in blocks {
        assert!(rt; matches!(block.item(), Item::Stop));
        keeps_to_its_limit(rt, block, text, long);
    }
}

#[test]
fn blocks_made_together(rt: HostRuntime) {
    for limit in LIMITS {
        let text = letters(&rt, limit);
        let long = letters(&rt, limit + 1);
        let mut blocks = three(&rt, limit);
        assert!(rt; blocks.len() == 3);
        keep_to_their_limit(&rt, &mut blocks, text.as_str(), long.as_str());
    }
}

/// A source with a file and a function of so many letters is kept, before another one and behind it.
fn keeps_source(rt: &(impl Abort + AllocGlobal), file: usize, function: usize) {
    let (file, function) = (letters(rt, file), letters(rt, function));
    let lent = SourceRef {
        file: file.as_str(),
        line: 0,
        function: function.as_str(),
    };
    let mut block = block(rt, 64);
    keeps(rt, &mut block, 1, "", Some(lent));
    keeps(rt, &mut block, 2, "", Some(OTHER));
    keeps(rt, &mut block, 3, "", Some(lent));
}

/// A source with a file and a function of so many letters is refused, behind a text that is too long.
fn refuses_source(rt: &(impl Abort + AllocGlobal), file: usize, function: usize) {
    let (file, function) = (letters(rt, file), letters(rt, function));
    let lent = SourceRef {
        file: file.as_str(),
        line: 0,
        function: function.as_str(),
    };
    is_refused(rt, "", Some(lent), WriteError::FieldTooLong);
    let long = letters(rt, 65);
    is_refused(rt, long.as_str(), Some(lent), WriteError::TextTooLong);
}

#[test]
fn sources_of_a_block_at_their_limits(rt: HostRuntime) {
    keeps_source(&rt, 256, 128);
    for (file, function) in &LONG_SOURCES {
        refuses_source(&rt, *file, *function);
    }
}
