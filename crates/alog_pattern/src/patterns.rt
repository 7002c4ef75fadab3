ghost use Rattle.std.specs.Prelude.{◌≡◌, ◌+◌, ◌<◌, ◌≤◌, ◌↔◌, length, max, IfOk, IsErrOf, if◌then◌else◌};
ghost use Rattle.alog_pattern.specs.Length.{item_len, longest_line as longest_line_of};
ghost use Rattle.alog_pattern.specs.Scan.{items_of as items_of_bytes};

use crate::flags::Flag;
use crate::items::{Item, Padding};
use crate::scan::Scan;
use alog_msg::TEXT_LIMIT_MAX;
use std::alloc::{AllocError, AllocFailed, Global};
use std::marker::Model;
use thiserror::Error;

/// The most bytes of a pattern.
pub const PATTERN_MAX: usize = 256;

/// The most bytes of a line, with its newline.
pub const LINE_MAX: usize = 65_536;

/// Why a pattern was not compiled. The test `keeps_to_the_limits` shows it.
#[derive(Clone, Copy, Debug, PartialEq, Eq, Error)]
pub enum PatternError {
    /// The pattern has more than 256 bytes.
    #[error("the pattern has more than 256 bytes")]
    PatternTooLong,
    /// The longest line has more than 65,536 bytes with its newline.
    #[error("a line of the pattern may have more than 65536 bytes")]
    LineTooLong,
    /// There was no memory for the items.
    #[error("out of memory")]
    OutOfMemory,
}

impl From<AllocError> for PatternError {
    ghost use Rattle.std.specs.Prelude.{◌≡◌};
    ghost use Rattle.alog_pattern.specs.declared.patterns.PatternError.TheVariants.{OutOfMemory};

    ghost from_gives = { λ _ e. e ≡ OutOfMemory };

    fn from(_error: AllocError) -> PatternError {
        PatternError::OutOfMemory
    }
}

/// A pattern that was read into its items.
///
/// ```text
/// let pattern = Pattern::compile(alloc, b"%8l|%-8l|%=8l|%3!l", 2_048)?;
/// assert_eq!(rt; pattern.items().len(), 7);
/// assert_eq!(rt; pattern.longest(), 8 + 1 + 8 + 1 + 8 + 1 + 3 + 1);
/// ```
/// The test `pads_levels` runs it.
#[derive(Debug, Drop)]
pub struct Pattern {
    items: Vec<Item>,
    longest: usize,
    text_limit: usize,
}

impl Model for Pattern {
    ghost use Rattle.std.specs.Prelude.{◌≡◌, ◌≤◌};
    ghost use Rattle.alog_pattern.specs.Compiled.{Compiled, IsTextLimit};
    ghost use Rattle.alog_pattern.specs.Length.{longest_line};
    ghost use Rattle.alog_pattern.specs.declared.patterns.TheConstants.{LINE_MAX};

    ghost Value = { Compiled };

    ghost view = { λ p. record { items = p.items.items; text_limit = p.text_limit } };

    ghost invariant = { λ p. (p.longest ≡ longest_line p.text_limit p.items.items) × (p.longest ≤ LINE_MAX) × IsTextLimit p.text_limit };
}

impl Pattern {
    ghost use Rattle.alog_pattern.specs.Compiled.{longest, IsTextLimit};
    ghost use Rattle.alog_pattern.specs.Grammar.{IsReading};
    ghost use Rattle.alog_pattern.specs.Length.{LineExceeds};

    /// Reads a pattern once, so that `format` writes each line by its items. It is for messages whose texts have at most
    /// `text_limit` bytes. Every string of at most 256 bytes is a pattern, if its longest line has at most 65,536 bytes with the newline.
    pub fn compile(
        alloc: Global,
        spelling: &[u8],
        text_limit: usize,
    ) -> Result<Pattern, PatternError>
        requires { IsTextLimit text_limit }
        ensures items { IfOk result (λ p. IsReading spelling.now p.items) }
        ensures text_limit { IfOk result (λ p. p.text_limit ≡ text_limit) }
        ensures pattern_too_long { IsErrOf result PatternError.PatternTooLong ↔ (PATTERN_MAX < length spelling.now) }
        ensures line_too_long { IsErrOf result PatternError.LineTooLong
            ↔ ((length spelling.now ≤ PATTERN_MAX) × LineExceeds LINE_MAX text_limit spelling.now) }
    {
        if spelling.len() > PATTERN_MAX {
            return Err(PatternError::PatternTooLong);
        }
        let longest = longest_line(spelling, text_limit);
        if longest > LINE_MAX {
            return Err(PatternError::LineTooLong);
        }
        let items = items_of(alloc, spelling)?;
        Ok(Pattern {
            items,
            longest,
            text_limit,
        })
    }

    /// The items, in order.
    pub fn items(&self) -> &[Item]
        ensures { result.now ≡ self.now.items }
    {
        self.items.as_slice()
    }

    /// The length of the longest line in bytes, with its newline: at most 65,536.
    pub fn longest(&self) -> usize
        ensures value { result ≡ longest self.now }
        ensures within { result ≤ LINE_MAX }
    {
        self.longest
    }

    /// The greatest length of a message's text in bytes: 64 to 8,192.
    pub fn text_limit(&self) -> usize
        ensures value { result ≡ self.now.text_limit }
        ensures within { IsTextLimit result }
    {
        self.text_limit
    }
}

/// The items of a pattern.
fn items_of(alloc: Global, spelling: &[u8]) -> Result<Vec<Item>, AllocError>
    ensures { IfOk result (λ items. items.items ≡ items_of_bytes spelling.now) }
{
    let mut items = Vec::with_capacity(alloc, spelling.len())?;
    let mut scan = Scan::Between;
    for byte in spelling {
        let (next, item) = scan.step(*byte);
        if let Some(item) = item {
            items.push(item)?;
        }
        scan = next;
    }
    Ok(items)
}

/// The length of the longest line of a pattern, with its newline.
fn longest_line(spelling: &[u8], text_limit: usize) -> usize
    requires short { length spelling.now ≤ PATTERN_MAX }
    requires limit { text_limit ≤ TEXT_LIMIT_MAX }
    ensures { result ≡ longest_line_of text_limit (items_of_bytes spelling.now) }
{
    let mut longest = 1;
    let mut scan = Scan::Between;
    for byte in spelling {
        let (next, item) = scan.step(*byte);
        if let Some(item) = item {
            longest += item_len(item, text_limit);
        }
        scan = next;
    }
    longest
}

/// The greatest length of an item's text.
fn item_len(item: Item, text_limit: usize) -> usize
    requires { text_limit ≤ TEXT_LIMIT_MAX }
    ensures value { result ≡ item_len text_limit item }
    ensures within { result ≤ 8566 }
{
    match item {
        Item::Byte(_) => 1,
        Item::Flag(flag, Some(padding)) if !flag.ignores_padding() => {
            padded_len(padding, flag.greatest_len(text_limit))
        }
        Item::Flag(flag, _) => flag.greatest_len(text_limit),
        Item::Unknown(_) => 2,
        Item::Function { width, .. } => {
            Flag::Function
                .greatest_len(text_limit)
                .max(usize::from(width))
                + 1
        }
    }
}

/// The greatest length of a padded text, where the text alone has at most `len` bytes.
fn padded_len(padding: Padding, len: usize) -> usize
    ensures { result ≡ (if padding.cut then padding.width else max padding.width len) }
{
    let width = usize::from(padding.width);
    if padding.cut { width } else { width.max(len) }
}
