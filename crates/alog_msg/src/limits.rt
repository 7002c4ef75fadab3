//! How long texts, fields and names may be, in bytes.

/// The text limit where nothing else is said.
pub const DEFAULT_TEXT_LIMIT: usize = 2_048;

/// No text limit is smaller.
pub const TEXT_LIMIT_MIN: usize = 64;

/// No text limit is larger.
pub const TEXT_LIMIT_MAX: usize = 8_192;

/// The most bytes of a source's file.
pub const FILE_MAX: usize = 256;

/// The most bytes of a source's function.
pub const FUNCTION_MAX: usize = 128;

/// The most bytes of a logger's name.
pub const LOGGER_NAME_MAX: usize = 64;

/// A text of at most so many bytes lies in its message, and takes no memory of its own: as many as a block of 128 bytes has room for.
pub const SHORT_TEXT_MAX: usize = 70;

/// The least room in which memory is taken for a longer text: a text takes the first of these three rooms that has as many
/// bytes as it, so that what is known of its length tells how much room there is where it lies.
pub(crate) const SMALL_ROOM: usize = 256;

/// The room for longer texts than those, up to the default limit.
pub(crate) const MIDDLE_ROOM: usize = 2_048;

/// The room for the longest texts that a limit lets through.
pub(crate) const LARGE_ROOM: usize = 8_192;
