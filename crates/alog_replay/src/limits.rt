//! What a script may ask for at most.

/// The most bytes that a line of a script has, its newline not counted.
pub const SCRIPT_LINE_MAX: usize = 16_384;

/// The most steps that one line asks for, and that one `run` makes.
pub const STEPS_MAX: u32 = 512;

/// How often a reader is read at most.
pub const READS_MAX: u64 = 1 << 32;

/// The bytes that one read asks for.
pub const CHUNK: usize = 8_192;
