//! One run of the whole program.
use crate::files::Scratch;
use crate::ports::{Input, Output};
use alog_program::Screen;
use alog_server::Folders;
use std::rt::Files;
use std::sync::Wait;
use std::thread::Threads;
use std::time::Clock;

/// What the whole program runs on.
pub trait Host: AllocGlobal
    + Files
    + Folders
    + Screen
    + Scratch
    + Threads
    + Wait
    + Clock
    + Clone
    + Drop
    + Send
    + Sync
    + 'static {}

impl<R> Host for R
where
    R: AllocGlobal + Files + Folders + Screen + Scratch + Threads + Wait + Clock,
    R: Clone + Drop + Send + Sync + 'static,
{}

/// The smallest configuration.
pub const SMALL: &str =
    "queue = 8\n\n[[sink]]\nname = \"out\"\nkind = \"memory\"\npattern = \"%n %L %v\"\n\n\
                     [[logger]]\nname = \"net\"\nsinks = [\"out\"]\n";

/// The same without a pattern of its own, for texts of at most 64 bytes.
pub const SHORT: &str = "text = 64\n\n[[sink]]\nname = \"out\"\nkind = \"memory\"\n\n\
                         [[logger]]\nname = \"net\"\nsinks = [\"out\"]\n";

/// Runs the program on these words, and answers its status. What `run` promises is told to no test by it: a test looks, and its
/// proof has nothing to carry. All runs are over one reader and one writer, since the whole program is compiled anew for each pair.
pub fn run<R: Host>(
    rt: &R,
    words: &[&str],
    input: &mut Input<'_>,
    output: &mut Output,
    errors: &mut Vec<u8>,
) -> u8 {
    alog_program::run(rt, words, input, output, errors)
}
