//! The words that the program was called with.
use std::alloc::{AllocError, Global};
use std::env::{Env, FillError};
use std::str;
use thiserror::Error;

/// The most bytes of a word: what Linux passes to a program.
const WORD_MAX: usize = 131_072;

/// Why the words cannot be had.
#[derive(Clone, Copy, Debug, PartialEq, Eq, Error)]
pub enum ArgumentsError {
    /// Arguments are counted from 1.
    #[error("argument {0} is no text in UTF-8")]
    NotText(usize),
    #[error("argument {0} has more than 131072 bytes")]
    TooLong(usize),
    #[error("out of memory")]
    OutOfMemory,
}

impl From<AllocError> for ArgumentsError {
    fn from(_error: AllocError) -> ArgumentsError {
        ArgumentsError::OutOfMemory
    }
}

/// The words in order, the program's name first.
pub fn collect_words(alloc: Global, env: &impl Env) -> Result<Vec<String>, ArgumentsError> {
    let mut words = Vec::new(alloc);
    let mut buffer = vec![in alloc; 0u8; WORD_MAX]?;
    for number in 0..usize::MAX {
        let len = match env.arg(number, buffer.as_mut_slice()) {
            Ok(len) => len,
            Err(FillError::NotPresent) => break,
            Err(FillError::TooLong) => return Err(ArgumentsError::TooLong(number)),
        };
        let Ok(word) = str::from_utf8(&buffer[..len]) else {
            return Err(ArgumentsError::NotText(number));
        };
        let word = String::from_str(alloc, word)?;
        if words.push(word).is_err() {
            return Err(ArgumentsError::OutOfMemory);
        }
    }
    Ok(words)
}
