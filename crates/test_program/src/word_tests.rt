//! The words that the system gives, and those that it cannot give.
use alog_program::{ArgumentsError, collect_words, refuse_arguments};
use std::alloc::Global;
use std::env::{Env, FillError};
use std::test::Fail;
use test_runs::long;

/// The words that it has, as bytes. It is asked for nothing else.
#[derive(Drop)]
struct Words<'a>(&'a [&'a [u8]]);

impl Env for Words<'_> {
    fn arg(&self, i: usize, buf: &mut [u8]) -> Result<usize, FillError> {
        let Some(word) = self.0.get(i) else {
            return Err(FillError::NotPresent);
        };
        if word.len() > buf.len() {
            return Err(FillError::TooLong);
        }
        buf[..word.len()].copy_from_slice(word);
        Ok(word.len())
    }

    fn var(&self, _name: &str, _buf: &mut [u8]) -> Result<usize, FillError> {
        Err(FillError::NotPresent)
    }

    fn var_at(&self, _i: usize, _buf: &mut [u8]) -> Result<usize, FillError> {
        Err(FillError::NotPresent)
    }
}

/// Why these words cannot be had, if they cannot.
fn refused(alloc: Global, given: &[&[u8]]) -> Option<ArgumentsError> {
    collect_words(alloc, &Words(given)).err()
}

/// Whether these words are had.
fn are_had(alloc: Global, given: &[&str; 2]) -> bool {
    let [first, second] = *given;
    let bytes = [first.as_bytes(), second.as_bytes()];
    collect_words(alloc, &Words(bytes.as_slice())).is_ok_and(|words| {
        words.len() == 2 && words[0].as_str() == first && words[1].as_str() == second
    })
}

#[test]
fn collected_words(rt: HostRuntime) -> Result<(), Fail> {
    assert!(rt; are_had(rt.alloc(), &["alog", "n\u{e9}"]));
    let given = [b"alog".as_slice(), b"format".as_slice(), b"\xff".as_slice()];
    assert!(rt; refused(rt.alloc(), given.as_slice()) == Some(ArgumentsError::NotText(2)));
    let word = long(rt.alloc(), "", 131_073)?;
    let error = refused(rt.alloc(), [word.as_bytes()].as_slice());
    assert!(rt; error == Some(ArgumentsError::TooLong(0)));
    Ok(())
}

/// Whether words that cannot be had end the program so.
fn ends_by(alloc: Global, error: ArgumentsError, status: u8, said: &str) -> bool {
    let mut errors = Vec::new(alloc);
    let found = refuse_arguments(error, &mut errors);
    found == status && errors.as_slice() == said.as_bytes()
}

#[test]
fn words_that_cannot_be_had(rt: HostRuntime) {
    let no_text = "alog: argument 2 is no text in UTF-8\n";
    let too_long = "alog: argument 3 has more than 131072 bytes\n";
    for (error, status, said) in [
        (ArgumentsError::NotText(2), 1, no_text),
        (ArgumentsError::TooLong(3), 1, too_long),
        (
            ArgumentsError::OutOfMemory,
            4,
            "alog: refused 1\nalog: out of memory\n",
        ),
    ] {
        assert!(rt; ends_by(rt.alloc(), error, status, said));
    }
}
