//! Texts of each short length, padded to each small width on each side, beside the plain program.
use crate::format_tests::{NOTHING, Said, UTC, check};
use crate::spaces_round;
use alog_pattern::Side;
use std::process::Abort;

const SPACES: &str = "        ";

const LETTERS: &str = "abcdefgh";

/// The pattern of a text in this width, on the side of this sign.
fn pattern_of(rt: &(impl Abort + AllocGlobal), width: usize, sign: &str) -> String {
    match format!(in rt.alloc(); "%{sign}{width}v|") {
        Ok(pattern) => pattern,
        Err(_) => panic!(rt; "out of memory"),
    }
}

/// A text between so many spaces.
fn padded(rt: &(impl Abort + AllocGlobal), text: &str, before: usize, behind: usize) -> String {
    assert!(rt; before <= 8 && behind <= 8);
    match format!(in rt.alloc(); "{}{text}{}|", &SPACES[..before], &SPACES[..behind]) {
        Ok(line) => line,
        Err(_) => panic!(rt; "out of memory"),
    }
}

/// The text of so many bytes is padded to this width on this side, which the pattern says so.
fn pads(rt: &(impl Abort + AllocGlobal), width: usize, side: Side, sign: &str, len: usize) {
    assert!(rt; len <= 8);
    let text = &LETTERS[..len];
    let (before, behind) = spaces_round(width, side, len);
    let pattern = pattern_of(rt, width, sign);
    let line = padded(rt, text, before, behind);
    let said = Said { text, ..NOTHING };
    check(rt, pattern.as_str(), &UTC, said, line.as_str());
}

#[test]
fn pads_each_length_to_each_width(rt: HostRuntime) {
    for (side, sign) in [(Side::Right, ""), (Side::Left, "-"), (Side::Centre, "=")] {
        for width in 0..9 {
            for len in 0..9 {
                pads(&rt, width, side, sign, len);
            }
        }
    }
}
