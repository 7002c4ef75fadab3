//! Lines, their lengths, and what is no UTF-8.
use crate::pieces::{LIMIT, cuts, filled, is_written, written};
use std::alloc::{AllocError, Global};
use std::test::Fail;

/// Bytes, and what is written of their pieces. The mends are those of the Unicode Standard's table "U+FFFD for maximal subparts".
const SHORT: [(&[u8], &str); 22] = [
    (b"", ""),
    (b"\n", "0."),
    (b"\n\n", "0.0."),
    (b"a", "a0."),
    (b"a\n", "a0."),
    (b"a\nb", "a0.b0."),
    (b"a\n\nb\n", "a0.0.b0."),
    (b"a\0b\r\n\t\n", "a\0b\r0.\t0."),
    (b"n\xc3\xa9\n", "n\u{e9}0."),
    (b"\xe2\x82\xac\xf0\x9f\x98\x80\n", "\u{20ac}\u{1f600}0."),
    (b"\xff\n", "\u{fffd}1."),
    (b"a\xffb\xfe\n\xff", "a\u{fffd}b\u{fffd}2.\u{fffd}1."),
    // A character that is cut off by its newline, and one by the end.
    (b"\xe2\x82\n", "\u{fffd}1."),
    (b"\xf0\x9f\x98", "\u{fffd}1."),
    (b"\xe2\x82A\n", "\u{fffd}A1."),
    // Too long for what it says, a surrogate, and past the last character.
    (b"\xc0\xaf\n", "\u{fffd}\u{fffd}2."),
    (b"\xed\xa0\x80\n", "\u{fffd}\u{fffd}\u{fffd}3."),
    (b"\xf4\x91\x92\x93\n", "\u{fffd}\u{fffd}\u{fffd}\u{fffd}4."),
    (
        b"\xe1\x80\xe2\xf0\x91\x92\xf1\xbf\x41\n",
        "\u{fffd}\u{fffd}\u{fffd}\u{fffd}A4.",
    ),
    // U+FFFD itself is no mend.
    (b"\xef\xbf\xbd\n", "\u{fffd}0."),
    (b"\x80\n", "\u{fffd}1."),
    (b"a\r", "a\r0."),
];

#[test]
fn short_lines(rt: HostRuntime) {
    for (bytes, expected) in &SHORT {
        cuts(&rt, bytes, expected);
    }
}

/// Whether a line of so many `a` is cut into pieces of 64 and one of so many, if there is one.
fn is_cut(
    alloc: Global,
    len: usize,
    pieces: usize,
    last: Option<usize>,
) -> Result<bool, AllocError> {
    let line = filled(alloc, b'a', len, b"\nb")?;
    let mut expected = Vec::new(alloc);
    for number in 0..pieces {
        let piece = filled(alloc, b'a', LIMIT, b"0")?;
        expected.extend_from_slice(piece.as_slice())?;
        let is_last = number + 1 == pieces && last.is_none();
        expected.push(if is_last { b'.' } else { b'~' })?;
    }
    if let Some(last) = last {
        let piece = filled(alloc, b'a', last, b"0.")?;
        expected.extend_from_slice(piece.as_slice())?;
    }
    expected.extend_from_slice(b"b0.")?;
    Ok(is_written(alloc, &mut line.as_slice(), expected.as_slice()))
}

#[test]
fn lines_at_the_limit(rt: HostRuntime) -> Result<(), Fail> {
    for (len, pieces, last) in [
        (0, 0, Some(0)),
        (1, 0, Some(1)),
        (63, 0, Some(63)),
        (64, 1, None),
        (65, 1, Some(1)),
        (128, 2, None),
        (129, 2, Some(1)),
        // Behind what one read brings.
        (65_535, 1_023, Some(63)),
        (65_536, 1_024, None),
        (65_537, 1_024, Some(1)),
        (1_048_576, 16_384, None),
    ] {
        let is_cut = is_cut(rt.alloc(), len, pieces, last)?;
        assert!(rt; is_cut, "{len}");
    }
    Ok(())
}

/// Whether so many `a` with these bytes behind them are cut so: the first piece has them and these bytes, the next these.
fn is_parted(
    alloc: Global,
    len: usize,
    behind: &[u8],
    first: &str,
    next: &str,
) -> Result<bool, AllocError> {
    let bytes = filled(alloc, b'a', len, behind)?;
    let mut expected = filled(alloc, b'a', len, first.as_bytes())?;
    expected.extend_from_slice(next.as_bytes())?;
    Ok(is_written(alloc, &mut bytes.as_slice(), expected.as_slice()))
}

#[test]
fn characters_at_the_limit(rt: HostRuntime) -> Result<(), Fail> {
    for (len, behind, first, next) in [
        // Each fits, or goes whole into the next piece.
        (62, b"\xc3\xa9\n".as_slice(), "\u{e9}0.", ""),
        (63, b"\xc3\xa9\n", "0~", "\u{e9}0."),
        (61, b"\xe2\x82\xacb\n", "\u{20ac}0~", "b0."),
        (62, b"\xe2\x82\xacb\n", "0~", "\u{20ac}b0."),
        (60, b"\xf0\x9f\x98\x80\n", "\u{1f600}0.", ""),
        (61, b"\xf0\x9f\x98\x80\n", "0~", "\u{1f600}0."),
        (62, b"\xf0\x9f\x98\x80\n", "0~", "\u{1f600}0."),
        (63, b"\xf0\x9f\x98\x80\n", "0~", "\u{1f600}0."),
        // What is no character does too. It may be no longer than what is written for it.
        (61, b"\xf0\x9f\x98b\n", "\u{fffd}1~", "b0."),
        (61, b"\xf0\x9f\x98", "\u{fffd}1.", ""),
        (62, b"\xf0\x9f\x98b\n", "0~", "\u{fffd}b1."),
        (62, b"\xff\n", "0~", "\u{fffd}1."),
        (64, b"\xff\n", "0~", "\u{fffd}1."),
        (61, b"\xff\xff\n", "\u{fffd}1~", "\u{fffd}1."),
    ] {
        let is_parted = is_parted(rt.alloc(), len, behind, first, next)?;
        assert!(rt; is_parted, "{len} {next}");
    }
    Ok(())
}

/// Whether the line of each byte, but the newline, is what `from_utf8_lossy` makes of it.
fn is_each_byte(alloc: Global) -> Result<bool, Fail> {
    let mut line = Vec::new(alloc);
    for byte in 0..=255_u8 {
        if byte != b'\n' {
            line.push(byte)?;
        }
    }
    let out = written(alloc, 65_536, &mut line.as_slice())?;
    let mut expected = String::from_utf8_lossy(alloc, line.as_slice())?;
    expected.push_str("9.")?;
    Ok(out.as_slice() == expected.as_bytes())
}

#[test]
fn each_byte(rt: HostRuntime) -> Result<(), Fail> {
    let is_each_byte = is_each_byte(rt.alloc())?;
    assert!(rt; is_each_byte);
    Ok(())
}
