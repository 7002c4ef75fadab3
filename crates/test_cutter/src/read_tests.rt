//! Bytes in chunks, and faults of a reader.
use crate::pieces::{LIMIT, is_written, write_pending, written};
use crate::readers::{Halting, Noting, Trickle};
use alog_lines::{Fill, LineCutter};
use std::alloc::Global;
use std::test::Fail;

/// Lines of all kinds: short, empty, too long, with characters that are cut in two, and with what is none.
const MIXED: &[u8] = b"one\n\nn\xc3\xa9 \xf0\x9f\x98\x80\n\xff\xe2\x82\n\
0123456789012345678901234567890123456789012345678901234567890123\n\
012345678901234567890123456789012345678901234567890123456789\xe2\x82\xac\xe2\x82\xac\n\
01234567890123456789012345678901234567890123456789012345678901\xf0\x9f\x98end";

/// Whether bytes that come one by one are cut as those that come at once.
fn is_alike(alloc: Global, bytes: &[u8]) -> Result<bool, Fail> {
    let mut whole = bytes;
    let expected = written(alloc, LIMIT, &mut whole)?;
    Ok(is_written(alloc, &mut Trickle::of(bytes), expected.as_slice()))
}

#[test]
fn byte_by_byte(rt: HostRuntime) -> Result<(), Fail> {
    let is_alike = is_alike(rt.alloc(), MIXED)?;
    assert!(rt; is_alike);
    for len in 0..MIXED.len() {
        let is_alike = is_alike_up_to(rt.alloc(), len)?;
        assert!(rt; is_alike, "{len}");
    }
    Ok(())
}

/// The same of a front of the lines.
fn is_alike_up_to(alloc: Global, len: usize) -> Result<bool, Fail> {
    match MIXED.get(..len) {
        Some(front) => is_alike(alloc, front),
        None => Ok(false),
    }
}

/// Reads past a fault, and past the end: what was pending before the fault is there behind it, and what comes behind the end is not read.
fn is_kept(alloc: Global) -> Result<bool, Fail> {
    let mut reader = Halting {
        first: b"one\ntw",
        second: b"o\nthree",
        reads: 0,
    };
    let mut lines = LineCutter::new(alloc, LIMIT)?;
    let mut out = Vec::new(alloc);
    let first = lines.fill(&mut reader)?;
    write_pending(&mut lines, &mut out)?;
    let failed = lines.fill(&mut reader).is_err();
    write_pending(&mut lines, &mut out)?;
    let second = lines.fill(&mut reader)?;
    write_pending(&mut lines, &mut out)?;
    let is_open = out.as_slice() == b"one0.two0.".as_slice();
    let end = lines.fill(&mut reader)?;
    let again = lines.fill(&mut reader)?;
    write_pending(&mut lines, &mut out)?;
    let is_closed = out.as_slice() == b"one0.two0.three0.".as_slice();
    Ok(
        first == Fill::Bytes
            && failed
            && second == Fill::Bytes
            && is_open
            && end == Fill::End
            && again == Fill::End
            && is_closed,
    )
}

#[test]
fn behind_a_fault_and_an_end(rt: HostRuntime) -> Result<(), Fail> {
    let is_kept = is_kept(rt.alloc())?;
    assert!(rt; is_kept);
    Ok(())
}

/// Whether nothing is read while more is pending than a text has.
fn is_held_back(alloc: Global) -> Result<bool, Fail> {
    let mut lines = LineCutter::new(alloc, LIMIT)?;
    let mut long = MIXED;
    let first = lines.fill(&mut long)?;
    let mut more = b"more".as_slice();
    let held = lines.fill(&mut more)?;
    Ok(first == Fill::Bytes && held == Fill::Nothing && more.len() == 4)
}

#[test]
fn reads_no_more_than_it_has_room_for(rt: HostRuntime) -> Result<(), Fail> {
    let is_held_back = is_held_back(rt.alloc())?;
    assert!(rt; is_held_back);
    Ok(())
}

/// Whether no text is lent behind a read, be the last one mended or as it was read.
fn is_cleared(alloc: Global) -> Result<bool, Fail> {
    let mut lines = LineCutter::new(alloc, LIMIT)?;
    let mut out = Vec::new(alloc);
    let mut is_cleared = true;
    for bytes in [b"a\xff\n".as_slice(), b"one\n", b""] {
        let mut reader = bytes;
        lines.fill(&mut reader)?;
        is_cleared = is_cleared && lines.text().is_empty();
        write_pending(&mut lines, &mut out)?;
    }
    Ok(is_cleared && out.as_slice() == "a\u{fffd}1.one0.".as_bytes())
}

#[test]
fn no_text_is_lent_behind_a_read(rt: HostRuntime) -> Result<(), Fail> {
    let is_cleared = is_cleared(rt.alloc())?;
    assert!(rt; is_cleared);
    Ok(())
}

/// The least room that reads of so many bytes are given, of short texts and of the longest.
fn least_room(alloc: Global, size: usize) -> Result<usize, Fail> {
    let (mut short, mut long) = (Noting::of(size), Noting::of(size));
    written(alloc, LIMIT, &mut short)?;
    written(alloc, 65_536, &mut long)?;
    Ok(short.least.min(long.least))
}

#[test]
fn each_read_has_room_for_65536_bytes(rt: HostRuntime) -> Result<(), Fail> {
    for size in [65, 4_096, 65_535, 300_000] {
        let least = least_room(rt.alloc(), size)?;
        assert!(rt; 65_536 <= least && least < usize::MAX, "{size}");
    }
    Ok(())
}
