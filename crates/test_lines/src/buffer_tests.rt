//! Line buffers.
use alog_format::{LineBuf, NoRoomError};
use std::alloc::AllocError;
use std::process::Abort;

pub fn buffer(rt: &(impl Abort + AllocGlobal), capacity: usize) -> LineBuf {
    match LineBuf::new(rt.alloc(), capacity) {
        Ok(line) => line,
        Err(_) => panic!(rt; "out of memory"),
    }
}

/// The line has these bytes.
pub fn has(rt: &impl Abort, line: &LineBuf, bytes: &str) {
    assert!(rt; line.as_slice() == bytes.as_bytes(), "{bytes}");
    assert!(rt; (line.len(), line.is_empty()) == (bytes.len(), bytes.is_empty()));
    assert!(rt; line.room() == line.capacity() - bytes.len());
}

/// There is room for these bytes, and they are put, or there is none, and nothing happens.
fn puts(rt: &impl Abort, line: &mut LineBuf, bytes: &str, fits: bool, now: &str) {
    let put = line.put(bytes.as_bytes());
    assert!(rt;
        put == if fits { Ok(()) } else { Err(NoRoomError) },
        "{bytes}"
    );
    has(rt, line, now);
}

/// The bytes from `at` on move up, or there is no room for that, and nothing happens.
fn shifts(rt: &impl Abort, line: &mut LineBuf, at: usize, by: usize, fits: bool, now: &str) {
    assert!(rt; at <= line.len());
    let moved = line.shift(at, by);
    assert!(rt;
        moved == if fits { Ok(()) } else { Err(NoRoomError) },
        "{at}"
    );
    has(rt, line, now);
}

/// A line of four bytes is made, moved and cut.
fn make_in_place(rt: &impl Abort, line: &mut LineBuf) {
    has(rt, line, "");
    puts(rt, line, "abc", true, "abc");
    puts(rt, line, "de", false, "abc");
    shifts(rt, line, 1, 1, true, "a bc");
    shifts(rt, line, 0, 1, false, "a bc");
    assert!(rt; line.len() == 4);
    line.cut(2);
    has(rt, line, "a ");
    line.clear();
    has(rt, line, "");
}

#[test]
fn makes_a_line_in_place(rt: HostRuntime) {
    make_in_place(&rt, &mut buffer(&rt, 4));
}

/// A line of no bytes takes none.
fn takes_none(rt: &impl Abort, line: &mut LineBuf) {
    puts(rt, line, "", true, "");
    shifts(rt, line, 0, 0, true, "");
    puts(rt, line, "a", false, "");
    shifts(rt, line, 0, 1, false, "");
    assert!(rt; line.capacity() == 0);
}

#[test]
fn has_no_room_at_all(rt: HostRuntime) {
    takes_none(&rt, &mut buffer(&rt, 0));
}

/// Bytes that differ from their neighbours.
fn row(rt: &(impl Abort + AllocGlobal)) -> Vec<u8> {
    let mut bytes = Vec::new(rt.alloc());
    for i in 0u32..1_000 {
        assert!(rt; bytes.push((i % 251) as u8).is_ok(), "out of memory");
    }
    bytes
}

/// The front of the row is there.
fn has_front(rt: &impl Abort, now: &[u8], row: &[u8], at: usize) {
    assert!(rt; at <= now.len() && at <= row.len());
    assert!(rt; now[..at] == row[..at]);
}

/// So many spaces are there behind it.
fn has_spaces(rt: &impl Abort, now: &[u8], at: usize, by: usize) {
    assert!(rt; at <= 1_000 && by <= 1_000 && now.len() == 1_000 + by);
    assert!(rt; now[at..at + by].iter().all(|byte| *byte == b' '));
}

/// The rest of the row is there behind them.
fn has_rest(rt: &impl Abort, now: &[u8], row: &[u8], at: usize, by: usize) {
    assert!(rt; at <= 1_000 && by <= 1_000 && row.len() == 1_000);
    assert!(rt; now.len() == 1_000 + by);
    assert!(rt; now[at + by..] == row[at..]);
}

/// The row is there, with so many spaces at this place.
fn is_parted(rt: &impl Abort, now: &[u8], row: &[u8], at: usize, by: usize) {
    has_front(rt, now, row, at);
    has_spaces(rt, now, at, by);
    has_rest(rt, now, row, at, by);
}

/// Puts the row into a line, and moves it from this place on.
fn parts(rt: &(impl Abort + AllocGlobal), row: &[u8], at: usize, by: usize) {
    let mut line = buffer(rt, 2_000);
    assert!(rt; line.put(row).is_ok() && at <= line.len());
    assert!(rt; line.shift(at, by).is_ok());
    is_parted(rt, line.as_slice(), row, at, by);
}

/// From where a row moves, and by how many places.
const MOVES: [(usize, usize); 6] = [
    (0, 1),
    (1, 7),
    (500, 64),
    (999, 1_000),
    (1_000, 24),
    (0, 1_000),
];

#[test]
fn moves_long_rows_over_themselves(rt: HostRuntime) {
    let row = row(&rt);
    for (at, by) in &MOVES {
        parts(&rt, row.as_slice(), *at, *by);
    }
}

/// This was printed.
fn is_printed(rt: &impl Abort, printed: Result<String, AllocError>, wanted: &str) {
    match printed {
        Ok(text) => assert!(rt; text.as_str() == wanted),
        Err(_) => panic!(rt; "out of memory"),
    }
}

#[test]
fn tells_the_error(rt: HostRuntime) {
    let text = format!(in rt.alloc(); "{NoRoomError}");
    is_printed(&rt, text, "the line buffer has no room");
}

#[test]
fn what_is_printed_of_a_line_buffer(rt: HostRuntime) {
    let mut line = buffer(&rt, 8);
    puts(&rt, &mut line, "abc", true, "abc");
    let text = format!(in rt.alloc(); "{line:?}");
    is_printed(&rt, text, "LineBuf { len: 3, capacity: 8, .. }");
}

/// What crosses threads.
fn crosses<T: Send + Sync>(_value: &T) {}

#[test]
fn goes_to_another_thread(rt: HostRuntime) {
    crosses(&buffer(&rt, 4));
}
