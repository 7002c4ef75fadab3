//! What patterns spell, and their limits.
use alog_pattern::{Flag, Item, Padding, Pattern, PatternError, Side};
use std::process::Abort;

pub const LIMIT: usize = 2048;

pub fn compiled(rt: &(impl Abort + AllocGlobal), pattern: &[u8]) -> Pattern {
    match Pattern::compile(rt.alloc(), pattern, LIMIT) {
        Ok(pattern) => pattern,
        Err(PatternError::OutOfMemory) => panic!(rt; "out of memory"),
        Err(_) => panic!(rt; "no pattern"),
    }
}

/// The pattern spells these items, and its longest line has so many bytes.
fn spells(rt: &(impl Abort + AllocGlobal), pattern: &str, items: &[Item], longest: usize) {
    let pattern = compiled(rt, pattern.as_bytes());
    assert!(rt; pattern.items() == items);
    assert!(rt; (pattern.longest(), pattern.text_limit()) == (longest, LIMIT));
}

/// The pattern is refused so.
fn is_refused(rt: &(impl Abort + AllocGlobal), pattern: &[u8], error: PatternError) {
    match Pattern::compile(rt.alloc(), pattern, LIMIT) {
        Ok(_) => panic!(rt; "no error"),
        Err(PatternError::OutOfMemory) => panic!(rt; "out of memory"),
        Err(found) => assert!(rt; found == error),
    }
}

fn right(width: u8) -> Option<Padding> {
    padding(width, Side::Right, false)
}

fn padding(width: u8, side: Side, cut: bool) -> Option<Padding> {
    Some(Padding { width, side, cut })
}

#[test]
fn pads_levels(rt: HostRuntime) {
    let bar = Item::Byte(b'|');
    let items = [
        Item::Flag(Flag::Level, right(8)),
        bar,
        Item::Flag(Flag::Level, padding(8, Side::Left, false)),
        bar,
        Item::Flag(Flag::Level, padding(8, Side::Centre, false)),
        bar,
        Item::Flag(Flag::Level, padding(3, Side::Right, true)),
    ];
    let longest = 8 + 1 + 8 + 1 + 8 + 1 + 3 + 1;
    spells(&rt, "%8l|%-8l|%=8l|%3!l", &items, longest);
}

#[test]
fn drops_an_unfinished_flag(rt: HostRuntime) {
    let space = Item::Byte(b' ');
    let items = [
        Item::Unknown(b'q'),
        space,
        Item::Unknown(b'q'),
        space,
        Item::Flag(Flag::Percent, None),
        space,
    ];
    spells(&rt, "%q %5q %% %", &items, 2 + 1 + 2 + 1 + 1 + 1 + 1);
    spells(&rt, "%-12!", &[], 1);
    spells(&rt, "", &[], 1);
}

#[test]
fn pads_the_function_before_an_unknown_flag(rt: HostRuntime) {
    let function = |width: u8, side: Side, next: u8| Item::Function { width, side, next };
    let items = [
        Item::Byte(b'['),
        function(6, Side::Right, b']'),
        function(3, Side::Right, b'5'),
        function(6, Side::Left, b']'),
        Item::Flag(Flag::Function, None),
        Item::Flag(Flag::Function, padding(3, Side::Right, true)),
    ];
    let longest = 1 + 129 + 129 + 129 + 128 + 3 + 1;
    spells(&rt, "[%6!]%3!5%-6!]%!%3!!", &items, longest);
}

#[test]
fn skips_a_side_without_a_width(rt: HostRuntime) {
    let items = [
        Item::Flag(Flag::Text, None),
        Item::Byte(b'|'),
        Item::Unknown(b'-'),
        Item::Byte(b'v'),
        Item::Flag(Flag::Percent, None),
        Item::Flag(Flag::Function, None),
        Item::Flag(Flag::Percent, padding(0, Side::Right, true)),
        Item::Flag(Flag::Thread, right(64)),
    ];
    let longest = 2048 + 1 + 2 + 1 + 1 + 128 + 1 + 64 + 1;
    spells(&rt, "%-v|%--v%-%%-!%0!%%100t", &items, longest);
}

#[test]
fn counts_elapsed_times(rt: HostRuntime) {
    let items = [
        Item::Flag(Flag::ElapsedNanoseconds, None),
        Item::Flag(Flag::ElapsedMicroseconds, None),
        Item::Flag(Flag::ElapsedMilliseconds, None),
        Item::Flag(Flag::ElapsedSeconds, None),
        Item::Flag(Flag::ElapsedNanoseconds, right(21)),
        Item::Flag(Flag::ElapsedSeconds, padding(4, Side::Left, true)),
    ];
    spells(
        &rt,
        "%u%i%o%O%21u%-4!O",
        &items,
        20 + 17 + 14 + 11 + 21 + 4 + 1,
    );
}

/// So many times this spelling.
fn repeated(rt: &(impl Abort + AllocGlobal), spelling: &str, times: usize) -> Vec<u8> {
    let mut pattern = Vec::new(rt.alloc());
    for _ in 0..times {
        let is_longer = pattern.extend_from_slice(spelling.as_bytes()).is_ok();
        assert!(rt; is_longer, "out of memory");
    }
    pattern
}

#[test]
fn keeps_to_the_limits(rt: HostRuntime) {
    assert!(rt; compiled(&rt, &repeated(&rt, "%v", 31)).longest() == 63_489);
    is_refused(&rt, &repeated(&rt, "%v", 32), PatternError::LineTooLong);
    is_refused(&rt, &repeated(&rt, "x", 257), PatternError::PatternTooLong);
    is_refused(&rt, &repeated(&rt, "%v", 129), PatternError::PatternTooLong);
}

#[test]
fn compiles_every_length(rt: HostRuntime) {
    for len in 0..257 {
        let pattern = compiled(&rt, &repeated(&rt, "x", len));
        assert!(rt; (pattern.items().len(), pattern.longest()) == (len, len + 1));
    }
}

/// The error is told so.
fn says(rt: &(impl Abort + AllocGlobal), error: PatternError, text: &str) {
    match format!(in rt.alloc(); "{error}") {
        Ok(said) => assert!(rt; said.as_str() == text),
        Err(_) => panic!(rt; "out of memory"),
    }
}

#[test]
fn tells_the_errors(rt: HostRuntime) {
    let pattern = "the pattern has more than 256 bytes";
    says(&rt, PatternError::PatternTooLong, pattern);
    let line = "a line of the pattern may have more than 65536 bytes";
    says(&rt, PatternError::LineTooLong, line);
    says(&rt, PatternError::OutOfMemory, "out of memory");
}
