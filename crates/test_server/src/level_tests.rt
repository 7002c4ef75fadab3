//! The levels of loggers, which clients set and ask for.
use crate::answers::{SinkRow, Wanted, tells};
use crate::asks::Ask;
use crate::leveling::LEVELS;
use alog_msg::Level;
use std::io;
use std::process::Abort;
use test_runs::{folder, lines_in};

/// Each line is the level of its message and its text. The logger whose levels are set is not the first one.
const LETTERS: &str = "[[sink]]\nname = \"out\"\nkind = \"memory\"\npattern = \"%L %v\"\n\n\
                       [[logger]]\nname = \"other\"\nsinks = [\"out\"]\n\n\
                       [[logger]]\nname = \"net\"\nsinks = [\"out\"]\n";

/// Its sink, without a fault.
static OUT: [SinkRow; 1] = [("out", 0, &["out"])];

fn out() -> &'static [SinkRow] {
    &OUT
}

/// Whether this is the line of a message of this level with this text.
fn is_line(line: Option<&str>, level: Level, text: &str) -> bool {
    match line {
        Some(line) => {
            let rest = line.strip_prefix(level.short());
            rest.and_then(|it| it.strip_prefix(" ")) == Some(text)
        }
        None => false,
    }
}

/// Whether these are the lines of the messages that are not below their logger's level, for each level of that, and behind the place of each
/// whether its level was on.
fn are_as_set(text: &str) -> bool {
    let mut lines = text.lines();
    for own in &LEVELS {
        for level in &LEVELS {
            let is_on = own.number() <= level.number();
            let word = if is_on { "on" } else { "hidden" };
            if is_on && !is_line(lines.next(), *level, own.name()) {
                return false;
            }
            if !is_line(lines.next(), Level::Off, word) {
                return false;
            }
        }
    }
    lines.next().is_none()
}

/// A level is the one that was set, and what it lets through is on, and nothing else is.
#[test]
fn levels_are_those_that_were_set(rt: HostRuntime) -> io::Result<()> {
    let folder = folder(&rt)?;
    let at = (LETTERS, folder.as_str());
    let so = tells(&rt, rt.alloc(), at, Ask::Levels, Wanted::Sinks(out()));
    assert!(rt; so);
    let lines = lines_in(&rt, &folder)?;
    assert!(rt; are_as_set(lines.as_str()));
    Ok(())
}
