ghost use Rattle.std.specs.Prelude.{◌≡◌, ◌≤◌, ◌↔◌, IsTrue, length};
ghost use Rattle.alog_replay.specs.Entry.{IsEntry, IsSkipped, OneCommand, OneEntry};
ghost use Rattle.alog_replay.specs.declared.entry.Entry.{Entry};

use crate::command::Command;
use crate::limits::SCRIPT_LINE_MAX;
use crate::parser::parse;
use std::str;

/// What a line of a script is.
#[derive(Drop)]
pub enum Entry<'a> {
    /// An empty line, or one that begins with `#`.
    Skipped,
    Does(Command<'a>),
    /// A line that is not UTF-8, or of another form.
    Refused,
}

/// What a line of at most `SCRIPT_LINE_MAX` bytes is, without its newline.
pub fn entry_of(line: &[u8]) -> Entry<'_>
    requires { length line.now ≤ SCRIPT_LINE_MAX }
    ensures { (entry : Entry) → (result ≡ entry) ↔ IsEntry line.now entry }
{
    let Ok(text) = str::from_utf8(line) else {
        return Entry::Refused;
    };
    if is_skipped(text) {
        return Entry::Skipped;
    }
    match parse(text) {
        Some(command) => Entry::Does(command),
        None => Entry::Refused,
    }
}

fn is_skipped(line: &str) -> bool
    ensures { IsTrue result ↔ IsSkipped line.now }
{
    line.is_empty() || line.starts_with('#')
}

/// No line spells two commands.
pub fn one_command()
    ensures { OneCommand }
{}

/// A line is one thing, and one alone: skipped, a command or refused.
pub fn one_entry()
    ensures { OneEntry }
{}
