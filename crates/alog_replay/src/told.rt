//! What is printed of what a stepped system tells.
ghost use Rattle.std.specs.Prelude.{◌≡◌, ◌++◌, OnOk, string_bytes};
ghost use Rattle.std.specs.Option.{option_copied};
ghost use Rattle.alog_replay.specs.Configured.{told_text, told_turn, took_text, filtered_text, sink_name};

use crate::command::TextRef;
use crate::print::{Shows, print_stepped, print_take, print_turn};
use alog_msg::{Item, Level};
use alog_system::{Stepped, Turn};
use std::alloc::AllocError;

impl Shows for Item {
    ghost use Rattle.alog_replay.specs.Configured.{shown_item};

    ghost shown = { shown_item };

    fn show(&self, out: &mut String) -> Result<(), AllocError> {
        match self {
            Item::Text(message) => out.push_str(message.text.as_str()),
            Item::Flush(logger) => write!(out, "flush {logger}"),
            Item::Stop => out.push_str("stop"),
        }
    }
}

/// Prints the level that filtered a log, if one did.
pub fn print_filtered(
    out: &mut String,
    actor: u8,
    filtered: Option<Level>,
) -> Result<(), AllocError>
    ensures { OnOk result (string_bytes out.new ≡ string_bytes out.old ++ filtered_text actor filtered) }
{
    match filtered {
        Some(level) => {
            let name = level.name();
            writeln!(out, "{actor} filtered {name}")
        }
        None => Ok(()),
    }
}

/// Prints a step, where the actor now has this item, and these are the names of the sinks.
pub fn print_told(
    out: &mut String,
    actor: u8,
    names: &[TextRef<'_>],
    held: Option<&Item>,
    told: &Stepped,
) -> Result<(), AllocError>
    ensures { OnOk result (string_bytes out.new
        ≡ string_bytes out.old ++ told_text names.now actor (option_copied held.entry) told.now) }
{
    match told {
        Stepped::Round(stepped) => print_stepped(out, actor, stepped),
        Stepped::Took(ticket) => print_took(out, actor, *ticket, held),
        Stepped::Turned(turn) => print_told_turn(out, actor, names, *turn),
    }
}

/// Prints a worker's take of the item that it now has.
fn print_took(
    out: &mut String,
    actor: u8,
    ticket: u64,
    held: Option<&Item>,
) -> Result<(), AllocError>
    ensures { OnOk result (string_bytes out.new ≡ string_bytes out.old ++ took_text actor ticket (option_copied held.entry)) }
{
    match held {
        Some(item) => print_take(out, actor, ticket, item),
        None => Ok(()),
    }
}

/// Prints a turn.
fn print_told_turn(
    out: &mut String,
    actor: u8,
    names: &[TextRef<'_>],
    turn: Turn,
) -> Result<(), AllocError>
    ensures { OnOk result (string_bytes out.new ≡ string_bytes out.old ++ told_turn names.now actor turn) }
{
    match turn {
        Turn::Kept => writeln!(out, "{actor} kept"),
        Turn::Dumped(count) => writeln!(out, "{actor} dumped {count}"),
        Turn::Line { ticket, sink } => print_turn(out, actor, "line", ticket, name_of(names, sink)),
        Turn::Below { ticket, sink } => {
            print_turn(out, actor, "below", ticket, name_of(names, sink))
        }
        Turn::Fault { ticket, sink } => {
            print_turn(out, actor, "fault", ticket, name_of(names, sink))
        }
        Turn::Flushed { ticket, sink } => {
            print_turn(out, actor, "flush", ticket, name_of(names, sink))
        }
    }
}

/// The name of a sink, the empty one past the last.
fn name_of<'a>(names: &[TextRef<'a>], sink: u32) -> &'a str
    ensures { result.now ≡ sink_name names.now sink }
{
    match names.get(sink as usize) {
        Some(name) => name.as_str(),
        None => "",
    }
}
