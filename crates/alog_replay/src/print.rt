//! What is printed of steps, ends of posts, turns, cells, losses and files.
ghost use Rattle.std.specs.Prelude.{◌≡◌, ◌++◌, ◌∷◌, OnOk, string_bytes};
ghost use Rattle.std.specs.Option.{option_map};
ghost use Rattle.alog_replay.specs.Session.{memory_turn_text, memory_file_text};
ghost use Rattle.alog_replay.specs.Texts.{said_text, stepped_text, take_line, ticket_line, outcome_text, why_name};
ghost use Rattle.alog_replay.specs.Texts.{turn_text, mark_name, file_text, cells_line, counts_text};

use crate::memory::NAME;
use alog_core::{CellView, Mark, Said};
use alog_policy::{Counts, Outcome, Stepped, Why};
use std::alloc::{AllocError, Global};

/// What a take shows of what it took.
pub trait Shows {
    ghost use Rattle.std.specs.Prelude.{◌≡◌, ◌++◌, ℕ, List, OnOk, string_bytes};

    ghost shown: { Self → List ℕ };

    /// Prints what is shown.
    fn show(&self, out: &mut String) -> Result<(), AllocError>
        ensures { OnOk result (string_bytes out.new ≡ string_bytes out.old ++ shown self.now) };
}

/// Prints the line of a step, if it was an event, and then the line of how the actor's post ended, if it did.
pub fn print_stepped<T: Shows>(
    out: &mut String,
    actor: u8,
    stepped: &Stepped<T>,
) -> Result<(), AllocError>
    ensures { OnOk result (string_bytes out.new ≡ string_bytes out.old ++ stepped_text T.shown actor stepped.now) }
{
    print_said(out, actor, &stepped.said)?;
    match &stepped.outcome {
        Some(outcome) => print_outcome(out, actor, outcome),
        None => Ok(()),
    }
}

/// Prints the line of how a post ended.
fn print_outcome<T>(out: &mut String, actor: u8, outcome: &Outcome<T>) -> Result<(), AllocError>
    ensures { OnOk result (string_bytes out.new ≡ string_bytes out.old ++ outcome_text actor outcome.now) }
{
    match outcome {
        Outcome::Posted { ticket, overran } => {
            writeln!(out, "{actor} posted {ticket} overran {overran}")
        }
        Outcome::Discarded { why, overran, .. } => {
            let why = why_name(*why);
            writeln!(out, "{actor} discarded {why} overran {overran}")
        }
    }
}

/// The name of why a post was discarded.
fn why_name(why: Why) -> &'static str
    ensures { result.now ≡ why_name why }
{
    match why {
        Why::Full => "full",
        Why::Stalled => "stalled",
        Why::Busy => "busy",
        Why::Spent => "spent",
    }
}

/// Prints the line of a step, or nothing for a step that is no event, or after which the pop looks at the end.
fn print_said<T: Shows>(out: &mut String, actor: u8, said: &Said<T>) -> Result<(), AllocError>
    ensures { OnOk result (string_bytes out.new ≡ string_bytes out.old ++ said_text T.shown actor said.now) }
{
    match said {
        Said::Nothing | Said::Front(_) => Ok(()),
        Said::Claim(ticket) => print_ticket(out, actor, "claim", *ticket),
        Said::Write(ticket) => print_ticket(out, actor, "write", *ticket),
        Said::Full(ticket, _) => print_ticket(out, actor, "full", *ticket),
        Said::Grab(ticket) => print_ticket(out, actor, "grab", *ticket),
        Said::Take(ticket, item) => print_take(out, actor, *ticket, item),
        Said::Empty(ticket) => print_ticket(out, actor, "empty", *ticket),
        Said::Idle(ticket) => print_ticket(out, actor, "idle", *ticket),
        Said::Busy(ticket, _) => print_ticket(out, actor, "busy", *ticket),
        Said::Spent(_) => writeln!(out, "{actor} spent"),
    }
}

/// Prints the line of an event at a ticket.
fn print_ticket(out: &mut String, actor: u8, what: &str, ticket: u64) -> Result<(), AllocError>
    ensures { OnOk result (string_bytes out.new ≡ string_bytes out.old ++ ticket_line actor what.now ticket) }
{
    writeln!(out, "{actor} {what} {ticket}")
}

/// Prints the line of a take.
pub fn print_take<T: Shows>(
    out: &mut String,
    actor: u8,
    ticket: u64,
    item: &T,
) -> Result<(), AllocError>
    ensures { OnOk result (string_bytes out.new ≡ string_bytes out.old ++ take_line actor ticket (T.shown item.now)) }
{
    write!(out, "{actor} take {ticket} ")?;
    item.show(out)?;
    out.push_str("\n")
}

/// Prints the line of a turn on a sink.
pub fn print_turn(
    out: &mut String,
    actor: u8,
    what: &str,
    ticket: u64,
    sink: &str,
) -> Result<(), AllocError>
    ensures { OnOk result (string_bytes out.new ≡ string_bytes out.old ++ turn_text actor what.now ticket sink.now) }
{
    writeln!(out, "{actor} {what} {ticket} {sink}")
}

/// Prints the line of a turn of the memory file, which wrote or failed.
pub fn print_memory_turn(
    out: &mut String,
    actor: u8,
    ticket: u64,
    written: bool,
) -> Result<(), AllocError>
    ensures { OnOk result (string_bytes out.new ≡ string_bytes out.old ++ memory_turn_text actor ticket written) }
{
    let what = if written { "line" } else { "fault" };
    print_turn(out, actor, what, ticket, NAME)
}

/// Prints the line of the cells.
pub fn print_cells(out: &mut String, cells: &[CellView]) -> Result<(), AllocError>
    ensures { OnOk result (string_bytes out.new ≡ string_bytes out.old ++ cells_line cells.now) }
{
    out.push_str("cells")?;
    for cell in cells {
        let ticket = cell.ticket;
        let mark = mark_name(cell.mark);
        write!(out, " {ticket}:{mark}")?;
    }
    out.push_str("\n")
}

/// The name of a mark.
fn mark_name(mark: Mark) -> &'static str
    ensures { result.now ≡ mark_name mark }
{
    match mark {
        Mark::Claimed => "claimed",
        Mark::Written => "written",
        Mark::Emptying => "emptying",
    }
}

/// Prints the line of the losses.
pub fn print_counts(out: &mut String, counts: Counts) -> Result<(), AllocError>
    ensures { OnOk result (string_bytes out.new ≡ string_bytes out.old ++ counts_text counts) }
{
    let Counts { overrun, discarded } = counts;
    writeln!(out, "overrun {overrun} discarded {discarded}")
}

/// Prints a file of a sink with both names and its length.
pub fn print_file(
    alloc: Global,
    out: &mut Vec<u8>,
    sink: &str,
    file: &str,
    bytes: &[u8],
) -> Result<(), AllocError>
    ensures { OnOk result (out.new.items ≡ out.old.items ++ file_text sink.now file.now bytes.now) }
{
    let length = bytes.len();
    let head = format!(in alloc; "== {sink} {file} {length}\n")?;
    out.extend_from_slice(head.as_bytes())?;
    out.extend_from_slice(bytes)
}

/// Prints the memory file, or nothing where it was not made.
pub fn print_memory_file(
    alloc: Global,
    out: &mut Vec<u8>,
    file: Option<&Vec<u8>>,
) -> Result<(), AllocError>
    ensures { OnOk result (out.new.items ≡ out.old.items ++ memory_file_text (option_map (λ b. b.now.items) file.entry)) }
{
    let Some(file) = file else {
        return Ok(());
    };
    print_file(alloc, out, NAME, NAME, file.as_slice())
}
