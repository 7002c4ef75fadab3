//! The replay of a script, from a reader to a writer, on anything that is `Playable`.
ghost use Rattle.std.specs.Prelude.{◌≡◌, ◌+◌, ◌++◌, ◌<◌, ◌≤◌, ℕ, true, List, [], Some, None, length, string_bytes};
ghost use Rattle.std.specs.Prelude.{IfOk, IfErr, IfSome, OnOk, OnErr, IsErrOf};
ghost use Rattle.std.specs.Io.KnownBytes.{Appends};
ghost use Rattle.alog_replay.specs.Scene.{IsDone, IsRefused, Makes, Runs, Plays, refused};
ghost use Rattle.alog_replay.specs.Script.{Whole, RefusedAt, LineDone, LineRefused, WritesLine, WritesRefused, WritesLineFront};
ghost use Rattle.alog_replay.specs.Script.{WritesFrontOf, IsNoRefusal, WritesText, WritesFront, WasRead, TellsSomething};
ghost use Rattle.alog_replay.specs.Plain.{plain, OneText};

use crate::command::{Actor, Command};
use crate::entry::{Entry, entry_of};
use crate::error::{LineError, ReplayError};
use crate::limits::{SCRIPT_LINE_MAX, STEPS_MAX};
use crate::lines::{Line, LineReader};
use crate::scene::Playable;
use crate::session::Session;
use alog_sink::MemStore;
use std::alloc::Global;
use std::io::{ErrorKind, Read, Write};

/// An actor makes this many steps.
fn make_steps<S: Playable>(
    stage: &mut S,
    actor: Actor,
    count: u32,
    out: &mut String,
) -> Result<(), LineError>
    ensures done { OnOk result (IsDone (Makes S.scene refused count actor stage.old)
        (string_bytes out.old) (string_bytes out.new) stage.new) }
    ensures refused { IsErrOf result LineError.Refused → IsRefused (Makes S.scene refused count actor stage.old)
        (string_bytes out.old) (string_bytes out.new) }
{
    for _ in 0..count {
        stage.step(actor, out)?;
    }
    Ok(())
}

/// An actor in a call makes steps until its call has ended, but no more than `STEPS_MAX`.
fn run<S: Playable>(stage: &mut S, actor: Actor, out: &mut String) -> Result<(), LineError>
    ensures done { OnOk result (IsDone (Runs S.scene actor stage.old)
        (string_bytes out.old) (string_bytes out.new) stage.new) }
    ensures refused { IsErrOf result LineError.Refused → IsRefused (Runs S.scene actor stage.old)
        (string_bytes out.old) (string_bytes out.new) }
{
    if stage.is_free(actor) {
        return Err(LineError::Refused);
    }
    for _ in 0..STEPS_MAX {
        if stage.is_free(actor) {
            break;
        }
        stage.step(actor, out)?;
    }
    Ok(())
}

/// Carries out a command, and prints what it prints behind `out`.
fn carry_out<S: Playable>(
    alloc: Global,
    stage: &mut S,
    command: Command<'_>,
    out: &mut String,
) -> Result<(), LineError>
    ensures done { OnOk result (IsDone (Plays S.scene stage.old command.entry)
        (string_bytes out.old) (string_bytes out.new) stage.new) }
    ensures refused { IsErrOf result LineError.Refused → IsRefused (Plays S.scene stage.old command.entry)
        (string_bytes out.old) (string_bytes out.new) }
{
    match command {
        Command::Acts(act) => stage.act(alloc, act, out),
        Command::Step { actor, count } => make_steps(stage, actor, count, out),
        Command::Run { actor } => run(stage, actor, out),
    }
}

/// Plays a line, and prints what it prints behind `out`.
fn play_line<S: Playable>(
    alloc: Global,
    stage: &mut S,
    line: &[u8],
    out: &mut String,
) -> Result<(), LineError>
    requires { length line.now ≤ SCRIPT_LINE_MAX }
    ensures done { OnOk result (LineDone S.scene stage.old line.now
        (string_bytes out.old) (string_bytes out.new) stage.new) }
    ensures refused { IsErrOf result LineError.Refused → LineRefused S.scene stage.old line.now
        (string_bytes out.old) (string_bytes out.new) }
{
    match entry_of(line) {
        Entry::Skipped => Ok(()),
        Entry::Does(command) => carry_out(alloc, stage, command, out),
        Entry::Refused => Err(LineError::Refused),
    }
}

/// Writes all these bytes, or a front of them.
fn write_whole<W: Write>(writer: &mut W, bytes: &[u8]) -> Result<(), ReplayError>
    ensures whole { OnOk result (Appends (W.contents writer.old) (W.contents writer.new) bytes.now) }
    ensures front { IfErr result (λ e. (e ≡ ReplayError.WriteFault)
        × WritesFrontOf bytes.now (W.contents writer.old) (W.contents writer.new)) }
{
    let mut rest = bytes;
    for _ in 0..u64::MAX {
        if rest.is_empty() {
            return Ok(());
        }
        match writer.write(rest) {
            Ok(0) => return Err(ReplayError::WriteFault),
            Ok(n) => rest = &rest[n..],
            Err(error) if error.kind() == ErrorKind::Interrupted => {}
            Err(_) => return Err(ReplayError::WriteFault),
        }
    }
    Err(ReplayError::WriteFault)
}

/// Plays a line, which is the one of this number, and writes what it prints.
fn play_and_write<S: Playable, W: Write>(
    alloc: Global,
    stage: &mut S,
    line: &[u8],
    number: u64,
    writer: &mut W,
    out: &mut String,
) -> Result<(), ReplayError>
    requires { length line.now ≤ SCRIPT_LINE_MAX }
    ensures done { OnOk result (WritesLine S.scene stage.old line.now stage.new (W.contents writer.old) (W.contents writer.new)) }
    ensures refused { IfErr result (λ e. (k : ℕ) → e ≡ ReplayError.LineRefused k → (k ≡ number)
        × WritesRefused S.scene stage.old line.now (W.contents writer.old) (W.contents writer.new)) }
    ensures front { OnErr result (WritesLineFront S.scene stage.old line.now (W.contents writer.old) (W.contents writer.new)) }
{
    out.clear();
    match play_line(alloc, stage, line, out) {
        Ok(()) => write_whole(writer, out.as_bytes()),
        Err(LineError::Refused) => {
            write_whole(writer, out.as_bytes())?;
            Err(ReplayError::LineRefused { line: number })
        }
        Err(LineError::OutOfMemory) => Err(ReplayError::OutOfMemory),
    }
}

/// Writes the files at the end of a script.
fn finish<S: Playable, W: Write>(
    alloc: Global,
    stage: &S,
    writer: &mut W,
) -> Result<(), ReplayError>
    ensures done { OnOk result (Appends (W.contents writer.old) (W.contents writer.new) (S.scene.files stage.now)) }
    ensures front { IfErr result (λ e. IsNoRefusal e
        × WritesFrontOf (S.scene.files stage.now) (W.contents writer.old) (W.contents writer.new)) }
{
    let mut files = Vec::new(alloc);
    stage.print_files(alloc, &mut files)?;
    write_whole(writer, files.as_slice())?;
    match writer.flush() {
        Ok(()) => Ok(()),
        Err(_) => Err(ReplayError::WriteFault),
    }
}

/// Plays the script that a reader gives, and writes what it prints. It answers the number of the script's lines.
pub fn play<S: Playable, R: Read, W: Write>(
    alloc: Global,
    stage: &mut S,
    reader: &mut R,
    writer: &mut W,
) -> Result<u64, ReplayError>
    ensures whole { IfOk result (λ n. IfSome (R.remaining reader.old) (λ script.
        WritesText S.scene stage.old script (λ text. Whole text n) (W.contents writer.old) (W.contents writer.new))) }
    ensures refused { IfErr result (λ e. (line : ℕ) → e ≡ ReplayError.LineRefused line → IfSome (R.remaining reader.old) (λ script.
        WritesText S.scene stage.old script (RefusedAt line) (W.contents writer.old) (W.contents writer.new))) }
    ensures front { OnErr result (WasRead (R.remaining reader.old) (R.remaining reader.new) (λ read.
        WritesFront S.scene stage.old read (W.contents writer.old) (W.contents writer.new))) }
{
    let mut lines = LineReader::new(alloc)?;
    let mut out = String::new(alloc);
    let mut count = 0u64;
    'lines: loop {
        match lines.next_line(reader)? {
            Line::Found => {}
            Line::TooLong => return Err(ReplayError::LineRefused { line: count + 1 }),
            Line::End => {
                finish(alloc, stage, writer)?;
                return Ok(count);
            }
        }
        count += 1;
        play_and_write(alloc, stage, lines.line(), count, writer, &mut out)?;
    }
}

/// Replays the script that a reader gives, and writes what it prints. It answers the number of the script's lines.
///
/// Where the reader tells its bytes and the writer what it holds, what is written is the text of the script as
/// `specs/Script.antt` defines it, and nothing else. A store that has no memory for a line is no fault of the replay: the
/// turn prints `fault`, and so does each later one. A refused line is the first one, and what was printed before it,
/// and of it, is written. After any fault what is written is a front of what those bytes tell that were read.
///
/// `examples/` and `rows/` have scripts, and what they print.
pub fn replay<R: Read, W: Write>(
    alloc: Global,
    reader: &mut R,
    writer: &mut W,
) -> Result<u64, ReplayError>
    ensures whole { IfOk result (λ n. IfSome (R.remaining reader.old) (λ script.
        WritesText (plain true) None script (λ text. Whole text n) (W.contents writer.old) (W.contents writer.new))) }
    ensures refused { IfErr result (λ e. (line : ℕ) → e ≡ ReplayError.LineRefused line → IfSome (R.remaining reader.old) (λ script.
        WritesText (plain true) None script (RefusedAt line) (W.contents writer.old) (W.contents writer.new))) }
    ensures front { OnErr result (WasRead (R.remaining reader.old) (R.remaining reader.new) (λ read.
        WritesFront (plain true) None read (W.contents writer.old) (W.contents writer.new))) }
{
    let mut session: Option<Session<MemStore>> = None;
    play(alloc, &mut session, reader, writer)
}

/// Each script tells something on a scene where something comes of each act and of each step. It does nothing: its
/// contract is the law.
pub fn tells_something<S: Playable>()
    ensures { TellsSomething S.scene }
{}

/// A script without a configuration whose store never fails tells one thing, and one alone. It is among what the script
/// may tell over a store that may fail, of which `replay` speaks.
pub fn one_text()
    ensures { OneText }
{}
