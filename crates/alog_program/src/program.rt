//! The whole program over any reader and two writers.
ghost use Rattle.std.specs.Prelude.{◌≡◌, ◌≤◌, ◌⊎◌, ◌↔◌, List, None, Some, map, MatchOption, OnOk};
ghost use Rattle.std.specs.Io.KnownBytes.{Appends, Keeps};
ghost use Rattle.clap.specs.Words.{Row, kind_of};
ghost use Rattle.alog_program.specs.Checks.{ChecksFile};
ghost use Rattle.alog_program.specs.CommandLine.{AsksCheck, AsksFormat, AsksLoad, AsksPipe, AsksReplayConfig, folder_in, values_in};
ghost use Rattle.alog_program.specs.Formats.{Formats};
ghost use Rattle.alog_program.specs.Line.{WritesLineOf, IsRefused};
ghost use Rattle.alog_program.specs.Loaded.{LoadsBy};
ghost use Rattle.alog_program.specs.Made.{IsAnswerTo, Makes};
ghost use Rattle.alog_program.specs.Piped.{PipesBy};
ghost use Rattle.alog_program.specs.Replays.{Replays, ReplaysFile};
ghost use Rattle.alog_program.specs.Status.{status_of};
ghost use Rattle.alog_program.specs.Words.{AsksReplay, IsAskedFor};

use crate::arguments::ArgumentsError;
use crate::check::check_command;
use crate::ended::{end_replay, fail_to_write};
use crate::line::line_of;
use crate::load::load_command;
use crate::pipe::pipe_command;
use crate::progress::Screen;
use crate::replay_config::replay_config_command;
use crate::request::{LineRequest, Request};
use crate::status::{number_of, status_of};
use crate::traced::{TracedReader, TracedWriter};
use crate::words::{WordsError, read};
use alog_pipe::TimedRead;
use alog_replay::{ReplayError, replay};
use alog_server::Folders;
use alog_sink::{MemStore, Store};
use clap::error::ErrorKind;
use core::mem::replace_with;
use std::alloc::Global;
use std::convert::AsStr;
use std::io;
use std::io::{Read, Write};
use std::rt::Files;
use std::sync::Wait;
use std::thread::Threads;
use std::time::Clock;

/// Runs the program on these words, of which the first is its own name, and answers its exit status: 0 where all was
/// done, 1 for a wrong command line, 2 for refused input, 3 for a read or write fault, 4 for want of memory.
///
/// A fault prints its line on `errors`. Help goes to `output`, and a wrong command line writes nothing there.
/// `alog replay` replays the script of `input`, as `alog_replay::replay` does, or with `--config` on the configuration of
/// a file, as `replay_config` does; where that file has none, nothing is read of the script and nothing is written on
/// `output`. `alog format` writes the line that its arguments ask for. `alog load` makes a load, as `alog_load::load` does,
/// and writes its totals; while it goes on, a terminal that standard error goes to shows how many messages were handled. `alog pipe`
/// logs the lines of `input`, as `alog_pipe::pipe` does, and writes its totals; it alone asks the reader not to wait, while the log does not
/// say yet that some are missing. No other command starts threads.
pub fn run<R, S: AsStr, I: TimedRead, O: Write, E: Write>(
    rt: &R,
    words: &[S],
    input: &mut I,
    output: &mut O,
    errors: &mut E,
) -> u8
where
    R: AllocGlobal + Files + Folders + Screen + Threads + Wait + Clock,
    R: Clone + Drop + Send + Sync + 'static,
    ensures status { result ≤ 4 }
    ensures usage { result ≡ 1 → Keeps (O.contents output.old) (O.contents output.new) }
    ensures replays { AsksReplay (map S.text words.now)
        → Replays result (I.remaining input.old) (I.remaining input.new) (O.contents output.old) (O.contents output.new) }
    ensures configured { (rows : List Row) → AsksReplayConfig (map S.text words.now) rows
        → ReplaysFile ⟦<MemStore as Store>⟧.tells ⟦<MemStore as Store>⟧.files ⟦<MemStore as Store>⟧.failures result
        (I.remaining input.old) (I.remaining input.new) (O.contents output.old) (O.contents output.new) }
    ensures formats { (rows : List Row) → AsksFormat (map S.text words.now) rows
        → Formats (values_in rows) result (O.contents output.old) (O.contents output.new) }
    ensures checks { (rows : List Row) → AsksCheck (map S.text words.now) rows
        → ChecksFile result (O.contents output.old) (O.contents output.new) }
    ensures loads { (rows : List Row) → AsksLoad (map S.text words.now) rows → MatchOption (folder_in rows)
        (LoadsBy ⟦<MemStore as Store>⟧.tells ⟦<MemStore as Store>⟧.files ⟦<MemStore as Store>⟧.failures
        None (values_in rows) result (O.contents output.old) (O.contents output.new))
        (λ _. LoadsBy R.Folder.tells R.Folder.files
        R.Folder.failures (Some R.tries) (values_in rows) result (O.contents output.old) (O.contents output.new)) }
    ensures pipes { (rows : List Row) → AsksPipe (map S.text words.now) rows → PipesBy R.Folder.tells R.Folder.files R.Folder.failures R.tries
        (values_in rows) result (I.remaining input.old) (I.remaining input.new) (O.contents output.old) (O.contents output.new) }
{
    match read(rt.alloc(), words) {
        Ok(request) => make(rt, &request, input, output, errors),
        Err(error) => refuse_words(&error, output, errors),
    }
}

/// Does what a command line asks for, and answers the exit status.
fn make<R, I: TimedRead, O: Write, E: Write>(
    rt: &R,
    request: &Request<'_>,
    input: &mut I,
    output: &mut O,
    errors: &mut E,
) -> u8
where
    R: AllocGlobal + Files + Folders + Screen + Threads + Wait + Clock,
    R: Clone + Drop + Send + Sync + 'static,
    ensures status { result ≤ 4 }
    ensures usage { result ≡ 1 → Keeps (O.contents output.old) (O.contents output.new) }
    ensures made { Makes ⟦<MemStore as Store>⟧.tells ⟦<MemStore as Store>⟧.files ⟦<MemStore as Store>⟧.failures
        R.Folder.tells R.Folder.files R.Folder.failures R.tries request.now result
        (I.remaining input.old) (I.remaining input.new) (O.contents output.old) (O.contents output.new) }
{
    match request {
        Request::Replay => replay_command(rt.alloc(), input, output, errors),
        Request::ReplayConfig(file) => replay_config_command(rt, *file, input, output, errors),
        Request::Format(line) => format_command(rt.alloc(), line, output, errors),
        Request::Check(file) => check_command(rt, *file, output, errors),
        Request::Load(load) => load_command(rt, load, output, errors),
        Request::Pipe(pipe) => pipe_command(rt, pipe, input, output, errors),
    }
}

/// Says why a command line asks for nothing, or what it asks `clap` for, and answers the exit status.
fn refuse_words<O: Write, E: Write>(error: &WordsError<'_>, output: &mut O, errors: &mut E) -> u8
    ensures status { result ≤ 4 }
    ensures usage { result ≡ 1 → Keeps (O.contents output.old) (O.contents output.new) }
    ensures refused { IsAnswerTo error.now result (O.contents output.old) (O.contents output.new) }
{
    match error {
        WordsError::Value(fault) => {
            let _ = writeln!(errors, "alog: {fault}");
            1
        }
        WordsError::LoadValue(fault) => {
            let _ = writeln!(errors, "alog: {fault}");
            1
        }
        WordsError::Clap(error) => explain(error, output, errors),
    }
}

/// Says why there are no words to run the program on, and answers the status: 1, or 4 for want of memory.
pub fn refuse_arguments<E: Write>(error: ArgumentsError, errors: &mut E) -> u8
    ensures status { (result ≡ 1) ⊎ (result ≡ 4) }
    ensures memory { (result ≡ 4) ↔ (error ≡ ArgumentsError.OutOfMemory) }
{
    if error == ArgumentsError::OutOfMemory {
        return fail(ReplayError::OutOfMemory, errors);
    }
    let _ = writeln!(errors, "alog: {error}");
    1
}

/// Says what `clap` says: help and the version on the output, and usage on standard error.
fn explain<O: Write, E: Write>(error: &clap::Error, output: &mut O, errors: &mut E) -> u8
    ensures status { (result ≤ 1) ⊎ ((3 ≤ result) × (result ≤ 4)) }
    ensures help { ((result ≡ 0) ⊎ (result ≡ 3)) ↔ IsAskedFor (kind_of error.now) }
    ensures memory { (result ≡ 4) ↔ (kind_of error.now ≡ ErrorKind.OutOfMemory) }
    ensures unwritten { (result ≡ 1) ⊎ (result ≡ 4) → Keeps (O.contents output.old) (O.contents output.new) }
{
    if !error.use_stderr() {
        return help(error, output, errors);
    }
    if error.kind() == ErrorKind::OutOfMemory {
        return fail(ReplayError::OutOfMemory, errors);
    }
    let _ = write!(errors, "{error}");
    1
}

/// `alog format`.
fn format_command<O: Write, E: Write>(
    alloc: Global,
    request: &LineRequest<'_>,
    output: &mut O,
    errors: &mut E,
) -> u8
    ensures status { (result ≡ 0) ⊎ ((2 ≤ result) × (result ≤ 4)) }
    ensures line { result ≡ 0 → WritesLineOf request.now (O.contents output.old) (O.contents output.new) }
    ensures refused { result ≡ 2 → IsRefused request.now }
    ensures due { IsRefused request.now → (result ≡ 2) ⊎ (result ≡ 4) }
    ensures unwritten { (result ≡ 2) ⊎ (result ≡ 4) → Keeps (O.contents output.old) (O.contents output.new) }
{
    let line = match line_of(alloc, request) {
        Ok(line) => line,
        Err(fault) => {
            let number = fault.number();
            let _ = writeln!(errors, "alog: refused {number}\nalog: {fault}");
            return fault.status();
        }
    };
    match write_out(output, line.as_slice()) {
        Ok(()) => 0,
        Err(error) => fail_to_write(&error, errors),
    }
}

/// Writes all these bytes, and flushes.
pub(crate) fn write_out<O: Write>(output: &mut O, bytes: &[u8]) -> io::Result<()>
    ensures { OnOk result (Appends (O.contents output.old) (O.contents output.new) bytes.now) }
{
    output.write_all(bytes)?;
    output.flush()
}

/// `alog replay`.
fn replay_command<I: Read, O: Write, E: Write>(
    alloc: Global,
    input: &mut I,
    output: &mut O,
    errors: &mut E,
) -> u8
    ensures status { result ≤ 4 }
    ensures replays { Replays result (I.remaining input.old) (I.remaining input.new) (O.contents output.old) (O.contents output.new) }
{
    let (status, _output) = replace_with(input, output, |input, output| {
        replay_read(alloc, input, output, errors)
    });
    status
}

/// The same with the reader itself, which is given back, with the status and the writer.
fn replay_read<'a, I: Read, O: Write, E: Write>(
    alloc: Global,
    input: I,
    output: &'a mut O,
    errors: &mut E,
) -> (I, (u8, &'a mut O))
    ensures status { result.1.0 ≤ 4 }
    ensures same_writer { result.1.1.ghost_name ≡ output.entry.ghost_name }
    ensures replays { Replays result.1.0 (I.remaining input) (I.remaining result.0) (O.contents output.old) (O.contents result.1.1.now) }
{
    let script = TracedReader::new(alloc, input);
    let (status, script) = replace_with(output, script, |output, script| {
        replay_traced(alloc, script, output, errors)
    });
    (script.input, (status, output))
}

/// The same with the writer itself too, and a reader that remembers.
fn replay_traced<I: Read, O: Write, E: Write>(
    alloc: Global,
    script: TracedReader<I>,
    output: O,
    errors: &mut E,
) -> (O, (u8, TracedReader<I>))
    ensures status { result.1.0 ≤ 4 }
    ensures replays { Replays result.1.0 (I.remaining script.input) (I.remaining result.1.1.input) (O.contents output) (O.contents result.0) }
{
    let mut script = script;
    let mut printed = TracedWriter::new(output);
    let status = replay_told(alloc, &mut script, &mut printed, errors);
    (printed.output, (status, script))
}

/// The same, through a reader and a writer that remember.
fn replay_told<I: Read, O: Write, E: Write>(
    alloc: Global,
    script: &mut TracedReader<I>,
    printed: &mut TracedWriter<O>,
    errors: &mut E,
) -> u8
    ensures status { result ≤ 4 }
    ensures replays { Replays result (I.remaining script.old.input) (I.remaining script.new.input) (O.contents printed.old.output) (O.contents printed.new.output) }
{
    match replay(alloc, script, printed) {
        Ok(_) => 0,
        Err(fault) => end_replay(alloc, fault, script, printed, None, errors),
    }
}

/// Writes the lines of a fault that is no line's, its number and what it is, and answers its status.
pub(crate) fn fail<E: Write>(fault: ReplayError, errors: &mut E) -> u8
    ensures { result ≡ status_of fault }
{
    let number = number_of(fault);
    let _ = writeln!(errors, "alog: refused {number}\nalog: {fault}");
    status_of(fault)
}

/// Writes the text of help or of the version.
fn help<O: Write, E: Write>(text: &clap::Error, output: &mut O, errors: &mut E) -> u8
    ensures status { (result ≡ 0) ⊎ (result ≡ 3) }
{
    let written = match write!(output, "{text}") {
        Ok(()) => output.flush(),
        Err(error) => Err(error),
    };
    match written {
        Ok(()) => 0,
        Err(error) => fail_to_write(&error, errors),
    }
}
