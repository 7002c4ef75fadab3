//! `alog replay --config`: a script, on the loggers and sinks of a configuration.
ghost use Rattle.std.specs.Prelude.{◌≡◌, ◌≤◌};
ghost use Rattle.alog_program.specs.Replays.{ReplaysOn, ReplaysDocument, ReplaysFile};

use crate::configuration::{read_document, refuse};
use crate::ended::end_replay;
use crate::traced::{TracedReader, TracedWriter};
use alog_config::{Config, read};
use alog_replay::replay_config;
use alog_sink::{MemStore, Store};
use core::mem::replace_with;
use std::alloc::Global;
use std::io::{Read, Write};
use std::rt::Files;

/// `alog replay --config`: replays the script where the file has a configuration, and else says what is wrong with the
/// file.
pub(crate) fn replay_config_command<R: AllocGlobal + Files, I: Read, O: Write, E: Write>(
    rt: &R,
    file: &str,
    input: &mut I,
    output: &mut O,
    errors: &mut E,
) -> u8
    ensures status { result ≤ 4 }
    ensures replays { ReplaysFile ⟦<MemStore as Store>⟧.tells ⟦<MemStore as Store>⟧.files ⟦<MemStore as Store>⟧.failures result
        (I.remaining input.old) (I.remaining input.new) (O.contents output.old) (O.contents output.new) }
{
    match read_document(rt, file, errors) {
        Ok(document) => replay_document(rt.alloc(), document.as_slice(), input, output, errors),
        Err(status) => status,
    }
}

/// Replays the script on the configuration of a document, or says what is wrong with the document.
fn replay_document<I: Read, O: Write, E: Write>(
    alloc: Global,
    document: &[u8],
    input: &mut I,
    output: &mut O,
    errors: &mut E,
) -> u8
    ensures status { result ≤ 4 }
    ensures replays { ReplaysDocument ⟦<MemStore as Store>⟧.tells ⟦<MemStore as Store>⟧.files ⟦<MemStore as Store>⟧.failures document.now result
        (I.remaining input.old) (I.remaining input.new) (O.contents output.old) (O.contents output.new) }
{
    match read(alloc, document) {
        Ok(config) => replay_on(alloc, &config, input, output, errors),
        Err(fault) => refuse(alloc, document, fault, errors),
    }
}

/// Replays the script on a configuration.
fn replay_on<I: Read, O: Write, E: Write>(
    alloc: Global,
    config: &Config,
    input: &mut I,
    output: &mut O,
    errors: &mut E,
) -> u8
    ensures status { result ≤ 4 }
    ensures replays { ReplaysOn ⟦<MemStore as Store>⟧.tells ⟦<MemStore as Store>⟧.files ⟦<MemStore as Store>⟧.failures config.now result
        (I.remaining input.old) (I.remaining input.new) (O.contents output.old) (O.contents output.new) }
{
    let (status, _output) = replace_with(input, output, |input, output| {
        replay_read(alloc, config, input, output, errors)
    });
    status
}

/// The same with the reader itself, which is given back, with the status and the writer.
fn replay_read<'a, I: Read, O: Write, E: Write>(
    alloc: Global,
    config: &Config,
    input: I,
    output: &'a mut O,
    errors: &mut E,
) -> (I, (u8, &'a mut O))
    ensures status { result.1.0 ≤ 4 }
    ensures same_writer { result.1.1.ghost_name ≡ output.entry.ghost_name }
    ensures replays { ReplaysOn ⟦<MemStore as Store>⟧.tells ⟦<MemStore as Store>⟧.files ⟦<MemStore as Store>⟧.failures config.now result.1.0
        (I.remaining input) (I.remaining result.0) (O.contents output.old) (O.contents result.1.1.now) }
{
    let script = TracedReader::new(alloc, input);
    let (status, script) = replace_with(output, script, |output, script| {
        replay_traced(alloc, config, script, output, errors)
    });
    (script.input, (status, output))
}

/// The same with the writer itself too, and a reader that remembers.
fn replay_traced<I: Read, O: Write, E: Write>(
    alloc: Global,
    config: &Config,
    script: TracedReader<I>,
    output: O,
    errors: &mut E,
) -> (O, (u8, TracedReader<I>))
    ensures status { result.1.0 ≤ 4 }
    ensures replays { ReplaysOn ⟦<MemStore as Store>⟧.tells ⟦<MemStore as Store>⟧.files ⟦<MemStore as Store>⟧.failures config.now result.1.0
        (I.remaining script.input) (I.remaining result.1.1.input) (O.contents output) (O.contents result.0) }
{
    let mut script = script;
    let mut printed = TracedWriter::new(output);
    let status = replay_told(alloc, config, &mut script, &mut printed, errors);
    (printed.output, (status, script))
}

/// The same, through a reader and a writer that remember.
fn replay_told<I: Read, O: Write, E: Write>(
    alloc: Global,
    config: &Config,
    script: &mut TracedReader<I>,
    printed: &mut TracedWriter<O>,
    errors: &mut E,
) -> u8
    ensures status { result ≤ 4 }
    ensures replays { ReplaysOn ⟦<MemStore as Store>⟧.tells ⟦<MemStore as Store>⟧.files ⟦<MemStore as Store>⟧.failures config.now result
        (I.remaining script.old.input) (I.remaining script.new.input) (O.contents printed.old.output) (O.contents printed.new.output) }
{
    match replay_config(alloc, config, script, printed) {
        Ok(_) => 0,
        Err(fault) => end_replay(alloc, fault, script, printed, Some(config), errors),
    }
}
