//! `alog pipe`: the lines of standard input through the loggers and sinks of a configuration.
ghost use Rattle.std.specs.Prelude.{◌≡◌, ◌≤◌, ◌<◌, ◌⊎◌, All, IsNone, OnOk, count_by, length, true, false, Some, None};
ghost use Rattle.std.specs.Io.KnownBytes.{Appends, Keeps};
ghost use Rattle.std.specs.List.{position};
ghost use Rattle.std.specs.Option.{option_map};
ghost use Rattle.alog_config.specs.Sinks.{is_leaf};
ghost use Rattle.alog_server.specs.Stores.{IsNew, patience_of};
ghost use Rattle.alog_program.specs.Loaded.{HasNoFault};
ghost use Rattle.alog_program.specs.Piped.{PipesDocument, PipesFile, PipesOn, is_asked, logger_in, name_in, told_text};

use crate::configuration::{read_document, refuse};
use crate::ended::fail_to_write;
use crate::load::{refuse_load, refuse_store, say_unopened};
use crate::request::PipeRequest;
use crate::sinks::say_faults;
use crate::totals::write_totals;
use alog_config::{BuildError, Config, LoggerConfig, leaves, read};
use alog_load::LoadError;
use alog_pipe::{Counts, Piped, TimedRead, pipe};
use alog_pool::{Report, Totals};
use alog_server::{Folders, Hold, Patience, folder_stores, hold_folder, patience_of};
use alog_sink::Store;
use std::io::{self, Write};
use std::rt::Files;
use std::sync::Wait;
use std::thread::Threads;
use std::time::Clock;

/// `alog pipe`: logs the lines of the input where the file has a configuration, and else says what is wrong with the file.
pub(crate) fn pipe_command<R, I: TimedRead, O: Write, E: Write>(
    rt: &R,
    request: &PipeRequest<'_>,
    input: &mut I,
    output: &mut O,
    errors: &mut E,
) -> u8
where
    R: AllocGlobal + Files + Folders + Threads + Wait + Clock,
    R: Clone + Drop + Send + Sync + 'static,
    ensures { PipesFile R.Folder.tells R.Folder.files R.Folder.failures R.tries request.now result
        (I.remaining input.old) (I.remaining input.new) (O.contents output.old) (O.contents output.new) }
{
    match read_document(rt, request.file, errors) {
        Ok(document) => pipe_document(rt, document.as_slice(), request, input, output, errors),
        Err(status) => status,
    }
}

/// Logs the lines through the configuration of a document, or says what is wrong with the document.
fn pipe_document<R, I: TimedRead, O: Write, E: Write>(
    rt: &R,
    document: &[u8],
    request: &PipeRequest<'_>,
    input: &mut I,
    output: &mut O,
    errors: &mut E,
) -> u8
where
    R: AllocGlobal + Files + Folders + Threads + Wait + Clock,
    R: Clone + Drop + Send + Sync + 'static,
    ensures { PipesDocument R.Folder.tells R.Folder.files R.Folder.failures R.tries document.now request.now result
        (I.remaining input.old) (I.remaining input.new) (O.contents output.old) (O.contents output.new) }
{
    match read(rt.alloc(), document) {
        Ok(config) => pipe_with(rt, &config, request, input, output, errors),
        Err(fault) => refuse(rt.alloc(), document, fault, errors),
    }
}

/// Logs the lines through this configuration, or says that it has no logger that is asked for.
fn pipe_with<R, I: TimedRead, O: Write, E: Write>(
    rt: &R,
    config: &Config,
    request: &PipeRequest<'_>,
    input: &mut I,
    output: &mut O,
    errors: &mut E,
) -> u8
where
    R: AllocGlobal + Files + Folders + Threads + Wait + Clock,
    R: Clone + Drop + Send + Sync + 'static,
    ensures { PipesOn R.Folder.tells R.Folder.files R.Folder.failures R.tries config.now request.now result
        (I.remaining input.old) (I.remaining input.new) (O.contents output.old) (O.contents output.new) }
{
    match logger_of(config, request.logger) {
        Some(logger) => pipe_to(rt, config, request, logger, input, output, errors),
        None => {
            let name = request.logger.unwrap_or("");
            let _ = writeln!(
                errors,
                "alog: --logger={name:?} is refused: no logger of {} has this name",
                request.file
            );
            1
        }
    }
}

/// Whether this logger is asked for: by its name, or any.
fn is_asked(logger: &LoggerConfig, name: Option<&str>) -> bool
    ensures { result ≡ is_asked (option_map (λ n. n.now) name.entry) logger.now }
{
    match name {
        None => true,
        Some(name) => logger.name.as_str() == name,
    }
}

/// The number of the first logger that is asked for.
fn logger_of(config: &Config, name: Option<&str>) -> Option<usize>
    ensures { result ≡ logger_in config.now (option_map (λ n. n.now) name.entry) }
{
    config
        .loggers
        .as_slice()
        .iter()
        .position(|logger| is_asked(logger, name))
}

/// Logs the lines to the logger of this number, over the files of the folder, which is held for them.
fn pipe_to<R, I: TimedRead, O: Write, E: Write>(
    rt: &R,
    config: &Config,
    request: &PipeRequest<'_>,
    logger: usize,
    input: &mut I,
    output: &mut O,
    errors: &mut E,
) -> u8
where
    R: AllocGlobal + Files + Folders + Threads + Wait + Clock,
    R: Clone + Drop + Send + Sync + 'static,
    requires named { logger_in config.now (name_in request.now) ≡ Some logger }
    ensures { PipesOn R.Folder.tells R.Folder.files R.Folder.failures R.tries config.now request.now result
        (I.remaining input.old) (I.remaining input.new) (O.contents output.old) (O.contents output.new) }
{
    match hold_folder(rt, rt.alloc(), request.folder, config) {
        Ok(Hold::Held(_lock)) => pipe_held(rt, config, request, logger, input, output, errors),
        Ok(Hold::Refused(why)) => {
            let _ = writeln!(errors, "alog: {why}");
            3
        }
        Err(_) => refuse_load(LoadError::OutOfMemory, errors),
    }
}

/// Logs the lines to the logger of this number, over the files of the folder that is held.
fn pipe_held<R, I: TimedRead, O: Write, E: Write>(
    rt: &R,
    config: &Config,
    request: &PipeRequest<'_>,
    logger: usize,
    input: &mut I,
    output: &mut O,
    errors: &mut E,
) -> u8
where
    R: AllocGlobal + Folders + Threads + Wait + Clock + Clone + Drop + Send + Sync + 'static,
    requires named { logger_in config.now (name_in request.now) ≡ Some logger }
    ensures { PipesOn R.Folder.tells R.Folder.files R.Folder.failures R.tries config.now request.now result
        (I.remaining input.old) (I.remaining input.new) (O.contents output.old) (O.contents output.new) }
{
    let patience = patience_of(config, Patience::Endless);
    match folder_stores(rt, rt.alloc(), request.folder, leaves(config), patience) {
        Ok(stores) => pipe_over(rt, config, stores, request, logger, input, output, errors),
        Err(_) => refuse_load(LoadError::OutOfMemory, errors),
    }
}

/// Logs the lines over these stores, and writes what came of it.
fn pipe_over<R, I: TimedRead, O: Write, E: Write>(
    rt: &R,
    config: &Config,
    stores: Vec<R::Folder>,
    request: &PipeRequest<'_>,
    logger: usize,
    input: &mut I,
    output: &mut O,
    errors: &mut E,
) -> u8
where
    R: AllocGlobal + Folders + Threads + Wait + Clock + Clone + Drop + Send + Sync + 'static,
    requires many { length stores.items ≡ count_by is_leaf config.now.sinks.items }
    requires fresh { All (IsNew R.Folder.tells R.Folder.files R.Folder.failures) stores.items }
    requires patient { All (λ s. R.tries s ≡ patience_of Patience.Endless config.now.retry) stores.items }
    requires named { logger_in config.now (name_in request.now) ≡ Some logger }
    ensures { PipesOn R.Folder.tells R.Folder.files R.Folder.failures R.tries config.now request.now result
        (I.remaining input.old) (I.remaining input.new) (O.contents output.old) (O.contents output.new) }
{
    let (logger, level) = (logger as u32, request.level);
    match pipe(rt, rt.alloc(), config, stores, input, logger, level) {
        Ok(piped) => tell(piped, config, request.totals, output, errors),
        Err(BuildError::OutOfMemory) => refuse_load(LoadError::OutOfMemory, errors),
        Err(BuildError::Store { sink, reason }) => {
            let status = refuse_load(LoadError::Store { sink, reason }, errors);
            say_unopened(rt.alloc(), config, sink, reason, errors);
            status
        }
    }
}

/// Tells what came of a pipe, which it then drops.
fn tell<S: Store + Drop, O: Write, E: Write>(
    piped: Piped<S>,
    config: &Config,
    to_output: bool,
    output: &mut O,
    errors: &mut E,
) -> u8
    ensures status { (result ≡ 0) ⊎ (result ≡ 3) }
    ensures done { result ≡ 0 → HasNoFault piped.report × IsNone piped.fault }
    ensures told { result ≡ 0 → to_output ≡ true
        → Appends (O.contents output.old) (O.contents output.new) (told_text piped.counts piped.missing piped.report.totals) }
    ensures untold { to_output ≡ false → Keeps (O.contents output.old) (O.contents output.new) }
{
    let mut piped = piped;
    conclude(&mut piped, config, to_output, output, errors)
}

/// Brings all lines to the stores, and writes what became of them; behind it, what failed.
fn conclude<S: Store + Drop, O: Write, E: Write>(
    piped: &mut Piped<S>,
    config: &Config,
    to_output: bool,
    output: &mut O,
    errors: &mut E,
) -> u8
    ensures status { (result ≡ 0) ⊎ (result ≡ 3) }
    ensures done { result ≡ 0 → HasNoFault piped.old.report × IsNone piped.old.fault }
    ensures told { result ≡ 0 → to_output ≡ true → Appends (O.contents output.old) (O.contents output.new)
        (told_text piped.old.counts piped.old.missing piped.old.report.totals) }
    ensures untold { to_output ≡ false → Keeps (O.contents output.old) (O.contents output.new) }
{
    let is_whole = piped.report.faults.iter().all(|number| *number == 0);
    let is_kept = brings_all(&mut piped.report);
    let (counts, missing, totals) = (piped.counts, piped.missing, piped.report.totals);
    let written = if to_output {
        write_told(output, counts, missing, totals)
    } else {
        write_told(errors, counts, missing, totals)
    };
    if let Err(error) = written {
        return fail_to_write(&error, errors);
    }
    if !(is_whole && is_kept) {
        let status = refuse_store(errors);
        say_faults(&mut piped.report, config, errors);
        return status;
    }
    end_of_input(&piped.fault, errors)
}

/// The status of a pipe of which all else is well, by what ended its input early, which is said.
fn end_of_input<E: Write>(fault: &Option<io::Error>, errors: &mut E) -> u8
    ensures status { (result ≡ 0) ⊎ (result ≡ 3) }
    ensures done { result ≡ 0 → IsNone fault.now }
{
    match fault {
        None => 0,
        Some(error) => {
            let _ = writeln!(errors, "alog: standard input cannot be read: {error}");
            3
        }
    }
}

/// Brings all lines to the stores, and answers whether none failed.
fn brings_all<S: Store>(report: &mut Report<S>) -> bool
    ensures { report.new.totals ≡ report.old.totals }
{
    let mut is_kept = true;
    for sink in report.sinks.iter_mut() {
        is_kept = sink.flush().is_ok() && is_kept;
    }
    is_kept
}

/// Writes what a pipe read, what is missing and the five totals, a line each, and flushes.
fn write_told<O: Write>(
    output: &mut O,
    counts: Counts,
    missing: u64,
    totals: Totals,
) -> io::Result<()>
    ensures { OnOk result (Appends (O.contents output.old) (O.contents output.new) (told_text counts missing totals)) }
{
    let Counts {
        lines,
        bytes,
        mended,
        cut,
    } = counts;
    write!(
        output,
        "lines {lines}\nbytes {bytes}\nmended {mended}\ncut {cut}\nmissing {missing}\n"
    )?;
    write_totals(output, totals)
}
