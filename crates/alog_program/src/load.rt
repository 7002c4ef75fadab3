//! `alog load`: a load through the loggers and sinks of a configuration.
ghost use Rattle.std.specs.Prelude.{◌≡◌, ◌↔◌, ◌⊎◌, IfSome, IsTrue, All, MatchOption, None, Option, Some, count_by, length};
ghost use Rattle.std.specs.Io.KnownBytes.{Appends};
ghost use Rattle.alog_config.specs.Sinks.{is_leaf};
ghost use Rattle.alog_load.specs.Load.{AreBad};
ghost use Rattle.alog_patient.specs.declared.patience.Patience.{Patience};
ghost use Rattle.alog_program.specs.Loaded.{ArePatient, HasNoFault, LoadsDocument, LoadsFile, LoadsOn, totals_text};
ghost use Rattle.alog_program.specs.Status.{load_status_of};
ghost use Rattle.alog_server.specs.Stores.{IsNew};

use crate::configuration::{read_document, refuse};
use crate::ended::fail_to_write;
use crate::progress::{Progress, Screen};
use crate::request::LoadRequest;
use crate::sinks::say_faults;
use crate::status::{load_number_of, load_status_of};
use crate::stores::memory_stores;
use crate::totals::write_totals;
use alog_config::{Config, explain_unopened, leaves, read};
use alog_load::{LOAD_MESSAGES_MAX, LOAD_PRODUCERS_MAX, LoadError, load};
use alog_pool::Report;
use alog_server::{Folders, Hold, Patience, folder_stores, hold_folder, patience_of};
use alog_sink::{MemStore, Store};
use std::alloc::{AllocError, Global};
use std::io::{self, Write};
use std::rt::Files;
use std::sync::Wait;
use std::thread::Threads;
use std::time::Clock;

/// `alog load`: makes the load where the file has a configuration, and else says what is wrong with the file.
pub(crate) fn load_command<R, O: Write, E: Write>(
    rt: &R,
    request: &LoadRequest<'_>,
    output: &mut O,
    errors: &mut E,
) -> u8
where
    R: AllocGlobal + Files + Folders + Screen + Threads + Wait + Clock,
    R: Clone + Drop + Send + Sync + 'static,
    ensures { MatchOption request.now.folder
        (LoadsFile ⟦<MemStore as Store>⟧.tells ⟦<MemStore as Store>⟧.files ⟦<MemStore as Store>⟧.failures
        None request.now result (O.contents output.old) (O.contents output.new))
        (λ _. LoadsFile R.Folder.tells R.Folder.files
        R.Folder.failures (Some R.tries) request.now result (O.contents output.old) (O.contents output.new)) }
{
    match read_document(rt, request.file, errors) {
        Ok(document) => load_document(rt, document.as_slice(), request, output, errors),
        Err(status) => status,
    }
}

/// Makes the load of the configuration of a document, or says what is wrong with the document.
fn load_document<R, O: Write, E: Write>(
    rt: &R,
    document: &[u8],
    request: &LoadRequest<'_>,
    output: &mut O,
    errors: &mut E,
) -> u8
where
    R: AllocGlobal + Files + Folders + Screen + Threads + Wait + Clock,
    R: Clone + Drop + Send + Sync + 'static,
    ensures { MatchOption request.now.folder
        (LoadsDocument ⟦<MemStore as Store>⟧.tells ⟦<MemStore as Store>⟧.files ⟦<MemStore as Store>⟧.failures
        None document.now request.now result (O.contents output.old) (O.contents output.new))
        (λ _. LoadsDocument R.Folder.tells R.Folder.files
        R.Folder.failures (Some R.tries) document.now request.now result
        (O.contents output.old) (O.contents output.new)) }
{
    match read(rt.alloc(), document) {
        Ok(config) => load_with(rt, &config, request, output, errors),
        Err(fault) => refuse(rt.alloc(), document, fault, errors),
    }
}

/// Makes the load of this configuration, over files of the folder that is asked for, or over stores in memory.
fn load_with<R, O: Write, E: Write>(
    rt: &R,
    config: &Config,
    request: &LoadRequest<'_>,
    output: &mut O,
    errors: &mut E,
) -> u8
where
    R: AllocGlobal + Files + Folders + Screen + Threads + Wait + Clock,
    R: Clone + Drop + Send + Sync + 'static,
    ensures { MatchOption request.now.folder
        (LoadsOn ⟦<MemStore as Store>⟧.tells ⟦<MemStore as Store>⟧.files ⟦<MemStore as Store>⟧.failures
        None config.now request.now result (O.contents output.old) (O.contents output.new))
        (λ _. LoadsOn R.Folder.tells R.Folder.files
        R.Folder.failures (Some R.tries) config.now request.now result
        (O.contents output.old) (O.contents output.new)) }
{
    match request.folder {
        None => load_in_memory(rt, config, request, output, errors),
        Some(path) => load_to_folder(rt, path, config, request, output, errors),
    }
}

/// Makes the load of this configuration over stores in memory.
fn load_in_memory<R, O: Write, E: Write>(
    rt: &R,
    config: &Config,
    request: &LoadRequest<'_>,
    output: &mut O,
    errors: &mut E,
) -> u8
where
    R: AllocGlobal + Screen + Threads + Wait + Clock + Clone + Drop + Send + Sync + 'static,
    ensures { LoadsOn ⟦<MemStore as Store>⟧.tells ⟦<MemStore as Store>⟧.files ⟦<MemStore as Store>⟧.failures
        None config.now request.now result (O.contents output.old) (O.contents output.new) }
{
    match memory_stores(rt.alloc(), leaves(config)) {
        Ok(stores) => load_over(rt, config, stores, request, output, errors),
        Err(_) => refuse_load(LoadError::OutOfMemory, errors),
    }
}

/// Makes the load of this configuration over the files of this folder, which is held for them.
fn load_to_folder<R, O: Write, E: Write>(
    rt: &R,
    path: &str,
    config: &Config,
    request: &LoadRequest<'_>,
    output: &mut O,
    errors: &mut E,
) -> u8
where
    R: AllocGlobal + Files + Folders + Screen + Threads + Wait + Clock,
    R: Clone + Drop + Send + Sync + 'static,
    ensures { LoadsOn R.Folder.tells R.Folder.files R.Folder.failures (Some R.tries)
        config.now request.now result (O.contents output.old) (O.contents output.new) }
{
    let mut lock = None;
    if let Some(status) = refused_folder(rt, path, config, request, &mut lock, errors) {
        return status;
    }
    let patience = patience_of(config, Patience::Times(0));
    match folder_stores(rt, rt.alloc(), path, leaves(config), patience) {
        Ok(stores) => load_over(rt, config, stores, request, output, errors),
        Err(_) => refuse_load(LoadError::OutOfMemory, errors),
    }
}

/// Makes the load of a configuration over these stores, and writes its totals. While it goes on, a terminal shows how far it is.
fn load_over<R, S: Store + Drop + Send + 'static, O: Write, E: Write>(
    rt: &R,
    config: &Config,
    stores: Vec<S>,
    request: &LoadRequest<'_>,
    output: &mut O,
    errors: &mut E,
) -> u8
where
    R: AllocGlobal + Screen + Threads + Wait + Clock + Clone + Drop + Send + Sync + 'static,
    requires many { length stores.items ≡ count_by is_leaf config.now.sinks.items }
    requires fresh { All (IsNew S.tells S.files S.failures) stores.items }
    ensures { (tries : Option (S → Patience)) → ArePatient tries config.now stores.items
        → LoadsOn S.tells S.files S.failures tries config.now request.now result (O.contents output.old) (O.contents output.new) }
{
    let LoadRequest {
        producers,
        messages,
        ..
    } = *request;
    let own: Result<R, AllocError> = rt.clone();
    let Ok(own) = own else {
        return refuse_load(LoadError::OutOfMemory, errors);
    };
    let gate = Progress::of(own, producers.saturating_mul(messages));
    let made = load(rt, rt.alloc(), config, stores, gate, producers, messages);
    if rt.is_watched() {
        rt.clear();
    }
    match made {
        Ok(report) => tell(report, config, output, errors),
        Err(fault) => refuse_asked(rt.alloc(), fault, config, request, errors),
    }
}

/// Holds this folder for a load by numbers within their bounds. Where its files cannot be written, or another alog holds it, or there is
/// no memory to ask, that is said, and the answer is the status.
fn refused_folder<R: AllocGlobal + Files + Folders, E: Write>(
    rt: &R,
    path: &str,
    config: &Config,
    request: &LoadRequest<'_>,
    lock: &mut Option<R::Lock>,
    errors: &mut E,
) -> Option<u8>
    ensures { IfSome result (λ s. (s ≡ load_status_of LoadError.OutOfMemory)
        ⊎ ((s ≡ 3) × (¬ AreBad request.now.producers request.now.messages))) }
{
    if is_out_of_bounds(request) {
        return None;
    }
    match hold_folder(rt, rt.alloc(), path, config) {
        Ok(Hold::Held(held)) => {
            *lock = Some(held);
            None
        }
        Ok(Hold::Refused(why)) => {
            let _ = writeln!(errors, "alog: {why}");
            Some(3)
        }
        Err(_) => Some(refuse_load(LoadError::OutOfMemory, errors)),
    }
}

/// Whether one of a load's numbers is out of its bounds.
fn is_out_of_bounds(request: &LoadRequest<'_>) -> bool
    ensures { IsTrue result ↔ AreBad request.now.producers request.now.messages }
{
    request.producers < 1
        || request.producers > LOAD_PRODUCERS_MAX
        || request.messages > LOAD_MESSAGES_MAX
}

/// Brings all lines to the stores, and writes the totals of a load; behind them, that a store failed, where one did.
fn tell<S: Store + Drop, O: Write, E: Write>(
    report: Report<S>,
    config: &Config,
    output: &mut O,
    errors: &mut E,
) -> u8
    ensures status { (result ≡ 0) ⊎ (result ≡ 3) }
    ensures done { result ≡ 0 → HasNoFault report × Appends (O.contents output.old) (O.contents output.new) (totals_text report.totals) }
{
    let mut report = report;
    let is_whole = report.faults.iter().all(|number| *number == 0);
    let mut is_kept = true;
    for sink in report.sinks.iter_mut() {
        is_kept = sink.flush().is_ok() && is_kept;
    }
    match write_totals(output, report.totals) {
        Ok(()) if is_whole && is_kept => 0,
        Ok(()) => {
            let status = refuse_store(errors);
            say_faults(&mut report, config, errors);
            status
        }
        Err(error) => fail_to_write(&error, errors),
    }
}

/// Writes the lines of a fault of the load that was asked for, of this configuration, and answers its status.
fn refuse_asked<E: Write>(
    alloc: Global,
    fault: LoadError,
    config: &Config,
    request: &LoadRequest<'_>,
    errors: &mut E,
) -> u8
    ensures { result ≡ load_status_of fault }
{
    let status = refuse_load(fault, errors);
    match fault {
        LoadError::BadValue => say_bounds(request, errors),
        LoadError::Store { sink, reason } => say_unopened(alloc, config, sink, reason, errors),
        LoadError::OutOfMemory => {}
    }
    status
}

/// Says which sink could not be opened, and what the system said of it. Where there is no memory for the words, nothing is said.
pub(crate) fn say_unopened<E: Write>(
    alloc: Global,
    config: &Config,
    sink: usize,
    reason: Option<io::Error>,
    errors: &mut E,
) {
    if let Ok(text) = explain_unopened(alloc, config, sink, reason) {
        let _ = writeln!(errors, "alog: {text}");
    }
}

/// Says which of a load's numbers is out of its bounds.
fn say_bounds<E: Write>(request: &LoadRequest<'_>, errors: &mut E) {
    let LoadRequest {
        producers,
        messages,
        ..
    } = *request;
    let (name, value, bounds) = if producers < 1 || producers > LOAD_PRODUCERS_MAX {
        ("producers", producers, "1 to 64")
    } else {
        ("messages", messages, "0 to 1000000")
    };
    let _ = writeln!(
        errors,
        "alog: --{name}=\"{value}\" is refused: allowed is {bounds}"
    );
}

/// Writes the lines of a load's fault, its number and what it is, and answers its status.
pub(crate) fn refuse_load<E: Write>(fault: LoadError, errors: &mut E) -> u8
    ensures { result ≡ load_status_of fault }
{
    let number = load_number_of(fault);
    let _ = match fault {
        LoadError::BadValue => writeln!(errors, "alog: refused {number}"),
        _ => writeln!(errors, "alog: refused {number}\nalog: {fault}"),
    };
    load_status_of(fault)
}

/// Writes the lines of a load that was made, at which a store failed, and answers its status.
pub(crate) fn refuse_store<E: Write>(errors: &mut E) -> u8
    ensures { result ≡ 3 }
{
    let _ = writeln!(errors, "alog: refused 22\nalog: a store failed");
    3
}
