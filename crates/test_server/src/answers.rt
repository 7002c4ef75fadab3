//! Whether what a server tells is what it is to tell.
use crate::asks::{Ask, Host, Told, tell};
use alog_server::{LogError, RunError, SinkEnd, StartError};
use std::alloc::Global;

/// What a server is to tell.
#[derive(Clone, Copy)]
pub(crate) enum Wanted<'a> {
    /// A run that handled so many messages, and why a work ended early.
    Run(u64, Option<LogError>),
    /// A run that was refused for the number of its threads.
    BadThreads,
    /// That a document has no configuration, in these words.
    NoConfig(&'a str),
    /// That no lines can be written, in words that begin so, name the folder, and end or go on so.
    NoLines(&'a str, &'a str),
    /// That a store could not be opened, in these words.
    NoStore(&'a str),
    /// That others were refused, since the folder is held.
    Held,
    Sinks(&'a [SinkRow]),
    Printed(&'a str),
}

/// A sink by its name, its faults and its files.
pub(crate) type SinkRow = (&'static str, u64, &'static [&'static str]);

/// Whether this begins so, names the folder and ends or goes on so.
fn names(text: &str, folder: &str, (front, end): (&str, &str)) -> bool {
    let rest = text
        .strip_prefix(front)
        .and_then(|it| it.strip_prefix(folder));
    rest.is_some_and(|it| it.starts_with(end))
}

/// Whether this says that a folder is held.
fn is_held(text: &Option<String>, folder: &str) -> bool {
    match text {
        Some(text) => names(
            text.as_str(),
            folder,
            ("", " is in use: another alog holds "),
        ),
        None => false,
    }
}

/// Whether a sink has these files.
fn has_files(sink: &SinkEnd, files: &[&str]) -> bool {
    sink.files.len() == files.len()
        && sink
            .files
            .as_slice()
            .iter()
            .zip(files)
            .all(|(own, file)| own.as_str() == *file)
}

/// Whether it is this sink.
fn is_row(sink: &SinkEnd, (name, faults, files): &SinkRow) -> bool {
    sink.name.as_str() == *name && sink.faults == *faults && has_files(sink, files)
}

/// Whether these are those sinks.
fn are_rows(sinks: &[SinkEnd], rows: &[SinkRow]) -> bool {
    for (i, row) in rows.iter().enumerate() {
        match sinks.get(i) {
            Some(sink) if is_row(sink, row) => {}
            _ => return false,
        }
    }
    sinks.len() == rows.len()
}

/// Whether a server over this folder that was not started tells so.
fn is_reason(error: &StartError, folder: &str, wanted: Wanted<'_>) -> bool {
    match (error, wanted) {
        (StartError::Config { text, .. }, Wanted::NoConfig(why)) => text.as_str() == why,
        (StartError::Unwritable { text }, Wanted::NoLines(front, end)) => {
            names(text.as_str(), folder, (front, end))
        }
        (StartError::Store { text }, Wanted::NoStore(why)) => text.as_str() == why,
        _ => false,
    }
}

/// Whether a server over this folder tells so.
fn is_right(told: &Told, folder: &str, wanted: Wanted<'_>) -> bool {
    match (told, wanted) {
        (Told::Refused(error), wanted) => is_reason(error, folder, wanted),
        (Told::Unrun(RunError::BadThreads), Wanted::BadThreads) => true,
        (Told::Ran(totals, error, _), Wanted::Run(messages, early)) => {
            *totals == (messages, messages) && *error == early
        }
        (Told::Ran(_, _, sinks), Wanted::Sinks(rows)) => are_rows(sinks, rows),
        (Told::Held(before, behind), Wanted::Held) => {
            is_held(before, folder) && is_held(behind, folder)
        }
        (Told::Printed(text), Wanted::Printed(words)) => text.as_str() == words,
        _ => false,
    }
}

/// Whether a server of this document tells so, with its files in this folder. What is told is alive in here alone: no test has to drop it.
pub(crate) fn tells<R: Host>(
    rt: &R,
    alloc: Global,
    (document, folder): (&str, &str),
    ask: Ask<'_>,
    wanted: Wanted<'_>,
) -> bool {
    let told = tell(rt, alloc, (document, folder), ask);
    is_right(&told, folder, wanted)
}
