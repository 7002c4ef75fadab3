//! Which files the sinks of a configuration have, before a pool of it is opened.
ghost use Rattle.std.specs.Prelude.{◌≡◌, ◌++◌, IfOk, OnOk, Ok};
ghost use Rattle.alog_config.specs.Meaning.{Reads};
ghost use Rattle.alog_ffi.specs.Names.{AnswersNames, file_of, files_of, kept_by};

use crate::answer::Answer;
use alog_config::{Config, ConfigFault, SinkConfig, SinkKind, Upkeep, read};
use std::alloc::{AllocError, Global};

/// Tells the files that the sinks of a configuration have from its start, in the order of the sinks: the name of each, and a zero byte behind it. A sink by
/// days has none before its first line, and a fan none of its own. Where there is no room for all, nothing is told.
pub fn file_names(alloc: Global, document: &[u8], to: &mut [u8], length: &mut usize) -> Answer
    ensures { AnswersNames document.now to.old to.new length.new result }
{
    *length = 0;
    match read(alloc, document) {
        Ok(config) => tell_names(alloc, document, &config, to, length),
        Err(ConfigFault::OutOfMemory) => Answer::NoMemory,
        Err(_) => Answer::BadConfig,
    }
}

/// Tells the files of this configuration.
fn tell_names(
    alloc: Global,
    _document: &[u8],
    config: &Config,
    to: &mut [u8],
    length: &mut usize,
) -> Answer
    requires read { Reads _document.now (Ok config.now) }
    requires none { length.old ≡ 0 }
    ensures { AnswersNames _document.now to.old to.new length.new result }
{
    match names_of(alloc, config) {
        Ok(names) => tell(_document, config, names.as_slice(), to, length),
        Err(_) => Answer::NoMemory,
    }
}

/// Copies the files of a configuration to the front, if there is room for all.
fn tell(
    _document: &[u8],
    _config: &Config,
    names: &[u8],
    to: &mut [u8],
    length: &mut usize,
) -> Answer
    requires read { Reads _document.now (Ok _config.now) }
    requires names { names.now ≡ files_of _config.now }
    requires none { length.old ≡ 0 }
    ensures { AnswersNames _document.now to.old to.new length.new result }
{
    let count = names.len();
    if to.len() < count {
        return Answer::TooShort;
    }
    to[..count].copy_from_slice(names);
    *length = count;
    Answer::Done
}

/// The files of a configuration, one behind the other.
fn names_of(alloc: Global, config: &Config) -> Result<Vec<u8>, AllocError>
    ensures { IfOk result (λ v. v.items ≡ files_of config.now) }
{
    let mut names = Vec::new(alloc);
    for sink in &config.sinks {
        put_file(&mut names, sink)?;
    }
    Ok(names)
}

/// Appends the file of a sink.
fn put_file(names: &mut Vec<u8>, sink: &SinkConfig) -> Result<(), AllocError>
    ensures { OnOk result (names.new.items ≡ names.old.items ++ file_of sink.now) }
{
    match &sink.kind {
        SinkKind::Lines { file, upkeep, .. } => put_kept(names, file.as_bytes(), *upkeep),
        SinkKind::Fan { .. } => Ok(()),
    }
}

/// Appends the name of a file that is kept so.
fn put_kept(names: &mut Vec<u8>, file: &[u8], upkeep: Upkeep) -> Result<(), AllocError>
    ensures { OnOk result (names.new.items ≡ names.old.items ++ kept_by file.now upkeep) }
{
    match upkeep {
        Upkeep::Never | Upkeep::BySize { .. } => {
            names.extend_from_slice(file)?;
            names.extend_from_slice(&[0])
        }
        Upkeep::Daily { .. } => Ok(()),
    }
}
