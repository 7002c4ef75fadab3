//! The command line.
ghost use Rattle.std.specs.Prelude.{List, map, IfErr, IfOk};
ghost use Rattle.clap.specs.Words.{Text};
ghost use Rattle.alog_program.specs.CommandLine.{AreMatchesOf, Asks, IsRefusedBy};

use crate::command::alog;
use crate::load_options::{LoadValueError, load_request};
use crate::options::{ValueError, line_request, text};
use crate::pipe_options::pipe_request;
use crate::request::Request;
use clap::{ArgMatches, Error};
use std::alloc::{AllocError, Global};
use std::convert::AsStr;

/// Why a command line asks for nothing.
#[derive(Drop)]
pub enum WordsError<'a> {
    /// What `clap` says: help, the version, usage, or that there is no memory.
    Clap(Error),
    /// The value of an option of `alog format` is refused, or of the option `--level` of `alog pipe`.
    Value(ValueError<'a>),
    /// The value of an option of `alog load` is refused.
    LoadValue(LoadValueError<'a>),
}

impl<'a> From<Error> for WordsError<'a> {
    ghost use Rattle.std.specs.Prelude.{◌≡◌};
    ghost use Rattle.alog_program.specs.declared.words.WordsError.TheVariants.{Clap};

    ghost from_gives = { λ error fault. fault ≡ Clap error };

    fn from(error: Error) -> WordsError<'a> {
        WordsError::Clap(error)
    }
}

impl<'a> From<AllocError> for WordsError<'a> {
    ghost use Rattle.alog_program.specs.Words.{IsOutOfMemory};

    ghost from_gives = { λ _ fault. IsOutOfMemory fault };

    fn from(error: AllocError) -> WordsError<'a> {
        WordsError::Clap(Error::from(error))
    }
}

impl<'a> From<ValueError<'a>> for WordsError<'a> {
    ghost use Rattle.std.specs.Prelude.{◌≡◌};
    ghost use Rattle.alog_program.specs.declared.words.WordsError.TheVariants.{Value};

    ghost from_gives = { λ error fault. fault ≡ Value error };

    fn from(error: ValueError<'a>) -> WordsError<'a> {
        WordsError::Value(error)
    }
}

impl<'a> From<LoadValueError<'a>> for WordsError<'a> {
    ghost use Rattle.std.specs.Prelude.{◌≡◌};
    ghost use Rattle.alog_program.specs.declared.words.WordsError.TheVariants.{LoadValue};

    ghost from_gives = { λ error fault. fault ≡ LoadValue error };

    fn from(error: LoadValueError<'a>) -> WordsError<'a> {
        WordsError::LoadValue(error)
    }
}

/// Reads the command line, the program's name first.
pub fn read<'a, S: AsStr>(alloc: Global, words: &'a [S]) -> Result<Request<'a>, WordsError<'a>>
    ensures asked { IfOk result (Asks (map S.text words.entry.now)) }
    ensures refused { IfErr result (IsRefusedBy (map S.text words.entry.now)) }
{
    let matches = alog(alloc)?.try_get_matches_from(words)?;
    request_of(&matches)
}

/// What the matches of words without a fault ask for.
fn request_of<'a>(matches: &ArgMatches<'a>) -> Result<Request<'a>, WordsError<'a>>
    ensures asked { (words : List Text) → AreMatchesOf words matches.now → IfOk result (Asks words) }
    ensures refused { (words : List Text) → AreMatchesOf words matches.now → IfErr result (IsRefusedBy words) }
{
    if let Some(format) = matches.subcommand_matches("format") {
        return Ok(Request::Format(line_request(format)?));
    }
    if let Some(replay) = matches.subcommand_matches("replay") {
        if let Some(file) = replay.get_str("config") {
            return Ok(Request::ReplayConfig(file));
        }
    }
    if let Some(load) = matches.subcommand_matches("load") {
        return Ok(Request::Load(load_request(load)?));
    }
    if let Some(pipe) = matches.subcommand_matches("pipe") {
        return Ok(Request::Pipe(pipe_request(pipe)?));
    }
    match matches.subcommand_matches("check") {
        Some(check) => Ok(Request::Check(text(check, "FILE"))),
        None => Ok(Request::Replay),
    }
}
