//! The values of the options of `alog load`.
ghost use Rattle.std.specs.Prelude.{◌≡◌, IfOk, IfErr};
ghost use Rattle.alog_program.specs.LoadOptions.{AsksForLoad, IsCountOf, IsFirstUnread, IsReadable, RefusesCount, name_of, standard_of};
ghost use Rattle.alog_program.specs.Options.{value_of};

use crate::options::{text, unsigned_number};
use crate::request::LoadRequest;
use clap::ArgMatches;
use thiserror::Error;

/// An option of `alog load` whose value is a number of 64 bits. They are read in this order.
#[derive(Clone, Copy, Debug)]
pub enum LoadOption {
    Producers,
    Messages,
}

/// An option is refused: its value is no number of 64 bits.
#[derive(Clone, Copy, Debug, Error)]
#[error("--{name}={value:?} is refused: allowed is 1 to 64 for producers and 0 to 1000000 for messages, without a sign", name = .option.name())]
pub struct LoadValueError<'a> {
    pub option: LoadOption,
    pub value: &'a str,
}

impl LoadOption {
    /// The name, without its two dashes.
    pub fn name(self) -> &'static str
        ensures { result.now ≡ name_of self }
    {
        match self {
            LoadOption::Producers => "producers",
            LoadOption::Messages => "messages",
        }
    }

    /// The number that stands for one that is not given.
    pub fn standard(self) -> u64
        ensures { result ≡ standard_of self }
    {
        match self {
            LoadOption::Producers => 1,
            LoadOption::Messages => 100,
        }
    }
}

/// What `alog load` is asked for, or the first option whose value is refused.
pub(crate) fn load_request<'a>(
    matches: &ArgMatches<'a>,
) -> Result<LoadRequest<'a>, LoadValueError<'a>>
    ensures asked { IfOk result (AsksForLoad (value_of matches.now)) }
    ensures refused { IfErr result (IsFirstUnread (value_of matches.now)) }
{
    let producers = count(matches, LoadOption::Producers)?;
    let messages = count(matches, LoadOption::Messages)?;
    Ok(LoadRequest {
        file: text(matches, "CONFIG"),
        producers,
        messages,
        folder: matches.get_str("folder"),
    })
}

/// The value of an option, or the number that stands for one that is not given.
fn count<'a>(matches: &ArgMatches<'a>, option: LoadOption) -> Result<u64, LoadValueError<'a>>
    ensures read { IfOk result (IsCountOf (value_of matches.now) option) }
    ensures readable { IfOk result (λ _. IsReadable (value_of matches.now) option) }
    ensures refused { IfErr result (RefusesCount (value_of matches.now) option) }
{
    let Some(text) = matches.get_str(option.name()) else {
        return Ok(option.standard());
    };
    unsigned_number(text, u64::MAX).ok_or(LoadValueError {
        option,
        value: text,
    })
}
