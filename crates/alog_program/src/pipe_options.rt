//! The values of the options of `alog pipe`.
ghost use Rattle.std.specs.Prelude.{IfOk, IfErr};
ghost use Rattle.alog_program.specs.Options.{Refuses, value_of};
ghost use Rattle.alog_program.specs.PipeOptions.{AsksForPipe};

use crate::options::{FormatOption, ValueError, level, text};
use crate::request::PipeRequest;
use clap::ArgMatches;

/// What `alog pipe` is asked for; or its level is refused.
pub(crate) fn pipe_request<'a>(matches: &ArgMatches<'a>) -> Result<PipeRequest<'a>, ValueError<'a>>
    ensures asked { IfOk result (AsksForPipe (value_of matches.now)) }
    ensures refused { IfErr result (Refuses (value_of matches.now) FormatOption.Level) }
{
    Ok(PipeRequest {
        file: text(matches, "CONFIG"),
        folder: text(matches, "folder"),
        logger: matches.get_str("logger"),
        level: level(matches)?,
        totals: matches!(matches.get_str("totals"), Some("true")),
    })
}
