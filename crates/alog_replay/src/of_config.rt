//! The replay of a script with a configuration.
ghost use Rattle.std.specs.Prelude.{◌≡◌, ◌⊎◌, ℕ, IfOk, IfErr, IfSome, OnErr};
ghost use Rattle.std.specs.Io.KnownBytes.{Keeps};
ghost use Rattle.alog_replay.specs.Configured.{configured};
ghost use Rattle.alog_replay.specs.Faultless.{FaultsAreTold};
ghost use Rattle.alog_replay.specs.OfConfig.{IsStageOf, OnStage};
ghost use Rattle.alog_replay.specs.OneText.{OneTextOfConfig};
ghost use Rattle.alog_replay.specs.Rows.{HasOneRow, row_of};
ghost use Rattle.alog_replay.specs.Script.{Whole, RefusedAt, WritesText, WritesFront, WasRead};

use crate::configured::Configured;
use crate::error::ReplayError;
use crate::leaves::{names_of, places_of, tops_of};
use crate::player::play;
use alog_config::Config;
use alog_format::laws::one_line;
use alog_pattern::laws::one_reading;
use alog_sink::laws::pieces_have_one_cut;
use alog_sink::{MemStore, Store};
use alog_system::System;
use std::alloc::{AllocError, Global};
use std::io::{Read, Write};

/// The system of a configuration, with the names of its sinks and the places of their files.
fn staged(alloc: Global, config: &Config) -> Result<Configured<'_, MemStore>, AllocError>
    ensures { IfOk result (IsStageOf ⟦<MemStore as Store>⟧.tells ⟦<MemStore as Store>⟧.files ⟦<MemStore as Store>⟧.failures config.now) }
{
    let tops = tops_of(alloc, config)?;
    let names = names_of(alloc, tops.as_slice())?;
    let places = places_of(alloc, config, tops.as_slice())?;
    let system = System::new(alloc, config)?;
    Ok(Configured::of(system, names, places))
}

/// Replays the script that a reader gives on the system of a configuration, and writes what it prints. It answers the number of
/// the script's lines.
///
/// What is written is the text of the script as `specs/Script.antt` defines it, on the stage of the configuration
/// (`specs/OfConfig.antt`) and the scene of `specs/Configured.antt`. Want of memory, refused lines and faults are as with `replay`;
/// where there is no memory for the stage itself, nothing is written.
///
/// `sessions/scripts_on_sinks.session` has such scripts, and what they print.
pub fn replay_config<R: Read, W: Write>(
    alloc: Global,
    config: &Config,
    reader: &mut R,
    writer: &mut W,
) -> Result<u64, ReplayError>
    ensures whole { IfOk result (λ n. IfSome (R.remaining reader.old) (λ script.
        OnStage ⟦<MemStore as Store>⟧.tells ⟦<MemStore as Store>⟧.files ⟦<MemStore as Store>⟧.failures config.now (λ s.
        WritesText (configured ⟦<MemStore as Store>⟧.tells ⟦<MemStore as Store>⟧.files ⟦<MemStore as Store>⟧.failures row_of)
        s script (λ text. Whole text n) (W.contents writer.old) (W.contents writer.new)))) }
    ensures refused { IfErr result (λ e. (line : ℕ) → e ≡ ReplayError.LineRefused line → IfSome (R.remaining reader.old) (λ script.
        OnStage ⟦<MemStore as Store>⟧.tells ⟦<MemStore as Store>⟧.files ⟦<MemStore as Store>⟧.failures config.now (λ s.
        WritesText (configured ⟦<MemStore as Store>⟧.tells ⟦<MemStore as Store>⟧.files ⟦<MemStore as Store>⟧.failures row_of)
        s script (RefusedAt line) (W.contents writer.old) (W.contents writer.new)))) }
    ensures front { OnErr result (Keeps (W.contents writer.old) (W.contents writer.new)
        ⊎ OnStage ⟦<MemStore as Store>⟧.tells ⟦<MemStore as Store>⟧.files ⟦<MemStore as Store>⟧.failures config.now (λ s.
        WasRead (R.remaining reader.old) (R.remaining reader.new) (λ read.
        WritesFront (configured ⟦<MemStore as Store>⟧.tells ⟦<MemStore as Store>⟧.files ⟦<MemStore as Store>⟧.failures row_of)
        s read (W.contents writer.old) (W.contents writer.new)))) }
{
    let mut stage = staged(alloc, config)?;
    play(alloc, &mut stage, reader, writer)
}

/// The files of a store in memory are printed as a row whose names rise, and no other such row has these files: what is printed
/// depends on the files alone. It does nothing: its contract is the law.
pub fn one_row()
    ensures { HasOneRow ⟦<MemStore as Store>⟧.files row_of }
{}

/// What a script with a configuration tells in a text without a line that says a fault, it tells where no store fails. It does
/// nothing: its contract is the law.
pub fn faults_are_told()
    ensures { FaultsAreTold ⟦<MemStore as Store>⟧.tells ⟦<MemStore as Store>⟧.files ⟦<MemStore as Store>⟧.failures row_of }
{}

/// From any two stages of one configuration a script where no store fails tells the same: two replays of one script with one
/// configuration, in which no store fails, have one text. Its contract is the law; it calls the laws that this one stands on, which
/// do nothing.
pub fn one_text_of_config()
    ensures { OneTextOfConfig ⟦<MemStore as Store>⟧.tells ⟦<MemStore as Store>⟧.files ⟦<MemStore as Store>⟧.failures row_of }
{
    one_line();
    one_reading();
    pieces_have_one_cut();
}
