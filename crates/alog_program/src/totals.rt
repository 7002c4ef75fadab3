//! What is written of a load.
ghost use Rattle.std.specs.Prelude.{OnOk};
ghost use Rattle.std.specs.Io.KnownBytes.{Appends};
ghost use Rattle.alog_program.specs.Loaded.{totals_text};

use alog_pool::Totals;
use std::io;
use std::io::Write;

/// Writes the five lines of totals, and flushes.
pub(crate) fn write_totals<O: Write>(output: &mut O, totals: Totals) -> io::Result<()>
    ensures { OnOk result (Appends (O.contents output.old) (O.contents output.new) (totals_text totals)) }
{
    let Totals {
        asked,
        posted,
        discarded,
        overrun,
        handled,
    } = totals;
    write!(
        output,
        "asked {asked}\nposted {posted}\ndiscarded {discarded}\noverrun {overrun}\nhandled {handled}\n"
    )?;
    output.flush()
}
