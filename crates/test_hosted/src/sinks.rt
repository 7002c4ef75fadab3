//! A sink in memory, whose lines are the texts.
ghost use Rattle.std.specs.Prelude.{◌≡◌, IfOk};
ghost use Rattle.alog_pattern.specs.declared.patterns.TheConstants.{LINE_MAX};
ghost use Rattle.alog_sink.specs.Sinks.{Suits};
ghost use Rattle.test_hosted.specs.declared.sinks.TheConstants.{TEXT_LIMIT};

use alog_format::{Context, Zone};
use alog_msg::Level;
use alog_pattern::Pattern;
use alog_sink::{Face, Names, Sink, Store};
use std::alloc::{AllocError, Global};

/// The most bytes of a text.
pub const TEXT_LIMIT: usize = 128;

/// A face whose lines are the texts, of all levels.
pub fn face(alloc: Global) -> Result<Face, AllocError>
    ensures { IfOk result (λ f. f.pattern.text_limit ≡ TEXT_LIMIT) }
{
    let Ok(pattern) = Pattern::compile(alloc, b"%v", TEXT_LIMIT) else {
        return Err(AllocError);
    };
    Ok(Face {
        level: Level::Trace,
        pattern,
        context: Context {
            zone: Zone::Fixed(0),
            process: 7,
        },
        names: Names::new(alloc),
    })
}

/// A sink over this store, whose lines go to the file `log`.
pub fn sink<S: Store + Drop>(alloc: Global, face: Face, store: S) -> Result<Sink<S>, AllocError>
    requires { face.pattern.text_limit ≡ TEXT_LIMIT }
    ensures { IfOk result (Suits TEXT_LIMIT LINE_MAX) }
{
    let Ok(sink) = Sink::memory(alloc, face, store, "log") else {
        return Err(AllocError);
    };
    Ok(sink)
}
