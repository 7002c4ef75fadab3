//! The memory file of a script: one sink over a store, and the buffer that it makes lines in.
ghost use Rattle.std.specs.Prelude.{◌≡◌, true, false, IfOk};
ghost use Rattle.alog_replay.specs.Memory.{memory_name, Turns};

use crate::pushed::Pushed;
use alog_format::{Context, LineBuf, Zone};
use alog_msg::{DEFAULT_TEXT_LIMIT, Level};
use alog_pattern::Pattern;
use alog_sink::{Face, Names, Sink, Store};
use std::alloc::{AllocError, Global};
use std::marker::Model;

/// The name of the sink, and of its file.
pub const NAME: &str = "memory";

/// A sink that appends the text of each message and a newline to the file `memory`.
///
/// Contracts see it as the `MemoryFile` of `specs/Memory.antt`: what the file has, and whether the store has failed.
#[derive(Drop)]
pub struct MemorySink<S: Store> {
    sink: Sink<S>,
    line: LineBuf,
}

impl<S: Store> Model for MemorySink<S> {
    ghost use Rattle.alog_replay.specs.Memory.{MemoryFile};
    ghost use Rattle.alog_replay.specs.MemorySink.{file_of, IsMemorySink};

    ghost Value = { MemoryFile };

    ghost view = { λ m. file_of S.files m.sink };

    ghost invariant = { λ m. IsMemorySink S.tells m.sink m.line.capacity };
}

impl<S: Store + Drop> MemorySink<S> {
    /// A sink over this store, which tells what its files have.
    pub fn open(alloc: Global, store: S) -> Result<MemorySink<S>, AllocError>
        requires { S.tells ≡ true }
        ensures { IfOk result (λ m. m ≡ record { bytes = S.files store memory_name; broken = false }) }
    {
        // The pattern is within its limits, so that no other fault than want of memory can come.
        let Ok(pattern) = Pattern::compile(alloc, b"%v", DEFAULT_TEXT_LIMIT) else {
            return Err(AllocError);
        };
        let line = LineBuf::new(alloc, pattern.longest())?;
        let face = Face {
            level: Level::Trace,
            pattern,
            context: Context {
                zone: Zone::Fixed(0),
                process: 0,
            },
            names: Names::new(alloc),
        };
        // A file can have the name, so that no other fault can come here either.
        match Sink::memory(alloc, face, store, NAME) {
            Ok(sink) => Ok(MemorySink { sink, line }),
            Err(_) => Err(AllocError),
        }
    }

    /// Gives a message to the sink: whether its line was written.
    pub fn take(&mut self, pushed: &Pushed) -> bool
        ensures { Turns true self.old pushed.now.text result self.new }
    {
        self.sink.take(pushed.message(), &mut self.line).is_ok()
    }

    /// The store, which has the file.
    pub fn store(&self) -> &S
        ensures { S.files result.now memory_name ≡ self.now.bytes }
    {
        match self.sink.store() {
            Some(store) => store,
            None => unreachable!(),
        }
    }
}
