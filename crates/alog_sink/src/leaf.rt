//! A sink of one store.
ghost use Rattle.std.specs.Prelude.{◌≡◌, ◌↔◌, ◌⊎◌, IsTrue, true, false, None};
ghost use Rattle.alog_pattern.specs.declared.patterns.TheConstants.{LINE_MAX};
ghost use Rattle.alog_sink.specs.Lines.{FaceSuits, MayWrite, admits};
ghost use Rattle.alog_sink.specs.Turn.{Takes, Flushes};

use crate::face::{Face, Scribe};
use crate::store::{Store, StoreError};
use crate::target::Target;
use alog_format::LineBuf;
use alog_msg::Message;
use std::marker::Model;
use thiserror::Error;

/// What a sink did with a message.
#[derive(Clone, Copy, Debug, PartialEq, Eq, Drop)]
pub enum Taken {
    /// Its level is below the sink's. Nothing happened.
    Below,
    /// Its line was written.
    Written,
}

/// Why a line was not written, or a sink not flushed. The test `a_store_that_fails_at_its_second_call` of `test_sinks` shows both.
#[derive(Clone, Copy, Debug, PartialEq, Eq, Drop, Error)]
pub enum SinkError {
    /// The store failed in this call. The sink is broken from then on.
    #[error("the sink's store failed")]
    Store,
    /// The store failed in an earlier call. Nothing happened.
    #[error("the sink is broken, since its store failed")]
    Broken,
}

/// A sink of one store, with a face and files.
///
/// Contracts see its face, its target, its store, whether it is broken, and the time of the last message whose line it wrote.
#[derive(Debug, Drop)]
pub struct Leaf<S> {
    face: Scribe,
    target: Target,
    store: S,
    broken: bool,
    /// The time of the last message whose line was written.
    previous: Option<i64>,
}

impl<S> Model for Leaf<S> {
    ghost use Rattle.alog_sink.specs.Turn.{LeafView};

    ghost Value = { LeafView S };

    ghost view = { λ l. record { face = l.face; target = l.target; store = l.store; broken = l.broken; previous = l.previous } };
}

impl<S: Store> Leaf<S> {
    /// A sink that was given nothing.
    pub(crate) fn open(face: Face, target: Target, store: S) -> Leaf<S>
        ensures opened { result ≡ record { face = face; target = target; store = store; broken = false; previous = None } }
        ensures suits { FaceSuits face.pattern.text_limit LINE_MAX result.face }
    {
        Leaf {
            face: Scribe::new(face),
            target,
            store,
            broken: false,
            previous: None,
        }
    }

    /// The store, with what the sink wrote.
    pub fn store(&self) -> &S
        ensures { result.now ≡ self.now.store }
    {
        &self.store
    }

    /// Whether the sink may be given the message with this buffer.
    pub(crate) fn may_take(&self, message: &Message, line: &LineBuf) -> bool
        ensures { IsTrue result ↔ MayWrite self.now.face message.now line.now.capacity }
    {
        self.face.may_write(message, line)
    }

    /// Gives a message to the sink. Below its level, or where it is broken, nothing happens; otherwise the buffer has the line then, also
    /// where the store failed.
    pub(crate) fn take(&mut self, message: &Message, line: &mut LineBuf) -> Result<Taken, SinkError>
        requires { MayWrite self.old.face message.now line.old.capacity }
        ensures takes { Takes S.tells S.files S.failures self.old message.now result self.new }
        ensures capacity { line.new.capacity ≡ line.old.capacity }
        ensures untouched { ((admits self.old.face.level message.now.level ≡ false) ⊎ (self.old.broken ≡ true)) → line.new ≡ line.old }
    {
        if !self.face.admits(message.level) {
            return Ok(Taken::Below);
        }
        if self.broken {
            return Err(SinkError::Broken);
        }
        self.write(message, line)
    }

    /// Writes a message that the sink takes, where it is not broken.
    fn write(&mut self, message: &Message, line: &mut LineBuf) -> Result<Taken, SinkError>
        requires fits { MayWrite self.old.face message.now line.old.capacity }
        requires admits { admits self.old.face.level message.now.level ≡ true }
        requires whole { self.old.broken ≡ false }
        ensures takes { Takes S.tells S.files S.failures self.old message.now result self.new }
        ensures capacity { line.new.capacity ≡ line.old.capacity }
    {
        self.face.write(message, self.previous, line);
        let zone = self.face.zone();
        match self
            .target
            .put(&mut self.store, zone, message, line.as_slice())
        {
            Ok(()) => {
                self.previous = Some(message.time);
                Ok(Taken::Written)
            }
            Err(StoreError) => {
                self.broken = true;
                Err(SinkError::Store)
            }
        }
    }

    /// Flushes the sink's file, where there is one and the sink is not broken.
    pub(crate) fn flush(&mut self) -> Result<(), SinkError>
        ensures { Flushes S.tells S.files S.failures self.old result self.new }
    {
        if self.broken {
            return Err(SinkError::Broken);
        }
        match self.target.flush(&mut self.store) {
            Ok(()) => Ok(()),
            Err(StoreError) => {
                self.broken = true;
                Err(SinkError::Store)
            }
        }
    }
}
