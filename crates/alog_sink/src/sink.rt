//! Sinks: what a worker gives messages to.
ghost use Rattle.std.specs.Prelude.{◌≡◌, ◌↔◌, IsTrue};
ghost use Rattle.std.specs.Option.{option_map};
ghost use Rattle.alog_sink.specs.Opened.{IsFan, members_of, store_of};
ghost use Rattle.alog_sink.specs.Sinks.{IsIdle, MayTake, SinkFlushes, SinkTakes};

use crate::fan::Fan;
use crate::leaf::{Leaf, SinkError, Taken};
use crate::store::Store;
use alog_format::LineBuf;
use alog_msg::Message;
use std::io;

/// A sink: one that writes lines to files of a store, or a fan of such.
#[derive(Debug, Drop)]
pub enum Sink<S> {
    /// A sink over a store of its own.
    Leaf(Leaf<S>),
    /// Sinks behind one level.
    Fan(Fan<S>),
}

impl<S: Store> Sink<S> {
    /// Whether the sink may be given the message with this buffer: its text keeps to the limit of each pattern, and the
    /// buffer has room for each pattern's longest line when it is empty.
    pub fn may_take(&self, message: &Message, line: &LineBuf) -> bool
        ensures { IsTrue result ↔ MayTake self.now message.now line.now.capacity }
    {
        match self {
            Sink::Leaf(leaf) => leaf.may_take(message, line),
            Sink::Fan(fan) => fan.may_take(message, line),
        }
    }

    /// Gives a message to the sink.
    ///
    /// A message of a level below the sink's answers `Below`, and nothing else happens, even in a broken sink. Another one
    /// is answered by the fault of a broken sink, which does nothing either. Otherwise the buffer is cleared and has the line,
    /// which goes to the sink's files. A fan gives the message to each member in order, whatever the others answer, and
    /// answers the first fault.
    pub fn take(&mut self, message: &Message, line: &mut LineBuf) -> Result<Taken, SinkError>
        requires { MayTake self.old message.now line.old.capacity }
        ensures takes { SinkTakes S.tells S.files S.failures self.old message.now result self.new }
        ensures capacity { line.new.capacity ≡ line.old.capacity }
        ensures untouched { IsIdle self.old message.now → line.new ≡ line.old }
    {
        match self {
            Sink::Leaf(leaf) => leaf.take(message, line),
            Sink::Fan(fan) => fan.take(message, line),
        }
    }

    /// Flushes the file that lines go to now, by one call of the store; a daily sink without one makes none, and a broken sink
    /// answers its fault. A fan flushes each member in order, whatever the others answer, and answers the first fault.
    pub fn flush(&mut self) -> Result<(), SinkError>
        ensures { SinkFlushes S.tells S.files S.failures self.old result self.new }
    {
        match self {
            Sink::Leaf(leaf) => leaf.flush(),
            Sink::Fan(fan) => fan.flush(),
        }
    }

    /// Whether the sink is a fan.
    pub fn is_fan(&self) -> bool
        ensures { IsTrue result ↔ IsFan self.now }
    {
        matches!(self, Sink::Fan(_))
    }

    /// The store of a sink that is no fan.
    pub fn store(&self) -> Option<&S>
        ensures { option_map (λ s. s.now) result ≡ store_of self.now }
    {
        match self {
            Sink::Leaf(leaf) => Some(leaf.store()),
            Sink::Fan(_) => None,
        }
    }

    /// The members of a fan, and none of another sink.
    pub fn members(&self) -> &[Leaf<S>]
        ensures { result.now ≡ members_of self.now }
    {
        match self {
            Sink::Leaf(_) => &[],
            Sink::Fan(fan) => fan.members(),
        }
    }

    /// Why the last call of its store that failed did, where the system said so; of a fan, of the first member of which that is
    /// known. Nothing is claimed of it; sessions show it.
    pub fn reason(&self) -> Option<io::Error> {
        match self {
            Sink::Leaf(leaf) => leaf.store().reason(),
            Sink::Fan(fan) => reason_of(fan.members()),
        }
    }
}

/// The first reason of these.
fn reason_of<S: Store>(members: &[Leaf<S>]) -> Option<io::Error> {
    for member in members {
        let reason = member.store().reason();
        if reason.is_some() {
            return reason;
        }
    }
    None
}
