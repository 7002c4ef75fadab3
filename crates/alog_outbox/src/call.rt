//! What a store was told to do.
ghost use Rattle.std.specs.Prelude.{◌≡◌};
ghost use Rattle.alog_outbox.specs.Calls.{number_of};

use std::collections::LinkedList;

/// What a call does.
#[derive(Clone, Copy, Debug, PartialEq, Eq, Drop)]
pub enum Kind {
    /// Appends to a file, which is made where it is absent.
    Append,
    /// Gives a file another name.
    Rename,
    /// Removes a file.
    Remove,
    /// Brings a file to where it is kept.
    Flush,
}

/// A call of a store: of which file, and the bytes to append, or the new name, or nothing. Clauses speak of it; no value of it is made.
pub struct Call {
    pub kind: Kind,
    pub name: LinkedList<u8>,
    pub rest: LinkedList<u8>,
}

impl Kind {
    /// The number by which a record tells it.
    pub(crate) fn number(self) -> u32
        ensures { result ≡ number_of self }
    {
        match self {
            Kind::Append => 1,
            Kind::Rename => 2,
            Kind::Remove => 3,
            Kind::Flush => 4,
        }
    }
}
