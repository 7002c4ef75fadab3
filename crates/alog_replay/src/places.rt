//! Where the leaves of a system are, whose files are printed.

use crate::command::TextRef;

/// A leaf: a sink of a system, or a member of one that is a fan.
#[derive(Debug, Drop)]
pub struct Place<'a> {
    /// Its name.
    pub name: TextRef<'a>,
    /// The number of the sink.
    pub sink: usize,
    /// The number of the member, where the sink is a fan.
    pub member: Option<usize>,
}
