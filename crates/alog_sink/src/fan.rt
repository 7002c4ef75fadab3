//! Several sinks behind one level.
ghost use Rattle.std.specs.Prelude.{◌≡◌, ◌↔◌, IsTrue, List, Result, false};
ghost use Rattle.alog_sink.specs.Turn.{Answer, AllFlush, AllTake, FanFlushes, FanTakes, MayGive, first_fault, or_fault};

use crate::leaf::{Leaf, SinkError, Taken};
use crate::store::Store;
use alog_format::LineBuf;
use alog_msg::{Level, Message};
use std::marker::Model;

/// Sinks that are given what passes one level. Contracts see the level and the members.
#[derive(Debug, Drop)]
pub struct Fan<S> {
    level: Level,
    members: Vec<Leaf<S>>,
}

impl<S> Model for Fan<S> {
    ghost use Rattle.alog_sink.specs.Turn.{FanView};

    ghost Value = { FanView S };

    ghost view = { λ f. record { level = f.level; members = f.members.items } };
}

impl<S: Store> Fan<S> {
    ghost use Rattle.alog_sink.specs.Lines.{admits};

    /// Members behind a level.
    pub(crate) fn of(level: Level, members: Vec<Leaf<S>>) -> Fan<S>
        ensures { result ≡ record { level = level; members = members.items } }
    {
        Fan { level, members }
    }

    /// The members.
    pub(crate) fn members(&self) -> &[Leaf<S>]
        ensures { result.now ≡ self.now.members }
    {
        self.members.as_slice()
    }

    /// Whether each member may be given the message with this buffer.
    pub(crate) fn may_take(&self, message: &Message, line: &LineBuf) -> bool
        ensures { IsTrue result ↔ MayGive self.now.members message.now line.now.capacity }
    {
        may_give(self.members.as_slice(), message, line)
    }

    /// Gives a message to each member, where it passes the fan's level.
    pub(crate) fn take(&mut self, message: &Message, line: &mut LineBuf) -> Result<Taken, SinkError>
        requires { MayGive self.old.members message.now line.old.capacity }
        ensures takes { FanTakes S.tells S.files S.failures self.old message.now result self.new }
        ensures capacity { line.new.capacity ≡ line.old.capacity }
        ensures untouched { (admits self.old.level message.now.level ≡ false) → line.new ≡ line.old }
    {
        if message.level.number() < self.level.number() {
            return Ok(Taken::Below);
        }
        take_each(self.members.as_mut_slice(), message, line)
    }

    /// Flushes each member.
    pub(crate) fn flush(&mut self) -> Result<(), SinkError>
        ensures { FanFlushes S.tells S.files S.failures self.old result self.new }
    {
        flush_each(self.members.as_mut_slice())
    }
}

/// Whether each member may be given the message with this buffer.
fn may_give<S: Store>(members: &[Leaf<S>], message: &Message, line: &LineBuf) -> bool
    ensures { IsTrue result ↔ MayGive members.now message.now line.now.capacity }
{
    for member in members {
        if !member.may_take(message, line) {
            return false;
        }
    }
    true
}

/// Gives a message to each member, whatever the others answer, and answers the first fault.
fn take_each<S: Store>(
    members: &mut [Leaf<S>],
    message: &Message,
    line: &mut LineBuf,
) -> Result<Taken, SinkError>
    requires { MayGive members.old message.now line.old.capacity }
    ensures takes { (answers : List Answer) × AllTake S.tells S.files S.failures members.old message.now answers members.new
        × (result ≡ first_fault Taken.Written answers) }
    ensures capacity { line.new.capacity ≡ line.old.capacity }
{
    let mut answer = Ok(Taken::Written);
    for i in 0..members.len() {
        let given = members[i].take(message, line);
        answer = or_fault(answer, given);
    }
    answer
}

/// Flushes each member, whatever the others answer, and answers the first fault.
fn flush_each<S: Store>(members: &mut [Leaf<S>]) -> Result<(), SinkError>
    ensures { (answers : List (Result Unit SinkError)) × AllFlush S.tells S.files S.failures members.old answers members.new
        × (result ≡ first_fault tt answers) }
{
    let mut answer = Ok(());
    for i in 0..members.len() {
        let given = members[i].flush();
        answer = or_fault(answer, given);
    }
    answer
}

/// The answer so far, or else the fault met now.
fn or_fault<T: Copy>(
    answer: Result<T, SinkError>,
    given: Result<T, SinkError>,
) -> Result<T, SinkError>
    ensures { result ≡ or_fault answer given }
{
    match given {
        Err(error) if answer.is_ok() => Err(error),
        _ => answer,
    }
}
