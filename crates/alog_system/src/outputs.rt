//! The sinks of a system, and the buffer that lines are made in.
ghost use Rattle.std.specs.Prelude.{◌≡◌, ◌<◌, ◌≤◌, IfOk, length};
ghost use Rattle.alog_msg.specs.declared.limits.TheConstants.{TEXT_LIMIT_MIN, TEXT_LIMIT_MAX};
ghost use Rattle.alog_system.specs.Outputs.{AreSuited, IsShort, MayMake, Turns, DoesTurn, TextTurn, FlushTurn};
ghost use Rattle.alog_sink.specs.Sinks.{MayTake};

use crate::stepped::Turn;
use alog_format::LineBuf;
use alog_msg::{Item, Message};
use alog_pattern::LINE_MAX;
use alog_registry::{SinkDeed, SinkTurn};
use alog_sink::{Sink, Store, Taken};
use std::alloc::{AllocError, Global};
use std::marker::Model;

/// Sinks by number, which write each text of at most `text_limit` bytes. Contracts see the `OutputsView` of `specs/Outputs.antt`.
#[derive(Drop)]
pub struct Outputs<S> {
    sinks: Vec<Sink<S>>,
    line: LineBuf,
    text_limit: usize,
}

impl<S> Model for Outputs<S> {
    ghost use Rattle.alog_system.specs.Outputs.{OutputsView, AllSuit};

    ghost Value = { OutputsView S };

    ghost view = { λ o. record { sinks = o.sinks.items; text_limit = o.text_limit } };

    ghost invariant = { λ o. AllSuit o.text_limit o.line.capacity o.sinks.items };
}

impl<S: Store + Drop> Outputs<S> {
    /// These sinks, with a buffer that holds the longest line of any pattern.
    pub fn new(
        alloc: Global,
        text_limit: usize,
        sinks: Vec<Sink<S>>,
    ) -> Result<Outputs<S>, AllocError>
        requires { AreSuited text_limit sinks.items }
        ensures { IfOk result (λ o. o ≡ record { sinks = sinks.items; text_limit = text_limit }) }
    {
        let line = LineBuf::new(alloc, LINE_MAX)?;
        Ok(Outputs {
            sinks,
            line,
            text_limit,
        })
    }

    /// The most bytes of a text.
    pub fn text_limit(&self) -> usize
        ensures limit { result ≡ self.now.text_limit }
        ensures within { (TEXT_LIMIT_MIN ≤ result) × (result ≤ TEXT_LIMIT_MAX) }
    {
        self.text_limit
    }

    /// The sinks, by number.
    pub fn sinks(&self) -> &[Sink<S>]
        ensures { result.now ≡ self.now.sinks }
    {
        self.sinks.as_slice()
    }

    /// Makes a turn of a work on this item.
    pub fn turn(&mut self, turn: SinkTurn, item: &Item) -> Turn
        requires known { turn.sink < length self.old.sinks }
        requires short { IsShort self.old.text_limit item.now }
        ensures { Turns S.tells S.files S.failures self.old turn item.now result self.new }
    {
        make(
            &mut self.sinks[turn.sink as usize],
            turn,
            item,
            &mut self.line,
        )
    }
}

/// A sink makes a turn.
fn make<S: Store>(sink: &mut Sink<S>, turn: SinkTurn, item: &Item, line: &mut LineBuf) -> Turn
    requires { MayMake sink.old item.now line.old.capacity }
    ensures turn { DoesTurn S.tells S.files S.failures turn turn.deed item.now sink.old result sink.new }
    ensures capacity { line.new.capacity ≡ line.old.capacity }
{
    match turn.deed {
        SinkDeed::Take => match item {
            Item::Text(message) => take(sink, turn, message, line),
            Item::Flush(_) | Item::Stop => flush(sink, turn),
        },
        SinkDeed::Flush => flush(sink, turn),
    }
}

/// A sink takes a text.
fn take<S: Store>(sink: &mut Sink<S>, turn: SinkTurn, message: &Message, line: &mut LineBuf) -> Turn
    requires { MayTake sink.old message.now line.old.capacity }
    ensures turn { TextTurn S.tells S.files S.failures turn message.now sink.old result sink.new }
    ensures capacity { line.new.capacity ≡ line.old.capacity }
{
    let SinkTurn {
        sink: number,
        tag: ticket,
        deed: _,
    } = turn;
    match sink.take(message, line) {
        Ok(Taken::Written) => Turn::Line {
            ticket,
            sink: number,
        },
        Ok(Taken::Below) => Turn::Below {
            ticket,
            sink: number,
        },
        Err(_) => Turn::Fault {
            ticket,
            sink: number,
        },
    }
}

/// A sink is flushed.
fn flush<S: Store>(sink: &mut Sink<S>, turn: SinkTurn) -> Turn
    ensures { FlushTurn S.tells S.files S.failures turn sink.old result sink.new }
{
    let SinkTurn {
        sink: number,
        tag: ticket,
        deed: _,
    } = turn;
    match sink.flush() {
        Ok(()) => Turn::Flushed {
            ticket,
            sink: number,
        },
        Err(_) => Turn::Fault {
            ticket,
            sink: number,
        },
    }
}
