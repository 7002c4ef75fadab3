//! A sink under a lock: what a worker's turn does.
ghost use Rattle.std.specs.Prelude.{◌≡◌};
ghost use Rattle.alog_sink.specs.Sinks.{MayTurn, Turns};

use crate::leaf::{SinkError, Taken};
use crate::sink::Sink;
use crate::store::Store;
use alog_format::LineBuf;
use alog_lane::Turn;
use alog_msg::Item;

/// What a sink did in a turn. The test `a_lane_over_a_sink` of `test_sinks` shows both.
#[derive(Clone, Copy, Debug, PartialEq, Eq, Drop)]
pub enum Served {
    /// It was given a message.
    Taken(Taken),
    /// It was flushed.
    Flushed,
}

/// A turn takes a text, or flushes. The scratch is the buffer for the line, whose capacity stays. By condition the item
/// is no stop, and a message is one that the sink may be given.
impl<S: Store> Turn for Sink<S> {
    type Item = Item;

    type Reply = Result<Served, SinkError>;

    type Scratch = LineBuf;

    ghost turns = { λ v s i r w t. Turns S.tells S.files S.failures v s i r w t };

    ghost may_turn = { λ v i s. MayTurn v i s };

    fn turn(&mut self, item: &Item, line: &mut LineBuf) -> Result<Served, SinkError> {
        match item {
            Item::Text(message) => Ok(Served::Taken(self.take(message, line)?)),
            Item::Flush(_) => {
                self.flush()?;
                Ok(Served::Flushed)
            }
            Item::Stop => unreachable!(),
        }
    }
}
