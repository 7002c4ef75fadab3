//! What a worker does with an item that it took: turns on the sinks of the item's logger.
ghost use Rattle.std.specs.Prelude.{◌≡◌, slice_get};
ghost use Rattle.alog_registry.specs.Work.{is_flush_due, turns_of, turns_on};

use crate::logger::Spec;
use alog_msg::{Item, Level};

/// What a turn on a sink does.
#[derive(Clone, Copy, Debug, PartialEq, Eq, Drop)]
pub enum SinkDeed {
    /// The sink is given the message.
    Take,
    /// The sink is flushed.
    Flush,
}

/// A turn on a sink that a work makes. The test `turns_of_a_work` shows some.
#[derive(Clone, Copy, Debug, PartialEq, Eq, Drop)]
pub struct SinkTurn {
    /// The number of the sink.
    pub sink: u32,
    /// The ticket of the item that was taken.
    pub tag: u64,
    pub deed: SinkDeed,
}

impl Spec {
    /// Whether a message of this level makes its worker flush the logger's sinks. One of level `Off` never does.
    pub fn is_flush_due(&self, level: Level) -> bool
        ensures { result ≡ is_flush_due self.now level }
    {
        level != Level::Off && level.number() >= self.flush_on.number()
    }

    /// The turn of this place, from 0, in the work on an item of this logger, taken under this ticket; `None` past the last.
    ///
    /// A message is given to each of the logger's sinks in their order, and then, where it is due, each is flushed. A flush
    /// flushes each of them, and a stop makes no turn. The test `turns_of_a_work` shows it.
    pub fn turn_of_work(&self, ticket: u64, item: &Item, place: usize) -> Option<SinkTurn>
        ensures { result ≡ slice_get (turns_of self.now ticket item.now) place }
    {
        match item {
            Item::Text(message) => match self.turn_on(ticket, SinkDeed::Take, place) {
                Some(turn) => Some(turn),
                None if self.is_flush_due(message.level) => {
                    self.turn_on(ticket, SinkDeed::Flush, place - self.sinks.len())
                }
                None => None,
            },
            Item::Flush(_) => self.turn_on(ticket, SinkDeed::Flush, place),
            Item::Stop => None,
        }
    }

    /// The turn of this place where each sink has one turn, of this deed.
    fn turn_on(&self, tag: u64, deed: SinkDeed, place: usize) -> Option<SinkTurn>
        ensures { result ≡ slice_get (turns_on self.now.sinks.items tag deed) place }
    {
        self.sinks.get(place).map(|sink| SinkTurn {
            sink: *sink,
            tag,
            deed,
        })
    }
}
