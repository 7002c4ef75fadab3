//! The turns of an item, made one after another as far as the locks of the sinks are free.
ghost use Rattle.std.specs.Prelude.{◌≡◌, ◌≢◌, ◌∷◌, [], drop, length, IsErr, IsSome, IfSome, OnOk, OnErr};
ghost use Rattle.alog_hosted.specs.Owed.{AreAlone, MakesPart, rest_from};
ghost use Rattle.alog_msg.specs.declared.item.Item.TheVariants.{Stop};
ghost use Rattle.alog_pattern.specs.declared.patterns.TheConstants.{LINE_MAX};
ghost use Rattle.alog_pool.specs.Deeds.{Due, HaveMade, dues_by, dues_of};
ghost use Rattle.alog_pool.specs.Pool.{lanes_of};
ghost use Rattle.alog_pool.specs.SinkSeat.{AreFlushed, AreServable, places_of};
ghost use Rattle.alog_registry.specs.Listed.{spec_at};

use crate::sink_place::SinkPlace;
use alog_format::LineBuf;
use alog_lane::{Held, Lane};
use alog_msg::Item;
use alog_registry::{Loggers, SinkDeed};
use alog_sink::{Sink, Store};

/// Makes the turns of an item that was taken under this ticket, from this place on. Where the lock of a sink is held, it answers the place of the
/// turn that was not made; `None` where all were.
pub(crate) fn make_turns<S: Store>(
    loggers: &Loggers,
    lanes: &[Lane<Sink<S>>],
    places: &mut Vec<SinkPlace<S>>,
    line: &mut LineBuf,
    ticket: u64,
    item: &Item,
    from: usize,
) -> Option<usize>
    requires lanes { lanes_of places.old.items ≡ lanes.now }
    requires servable { item.now ≢ Stop → AreServable item.now (places_of places.old.items) }
    requires line { line.old.capacity ≡ LINE_MAX }
    ensures turns { MakesPart places.old.items places.new.items (drop from (dues_of loggers.now ticket item.now))
        (rest_from (dues_of loggers.now ticket item.now) result) }
    ensures parted { IsSome result → ¬ AreAlone places.old.items }
    ensures places { places_of places.new.items ≡ places_of places.old.items }
    ensures line { line.new.capacity ≡ LINE_MAX }
{
    match item {
        Item::Text(message) => {
            let logger = message.logger;
            make_turns_of(loggers, logger, lanes, places, line, ticket, item, from)
        }
        Item::Flush(logger) => {
            make_turns_of(loggers, *logger, lanes, places, line, ticket, item, from)
        }
        Item::Stop => None,
    }
}

/// The same of an item of this logger.
fn make_turns_of<S: Store>(
    loggers: &Loggers,
    logger: u32,
    lanes: &[Lane<Sink<S>>],
    places: &mut Vec<SinkPlace<S>>,
    line: &mut LineBuf,
    ticket: u64,
    item: &Item,
    from: usize,
) -> Option<usize>
    requires lanes { lanes_of places.old.items ≡ lanes.now }
    requires servable { AreServable item.now (places_of places.old.items) }
    requires line { line.old.capacity ≡ LINE_MAX }
    ensures turns { MakesPart places.old.items places.new.items (drop from (dues_by (spec_at loggers.now logger) logger ticket item.now))
        (rest_from (dues_by (spec_at loggers.now logger) logger ticket item.now) result) }
    ensures parted { IsSome result → ¬ AreAlone places.old.items }
    ensures places { places_of places.new.items ≡ places_of places.old.items }
    ensures line { line.new.capacity ≡ LINE_MAX }
{
    let Some(spec) = loggers.spec(logger) else {
        return None;
    };
    for place in from..usize::MAX {
        let Some(turn) = spec.turn_of_work(ticket, item, place) else {
            return None;
        };
        let flush = Item::Flush(logger);
        let given = match turn.deed {
            SinkDeed::Take => item,
            SinkDeed::Flush => &flush,
        };
        match serve_at(lanes, places, turn.sink as usize, turn.tag, given, line) {
            Ok(()) => {}
            Err(_) => return Some(place),
        }
    }
    None
}

/// Makes a turn at the place of this number, if there is one, and if the lock of its sink is free.
fn serve_at<S: Store>(
    lanes: &[Lane<Sink<S>>],
    places: &mut Vec<SinkPlace<S>>,
    number: usize,
    tag: u64,
    item: &Item,
    line: &mut LineBuf,
) -> Result<(), Held>
    requires lanes { lanes_of places.old.items ≡ lanes.now }
    requires servable { AreServable item.now (places_of places.old.items) }
    requires line { line.old.capacity ≡ LINE_MAX }
    ensures turn { let due : Due = record { sink = number; tag = tag; item = item.now } in
        OnOk result (HaveMade 0 places.old.items places.new.items (due ∷ [])) }
    ensures held { OnErr result (places.new.items ≡ places.old.items) }
    ensures parted { IsErr result → ¬ AreAlone places.old.items }
    ensures places { places_of places.new.items ≡ places_of places.old.items }
    ensures line { line.new.capacity ≡ LINE_MAX }
{
    if number < places.len() {
        places[number].serve_once(&lanes[number], tag, item, line)
    } else {
        Ok(())
    }
}

/// Flushes each sink to which its place wrote a line, or may have, since it flushed last, up to the first whose lock is held.
pub(crate) fn flush_all<S: Store>(
    lanes: &[Lane<Sink<S>>],
    places: &mut Vec<SinkPlace<S>>,
    line: &mut LineBuf,
) -> Result<(), Held>
    requires lanes { lanes_of places.old.items ≡ lanes.now }
    requires line { line.old.capacity ≡ LINE_MAX }
    ensures turns { HaveMade 0 places.old.items places.new.items [] }
    ensures flushed { OnOk result (AreFlushed places.new.items) }
    ensures held { OnErr result (¬ AreFlushed places.new.items) }
    ensures once { AreFlushed places.old.items → places.new.items ≡ places.old.items }
    ensures places { places_of places.new.items ≡ places_of places.old.items }
    ensures line { line.new.capacity ≡ LINE_MAX }
{
    for number in 0..places.len() {
        match places[number].flush_once(&lanes[number], line) {
            Ok(()) => {}
            Err(held) => return Err(held),
        }
    }
    Ok(())
}
