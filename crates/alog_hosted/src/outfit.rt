//! What a pool takes memory for beside its queue.
ghost use Rattle.std.specs.Prelude.{◌≡◌, ◌≤◌, IfOk};
ghost use Rattle.std.specs.List.{AllByRecursion};
ghost use Rattle.alog_hosted.specs.Outfit.{IsOutfit};
ghost use Rattle.alog_msg.specs.declared.limits.TheConstants.{TEXT_LIMIT_MIN, TEXT_LIMIT_MAX};
ghost use Rattle.alog_pattern.specs.declared.patterns.TheConstants.{LINE_MAX};
ghost use Rattle.alog_pool.specs.Places.{Each2, IsBacktraceSeatOf, IsFirst};
ghost use Rattle.alog_pool.specs.Pool.{backtrace_seat_lanes, lanes_of};
ghost use Rattle.alog_sink.specs.Sinks.{Suits};

use crate::backtrace_place::BacktracePlace;
use crate::blank::Blank;
use crate::sink_place::SinkPlace;
use alog_format::LineBuf;
use alog_lane::Lane;
use alog_pattern::LINE_MAX;
use alog_policy::{BookSeat, LossBook};
use alog_registry::{Backtrace, Loggers};
use alog_sink::{Sink, Store};
use std::alloc::{AllocError, Global};

/// What a pool takes memory for beside its queue.
#[derive(Drop)]
pub(crate) struct Outfit<S: Store> {
    pub(crate) book: LossBook,
    pub(crate) losses: BookSeat,
    pub(crate) backtrace_lanes: Vec<Lane<Backtrace>>,
    pub(crate) backtraces: Vec<BacktracePlace>,
    pub(crate) lanes: Vec<Lane<Sink<S>>>,
    pub(crate) places: Vec<SinkPlace<S>>,
    pub(crate) line: LineBuf,
    pub(crate) blank: Blank<S>,
}

/// What a pool of these loggers and sinks takes memory for.
pub(crate) fn fitted_out<S: Store + Drop>(
    alloc: Global,
    loggers: &Loggers,
    sinks: Vec<Sink<S>>,
    text_limit: usize,
    workers: usize,
) -> Result<Outfit<S>, AllocError>
    requires limit { (TEXT_LIMIT_MIN ≤ text_limit) × (text_limit ≤ TEXT_LIMIT_MAX) }
    requires suits { AllByRecursion (Suits text_limit LINE_MAX) sinks.items }
    ensures { IfOk result (IsOutfit loggers.now sinks.items text_limit workers) }
{
    let (book, losses) = LossBook::new(alloc)?;
    let (backtrace_lanes, backtraces) = backtraces_of(alloc, loggers, text_limit)?;
    let (lanes, places) = places_of(alloc, sinks, text_limit)?;
    let line = LineBuf::new(alloc, LINE_MAX)?;
    let blank = Blank::new(alloc, workers, places.len())?;
    Ok(Outfit {
        book,
        losses,
        backtrace_lanes,
        backtraces,
        lanes,
        places,
        line,
        blank,
    })
}

/// The lane of each of these sinks, and the first place at it.
fn places_of<S: Store + Drop>(
    alloc: Global,
    sinks: Vec<Sink<S>>,
    text_limit: usize,
) -> Result<(Vec<Lane<Sink<S>>>, Vec<SinkPlace<S>>), AllocError>
    requires { AllByRecursion (Suits text_limit LINE_MAX) sinks.items }
    ensures places { IfOk result (λ r. Each2 (IsFirst text_limit) sinks.items r.1.items) }
    ensures lanes { IfOk result (λ r. lanes_of r.1.items ≡ r.0.items) }
{
    let mut lanes = Vec::with_capacity(alloc, sinks.len())?;
    let mut places = Vec::with_capacity(alloc, sinks.len())?;
    for sink in sinks {
        let (lane, place) = SinkPlace::first(alloc, sink, text_limit)?;
        lanes.push_reserved(lane);
        places.push_reserved(place);
    }
    Ok((lanes, places))
}

/// The lane of the backtrace of each of these loggers, and the first place at it.
fn backtraces_of(
    alloc: Global,
    loggers: &Loggers,
    text_limit: usize,
) -> Result<(Vec<Lane<Backtrace>>, Vec<BacktracePlace>), AllocError>
    requires limit { (TEXT_LIMIT_MIN ≤ text_limit) × (text_limit ≤ TEXT_LIMIT_MAX) }
    ensures places { IfOk result (λ r. Each2 (IsBacktraceSeatOf text_limit) loggers.now r.1.items) }
    ensures lanes { IfOk result (λ r. backtrace_seat_lanes r.1.items ≡ r.0.items) }
{
    let mut lanes = Vec::with_capacity(alloc, loggers.len())?;
    let mut places = Vec::with_capacity(alloc, loggers.len())?;
    for number in 0..loggers.len() {
        let Some(spec) = loggers.spec(number as u32) else {
            unreachable!()
        };
        let (lane, place) = BacktracePlace::first(alloc, spec.backtrace, text_limit)?;
        lanes.push_reserved(lane);
        places.push_reserved(place);
    }
    Ok((lanes, places))
}
