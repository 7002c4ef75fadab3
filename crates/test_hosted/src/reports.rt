//! What is wanted of reports. The functions end the test where something else is found.
use crate::trial::Files;
use alog_pool::{Report, Totals};
use alog_sink::Store;
use std::process::Abort;

/// The totals where so many texts and flushes were asked, so many of them discarded, and so many overrun.
fn totals_of(asked: u64, discarded: u64, overrun: u64) -> Totals {
    let posted = asked.saturating_sub(discarded);
    Totals {
        asked,
        posted,
        discarded,
        overrun,
        handled: posted.saturating_sub(overrun),
    }
}

/// So many texts and flushes were asked, of which so many were discarded and overrun, and all others were handled.
pub fn has_totals(rt: &impl Abort, report: &Report<impl Store>, totals: (u64, u64, u64)) {
    let (asked, discarded, overrun) = totals;
    assert!(rt; report.totals == totals_of(asked, discarded, overrun));
}

/// There is a sink for each of these numbers, at which so many turns were answered by a fault.
pub fn has_faults(rt: &impl Abort, report: &Report<impl Store>, faults: &[u64]) {
    assert!(rt; report.sinks.len() == faults.len());
    assert!(rt; report.faults.as_slice() == faults);
}

/// There is a worker for each of these lists, of which these tickets are told.
pub fn has_tickets(rt: &impl Abort, report: &Report<impl Store>, tickets: &[&[u64]]) {
    assert!(rt; report.tickets.len() == tickets.len());
    for (told, wanted) in report.tickets.iter().zip(tickets) {
        assert!(rt; told.as_slice() == *wanted);
    }
}

/// What the file `log` of this sink has, which has no bytes where it is absent.
pub fn file_of<'a>(rt: &impl Abort, report: &'a Report<Files>, sink: usize) -> &'a [u8] {
    let Some(store) = report.sinks.get(sink).and_then(|sink| sink.store()) else {
        panic!(rt; "no sink")
    };
    match store.store().files().get("log") {
        Some(file) => file.as_slice(),
        None => b"",
    }
}

/// The file of this sink has these bytes.
pub fn has(rt: &impl Abort, report: &Report<Files>, sink: usize, bytes: &[u8]) {
    assert!(rt; file_of(rt, report, sink) == bytes);
}
