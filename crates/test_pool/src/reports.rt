//! What is wanted of replies and of reports. The functions end the test where something else is found.
use crate::totals::totals_of;
use crate::trial::Files;
use alog_msg::Level;
use alog_policy::Outcome;
use alog_pool::Report;
use alog_registry::LogReply;
use alog_sink::Store;
use std::process::Abort;

/// Posted under this ticket.
pub fn posted(ticket: u64) -> Outcome<()> {
    Outcome::Posted { ticket, overran: 0 }
}

/// Logged so, and not kept.
pub fn logged(outcome: Outcome<()>) -> LogReply {
    LogReply::Logged {
        outcome,
        kept: false,
    }
}

/// Below this level, and kept or not.
pub fn filtered(level: Level, kept: bool) -> LogReply {
    LogReply::Filtered { level, kept }
}

/// A log answers this.
pub fn is_told(rt: &impl Abort, reply: LogReply, wanted: LogReply) {
    assert!(rt; reply == wanted);
}

/// So many texts and flushes were asked, of which so many were discarded and overrun.
pub fn has_totals(
    rt: &impl Abort,
    report: &Report<impl Store>,
    asked: u64,
    discarded: u64,
    overrun: u64,
) {
    assert!(rt; report.totals == totals_of(asked, discarded, overrun));
}

/// There is a sink for each of these numbers, at which so many turns were answered by a fault.
pub fn has_faults(rt: &impl Abort, report: &Report<Files>, faults: &[u64]) {
    assert!(rt; report.sinks.len() == faults.len());
    assert!(rt; report.faults.as_slice() == faults);
}

/// The tickets that are told of this worker.
pub fn tickets_of<'a>(rt: &impl Abort, report: &'a Report<Files>, worker: usize) -> &'a [u64] {
    match report.tickets.get(worker) {
        Some(tickets) => tickets.as_slice(),
        None => panic!(rt; "no worker"),
    }
}

/// The tickets of this worker are these.
pub fn has_tickets(rt: &impl Abort, report: &Report<Files>, worker: usize, tickets: &[u64]) {
    assert!(rt; tickets_of(rt, report, worker) == tickets);
}

/// The tickets of this worker are the first ones, so many.
pub fn has_first_tickets(rt: &impl Abort, report: &Report<Files>, worker: usize, count: usize) {
    let tickets = tickets_of(rt, report, worker);
    assert!(rt; tickets.len() == count);
    for (place, ticket) in tickets.iter().enumerate() {
        assert!(rt; *ticket == place as u64);
    }
}

/// What the file `log` of this sink has, which has no bytes where it is absent.
pub fn file_of<'a>(rt: &impl Abort, report: &'a Report<Files>, sink: usize) -> &'a [u8] {
    file_named(rt, report, sink, "log")
}

/// What this file of this sink has, which has no bytes where it is absent.
pub fn file_named<'a>(
    rt: &impl Abort,
    report: &'a Report<Files>,
    sink: usize,
    name: &str,
) -> &'a [u8] {
    let Some(store) = report.sinks.get(sink).and_then(|sink| sink.store()) else {
        panic!(rt; "no sink")
    };
    match store.store().files().get(name) {
        Some(file) => file.as_slice(),
        None => b"",
    }
}

/// The file of this sink has these bytes.
pub fn has(rt: &impl Abort, report: &Report<Files>, sink: usize, bytes: &[u8]) {
    assert!(rt; file_of(rt, report, sink) == bytes);
}

/// How many lines a file has.
pub fn count_of_lines(file: &[u8]) -> usize {
    file.iter().filter(|byte| **byte == b'\n').count()
}

/// How many of the lines of a file are this one.
pub fn count_lines(file: &[u8], wanted: &[u8]) -> usize {
    let mut found = 0_usize;
    for line in file.split(|byte| *byte == b'\n') {
        if line == wanted {
            found = found.saturating_add(1);
        }
    }
    found
}

/// So many of the lines of this sink's file are this one.
pub fn has_lines(
    rt: &impl Abort,
    report: &Report<Files>,
    sink: usize,
    wanted: &[u8],
    count: usize,
) {
    assert!(rt; count_lines(file_of(rt, report, sink), wanted) == count);
}
