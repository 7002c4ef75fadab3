//! Want of memory, for runs in which one allocation fails, as `rt try --test --fail-alloc` makes it. Whichever that is, the call that meets it
//! answers that memory is wanting and leaves all as it was, and the next one of its kind is as ever: the numbers go on, and the pool does and reports
//! the same. Only the store may lack lines, from one on for which it had no memory, and then that is told by faults.
use crate::rows::{Deed, ONE, Row, Told, has_tickets, has_totals, run};
use crate::sinks::file_of;
use crate::trial::Plan;
use alog_hosted::Pause;
use alog_pool::Report;
use alog_sink::MemStore;
use std::process::Abort;

static WANT: Row<'static> = Row {
    plan: Plan {
        producers: 2,
        workers: 2,
        backtrace: 2,
        ..ONE
    },
    deeds: &[
        Deed::MakesProducer(0),
        Deed::MakesWorker(0),
        Deed::MakesWorker(1),
        Deed::NoWorker,
        Deed::MakesProducer(1),
        Deed::NoProducer,
        Deed::Says(0, "a", Told::Kept(0)),
        Deed::Says(1, "b", Told::Kept(1)),
        Deed::Works(1, 1, 1, Pause::Done),
        Deed::GivesWorker(1),
        Deed::GivesProducer(0),
        Deed::Stays,
        Deed::Says(0, "c", Told::Kept(2)),
        Deed::Dumps(0, 0, &[3, 4, 5, 6]),
        Deed::GivesProducer(0),
        Deed::GivesWorker(0),
    ],
    posted: 7,
    tickets: &[&[0], &[]],
    file: b"a\nb\nc\n=== backtrace start ===\nb\nc\n=== backtrace end ===\n",
};

/// All lines are there, or from some line on each turn was answered by a fault.
fn has_lines(rt: &impl Abort, report: &Report<MemStore>) {
    assert!(rt; file_of(rt, report) == WANT.file || report.faults.as_slice() != [0].as_slice());
}

/// Whichever allocation fails, all calls do and answer the same once they are made again.
#[test]
fn want_of_memory(rt: HostRuntime) {
    let report = run(&rt, rt.alloc(), &WANT);
    has_totals(&rt, &report, WANT.posted);
    has_tickets(&rt, &report, WANT.tickets);
    has_lines(&rt, &report);
}
