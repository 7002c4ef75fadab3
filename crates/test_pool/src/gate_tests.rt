//! Pools whose workers are held by a gate.
use crate::gates::{Flags, has_begun, holder, holds_until, lowered, open};
use crate::reports::{has, has_tickets, has_totals};
use crate::rows::{Deed, Told, do_all};
use crate::trial::{Files, NEVER, PLAIN, Plan, Trial, setup_of};
use alog_msg::Level;
use alog_policy::Policy;
use alog_pool::{Report, gap_text};
use std::alloc::Global;
use std::process::Abort;
use std::sync::Wait;
use std::thread::Threads;
use std::time::Clock;

// Of two workers, the one that was held has the first ticket, and the other these. It was let go on.
fn has_one_held(rt: &impl Abort, report: &Report<Files>, flags: &Flags, others: &[u64]) {
    match holder(rt, flags) {
        0 => has_both(rt, report, &[0], others),
        1 => has_both(rt, report, others, &[0]),
        _ => panic!(rt; "there is no such worker"),
    }
}

// The two workers have these tickets.
fn has_both(rt: &impl Abort, report: &Report<Files>, first: &[u64], second: &[u64]) {
    has_tickets(rt, report, 0, first);
    has_tickets(rt, report, 1, second);
}

// Two workers, of which none tells gaps, though the setup asks for it.
const BOTH: Plan = Plan {
    workers: 2,
    tells_gaps: true,
    ..PLAIN
};

// They log these texts.
fn say_each(
    rt: &(impl Abort + Wait + Clock),
    alloc: Global,
    trial: &mut Trial<Files>,
    texts: &[&str],
) {
    for text in texts {
        trial.say(rt, alloc, 0, text);
    }
}

// One worker is held before the first turn of its ticket until this ticket was handled: the other one handles all that come later.
fn goes_on<R>(rt: &R, alloc: Global, until: u64, texts: &[&str], others: &[u64], bytes: &[u8])
where
    R: Abort + Threads + Wait + Clock + Clone + Drop + Send + 'static,
{
    let flags = lowered(rt, alloc);
    let gate = holds_until(rt, &flags, until);
    let setup = setup_of(alloc, BOTH, &[&[0]], &[NEVER]);
    let mut trial = Trial::start(rt, alloc, setup, gate, 1);
    say_each(rt, alloc, &mut trial, texts);
    let report = trial.end(rt);
    has_totals(rt, &report, texts.len() as u64, 0, 0);
    has_one_held(rt, &report, &flags, others);
    has(rt, &report, 0, bytes);
}

// Until which ticket a worker is held, the texts, the tickets of the other one, and the lines.
const HELD: [(u64, &[&str], &[u64], &[u8]); 2] = [
    (1, &["a", "b"], &[1], b"b\na\n"),
    (3, &["a", "b", "c", "d"], &[1, 2, 3], b"b\nc\nd\na\n"),
];

#[test]
fn a_held_ticket_is_written_last(rt: HostRuntime) {
    for (until, texts, others, bytes) in &HELD {
        goes_on(&rt, rt.alloc(), *until, texts, others, bytes);
    }
}

// A queue of two places, and one worker, which tells gaps or not.
fn narrow(policy: Policy, tells_gaps: bool) -> Plan {
    Plan {
        queue: 2,
        tells_gaps,
        policy,
        ..PLAIN
    }
}

// So many were asked, discarded and overrun, and the one worker has these tickets and wrote these lines.
fn was_full(
    rt: &impl Abort,
    report: &Report<Files>,
    totals: (u64, u64, u64),
    tickets: &[u64],
    bytes: &[u8],
) {
    let (asked, discarded, overrun) = totals;
    has_totals(rt, report, asked, discarded, overrun);
    has_tickets(rt, report, 0, tickets);
    has(rt, report, 0, bytes);
}

// A text is logged to a queue of two places, whose worker is held at it until its producer has done this.
fn is_full<R>(
    rt: &R,
    alloc: Global,
    plan: Plan,
    deeds: &[Deed<'_>],
    totals: (u64, u64, u64),
    tickets: &[u64],
    bytes: &[u8],
)
where
    R: Abort + Threads + Wait + Clock + Clone + Drop + Send + 'static,
{
    let flags = lowered(rt, alloc);
    let gate = holds_until(rt, &flags, 0);
    let setup = setup_of(alloc, plan, &[&[0]], &[NEVER]);
    let mut trial = Trial::start(rt, alloc, setup, gate, 1);
    trial.say(rt, alloc, 0, "a");
    has_begun(rt, &flags);
    do_all(rt, alloc, &mut trial, deeds);
    open(&flags);
    let report = trial.end(rt);
    assert!(rt; holder(rt, &flags) == 0);
    was_full(rt, &report, totals, tickets, bytes);
}

// The policy, whether gaps are told, what is done where two texts find room, how many are asked, discarded and overrun, the tickets that
// are handled, and the lines.
type AtFull<'a> = (
    Policy,
    bool,
    &'a [Deed<'a>],
    (u64, u64, u64),
    &'a [u64],
    &'a [u8],
);

static FULL: [AtFull<'static>; 7] = [
    (
        Policy::OverrunOldest,
        false,
        &[
            Deed::Logs(0, 0, Level::Info, "b", Told::Posted(1)),
            Deed::Logs(0, 0, Level::Info, "c", Told::Posted(2)),
            Deed::Logs(0, 0, Level::Info, "d", Told::Overran(3)),
            Deed::Logs(0, 0, Level::Info, "e", Told::Overran(4)),
        ],
        (5, 0, 2),
        &[0, 3, 4],
        b"a\nd\ne\n",
    ),
    (
        Policy::DiscardNew,
        false,
        &[
            Deed::Logs(0, 0, Level::Info, "b", Told::Posted(1)),
            Deed::Logs(0, 0, Level::Info, "c", Told::Posted(2)),
            Deed::Logs(0, 0, Level::Info, "d", Told::Full),
            Deed::Logs(0, 0, Level::Info, "e", Told::Full),
        ],
        (5, 2, 0),
        &[0, 1, 2],
        b"a\nb\nc\n",
    ),
    // Without waiting.
    (
        Policy::OverrunOldest,
        false,
        &[
            Deed::LogsNow(0, Level::Info, "b", Told::Posted(1)),
            Deed::LogsNow(0, Level::Info, "c", Told::Posted(2)),
            Deed::LogsNow(0, Level::Info, "d", Told::Overran(3)),
        ],
        (4, 0, 1),
        &[0, 2, 3],
        b"a\nc\nd\n",
    ),
    (
        Policy::DiscardNew,
        false,
        &[
            Deed::LogsNow(0, Level::Info, "b", Told::Posted(1)),
            Deed::LogsNow(0, Level::Info, "c", Told::Posted(2)),
            Deed::LogsNow(0, Level::Info, "d", Told::Full),
        ],
        (4, 1, 0),
        &[0, 1, 2],
        b"a\nb\nc\n",
    ),
    // With what says how many are missing: a text, a text and a flush, and none.
    (
        Policy::OverrunOldest,
        true,
        &[
            Deed::Logs(0, 0, Level::Info, "b", Told::Posted(1)),
            Deed::Logs(0, 0, Level::Info, "c", Told::Posted(2)),
            Deed::Logs(0, 0, Level::Info, "d", Told::Overran(3)),
        ],
        (4, 0, 1),
        &[0, 2, 3],
        b"a\n1 lines are missing here\nc\nd\n",
    ),
    (
        Policy::OverrunOldest,
        true,
        &[
            Deed::Logs(0, 0, Level::Info, "b", Told::Posted(1)),
            Deed::Flushes(0, 2),
            Deed::Logs(0, 0, Level::Info, "c", Told::Overran(3)),
            Deed::Logs(0, 0, Level::Info, "d", Told::Overran(4)),
        ],
        (5, 0, 2),
        &[0, 3, 4],
        b"a\n2 lines are missing here\nc\nd\n",
    ),
    (
        Policy::DiscardNew,
        true,
        &[
            Deed::Logs(0, 0, Level::Info, "b", Told::Posted(1)),
            Deed::Flushes(0, 2),
            Deed::Logs(0, 0, Level::Info, "c", Told::Full),
        ],
        (4, 1, 0),
        &[0, 1, 2],
        b"a\nb\n",
    ),
];

fn full() -> &'static [AtFull<'static>] {
    &FULL
}

#[test]
fn policies_of_a_full_queue(rt: HostRuntime) {
    for (policy, tells_gaps, deeds, totals, tickets, bytes) in full() {
        let plan = narrow(*policy, *tells_gaps);
        is_full(&rt, rt.alloc(), plan, deeds, *totals, tickets, bytes);
    }
}

// The text of a gap, of the smallest number but for none and of the largest.
#[test]
fn texts_of_gaps(rt: HostRuntime) {
    assert!(rt; gap_text(1).as_str() == "1 lines are missing here");
    assert!(rt; gap_text(17).as_str() == "17 lines are missing here");
    assert!(rt; gap_text(u64::MAX).as_str() == "18446744073709551615 lines are missing here");
}
