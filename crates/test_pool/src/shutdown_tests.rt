//! Pools that are ended.
ghost use Rattle.std.specs.Prelude.{◌≡◌, IfSome};
ghost use Rattle.std.specs.List.{AllByRecursion};

use crate::gates::{Flags, has_begun, holder, lowered, open, stay};
use crate::reports::{
    file_of, has, has_first_tickets, has_tickets, has_totals, is_told, logged, posted,
};
use crate::rows::{DUMPED, Deed, End, ONE, Row, Told, do_all};
use crate::trial::{Files, NEVER, PLAIN, Plan, Trial, add, kept, log_again, setup_of};
use alog_msg::Level;
use alog_pool::{OpenGate, Pool, Producer, ProducersOut, Report};
use std::alloc::Global;
use std::process::Abort;
use std::sync::Wait;
use std::thread::{self, Threads};
use std::time::Clock;

// Pools that are ended.
static ENDED: [Row<'static>; 8] = [
    // A worker writes and stops.
    Row {
        deeds: &[Deed::Logs(0, 0, Level::Info, "a", Told::Posted(0))],
        totals: (1, 0),
        tickets: &[0],
        files: &[b"a\n"],
        ..ONE
    },
    // Two producers come back.
    Row {
        producers: 2,
        deeds: &[
            Deed::Logs(0, 0, Level::Info, "a", Told::Posted(0)),
            Deed::Logs(1, 0, Level::Info, "b", Told::Posted(1)),
            Deed::Logs(0, 0, Level::Info, "c", Told::Posted(2)),
        ],
        totals: (3, 0),
        tickets: &[0, 1, 2],
        files: &[b"a\nb\nc\n"],
        ..ONE
    },
    // Sixty-four workers end.
    Row {
        plan: Plan {
            workers: 64,
            ..PLAIN
        },
        producers: 0,
        ..ONE
    },
    // Sinks come back in order.
    Row {
        routes: &[&[1], &[0]],
        fuses: &[NEVER, NEVER],
        deeds: &[
            Deed::Logs(0, 0, Level::Info, "second", Told::Posted(0)),
            Deed::Logs(0, 1, Level::Info, "first", Told::Posted(1)),
        ],
        totals: (2, 0),
        tickets: &[0, 1],
        faults: &[0, 0],
        files: &[b"first\n", b"second\n"],
        ..ONE
    },
    // The third call of a store fails, after the first three bytes of its line, which is the second one, since each is flushed: its
    // sink is broken, and this turn and all behind it are answered by a fault. The other sink has all lines.
    Row {
        routes: &[&[0, 1]],
        fuses: &[NEVER, 2],
        deeds: &[
            Deed::Logs(0, 0, Level::Error, "one", Told::Posted(0)),
            Deed::Logs(0, 0, Level::Error, "two", Told::Posted(1)),
            Deed::Logs(0, 0, Level::Error, "six", Told::Posted(2)),
        ],
        totals: (3, 0),
        tickets: &[0, 1, 2],
        faults: &[0, 4],
        files: &[b"one\ntwo\nsix\n", b"one\ntwo"],
        ..ONE
    },
    // A logger below whose level all messages are kept dumps the last two, between two lines. A flush comes after.
    Row {
        plan: Plan {
            level: Level::Warning,
            backtrace: 2,
            ..PLAIN
        },
        deeds: &[
            Deed::Logs(0, 0, Level::Info, "m1", Told::Below(Level::Warning, true)),
            Deed::Logs(0, 0, Level::Info, "m2", Told::Below(Level::Warning, true)),
            Deed::Logs(0, 0, Level::Info, "m3", Told::Below(Level::Warning, true)),
            Deed::Dumps(0, 4),
            Deed::Flushes(0, 4),
        ],
        totals: (5, 0),
        tickets: &[0, 1, 2, 3, 4],
        files: &[DUMPED],
        ..ONE
    },
    // A pool whose second producer is out does not end, and ends when it has come back: nothing was logged.
    Row {
        plan: Plan {
            workers: 3,
            ..PLAIN
        },
        producers: 2,
        end: End::Late,
        ..ONE
    },
    // Two workers handle what two loggers give to both sinks, in opposite orders.
    Row {
        plan: Plan {
            workers: 2,
            ..PLAIN
        },
        routes: &[&[0, 1], &[1, 0]],
        fuses: &[NEVER, NEVER],
        deeds: &[Deed::LogsToBoth(0, 2_000)],
        totals: (4_000, 0),
        faults: &[0, 0],
        files: &[],
        counts: &[
            [(b"a", 2_000), (b"b", 2_000)],
            [(b"a", 2_000), (b"b", 2_000)],
        ],
        ..ONE
    },
];

pub(crate) fn ended() -> &'static [Row<'static>] {
    &ENDED
}

// A text of this producer.
fn text(rt: &impl Abort, alloc: Global, who: usize, number: usize) -> String {
    match format!(in alloc; "{who} {number}\n") {
        Ok(text) => text,
        Err(_) => panic!(rt; "no memory"),
    }
}

// Four producers log in turn, so many messages in all, while the workers take them.
fn talk_in_turn(
    rt: &(impl Abort + Wait + Clock),
    alloc: Global,
    trial: &mut Trial<Files>,
    count: usize,
) {
    for number in 0..count {
        let who = number % 4;
        let line = text(rt, alloc, who, number);
        trial.say(rt, alloc, who, line.trim_end());
    }
}

// The file of the first sink has those messages in order, and no others.
fn has_all_in_order(rt: &impl Abort, alloc: Global, report: &Report<Files>, count: usize) {
    let mut rest = file_of(rt, report, 0);
    for number in 0..count {
        let line = text(rt, alloc, number % 4, number);
        match rest.strip_prefix(line.as_bytes()) {
            Some(after) => rest = after,
            None => panic!(rt; "no line {number}"),
        }
    }
    assert!(rt; rest.is_empty());
}

// One worker handles so many messages in order, and tells so many of their tickets at most.
fn handles_in_order<R>(rt: &R, alloc: Global, tickets_max: usize, count: usize)
where
    R: Abort + Threads + Wait + Clock + Clone + Drop + Send + 'static,
{
    let plan = Plan {
        tickets_max,
        ..PLAIN
    };
    let setup = setup_of(alloc, plan, &[&[0]], &[NEVER]);
    let mut trial = Trial::start(rt, alloc, setup, OpenGate, 4);
    talk_in_turn(rt, alloc, &mut trial, count);
    let report = trial.end(rt);
    has_totals(rt, &report, count as u64, 0, 0);
    has_first_tickets(rt, &report, 0, tickets_max.min(count));
    has_all_in_order(rt, alloc, &report, count);
}

#[test]
fn one_worker_handles_all_in_order(rt: HostRuntime) {
    for (tickets_max, count) in [(400, 400), (3, 20)] {
        handles_in_order(&rt, rt.alloc(), tickets_max, count);
    }
}

// A thread has a producer until it is let go on, and logs a text then, under this ticket.
fn keeps(
    rt: &(impl Abort + Wait + Clock),
    alloc: Global,
    producer: &mut Producer,
    flags: &Flags,
    ticket: u64,
)
    ensures { producer.new.shared ≡ producer.old.shared }
{
    stay(flags, 1);
    match log_again(rt, alloc, producer, 0, Level::Info, "late") {
        Ok(reply) => is_told(rt, reply, logged(posted(ticket))),
        Err(_) => panic!(rt; "no memory"),
    }
}

// A pool with its producers, but those that are out. A call that ends it takes it.
type Asked = Option<(Pool<Files>, Vec<Producer>)>;

// While another thread has a producer the pool does not end, and comes back with the others.
fn is_kept_open(rt: &(impl Abort + Threads + Wait + Clock), asked: &mut Asked, flags: &Flags)
    requires { IfSome asked.old (λ a. AllByRecursion (λ p. p.shared ≡ a.0.shared) a.1.items) }
    ensures { asked.new ≡ asked.old }
{
    has_begun(rt, flags);
    let Some((pool, producers)) = asked.take() else {
        panic!(rt; "no pool")
    };
    let ProducersOut { pool, producers } = kept(rt, pool, producers);
    match asked.replace((pool, producers)) {
        None => open(flags),
        Some(_) => panic!(rt; "two pools"),
    }
}

// A thread keeps the late producer, while this one asks the pool to end.
fn asks_beside<R: Abort + Threads + Wait + Clock + Sync>(
    rt: &R,
    alloc: Global,
    late: &mut Producer,
    asked: &mut Asked,
    flags: &Flags,
    ticket: u64,
)
    requires own { IfSome asked.old (λ a. AllByRecursion (λ p. p.shared ≡ a.0.shared) a.1.items) }
    requires late { IfSome asked.old (λ a. late.old.shared ≡ a.0.shared) }
    ensures own { IfSome asked.new (λ a. AllByRecursion (λ p. p.shared ≡ a.0.shared) a.1.items) }
    ensures late { IfSome asked.new (λ a. late.new.shared ≡ a.0.shared) }
{
    thread::join_mut(
        rt,
        &mut ||
            ensures { late.exit.now.shared ≡ late.entry.now.shared }
        { keeps(rt, alloc, late, flags, ticket) },
        &mut ||
            requires { IfSome asked.now (λ a. AllByRecursion (λ p. p.shared ≡ a.0.shared) a.1.items) }
            ensures { asked.exit.now ≡ asked.entry.now }
        { is_kept_open(rt, asked, flags) },
    );
}

// A pool with its producers, to which the late one is back.
fn back(rt: &impl Abort, asked: Asked, late: Producer) -> Trial<Files>
    requires own { IfSome asked (λ a. AllByRecursion (λ p. p.shared ≡ a.0.shared) a.1.items) }
    requires late { IfSome asked (λ a. late.shared ≡ a.0.shared) }
{
    let Some((pool, mut producers)) = asked else {
        panic!(rt; "no pool")
    };
    add(rt, &mut producers, late);
    Trial { pool, producers }
}

// The last producer goes to another thread, and is back after the pool was asked to end.
fn lends_the_last<R: Abort + Threads + Wait + Clock + Sync>(
    rt: &R,
    alloc: Global,
    trial: Trial<Files>,
    flags: &Flags,
    ticket: u64,
) -> Trial<Files> {
    let Trial {
        pool,
        mut producers,
    } = trial;
    let Some(mut late) = producers.pop() else {
        panic!(rt; "no producer")
    };
    let mut asked = Some((pool, producers));
    asks_beside(rt, alloc, &mut late, &mut asked, flags, ticket);
    back(rt, asked, late)
}

// What two producers log before one of them goes to another thread, and when it is back.
const BEFORE: [Deed<'_>; 2] = [
    Deed::Logs(0, 0, Level::Info, "a", Told::Posted(0)),
    Deed::Logs(1, 0, Level::Info, "b", Told::Posted(1)),
];

const AFTER: [Deed<'_>; 2] = [
    Deed::Logs(1, 0, Level::Info, "c", Told::Posted(3)),
    Deed::Logs(0, 0, Level::Info, "d", Told::Posted(4)),
];

// All five texts were handled, in their order.
fn has_all_five(rt: &impl Abort, report: &Report<Files>) {
    has_totals(rt, report, 5, 0, 0);
    has_tickets(rt, report, 0, &[0, 1, 2, 3, 4]);
    has(rt, report, 0, b"a\nb\nlate\nc\nd\n");
}

// A pool is asked to end while another thread has a producer, and ends when it is back: nothing is lost.
fn ends_when_all_are_back<R>(rt: &R, alloc: Global)
where
    R: Abort + Threads + Wait + Clock + Clone + Drop + Send + Sync + 'static,
{
    let flags = lowered(rt, alloc);
    let setup = setup_of(alloc, PLAIN, &[&[0]], &[NEVER]);
    let mut trial = Trial::start(rt, alloc, setup, OpenGate, 2);
    do_all(rt, alloc, &mut trial, &BEFORE);
    let mut trial = lends_the_last(rt, alloc, trial, &flags, 2);
    do_all(rt, alloc, &mut trial, &AFTER);
    let report = trial.end(rt);
    has_all_five(rt, &report);
    assert!(rt; holder(rt, &flags) == 1);
}

#[test]
fn a_producer_of_another_thread_keeps_a_pool_open(rt: HostRuntime) {
    ends_when_all_are_back(&rt, rt.alloc());
}
