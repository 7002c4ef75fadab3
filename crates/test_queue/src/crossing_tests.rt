//! Values that go from thread to thread through a ring.
ghost use Rattle.alog_ring.specs.Known.{IsPassOf};

use crate::ring_tests::ring_of;
use alog_ring::{Pass, PushError, Ring};
use std::alloc::{AllocError, Global};
use std::process::Abort;
use std::sync::Wait;
use std::test::Fail;
use std::thread::{self, Threads};

// Pushes until the ring takes the value.
fn push_until<T>(rt: &impl Wait, ring: &Ring<T>, pass: &mut Pass<T>, mut value: T) -> u64
    requires { IsPassOf ring.now pass.old }
    ensures { IsPassOf ring.now pass.new }
{
    for _ in rt.forever() {
        value = match ring.push(rt, pass, value) {
            Ok(ticket) => return ticket,
            Err(
                PushError::Full { value, .. }
                | PushError::Busy { value, .. }
                | PushError::Spent { value },
            ) => value,
        };
        thread::yield_now();
    }
    unreachable!()
}

// Pops until there is a value.
fn pop_until<T>(rt: &impl Wait, ring: &Ring<T>, pass: &mut Pass<T>) -> T
    requires { IsPassOf ring.now pass.old }
    ensures { IsPassOf ring.now pass.new }
{
    for _ in rt.forever() {
        match ring.pop(rt, pass) {
            Ok((_, value)) => return value,
            Err(_) => thread::yield_now(),
        }
    }
    unreachable!()
}

#[test]
fn two_threads_share_a_ring(rt: HostRuntime) -> Result<(), Fail> {
    let (ring, mut pass) = Ring::<u64>::new(rt.alloc(), 1024, 0)?;
    let mut other = ring.split(&mut pass, 1);
    let (pushed, popped) = thread::join(
        &rt,
        || ring.push(&rt, &mut pass, 42).ok(),
        || pop_until(&rt, &ring, &mut other),
    );
    assert!(rt; (pushed, popped) == (Some(0), 42));
    Ok(())
}

/// A ring, and a pass of it.
#[derive(Drop)]
pub(crate) struct Worker<'a, T> {
    pub(crate) ring: &'a Ring<T>,
    pub(crate) pass: Pass<T>,
    ghost fits: { IsPassOf ring.now pass },
}

/// Whether a thread pushes, from which number on, and how many numbers it pushes or pops. Each lies in a list of its own.
type Part = (bool, u64, u64);

/// A worker, and what it does.
#[derive(Drop)]
struct Job<'a> {
    worker: Worker<'a, Vec<u64>>,
    part: Part,
}

/// Pushes so many numbers, and answers their tickets.
fn push_all(
    rt: &impl Wait,
    alloc: Global,
    worker: Worker<'_, Vec<u64>>,
    from: u64,
    count: u64,
) -> Result<Vec<u64>, AllocError> {
    let Worker { ring, mut pass } = worker;
    let mut tickets = Vec::new(alloc);
    for number in from..from.saturating_add(count) {
        let list = vec![in alloc; number; 1]?;
        tickets.push(push_until(rt, ring, &mut pass, list))?;
    }
    Ok(tickets)
}

/// Pops so many, and answers them.
fn pop_all(
    rt: &impl Wait,
    alloc: Global,
    worker: Worker<'_, Vec<u64>>,
    count: u64,
) -> Result<Vec<u64>, AllocError> {
    let Worker { ring, mut pass } = worker;
    let mut numbers = Vec::new(alloc);
    for _ in 0..count {
        let list = pop_until(rt, ring, &mut pass);
        numbers.extend_from_slice(list.as_slice())?;
    }
    Ok(numbers)
}

/// Does a job.
fn work(rt: &impl Wait, alloc: Global, job: Job<'_>) -> Result<Vec<u64>, AllocError> {
    let Job {
        worker,
        part: (is_pushing, from, count),
    } = job;
    if is_pushing {
        push_all(rt, alloc, worker, from, count)
    } else {
        pop_all(rt, alloc, worker, count)
    }
}

/// What a thread answers.
pub(crate) type Numbers = Result<Vec<u64>, AllocError>;

/// What four threads answer that do these parts on a ring of so many places.
fn answers(
    rt: &(impl Abort + Threads + Wait + Sync),
    alloc: Global,
    (places, first): (usize, u64),
    [one, two, three, four]: [Part; 4],
) -> Result<Vec<Numbers>, AllocError> {
    let (ring, mut pass) = ring_of(rt, alloc, places, first);
    let ring = &ring;
    let second = Worker {
        ring,
        pass: ring.split(&mut pass, 1 << 31),
    };
    let third = Worker {
        ring,
        pass: ring.split(&mut pass, 1),
    };
    let fourth = Worker {
        ring,
        pass: ring.split(&mut pass, 1),
    };
    let first = Worker { ring, pass };
    let jobs = vec![in alloc;
        Job {
            worker: first,
            part: one
        },
        Job {
            worker: second,
            part: two
        },
        Job {
            worker: third,
            part: three
        },
        Job {
            worker: fourth,
            part: four
        },
    ]?;
    thread::map_vec(rt, jobs, &|job: Job<'_>| work(rt, alloc, job))
}

/// The numbers of all these threads, in order.
pub(crate) fn gathered(rt: &impl Abort, alloc: Global, answers: &[Numbers]) -> Vec<u64> {
    let mut all = Vec::new(alloc);
    for answer in answers {
        let is_added = match answer {
            Ok(numbers) => all.extend_from_slice(numbers).is_ok(),
            Err(_) => false,
        };
        assert!(rt; is_added, "out of memory");
    }
    all.sort_unstable();
    all
}

/// These are so many numbers from this one on.
pub(crate) fn are_from(rt: &impl Abort, numbers: &[u64], from: u64, count: usize) {
    let mut next = from;
    let mut rise = true;
    for number in numbers {
        rise = rise && *number == next;
        next = next.wrapping_add(1);
    }
    assert!(rt; rise && numbers.len() == count);
}

/// The places of a ring and its first ticket, what four threads do on it, those that push first, how many these are, and how many numbers
/// are pushed and popped in all. Each ticket is given once, and each number comes once where all are popped.
type Row = ((usize, u64), [Part; 4], usize, (usize, usize));

const ROWS: [Row; 3] = [
    (
        (1024, 0),
        [
            (true, 0, 500),
            (true, 500, 500),
            (false, 0, 0),
            (false, 0, 0),
        ],
        2,
        (1000, 0),
    ),
    (
        (8, (1 << 62) - 4000),
        [
            (true, 0, 1000),
            (true, 1000, 1000),
            (false, 0, 1000),
            (false, 0, 1000),
        ],
        2,
        (2000, 2000),
    ),
    (
        (2, 0),
        [
            (true, 0, 1000),
            (false, 0, 1000),
            (false, 0, 0),
            (false, 0, 0),
        ],
        1,
        (1000, 1000),
    ),
];

/// A row is so.
fn crosses<R: Abort + Threads + Wait + Sync>(rt: &R, alloc: Global, row: Row) {
    let (ring, parts, pushers, counts) = row;
    let Ok(answers) = answers(rt, alloc, ring, parts) else {
        panic!(rt; "out of memory")
    };
    let (tickets, popped) = answers.split_at(pushers.min(answers.len()));
    are_from(rt, &gathered(rt, alloc, tickets), ring.1, counts.0);
    are_from(rt, &gathered(rt, alloc, popped), 0, counts.1);
}

#[test]
fn lists_go_from_thread_to_thread(rt: HostRuntime) {
    for row in &ROWS {
        crosses(&rt, rt.alloc(), *row);
    }
}
