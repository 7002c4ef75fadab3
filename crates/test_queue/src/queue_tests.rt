//! The stepped queue: worked schedules, with what each step answers and what the queue then shows.
use alog_core::{ACTORS, Call, CellView, Mark, Said, World, WorldError};
use std::alloc::{AllocError, Global};
use std::process::Abort;

pub(crate) const LAST: u64 = 4_611_686_018_427_387_903;

/// A call that begins, and what the next steps of its actor answer. A step begins nothing: its actor is in a call.
pub(crate) type Row<'a> = (Call<u64>, &'a [Said<u64>]);

/// Rows, and the cells and words of the queue behind them.
type Part<'a> = (&'a [Row<'a>], &'a [CellView], &'a [u64]);

/// The places of a queue, its first ticket, and what is done with it.
type Schedule<'a> = (usize, u64, &'a [Part<'a>]);

/// A new queue.
pub(crate) fn world(rt: &impl Abort, alloc: Global, places: usize, first: u64) -> World<u64> {
    match World::new(alloc, places, first) {
        Ok(world) => world,
        Err(WorldError::OutOfMemory) => panic!(rt; "out of memory"),
        Err(_) => panic!(rt; "no such queue"),
    }
}

/// This call begins, of this actor.
fn begins(rt: &impl Abort, world: &mut World<u64>, call: &Call<u64>) -> u32 {
    let (actor, is_begun) = match call {
        Call::Push(actor, item) => (*actor, world.begin_push(*actor, *item).is_ok()),
        Call::Pop(actor) => (*actor, world.begin_pop(*actor).is_ok()),
        Call::Step(actor) => (*actor, true),
    };
    assert!(rt; is_begun);
    actor
}

/// Whether an answer is a call's last.
fn is_last(said: &Said<u64>) -> bool {
    match said {
        Said::Nothing | Said::Claim(_) | Said::Grab(_) | Said::Front(_) => false,
        Said::Write(_)
        | Said::Full(..)
        | Said::Take(..)
        | Said::Empty(_)
        | Said::Idle(_)
        | Said::Busy(..)
        | Said::Spent(_) => true,
    }
}

/// The next step of an actor answers this, and the actor is in no call then where that is the last.
fn says(rt: &impl Abort, world: &mut World<u64>, actor: u32, wanted: &Said<u64>) {
    let is_said = match world.step(actor) {
        Ok(found) => found == *wanted,
        Err(_) => false,
    };
    let is_right = actor < ACTORS && world.is_idle(actor) == is_last(wanted);
    assert!(rt; is_said && is_right);
}

/// The calls begin one after another, and their steps answer so.
pub(crate) fn goes_on(rt: &impl Abort, world: &mut World<u64>, rows: &[Row<'_>]) {
    for (call, wanted) in rows {
        let actor = begins(rt, world, call);
        for said in *wanted {
            says(rt, world, actor, said);
        }
    }
}

/// What is shown of a queue is this.
fn has<T: PartialEq + Drop>(rt: &impl Abort, shown: Result<Vec<T>, AllocError>, wanted: &[T]) {
    match shown {
        Ok(shown) => assert!(rt; shown.as_slice() == wanted),
        Err(AllocError) => panic!(rt; "out of memory"),
    }
}

/// A new queue goes through this schedule.
fn plays(rt: &impl Abort, alloc: Global, schedule: &Schedule<'_>) {
    let (places, first, parts) = schedule;
    let mut world = world(rt, alloc, *places, *first);
    for (rows, cells, words) in *parts {
        goes_on(rt, &mut world, rows);
        has(rt, world.cells(alloc), cells);
        has(rt, world.words(alloc), words);
    }
}

pub(crate) const NOTHING: Said<u64> = Said::Nothing;

/// Whole pushes of the tickets 0 and 1, of the items 10 and 20, and the claim and the pop of the first.
pub(crate) const PUSH_0: [Said<u64>; 4] = [NOTHING, NOTHING, Said::Claim(0), Said::Write(0)];

pub(crate) const PUSH_1: [Said<u64>; 4] = [NOTHING, NOTHING, Said::Claim(1), Said::Write(1)];

pub(crate) const CLAIM_0: [Said<u64>; 3] = [NOTHING, NOTHING, Said::Claim(0)];

pub(crate) const POP_0: [Said<u64>; 4] = [NOTHING, NOTHING, Said::Grab(0), Said::Take(0, 10)];

pub(crate) const GRAB_0: [Said<u64>; 3] = [NOTHING, NOTHING, Said::Grab(0)];

const FRONT_0: [Said<u64>; 2] = [NOTHING, Said::Front(0)];

/// Schedules that no other test shows.
const SCHEDULES: [Schedule<'_>; 5] = [
    // An idle queue.
    (
        2,
        0,
        &[(
            &[(Call::Pop(2), &FRONT_0), (Call::Step(2), &[Said::Idle(0)])],
            &[],
            &[0, 0, 0, 1],
        )],
    ),
    // A push that comes between a pop's look at the front and its look at the end.
    (
        2,
        0,
        &[(
            &[
                (Call::Pop(2), &FRONT_0),
                (Call::Push(1, 10), &PUSH_0),
                (Call::Step(2), &[Said::Empty(0)]),
                (Call::Pop(2), &POP_0),
            ],
            &[],
            &[1, 1, 2, 1],
        )],
    ),
    // A push and a pop that come in between: both ends are one again, and past the ticket.
    (
        2,
        0,
        &[(
            &[
                (Call::Pop(2), &FRONT_0),
                (Call::Push(1, 10), &PUSH_0),
                (Call::Pop(3), &POP_0),
                (Call::Step(2), &[Said::Empty(0)]),
            ],
            &[],
            &[1, 1, 2, 1],
        )],
    ),
    // The last ticket.
    (
        2,
        LAST,
        &[
            (&[], &[], &[LAST, LAST, LAST + 1, LAST]),
            (
                &[
                    (
                        Call::Push(1, 10),
                        &[NOTHING, NOTHING, Said::Claim(LAST), Said::Write(LAST)],
                    ),
                    (Call::Push(2, 20), &[Said::Spent(Some(20))]),
                    (
                        Call::Pop(3),
                        &[NOTHING, NOTHING, Said::Grab(LAST), Said::Take(LAST, 10)],
                    ),
                    (
                        Call::Pop(3),
                        &[NOTHING, Said::Front(LAST + 1), Said::Idle(LAST + 1)],
                    ),
                ],
                &[],
                &[LAST + 1, LAST + 1, LAST + 1, LAST + 2],
            ),
        ],
    ),
    // A claim of a queue that begins at 7.
    (
        2,
        7,
        &[(
            &[(Call::Push(1, 10), &[NOTHING, NOTHING, Said::Claim(7)])],
            &[CellView {
                ticket: 7,
                mark: Mark::Claimed,
            }],
            &[8, 7, 8, 7],
        )],
    ),
];

#[test]
fn worked_schedules(rt: HostRuntime) {
    for schedule in &SCHEDULES {
        plays(&rt, rt.alloc(), schedule);
    }
}

const CLAIMED_0: CellView = CellView {
    ticket: 0,
    mark: Mark::Claimed,
};

const WRITTEN_0: CellView = CellView {
    ticket: 0,
    mark: Mark::Written,
};

const EMPTYING_0: CellView = CellView {
    ticket: 0,
    mark: Mark::Emptying,
};

const CLAIMED_IN_FRONT: Schedule<'_> = (
    4,
    0,
    &[(
        &[
            (Call::Push(1, 10), &CLAIM_0),
            (Call::Push(2, 20), &PUSH_1),
            (Call::Pop(3), &FRONT_0),
            (Call::Step(3), &[Said::Empty(0)]),
        ],
        &[
            CLAIMED_0,
            CellView {
                ticket: 1,
                mark: Mark::Written,
            },
        ],
        &[2, 0, 0, 2, 2, 3],
    )],
);

#[test]
fn claimed_cell_in_front(rt: HostRuntime) {
    plays(&rt, rt.alloc(), &CLAIMED_IN_FRONT);
}

const EMPTYING: Schedule<'_> = (
    2,
    0,
    &[
        (
            &[
                (Call::Push(1, 10), &PUSH_0),
                (Call::Push(2, 20), &PUSH_1),
                (Call::Pop(3), &GRAB_0),
                (
                    Call::Pop(4),
                    &[NOTHING, NOTHING, Said::Grab(1), Said::Take(1, 20)],
                ),
                (Call::Push(5, 30), &[NOTHING, Said::Full(2, Some(30))]),
            ],
            &[EMPTYING_0],
            &[2, 2, 1, 3],
        ),
        (
            &[
                (Call::Step(3), &[Said::Take(0, 10)]),
                (
                    Call::Push(5, 30),
                    &[NOTHING, NOTHING, Said::Claim(2), Said::Write(2)],
                ),
            ],
            &[CellView {
                ticket: 2,
                mark: Mark::Written,
            }],
            &[3, 2, 3, 3],
        ),
    ],
);

#[test]
fn emptying_cell_keeps_its_place(rt: HostRuntime) {
    plays(&rt, rt.alloc(), &EMPTYING);
}

/// A push that another outruns before it looks at its place, and one before its claim.
const BUSY_PUSHES: [Schedule<'_>; 2] = [
    (
        4,
        0,
        &[(
            &[
                (Call::Push(1, 10), &[NOTHING]),
                (Call::Push(2, 20), &PUSH_0),
                (Call::Step(1), &[Said::Busy(0, Some(10))]),
            ],
            &[WRITTEN_0],
            &[1, 0, 1, 1, 2, 3],
        )],
    ),
    (
        4,
        0,
        &[(
            &[
                (Call::Push(1, 10), &[NOTHING, NOTHING]),
                (Call::Push(2, 20), &CLAIM_0),
                (Call::Step(1), &[Said::Busy(0, Some(10))]),
            ],
            &[CLAIMED_0],
            &[1, 0, 0, 1, 2, 3],
        )],
    ),
];

#[test]
fn busy_push(rt: HostRuntime) {
    for schedule in &BUSY_PUSHES {
        plays(&rt, rt.alloc(), schedule);
    }
}

/// The same of pops.
const BUSY_POPS: [Schedule<'_>; 2] = [
    (
        4,
        0,
        &[(
            &[
                (Call::Push(1, 10), &PUSH_0),
                (Call::Pop(3), &[NOTHING]),
                (Call::Pop(4), &POP_0),
                (Call::Step(3), &[Said::Busy(0, None)]),
            ],
            &[],
            &[1, 1, 4, 1, 2, 3],
        )],
    ),
    (
        4,
        0,
        &[(
            &[
                (Call::Push(1, 10), &PUSH_0),
                (Call::Pop(3), &[NOTHING, NOTHING]),
                (Call::Pop(4), &GRAB_0),
                (Call::Step(3), &[Said::Busy(0, None)]),
            ],
            &[EMPTYING_0],
            &[1, 1, 1, 1, 2, 3],
        )],
    ),
];

#[test]
fn busy_pop(rt: HostRuntime) {
    for schedule in &BUSY_POPS {
        plays(&rt, rt.alloc(), schedule);
    }
}

const A_PUSH_AND_A_POP: Schedule<'_> = (
    2,
    5,
    &[
        (&[], &[], &[5, 5, 6, 5]),
        (
            &[(Call::Push(1, 10), &[NOTHING, NOTHING, Said::Claim(5)])],
            &[CellView {
                ticket: 5,
                mark: Mark::Claimed,
            }],
            &[6, 5, 6, 5],
        ),
        (
            &[(Call::Step(1), &[Said::Write(5)])],
            &[CellView {
                ticket: 5,
                mark: Mark::Written,
            }],
            &[6, 5, 6, 6],
        ),
        (
            &[(
                Call::Pop(2),
                &[NOTHING, NOTHING, Said::Grab(5), Said::Take(5, 10)],
            )],
            &[],
            &[6, 6, 6, 7],
        ),
    ],
);

#[test]
fn words_of_a_queue(rt: HostRuntime) {
    plays(&rt, rt.alloc(), &A_PUSH_AND_A_POP);
}
