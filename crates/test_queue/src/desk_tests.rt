//! Posts on the stepped queue: worked schedules, with what each step answers, how each post ends, and what is lost. Those that a script
//! shows are in `sessions/posts.session` and in `rows/`.
ghost use Rattle.std.specs.Prelude.{◌≡◌, ℕ, List, [], ◌∷◌, IfSome, IfNone, IfOk};
ghost use Rattle.alog_policy.specs.Runs.{StepMade, IsRun, called, ToPost};
ghost use Rattle.alog_policy.specs.DeskOutlet.{DeskDid};
ghost use Rattle.alog_policy.specs.Outlet.{PostsNow};
ghost use Rattle.alog_policy.specs.declared.policy.Policy.TheVariants as under;

use crate::queue_tests::{GRAB_0, LAST, NOTHING, PUSH_0, PUSH_1};
use alog_core::{Said, WorldError};
use alog_policy::laws::runs_are_cut;
use alog_policy::{Counts, Desk, Outcome, Policy, Stepped, Why, post_now};
use std::alloc::Global;
use std::process::Abort;
use std::test::Fail;

/// What an actor begins.
#[derive(Clone, Copy)]
enum Deed {
    Push(u64),
    Pop,
    Post(Policy, u64),
    /// A post that is made at once.
    PostNow(Policy, u64),
    /// Nothing: it is in a call.
    Steps,
}

/// An actor, what it begins, what its next steps answer, and how its post ends with the last of them, if it does.
type Row<'a> = (u32, Deed, &'a [Said<u64>], Option<Outcome<u64>>);

/// Rows, and how much was lost behind them: how many items were overrun, and how many posts discarded.
type Part<'a> = (&'a [Row<'a>], (u64, u64));

/// The first ticket of a desk of two places, and what is done with it.
type Schedule<'a> = (u64, &'a [Part<'a>]);

/// A new desk.
fn new_desk(rt: &impl Abort, alloc: Global, first: u64) -> Desk<u64> {
    match Desk::new(alloc, 2, first) {
        Ok(desk) => desk,
        Err(WorldError::OutOfMemory) => panic!(rt; "out of memory"),
        Err(_) => panic!(rt; "no such desk"),
    }
}

/// What a caller knows of a desk after a post that was made at once: the actor's events are one post by the definition, the
/// counts have its losses, and nobody else did anything.
fn at_once(desk: &mut Desk<u64>, actor: u32, policy: Policy, value: u64) -> Option<Outcome<u64>>
    ensures posted { IfSome result (λ o.
        PostsNow (DeskDid actor) policy value value desk.old desk.new o) }
    ensures refused { IfNone result (desk.new ≡ desk.old) }
{
    match desk.outlet(actor) {
        Ok(mut outlet) => Some(post_now(&mut outlet, policy, value)),
        Err(_) => None,
    }
}

/// An actor does so: how its post ended, if it did at once.
fn does(rt: &impl Abort, desk: &mut Desk<u64>, actor: u32, deed: Deed) -> Option<Outcome<u64>> {
    let is_begun = match deed {
        Deed::Push(item) => desk.begin_push(actor, item).is_ok(),
        Deed::Pop => desk.begin_pop(actor).is_ok(),
        Deed::Post(policy, value) => desk.begin_post(actor, policy, value).is_ok(),
        Deed::PostNow(policy, value) => return at_once(desk, actor, policy, value),
        Deed::Steps => true,
    };
    assert!(rt; is_begun);
    None
}

/// The next step of an actor answers this: how its post ended, if it did.
fn says(
    rt: &impl Abort,
    desk: &mut Desk<u64>,
    actor: u32,
    wanted: &Said<u64>,
) -> Option<Outcome<u64>> {
    match desk.step(actor) {
        Ok(Stepped { said, outcome }) => {
            assert!(rt; said == *wanted);
            outcome
        }
        Err(_) => panic!(rt; "an actor in no call"),
    }
}

/// The actors do so one after another.
fn goes_on(rt: &impl Abort, desk: &mut Desk<u64>, rows: &[Row<'_>]) {
    for (actor, deed, wanted, end) in rows {
        let mut ended = does(rt, desk, *actor, *deed);
        for said in *wanted {
            assert!(rt; ended.is_none());
            ended = says(rt, desk, *actor, said);
        }
        assert!(rt; ended == *end);
    }
}

/// So much was lost.
fn has_lost(rt: &impl Abort, desk: &Desk<u64>, (overrun, discarded): (u64, u64)) {
    assert!(rt; desk.counts() == Counts { overrun, discarded });
}

/// A new desk goes through this schedule.
fn plays(rt: &impl Abort, alloc: Global, (first, parts): &Schedule<'_>) {
    let mut desk = new_desk(rt, alloc, *first);
    for (rows, lost) in *parts {
        goes_on(rt, &mut desk, rows);
        has_lost(rt, &desk, *lost);
    }
}

const GRAB_1: [Said<u64>; 3] = [NOTHING, NOTHING, Said::Grab(1)];

const POP_1: [Said<u64>; 4] = [NOTHING, NOTHING, Said::Grab(1), Said::Take(1, 20)];

const POP_2: [Said<u64>; 4] = [NOTHING, NOTHING, Said::Grab(2), Said::Take(2, 30)];

const OVERRAN_1: Option<Outcome<u64>> = Some(Outcome::Posted {
    ticket: 2,
    overran: 1,
});

/// One that is discarded.
const FULL: Option<Outcome<u64>> = Some(Outcome::Discarded {
    value: 30,
    why: Why::Full,
    overran: 0,
});

const STALLED: Option<Outcome<u64>> = Some(Outcome::Discarded {
    value: 30,
    why: Why::Stalled,
    overran: 0,
});

const SPENT: Option<Outcome<u64>> = Some(Outcome::Discarded {
    value: 30,
    why: Why::Spent,
    overran: 0,
});

const OVERRUN: Schedule<'_> = (
    0,
    &[
        (
            &[
                (1, Deed::Push(10), &PUSH_0, None),
                (2, Deed::Push(20), &PUSH_1, None),
                (
                    3,
                    Deed::Post(Policy::OverrunOldest, 30),
                    &[
                        NOTHING,
                        Said::Full(2, None),
                        NOTHING,
                        NOTHING,
                        Said::Grab(0),
                    ],
                    None,
                ),
            ],
            (0, 0),
        ),
        (&[(3, Deed::Steps, &[Said::Take(0, 10)], None)], (1, 0)),
        (
            &[
                (
                    3,
                    Deed::Steps,
                    &[NOTHING, NOTHING, Said::Claim(2), Said::Write(2)],
                    OVERRAN_1,
                ),
                (4, Deed::Pop, &POP_1, None),
                (4, Deed::Pop, &POP_2, None),
            ],
            (1, 0),
        ),
    ],
);

#[test]
fn overruns_the_oldest(rt: HostRuntime) {
    plays(&rt, rt.alloc(), &OVERRUN);
}

/// The first ticket, 5, is claimed by an actor that stalls, and ticket 6 is written.
const CLAIM_5: Row<'_> = (1, Deed::Push(10), &[NOTHING, NOTHING, Said::Claim(5)], None);

const PUSH_6: Row<'_> = (
    2,
    Deed::Push(20),
    &[NOTHING, NOTHING, Said::Claim(6), Said::Write(6)],
    None,
);

const AT_ONCE: Schedule<'_> = (
    0,
    &[
        (
            &[
                (
                    3,
                    Deed::PostNow(Policy::Block, 10),
                    &[],
                    Some(Outcome::Posted {
                        ticket: 0,
                        overran: 0,
                    }),
                ),
                (
                    3,
                    Deed::PostNow(Policy::DiscardNew, 20),
                    &[],
                    Some(Outcome::Posted {
                        ticket: 1,
                        overran: 0,
                    }),
                ),
                (3, Deed::PostNow(Policy::Block, 30), &[], FULL),
                (3, Deed::PostNow(Policy::DiscardNew, 30), &[], FULL),
                (3, Deed::PostNow(Policy::OverrunOldest, 30), &[], OVERRAN_1),
            ],
            (1, 2),
        ),
        (
            &[(4, Deed::Pop, &POP_1, None), (4, Deed::Pop, &POP_2, None)],
            (1, 2),
        ),
    ],
);

#[test]
fn posts_at_once(rt: HostRuntime) {
    plays(&rt, rt.alloc(), &AT_ONCE);
}

const TWO_AT_ONCE: Schedule<'_> = (
    5,
    &[(
        &[
            (
                0,
                Deed::PostNow(Policy::Block, 7),
                &[],
                Some(Outcome::Posted {
                    ticket: 5,
                    overran: 0,
                }),
            ),
            (64, Deed::PostNow(Policy::Block, 7), &[], None),
        ],
        (0, 0),
    )],
);

#[test]
fn a_caller_knows_the_desk(rt: HostRuntime) {
    plays(&rt, rt.alloc(), &TWO_AT_ONCE);
}

/// Schedules that no other test shows.
const SCHEDULES: [Schedule<'_>; 3] = [
    // Both tickets are being emptied: a post at once that overruns finds none to take.
    (
        0,
        &[(
            &[
                (1, Deed::Push(10), &PUSH_0, None),
                (2, Deed::Push(20), &PUSH_1, None),
                (1, Deed::Pop, &GRAB_0, None),
                (2, Deed::Pop, &GRAB_1, None),
                (3, Deed::PostNow(Policy::OverrunOldest, 30), &[], STALLED),
            ],
            (0, 1),
        )],
    ),
    // At once behind a claim.
    (
        5,
        &[(
            &[
                CLAIM_5,
                PUSH_6,
                (3, Deed::PostNow(Policy::OverrunOldest, 30), &[], STALLED),
                (3, Deed::PostNow(Policy::DiscardNew, 30), &[], FULL),
            ],
            (0, 2),
        )],
    ),
    // At once where no ticket is left.
    (
        LAST,
        &[(
            &[
                (
                    3,
                    Deed::PostNow(Policy::Block, 10),
                    &[],
                    Some(Outcome::Posted {
                        ticket: LAST,
                        overran: 0,
                    }),
                ),
                (3, Deed::PostNow(Policy::Block, 30), &[], SPENT),
                (3, Deed::PostNow(Policy::OverrunOldest, 30), &[], SPENT),
                (3, Deed::PostNow(Policy::DiscardNew, 30), &[], SPENT),
            ],
            (0, 3),
        )],
    ),
];

#[test]
fn worked_posts(rt: HostRuntime) {
    for schedule in &SCHEDULES {
        plays(&rt, rt.alloc(), schedule);
    }
}

/// What a caller knows of a run: a post begins on a new desk and makes a step.
fn first_step(alloc: Global, value: u64) -> Result<Desk<u64>, Fail>
    ensures { IfOk result (λ d. (steps : List (StepMade ℕ))
        × IsRun 2 5 (called 1 (ToPost under.Block value) ∷ []) steps d) }
{
    let mut desk = Desk::new(alloc, 2, 5)?;
    let Ok(()) = desk.begin_post(1, Policy::Block, value) else {
        return Err(Fail::new("no post begins"));
    };
    let Ok(_) = desk.step(1) else {
        return Err(Fail::new("no step is made"));
    };
    runs_are_cut::<u64>();
    Ok(desk)
}

#[test]
fn a_caller_knows_a_run(rt: HostRuntime) -> Result<(), Fail> {
    first_step(rt.alloc(), 7)?;
    Ok(())
}
