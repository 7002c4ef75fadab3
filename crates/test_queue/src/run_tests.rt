//! The stepped queue: what is refused, and runs of calls. `sessions/posts.session` has the largest queue, and items that own memory.
ghost use Rattle.std.specs.Prelude.{◌≡◌, ◌≢◌, ◌<◌, ◌-◌, IfOk};
ghost use Rattle.std.specs.List.{AllPairs, range_with_len};
ghost use Rattle.alog_core.specs.History.{StandsFor};
ghost use Rattle.alog_core.specs.Accounts.{issued, handed_out};
ghost use Rattle.alog_core.specs.World.{fresh};
ghost use Rattle.alog_core.specs.Run.{entries_of_run, TellAll};

use crate::queue_tests::LAST;
use alog_core::laws::{
    accounts_balance, an_actors_tickets_rise, no_ticket_is_handed_out_twice,
    reached_states_are_sound, takes_follow_their_claims, tickets_are_grabbed_in_order,
    tickets_are_handed_out_or_listed, tickets_are_issued_in_order, tickets_keep_their_items,
};
use alog_core::{Answer, Call, Said, World, WorldError};
use std::alloc::{AllocError, Global};
use std::process::Abort;

/// What a run of calls on a new queue leaves and answers.
type Run = (World<u64>, Vec<Answer<u64>>);

/// A run of calls on a new queue: it stands for the entries of the run, and the answers tell them.
fn run_anew(
    alloc: Global,
    places: usize,
    first: u64,
    calls: Vec<Call<u64>>,
) -> Result<Run, WorldError>
    ensures stands { IfOk result (λ r. StandsFor places first (entries_of_run (fresh places first) calls.items) r.0.queue) }
    ensures told { IfOk result (λ r. TellAll calls.items r.1.items (entries_of_run (fresh places first) calls.items)) }
{
    let mut world = World::new(alloc, places, first)?;
    let Ok(answers) = world.run(alloc, calls) else {
        return Err(WorldError::OutOfMemory);
    };
    Ok((world, answers))
}

/// The same: the tickets issued are those from the first on, and none is handed out twice.
fn run_counted(
    alloc: Global,
    places: usize,
    first: u64,
    calls: Vec<Call<u64>>,
) -> Result<Run, WorldError>
    ensures in_order { IfOk result (λ r. issued (entries_of_run (fresh places first) calls.items)
        ≡ range_with_len first (r.0.queue.next - first)) }
    ensures once { IfOk result (λ r. AllPairs (λ t u. t ≢ u) (handed_out (entries_of_run (fresh places first) calls.items))) }
{
    let run = run_anew(alloc, places, first, calls)?;
    tickets_are_issued_in_order::<u64, ()>();
    no_ticket_is_handed_out_twice::<u64, ()>();
    Ok(run)
}

/// What a run of these calls answers. The queue has two places.
fn answers_to(
    rt: &impl Abort,
    alloc: Global,
    first: u64,
    calls: Result<Vec<Call<u64>>, AllocError>,
) -> Vec<Answer<u64>> {
    let Ok(calls) = calls else {
        panic!(rt; "out of memory")
    };
    match run_counted(alloc, 2, first, calls) {
        Ok((_, answers)) => answers,
        Err(WorldError::OutOfMemory) => panic!(rt; "out of memory"),
        Err(_) => panic!(rt; "no such queue"),
    }
}

/// These calls.
fn copies(alloc: Global, calls: &[Call<u64>]) -> Result<Vec<Call<u64>>, AllocError> {
    let mut copies = Vec::new(alloc);
    for call in calls {
        copies.push(match call {
            Call::Push(actor, item) => Call::Push(*actor, *item),
            Call::Pop(actor) => Call::Pop(*actor),
            Call::Step(actor) => Call::Step(*actor),
        })?;
    }
    Ok(copies)
}

/// A run of these calls on a new queue answers this.
fn runs(rt: &impl Abort, alloc: Global, calls: &[Call<u64>], wanted: &[Answer<u64>]) {
    let answers = answers_to(rt, alloc, 0, copies(alloc, calls));
    assert!(rt; answers.as_slice() == wanted);
}

const REFUSED: [Call<u64>; 12] = [
    Call::Push(64, 20),
    Call::Pop(64),
    Call::Step(64),
    Call::Push(63, 10),
    Call::Push(63, 20),
    Call::Pop(63),
    Call::Step(62),
    Call::Push(62, 30),
    Call::Step(62),
    Call::Step(62),
    Call::Step(62),
    Call::Step(62),
];

const REFUSALS: [Answer<u64>; 12] = [
    Answer::Refused(6, Some(20)),
    Answer::Refused(6, None),
    Answer::Refused(6, None),
    Answer::Began,
    Answer::Refused(7, Some(20)),
    Answer::Refused(7, None),
    Answer::Refused(8, None),
    Answer::Began,
    Answer::Said(Said::Nothing),
    Answer::Said(Said::Nothing),
    Answer::Said(Said::Claim(0)),
    Answer::Said(Said::Write(0)),
];

#[test]
fn refusals(rt: HostRuntime) {
    runs(&rt, rt.alloc(), &REFUSED, &REFUSALS);
}

const CALLS: [Call<u64>; 10] = [
    Call::Push(1, 10),
    Call::Step(1),
    Call::Step(1),
    Call::Step(1),
    Call::Step(1),
    Call::Step(1),
    Call::Push(64, 20),
    Call::Pop(0),
    Call::Push(0, 30),
    Call::Step(64),
];

const ANSWERS: [Answer<u64>; 10] = [
    Answer::Began,
    Answer::Said(Said::Nothing),
    Answer::Said(Said::Nothing),
    Answer::Said(Said::Claim(0)),
    Answer::Said(Said::Write(0)),
    Answer::Refused(8, None),
    Answer::Refused(6, Some(20)),
    Answer::Began,
    Answer::Refused(7, Some(30)),
    Answer::Refused(6, None),
];

#[test]
fn calls_and_their_answers(rt: HostRuntime) {
    runs(&rt, rt.alloc(), &CALLS, &ANSWERS);
}

/// The call of this number, of those that push and pop an item step by step, over and over: the item is the round.
fn call_of(number: u64) -> Call<u64> {
    match number % 10 {
        0 => Call::Push(1, number / 10),
        1 => Call::Pop(2),
        2..=5 => Call::Step(1),
        _ => Call::Step(2),
    }
}

/// Pushes and pops of a hundred items.
fn pushes_and_pops(alloc: Global) -> Result<Vec<Call<u64>>, AllocError> {
    let mut calls = Vec::new(alloc);
    for number in 0..1_000 {
        calls.push(call_of(number))?;
    }
    Ok(calls)
}

/// How many items were taken: where they are the numbers from 0 on, with tickets from 7 on.
fn count_taken(answers: &[Answer<u64>]) -> Option<u64> {
    let mut count = 0_u64;
    for answer in answers {
        match answer {
            Answer::Said(Said::Take(ticket, item)) => {
                if *item != count || *ticket != count.wrapping_add(7) {
                    return None;
                }
                count = count.wrapping_add(1);
            }
            _ => {}
        }
    }
    Some(count)
}

#[test]
fn a_run_of_hundreds_of_calls(rt: HostRuntime) {
    let answers = answers_to(&rt, rt.alloc(), 7, pushes_and_pops(rt.alloc()));
    let taken = count_taken(&answers);
    assert!(rt; taken == Some(100));
}

/// Why there is no such queue, if there is none.
fn refusal(alloc: Global, places: usize, first: u64) -> Option<WorldError> {
    World::<u64>::new(alloc, places, first).err()
}

/// Places and first tickets, and why there is no such queue.
const SIZES: [(usize, u64, Option<WorldError>); 10] = [
    (0, 0, Some(WorldError::BadSize)),
    (1, 0, Some(WorldError::BadSize)),
    (2, 0, None),
    (3, 0, Some(WorldError::BadSize)),
    (32_768, 0, None),
    (65_536, 0, None),
    (131_072, 0, Some(WorldError::BadSize)),
    (2, LAST, None),
    (2, LAST + 1, Some(WorldError::BadFirst)),
    (3, LAST + 1, Some(WorldError::BadSize)),
];

#[test]
fn sizes_and_first_tickets(rt: HostRuntime) {
    for (places, first, refused) in &SIZES {
        let found = refusal(rt.alloc(), *places, *first);
        assert!(rt; found != Some(WorldError::OutOfMemory), "out of memory");
        assert!(rt; found == *refused);
    }
}

#[test]
fn laws() {
    reached_states_are_sound::<u64, u64>();
    accounts_balance::<u64, u64>();
    tickets_are_issued_in_order::<u64, u64>();
    no_ticket_is_handed_out_twice::<u64, u64>();
    tickets_are_handed_out_or_listed::<u64, u64>();
    tickets_keep_their_items::<u64, u64>();
    takes_follow_their_claims::<u64, u64>();
    tickets_are_grabbed_in_order::<u64, u64>();
    an_actors_tickets_rise::<u64, u64>();
}
