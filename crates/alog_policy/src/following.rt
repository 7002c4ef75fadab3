//! What follows in a post after a step of it.
ghost use Rattle.std.specs.Prelude.{◌≡◌, ◌<◌, Some, true};
ghost use Rattle.alog_core.specs.World.{round_of, is_idle, began};
ghost use Rattle.alog_policy.specs.Desk.{turn_of, said_in_post, with_said, call_of, hand_of, discarded_as, with_discard};
ghost use Rattle.alog_policy.specs.Following.{Reads, HasValue, MayGoOn};
ghost use Rattle.alog_policy.specs.Progress.{IsKept};

use crate::counts::Counts;
use crate::policy::{Outcome, Why};
use crate::post::{Post, Stepped};
use crate::progress::{Lost, Progress, Side};
use alog_core::{ACTORS, Said, World};

/// What a step is for the post that made it.
#[derive(Drop)]
pub(crate) enum Reading<T> {
    /// Its round goes on.
    Stays {
        post: Post<T>,
    },
    /// Its value has this ticket.
    Ends {
        ticket: u64,
        overran: u64,
    },
    /// Its value is back: the post goes on so, or is lost so.
    Leads {
        value: T,
        next: Result<Progress, Lost>,
    },
}

/// Follows a step of an actor's post: the post goes on, with its next push or pop begun, or it has ended.
pub(crate) fn go_on<T: Drop>(
    world: &mut World<T>,
    counts: &mut Counts,
    actor: u32,
    post: Post<T>,
    said: Said<T>,
) -> (Stepped<T>, Option<Post<T>>)
    requires { MayGoOn world.old actor post said }
    ensures said { result.0.said ≡ said_in_post said }
    ensures outcome { result.0.outcome ≡ (turn_of world.old actor post counts.old said).outcome }
    ensures world { world.new ≡ (turn_of world.old actor post counts.old said).world }
    ensures post { result.1 ≡ (turn_of world.old actor post counts.old said).post }
    ensures counts { counts.new ≡ (turn_of world.old actor post counts.old said).counts }
{
    count_take(counts, &said);
    let (said, reading) = read(post, said);
    let (outcome, next) = match reading {
        Reading::Stays { post } => (None, Some(post)),
        Reading::Ends { ticket, overran } => (Some(Outcome::Posted { ticket, overran }), None),
        Reading::Leads { value, next } => match next {
            Ok(progress) => (None, Some(begin(world, actor, progress, value))),
            Err(lost) => (Some(discard(counts, value, lost)), None),
        },
    };
    (Stepped { said, outcome }, next)
}

/// Counts an overrun, where the step was a take.
fn count_take<T>(counts: &mut Counts, said: &Said<T>)
    ensures { counts.new ≡ with_said counts.old said.now }
{
    match said {
        Said::Take(..) => counts.overrun = counts.overrun.wrapping_add(1),
        Said::Nothing
        | Said::Claim(_)
        | Said::Write(_)
        | Said::Full(..)
        | Said::Grab(_)
        | Said::Front(_)
        | Said::Empty(_)
        | Said::Idle(_)
        | Said::Busy(..)
        | Said::Spent(_) => {}
    }
}

/// Reads what a step is for the post that made it, and takes its value out of what was said.
fn read<T: Drop>(post: Post<T>, said: Said<T>) -> (Said<T>, Reading<T>)
    requires kept { IsKept post.progress }
    requires value { HasValue post said }
    ensures said { result.0 ≡ said_in_post said }
    ensures reading { Reads post said result.1 }
{
    let Post { progress, hand } = post;
    let (said, value, next) = match said {
        Said::Nothing | Said::Claim(_) | Said::Grab(_) | Said::Front(_) => {
            let post = Post { progress, hand };
            return (said, Reading::Stays { post });
        }
        Said::Write(ticket) => {
            let overran = progress.overran;
            return (Said::Write(ticket), Reading::Ends { ticket, overran });
        }
        Said::Full(at, back) => (Said::Full(at, None), back.or(hand), progress.after_full()),
        Said::Busy(at, back) => (Said::Busy(at, None), back.or(hand), progress.again()),
        Said::Spent(back) => {
            let lost = progress.lost(Why::Spent);
            (Said::Spent(None), back.or(hand), Err(lost))
        }
        Said::Empty(_) | Said::Idle(_) => (said, hand, Err(progress.lost(Why::Stalled))),
        Said::Take(at, item) => (Said::Take(at, item), hand, progress.after_take()),
    };
    let Some(value) = value else { unreachable!() };
    (said, Reading::Leads { value, next })
}

/// Counts a discarded post, and says how it ended.
fn discard<T>(counts: &mut Counts, value: T, lost: Lost) -> Outcome<T>
    ensures outcome { Some result ≡ discarded_as (Some value) lost }
    ensures counts { counts.new ≡ with_discard counts.old }
{
    counts.discarded = counts.discarded.wrapping_add(1);
    Outcome::Discarded {
        value,
        why: lost.why,
        overran: lost.overran,
    }
}

/// Begins the next push or pop of a post that goes on.
fn begin<T: Drop>(world: &mut World<T>, actor: u32, progress: Progress, value: T) -> Post<T>
    requires actor { actor < ACTORS }
    requires idle { is_idle (round_of world.old actor) ≡ true }
    ensures world { world.new ≡ began world.old actor (call_of progress.side (Some value)) }
    ensures post { result ≡ record { progress = progress; hand = hand_of progress.side (Some value) } }
{
    match progress.side {
        Side::Push => {
            let Ok(()) = world.begin_push(actor, value) else {
                unreachable!()
            };
            Post {
                progress,
                hand: None,
            }
        }
        Side::Pop => {
            let Ok(()) = world.begin_pop(actor) else {
                unreachable!()
            };
            Post {
                progress,
                hand: Some(value),
            }
        }
    }
}
