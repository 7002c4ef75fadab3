//! The stepped queue with posts: what its calls answer, and which losses they count.
ghost use Rattle.std.specs.Prelude.{◌≡◌, ℕ, ◌∷◌, ◌<◌, ◌≤◌, ◌↔◌, [], Some, None, true, false, map, IfOk, OnOk, OnErr, IfErr, IsOk, IsErrOf};
ghost use Rattle.alog_core.specs.Queue.{last, Claim, Write};
ghost use Rattle.alog_core.specs.World.{is_size, round_of, is_idle, next_move, shown};
ghost use Rattle.alog_core.specs.Run.{LeadsTo, GoesOn, entries_of_step};
ghost use Rattle.alog_core.specs.Staged.{IsReached};
ghost use Rattle.alog_core.specs.declared.round.Round.TheVariants as round;
ghost use Rattle.alog_policy.specs.Desk.{fresh_desk, call_began, post_began, desk_told, desk_stepped, IsPosting, PostGoesOn};
ghost use Rattle.alog_policy.specs.Desk.{post_of};
ghost use Rattle.alog_policy.specs.DeskOutlet.{IsFree, DeskDid, with_losses};
ghost use Rattle.alog_policy.specs.Runs.{overruns_in, discards_of};
ghost use Rattle.alog_policy.specs.Outlet.{PushRefused, Overran, PopRefused};

use crate::counts::Counts;
use crate::following::go_on;
use crate::policy::Policy;
use crate::post::{Post, Stepped};
use crate::progress::Progress;
use crate::rounds::{pop_round, push_round};
use alog_core::{ACTORS, BeginError, CellView, Refused, StepError, World, WorldError};
use alog_ring::{PopError, PushError};
use std::alloc::{AllocError, Global};
use std::marker::Model;

/// A bounded queue and 64 actors, as a `World`, whose actors also make posts: a post goes step by step as a push and a pop
/// do, under its policy, and what it loses is counted.
///
/// Contracts see it as the desk of `specs/Desk.antt`: the machine of the queue, the post of each actor that is in one, and
/// the counts. It stores no history: `runs_are_cut` says what is true of a whole run. The test `overruns_the_oldest` shows it.
#[derive(Drop)]
pub struct Desk<T> {
    world: World<T>,
    posts: Vec<Option<Post<T>>>,
    counts: Counts,
}

impl<T> Model for Desk<T> {
    ghost use Rattle.alog_policy.specs.Desk.{DeskView};

    ghost Value = { DeskView T };

    ghost use Rattle.alog_policy.specs.DeskInside.{desk_in, IsKeptInside};

    ghost view = { desk_in };

    ghost invariant = { IsKeptInside };
}

impl<T: Drop> Desk<T> {
    /// Makes a desk over an empty queue of this many places, a power of two from 2 to 65,536, whose first ticket is below
    /// 2^62. Nobody is in a call then, and nothing is lost. All the memory that its calls need, but for `cells`, is taken
    /// here.
    pub fn new(alloc: Global, places: usize, first: u64) -> Result<Desk<T>, WorldError>
        ensures made { IfOk result (λ d. d ≡ fresh_desk places first) }
        ensures history { IfOk result (λ d. LeadsTo {N = Unit {0}} first [] d.world) }
        ensures bad_size { IsErrOf result WorldError.BadSize ↔ (is_size places ≡ false) }
        ensures bad_first { IsErrOf result WorldError.BadFirst ↔ ((is_size places ≡ true) × (last ≤ first)) }
    {
        let world = World::new(alloc, places, first)?;
        let mut posts = Vec::with_capacity(alloc, ACTORS as usize)?;
        for _ in 0..ACTORS {
            posts.push_reserved(None);
        }
        let counts = Counts {
            overrun: 0,
            discarded: 0,
        };
        Ok(Desk {
            world,
            posts,
            counts,
        })
    }

    /// Begins a push of this item by an actor, 0 to 63: its steps follow by `step`. It takes no memory. A refusal changes
    /// nothing and hands the item back.
    pub fn begin_push(&mut self, actor: u32, item: T) -> Result<(), Refused<T>>
        ensures began { OnOk result (self.new ≡ call_began self.old actor (round.Push item)) }
        ensures begins { IsOk result ↔ ((actor < ACTORS) × (is_idle (round_of self.old.world actor) ≡ true)) }
        ensures no_actor { IfErr result (λ r. (r.fault ≡ BeginError.NoActor) ↔ (ACTORS ≤ actor)) }
        ensures item { IfErr result (λ r. r.item ≡ item) }
        ensures history { OnOk result (GoesOn {N = Unit {0}} self.old.world [] self.new.world) }
        ensures err { OnErr result (self.new ≡ self.old) }
    {
        self.world.begin_push(actor, item)
    }

    /// Begins a pop by an actor, 0 to 63: its steps follow by `step`. It takes no memory, and a refusal changes nothing.
    pub fn begin_pop(&mut self, actor: u32) -> Result<(), BeginError>
        ensures began { OnOk result (self.new ≡ call_began self.old actor round.Pop) }
        ensures begins { IsOk result ↔ ((actor < ACTORS) × (is_idle (round_of self.old.world actor) ≡ true)) }
        ensures no_actor { IsErrOf result BeginError.NoActor ↔ (ACTORS ≤ actor) }
        ensures history { OnOk result (GoesOn {N = Unit {0}} self.old.world [] self.new.world) }
        ensures err { OnErr result (self.new ≡ self.old) }
    {
        self.world.begin_pop(actor)
    }

    /// Begins a post of this value by an actor, 0 to 63, under the policy: its steps follow by `step`. It takes no memory. A
    /// refusal changes nothing and hands the value back. The tests `overruns_the_oldest` and `refusals` show it.
    pub fn begin_post(&mut self, actor: u32, policy: Policy, value: T) -> Result<(), Refused<T>>
        ensures began { OnOk result (self.new ≡ post_began self.old actor policy value) }
        ensures post { OnOk result (IsPosting self.new actor policy value []) }
        ensures begins { IsOk result ↔ ((actor < ACTORS) × (is_idle (round_of self.old.world actor) ≡ true)) }
        ensures no_actor { IfErr result (λ r. (r.fault ≡ BeginError.NoActor) ↔ (ACTORS ≤ actor)) }
        ensures item { IfErr result (λ r. r.item ≡ value) }
        ensures history { OnOk result (GoesOn {N = Unit {0}} self.old.world [] self.new.world) }
        ensures err { OnErr result (self.new ≡ self.old) }
    {
        self.world.begin_push(actor, value)?;
        self.posts[actor as usize] = Some(Post {
            progress: Progress::new(policy),
            hand: None,
        });
        Ok(())
    }

    /// Makes the next atomic step of the actor's push, pop or post. It takes no memory.
    ///
    /// Each step is one event of the queue, which the queue allows, or none. Where a round of a post goes on to the next,
    /// there is no step of its own. A post under `Block` goes on without bound. A refusal changes nothing. The test
    /// `overruns_the_oldest` and `sessions/posts.session` show it.
    pub fn step(&mut self, actor: u32) -> Result<Stepped<T>, StepError>
        ensures no_actor { IsErrOf result StepError.NoActor ↔ (ACTORS ≤ actor) }
        ensures not_in_call { IsErrOf result StepError.NotInCall
            ↔ ((actor < ACTORS) × (is_idle (round_of self.old.world actor) ≡ true)) }
        ensures err { OnErr result (self.new ≡ self.old) }

        ensures told { IfOk result (λ s. s ≡ desk_told self.old actor) }
        ensures stepped { OnOk result (self.new ≡ desk_stepped self.old actor) }
        // Each history that leads to the machine before goes on with the step's event to the machine after.
        ensures history { OnOk result (GoesOn self.old.world (entries_of_step self.old.world actor) self.new.world) }
        // The actor's events in its post so far are the beginning of one by the definition, and at its end a whole one, with
        // the outcome of the definition.
        ensures post { IfOk result (λ s. PostGoesOn self.old actor s.outcome self.new) }
        // An overrun is counted at the take of a post, a discarded post at its end.
        ensures counts { IfOk result (λ s. self.new.counts ≡ with_losses self.old.counts
            (overruns_in (post_of self.old actor) (next_move self.old.world actor).event) (discards_of s.outcome)) }
    {
        let said = self.world.step(actor)?;
        match self.posts[actor as usize].take() {
            None => Ok(Stepped {
                said,
                outcome: None,
            }),
            Some(post) => {
                let (stepped, next) = go_on(&mut self.world, &mut self.counts, actor, post, said);
                self.posts[actor as usize] = next;
                Ok(stepped)
            }
        }
    }

    /// Tells the losses: the items that posts overran, and the posts that ended discarded. The test `overruns_the_oldest` shows
    /// it.
    pub fn counts(&self) -> Counts
        ensures { result ≡ self.now.counts }
    {
        self.counts
    }

    /// Shows the cells, in ticket order.
    pub fn cells(&self, alloc: Global) -> Result<Vec<CellView>, AllocError>
        ensures { IfOk result (λ v. v.items ≡ map shown self.now.world.queue.cells) }
    {
        self.world.cells(alloc)
    }

    /// What is true of every desk, whatever was called: the facts of `IsReached` of its queue and of its actors' rounds. It does
    /// nothing: its contract is the law.
    pub fn is_reached(&self)
        ensures { IsReached self.now.world }
    {
        self.world.is_reached();
    }

    /// Whether this actor, 0 to 63, is in no call.
    pub fn is_idle(&self, actor: u32) -> bool
        requires { actor < ACTORS }
        ensures { result ≡ is_idle (round_of self.now.world actor) }
    {
        self.world.is_idle(actor)
    }

    /// Whether a call of this actor may begin.
    pub(crate) fn may_begin(&self, actor: u32) -> Result<(), BeginError>
        ensures begins { IsOk result ↔ IsFree self.now actor }
        ensures no_actor { IsErrOf result BeginError.NoActor ↔ (ACTORS ≤ actor) }
    {
        if actor >= ACTORS {
            Err(BeginError::NoActor)
        } else if self.world.is_idle(actor) {
            Ok(())
        } else {
            Err(BeginError::InCall)
        }
    }

    /// Makes one round of a push at once, by an actor that is in no call.
    pub(crate) fn push_now(&mut self, actor: u32, value: T) -> Result<u64, PushError<T>>
        requires { IsFree self.old actor }
        ensures pushed { IfOk result (λ t. DeskDid actor self.old (Claim t value ∷ Write t ∷ []) 0 0 self.new) }
        ensures refused { IfErr result (λ e. PushRefused (DeskDid actor) (λ d. IsFree d actor) self.old value e self.new) }
    {
        push_round(&mut self.world, actor, value)
    }

    /// Makes one round of a pop at once, by an actor that is in no call: it drops the oldest item, and counts it.
    pub(crate) fn overrun_now(&mut self, actor: u32) -> Result<u64, PopError>
        requires { IsFree self.old actor }
        ensures overran { IfOk result (λ t. Overran (DeskDid actor) (λ d. IsFree d actor) self.old t self.new) }
        ensures refused { IfErr result (λ e. PopRefused (DeskDid actor) (λ d. IsFree d actor) self.old e self.new) }
    {
        let (ticket, _) = pop_round(&mut self.world, actor)?;
        self.counts.overrun = self.counts.overrun.wrapping_add(1);
        Ok(ticket)
    }

    /// Counts a discarded post.
    pub(crate) fn count_discarded(&mut self)
        ensures { (a : ℕ) → DeskDid a self.old [] 0 1 self.new }
    {
        self.counts.discarded = self.counts.discarded.wrapping_add(1);
    }
}
