//! The queues, and the calls that are timed.
use alog_core::{Said, World};
use anyhow::{Context, Result, ensure};
use std::alloc::Global;

/// The actor that works.
const ACTOR: u32 = 7;

/// How full the queue is while it is measured.
#[derive(Clone, Copy)]
pub enum Load {
    /// A value is pushed into the empty queue, and popped.
    Empty,
    /// A value is popped from the full queue, and another pushed.
    Full,
}

/// A queue of this many places, as full as this.
pub fn queue(alloc: Global, places: usize, load: Load) -> Result<World<u64>> {
    let mut world = World::new(alloc, places, 0)?;
    if let Load::Full = load {
        for item in 0..places as u64 {
            push(&mut world, item)?;
        }
    }
    Ok(world)
}

/// Makes the four steps of the actor's call, and answers the last.
fn finish(world: &mut World<u64>) -> Result<Said<u64>> {
    for _ in 0..3 {
        world.step(ACTOR).ok().context("not in a call")?;
    }
    world.step(ACTOR).ok().context("not in a call")
}

/// A whole push.
fn push(world: &mut World<u64>, item: u64) -> Result<()> {
    ensure!(world.begin_push(ACTOR, item).is_ok(), "in a call");
    ensure!(
        matches!(finish(world)?, Said::Write(_)),
        "the queue was full"
    );
    Ok(())
}

/// A whole pop.
fn pop(world: &mut World<u64>) -> Result<u64> {
    ensure!(world.begin_pop(ACTOR).is_ok(), "in a call");
    match finish(world)? {
        Said::Take(_, item) => Ok(item),
        _ => Err(anyhow::anyhow!("the queue was empty")),
    }
}

/// So many rounds of a push and a pop, or of a pop and a push: eight steps each. Answers the sum of what was popped.
pub fn work(world: &mut World<u64>, load: Load, rounds: u64) -> Result<u64> {
    let mut sum = 0u64;
    for item in 0..rounds {
        let popped = match load {
            Load::Empty => {
                push(world, item)?;
                pop(world)?
            }
            Load::Full => {
                let popped = pop(world)?;
                push(world, item)?;
                popped
            }
        };
        sum = sum.wrapping_add(popped);
    }
    Ok(sum)
}
