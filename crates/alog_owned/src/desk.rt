//! The desk of a pool: where producers and workers are given back, from whatever thread.
ghost use Rattle.std.specs.Prelude.{◌≡◌, IfOk, IfErr, IfSome};
ghost use Rattle.alog_owned.specs.Desk.{IsPassAt};

use crate::back::Back;
use crate::common::Common;
use alog_hosted::Hosted;
use alog_sink::Store;
use crossbeam_queue::protocol::{Outcome, Protocol, Split};
use crossbeam_queue::{Pass, RuledArrayQueue};
use std::alloc::{AllocError, Global};
use std::marker::PhantomData;
use std::mem::ManuallyDrop;
use std::snapshot::Snapshot;

/// What lies on a desk. Who takes it off the desk has the part.
type Item<S> = ManuallyDrop<Back<S>>;

/// What a pass knows: whose desk it is, once that is known.
type Whose<S> = Option<Snapshot<Hosted<S>>>;

/// The parts of one pool that came back, and that nobody took in yet.
pub(crate) type Desk<S> = RuledArrayQueue<Item<S>, Whose<S>, OneHost<S>>;

/// What a part, or a pool, knows of its desk. It has no bytes.
pub(crate) type DeskPass<S> = Pass<Item<S>, Whose<S>>;

/// The rule of a desk: all on it is of one pool, and each pass knows of which.
pub(crate) struct OneHost<S> {
    stores: PhantomData<S>,
}

impl<S: Store> Protocol<Item<S>, Whose<S>> for OneHost<S> {
    ghost use Rattle.std.specs.Prelude.{None};
    ghost use Rattle.alog_owned.specs.Desk.{IsDesk};

    ghost holds = { IsDesk };

    ghost first = { None };
}

/// A part is laid on the desk.
struct Comes;

impl<S: Store> Outcome<Item<S>, Whose<S>> for Comes {
    ghost use Rattle.alog_owned.specs.Desk.{Knows};

    ghost then = { λ _ x w. Knows x.value.hosted.value w };
}

/// A part is taken off the desk.
struct Goes;

impl<S: Store> Outcome<Item<S>, Whose<S>> for Goes {
    ghost use Rattle.std.specs.Prelude.{◌≡◌};
    ghost use Rattle.alog_owned.specs.Desk.{Knows};

    ghost then = { λ v x w. (w ≡ v) × Knows x.value.hosted.value v };
}

/// One more pass that knows as much.
struct Same;

impl<S: Store> Split<Whose<S>> for Same {
    ghost left = { λ v. v };

    ghost right = { λ v. v };
}

/// A desk for this pool, with room for so many parts. Its pass lays a seed on it and takes it off again, by which it knows whose desk it is.
pub(crate) fn desk_for<S: Store>(
    alloc: Global,
    hosted: &Hosted<S>,
    parts: usize,
) -> Result<(Desk<S>, DeskPass<S>), AllocError>
    ensures { IfOk result (λ d. IsPassAt d.0 hosted.now d.1) }
{
    let (desk, mut pass) = Desk::ruled(alloc, parts.max(1))?;
    let seed = unsafe { ManuallyDrop::new_unchecked(Back::seed(hosted)) };
    let Ok(()) = desk.try_push_as::<Comes>(&mut pass, seed) else {
        return Err(AllocError);
    };
    let _seed = desk.try_pop_as::<Goes>(&mut pass);
    Ok((desk, pass))
}

/// One more pass of a pool's desk.
pub(crate) fn another<S: Store>(common: &Common<S>, pass: &mut DeskPass<S>) -> DeskPass<S>
    requires { IsPassAt common.now.desk common.now.hosted pass.old }
    ensures own { IsPassAt common.now.desk common.now.hosted pass.new }
    ensures given { IsPassAt common.now.desk common.now.hosted result }
{
    common.desk.another::<Same>(pass)
}

/// Lays a part on its pool's desk. Where another thread is at the desk it is handed back.
pub(crate) fn lay<S: Store>(
    common: &Common<S>,
    pass: &mut DeskPass<S>,
    back: Back<S>,
) -> Result<(), Back<S>>
    requires of { back.hosted.value ≡ common.now.hosted }
    requires pass { IsPassAt common.now.desk common.now.hosted pass.old }
    ensures pass { IsPassAt common.now.desk common.now.hosted pass.new }
    ensures back { IfErr result (λ b. b ≡ back) }
{
    let back = unsafe { ManuallyDrop::new_unchecked(back) };
    match common.desk.try_push_as::<Comes>(pass, back) {
        Ok(()) => Ok(()),
        Err(back) => Err(ManuallyDrop::into_inner(back)),
    }
}

/// Takes a part off the desk. There may be none, or another thread may be at the desk.
pub(crate) fn take<S: Store>(common: &Common<S>, pass: &mut DeskPass<S>) -> Option<Back<S>>
    requires { IsPassAt common.now.desk common.now.hosted pass.old }
    ensures pass { IsPassAt common.now.desk common.now.hosted pass.new }
    ensures of { IfSome result (λ b. b.hosted.value ≡ common.now.hosted) }
{
    match common.desk.try_pop_as::<Goes>(pass) {
        Some(back) => Some(ManuallyDrop::into_inner(back)),
        None => None,
    }
}
