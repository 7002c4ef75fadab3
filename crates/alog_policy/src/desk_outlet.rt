//! An actor of a desk as an outlet.
ghost use Rattle.std.specs.Prelude.{◌≡◌, ◌<◌, ◌≤◌, ◌↔◌, IfOk, IsOk, IsErrOf};
ghost use Rattle.std.specs.Borrow.{sem};
ghost use Rattle.alog_policy.specs.DeskOutlet.{IsFree};
ghost use Rattle.alog_policy.specs.Lending.{LendsDesk};

use crate::desk::Desk;
use crate::outlet::Outlet;
use alog_core::{ACTORS, BeginError};
use alog_ring::{PopError, PushError};

/// An actor of a desk, through which posts are made at once. It lends the desk until it is dropped, so nobody else steps
/// in a post.
#[derive(Drop)]
pub struct DeskOutlet<'a, T> {
    /// The desk.
    pub desk: &'a mut Desk<T>,
    /// The actor, who is in no call.
    pub actor: u32,
}

impl<T: Drop> Outlet for DeskOutlet<'_, T> {
    ghost use Rattle.std.specs.Prelude.{◌≡◌};
    ghost use Rattle.alog_policy.specs.DeskOutlet.{IsFree, DeskDid};
    ghost use Rattle.alog_policy.specs.Together.{did_together};
    ghost use Rattle.std.proofs.Common.{subst, ◌∙◌};

    type Value = T;

    type Item = T;

    ghost shows = { λ x. x };

    ghost is_fit = { λ o. IsFree o.desk.now o.actor };

    ghost admits = { λ o v. Unit {0} };

    ghost did = { λ o es k l p. (p.actor ≡ o.actor) × (p.desk.ghost_name ≡ o.desk.ghost_name)
        × DeskDid o.actor o.desk.now es k l p.desk.now };

    fn push_from(&mut self, hand: &mut Option<T>) -> Result<u64, PushError<()>> {
        let Some(value) = hand.take() else {
            unreachable!()
        };
        match self.desk.push_now(self.actor, value) {
            Ok(ticket) => Ok(ticket),
            Err(PushError::Full { value, next }) => {
                *hand = Some(value);
                Err(PushError::Full { value: (), next })
            }
            Err(PushError::Busy { value, seen }) => {
                *hand = Some(value);
                Err(PushError::Busy { value: (), seen })
            }
            Err(PushError::Spent { value }) => {
                *hand = Some(value);
                Err(PushError::Spent { value: () })
            }
        }
    }

    fn overrun_once(&mut self) -> Result<u64, PopError> {
        self.desk.overrun_now(self.actor)
    }

    fn count_discarded(&mut self) {
        self.desk.count_discarded();
    }

    ghost together = { λ a b c es fs k l m n first then. (
      then.0 ∙ first.0,
      then.1 ∙ first.1,
      did_together a.actor a.desk.now b.desk.now c.desk.now es fs k l m n first.2
          (subst (λ x. DeskDid x b.desk.now fs m n c.desk.now) first.0 then.2),
    ) };

    ghost still = { λ a b v es k l none done is. tt };
}

impl<T: Drop> Desk<T> {
    /// Lends the desk to an actor, 0 to 63, that is in no call, for posts that are made at once. A refusal changes nothing.
    /// The tests `posts_at_once` and `a_caller_knows_the_desk` show it.
    pub fn outlet(&mut self, actor: u32) -> Result<DeskOutlet<'_, T>, BeginError>
        ensures* lends { sem 𝓛 (LendsDesk T.row self.entry result) }
        ensures desk { IfOk result (λ o. (o.desk.now ≡ self.old) × (o.actor ≡ actor)
            × (o.desk.ghost_name ≡ self.entry.ghost_name)) }
        ensures free { IsOk result ↔ IsFree self.old actor }
        ensures no_actor { IsErrOf result BeginError.NoActor ↔ (ACTORS ≤ actor) }
    {
        self.may_begin(actor)?;
        Ok(DeskOutlet { desk: self, actor })
    }
}
