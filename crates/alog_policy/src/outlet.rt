//! Where a post goes.
use alog_ring::{PopError, PushError};

/// Where posts go: an actor's own access to a queue, with a count of what is lost. What a post carries is the outlet's
/// own matter, as is how it is posted; `post_now` is written once, for any outlet. `DeskOutlet`, `Port` and `SwapPort` are
/// three.
///
/// `did` is what the outlet tells of itself: between two states, its actor made exactly these events in the history of
/// its queue, in this order, and exactly so many overrun items and so many discarded posts were counted. `shows` is what
/// a cell of the queue shows of a value. `is_fit` is what a push or a pop asks of the outlet, and `admits` what a push asks of
/// its value.
pub trait Outlet {
    ghost use Rattle.std.specs.Prelude.{◌≡◌, ◌+◌, ℕ, List, [], ◌∷◌, ◌++◌, None, IsSome, IfSome, IfOk, IfErr, OnOk};
    ghost use Rattle.alog_core.specs.Queue.{Event, Claim, Write};
    ghost use Rattle.alog_policy.specs.Outlet.{PushRefused, Overran, PopRefused};
    ghost use Rattle.alog_policy.specs.Post.{writes_in};

    /// What a post brings.
    type Value;

    /// What a cell of the queue shows of it.
    type Item;

    ghost shows: { Self.Value → Self.Item };

    ghost is_fit: { Self → Type 0 };

    ghost admits: { Self → Self.Value → Type 0 };

    ghost did: { Self → List (Event Self.Item) → ℕ → ℕ → Self → Type 0 };

    /// Makes one round of a push: puts the value that lies in the hand into the queue if that goes at once, and answers its
    /// ticket. A refusal is one event, and leaves the value in the hand. It never waits and takes no memory.
    fn push_from(&mut self, hand: &mut Option<Self::Value>) -> Result<u64, PushError<()>>
        requires fit { is_fit self.old }
        requires there { IsSome hand.old }
        requires admitted { IfSome hand.old (admits self.old) }
        ensures pushed { IfOk result (λ t. IfSome hand.old (λ v. did self.old (Claim t (shows v) ∷ Write t ∷ []) 0 0 self.new)) }
        ensures emptied { IfOk result (λ t. hand.new ≡ None) }
        ensures refused { IfErr result (λ e. PushRefused did is_fit self.old (tt {0}) e self.new) }
        ensures left { IfErr result (λ e. hand.new ≡ hand.old) }
        ensures fit { OnOk result (is_fit self.new) };

    /// Makes one round of a pop: takes the oldest item out if that goes at once, counts it as overrun, and answers its ticket. A
    /// `Port` drops the item; a `SwapPort` keeps the block that it lay in, to be written anew. A refusal is one event where
    /// another pop was faster, and else two: the front was not written, and then it was claimed, or no ticket was there. Nothing
    /// is counted then. It never waits and takes no memory.
    fn overrun_once(&mut self) -> Result<u64, PopError>
        requires { is_fit self.old }
        ensures overran { IfOk result (λ t. Overran did is_fit self.old t self.new) }
        ensures refused { IfErr result (λ e. PopRefused did is_fit self.old e self.new) };

    /// Counts one discarded post.
    fn count_discarded(&mut self)
        requires { is_fit self.old }
        ensures counted { did self.old [] 0 1 self.new }
        ensures fit { is_fit self.new };

    // What was done first and what was done then are one.
    ghost together: { (a b c : Self) (es fs : List (Event Self.Item)) (k l m n : ℕ) → did a es k l b → did b fs m n c
        → did a (es ++ fs) (k + m) (l + n) c };

    // What is admitted stays so until something is written.
    ghost still: { (a b : Self) (v : Self.Value) (es : List (Event Self.Item)) (k l : ℕ) → writes_in es ≡ 0 → did a es k l b
        → admits a v → admits b v };
}

/// An outlet whose queue has places, by whose number a post waits for room: `post_wait` is written once, for any of them.
/// `Port` and `SwapPort` are two.
pub trait RoomyOutlet: Outlet {
    /// How many places the queue has.
    fn places(&self) -> usize;
}
