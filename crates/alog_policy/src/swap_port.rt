//! A port on a swap ring: posts that take no memory, with a loss book.
use crate::book_seat::BookSeat;
use crate::loss_book::LossBook;
use crate::outlet::{Outlet, RoomyOutlet};
use crate::room_wait::Pace;
use alog_ring::{Limit, NoLimit, PopError, PushError, Shows, SwapPass, SwapRing, Whole};
use std::mem;

/// What a thread posts with on a running swap ring: it lends the ring, a pass of it, a loss book and a seat of that, two blocks,
/// and a pace. Contracts ask that the pass belongs to the ring and the seat to the book, that a spare is there, at a post of another
/// value that the hand is empty, and at `post_hand` that a block is in it. The test `a_swap_port_posts` shows it.
///
/// A block that is posted leaves the one that lay in its place in the hand: so who posts has always one to write the next
/// message into. What a post overruns is taken for the spare, and is the next one. Nothing is made or dropped.
#[derive(Drop)]
pub struct SwapPort<'a, B, T = B, W: Shows<B, T> = Whole, L: Limit<B> = NoLimit> {
    /// The ring that posts go to.
    pub ring: &'a SwapRing<B, T, W, L>,
    /// The pass that pushes, and pops what is overrun.
    pub pass: &'a mut SwapPass<B, T>,
    /// The book in which losses are counted.
    pub book: &'a LossBook,
    /// The seat that counts them.
    pub seat: &'a mut BookSeat,
    /// What `post_hand` posts, and what a post leaves: the block that lay in the place of its ticket.
    pub hand: &'a mut Option<B>,
    /// What a pop brings.
    pub spare: &'a mut Option<B>,
    /// How long `post_hand` rests where there is no room.
    pub pace: &'a mut Pace,
}

impl<B: Drop, T, W: Shows<B, T>, L: Limit<B>> Outlet for SwapPort<'_, B, T, W, L> {
    ghost use Rattle.std.specs.Prelude.{◌≡◌, None};
    ghost use Rattle.alog_policy.specs.SwapPort.{IsSwapFit, SwapPortDid};
    ghost use Rattle.alog_policy.specs.SwapTogether.{swap_together, stays_free};
    ghost use Rattle.std.proofs.Common.{subst, sym};

    type Value = B;

    type Item = T;

    ghost shows = { W.shows };

    ghost is_fit = { IsSwapFit L.admits };

    ghost admits = { λ p y. (p.hand.now ≡ None) × L.admits p.ring.now.ring.limit y };

    ghost did = { SwapPortDid L.admits };

    fn push_from(&mut self, hand: &mut Option<B>) -> Result<u64, PushError<()>> {
        let Some(block) = hand.as_mut() else {
            unreachable!()
        };
        match self.ring.push_swap_from(self.pass, block) {
            Ok(ticket) => {
                mem::swap(self.hand, hand);
                Ok(ticket)
            }
            Err(error) => Err(error),
        }
    }

    fn overrun_once(&mut self) -> Result<u64, PopError> {
        let Some(spare) = self.spare.as_mut() else {
            unreachable!()
        };
        match self.ring.pop_swap_into(self.pass, spare) {
            Ok(ticket) => {
                self.book.overran(self.seat);
                Ok(ticket)
            }
            Err(error) => Err(error),
        }
    }

    fn count_discarded(&mut self) {
        self.book.discarded(self.seat);
    }

    ghost together = { swap_together L.admits };

    ghost still = { stays_free L.admits };
}

impl<B: Drop, T, W: Shows<B, T>, L: Limit<B>> RoomyOutlet for SwapPort<'_, B, T, W, L> {
    fn places(&self) -> usize {
        self.ring.places()
    }
}
