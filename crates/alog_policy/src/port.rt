//! A port: posts on a running ring, with a loss book.
use crate::book_seat::BookSeat;
use crate::loss_book::LossBook;
use crate::outlet::{Outlet, RoomyOutlet};
use alog_ring::{Limit, NoLimit, Pass, PopError, PushError, Ring};

/// What a thread posts with on a running ring: it lends the ring, a pass of it, a loss book and a seat of that. Contracts
/// ask that the pass belongs to the ring and the seat to the book. The test `a_lone_port_posts` shows it.
#[derive(Drop)]
pub struct Port<'a, T, L: Limit<T> = NoLimit> {
    /// The ring that posts go to.
    pub ring: &'a Ring<T, L>,
    /// The pass that pushes, and pops what is overrun.
    pub pass: &'a mut Pass<T>,
    /// The book in which losses are counted.
    pub book: &'a LossBook,
    /// The seat that counts them.
    pub seat: &'a mut BookSeat,
}

impl<T: Drop, L: Limit<T>> Outlet for Port<'_, T, L> {
    ghost use Rattle.alog_policy.specs.Port.{IsFit, PortDid};
    ghost use Rattle.alog_policy.specs.PortTogether.{port_together};
    ghost use Rattle.alog_ring.specs.Known.{RingId};
    ghost use Rattle.std.proofs.Common.{subst, sym, ap};

    type Value = T;

    type Item = T;

    ghost shows = { λ x. x };

    ghost is_fit = { IsFit };

    ghost admits = { λ p x. L.admits p.ring.now.limit x };

    ghost did = { PortDid };

    fn push_from(&mut self, hand: &mut Option<T>) -> Result<u64, PushError<()>> {
        self.ring.push_from(self.pass, hand)
    }

    fn overrun_once(&mut self) -> Result<u64, PopError> {
        let (ticket, _) = match self.ring.pop_once(self.pass) {
            Ok(popped) => popped,
            Err(error) => return Err(error),
        };
        self.book.overran(self.seat);
        Ok(ticket)
    }

    fn count_discarded(&mut self) {
        self.book.discarded(self.seat);
    }

    ghost together = { port_together };

    ghost still = { λ a b x es k l none done is. subst (λ r. L.admits r.now.limit x) (sym done.ring) is };
}

impl<T: Drop, L: Limit<T>> RoomyOutlet for Port<'_, T, L> {
    fn places(&self) -> usize {
        self.ring.places()
    }
}
