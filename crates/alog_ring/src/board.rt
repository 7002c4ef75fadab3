//! The table of a ring of any kind of place, and the steps of a push and of a pop on it.
ghost use Rattle.std.specs.Prelude.{◌≡◌, ℕ, ◌+◌, ◌%◌, ◌<◌, ◌≤◌, [], ◌∷◌, true, false, length, None, IfOk, IfErr};
ghost use Rattle.std.specs.List.{AllByRecursion};
ghost use Rattle.atomic_table.specs.Table.{rest};
ghost use Rattle.alog_core.specs.Queue.{last, PushBusy, PopBusy};
ghost use Rattle.alog_core.specs.World.{is_size};
ghost use Rattle.alog_core.specs.declared.TheConstants.{PLACES_MAX};
ghost use Rattle.alog_ring.specs.Sight.{first_sight, Idle, SawNext, SawFree, SawFront, SawFull, SawUnwritten};
ghost use Rattle.alog_ring.specs.Plays.{saw_next, saw_free, saw_front, saw_full, saw_end, Ends};
ghost use Rattle.alog_ring.specs.Rule.{word_count};
ghost use Rattle.alog_ring.specs.Board.{AreFirstWords, Masks, Fills, Empties};

use crate::gate::StepGate;
use crate::kind::{Kind, Plain, Shows, Swap};
use crate::limit::{IfThere, Limit};
use crate::plays::{
    Claims, Grabs, Picks, SeeEnd, SeeFree, SeeFront, SeeFull, SeeNext, Takes, Writes,
};
use crate::view::{Law, Shape, View};
use crate::words::{APART, FRONT, NEXT, SEQUENCES};
use atomic_table::{Refused, Seat, Table};
use std::alloc::{AllocError, Global};
use std::mem;
use std::snapshot::Snapshot;

/// The words and places of a ring. What a place waits for its sequence tells: where it is a ticket, the place is free for that
/// ticket; where it is one more, the ticket's item lies in it.
#[derive(Drop)]
pub(crate) struct Board<S, T, N, K: Kind<S, T, N>, L: Limit<S>> {
    /// Two positions, the next ticket and the front one, and for each place its sequence and what lies there.
    pub(crate) table: Table<S, View<T, N>, Shape<S, L>, Law<K>, Global>,
    /// One less than the number of places: the bits of a ticket that tell its place.
    pub(crate) mask: u64,
    ghost sized: { (table.shared.table_id.words ≡ word_count (mask + 1)) × (table.shared.table_id.slots ≡ mask + 1)
        × (table.shared.key.places ≡ mask + 1) × (mask < PLACES_MAX) × Masks mask },
}

/// The table of a `Ring`.
pub(crate) type PlainBoard<T, L> = Board<Option<T>, T, (), Plain, IfThere<L>>;

/// The table of a `SwapRing`.
pub(crate) type SwapBoard<B, T, W, L> = Board<B, T, Option<B>, Swap<W>, L>;

/// Lets an empty hand go.
pub(crate) fn let_go<T>(hand: Option<T>)
    requires { hand ≡ None }
{
    match hand {
        None => {}
        Some(_) => unreachable!(),
    }
}

/// The words of an empty ring.
fn first_words(alloc: Global, places: usize, first: u64) -> Result<Vec<u64>, AllocError>
    requires size { is_size places ≡ true }
    requires first { first < last }
    ensures { IfOk result (λ v. AreFirstWords places first v.items) }
{
    let mut words = Vec::from_elem(alloc, first, places * APART + SEQUENCES)?;
    let filled = words.as_mut_slice();
    let lap = places as u64;
    for ticket in first..first + lap {
        filled[(ticket % lap) as usize * APART + SEQUENCES] = ticket;
    }
    Ok(words)
}

/// The table of an empty `Ring`, and its first seat.
pub(crate) fn vacant_board<T, L: Limit<T>>(
    alloc: Global,
    places: usize,
    first: u64,
    limit: L,
) -> Result<(PlainBoard<T, L>, Seat<Option<T>, View<T, ()>>), AllocError>
where
    L: Drop,
    requires size { is_size places ≡ true }
    requires first { first < last }
    ensures board { IfOk result (λ r. (r.0.mask + 1 ≡ places) × (r.0.table.shared.key.first ≡ first)
        × (r.0.table.shared.key.limit.limit ≡ limit)) }
    ensures seat { IfOk result (λ r. (r.1.table_id ≡ r.0.table.shared.table_id) × (r.1.me ≡ (first_sight places first, []))) }
{
    let words = first_words(alloc, places, first)?;
    let none = Vec::new(alloc);
    let shape = Shape {
        places: places as u64,
        first,
        firsts: Snapshot::of(&none),
        limit: IfThere { limit },
    };
    none.destroy_empty();
    let (table, seat) = Table::vacant(alloc, words.as_slice(), places, &shape)?;
    let mask = places as u64 - 1;
    Ok((Board { table, mask }, seat))
}

/// The table of a `SwapRing`, in whose places the spares lie, and its first seat; or the spares, where memory is refused.
pub(crate) fn laid_board<B, T, W: Shows<B, T>, L: Limit<B>>(
    alloc: Global,
    places: usize,
    first: u64,
    spares: Vec<B>,
    limit: L,
) -> Result<(SwapBoard<B, T, W, L>, Seat<B, View<T, Option<B>>>), Vec<B>>
where
    L: Drop,
    requires size { is_size places ≡ true }
    requires spares { length spares.items ≡ places }
    requires first { first < last }
    requires limit { AllByRecursion (L.admits limit) spares.items }
    ensures back { IfErr result (λ e. e.items ≡ spares.items) }
    ensures board { IfOk result (λ r. (r.0.mask + 1 ≡ places) × (r.0.table.shared.key.first ≡ first)
        × (r.0.table.shared.key.limit ≡ limit) × (r.0.table.shared.key.firsts.value.items ≡ spares.items)) }
    ensures seat { IfOk result (λ r. (r.1.table_id ≡ r.0.table.shared.table_id) × (r.1.me ≡ (first_sight places first, []))) }
{
    let Ok(words) = first_words(alloc, places, first) else {
        return Err(spares);
    };
    let shape = Shape {
        places: places as u64,
        first,
        firsts: Snapshot::of(&spares),
        limit,
    };
    match Table::new(alloc, words.as_slice(), spares, &shape) {
        Ok((table, seat)) => {
            let mask = places as u64 - 1;
            Ok((Board { table, mask }, seat))
        }
        Err(Refused { slots }) => Err(slots),
    }
}

impl<S, T, N, K: Kind<S, T, N>, L: Limit<S>> Board<S, T, N, K, L> {
    /// How many places there are.
    pub(crate) fn places(&self) -> usize
        ensures { result ≡ self.now.mask + 1 }
    {
        self.mask as usize + 1
    }

    /// The place of a ticket: the ticket modulo the number of places.
    fn place_of(&self, ticket: u64) -> usize
        ensures place { result ≡ ticket % (self.now.mask + 1) }
        ensures within { result < self.now.mask + 1 }
    {
        (ticket & self.mask) as usize
    }

    pub(crate) fn see_next(&self, seat: &mut Seat<S, View<T, N>>) -> u64
        requires table { seat.old.table_id ≡ self.now.table.shared.table_id }
        requires stage { seat.old.me.0.stage ≡ Idle }
        requires home { seat.old.me.1 ≡ [] }
        ensures table { seat.new.table_id ≡ seat.old.table_id }
        ensures next { saw_next K.kind.blank seat.old.me result seat.new.me }
    {
        self.table.shared.load::<SeeNext<K>>(seat, NEXT)
    }

    pub(crate) fn see_free(&self, seat: &mut Seat<S, View<T, N>>, ticket: u64) -> u64
        requires table { seat.old.table_id ≡ self.now.table.shared.table_id }
        requires stage { seat.old.me.0.stage ≡ SawNext ticket }
        requires home { seat.old.me.1 ≡ [] }
        ensures table { seat.new.table_id ≡ seat.old.table_id }
        ensures sequence { saw_free K.kind.blank ticket seat.old.me result seat.new.me }
    {
        let word = self.place_of(ticket) * APART + SEQUENCES;
        self.table.shared.load::<SeeFree<K>>(seat, word)
    }

    /// Swaps what lies in the hand with what lies in the place that the seat took last.
    fn swap(&self, seat: &mut Seat<S, View<T, N>>, place: usize, hand: &mut S)
        requires table { seat.old.table_id ≡ self.now.table.shared.table_id }
        requires out { (old : S) × (seat.old.me.1 ≡ (place, old) ∷ rest seat.old.me.1) }
        ensures same { (seat.new.table_id ≡ seat.old.table_id) × (seat.new.id ≡ seat.old.id) }
        ensures before { seat.old.me.1 ≡ (place, hand.new) ∷ rest seat.old.me.1 }
        ensures after { seat.new.me ≡ (seat.old.me.0, (place, hand.old) ∷ rest seat.old.me.1) }
    {
        mem::swap(seat.slot_mut(&self.table.shared, place), hand);
    }

    /// Claims the ticket, swaps what lies in the hand with what lies in its place, and writes the ticket. Or answers no, and
    /// leaves the hand as it is, where another has claimed the ticket.
    pub(crate) fn claim_and_swap<P: Picks<S>, G: StepGate>(
        &self,
        seat: &mut Seat<S, View<T, N>>,
        ticket: u64,
        hand: &mut S,
        gate: &G,
    ) -> bool
        requires firsts { P.firsts ≡ self.now.table.shared.key.firsts.value.items }
        requires limit { (y : S) → L.admits self.now.table.shared.key.limit y → P.admits y }
        requires table { seat.old.table_id ≡ self.now.table.shared.table_id }
        requires stage { seat.old.me.0.stage ≡ SawFree ticket }
        requires home { seat.old.me.1 ≡ [] }
        requires below { ticket < last }
        requires places { 1 ≤ seat.old.me.0.known.places }
        requires there { (x : T) × K.kind.has hand.old x }
        requires admitted { L.admits self.now.table.shared.key.limit hand.old }
        ensures table { seat.new.table_id ≡ seat.old.table_id }
        ensures filled { result ≡ true → Fills K.kind P.firsts seat.old.me seat.new.me ticket hand.old hand.new × P.admits hand.new }
        ensures beaten { result ≡ false → Ends K.kind.blank seat.old.me seat.new.me (PushBusy ticket) × (hand.new ≡ hand.old) }
    {
        let words = &self.table.shared;
        let place = self.place_of(ticket);
        gate.before(3);
        let next = ticket + 1;
        let found = words.compare_exchange_with::<Claims<K, P>>(seat, NEXT, ticket, next, hand);
        if found != ticket {
            return false;
        }
        // The place is free, and no other thread's: what was brought goes in, and what lay there comes out.
        self.swap(seat, place, hand);
        gate.before(4);
        // This publishes the item. Until here nobody else touches the place: only the thread whose exchange moved the position
        // past the ticket may write there, and a pop waits for this very number. All steps are sequentially consistent, so
        // who reads the number finds the item in the place.
        words.store::<Writes<K>>(seat, place * APART + SEQUENCES, ticket + 1);
        true
    }

    pub(crate) fn see_front(&self, seat: &mut Seat<S, View<T, N>>) -> u64
        requires table { seat.old.table_id ≡ self.now.table.shared.table_id }
        requires stage { seat.old.me.0.stage ≡ Idle }
        requires home { seat.old.me.1 ≡ [] }
        ensures table { seat.new.table_id ≡ seat.old.table_id }
        ensures front { saw_front seat.old.me result seat.new.me }
    {
        self.table.shared.load::<SeeFront>(seat, FRONT)
    }

    pub(crate) fn see_full(&self, seat: &mut Seat<S, View<T, N>>, ticket: u64) -> u64
        requires table { seat.old.table_id ≡ self.now.table.shared.table_id }
        requires stage { seat.old.me.0.stage ≡ SawFront ticket }
        requires home { seat.old.me.1 ≡ [] }
        ensures table { seat.new.table_id ≡ seat.old.table_id }
        ensures sequence { saw_full K.kind.blank ticket seat.old.me result seat.new.me }
    {
        let word = self.place_of(ticket) * APART + SEQUENCES;
        self.table.shared.load::<SeeFull<K>>(seat, word)
    }

    /// Reads the next ticket, for a pop that found the front one unwritten: where the two are one, no ticket is claimed
    /// that is not grabbed.
    pub(crate) fn see_end(&self, seat: &mut Seat<S, View<T, N>>, ticket: u64) -> u64
        requires table { seat.old.table_id ≡ self.now.table.shared.table_id }
        requires stage { seat.old.me.0.stage ≡ SawUnwritten ticket }
        requires home { seat.old.me.1 ≡ [] }
        ensures table { seat.new.table_id ≡ seat.old.table_id }
        ensures end { saw_end K.kind.blank ticket seat.old.me result seat.new.me }
    {
        self.table.shared.load::<SeeEnd<K>>(seat, NEXT)
    }

    /// Grabs the ticket, swaps what lies in the hand with what lies in its place, and gives the place back for the ticket a
    /// lap later. Or answers no, and leaves the hand as it is, where another has grabbed the ticket.
    pub(crate) fn grab_and_swap<P: Picks<S>, G: StepGate>(
        &self,
        seat: &mut Seat<S, View<T, N>>,
        ticket: u64,
        hand: &mut S,
        gate: &G,
    ) -> bool
        requires limit { (y : S) → L.admits self.now.table.shared.key.limit y → P.admits y }
        requires table { seat.old.table_id ≡ self.now.table.shared.table_id }
        requires stage { seat.old.me.0.stage ≡ SawFull ticket }
        requires home { seat.old.me.1 ≡ [] }
        requires below { ticket ≤ last }
        requires brought { (note : N) × K.kind.brings note hand.old }
        requires admitted { L.admits self.now.table.shared.key.limit hand.old }
        ensures table { seat.new.table_id ≡ seat.old.table_id }
        ensures emptied { result ≡ true → Empties K.kind seat.old.me seat.new.me ticket hand.old hand.new × P.admits hand.new }
        ensures beaten { result ≡ false → Ends K.kind.blank seat.old.me seat.new.me (PopBusy ticket) × (hand.new ≡ hand.old) }
    {
        let words = &self.table.shared;
        let place = self.place_of(ticket);
        gate.before(3);
        let front = ticket + 1;
        let found = words.compare_exchange_with::<Grabs<K, P>>(seat, FRONT, ticket, front, hand);
        if found != ticket {
            return false;
        }
        // The ticket's item comes out, and what was brought lies there from now on.
        self.swap(seat, place, hand);
        gate.before(4);
        // This gives the place back for the ticket a lap later. Until here a push of that ticket finds a lower number, and
        // answers full.
        words.store::<Takes<K>>(seat, place * APART + SEQUENCES, ticket + (self.mask + 1));
        true
    }
}
