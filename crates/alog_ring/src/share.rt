//! Passes for more threads: split, joined, and shown to each other.
ghost use Rattle.std.specs.Prelude.{◌≡◌, ℕ, ◌<◌, ◌≤◌, ◌↔◌, [], IsTrue};
ghost use Rattle.alog_ring.specs.Known.{IsPassOf};
ghost use Rattle.alog_ring.specs.Made.{IsFaithful, Made};
ghost use Rattle.alog_ring.specs.Share.{IsWhole, apart_from, Splits, Joins, Meets};
ghost use Rattle.alog_ring.specs.Sight.{Idle};
ghost use Rattle.alog_ring.specs.Seats.{kept_part, lent_note, taking_in, reading_note, saw_both, saw_all};

use crate::ALL_PARTS;
use crate::board::Board;
use crate::kind::Kind;
use crate::limit::Limit;
use crate::pass::Pass;
use crate::plays::{Amount, Cut, Lend, Names, ReadNote, SeeAll, SeeBoth, TakeIn};
use crate::ring::Ring;
use crate::view::View;
use crate::words::NEXT;
use atomic_table::Seat;
use std::marker::Brand;

impl<S, T, N, K: Kind<S, T, N>, L: Limit<S>> Board<S, T, N, K, L> {
    /// Gives `parts` parts of the seat away, to a new pass.
    fn cut<A: Amount>(&self, seat: &mut Seat<S, View<T, N>>, parts: u64) -> Pass<T, S, N>
        requires amount { parts ≡ A.parts }
        requires table { seat.old.table_id ≡ self.now.table.shared.table_id }
        requires stage { seat.old.me.0.stage ≡ Idle }
        requires some { 0 < parts }
        requires fewer { parts < seat.old.me.0.known.parts }
        requires most { parts ≤ ALL_PARTS }
        ensures table { (seat.new.table_id ≡ seat.old.table_id) × (result.table ≡ seat.old.table_id) }
        ensures kept { seat.new.me ≡ (kept_part parts seat.old.me.0, seat.old.me.1) }
        ensures given { (a : ℕ) × (result.known ≡ apart_from seat.old.me.0.known a parts) }
        ensures faithful { IsFaithful result.known }
    {
        let mut given = self.table.shared.split_seat::<Cut<A>>(seat);
        self.table.shared.load::<Names>(&mut given, NEXT);
        Pass { seat: given, parts }
    }

    /// Takes the other's parts and members in.
    fn take_in(&self, seat: &mut Seat<S, View<T, N>>, other: Seat<S, View<T, N>>)
        requires table { (seat.old.table_id ≡ self.now.table.shared.table_id) × (other.table_id ≡ self.now.table.shared.table_id) }
        requires stage { (seat.old.me.0.stage ≡ Idle) × (other.me.0.stage ≡ Idle) }
        requires some { (0 < seat.old.me.0.known.parts) × (0 < other.me.0.known.parts) }
        requires home { (seat.old.me.1 ≡ []) × (other.me.1 ≡ []) }
        ensures table { seat.new.table_id ≡ seat.old.table_id }
        ensures both { saw_both other.me.0.known.seen (taking_in seat.old.me.0 other.me.0, seat.old.me.1) seat.new.me }
    {
        self.table.shared.join_seat::<TakeIn>(seat, other);
        self.table.shared.load::<SeeBoth>(seat, NEXT);
    }

    /// Shows what one seat has seen to another, by a note without parts.
    fn show(&self, from: &mut Seat<S, View<T, N>>, to: &mut Seat<S, View<T, N>>)
        requires table { (from.old.table_id ≡ self.now.table.shared.table_id) × (to.old.table_id ≡ self.now.table.shared.table_id) }
        requires stage { (from.old.me.0.stage ≡ Idle) × (to.old.me.0.stage ≡ Idle) }
        requires some { (0 < from.old.me.0.known.parts) × (0 < to.old.me.0.known.parts) }
        requires home { to.old.me.1 ≡ [] }
        ensures table { (from.new.table_id ≡ from.old.table_id) × (to.new.table_id ≡ to.old.table_id) }
        ensures from { from.new.me ≡ (kept_part 0 from.old.me.0, from.old.me.1) }
        ensures to { saw_both from.old.me.0.known.seen (reading_note to.old.me.0 (lent_note from.old.me.0), to.old.me.1) to.new.me }
    {
        let note = self.table.shared.split_seat::<Lend>(from);
        self.table.shared.join_seat::<ReadNote>(to, note);
        self.table.shared.load::<SeeBoth>(to, NEXT);
    }

    /// Sees the whole history.
    fn look(&self, seat: &mut Seat<S, View<T, N>>)
        requires table { seat.old.table_id ≡ self.now.table.shared.table_id }
        requires stage { seat.old.me.0.stage ≡ Idle }
        requires some { 0 < seat.old.me.0.known.parts }
        requires home { seat.old.me.1 ≡ [] }
        ensures table { seat.new.table_id ≡ seat.old.table_id }
        ensures all { saw_all seat.old.me seat.new.me }
    {
        self.table.shared.load::<SeeAll>(seat, NEXT);
    }

    /// Splits a pass: the new one gets `parts` of its parts.
    pub(crate) fn split(&self, pass: &mut Pass<T, S, N>, parts: u64) -> Pass<T, S, N>
        requires table { pass.old.table ≡ self.now.table.shared.table_id }
        requires some { 0 < parts }
        requires fewer { parts < pass.old.known.parts }
        ensures split { Splits pass.old pass.new result parts }
    {
        let given = self.cut::<Brand>(&mut pass.seat, parts);
        pass.parts -= parts;
        given
    }

    /// Joins the other pass into the first.
    pub(crate) fn join(&self, pass: &mut Pass<T, S, N>, other: Pass<T, S, N>)
        requires table { (pass.old.table ≡ self.now.table.shared.table_id) × (other.table ≡ self.now.table.shared.table_id) }
        ensures table { pass.new.table ≡ pass.old.table }
        ensures joined { Joins pass.old.known other.known pass.new.known }
    {
        let Pass { seat, parts } = other;
        self.take_in(&mut pass.seat, seat);
        pass.parts += parts;
    }

    /// Tells the second pass what the first has seen.
    pub(crate) fn meet(&self, first: &mut Pass<T, S, N>, second: &mut Pass<T, S, N>)
        requires table { (first.old.table ≡ self.now.table.shared.table_id) × (second.old.table ≡ self.now.table.shared.table_id) }
        ensures first { first.new ≡ first.old }
        ensures table { second.new.table ≡ second.old.table }
        ensures met { Meets second.old.known first.old.known second.new.known }
    {
        self.show(&mut first.seat, &mut second.seat);
    }

    /// Looks at everything, and asks whether the pass has all parts.
    pub(crate) fn is_whole(&self, pass: &mut Pass<T, S, N>) -> bool
        requires { pass.old.table ≡ self.now.table.shared.table_id }
        ensures table { pass.new.table ≡ pass.old.table }
        ensures looks { Made pass.old.known pass.new.known [] }
        ensures most { pass.old.known.parts ≤ ALL_PARTS }
        ensures parts { IsTrue result ↔ (pass.old.known.parts ≡ ALL_PARTS) }
        ensures whole { IsTrue result → IsWhole pass.new.known }
        ensures same { IsTrue result → (pass.new.known ≡ pass.old.known) }
    {
        self.look(&mut pass.seat);
        pass.parts == ALL_PARTS
    }
}

impl<T, L: Limit<T>> Ring<T, L> {
    /// Gives one more thread a pass: it gets `parts` of this one's parts, at least one and not all.
    ///
    /// The new pass has seen what this one has seen, and made nothing. The test `two_threads_share_a_ring` shows it.
    pub fn split(&self, pass: &mut Pass<T>, parts: u64) -> Pass<T>
        requires ring { IsPassOf self.now pass.old }
        requires some { 0 < parts }
        requires fewer { parts < pass.old.known.parts }
        ensures ring { IsPassOf self.now pass.new × IsPassOf self.now result }
        ensures split { Splits pass.old pass.new result parts }
    {
        self.board.split(pass, parts)
    }

    /// Takes back the pass of a thread that has ended: its parts, its own entries, and those of its members.
    ///
    /// The pass has seen the longer of both histories then. The test `a_ring_of_two` shows it.
    pub fn join(&self, pass: &mut Pass<T>, other: Pass<T>)
        requires pass { IsPassOf self.now pass.old }
        requires other { IsPassOf self.now other }
        ensures ring { IsPassOf self.now pass.new }
        ensures joined { Joins pass.old.known other.known pass.new.known }
    {
        self.board.join(pass, other);
    }

    /// Tells the second pass what the first has seen, so that what one saw is a beginning of what the other saw.
    ///
    /// It has seen the longer of both histories then. The test `a_ring_of_two` shows it.
    pub fn meet(&self, first: &mut Pass<T>, second: &mut Pass<T>)
        requires first { IsPassOf self.now first.old }
        requires second { IsPassOf self.now second.old }
        ensures first { first.new ≡ first.old }
        ensures ring { IsPassOf self.now second.new }
        ensures met { Meets second.old.known first.old.known second.new.known }
    {
        self.board.meet(first, second);
    }

    /// Asks whether each other pass was joined into this one, which has all parts then.
    ///
    /// No other is left then, and what this one had seen is the whole history. No pass has more parts than all. The test
    /// `a_ring_of_two` shows it.
    pub fn is_whole(&self, pass: &mut Pass<T>) -> bool
        requires { IsPassOf self.now pass.old }
        ensures ring { IsPassOf self.now pass.new }
        ensures looks { Made pass.old.known pass.new.known [] }
        ensures most { pass.old.known.parts ≤ ALL_PARTS }
        ensures parts { IsTrue result ↔ (pass.old.known.parts ≡ ALL_PARTS) }
        ensures whole { IsTrue result → IsWhole pass.new.known }
        ensures same { IsTrue result → (pass.new.known ≡ pass.old.known) }
    {
        self.board.is_whole(pass)
    }
}
