//! What the owner of a lock does to the value behind it.

/// A value that takes turns: each is given an item, may use a scratch, and answers.
///
/// `turns` is the relation that each turn meets, over value and scratch before, item, reply, value and scratch after.
/// `may_turn` is what a turn asks of the value, the item and the scratch. No turn changes what it asks of the value, so
/// whoever makes a lane knows it once, of the first value. `Sum` of the test `a_lane_over_a_sum` is one.
pub trait Turn {
    type Item;

    type Reply;

    type Scratch;

    ghost turns: { Self → Self.Scratch → Self.Item → Self.Reply → Self → Self.Scratch → Type 0 };

    ghost may_turn: { Self → Self.Item → Self.Scratch → Type 0 };

    /// Takes one turn.
    fn turn(&mut self, item: &Self::Item, scratch: &mut Self::Scratch) -> Self::Reply
        requires { may_turn self.old item.now scratch.old }
        ensures turned { turns self.old scratch.old item.now result self.new scratch.new }
        ensures keeps { (i : Self.Item) (s : Self.Scratch) → may_turn self.old i s → may_turn self.new i s };
}
