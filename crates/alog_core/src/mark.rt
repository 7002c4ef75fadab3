/// How far the cell of a ticket has come. The tests `claimed_cell_in_front` and `emptying_cell_keeps_its_place` show it.
#[derive(Clone, Copy, Debug, PartialEq, Eq)]
pub enum Mark {
    /// A push has the ticket and has not written its item yet.
    Claimed,
    /// The item is there, and a pop may have it.
    Written,
    /// A pop has the item and has not given the place back yet.
    Emptying,
}
