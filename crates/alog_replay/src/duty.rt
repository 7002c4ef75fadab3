use crate::pushed::Pushed;

/// What an actor still does beside the steps of its round.
#[derive(Drop)]
pub enum Duty {
    /// Nothing.
    Free,
    /// It is a worker: what its pop takes goes to the memory file.
    Works,
    /// It took this message with this ticket, and its next step is the turn of the memory file.
    Owes { ticket: u64, pushed: Pushed },
}
