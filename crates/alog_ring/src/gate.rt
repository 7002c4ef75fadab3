//! What is called before each step of a push and of a pop, so that a test can hold a thread between two of them.

/// Called before each atomic step of `push_gated` and of `pop_gated`, by the thread that makes the step, with the step's number.
///
/// The steps of a push are 1, it loads the next ticket; 2, it loads the sequence of its place; 3, it exchanges the next ticket;
/// 4, it stores the sequence, by which its value, which lies in the place by then, can be taken. Those of a pop are 1, it loads the
/// front ticket; 2, the sequence of its place; 3, it exchanges the front ticket; 4, it stores the sequence, by which the place,
/// out of which it took the value, is free; and, where the front ticket is not written, 5 in place of 3 and 4: it loads the next
/// ticket. A round that another thread was faster in begins again at 1. The test `a_held_push` of `test_queue` shows it.
pub trait StepGate {
    /// Called before this step, 1 to 5. It may look and yield, and it has to return.
    fn before(&self, step: u32);
}

/// The gate of calls that no one holds.
pub(crate) struct OpenSteps;

impl StepGate for OpenSteps {
    fn before(&self, _step: u32) {}
}
