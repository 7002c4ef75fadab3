//! What is true of every run of a desk.
ghost use Rattle.alog_policy.specs.Runs.{RunsAreCut};

/// Each run of a desk of values `T`, from `Desk::new` on: its entries are a legal history, which leads to its machine;
/// each actor's own events are whole pushes, pops and posts by the definition, one for each call that it began, with the item,
/// and under the policy, of that call, and with the outcomes that its steps answered, and the beginning of the one that it is in;
/// and the counts are the losses. It does nothing: its contract is the law. The test `a_caller_knows_a_run` uses it.
pub fn runs_are_cut<T>()
    ensures { RunsAreCut T }
{}
