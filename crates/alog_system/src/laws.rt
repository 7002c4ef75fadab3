//! What is true of every run of a system.
ghost use Rattle.alog_system.specs.Runs.{SystemRuns};

use alog_sink::Store;

/// Each run of a system, from `System::of` on, whatever its actors begin and in whatever order they step. There is one legal history
/// of the queue, whose posts and pops are those that the deeds asked for, with the items, policies and fields that were given; no item
/// is lost or doubled but the counted losses; each actor's turns beside the queue are those that its deeds and the items that it took
/// ask for; every answer is that of its step; what a logger keeps is what was kept since it was last emptied; and each sink stands for
/// exactly the messages of the turns made on it, in their order, or for those before a fault that was told. `IsSystemRun` says it
/// whole. It does nothing: its contract is the law.
pub fn runs_of_a_system<S: Store>()
    ensures { SystemRuns S.tells S.files S.failures }
{}
