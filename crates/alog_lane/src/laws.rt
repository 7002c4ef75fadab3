//! What is true of every seat, in words that a reader outside can use.
ghost use Rattle.alog_lane.specs.Laws.{AloneSawItsOwn};

/// A seat that has seen everything, and into which none was joined, has seen exactly its own entries.
pub fn alone_saw_its_own<D>()
    ensures { AloneSawItsOwn D }
{}
