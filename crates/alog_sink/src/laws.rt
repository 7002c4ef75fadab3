//! What is true of the definitions.
ghost use Rattle.alog_sink.specs.DailyDeeds.{DaysGoOn};
ghost use Rattle.alog_sink.specs.LaneRuns.{LaneFansTexts, LaneWritesTexts};
ghost use Rattle.alog_sink.specs.Names.{DatedNamesDiffer, NumberedNamesDiffer};
ghost use Rattle.alog_sink.specs.Rotation.{PiecesHaveOneCut};

use crate::store::Store;

/// The names that a file has by different numbers differ; number 0 is the file itself. It does nothing: its contract is the law.
pub fn numbered_names_differ()
    ensures { NumberedNamesDiffer }
{}

/// The names that a file has by different dates differ, for years below 10,000. It does nothing: its contract is the law.
pub fn dated_names_differ()
    ensures { DatedNamesDiffer }
{}

/// The pieces of a file that is rotated are cut into runs in exactly one way. It does nothing: its contract is the law.
pub fn pieces_have_one_cut()
    ensures { PiecesHaveOneCut }
{}

/// The deeds of an entry lead from the files by days of some entries to those of one entry more, where a name that was opened
/// before comes again only directly. It does nothing: its contract is the law.
pub fn days_go_on()
    ensures { DaysGoOn }
{}

/// A lane of a sink, closed, has a sink that stands for the texts of its turns, in the order of the lock, where no turn met a
/// fault: for what the sink stood for at first, and then these; of a fan so each member. It does nothing: its contract is the law.
pub fn lanes_write_their_texts<S: Store>()
    ensures leaf { LaneWritesTexts S.tells S.files S.failures }
    ensures fan { LaneFansTexts S.tells S.files S.failures }
{}
