//! What a call answers.
ghost use Rattle.std.specs.Prelude.{◌≡◌};
ghost use Rattle.alog_ffi.specs.Answers.{answer_of_log, answer_of_pause, answer_of_post, answer_of_refusal, answer_of_why, number_of};

use alog_hosted::{Once, Pause};
use alog_msg::MessageError;
use alog_policy::{Outcome, Why};
use alog_registry::LogReply;

/// What a call answers: what was done, or why nothing was. Its number is what C sees.
#[derive(Clone, Copy, Debug, PartialEq, Eq, Drop)]
pub enum Answer {
    /// It was done. A log or a flush was posted, a worker ended as many items as it was to.
    Done = 0,
    /// The message is below its logger's level.
    Filtered = 1,
    /// The logger's policy is to block, and there was no room, or another push was faster. Nothing was done or counted.
    WouldBlock = 2,
    /// Discarded and counted: the queue was full.
    Full = 3,
    /// Discarded and counted: the queue was full, and nothing could be taken out of it.
    Stalled = 4,
    /// Discarded and counted: others were faster, in each of 64 rounds.
    Busy = 5,
    /// Discarded and counted: no ticket is left.
    Spent = 6,
    /// The worker found nothing there and nothing on its way, and has flushed what it wrote, unless a sink answered that by a fault. Of a take: there is
    /// nothing now.
    Idle = 7,
    /// The worker found an item on its way, or another pop was faster.
    Soon = 8,
    /// The worker found the lock of a sink held, or a dump another thread at the backtrace.
    Held = 9,
    /// All was taken that a pool, which has ended, told its files.
    Ended = 10,
    /// Refused: the handle holds nothing.
    NoHandle = 16,
    /// Refused: the handle holds something else than it is to.
    WrongHandle = 17,
    /// Refused: the handle that is to be filled holds something.
    InUse = 18,
    /// Refused: out of memory.
    NoMemory = 19,
    /// Refused: a text, a name, or the file or the function of a source is not UTF-8.
    NotUtf8 = 20,
    /// Refused: there is no such logger.
    NoLogger = 21,
    /// Refused: there is no such level, which is a number up to 6.
    NoLevel = 22,
    /// Refused: the text is longer than the configuration's limit.
    TextTooLong = 23,
    /// Refused: the file of the source is longer than 256 bytes, or its function than 128.
    SourceTooLong = 24,
    /// Refused: the pool made as many producers as its open was told, at most 4,096, or as many workers as its configuration says.
    TooMany = 25,
    /// Refused: not all producers and workers have come back, one is coming back at this moment, or there is no memory to take them back.
    PartsOut = 26,
    /// Refused: the document is no configuration.
    BadConfig = 27,
    /// Refused: the size of a sink's file could not be told.
    NoStore = 28,
    /// Refused: the memory has no room for a whole area, or for all names.
    TooShort = 29,
    /// Refused: another thread gives something back at this moment.
    BusyPart = 30,
}

impl Answer {
    /// The number that C sees.
    pub fn number(self) -> u32
        ensures { result ≡ number_of self }
    {
        self as u32
    }

    /// What became of a log.
    pub fn of_log(once: &Once) -> Answer
        ensures { result ≡ answer_of_log once.now }
    {
        match once {
            Once::Logged(LogReply::Filtered { .. }) => Answer::Filtered,
            Once::Logged(LogReply::Logged { outcome, .. }) => Answer::of_post(outcome),
            Once::WouldBlock => Answer::WouldBlock,
        }
    }

    /// How a post ended.
    pub fn of_post(outcome: &Outcome<()>) -> Answer
        ensures { result ≡ answer_of_post outcome.now }
    {
        match outcome {
            Outcome::Posted { .. } => Answer::Done,
            Outcome::Discarded { why, .. } => Answer::of_why(*why),
        }
    }

    /// Why a message was discarded.
    pub fn of_why(why: Why) -> Answer
        ensures { result ≡ answer_of_why why }
    {
        match why {
            Why::Full => Answer::Full,
            Why::Stalled => Answer::Stalled,
            Why::Busy => Answer::Busy,
            Why::Spent => Answer::Spent,
        }
    }

    /// Why a message was refused.
    pub fn of_refusal(error: MessageError) -> Answer
        ensures { result ≡ answer_of_refusal error }
    {
        match error {
            MessageError::TextTooLong => Answer::TextTooLong,
            MessageError::FieldTooLong => Answer::SourceTooLong,
            MessageError::OutOfMemory => Answer::NoMemory,
        }
    }

    /// Why a worker stopped.
    pub fn of_pause(pause: Pause) -> Answer
        ensures { result ≡ answer_of_pause pause }
    {
        match pause {
            Pause::Done => Answer::Done,
            Pause::Idle => Answer::Idle,
            Pause::Soon => Answer::Soon,
            Pause::Held => Answer::Held,
        }
    }
}
