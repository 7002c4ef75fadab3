//! A backtrace under a lock: what a turn at it does.
ghost use Rattle.std.specs.Prelude.{◌≡◌, ◌<◌, ◌^◌, Some, None, IsSome, IfSome};
ghost use Rattle.alog_registry.specs.Turn.{Turns, MayTurn, scratch_of};

use crate::backtrace::Backtrace;
use crate::dumped::Dumped;
use alog_lane::Turn;
use alog_msg::Message;

/// What a turn at a backtrace is to do. The test `turns_of_a_backtrace` shows both.
#[derive(Clone, Copy, Debug, PartialEq, Eq, Drop)]
pub enum BacktraceItem {
    /// It keeps the message of the scratch.
    Keep,
    /// It gives what was kept, in the list of the scratch, and keeps nothing then.
    Dump,
}

/// What a turn at a backtrace did. The test `turns_of_a_backtrace` shows both.
#[derive(Drop)]
pub enum BacktraceReply {
    /// The message was kept.
    Kept,
    /// What was kept, oldest first.
    Dumped(Dumped),
}

/// What a turn at a backtrace uses. The test `turns_of_a_backtrace` shows it.
#[derive(Drop)]
pub struct BacktraceScratch {
    /// The message that a keep takes.
    pub message: Option<Message>,
    /// The empty list, of the backtrace's room, that a dump fills and replies with.
    pub list: Option<Dumped>,
}

impl BacktraceScratch {
    /// Brings the message of the next keep.
    pub(crate) fn bring(&mut self, message: Message)
        ensures { self.new ≡ scratch_of (Some message) self.old.list }
    {
        self.message = Some(message);
    }

    /// Takes an empty list back, for the next dump.
    pub(crate) fn take_back(&mut self, list: Dumped)
        ensures { self.new ≡ scratch_of self.old.message (Some list) }
    {
        self.list = Some(list);
    }

    /// The room of the list.
    pub(crate) fn room(&self) -> usize
        requires { IsSome self.now.list }
        ensures most { IfSome self.now.list (λ l. result ≡ l.most) }
        ensures within { result < 2 ^ 63 }
    {
        match &self.list {
            Some(list) => list.most(),
            None => unreachable!(),
        }
    }

    /// Drops the message that was brought.
    pub(crate) fn clear(&mut self)
        ensures { self.new ≡ scratch_of None self.old.list }
    {
        self.message = None;
    }
}

/// A turn keeps a message, or dumps.
impl Turn for Backtrace {
    type Item = BacktraceItem;

    type Reply = BacktraceReply;

    type Scratch = BacktraceScratch;

    ghost turns = { Turns };

    ghost may_turn = { MayTurn };

    fn turn(&mut self, item: &BacktraceItem, scratch: &mut BacktraceScratch) -> BacktraceReply {
        match item {
            BacktraceItem::Keep => match scratch.message.take() {
                Some(message) => {
                    self.keep(message);
                    BacktraceReply::Kept
                }
                None => unreachable!(),
            },
            BacktraceItem::Dump => match scratch.list.take() {
                Some(list) => BacktraceReply::Dumped(self.dump(list)),
                None => unreachable!(),
            },
        }
    }
}
