//! A dump: what is made before it begins, and what is left to post of it.
ghost use Rattle.std.specs.Prelude.{◌≡◌, IfOk, slice_get, drop};
ghost use Rattle.alog_registry.specs.Dumping.{marker, posted_of};
ghost use Rattle.alog_system.specs.Dump.{start_text, end_text};
ghost use Rattle.alog_system.specs.Roster.{room, empty_of};

use alog_msg::{Level, Message, TEXT_LIMIT_MAX, Text};
use alog_registry::{Backtrace, Dumped};
use std::alloc::{AllocError, Global};
use std::marker::Model;

/// The text of the message before those of a dump.
const START: &str = "=== backtrace start ===";

/// The text of the message behind those of a dump.
const END: &str = "=== backtrace end ===";

/// A dump that has not taken anything yet: its markers, and the room for what it takes.
#[derive(Drop)]
pub struct Dump {
    logger: u32,
    time: i64,
    thread: u64,
    room: Dumped,
    start: Message,
    end: Message,
}

impl Model for Dump {
    ghost use Rattle.alog_system.specs.Dump.{DumpView, view_of, IsReady};

    ghost Value = { DumpView };

    ghost view = { view_of };

    ghost invariant = { IsReady };
}

impl Dump {
    /// A dump of the logger of this number, which keeps at most so many messages, at this time by this thread. All memory that it
    /// takes is taken here.
    pub fn new(
        alloc: Global,
        logger: u32,
        time: i64,
        thread: u64,
        most: usize,
    ) -> Result<Dump, AllocError>
        ensures { IfOk result (λ d. d ≡ record { logger = logger; time = time; thread = thread; most = most }) }
    {
        Ok(Dump {
            logger,
            time,
            thread,
            room: Dumped::new(alloc, most, TEXT_LIMIT_MAX)?,
            start: marker(alloc, logger, time, thread, START)?,
            end: marker(alloc, logger, time, thread, END)?,
        })
    }

    /// The number of the logger.
    pub fn logger(&self) -> u32
        ensures { result ≡ self.now.logger }
    {
        self.logger
    }

    /// Empties the backtrace, and gives what is to be posted.
    pub fn take(self, backtrace: &mut Backtrace) -> Rest
        requires { empty_of backtrace.old ≡ room self.most }
        ensures posts { result ≡ posted_of self.logger self.time self.thread backtrace.old.messages }
        ensures emptied { backtrace.new ≡ room self.most }
    {
        let list = backtrace.dump(self.room);
        if list.is_empty() {
            Rest {
                start: None,
                list,
                end: None,
            }
        } else {
            Rest {
                start: Some(self.start),
                list,
                end: Some(self.end),
            }
        }
    }
}

/// Messages that are still to be posted, in order.
#[derive(Drop)]
pub struct Rest {
    start: Option<Message>,
    list: Dumped,
    end: Option<Message>,
}

impl Model for Rest {
    ghost use Rattle.std.specs.Prelude.{List};
    ghost use Rattle.alog_msg.specs.declared.message.Message.{Message};
    ghost use Rattle.alog_system.specs.Dump.{left_of};

    ghost Value = { List Message };

    ghost view = { left_of };
}

impl Rest {
    /// Takes the next message.
    pub fn next(&mut self) -> Option<Message>
        ensures next { result ≡ slice_get self.old 0 }
        ensures rest { self.new ≡ drop 1 self.old }
    {
        if let Some(start) = self.start.take() {
            return Some(start);
        }
        match self.list.take_oldest() {
            Some(message) => Some(message),
            None => self.end.take(),
        }
    }
}

/// A marker of a dump.
fn marker(
    alloc: Global,
    logger: u32,
    time: i64,
    thread: u64,
    text: &str,
) -> Result<Message, AllocError>
    ensures { IfOk result (λ m. m ≡ marker logger time thread text.now) }
{
    Ok(Message {
        logger,
        level: Level::Info,
        time,
        thread,
        text: Text::copy_of(alloc, text)?,
        source: None,
    })
}
