//! The levels of a pool's loggers, which each client may read and set.
ghost use Rattle.alog_registry.specs.Logging.{IsOn};

use crate::client::Client;
use crate::home::Home;
use crate::logger::Logger;
use alog_msg::Level;

impl<H: Home> Client<H> {
    /// The level of the logger as it is now. No contract says which, since another thread may set it at any time; the test
    /// `levels_are_those_that_were_set` shows it.
    pub fn level(&self, logger: &Logger<H>) -> Level {
        match self.producer.loggers().level(logger.number) {
            Some(level) => level,
            None => unreachable!(),
        }
    }

    /// Sets the level of the logger for all threads, from the next message on. The same test shows it.
    pub fn set_level(&self, logger: &Logger<H>, level: Level) {
        let _known = self.producer.loggers().set_level(logger.number, level);
    }

    /// Whether the logger reads a message of this level: where it is not below the logger's level as it is now, or where the
    /// logger has a backtrace, which keeps it. What is not read is filtered whatever its text is, so who asks first need not make
    /// that text.
    pub fn is_on(&self, logger: &Logger<H>, level: Level) -> bool
        ensures { IsOn self.now.shared.loggers logger.now.number level result }
    {
        self.producer.loggers().is_on(logger.number, level)
    }
}
