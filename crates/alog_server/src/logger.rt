//! A logger that was found.
ghost use Rattle.std.specs.Prelude.{◌≡◌, ◌<◌, length};

use crate::home::Home;
use std::fmt;
use std::marker::PhantomData;

/// A logger of the pool, which `Client::logger` found by its name. It serves each client of that pool.
#[derive(Drop)]
pub struct Logger<H: Home> {
    pub(crate) number: u32,
    of: PhantomData<H>,
    pub ghost known: { number < length H.loggers },
}

impl<H: Home> fmt::Debug for Logger<H> {
    fn fmt<W: fmt::Write>(&self, f: &mut fmt::Formatter<W>) -> fmt::Result {
        f.debug_struct("Logger")
            .field("number", &self.number)
            .finish_non_exhaustive()
    }
}

impl<H: Home> Logger<H> {
    /// The logger of this number.
    pub(crate) fn of(number: u32) -> Logger<H>
        requires { number < length H.loggers }
        ensures { result.number ≡ number }
    {
        Logger {
            number,
            of: PhantomData,
        }
    }

    /// Its number, from 0 in the order of the configuration.
    pub fn number(&self) -> u32
        ensures { result ≡ self.now.number }
    {
        self.number
    }
}
