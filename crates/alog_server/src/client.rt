//! What a thread of a server logs with.
ghost use Rattle.std.specs.Prelude.{◌≡◌, Some, IfOk, IfErr};
ghost use Rattle.alog_registry.specs.Listed.{IsTaken, name_at};
ghost use Rattle.alog_server.specs.Homes.{IsAtHome};

use crate::error::LogError;
use crate::home::Home;
use crate::logger::Logger;
use alog_pool::Producer;
use std::alloc::Global;
use std::fmt;
use std::marker::{Model, PhantomData};

/// What a thread of a server logs with. `calls.rt` has its calls, and `levels.rt` those on levels. Contracts see it as its
/// producer. Like that it is no `Drop`.
pub struct Client<H: Home> {
    pub(crate) alloc: Global,
    pub(crate) producer: Producer,
    of: PhantomData<H>,
}

impl<H: Home> Model for Client<H> {
    ghost use Rattle.std.specs.Prelude.{◌≡◌};
    ghost use Rattle.alog_pool.specs.Producer.{ProducerView};

    ghost Value = { ProducerView };

    ghost view = { λ c. c.producer };

    ghost invariant = { λ c. H.is_home c.producer.shared × (c.producer.shared.loggers ≡ H.loggers) };
}

impl<H: Home> fmt::Debug for Client<H> {
    fn fmt<W: fmt::Write>(&self, f: &mut fmt::Formatter<W>) -> fmt::Result {
        f.debug_struct("Client")
            .field("producer", &self.producer)
            .finish_non_exhaustive()
    }
}

impl<H: Home> Client<H> {
    /// A client with a producer of this pool.
    pub(crate) fn of(alloc: Global, producer: Producer) -> Client<H>
        requires { IsAtHome H.is_home H.loggers producer }
        ensures { result ≡ producer }
    {
        Client {
            alloc,
            producer,
            of: PhantomData,
        }
    }

    /// Its producer.
    pub(crate) fn into_producer(self) -> Producer
        ensures value { result ≡ self }
        ensures home { H.is_home result.shared }
    {
        let Client {
            alloc: _,
            producer,
            of: _,
        } = self;
        producer
    }

    /// The number of its thread, which is that of its messages.
    pub fn number(&self) -> u64
        ensures { result ≡ self.now.number }
    {
        self.producer.number()
    }

    /// The logger of this name. The only error is `NoLogger`.
    pub fn logger(&self, name: &str) -> Result<Logger<H>, LogError>
        ensures found { IfOk result (λ l. name_at self.now.shared.loggers l.number ≡ Some name.now) }
        ensures missing { IfErr result (λ e. (e ≡ LogError.NoLogger) × (¬ IsTaken self.now.shared.loggers name.now)) }
    {
        match self.producer.loggers().find(name) {
            Some(number) => Ok(Logger::of(number)),
            None => Err(LogError::NoLogger),
        }
    }
}
