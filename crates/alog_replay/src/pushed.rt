ghost use Rattle.std.specs.Prelude.{◌≡◌, ◌↔◌, ◌<◌, ◌≤◌, IfOk, IsErrOf, length};
ghost use Rattle.alog_replay.specs.Session.{message_of};

use crate::command::Actor;
use crate::error::LineError;
use crate::print::Shows;
use alog_msg::{DEFAULT_TEXT_LIMIT, Level, Message};
use std::alloc::{AllocError, Global};
use std::marker::Model;

/// A message that an actor pushed, whose text keeps to `DEFAULT_TEXT_LIMIT`. Contracts see it as that message.
#[derive(Drop)]
pub struct Pushed {
    message: Message,
}

impl Model for Pushed {
    ghost use Rattle.std.specs.Prelude.{◌≤◌, length};
    ghost use Rattle.alog_msg.specs.declared.limits.TheConstants.{DEFAULT_TEXT_LIMIT};
    ghost use Rattle.alog_msg.specs.declared.message.Message.{Message};

    ghost Value = { Message };

    ghost view = { λ p. p.message };

    ghost invariant = { λ p. length p.message.text ≤ DEFAULT_TEXT_LIMIT };
}

impl Pushed {
    /// The message of an actor and a text.
    pub fn new(alloc: Global, actor: Actor, text: &str) -> Result<Pushed, LineError>
        ensures made { IfOk result (λ p. p ≡ message_of actor text.now) }
        ensures refused { IsErrOf result LineError.Refused ↔ (DEFAULT_TEXT_LIMIT < length text.now) }
    {
        let thread = u64::from(actor.number());
        let message = Message::new(
            alloc,
            DEFAULT_TEXT_LIMIT,
            0,
            Level::Info,
            0,
            thread,
            text,
            None,
        )?;
        Ok(Pushed { message })
    }

    pub fn message(&self) -> &Message
        ensures message { result.now ≡ self.now }
        ensures fits { length self.now.text ≤ DEFAULT_TEXT_LIMIT }
    {
        &self.message
    }
}

impl Shows for Pushed {
    ghost use Rattle.alog_replay.specs.Session.{shown_message};

    ghost shown = { shown_message };

    fn show(&self, out: &mut String) -> Result<(), AllocError> {
        out.push_str(self.message.text.as_str())
    }
}
