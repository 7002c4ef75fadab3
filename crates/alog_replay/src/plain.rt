//! The scene of a script without a configuration: no queue before the line `ring`, and then a session.
ghost use Rattle.std.specs.Prelude.{◌≡◌, ◌↔◌, true, false, None, Some, [], IfOk, IsErrOf};
ghost use Rattle.alog_replay.specs.Plain.{plain};
ghost use Rattle.alog_sink.specs.Files.{AreSame, no_files};

use crate::command::{Act, Actor};
use crate::error::LineError;
use crate::memory::NAME;
use crate::print::print_memory_file;
use crate::scene::Playable;
use crate::session::Session;
use alog_sink::{MemStore, Store};
use std::alloc::{AllocError, Global};

impl Playable for Option<Session<MemStore>> {
    ghost use Rattle.std.specs.Prelude.{true};
    ghost use Rattle.alog_replay.specs.Plain.{plain, plain_goes_on};

    ghost scene = { plain true };

    fn is_free(&self, actor: Actor) -> bool {
        match self {
            Some(session) => session.is_free(actor),
            None => true,
        }
    }

    fn act(&mut self, alloc: Global, act: Act<'_>, out: &mut String) -> Result<(), LineError> {
        match self {
            Some(session) => session.act(alloc, act, out),
            None => {
                *self = Some(opened_by(alloc, &act, MemStore::new(alloc))?);
                Ok(())
            }
        }
    }

    fn step(&mut self, actor: Actor, out: &mut String) -> Result<(), LineError> {
        match self {
            Some(session) => session.step(actor, out),
            None => Err(LineError::Refused),
        }
    }

    fn print_files(&self, alloc: Global, out: &mut Vec<u8>) -> Result<(), AllocError> {
        match self {
            Some(session) => print_memory_file(alloc, out, session.store().files().get(NAME)),
            None => Ok(()),
        }
    }

    ghost goes_on = { plain_goes_on true };
}

/// The session that the line `ring` opens over a store without files. Nothing else opens one.
pub fn opened_by<S: Store + Drop>(
    alloc: Global,
    act: &Act<'_>,
    store: S,
) -> Result<Session<S>, LineError>
    requires tells { S.tells ≡ true }
    requires empty { AreSame no_files (S.files store) }
    ensures opened { IfOk result (λ s. (plain true).Does None act.now [] (Some s)) }
    ensures refused { IsErrOf result LineError.Refused ↔ ((plain true).may_do None act.now ≡ false) }
{
    match act {
        Act::Ring { size, first } => Session::open(alloc, store, *size, *first),
        _ => Err(LineError::Refused),
    }
}
