//! What a handle holds.
ghost use Rattle.std.specs.Prelude.{◌≡◌, Some, None, MatchOption, IfOk};
ghost use Rattle.std.specs.Mem.{manually_drop_value};
ghost use Rattle.alog_ffi.specs.Held.{kind_of, loggers_of};
ghost use Rattle.alog_ffi.specs.declared.part.Part.TheVariants.{Nothing};

use crate::found_list::FoundList;
use alog_outbox::{Drain, Outbox};
use alog_owned::{OwnedPool, OwnedProducer, OwnedWorker};
use alog_registry::Loggers;
use std::alloc::{AllocError, Global};
use std::mem::ManuallyDrop;

/// What a handle holds.
pub enum Part {
    Nothing,
    Pool(OwnedPool<Outbox>),
    Producer(OwnedProducer<Outbox>),
    Worker(OwnedWorker<Outbox>),
    /// The files that the host found, before a pool is opened.
    Found(FoundList),
    /// What is to be done to the files of each sink of an open pool.
    Files(Vec<Drain>),
}

/// A part in memory of its own. It may be let go, where a part may not, so each function that has one says where its part is then.
pub(crate) type Held = Box<ManuallyDrop<Part>>;

impl Part {
    /// The kind of a handle that holds it.
    pub(crate) fn kind(&self) -> u64
        ensures { result ≡ kind_of self.now }
    {
        match self {
            Part::Nothing => 0,
            Part::Pool(_) => 1,
            Part::Producer(_) => 2,
            Part::Worker(_) => 3,
            Part::Found(_) => 4,
            Part::Files(_) => 5,
        }
    }

    /// The loggers of a pool or a producer.
    pub(crate) fn loggers(&self) -> Option<&Loggers>
        ensures { MatchOption result (loggers_of self.now ≡ None) (λ l. loggers_of self.now ≡ Some l.now) }
    {
        match self {
            Part::Pool(part) => Some(part.loggers()),
            Part::Producer(part) => Some(part.loggers()),
            _ => None,
        }
    }
}

/// Memory for a part.
pub(crate) fn room(alloc: Global) -> Result<Held, AllocError>
    ensures { IfOk result (λ h. manually_drop_value h.value ≡ Nothing) }
{
    match Box::new(alloc, unsafe { ManuallyDrop::new_unchecked(Part::Nothing) }) {
        Ok(room) => Ok(room),
        Err(_) => Err(AllocError),
    }
}

/// Puts a part into the memory for one.
pub(crate) fn set(room: &mut Held, part: Part)
    requires { manually_drop_value room.old.value ≡ Nothing }
    ensures { manually_drop_value room.new.value ≡ part }
{
    let _nothing = Box::replace(room, unsafe { ManuallyDrop::new_unchecked(part) });
}

/// Takes a part out of its memory, which stays.
pub(crate) fn out(held: &mut Held) -> Part
    ensures part { result ≡ manually_drop_value held.old.value }
    ensures left { manually_drop_value held.new.value ≡ Nothing }
{
    ManuallyDrop::into_inner(Box::replace(
        held,
        unsafe { ManuallyDrop::new_unchecked(Part::Nothing) },
    ))
}
