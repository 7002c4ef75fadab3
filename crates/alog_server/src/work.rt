//! What the threads of a server do.
use crate::client::Client;
use crate::home::Home;

/// What each thread of a server does, with a runtime `R`.
pub trait Work<R> {
    ghost use Rattle.std.specs.Prelude.{ℕ, Result};

    /// Why a thread's work ended early.
    type Error: Drop + Send;

    /// How the work of the thread of this number may end. Who defines it is told by `Server::run` that the works of its threads ended
    /// so; a program need not.
    ghost ends: { Self → ℕ → Result (Unit {0}) Self.Error → Type 0 } = { λ _ _ _. Unit {0} };

    /// The work of the thread of this number, from 0. It may wait for other threads only where each of them has its own thread: where
    /// the system gives none, works are done one after another.
    fn work<H: Home>(
        &self,
        rt: &R,
        thread: usize,
        client: &mut Client<H>,
    ) -> Result<(), Self::Error>
        ensures { Self.ends self.now thread result };
}
