//! What a caller outside gets of the works of its threads.
ghost use Rattle.std.specs.Prelude.{◌≡◌, ◌<◌, ◌≤◌, Some, None, IfOk};

use alog_server::{Client, Home, Ran, RunError, Server, Work};
use alog_sink::Store;
use std::sync::Wait;
use std::thread::Threads;
use std::time::Clock;

/// A work that ends early at each thread but the first two, with the number of its thread.
pub struct Late;

impl<R> Work<R> for Late {
    ghost use Rattle.test_server.specs.Works.{EndsLate};

    type Error = usize;

    ghost ends = { λ _ thread answer. EndsLate thread answer };

    fn work<H: Home>(&self, _rt: &R, thread: usize, _client: &mut Client<H>) -> Result<(), usize> {
        if thread < 2 { Ok(()) } else { Err(thread) }
    }
}

/// Runs so many threads of it: the third is the first that ends early.
pub fn told_of_works<R, S: Store + Drop + Send + 'static, L: Drop>(
    rt: &R,
    server: Server<S, L>,
    threads: usize,
) -> Result<Ran<S, usize, L>, RunError>
where
    R: Threads + Wait + Clock + Sync,
    ensures more { IfOk result (λ r. 2 < threads → r.error ≡ Some 2) }
    ensures two { IfOk result (λ r. threads ≤ 2 → r.error ≡ None) }
{
    server.run(rt, threads, &Late)
}
