//! What a worker promises its pool.
ghost use Rattle.alog_pool.specs.Working.{HasWorked, IsAtWork};

use crate::gate::Gate;
use crate::worker::Worker;
use alog_sink::Store;
use std::snapshot::Snapshot;
use std::sync::{Arc, Wait};
use std::thread::Promise;
use std::time::Clock;

/// The worker as it began: what comes back is that of a worker which began so.
#[derive(Drop)]
pub(crate) struct Works<S: Store> {
    pub(crate) start: Snapshot<Worker<S>>,
}

impl<S: Store> Promise<Worker<S>> for Works<S> {
    ghost kept_by = { λ p worker. HasWorked p.start.value worker };
}

/// Works with this worker, on a thread of its own.
pub(crate) fn work_alone<R: Wait + Clock + Drop, S: Store, G: Gate + Drop>(
    rt: R,
    gate: Arc<G>,
    worker: Worker<S>,
) -> Worker<S>
    requires { IsAtWork worker worker }
    ensures { HasWorked worker result }
{
    let open: &G = &gate;
    worker.work(&rt, open)
}
