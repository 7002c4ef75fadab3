//! What a hosted pool lends to each call.
ghost use Rattle.std.specs.Prelude.{◌≡◌};

use alog_lane::Lane;
use alog_pool::Shared;
use alog_registry::{Backtrace, Loggers};
use alog_sink::{Sink, Store};
use std::fmt;
use std::marker::Model;

/// A pool whose host brings the threads: what all of them share. It is lent to each call of a producer and of a worker, and ended by
/// `Host::disband`, which takes it back.
#[derive(Drop)]
pub struct Hosted<S: Store> {
    pub(crate) shared: Shared,
    /// The sinks under their locks.
    pub(crate) lanes: Vec<Lane<Sink<S>>>,
    /// The backtraces of the loggers under theirs.
    pub(crate) backtraces: Vec<Lane<Backtrace>>,
}

impl<S: Store> Model for Hosted<S> {
    ghost use Rattle.alog_hosted.specs.Lent.{HostedView};

    ghost Value = { HostedView S };

    ghost view = { λ h. record { shared = h.shared; lanes = h.lanes.items; backtraces = h.backtraces.items } };
}

impl<S: Store> Hosted<S> {
    /// Its loggers: by name, with their levels, which any thread may set while it runs.
    pub fn loggers(&self) -> &Loggers
        ensures { result.now ≡ self.now.shared.loggers }
    {
        &self.shared.loggers
    }
}

impl<S: Store> fmt::Debug for Hosted<S> {
    fn fmt<W: fmt::Write>(&self, f: &mut fmt::Formatter<W>) -> fmt::Result {
        f.debug_struct("Hosted")
            .field("sinks", &self.lanes.len())
            .field("loggers", &self.backtraces.len())
            .finish_non_exhaustive()
    }
}
