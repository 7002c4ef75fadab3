//! A worker that owns its share of the pool.
ghost use Rattle.std.specs.Prelude.{◌≡◌, IfErr};
ghost use Rattle.std.specs.Arc.{arc_value};
ghost use Rattle.alog_hosted.specs.Faults.{faults_of};
ghost use Rattle.alog_hosted.specs.Workers.{IsWorkerOf};
ghost use Rattle.alog_owned.specs.Desk.{IsPassAt};
ghost use Rattle.alog_owned.specs.Owned.{WorksBy};

use crate::back::{Back, Piece};
use crate::common::Common;
use crate::desk::{DeskPass, lay};
use alog_hosted::{HostedWorker, Work};
use alog_sink::Store;
use std::fmt;
use std::marker::Model;
use std::sync::Arc;

/// What one thread writes lines with. It owns its share of the pool, so that no call is lent any. It has to be given back, so it is no `Drop`.
pub struct OwnedWorker<S: Store> {
    common: Arc<Common<S>>,
    pass: DeskPass<S>,
    worker: HostedWorker<S>,
}

impl<S: Store> Model for OwnedWorker<S> {
    ghost use Rattle.std.specs.Arc.{arc_value};
    ghost use Rattle.alog_hosted.specs.Workers.{IsWorkerOf};
    ghost use Rattle.alog_owned.specs.Desk.{IsPassAt};
    ghost use Rattle.alog_owned.specs.Owned.{OwnedWorkerView};

    ghost Value = { OwnedWorkerView S };

    ghost view = { λ w. record { hosted = (arc_value w.common).hosted; worker = w.worker } };

    ghost invariant = { λ w. IsPassAt (arc_value w.common).desk (arc_value w.common).hosted w.pass × IsWorkerOf (arc_value w.common).hosted w.worker };
}

impl<S: Store> fmt::Debug for OwnedWorker<S> {
    fn fmt<W: fmt::Write>(&self, f: &mut fmt::Formatter<W>) -> fmt::Result {
        f.debug_struct("OwnedWorker")
            .field("number", &self.worker.number())
            .finish_non_exhaustive()
    }
}

impl<S: Store> OwnedWorker<S> {
    /// A worker of this pool.
    pub(crate) fn of(
        common: Arc<Common<S>>,
        pass: DeskPass<S>,
        worker: HostedWorker<S>,
    ) -> OwnedWorker<S>
        requires pass { IsPassAt (arc_value common).desk (arc_value common).hosted pass }
        requires worker { IsWorkerOf (arc_value common).hosted worker }
        ensures { (result.hosted ≡ (arc_value common).hosted) × (result.worker ≡ worker) }
    {
        OwnedWorker {
            common,
            pass,
            worker,
        }
    }

    /// Its number, from 0 in the order in which its pool made workers.
    pub fn number(&self) -> u32
        ensures { result ≡ self.now.worker.number }
    {
        self.worker.number()
    }

    /// How many turns at sinks it made so far that were answered by a fault, as `HostedWorker::faults` does.
    pub fn faults(&self) -> u64
        ensures { result ≡ faults_of self.now.worker }
    {
        self.worker.faults()
    }

    /// Writes the lines of up to so many items, as `HostedWorker::work_some` does.
    pub fn work_some(&mut self, most: usize) -> Work
        ensures { WorksBy most self.old result self.new }
    {
        self.worker.work_some(&self.common.hosted, most)
    }

    /// Gives it back to its pool. Where another thread gives something back at this moment, it is handed back: try again.
    pub fn give_back(self) -> Result<(), OwnedWorker<S>>
    where
        S: Drop,
        ensures { IfErr result (λ w. w ≡ self) }
    {
        let OwnedWorker {
            common,
            mut pass,
            worker,
        } = self;
        match lay(&common, &mut pass, Back::worker(&common.hosted, worker)) {
            Ok(()) => Ok(()),
            Err(back) => match back.into_piece() {
                Piece::Worker(worker) => Err(OwnedWorker::of(common, pass, worker)),
                _ => unreachable!(),
            },
        }
    }
}
