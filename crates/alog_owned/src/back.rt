//! A part that is given back, with the pool that it is of.
ghost use Rattle.std.specs.Prelude.{◌≡◌};
ghost use Rattle.alog_hosted.specs.Lent.{IsProducerOf};
ghost use Rattle.alog_hosted.specs.Workers.{IsWorkerOf};
ghost use Rattle.alog_owned.specs.Desk.{IsPieceOf};
ghost use Rattle.alog_owned.specs.declared.back.Piece.{Piece};
ghost use Rattle.alog_owned.specs.declared.back.Piece.TheVariants as piece;

use alog_hosted::{Hosted, HostedProducer, HostedWorker};
use alog_sink::Store;
use std::marker::Model;
use std::snapshot::Snapshot;

/// A producer, a worker, or nothing.
pub(crate) enum Piece<S: Store> {
    Seed,
    Producer(HostedProducer),
    Worker(HostedWorker<S>),
}

/// A part of a pool, and which pool it is.
pub(crate) struct Back<S: Store> {
    hosted: Snapshot<Hosted<S>>,
    piece: Piece<S>,
}

impl<S: Store> Model for Back<S> {
    ghost use Rattle.alog_owned.specs.Desk.{BackView, IsPieceOf};

    ghost Value = { BackView S };

    ghost view = { λ b. record { hosted = b.hosted; piece = b.piece } };

    ghost invariant = { λ b. IsPieceOf b.hosted.value b.piece };
}

impl<S: Store> Back<S> {
    /// Nothing of this pool.
    pub(crate) fn seed(hosted: &Hosted<S>) -> Back<S>
        ensures { (result.hosted.value ≡ hosted.now) × (result.piece ≡ piece.Seed) }
    {
        Back {
            hosted: Snapshot::of(hosted),
            piece: Piece::Seed,
        }
    }

    /// A producer of this pool.
    pub(crate) fn producer(hosted: &Hosted<S>, producer: HostedProducer) -> Back<S>
        requires { IsProducerOf hosted.now producer }
        ensures { (result.hosted.value ≡ hosted.now) × (result.piece ≡ piece.Producer producer) }
    {
        Back {
            hosted: Snapshot::of(hosted),
            piece: Piece::Producer(producer),
        }
    }

    /// A worker of this pool.
    pub(crate) fn worker(hosted: &Hosted<S>, worker: HostedWorker<S>) -> Back<S>
        requires { IsWorkerOf hosted.now worker }
        ensures { (result.hosted.value ≡ hosted.now) × (result.piece ≡ piece.Worker worker) }
    {
        Back {
            hosted: Snapshot::of(hosted),
            piece: Piece::Worker(worker),
        }
    }

    /// The part.
    pub(crate) fn into_piece(self) -> Piece<S>
        ensures piece { result ≡ self.piece }
        ensures of { IsPieceOf self.hosted.value result }
    {
        let Back { hosted: _, piece } = self;
        piece
    }
}
