//! The passes with which threads use a ring: the writer's, and any number of readers'.
ghost use Rattle.std.specs.Prelude.{◌≡◌, ◌≤◌, length};
ghost use Rattle.hb_look.specs.Limits.{most_records};

use hb_ring_rule::{ReaderSeat, WriterSeat};
use std::marker::Model;

/// The pass of a ring's one writer.
#[derive(Drop)]
pub struct WriterPass {
    pub(crate) seat: WriterSeat,
    pub(crate) written: u64,
}

impl Model for WriterPass {
    ghost use Rattle.std.specs.Prelude.{◌≡◌, ◌≤◌, length, map};
    ghost use Rattle.hb_look.specs.Limits.{most_records};
    ghost use Rattle.hb_ring_rule.specs.Records.{record_of};
    ghost use Rattle.hb_ring_rule.specs.Views.{Idle};
    ghost use Rattle.hb_ring.specs.Passes.{WriterAt};

    ghost Value = { WriterAt };

    ghost view = { λ p. record {
      table = p.seat.table;
      shape = p.seat.view.shape;
      log = map record_of p.seat.view.log;
    } };

    ghost invariant = { λ p. (p.seat.view.stage ≡ Idle)
        × (p.written ≡ length p.seat.view.log) × (p.written ≤ most_records) };
}

/// The pass of one reader.
#[derive(Drop)]
pub struct ReaderPass {
    pub(crate) seat: ReaderSeat,
    pub(crate) looked: u64,
    pub(crate) seen: u64,
}

impl Model for ReaderPass {
    ghost use Rattle.std.specs.Prelude.{◌≡◌, ◌≤◌, length};
    ghost use Rattle.hb_look.specs.Limits.{most_records};
    ghost use Rattle.hb_ring_rule.specs.Views.{Idle};
    ghost use Rattle.hb_ring.specs.Passes.{ReaderAt};

    ghost Value = { ReaderAt };

    ghost view = { λ p. record { table = p.seat.table; reader = p.seat.view.reader } };

    ghost invariant = { λ p. (p.seat.view.stage ≡ Idle)
        × (p.looked ≡ length p.seat.view.reader.looks) × (p.looked ≤ most_records)
        × (p.seen ≡ p.seat.view.reader.finished.count) × (p.seen ≤ most_records)
        × (p.seat.view.reader.begun.count ≤ most_records) };
}

impl ReaderPass {
    /// How many looks it made.
    pub fn looked(&self) -> u64
        ensures looked { (result ≡ length self.now.reader.looks) × (result ≤ most_records) }
    {
        self.looked
    }
}

/// What a reader leaves that is retired.
#[derive(Clone, Copy, Debug, PartialEq, Eq)]
pub struct Retired {
    /// How many looks it made.
    pub looked: u64,
    /// The greatest count of finished records that it has seen.
    pub seen: u64,
}
