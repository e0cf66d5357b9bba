//! The seats at a ring's table: one writer's, and any number of readers'.

use atomic_table::Seat;
use std::marker::Model;

/// What a seat knows. No value of it is made.
pub struct View;

impl Model for View {
    ghost use Rattle.hb_ring_rule.specs.Views.{Knowledge, Spent};

    ghost Value = { Knowledge };

    ghost view = { λ _. Spent };
}

/// The seat of the ring's one writer. It has no bytes.
#[derive(Drop)]
pub struct WriterSeat {
    pub(crate) seat: Seat<u8, View>,
}

impl Model for WriterSeat {
    ghost use Rattle.std.specs.Prelude.{◌≡◌, []};
    ghost use Rattle.hb_ring_rule.specs.Views.{Writes, WriterView, Seated, writer_of};

    ghost Value = { Seated WriterView };

    ghost view = { λ s. record { table = s.seat.table_id; view = writer_of s.seat.me.0 } };

    ghost invariant = { λ s. s.seat.me ≡ (Writes (writer_of s.seat.me.0), []) };
}

/// The seat of one reader. It has no bytes.
#[derive(Drop)]
pub struct ReaderSeat {
    pub(crate) seat: Seat<u8, View>,
}

impl Model for ReaderSeat {
    ghost use Rattle.std.specs.Prelude.{◌≡◌, []};
    ghost use Rattle.hb_ring_rule.specs.Views.{Reads, ReaderView, Seated, reader_of};

    ghost Value = { Seated ReaderView };

    ghost view = { λ s. record { table = s.seat.table_id; view = reader_of s.seat.me.0 } };

    ghost invariant = { λ s. s.seat.me ≡ (Reads (reader_of s.seat.me.0), []) };
}
