//! The buffer that a look fills.
ghost use Rattle.std.specs.Prelude.{◌≡◌, ◌+◌, ◌≤◌, [], ◌++◌, length, take, IfOk};

use crate::no_memory::NoMemory;
use std::alloc::Global;
use std::marker::Model;

/// The bytes of one record, in room that was taken beforehand: it takes no memory after it is made.
#[derive(Drop)]
pub struct Record {
    bytes: Vec<u8>,
    room: usize,
}

impl Model for Record {
    ghost use Rattle.std.specs.Prelude.{◌≤◌, length, vec_capacity};
    ghost use Rattle.hb_look.specs.Room.{Filled};

    ghost Value = { Filled };

    ghost view = { λ r. record { bytes = r.bytes.items; room = r.room } };

    ghost invariant = { λ r. (length r.bytes.items ≤ r.room) × (r.room ≤ vec_capacity r.bytes) };
}

impl Record {
    /// No bytes, and room for this many.
    pub fn with_room(alloc: Global, room: usize) -> Result<Record, NoMemory>
        ensures ok { IfOk result (λ made. made ≡ record { bytes = []; room = room }) }
    {
        let bytes = Vec::with_capacity(alloc, room)?;
        Ok(Record { bytes, room })
    }

    /// Its bytes.
    pub fn bytes(&self) -> &[u8]
        ensures value { result.now ≡ self.now.bytes }
        ensures within { length self.now.bytes ≤ self.now.room }
    {
        &self.bytes
    }

    /// Takes its bytes away.
    pub fn clear(&mut self)
        ensures cleared { self.new ≡ record self.old { bytes = [] } }
    {
        self.bytes.clear();
    }

    /// Keeps so many of its first bytes.
    pub fn truncate(&mut self, count: usize)
        ensures kept { self.new ≡ record self.old { bytes = take count self.old.bytes } }
    {
        self.bytes.truncate(count);
    }

    /// Appends bytes for which there is room. The cost is that of a copy.
    pub fn add(&mut self, bytes: &[u8])
        requires room { length self.old.bytes + length bytes.now ≤ self.old.room }
        ensures added { self.new ≡ record self.old { bytes = self.old.bytes ++ bytes.now } }
    {
        match self.bytes.extend_from_slice(bytes) {
            Ok(()) => {}
            Err(_) => unreachable!(),
        }
    }
}
