//! `ListReader`: the looks that one reader made.
ghost use Rattle.std.specs.Prelude.{◌≡◌, ◌<◌, ◌≤◌, length, IfOk, IsOk, OnOk, OnErr};
ghost use Rattle.hb_look.specs.Limits.{most_records};
ghost use Rattle.hb_listring.specs.Places.{fresh, after_load, after_look};
ghost use Rattle.hb_listring.specs.Found.{found_in};

use crate::ring::Place;
use bytes::Bytes;
use hb_look::NoMemory;
use std::alloc::Global;
use std::marker::Model;

/// The looks that a reader made at one ring, in order, and what it has seen of the ring's count. The
/// records that it got are shared with the ring, and stay when they are overwritten there.
#[derive(Drop)]
pub struct ListReader {
    looks: Vec<StoredLook>,
    seen: u64,
    loads: u64,
}

impl Model for ListReader {
    ghost use Rattle.std.specs.Prelude.{◌≤◌, length};
    ghost use Rattle.hb_look.specs.Limits.{most_records};
    ghost use Rattle.hb_listring.specs.Places.{Noted};

    ghost Value = { Noted };

    ghost view = { λ r. record {
      looks = r.looks.items;
      seen = r.seen;
      loads = r.loads;
    } };

    ghost invariant = { λ r. length r.looks.items ≤ most_records };
}

impl ListReader {
    /// A reader that made no look. It takes no memory.
    pub fn new(alloc: Global) -> Result<ListReader, NoMemory>
        ensures ok { IsOk result }
        ensures fresh { IfOk result (λ reader. reader ≡ fresh) }
    {
        Ok(ListReader {
            looks: Vec::new(alloc),
            seen: 0,
            loads: 0,
        })
    }

    /// How many looks it made.
    pub(crate) fn looked(&self) -> u64
        ensures { (result ≡ length self.now.looks) × (result ≤ most_records) }
    {
        self.looks.len() as u64
    }

    /// Loads the ring's count of records.
    pub(crate) fn load(&mut self, written: u64)
        ensures loaded { self.new ≡ after_load self.old written }
        ensures loads { self.old.loads ≤ self.new.loads }
    {
        self.seen = written;
        self.loads = self.loads.saturating_add(1);
    }

    /// Loads the count of records of a ring of this capacity, and adds a look.
    pub(crate) fn add_look(
        &mut self,
        capacity: u64,
        written: u64,
        position: u64,
        moment: u64,
        place: Place<'_>,
    ) -> Result<(), NoMemory>
        requires unspent { length self.old.looks < most_records }
        ensures ok { OnOk result
            (self.new ≡ after_look self.old capacity written position moment
            (found_in place.entry)) }
        ensures loads { self.old.loads ≤ self.new.loads }
        ensures err { OnErr result (self.new ≡ self.old) }
    {
        let found = match place {
            Place::Held(record) => Stored::Got(record.clone()?),
            Place::Overwritten(next) => Stored::Gone(next),
            Place::Unwritten => Stored::NotYet,
        };
        let look = StoredLook {
            position,
            found,
            moment,
            capacity,
        };
        self.looks.push(look)?;
        self.load(written);
        Ok(())
    }
}

/// What a look found.
#[derive(Drop)]
enum Stored {
    Got(Bytes),
    Gone(u64),
    NotYet,
}

/// A look that was made.
#[derive(Drop)]
struct StoredLook {
    position: u64,
    found: Stored,
    moment: u64,
    capacity: u64,
}

impl Model for StoredLook {
    ghost use Rattle.hb_look.specs.Looks.{LookMade};
    ghost use Rattle.hb_listring.specs.Found.{stored};

    ghost Value = { LookMade };

    ghost view = { λ l. record {
      position = l.position;
      found = stored l.found;
      moment = l.moment;
      capacity = l.capacity;
    } };
}
