//! `ListEye`: a reader at its ring.
ghost use Rattle.std.specs.Prelude.{◌≤◌};
ghost use Rattle.hb_listring.specs.Log.{HasLimits};

use crate::reader::ListReader;
use crate::ring::{ListRing, Place};
use hb_look::{Look, Looked, Record};

/// A reader lent to a ring, through which it looks. A reader is meant for one ring.
#[derive(Drop)]
pub struct ListEye<'a> {
    pub reader: &'a mut ListReader,
    pub ring: &'a ListRing,
    /// The reader has seen no more than the ring has written.
    ghost within: { reader.now.seen ≤ ring.now.written },
    /// The ring's limits are within those of every ring.
    ghost limits: { HasLimits ring.now },
}

impl<'a> Look for ListEye<'a> {
    ghost use Rattle.std.specs.Prelude.{ℕ};
    ghost use Rattle.hb_listring.specs.Log.{Kept, StandsFor};
    ghost use Rattle.hb_listring.specs.Places.{reader_at};

    ghost reader = { λ eye. reader_at eye.ring.now eye.reader.now };

    ghost tells = { λ eye log. StandsFor eye.ring.now log };

    ghost takes_memory = { λ eye. Unit {0} };

    ghost Fixed = { Kept × ℕ };

    ghost fixed = { λ eye. (eye.ring.now, eye.reader.ghost_name) };

    fn look(&mut self, position: u64, moment: u64, out: &mut Record) -> Looked {
        let place = self.ring.place(position);
        let written = self.ring.written();
        if self
            .reader
            .add_look(self.ring.capacity(), written, position, moment, place)
            .is_err()
        {
            return Looked::NoMemory;
        }
        match place {
            Place::Held(record) => {
                out.clear();
                out.add(record.as_slice());
                Looked::Got
            }
            Place::Overwritten(next) => Looked::Gone(next),
            Place::Unwritten => Looked::NotYet,
        }
    }

    fn top(&mut self) -> u64 {
        let top = self.ring.written();
        self.reader.load(top);
        top
    }

    fn capacity(&self) -> u64 {
        self.ring.capacity()
    }

    fn looked(&self) -> u64 {
        self.reader.looked()
    }

    ghost bounds = { λ eye. eye.limits };
}
