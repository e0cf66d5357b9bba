//! A ring of one thread.
ghost use Rattle.std.specs.Prelude.{◌≤◌};
ghost use Rattle.hb_listring.specs.Log.{HasLimits};

use super::place::{Client, NAME, Place, SLOT, finish_at, turn_at};
use hb_api::GetFlowsRequest;
use hb_edge::MemLink;
use hb_listring::{ListEye, ListReader, ListRing};
use hb_look::{Keep, Look, Put};
use hb_session::{NodeSession, OpenFault, Turn, reply_of};
use std::alloc::Global;
use std::test::Fail;

/// A ring of one thread, which is its writer, and a reader.
#[derive(Drop)]
pub(crate) struct ListPlace {
    ring: ListRing,
    reader: ListReader,
    ghost within: { reader.seen ≤ ring.written },
    ghost limits: { HasLimits ring },
}

impl Place for ListPlace {
    ghost seen = { λ place. place.reader.seen };

    fn open(alloc: Global, capacity: u64) -> Result<ListPlace, Fail> {
        Ok(ListPlace {
            ring: ListRing::open(alloc, capacity, SLOT)?,
            reader: ListReader::new(alloc)?,
        })
    }

    fn put(&mut self, record: &[u8]) -> Put {
        self.ring.put(record)
    }

    fn limits(&mut self) -> (u64, u64) {
        let mut eye = ListEye {
            reader: &mut self.reader,
            ring: &self.ring,
        };
        (eye.top(), eye.capacity())
    }

    fn reply(&mut self, alloc: Global, request: &GetFlowsRequest) -> Result<MemLink, OpenFault> {
        let Ok(mut reader) = ListReader::new(alloc) else {
            return Err(OpenFault::NoMemory);
        };
        let mut eye = ListEye {
            reader: &mut reader,
            ring: &self.ring,
        };
        reply_of(alloc, &mut eye, request, NAME)
    }

    fn turn(&mut self, session: &mut NodeSession, client: &mut Client) -> (Turn, u64) {
        let mut eye = ListEye {
            reader: &mut self.reader,
            ring: &self.ring,
        };
        turn_at(&mut eye, session, client)
    }

    fn finish(&mut self, session: &mut NodeSession, client: &mut Client) -> (Turn, u64) {
        let mut eye = ListEye {
            reader: &mut self.reader,
            ring: &self.ring,
        };
        finish_at(&mut eye, session, client)
    }
}
