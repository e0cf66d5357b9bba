//! A ring over threads.
ghost use Rattle.hb_ring.specs.Passes.{IsWriterOf, IsReaderOf};

use super::place::{Client, NAME, Place, SLOT, finish_at, turn_at};
use hb_api::GetFlowsRequest;
use hb_edge::MemLink;
use hb_look::{Keep, Look, Put};
use hb_ring::{ReaderPass, Ring, RingEye, RingPen, WriterPass};
use hb_session::{NodeSession, OpenFault, Turn, reply_of};
use std::alloc::Global;
use std::test::Fail;

/// A ring over threads, its writer and a reader.
#[derive(Drop)]
pub(crate) struct RingPlace {
    ring: Ring,
    writer: WriterPass,
    reader: ReaderPass,
    ghost writes: { IsWriterOf ring writer },
    ghost reads: { IsReaderOf ring reader },
}

impl Place for RingPlace {
    ghost seen = { λ place. place.reader.reader.finished.count };

    fn open(alloc: Global, capacity: u64) -> Result<RingPlace, Fail> {
        let (ring, mut writer) = Ring::open(alloc, capacity, SLOT as u64 / 8)?;
        let reader = ring.reader(&mut writer);
        Ok(RingPlace {
            ring,
            writer,
            reader,
        })
    }

    fn put(&mut self, record: &[u8]) -> Put {
        let mut pen = RingPen {
            ring: &self.ring,
            pass: &mut self.writer,
        };
        pen.put(record)
    }

    fn limits(&mut self) -> (u64, u64) {
        let mut eye = RingEye {
            ring: &self.ring,
            pass: &mut self.reader,
        };
        (eye.top(), eye.capacity())
    }

    fn reply(&mut self, alloc: Global, request: &GetFlowsRequest) -> Result<MemLink, OpenFault> {
        let mut reader = self.ring.reader(&mut self.writer);
        let mut eye = RingEye {
            ring: &self.ring,
            pass: &mut reader,
        };
        reply_of(alloc, &mut eye, request, NAME)
    }

    fn turn(&mut self, session: &mut NodeSession, client: &mut Client) -> (Turn, u64) {
        let mut eye = RingEye {
            ring: &self.ring,
            pass: &mut self.reader,
        };
        turn_at(&mut eye, session, client)
    }

    fn finish(&mut self, session: &mut NodeSession, client: &mut Client) -> (Turn, u64) {
        let mut eye = RingEye {
            ring: &self.ring,
            pass: &mut self.reader,
        };
        finish_at(&mut eye, session, client)
    }
}
