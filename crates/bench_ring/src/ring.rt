//! The ring, and its ends.
ghost use Rattle.std.specs.Prelude.{◌≡◌, ◌*◌, ◌≤◌};
ghost use Rattle.hb_ring.specs.Passes.{IsWriterOf, IsReaderOf};

use crate::run::{CAPACITY, LENGTH, Readers, Reads, Run, Writes, reader_job, run_all, writer_job};
use hb_look::{Looked, MOST_RECORDS, Put, Record};
use hb_ring::{ReaderPass, Ring, WriterPass};
use std::alloc::{AllocError, Global};
use std::io;
use std::thread::Threads;
use std::time::Clock;

/// How many words of eight bytes a slot has.
const SLOT_WORDS: u64 = 16;

/// The writer's pass beside its ring.
#[derive(Drop)]
struct RingWriter<'a> {
    ring: &'a Ring,
    pass: WriterPass,
    ghost of: { IsWriterOf ring.now pass },
}

impl Writes for RingWriter<'_> {
    fn write(&mut self, record: &[u8]) -> bool {
        self.ring.write(&mut self.pass, record) == Put::Done
    }
}

/// A reader's pass beside its ring, and a buffer.
#[derive(Drop)]
struct RingReader<'a> {
    ring: &'a Ring,
    pass: ReaderPass,
    out: Record,
    ghost of: { IsReaderOf ring.now pass },
    ghost room: { pass.reader.longest ≤ out.room },
}

impl Reads for RingReader<'_> {
    fn look(&mut self, position: u64) -> Looked {
        if position > MOST_RECORDS || self.pass.looked() == MOST_RECORDS {
            return Looked::NoMemory;
        }
        self.ring.look(&mut self.pass, position, 0, &mut self.out)
    }

    fn record(&self) -> &[u8] {
        self.out.bytes()
    }
}

/// Runs a case over a ring.
pub fn run<R: Threads + Clock + Sync>(
    rt: &R,
    alloc: Global,
    readers: Readers,
    records: u64,
) -> io::Result<Vec<Run>> {
    let (ring, mut pass) = Ring::open(alloc, CAPACITY, SLOT_WORDS).map_err(|_| AllocError)?;
    let ring = &ring;
    let mut jobs = Vec::new(alloc);
    for _ in 0..readers.count() {
        let reader = RingReader {
            ring,
            pass: ring.reader(&mut pass),
            out: Record::with_room(alloc, LENGTH).map_err(|_| AllocError)?,
        };
        jobs.push(reader_job(readers, reader))?;
    }
    jobs.push(writer_job(alloc, RingWriter { ring, pass })?)?;
    run_all(rt, alloc, records, jobs)
}
