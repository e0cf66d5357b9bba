//! What each thread of a case does, and what it comes to.

use hb_look::Looked;
use std::alloc::{AllocError, Global};
use std::io;
use std::sync::atomic::{AtomicBool, Ordering};
use std::thread::{Threads, map_vec, sleep, yield_now};
use std::time::{Clock, Duration, Instant};

/// The length of a record, in bytes.
pub const LENGTH: usize = 128;

/// How many records are kept.
pub const CAPACITY: u64 = 4_095;

/// How many looks a reader makes at most, before it gives up.
const LOOKS: u64 = 1 << 33;

/// How often a reader that stands still asks whether the writer is done, before it gives up.
const NAPS: u64 = 1 << 16;

/// The readers beside the writer.
#[derive(Clone, Copy)]
pub enum Readers {
    /// So many that read on until they have passed the last record.
    Reading(usize),
    /// One that makes one look, and then none until the writer is done.
    Still,
}

impl Readers {
    pub fn count(self) -> usize {
        match self {
            Readers::Reading(count) => count,
            Readers::Still => 1,
        }
    }
}

/// A writer's end.
pub trait Writes {
    /// Writes a record, and tells whether there was room for it.
    fn write(&mut self, record: &[u8]) -> bool;
}

/// A reader's end.
pub trait Reads {
    /// Looks at a position.
    fn look(&mut self, position: u64) -> Looked;

    /// The record that the last look got.
    fn record(&self) -> &[u8];
}

/// The job of a thread.
#[derive(Drop)]
pub enum Job<W, E> {
    /// With the bytes of a record.
    Write(W, Vec<u8>),
    Read(E),
    /// Of the reader that stands still.
    ReadLate(E),
}

/// What a thread came to.
#[derive(Clone, Copy, Debug, Default, PartialEq, Eq)]
pub struct Run {
    /// Where a reader looks next.
    next: u64,
    /// How many records it wrote, or got that begin with their own positions.
    pub got: u64,
    /// How many were overwritten before it came to them.
    pub lost: u64,
    pub nanos: u64,
}

impl Run {
    /// Counts what one look found.
    fn add(&mut self, looked: Looked, record: &[u8]) {
        match looked {
            Looked::Got => {
                let is_own = record.starts_with(&self.next.to_le_bytes());
                self.got = self.got.saturating_add(u64::from(is_own));
                self.next = self.next.saturating_add(1);
            }
            Looked::Gone(to) => {
                self.lost = self.lost.saturating_add(to.saturating_sub(self.next));
                self.next = to;
            }
            Looked::NotYet | Looked::NoMemory => {}
        }
    }
}

/// The job of the writer.
pub fn writer_job<W: Drop, E>(alloc: Global, writer: W) -> Result<Job<W, E>, AllocError> {
    Ok(Job::Write(writer, vec![in alloc; 7; LENGTH]?))
}

/// The job of a reader.
pub fn reader_job<W, E>(readers: Readers, reader: E) -> Job<W, E> {
    match readers {
        Readers::Reading(_) => Job::Read(reader),
        Readers::Still => Job::ReadLate(reader),
    }
}

/// Writes the records, each of which begins with its own position.
fn write_all<R: Clock, W: Writes + Drop>(
    rt: &R,
    records: u64,
    is_written: &AtomicBool,
    mut writer: W,
    mut record: Vec<u8>,
) -> io::Result<Run> {
    let mut run = Run::default();
    let start = Instant::now(rt)?;
    for position in 0..records {
        if let Some(front) = record.first_chunk_mut() {
            *front = position.to_le_bytes();
        }
        let is_done = writer.write(&record);
        run.got = run.got.saturating_add(u64::from(is_done));
    }
    run.nanos = nanos_since(rt, start)?;
    is_written.store(true, Ordering::SeqCst);
    Ok(run)
}

/// Reads on until the last record was got or lost.
fn read_on<R: Clock, E: Reads + Drop>(
    rt: &R,
    records: u64,
    mut reader: E,
    mut run: Run,
) -> io::Result<Run> {
    let start = Instant::now(rt)?;
    for _ in 0..LOOKS {
        if run.next >= records {
            break;
        }
        let looked = reader.look(run.next);
        if looked == Looked::NotYet {
            yield_now();
        }
        run.add(looked, reader.record());
    }
    run.nanos = nanos_since(rt, start)?;
    Ok(run)
}

/// Makes one look, and reads on once all is written.
fn read_late<R: Clock, E: Reads + Drop>(
    rt: &R,
    records: u64,
    is_written: &AtomicBool,
    mut reader: E,
) -> io::Result<Run> {
    let mut run = Run::default();
    let looked = reader.look(0);
    run.add(looked, reader.record());
    for _ in 0..NAPS {
        if is_written.load(Ordering::SeqCst) {
            break;
        }
        sleep(rt, Duration::from_millis(1));
    }
    read_on(rt, records, reader, run)
}

fn nanos_since<R: Clock>(rt: &R, start: Instant) -> io::Result<u64> {
    let taken = start.elapsed(rt)?;
    Ok(
        taken
            .as_secs()
            .saturating_mul(1_000_000_000)
            .saturating_add(u64::from(taken.subsec_nanos())),
    )
}

/// Does the jobs, each in a thread of its own. The writer's stands last: where no thread can be made,
/// it is done first.
pub fn run_all<R: Threads + Clock + Sync, W: Writes + Send + Drop, E: Reads + Send + Drop>(
    rt: &R,
    alloc: Global,
    records: u64,
    jobs: Vec<Job<W, E>>,
) -> io::Result<Vec<Run>> {
    let is_written = AtomicBool::new(false);
    let runs = map_vec(
        rt,
        jobs,
        &|job| match job {
            Job::Write(writer, record) => write_all(rt, records, &is_written, writer, record),
            Job::Read(reader) => read_on(rt, records, reader, Run::default()),
            Job::ReadLate(reader) => read_late(rt, records, &is_written, reader),
        },
    )?;
    runs.into_iter().try_collect(alloc)
}
