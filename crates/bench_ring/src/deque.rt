//! The last records in a deque under a lock, and its ends.

use crate::run::{CAPACITY, Readers, Reads, Run, Writes, reader_job, run_all, writer_job};
use circular_buffer::HeapCircularBuffer;
use hb_look::Looked;
use std::alloc::{AllocError, Global};
use std::io;
use std::sync::{Mutex, Wait};
use std::thread::Threads;
use std::time::Clock;

/// The last records, and how many were written.
#[derive(Drop)]
struct Kept {
    alloc: Global,
    records: HeapCircularBuffer<Vec<u8>>,
    written: u64,
}

impl Kept {
    /// Pushes a copy of a record, in the place of the oldest where the deque is full.
    fn push(&mut self, record: &[u8]) -> Result<(), AllocError> {
        let mut copy = if self.records.is_full() {
            self.records.pop_front().unwrap_or(Vec::new(self.alloc))
        } else {
            Vec::new(self.alloc)
        };
        copy.clear();
        copy.extend_from_slice(record)?;
        self.records.push_back(copy);
        self.written = self.written.saturating_add(1);
        Ok(())
    }

    fn look(&self, position: u64, out: &mut Vec<u8>) -> Looked {
        let oldest = self.written.saturating_sub(self.records.len() as u64);
        if position < oldest {
            return Looked::Gone(oldest);
        }
        let Some(record) = self.records.get((position - oldest) as usize) else {
            return Looked::NotYet;
        };
        out.clear();
        match out.extend_from_slice(record) {
            Ok(()) => Looked::Got,
            Err(_) => Looked::NoMemory,
        }
    }
}

#[derive(Drop)]
struct DequeWriter<'a, R: Wait> {
    rt: &'a R,
    kept: &'a Mutex<Kept>,
}

impl<R: Wait> Writes for DequeWriter<'_, R> {
    fn write(&mut self, record: &[u8]) -> bool {
        self.kept.lock(self.rt).push(record).is_ok()
    }
}

/// A reader, and the record that it got last.
#[derive(Drop)]
struct DequeReader<'a, R: Wait> {
    rt: &'a R,
    kept: &'a Mutex<Kept>,
    out: Vec<u8>,
}

impl<R: Wait> Reads for DequeReader<'_, R> {
    fn look(&mut self, position: u64) -> Looked {
        self.kept.lock(self.rt).look(position, &mut self.out)
    }

    fn record(&self) -> &[u8] {
        &self.out
    }
}

/// Runs a case over a deque.
pub fn run<R: Threads + Wait + Clock + Sync>(
    rt: &R,
    alloc: Global,
    readers: Readers,
    records: u64,
) -> io::Result<Vec<Run>> {
    let kept = Mutex::new(Kept {
        alloc,
        records: HeapCircularBuffer::with_capacity(alloc, CAPACITY as usize)?,
        written: 0,
    });
    run_on(rt, alloc, &kept, readers, records)
}

/// The same, over a deque that is open.
fn run_on<'a, R: Threads + Wait + Clock + Sync>(
    rt: &'a R,
    alloc: Global,
    kept: &'a Mutex<Kept>,
    readers: Readers,
    records: u64,
) -> io::Result<Vec<Run>> {
    let mut jobs = Vec::new(alloc);
    for _ in 0..readers.count() {
        let reader = DequeReader {
            rt,
            kept,
            out: Vec::new(alloc),
        };
        jobs.push(reader_job(readers, reader))?;
    }
    jobs.push(writer_job(alloc, DequeWriter { rt, kept })?)?;
    run_all(rt, alloc, records, jobs)
}
