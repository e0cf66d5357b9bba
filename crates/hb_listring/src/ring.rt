//! `ListRing`: the last records of a log, by their positions.
ghost use Rattle.std.specs.Prelude.{◌≡◌, ℕ, ◌≤◌, List, [], length, IfOk};
ghost use Rattle.hb_look.specs.Limits.{longest_record, most_records, largest_capacity, IsCapacity, IsSlot};
ghost use Rattle.hb_listring.specs.Log.{StandsFor, HasLimits};
ghost use Rattle.hb_listring.specs.Places.{IsFoundIn};
ghost use Rattle.hb_listring.specs.Found.{found_in};

use bytes::Bytes;
use circular_buffer::HeapCircularBuffer;
use hb_look::{Keep, MOST_RECORDS, NoMemory, Put};
use std::alloc::Global;
use std::marker::Model;

/// The last records of a log, in memory. A record is a list of bytes, and its position is its index
/// among all records that were ever put, from 0 on.
#[derive(Drop)]
pub struct ListRing {
    records: HeapCircularBuffer<Bytes>,
    written: u64,
    slot_bytes: usize,
    alloc: Global,
}

impl Model for ListRing {
    ghost use Rattle.std.specs.Prelude.{◌≡◌, ◌+◌, ◌-◌, ◌≤◌, length, min};
    ghost use Rattle.std.specs.List.{All};
    ghost use Rattle.hb_look.specs.Limits.{longest_record, most_records, largest_capacity};
    ghost use Rattle.hb_listring.specs.Log.{Kept};

    ghost Value = { Kept };

    ghost view = { λ r. record {
      capacity = r.records.capacity - 1;
      slot = r.slot_bytes;
      written = r.written;
      records = r.records.items;
    } };

    ghost invariant = { λ r. (1 ≤ r.records.capacity)
        × (r.records.capacity ≤ largest_capacity + 1)
        × (r.slot_bytes ≤ longest_record) × (r.written ≤ most_records)
        × (length r.records.items ≡ min r.written r.records.capacity)
        × All (λ bytes. length bytes ≤ r.slot_bytes) r.records.items };
}

/// What a ring has at a position.
#[derive(Clone, Copy)]
pub(crate) enum Place<'a> {
    /// This record.
    Held(&'a Bytes),
    /// A record that was overwritten. The first that is held is at this position.
    Overwritten(u64),
    /// None yet.
    Unwritten,
}

impl ListRing {
    /// An empty ring that holds the last `cap + 1` records, each of at most `slot_bytes` bytes. The
    /// memory of the records themselves is taken as they are put.
    pub fn open(alloc: Global, cap: u64, slot_bytes: usize) -> Result<ListRing, NoMemory>
        requires capacity { IsCapacity cap }
        requires slot { IsSlot slot_bytes }
        ensures stands { IfOk result (λ ring. StandsFor ring []) }
        ensures capacity { IfOk result (λ ring. ring.capacity ≡ cap) }
        ensures slot { IfOk result (λ ring. ring.slot ≡ slot_bytes) }
        ensures limits { IfOk result HasLimits }
    {
        let Ok(records) = HeapCircularBuffer::with_capacity(alloc, cap as usize + 1) else {
            return Err(NoMemory);
        };
        Ok(ListRing {
            records,
            written: 0,
            slot_bytes,
            alloc,
        })
    }

    /// How many records were ever put, which is the position of the next one.
    pub fn written(&self) -> u64
        ensures written { result ≡ self.now.written }
        ensures log { (log : List (List ℕ)) → StandsFor self.now log → length log ≡ result }
        ensures most { result ≤ most_records }
        ensures limits { HasLimits self.now }
    {
        self.written
    }

    /// How many of the last records it keeps, beside the one that is overwritten next.
    pub(crate) fn capacity(&self) -> u64
        ensures capacity { result ≡ self.now.capacity }
    {
        self.records.capacity() as u64 - 1
    }

    /// What a position has, in place.
    pub(crate) fn place(&self, position: u64) -> Place<'_>
        ensures { IsFoundIn self.now position (found_in result) }
    {
        if position >= self.written {
            return Place::Unwritten;
        }
        let first = self.written - self.records.len() as u64;
        if position < first {
            return Place::Overwritten(first);
        }
        match self.records.get((position - first) as usize) {
            Some(record) => Place::Held(record),
            None => unreachable!(),
        }
    }
}

impl Keep for ListRing {
    ghost use Rattle.std.specs.Prelude.{ℕ};
    ghost use Rattle.std.proofs.Common.{sym};
    ghost use Rattle.hb_listring.specs.Log.{StandsFor};

    ghost stands_for = { StandsFor };

    ghost written = { λ r. r.written };

    ghost longest = { λ r. r.slot };

    ghost takes_memory = { λ r. Unit {0} };

    ghost Fixed = { ℕ × ℕ };

    ghost fixed = { λ r. (r.capacity, r.slot) };

    /// Puts a copy of the record at the next position. The oldest record makes room for it where
    /// `cap + 1` are held. The cost is that of the copy, whatever was put before.
    fn put(&mut self, bytes: &[u8]) -> Put {
        if bytes.len() > self.slot_bytes {
            return Put::TooLong;
        }
        if self.written == MOST_RECORDS {
            return Put::Spent;
        }
        let Ok(record) = Bytes::copy_from_slice(self.alloc, bytes) else {
            return Put::NoMemory;
        };
        self.records.push_back(record);
        self.written += 1;
        Put::Done
    }

    ghost counts = { λ ring log stands. sym stands.0 };
}
