//! A link in memory, whose calls fail as planned.
ghost use Rattle.std.specs.Prelude.{◌≡◌, ◌↔◌, ◌≤◌, ◌<◌, ◌-◌, ◌^◌, ◌++◌, [], length, take, drop, min, IfOk, IsOk, OnOk, OnErr, Some, true, false};
ghost use Rattle.hb_edge.specs.Link.{ReadWithin};
ghost use Rattle.hb_edge.specs.MemLink.{ReadsFront, front_answer, shown, answer, after};

use crate::{Link, Moved, NoMemory};
use std::alloc::Global;
use std::marker::Model;

/// Keeps what is written to it, so that it can be compared, and gives what it was supplied with.
#[derive(Drop)]
pub struct MemLink {
    alloc: Global,
    taken: Vec<u8>,
    supplied: Vec<u8>,
    place: usize,
    ended: bool,
    held: bool,
    most: usize,
    fails: Vec<u64>,
    calls: u64,
    faults: u64,
    read_waits: u64,
    write_waits: u64,
    refusals: u64,
    key: u64,
}

impl Model for MemLink {
    ghost use Rattle.std.specs.Prelude.{◌≤◌, length, drop};
    ghost use Rattle.hb_edge.specs.MemLink.{LinkState};

    ghost Value = { LinkState };

    ghost view = { λ s. record {
      taken = s.taken.items;
      unread = drop s.place s.supplied.items;
      ended = s.ended;
      held = s.held;
      most = s.most;
      fails = s.fails.items;
      calls = s.calls;
      faults = s.faults;
      read_waits = s.read_waits;
      write_waits = s.write_waits;
      refusals = s.refusals;
      key = s.key;
    } };

    ghost invariant = { λ s. (1 ≤ s.most) × (s.place ≤ length s.supplied.items) };
}

impl MemLink {
    /// A link with this key that takes whole pieces. Nothing waits to be read, its far side has
    /// not ended, and no call is planned to fail.
    pub fn new(alloc: Global, key: u64) -> Result<Self, NoMemory>
        ensures ok { IsOk result }
        ensures empty { IfOk result
            (λ s. s ≡ record {
              taken = [];
              unread = [];
              ended = false;
              held = false;
              most = 2 ^ 64 - 1;
              fails = [];
              calls = 0;
              faults = 0;
              read_waits = 0;
              write_waits = 0;
              refusals = 0;
              key = key;
            }) }
    {
        Ok(MemLink {
            alloc,
            taken: Vec::new(alloc),
            supplied: Vec::new(alloc),
            place: 0,
            ended: false,
            held: false,
            most: usize::MAX,
            fails: Vec::new(alloc),
            calls: 0,
            faults: 0,
            read_waits: 0,
            write_waits: 0,
            refusals: 0,
            key,
        })
    }

    /// From now on the calls of these numbers fail. Calls of `poll_read` and `poll_write` are
    /// numbered together from 1.
    pub fn set_fail(&mut self, calls: &[u64]) -> Result<(), NoMemory>
        ensures ok { OnOk result (self.new ≡ record self.old { fails = calls.now }) }
        ensures err { OnErr result (self.new ≡ self.old) }
    {
        self.fails = calls.to_vec(self.alloc)?;
        Ok(())
    }

    /// From now on a read or a write moves at most this many bytes.
    pub fn set_piece(&mut self, most: usize)
        requires { 1 ≤ most }
        ensures piece { self.new ≡ record self.old { most = most } }
    {
        self.most = most;
    }

    /// From now on writes have to wait, or no longer.
    pub fn set_held(&mut self, held: bool)
        ensures held { self.new ≡ record self.old { held = held } }
    {
        self.held = held;
    }

    /// Puts these bytes behind those that wait to be read.
    pub fn supply(&mut self, bytes: &[u8]) -> Result<(), NoMemory>
        ensures ok { OnOk result
            (self.new ≡ record self.old { unread = self.old.unread ++ bytes.now }) }
        ensures err { OnErr result (self.new ≡ self.old) }
    {
        self.supplied.extend_from_slice(bytes)?;
        Ok(())
    }

    /// Ends the far side: once all is read, reads answer that the end is there.
    pub fn end(&mut self)
        ensures ended { self.new ≡ record self.old { ended = true } }
    {
        self.ended = true;
    }

    /// All bytes that were written to it so far.
    pub fn sent(&self) -> &[u8]
        ensures bytes { result.now ≡ self.now.taken }
    {
        &self.taken
    }

    /// Whether memory was ever refused to it.
    pub fn starved(&self) -> bool
        ensures value { (result ≡ true) ↔ (0 < self.now.refusals) }
    {
        0 < self.refusals
    }

    // The bytes that were read wait no longer. The place moves on, so that what is left behind it
    // is not moved.
    fn pass(&mut self, size: usize)
        requires { size ≤ length self.old.unread }
        ensures left { self.new ≡ record self.old { unread = drop size self.old.unread } }
    {
        self.place += size;
        if self.place == self.supplied.len() {
            self.supplied.clear();
            self.place = 0;
        }
    }
}

impl Link for MemLink {
    ghost use Rattle.std.specs.Prelude.{ℕ, Bool, List};

    ghost held = { λ s. Some (record { taken = s.taken; unread = s.unread; ended = s.ended }) };

    ghost shown = { shown };

    ghost answer = { answer };

    ghost after = { after };

    ghost Fixed = { ℕ × List ℕ × Bool };

    ghost fixed = { λ s. (s.most, s.fails, s.held) };

    fn poll_read(&mut self, buf: &mut [u8]) -> Moved {
        self.calls = self.calls.saturating_add(1);
        if self.fails.contains(&self.calls) {
            self.faults = self.faults.saturating_add(1);
            return Moved::Failed;
        }
        let answer = read_front(&self.supplied[self.place..], self.ended, self.most, buf);
        match answer {
            Moved::Took(size) => self.pass(size),
            Moved::NotYet => self.read_waits = self.read_waits.saturating_add(1),
            Moved::End | Moved::Failed => {}
        }
        answer
    }

    fn poll_write(&mut self, piece: &[u8]) -> Moved {
        self.calls = self.calls.saturating_add(1);
        if self.fails.contains(&self.calls) {
            self.faults = self.faults.saturating_add(1);
            return Moved::Failed;
        }
        if self.held {
            self.write_waits = self.write_waits.saturating_add(1);
            return Moved::NotYet;
        }
        let size = piece.len().min(self.most);
        if self.taken.extend_from_slice(&piece[..size]).is_err() {
            self.faults = self.faults.saturating_add(1);
            self.refusals = self.refusals.saturating_add(1);
            return Moved::Failed;
        }
        Moved::Took(size)
    }

    fn faults(&self) -> u64 {
        self.faults
    }

    fn read_waits(&self) -> u64 {
        self.read_waits
    }

    fn write_waits(&self) -> u64 {
        self.write_waits
    }

    fn key(&self) -> u64 {
        self.key
    }
}

// Copies as many of these bytes as the buffer and the greatest piece allow.
fn read_front(unread: &[u8], ended: bool, most: usize, buf: &mut [u8]) -> Moved
    requires room { 0 < length buf.old }
    requires piece { 1 ≤ most }
    ensures answer { result ≡ front_answer unread.now ended (min (length buf.old) most) }
    ensures within { ReadWithin result (length buf.old) }
    ensures room { length buf.new ≡ length buf.old }
    ensures told { ReadsFront unread.now ended result buf.new }
{
    if unread.is_empty() {
        return if ended { Moved::End } else { Moved::NotYet };
    }
    let size = unread.len().min(buf.len().min(most));
    buf[..size].copy_from_slice(&unread[..size]);
    Moved::Took(size)
}
