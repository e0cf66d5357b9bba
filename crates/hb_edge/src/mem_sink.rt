//! A sink in memory, whose calls fail as planned.
ghost use Rattle.std.specs.Prelude.{◌≡◌, ◌↔◌, ◌<◌, ◌≤◌, ◌-◌, ◌^◌, [], IfOk, IsOk, OnOk, OnErr, Some, true};
ghost use Rattle.hb_edge.specs.MemSink.{sink_answer, sink_after};

use crate::{NoMemory, Sink, Sunk};
use std::alloc::Global;
use std::marker::Model;

/// Keeps what is written to it, so that it can be compared.
#[derive(Drop)]
pub struct MemSink {
    alloc: Global,
    bytes: Vec<u8>,
    most: usize,
    fails: Vec<u64>,
    calls: u64,
    faults: u64,
    refusals: u64,
}

impl Model for MemSink {
    ghost use Rattle.std.specs.Prelude.{◌≤◌};
    ghost use Rattle.hb_edge.specs.MemSink.{SinkState};

    ghost Value = { SinkState };

    ghost view = { λ s. record {
      bytes = s.bytes.items;
      most = s.most;
      fails = s.fails.items;
      calls = s.calls;
      faults = s.faults;
      refusals = s.refusals;
    } };

    ghost invariant = { λ s. 1 ≤ s.most };
}

impl MemSink {
    /// A sink that holds nothing. No call is planned to fail, and a write takes its whole piece.
    pub fn new(alloc: Global) -> Result<Self, NoMemory>
        ensures ok { IsOk result }
        ensures empty { IfOk result
            (λ s. s ≡ record {
              bytes = [];
              most = 2 ^ 64 - 1;
              fails = [];
              calls = 0;
              faults = 0;
              refusals = 0;
            }) }
    {
        Ok(MemSink {
            alloc,
            bytes: Vec::new(alloc),
            most: usize::MAX,
            fails: Vec::new(alloc),
            calls: 0,
            faults: 0,
            refusals: 0,
        })
    }

    /// From now on the calls of these numbers fail. Calls of `write` are numbered from 1.
    pub fn set_fail(&mut self, calls: &[u64]) -> Result<(), NoMemory>
        ensures ok { OnOk result (self.new ≡ record self.old { fails = calls.now }) }
        ensures err { OnErr result (self.new ≡ self.old) }
    {
        self.fails = calls.to_vec(self.alloc)?;
        Ok(())
    }

    /// From now on a write takes at most this many bytes.
    pub fn set_piece(&mut self, most: usize)
        requires { 1 ≤ most }
        ensures piece { self.new ≡ record self.old { most = most } }
    {
        self.most = most;
    }

    /// The bytes that it took so far.
    pub fn sent(&self) -> &[u8]
        ensures bytes { result.now ≡ self.now.bytes }
    {
        &self.bytes
    }

    /// Whether memory was ever refused to it.
    pub fn starved(&self) -> bool
        ensures value { (result ≡ true) ↔ (0 < self.now.refusals) }
    {
        0 < self.refusals
    }
}

impl Sink for MemSink {
    ghost use Rattle.std.specs.Prelude.{ℕ, List};

    ghost held = { λ s. Some s.bytes };

    ghost faults = { λ s. s.faults };

    ghost refusals = { λ s. s.refusals };

    ghost answer = { sink_answer };

    ghost after = { sink_after };

    ghost Fixed = { ℕ × List ℕ };

    ghost fixed = { λ s. (s.most, s.fails) };

    fn write(&mut self, piece: &[u8]) -> Sunk {
        self.calls = self.calls.saturating_add(1);
        if self.fails.contains(&self.calls) {
            self.faults = self.faults.saturating_add(1);
            return Sunk::Failed;
        }
        let size = piece.len().min(self.most);
        if self.bytes.extend_from_slice(&piece[..size]).is_err() {
            self.faults = self.faults.saturating_add(1);
            self.refusals = self.refusals.saturating_add(1);
            return Sunk::Failed;
        }
        Sunk::Took(size)
    }

    fn faults(&self) -> u64 {
        self.faults
    }
}
