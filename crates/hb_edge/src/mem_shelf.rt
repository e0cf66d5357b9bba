//! A shelf in memory, whose calls fail as planned.
ghost use Rattle.std.specs.Prelude.{◌≡◌, ◌≢◌, ◌<◌, [], ℕ, List, length, IfOk, IsOk, OnOk, OnErr, Some};
ghost use Rattle.hb_edge.specs.Shelf.{ShelvedWithin, ReadsFile};
ghost use Rattle.hb_edge.specs.MemShelf.{plain, file_of, file_answer, shelf_answer, shelf_after};

use crate::{NoMemory, Shelf, Shelved};
use std::alloc::Global;
use std::collections::BTreeMap;
use std::marker::Model;

/// Files that are kept in memory.
#[derive(Drop)]
pub struct MemShelf {
    alloc: Global,
    stored: BTreeMap<String, Vec<u8>>,
    fails: Vec<u64>,
    calls: u64,
    faults: u64,
}

impl Model for MemShelf {
    ghost use Rattle.hb_edge.specs.MemShelf.{ShelfState, plain};

    ghost Value = { ShelfState };

    ghost view = { λ s. record {
      stored = plain s.stored.entries;
      fails = s.fails.items;
      calls = s.calls;
      faults = s.faults;
    } };
}

impl MemShelf {
    /// A shelf with no file. No call is planned to fail.
    pub fn new(alloc: Global) -> Result<Self, NoMemory>
        ensures ok { IsOk result }
        ensures empty { IfOk result
            (λ s. s ≡ record { stored = []; fails = []; calls = 0; faults = 0 }) }
    {
        Ok(MemShelf {
            alloc,
            stored: BTreeMap::new(alloc),
            fails: Vec::new(alloc),
            calls: 0,
            faults: 0,
        })
    }

    /// From now on the calls of these numbers fail. Calls of `read` are numbered from 1.
    pub fn set_fail(&mut self, calls: &[u64]) -> Result<(), NoMemory>
        ensures ok { OnOk result (self.new ≡ record self.old { fails = calls.now }) }
        ensures err { OnErr result (self.new ≡ self.old) }
    {
        self.fails = calls.to_vec(self.alloc)?;
        Ok(())
    }

    /// Puts a file of this name, in the place of one that is there.
    pub fn put(&mut self, name: &str, bytes: &[u8]) -> Result<(), NoMemory>
        ensures ok { OnOk result (file_of self.new.stored name.now ≡ Some bytes.now) }
        ensures others { (q : List ℕ) → q ≢ name.now
            → file_of self.new.stored q ≡ file_of self.old.stored q }
        ensures kept { self.new ≡ record self.old { stored = self.new.stored } }
        ensures err { OnErr result (self.new ≡ self.old) }
    {
        let key = String::from_str(self.alloc, name)?;
        let file = bytes.to_vec(self.alloc)?;
        self.stored.insert(key, file)?;
        Ok(())
    }
}

impl Shelf for MemShelf {
    ghost files = { λ s. Some (file_of s.stored) };

    ghost faults = { λ s. s.faults };

    ghost answer = { shelf_answer };

    ghost after = { shelf_after };

    ghost Fixed = { Unit {0} };

    ghost fixed = { λ _. tt };

    fn read(&mut self, name: &str, at: u64, buf: &mut [u8]) -> Shelved {
        self.calls = self.calls.saturating_add(1);
        if self.fails.contains(&self.calls) {
            self.faults = self.faults.saturating_add(1);
            return Shelved::Failed;
        }
        match read_stored(&self.stored, name, at, buf) {
            Shelved::Failed => {
                self.faults = self.faults.saturating_add(1);
                Shelved::Failed
            }
            answer => answer,
        }
    }

    fn faults(&self) -> u64 {
        self.faults
    }
}

// Reads the file of this name, where there is one.
#[tactic(auto, using(crate::proofs::Stored::file_of_plain))]
fn read_stored(stored: &BTreeMap<String, Vec<u8>>, name: &str, at: u64, buf: &mut [u8]) -> Shelved
    requires { 0 < length buf.old }
    ensures answer { result
        ≡ file_answer (file_of (plain stored.now.entries) name.now) at (length buf.old) }
    ensures within { ShelvedWithin result (length buf.old) }
    ensures told { ReadsFile (file_of (plain stored.now.entries) name.now) at result buf.new }
{
    match stored.get(name) {
        None => Shelved::Failed,
        Some(file) => read_from(file.as_slice(), at, buf),
    }
}

// Copies as many bytes as the buffer and the file allow.
fn read_from(file: &[u8], at: u64, buf: &mut [u8]) -> Shelved
    requires { 0 < length buf.old }
    ensures answer { result ≡ file_answer (Some file.now) at (length buf.old) }
    ensures within { ShelvedWithin result (length buf.old) }
    ensures told { ReadsFile (Some file.now) at result buf.new }
{
    let at = at as usize;
    if file.len() <= at {
        return Shelved::End;
    }
    let rest = &file[at..];
    let size = rest.len().min(buf.len());
    buf[..size].copy_from_slice(&rest[..size]);
    Shelved::Took(size)
}
