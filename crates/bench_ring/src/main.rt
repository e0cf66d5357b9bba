//! One writer of records beside its readers, each in a thread of its own: over the lock-free ring, and
//! over a deque under a lock. With a word, as `ring-3`, it runs that case and prints a line for each
//! thread, the writer's last: how many records it got or wrote, how many it lost, and its nanoseconds.
//! With no word it runs each case over few records, and prints how many each thread came past.
//! `scripts/bench` times it.
#![tactic(auto)]

mod deque;
mod ring;
mod run;

use crate::run::{Readers, Run};
use std::alloc::Global;
use std::io::{ErrorKind, Print};
use std::sync::Wait;
use std::thread::Threads;
use std::time::Clock;
use std::{env, io};

/// How many records a case writes that is timed.
const MANY: u64 = 5_000_000;

/// How many a case writes that is not.
const FEW: u64 = 10_000;

/// What is written to.
#[derive(Clone, Copy)]
enum Store {
    Ring,
    Deque,
}

/// The cases and their words.
const CASES: [(&str, Store, Readers); 8] = [
    ("ring-0", Store::Ring, Readers::Reading(0)),
    ("ring-1", Store::Ring, Readers::Reading(1)),
    ("ring-3", Store::Ring, Readers::Reading(3)),
    ("ring-still", Store::Ring, Readers::Still),
    ("deque-0", Store::Deque, Readers::Reading(0)),
    ("deque-1", Store::Deque, Readers::Reading(1)),
    ("deque-3", Store::Deque, Readers::Reading(3)),
    ("deque-still", Store::Deque, Readers::Still),
];

/// Runs a case.
fn run_case<R: Threads + Wait + Clock + Sync>(
    rt: &R,
    alloc: Global,
    store: Store,
    readers: Readers,
    records: u64,
) -> io::Result<Vec<Run>> {
    match store {
        Store::Ring => ring::run(rt, alloc, readers, records),
        Store::Deque => deque::run(rt, alloc, readers, records),
    }
}

/// Runs the case of a word over many records.
fn time_case<R: Threads + Wait + Clock + Print + Sync>(
    rt: &R,
    alloc: Global,
    word: &str,
) -> io::Result<()> {
    for (name, store, readers) in CASES {
        if name != word {
            continue;
        }
        for run in run_case(rt, alloc, store, readers, MANY)? {
            println!(rt; "{} {} {}", run.got, run.lost, run.nanos)?;
        }
        return Ok(());
    }
    Err(ErrorKind::InvalidInput.into())
}

/// Runs each case over few records.
fn try_cases<R: Threads + Wait + Clock + Print + Sync>(rt: &R, alloc: Global) -> io::Result<()> {
    for (name, store, readers) in CASES {
        print!(rt; "{name}:")?;
        for run in run_case(rt, alloc, store, readers, FEW)? {
            print!(rt; " {}", run.got.saturating_add(run.lost))?;
        }
        println!(rt; "")?;
    }
    Ok(())
}

fn main(rt: HostRuntime) -> io::Result<()> {
    match env::args(&rt)?.nth(1) {
        Some(word) => time_case(&rt, rt.alloc(), &word),
        None => try_cases(&rt, rt.alloc()),
    }
}
