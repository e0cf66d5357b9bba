//! Events into a ring, as text.
ghost use Rattle.std.specs.Prelude.{◌≡◌, ◌≤◌, IfOk};
ghost use Rattle.hb_look.specs.Limits.{most_records};
ghost use Rattle.hb_listring.specs.Log.{HasLimits};

use super::*;
use hb_cases::{bytes, digits, message, number, rows};
use hb_flow::event_of;
use hb_listring::{ListEye, ListReader, ListRing};
use hb_look::{Look, Looked, Record};
use std::alloc::Global;
use std::test::*;

/// An empty ring of capacity 1, 3 or 7.
fn ring_of(alloc: Global, capacity: u64, slot: usize) -> Result<ListRing, Fail>
    ensures slot { IfOk result (λ ring. (slot ≡ ring.slot) × (64 ≤ slot)) }
    ensures limits { IfOk result HasLimits }
{
    if slot % 8 != 0 || slot < 64 || slot > 65_024 {
        return Err("no slot".into());
    }
    match capacity {
        1 => Ok(ListRing::open(alloc, 1, slot)?),
        3 => Ok(ListRing::open(alloc, 3, slot)?),
        7 => Ok(ListRing::open(alloc, 7, slot)?),
        _ => Err("no capacity".into()),
    }
}

/// Gives the event of a message to a ring, and tells what became of it.
fn ingested(
    alloc: Global,
    ring: &mut ListRing,
    slot: usize,
    words: &str,
) -> Result<&'static str, Fail>
    requires slot { (slot ≡ ring.old.slot) × (64 ≤ slot) }
    ensures limits { (ring.new.capacity ≡ ring.old.capacity)
        × (ring.new.slot ≡ ring.old.slot) }
{
    let read = event_of(alloc, message(alloc, words)?.as_slice());
    let event = read.ok().ok_or("a message")?.ok_or("an event")?;
    // What it holds is overwritten.
    let mut scratch = bytes(alloc, "75*3")?;
    match ingest(alloc, &event, ring, slot, &mut scratch) {
        Ingested::Kept => Ok("kept"),
        Ingested::Oversize => Ok("oversize"),
        Ingested::Spent => Err("it has room for more".into()),
        Ingested::NoMemory => Err("there is memory".into()),
    }
}

/// The record that a ring has at a position, if any.
fn record_at(
    alloc: Global,
    ring: &ListRing,
    slot: usize,
    position: u64,
) -> Result<Option<Vec<u8>>, Fail>
    requires slot { slot ≡ ring.now.slot }
    requires limits { HasLimits ring.now }
    requires place { position ≤ most_records }
{
    let mut reader = ListReader::new(alloc)?;
    let mut out = Record::with_room(alloc, slot)?;
    let mut eye = ListEye {
        reader: &mut reader,
        ring,
    };
    match eye.look(position, 0, &mut out) {
        Looked::Got => Ok(Some(out.bytes().to_vec(alloc)?)),
        Looked::Gone(_) => Ok(None),
        Looked::NotYet => Err("a record".into()),
        Looked::NoMemory => Err("there is memory".into()),
    }
}

/// Slots, messages, and the records that a ring has of their events. `10ffffffff0f` is a verdict of -1,
/// which takes ten bytes anew, as a source of -1 does (`08ffffffff0f`). `1a0408021001` is one event lost at
/// Cilium's `OBSERVER_EVENTS_QUEUE`, which stands for an event whose record is too long.
const EVENTS: &str = "
    # a flow and lost events, which have the time of their response
    64 | 0a0a 0a020801 1001 92020130, c23e0178 ca3e020802 | kept | 0a0a 0a020801 1001 92020130
    64 | 1a021005, c23e0178 ca3e020802 | kept | 1a021005 ca3e020802
    # up to 64 bytes, and one more: a flow, one of a time, and lost events without a time and with one
    64 | 9202: 59 letters, all in 0a | kept | 9202: 59 letters, all in 0a
    64 | 9202: 60 letters, all in 0a | oversize | 1a0408021001
    64 | 0a020801, 9202: 55 letters, all in 0a, ca3e020801 | kept | 0a020801, 9202: 55 letters, all in 0a
    64 | 0a020801, 9202: 56 letters, all in 0a | oversize | 1a0408021001 ca3e020801
    64 | 22: 60 letters, all in 1a | kept | 22: 60 letters, all in 1a
    64 | 22: 61 letters, all in 1a | oversize | 1a0408021001
    64 | 22: 55 letters, all in 1a, ca3e020801 | kept | 22: 55 letters, all in 1a, ca3e020801
    64 | 22: 56 letters, all in 1a, ca3e020801 | oversize | 1a0408021001 ca3e020801
    # far longer; a time of the response is that of lost events, and of no flow
    64 | 0a020801 1001, 9202: 100 letters, all in 0a | oversize | 1a0408021001 ca3e020801
    64 | 9202: 100 letters, all in 0a | oversize | 1a0408021001
    64 | 9202: 100 letters, all in 0a, ca3e020801 | oversize | 1a0408021001
    64 | 22: 100 letters, all in 1a | oversize | 1a0408021001
    64 | 0801 1009 1a020803, 22: 100 letters, all in 1a, ca3e020801 | oversize | 1a0408021001 ca3e020801
    # slots of other sizes
    72 | 9202: 67 letters, all in 0a | kept | 9202: 67 letters, all in 0a
    72 | 9202: 68 letters, all in 0a | oversize | 1a0408021001
    65024 | 9202: 65015 letters, all in 0a | kept | 9202: 65015 letters, all in 0a
    65024 | 9202: 65016 letters, all in 0a | oversize | 1a0408021001
    8192 | 9202: 8185 letters, all in 0a | kept | 9202: 8185 letters, all in 0a
    8192 | 9202: 8186 letters, all in 0a | oversize | 1a0408021001
    8192 | 3a: 8186 letters, all in 0a | kept | 3a: 8186 letters, all in 0a
    8192 | 3a: 8187 letters, all in 0a | oversize | 1a0408021001
    8192 | 22: 8181 letters, all in 1a, ca3e020801 | kept | 22: 8181 letters, all in 1a, ca3e020801
    8192 | 22: 8182 letters, all in 1a, ca3e020801 | oversize | 1a0408021001 ca3e020801
    # it goes by the length of the record, and not by that of the message
    8192 | 10ffffffff0f, 9202: 8174 letters, all in 0a | kept | 10 ff*9 01, 9202: 8174 letters, all in 0a
    8192 | 10ffffffff0f, 9202: 8175 letters, all in 0a | oversize | 1a0408021001
    8192 | 10ffffffff0f, 3a: 8175 letters, all in 0a | kept | 10 ff*9 01, 3a: 8175 letters, all in 0a
    8192 | 10ffffffff0f, 3a: 8176 letters, all in 0a | oversize | 1a0408021001
    8192 | 10ffffffff0f, 9202: 65516 letters, all in 0a | oversize | 1a0408021001
    8192 | 10ffffffff0f, 3a: 65517 letters, all in 0a | oversize | 1a0408021001
    8192 | 08ffffffff0f, 22: 65517 letters, all in 1a | oversize | 1a0408021001
    8192 | 08ffffffff0f, 22: 65512 letters, all in 1a, ca3e020801 | oversize | 1a0408021001 ca3e020801
    # 5,000 verdicts are one
    8192 | 1001*5000, all in 0a | kept | 0a021001
    # what two flows of one message hold is in one record: of 8,191 bytes, and of 8,193
    8192 | 3a: 4091 letters, all in 0a, twice | kept | 3a: 4091 letters, twice, all in 0a
    8192 | 3a: 4092 letters, all in 0a, twice | oversize | 1a0408021001
";

#[test]
fn an_event_has_a_record(rt: HostRuntime) -> Result<(), Fail> {
    for row in &rows(rt.alloc(), EVENTS)? {
        let slot = number(row.cell(0))?;
        let mut ring = ring_of(rt.alloc(), 1, slot)?;
        let told = ingested(rt.alloc(), &mut ring, slot, row.cell(1))?;
        assert_eq!(rt; (told, ring.written()), (row.cell(2), 1), "{row}");
        let want = message(rt.alloc(), row.cell(3))?;
        assert_eq!(rt; record_at(rt.alloc(), &ring, slot, 0)?, Some(want), "{row}");
    }
    Ok(())
}

/// Gives the events of messages, which are parted by `;`, to a ring, and tells what became of them.
fn all_ingested(
    alloc: Global,
    ring: &mut ListRing,
    slot: usize,
    messages: &str,
) -> Result<String, Fail>
    requires slot { (slot ≡ ring.old.slot) × (64 ≤ slot) }
    ensures limits { (ring.new.capacity ≡ ring.old.capacity)
        × (ring.new.slot ≡ ring.old.slot) }
{
    let mut told = String::new(alloc);
    for words in messages.split(';') {
        told.push_str(ingested(alloc, ring, slot, words)?)?;
        told.push_str(" ")?;
    }
    Ok(told)
}

/// What a ring has, from position 0 on: its records in hexadecimal, or `gone`.
fn records_of(alloc: Global, ring: &ListRing, slot: usize) -> Result<String, Fail>
    requires slot { slot ≡ ring.now.slot }
    requires limits { HasLimits ring.now }
{
    let mut told = String::new(alloc);
    for position in 0..ring.written() {
        match record_at(alloc, ring, slot, position)? {
            Some(record) => told.push_str(digits(alloc, &record)?.as_str())?,
            None => told.push_str("gone")?,
        }
        told.push_str(" ")?;
    }
    Ok(told)
}

/// Capacities, the messages that a ring with slots of 64 bytes is given one after another, what became of
/// them, and what the ring has at each position then: it holds one record more than its capacity.
const RINGS: &str = "
    1 | 0a021001 | kept | 0a021001
    1 | 0a021001; 0a00 | kept kept | 0a021001 0a00
    1 | 0a021001; 0a00; 1a021003 | kept kept kept | gone 0a00 1a021003
    # one that is too long, among others
    1 | 0a00; 0a020801, 9202: 100 letters, all in 0a; 1a00 | kept oversize kept | gone 1a0408021001ca3e020801 1a00
    3 | 0a00; 0a020801, 9202: 100 letters, all in 0a; 1a00 | kept oversize kept | 0a00 1a0408021001ca3e020801 1a00
    3 | 0a00; 1a021001; 1a021002; 1a021003 | kept kept kept kept | 0a00 1a021001 1a021002 1a021003
    3 | 0a00; 1a00; 1a00; 0a00; 0a021001 | kept kept kept kept kept | gone 1a00 1a00 0a00 0a021001
    # each too long
    1 | 22: 61 letters, all in 1a; 22: 61 letters, all in 1a | oversize oversize | 1a0408021001 1a0408021001
    7 | 1a00; 0a00; 0a00; 0a00; 0a00; 0a00; 0a00; 1a00; 0a00 | kept kept kept kept kept kept kept kept kept | gone 0a00 0a00 0a00 0a00 0a00 0a00 1a00 0a00
";

#[test]
fn a_ring_has_the_last_records(rt: HostRuntime) -> Result<(), Fail> {
    for row in &rows(rt.alloc(), RINGS)? {
        let mut ring = ring_of(rt.alloc(), number(row.cell(0))?, 64)?;
        let told = all_ingested(rt.alloc(), &mut ring, 64, row.cell(1))?;
        assert_eq!(rt; told.as_str().trim(), row.cell(2), "{row}");
        let records = records_of(rt.alloc(), &ring, 64)?;
        assert_eq!(rt; records.as_str().trim(), row.cell(3), "{row}");
    }
    Ok(())
}
