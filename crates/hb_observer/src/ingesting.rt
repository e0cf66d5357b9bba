//! Events into a ring.
ghost use Rattle.std.specs.Prelude.{◌≡◌, ◌≢◌, ◌↔◌, ◌<◌, ◌≤◌, [], ◌∷◌, length, true, IfOk, OnOk};
ghost use Rattle.hb_flow.specs.Messages.{record_bytes};
ghost use Rattle.hb_look.specs.Limits.{most_records};
ghost use Rattle.hb_look.specs.Progress.{HasPut};
ghost use Rattle.hb_observer.specs.Kept.{kept, log_of};
ghost use Rattle.hb_observer.specs.Ingest.{IsStored};

use hb_flow::{Event, oversize, record_of};
use hb_look::{Keep, Put};
use hb_wire::NoMemory;
use std::alloc::Global;

/// What became of an event.
#[derive(Clone, Copy, Debug, PartialEq, Eq)]
pub enum Ingested {
    /// Its record was put.
    Kept,
    /// Its record is too long for the ring: that of one lost event was put in its place.
    Oversize,
    /// The ring takes no more records.
    Spent,
    /// Memory was refused.
    NoMemory,
}

/// Puts what a ring keeps of an event into it, through its writer, of which `slot_bytes` is the longest
/// record. After `Spent` and `NoMemory` the ring is as it was. What `scratch` holds is overwritten: the
/// record is spelled there, so that events that share it share its room.
pub fn ingest<W: Keep>(
    alloc: Global,
    event: &Event,
    writer: &mut W,
    slot_bytes: usize,
    scratch: &mut Vec<u8>,
) -> Ingested
    requires slot { (slot_bytes ≡ W.longest writer.old) × (64 ≤ slot_bytes) }
    ensures stored { IsStored result
        → HasPut W.stands_for W.written W.longest W.fixed writer.old writer.new
        (log_of slot_bytes (event.now ∷ [])) }
    ensures kept { result ≡ Ingested.Kept → length (record_bytes event.now) ≤ slot_bytes }
    ensures oversize { result ≡ Ingested.Oversize → slot_bytes < length (record_bytes event.now) }
    ensures spent { result ≢ Ingested.NoMemory
        → (result ≡ Ingested.Spent) ↔ (W.written writer.old ≡ most_records) }
    ensures same { (IsStored result → ⊥) → writer.new ≡ writer.old }
{
    let is_oversize = match spell(alloc, event, slot_bytes, scratch) {
        Ok(is_oversize) => is_oversize,
        Err(_) => return Ingested::NoMemory,
    };
    match writer.put(scratch.as_slice()) {
        Put::Done if is_oversize => Ingested::Oversize,
        Put::Done => Ingested::Kept,
        Put::TooLong => unreachable!(),
        Put::Spent => Ingested::Spent,
        Put::NoMemory => Ingested::NoMemory,
    }
}

/// Spells the record of what is kept of an event, and tells whether the event's own is too long.
fn spell(
    alloc: Global,
    event: &Event,
    slot_bytes: usize,
    out: &mut Vec<u8>,
) -> Result<bool, NoMemory>
    requires slot { 64 ≤ slot_bytes }
    ensures spells { OnOk result (out.new.items ≡ record_bytes (kept slot_bytes event.now)) }
    ensures short { OnOk result (length out.new.items ≤ slot_bytes) }
    ensures long { IfOk result
        (λ long. (long ≡ true) ↔ (slot_bytes < length (record_bytes event.now))) }
{
    out.clear();
    record_of(event, out)?;
    if out.len() <= slot_bytes {
        return Ok(false);
    }
    let lost = oversize(alloc, event)?;
    out.clear();
    record_of(&lost, out)?;
    Ok(true)
}
