//! A recording into a ring.
ghost use Rattle.std.specs.Prelude.{◌≡◌, ◌<◌, ◌≤◌, List, [], ◌∷◌, length, IfErr, OnOk, OnErr};
ghost use Rattle.hb_flow.specs.declared.response.GetFlowsResponse.{GetFlowsResponse};
ghost use Rattle.hb_files.specs.Files.{largest_file};
ghost use Rattle.hb_look.specs.Limits.{most_records};
ghost use Rattle.hb_look.specs.Progress.{HasPut};
ghost use Rattle.hb_observer.specs.Kept.{log_of};
ghost use Rattle.hb_recording.specs.Recording.{IsRecordingOf, events};
ghost use Rattle.hubblet.specs.Filling.{IsShownBy};

use hb_files::FileFault;
use hb_flow::GetFlowsResponse;
use hb_look::Keep;
use hb_observer::{Ingested, ingest};
use hb_recording::{Next, RecordingReader};
use hb_wire::NoMemory;
use std::alloc::Global;

/// Puts what an empty ring keeps of a recording's events into it, in their order, through its writer, of
/// which `slot_bytes` is the longest record. An event costs by the length of its frame.
pub(crate) fn fill<W: Keep>(
    alloc: Global,
    file: &[u8],
    writer: &mut W,
    slot_bytes: usize,
) -> Result<(), FileFault>
    requires empty { W.stands_for writer.old [] }
    requires slot { (slot_bytes ≡ W.longest writer.old) × (64 ≤ slot_bytes) }
    requires size { length file.now ≤ largest_file }
    ensures filled { (responses : List GetFlowsResponse)
        × HasPut W.stands_for W.written W.longest W.fixed writer.old writer.new
        (log_of slot_bytes (events responses))
        × OnOk result (IsRecordingOf file.now responses) }
    ensures err { IfErr result (IsShownBy file.now) }
{
    let mut reader = RecordingReader::new(alloc, file);
    let Ok(mut response) = GetFlowsResponse::new(alloc) else {
        return Err(FileFault::NoMemory);
    };
    let mut scratch = Vec::new(alloc);
    loop {
        match reader.next(&mut response) {
            Next::Response => {
                if put(alloc, &mut response, writer, slot_bytes, &mut scratch).is_err() {
                    return Err(FileFault::NoMemory);
                }
            }
            Next::End => return Ok(()),
            Next::Bad { at } => return Err(FileFault::BadRecord { at }),
            Next::NoMemory => return Err(FileFault::NoMemory),
        }
    }
}

/// Takes a response's event, where it has one, and puts what the ring keeps of it into the ring.
fn put<W: Keep>(
    alloc: Global,
    response: &mut GetFlowsResponse,
    writer: &mut W,
    slot_bytes: usize,
    scratch: &mut Vec<u8>,
) -> Result<(), NoMemory>
    requires slot { (slot_bytes ≡ W.longest writer.old) × (64 ≤ slot_bytes) }
    requires room { W.written writer.old < most_records }
    ensures ok { OnOk result
        (HasPut W.stands_for W.written W.longest W.fixed writer.old writer.new
        (log_of slot_bytes (events (response.old ∷ [])))) }
    ensures err { OnErr result (writer.new ≡ writer.old) }
{
    let Some(event) = response.take_event() else {
        return Ok(());
    };
    match ingest(alloc, &event, writer, slot_bytes, scratch) {
        Ingested::Kept | Ingested::Oversize => Ok(()),
        Ingested::Spent => unreachable!(),
        Ingested::NoMemory => Err(NoMemory),
    }
}
