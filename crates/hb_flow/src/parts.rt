//! What a field is read as: a text, a part of a message that came before, or bytes that are kept.
ghost use Rattle.std.specs.Prelude.{◌≡◌, ◌+◌, ◌<◌, ◌^◌, ◌++◌, length, None, IfOk};
ghost use Rattle.hb_flow.specs.Faults.{Answers, message_fault, text_fault, stamp_check, int32_value_check};
ghost use Rattle.hb_flow.specs.Steps.{no_flow, no_lost_event, stamp_merged, int32_value_merged};

use crate::message::merge;
use crate::{Flow, Int32Value, LostEvent};
use hb_schema::DecodeFault;
use hb_time::Stamp;
use hb_wire::{NoMemory, Seq, Text};
use std::alloc::Global;

/// The text of a body, which stands at this place.
pub(crate) fn text_of(alloc: Global, body: &[u8], place: usize) -> Result<Text, DecodeFault>
    ensures { Answers result (text_fault place body.now) (λ text. text ≡ body.now) }
{
    match str::from_utf8(body) {
        Ok(text) => match Text::of(alloc, text) {
            Ok(text) => Ok(text),
            Err(_) => Err(DecodeFault::NoMemory),
        },
        Err(_) => Err(DecodeFault::BadUtf8 { at: place }),
    }
}

/// The moment with all the fields of one more body, which stands at this place.
pub fn merge_stamp(
    alloc: Global,
    before: Option<Stamp>,
    body: &[u8],
    place: usize,
) -> Result<Stamp, DecodeFault>
    requires { place + length body.now < 2 ^ 64 }
    ensures { Answers result (message_fault stamp_check place body.now)
        (λ stamp. stamp ≡ stamp_merged before body.now) }
{
    let mut stamp = before.unwrap_or(Stamp { secs: 0, nanos: 0 });
    match merge(alloc, &mut stamp, body, place) {
        Ok(()) => Ok(stamp),
        Err(fault) => Err(fault),
    }
}

/// The flow of no field.
pub(crate) fn no_flow(alloc: Global) -> Result<Flow, NoMemory>
    ensures { IfOk result (λ flow. flow ≡ no_flow) }
{
    Ok(Flow {
        time: None,
        verdict: 0,
        uuid: Text::empty(alloc),
        unknown: Seq::new(alloc)?,
    })
}

/// The wrapper with all the fields of one more body, which stands at this place.
pub(crate) fn merge_int32_value(
    alloc: Global,
    before: Option<Int32Value>,
    body: &[u8],
    place: usize,
) -> Result<Int32Value, DecodeFault>
    requires { place + length body.now < 2 ^ 64 }
    ensures { Answers result (message_fault int32_value_check place body.now)
        (λ value. value ≡ int32_value_merged before body.now) }
{
    let mut value = before.unwrap_or(Int32Value { value: 0 });
    match merge(alloc, &mut value, body, place) {
        Ok(()) => Ok(value),
        Err(fault) => Err(fault),
    }
}

/// The lost events of no field.
pub(crate) fn no_lost_event(alloc: Global) -> Result<LostEvent, NoMemory>
    ensures { IfOk result (λ event. event ≡ no_lost_event) }
{
    Ok(LostEvent {
        source: 0,
        num_events_lost: 0,
        cpu: None,
        unknown: Seq::new(alloc)?,
    })
}

/// Keeps the bytes of a field that is not known, behind those of the ones before it.
pub fn keep_unknown(unknown: &mut Seq<u8>, raw: &[u8]) -> Result<(), DecodeFault>
    ensures { Answers result None (λ _. unknown.new ≡ unknown.old ++ raw.now) }
{
    match unknown.extend_from_slice(raw) {
        Ok(()) => Ok(()),
        Err(_) => Err(DecodeFault::NoMemory),
    }
}
