//! The events that a session reads, which of them it gives, and those that it makes.
ghost use Rattle.std.specs.Prelude.{◌≡◌, IfOk};
ghost use Rattle.hb_session.specs.Events.{event_of_record, lost_event, not_after, is_within, passes, is_too_late, is_flow};

use crate::Loss;
use hb_api::GetFlowsRequest;
use hb_flow::{Event, Lost, LostEvent, event_of};
use hb_schema::DecodeFault;
use hb_time::{Stamp, of_moment};
use hb_wire::{NoMemory, Seq};
use std::alloc::Global;

/// Cilium's `LostEventSource.HUBBLE_RING_BUFFER` (`flow/flow.proto`).
const HUBBLE_RING_BUFFER: i32 = 3;

/// The event whose record these bytes are. There is none where they have a fault, or hold none.
pub(crate) fn read_event(alloc: Global, bytes: &[u8]) -> Result<Option<Event>, NoMemory>
    ensures ok { IfOk result (λ event. event ≡ event_of_record bytes.now) }
{
    match event_of(alloc, bytes) {
        Ok(event) => Ok(event),
        Err(DecodeFault::NoMemory) => Err(NoMemory),
        Err(DecodeFault::Malformed { .. }) => Ok(None),
        Err(DecodeFault::BadUtf8 { .. }) => Ok(None),
    }
}

/// The lost event of a stretch.
pub(crate) fn lost_event(alloc: Global, loss: Loss) -> Result<Event, NoMemory>
    ensures ok { IfOk result (λ event. event ≡ lost_event loss.count loss.moment) }
{
    Ok(Event::Lost(Lost {
        event: LostEvent {
            source: HUBBLE_RING_BUFFER,
            num_events_lost: loss.count,
            cpu: None,
            unknown: Seq::new(alloc)?,
        },
        time: Some(of_moment(loss.moment)),
    }))
}

/// Whether a stamp is not after another.
fn not_after(a: Stamp, b: Stamp) -> bool
    ensures { result ≡ not_after a b }
{
    a.secs < b.secs || a.secs <= b.secs && a.nanos <= b.nanos
}

/// Whether a stamp is within the bounds that there are.
fn is_within(request: &GetFlowsRequest, stamp: Stamp) -> bool
    ensures { result ≡ is_within request.now stamp }
{
    let since = match request.since {
        Some(since) => not_after(since, stamp),
        None => true,
    };
    let until = match request.until {
        Some(until) => not_after(stamp, until),
        None => true,
    };
    since && until
}

/// Whether an event passes. A flow without a stamp counts as stamped at 0.
pub(crate) fn passes(request: &GetFlowsRequest, event: &Event) -> bool
    ensures { result ≡ passes request.now event.now }
{
    match event {
        Event::Flow(flow) => is_within(request, flow.time.unwrap_or(Stamp { secs: 0, nanos: 0 })),
        Event::Lost(_) => true,
    }
}

/// Whether an event is a flow that is stamped after the last moment that is asked for.
pub(crate) fn is_too_late(request: &GetFlowsRequest, event: &Event) -> bool
    ensures { result ≡ is_too_late request.now event.now }
{
    match (event, request.until) {
        (Event::Flow(flow), Some(until)) => {
            !not_after(flow.time.unwrap_or(Stamp { secs: 0, nanos: 0 }), until)
        }
        _ => false,
    }
}

pub(crate) fn is_flow(event: &Event) -> bool
    ensures { result ≡ is_flow event.now }
{
    match event {
        Event::Flow(_) => true,
        Event::Lost(_) => false,
    }
}
