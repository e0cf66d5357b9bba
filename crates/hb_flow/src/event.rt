//! Events, and the records that a ring keeps of them.
ghost use Rattle.std.specs.Prelude.{◌≡◌, ◌++◌, length, take, None, IfSome, IfOk, OnOk, OnErr};
ghost use Rattle.hb_flow.specs.Faults.{Answers, response_fault};
ghost use Rattle.hb_flow.specs.Messages.{event_in, record_bytes, read_response, oversized, EventFits};

use crate::writing::{put_message, put_optional};
use crate::{Flow, GetFlowsResponse, LostEvent, ResponseTypes};
use hb_schema::DecodeFault;
use hb_time::Stamp;
use hb_wire::{NoMemory, Seq};
use std::alloc::Global;

/// Cilium's `LostEventSource.OBSERVER_EVENTS_QUEUE` (`flow/flow.proto`).
const OBSERVER_EVENTS_QUEUE: i32 = 2;

/// Lost events, and when the node said so.
#[derive(Debug, Drop)]
pub struct Lost {
    pub event: LostEvent,
    pub time: Option<Stamp>,
}

/// What a node saw: a flow, which has its own time, or that events were lost.
#[derive(Debug, Drop)]
pub enum Event {
    Flow(Flow),
    Lost(Lost),
}

/// The fields of the answer that holds an event alone. What stood there before stays.
#[tactic(auto, unfolding(crate::specs::Messages::record_bytes, crate::specs::Messages::response_bytes))]
fn put_event(out: &mut Vec<u8>, event: &Event) -> Result<(), NoMemory>
    ensures ok { OnOk result (out.new.items ≡ out.old.items ++ record_bytes event.now) }
    ensures front { take (length out.old.items) out.new.items ≡ out.old.items }
{
    match event {
        Event::Flow(flow) => put_message(out, 1, flow),
        Event::Lost(lost) => {
            put_message(out, 3, &lost.event)?;
            put_optional(out, 1001, &lost.time)
        }
    }
}

/// Appends the record of an event: the spelling of an answer that holds it alone, lost events with
/// their time. The event's bytes are moved once, when their length is put before them. At `Err`
/// nothing is appended.
pub fn record_of(event: &Event, out: &mut Vec<u8>) -> Result<(), NoMemory>
    ensures ok { OnOk result (out.new.items ≡ out.old.items ++ record_bytes event.now) }
    ensures err { OnErr result (out.new.items ≡ out.old.items) }
{
    let before = out.len();
    match put_event(out, event) {
        Ok(()) => Ok(()),
        Err(fault) => {
            out.truncate(before);
            Err(fault)
        }
    }
}

impl GetFlowsResponse {
    /// Takes the event that it holds out of it, if any: a flow, or lost events with its time.
    pub fn take_event(&mut self) -> Option<Event>
        ensures event { result ≡ event_in self.old }
        ensures kept { self.new ≡ record self.old { response_types = None } }
    {
        match self.response_types.take() {
            Some(ResponseTypes::Flow(flow)) => Some(Event::Flow(flow)),
            Some(ResponseTypes::LostEvents(event)) => Some(Event::Lost(Lost {
                event,
                time: self.time,
            })),
            _ => None,
        }
    }
}

/// The event that the bytes of an answer hold, where they hold one; a record gives its event back.
/// Faults and cost are those of `GetFlowsResponse::read`.
pub fn event_of(alloc: Global, bytes: &[u8]) -> Result<Option<Event>, DecodeFault>
    ensures reads { Answers result (response_fault bytes.now)
        (λ event. event ≡ event_in (read_response bytes.now)) }
    ensures fits { IfOk result (λ event. IfSome event EventFits) }
{
    match GetFlowsResponse::read(alloc, bytes) {
        Ok(mut response) => Ok(response.take_event()),
        Err(fault) => Err(fault),
    }
}

/// What a ring keeps in place of an event whose record is too long for it: one event lost at
/// Cilium's `OBSERVER_EVENTS_QUEUE`, at the event's own time.
pub fn oversize(alloc: Global, event: &Event) -> Result<Event, NoMemory>
    ensures ok { IfOk result (λ made. made ≡ oversized event.now) }
{
    let time = match event {
        Event::Flow(flow) => flow.time,
        Event::Lost(lost) => lost.time,
    };
    Ok(Event::Lost(Lost {
        event: LostEvent {
            source: OBSERVER_EVENTS_QUEUE,
            num_events_lost: 1,
            cpu: None,
            unknown: Seq::new(alloc)?,
        },
        time,
    }))
}
