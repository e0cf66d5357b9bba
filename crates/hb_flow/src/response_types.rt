//! The oneof `response_types` of a `GetFlowsResponse` (`observer/observer.proto`).
ghost use Rattle.std.specs.Prelude.{◌≡◌, ◌+◌, ◌<◌, ◌^◌, ◌++◌, length, take, None, Some, unwrap_or, OnOk};
ghost use Rattle.hb_wire.specs.Field.{spelling};
ghost use Rattle.hb_flow.specs.Faults.{Answers, message_fault, flow_check, lost_event_check};
ghost use Rattle.hb_flow.specs.Messages.{member_field};
ghost use Rattle.hb_flow.specs.Steps.{no_flow, flow_held, flow_next, status_held, status_next};
ghost use Rattle.hb_flow.specs.Steps.{no_lost_event, lost_events_held, lost_events_next};

use crate::message::merge;
use crate::parts::{keep_unknown, no_flow, no_lost_event};
use crate::writing::put_message;
use crate::{Flow, LostEvent};
use hb_schema::DecodeFault;
use hb_wire::{NoMemory, Seq, write_body};
use std::alloc::Global;

/// What an answer tells of: a flow, the status of nodes, as its bytes, or events that were lost.
#[derive(Debug, Drop)]
pub enum ResponseTypes {
    Flow(Flow),
    NodeStatus(Seq<u8>),
    LostEvents(LostEvent),
}

/// Holds a flow: the one that is held, or that of no field in place of another member.
fn hold_flow(alloc: Global, held: &mut Option<ResponseTypes>) -> Result<(), NoMemory>
    ensures { OnOk result (held.new
        ≡ Some (ResponseTypes.Flow (unwrap_or (flow_held held.old) no_flow))) }
{
    match held {
        Some(ResponseTypes::Flow(_)) => {}
        _ => *held = Some(ResponseTypes::Flow(no_flow(alloc)?)),
    }
    Ok(())
}

/// Holds a status: the one that is held, or that of no byte in place of another member.
fn hold_status(alloc: Global, held: &mut Option<ResponseTypes>) -> Result<(), NoMemory>
    ensures { OnOk result (held.new ≡ Some (ResponseTypes.NodeStatus (status_held held.old))) }
{
    match held {
        Some(ResponseTypes::NodeStatus(_)) => {}
        _ => *held = Some(ResponseTypes::NodeStatus(Seq::new(alloc)?)),
    }
    Ok(())
}

/// Holds lost events: those that are held, or those of no field in place of another member.
fn hold_lost_events(alloc: Global, held: &mut Option<ResponseTypes>) -> Result<(), NoMemory>
    ensures { OnOk result (held.new
        ≡ Some (ResponseTypes.LostEvents (unwrap_or (lost_events_held held.old) no_lost_event))) }
{
    match held {
        Some(ResponseTypes::LostEvents(_)) => {}
        _ => *held = Some(ResponseTypes::LostEvents(no_lost_event(alloc)?)),
    }
    Ok(())
}

/// Takes one more body of a flow, which stands at this place: merged with the flow that is held, or
/// in place of another member.
pub(crate) fn take_flow(
    alloc: Global,
    held: &mut Option<ResponseTypes>,
    body: &[u8],
    place: usize,
) -> Result<(), DecodeFault>
    requires { place + length body.now < 2 ^ 64 }
    ensures { Answers result (message_fault flow_check place body.now)
        (λ _. held.new ≡ Some (flow_next held.old body.now)) }
{
    let Ok(()) = hold_flow(alloc, held) else {
        return Err(DecodeFault::NoMemory);
    };
    match held {
        Some(ResponseTypes::Flow(flow)) => merge(alloc, flow, body, place),
        _ => unreachable!(),
    }
}

/// Takes one more body of the nodes' status: joined with the status that is held, or in place of
/// another member.
pub(crate) fn take_status(
    alloc: Global,
    held: &mut Option<ResponseTypes>,
    body: &[u8],
) -> Result<(), DecodeFault>
    ensures { Answers result None (λ _. held.new ≡ Some (status_next held.old body.now)) }
{
    let Ok(()) = hold_status(alloc, held) else {
        return Err(DecodeFault::NoMemory);
    };
    match held {
        Some(ResponseTypes::NodeStatus(status)) => keep_unknown(status, body),
        _ => unreachable!(),
    }
}

/// Takes one more body of lost events, which stands at this place: merged with those that are held,
/// or in place of another member.
pub(crate) fn take_lost_events(
    alloc: Global,
    held: &mut Option<ResponseTypes>,
    body: &[u8],
    place: usize,
) -> Result<(), DecodeFault>
    requires { place + length body.now < 2 ^ 64 }
    ensures { Answers result (message_fault lost_event_check place body.now)
        (λ _. held.new ≡ Some (lost_events_next held.old body.now)) }
{
    let Ok(()) = hold_lost_events(alloc, held) else {
        return Err(DecodeFault::NoMemory);
    };
    match held {
        Some(ResponseTypes::LostEvents(event)) => merge(alloc, event, body, place),
        _ => unreachable!(),
    }
}

/// The member that is held, as one field. What stood there before stays, whatever it answers.
pub(crate) fn put_member(out: &mut Vec<u8>, held: &Option<ResponseTypes>) -> Result<(), NoMemory>
    ensures ok { OnOk result (out.new.items ≡ out.old.items ++ spelling (member_field held.now)) }
    ensures front { take (length out.old.items) out.new.items ≡ out.old.items }
{
    match held {
        None => Ok(()),
        Some(ResponseTypes::Flow(flow)) => put_message(out, 1, flow),
        Some(ResponseTypes::NodeStatus(status)) => write_body(out, 2, status.as_slice()),
        Some(ResponseTypes::LostEvents(event)) => put_message(out, 3, event),
    }
}
