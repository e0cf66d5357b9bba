//! The frames of a reply's responses.
ghost use Rattle.std.specs.Prelude.{◌≡◌, [], ◌∷◌, ◌++◌, IfOk, OnOk, OnErr, if◌then◌else◌};
ghost use Rattle.hb_frame.specs.Frames.{frame_bytes};
ghost use Rattle.hb_session.specs.Replies.{event_frame, status_frame, spelled, FitsFrame};

use hb_api::GetFlowsResponse;
use hb_flow::{Event, ResponseTypes};
use hb_frame::{MESSAGE, STATUS, put_frame};
use hb_wire::{NoMemory, Seq, Text};
use std::alloc::Global;
use std::marker::Model;

/// Writes events as the responses of one node. All share one response, which has the node's name, and
/// one vector for its spelling.
#[derive(Drop)]
pub(crate) struct Writer {
    response: GetFlowsResponse,
    body: Vec<u8>,
}

impl Model for Writer {
    ghost use Rattle.std.specs.Prelude.{◌≡◌, ℕ, List, []};

    ghost Value = { List ℕ };

    ghost view = { λ w. w.response.node_name };

    ghost invariant = { λ w. w.response.unknown ≡ [] };
}

impl Writer {
    /// For the node of this name.
    pub(crate) fn new(alloc: Global, name: &str) -> Result<Writer, NoMemory>
        ensures ok { IfOk result (λ writer. writer ≡ name.now) }
    {
        Ok(Writer {
            response: GetFlowsResponse {
                response_types: None,
                node_name: Text::of(alloc, name)?,
                time: None,
                unknown: Seq::new(alloc)?,
            },
            body: Vec::new(alloc),
        })
    }

    /// Appends the frame of the response that gives an event.
    pub(crate) fn put(&mut self, event: Event, out: &mut Vec<u8>) -> Result<(), NoMemory>
        requires size { FitsFrame self.old event }
        ensures ok { OnOk result (out.new.items
            ≡ out.old.items ++ frame_bytes (event_frame self.old event)) }
        ensures err { OnErr result (out.new.items ≡ out.old.items) }
        ensures name { self.new ≡ self.old }
    {
        match event {
            Event::Flow(flow) => {
                self.response.time = flow.time;
                self.response.response_types = Some(ResponseTypes::Flow(flow));
            }
            Event::Lost(lost) => {
                self.response.time = lost.time;
                self.response.response_types = Some(ResponseTypes::LostEvents(lost.event));
            }
        }
        self.body.clear();
        self.response.write(&mut self.body)?;
        let Ok(()) = put_frame(out, MESSAGE, self.body.as_slice()) else {
            return Err(NoMemory);
        };
        Ok(())
    }
}

/// Appends the frame of the status that ends a reply, where it has ended, and hands on whether it has.
pub(crate) fn put_status(ended: bool, out: &mut Vec<u8>) -> Result<bool, NoMemory>
    ensures put { OnOk result (out.new.items
        ≡ out.old.items ++ (if ended then spelled (status_frame ∷ []) else [])) }
    ensures ended { IfOk result (λ is. is ≡ ended) }
    ensures err { OnErr result (out.new.items ≡ out.old.items) }
{
    if !ended {
        return Ok(false);
    }
    let Ok(()) = put_frame(out, STATUS, b"") else {
        return Err(NoMemory);
    };
    Ok(true)
}
