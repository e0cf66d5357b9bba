//! What a reply was opened with.
ghost use Rattle.std.specs.Prelude.{◌≡◌, ◌+◌, ◌≤◌, ◌∷◌, [], ◌++◌, length, reverse, None, IfOk, IfSome, OnOk, OnErr};
ghost use Rattle.std.specs.Option.{ForSome};
ghost use Rattle.hb_api.specs.Limits.{longest_name};
ghost use Rattle.hb_look.specs.Limits.{longest_record, most_records};
ghost use Rattle.hb_session.specs.Openings.{top, is_backward, are_enough, forward_start, forward_end};
ghost use Rattle.hb_session.specs.Forward.{are_given, is_late};
ghost use Rattle.hb_session.specs.Events.{event_of_record, passes, lost_event};
ghost use Rattle.hb_session.specs.Replies.{FitsFrame};
ghost use Rattle.hb_session.specs.Steps.{bytes_of, loss_events};

use crate::Loss;
use crate::event::{is_too_late, lost_event, passes, read_event};
use crate::span::Span;
use crate::writer::Writer;
use hb_api::GetFlowsRequest;
use hb_flow::Event;
use hb_wire::NoMemory;
use std::alloc::Global;
use std::marker::Model;

/// The request, the node's name, and the window that is asked about.
#[derive(Drop)]
pub(crate) struct Opening {
    alloc: Global,
    request: GetFlowsRequest,
    low: u64,
    size: u64,
    writer: Writer,
}

impl Model for Opening {
    ghost use Rattle.std.specs.Prelude.{◌+◌, ◌≤◌, length};
    ghost use Rattle.hb_api.specs.Limits.{longest_name};
    ghost use Rattle.hb_look.specs.Limits.{most_records};
    ghost use Rattle.hb_session.specs.Openings.{Opening};

    ghost Value = { Opening };

    ghost view = { λ o. record {
      request = o.request;
      name = o.writer;
      low = o.low;
      size = o.size;
    } };

    ghost invariant = { λ o. (o.low + o.size ≤ most_records) × (length o.writer ≤ longest_name) };
}

impl Opening {
    /// For a node of this name, and a window of so many positions from `low` on.
    pub(crate) fn new(
        alloc: Global,
        request: &GetFlowsRequest,
        name: &str,
        low: u64,
        size: u64,
    ) -> Result<Opening, NoMemory>
        requires window { low + size ≤ most_records }
        requires name { length name.now ≤ longest_name }
        ensures ok { IfOk result (λ o. o
            ≡ record { request = request.now; name = name.now; low = low; size = size }) }
    {
        Ok(Opening {
            alloc,
            request: request.try_clone(alloc)?,
            low,
            size,
            writer: Writer::new(alloc, name)?,
        })
    }

    /// The window's first position.
    pub(crate) fn low(&self) -> u64
        ensures value { result ≡ self.now.low }
        ensures bound { self.now.low + self.now.size ≤ most_records }
    {
        self.low
    }

    /// How many positions the window has.
    pub(crate) fn size(&self) -> u64
        ensures value { result ≡ self.now.size }
        ensures bound { self.now.low + self.now.size ≤ most_records }
    {
        self.size
    }

    /// Whether the last events of the window are asked for.
    pub(crate) fn is_backward(&self) -> bool
        ensures { result ≡ is_backward self.now.request }
    {
        self.request.number > 0 && !self.request.first
    }

    /// Whether an event is asked for.
    pub(crate) fn passes(&self, event: &Event) -> bool
        ensures { result ≡ passes self.now.request event.now }
    {
        passes(&self.request, event)
    }

    /// Whether so many flows are as many as were asked for.
    pub(crate) fn are_enough(&self, flows: u64) -> bool
        ensures { result ≡ are_enough self.now.request flows }
    {
        self.request.number > 0 && self.request.number <= flows
    }

    /// Whether these are as many of the first flows as were asked for.
    pub(crate) fn are_given(&self, flows: u64) -> bool
        ensures { result ≡ are_given self.now.request flows }
    {
        self.request.first && self.are_enough(flows)
    }

    /// Whether the reply goes on behind the window.
    pub(crate) fn follows(&self) -> bool
        ensures { result ≡ self.now.request.follow }
    {
        self.request.follow
    }

    /// What is read forwards, where the window is not read backwards.
    pub(crate) fn span(&self) -> Span
        ensures start { result.start ≡ forward_start self.now }
        ensures end { result.end ≡ forward_end self.now }
        ensures bounds { (result.start ≤ most_records)
            × ForSome result.end (λ e. e ≤ most_records) }
    {
        let top = self.low + self.size;
        if !self.request.follow {
            return Span {
                start: self.low,
                end: Some(top),
            };
        }
        Span {
            start: if self.request.since.is_none() {
                top
            } else {
                self.low
            },
            end: None,
        }
    }

    /// What is behind the window.
    pub(crate) fn behind(&self) -> Span
        ensures span { result ≡ record { start = top self.now; end = None } }
        ensures bound { result.start ≤ most_records }
    {
        Span {
            start: self.low + self.size,
            end: None,
        }
    }

    /// Whether a record holds a flow behind the window that is stamped after the last moment that is
    /// asked for.
    pub(crate) fn is_late(&self, place: u64, event: &Option<Event>) -> bool
        ensures { result ≡ is_late self.now place event.now }
    {
        match event {
            Some(event) => place >= self.low + self.size && is_too_late(&self.request, event),
            None => false,
        }
    }

    /// The event whose record these bytes are.
    #[tactic(auto, using(crate::proofs::Growth::read_fits))]
    pub(crate) fn event_of(&self, bytes: &[u8]) -> Result<Option<Event>, NoMemory>
        requires size { length bytes.now ≤ longest_record }
        ensures ok { IfOk result (λ event. event ≡ event_of_record bytes.now) }
        ensures fits { IfOk result (λ event. IfSome event (FitsFrame self.now.name)) }
    {
        read_event(self.alloc, bytes)
    }

    /// Appends the frame of an event. At `Err` nothing is appended.
    pub(crate) fn put(&mut self, event: Event, out: &mut Vec<u8>) -> Result<(), NoMemory>
        requires size { FitsFrame self.old.name event }
        ensures ok { OnOk result (out.new.items ≡ out.old.items ++ bytes_of self.old (event ∷ [])) }
        ensures err { OnErr result (out.new.items ≡ out.old.items) }
        ensures stays { self.new ≡ self.old }
    {
        self.writer.put(event, out)
    }

    /// Appends the frame of a stretch, where there is one. At `Err` nothing is appended.
    #[tactic(auto, using(crate::proofs::Growth::lost_fits))]
    pub(crate) fn put_loss(&mut self, loss: Option<Loss>, out: &mut Vec<u8>) -> Result<(), NoMemory>
        ensures ok { OnOk result (out.new.items
            ≡ out.old.items ++ bytes_of self.old (loss_events loss)) }
        ensures err { OnErr result (out.new.items ≡ out.old.items) }
        ensures stays { self.new ≡ self.old }
    {
        match loss {
            Some(loss) => self.writer.put(lost_event(self.alloc, loss)?, out),
            None => Ok(()),
        }
    }

    /// The lost event of a stretch.
    #[tactic(auto, using(crate::proofs::Growth::lost_fits))]
    pub(crate) fn lost(&self, loss: Loss) -> Result<Event, NoMemory>
        ensures ok { IfOk result (λ event. event ≡ lost_event loss.count loss.moment) }
        ensures fits { IfOk result (FitsFrame self.now.name) }
    {
        lost_event(self.alloc, loss)
    }

    /// Puts the frame of an event before frames that are held back to front. At `Err` they are as before.
    #[tactic(auto, using(crate::proofs::Bytes::held_before))]
    pub(crate) fn hold(&mut self, event: Event, held: &mut Vec<u8>) -> Result<(), NoMemory>
        requires size { FitsFrame self.old.name event }
        ensures ok { OnOk result (reverse held.new.items
            ≡ bytes_of self.old (event ∷ []) ++ reverse held.old.items) }
        ensures err { OnErr result (held.new.items ≡ held.old.items) }
        ensures stays { self.new ≡ self.old }
    {
        let start = held.len();
        self.writer.put(event, held)?;
        held[start..].reverse();
        Ok(())
    }
}
