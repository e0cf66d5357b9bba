//! One answer of a node: Cilium's `observer.GetFlowsResponse` (`observer/observer.proto`).
ghost use Rattle.std.specs.Prelude.{◌≡◌, ◌++◌, IsOk, IfOk, OnOk, OnErr};
ghost use Rattle.hb_flow.specs.Faults.{response_check};
ghost use Rattle.hb_flow.specs.Messages.{response_bytes};
ghost use Rattle.hb_flow.specs.Steps.{response_after};

use crate::ResponseTypes;
use crate::message::{Message, merge};
use crate::parts::{keep_unknown, merge_stamp, text_of};
use crate::response_types::{put_member, take_flow, take_lost_events, take_status};
use crate::writing::{put_optional, put_text, put_unknown};
use hb_schema::DecodeFault;
use hb_time::Stamp;
use hb_wire::{Field, NoMemory, Seq, Text};
use std::alloc::Global;

/// An answer with what it tells of, the node that saw it and when, and the bytes of its fields that
/// are not known, in the order in which they came.
#[derive(Debug, Drop)]
pub struct GetFlowsResponse {
    pub response_types: Option<ResponseTypes>,
    pub node_name: Text,
    pub time: Option<Stamp>,
    pub unknown: Seq<u8>,
}

impl Message for GetFlowsResponse {
    ghost check = { response_check };

    ghost after = { response_after };

    ghost spelled = { response_bytes };

    #[tactic(auto, unfolding(crate::specs::Faults::response_check))]
    fn take(
        &mut self,
        alloc: Global,
        field: Field<'_>,
        raw: &[u8],
        end: usize,
    ) -> Result<(), DecodeFault> {
        match field {
            Field::Body { number: 1, body } => {
                return take_flow(alloc, &mut self.response_types, body, end - body.len());
            }
            Field::Body { number: 2, body } => {
                return take_status(alloc, &mut self.response_types, body);
            }
            Field::Body { number: 3, body } => {
                return take_lost_events(alloc, &mut self.response_types, body, end - body.len());
            }
            Field::Body { number: 1000, body } => match text_of(alloc, body, end - body.len()) {
                Ok(node_name) => self.node_name = node_name,
                Err(fault) => return Err(fault),
            },
            Field::Body { number: 1001, body } => {
                match merge_stamp(alloc, self.time, body, end - body.len()) {
                    Ok(time) => self.time = Some(time),
                    Err(fault) => return Err(fault),
                }
            }
            _ => return keep_unknown(&mut self.unknown, raw),
        }
        Ok(())
    }

    #[tactic(auto, using(crate::proofs::Spellings::spelling_kept), unfolding(crate::specs::Messages::response_bytes))]
    fn put(&self, out: &mut Vec<u8>) -> Result<(), NoMemory> {
        put_member(out, &self.response_types)?;
        put_text(out, 1000, self.node_name.as_str())?;
        put_optional(out, 1001, &self.time)?;
        put_unknown(out, &self.unknown)
    }
}

impl GetFlowsResponse {
    ghost use Rattle.hb_flow.specs.Faults.{Answers, response_fault};
    ghost use Rattle.hb_flow.specs.Messages.{read_response, ResponseFits};
    ghost use Rattle.hb_flow.specs.Steps.{no_response};

    /// An answer of no field. It takes no memory.
    pub fn new(alloc: Global) -> Result<GetFlowsResponse, NoMemory>
        ensures ok { IsOk result }
        ensures empty { IfOk result (λ r. r ≡ no_response) }
    {
        Ok(GetFlowsResponse {
            response_types: None,
            node_name: Text::empty(alloc),
            time: None,
            unknown: Seq::new(alloc)?,
        })
    }

    /// Reads an answer (Protocol Buffers encoding guide). A field with another wire type than its
    /// number's is not known. The bytes are gone through once; texts and the fields that are not
    /// known are copied.
    ///
    /// Malformed where no field starts: at a group (wire types 3 and 4), at number 0, and at a field
    /// that does not end within its message. BadUtf8 at the first byte of a text.
    pub fn read(alloc: Global, bytes: &[u8]) -> Result<GetFlowsResponse, DecodeFault>
        ensures reads { Answers result (response_fault bytes.now)
            (λ r. r ≡ read_response bytes.now) }
        ensures fits { IfOk result ResponseFits }
    {
        let Ok(mut response) = GetFlowsResponse::new(alloc) else {
            return Err(DecodeFault::NoMemory);
        };
        match response.read_in_place(alloc, bytes) {
            Ok(()) => Ok(response),
            Err(fault) => Err(fault),
        }
    }

    /// Reads an answer, as `read` does, in the place of this one, so that it is not moved. At `Err` it
    /// may hold anything.
    pub fn read_in_place(&mut self, alloc: Global, bytes: &[u8]) -> Result<(), DecodeFault>
        ensures reads { Answers result (response_fault bytes.now)
            (λ _. self.new ≡ read_response bytes.now) }
        ensures fits { OnOk result (ResponseFits self.new) }
    {
        let Ok(empty) = GetFlowsResponse::new(alloc) else {
            return Err(DecodeFault::NoMemory);
        };
        *self = empty;
        match merge(alloc, self, bytes, 0) {
            Ok(()) => Ok(()),
            Err(fault) => Err(fault),
        }
    }

    /// Appends the canonical spelling: fields by ascending number, with no defaults, and after them
    /// the bytes of those that are not known. The bytes of each message in it are moved once, when
    /// their length is put before them. At `Err` nothing is appended.
    pub fn write(&self, out: &mut Vec<u8>) -> Result<(), NoMemory>
        ensures ok { OnOk result (out.new.items ≡ out.old.items ++ response_bytes self.now) }
        ensures err { OnErr result (out.new.items ≡ out.old.items) }
    {
        let before = out.len();
        match self.put(out) {
            Ok(()) => Ok(()),
            Err(fault) => {
                out.truncate(before);
                Err(fault)
            }
        }
    }
}
