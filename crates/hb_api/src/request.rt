//! What a client asks for: Cilium's `observer.GetFlowsRequest` (`observer/observer.proto`).
ghost use Rattle.std.specs.Prelude.{◌≡◌, ◌++◌, IsOk, IfOk, OnOk, OnErr};
ghost use Rattle.hb_api.specs.Faults.{request_check};
ghost use Rattle.hb_api.specs.Requests.{request_bytes};
ghost use Rattle.hb_api.specs.Steps.{request_after};

use crate::mask::have_mask;
use hb_flow::{Message, keep_unknown, merge, merge_stamp, put_number, put_optional, put_unknown};
use hb_schema::DecodeFault;
use hb_time::Stamp;
use hb_wire::{Field, NoMemory, Seq};
use std::alloc::Global;

/// A request for flows: how many, whether these are the first ones and not the last, whether those
/// to come are asked for too, the moments between which they are, and the bytes of the fields that
/// are not known, in the order in which they came.
#[derive(Debug, Drop)]
pub struct GetFlowsRequest {
    pub number: u64,
    pub first: bool,
    pub follow: bool,
    pub since: Option<Stamp>,
    pub until: Option<Stamp>,
    pub unknown: Seq<u8>,
}

impl Message for GetFlowsRequest {
    ghost check = { request_check };

    ghost after = { request_after };

    ghost spelled = { request_bytes };

    #[tactic(auto, unfolding(crate::specs::Faults::request_check))]
    fn take(
        &mut self,
        alloc: Global,
        field: Field<'_>,
        raw: &[u8],
        end: usize,
    ) -> Result<(), DecodeFault> {
        match field {
            Field::Varint { number: 1, value } => self.number = value,
            Field::Varint { number: 3, value } => self.follow = value != 0,
            Field::Body { number: 7, body } => {
                match merge_stamp(alloc, self.since, body, end - body.len()) {
                    Ok(since) => self.since = Some(since),
                    Err(fault) => return Err(fault),
                }
            }
            Field::Body { number: 8, body } => {
                match merge_stamp(alloc, self.until, body, end - body.len()) {
                    Ok(until) => self.until = Some(until),
                    Err(fault) => return Err(fault),
                }
            }
            Field::Varint { number: 9, value } => self.first = value != 0,
            _ => return keep_unknown(&mut self.unknown, raw),
        }
        Ok(())
    }

    #[tactic(auto, using(crate::proofs::Spelling::spelling_five), unfolding(crate::specs::Requests::request_bytes))]
    fn put(&self, out: &mut Vec<u8>) -> Result<(), NoMemory> {
        put_number(out, 1, self.number)?;
        put_number(out, 3, u64::from(self.follow))?;
        put_optional(out, 7, &self.since)?;
        put_optional(out, 8, &self.until)?;
        put_number(out, 9, u64::from(self.first))?;
        put_unknown(out, &self.unknown)
    }
}

impl GetFlowsRequest {
    ghost use Rattle.hb_flow.specs.Faults.{Answers};
    ghost use Rattle.hb_api.specs.Faults.{request_fault};
    ghost use Rattle.hb_api.specs.Requests.{read_request, is_masked, RequestFits};
    ghost use Rattle.hb_api.specs.Steps.{no_request};

    /// The request of no field. It takes no memory.
    pub fn new(alloc: Global) -> Result<GetFlowsRequest, NoMemory>
        ensures ok { IsOk result }
        ensures empty { IfOk result (λ r. r ≡ no_request) }
    {
        Ok(GetFlowsRequest {
            number: 0,
            first: false,
            follow: false,
            since: None,
            until: None,
            unknown: Seq::new(alloc)?,
        })
    }

    /// Reads a request (Protocol Buffers encoding guide). A field with another wire type than its
    /// number's is not known. The bytes are gone through once; the fields that are not known are
    /// copied.
    ///
    /// Malformed where no field starts: at a group (wire types 3 and 4), at number 0, and at a
    /// field that does not end within its message.
    pub fn read(alloc: Global, bytes: &[u8]) -> Result<GetFlowsRequest, DecodeFault>
        ensures reads { Answers result (request_fault bytes.now) (λ r. r ≡ read_request bytes.now) }
        ensures fits { IfOk result RequestFits }
    {
        let Ok(mut request) = GetFlowsRequest::new(alloc) else {
            return Err(DecodeFault::NoMemory);
        };
        match merge(alloc, &mut request, bytes, 0) {
            Ok(()) => Ok(request),
            Err(fault) => Err(fault),
        }
    }

    /// Whether it has a field mask: field 10 with a body, which is not read, among the fields that
    /// are not known. These are gone through once.
    pub fn is_masked(&self) -> bool
        ensures value { result ≡ is_masked self.now }
    {
        have_mask(self.unknown.as_slice())
    }

    /// A copy in memory of its own.
    pub fn try_clone(&self, alloc: Global) -> Result<GetFlowsRequest, NoMemory>
        ensures ok { IfOk result (λ copy. copy ≡ self.now) }
    {
        let mut unknown = Seq::new(alloc)?;
        unknown.extend_from_slice(self.unknown.as_slice())?;
        Ok(GetFlowsRequest {
            number: self.number,
            first: self.first,
            follow: self.follow,
            since: self.since,
            until: self.until,
            unknown,
        })
    }

    /// Appends the canonical spelling: fields by ascending number, with no defaults, and after them
    /// the bytes of those that are not known. At `Err` nothing is appended.
    pub fn write(&self, out: &mut Vec<u8>) -> Result<(), NoMemory>
        ensures ok { OnOk result (out.new.items ≡ out.old.items ++ request_bytes self.now) }
        ensures err { OnErr result (out.new.items ≡ out.old.items) }
    {
        let before = out.len();
        match self.put(out) {
            Ok(()) => Ok(()),
            Err(fault) => {
                out.truncate(before);
                Err(fault)
            }
        }
    }
}
