//! A connection that was seen: Cilium's `flow.Flow` (`flow/flow.proto`).
ghost use Rattle.hb_flow.specs.Faults.{flow_check};
ghost use Rattle.hb_flow.specs.Messages.{flow_bytes};
ghost use Rattle.hb_flow.specs.Steps.{flow_after};

use crate::message::Message;
use crate::numbers::{int32, of_signed};
use crate::parts::{keep_unknown, merge_stamp, text_of};
use crate::writing::{put_number, put_optional, put_text, put_unknown};
use hb_schema::DecodeFault;
use hb_time::Stamp;
use hb_wire::{Field, NoMemory, Seq, Text};
use std::alloc::Global;

/// A flow: when it was seen, what was decided about it (Cilium's enum `Verdict`, any number), its
/// name, and the bytes of its fields that are not known, in the order in which they came.
#[derive(Debug, Drop)]
pub struct Flow {
    pub time: Option<Stamp>,
    pub verdict: i32,
    pub uuid: Text,
    pub unknown: Seq<u8>,
}

impl Message for Flow {
    ghost check = { flow_check };

    ghost after = { flow_after };

    ghost spelled = { flow_bytes };

    #[tactic(auto, unfolding(crate::specs::Faults::flow_check))]
    fn take(
        &mut self,
        alloc: Global,
        field: Field<'_>,
        raw: &[u8],
        end: usize,
    ) -> Result<(), DecodeFault> {
        match field {
            Field::Body { number: 1, body } => {
                match merge_stamp(alloc, self.time, body, end - body.len()) {
                    Ok(time) => self.time = Some(time),
                    Err(fault) => return Err(fault),
                }
            }
            Field::Varint { number: 2, value } => self.verdict = int32(value),
            Field::Body { number: 34, body } => match text_of(alloc, body, end - body.len()) {
                Ok(uuid) => self.uuid = uuid,
                Err(fault) => return Err(fault),
            },
            _ => return keep_unknown(&mut self.unknown, raw),
        }
        Ok(())
    }

    #[tactic(auto, using(crate::proofs::Spellings::spelling_kept), unfolding(crate::specs::Messages::flow_bytes))]
    fn put(&self, out: &mut Vec<u8>) -> Result<(), NoMemory> {
        put_optional(out, 1, &self.time)?;
        put_number(out, 2, of_signed(i64::from(self.verdict)))?;
        put_text(out, 34, self.uuid.as_str())?;
        put_unknown(out, &self.unknown)
    }
}
