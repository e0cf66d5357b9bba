//! Events that a node lost: Cilium's `flow.LostEvent` (`flow/flow.proto`).
ghost use Rattle.std.specs.Prelude.{◌≡◌, ◌++◌, IfOk, OnOk, OnErr};
ghost use Rattle.hb_flow.specs.Faults.{int32_value_check, lost_event_check};
ghost use Rattle.hb_flow.specs.Messages.{int32_value_bytes, lost_event_bytes};
ghost use Rattle.hb_flow.specs.Steps.{int32_value_after, lost_event_after};

use crate::message::{Message, merge};
use crate::numbers::{int32, of_signed};
use crate::parts::{keep_unknown, merge_int32_value, no_lost_event};
use crate::writing::{put_number, put_optional, put_unknown};
use hb_schema::DecodeFault;
use hb_wire::{Field, NoMemory, Seq};
use std::alloc::Global;

/// A number that may be absent: `google.protobuf.Int32Value` (`google/protobuf/wrappers.proto`).
#[derive(Clone, Copy, Debug, PartialEq, Eq)]
pub struct Int32Value {
    pub value: i32,
}

impl Message for Int32Value {
    ghost check = { int32_value_check };

    ghost after = { int32_value_after };

    ghost spelled = { int32_value_bytes };

    fn take(
        &mut self,
        _alloc: Global,
        field: Field<'_>,
        _raw: &[u8],
        _end: usize,
    ) -> Result<(), DecodeFault> {
        if let Field::Varint { number: 1, value } = field {
            self.value = int32(value);
        }
        Ok(())
    }

    #[tactic(auto, unfolding(crate::specs::Messages::int32_value_bytes))]
    fn put(&self, out: &mut Vec<u8>) -> Result<(), NoMemory> {
        put_number(out, 1, of_signed(i64::from(self.value)))
    }
}

/// Lost events: where they were lost (Cilium's enum `LostEventSource`, any number), how many, at
/// which processor, and the bytes of its fields that are not known, in the order in which they came.
#[derive(Debug, Drop)]
pub struct LostEvent {
    pub source: i32,
    pub num_events_lost: u64,
    pub cpu: Option<Int32Value>,
    pub unknown: Seq<u8>,
}

impl Message for LostEvent {
    ghost check = { lost_event_check };

    ghost after = { lost_event_after };

    ghost spelled = { lost_event_bytes };

    #[tactic(auto, unfolding(crate::specs::Faults::lost_event_check))]
    fn take(
        &mut self,
        alloc: Global,
        field: Field<'_>,
        raw: &[u8],
        end: usize,
    ) -> Result<(), DecodeFault> {
        match field {
            Field::Varint { number: 1, value } => self.source = int32(value),
            Field::Varint { number: 2, value } => self.num_events_lost = value,
            Field::Body { number: 3, body } => {
                match merge_int32_value(alloc, self.cpu, body, end - body.len()) {
                    Ok(cpu) => self.cpu = Some(cpu),
                    Err(fault) => return Err(fault),
                }
            }
            _ => return keep_unknown(&mut self.unknown, raw),
        }
        Ok(())
    }

    #[tactic(auto, using(crate::proofs::Spellings::spelling_kept), unfolding(crate::specs::Messages::lost_event_bytes))]
    fn put(&self, out: &mut Vec<u8>) -> Result<(), NoMemory> {
        put_number(out, 1, of_signed(i64::from(self.source)))?;
        put_number(out, 2, self.num_events_lost)?;
        put_optional(out, 3, &self.cpu)?;
        put_unknown(out, &self.unknown)
    }
}

impl LostEvent {
    ghost use Rattle.hb_flow.specs.Faults.{Answers, lost_event_fault};
    ghost use Rattle.hb_flow.specs.Messages.{read_lost_event, LostEventFits};

    /// Reads lost events, as `GetFlowsResponse::read` reads an answer. No text is in them, so the
    /// only fault is Malformed.
    pub fn read(alloc: Global, bytes: &[u8]) -> Result<LostEvent, DecodeFault>
        ensures reads { Answers result (lost_event_fault bytes.now)
            (λ e. e ≡ read_lost_event bytes.now) }
        ensures fits { IfOk result LostEventFits }
    {
        let Ok(mut event) = no_lost_event(alloc) else {
            return Err(DecodeFault::NoMemory);
        };
        match merge(alloc, &mut event, bytes, 0) {
            Ok(()) => Ok(event),
            Err(fault) => Err(fault),
        }
    }

    /// Appends the canonical spelling, as `GetFlowsResponse::write` does. At `Err` nothing is
    /// appended.
    pub fn write(&self, out: &mut Vec<u8>) -> Result<(), NoMemory>
        ensures ok { OnOk result (out.new.items ≡ out.old.items ++ lost_event_bytes self.now) }
        ensures err { OnErr result (out.new.items ≡ out.old.items) }
    {
        let before = out.len();
        match self.put(out) {
            Ok(()) => Ok(()),
            Err(fault) => {
                out.truncate(before);
                Err(fault)
            }
        }
    }
}
