//! A stamp as a message, the moment of an event: `google.protobuf.Timestamp` (`google/protobuf/timestamp.proto`).
ghost use Rattle.hb_flow.specs.Faults.{stamp_check};
ghost use Rattle.hb_flow.specs.Messages.{stamp_bytes};
ghost use Rattle.hb_flow.specs.Steps.{stamp_after};

use crate::message::Message;
use crate::numbers::{int32, int64, of_signed};
use crate::writing::put_number;
use hb_schema::DecodeFault;
use hb_time::Stamp;
use hb_wire::{Field, NoMemory};
use std::alloc::Global;

impl Message for Stamp {
    ghost check = { stamp_check };

    ghost after = { stamp_after };

    ghost spelled = { stamp_bytes };

    fn take(
        &mut self,
        _alloc: Global,
        field: Field<'_>,
        _raw: &[u8],
        _end: usize,
    ) -> Result<(), DecodeFault> {
        match field {
            Field::Varint { number: 1, value } => self.secs = int64(value),
            Field::Varint { number: 2, value } => self.nanos = int32(value),
            _ => {}
        }
        Ok(())
    }

    #[tactic(auto, using(crate::proofs::Spellings::spelling_two), unfolding(crate::specs::Messages::stamp_bytes))]
    fn put(&self, out: &mut Vec<u8>) -> Result<(), NoMemory> {
        put_number(out, 1, of_signed(self.secs))?;
        put_number(out, 2, of_signed(i64::from(self.nanos)))
    }
}
