//! A moment: `google.protobuf.Timestamp` (`google/protobuf/timestamp.proto`).
ghost use Rattle.hb_schema.specs.Table.{timestamp_row};
ghost use Rattle.hb_schema.specs.Views.{stamp_view};
ghost use Rattle.std.proofs.Common.{rules};

use crate::DecodeFault;
use crate::message::Message;
use crate::number::Number;
use crate::writing::put_number;
use hb_time::Stamp;
use hb_wire::{Field, NoMemory};
use std::alloc::Global;

impl Message for Stamp {
    ghost shape = { timestamp_row };

    ghost view = { stamp_view };

    fn none(_alloc: Global) -> Result<Stamp, NoMemory> {
        Ok(Stamp { secs: 0, nanos: 0 })
    }

    fn take(
        &mut self,
        _alloc: Global,
        field: Field<'_>,
        _raw: &[u8],
        _end: usize,
    ) -> Result<(), DecodeFault> {
        match field {
            Field::Varint { number: 1, value } => self.secs = i64::of_varint(value),
            Field::Varint { number: 2, value } => self.nanos = i32::of_varint(value),
            _ => {}
        }
        Ok(())
    }

    fn put(&self, out: &mut Vec<u8>) -> Result<(), NoMemory> {
        put_number(out, 1, self.secs)?;
        put_number(out, 2, self.nanos)
    }

    ghost is_row = { Prim.search rules };
}
