//! Numbers that may be absent: `google/protobuf/wrappers.proto`.
ghost use Rattle.hb_schema.specs.Table.{uint32_value_row, int32_value_row, bool_value_row};
ghost use Rattle.hb_schema.specs.Views.{uint32_value_view, int32_value_view, bool_value_view};
ghost use Rattle.std.proofs.Common.{rules};

use crate::DecodeFault;
use crate::message::Message;
use crate::number::Number;
use crate::writing::put_number;
use hb_wire::{Field, NoMemory};
use std::alloc::Global;

/// `google.protobuf.UInt32Value`.
#[derive(Clone, Copy, Debug, PartialEq, Eq)]
pub struct UInt32Value {
    pub value: u32,
}

/// `google.protobuf.Int32Value`.
#[derive(Clone, Copy, Debug, PartialEq, Eq)]
pub struct Int32Value {
    pub value: i32,
}

/// `google.protobuf.BoolValue`.
#[derive(Clone, Copy, Debug, PartialEq, Eq)]
pub struct BoolValue {
    pub value: bool,
}

impl Message for UInt32Value {
    ghost shape = { uint32_value_row };

    ghost view = { uint32_value_view };

    fn none(_alloc: Global) -> Result<UInt32Value, NoMemory> {
        Ok(UInt32Value { value: 0 })
    }

    fn take(
        &mut self,
        _alloc: Global,
        field: Field<'_>,
        _raw: &[u8],
        _end: usize,
    ) -> Result<(), DecodeFault> {
        if let Field::Varint { number: 1, value } = field {
            self.value = u32::of_varint(value);
        }
        Ok(())
    }

    fn put(&self, out: &mut Vec<u8>) -> Result<(), NoMemory> {
        put_number(out, 1, self.value)
    }

    ghost is_row = { Prim.search rules };
}

impl Message for Int32Value {
    ghost shape = { int32_value_row };

    ghost view = { int32_value_view };

    fn none(_alloc: Global) -> Result<Int32Value, NoMemory> {
        Ok(Int32Value { value: 0 })
    }

    fn take(
        &mut self,
        _alloc: Global,
        field: Field<'_>,
        _raw: &[u8],
        _end: usize,
    ) -> Result<(), DecodeFault> {
        if let Field::Varint { number: 1, value } = field {
            self.value = i32::of_varint(value);
        }
        Ok(())
    }

    fn put(&self, out: &mut Vec<u8>) -> Result<(), NoMemory> {
        put_number(out, 1, self.value)
    }

    ghost is_row = { Prim.search rules };
}

impl Message for BoolValue {
    ghost shape = { bool_value_row };

    ghost view = { bool_value_view };

    fn none(_alloc: Global) -> Result<BoolValue, NoMemory> {
        Ok(BoolValue { value: false })
    }

    fn take(
        &mut self,
        _alloc: Global,
        field: Field<'_>,
        _raw: &[u8],
        _end: usize,
    ) -> Result<(), DecodeFault> {
        if let Field::Varint { number: 1, value } = field {
            self.value = bool::of_varint(value);
        }
        Ok(())
    }

    fn put(&self, out: &mut Vec<u8>) -> Result<(), NoMemory> {
        put_number(out, 1, self.value)
    }

    ghost is_row = { Prim.search rules };
}
