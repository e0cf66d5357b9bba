//! Signed numbers in varints: Protocol Buffers encoding guide, "Signed Integers", two's complement.
ghost use Rattle.std.specs.Prelude.{◌≡◌};
ghost use Rattle.hb_flow.specs.Messages.{int64, int32, of_signed};

/// A varint's number as an int64.
pub(crate) fn int64(value: u64) -> i64
    ensures { result ≡ int64 value }
{
    value.cast_signed()
}

/// The low 32 bits of a varint's number as an int32 or an enum.
pub(crate) fn int32(value: u64) -> i32
    ensures { result ≡ int32 value }
{
    ((value % (1 << 32)) as u32).cast_signed()
}

/// The number that a varint spells an int64 with; an int32 is widened first.
pub(crate) fn of_signed(value: i64) -> u64
    ensures { result ≡ of_signed value }
{
    value.cast_unsigned()
}
