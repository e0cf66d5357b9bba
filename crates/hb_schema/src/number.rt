//! Numbers in varints: Protocol Buffers encoding guide, "More Integer Types". A negative number is
//! its two's complement of 64 bits.
ghost use Rattle.std.specs.Prelude.{◌≡◌};
ghost use Rattle.std.proofs.Common.{sym};
ghost use Rattle.std.proofs.lemmas.List.{map-id};
ghost use Rattle.hb_schema.specs.Reading.{number_of};
ghost use Rattle.hb_schema.specs.Writing.{varint_of};

/// A number of a message's field.
pub trait Number: Copy {
    ghost use Rattle.std.specs.Prelude.{List, map};
    ghost use Rattle.hb_schema.specs.Rows.{Kind, NumberOf};

    /// Which kind of number.
    ghost kind: { Kind };

    /// The number itself.
    ghost value: { Self → NumberOf kind };

    /// Several numbers.
    ghost values: { List Self → List (NumberOf kind) };

    /// The number that a varint's value stands for; what has too many bits is cut off.
    fn of_varint(varint: u64) -> Self
        ensures { value result ≡ number_of kind varint };

    /// The value of the varint that it is spelled as.
    fn varint(self) -> u64
        ensures { result ≡ varint_of kind (value self) };

    /// They are numbers each.
    ghost each: { (ns : List Self) → values ns ≡ map value ns };
}

impl Number for u32 {
    ghost use Rattle.hb_schema.specs.Rows.{U32};

    ghost kind = { U32 };

    ghost value = { λ n. n };

    ghost values = { λ ns. ns };

    ghost each = { λ ns. sym (map-id ns) };

    fn of_varint(varint: u64) -> u32 {
        (varint % (1 << 32)) as u32
    }

    fn varint(self) -> u64 {
        u64::from(self)
    }
}

impl Number for u64 {
    ghost use Rattle.hb_schema.specs.Rows.{U64};

    ghost kind = { U64 };

    ghost value = { λ n. n };

    ghost values = { λ ns. ns };

    ghost each = { λ ns. sym (map-id ns) };

    fn of_varint(varint: u64) -> u64 {
        varint
    }

    fn varint(self) -> u64 {
        self
    }
}

/// An int32, or an enum.
impl Number for i32 {
    ghost use Rattle.hb_schema.specs.Rows.{I32};

    ghost kind = { I32 };

    ghost value = { λ n. n };

    ghost values = { λ ns. ns };

    ghost each = { λ ns. sym (map-id ns) };

    fn of_varint(varint: u64) -> i32 {
        ((varint % (1 << 32)) as u32).cast_signed()
    }

    fn varint(self) -> u64 {
        i64::from(self).cast_unsigned()
    }
}

impl Number for i64 {
    ghost use Rattle.hb_schema.specs.Rows.{I64};

    ghost kind = { I64 };

    ghost value = { λ n. n };

    ghost values = { λ ns. ns };

    ghost each = { λ ns. sym (map-id ns) };

    fn of_varint(varint: u64) -> i64 {
        varint.cast_signed()
    }

    fn varint(self) -> u64 {
        self.cast_unsigned()
    }
}

impl Number for bool {
    ghost use Rattle.hb_schema.specs.Rows.{Flag};

    ghost kind = { Flag };

    ghost value = { λ b. b };

    ghost values = { λ bs. bs };

    ghost each = { λ bs. sym (map-id bs) };

    fn of_varint(varint: u64) -> bool {
        varint != 0
    }

    fn varint(self) -> u64 {
        u64::from(self)
    }
}
