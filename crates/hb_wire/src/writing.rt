//! Writing varints and fields at the end of a vector.

ghost use Rattle.std.specs.Prelude.{◌≡◌, ◌+◌, ◌*◌, ◌^◌, ◌<◌, ◌≤◌, ◌++◌, length, take, OnOk, OnErr};
ghost use Rattle.hb_wire.specs.Varint.{varint};
ghost use Rattle.hb_wire.specs.Field.{Body, Varint, IsNumber, spelled};

use crate::no_memory::NoMemory;

const LONGEST: usize = 10;

/// The bytes of the shortest varint, and how many they are.
fn varint_bytes(value: u64) -> ([u8; LONGEST], usize)
    ensures bytes { take result.1 result.0 ≡ varint value }
    ensures size { result.1 ≤ 10 }
{
    let mut bytes = [0; LONGEST];
    let mut left = value;
    let mut size = 0;
    while left >= 128 {
        bytes[size] = (left % 128 + 128) as u8;
        left /= 128;
        size += 1;
    }
    bytes[size] = left as u8;
    (bytes, size + 1)
}

/// Writes the shortest varint of `value` (Protocol Buffers encoding guide, "Base 128 Varints").
pub fn write_varint(out: &mut Vec<u8>, value: u64) -> Result<(), NoMemory>
    ensures ok { OnOk result (out.new.items ≡ out.old.items ++ varint value) }
    ensures err { OnErr result (out.new.items ≡ out.old.items) }
{
    let (bytes, size) = varint_bytes(value);
    out.extend_from_slice(&bytes[..size])?;
    Ok(())
}

/// Writes the tag of a field: the shortest varint of 8 times its number and its wire type `kind`.
pub fn write_tag(out: &mut Vec<u8>, number: u32, kind: u8) -> Result<(), NoMemory>
    ensures ok { OnOk result (out.new.items ≡ out.old.items ++ varint (8 * number + kind)) }
    ensures err { OnErr result (out.new.items ≡ out.old.items) }
{
    write_varint(out, 8 * u64::from(number) + u64::from(kind))
}

/// Takes back what was written from `before` on, where memory ran out.
fn whole(out: &mut Vec<u8>, before: usize, written: Result<(), NoMemory>) -> Result<(), NoMemory>
    ensures value { result ≡ written }
    ensures ok { OnOk result (out.new.items ≡ out.old.items) }
    ensures err { OnErr result (out.new.items ≡ take before out.old.items) }
{
    if written.is_err() {
        out.truncate(before);
    }
    written
}

fn put_body(out: &mut Vec<u8>, number: u32, body: &[u8]) -> Result<(), NoMemory>
    requires { IsNumber number }
    ensures ok { OnOk result (out.new.items ≡ out.old.items
        ++ spelled (record { number = number; content = Body body.now })) }
    ensures front { take (length out.old.items) out.new.items ≡ out.old.items }
{
    write_tag(out, number, 2)?;
    write_varint(out, body.len() as u64)?;
    out.extend_from_slice(body)?;
    Ok(())
}

/// Writes a whole field of wire type 2. Where memory runs out, `out` is as before.
pub fn write_body(out: &mut Vec<u8>, number: u32, body: &[u8]) -> Result<(), NoMemory>
    requires { IsNumber number }
    ensures ok { OnOk result (out.new.items ≡ out.old.items
        ++ spelled (record { number = number; content = Body body.now })) }
    ensures err { OnErr result (out.new.items ≡ out.old.items) }
{
    let before = out.len();
    let written = put_body(out, number, body);
    whole(out, before, written)
}

fn put_number(out: &mut Vec<u8>, number: u32, value: u64) -> Result<(), NoMemory>
    requires { IsNumber number }
    ensures ok { OnOk result (out.new.items ≡ out.old.items
        ++ spelled (record { number = number; content = Varint value })) }
    ensures front { take (length out.old.items) out.new.items ≡ out.old.items }
{
    write_tag(out, number, 0)?;
    write_varint(out, value)
}

/// Writes a whole field of wire type 0. Where memory runs out, `out` is as before.
pub fn write_number(out: &mut Vec<u8>, number: u32, value: u64) -> Result<(), NoMemory>
    requires { IsNumber number }
    ensures ok { OnOk result (out.new.items ≡ out.old.items
        ++ spelled (record { number = number; content = Varint value })) }
    ensures err { OnErr result (out.new.items ≡ out.old.items) }
{
    let before = out.len();
    let written = put_number(out, number, value);
    whole(out, before, written)
}
