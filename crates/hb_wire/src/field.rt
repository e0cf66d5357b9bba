//! One field of a message's bytes.

/// A field: its number and, by wire type, what it holds. A body is the part of the message that it
/// spells.
#[derive(Clone, Copy, Debug, PartialEq, Eq)]
pub enum Field<'a> {
    Varint { number: u32, value: u64 },
    Fixed64 { number: u32, value: u64 },
    Body { number: u32, body: &'a [u8] },
    Fixed32 { number: u32, value: u32 },
}
