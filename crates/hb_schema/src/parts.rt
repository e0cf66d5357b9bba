//! What a field is read as: a text, numbers, or bytes that are not looked into.
ghost use Rattle.std.specs.Prelude.{◌≡◌, ◌+◌, ◌<◌, ◌^◌, ◌++◌, [], ◌∷◌, length, map, None};
ghost use Rattle.hb_schema.specs.Fields.{unpacked};
ghost use Rattle.hb_schema.specs.Reading.{number_of};
ghost use Rattle.hb_schema.specs.Faults.{Answers, text_fault, packed_fault};

use crate::{DecodeFault, Number};
use hb_wire::{Seq, Text, read_varint};
use std::alloc::Global;

/// The text of a body, which stands at this place.
pub fn text_of(alloc: Global, body: &[u8], place: usize) -> Result<Text, DecodeFault>
    ensures { Answers result (text_fault place body.now) (λ text. text ≡ body.now) }
{
    match str::from_utf8(body) {
        Ok(text) => match Text::of(alloc, text) {
            Ok(text) => Ok(text),
            Err(_) => Err(DecodeFault::NoMemory),
        },
        Err(_) => Err(DecodeFault::BadUtf8 { at: place }),
    }
}

/// Reads the text of a body, which stands at this place, in place of the one before.
pub fn set_text(
    alloc: Global,
    held: &mut Text,
    body: &[u8],
    place: usize,
) -> Result<(), DecodeFault>
    ensures { Answers result (text_fault place body.now) (λ _. held.new ≡ body.now) }
{
    match text_of(alloc, body, place) {
        Ok(text) => {
            *held = text;
            Ok(())
        }
        Err(fault) => Err(fault),
    }
}

/// Puts the text of a body, which stands at this place, behind the others.
pub fn push_text(
    alloc: Global,
    held: &mut Seq<Text>,
    body: &[u8],
    place: usize,
) -> Result<(), DecodeFault>
    ensures { Answers result (text_fault place body.now)
        (λ _. held.new ≡ held.old ++ body.now ∷ []) }
{
    match text_of(alloc, body, place) {
        Ok(text) => match held.push(text) {
            Ok(()) => Ok(()),
            Err(_) => Err(DecodeFault::NoMemory),
        },
        Err(fault) => Err(fault),
    }
}

/// Puts the number of a varint behind the others.
pub fn push_number<N: Number>(held: &mut Seq<N>, varint: u64) -> Result<(), DecodeFault>
    ensures { Answers result None (λ _. N.values held.new
        ≡ N.values held.old ++ number_of N.kind varint ∷ []) }
{
    match held.push(N::of_varint(varint)) {
        Ok(()) => Ok(()),
        Err(_) => Err(DecodeFault::NoMemory),
    }
}

/// Puts the numbers of a packed list, which stands at this place, behind the others.
pub fn push_packed<N: Number>(
    held: &mut Seq<N>,
    body: &[u8],
    place: usize,
) -> Result<(), DecodeFault>
    requires { place + length body.now < 2 ^ 64 }
    ensures { Answers result (packed_fault place body.now) (λ _. N.values held.new
        ≡ N.values held.old ++ map (number_of N.kind) (unpacked body.now)) }
{
    let mut at = 0;
    while at < body.len() {
        let (varint, end) = match read_varint(body, at) {
            Ok(found) => found,
            Err(_) => return Err(DecodeFault::Malformed { at: place + at }),
        };
        match push_number(held, varint) {
            Ok(()) => at = end,
            Err(fault) => return Err(fault),
        }
    }
    Ok(())
}

/// The bytes of a body that is not looked into.
pub fn bytes_of(alloc: Global, body: &[u8]) -> Result<Seq<u8>, DecodeFault>
    ensures { Answers result None (λ bytes. bytes ≡ body.now) }
{
    let Ok(mut bytes) = Seq::new(alloc) else {
        return Err(DecodeFault::NoMemory);
    };
    match keep_unknown(&mut bytes, body) {
        Ok(()) => Ok(bytes),
        Err(fault) => Err(fault),
    }
}

/// Keeps the bytes of a field that is not known, behind those of the ones before it.
pub fn keep_unknown(unknown: &mut Seq<u8>, raw: &[u8]) -> Result<(), DecodeFault>
    ensures { Answers result None (λ _. unknown.new ≡ unknown.old ++ raw.now) }
{
    match unknown.extend_from_slice(raw) {
        Ok(()) => Ok(()),
        Err(_) => Err(DecodeFault::NoMemory),
    }
}
