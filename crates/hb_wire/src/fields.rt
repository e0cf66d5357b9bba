//! Reading a field.

ghost use Rattle.std.specs.Prelude.{◌≡◌, ℕ, ◌+◌, ◌<◌, ◌≤◌, ◌/◌, length, drop, slice_range, IfSome, MatchOption, IfOk, IfErr};
ghost use Rattle.hb_wire.specs.Field.{Piece, piece_of, IsNumber, SpellsField, LiesAt};
ghost use Rattle.hb_wire.specs.Reading.{fixed64_at, fixed32_at, body_at, content_at, field_at, numbered, found_piece, ReadsAt};

use crate::field::Field;
use crate::malformed::Malformed;
use crate::varint::varint_front;

#[tactic(auto, unfolding(crate::specs::Reading::fixed64_at))]
fn fixed64_front(number: u32, bytes: &[u8]) -> Option<(Field<'_>, usize)>
    ensures value { found_piece result ≡ numbered number (fixed64_at bytes.now) }
    ensures within { IfSome result (λ r. r.1 ≤ length bytes.now) }
{
    let bytes = bytes.first_chunk::<8>()?;
    let value = u64::from_le_bytes(*bytes);
    Some((Field::Fixed64 { number, value }, 8))
}

#[tactic(auto, unfolding(crate::specs::Reading::fixed32_at))]
fn fixed32_front(number: u32, bytes: &[u8]) -> Option<(Field<'_>, usize)>
    ensures value { found_piece result ≡ numbered number (fixed32_at bytes.now) }
    ensures within { IfSome result (λ r. r.1 ≤ length bytes.now) }
{
    let bytes = bytes.first_chunk::<4>()?;
    let value = u32::from_le_bytes(*bytes);
    Some((Field::Fixed32 { number, value }, 4))
}

#[tactic(auto, unfolding(crate::specs::Reading::body_at))]
fn body_front(number: u32, bytes: &[u8]) -> Option<(Field<'_>, usize)>
    ensures value { found_piece result ≡ numbered number (body_at bytes.now) }
    ensures within { IfSome result (λ r. r.1 ≤ length bytes.now) }
{
    let (size, start) = varint_front(bytes)?;
    let rest = &bytes[start..];
    let size = size as usize;
    if rest.len() < size {
        return None;
    }
    let body = &rest[..size];
    Some((Field::Body { number, body }, start + size))
}

/// The content of the wire type `kind` at the front of `bytes`, and how many bytes it takes.
#[tactic(auto, unfolding(crate::specs::Reading::content_at))]
fn content_front(number: u32, kind: u64, bytes: &[u8]) -> Option<(Field<'_>, usize)>
    ensures value { found_piece result ≡ numbered number (content_at kind bytes.now) }
    ensures within { IfSome result (λ r. r.1 ≤ length bytes.now) }
{
    match kind {
        0 => {
            let (value, size) = varint_front(bytes)?;
            Some((Field::Varint { number, value }, size))
        }
        1 => fixed64_front(number, bytes),
        2 => body_front(number, bytes),
        5 => fixed32_front(number, bytes),
        _ => None,
    }
}

/// The number in a tag, where a field can have it.
fn number_of(tag: u64) -> Option<u32>
    ensures { MatchOption result (IsNumber (tag / 8) → ⊥)
        (λ number. (number ≡ tag / 8) × IsNumber number) }
{
    let number = tag / 8;
    if number == 0 || number >= 1 << 29 {
        return None;
    }
    Some(number as u32)
}

/// The field at the front of `bytes`, and how many bytes it takes.
#[tactic(auto, unfolding(crate::specs::Reading::field_at))]
fn field_front(bytes: &[u8]) -> Option<(Field<'_>, usize)>
    ensures value { found_piece result ≡ field_at bytes.now }
    ensures within { IfSome result (λ r. r.1 ≤ length bytes.now) }
{
    let (tag, start) = varint_front(bytes)?;
    let number = number_of(tag)?;
    let (field, size) = content_front(number, tag % 8, &bytes[start..])?;
    Some((field, start + size))
}

/// The field at `at` (Protocol Buffers encoding guide, "Message Structure"; wire types 0, 1, 2 and
/// 5), and where it ends.
///
/// Malformed at `at` where no field starts there.
pub fn next_field(bytes: &[u8], at: usize) -> Result<(Field<'_>, usize), Malformed>
    requires { at < length bytes.now }
    ensures found { IfOk result (λ r. (at < r.1) × (r.1 ≤ length bytes.now)
        × SpellsField (slice_range bytes.now at r.1) (piece_of r.0)) }
    ensures malformed { IfErr result (λ e. (e.at ≡ at) × ((piece : Piece) (end : ℕ)
        → SpellsField (slice_range bytes.now at end) piece → ⊥)) }
    ensures number { IfOk result (λ r. IsNumber (piece_of r.0).number) }
    ensures body { IfOk result (λ r. LiesAt bytes.now r.1 (piece_of r.0).content) }
    ensures reads { ReadsAt piece_of at result (field_at (drop at bytes.now)) }
{
    match field_front(&bytes[at..]) {
        Some((field, size)) => Ok((field, at + size)),
        None => Err(Malformed { at }),
    }
}
