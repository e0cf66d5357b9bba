//! A message: read one field after another, and written at the end of a vector.
ghost use Rattle.std.specs.Prelude.{◌≡◌, ◌+◌, ◌<◌, ◌≤◌, ◌^◌, ◌++◌, [], ◌∷◌, length, map, OnOk, OnErr, IsOk, IfOk, Some, None};
ghost use Rattle.std.specs.Option.{option_map};
ghost use Rattle.hb_wire.specs.Field.{piece_of};
ghost use Rattle.hb_schema.specs.Rows.{nothing};
ghost use Rattle.hb_schema.specs.Reading.{reads};
ghost use Rattle.hb_schema.specs.Writing.{writes};
ghost use Rattle.hb_schema.specs.Fits.{Fits};
ghost use Rattle.hb_schema.specs.Faults.{Answers, body_size, content_fault, row_fault};
ghost use Rattle.hb_schema.specs.Steps.{merged, onto, kept_onto, IsFront};
ghost use Rattle.hb_schema.specs.Surface.{taking, body_fault};

use crate::DecodeFault;
use hb_wire::{Field, NoMemory, Seq, next_field};
use std::alloc::Global;

/// A message of the table: a row, what it means by that row, and how it is read and written, one
/// field after another.
pub trait Message: Drop {
    ghost use Rattle.std.specs.Prelude.{ℕ, List};
    ghost use Rattle.hb_schema.specs.Rows.{Row, Meaning, IsRow};

    /// Its row.
    ghost shape: { Row };

    /// Its values, in the order of the row, and the bytes of fields that are not known.
    ghost view: { Self → Meaning shape };

    /// The message of no field. It takes no memory.
    fn none(alloc: Global) -> Result<Self, NoMemory>
        ensures ok { IsOk result }
        ensures empty { IfOk result (λ message. view message ≡ nothing shape) };

    /// Takes one field, which ends at this place. Where it is not known, `raw` is what is kept of it.
    fn take(
        &mut self,
        alloc: Global,
        field: Field<'_>,
        raw: &[u8],
        end: usize,
    ) -> Result<(), DecodeFault>
        requires { body_size (piece_of field) ≤ end }
        ensures { Answers result (content_fault (body_fault shape) end (piece_of field.entry))
            (λ _. view self.new ≡ taking shape (view self.old)
            (record { raw = raw.now; field = piece_of field.entry })) };

    /// Writes the fields by ascending number, and what is not known. What stood in front stays,
    /// whatever it answers.
    fn put(&self, out: &mut Vec<u8>) -> Result<(), NoMemory>
        ensures ok { OnOk result (out.new.items ≡ kept_onto
            (onto shape out.old.items (view self.now).0) (view self.now).1) }
        ensures front { (front : List ℕ) → IsFront front out.old.items
            → IsFront front out.new.items };

    /// Its row is the row of a message.
    ghost is_row: { IsRow shape };
}

/// Takes all the fields of the bytes, which stand at this place, into the message. At `Err` it has
/// those before the fault.
pub fn merge<M: Message>(
    alloc: Global,
    message: &mut M,
    bytes: &[u8],
    place: usize,
) -> Result<(), DecodeFault>
    requires { place + length bytes.now < 2 ^ 64 }
    ensures { Answers result (row_fault M.shape place bytes.now)
        (λ _. M.view message.new ≡ merged M.shape (Some (M.view message.old)) bytes.now) }
{
    let mut at = 0;
    while at < bytes.len() {
        let (field, end) = match next_field(bytes, at) {
            Ok(found) => found,
            Err(_) => return Err(DecodeFault::Malformed { at: place + at }),
        };
        match message.take(alloc, field, &bytes[at..end], place + end) {
            Ok(()) => at = end,
            Err(fault) => return Err(fault),
        }
    }
    Ok(())
}

/// The message of a body, which stands at this place.
pub fn fresh<M: Message>(alloc: Global, body: &[u8], place: usize) -> Result<M, DecodeFault>
    requires { place + length body.now < 2 ^ 64 }
    ensures { Answers result (row_fault M.shape place body.now)
        (λ message. M.view message ≡ merged M.shape None body.now) }
{
    let Ok(mut message) = M::none(alloc) else {
        return Err(DecodeFault::NoMemory);
    };
    match merge(alloc, &mut message, body, place) {
        Ok(()) => Ok(message),
        Err(fault) => Err(fault),
    }
}

/// Takes the fields of one more body, which stands at this place, into a message that may be absent.
pub fn merge_into<M: Message>(
    alloc: Global,
    held: &mut Option<M>,
    body: &[u8],
    place: usize,
) -> Result<(), DecodeFault>
    requires { place + length body.now < 2 ^ 64 }
    ensures { Answers result (row_fault M.shape place body.now)
        (λ _. option_map M.view held.new
        ≡ Some (merged M.shape (option_map M.view held.old) body.now)) }
{
    match held {
        Some(message) => merge(alloc, message, body, place),
        None => match fresh(alloc, body, place) {
            Ok(message) => {
                *held = Some(message);
                Ok(())
            }
            Err(fault) => Err(fault),
        },
    }
}

/// Puts the message of one more body, which stands at this place, behind the others.
pub fn push_message<M: Message>(
    alloc: Global,
    held: &mut Seq<M>,
    body: &[u8],
    place: usize,
) -> Result<(), DecodeFault>
    requires { place + length body.now < 2 ^ 64 }
    ensures { Answers result (row_fault M.shape place body.now)
        (λ _. map M.view held.new
        ≡ map M.view held.old ++ merged M.shape None body.now ∷ []) }
{
    match fresh(alloc, body, place) {
        Ok(message) => match held.push(message) {
            Ok(()) => Ok(()),
            Err(_) => Err(DecodeFault::NoMemory),
        },
        Err(fault) => Err(fault),
    }
}

/// Reads a message (Protocol Buffers encoding guide): the fault with the least place, or what the
/// bytes mean. Goes through the bytes once, and copies texts, lists, and the bytes of what is not
/// known.
pub fn read<M: Message>(alloc: Global, bytes: &[u8]) -> Result<M, DecodeFault>
    ensures reads { Answers result (row_fault M.shape 0 bytes.now)
        (λ message. M.view message ≡ reads M.shape bytes.now) }
    ensures fits { IfOk result (λ message. Fits M.shape (M.view message)) }
{
    fresh(alloc, bytes, 0)
}

/// Appends the canonical spelling of a message (Protocol Buffers encoding guide): ascending
/// numbers, shortest varints, no number 0 and no empty text or list, lists of numbers packed, and
/// behind them what is not known. A message in it is moved once for each that it is in. At `Err`
/// nothing is appended.
pub fn write<M: Message>(message: &M, out: &mut Vec<u8>) -> Result<(), NoMemory>
    ensures ok { OnOk result (out.new.items
        ≡ out.old.items ++ writes M.shape (M.view message.now)) }
    ensures err { OnErr result (out.new.items ≡ out.old.items) }
{
    let before = out.len();
    match message.put(out) {
        Ok(()) => Ok(()),
        Err(fault) => {
            out.truncate(before);
            Err(fault)
        }
    }
}
