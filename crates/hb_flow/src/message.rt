//! A message: read one field after another, and written at the end of a vector.
ghost use Rattle.std.specs.Prelude.{◌≡◌, ◌+◌, ◌<◌, ◌≤◌, ◌^◌, ◌++◌, length, take, OnOk};
ghost use Rattle.std.specs.List.{fold};
ghost use Rattle.hb_wire.specs.Field.{piece_of};
ghost use Rattle.hb_flow.specs.Fields.{parts};
ghost use Rattle.hb_flow.specs.Faults.{Answers, content_fault, message_fault, body_size};

use hb_schema::DecodeFault;
use hb_wire::{Field, NoMemory, next_field};
use std::alloc::Global;

/// A message that is read one field after another.
pub trait Message {
    ghost use Rattle.std.specs.Prelude.{ℕ, List};
    ghost use Rattle.hb_flow.specs.Fields.{Part};
    ghost use Rattle.hb_flow.specs.Faults.{Check};

    /// What is wrong in the body of a field, by the field's number and the place of the body.
    ghost check: { Check };

    /// The message with one more field.
    ghost after: { Self → Part → Self };

    /// Its spelling.
    ghost spelled: { Self → List ℕ };

    /// Takes one field, which these bytes spell and which ends at this place.
    fn take(
        &mut self,
        alloc: Global,
        field: Field<'_>,
        raw: &[u8],
        end: usize,
    ) -> Result<(), DecodeFault>
        requires { body_size (piece_of field) ≤ end }
        ensures { Answers result (content_fault check end (piece_of field.entry))
            (λ _. self.new
            ≡ after self.old (record { raw = raw.now; field = piece_of field.entry })) };

    /// Writes the spelling. What stood there before stays, whatever it answers.
    fn put(&self, out: &mut Vec<u8>) -> Result<(), NoMemory>
        ensures ok { OnOk result (out.new.items ≡ out.old.items ++ spelled self.now) }
        ensures front { take (length out.old.items) out.new.items ≡ out.old.items };
}

/// Takes all the fields of the bytes, which stand at this place.
pub fn merge<M: Message>(
    alloc: Global,
    message: &mut M,
    bytes: &[u8],
    place: usize,
) -> Result<(), DecodeFault>
    requires { place + length bytes.now < 2 ^ 64 }
    ensures { Answers result (message_fault M.check place bytes.now)
        (λ _. message.new ≡ fold M.after message.old (parts bytes.now)) }
{
    let mut at = 0;
    while at < bytes.len() {
        let (field, end) = match next_field(bytes, at) {
            Ok(found) => found,
            Err(_) => return Err(DecodeFault::Malformed { at: place + at }),
        };
        match message.take(alloc, field, &bytes[at..end], place + end) {
            Ok(()) => at = end,
            Err(fault) => return Err(fault),
        }
    }
    Ok(())
}
