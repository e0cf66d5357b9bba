//! The parts of a message, written at the end of a vector. What stood there before stays, whatever
//! a call answers.
ghost use Rattle.std.specs.Prelude.{◌≡◌, ◌-◌, ◌≤◌, ◌++◌, length, take, drop, OnOk, OnErr, Some};
ghost use Rattle.std.specs.Option.{option_map};
ghost use Rattle.hb_wire.specs.Field.{IsNumber, spelling};
ghost use Rattle.hb_wire.specs.Varint.{varint};
ghost use Rattle.hb_flow.specs.Messages.{number_field, text_field, message_field};

use crate::message::Message;
use hb_wire::{NoMemory, Seq, write_body, write_number, write_tag, write_varint};

/// The wire type of a field with a body.
const BODY: u8 = 2;

/// A number, where it is not 0.
pub fn put_number(out: &mut Vec<u8>, number: u32, value: u64) -> Result<(), NoMemory>
    requires { IsNumber number }
    ensures ok { OnOk result (out.new.items ≡ out.old.items
        ++ spelling (number_field number value)) }
    ensures front { take (length out.old.items) out.new.items ≡ out.old.items }
{
    match value {
        0 => Ok(()),
        _ => write_number(out, number, value),
    }
}

/// A text, where it is not empty.
pub(crate) fn put_text(out: &mut Vec<u8>, number: u32, text: &str) -> Result<(), NoMemory>
    requires { IsNumber number }
    ensures ok { OnOk result (out.new.items ≡ out.old.items
        ++ spelling (text_field number text.now)) }
    ensures front { take (length out.old.items) out.new.items ≡ out.old.items }
{
    if text.is_empty() {
        return Ok(());
    }
    write_body(out, number, text.as_bytes())
}

/// The bytes of the fields that are not known.
pub fn put_unknown(out: &mut Vec<u8>, unknown: &Seq<u8>) -> Result<(), NoMemory>
    ensures ok { OnOk result (out.new.items ≡ out.old.items ++ unknown.now) }
    ensures front { take (length out.old.items) out.new.items ≡ out.old.items }
{
    out.extend_from_slice(unknown.as_slice())?;
    Ok(())
}

/// A message, where there is one.
pub fn put_optional<M: Message>(
    out: &mut Vec<u8>,
    number: u32,
    part: &Option<M>,
) -> Result<(), NoMemory>
    requires { IsNumber number }
    ensures ok { OnOk result (out.new.items
        ≡ out.old.items ++ spelling (message_field number (option_map M.spelled part.now))) }
    ensures front { take (length out.old.items) out.new.items ≡ out.old.items }
{
    match part {
        None => Ok(()),
        Some(message) => put_message(out, number, message),
    }
}

/// A message as the body of a field. Its bytes are written first, and their length put before them.
pub(crate) fn put_message<M: Message>(
    out: &mut Vec<u8>,
    number: u32,
    message: &M,
) -> Result<(), NoMemory>
    requires { IsNumber number }
    ensures ok { OnOk result (out.new.items
        ≡ out.old.items ++ spelling (message_field number (Some (M.spelled message.now)))) }
    ensures front { take (length out.old.items) out.new.items ≡ out.old.items }
{
    write_tag(out, number, BODY)?;
    let start = out.len();
    message.put(out)?;
    close_body(out, start)
}

/// Puts the length of the bytes from `start` on before them: they are moved once.
fn close_body(out: &mut Vec<u8>, start: usize) -> Result<(), NoMemory>
    requires { start ≤ length out.old.items }
    ensures ok { OnOk result (out.new.items ≡ take start out.old.items
        ++ varint (length out.old.items - start) ++ drop start out.old.items) }
    ensures err { OnErr result (out.new.items ≡ out.old.items) }
{
    let end = out.len();
    write_varint(out, (end - start) as u64)?;
    let size = out.len() - end;
    out[start..].rotate_right(size);
    Ok(())
}
