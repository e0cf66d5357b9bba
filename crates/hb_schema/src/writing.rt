//! The fields of a message, written at the end of a vector. What stood in front stays, whatever a
//! call answers.
ghost use Rattle.std.specs.Prelude.{◌≡◌, ℕ, ◌-◌, ◌≤◌, ◌++◌, List, length, take, drop, map, OnOk, OnErr, Some};
ghost use Rattle.std.specs.Option.{option_map};
ghost use Rattle.hb_wire.specs.Field.{IsNumber};
ghost use Rattle.hb_wire.specs.Varint.{varint};
ghost use Rattle.hb_schema.specs.Writing.{varint_of, packed, writes};
ghost use Rattle.hb_schema.specs.Steps.{number_onto, text_onto, body_onto, bodies_onto, kept_onto, IsFront};

use crate::{Message, Number};
use hb_wire::{NoMemory, Seq, Text, write_body, write_number, write_tag, write_varint};

/// The wire type of a field with a body.
const BODY: u8 = 2;

/// A number, where it is not 0.
pub fn put_number<N: Number>(out: &mut Vec<u8>, number: u32, value: N) -> Result<(), NoMemory>
    requires { IsNumber number }
    ensures ok { OnOk result (out.new.items
        ≡ number_onto number out.old.items (varint_of N.kind (N.value value))) }
    ensures front { (front : List ℕ) → IsFront front out.old.items → IsFront front out.new.items }
{
    match value.varint() {
        0 => Ok(()),
        varint => write_number(out, number, varint),
    }
}

/// Numbers, as one packed list, where there are any.
pub fn put_numbers<N: Number>(
    out: &mut Vec<u8>,
    number: u32,
    values: &Seq<N>,
) -> Result<(), NoMemory>
    requires { IsNumber number }
    ensures ok { OnOk result (out.new.items ≡ text_onto number out.old.items
        (packed (map (varint_of N.kind) (N.values values.now)))) }
    ensures front { (front : List ℕ) → IsFront front out.old.items → IsFront front out.new.items }
{
    if values.as_slice().is_empty() {
        return Ok(());
    }
    write_tag(out, number, BODY)?;
    let start = out.len();
    put_varints(out, values)?;
    close_body(out, start)
}

/// The varints of numbers, one after another.
fn put_varints<N: Number>(out: &mut Vec<u8>, values: &Seq<N>) -> Result<(), NoMemory>
    ensures ok { OnOk result (out.new.items
        ≡ out.old.items ++ packed (map (varint_of N.kind) (N.values values.now))) }
    ensures front { (front : List ℕ) → IsFront front out.old.items → IsFront front out.new.items }
{
    for value in values.as_slice() {
        write_varint(out, value.varint())?;
    }
    Ok(())
}

/// A text, where it is not empty.
pub fn put_text(out: &mut Vec<u8>, number: u32, text: &Text) -> Result<(), NoMemory>
    requires { IsNumber number }
    ensures ok { OnOk result (out.new.items ≡ text_onto number out.old.items text.now) }
    ensures front { (front : List ℕ) → IsFront front out.old.items → IsFront front out.new.items }
{
    match text.as_str().as_bytes() {
        [] => Ok(()),
        bytes => write_body(out, number, bytes),
    }
}

/// Texts, each whether or not it is empty.
pub fn put_texts(out: &mut Vec<u8>, number: u32, texts: &Seq<Text>) -> Result<(), NoMemory>
    requires { IsNumber number }
    ensures ok { OnOk result (out.new.items ≡ bodies_onto number out.old.items texts.now) }
    ensures front { (front : List ℕ) → IsFront front out.old.items → IsFront front out.new.items }
{
    for text in texts.as_slice() {
        write_body(out, number, text.as_str().as_bytes())?;
    }
    Ok(())
}

/// A body that is not looked into, whether or not it is empty.
pub fn put_bytes(out: &mut Vec<u8>, number: u32, bytes: &Seq<u8>) -> Result<(), NoMemory>
    requires { IsNumber number }
    ensures ok { OnOk result (out.new.items ≡ body_onto number out.old.items (Some bytes.now)) }
    ensures front { (front : List ℕ) → IsFront front out.old.items → IsFront front out.new.items }
{
    write_body(out, number, bytes.as_slice())
}

/// A message, whether or not it is empty: its bytes are written first, and their length put before
/// them.
pub fn put_message<M: Message>(out: &mut Vec<u8>, number: u32, message: &M) -> Result<(), NoMemory>
    requires { IsNumber number }
    ensures ok { OnOk result (out.new.items ≡ body_onto number out.old.items
        (Some (writes M.shape (M.view message.now)))) }
    ensures front { (front : List ℕ) → IsFront front out.old.items → IsFront front out.new.items }
{
    write_tag(out, number, BODY)?;
    let start = out.len();
    message.put(out)?;
    close_body(out, start)
}

/// A message, where there is one.
pub fn put_optional<M: Message>(
    out: &mut Vec<u8>,
    number: u32,
    held: &Option<M>,
) -> Result<(), NoMemory>
    requires { IsNumber number }
    ensures ok { OnOk result (out.new.items ≡ body_onto number out.old.items
        (option_map (writes M.shape) (option_map M.view held.now))) }
    ensures front { (front : List ℕ) → IsFront front out.old.items → IsFront front out.new.items }
{
    match held {
        None => Ok(()),
        Some(message) => put_message(out, number, message),
    }
}

/// Messages.
pub fn put_messages<M: Message>(
    out: &mut Vec<u8>,
    number: u32,
    messages: &Seq<M>,
) -> Result<(), NoMemory>
    requires { IsNumber number }
    ensures ok { OnOk result (out.new.items ≡ bodies_onto number out.old.items
        (map (writes M.shape) (map M.view messages.now))) }
    ensures front { (front : List ℕ) → IsFront front out.old.items → IsFront front out.new.items }
{
    for message in messages.as_slice() {
        put_message(out, number, message)?;
    }
    Ok(())
}

/// The bytes of the fields that are not known.
pub fn put_unknown(out: &mut Vec<u8>, unknown: &Seq<u8>) -> Result<(), NoMemory>
    ensures ok { OnOk result (out.new.items ≡ kept_onto out.old.items unknown.now) }
    ensures front { (front : List ℕ) → IsFront front out.old.items → IsFront front out.new.items }
{
    out.extend_from_slice(unknown.as_slice())?;
    Ok(())
}

/// Puts the length of the bytes from `start` on before them: they are moved once.
fn close_body(out: &mut Vec<u8>, start: usize) -> Result<(), NoMemory>
    requires { start ≤ length out.old.items }
    ensures ok { OnOk result (out.new.items ≡ take start out.old.items
        ++ varint (length out.old.items - start) ++ drop start out.old.items) }
    ensures front { (front : List ℕ) → length front ≤ start → IsFront front out.old.items
        → IsFront front out.new.items }
{
    let end = out.len();
    write_varint(out, (end - start) as u64)?;
    let size = out.len() - end;
    out[start..].rotate_right(size);
    Ok(())
}
