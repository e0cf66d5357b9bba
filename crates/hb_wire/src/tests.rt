//! Bytes worked out by hand from the encoding guide.

use super::*;
use hb_cases::{bytes, digits, number, rows};
use std::alloc::Global;
use std::process::Abort;
use std::test::*;

fn varint_in(bytes: &[u8]) -> Option<(u64, usize)> {
    if bytes.is_empty() {
        None
    } else {
        read_varint(bytes, 0).ok()
    }
}

fn field_in(bytes: &[u8]) -> Option<(Field<'_>, usize)> {
    if bytes.is_empty() {
        None
    } else {
        next_field(bytes, 0).ok()
    }
}

/// Compares, row by row, what is told of the first cell with the second.
fn all_told(
    rt: &impl Abort,
    alloc: Global,
    table: &str,
    told: fn(Global, &str) -> Result<String, Fail>,
) -> Result<(), Fail>
    requires { IsAlwaysCallable told }
{
    for row in rows(alloc, table)? {
        let words = told(alloc, row.cell(0))?;
        assert_eq!(rt; words.as_str(), row.cell(1), "{row}");
    }
    Ok(())
}

/// Bytes, and how many of them the varint at their front takes, with its number.
const VARINTS: &str = "
    00 | 1: 0
    7f 01 | 1: 127
    8001 | 2: 128
    ac02 05 | 2: 300
    # Longer than needed.
    8000 | 2: 0
    808000 | 3: 0
    # 2^64 - 1, and 1.
    ffffffffffffffffff01 | 10: 18446744073709551615
    81808080808080808000 | 10: 1
";

/// Bytes that start no varint.
const NO_VARINTS: &str = "
    # A tenth byte above 1, one that goes on, and eleven bytes.
    ffffffffffffffffff02
    ffffffffffffffffff8100
    80*11
    # Cut.
    80
    ffff
";

/// The varint at the front in words, where there is one.
fn varint_words(alloc: Global, cell: &str) -> Result<String, Fail> {
    let found = varint_in(&bytes(alloc, cell)?);
    match found {
        Some((number, size)) => Ok(format!(in alloc; "{size}: {number}")?),
        None => Ok(String::new(alloc)),
    }
}

#[test]
fn varints_are_read(rt: HostRuntime) -> Result<(), Fail> {
    all_told(&rt, rt.alloc(), VARINTS, varint_words)?;
    all_told(&rt, rt.alloc(), NO_VARINTS, varint_words)
}

/// A field in words: its wire type, its number and what it holds.
fn told(alloc: Global, field: &Field<'_>) -> Result<String, Fail> {
    let text = match field {
        Field::Varint { number, value } => format!(in alloc; "varint {number} = {value}"),
        Field::Fixed64 { number, value } => format!(in alloc; "fixed64 {number} = {value}"),
        Field::Fixed32 { number, value } => format!(in alloc; "fixed32 {number} = {value}"),
        Field::Body { number, body } => {
            let body = str::from_utf8(body).ok().ok_or("a text")?;
            format!(in alloc; "body {number} = \"{body}\"")
        }
    };
    Ok(text?)
}

/// Bytes, and how many of them the field at their front takes, with the field in words.
const FIELDS: &str = r#"
    08 9601 00 | 3: varint 1 = 150
    8800 9601 | 4: varint 1 = 150
    12 07 "testing" 00 | 9: body 2 = "testing"
    1a 00 00 | 2: body 3 = ""
    09 0100000000000080 | 9: fixed64 1 = 9223372036854775809
    25 04030201 ff | 5: fixed32 4 = 16909060
    # The greatest number.
    f8ffffff0f 00 | 6: varint 536870911 = 0
"#;

/// Bytes that start no field.
const NO_FIELDS: &str = r#"
    # Numbers 0 and 2^29.
    00 00
    8080808010 00
    # Wire types 3, 4, 6 and 7.
    0b 0c
    0c 00
    0e 00
    0f 00
    # Cut in the tag, after it, and in each content.
    88
    08
    08 80
    0a 03 "ab"
    09 01020304050607
    0d 010203
"#;

/// The field at the front in words, where there is one.
fn field_words(alloc: Global, cell: &str) -> Result<String, Fail> {
    let bytes = bytes(alloc, cell)?;
    match field_in(&bytes) {
        Some((field, size)) => {
            let field = told(alloc, &field)?;
            Ok(format!(in alloc; "{size}: {field}")?)
        }
        None => Ok(String::new(alloc)),
    }
}

#[test]
fn fields_are_read(rt: HostRuntime) -> Result<(), Fail> {
    all_told(&rt, rt.alloc(), FIELDS, field_words)?;
    all_told(&rt, rt.alloc(), NO_FIELDS, field_words)
}

#[test]
fn places_are_kept(rt: HostRuntime) -> Result<(), Fail> {
    let bytes = bytes(rt.alloc(), "00 ac02 80")?;
    assert!(rt; bytes.len() == 4);
    assert_eq!(rt; read_varint(&bytes, 1), Ok((300, 3)));
    assert_eq!(rt; read_varint(&bytes, 3), Err(Malformed { at: 3 }));
    assert_eq!(rt; next_field(&bytes, 3), Err(Malformed { at: 3 }));
    Ok(())
}

/// Numbers, and their varints.
const WRITTEN: &str = "
    0 | 00
    127 | 7f
    128 | 8001
    300 | ac02
    18446744073709551615 | ffffffffffffffffff01
";

/// Numbers and wire types, and their tags; the last one is a tag of no field.
const TAGS: &str = "
    1: 0 | 08
    34: 2 | 9202
    536870911: 5 | fdffffff0f
    4294967295: 255 | f78180808001
";

/// What was written behind the byte ff.
fn behind(alloc: Global, out: &[u8]) -> Result<String, Fail> {
    let rest = out.strip_prefix(b"\xff").ok_or("the byte before")?;
    Ok(digits(alloc, rest)?)
}

fn varint_written(alloc: Global, cell: &str) -> Result<String, Fail> {
    let mut out = Vec::from_slice(alloc, b"\xff")?;
    write_varint(&mut out, number(cell)?)?;
    behind(alloc, &out)
}

fn tag_written(alloc: Global, cell: &str) -> Result<String, Fail> {
    let (field, kind) = cell.split_once(": ").ok_or("a wire type")?;
    let (field, kind) = (number(field)?, number(kind)?);
    let mut out = Vec::from_slice(alloc, b"\xff")?;
    write_tag(&mut out, field, kind)?;
    behind(alloc, &out)
}

#[test]
fn varints_and_tags_are_written(rt: HostRuntime) -> Result<(), Fail> {
    all_told(&rt, rt.alloc(), WRITTEN, varint_written)?;
    all_told(&rt, rt.alloc(), TAGS, tag_written)
}

#[test]
fn fields_are_written(rt: HostRuntime) -> Result<(), Fail> {
    let mut out = bytes(rt.alloc(), "fdffffff0f")?;
    write_number(&mut out, 1, 150)?;
    write_body(&mut out, 2, b"testing")?;
    let want = bytes(rt.alloc(), r#"fdffffff0f 08 9601 12 07 "testing""#)?;
    assert_eq!(rt; out, want);
    Ok(())
}

fn put_text(alloc: Global, items: &mut Seq<Text>, text: &str) -> Result<(), Fail> {
    items.push(Text::of(alloc, text)?)?;
    Ok(())
}

/// The letters of the texts.
fn letters_of(alloc: Global, items: &Seq<Text>) -> Result<String, Fail> {
    let mut letters = String::new(alloc);
    for item in items.as_slice() {
        letters.push_str(item.as_str())?;
    }
    Ok(letters)
}

/// The letters of both texts, kept as items.
fn kept(alloc: Global, first: &str, second: &str) -> Result<String, Fail> {
    let mut items = Seq::new(alloc)?;
    put_text(alloc, &mut items, first)?;
    put_text(alloc, &mut items, second)?;
    letters_of(alloc, &items)
}

#[test]
fn texts_and_items_are_kept(rt: HostRuntime) -> Result<(), Fail> {
    assert_eq!(rt; Text::empty(rt.alloc()).as_str(), "");
    assert_eq!(rt; kept(rt.alloc(), "flow", "node")?.as_str(), "flownode");
    Ok(())
}

fn put_copies(items: &mut Seq<u8>) -> Result<(), Fail> {
    items.extend_from_slice(b"\x38\x05")?;
    items.push(0x18)?;
    items.extend_from_slice(b"")?;
    items.extend_from_slice(b"\x07\x00")?;
    Ok(())
}

#[test]
fn copies_are_put_at_the_end(rt: HostRuntime) -> Result<(), Fail> {
    let mut items = Seq::new(rt.alloc())?;
    items.extend_from_slice(b"")?;
    assert!(rt; items.as_slice().is_empty());
    put_copies(&mut items)?;
    assert_eq!(rt; items.as_slice(), b"\x38\x05\x18\x07\x00".as_slice());
    Ok(())
}
