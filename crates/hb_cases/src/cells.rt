//! What a cell spells.

ghost use Rattle.std.specs.Prelude.{◌≡◌, ◌≤◌, ◌++◌, length, Ok, IfOk, OnOk};
ghost use Rattle.std.specs.Result.{result_ok};
ghost use Rattle.std.specs.List.{repeat};
ghost use Rattle.std.specs.Option.{option_map};
ghost use Rattle.std.specs.String.{string_bytes};
ghost use Rattle.hex.specs.Hex.{decode_of, encode_lower};

use crate::CaseFault;
use std::alloc::{AllocError, Global};
use std::str::FromStr;

/// The number that a cell spells.
pub fn number<F: FromStr>(cell: &str) -> Result<F, CaseFault<'_>>
where
    F::Err: Drop,
    ensures value { IfOk result (λ n. F.from_str_gives cell.now (Ok n)) }
{
    match cell.parse::<F>() {
        Ok(number) => Ok(number),
        Err(_) => Err(CaseFault::BadWord { word: cell }),
    }
}

/// A cell without the double quotes around it, where it has them: they keep its blanks.
pub fn unquoted(cell: &str) -> &str {
    text_of(cell).unwrap_or(cell)
}

/// What stands in double quotes, where the word begins and ends with one.
fn text_of(word: &str) -> Option<&str> {
    word.strip_prefix('"')?.strip_suffix('"')
}

/// The bytes as hexadecimal digits, two a byte.
pub fn digits(alloc: Global, bytes: &[u8]) -> Result<String, AllocError>
    ensures ok { IfOk result (λ text. string_bytes text ≡ encode_lower bytes.now) }
{
    hex::encode(alloc, bytes)
}

/// The bytes that a cell spells: its words, parted by spaces. A word is pairs of hexadecimal digits
/// (`0a0810`), a text in double quotes, which may hold spaces, or `-`, which is no byte; behind
/// each may stand `*` and a number, as in `75*65520`: so many times. A cell of no word is refused.
pub fn bytes(alloc: Global, cell: &str) -> Result<Vec<u8>, CaseFault<'_>> {
    let mut out = Vec::new(alloc);
    let mut rest = cell.trim();
    if rest.is_empty() {
        return Err(CaseFault::BadWord { word: cell });
    }
    for _ in 0..cell.len() {
        let (word, behind) = split_word(rest);
        put_word(alloc, &mut out, word)?;
        rest = behind.trim_start();
        if rest.is_empty() {
            break;
        }
    }
    Ok(out)
}

/// The word at the front, and what stands behind it.
fn split_word(text: &str) -> (&str, &str) {
    text.split_at_checked(word_end(text)).unwrap_or((text, ""))
}

/// Where the word at the front ends: at a space that is in no quotes.
fn word_end(text: &str) -> usize
    ensures within { result ≤ length text.now }
{
    let mut quoted = false;
    for (at, byte) in text.bytes().enumerate() {
        if byte == b' ' && !quoted {
            return at;
        }
        if byte == b'"' {
            quoted = !quoted;
        }
    }
    text.len()
}

/// Appends what a word spells.
fn put_word<'a>(alloc: Global, out: &mut Vec<u8>, word: &'a str) -> Result<(), CaseFault<'a>> {
    let (unit, count) = unit_and_count(word);
    match unit_bytes(alloc, unit)? {
        Some(bytes) => Ok(put_repeated(alloc, out, bytes.as_slice(), count)?),
        None => Err(CaseFault::BadWord { word }),
    }
}

/// What a word spells, and how many times: the number behind its last `*`, else once.
fn unit_and_count(word: &str) -> (&str, usize) {
    if let Some((unit, count)) = word.rsplit_once('*') {
        if let Ok(count) = count.parse::<usize>() {
            return (unit, count);
        }
    }
    (word, 1)
}

/// Appends the bytes so many times.
fn put_repeated(
    alloc: Global,
    out: &mut Vec<u8>,
    bytes: &[u8],
    count: usize,
) -> Result<(), AllocError>
    ensures ok { OnOk result (out.new.items ≡ out.old.items ++ repeat count bytes.now) }
{
    out.extend_from_slice(bytes.repeat(alloc, count)?.as_slice())
}

/// The bytes of a word without a count, where it spells any.
fn unit_bytes(alloc: Global, unit: &str) -> Result<Option<Vec<u8>>, AllocError> {
    if unit == "-" {
        return Ok(Some(Vec::new(alloc)));
    }
    match text_of(unit) {
        Some(text) => Ok(Some(Vec::from_slice(alloc, text.as_bytes())?)),
        None => decoded(alloc, unit),
    }
}

/// The bytes that hexadecimal digits spell, where they do.
fn decoded(alloc: Global, digits: &str) -> Result<Option<Vec<u8>>, AllocError>
    ensures ok { IfOk result (λ found. option_map (λ bytes. bytes.items) found
        ≡ result_ok (decode_of digits.now)) }
{
    match hex::decode(alloc, digits) {
        Ok(bytes) => Ok(Some(bytes)),
        Err(hex::FromHexError::OutOfMemory) => Err(AllocError),
        Err(_) => Ok(None),
    }
}
