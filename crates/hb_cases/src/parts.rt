//! Messages in words: the parts of their bodies.

use crate::{CaseFault, bytes, number};
use std::alloc::{AllocError, Global};

/// The message that these parts spell, parted by `,`, one behind the other. A part is
///
/// - `flow 0`: a flow with this number as its uuid, of verdict 1 and a time one second above it;
/// - `lost 5`, `lost 5@2s`: so many lost events, and the time of their response;
/// - `of n1`, `at 2s`: a response's node, and its time;
/// - `c23e: 17000 letters`: a field with this tag and a body of so many letters `u`;
/// - `all in 0a`: what stands before it is the body of a field with this tag;
/// - `twice`: what stands before it comes twice;
/// - and else bytes, as `bytes` reads them.
pub fn message<'a>(alloc: Global, parts: &'a str) -> Result<Vec<u8>, CaseFault<'a>> {
    let mut body = Vec::new(alloc);
    for part in parts.split(',') {
        put_part(alloc, &mut body, part.trim())?;
    }
    Ok(body)
}

fn put_part<'a>(alloc: Global, body: &mut Vec<u8>, part: &'a str) -> Result<(), CaseFault<'a>> {
    let (word, rest) = part.split_once(' ').unwrap_or((part, ""));
    match word {
        "flow" => put_flow(alloc, body, rest),
        "lost" => put_lost(alloc, body, rest),
        "of" => Ok(put_field(body, b"\xc2\x3e", rest.as_bytes())?),
        "at" => put_time(alloc, body, rest),
        "all" => put_all(alloc, body, rest),
        "twice" => Ok(body.extend_from_slice(&body.to_vec(alloc)?)?),
        _ => put_bytes(alloc, body, part),
    }
}

/// Appends bytes, or a field of letters.
fn put_bytes<'a>(alloc: Global, body: &mut Vec<u8>, part: &'a str) -> Result<(), CaseFault<'a>> {
    let letters = part.strip_suffix(" letters");
    let Some((tag, count)) = letters.and_then(|field| field.split_once(": ")) else {
        return Ok(body.extend_from_slice(&bytes(alloc, part)?)?);
    };
    let letters = b"u".repeat(alloc, number(count)?)?;
    Ok(put_field(body, &bytes(alloc, tag)?, &letters)?)
}

/// Puts the body into a field with this tag: `in 0a`.
fn put_all<'a>(alloc: Global, body: &mut Vec<u8>, field: &'a str) -> Result<(), CaseFault<'a>> {
    let Some(tag) = field.strip_prefix("in ") else {
        return Err(CaseFault::BadWord { word: field });
    };
    let inside = body.to_vec(alloc)?;
    body.clear();
    Ok(put_field(body, &bytes(alloc, tag)?, &inside)?)
}

fn put_flow<'a>(alloc: Global, body: &mut Vec<u8>, uuid: &'a str) -> Result<(), CaseFault<'a>> {
    let second = u64::from(number::<u32>(uuid)?) + 1;
    let mut flow = Vec::new(alloc);
    put_field(&mut flow, b"\x0a", &time_of(alloc, second)?)?;
    flow.extend_from_slice(b"\x10\x01")?;
    put_field(&mut flow, b"\x92\x02", uuid.as_bytes())?;
    Ok(put_field(body, b"\x0a", &flow)?)
}

fn put_lost<'a>(alloc: Global, body: &mut Vec<u8>, events: &'a str) -> Result<(), CaseFault<'a>> {
    let (count, second) = events.split_once('@').unwrap_or((events, ""));
    let mut lost = Vec::new(alloc);
    lost.push(0x10)?;
    put_varint(&mut lost, number(count)?)?;
    put_field(body, b"\x1a", &lost)?;
    if second.is_empty() {
        return Ok(());
    }
    put_time(alloc, body, second)
}

/// Appends the time of a response: `2s`.
fn put_time<'a>(alloc: Global, body: &mut Vec<u8>, second: &'a str) -> Result<(), CaseFault<'a>> {
    let second = number(second.strip_suffix('s').unwrap_or(second))?;
    Ok(put_field(body, b"\xca\x3e", &time_of(alloc, second)?)?)
}

/// A time of so many seconds.
fn time_of(alloc: Global, second: u64) -> Result<Vec<u8>, AllocError> {
    let mut time = Vec::new(alloc);
    time.push(8)?;
    put_varint(&mut time, second)?;
    Ok(time)
}

/// Appends a field: its tag, the length of its body, and the body.
fn put_field(out: &mut Vec<u8>, tag: &[u8], body: &[u8]) -> Result<(), AllocError> {
    out.extend_from_slice(tag)?;
    put_varint(out, body.len() as u64)?;
    out.extend_from_slice(body)
}

/// Appends the shortest varint of a number.
fn put_varint(out: &mut Vec<u8>, number: u64) -> Result<(), AllocError> {
    let mut rest = number;
    for _ in 0..9 {
        if rest < 128 {
            break;
        }
        out.push((rest % 128) as u8 + 128)?;
        rest /= 128;
    }
    out.push((rest % 128) as u8)?;
    Ok(())
}
