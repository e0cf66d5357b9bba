//! Files of frames in words.

use crate::{CaseFault, bytes, message, number};
use std::alloc::{AllocError, Global};

/// The file that these words spell: steps parted by `;`, one behind the other. A step is
///
/// - `nothing`;
/// - `hex`, and bytes as they stand;
/// - `flows 0..5`, `flows 0..5 of n1`: a frame of `flow N` for each of these numbers or, as a node
///   answers it, of `flow N, of n1, at M s`, where M is N + 1;
/// - `ok`: the status frame with an empty body;
/// - `call`, `status` or `cancel`, and the parts of a body: a frame of that kind;
/// - and else the parts of a message, as `message` reads them, with or without the word before them.
pub fn frames<'a>(alloc: Global, words: &'a str) -> Result<Vec<u8>, CaseFault<'a>> {
    let mut file = Vec::new(alloc);
    for step in words.split(';') {
        put_step(alloc, &mut file, step.trim())?;
    }
    Ok(file)
}

fn put_step<'a>(alloc: Global, file: &mut Vec<u8>, step: &'a str) -> Result<(), CaseFault<'a>> {
    let (word, rest) = step.split_once(' ').unwrap_or((step, ""));
    match word {
        "nothing" => Ok(()),
        "hex" => Ok(file.extend_from_slice(&bytes(alloc, rest)?)?),
        "flows" => put_flows(alloc, file, rest),
        "ok" => Ok(put_frame(file, 2, &[])?),
        "call" => Ok(put_frame(file, 1, &message(alloc, rest)?)?),
        "status" => Ok(put_frame(file, 2, &message(alloc, rest)?)?),
        "cancel" => Ok(put_frame(file, 3, &message(alloc, rest)?)?),
        "message" => Ok(put_frame(file, 0, &message(alloc, rest)?)?),
        _ => Ok(put_frame(file, 0, &message(alloc, step)?)?),
    }
}

/// Appends the frames of flows: `0..5`, `0..5 of n1`.
fn put_flows<'a>(alloc: Global, file: &mut Vec<u8>, flows: &'a str) -> Result<(), CaseFault<'a>> {
    let (range, node) = flows.split_once(" of ").unwrap_or((flows, ""));
    let Some((first, end)) = range.split_once("..") else {
        return Err(CaseFault::BadWord { word: range });
    };
    for flow in number::<u32>(first)?..number::<u32>(end)? {
        let mut parts = format!(in alloc; "flow {flow}")?;
        if !node.is_empty() {
            let second = u64::from(flow) + 1;
            parts = format!(in alloc; "flow {flow}, of {node}, at {second}s")?;
        }
        match message(alloc, parts.as_str()) {
            Ok(body) => put_frame(file, 0, &body)?,
            Err(_) => return Err(CaseFault::BadWord { word: flows }),
        }
    }
    Ok(())
}

/// Appends a frame: its kind, the length of its body in four bytes, the most significant first, and the
/// body.
fn put_frame(file: &mut Vec<u8>, kind: u8, body: &[u8]) -> Result<(), AllocError> {
    file.push(kind)?;
    file.extend_from_slice(&(body.len() as u64).to_be_bytes()[4..])?;
    file.extend_from_slice(body)
}
