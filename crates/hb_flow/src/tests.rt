//! Rows of bytes worked out by hand from the Protocol Buffers encoding guide. What they read as is
//! told in words: the fields that are there, as in `flow(time=1s,2ns verdict=1 uuid=a) node_name=n`,
//! bytes in hexadecimal digits; `-` where there is none; or the fault and its place.

mod answers;
mod events;
mod faults;
mod spellings;

use super::*;
use hb_cases::{bytes, digits, number, rows};
use hb_schema::DecodeFault;
use hb_time::Stamp;
use hb_wire::Seq;
use std::alloc::Global;
use std::process::Abort;
use std::test::*;

/// Appends a word behind a blank.
fn put(out: &mut String, word: &str) -> Result<(), Fail> {
    if !out.is_empty() {
        out.push(' ')?;
    }
    out.push_str(word)?;
    Ok(())
}

fn put_time(alloc: Global, out: &mut String, time: Option<Stamp>) -> Result<(), Fail> {
    if let Some(Stamp { secs, nanos }) = time {
        put(out, &format!(in alloc; "time={secs}s,{nanos}ns")?)?;
    }
    Ok(())
}

fn put_unknown(alloc: Global, out: &mut String, unknown: &Seq<u8>) -> Result<(), Fail> {
    let unknown = unknown.as_slice();
    if !unknown.is_empty() {
        let unknown = digits(alloc, unknown)?;
        put(out, &format!(in alloc; "unknown={unknown}")?)?;
    }
    Ok(())
}

fn flow_words(alloc: Global, flow: &Flow) -> Result<String, Fail> {
    let mut out = String::new(alloc);
    let (verdict, uuid) = (flow.verdict, flow.uuid.as_str());
    put_time(alloc, &mut out, flow.time)?;
    if verdict != 0 {
        put(&mut out, &format!(in alloc; "verdict={verdict}")?)?;
    }
    if !uuid.is_empty() {
        put(&mut out, &format!(in alloc; "uuid={uuid}")?)?;
    }
    put_unknown(alloc, &mut out, &flow.unknown)?;
    Ok(out)
}

fn lost_words(alloc: Global, event: &LostEvent) -> Result<String, Fail> {
    let mut out = String::new(alloc);
    let (source, lost) = (event.source, event.num_events_lost);
    if source != 0 {
        put(&mut out, &format!(in alloc; "source={source}")?)?;
    }
    if lost != 0 {
        put(&mut out, &format!(in alloc; "num_events_lost={lost}")?)?;
    }
    if let Some(Int32Value { value }) = event.cpu {
        put(&mut out, &format!(in alloc; "cpu={value}")?)?;
    }
    put_unknown(alloc, &mut out, &event.unknown)?;
    Ok(out)
}

fn member_words(alloc: Global, member: &ResponseTypes) -> Result<String, Fail> {
    let (name, words) = match member {
        ResponseTypes::Flow(flow) => ("flow", flow_words(alloc, flow)?),
        ResponseTypes::NodeStatus(status) => ("node_status", digits(alloc, status.as_slice())?),
        ResponseTypes::LostEvents(event) => ("lost_events", lost_words(alloc, event)?),
    };
    Ok(format!(in alloc; "{name}({words})")?)
}

fn event_words(alloc: Global, event: &Event) -> Result<String, Fail> {
    match event {
        Event::Flow(flow) => {
            let words = flow_words(alloc, flow)?;
            Ok(format!(in alloc; "flow({words})")?)
        }
        Event::Lost(lost) => {
            let words = lost_words(alloc, &lost.event)?;
            let mut out = format!(in alloc; "lost_events({words})")?;
            put_time(alloc, &mut out, lost.time)?;
            Ok(out)
        }
    }
}

fn response_words(alloc: Global, response: &GetFlowsResponse) -> Result<String, Fail> {
    let mut out = String::new(alloc);
    let name = response.node_name.as_str();
    if let Some(member) = &response.response_types {
        put(&mut out, &member_words(alloc, member)?)?;
    }
    if !name.is_empty() {
        put(&mut out, &format!(in alloc; "node_name={name}")?)?;
    }
    put_time(alloc, &mut out, response.time)?;
    put_unknown(alloc, &mut out, &response.unknown)?;
    Ok(out)
}

fn fault_words(alloc: Global, fault: DecodeFault) -> Result<String, Fail> {
    let text = match fault {
        DecodeFault::Malformed { at } => format!(in alloc; "malformed {at}"),
        DecodeFault::BadUtf8 { at } => format!(in alloc; "bad utf8 {at}"),
        DecodeFault::NoMemory => String::from_str(alloc, "no memory"),
    };
    Ok(text?)
}

/// The words, or `-` where there is none.
fn some_words(alloc: Global, words: String) -> Result<String, Fail> {
    if words.is_empty() {
        return Ok(String::from_str(alloc, "-")?);
    }
    Ok(words)
}

/// What the bytes of an answer read as.
fn read_words(alloc: Global, message: &[u8]) -> Result<String, Fail> {
    match GetFlowsResponse::read(alloc, message) {
        Ok(response) => some_words(alloc, response_words(alloc, &response)?),
        Err(fault) => fault_words(alloc, fault),
    }
}

/// What stands behind this front.
fn behind(alloc: Global, bytes: &[u8], front: &[u8]) -> Result<Vec<u8>, Fail> {
    let rest = bytes.strip_prefix(front).ok_or("no such front")?;
    Ok(rest.to_vec(alloc)?)
}

/// What is written of the answer that these bytes read as, behind a byte that stays.
fn anew(alloc: Global, message: &[u8]) -> Result<Vec<u8>, Fail> {
    let mut out = Vec::from_slice(alloc, &[0xff])?;
    if let Ok(response) = GetFlowsResponse::read(alloc, message) {
        response.write(&mut out)?;
    }
    behind(alloc, &out, &[0xff])
}

/// A table, and two cells of its rows.
type Cells<'a> = (&'a str, usize, usize);

/// Compares, row by row, what is told of the bytes in one cell with the words in another.
fn all_told(
    rt: &impl Abort,
    alloc: Global,
    cells: Cells<'_>,
    told: fn(Global, &[u8]) -> Result<String, Fail>,
) -> Result<(), Fail>
    requires { IsAlwaysCallable told }
{
    let (table, from, to) = cells;
    for row in rows(alloc, table)? {
        let words = told(alloc, &bytes(alloc, row.cell(from))?)?;
        assert_eq!(rt; words.as_str(), row.cell(to), "{row}");
    }
    Ok(())
}

/// Compares, row by row, what is written of the bytes in one cell with those in another.
fn all_written(
    rt: &impl Abort,
    alloc: Global,
    cells: Cells<'_>,
    written: fn(Global, &[u8]) -> Result<Vec<u8>, Fail>,
) -> Result<(), Fail>
    requires { IsAlwaysCallable written }
{
    let (table, from, to) = cells;
    for row in rows(alloc, table)? {
        let out = written(alloc, &bytes(alloc, row.cell(from))?)?;
        assert_eq!(rt; out, bytes(alloc, row.cell(to))?, "{row}");
    }
    Ok(())
}
