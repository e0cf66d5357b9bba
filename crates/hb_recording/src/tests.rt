//! Recordings as text: a file in the words of `hb_cases`, and what the reader gives.
mod bad_records;
mod long_messages;

use super::*;
use hb_cases::{digits, frames, number, rows};
use hb_flow::{GetFlowsResponse, ResponseTypes};
use hb_frame::{BODY, MESSAGE, put_frame};
use std::alloc::Global;
use std::process::Abort;
use std::test::*;

/// A response in words: the uuid of its flow, how many events were lost, or what else it is.
fn told(alloc: Global, response: &GetFlowsResponse) -> Result<String, Fail> {
    match &response.response_types {
        Some(ResponseTypes::Flow(flow)) => told_uuid(alloc, flow.uuid.as_str()),
        Some(ResponseTypes::LostEvents(event)) => {
            Ok(format!(in alloc; "lost {}", event.num_events_lost)?)
        }
        Some(ResponseTypes::NodeStatus(_)) => Ok(String::from_str(alloc, "a status")?),
        None => Ok(String::from_str(alloc, "nothing")?),
    }
}

/// A uuid, where it is neither empty nor long.
fn told_uuid(alloc: Global, uuid: &str) -> Result<String, Fail> {
    match uuid.len() {
        0 => Ok(String::from_str(alloc, "a flow")?),
        1..10 => Ok(String::from_str(alloc, uuid)?),
        letters => Ok(format!(in alloc; "{letters} letters")?),
    }
}

/// An answer in words, where the response is this then. One that is given fits a frame, spelled anew.
fn answered(alloc: Global, next: Next, response: &GetFlowsResponse) -> Result<String, Fail> {
    match next {
        Next::Response => {
            put_response(alloc, &mut Vec::new(alloc), response)?;
            told(alloc, response)
        }
        Next::End => Ok(String::from_str(alloc, "end")?),
        Next::Bad { at } => Ok(format!(in alloc; "bad at {at}")?),
        Next::NoMemory => Err("there is memory".into()),
    }
}

/// The reader's next answer in words.
fn next_words(alloc: Global, reader: &mut RecordingReader<'_>) -> Result<String, Fail> {
    let mut response = GetFlowsResponse::new(alloc)?;
    let next = reader.next(&mut response);
    answered(alloc, next, &response)
}

/// Appends the next answer in words. Whether it is the last one, which comes twice.
fn put_next(
    alloc: Global,
    reader: &mut RecordingReader<'_>,
    words: &mut String,
) -> Result<bool, Fail> {
    let word = next_words(alloc, reader)?;
    words.push_str(&word)?;
    if word.as_str() != "end" && !word.as_str().starts_with("bad at ") {
        words.push_str(", ")?;
        return Ok(false);
    }
    if next_words(alloc, reader)? != word {
        return Err("another answer after the last".into());
    }
    Ok(true)
}

/// What a file gives, in words.
fn given(alloc: Global, file: &[u8]) -> Result<String, Fail> {
    let mut reader = RecordingReader::new(alloc, file);
    let mut words = String::new(alloc);
    for _ in 0..=file.len() {
        if put_next(alloc, &mut reader, &mut words)? {
            return Ok(words);
        }
    }
    Err("no end".into())
}

/// What a file in words gives.
fn file_given(alloc: Global, file: &str) -> Result<String, Fail> {
    let file = frames(alloc, file)?;
    given(alloc, &file)
}

/// What a file in words gives, without these words at its end, where it has them.
fn given_before(alloc: Global, file: &str, end: &str) -> Result<String, Fail> {
    let words = file_given(alloc, file)?;
    let front = words.as_str().strip_suffix(end).unwrap_or(words.as_str());
    Ok(String::from_str(alloc, front)?)
}

/// Appends the frame of a response, spelled anew.
fn put_response(
    alloc: Global,
    file: &mut Vec<u8>,
    response: &GetFlowsResponse,
) -> Result<bool, Fail> {
    let mut message = Vec::new(alloc);
    response.write(&mut message)?;
    if message.len() > BODY {
        return Err("it fits no frame".into());
    }
    put_frame(file, MESSAGE, &message)?;
    Ok(true)
}

/// Appends the frame of the next response, where there is one.
fn put_anew(
    alloc: Global,
    reader: &mut RecordingReader<'_>,
    file: &mut Vec<u8>,
) -> Result<bool, Fail> {
    let mut response = GetFlowsResponse::new(alloc)?;
    match reader.next(&mut response) {
        Next::Response => put_response(alloc, file, &response),
        _ => Ok(false),
    }
}

/// The frames of a file's responses, each spelled anew.
fn anew(alloc: Global, file: &[u8]) -> Result<Vec<u8>, Fail> {
    let mut reader = RecordingReader::new(alloc, file);
    let mut out = Vec::new(alloc);
    for _ in 0..=file.len() {
        if !put_anew(alloc, &mut reader, &mut out)? {
            return Ok(out);
        }
    }
    Err("no end".into())
}

/// What tells of a text.
type Told = fn(Global, &str) -> Result<String, Fail>;

/// Compares, row by row, what the first tells of its first cell with what the second tells of its
/// second.
fn all_alike(
    rt: &impl Abort,
    alloc: Global,
    table: &str,
    first: Told,
    second: Told,
) -> Result<(), Fail>
    requires first { IsAlwaysCallable first }
    requires second { IsAlwaysCallable second }
{
    for row in rows(alloc, table)? {
        let words = first(alloc, row.cell(0))?;
        assert_eq!(rt; words, second(alloc, row.cell(1))?, "{row}");
    }
    Ok(())
}

/// The cell itself.
fn itself(alloc: Global, cell: &str) -> Result<String, Fail> {
    Ok(String::from_str(alloc, cell)?)
}

/// That each file in words gives what stands beside it.
fn all_given(rt: &impl Abort, alloc: Global, table: &str) -> Result<(), Fail> {
    all_alike(rt, alloc, table, file_given, itself)
}

/// Files, and what the reader gives.
const FILES: &str = "
    nothing | end
    status - | end
    flow 0 | 0, end
    flow 0; flow 1; lost 5@2s; flow 299 | 0, 1, lost 5, 299, end
    # a flow with the name and the time of its response, without a time, and with an empty one
    flow 0, c23e0178 ca3e020802 | 0, end
    message 0a06 1001 92020130; message 0a06 0a00 92020130 | 0, 0, end
    # a call, a status, an empty cancel and one with a body, around one flow
    call \"/x\"; status 0805; flow 0; cancel -; cancel ff | 0, end
    # bodies that would be taken as messages
    call 0a021001; status 0a021001 | end
    # a flow, messages without one (empty, a name, a time), and a flow
    message 0a021001; message -; message c23e0178; message ca3e00; message 0a00 | a flow, nothing, nothing, nothing, a flow, end
    # the greatest body, and one byte more
    call 78*65536 | end
    hex 01 00010001 78*65537 | bad at 0
    # long fields beside a flow: one that is not known, and a name; with the longer one a message has
    # 65,536 bytes
    flow 0, 22: 17000 letters; flow 0, 22: 17000 letters | 0, 0, end
    flow 0, 22: 65520 letters; flow 0, 22: 65520 letters | 0, 0, end
    flow 0, c23e: 17000 letters; flow 0, c23e: 17000 letters | 0, 0, end
    flow 0, c23e: 65519 letters; flow 0, c23e: 65519 letters | 0, 0, end
";

#[test]
fn files_give_their_responses(rt: HostRuntime) -> Result<(), Fail> {
    all_given(&rt, rt.alloc(), FILES)
}

/// Messages that hold no event: nothing, or a node's status. Each is given, alone and before a flow.
const WITHOUT_EVENT: &str = "
    - | nothing
    # a name, an empty one, and a time
    c23e0178 | nothing
    c23e00 | nothing
    ca3e020801 | nothing
    # a flow's number of wire type 0, and the other events' of wire types 0, 5 and 1
    0805 | nothing
    1005 1805 | nothing
    15 01020304 | nothing
    19 0102030405060708 | nothing
    # a body whose number is not known
    2202 1200 | nothing
    # a status, and its tag and length longer than needed
    1200 | a status
    9200 8000 | a status
    # of bytes that are no message: a tag that is cut, a group, a number that is cut
    1201 ff | a status
    1202 0b24 | a status
    1202 0880 | a status
    # behind a flow, and behind lost events
    0a021001 1200 | a status
    1a0408031003 1200 | a status
    # with a name and a time
    c23e0178 1200 ca3e020801 | a status
    # behind the same number of other wire types
    1005 15 01020304 1200 | a status
    # long ones, up to a message of 65,536 bytes
    -, 12: 8192 letters | a status
    -, 12: 65532 letters | a status
";

fn given_alone(alloc: Global, message: &str) -> Result<String, Fail> {
    given_before(alloc, message, ", end")
}

fn given_before_a_flow(alloc: Global, message: &str) -> Result<String, Fail> {
    let file = format!(in alloc; "{message}; flow 0")?;
    given_before(alloc, &file, ", 0, end")
}

#[test]
fn messages_without_an_event_are_given(rt: HostRuntime) -> Result<(), Fail> {
    all_alike(&rt, rt.alloc(), WITHOUT_EVENT, given_alone, itself)?;
    all_alike(&rt, rt.alloc(), WITHOUT_EVENT, given_before_a_flow, itself)
}

/// Files, and the files of their responses spelled anew.
const ANEW: &str = "
    flow 0; lost 5@2s | flow 0; lost 5@2s
    call \"/x\"; flow 0; status - | flow 0
    # a field that is not known, before the flow's time
    message 0a0c 3805 0a020801 1002 92020161 | message 0a0c 0a020801 1002 92020161 3805
    # verdict 1, and then verdict 2
    message 0a04 1001 1002 | message 0a02 1002
    # verdict -1
    message 0a0b 10 ffffffffffffffffff01 | message 0a0b 10 ffffffffffffffffff01
    # a flow, messages without one (empty, a name, a time), and a flow
    0a021001; -; c23e0178; ca3e00; 0a00 | 0a021001; -; c23e0178; ca3e00; 0a00
";

/// The bytes of a file.
fn file_digits(alloc: Global, file: &str) -> Result<String, Fail> {
    let file = frames(alloc, file)?;
    Ok(digits(alloc, &file)?)
}

/// The bytes of the file of a file's responses, spelled anew.
fn anew_digits(alloc: Global, file: &str) -> Result<String, Fail> {
    let file = frames(alloc, file)?;
    let out = anew(alloc, &file)?;
    Ok(digits(alloc, &out)?)
}

#[test]
fn responses_are_read_in_whatever_spelling(rt: HostRuntime) -> Result<(), Fail> {
    all_alike(&rt, rt.alloc(), ANEW, anew_digits, file_digits)?;
    // It is a file of the same responses.
    all_alike(&rt, rt.alloc(), ANEW, anew_digits, anew_digits)?;
    all_alike(&rt, rt.alloc(), ANEW, file_given, file_given)
}

#[test]
fn many_flows_are_given_in_order(rt: HostRuntime) -> Result<(), Fail> {
    let mut want = String::new(rt.alloc());
    for number in 0..5_000 {
        want.push_str(format!(in rt.alloc(); "{number}, ")?.as_str())?;
    }
    want.push_str("end")?;
    let words = file_given(rt.alloc(), "flows 0..5000")?;
    assert!(rt; words == want, "5,000 flows in order");
    Ok(())
}
