//! The words of the tables. The bytes are worked out by hand from the Protocol Buffers encoding
//! guide and the layout of a frame: a tag, a length and a body.
use hb_api::GetFlowsRequest;
use hb_cases::{bytes, number, rows};
use hb_time::Stamp;
use std::alloc::Global;
use std::test::Fail;

/// What the tables call the records of a ring and the frames of node n1. A digit is the flow with
/// that uuid, forwarded, and with one second more as its time. `perf9@5` are 9 events that were
/// lost at 5 s at Cilium's `PERF_EVENT_RING_BUFFER`. `ring3@2` are 3 records that were overwritten,
/// last found so at 2 s, and `ring4` is such an event that was recorded, without a time.
const EVENTS: &str = r#"
# word | what a ring has | what node n1 gives
0 | 0a0a 0a020801 1001 920201 "0" | 00 00000016 0a0a 0a020801 1001 920201 "0" c23e02 "n1" ca3e020801
1 | 0a0a 0a020802 1001 920201 "1" | 00 00000016 0a0a 0a020802 1001 920201 "1" c23e02 "n1" ca3e020802
2 | 0a0a 0a020803 1001 920201 "2" | 00 00000016 0a0a 0a020803 1001 920201 "2" c23e02 "n1" ca3e020803
3 | 0a0a 0a020804 1001 920201 "3" | 00 00000016 0a0a 0a020804 1001 920201 "3" c23e02 "n1" ca3e020804
4 | 0a0a 0a020805 1001 920201 "4" | 00 00000016 0a0a 0a020805 1001 920201 "4" c23e02 "n1" ca3e020805
5 | 0a0a 0a020806 1001 920201 "5" | 00 00000016 0a0a 0a020806 1001 920201 "5" c23e02 "n1" ca3e020806
6 | 0a0a 0a020807 1001 920201 "6" | 00 00000016 0a0a 0a020807 1001 920201 "6" c23e02 "n1" ca3e020807
7 | 0a0a 0a020808 1001 920201 "7" | 00 00000016 0a0a 0a020808 1001 920201 "7" c23e02 "n1" ca3e020808
8 | 0a0a 0a020809 1001 920201 "8" | 00 00000016 0a0a 0a020809 1001 920201 "8" c23e02 "n1" ca3e020809
9 | 0a0a 0a02080a 1001 920201 "9" | 00 00000016 0a0a 0a02080a 1001 920201 "9" c23e02 "n1" ca3e02080a
untimed | 0a06 1001 920201 "0" | 00 0000000d 0a06 1001 920201 "0" c23e02 "n1"

# Of processors 0, 3 and 0, and of none.
perf5@2 | 1a06 0801 1005 1a00 ca3e020802 | 00 00000012 1a06 0801 1005 1a00 c23e02 "n1" ca3e020802
perf9@3 | 1a08 0801 1009 1a020803 ca3e020803 | 00 00000014 1a08 0801 1009 1a020803 c23e02 "n1" ca3e020803
perf9@5 | 1a06 0801 1009 1a00 ca3e020805 | 00 00000012 1a06 0801 1009 1a00 c23e02 "n1" ca3e020805
ring4 | 1a04 0803 1004 | 00 0000000b 1a04 0803 1004 c23e02 "n1"

ring3@0 | - | 00 0000000e 1a04 0803 1003 c23e02 "n1" ca3e00
ring1@2 | - | 00 00000010 1a04 0803 1001 c23e02 "n1" ca3e020802
ring2@2 | - | 00 00000010 1a04 0803 1002 c23e02 "n1" ca3e020802
ring3@2 | - | 00 00000010 1a04 0803 1003 c23e02 "n1" ca3e020802
ring1@3 | - | 00 00000010 1a04 0803 1001 c23e02 "n1" ca3e020803
ring2@3 | - | 00 00000010 1a04 0803 1002 c23e02 "n1" ca3e020803
ring3@3 | - | 00 00000010 1a04 0803 1003 c23e02 "n1" ca3e020803
ring4@3 | - | 00 00000010 1a04 0803 1004 c23e02 "n1" ca3e020803
ring6@3 | - | 00 00000010 1a04 0803 1006 c23e02 "n1" ca3e020803
ring4@5 | - | 00 00000010 1a04 0803 1004 c23e02 "n1" ca3e020805
ring2@8 | - | 00 00000010 1a04 0803 1002 c23e02 "n1" ca3e020808

# A node's name alone, a flow that is cut, a uuid that is no UTF-8, and a node's status.
name | c23e01 "x" | -
cut | 0a05 1001 | -
letters | 0a04 920201 ff | -
status | 1200 | -

# The end, without code or message.
ok | - | 02 00000000
"#;

/// What a cell of `EVENTS` spells, in the row of this word.
pub(crate) fn spelled(alloc: Global, word: &str, cell: usize) -> Result<Vec<u8>, Fail> {
    for row in rows(alloc, EVENTS)? {
        if row.cell(0) == word {
            return Ok(bytes(alloc, row.cell(cell))?);
        }
    }
    Err(Fail::new(format_args!("no word: {word}")))
}

/// The frames of these words.
pub(crate) fn frames_of(alloc: Global, words: &str) -> Result<Vec<u8>, Fail> {
    let mut frames = Vec::new(alloc);
    for word in words.split_whitespace() {
        frames.extend_from_slice(&spelled(alloc, word, 2)?)?;
    }
    Ok(frames)
}

/// A text up to its first blank, and what stands behind it.
pub(crate) fn parted(text: &str) -> (&str, &str) {
    text.split_once(' ').unwrap_or((text, ""))
}

/// A moment in seconds, perhaps with nine digits behind a point.
fn stamp(text: &str) -> Result<Option<Stamp>, Fail> {
    let (secs, nanos) = text.split_once('.').unwrap_or((text, "0"));
    Ok(Some(Stamp {
        secs: number(secs)?,
        nanos: number(nanos)?,
    }))
}

/// The request for `all`, for `first` or `last` flows, for those `since` and `until` a moment, and for
/// those that `follow`.
pub(crate) fn request_of(alloc: Global, asked: &str) -> Result<GetFlowsRequest, Fail> {
    let mut request = GetFlowsRequest::new(alloc)?;
    for part in asked.split(',') {
        let (word, value) = parted(part.trim());
        match word {
            "first" | "last" => {
                request.number = number(value)?;
                request.first = word == "first";
            }
            "since" => request.since = stamp(value)?,
            "until" => request.until = stamp(value)?,
            "follow" => request.follow = true,
            "all" => {}
            _ => return Err(Fail::new(format_args!("not asked: {part}"))),
        }
    }
    Ok(request)
}
