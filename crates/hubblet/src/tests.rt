//! The top call over a shelf and a sink in memory, as tables of text. Files and outputs are in the words of
//! `hb_cases`; what is expected was worked out by hand.
use super::*;
use hb_cases::{Row, frames, number, rows};
use hb_edge::{MemShelf, MemSink, SetClock};
use hb_files::FileFault;
use hb_wire::Text;
use std::alloc::Global;
use std::process::Abort;
use std::test::Fail;

/// Words, parted by blanks, as a program is given them.
fn words_of(alloc: Global, text: &str) -> Result<Vec<String>, Fail> {
    let mut words = Vec::new(alloc);
    for word in text.split_whitespace() {
        words.push(String::from_str(alloc, word)?)?;
    }
    Ok(words)
}

/// A status and its line, as one text.
fn shown(alloc: Global, status: &Status) -> Result<String, Fail> {
    let line = status.line(alloc)?;
    if line.is_empty() {
        return Ok(format!(in alloc; "{}", status.code())?);
    }
    Ok(format!(in alloc; "{} {line}", status.code())?)
}

/// What these words are answered.
fn told(
    alloc: Global,
    text: &str,
    shelf: &mut MemShelf,
    out: &mut MemSink,
) -> Result<String, Fail> {
    let words = words_of(alloc, text)?;
    shown(alloc, &run(alloc, &words, shelf, out, &SetClock::new(0)))
}

fn shelf_of(alloc: Global, file: &[u8]) -> Result<MemShelf, Fail> {
    let mut shelf = MemShelf::new(alloc)?;
    shelf.put("f", file)?;
    Ok(shelf)
}

/// What the words are answered where this is the file `f`: the status with its line, and the output.
fn answered(alloc: Global, words: &str, file: &[u8]) -> Result<(String, Vec<u8>), Fail> {
    let mut out = MemSink::new(alloc)?;
    let status = told(alloc, words, &mut shelf_of(alloc, file)?, &mut out)?;
    Ok((status, out.sent().to_vec(alloc)?))
}

/// That each row of a table holds.
fn all_hold(
    rt: &impl Abort,
    alloc: Global,
    table: &str,
    holds: fn(Global, &str) -> Result<bool, Fail>,
) -> Result<(), Fail>
    requires { IsAlwaysCallable holds }
{
    for row in &rows(alloc, table)? {
        assert!(rt; holds(alloc, row.text)?, "{row}");
    }
    Ok(())
}

/// Options, the file, the status with its line, and the output.
const ANSWERS: &str = "
    # no frame, a status alone, and a flow
    | nothing | 0 | ok
    | ok | 0 | ok
    | flow 0 | 0 | flows 0..1 of localhost; ok
    # the name and the time of a recorded answer are not handed on
    | flow 0, of x, at 2s | 0 | flows 0..1 of localhost; ok
    # a flow without a time, and with an empty one
    | 1001 92020130, all in 0a | 0 | 0a06 1001 92020130, of localhost; ok
    | 0a00 92020130, all in 0a | 0 | 0a06 0a00 92020130, of localhost, ca3e00; ok
    | 0a06 1001 92020130; 0a06 0a00 92020130 | 0 | \
        0a06 1001 92020130, of localhost; 0a06 0a00 92020130, of localhost, ca3e00; ok
    # a call, a status, an empty cancel and one with a body, around one flow
    | call \"/x\"; status 0805; flow 0; cancel -; cancel ff | 0 | flows 0..1 of localhost; ok
    # bodies that would be taken as messages, and the longest
    | call 0a021001; status 0a021001 | 0 | ok
    | call 78*65536 | 0 | ok
    # long fields beside a flow: one that is not known, and a name
    | flow 0, 22: 17000 letters; flow 0, 22: 17000 letters | 0 | flow 0, of localhost, at 1s; flow 0, of localhost, at 1s; ok
    | flow 0, 22: 65520 letters; flow 0, 22: 65520 letters | 0 | flow 0, of localhost, at 1s; flow 0, of localhost, at 1s; ok
    | flow 0, c23e: 17000 letters; flow 0, c23e: 17000 letters | 0 | flow 0, of localhost, at 1s; flow 0, of localhost, at 1s; ok
    | flow 0, c23e: 65519 letters; flow 0, c23e: 65519 letters | 0 | flow 0, of localhost, at 1s; flow 0, of localhost, at 1s; ok
    # a field that is not known, before the flow's time; two verdicts; verdict -1
    | 0a0c 3805 0a020801 1002 92020161 | 0 | 0a0c 0a020801 1002 92020161 3805, of localhost, at 1s; ok
    | 0a04 1001 1002 | 0 | 0a02 1002, of localhost; ok
    | 0a0b 10 ff*9 01 | 0 | 0a0b 10 ff*9 01, of localhost; ok
    # a flow, messages without one (empty, a name, a time), and a flow
    | 0a021001; -; of x; ca3e00; 0a00 | 0 | 0a021001, of localhost; 0a00, of localhost; ok
    # a node keeps the newest flows
    --capacity 3 --node n1 | flows 0..5 | 0 | flows 2..5 of n1; ok

    # of 8,192 bytes, and of one more: one event lost at Cilium's OBSERVER_EVENTS_QUEUE stands for it
    | 9202: 8185 letters, all in 0a | 0 | 9202: 8185 letters, all in 0a, of localhost; ok
    | 9202: 8186 letters, all in 0a | 0 | 1a0408021001, of localhost; ok
    --slot 64 | 0a020801, 9202: 55 letters, all in 0a | 0 | 0a020801, 9202: 55 letters, all in 0a, of localhost, at 1s; ok
    --slot 64 | 0a020801, 9202: 56 letters, all in 0a | 0 | 1a0408021001, of localhost, at 1s; ok
    --slot 64 | 22: 56 letters, all in 1a, at 1s | 0 | 1a0408021001, of localhost, at 1s; ok
    --slot 65024 | 9202: 65015 letters, all in 0a | 0 | 9202: 65015 letters, all in 0a, of localhost; ok
    --slot 65024 | 9202: 65016 letters, all in 0a | 0 | 1a0408021001, of localhost; ok
    # 5,000 verdicts are one; what two flows of one message hold is in one record
    | 1001*5000, all in 0a | 0 | 0a021001, of localhost; ok
    | 3a: 4091 letters, all in 0a, twice | 0 | 3a: 4091 letters, twice, all in 0a, of localhost; ok
    | 3a: 4092 letters, all in 0a, twice | 0 | 1a0408021001, of localhost; ok

    # what is bad has the place of its frame, which counts all before it, and nothing is answered
    | call \"/x\"; flow 0; 24 | 5 f: bad record at 24 | nothing
    | cancel 24*65536; hex 04 00000000 | 5 f: bad record at 65541 | nothing
    | flow 0; hex 00 0000000c 0a | 5 f: bad record at 17 | nothing
    | hex 01 00010001 78*65537 | 5 f: bad record at 0 | nothing
    | 1200; 24 | 5 f: bad record at 7 | nothing
    | -; 24; 1200 | 5 f: bad record at 5 | nothing
    | ok; 24; hex 04 00000000 | 5 f: bad record at 5 | nothing
    # anew it has 65,536 bytes, and one more
    | 0a06 10ffffffff0f, c23e: 65518 letters | 0 | 0a0b 10 ff*9 01, of localhost; ok
    | 0a06 10ffffffff0f, c23e: 65519 letters | 5 f: bad record at 0 | nothing
";

fn is_answered(alloc: Global, text: &str) -> Result<bool, Fail> {
    let row = Row { text };
    let words = format!(in alloc; "observe f --output frames {}", row.cell(0))?;
    let (status, sent) = answered(alloc, words.as_str(), &frames(alloc, row.cell(1))?)?;
    Ok(status.as_str() == row.cell(2) && sent == frames(alloc, row.cell(3))?)
}

#[test]
fn recordings_are_answered(rt: HostRuntime) -> Result<(), Fail> {
    all_hold(&rt, rt.alloc(), ANSWERS, is_answered)
}

/// Options, and of flows 0 to 4 those that are answered.
const FLOWS: &str = "
    --output frames | 0..5
    # the last flows, and the first
    --output frames --last 1 | 4..5
    --output frames --last 2 | 3..5
    --output frames --last 5 | 0..5
    --output frames --last 7 | 0..5
    --last 18446744073709551615 --output frames | 0..5
    --output frames --first 1 | 0..1
    --output frames --first 2 | 0..2
    --output frames --first 5 | 0..5
    --output frames --first 7 | 0..5
    --first 18446744073709551615 --output frames | 0..5
    # what the ring has of them
    --output frames --capacity 1 | 4..5
    --output frames --capacity 7 | 0..5
    --output frames --last 2 --capacity 1 | 4..5
    --output frames --last 2 --capacity 3 | 3..5
    --output frames --last 5 --capacity 3 | 2..5
    --output frames --first 2 --capacity 1 | 4..5
    --output frames --first 2 --capacity 3 | 2..4
    # other orders
    --capacity 3 --first 2 --output frames | 2..4
    --first 2 --output frames --capacity 3 | 2..4
    --last 2 --output frames --slot 64 | 3..5
    --slot 64 --capacity 1 --output frames | 4..5
";

/// Whether the flows of a row are answered by this node.
fn flows_come(alloc: Global, words: &str, node: &str, row: Row<'_>) -> Result<bool, Fail> {
    let want = format!(in alloc; "flows {} of {node}; ok", row.cell(1))?;
    let (status, sent) = answered(alloc, words, &frames(alloc, "flows 0..5")?)?;
    Ok(status.as_str() == "0" && Ok(sent) == frames(alloc, want.as_str()))
}

/// The name of the node may stand first or last.
fn named_flows_come(alloc: Global, text: &str) -> Result<bool, Fail> {
    let row = Row { text };
    let alone = format!(in alloc; "observe f {}", row.cell(0))?;
    let before = format!(in alloc; "observe f --node n1 {}", row.cell(0))?;
    let behind = format!(in alloc; "{alone} --node n1")?;
    Ok(
        flows_come(alloc, alone.as_str(), "localhost", row)?
            && flows_come(alloc, before.as_str(), "n1", row)?
            && flows_come(alloc, behind.as_str(), "n1", row)?,
    )
}

#[test]
fn the_last_and_the_first_flows(rt: HostRuntime) -> Result<(), Fail> {
    all_hold(&rt, rt.alloc(), FLOWS, named_flows_come)
}

/// Frames of a recording, and what node n1 answers each with: lost events of a processor and a time, of
/// none, and of both; a node's status, a call, and flows.
const MIXED: &str = "
    1a06 0801 1005 1a00, at 2s | 1a06 0801 1005 1a00, of n1, at 2s
    flow 0 | flows 0..1 of n1
    12020801 | nothing
    call 1a00 | nothing
    1a04 0803 1004 | 1a04 0803 1004, of n1
    flow 1 | flows 1..2 of n1
    flow 2 | flows 2..3 of n1
    1a08 0801 1009 1a020803, at 3s | 1a08 0801 1009 1a020803, of n1, at 3s
";

/// Options, and of the frames of `MIXED` those that are answered. Lost events are no flows: backwards those
/// behind the last flow that is counted are answered too, and forwards those before it.
const PARTS: &str = "
    | 0..8
    --last 1 | 6..8
    --last 2 | 5..8
    --last 3 | 1..8
    --last 4 | 0..8
    --first 1 | 0..2
    --first 2 | 0..6
    --first 3 | 0..7
    --first 4 | 0..8
    --capacity 1 | 7..8
    --capacity 3 | 5..8
    --capacity 1 --last 1 | 7..8
    --capacity 1 --first 1 | 7..8
    --capacity 3 --last 1 | 6..8
    --capacity 3 --last 3 | 5..8
    --capacity 3 --first 1 | 5..6
    --capacity 3 --first 3 | 5..8
    --capacity 7 --last 4 | 0..8
";

/// The frames of `MIXED` in this cell, of the rows from one up to another.
fn mixed(alloc: Global, first: usize, end: usize, cell: usize) -> Result<Vec<u8>, Fail> {
    let mut file = Vec::new(alloc);
    for (at, row) in rows(alloc, MIXED)?.iter().enumerate() {
        if first <= at && at < end {
            file.extend_from_slice(&frames(alloc, row.cell(cell))?)?;
        }
    }
    Ok(file)
}

/// The output of the rows of `MIXED` in a range: `5..8`.
fn mixed_output(alloc: Global, range: &str) -> Result<Vec<u8>, Fail> {
    let (first, end) = range.split_once("..").ok_or("a range")?;
    let mut output = mixed(alloc, number(first)?, number(end)?, 1)?;
    output.extend_from_slice(&frames(alloc, "ok")?)?;
    Ok(output)
}

fn part_comes(alloc: Global, text: &str) -> Result<bool, Fail> {
    let row = Row { text };
    let words = format!(in alloc; "observe f --node n1 --output frames {}", row.cell(0))?;
    let (status, sent) = answered(alloc, words.as_str(), &mixed(alloc, 0, 8, 0)?)?;
    Ok(status.as_str() == "0" && sent == mixed_output(alloc, row.cell(1))?)
}

#[test]
fn lost_events_are_not_counted(rt: HostRuntime) -> Result<(), Fail> {
    all_hold(&rt, rt.alloc(), PARTS, part_comes)
}

/// A flow whose record is too long for a slot of 64 bytes, between two others.
const LONG_AMONG: &str = "flow 0; 0a020801, 9202: 100 letters, all in 0a; flow 0";

/// Options, and what is answered of `LONG_AMONG`: what stands for the long flow is no flow.
const COUNTED: &str = "
    | flow 0, of x, at 1s; 1a0408021001, of x, at 1s; flow 0, of x, at 1s; ok
    --last 1 | flow 0, of x, at 1s; ok
    --last 2 | flow 0, of x, at 1s; 1a0408021001, of x, at 1s; flow 0, of x, at 1s; ok
    --first 1 | flow 0, of x, at 1s; ok
    --first 2 | flow 0, of x, at 1s; 1a0408021001, of x, at 1s; flow 0, of x, at 1s; ok
    --capacity 1 | flow 0, of x, at 1s; ok
    --capacity 3 | flow 0, of x, at 1s; 1a0408021001, of x, at 1s; flow 0, of x, at 1s; ok
";

fn is_counted(alloc: Global, text: &str) -> Result<bool, Fail> {
    let row = Row { text };
    let options = row.cell(0);
    let words = format!(in alloc; "observe f --node x --slot 64 --output frames {options}")?;
    let (status, sent) = answered(alloc, words.as_str(), &frames(alloc, LONG_AMONG)?)?;
    Ok(status.as_str() == "0" && sent == frames(alloc, row.cell(1))?)
}

#[test]
fn a_replaced_flow_is_not_counted(rt: HostRuntime) -> Result<(), Fail> {
    all_hold(&rt, rt.alloc(), COUNTED, is_counted)
}

#[test]
fn the_newest_4095_flows_are_answered(rt: HostRuntime) -> Result<(), Fail> {
    let file = frames(rt.alloc(), "flows 0..5000")?;
    let (status, sent) = answered(rt.alloc(), "observe f --output frames", &file)?;
    assert_eq!(rt; status.as_str(), "0");
    assert!(rt;
        sent == frames(rt.alloc(), "flows 905..5000 of localhost; ok")?,
        "4,095 flows"
    );
    Ok(())
}

/// Words that are no command, with the file `f` of one flow on the shelf.
const REFUSED: &str = "
    observe
    observe f
    observe f --output json
    observe f --output frames --last 0
    observe f --output frames --last 1 --first 1
    observe f --output frames --capacity 4
    print f --output frames
";

fn is_refused(alloc: Global, words: &str) -> Result<bool, Fail> {
    let (status, sent) = answered(alloc, words, &frames(alloc, "flow 0")?)?;
    Ok(status.as_str() == "2 bad words" && sent.is_empty())
}

#[test]
fn other_words_are_refused(rt: HostRuntime) -> Result<(), Fail> {
    all_hold(&rt, rt.alloc(), REFUSED, is_refused)
}

/// The read that fails, and the status with its line, and whether something was written. The second read
/// finds the end. A call that does not come fails nothing.
const READS: &str = "
    1 | 3 f: read failed | no
    2 | 3 f: read failed | no
    3 | 0 | yes
";

fn read_is_told(alloc: Global, text: &str) -> Result<bool, Fail> {
    let row = Row { text };
    let mut shelf = shelf_of(alloc, &frames(alloc, "flow 0")?)?;
    shelf.set_fail(&[number(row.cell(0))?])?;
    let mut out = MemSink::new(alloc)?;
    let status = told(alloc, "observe f --output frames", &mut shelf, &mut out)?;
    let wrote = if out.sent().is_empty() { "no" } else { "yes" };
    Ok(status.as_str() == row.cell(1) && wrote == row.cell(2))
}

#[test]
fn a_read_that_fails_is_told(rt: HostRuntime) -> Result<(), Fail> {
    all_hold(&rt, rt.alloc(), READS, read_is_told)
}

#[test]
fn a_missing_file_is_not_read(rt: HostRuntime) -> Result<(), Fail> {
    let mut shelf = MemShelf::new(rt.alloc())?;
    let mut out = MemSink::new(rt.alloc())?;
    let status = told(
        rt.alloc(),
        "observe f --output frames",
        &mut shelf,
        &mut out,
    )?;
    assert_eq!(rt; status.as_str(), "3 f: read failed");
    Ok(())
}

/// The write that fails, how many bytes were taken before it, and the status with its line. A write takes
/// one byte, so that 39 writes are due.
const WRITES: &str = "
    1 | 0 | 4 write failed
    2 | 1 | 4 write failed
    39 | 38 | 4 write failed
    40 | 39 | 0
";

fn write_leaves_a_front(alloc: Global, text: &str) -> Result<bool, Fail> {
    let row = Row { text };
    let mut shelf = shelf_of(alloc, &frames(alloc, "flow 0")?)?;
    let mut out = MemSink::new(alloc)?;
    out.set_piece(1);
    out.set_fail(&[number(row.cell(0))?])?;
    let status = told(alloc, "observe f --output frames", &mut shelf, &mut out)?;
    let reply = frames(alloc, "flows 0..1 of localhost; ok")?;
    Ok(status.as_str() == row.cell(2) && Some(out.sent()) == reply.get(..number(row.cell(1))?))
}

#[test]
fn a_write_that_fails_leaves_a_front(rt: HostRuntime) -> Result<(), Fail> {
    all_hold(&rt, rt.alloc(), WRITES, write_leaves_a_front)
}

/// How a command ended, and the status with its line.
const STATUSES: &str = "
    done | 0
    bad words | 2 bad words
    read failed | 3 a/b: read failed
    write failed | 4 write failed
    bad at 17 | 5 a/b: bad record at 17
    no memory | 9 no memory
    too large | 12 a/b: too large
";

fn status_of(alloc: Global, ended: &str) -> Result<Status, Fail> {
    let file = Text::of(alloc, "a/b")?;
    match ended {
        "done" => Ok(Status::Done),
        "bad words" => Ok(Status::BadWords),
        "write failed" => Ok(Status::WriteFault),
        "read failed" => Ok(Status::of(file, FileFault::ReadFailed)),
        "bad at 17" => Ok(Status::of(file, FileFault::BadRecord { at: 17 })),
        "no memory" => Ok(Status::of(file, FileFault::NoMemory)),
        "too large" => Ok(Status::of(file, FileFault::TooLarge)),
        _ => Err("another end".into()),
    }
}

fn status_is_told(alloc: Global, text: &str) -> Result<bool, Fail> {
    let row = Row { text };
    Ok(shown(alloc, &status_of(alloc, row.cell(0))?)?.as_str() == row.cell(1))
}

#[test]
fn each_status_has_a_code_and_a_line(rt: HostRuntime) -> Result<(), Fail> {
    all_hold(&rt, rt.alloc(), STATUSES, status_is_told)
}
