//! Rows of bytes worked out by hand from the Protocol Buffers encoding guide. What they read as is
//! told in words: the fields that are there, as in `number=2 first since=1s,2ns unknown=2001`, bytes
//! in hexadecimal digits, and `masked` where there is a field mask; `-` where there is none; or the
//! fault and its place.

use super::*;
use hb_cases::{bytes, digits, number, rows};
use hb_schema::DecodeFault;
use hb_time::Stamp;
use std::alloc::Global;
use std::process::Abort;
use std::test::*;

/// Appends a word behind a blank.
fn put(out: &mut String, word: &str) -> Result<(), Fail> {
    if !out.is_empty() {
        out.push(' ')?;
    }
    out.push_str(word)?;
    Ok(())
}

fn put_time(alloc: Global, out: &mut String, name: &str, time: Option<Stamp>) -> Result<(), Fail> {
    if let Some(Stamp { secs, nanos }) = time {
        put(out, &format!(in alloc; "{name}={secs}s,{nanos}ns")?)?;
    }
    Ok(())
}

fn request_words(alloc: Global, request: &GetFlowsRequest) -> Result<String, Fail> {
    let mut out = String::new(alloc);
    let (number, unknown) = (request.number, request.unknown.as_slice());
    if number != 0 {
        put(&mut out, &format!(in alloc; "number={number}")?)?;
    }
    if request.first {
        put(&mut out, "first")?;
    }
    if request.follow {
        put(&mut out, "follow")?;
    }
    put_time(alloc, &mut out, "since", request.since)?;
    put_time(alloc, &mut out, "until", request.until)?;
    if request.is_masked() {
        put(&mut out, "masked")?;
    }
    if !unknown.is_empty() {
        let unknown = digits(alloc, unknown)?;
        put(&mut out, &format!(in alloc; "unknown={unknown}")?)?;
    }
    if out.is_empty() {
        put(&mut out, "-")?;
    }
    Ok(out)
}

fn fault_words(alloc: Global, fault: DecodeFault) -> Result<String, Fail> {
    let text = match fault {
        DecodeFault::Malformed { at } => format!(in alloc; "malformed {at}"),
        DecodeFault::BadUtf8 { at } => format!(in alloc; "bad utf8 {at}"),
        DecodeFault::NoMemory => String::from_str(alloc, "no memory"),
    };
    Ok(text?)
}

/// What the bytes of a request read as.
fn read_words(alloc: Global, message: &[u8]) -> Result<String, Fail> {
    match GetFlowsRequest::read(alloc, message) {
        Ok(request) => request_words(alloc, &request),
        Err(fault) => fault_words(alloc, fault),
    }
}

/// Compares, row by row, what the bytes in one cell read as with the words in another.
fn all_read(
    rt: &impl Abort,
    alloc: Global,
    table: &str,
    from: usize,
    to: usize,
) -> Result<(), Fail> {
    for row in rows(alloc, table)? {
        let words = read_words(alloc, &bytes(alloc, row.cell(from))?)?;
        assert_eq!(rt; words.as_str(), row.cell(to), "{row}");
    }
    Ok(())
}

/// What is written of the request that these bytes read as, behind a byte that stays.
fn anew(alloc: Global, message: &[u8]) -> Result<Vec<u8>, Fail> {
    let mut out = Vec::from_slice(alloc, &[0xff])?;
    if let Ok(request) = GetFlowsRequest::read(alloc, message) {
        request.write(&mut out)?;
    }
    let rest = out.strip_prefix(&[0xff]).ok_or("what stood there")?;
    Ok(rest.to_vec(alloc)?)
}

/// Compares, row by row, what is written of the bytes in one cell with those in another.
fn all_written(
    rt: &impl Abort,
    alloc: Global,
    table: &str,
    from: usize,
    to: usize,
) -> Result<(), Fail> {
    for row in rows(alloc, table)? {
        let out = anew(alloc, &bytes(alloc, row.cell(from))?)?;
        assert_eq!(rt; out, bytes(alloc, row.cell(to))?, "{row}");
    }
    Ok(())
}

#[test]
fn a_request_of_no_field(rt: HostRuntime) -> Result<(), Fail> {
    let request = GetFlowsRequest::new(rt.alloc())?;
    assert_eq!(rt; request_words(rt.alloc(), &request)?.as_str(), "-");
    let mut out = Vec::new(rt.alloc());
    request.write(&mut out)?;
    assert!(rt; out.is_empty());
    Ok(())
}

const READ: &str = "
    - | -
    0802 4801 | number=2 first
    1801 | follow
    0802 1801 3a04 0801 1002 4202 0803 4801 2001 | number=2 first follow since=1s,2ns until=3s,0ns unknown=2001
    # The same, turned.
    2001 4801 4202 0803 3a04 1002 0801 1801 0802 | number=2 first follow since=1s,2ns until=3s,0ns unknown=2001
    # There, and empty.
    3a00 | since=0s,0ns
    4200 | until=0s,0ns
    # The last one counts.
    0801 0805 | number=5
    0805 0800 | -
    4801 4800 | -
    1801 1800 | -
    1800 1801 | follow
    # Moments in two fields are one, whatever stands between.
    3a02 0801 3a02 1002 | since=1s,2ns
    4204 0801 1002 4202 0803 | until=3s,2ns
    3a02 0801 4202 0803 3a02 1002 | since=1s,2ns until=3s,0ns
    # 2^64 - 1, and before 1970.
    08 ff*9 01 | number=18446744073709551615
    3a0b 08 ff*9 01 | since=-1s,0ns
    # Each number but 0 is true.
    4800 | -
    48 8000 | -
    4802 | first
    48 8002 | first
    48 80*9 01 | first
    1800 | -
    1802 | follow
    18 8002 | follow
    # Longer than needed: a tag and a number, a tag and a length.
    8800 828000 | number=2
    ba00 8200 0801 | since=1s,0ns
    9800 8100 | follow
    # A blacklist and a whitelist, whose bodies are not looked at.
    2a00 0802 3201 0b | number=2 unknown=2a0032010b
    # A field mask, empty or not, which is not looked at.
    5200 | masked unknown=5200
    5203 0a01 61 | masked unknown=52030a0161
    5202 0b0c | masked unknown=52020b0c
    d200 8000 | masked unknown=d2008000
    # Behind other fields, and before one.
    2001 5200 | masked unknown=20015200
    3200 0802 5200 2001 | number=2 masked unknown=320052002001
    # Field 10 with another wire type, and in the body of another field.
    5000 | unknown=5000
    5001 | unknown=5001
    51 5200520052005200 | unknown=515200520052005200
    55 52005200 | unknown=5552005200
    3202 5200 | unknown=32025200
    3a02 5200 | since=0s,0ns
    # Known numbers, with a wire type that is not theirs.
    0a01 05 | unknown=0a0105
    09 0100000000000000 | unknown=090100000000000000
    3807 | unknown=3807
    4007 | unknown=4007
    19 0100000000000000 | unknown=190100000000000000
    1a01 01 | unknown=1a0101
    1d 01000000 | unknown=1d01000000
    4a01 01 | unknown=4a0101
    4d 01000000 | unknown=4d01000000
    # As it was spelled.
    a000 8100 | unknown=a0008100
    # A moment drops what it does not know.
    3a04 1807 0801 | since=1s,0ns
";

const FAULTS: &str = "
    # A varint that is cut, and one of more than 64 bits.
    0802 4880 | malformed 2
    1801 48 ff*9 02 | malformed 2
    # A group begins and ends.
    1801 0b 0c | malformed 2
    1801 0c | malformed 2
    0802 0001 | malformed 2
    # A length past the end.
    4801 3a02 08 | malformed 2
    4801 5202 08 | malformed 2
    # In the body of since, and in that of until.
    0802 3a03 1001 0b | malformed 6
    4204 0801 1080 | malformed 4
    # The two halves of a field are not joined.
    3a01 08 3a01 01 | malformed 2
    # The first of two.
    3a01 0b 0b | malformed 2
    # A moment that does not count is still read.
    4201 0c 4202 0801 | malformed 2
";

#[test]
fn requests_are_read(rt: HostRuntime) -> Result<(), Fail> {
    all_read(&rt, rt.alloc(), READ, 0, 1)?;
    all_read(&rt, rt.alloc(), FAULTS, 0, 1)
}

/// What the front of a request of 16 bytes reads as, by its size: from, to.
const CUTS: &str = "
    0 | 0 | -
    1 | 1 | malformed 0
    2 | 2 | number=2
    3 | 7 | malformed 2
    8 | 8 | number=2 since=1s,2ns
    9 | 11 | malformed 8
    12 | 12 | number=2 since=1s,2ns until=3s,0ns
    13 | 13 | malformed 12
    14 | 14 | number=2 first since=1s,2ns until=3s,0ns
    15 | 15 | malformed 14
    16 | 16 | number=2 first since=1s,2ns until=3s,0ns masked unknown=5200
";

#[test]
fn every_cut_of_one_request(rt: HostRuntime) -> Result<(), Fail> {
    let whole = bytes(rt.alloc(), "0802 3a04 0801 1002 4202 0803 4801 5200")?;
    for row in rows(rt.alloc(), CUTS)? {
        for size in number::<usize>(row.cell(0))?..=number(row.cell(1))? {
            let cut = whole.get(..size).ok_or("a front")?;
            assert_eq!(rt; read_words(rt.alloc(), cut)?.as_str(), row.cell(2), "{row}");
        }
    }
    Ok(())
}

/// Canonical spellings.
const CANONICAL: &str = "
    - | -
    0802 4801 | number=2 first
    08 ff*9 01 | number=18446744073709551615
    4801 | first
    1801 | follow
    3a00 4200 | since=0s,0ns until=0s,0ns
    4216 08 ff*9 01 10 ff*9 01 | until=-1s,-1ns
    0802 1801 3a04 0801 1002 4202 0803 4801 2001 5200 | number=2 first follow since=1s,2ns until=3s,0ns masked unknown=20015200
";

#[test]
fn requests_are_written(rt: HostRuntime) -> Result<(), Fail> {
    all_read(&rt, rt.alloc(), CANONICAL, 0, 1)?;
    all_written(&rt, rt.alloc(), CANONICAL, 0, 0)
}

#[test]
fn a_copy_is_the_same_request(rt: HostRuntime) -> Result<(), Fail> {
    for row in rows(rt.alloc(), CANONICAL)? {
        if let Ok(request) = GetFlowsRequest::read(rt.alloc(), &bytes(rt.alloc(), row.cell(0))?) {
            let copy = request.try_clone(rt.alloc())?;
            assert_eq!(rt;
                request_words(rt.alloc(), &copy)?.as_str(),
                row.cell(1),
                "{row}"
            );
        }
    }
    Ok(())
}

/// Requests, how they are written anew, and what both read as.
const ANEW: &str = "
    # True is 1, and false is not written.
    4802 | 4801 | first
    1802 | 1801 | follow
    0805 4801 4800 | 0805 | number=5
    1801 1800 | - | -
    # By ascending number.
    4801 3a00 1801 0802 | 0802 1801 3a00 4801 | number=2 first follow since=0s,0ns
    # What is not known comes last, in its order and spelling.
    2001 4200 3201 0b 3a00 a000 00 | 3a00 4200 2001 3201 0b a000 00 | since=0s,0ns until=0s,0ns unknown=200132010ba00000
    5200 1801 0802 | 0802 1801 5200 | number=2 follow masked unknown=5200
    # A known number with another wire type is not put in its place.
    3807 4801 | 4801 3807 | first unknown=3807
    # In two fields.
    3a02 1002 3a02 0801 | 3a04 0801 1002 | since=1s,2ns
    # What a moment does not know is gone.
    3a04 1807 0801 | 3a02 0801 | since=1s,0ns
    # Longer than needed, and a default.
    8800 828000 ba00 8200 0800 | 0802 3a00 | number=2 since=0s,0ns
";

#[test]
fn what_was_written_is_read_again(rt: HostRuntime) -> Result<(), Fail> {
    all_written(&rt, rt.alloc(), ANEW, 0, 1)?;
    all_written(&rt, rt.alloc(), ANEW, 1, 1)?;
    all_read(&rt, rt.alloc(), ANEW, 0, 2)?;
    all_read(&rt, rt.alloc(), ANEW, 1, 2)
}

/// Bytes that are kept, which need not divide into fields, and what a request with them reads as.
const KEPT: &str = "
    5200 0b | masked unknown=52000b
    5200 52 | masked unknown=520052
    2001 5200 80 | masked unknown=2001520080
    0b 5200 | unknown=0b5200
    0002 5200 | unknown=00025200
    52 | unknown=52
    5201 | unknown=5201
    2001 5202 01 | unknown=2001520201
    50 8052 00 | unknown=50805200
    20 80*10 5200 | unknown=20808080808080808080805200
";

#[test]
fn a_mask_is_found_up_to_what_is_no_field(rt: HostRuntime) -> Result<(), Fail> {
    for row in rows(rt.alloc(), KEPT)? {
        let mut request = GetFlowsRequest::new(rt.alloc())?;
        let kept = bytes(rt.alloc(), row.cell(0))?;
        request.unknown.extend_from_slice(&kept)?;
        assert_eq!(rt;
            request_words(rt.alloc(), &request)?.as_str(),
            row.cell(1),
            "{row}"
        );
    }
    Ok(())
}
