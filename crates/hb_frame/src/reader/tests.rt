//! The reader, with streams that come in many ways.
use super::*;
use hb_cases::{CaseFault, Row, bytes, number, rows};
use std::process::Abort;
use std::test::*;

/// A frame of each kind, behind the place where it begins.
const FRAMES: &str = r#"
     0 | 01 00000004 "/abc"
     9 | 00 00000003 "xyz"
    17 | 03 00000000
    22 | 02 00000004 08031200
"#;

/// Frames one after another: their bytes, and the places where they begin.
#[derive(Debug, Drop, PartialEq, Eq)]
struct Frames {
    bytes: Vec<u8>,
    places: Vec<u64>,
}

impl Frames {
    fn new(alloc: Global) -> Frames {
        Frames {
            bytes: Vec::new(alloc),
            places: Vec::new(alloc),
        }
    }

    /// Those of the table.
    fn of_table(alloc: Global) -> Result<Frames, CaseFault<'static>> {
        let mut frames = Frames::new(alloc);
        for row in &rows(alloc, FRAMES)? {
            frames.places.push(number(row.cell(0))?)?;
            let frame = bytes(alloc, row.cell(1))?;
            frames.bytes.extend_from_slice(frame.as_slice())?;
        }
        Ok(frames)
    }

    /// Adds what the reader gives, up to an answer that is no frame.
    fn take(&mut self, reader: &mut FrameReader) -> Result<Next, NoMemory> {
        for _ in 0..reader.bytes.len() {
            let next = reader.next();
            let Next::Frame { kind, at, length } = next else {
                return Ok(next);
            };
            self.places.push(at)?;
            self.bytes.push(kind)?;
            self.bytes.extend_from_slice(&length.to_be_bytes())?;
            self.bytes.extend_from_slice(reader.body())?;
        }
        Ok(reader.next())
    }
}

/// Whether these frames are given of their bytes in these pieces, and nothing is held then.
fn gives_all(alloc: Global, frames: &Frames, pieces: &[&[u8]]) -> Result<bool, NoMemory> {
    let mut reader = FrameReader::new(alloc)?;
    let mut given = Frames::new(alloc);
    for piece in pieces {
        reader.feed(piece)?;
        if given.take(&mut reader)? != Next::NeedMore {
            return Ok(false);
        }
    }
    Ok(given == *frames && reader.whole())
}

#[test]
fn frames_whole_and_in_every_cut_into_two(rt: HostRuntime) -> Result<(), Fail> {
    let frames = Frames::of_table(rt.alloc())?;
    for at in 0..=frames.bytes.len() {
        let (front, back) = frames.bytes.split_at(at);
        assert!(rt;
            gives_all(rt.alloc(), &frames, &[front, back])?,
            "cut at {at}"
        );
    }
    Ok(())
}

#[test]
fn frames_in_short_pieces(rt: HostRuntime) -> Result<(), Fail> {
    let frames = Frames::of_table(rt.alloc())?;
    for size in 1..=9 {
        let mut pieces = Vec::new(rt.alloc());
        for piece in frames.bytes.chunks(size) {
            pieces.push(piece)?;
        }
        assert!(rt;
            gives_all(rt.alloc(), &frames, &pieces)?,
            "pieces of {size}"
        );
    }
    Ok(())
}

/// What comes behind the four frames, and what the reader answers to it.
const RESTS: &str = r#"
    -                 | NeedMore
    00                | NeedMore
    03 ffffff         | NeedMore
    00 00000003 "ab"  | NeedMore
    00 00010000       | NeedMore
    04                | BadKind { at: 31, kind: 4 }
    ff                | BadKind { at: 31, kind: 255 }
    04 00000000       | BadKind { at: 31, kind: 4 }
    04 ffffffff       | BadKind { at: 31, kind: 4 }
    00 00010001       | TooLong { at: 31, length: 65537 }
    02 01000000 "abc" | TooLong { at: 31, length: 16777216 }
    03 ffffffff       | TooLong { at: 31, length: 4294967295 }
"#;

/// What the reader answers to a rest, fed byte by byte behind the frames: the same again once more
/// is fed behind a fault.
fn answer(rt: &impl Abort, alloc: Global, frames: &Frames, rest: &[u8]) -> Result<Next, NoMemory> {
    let mut reader = FrameReader::new(alloc)?;
    let mut given = Frames::new(alloc);
    reader.feed(frames.bytes.as_slice())?;
    for byte in rest {
        reader.feed(&[*byte])?;
    }
    let answer = given.take(&mut reader)?;
    assert!(rt;
        given == *frames && reader.whole() == rest.is_empty(),
        "{rest:?}"
    );
    reader.feed(b"\x00")?;
    if answer != Next::NeedMore {
        assert_eq!(rt;
            [reader.next(), reader.next()],
            [answer, answer],
            "{rest:?}"
        );
    }
    assert!(rt; reader.body().is_empty(), "{rest:?}");
    Ok(answer)
}

#[test]
fn rests_and_faults_behind_frames(rt: HostRuntime) -> Result<(), Fail> {
    let frames = Frames::of_table(rt.alloc())?;
    for row in &rows(rt.alloc(), RESTS)? {
        let rest = bytes(rt.alloc(), row.cell(0))?;
        let answer = answer(&rt, rt.alloc(), &frames, rest.as_slice())?;
        let answer = format!(in rt.alloc(); "{answer:?}")?;
        assert_eq!(rt; answer.as_str(), row.cell(1), "{row}");
    }
    Ok(())
}

/// Feeds pieces of 4,096 bytes; whether the reader wants more before each.
fn takes_pieces(reader: &mut FrameReader, bytes: &[u8]) -> Result<bool, NoMemory> {
    for piece in bytes.chunks(4_096) {
        if reader.next() != Next::NeedMore {
            return Ok(false);
        }
        reader.feed(piece)?;
    }
    Ok(true)
}

/// Whether a call that takes or gives bytes goes as it should.
fn moves(reader: &mut FrameReader, call: &str, bytes: &[u8]) -> Result<bool, NoMemory> {
    match call {
        "feed" => reader.feed(bytes).map(|()| true),
        "pieces" => takes_pieces(reader, bytes),
        "body" => Ok(reader.body() == bytes),
        _ => Ok(false),
    }
}

/// Whether a row's call answers as it says: `next`, `whole`, `body`, or `feed` and `pieces`, which
/// take bytes.
fn goes(alloc: Global, reader: &mut FrameReader, row: Row<'_>) -> Result<bool, Fail> {
    let cell = row.cell(1);
    match row.cell(0) {
        "next" => Ok(format!(in alloc; "{:?}", reader.next())?.as_str() == cell),
        "whole" => Ok(reader.whole() == number(cell)?),
        call => Ok(moves(reader, call, bytes(alloc, cell)?.as_slice())?),
    }
}

/// Makes the calls, one a row.
fn follow(
    rt: &impl Abort,
    alloc: Global,
    reader: &mut FrameReader,
    calls: &str,
) -> Result<(), Fail> {
    for row in &rows(alloc, calls)? {
        assert!(rt; goes(alloc, reader, *row)?, "{row}");
    }
    Ok(())
}

#[test]
fn a_body_stays_until_the_next_answer(rt: HostRuntime) -> Result<(), Fail> {
    let calls = r#"
        body  | -
        feed  | 00 00000003 "abc" 00 00
        body  | -
        next  | Frame { kind: 0, at: 0, length: 3 }
        feed  | 00
        body  | "abc"
        next  | NeedMore
        body  | -
        whole | false
    "#;
    follow(&rt, rt.alloc(), &mut FrameReader::new(rt.alloc())?, calls)
}

#[test]
fn the_longest_body(rt: HostRuntime) -> Result<(), Fail> {
    let calls = "
        feed   | 00 00010000
        pieces | 07*65536
        next   | Frame { kind: 0, at: 0, length: 65536 }
        body   | 07*65536
        whole  | true
    ";
    follow(&rt, rt.alloc(), &mut FrameReader::new(rt.alloc())?, calls)
}

#[test]
fn places_stop_at_the_end_of_their_type(rt: HostRuntime) -> Result<(), Fail> {
    let calls = "
        feed | 03 00000000 03 00000000 03 00000000 04
        next | Frame { kind: 3, at: 18446744073709551609, length: 0 }
        next | Frame { kind: 3, at: 18446744073709551614, length: 0 }
        next | Frame { kind: 3, at: 18446744073709551615, length: 0 }
        next | BadKind { at: 18446744073709551615, kind: 4 }
    ";
    let mut reader = FrameReader::new(rt.alloc())?;
    reader.place = u64::MAX - 6;
    follow(&rt, rt.alloc(), &mut reader, calls)
}
