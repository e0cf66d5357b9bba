//! Rows worked out by hand, which also show that each call succeeds where there is memory; and one
//! writer and three readers in threads of their own.
mod threads;

ghost use Rattle.std.specs.Prelude.{◌≡◌, ◌+◌, ◌*◌, ◌^◌, ◌≤◌, length, IfSome};
ghost use Rattle.hb_look.specs.Limits.{IsCapacity};
ghost use Rattle.hb_ring.specs.Passes.{IsWriterOf, IsReaderOf};

use super::*;
use hb_cases::{Row, bytes, number, rows};
use hb_look::{Keep, Look, Looked, MOST_RECORDS, Put, Record};
use std::alloc::Global;
use std::process::Abort;
use std::test::*;

/// How many payload words a slot has.
const SLOT_WORDS: u64 = 8;

/// A ring, its writer, a reader, and a buffer for the ring's longest record.
#[derive(Drop)]
struct Bench {
    ring: Ring,
    writer: WriterPass,
    reader: ReaderPass,
    out: Record,
    ghost writes: { IsWriterOf ring writer },
    ghost reads: { IsReaderOf ring reader },
    ghost room: { reader.reader.longest ≤ out.room },
}

impl Bench {
    fn open(alloc: Global, capacity: u64, slot_words: u64) -> Option<Bench>
        requires capacity { IsCapacity capacity }
        requires slot { (8 ≤ slot_words) × (slot_words ≤ 8128) }
        requires size { (capacity + 1) * (slot_words + 1) ≤ 2 ^ 27 }
        ensures slot { IfSome result (λ bench. bench.ring.shape.slot_words ≡ slot_words) }
    {
        let (ring, mut writer) = Ring::open(alloc, capacity, slot_words).ok()?;
        let out = Record::with_room(alloc, 8 * slot_words as usize).ok()?;
        let reader = ring.reader(&mut writer);
        Some(Bench {
            ring,
            writer,
            reader,
            out,
        })
    }

    /// Puts a record through the writer's end.
    fn put(&mut self, bytes: &[u8]) -> Put {
        let mut pen = RingPen {
            ring: &self.ring,
            pass: &mut self.writer,
        };
        pen.put(bytes)
    }

    /// Looks through the reader's end, at a moment that is told by the position, as long as the reader
    /// may look.
    fn look(&mut self, position: u64) -> Looked {
        if position > MOST_RECORDS || self.reader.looked() == MOST_RECORDS {
            return Looked::NoMemory;
        }
        let mut eye = RingEye {
            ring: &self.ring,
            pass: &mut self.reader,
        };
        eye.look(position, position, &mut self.out)
    }

    /// The count that the reader's end loads.
    fn top(&mut self) -> u64 {
        let mut eye = RingEye {
            ring: &self.ring,
            pass: &mut self.reader,
        };
        eye.top()
    }

    /// Splits another reader off, retires the one before it, and looks with the new one.
    fn change_reader(&mut self) -> Retired {
        let next = self.ring.split(&mut self.reader);
        let retired = std::mem::replace(&mut self.reader, next);
        self.ring.retire(&mut self.writer, retired)
    }
}

/// Whether a record is put as its row says.
fn puts(alloc: Global, bench: &mut Bench, row: Row<'_>) -> Result<bool, Fail> {
    let put = bench.put(bytes(alloc, row.cell(1))?.as_slice());
    Ok(format!(in alloc; "{put:?}")?.as_str() == row.cell(2))
}

/// Whether a look at a position finds what its row says, and the record where it gets one.
fn finds(alloc: Global, bench: &mut Bench, row: Row<'_>) -> Result<bool, Fail> {
    let looked = bench.look(number(row.cell(1))?);
    if format!(in alloc; "{looked:?}")?.as_str() != row.cell(2) {
        return Ok(false);
    }
    Ok(looked != Looked::Got || bench.out.bytes() == bytes(alloc, row.cell(3))?.as_slice())
}

/// Makes the calls, one a row.
fn follow(rt: &impl Abort, alloc: Global, bench: &mut Bench, calls: &str) -> Result<(), Fail> {
    for row in &rows(alloc, calls)? {
        let goes = match row.cell(0) {
            "put" => puts(alloc, bench, *row)?,
            "look" => finds(alloc, bench, *row)?,
            "top" => bench.top() == number(row.cell(1))?,
            "written" => bench.ring.written(&bench.writer) == number(row.cell(1))?,
            "retire" => {
                let retired = bench.change_reader();
                retired.looked == number(row.cell(1))? && retired.seen == number(row.cell(2))?
            }
            _ => false,
        };
        assert!(rt; goes, "{row}");
    }
    Ok(())
}

fn of_capacity_3(alloc: Global) -> Option<Bench>
    ensures slot { IfSome result (λ bench. bench.ring.shape.slot_words ≡ 8) }
{
    Bench::open(alloc, 3, SLOT_WORDS)
}

#[test]
fn looks_at_five_records_in_a_ring_of_capacity_3(rt: HostRuntime) -> Result<(), Fail> {
    let mut bench = of_capacity_3(rt.alloc()).ok_or("there is memory")?;
    let calls = r#"
        top     | 0
        look    | 0 | NotYet
        retire  | 1 | 0
        put     | 0a 07 | Done
        put     | 0b 07 | Done
        put     | 0c 07 | Done
        put     | 0d 07 | Done
        put     | 0e 07 | Done
        look    | 0 | Gone(1)
        look    | 1 | Got | 0b 07
        look    | 4 | Got | 0e 07
        look    | 5 | NotYet
        put     | "0123456789012345678901234567890123456789012345678901234567890123x" | TooLong
        written | 5
        top     | 5
        retire  | 4 | 5
        put     | "more" | Done
        look    | 1 | Gone(2)
        look    | 5 | Got | "more"
        look    | 6 | NotYet
        retire  | 3 | 6
    "#;
    follow(&rt, rt.alloc(), &mut bench, calls)
}

#[test]
fn a_reader_stands_still_while_the_writer_laps_it(rt: HostRuntime) -> Result<(), Fail> {
    let mut bench = Bench::open(rt.alloc(), 1, SLOT_WORDS).ok_or("there is memory")?;
    let calls = r#"
        put    | "a"  | Done
        look   | 0    | Got | "a"
        put    | "b"  | Done
        put    | "cc" | Done
        put    | -    | Done
        put    | "e"  | Done
        look   | 1    | Gone(3)
        look   | 3    | Got | -
        look   | 4    | Got | "e"
        look   | 5    | NotYet
        retire | 5    | 5
    "#;
    follow(&rt, rt.alloc(), &mut bench, calls)
}

#[test]
fn records_of_each_length_about_a_word(rt: HostRuntime) -> Result<(), Fail> {
    let mut bench = Bench::open(rt.alloc(), 1, SLOT_WORDS).ok_or("there is memory")?;
    let records = r#"
        -
        00
        "1234567"
        "12345678"
        "123456789"
        ff ff ff ff ff ff ff ff ff ff ff ff ff ff ff
        ff ff ff ff ff ff ff ff ff ff ff ff ff ff ff ff
        "012345678901234567890123456789012345678901234567890123456789012"
        "0123456789012345678901234567890123456789012345678901234567890123"
    "#;
    let mut position = 0_u64;
    for row in &rows(rt.alloc(), records)? {
        let record = bytes(rt.alloc(), row.cell(0))?;
        assert_eq!(rt; bench.put(record.as_slice()), Put::Done);
        assert_eq!(rt; bench.look(position), Looked::Got);
        assert!(rt; bench.out.bytes() == record.as_slice(), "{row}");
        position = position.saturating_add(1);
    }
    Ok(())
}

#[test]
fn the_longest_record(rt: HostRuntime) -> Result<(), Fail> {
    let mut bench = Bench::open(rt.alloc(), 1, 8128).ok_or("there is memory")?;
    let record = vec![in rt.alloc(); 0xa5_u8; 65025]?;
    assert_eq!(rt; bench.put(record.as_slice()), Put::TooLong);
    assert_eq!(rt; bench.put(&record.as_slice()[1..]), Put::Done);
    assert_eq!(rt; bench.look(0), Looked::Got);
    assert!(rt; bench.out.bytes() == &record.as_slice()[1..]);
    Ok(())
}

#[test]
fn the_ring_of_most_slots(rt: HostRuntime) -> Result<(), Fail> {
    let mut bench = Bench::open(rt.alloc(), 65535, SLOT_WORDS).ok_or("there is memory")?;
    assert_eq!(rt; bench.put(b"first"), Put::Done);
    assert_eq!(rt; bench.look(0), Looked::Got);
    assert_eq!(rt; (bench.ring.capacity(), bench.reader.looked()), (65535, 1));
    Ok(())
}
