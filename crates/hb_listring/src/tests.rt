//! Rows worked out by hand, which also show that each call succeeds where there is memory; and that a
//! reader is known again once the eye is let go through which a generic function looked.
ghost use Rattle.std.specs.Prelude.{◌≡◌, ◌+◌, ◌<◌, ◌≤◌, ℕ, List, length, IfSome};
ghost use Rattle.std.specs.List.{All};
ghost use Rattle.hb_look.specs.Limits.{most_records, IsCapacity};
ghost use Rattle.hb_look.specs.Looks.{added};
ghost use Rattle.hb_look.specs.Answers.{IsExact, found_by, with_look};
ghost use Rattle.hb_look.specs.Progress.{HasLooked};
ghost use Rattle.hb_listring.specs.Log.{StandsFor, HasLimits};
ghost use Rattle.hb_listring.specs.Places.{fresh};

use super::*;
use hb_cases::{Row, bytes, number, rows};
use hb_look::{Keep, Look, Looked, MOST_RECORDS, Put, Record};
use std::alloc::Global;
use std::process::Abort;
use std::test::*;

const SLOT: usize = 64;

/// Looks through any reader, at a moment that is told by the position.
fn look_through<R: Look>(reader: &mut R, position: u64, out: &mut Record) -> Looked
    requires unspent { length (R.reader reader.old).looks < most_records }
    requires place { position ≤ most_records }
    requires room { (R.reader reader.old).longest ≤ out.old.room }
    ensures looked { HasLooked R.reader R.tells R.fixed reader.old reader.new }
    ensures listed { (R.reader reader.new).looks ≡ with_look (R.reader reader.old).looks
        (R.reader reader.old).capacity position position (found_by result out.new.bytes) }
    ensures more { length (R.reader reader.new).looks
        ≤ length (R.reader reader.old).looks + 1 }
    ensures room { out.new.room ≡ out.old.room }
{
    reader.look(position, position, out)
}

/// Makes an eye, looks through it and lets it go: the reader has one look more, which finds what the
/// ring's log has, and the ring is its ring still.
fn look_at(ring: &ListRing, reader: &mut ListReader, position: u64, out: &mut Record) -> Looked
    requires seen { reader.old.seen ≤ ring.now.written }
    requires limits { HasLimits ring.now }
    requires unspent { length reader.old.looks < most_records }
    requires place { position ≤ most_records }
    requires room { ring.now.slot ≤ out.old.room }
    ensures seen { reader.new.seen ≤ ring.now.written }
    ensures listed { reader.new.looks ≡ with_look reader.old.looks
        ring.now.capacity position position (found_by result out.new.bytes) }
    ensures more { length reader.new.looks ≤ length reader.old.looks + 1 }
    ensures found { (log : List (List ℕ)) → StandsFor ring.now log
        → All (IsExact log) (added reader.old.looks reader.new.looks) }
    ensures room { out.new.room ≡ out.old.room }
{
    let mut eye = ListEye { reader, ring };
    look_through(&mut eye, position, out)
}

/// A reader that made no look, and a buffer of this room.
fn reader_and_buffer(alloc: Global, room: usize) -> Option<(ListReader, Record)>
    ensures made { IfSome result (λ made. (made.0 ≡ fresh) × (made.1.room ≡ room)) }
{
    Some((
        ListReader::new(alloc).ok()?,
        Record::with_room(alloc, room).ok()?,
    ))
}

/// A ring, a reader for it alone, and a buffer for its longest record.
#[derive(Drop)]
struct Bench {
    ring: ListRing,
    reader: ListReader,
    out: Record,
    ghost within: { reader.seen ≤ ring.written },
    ghost limits: { HasLimits ring },
    ghost room: { ring.slot ≤ out.room },
}

impl Bench {
    fn open(alloc: Global, capacity: u64) -> Option<Bench>
        requires capacity { IsCapacity capacity }
    {
        let ring = ListRing::open(alloc, capacity, SLOT).ok()?;
        let (reader, out) = reader_and_buffer(alloc, SLOT)?;
        Some(Bench { ring, reader, out })
    }

    fn put(&mut self, bytes: &[u8]) -> Put {
        self.ring.put(bytes)
    }

    fn look(&mut self, position: u32) -> Looked {
        if self.reader.looked() >= MOST_RECORDS {
            return Looked::NoMemory;
        }
        look_at(
            &self.ring,
            &mut self.reader,
            u64::from(position),
            &mut self.out,
        )
    }
}

/// Whether a record is put as its row says.
fn puts(alloc: Global, bench: &mut Bench, row: Row<'_>) -> Result<bool, Fail> {
    let put = bench.put(bytes(alloc, row.cell(1))?.as_slice());
    Ok(format!(in alloc; "{put:?}")?.as_str() == row.cell(2))
}

/// Whether a look at a position finds what its row says, and the record where it gets one.
fn finds(alloc: Global, bench: &mut Bench, row: Row<'_>) -> Result<bool, Fail> {
    let looked = bench.look(number(row.cell(1))?);
    if format!(in alloc; "{looked:?}")?.as_str() != row.cell(2) {
        return Ok(false);
    }
    Ok(looked != Looked::Got || bench.out.bytes() == bytes(alloc, row.cell(3))?.as_slice())
}

/// Makes the calls, one a row.
fn follow(rt: &impl Abort, alloc: Global, bench: &mut Bench, calls: &str) -> Result<(), Fail> {
    for row in &rows(alloc, calls)? {
        let goes = match row.cell(0) {
            "put" => puts(alloc, bench, *row)?,
            "look" => finds(alloc, bench, *row)?,
            _ => false,
        };
        assert!(rt; goes, "{row}");
    }
    Ok(())
}

fn of_capacity_3(alloc: Global) -> Option<Bench> {
    Bench::open(alloc, 3)
}

/// Five records.
const FIVE: &str = "
    put | 0a 07 | Done
    put | 0b 07 | Done
    put | 0c 07 | Done
    put | 0d 07 | Done
    put | 0e 07 | Done
";

#[test]
fn looks_at_five_records_in_a_ring_of_capacity_3(rt: HostRuntime) -> Result<(), Fail> {
    let mut bench = of_capacity_3(rt.alloc()).ok_or("there is memory")?;
    follow(&rt, rt.alloc(), &mut bench, FIVE)?;
    let calls = "
        look | 0 | Gone(1)
        look | 1 | Got | 0b 07
        look | 4 | Got | 0e 07
        look | 5 | NotYet
    ";
    follow(&rt, rt.alloc(), &mut bench, calls)?;
    let Bench {
        ring,
        mut reader,
        ..
    } = bench;
    let mut eye = ListEye {
        reader: &mut reader,
        ring: &ring,
    };
    assert_eq!(rt; (eye.looked(), eye.top(), eye.capacity()), (4, 5, 3));
    assert_eq!(rt; ring.written(), 5);
    Ok(())
}

#[test]
fn a_record_is_overwritten_between_two_looks(rt: HostRuntime) -> Result<(), Fail> {
    let mut bench = of_capacity_3(rt.alloc()).ok_or("there is memory")?;
    follow(&rt, rt.alloc(), &mut bench, FIVE)?;
    let calls = r#"
        look | 1      | Got | 0b 07
        put  | "more" | Done
        look | 1      | Gone(2)
        look | 5      | Got | "more"
        look | 6      | NotYet
    "#;
    follow(&rt, rt.alloc(), &mut bench, calls)
}

#[test]
fn three_records_in_a_ring_of_capacity_1(rt: HostRuntime) -> Result<(), Fail> {
    let mut bench = Bench::open(rt.alloc(), 1).ok_or("there is memory")?;
    let calls = r#"
        put  | "a"   | Done
        put  | -     | Done
        put  | "ccc" | Done
        look | 2     | Got | "ccc"
        look | 1     | Got | -
        look | 0     | Gone(1)
        look | 3     | NotYet
    "#;
    follow(&rt, rt.alloc(), &mut bench, calls)?;
    assert_eq!(rt; bench.ring.written(), 3);
    Ok(())
}

#[test]
fn a_record_longer_than_a_slot_leaves_the_ring_as_it_was(rt: HostRuntime) -> Result<(), Fail> {
    let mut ring = ListRing::open(rt.alloc(), 1, SLOT)
        .ok()
        .ok_or("there is memory")?;
    assert_eq!(rt; ring.put(&[1; 64]), Put::Done);
    assert_eq!(rt; ring.put(&[2; 65]), Put::TooLong);
    assert_eq!(rt; ring.written(), 1);
    let (mut reader, mut out) = reader_and_buffer(rt.alloc(), SLOT).ok_or("there is memory")?;
    assert_eq!(rt; look_at(&ring, &mut reader, 0, &mut out), Looked::Got);
    assert_eq!(rt; out.bytes(), [1; 64].as_slice());
    assert_eq!(rt; look_at(&ring, &mut reader, 1, &mut out), Looked::NotYet);
    Ok(())
}

#[test]
fn the_largest_ring_opens(rt: HostRuntime) -> Result<(), Fail> {
    let mut ring = ListRing::open(rt.alloc(), 65535, 65024)
        .ok()
        .ok_or("there is memory")?;
    assert_eq!(rt; ring.put(b"first"), Put::Done);
    let (mut reader, mut out) = reader_and_buffer(rt.alloc(), 65024).ok_or("there is memory")?;
    assert_eq!(rt; look_at(&ring, &mut reader, 0, &mut out), Looked::Got);
    assert_eq!(rt; out.bytes(), b"first".as_slice());
    Ok(())
}
