//! One writer and three readers in threads of their own.
ghost use Rattle.std.specs.Prelude.{◌≡◌, ◌≤◌, IfSome};
ghost use Rattle.hb_ring.specs.Passes.{IsWriterOf, IsReaderOf};

use super::*;
use std::thread::{Threads, join};

/// How many records the writer writes.
const RECORDS: u64 = 10_000;

/// How many looks a reader makes at most, before it gives up.
const LOOKS: u64 = 200_000_000;

/// The bytes of the record at a position, and some more: those of the position, twice.
fn record_at(position: u64) -> [u8; 16] {
    let word = position.to_le_bytes();
    let mut bytes = [0; 16];
    for k in 0..16 {
        bytes[k] = word[k % 8];
    }
    bytes
}

/// How many of these bytes the record has.
fn length_at(position: u64) -> usize
    ensures { result ≤ 16 }
{
    8 + (position % 9) as usize
}

/// What a reader's looks came to.
#[derive(Clone, Copy, Debug, Default, PartialEq, Eq)]
struct Tally {
    /// Where it looks next.
    next: u64,
    got: u64,
    gone: u64,
    /// Records that did not name their own position, and answers that went back or want memory.
    wrong: u64,
}

impl Tally {
    /// Counts what one look found.
    fn add(&mut self, looked: Looked, bytes: &[u8]) {
        let is_wrong = match looked {
            Looked::Got => {
                let is_own = bytes == &record_at(self.next)[..length_at(self.next)];
                self.got = self.got.saturating_add(1);
                self.next = self.next.saturating_add(1);
                !is_own
            }
            Looked::Gone(to) => {
                let is_back = to <= self.next;
                self.gone = self.gone.saturating_add(to.saturating_sub(self.next));
                self.next = to;
                is_back
            }
            Looked::NotYet => false,
            Looked::NoMemory => true,
        };
        self.wrong = self.wrong.saturating_add(u64::from(is_wrong));
    }
}

/// A reader, with a buffer for the ring's longest record.
#[derive(Drop)]
struct Watcher {
    pass: ReaderPass,
    out: Record,
    ghost room: { pass.reader.longest ≤ out.room },
}

/// A reader that came to the end, and what its looks came to.
#[derive(Drop)]
struct Watched {
    pass: ReaderPass,
    tally: Tally,
}

/// What a thread that writes comes to, and one that reads beside it.
#[derive(Drop)]
struct Written {
    writer: WriterPass,
    watched: Watched,
}

/// Writes the records.
fn write_all(ring: &Ring, mut pass: WriterPass) -> WriterPass
    requires pass { IsWriterOf ring.now pass }
    ensures pass { IsWriterOf ring.now result }
{
    for position in 0..RECORDS {
        let bytes = record_at(position);
        ring.write(&mut pass, &bytes[..length_at(position)]);
    }
    pass
}

/// Reads on until every record was written and read, or overwritten.
fn read_all(ring: &Ring, watcher: Watcher) -> Watched
    requires pass { IsReaderOf ring.now watcher.pass }
    ensures pass { IsReaderOf ring.now result.pass }
{
    let Watcher { mut pass, mut out } = watcher;
    let mut tally = Tally::default();
    for _ in 0..LOOKS {
        if tally.next >= RECORDS || pass.looked() == MOST_RECORDS {
            break;
        }
        let looked = ring.look(&mut pass, tally.next, 0, &mut out);
        tally.add(looked, out.bytes());
    }
    Watched { pass, tally }
}

/// The writer beside a reader.
fn write_beside<R: Threads + Sync>(
    rt: &R,
    ring: &Ring,
    writer: WriterPass,
    watcher: Watcher,
) -> Written
    requires writer { IsWriterOf ring.now writer }
    requires pass { IsReaderOf ring.now watcher.pass }
    ensures writer { IsWriterOf ring.now result.writer }
    ensures pass { IsReaderOf ring.now result.watched.pass }
{
    let (writer, watched) = join(
        rt,
        || -> WriterPass
            requires { IsWriterOf ring.now writer }
            ensures { IsWriterOf ring.entry.now result }
        { write_all(ring, writer) },
        || -> Watched
            requires { IsReaderOf ring.now watcher.pass }
            ensures { IsReaderOf ring.entry.now result.pass }
        { read_all(ring, watcher) },
    );
    Written { writer, watched }
}

/// A reader beside another.
fn read_beside<R: Threads + Sync>(
    rt: &R,
    ring: &Ring,
    one: Watcher,
    other: Watcher,
) -> (Watched, Watched)
    requires one { IsReaderOf ring.now one.pass }
    requires other { IsReaderOf ring.now other.pass }
    ensures one { IsReaderOf ring.now result.0.pass }
    ensures other { IsReaderOf ring.now result.1.pass }
{
    join(
        rt,
        || -> Watched
            requires { IsReaderOf ring.now one.pass }
            ensures { IsReaderOf ring.entry.now result.pass }
        { read_all(ring, one) },
        || -> Watched
            requires { IsReaderOf ring.now other.pass }
            ensures { IsReaderOf ring.entry.now result.pass }
        { read_all(ring, other) },
    )
}

/// That a reader came to the end, and each record that it got was whole and its own; and that it is
/// retired as it looked.
fn is_through(
    rt: &impl Abort,
    ring: &Ring,
    writer: &mut WriterPass,
    watched: Watched,
) -> Result<(), Fail>
    requires writer { IsWriterOf ring.now writer.old }
    requires pass { IsReaderOf ring.now watched.pass }
    ensures writer { writer.new ≡ writer.old }
{
    let Watched { pass, tally } = watched;
    assert_eq!(rt; (tally.next, tally.wrong), (RECORDS, 0));
    assert_eq!(rt; tally.got.checked_add(tally.gone), Some(RECORDS));
    let looked = pass.looked();
    let retired = ring.retire(writer, pass);
    assert_eq!(rt; (retired.looked, retired.seen), (looked, RECORDS));
    Ok(())
}

/// A further reader of a ring.
fn further(alloc: Global, ring: &Ring, writer: &mut WriterPass) -> Option<Watcher>
    requires writer { IsWriterOf ring.now writer.old }
    requires room { writer.old.shape.slot_words ≡ 8 }
    ensures writer { writer.new ≡ writer.old }
    ensures pass { IfSome result (λ watcher. IsReaderOf ring.now watcher.pass) }
{
    let out = Record::with_room(alloc, 8 * SLOT_WORDS as usize).ok()?;
    let pass = ring.reader(writer);
    Some(Watcher { pass, out })
}

/// The records are written, and read by three readers that begin before the first.
fn all_beside<R: Threads + Sync + Abort>(rt: &R, alloc: Global, bench: Bench) -> Result<(), Fail>
    requires slot { bench.ring.shape.slot_words ≡ 8 }
{
    let Bench {
        ring,
        mut writer,
        reader: pass,
        out,
    } = bench;
    let first = Watcher { pass, out };
    let second = further(alloc, &ring, &mut writer).ok_or("there is memory")?;
    let third = further(alloc, &ring, &mut writer).ok_or("there is memory")?;
    let ring = &ring;
    let (written, (second, third)) = join(
        rt,
        || -> Written
            requires { IsWriterOf ring.now writer × IsReaderOf ring.now first.pass }
            ensures { IsWriterOf ring.entry.now result.writer
                × IsReaderOf ring.entry.now result.watched.pass }
        { write_beside(rt, ring, writer, first) },
        || -> (Watched, Watched)
            requires { IsReaderOf ring.now second.pass × IsReaderOf ring.now third.pass }
            ensures { IsReaderOf ring.entry.now result.0.pass
                × IsReaderOf ring.entry.now result.1.pass }
        { read_beside(rt, ring, second, third) },
    );
    let Written {
        mut writer,
        watched: first,
    } = written;
    assert_eq!(rt; ring.written(&writer), RECORDS);
    is_through(rt, ring, &mut writer, first)?;
    is_through(rt, ring, &mut writer, second)?;
    is_through(rt, ring, &mut writer, third)
}

#[test]
fn one_writer_and_three_readers(rt: HostRuntime) -> Result<(), Fail> {
    let bench = of_capacity_3(rt.alloc()).ok_or("there is memory")?;
    all_beside(&rt, rt.alloc(), bench)
}
