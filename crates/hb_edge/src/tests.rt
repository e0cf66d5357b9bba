//! Calls of the forms in memory, of the adapters, and through the bounds.
use crate::{
    Clock, FileShelf, Link, MemLink, MemShelf, MemSink, Moved, RealClock, SetClock, Shelf, Sink,
    StdoutSink,
};
use hb_cases::{CaseFault, Row, bytes, digits, number, rows};
use std::alloc::{AllocError, Global};
use std::process::Abort;
use std::test::Fail;
use std::time::Duration;
use std::{fs, io, rt};

/// What one read of a shelf answers and gives, into four bytes that were 0.
fn look<S: Shelf>(alloc: Global, shelf: &mut S, name: &str, at: u64) -> Result<String, AllocError> {
    let mut buf = [0; 4];
    let answer = shelf.read(name, at, &mut buf);
    format!(in alloc; "{answer:?} {}", digits(alloc, &buf)?)
}

/// Reads of a shelf: the file, the place, and what is answered and given.
fn all_read<S: Shelf>(
    rt: &impl Abort,
    alloc: Global,
    shelf: &mut S,
    table: &str,
) -> Result<(), Fail> {
    for row in &rows(alloc, table)? {
        let read = look(alloc, shelf, row.cell(0), number(row.cell(1))?)?;
        assert_eq!(rt; read.as_str(), row.cell(2), "{row}");
    }
    Ok(())
}

#[test]
fn a_shelf_fails_as_planned(rt: HostRuntime) -> Result<(), Fail> {
    let mut shelf = MemShelf::new(rt.alloc())?;
    shelf.put("a", &[9, 9])?;
    shelf.put("b", &[7])?;
    shelf.put("a", &[1, 2, 3, 4, 5, 6])?;
    shelf.set_fail(&[2])?;
    let table = "
        a | 0 | Took(4) 01020304
        a | 4 | Failed 00000000
        a | 4 | Took(2) 05060000
        a | 6 | End 00000000
        b | 0 | Took(1) 07000000
        c | 0 | Failed 00000000
    ";
    all_read(&rt, rt.alloc(), &mut shelf, table)?;
    assert_eq!(rt; shelf.faults(), 2);
    Ok(())
}

/// The three bytes that a cell spells.
fn piece<'a>(alloc: Global, cell: &'a str) -> Result<[u8; 3], CaseFault<'a>> {
    match bytes(alloc, cell)?.as_slice() {
        [a, b, c] => Ok([*a, *b, *c]),
        _ => Err(CaseFault::BadWord { word: cell }),
    }
}

/// What one write to a sink answers.
fn send<K: Sink>(alloc: Global, sink: &mut K, piece: [u8; 3]) -> Result<String, AllocError> {
    format!(in alloc; "{:?}", sink.write(&piece))
}

/// Writes to a sink: the piece and the answer.
fn all_written<K: Sink>(
    rt: &impl Abort,
    alloc: Global,
    sink: &mut K,
    table: &str,
) -> Result<(), Fail> {
    for row in &rows(alloc, table)? {
        let answer = send(alloc, sink, piece(alloc, row.cell(0))?)?;
        assert_eq!(rt; answer.as_str(), row.cell(1), "{row}");
    }
    Ok(())
}

#[test]
fn a_sink_takes_two_bytes_a_write(rt: HostRuntime) -> Result<(), Fail> {
    let mut sink = MemSink::new(rt.alloc())?;
    all_written(&rt, rt.alloc(), &mut sink, "010203 | Took(3)")?;
    sink.set_piece(2);
    sink.set_fail(&[3])?;
    let table = "
        040506 | Took(2)
        040506 | Failed
        040506 | Took(2)
    ";
    all_written(&rt, rt.alloc(), &mut sink, table)?;
    assert_eq!(rt; digits(rt.alloc(), sink.sent())?.as_str(), "01020304050405");
    assert_eq!(rt; sink.faults(), 1);
    assert!(rt; !sink.starved());
    Ok(())
}

/// What one read of a link answers and gives, into four bytes that were 0.
fn receive<L: Link>(alloc: Global, link: &mut L) -> Result<String, AllocError> {
    let mut buf = [0; 4];
    let answer = link.poll_read(&mut buf);
    format!(in alloc; "{answer:?} {}", digits(alloc, &buf)?)
}

/// What one write of a link answers, which is never the end.
fn offer<L: Link>(alloc: Global, link: &mut L, piece: [u8; 3]) -> Result<String, AllocError> {
    match link.poll_write(&piece) {
        Moved::End => unreachable!(),
        answer => format!(in alloc; "{answer:?}"),
    }
}

/// Makes a row's call that answers nothing.
fn set(alloc: Global, link: &mut MemLink, row: Row<'_>) -> Result<(), Fail> {
    let cell = row.cell(1);
    match row.cell(0) {
        "supply" => link.supply(bytes(alloc, cell)?.as_slice())?,
        "piece" => link.set_piece(number::<usize>(cell)?.max(1)),
        "held" => link.set_held(number(cell)?),
        "end" => link.end(),
        word => Err(CaseFault::BadWord { word })?,
    }
    Ok(())
}

/// What a row's call answers, if anything.
fn call(alloc: Global, link: &mut MemLink, row: Row<'_>) -> Result<String, Fail> {
    match row.cell(0) {
        "write" => Ok(offer(alloc, link, piece(alloc, row.cell(1))?)?),
        "read" => Ok(receive(alloc, link)?),
        _ => {
            set(alloc, link, row)?;
            Ok(String::new(alloc))
        }
    }
}

/// Makes the calls of a link, one a row: the call, what it is given, and what it answers.
fn follow(rt: &impl Abort, alloc: Global, link: &mut MemLink, calls: &str) -> Result<(), Fail> {
    for row in &rows(alloc, calls)? {
        assert_eq!(rt; call(alloc, link, *row)?.as_str(), row.cell(2), "{row}");
    }
    Ok(())
}

/// A link's counts: its faults, and the reads and writes that had to wait.
fn counts(link: &MemLink) -> (u64, u64, u64) {
    (link.faults(), link.read_waits(), link.write_waits())
}

#[test]
fn a_link_is_written_in_pieces(rt: HostRuntime) -> Result<(), Fail> {
    let mut link = MemLink::new(rt.alloc(), 7)?;
    let calls = "
        held  | false
        piece | 18446744073709551615
        write | 010203 | Took(3)
        piece | 2
        write | 010203 | Took(2)
        held  | true
        write | 010203 | NotYet
        piece | 4
        write | 010203 | NotYet
        held  | false
        piece | 1
        write | 010203 | Took(1)
    ";
    follow(&rt, rt.alloc(), &mut link, calls)?;
    assert_eq!(rt; digits(rt.alloc(), link.sent())?.as_str(), "010203010201");
    assert_eq!(rt; counts(&link), (0, 0, 2));
    assert_eq!(rt; link.key(), 7);
    assert!(rt; !link.starved());
    Ok(())
}

#[test]
fn a_link_is_read_in_pieces(rt: HostRuntime) -> Result<(), Fail> {
    let mut link = MemLink::new(rt.alloc(), 0)?;
    let calls = "
        supply | -
        piece  | 18446744073709551615
        read   | | NotYet 00000000
        supply | 010203040506
        read   | | Took(4) 01020304
        supply | 070809
        piece  | 3
        read   | | Took(3) 05060700
        read   | | Took(2) 08090000
        read   | | NotYet 00000000
        supply | 0102
        piece  | 1
        read   | | Took(1) 01000000
        end
        read   | | Took(1) 02000000
        read   | | End 00000000
        read   | | End 00000000
    ";
    follow(&rt, rt.alloc(), &mut link, calls)?;
    assert_eq!(rt; counts(&link), (0, 2, 0));
    Ok(())
}

#[test]
fn a_link_counts_reads_and_writes_together(rt: HostRuntime) -> Result<(), Fail> {
    let mut link = MemLink::new(rt.alloc(), 0)?;
    link.set_fail(&[2, 3, 5])?;
    let calls = "
        supply | 0506
        write  | 010203 | Took(3)
        read   |        | Failed 00000000
        write  | 010203 | Failed
        read   |        | Took(2) 05060000
        write  | 010203 | Failed
        read   |        | NotYet 00000000
    ";
    follow(&rt, rt.alloc(), &mut link, calls)?;
    assert_eq!(rt; digits(rt.alloc(), link.sent())?.as_str(), "010203");
    assert_eq!(rt; counts(&link), (3, 1, 0));
    Ok(())
}

#[test]
fn a_file_is_read_in_pieces(rt: HostRuntime) -> Result<(), Fail> {
    let name = "hb_edge_pieces";
    fs::write(&rt, name, [1, 2, 3, 4, 5, 6].as_slice())?;
    let mut shelf = FileShelf::new(rt.alloc(), rt);
    let table = "
        hb_edge_pieces  | 0 | Took(4) 01020304
        hb_edge_pieces  | 4 | Took(2) 05060000
        hb_edge_pieces  | 6 | End 00000000
        hb_edge_missing | 0 | Failed 00000000
        .               | 0 | Failed 00000000
    ";
    all_read(&rt, rt.alloc(), &mut shelf, table)?;
    assert_eq!(rt; shelf.faults(), 2);
    fs::remove_file(&rt, name)?;
    Ok(())
}

#[test]
fn a_file_that_is_replaced_is_read_to_its_end(rt: HostRuntime) -> Result<(), Fail> {
    let name = "hb_edge_replaced";
    fs::write(&rt, name, [1, 2, 3, 4, 5, 6].as_slice())?;
    let mut shelf = FileShelf::new(rt.alloc(), rt);
    let table = "hb_edge_replaced | 0 | Took(4) 01020304";
    all_read(&rt, rt.alloc(), &mut shelf, table)?;
    fs::remove_file(&rt, name)?;
    fs::write(&rt, name, [7, 8, 9].as_slice())?;
    let table = "
        hb_edge_replaced | 4 | Took(2) 05060000
        hb_edge_replaced | 6 | End 00000000
        hb_edge_replaced | 0 | Took(3) 07080900
        hb_edge_replaced | 1 | Took(2) 08090000
    ";
    all_read(&rt, rt.alloc(), &mut shelf, table)?;
    assert_eq!(rt; shelf.faults(), 0);
    fs::remove_file(&rt, name)?;
    Ok(())
}

// An output that takes nothing.
#[derive(Drop)]
struct Full;

impl Print for Full {
    fn print<D: std::fmt::Display + Drop>(&self, _value: D) -> io::Result<()> {
        Ok(())
    }

    fn println<D: std::fmt::Display + Drop>(&self, _value: D) -> io::Result<()> {
        Ok(())
    }

    fn write_all(&self, _bytes: &[u8]) -> io::Result<()> {
        Err(io::Error::from(io::ErrorKind::StorageFull))
    }

    fn write_some(&self, _bytes: &[u8]) -> io::Result<usize> {
        Ok(0)
    }
}

#[test]
fn an_output_takes_a_piece_or_counts(rt: HostRuntime) -> Result<(), Fail> {
    let mut stdout = StdoutSink::new(rt);
    all_written(&rt, rt.alloc(), &mut stdout, r#""ok" 0a | Took(3)"#)?;
    assert_eq!(rt; stdout.faults(), 0);
    let mut full = StdoutSink::new(Full);
    all_written(&rt, rt.alloc(), &mut full, "010203 | Failed")?;
    assert_eq!(rt; full.faults(), 1);
    Ok(())
}

// A clock that gives this time, or fails.
#[derive(Drop)]
struct Watch(Option<Duration>);

impl rt::Clock for Watch {
    fn monotonic(&self) -> io::Result<Duration> {
        self.since_1970()
    }

    fn since_1970(&self) -> io::Result<Duration> {
        self.0.ok_or(io::Error::from(io::ErrorKind::Other))
    }
}

/// The moment that is read at this time, and the faults that are counted then.
fn moment(time: Option<Duration>) -> (u64, u64) {
    let clock = RealClock::new(Watch(time));
    let moment = clock.now();
    (moment, clock.faults())
}

#[test]
fn a_clock_gives_nanoseconds(rt: HostRuntime) {
    let mut set = SetClock::new(5);
    assert_eq!(rt; set.now(), 5);
    set.set(6);
    assert_eq!(rt; set.now(), 6);
    let real = RealClock::new(rt);
    assert!(rt; real.now() > 1_600_000_000_000_000_000);
    assert_eq!(rt; real.faults(), 0);
    assert_eq!(rt; moment(Some(Duration::new(2, 7))), (2_000_000_007, 0));
    assert_eq!(rt; moment(Some(Duration::from_secs(u64::MAX))), (u64::MAX, 0));
    assert_eq!(rt; moment(None), (0, 1));
}
