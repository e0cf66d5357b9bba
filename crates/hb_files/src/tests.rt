//! Files of several sizes, and each call that fails.
ghost use Rattle.std.specs.Prelude.{◌≤◌};

use crate::{FileFault, WriteFailed, read_whole, write_whole};
use hb_edge::{MemShelf, MemSink, Shelf, Sink};
use std::test::Fail;

/// So many bytes, no two neighbours alike.
fn bytes_of(rt: HostRuntime, size: usize) -> Result<Vec<u8>, Fail> {
    let mut bytes = Vec::new(rt.alloc());
    for at in 0..size {
        bytes.push((at % 251) as u8)?;
    }
    Ok(bytes)
}

/// What is read of a file of so many bytes, where the reads of these numbers fail, and how many did.
fn read_of(
    rt: HostRuntime,
    size: usize,
    fails: &[u64],
) -> Result<(Result<bool, FileFault>, u64), Fail> {
    let bytes = bytes_of(rt, size)?;
    let mut shelf = MemShelf::new(rt.alloc())?;
    shelf.put("f", &bytes)?;
    shelf.put("g", &[7])?;
    shelf.set_fail(fails)?;
    let read = read_whole(rt.alloc(), &mut shelf, "f").map(|read| read == bytes);
    Ok((read, shelf.faults()))
}

#[test]
fn a_file_is_read_in_pieces(rt: HostRuntime) -> Result<(), Fail> {
    for size in [0, 1, 65_535, 65_536, 65_537, 70_000, 131_072, 131_073] {
        assert_eq!(rt; read_of(rt, size, &[])?, (Ok(true), 0), "{size} bytes");
    }
    Ok(())
}

#[test]
fn each_read_may_fail(rt: HostRuntime) -> Result<(), Fail> {
    // Of the reads of 70,000 bytes the third one finds the end.
    for call in [1, 2, 3] {
        let want = (Err(FileFault::ReadFailed), 1);
        assert_eq!(rt; read_of(rt, 70_000, &[call])?, want, "read {call}");
    }
    assert_eq!(rt; read_of(rt, 70_000, &[4])?, (Ok(true), 0));
    Ok(())
}

#[test]
fn a_missing_file_is_not_read(rt: HostRuntime) -> Result<(), Fail> {
    let mut shelf = MemShelf::new(rt.alloc())?;
    shelf.put("f", &[1])?;
    assert_eq!(rt;
        read_whole(rt.alloc(), &mut shelf, "F"),
        Err(FileFault::ReadFailed)
    );
    assert_eq!(rt; shelf.faults(), 1);
    Ok(())
}

/// A sink that holds a byte, takes so many a write, and fails at the writes of these numbers.
fn sink_of(rt: HostRuntime, most: usize, fails: &[u64]) -> Result<MemSink, Fail>
    requires { 1 ≤ most }
{
    let mut sink = MemSink::new(rt.alloc())?;
    write_whole(&mut sink, b"<").map_err(|_| "the first byte")?;
    sink.set_piece(most);
    sink.set_fail(fails)?;
    Ok(sink)
}

#[test]
fn bytes_are_written_in_pieces(rt: HostRuntime) -> Result<(), Fail> {
    for most in 1..8 {
        let mut sink = sink_of(rt, most, &[])?;
        assert_eq!(rt; write_whole(&mut sink, b"abcdef"), Ok(()), "{most} a write");
        assert_eq!(rt; sink.sent(), b"<abcdef".as_slice(), "{most} a write");
    }
    Ok(())
}

#[test]
fn a_write_that_fails_leaves_a_front(rt: HostRuntime) -> Result<(), Fail> {
    // The first write was that of the byte.
    for (call, front) in [(2, "<"), (4, "<ab"), (7, "<abcde")] {
        let mut sink = sink_of(rt, 1, &[call])?;
        assert_eq!(rt;
            write_whole(&mut sink, b"abcdef"),
            Err(WriteFailed),
            "write {call}"
        );
        assert_eq!(rt; sink.sent(), front.as_bytes(), "write {call}");
        assert_eq!(rt; sink.faults(), 1);
    }
    Ok(())
}

#[test]
fn no_bytes_need_no_write(rt: HostRuntime) -> Result<(), Fail> {
    let mut sink = sink_of(rt, 1, &[2])?;
    assert_eq!(rt; write_whole(&mut sink, &[]), Ok(()));
    assert_eq!(rt; (sink.sent(), sink.faults()), (b"<".as_slice(), 0));
    Ok(())
}
