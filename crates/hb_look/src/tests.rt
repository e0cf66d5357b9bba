//! That a buffer can be had where there is memory, which no clause says, and what it holds.
use super::*;
use std::test::*;

#[test]
fn a_buffer_of_five_bytes(rt: HostRuntime) -> Result<(), Fail> {
    let mut record = Record::with_room(rt.alloc(), 5)
        .ok()
        .ok_or("there is memory")?;
    assert_eq!(rt; record.bytes(), b"".as_slice());
    record.add(b"abc");
    record.add(b"");
    record.add(b"de");
    assert_eq!(rt; record.bytes(), b"abcde".as_slice());
    record.clear();
    assert_eq!(rt; record.bytes(), b"".as_slice());
    record.add(b"fghij");
    assert_eq!(rt; record.bytes(), b"fghij".as_slice());
    record.truncate(6);
    assert_eq!(rt; record.bytes(), b"fghij".as_slice());
    record.truncate(2);
    assert_eq!(rt; record.bytes(), b"fg".as_slice());
    Ok(())
}
