//! Frames as bytes: that one can be had where there is memory, which no clause says, and what begins
//! some bytes.
use super::*;
use hb_cases::{bytes, rows};
use std::alloc::{AllocError, Global};
use std::test::*;

#[test]
fn frames_one_after_another(rt: HostRuntime) -> Result<(), Fail> {
    let mut out = Vec::new(rt.alloc());
    put_frame(&mut out, MESSAGE, b"abc")?;
    put_frame(&mut out, STATUS, b"")?;
    let want = bytes(rt.alloc(), r#"00 00000003 "abc" 02 00000000"#)?;
    assert_eq!(rt; out, want);
    Ok(())
}

/// Bytes, and the frame that begins them: its kind, how many bytes its body has, and how many come
/// after it.
const FRONTS: &str = r#"
    00 00000000         | 0 0 0
    03 00000002 "ab"    | 3 2 0
    01 00000002 "abcde" | 1 2 3
    # none, or one that is cut short
    -                   | none
    00 000000           | none
    00 00000002 "a"     | none
    # kind 4; a body of 65,537 bytes
    04 00000000         | none
    00 00010001         | none
"#;

/// The frame that begins the bytes, as the table has it.
fn front_text(alloc: Global, bytes: &[u8]) -> Result<String, AllocError> {
    match front_of(bytes) {
        Front::Frame { kind, body, after } => {
            format!(in alloc; "{kind} {} {}", body.len(), after.len())
        }
        Front::NeedMore | Front::BadKind { .. } | Front::TooLong { .. } => {
            String::from_str(alloc, "none")
        }
    }
}

#[test]
fn what_begins_some_bytes(rt: HostRuntime) -> Result<(), Fail> {
    for row in &rows(rt.alloc(), FRONTS)? {
        let bytes = bytes(rt.alloc(), row.cell(0))?;
        let front = front_text(rt.alloc(), bytes.as_slice())?;
        assert_eq!(rt; front.as_str(), row.cell(1), "{row}");
    }
    Ok(())
}
