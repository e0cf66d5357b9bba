//! Tables and cells, worked out by hand.

use super::*;
use std::test::*;

#[test]
fn cases_are_lines(rt: HostRuntime) -> Result<(), Fail> {
    let table = "
        # a comment
        a | b c |d
          # another

        \" a\"|x#";
    let rows = rows(rt.alloc(), table)?;
    assert_eq!(rt; rows.len(), 2);
    let (first, second) = (rows[0], rows[1]);
    assert_eq!(rt; first.text, "a | b c |d");
    assert_eq!(rt;
        [first.cell(0), first.cell(1), first.cell(2)],
        ["a", "b c", "d"]
    );
    assert_eq!(rt; first.cell(3), "");
    assert_eq!(rt;
        [unquoted(second.cell(0)), unquoted(second.cell(1))],
        [" a", "x#"]
    );
    assert_eq!(rt; format!(in rt.alloc(); "{second}")?.as_str(), "\" a\"|x#");
    Ok(())
}

#[test]
fn cells_spell_bytes(rt: HostRuntime) -> Result<(), Fail> {
    let cases: [(&str, &[u8]); 9] = [
        ("-", b""),
        ("0aFf", b"\x0a\xff"),
        ("0a  0810 \"b c\" 00", b"\x0a\x08\x10b c\x00"),
        ("75*3 61", b"\x75\x75\x75a"),
        ("\"u*\"*2 \"*2\"", b"u*u**2"),
        ("0102*2", b"\x01\x02\x01\x02"),
        ("75*0", b""),
        ("\"\"", b""),
        (" \"ä\" ", b"\xc3\xa4"),
    ];
    for (cell, want) in &cases {
        assert_eq!(rt; bytes(rt.alloc(), cell)?.as_slice(), *want, "{cell}");
    }
    assert_eq!(rt; bytes(rt.alloc(), "61*65536")?.len(), 65_536);
    Ok(())
}

fn bad_word<'a, T: Drop>(read: Result<T, CaseFault<'a>>) -> Option<&'a str> {
    match read {
        Err(CaseFault::BadWord { word }) => Some(word),
        _ => None,
    }
}

#[test]
fn other_words_are_named(rt: HostRuntime) -> Result<(), Fail> {
    for (cell, word) in [
        ("", ""),
        ("0a 0", "0"),
        ("0a 0g 11", "0g"),
        ("0x0a", "0x0a"),
        ("\"a", "\"a"),
        ("75*", "75*"),
        ("75*-1", "75*-1"),
        ("--", "--"),
    ] {
        assert_eq!(rt; bad_word(bytes(rt.alloc(), cell)), Some(word), "{cell}");
    }
    assert_eq!(rt; bad_word(number::<u8>("256")), Some("256"));
    assert_eq!(rt; number::<i64>("-9223372036854775808")?, i64::MIN);
    assert_eq!(rt; digits(rt.alloc(), &[0, 0xaf])?.as_str(), "00af");
    Ok(())
}

/// Files in words, and their bytes.
const FILES: &str = "
    nothing | -
    flow 0 | 00 0000000c 0a0a 0a020801 1001 92020130
    # a time of more than 127 seconds, and of more than 16,383
    flow 4999 | 00 00000010 0a0e 0a03088827 1001 92020434393939
    flow 16383 | 00 00000012 0a10 0a0408808001 1001 9202053136333833
    flows 0..2 | 00 0000000c 0a0a 0a020801 1001 92020130 00 0000000c 0a0a 0a020802 1001 92020131
    # as a node answers it
    flow 0, of n1, at 1s | 00 00000016 0a0a 0a020801 1001 92020130 c23e026e31 ca3e020801
    flow 4999, of localhost, at 5000s | 00 00000022 0a0e 0a03088827 1001 92020434393939 c23e09 6c6f63616c686f7374 ca3e03088827
    flows 0..1 of n1; ok | 00 00000016 0a0a 0a020801 1001 92020130 c23e026e31 ca3e020801 02 00000000
    lost 5 | 00 00000004 1a02 1005
    lost 300@2s | 00 0000000a 1a03 10ac02 ca3e020802
    hex 00 00000002 0a; hex 00 | 00 00000002 0a00
    call \"/x\"; status 0805; cancel - | 01 00000002 2f78 02 00000002 0805 03 00000000
    message 0a021001, 22: 3 letters | 00 00000009 0a021001 2203757575
    1001, twice, all in 0a | 00 00000006 0a04 1001 1001
    message 1001, 9202: 128 letters, all in 0a, of x | 00 0000008d 0a8601 1001 92028001 75*128 c23e0178
";

#[test]
fn words_spell_files(rt: HostRuntime) -> Result<(), Fail> {
    for row in &rows(rt.alloc(), FILES)? {
        let want = bytes(rt.alloc(), row.cell(1))?;
        assert_eq!(rt; frames(rt.alloc(), row.cell(0))?, want, "{row}");
    }
    for (words, word) in [
        ("flow", ""),
        ("flow x", "x"),
        ("flows 0", "0"),
        ("lost 5@xs", "x"),
        ("all 0a", "0a"),
        ("call 0", "0"),
        ("22: y letters", "y"),
        ("", ""),
    ] {
        assert_eq!(rt; bad_word(frames(rt.alloc(), words)), Some(word), "{words}");
    }
    Ok(())
}
