//! Rows of faults and their places, a text that is not UTF-8 at its first byte.

use super::*;

/// What the front of a message of 23 bytes reads as, by its size: from, to.
const CUTS: &str = "
    0 | 0 | -
    1 | 13 | malformed 0
    14 | 14 | flow(time=1s,2ns verdict=1 uuid=a)
    15 | 17 | malformed 14
    18 | 18 | flow(time=1s,2ns verdict=1 uuid=a) node_name=n
    19 | 22 | malformed 18
    23 | 23 | flow(time=1s,2ns verdict=1 uuid=a) node_name=n time=3s,0ns
";

#[test]
fn every_cut_of_one_answer(rt: HostRuntime) -> Result<(), Fail> {
    let whole = r#"0a0c 0a04 0801 1002 1001 920201 "a" c23e01 "n" ca3e02 0803"#;
    let whole = bytes(rt.alloc(), whole)?;
    for row in rows(rt.alloc(), CUTS)? {
        for size in number::<usize>(row.cell(0))?..=number(row.cell(1))? {
            let cut = whole.get(..size).ok_or("a front")?;
            assert_eq!(rt; read_words(rt.alloc(), cut)?.as_str(), row.cell(2), "{row}");
        }
    }
    Ok(())
}

/// No message can have a field as one of these.
const NO_FIELDS: &str = r#"
    # Groups, begun and ended, in an answer, a flow and both times.
    0b 0c | malformed 0
    23 24 | malformed 0
    0c | malformed 0
    24 | malformed 0
    1807 0b 0c | malformed 2
    1807 0c | malformed 2
    0a02 1001 24 | malformed 4
    0a02 1b 1c | malformed 2
    0a01 1c | malformed 2
    0a04 0a02 0b 0c | malformed 4
    ca3e01 0c | malformed 3
    1807 ca3e03 1001 0b | malformed 7
    # Wire types 6 and 7.
    0e00 | malformed 0
    0f00 | malformed 0
    0a02 1600 | malformed 2
    0a02 1700 | malformed 2
    0a04 3805 3e00 | malformed 4
    0a04 0a02 0e00 | malformed 4
    ca3e02 0f00 | malformed 3
    # Number 0 of each wire type, and in more bytes.
    0000 | malformed 0
    01 00*8 | malformed 0
    0200 | malformed 0
    05 00*4 | malformed 0
    800000 | malformed 0
    1807 0007 | malformed 2
    0a02 0000 | malformed 2
    0a04 0a02 0000 | malformed 4
    # Number 2^29, also in a flow, and 2^60 + 1.
    8080808010 00 | malformed 0
    0a06 8280808010 00 | malformed 2
    88 80*8 01 00 | malformed 0
    # Beside a node's status, before it and behind it.
    24 1200 | malformed 0
    1200 24 | malformed 2
"#;

/// A varint is too long, or a value does not end within its message.
const NO_ENDS: &str = r#"
    # Eleven bytes: a tag, a length, a verdict and a second.
    80*11 | malformed 0
    0a 80*10 00 | malformed 0
    0a0c 10 80*10 00 | malformed 2
    0a0e 0a0c 08 80*11 | malformed 4
    # A tenth byte above 1: a verdict, a number that is not known, a length and a tag.
    0a0b 10 ff*9 02 | malformed 2
    20 81 80*8 02 | malformed 0
    22 80*9 02 | malformed 0
    a0 80*8 02 00 | malformed 0
    # Cut in a tag, behind it, and in a number.
    8a | malformed 0
    0a | malformed 0
    20 | malformed 0
    20 80 | malformed 0
    0a01 10 | malformed 2
    0a02 1080 | malformed 2
    0a03 0a01 08 | malformed 4
    ca3e02 08ff | malformed 3
    1807 0a06 1001 0a02 0880 | malformed 8
    # Fixed bytes that are too few.
    21 01020304050607 | malformed 0
    25 010203 | malformed 0
    0a04 3d 010203 | malformed 2
    # Lengths past the end of the answer, of the flow and of the time.
    0a03 1001 | malformed 0
    c23e02 "a" | malformed 0
    ca3e01 | malformed 0
    2201 | malformed 0
    1200 0a01 | malformed 2
    0a03 920201 | malformed 2
    0a04 3805 3a01 | malformed 4
    0a04 0a03 0801 2000 | malformed 2
    0a04 0a03 0801 1807 | malformed 2
    0a04 0a02 1a01 2000 | malformed 4
    0a ff*9 01 | malformed 0
    22 ffffffff0f 00 | malformed 0
    # Cut at the end of a body and continued in the next: a verdict, a field, a second, a uuid.
    0a02 1080 0a01 01 | malformed 2
    0a01 10 0a01 01 | malformed 2
    0a07 0a02 0880 0a01 01 | malformed 4
    0a03 920201 0a01 "a" | malformed 2
"#;

/// The same in lost events.
const NO_LOST_EVENTS: &str = "
    # A group alone, before a flow that counts, before lost events that have none, and behind a flow.
    1a02 0b 24 | malformed 2
    1a02 0b 24 0a02 1001 | malformed 2
    1a01 0c 1a02 1001 | malformed 2
    0a02 1001 1a02 0b 24 | malformed 6
    # A count that is cut, and a processor of number 0.
    1a02 1080 | malformed 2
    1a04 1a02 0000 | malformed 4
    # A processor that is cut in its number, and one that does not end.
    1a03 1a01 08 | malformed 4
    1a03 1a02 08 | malformed 2
    # Replaced by a flow, and in a flow that they replace.
    1a02 0880 0a00 | malformed 2
    2007 1a04 1a02 0880 0a00 | malformed 6
    0a02 1080 1a00 | malformed 2
    # Fixed bytes that are cut behind 13,103 fields that are not.
    0a06 10ffffffff0f 1aefff03 75*65519 | malformed 65527
";

#[test]
fn no_field_starts_at_its_place(rt: HostRuntime) -> Result<(), Fail> {
    all_told(&rt, rt.alloc(), (NO_FIELDS, 0, 1), read_words)?;
    all_told(&rt, rt.alloc(), (NO_ENDS, 0, 1), read_words)?;
    all_told(&rt, rt.alloc(), (NO_LOST_EVENTS, 0, 1), read_words)
}

const NO_TEXTS: &str = r#"
    # A uuid, also one that a later one replaces, in the same flow and in another.
    0a04 920201 ff | bad utf8 5
    0a08 920201 ff 920201 "a" | bad utf8 5
    0a04 920201 ff 0a04 920201 "a" | bad utf8 5
    0a08 920201 "a" 920201 80 | bad utf8 9
    # A letter whose two bytes stand in two texts.
    0a08 920201 c3 920201 a9 | bad utf8 5
    # A name, also one that a later one replaces, and beside a flow.
    c23e01 ff | bad utf8 3
    c23e01 ff c23e01 "a" | bad utf8 3
    0a02 1001 c23e01 ff | bad utf8 7
    1a00 c23e01 ff | bad utf8 5
    # A lone byte after letters, a surrogate, a slash in two bytes, a letter that is cut, and one
    # above U+10FFFF.
    0a08 1001 920203 "ab" ff | bad utf8 7
    c23e03 eda080 | bad utf8 3
    c23e02 c0af | bad utf8 3
    1807 c23e02 c0af | bad utf8 5
    c23e02 "a" c3 | bad utf8 3
    0a07 920204 f4908080 | bad utf8 5
    # The first of two faults.
    c23e01 ff 0b | bad utf8 3
    0a02 1080 c23e01 ff | malformed 2
    0a08 920201 ff 0a02 0880 | bad utf8 5
"#;

#[test]
fn a_text_that_is_not_utf8_has_its_place(rt: HostRuntime) -> Result<(), Fail> {
    all_told(&rt, rt.alloc(), (NO_TEXTS, 0, 1), read_words)
}
