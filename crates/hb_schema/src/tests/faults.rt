//! Rows of faults and their places.

use super::*;

/// The first fault by its place; nothing is written of what has one.
const FAULTS: &str = r#"
    # No field: groups, wire types 6 and 7, number 0, a number too great.
    0b 0c | malformed 0 | -
    2801 0c | malformed 2 | -
    0e00 | malformed 0 | -
    0f00 | malformed 0 | -
    0000 | malformed 0 | -
    2801 800000 | malformed 2 | -
    8080808010 00 | malformed 0 | -
    # A varint of eleven bytes, one whose tenth is above 1, and one that ends too early.
    08 80*11 | malformed 0 | -
    08 ff*9 02 | malformed 0 | -
    2801 08 80 | malformed 2 | -
    # A value that does not end within its message.
    4a02 "a" | malformed 0 | -
    09 00*7 | malformed 0 | -
    0d 00*3 | malformed 0 | -
    5a03 4a02 "a" | malformed 2 | -
    # A text that is not UTF-8, at its first byte, also where another follows.
    4a01 ff | bad utf8 2 | -
    4a02 c3a9 4a01 ff 4a01 "a" | bad utf8 6 | -
    5201 "a" 5202 c328 | bad utf8 5 | -
    5a05 0801 1201 ff | bad utf8 6 | -
    6200 6203 1201 80 | bad utf8 6 | -
    # A body of a message, within its own; not one that is not known, nor a longer one.
    5a01 08 | malformed 2 | -
    5a03 0801 10 | malformed 4 | -
    6a01 08 | malformed 2 | -
    6a02 0080 | malformed 2 | -
    # Each body by itself: what one leaves open another does not end.
    5a01 08 5a01 01 | malformed 2 | -
    # A packed list, at the varint.
    3201 80 | malformed 2 | -
    3203 01 02 80 | malformed 4 | -
    3a0c 01 80*11 | malformed 3 | -
    3801 4202 00 ff | malformed 5 | -
    # The first by its place, whatever it is.
    4a01 ff 3201 80 | bad utf8 2 | -
    3201 80 4a01 ff | malformed 2 | -
    5a02 0801 3201 80 0c | malformed 6 | -
"#;

/// The same of members: also of those that another takes the place of.
const OF_MEMBERS: &str = r#"
    0a01 08 | malformed 2 | -
    0a01 08 1200 | malformed 2 | -
    1203 1201 ff 1a00 | bad utf8 4 | -
    1a01 ff 1201 0c | malformed 5 | -
"#;

#[test]
fn the_first_fault_by_its_place(rt: HostRuntime) -> Result<(), Fail> {
    all_rows::<Sample>(&rt, rt.alloc(), FAULTS)?;
    all_rows::<Choice>(&rt, rt.alloc(), OF_MEMBERS)
}

/// What the front of a message of 20 bytes reads as, by its size: from, to.
const CUTS: &str = "
    0 | 0 | -
    1 | 1 | malformed 0
    2 | 2 | natural=1
    3 | 6 | malformed 2
    7 | 7 | natural=1 ints:1 ints:2 ints:3
    8 | 15 | malformed 7
    16 | 16 | natural=1 ints:1 ints:2 ints:3 small(number=1 name=abc)
    17 | 19 | malformed 16
    20 | 20 | natural=1 text=no ints:1 ints:2 ints:3 small(number=1 name=abc)
";

#[test]
fn every_cut_of_one_message(rt: HostRuntime) -> Result<(), Fail> {
    let whole = r#"0801 3a03 01 02 03 5a07 0801 1203 "abc" 4a02 "no""#;
    let whole = bytes(rt.alloc(), whole)?;
    for row in rows(rt.alloc(), CUTS)? {
        for size in number::<usize>(row.cell(0))?..=number(row.cell(1))? {
            let cut = whole.get(..size).ok_or("a front")?;
            let words = read_words::<Sample>(rt.alloc(), cut)?;
            assert_eq!(rt; words.as_str(), row.cell(2), "{row}");
        }
    }
    Ok(())
}
