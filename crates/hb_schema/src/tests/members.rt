//! Rows of a oneof: the last member counts, with its bodies after any other.

use super::*;

const MEMBERS: &str = r#"
    - | none() | -
    0a02 0801 | moment(secs=1) | 0a02 0801
    1202 0801 | small(number=1) | 1202 0801
    1a01 "a" | raw(61) | 1a01 "a"
    # Each is there though it is empty.
    0a00 | moment() | 0a00
    1200 | small() | 1200
    1a00 | raw() | 1a00
    # The last takes the place of another.
    0a00 1200 | small() | 1200
    1202 0801 0a00 | moment() | 0a00
    1a01 "a" 1200 | small() | 1200
    0a02 0801 1a01 "b" | raw(62) | 1a01 "b"
    # Bodies of one member merge, and raw ones are joined.
    1202 0801 1203 1201 "a" | small(number=1 name=a) | 1205 0801 1201 "a"
    0a02 0801 0a02 1002 | moment(secs=1 nanos=2) | 0a04 0801 1002
    1a01 "a" 1a00 1a02 "bc" | raw(616263) | 1a03 "abc"
    # But only those after another member.
    1202 0801 0a02 0809 1203 1201 "a" | small(name=a) | 1203 1201 "a"
    1a01 "a" 1200 1a01 "b" | raw(62) | 1a01 "b"
    0a02 0801 1a01 "x" 0a02 1002 0a02 0803 | moment(secs=3 nanos=2) | 0a04 0803 1002
    # A field that is not known, or a member's number with another wire type, is none.
    1202 0801 0807 2200 1203 1201 "a" | small(number=1 name=a) unknown=08072200 | 1205 0801 1201 "a" 0807 2200
    # A raw body is not looked into.
    1a02 0bff | raw(0bff) | 1a02 0bff
"#;

#[test]
fn the_last_member_counts(rt: HostRuntime) -> Result<(), Fail> {
    all_rows::<Choice>(&rt, rt.alloc(), MEMBERS)
}
