//! Rows of texts, of messages in messages, and of fields that are not known.

use super::*;

const TEXTS: &str = r#"
    # The encoding guide's text, of the last counts one; an empty one is not written.
    4a07 "testing" | text=testing | 4a07 "testing"
    4a01 "a" 4a01 "b" | text=b | 4a01 "b"
    4a01 "a" 4a00 | - | -
    # Repeated texts stay in order, also where they are empty.
    5201 "a" 5200 5201 "b" | texts:a texts: texts:b | 5201 "a" 5200 5201 "b"
    5201 "b" 4a01 "x" 5201 "a" | text=x texts:b texts:a | 4a01 "x" 5201 "b" 5201 "a"
    # Letters of two, three and four bytes.
    4a09 c3a9 e282ac f09f9880 | text=é€😀 | 4a09 c3a9 e282ac f09f9880
"#;

const MESSAGES: &str = r#"
    # The encoding guide's message in a message.
    5a03 08 9601 | small(number=150) | 5a03 08 9601
    # One that is there and empty, a repeated one, and a wrapper.
    5a00 | small() | 5a00
    6200 | smalls() | 6200
    6a00 | wrapped() | 6a00
    6a02 0800 | wrapped() | 6a00
    6a02 0801 | wrapped(value=1) | 6a02 0801
    # Several bodies of one message merge, those of a repeated one do not.
    5a02 0801 5a03 1201 "a" | small(number=1 name=a) | 5a05 0801 1201 "a"
    5a05 0801 1201 "a" 5a02 0802 | small(number=2 name=a) | 5a05 0802 1201 "a"
    5a02 0801 5a02 0800 | small() | 5a00
    5a02 0801 5a00 | small(number=1) | 5a02 0801
    6202 0801 6203 1201 "a" | smalls(number=1) smalls(name=a) | 6202 0801 6203 1201 "a"
    6a02 0801 6a02 0800 | wrapped() | 6a00
    # A field between two bodies, and one of a number that is too long.
    5a02 0801 2801 5a03 1201 "b" | flag=1 small(number=1 name=b) | 2801 5a05 0801 1201 "b"
    5a06 08 8280808010 | small(number=2) | 5a02 0802
    # A field that is not known stands behind those that are, in each message.
    78 05 0801 | natural=1 unknown=7805 | 0801 7805
    5a06 3805 1201 "a" 08 | malformed 7 | -
    5a07 3805 1201 "a" 0801 | small(number=1 name=a unknown=3805) | 5a07 0801 1201 "a" 3805
    5a02 1807 7a00 5a02 0801 5a02 1909 | malformed 12 | -
    5a02 1807 7a00 5a02 0801 5a04 1a02 "yz" | small(number=1 unknown=18071a02797a) unknown=7a00 | 5a08 0801 1807 1a02 "yz" 7a00
"#;

/// A number that is known under another wire type is a field that is not known.
const OTHER_TYPES: &str = r#"
    09 0102030405060708 | unknown=090102030405060708 | 09 0102030405060708
    0d 01020304 0a01 "x" | unknown=0d010203040a0178 | 0d 01020304 0a01 "x"
    48 05 | unknown=4805 | 4805
    50 05 58 06 60 07 68 08 | unknown=5005580660076808 | 5005 5806 6007 6808
    49 0102030405060708 | unknown=490102030405060708 | 49 0102030405060708
    # A tag and a number that are longer than needed stay so, and the greatest number of a field.
    f880 00 858000 0801 | natural=1 unknown=f88000858000 | 0801 f880 00 858000
    f8ffffff0f 01 | unknown=f8ffffff0f01 | f8ffffff0f 01
    # What is not known is not looked into.
    7a01 ff 7a02 0bff | unknown=7a01ff7a020bff | 7a01 ff 7a02 0bff
"#;

#[test]
fn texts_and_messages(rt: HostRuntime) -> Result<(), Fail> {
    all_rows::<Sample>(&rt, rt.alloc(), TEXTS)?;
    all_rows::<Sample>(&rt, rt.alloc(), MESSAGES)?;
    all_rows::<Sample>(&rt, rt.alloc(), OTHER_TYPES)
}
