//! Rows of numbers, packed and not, and of the wrappers and moments.

use super::*;

/// Numbers of each kind: the last counts, too many bits are cut off, 0 is not written.
const SINGULAR: &str = "
    - | - | -
    # The encoding guide's 150, and -2 in ten bytes.
    08 9601 | natural=150 | 08 9601
    18 feffffffffffffffff01 | int=-2 | 18 feffffffffffffffff01
    # Of two numbers the last, also where it is a default.
    0801 0802 | natural=2 | 0802
    0801 0800 | - | -
    # A uint32 and an int32 keep the low 32 bits.
    08 8180808010 | natural=1 | 0801
    08 ffffffffff01 | natural=4294967295 | 08 ffffffff0f
    10 8180808010 | long=4294967297 | 10 8180808010
    10 ffffffffffffffffff01 | long=18446744073709551615 | 10 ffffffffffffffffff01
    18 8180808010 | int=1 | 1801
    18 ffffffff0f | int=-1 | 18 ffffffffffffffffff01
    18 ffffffffffffffffff01 | int=-1 | 18 ffffffffffffffffff01
    18 8080808008 | int=-2147483648 | 18 80808080f8ffffffff01
    20 80808080808080808001 | wide=-9223372036854775808 | 20 80808080808080808001
    20 ffffffff0f | wide=4294967295 | 20 ffffffff0f
    # A bool is true where its varint is not 0.
    2801 | flag=1 | 2801
    28 8000 | - | -
    28 80808080808080808001 | flag=1 | 2801
    # Longer varints than needed, and fields in another order.
    28 01 10 8500 0807 | natural=7 long=5 flag=1 | 0807 1005 2801
";

/// Lists of numbers, packed and not, in any mixture.
const REPEATED: &str = "
    # The encoding guide's packed list.
    3206 03 8e02 9ea705 | naturals:3 naturals:270 naturals:86942 | 3206 03 8e02 9ea705
    # Two numbers read the same packed and not, and are written packed.
    3801 3802 | ints:1 ints:2 | 3a02 01 02
    3a02 01 02 | ints:1 ints:2 | 3a02 01 02
    # A list, a number, an empty list, a number and a list.
    3a01 05 3806 3a00 3807 3a02 08 00 | ints:5 ints:6 ints:7 ints:8 ints:0 | 3a05 05 06 07 08 00
    3a00 | - | -
    3000 | naturals:0 | 3201 00
    30 8180808010 3205 8280808010 | naturals:1 naturals:2 | 3202 01 02
    3a0a ffffffffffffffffff01 | ints:-1 | 3a0a ffffffffffffffffff01
    4000 42 03 01 8000 4005 | flags:false flags:true flags:false flags:true | 4204 00 01 00 01
    # Other fields between the numbers of a list.
    3801 0801 3802 3001 | natural=1 naturals:1 ints:1 ints:2 | 0801 3201 01 3a02 01 02
    # Eight bytes and four are no numbers of a list.
    39 0102030405060708 3d 01020304 | unknown=3901020304050607083d01020304 | 39 0102030405060708 3d 01020304
";

#[test]
fn numbers_of_each_kind(rt: HostRuntime) -> Result<(), Fail> {
    all_rows::<Sample>(&rt, rt.alloc(), SINGULAR)?;
    all_rows::<Sample>(&rt, rt.alloc(), REPEATED)
}

/// What is not known in a moment is dropped.
const MOMENTS: &str = r#"
    - | - | -
    0801 1002 | secs=1 nanos=2 | 0801 1002
    1002 0801 | secs=1 nanos=2 | 0801 1002
    08 ffffffffffffffffff01 10 ffffffff0f | secs=-1 nanos=-1 | 08 ffffffffffffffffff01 10 ffffffffffffffffff01
    1807 190102030405060708 0801 1a02 0bff 1d01020304 0a01 "x" | secs=1 | 0801
"#;

const NATURALS: &str = "
    - | - | -
    0805 0806 | value=6 | 0806
    08 8180808010 1007 | value=1 | 0801
";

const INTS: &str = "
    0800 | - | -
    08 ffffffff0f 0a00 | value=-1 | 08 ffffffffffffffffff01
";

const FLAGS: &str = "
    0800 1200 | - | -
    0802 | value=1 | 0801
";

#[test]
fn moments_and_wrappers(rt: HostRuntime) -> Result<(), Fail> {
    all_rows::<Stamp>(&rt, rt.alloc(), MOMENTS)?;
    all_rows::<UInt32Value>(&rt, rt.alloc(), NATURALS)?;
    all_rows::<Int32Value>(&rt, rt.alloc(), INTS)?;
    all_rows::<BoolValue>(&rt, rt.alloc(), FLAGS)
}
