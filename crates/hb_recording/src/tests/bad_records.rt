//! Recordings with a bad record: which is the first, and its place.
use super::*;

/// Two flows, in frames of 17 and of 13 bytes.
const TWO_FLOWS: &str = "flow 0; message 0a06 1002 92020131";

/// The fronts of two flows, by their lengths, and what they give; there are 30 bytes.
const FRONTS: &str = "
    0 | end
    1 | bad at 0
    2 | bad at 0
    3 | bad at 0
    4 | bad at 0
    5 | bad at 0
    6 | bad at 0
    7 | bad at 0
    8 | bad at 0
    9 | bad at 0
    10 | bad at 0
    11 | bad at 0
    12 | bad at 0
    13 | bad at 0
    14 | bad at 0
    15 | bad at 0
    16 | bad at 0
    17 | 0, end
    18 | 0, bad at 17
    19 | 0, bad at 17
    20 | 0, bad at 17
    21 | 0, bad at 17
    22 | 0, bad at 17
    23 | 0, bad at 17
    24 | 0, bad at 17
    25 | 0, bad at 17
    26 | 0, bad at 17
    27 | 0, bad at 17
    28 | 0, bad at 17
    29 | 0, bad at 17
    30 | 0, 1, end
    31 | no front
";

/// What the front of this length gives.
fn front_given(alloc: Global, size: &str) -> Result<String, Fail> {
    let file = frames(alloc, TWO_FLOWS)?;
    match file.get(..number(size)?) {
        Some(front) => given(alloc, front),
        None => itself(alloc, "no front"),
    }
}

#[test]
fn every_cut_of_two_flows(rt: HostRuntime) -> Result<(), Fail> {
    all_alike(&rt, rt.alloc(), FRONTS, front_given, itself)
}

/// Records that are bad wherever they stand.
const BAD_RECORDS: &str = "
    # frames that are cut in the head, and in the body
    hex 00
    hex 03 000000
    hex 00 0000000c 0a
    hex 00 00000001
    hex 01 00000001
    hex 02 00000002 08
    hex 03 00010000
    # kinds above 3
    hex 04 00000000
    hex 04 00000002 0a00
    hex 80 00000000
    hex ff 00000000
    # lengths of 65,537 and more, with no body of that length, and with one
    hex 00 00010001
    hex 03 01000000
    hex 00 ffffffff 0a
    hex 00 00010001 00*65537
    hex 01 00010001 00*65537
    hex 02 00010001 00*65537
    hex 03 00010001 00*65537

    # groups, begun and ended, in a response, a flow and both times
    message 0b0c
    message 2324
    message 0c
    message 24
    message 0a02 1001 24
    message 0a02 1b1c
    message 0a01 1c
    message 0a04 0a02 0b0c
    message ca3e01 0c
    # wire types 6 and 7
    message 0e00
    message 0f00
    message 0a02 1600
    message 0a02 1700
    message 0a04 0a02 0e00
    message ca3e02 0f00
    # number 0 of each wire type, and in more bytes
    message 0000
    message 01 0000000000000000
    message 0200
    message 05 00000000
    message 8000 00
    message 0a02 0000
    message 0a04 0a02 0000
    # number 2^29, also in a flow, and 2^60 + 1
    message 8080808010 00
    message 0a06 8280808010 00
    message 88808080808080808001 00

    # varints of eleven bytes: a tag, a length, a verdict and a second
    message 80*11
    message 0a 80*10 00
    message 0a0c 10 80*10 00
    message 0a0e 0a0c 08 80*11
    # a tenth byte above 1: a verdict, a number that is not known, a length and a tag
    message 0a0b 10 ff*9 02
    message 20 81 80*8 02
    message 22 80*9 02
    message a0 80*8 02 00
    # cut in a tag, behind it, and in a number
    message 8a
    message 0a
    message 20
    message 2080
    message 0a01 10
    message 0a02 1080
    message 0a03 0a01 08
    message ca3e02 08ff
    # fixed bytes that are too few
    message 21 01020304050607
    message 25 010203
    message 0a04 3d 010203
    # lengths past the end of the response, of the flow and of the time
    message 0a03 1001
    message c23e02 61
    message ca3e01
    message 2201
    message 0a03 920201
    message 0a04 0a03 0801 2000
    message 0a04 0a02 1a01 2000
    message 0a ff*9 01
    message 22 ffffffff0f 00
    # cut at the end of a body and continued in the next: a verdict, a field, a second, a uuid
    message 0a02 1080 0a01 01
    message 0a01 10 0a01 01
    message 0a07 0a02 0880 0a01 01
    message 0a03 920201 0a01 61

    # lost events with a group: alone, before a flow that counts, before lost events that have none,
    # and behind a flow
    message 1a02 0b24
    message 1a02 0b24 0a02 1001
    message 1a01 0c 1a02 1001
    message 0a02 1001 1a02 0b24
    # a count that is cut, and a processor of number 0
    message 1a02 1080
    message 1a04 1a02 0000
    # a processor that is cut in its number, and one that does not end
    message 1a03 1a01 08
    message 1a03 1a02 08

    # uuids that are no UTF-8, also one that a later one replaces, in the same flow and in another
    message 0a04 920201ff
    message 0a08 920201ff 92020161
    message 0a04 920201ff 0a04 92020161
    message 0a08 92020161 92020180
    # a letter whose two bytes stand in two texts
    message 0a08 920201c3 920201a9
    # a name, also one that a later one replaces, and beside a flow
    message c23e01ff
    message c23e01ff c23e0161
    message 0a021001 c23e01ff
    # a surrogate, a slash in two bytes, a letter that is cut, and one above U+10FFFF
    message c23e03 eda080
    message c23e02 c0af
    message c23e02 61c3
    message 0a07 920204 f4908080
";

/// What a record gives but for being bad.
fn bad_alone(alloc: Global, record: &str) -> Result<String, Fail> {
    given_before(alloc, record, "bad at 0")
}

/// What a record behind a flow gives but for the flow and being bad.
fn bad_behind_a_flow(alloc: Global, record: &str) -> Result<String, Fail> {
    let file = format!(in alloc; "flow 0; {record}")?;
    given_before(alloc, &file, "0, bad at 17")
}

#[test]
fn a_bad_record_has_the_place_of_its_frame(rt: HostRuntime) -> Result<(), Fail> {
    all_alike(&rt, rt.alloc(), BAD_RECORDS, bad_alone, itself)?;
    all_alike(&rt, rt.alloc(), BAD_RECORDS, bad_behind_a_flow, itself)
}

/// Files with a bad record, and others around it.
const FIRST: &str = "
    # a place counts all bytes before it: a call of 7 and a flow of 17, and a cancel of 65,541
    call \"/x\"; flow 0; message 24 | 0, bad at 24
    cancel 24*65536; hex 04 00000000 | bad at 65541
    # another event before an end of a group, a cut and a kind of 4
    message 1200; message 24 | a status, bad at 7
    message 1a00; hex 00 | lost 0, bad at 7
    message 1a00; hex 04 00000000 | lost 0, bad at 7
    # another event behind an end of a group, a kind of 4, and a message without an event
    message 24; message 1200 | bad at 0
    hex 04 00000000; message 1200 | bad at 0
    message -; message 24; message 1200 | nothing, bad at 5
    # both in one message: an end of a group, a cut and a text that is no UTF-8
    message 1200 24 | bad at 0
    message 24 1200 | bad at 0
    message 1a00 c23e01ff | bad at 0
    message 1200 0a01 | bad at 0
    # two bad frames
    status -; message 24; hex 04 00000000 | bad at 5
";

#[test]
fn the_first_bad_record_is_told(rt: HostRuntime) -> Result<(), Fail> {
    all_given(&rt, rt.alloc(), FIRST)
}
