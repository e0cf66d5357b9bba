//! Rows of answers: what they read as, and how they are written.

use super::*;

const ORDER: &str = r#"
    - | -
    0a0c 0a04 0801 1002 1001 920201 "a" c23e01 "n" ca3e02 0803 | flow(time=1s,2ns verdict=1 uuid=a) node_name=n time=3s,0ns
    # The same, turned.
    ca3e02 0803 c23e01 "n" 0a0c 920201 "a" 1001 0a04 1002 0801 | flow(time=1s,2ns verdict=1 uuid=a) node_name=n time=3s,0ns
    # There, and empty.
    0a00 | flow()
    0a02 0a00 | flow(time=0s,0ns)
    ca3e00 | time=0s,0ns
    # The last one counts.
    0a04 1001 1002 | flow(verdict=2)
    c23e01 "a" c23e01 "b" | node_name=b
    0a07 920201 "a" 920200 | flow()
    # Messages in two fields are one.
    0a02 1001 0a04 920201 "a" | flow(verdict=1 uuid=a)
    0a04 0a02 0801 0a04 0a02 1002 | flow(time=1s,2ns)
    ca3e02 0801 ca3e02 1002 | time=1s,2ns
"#;

#[test]
fn any_order_the_last_and_merged(rt: HostRuntime) -> Result<(), Fail> {
    all_told(&rt, rt.alloc(), (ORDER, 0, 1), read_words)
}

const NUMBERS: &str = "
    0a0b 10 ff*9 01 | flow(verdict=-1)
    ca3e16 08 ff*9 01 10 ff*9 01 | time=-1s,-1ns
    ca3e0b 08 80*9 01 | time=-9223372036854775808s,0ns
    # 2^32 - 1 as int64 and as int32, then 2^32 + 5 as an enum.
    ca3e0c 08ffffffff0f 10ffffffff0f | time=4294967295s,-1ns
    0a06 108580808010 | flow(verdict=5)
    # Varints longer than needed: tags, a length and a number.
    8a00 8500 9000 818000 | flow(verdict=1)
";

#[test]
fn numbers_of_any_spelling(rt: HostRuntime) -> Result<(), Fail> {
    all_told(&rt, rt.alloc(), (NUMBERS, 0, 1), read_words)
}

const NOT_KNOWN: &str = r#"
    # Number 4 of each wire type, before a time, behind it and around it.
    2007 ca3e00 | time=0s,0ns unknown=2007
    210102030405060708 ca3e00 | time=0s,0ns unknown=210102030405060708
    ca3e00 2202 0bff | time=0s,0ns unknown=22020bff
    2509080706 ca3e00 2007 | time=0s,0ns unknown=25090807062007
    # The greatest number, and a tag and a number that are longer than needed.
    faffffff0f00 | unknown=faffffff0f00
    9800 878000 | unknown=9800878000
    # Known numbers, with a wire type that is not theirs.
    0805 | unknown=0805
    1005 1d09080706 | unknown=10051d09080706
    c03e01 | unknown=c03e01
    cd3e00000000 0805 | unknown=cd3e000000000805
    # In a flow: verdict 1, and time, verdict and uuid with a wire type that is not theirs.
    0a0a 0805 1201 "a" 1001 900207 | flow(verdict=1 unknown=0805120161900207)
    0a07 1001 1509090909 | flow(verdict=1 unknown=1509090909)
    # An answer's number is none of a flow, and its body is no text.
    0a06 c23e01 ff 1001 | flow(verdict=1 unknown=c23e01ff)
    # Two flows are one, and the answer keeps its own.
    0a02 3801 1807 0a04 3802 1001 | flow(verdict=1 unknown=38013802) unknown=1807
    # A moment keeps nothing: number 3 of each wire type, around second 1.
    ca3e16 1807 190102030405060708 0801 1a02 0bff 1d01020304 | time=1s,0ns
    # Seconds and nanoseconds with a wire type that is not theirs; and in a flow.
    ca3e09 0801 0a00 1509090909 | time=1s,0ns
    0a08 0a06 1a00 0801 1807 | flow(time=1s,0ns)
"#;

#[test]
fn what_is_not_known_is_kept(rt: HostRuntime) -> Result<(), Fail> {
    all_told(&rt, rt.alloc(), (NOT_KNOWN, 0, 1), read_words)
}

const MEMBERS: &str = r#"
    1a04 0803 1003 | lost_events(source=3 num_events_lost=3)
    # A flow, lost events, a flow: nothing of the first flow is left.
    0a02 1001 1a02 0803 0a05 920202 "ab" | flow(uuid=ab)
    1a02 0803 0a00 1a02 1005 | lost_events(num_events_lost=5)
    # A member with no field replaces another too.
    0a02 1001 1a00 | lost_events()
    # Lost events in a row are one, whatever other fields stand between them.
    1a02 0803 1a02 1005 | lost_events(source=3 num_events_lost=5)
    1a02 0803 2007 c23e01 "n" 0805 1a02 1005 | lost_events(source=3 num_events_lost=5) node_name=n unknown=20070805
    # A status is bytes, which are joined and not looked into.
    1202 0bff | node_status(0bff)
    1201 0a 1202 8000 | node_status(0a8000)
    1201 07 0a00 1201 08 | node_status(08)
"#;

#[test]
fn the_last_member_counts(rt: HostRuntime) -> Result<(), Fail> {
    all_told(&rt, rt.alloc(), (MEMBERS, 0, 1), read_words)
}

/// Canonical spellings.
const CANONICAL: &str = r#"
    - | -
    0a00 | flow()
    0a02 0a00 | flow(time=0s,0ns)
    c23e01 "n" ca3e00 | node_name=n time=0s,0ns
    0a0c 0a04 0801 1002 1001 920201 "a" c23e01 "n" ca3e02 0803 | flow(time=1s,2ns verdict=1 uuid=a) node_name=n time=3s,0ns
    0a0b 10 ff*9 01 ca3e16 08 ff*9 01 10 ff*9 01 | flow(verdict=-1) time=-1s,-1ns
    1200 | node_status()
    1202 0bff | node_status(0bff)
    1a00 | lost_events()
    1a08 0803 1003 1a00 2005 c23e01 "n" ca3e02 0803 | lost_events(source=3 num_events_lost=3 cpu=0 unknown=2005) node_name=n time=3s,0ns
"#;

#[test]
fn answers_are_written(rt: HostRuntime) -> Result<(), Fail> {
    all_told(&rt, rt.alloc(), (CANONICAL, 0, 1), read_words)?;
    all_written(&rt, rt.alloc(), (CANONICAL, 0, 0), anew)
}

/// Messages, how they are written anew, and what both read as.
const ANEW: &str = r#"
    # The members of a oneof: the last one, its bodies joined, stands before the time.
    ca3e00 0a00 1a02 1005 1a02 0803 | 1a04 0803 1005 ca3e00 | lost_events(source=3 num_events_lost=5) time=0s,0ns
    1a00 1201 0b c23e01 "n" 1201 ff | 1202 0bff c23e01 "n" | node_status(0bff) node_name=n
    # The answer's own behind its time, the flow's behind its uuid.
    1807 ca3e00 c23e01 "n" | c23e01 "n" ca3e00 1807 | node_name=n time=0s,0ns unknown=1807
    0a08 3805 920201 "a" 1002 | 0a08 1002 920201 "a" 3805 | flow(verdict=2 uuid=a unknown=3805)
    # A known number with another wire type is not put in its place.
    0805 0a00 | 0a00 0805 | flow() unknown=0805
    # In the order in which they came, and as they were spelled.
    9800 8700 1001 0a02 1001 | 0a02 1001 9800 8700 1001 | flow(verdict=1) unknown=980087001001
    # Two flows, each with one, and the answer's own between them.
    0a02 3801 1807 0a04 3802 1001 | 0a06 1001 3801 3802 1807 | flow(verdict=1 unknown=38013802) unknown=1807
    # What a moment does not know is gone.
    0a06 0a04 1807 0801 | 0a04 0a02 0801 | flow(time=1s,0ns)
    # Longer than needed, and defaults.
    8a00 8500 9000 818000 c23e00 | 0a02 1001 | flow(verdict=1)
"#;

#[test]
fn what_was_written_is_read_again(rt: HostRuntime) -> Result<(), Fail> {
    all_written(&rt, rt.alloc(), (ANEW, 0, 1), anew)?;
    all_written(&rt, rt.alloc(), (ANEW, 1, 1), anew)?;
    all_told(&rt, rt.alloc(), (ANEW, 0, 2), read_words)?;
    all_told(&rt, rt.alloc(), (ANEW, 1, 2), read_words)
}

const LENGTHS_OF_TWO_BYTES: &str = r#"
    0a8401 92028001 "a"*128
    12904e 75*10000
"#;

#[test]
fn lengths_of_two_bytes(rt: HostRuntime) -> Result<(), Fail> {
    all_written(&rt, rt.alloc(), (LENGTHS_OF_TWO_BYTES, 0, 0), anew)
}

/// Long answers, and how many bytes they have when they are written anew.
const SIZES: &str = r#"
    # Behind a verdict of five bytes, which takes ten anew: a name, and a field that is not known.
    0a06 10ffffffff0f c23eeeff03 "u"*65518 | 65536
    0a06 10ffffffff0f c23eefff03 "u"*65519 | 65537
    0a06 10ffffffff0f c23ef3ff03 "u"*65523 | 65541
    0a06 10ffffffff0f 22efff03 "u"*65519 | 65536
    0a06 10ffffffff0f 22f0ff03 "u"*65520 | 65537
    # Another member, without the flow before it: a status, and lost events of fields of five bytes.
    0a06 10ffffffff0f 12efff03 "u"*65519 | 65523
    0a06 10ffffffff0f 1af0ff03 "u"*65520 | 65524
    # The same behind a nanosecond of five bytes, which takes ten anew.
    ca3e06 10ffffffff0f 12eeff03 "u"*65518 | 65536
    ca3e06 10ffffffff0f 12efff03 "u"*65519 | 65537
    ca3e06 10ffffffff0f 1aebff03 "u"*65515 | 65533
    ca3e06 10ffffffff0f 1af0ff03 "u"*65520 | 65538
    # Behind two numbers that grow.
    0a0e 0a06 10ffffffff0f 10ffffffff0f c23ee1ff03 "u"*65505 | 65536
    0a0e 0a06 10ffffffff0f 10ffffffff0f c23ee2ff03 "u"*65506 | 65537
    # Behind the answer's own time.
    ca3e06 10ffffffff0f c23eedff03 "u"*65517 | 65536
    ca3e06 10ffffffff0f c23eeeff03 "u"*65518 | 65537
    ca3e06 10ffffffff0f 22eeff03 "u"*65518 | 65536
    ca3e06 10ffffffff0f 22efff03 "u"*65519 | 65537
    # With nothing that grows.
    0a00 22faff03 "u"*65530 | 65536
    2005 c23ef9ff03 "u"*65529 | 65536
    # Long, and far from 65,536.
    0a06 10ffffffff0f c23ee88401 "u"*17000 | 17018
    0a06 10ffffffff0f 22e88401 "u"*17000 | 17017
    # Events of whose answers the canonical spelling has 65,537 bytes.
    0af8ff03 10ffffffff0f 9202edff03 "u"*65517 | 65537
    0af8ff03 10ffffffff0f 3aeeff03 "u"*65518 | 65537
    1af8ff03 08ffffffff0f 22eeff03 "u"*65518 | 65537
    1af3ff03 08ffffffff0f 22e9ff03 "u"*65513 ca3e02 0801 | 65537
"#;

fn size_anew(alloc: Global, message: &[u8]) -> Result<String, Fail> {
    let size = anew(alloc, message)?.len();
    Ok(format!(in alloc; "{size}")?)
}

#[test]
fn long_answers_have_their_sizes(rt: HostRuntime) -> Result<(), Fail> {
    all_told(&rt, rt.alloc(), (SIZES, 0, 1), size_anew)
}
