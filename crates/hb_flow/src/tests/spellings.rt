//! Rows of answers and the records of their events, in spellings of all kinds.

use super::events::record;
use super::*;

/// The time of what stands for an answer's event that is too long, behind one event lost at Cilium's
/// `OBSERVER_EVENTS_QUEUE`.
fn time_of_oversize(alloc: Global, message: &[u8]) -> Result<Vec<u8>, Fail> {
    let mut out = Vec::new(alloc);
    if let Ok(Some(event)) = event_of(alloc, message) {
        record_of(&oversize(alloc, &event)?, &mut out)?;
    }
    behind(alloc, &out, b"\x1a\x04\x08\x02\x10\x01")
}

/// A row is an answer, the record of its event, and the time of that event, as a field of an answer.
fn all_recorded(rt: &impl Abort, alloc: Global, table: &str) -> Result<(), Fail> {
    all_written(rt, alloc, (table, 0, 1), record)?;
    all_written(rt, alloc, (table, 0, 2), time_of_oversize)
}

/// Flows with a time, with none, and with an empty one.
const FLOWS: &str = r#"
    0a0a 0a02 0801 1001 920201 "0" | 0a0a 0a02 0801 1001 920201 "0" | ca3e02 0801
    # The name and the time of the answer itself are not in the record.
    0a0a 0a02 0801 1001 920201 "0" c23e01 "x" ca3e02 0802 | 0a0a 0a02 0801 1001 920201 "0" | ca3e02 0801
    0a06 1001 920201 "0" | 0a06 1001 920201 "0" | -
    0a06 0a00 920201 "0" | 0a06 0a00 920201 "0" | ca3e00
    0a02 1001 | 0a02 1001 | -
    # A field that is not known, before the flow's time.
    0a0c 3805 0a02 0801 1002 920201 "a" | 0a0c 0a02 0801 1002 920201 "a" 3805 | ca3e02 0801
"#;

/// Fields in any order and more than once: the last number and text count, and messages merge.
const ORDER: &str = r#"
    # The flow's fields turned, and its time's.
    0a0a 920201 "0" 1001 0a02 0801 | 0a0a 0a02 0801 1001 920201 "0" | ca3e02 0801
    0a06 0a04 1002 0801 | 0a06 0a04 0801 1002 | ca3e04 0801 1002
    # The answer's own time and name, before the flow.
    ca3e02 0809 c23e01 "x" 0a02 1001 | 0a02 1001 | -
    # The last verdict, uuid and second, also where it is a default.
    0a04 1001 1002 | 0a02 1002 | -
    0a04 1001 1000 | 0a00 | -
    0a08 920201 "a" 920201 "b" | 0a04 920201 "b" | -
    0a07 920201 "a" 920200 | 0a00 | -
    0a06 0a04 0801 0802 | 0a04 0a02 0802 | ca3e02 0802
    # Two flows of different fields, and two of which each has a verdict.
    0a02 1001 0a04 920201 "a" | 0a06 1001 920201 "a" | -
    0a06 1001 920201 "a" 0a02 1002 | 0a06 1002 920201 "a" | -
    # A flow, a name and an empty flow.
    0a02 1001 c23e01 "x" 0a00 | 0a02 1001 | -
    # Two times in one flow, one in each of two flows, and one that is replaced in part.
    0a08 0a02 0801 0a02 1002 | 0a06 0a04 0801 1002 | ca3e04 0801 1002
    0a04 0a02 0801 0a04 0a02 1002 | 0a06 0a04 0801 1002 | ca3e04 0801 1002
    0a0a 0a04 0801 1002 0a02 0803 | 0a06 0a04 0803 1002 | ca3e04 0803 1002
"#;

/// Members of an answer, one after another: the last is the one that counts.
const MEMBERS: &str = r#"
    # A node's status, and lost events, before a flow.
    1200 0a02 1001 | 0a02 1001 | -
    1a00 0a02 1001 | 0a02 1001 | -
    1a04 0803 1003 0a02 1001 | 0a02 1001 | -
    # A flow that lost events replace, and another.
    0a02 1001 1a00 0a04 920201 "a" | 0a04 920201 "a" | -
    # A status, and then two flows, which are one.
    1201 ff 0a02 1001 0a04 920201 "a" | 0a06 1001 920201 "a" | -
"#;

/// Varints that are longer than needed, defaults that are spelled, and messages that are empty.
const LONGER: &str = r#"
    # The flow's tag, its length, and both.
    8a00 02 1001 | 0a02 1001 | -
    0a 8200 1001 | 0a02 1001 | -
    8a8000 82808000 1001 | 0a02 1001 | -
    # The verdict in two bytes and in ten, and its tag.
    0a03 10 8100 | 0a02 1001 | -
    0a0b 10 81 80*8 00 | 0a02 1001 | -
    0a03 9000 01 | 0a02 1001 | -
    # The uuid's tag and its length.
    0a05 928200 01 "a" | 0a04 920201 "a" | -
    0a05 9202 8100 "a" | 0a04 920201 "a" | -
    # The time's length, its tag and its second.
    0a07 0a 8400 8800 8100 | 0a04 0a02 0801 | ca3e02 0801
    # Defaults: a verdict, a uuid, and a time's two numbers.
    0a02 1000 | 0a00 | -
    0a03 920200 | 0a00 | -
    0a06 0a04 0800 1000 | 0a02 0a00 | ca3e00
    # An empty flow, and one of an empty time.
    0a00 | 0a00 | -
    0a02 0a00 | 0a02 0a00 | ca3e00
"#;

/// Numbers of 64 and of 32 bits.
const NUMBERS: &str = "
    # Verdict -1 in ten bytes and in five, and -2^31 in five.
    0a0b 10 ff*9 01 | 0a0b 10 ff*9 01 | -
    0a06 10ffffffff0f | 0a0b 10 ff*9 01 | -
    0a06 108080808008 | 0a0b 1080808080f8ffffffff01 | -
    # Verdict 2^31 - 1, and 5, 0 and -1 with bits above the low 32.
    0a06 10ffffffff07 | 0a06 10ffffffff07 | -
    0a06 108580808010 | 0a02 1005 | -
    0a06 108080808010 | 0a00 | -
    0a06 10ffffffff1f | 0a0b 10 ff*9 01 | -
    # Second 2^32 is kept, and nanosecond 2^32 + 1 is 1.
    0a0e 0a0c 088080808010 108180808010 | 0a0a 0a08 088080808010 1001 | ca3e08 088080808010 1001
    # Second -1 in ten bytes, nanosecond -1 in five.
    0a13 0a11 08 ff*9 01 10ffffffff0f | 0a18 0a16 08 ff*9 01 10 ff*9 01 | ca3e16 08 ff*9 01 10 ff*9 01
";

/// Fields that are not known: a flow hands them on, an answer and a time do not.
const NOT_KNOWN: &str = "
    # Number 3 of each wire type in a flow, around its verdict.
    0a16 1807 190102030405060708 1001 1a02 0bff 1d01020304 | 0a16 1001 1807 190102030405060708 1a02 0bff 1d01020304 | -
    # Number 4 of each wire type in the answer, around its flow.
    2007 210102030405060708 0a02 1001 2202 0bff 2501020304 | 0a02 1001 | -
    # Number 3 of each wire type in a flow's time, around its second.
    0a18 0a16 1807 190102030405060708 0801 1a02 0bff 1d01020304 | 0a04 0a02 0801 | ca3e02 0801
    # A tag and a number that are longer than needed stay so; the greatest number.
    0a07 b800 858000 1001 | 0a07 1001 b800 858000 | -
    0a06 f8ffffff0f 00 | 0a06 f8ffffff0f 00 | -
    # One in each of two flows, and another of the answer between them.
    0a02 3801 2007 0a04 1001 3802 | 0a06 1001 3801 3802 | -
    # The numbers of an answer's other events and of its name are not known in a flow.
    0a04 1200 1a00 | 0a04 1200 1a00 | -
    0a06 c23e01 ff 1001 | 0a06 1001 c23e01 ff | -
    # A flow's time as a number, its verdict as a body and as fixed bytes, its uuid as a number.
    0a02 0805 | 0a02 0805 | -
    0a05 1201 61 1001 | 0a05 1001 1201 61 | -
    0a10 1509090909 110808080808080808 1001 | 0a10 1001 1509090909 110808080808080808 | -
    0a05 900207 1001 | 0a05 1001 900207 | -
    # The answer's flow and name as numbers, its time as fixed bytes.
    0805 c03e01 cd3e00000000 0a02 1001 | 0a02 1001 | -
    # A time's second as a body, its nanosecond as fixed bytes.
    0a0b 0a09 0a00 1509090909 0801 | 0a04 0a02 0801 | ca3e02 0801
    # The numbers of the other events, of wire type 0, and of 5 and 1.
    1005 0a02 1001 1805 | 0a02 1001 | -
    0a02 1001 1501020304 190102030405060708 | 0a02 1001 | -
";

#[test]
fn flows_are_spelled_anew(rt: HostRuntime) -> Result<(), Fail> {
    all_recorded(&rt, rt.alloc(), FLOWS)?;
    all_recorded(&rt, rt.alloc(), ORDER)?;
    all_recorded(&rt, rt.alloc(), MEMBERS)?;
    all_recorded(&rt, rt.alloc(), LONGER)?;
    all_recorded(&rt, rt.alloc(), NUMBERS)?;
    all_recorded(&rt, rt.alloc(), NOT_KNOWN)
}

/// Lost events, with the time of their own answer.
const LOST: &str = r#"
    1a00 | 1a00 | -
    1a04 0803 1003 | 1a04 0803 1003 | -
    # A time behind them, one before them, an empty one, and two that merge.
    1a04 0803 1003 ca3e02 0805 | 1a04 0803 1003 ca3e02 0805 | ca3e02 0805
    ca3e02 0805 1a02 1003 | 1a02 1003 ca3e02 0805 | ca3e02 0805
    1a00 ca3e00 | 1a00 ca3e00 | ca3e00
    ca3e02 1002 1a00 ca3e02 0805 | 1a00 ca3e04 0805 1002 | ca3e04 0805 1002
    # A processor: 0 that is not spelled, 3, 0 that is, -1, two that merge, and one of a field that is
    # not known.
    1a02 1a00 | 1a02 1a00 | -
    1a08 0801 1009 1a02 0803 | 1a08 0801 1009 1a02 0803 | -
    1a04 1a02 0800 | 1a02 1a00 | -
    1a08 1a06 08ffffffff0f | 1a0d 1a0b 08 ff*9 01 | -
    1a06 1a02 0803 1a00 | 1a04 1a02 0803 | -
    1a06 1a04 1007 0803 | 1a04 1a02 0803 | -
    # The source -1 in five bytes, and the greatest count.
    1a06 08ffffffff0f | 1a0b 08 ff*9 01 | -
    1a0b 10 ff*9 01 | 1a0b 10 ff*9 01 | -
    # Fields that are turned, defaults that are spelled, two counts, and two bodies.
    1a04 1007 0803 | 1a04 0803 1007 | -
    1a04 0800 1000 | 1a00 | -
    1a04 1007 1008 | 1a02 1008 | -
    1a02 0803 1a02 1007 | 1a04 0803 1007 | -
    # Number 4 twice, and a source of another wire type, around a count.
    1a09 2200 0a01 61 1007 2005 | 1a09 1007 2200 0a01 61 2005 | -
    # A tag and a length that are longer than needed, and the answer's own name and field that is not
    # known.
    9a8000 8000 | 1a00 | -
    2200 c23e01 "x" 1a00 2005 | 1a00 | -
    # Behind a flow, whose time is not theirs, behind a status, and with a flow between two of them.
    0a06 0a02 0801 1001 1a02 1007 | 1a02 1007 | -
    1201 ff 1a02 1007 | 1a02 1007 | -
    1a02 0803 0a02 1001 1a02 1007 | 1a02 1007 | -
    # Behind the same number of another wire type.
    1805 1d01020304 1a00 | 1a00 | -
"#;

#[test]
fn lost_events_are_spelled_anew(rt: HostRuntime) -> Result<(), Fail> {
    all_recorded(&rt, rt.alloc(), LOST)
}

/// Long fields, and long records.
const LONG: &str = r#"
    # A field that is not known, and a name, beside a flow.
    0a0a 0a02 0801 1001 920201 "0" 22e88401 "u"*17000 | 0a0a 0a02 0801 1001 920201 "0" | ca3e02 0801
    0a0a 0a02 0801 1001 920201 "0" 22f0ff03 "u"*65520 | 0a0a 0a02 0801 1001 920201 "0" | ca3e02 0801
    0a0a 0a02 0801 1001 920201 "0" c23ee88401 "u"*17000 | 0a0a 0a02 0801 1001 920201 "0" | ca3e02 0801
    0a0a 0a02 0801 1001 920201 "0" c23eefff03 "u"*65519 | 0a0a 0a02 0801 1001 920201 "0" | ca3e02 0801
    # 5,000 verdicts are one.
    0a904e 1001*5000 | 0a02 1001 | -
    # What two flows of one answer hold is in one record, of 8,191 bytes and of 8,193.
    0afe1f 3afb1f "u"*4091 0afe1f 3afb1f "u"*4091 | 0afc3f 3afb1f "u"*4091 3afb1f "u"*4091 | -
    0aff1f 3afc1f "u"*4092 0aff1f 3afc1f "u"*4092 | 0afe3f 3afc1f "u"*4092 3afc1f "u"*4092 | -
    # Records of 64 bytes, of 72, of 65,024 and of 8,192.
    0a3e 92023b "u"*59 | 0a3e 92023b "u"*59 | -
    0a3e 0a02 0801 920237 "u"*55 ca3e02 0801 | 0a3e 0a02 0801 920237 "u"*55 | ca3e02 0801
    1a3e 223c "u"*60 | 1a3e 223c "u"*60 | -
    1a39 2237 "u"*55 ca3e02 0801 | 1a39 2237 "u"*55 ca3e02 0801 | ca3e02 0801
    0a46 920243 "u"*67 | 0a46 920243 "u"*67 | -
    0afcfb03 9202f7fb03 "u"*65015 | 0afcfb03 9202f7fb03 "u"*65015 | -
    0afd3f 9202f93f "u"*8185 | 0afd3f 9202f93f "u"*8185 | -
    0afd3f 3afa3f "u"*8186 | 0afd3f 3afa3f "u"*8186 | -
    1af83f 22f53f "u"*8181 ca3e02 0801 | 1af83f 22f53f "u"*8181 ca3e02 0801 | ca3e02 0801
    0af83f 10ffffffff0f 9202ee3f "u"*8174 | 0afd3f 10 ff*9 01 9202ee3f "u"*8174 | -
    0af83f 10ffffffff0f 3aef3f "u"*8175 | 0afd3f 10 ff*9 01 3aef3f "u"*8175 | -
    # Of 104 to 117 bytes.
    0a6d 0a02 0801 1001 920264 "u"*100 | 0a6d 0a02 0801 1001 920264 "u"*100 | ca3e02 0801
    0a67 920264 "u"*100 | 0a67 920264 "u"*100 | -
    0a67 920264 "u"*100 ca3e02 0801 | 0a67 920264 "u"*100 | -
    1a66 2264 "u"*100 | 1a66 2264 "u"*100 | -
    1a6e 0801 1009 1a02 0803 2264 "u"*100 ca3e02 0801 | 1a6e 0801 1009 1a02 0803 2264 "u"*100 ca3e02 0801 | ca3e02 0801
    # Of 65 bytes, of 73, of 65,025, of 8,193 and of 65,536.
    0a3f 92023c "u"*60 | 0a3f 92023c "u"*60 | -
    0a3f 0a02 0801 920238 "u"*56 | 0a3f 0a02 0801 920238 "u"*56 | ca3e02 0801
    1a3f 223d "u"*61 | 1a3f 223d "u"*61 | -
    1a3a 2238 "u"*56 ca3e02 0801 | 1a3a 2238 "u"*56 ca3e02 0801 | ca3e02 0801
    0a47 920244 "u"*68 | 0a47 920244 "u"*68 | -
    0afdfb03 9202f8fb03 "u"*65016 | 0afdfb03 9202f8fb03 "u"*65016 | -
    0afe3f 9202fa3f "u"*8186 | 0afe3f 9202fa3f "u"*8186 | -
    0afe3f 3afb3f "u"*8187 | 0afe3f 3afb3f "u"*8187 | -
    1af93f 22f63f "u"*8182 ca3e02 0801 | 1af93f 22f63f "u"*8182 ca3e02 0801 | ca3e02 0801
    0af93f 10ffffffff0f 9202ef3f "u"*8175 | 0afe3f 10 ff*9 01 9202ef3f "u"*8175 | -
    0af93f 10ffffffff0f 3af03f "u"*8176 | 0afe3f 10 ff*9 01 3af03f "u"*8176 | -
    0af7ff03 10ffffffff0f 9202ecff03 "u"*65516 | 0afcff03 10 ff*9 01 9202ecff03 "u"*65516 | -
    0af7ff03 10ffffffff0f 3aedff03 "u"*65517 | 0afcff03 10 ff*9 01 3aedff03 "u"*65517 | -
    1af7ff03 08ffffffff0f 22edff03 "u"*65517 | 1afcff03 08 ff*9 01 22edff03 "u"*65517 | -
    1af2ff03 08ffffffff0f 22e8ff03 "u"*65512 ca3e02 0801 | 1af7ff03 08 ff*9 01 22e8ff03 "u"*65512 ca3e02 0801 | ca3e02 0801
"#;

#[test]
fn long_events_are_spelled_anew(rt: HostRuntime) -> Result<(), Fail> {
    all_recorded(&rt, rt.alloc(), LONG)
}
