//! Rows of lost events alone, and of events.

use super::*;

/// What the bytes of lost events read as.
fn lost_read_words(alloc: Global, message: &[u8]) -> Result<String, Fail> {
    match LostEvent::read(alloc, message) {
        Ok(event) => some_words(alloc, lost_words(alloc, &event)?),
        Err(fault) => fault_words(alloc, fault),
    }
}

/// Bytes of lost events, what they read as, and how they are written anew.
const LOST: &str = "
    - | - | -
    1003 0803 | source=3 num_events_lost=3 | 0803 1003
    # The last number counts, and the wrappers are one.
    0801 0800 | - | -
    1a02 0801 1a00 | cpu=1 | 1a02 0801
    # Processor 0 is there, and what its wrapper does not know is gone.
    1a00 | cpu=0 | 1a00
    1a04 0800 1005 | cpu=0 | 1a00
    # What is not known is kept, as are known numbers with another wire type.
    2005 0a00 1007 1805 | num_events_lost=7 unknown=20050a001805 | 1007 2005 0a00 1805
    # 2^64 - 1 is a count, and -1 a source and a processor.
    10 ff*9 01 | num_events_lost=18446744073709551615 | 10 ff*9 01
    08ffffffff0f 1a06 08ffffffff0f | source=-1 cpu=-1 | 08 ff*9 01 1a0b 08 ff*9 01
";

/// What is written of the lost events that these bytes read as, behind a byte that stays.
fn lost_anew(alloc: Global, message: &[u8]) -> Result<Vec<u8>, Fail> {
    let mut out = Vec::from_slice(alloc, &[0xff])?;
    if let Ok(event) = LostEvent::read(alloc, message) {
        event.write(&mut out)?;
    }
    behind(alloc, &out, &[0xff])
}

#[test]
fn lost_events_are_read_and_written(rt: HostRuntime) -> Result<(), Fail> {
    all_told(&rt, rt.alloc(), (LOST, 0, 1), lost_read_words)?;
    all_written(&rt, rt.alloc(), (LOST, 0, 2), lost_anew)
}

/// Bytes of lost events, and their fault.
const LOST_FAULTS: &str = "
    0803 0b | malformed 2
    0803 1a03 0801 | malformed 2
    0803 1a02 0880 | malformed 4
";

#[test]
fn lost_events_have_faults_at_their_places(rt: HostRuntime) -> Result<(), Fail> {
    all_told(&rt, rt.alloc(), (LOST_FAULTS, 0, 1), lost_read_words)
}

/// The event in the bytes of an answer.
fn event_read_words(alloc: Global, message: &[u8]) -> Result<String, Fail> {
    match event_of(alloc, message) {
        Ok(Some(event)) => event_words(alloc, &event),
        Ok(None) => Ok(String::from_str(alloc, "-")?),
        Err(fault) => fault_words(alloc, fault),
    }
}

/// Answers, and their events.
const EVENTS: &str = r#"
    - | -
    # A flow has its own time, lost events have that of the answer.
    ca3e02 0801 0a00 | flow()
    ca3e02 0801 c23e01 "n" 1a00 | lost_events() time=1s,0ns
    # A node's status is no event, though a flow came before it.
    1200 | -
    0a00 1201 07 | -
    0a02 10 | malformed 0
    # A name, an empty one, and times.
    c23e01 "x" | -
    c23e00 | -
    ca3e02 0801 | -
    ca3e00 | -
    # A flow's number of wire type 0, and the other events' of wire types 0, 5 and 1.
    0805 | -
    1005 1805 | -
    1501020304 | -
    190102030405060708 | -
    # A body whose number is not known.
    2202 1200 | -
    # A status whose tag and length are longer than needed.
    9200 8000 | -
    # Of bytes that are no message: a tag that is cut, a group, a number that is cut.
    1201 ff | -
    1202 0b24 | -
    1202 0880 | -
    # Behind a flow, and behind lost events.
    0a02 1001 1200 | -
    1a04 0803 1003 1200 | -
    # With a name and a time.
    c23e01 "x" 1200 ca3e02 0801 | -
    # Behind the same number of other wire types.
    1005 1501020304 1200 | -
    # Long.
    128040 "u"*8192 | -
    12fcff03 "u"*65532 | -
"#;

#[test]
fn events_of_answers(rt: HostRuntime) -> Result<(), Fail> {
    all_told(&rt, rt.alloc(), (EVENTS, 0, 1), event_read_words)
}

/// Records, and their events.
const RECORDS: &str = r#"
    0a0a 0a02 0801 1001 920201 "0" | flow(time=1s,0ns verdict=1 uuid=0)
    # What is not known is in the record.
    0a02 3805 | flow(unknown=3805)
    0a0f 0a02 0801 1002 920201 "a" 3805 1a01 ff | flow(time=1s,0ns verdict=2 uuid=a unknown=38051a01ff)
    # Lost events, with their time and without.
    1a04 0803 1003 ca3e02 0801 | lost_events(source=3 num_events_lost=3) time=1s,0ns
    1a00 | lost_events()
    1a0a 0802 1001 1a02 0807 2005 ca3e00 | lost_events(source=2 num_events_lost=1 cpu=7 unknown=2005) time=0s,0ns
"#;

/// The record of an answer's event.
pub(crate) fn record(alloc: Global, message: &[u8]) -> Result<Vec<u8>, Fail> {
    let mut out = Vec::new(alloc);
    if let Ok(Some(event)) = event_of(alloc, message) {
        record_of(&event, &mut out)?;
    }
    Ok(out)
}

#[test]
fn records_of_events(rt: HostRuntime) -> Result<(), Fail> {
    all_told(&rt, rt.alloc(), (RECORDS, 0, 1), event_read_words)?;
    all_written(&rt, rt.alloc(), (RECORDS, 0, 0), record)
}

/// Records, and the event in the place of one that is too long.
const OVERSIZE: &str = r#"
    0a0e 0a04 0801 1002 1001 920201 "a" 3805 | lost_events(source=2 num_events_lost=1) time=1s,2ns
    0a06 1001 920201 "a" | lost_events(source=2 num_events_lost=1)
    1a0a 0803 1009 1a02 0801 2005 ca3e02 0803 | lost_events(source=2 num_events_lost=1) time=3s,0ns
"#;

fn oversize_words(alloc: Global, message: &[u8]) -> Result<String, Fail> {
    match event_of(alloc, message) {
        Ok(Some(event)) => event_words(alloc, &oversize(alloc, &event)?),
        _ => Ok(String::from_str(alloc, "-")?),
    }
}

#[test]
fn one_event_lost_in_place_of_an_oversize_one(rt: HostRuntime) -> Result<(), Fail> {
    all_told(&rt, rt.alloc(), (OVERSIZE, 0, 1), oversize_words)
}
